//! The statuses that no fault has, and the marks of the structs.

ghost use Rattle.std.specs.Prelude.{◌≡◌, ◌↔◌, ◌+◌, ◌<◌, ◌^◌, true, false};
ghost use Rattle.aead.specs.declared.suite.Suite.{Suite};
ghost use Rattle.aead.specs.declared.suite.Construction.TheVariants.{GcmSiv as ByGcmSiv};
ghost use Rattle.aead.specs.Suites.{construction_of, is_one_pass, suite_number};

use aead::{Construction, Suite};

// The status of a call that takes no suite with the given number.
pub(crate) const UNKNOWN_SUITE: u32 = 14;

// The status of a call on a struct in which nothing is begun or kept.
pub(crate) const NOT_BEGUN: u32 = 15;

// The status of a call whose output is not as long as its result. So no length that is one byte off writes past the output or
// leaves a part of it unwritten.
pub(crate) const OUTPUT_LENGTH: u32 = 16;

// Returns the mark of a struct of this kind under a suite.
pub(crate) fn mark_of(kind: u64, suite: Suite) -> u64
    requires { kind < 2 ^ 63 }
    ensures { result ≡ kind + suite_number suite }
{
    kind + u64::from(suite.number())
}

// Returns the suite of a mark, if it is the mark of a struct of this kind.
pub(crate) fn marked(kind: u64, mark: u64) -> Option<Suite>
    ensures { (suite : Suite) → (result ≡ Some suite) ↔ (mark ≡ kind + suite_number suite) }
{
    match u32::try_from(mark.checked_sub(kind)?) {
        Ok(number) => Suite::from_number(number),
        Err(_) => None,
    }
}

// Returns the suite of a mark, if it is the mark of a struct of this kind and the suite's tag is over the ciphertext.
pub(crate) fn one_pass_marked(kind: u64, mark: u64) -> Option<Suite>
    ensures { (suite : Suite) → (result ≡ Some suite)
        ↔ (is_one_pass (construction_of suite) ≡ true × (mark ≡ kind + suite_number suite)) }
{
    match marked(kind, mark) {
        Some(suite) if is_siv(suite) => None,
        found => found,
    }
}

// Returns the suite of a mark, if it is the mark of a struct of this kind and the suite is one of AES-GCM-SIV.
pub(crate) fn siv_marked(kind: u64, mark: u64) -> Option<Suite>
    ensures { (suite : Suite) → (result ≡ Some suite)
        ↔ ((construction_of suite ≡ ByGcmSiv) × (mark ≡ kind + suite_number suite)) }
{
    match marked(kind, mark) {
        Some(suite) if is_siv(suite) => Some(suite),
        _ => None,
    }
}

// Whether a suite is one of AES-GCM-SIV.
pub(crate) fn is_siv(suite: Suite) -> bool
    ensures yes { result ≡ true → construction_of suite ≡ ByGcmSiv }
    ensures no { result ≡ false → is_one_pass (construction_of suite) ≡ true }
{
    match suite.construction() {
        Construction::ChaChaPoly | Construction::Gcm => false,
        Construction::GcmSiv => true,
    }
}
