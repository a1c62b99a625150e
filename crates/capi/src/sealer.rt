//! The calls for C that seal a text in pieces in one reading, under the suites whose tag is over the ciphertext:
//! ChaCha20-Poly1305 (RFC 8439, 2.8) and AES-GCM (SP 800-38D, 7.1).

ghost use Rattle.std.specs.Prelude.{◌≡◌, ◌≢◌, ℕ, List, [], length, true, MatchResult, OnErr};
ghost use Rattle.octets.specs.Numbers.{HasOutcome};
ghost use Rattle.aead.specs.declared.suite.Suite.{Suite};
ghost use Rattle.aead.specs.Suites.{construction_of, is_one_pass, text_limit, suite_number};
ghost use Rattle.aead.specs.Sealing.{Setting, tag_of};
ghost use Rattle.aead.specs.KeyedPasses.{setting_of, BeginRefused, HasBegun};
ghost use Rattle.capi.specs.Suites.{unknown_suite, not_begun, FitsOr};
ghost use Rattle.capi.specs.Sealers.{sealer_mark, NotBegun, zeros, HoldsText, Updates};

use crate::suites::{NOT_BEGUN, UNKNOWN_SUITE, is_siv, mark_of, one_pass_marked};
use aead::{KeyAndNonce, PassState, Suite};
use aes::KnownBlock;
use octets::{Fault, outcome_number};

// The number of this kind of struct: `sealer` in ASCII, and the version of its layout. A mark is this number plus the suite's.
const SEALER: u64 = 0x7365_616c_6572_0200;

/// A sealing in pieces in one reading, 144 bytes. Each of its numbers may have any value.
#[repr(C)]
#[derive(Clone, Copy)]
pub struct StoredSealer {
    // The mark of a sealing under a suite; any other number if no sealing is begun.
    mark: u64,
    pub(crate) keys: KeyAndNonce,
    // The bytes between the nonce and the numbers, so that no byte of the struct is left out of what is promised.
    reserved: u32,
    pub(crate) state: PassState,
}

impl StoredSealer {
    // Returns a struct of zeros. It holds no sealing.
    pub(crate) fn zeros() -> StoredSealer
        ensures { result ≡ zeros }
    {
        StoredSealer {
            mark: 0,
            keys: KeyAndNonce::zeros(),
            reserved: 0,
            state: PassState::zeros(),
        }
    }

    // Marks the struct if the sealing was begun in it. If that was refused, the struct stays zeros. Returns the status.
    #[inline(always)]
    pub(crate) fn note_begun(&mut self, suite: Suite, begun: Result<(), Fault>) -> u32
        requires { OnErr begun (self.old ≡ zeros) }
        ensures begins { (s : Setting) → s.suite ≡ suite → is_one_pass (construction_of suite) ≡ true
            → MatchResult begun (λ _. HasBegun self.old.keys self.old.state s) (BeginRefused s)
            → HasOutcome result (HoldsText self.new s []) (BeginRefused s) }
        ensures refused { result ≢ 0 → self.new ≡ zeros }
    {
        match begun {
            Ok(()) => {
                self.mark = mark_of(SEALER, suite);
                outcome_number(Ok(()))
            }
            Err(fault) => outcome_number(Err(fault)),
        }
    }
}

/// Begins a sealing in pieces (RFC 8439, 2.8; SP 800-38D, 7.1), which then holds the empty text. What the struct held before
/// makes no difference. Returns 0, or the first of these that applies: `UNKNOWN_SUITE` if the number is not that of a suite whose
/// tag is over the ciphertext, `KeyLength` if the key does not have the suite's length, `NonceLength` if the nonce is not 12
/// bytes long, `AadTooLong` if the associated data is past the suite's limit. On each of them zeros are left in the struct.
///
/// The nonce must never be used twice under one key: a repeat gives away the XOR of the two texts, and enough to forge messages.
#[unsafe(no_mangle)]
pub extern "C" fn aeadkit_sealer_init(
    sealer: &mut StoredSealer,
    suite: u32,
    key: &[u8],
    nonce: &[u8],
    aad: &[u8],
) -> u32
    ensures known { (named : Suite) → is_one_pass (construction_of named) ≡ true
        → suite ≡ suite_number named → let s = setting_of named key.now nonce.now aad.now in
        HasOutcome result (HoldsText sealer.new s []) (BeginRefused s) }
    ensures unknown { ((named : Suite) → is_one_pass (construction_of named) ≡ true
        → suite ≢ suite_number named) → result ≡ unknown_suite }
    ensures refused { result ≢ 0 → sealer.new ≡ zeros }
{
    *sealer = StoredSealer::zeros();
    let Some(suite) = Suite::from_number(suite) else {
        return UNKNOWN_SUITE;
    };
    if is_siv(suite) {
        return UNKNOWN_SUITE;
    }
    let begun = sealer.keys.begin(&mut sealer.state, suite, key, nonce, aad);
    sealer.note_begun(suite, begun)
}

/// Adds a piece, of any length, to the text, and leaves its ciphertext in its place. Returns 0, `NOT_BEGUN` if no sealing is
/// begun in the struct, or `TextTooLong` if the text would be past the suite's limit. On both, the struct and the piece are as
/// before.
#[unsafe(no_mangle)]
pub extern "C" fn aeadkit_sealer_update(sealer: &mut StoredSealer, piece: &mut [u8]) -> u32
    ensures holds { (s : Setting) (text : List ℕ)
        → Updates sealer.old sealer.new piece.old piece.new result s text }
    ensures same_pass { sealer.new.mark ≡ sealer.old.mark }
    ensures same_keys { sealer.new.keys ≡ sealer.old.keys }
    ensures not_begun { NotBegun sealer.old → result ≡ not_begun }
    ensures kept { result ≢ 0 → (sealer.new ≡ sealer.old) × (piece.new ≡ piece.old) }
    ensures status { (suite : Suite) → is_one_pass (construction_of suite) ≡ true
        → sealer.old.mark ≡ sealer_mark suite
        → FitsOr Fault.TextTooLong result sealer.old.state.length (length piece.old)
        (text_limit suite) }
{
    let Some(suite) = one_pass_marked(SEALER, sealer.mark) else {
        return NOT_BEGUN;
    };
    let mut known = KnownBlock::none();
    // The keys are lent in the call: with a local for them the compiler keeps the code of AES-GCM-SIV, which is never reached here.
    outcome_number(
        sealer
            .state
            .seal(&sealer.keys.keys(suite), &mut known, piece),
    )
}

/// Ends the sealing: `tag` becomes the tag of the text, 16 bytes, and zeros are left in the struct. Returns 0, or `NOT_BEGUN` if
/// no sealing is begun in the struct. Then the struct and `tag` are as before.
#[unsafe(no_mangle)]
pub extern "C" fn aeadkit_sealer_finish(sealer: &mut StoredSealer, tag: &mut [u8; 16]) -> u32
    ensures holds { (s : Setting) (text : List ℕ) → HoldsText sealer.old s text
        → (result ≡ 0) × (tag.new ≡ tag_of s text) }
    ensures not_begun { NotBegun sealer.old → result ≡ not_begun }
    ensures done { result ≡ 0 → sealer.new ≡ zeros }
    ensures kept { result ≢ 0 → (sealer.new ≡ sealer.old) × (tag.new ≡ tag.old) }
    ensures status { (suite : Suite) → is_one_pass (construction_of suite) ≡ true
        → sealer.old.mark ≡ sealer_mark suite → result ≡ 0 }
{
    let Some(suite) = one_pass_marked(SEALER, sealer.mark) else {
        return NOT_BEGUN;
    };
    let keys = sealer.keys.keys(suite);
    *tag = *sealer.state.tag_of_text(&keys).bytes();
    *sealer = StoredSealer::zeros();
    0
}

/// Leaves zeros in the struct, whatever bytes it held: for a sealing that is given up. Its key is then no longer in the struct.
#[unsafe(no_mangle)]
pub extern "C" fn aeadkit_sealer_wipe(sealer: &mut StoredSealer)
    ensures { sealer.new ≡ zeros }
{
    let none = StoredSealer::zeros();
    *sealer = none;
}

/// Returns the size of the struct of a sealing in pieces in one reading: 144 bytes.
#[unsafe(no_mangle)]
pub extern "C" fn aeadkit_sealer_size() -> usize
    ensures { result ≡ 144 }
{
    size_of::<StoredSealer>()
}
