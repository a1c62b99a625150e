//! The calls for C that seal a text in pieces in two readings, under AES-GCM-SIV (RFC 8452, 4): the first reading gives the tag,
//! and the second one encrypts the text.

ghost use Rattle.std.specs.Prelude.{◌≡◌, ◌≢◌, ◌+◌, ℕ, List, [], length, min, MatchResult, OnErr};
ghost use Rattle.octets.specs.Numbers.{HasOutcome};
ghost use Rattle.aead.specs.declared.suite.Suite.{Suite};
ghost use Rattle.aead.specs.declared.suite.Construction.TheVariants.{GcmSiv as ByGcmSiv};
ghost use Rattle.aead.specs.Suites.{construction_of, text_limit, suite_number};
ghost use Rattle.aead.specs.Sealing.{Setting};
ghost use Rattle.aead.specs.KeyedPasses.{setting_of, BeginRefused, HasBegun};
ghost use Rattle.capi.specs.Suites.{unknown_suite, not_begun, FitsOr, IsDoneOr};
ghost use Rattle.capi.specs.Sivs.{absorbing, writing, NotIn, zeros, HoldsAbsorbing};
ghost use Rattle.capi.specs.Sivs.{Absorbs, BeginsSecond, Encrypts, Ends};

use crate::suites::{NOT_BEGUN, UNKNOWN_SUITE, is_siv, mark_of, siv_marked};
use aead::{KeyAndNonce, Suite, TwoPassState};
use aes::KnownBlock;
use octets::{Fault, outcome_number};

// The number of this kind of struct in the first reading: `sivone` in ASCII, and the version of its layout. A mark is this number
// plus the suite's.
const ABSORBING: u64 = 0x7369_766f_6e65_0200;

// The number of this kind of struct in the second reading: `sivtwo` in ASCII, and the version of its layout.
const WRITING: u64 = 0x7369_7674_776f_0200;

/// A sealing in pieces in two readings, 192 bytes. Each of its numbers may have any value.
#[repr(C)]
#[derive(Clone, Copy)]
pub struct StoredSiv {
    // The mark of a sealing in one of its readings, under a suite; any other number if no sealing is begun.
    mark: u64,
    pub(crate) keys: KeyAndNonce,
    // The bytes between the nonce and the numbers, so that no byte of the struct is left out of what is promised.
    reserved: u32,
    pub(crate) state: TwoPassState,
}

impl StoredSiv {
    // Returns a struct of zeros. It holds no sealing.
    pub(crate) fn zeros() -> StoredSiv
        ensures { result ≡ zeros }
    {
        StoredSiv {
            mark: 0,
            keys: KeyAndNonce::zeros(),
            reserved: 0,
            state: TwoPassState::zeros(),
        }
    }

    // Marks the struct if the message was begun in it: the first reading begins. If that was refused, the struct stays zeros. Returns
    // the status.
    #[inline(always)]
    pub(crate) fn note_begun(&mut self, suite: Suite, begun: Result<(), Fault>) -> u32
        requires { OnErr begun (self.old ≡ zeros) }
        ensures begins { (s : Setting) → s.suite ≡ suite → construction_of suite ≡ ByGcmSiv
            → MatchResult begun (λ _. HasBegun self.old.keys self.old.state.pass s) (BeginRefused s)
            → HasOutcome result (HoldsAbsorbing self.new s []) (BeginRefused s) }
        ensures refused { result ≢ 0 → self.new ≡ zeros }
    {
        match begun {
            Ok(()) => {
                self.mark = mark_of(ABSORBING, suite);
                self.state = TwoPassState::first_reading(self.state.pass);
                outcome_number(Ok(()))
            }
            Err(fault) => outcome_number(Err(fault)),
        }
    }
}

/// Begins the first reading of a sealing (RFC 8452, 4), which then holds the empty text. What the struct held before makes no
/// difference. Returns 0, or the first of these that applies: `UNKNOWN_SUITE` if the number is not that of a suite of
/// AES-GCM-SIV, `KeyLength` if the key does not have the suite's length, `NonceLength` if the nonce is not 12 bytes long,
/// `AadTooLong` if the associated data is past the suite's limit. On each of them zeros are left in the struct.
///
/// The nonce must never be used twice under one key: a repeat gives away whether the texts and the associated data were the same,
/// and nothing else.
#[unsafe(no_mangle)]
pub extern "C" fn aeadkit_siv_init(
    siv: &mut StoredSiv,
    suite: u32,
    key: &[u8],
    nonce: &[u8],
    aad: &[u8],
) -> u32
    ensures known { (named : Suite) → construction_of named ≡ ByGcmSiv
        → suite ≡ suite_number named → let s = setting_of named key.now nonce.now aad.now in
        HasOutcome result (HoldsAbsorbing siv.new s []) (BeginRefused s) }
    ensures unknown { ((named : Suite) → construction_of named ≡ ByGcmSiv
        → suite ≢ suite_number named) → result ≡ unknown_suite }
    ensures refused { result ≢ 0 → siv.new ≡ zeros }
{
    *siv = StoredSiv::zeros();
    let Some(suite) = Suite::from_number(suite) else {
        return UNKNOWN_SUITE;
    };
    if !is_siv(suite) {
        return UNKNOWN_SUITE;
    }
    let begun = siv.keys.begin(&mut siv.state.pass, suite, key, nonce, aad);
    siv.note_begun(suite, begun)
}

/// Takes in a piece of the text, of any length, in the first reading. Returns 0, `NOT_BEGUN` if the struct is not in its first
/// reading, or `TextTooLong` if the text would be past the suite's limit. On both, the struct is as before.
#[unsafe(no_mangle)]
pub extern "C" fn aeadkit_siv_absorb(siv: &mut StoredSiv, piece: &[u8]) -> u32
    ensures holds { (s : Setting) (text : List ℕ) → Absorbs siv.old siv.new piece.now result s text }
    ensures same_pass { siv.new.mark ≡ siv.old.mark }
    ensures same_keys { siv.new.keys ≡ siv.old.keys }
    ensures not_begun { NotIn absorbing siv.old → result ≡ not_begun }
    ensures kept { result ≢ 0 → siv.new ≡ siv.old }
    ensures status { (suite : Suite) → construction_of suite ≡ ByGcmSiv
        → siv.old.mark ≡ absorbing + suite_number suite
        → FitsOr Fault.TextTooLong result siv.old.state.pass.length (length piece.now) (text_limit suite) }
{
    let Some(suite) = siv_marked(ABSORBING, siv.mark) else {
        return NOT_BEGUN;
    };
    let keys = siv.keys.keys(suite);
    outcome_number(siv.state.absorb(&keys, piece))
}

/// Ends the first reading: `tag` becomes the tag of its text, 16 bytes, and the second reading begins, which has taken in nothing
/// yet. Returns 0, or `NOT_BEGUN` if the struct is not in its first reading. Then the struct and `tag` are as before.
#[unsafe(no_mangle)]
pub extern "C" fn aeadkit_siv_begin_second(siv: &mut StoredSiv, tag: &mut [u8; 16]) -> u32
    ensures holds { (s : Setting) (text : List ℕ) → BeginsSecond siv.old siv.new tag.new result s text }
    ensures same_keys { siv.new.keys ≡ siv.old.keys }
    ensures not_begun { NotIn absorbing siv.old → result ≡ not_begun }
    ensures kept { result ≢ 0 → (siv.new ≡ siv.old) × (tag.new ≡ tag.old) }
    ensures status { (suite : Suite) → construction_of suite ≡ ByGcmSiv
        → siv.old.mark ≡ absorbing + suite_number suite → result ≡ 0 }
{
    let Some(suite) = siv_marked(ABSORBING, siv.mark) else {
        return NOT_BEGUN;
    };
    let keys = siv.keys.keys(suite);
    *tag = *siv.state.begin_second_reading(&keys).bytes();
    siv.mark = mark_of(WRITING, suite);
    0
}

/// Takes in a piece of the text, of any length, in the second reading, and leaves its ciphertext in its place. Returns 0,
/// `NOT_BEGUN` if the struct is not in its second reading, or `SourceChanged` if the second text would be longer than the first.
/// On both, the struct and the piece are as before.
#[unsafe(no_mangle)]
pub extern "C" fn aeadkit_siv_update(siv: &mut StoredSiv, piece: &mut [u8]) -> u32
    ensures holds { (s : Setting) (first text : List ℕ)
        → Encrypts siv.old siv.new piece.old piece.new result s first text }
    ensures same_pass { siv.new.mark ≡ siv.old.mark }
    ensures same_keys { siv.new.keys ≡ siv.old.keys }
    ensures not_begun { NotIn writing siv.old → result ≡ not_begun }
    ensures kept { result ≢ 0 → (siv.new ≡ siv.old) × (piece.new ≡ piece.old) }
    ensures status { (suite : Suite) → construction_of suite ≡ ByGcmSiv
        → siv.old.mark ≡ writing + suite_number suite
        → FitsOr Fault.SourceChanged result siv.old.state.pass.length (length piece.old)
        (min siv.old.state.first (text_limit suite)) }
{
    let Some(suite) = siv_marked(WRITING, siv.mark) else {
        return NOT_BEGUN;
    };
    let keys = siv.keys.keys(suite);
    let mut known = KnownBlock::none();
    outcome_number(siv.state.write(&keys, &mut known, piece))
}

/// Ends the second reading. Returns 0 if its text has the length and the tag of the first one, else `SourceChanged`: the caller
/// then has to throw away the ciphertext that `aeadkit_siv_update` gave. On both, zeros are left in the struct. Returns
/// `NOT_BEGUN` if the struct is not in its second reading: it is then as before.
#[unsafe(no_mangle)]
pub extern "C" fn aeadkit_siv_finish(siv: &mut StoredSiv) -> u32
    ensures holds { (s : Setting) (first text : List ℕ) → Ends siv.old result s first text }
    ensures not_begun { NotIn writing siv.old → (result ≡ not_begun) × (siv.new ≡ siv.old) }
    ensures kept { result ≡ not_begun → siv.new ≡ siv.old }
    ensures ended { result ≢ not_begun → siv.new ≡ zeros }
    ensures status { (suite : Suite) → construction_of suite ≡ ByGcmSiv
        → siv.old.mark ≡ writing + suite_number suite → IsDoneOr Fault.SourceChanged result }
{
    let Some(suite) = siv_marked(WRITING, siv.mark) else {
        return NOT_BEGUN;
    };
    let keys = siv.keys.keys(suite);
    let outcome = siv.state.end_reading(&keys);
    *siv = StoredSiv::zeros();
    outcome_number(outcome)
}

/// Leaves zeros in the struct, whatever bytes it held: for a sealing that is given up. Its keys are then no longer in the struct.
#[unsafe(no_mangle)]
pub extern "C" fn aeadkit_siv_wipe(siv: &mut StoredSiv)
    ensures { siv.new ≡ zeros }
{
    let none = StoredSiv::zeros();
    *siv = none;
}

/// Returns the size of the struct of a sealing in two readings: 192 bytes.
#[unsafe(no_mangle)]
pub extern "C" fn aeadkit_siv_size() -> usize
    ensures { result ≡ 192 }
{
    size_of::<StoredSiv>()
}
