//! The calls for C on whole messages (RFC 8439, 2.8; SP 800-38D, 7; RFC 8452, 4 and 5), in place with the tag apart, or into
//! another output. No input has room for the tag: a caller who forgot that room would lose 16 bytes of the text. A call with
//! the bytes of a key computes anew the values that depend on the key alone.

ghost use Rattle.std.specs.Prelude.{◌≡◌, ◌≢◌, ◌≤◌, ℕ, List, length, refl, MatchResult};
ghost use Rattle.octets.specs.declared.fault.Fault.{Fault};
ghost use Rattle.octets.specs.Numbers.{HasOutcome};
ghost use Rattle.aead.specs.declared.suite.Suite.{Suite};
ghost use Rattle.aead.specs.declared.suite.Construction.TheVariants.{Gcm as ByGcm};
ghost use Rattle.aead.specs.Suites.{construction_of, key_length, aad_limit, text_limit, suite_number};
ghost use Rattle.aead.specs.Sealing.{Setting};
ghost use Rattle.aead.specs.Ciphers.{Keyed, setting};
ghost use Rattle.aead.specs.KeyedPasses.{setting_of, HasLengths, BeginRefused};
ghost use Rattle.capi.specs.Suites.{unknown_suite};
ghost use Rattle.capi.specs.Whole.{WasSealed, WasNotSealed, WasOpened, WasNotOpened, SealsTo, OpensTo, LengthRefused};
ghost use Rattle.capi.specs.Whole.{length_refuses};

use crate::suites::{OUTPUT_LENGTH, UNKNOWN_SUITE};
use aead::{Aead, BorrowedGcm, ChaChaPoly, Construction, GcmSiv, Suite, hash_subkey};
use aes::AesKey;
use gf128::{Keyed128, TableMul};
use octets::{Fault, Key32, Nonce, Tag, outcome_number};

// Returns the nonce with these 12 bytes. It is not taken out of a `Result`: there it would share its first byte with the fault,
// and LLVM copies that byte by itself, so that the cipher waits for it.
#[inline(always)]
fn nonce_of(bytes: &[u8]) -> Nonce
    requires { length bytes.now ≡ 12 }
    ensures { result ≡ bytes.now }
{
    Nonce::new(*bytes.as_array().unwrap())
}

// Sealing or opening a text in place, with its tag apart, once all lengths are known to fit.
pub(crate) trait Direction {
    // The text and the tag before and after a call that succeeds.
    ghost done: { Setting → (text tag text' tag' : List ℕ) → Type 0 };

    // The text and the tag before and after a call that is refused, and its fault.
    ghost refused: { Setting → (text tag text' tag' : List ℕ) → Fault → Type 0 };

    // Seals or opens with a cipher and a nonce.
    fn run<C: Aead>(
        cipher: &C,
        nonce: &Nonce,
        aad: &[u8],
        text: &mut [u8],
        tag: &mut [u8; 16],
    ) -> Result<(), Fault>
        requires lengths { HasLengths (setting (C.keyed cipher.now) nonce.now aad.now) }
        requires aad_fits { length aad.now ≤ aad_limit (C.keyed cipher.now).suite }
        requires text_fits { length text.old ≤ text_limit (C.keyed cipher.now).suite }
        ensures { let s = setting (C.keyed cipher.now) nonce.now aad.now in
            MatchResult result (λ _. done s text.old tag.old text.new tag.new)
            (refused s text.old tag.old text.new tag.new) };

    // A length that does not fit is refused before anything is changed.
    ghost lengths: { (s : Setting) (text tag : List ℕ) (fault : Fault) → LengthRefused s text fault
        → refused s text tag text tag fault };
}

// A text becomes its ciphertext, and its tag is written.
pub(crate) struct Sealing;

impl Direction for Sealing {
    ghost done = { λ s text tag text' tag'. WasSealed s text text' tag' };

    ghost refused = { WasNotSealed };

    ghost lengths = { λ s text tag fault long. (refl, refl, long) };

    fn run<C: Aead>(
        cipher: &C,
        nonce: &Nonce,
        aad: &[u8],
        text: &mut [u8],
        tag: &mut [u8; 16],
    ) -> Result<(), Fault> {
        *tag = *cipher.seal_fitting(nonce, aad, text).bytes();
        Ok(())
    }
}

// A ciphertext becomes its text if authentication succeeds. The tag stays as it is.
pub(crate) struct Opening;

impl Direction for Opening {
    ghost done = { λ s text tag text' tag'. WasOpened s text tag text' };

    ghost refused = { λ s text tag text' tag'. WasNotOpened s text tag text' };

    ghost lengths = { λ s text tag fault long. (refl, length_refuses s text tag fault long) };

    fn run<C: Aead>(
        cipher: &C,
        nonce: &Nonce,
        aad: &[u8],
        text: &mut [u8],
        tag: &mut [u8; 16],
    ) -> Result<(), Fault> {
        cipher.open_and_restore(nonce, aad, text, &Tag::new(*tag))
    }
}

// A suite and a key, which is given as bytes or kept in a struct.
pub(crate) trait Keys {
    // The suite and the key.
    ghost keyed: { Self → Keyed };

    // The suite.
    fn suite(&self) -> Suite
        ensures { result ≡ (keyed self.now).suite };

    // The bytes of the key.
    fn key(&self) -> &[u8]
        ensures { result.now ≡ (keyed self.now).key };

    // Seals or opens with a nonce, once all lengths are known to fit.
    fn run<D: Direction>(
        &self,
        nonce: &Nonce,
        aad: &[u8],
        text: &mut [u8],
        tag: &mut [u8; 16],
    ) -> Result<(), Fault>
        requires lengths { HasLengths (setting (keyed self.now) nonce.now aad.now) }
        requires aad_fits { length aad.now ≤ aad_limit (keyed self.now).suite }
        requires text_fits { length text.old ≤ text_limit (keyed self.now).suite }
        ensures { let s = setting (keyed self.now) nonce.now aad.now in
            MatchResult result (λ _. D.done s text.old tag.old text.new tag.new)
            (D.refused s text.old tag.old text.new tag.new) };
}

// Seals or opens under AES-GCM with the bytes of a key. It is not inlined, since the compiler clears the locals of all arms of a
// `match` when the function is entered. The multiples are no local, since one would be copied.
#[inline(never)]
fn run_gcm<D: Direction>(
    suite: Suite,
    key: &[u8],
    nonce: &Nonce,
    aad: &[u8],
    text: &mut [u8],
    tag: &mut [u8; 16],
) -> Result<(), Fault>
    requires by_gcm { construction_of suite ≡ ByGcm }
    requires long { length key.now ≡ key_length suite }
    requires nonce { length nonce.now ≡ 12 }
    requires aad_fits { length aad.now ≤ aad_limit suite }
    requires text_fits { length text.old ≤ text_limit suite }
    ensures { let s = setting_of suite key.now nonce.now aad.now in
        MatchResult result (λ _. D.done s text.old tag.old text.new tag.new)
        (D.refused s text.old tag.old text.new tag.new) }
{
    let key = AesKey::expanded(key);
    D::run(
        &BorrowedGcm::new(suite, &key, &TableMul::of(&hash_subkey(&key))),
        nonce,
        aad,
        text,
        tag,
    )
}

// A suite and the bytes of a key.
#[derive(Drop)]
struct ByBytes<'a> {
    suite: Suite,
    key: &'a [u8],
}

impl<'a> Keys for ByBytes<'a> {
    ghost keyed = { λ k. record { suite = k.suite; key = k.key.now } };

    fn suite(&self) -> Suite {
        self.suite
    }

    fn key(&self) -> &[u8] {
        self.key
    }

    // Each arm makes the cipher of its suite, which is smaller than one for any suite. The function is inlined, since a short
    // message takes 5 % longer if it goes through one more frame.
    #[inline(always)]
    fn run<D: Direction>(
        &self,
        nonce: &Nonce,
        aad: &[u8],
        text: &mut [u8],
        tag: &mut [u8; 16],
    ) -> Result<(), Fault> {
        let suite = self.suite;
        match suite.construction() {
            Construction::ChaChaPoly => {
                let cipher = ChaChaPoly::new(&Key32::from_slice(self.key).unwrap());
                D::run(&cipher, nonce, aad, text, tag)
            }
            Construction::Gcm => { run_gcm::<D>(suite, self.key, nonce, aad, text, tag) }
            Construction::GcmSiv => {
                let cipher = GcmSiv::new(suite, AesKey::expanded(self.key));
                D::run(&cipher, nonce, aad, text, tag)
            }
        }
    }
}

// Compares lengths with those of the suite. Faults, in this order: `KeyLength` if the key does not have the suite's length,
// `NonceLength` if the nonce is not 12 bytes long, `AadTooLong` if the associated data is past the suite's limit.
fn check_lengths<K: Keys>(keys: &K, nonce: &[u8], aad: &[u8]) -> Result<(), Fault>
    ensures { let s = setting (K.keyed keys.now) nonce.now aad.now in
        MatchResult result (λ _. HasLengths s × (length aad.now ≤ aad_limit s.suite)) (BeginRefused s) }
{
    // A kept key always has its suite's length, and the compiler leaves the comparison out.
    if keys.key().len() != keys.suite().key_length() {
        return Err(Fault::KeyLength);
    }
    if nonce.len() != Suite::NONCE_LENGTH {
        return Err(Fault::NonceLength);
    }
    keys.suite().check_aad(aad)
}

// Seals or opens in place, with a nonce that comes as bytes. Faults, in this order: those of `check_lengths`, `TextTooLong` if
// the text is past the suite's limit, and those of the direction. If a length does not fit, nothing is changed.
pub(crate) fn run_in_place<D: Direction, K: Keys>(
    keys: &K,
    nonce: &[u8],
    aad: &[u8],
    text: &mut [u8],
    tag: &mut [u8; 16],
) -> Result<(), Fault>
    ensures { let s = setting (K.keyed keys.now) nonce.now aad.now in
        MatchResult result (λ _. D.done s text.old tag.old text.new tag.new)
        (D.refused s text.old tag.old text.new tag.new) }
{
    if let Err(fault) = check_lengths(keys, nonce, aad) {
        return Err(fault);
    }
    if let Err(fault) = keys.suite().check_text(text) {
        return Err(fault);
    }
    keys.run::<D>(&nonce_of(nonce), aad, text, tag)
}

// Seals a text into an output, which has to be 16 bytes longer. Returns the status.
pub(crate) fn seal_to<K: Keys>(
    keys: &K,
    nonce: &[u8],
    aad: &[u8],
    text: &[u8],
    sealed: &mut [u8],
) -> u32
    ensures { SealsTo result (setting (K.keyed keys.now) nonce.now aad.now) text.now sealed.old sealed.new }
{
    if let Err(fault) = check_lengths(keys, nonce, aad) {
        return outcome_number(Err(fault));
    }
    if let Err(fault) = keys.suite().check_text(text) {
        return outcome_number(Err(fault));
    }
    let Some((body, tag)) = sealed.split_last_chunk_mut() else {
        return OUTPUT_LENGTH;
    };
    if body.len() != text.len() {
        return OUTPUT_LENGTH;
    }
    body.copy_from_slice(text);
    outcome_number(keys.run::<Sealing>(&nonce_of(nonce), aad, body, tag))
}

// Opens a sealing into an output, which has to be 16 bytes shorter. Returns the status.
pub(crate) fn open_to<K: Keys>(
    keys: &K,
    nonce: &[u8],
    aad: &[u8],
    sealed: &[u8],
    text: &mut [u8],
) -> u32
    ensures { OpensTo result (setting (K.keyed keys.now) nonce.now aad.now) sealed.now text.old text.new }
{
    if let Err(fault) = check_lengths(keys, nonce, aad) {
        return outcome_number(Err(fault));
    }
    let Some((body, tag)) = sealed.split_last_chunk() else {
        return outcome_number(Err(Fault::TooShort));
    };
    if let Err(fault) = keys.suite().check_text(body) {
        return outcome_number(Err(fault));
    }
    if text.len() != body.len() {
        return OUTPUT_LENGTH;
    }
    text.copy_from_slice(body);
    let mut tag = *tag;
    match keys.run::<Opening>(&nonce_of(nonce), aad, text, &mut tag) {
        Ok(()) => 0,
        Err(fault) => {
            // A caller who ignores the status must not take bytes that are not authenticated for the text.
            text.fill(0);
            outcome_number(Err(fault))
        }
    }
}

/// Seals in place (RFC 8439, 2.8; SP 800-38D, 7.1; RFC 8452, 4): `text` becomes its ciphertext, and `tag` its tag of 16 bytes.
/// Returns 0, or the first of these that applies: `UNKNOWN_SUITE` if no suite has the number, `KeyLength` if the key does not
/// have the suite's length, `NonceLength` if the nonce is not 12 bytes long, `AadTooLong` if the associated data is past the
/// suite's limit, `TextTooLong` if the text is. On each of them nothing is changed.
///
/// The nonce must never be used twice under one key. Under ChaCha20-Poly1305 and AES-GCM a repeat gives away the XOR of the two
/// texts, and enough to forge messages; under AES-GCM-SIV it gives away only whether the texts and the associated data were the
/// same.
#[unsafe(no_mangle)]
pub extern "C" fn aeadkit_seal_in_place(
    suite: u32,
    key: &[u8],
    nonce: &[u8],
    text: &mut [u8],
    aad: &[u8],
    tag: &mut [u8; 16],
) -> u32
    ensures known { (named : Suite) → suite ≡ suite_number named → let s =
        setting_of named key.now nonce.now aad.now in
        HasOutcome result (WasSealed s text.old text.new tag.new)
        (WasNotSealed s text.old tag.old text.new tag.new) }
    ensures unknown { ((named : Suite) → suite ≢ suite_number named)
        → (result ≡ unknown_suite) × (text.new ≡ text.old) × (tag.new ≡ tag.old) }
{
    match Suite::from_number(suite) {
        Some(suite) => {
            let keys = ByBytes { suite, key };
            outcome_number(run_in_place::<Sealing, ByBytes>(&keys, nonce, aad, text, tag))
        }
        None => UNKNOWN_SUITE,
    }
}

/// Opens in place (RFC 8439, 2.8; SP 800-38D, 7.2; RFC 8452, 5): `text`, a ciphertext, becomes its text if authentication with
/// `tag`, 16 bytes, succeeds. Returns 0, or the first of these that applies: `UNKNOWN_SUITE`, `KeyLength`, `NonceLength`,
/// `AadTooLong` and `TextTooLong` as `aeadkit_seal_in_place` does, `TagMismatch` if authentication failed. On each of them
/// nothing is changed.
#[unsafe(no_mangle)]
pub extern "C" fn aeadkit_open_in_place(
    suite: u32,
    key: &[u8],
    nonce: &[u8],
    text: &mut [u8],
    aad: &[u8],
    tag: &[u8; 16],
) -> u32
    ensures known { (named : Suite) → suite ≡ suite_number named → let s =
        setting_of named key.now nonce.now aad.now in
        HasOutcome result (WasOpened s text.old tag.now text.new)
        (WasNotOpened s text.old tag.now text.new) }
    ensures unknown { ((named : Suite) → suite ≢ suite_number named)
        → (result ≡ unknown_suite) × (text.new ≡ text.old) }
{
    match Suite::from_number(suite) {
        Some(suite) => {
            let keys = ByBytes { suite, key };
            let mut given = *tag;
            outcome_number(run_in_place::<Opening, ByBytes>(&keys, nonce, aad, text, &mut given))
        }
        None => UNKNOWN_SUITE,
    }
}

/// Seals a text into another output (RFC 8439, 2.8; SP 800-38D, 7.1; RFC 8452, 4): `sealed` becomes the ciphertext, followed by
/// the tag of 16 bytes. Returns 0, or the first of these that applies: `UNKNOWN_SUITE`, `KeyLength`, `NonceLength`, `AadTooLong`
/// and `TextTooLong` as `aeadkit_seal_in_place` does, `OUTPUT_LENGTH` if `sealed` is not 16 bytes longer than the text. On each
/// of them nothing is written.
///
/// The nonce must never be used twice under one key. Under ChaCha20-Poly1305 and AES-GCM a repeat gives away the XOR of the two
/// texts, and enough to forge messages; under AES-GCM-SIV it gives away only whether the texts and the associated data were the
/// same.
#[unsafe(no_mangle)]
pub extern "C" fn aeadkit_seal(
    suite: u32,
    key: &[u8],
    nonce: &[u8],
    text: &[u8],
    aad: &[u8],
    sealed: &mut [u8],
) -> u32
    ensures known { (named : Suite) → suite ≡ suite_number named
        → SealsTo result (setting_of named key.now nonce.now aad.now) text.now sealed.old sealed.new }
    ensures unknown { ((named : Suite) → suite ≢ suite_number named)
        → (result ≡ unknown_suite) × (sealed.new ≡ sealed.old) }
{
    match Suite::from_number(suite) {
        Some(suite) => seal_to(&ByBytes { suite, key }, nonce, aad, text, sealed),
        None => UNKNOWN_SUITE,
    }
}

/// Opens a sealing, a ciphertext followed by its tag of 16 bytes, into another output (RFC 8439, 2.8; SP 800-38D, 7.2; RFC 8452,
/// 5): `text` becomes the text. Returns 0, or the first of these that applies: `UNKNOWN_SUITE`, `KeyLength`, `NonceLength` and
/// `AadTooLong` as `aeadkit_seal_in_place` does, `TooShort` if the sealing is shorter than a tag, `TextTooLong` if its ciphertext
/// is past the suite's limit, `OUTPUT_LENGTH` if `text` is not 16 bytes shorter than the sealing, `TagMismatch` if authentication
/// failed. On `TagMismatch` the whole of `text` is zeros; on the others nothing is written.
#[unsafe(no_mangle)]
pub extern "C" fn aeadkit_open(
    suite: u32,
    key: &[u8],
    nonce: &[u8],
    sealed: &[u8],
    aad: &[u8],
    text: &mut [u8],
) -> u32
    ensures known { (named : Suite) → suite ≡ suite_number named
        → OpensTo result (setting_of named key.now nonce.now aad.now) sealed.now text.old text.new }
    ensures unknown { ((named : Suite) → suite ≢ suite_number named)
        → (result ≡ unknown_suite) × (text.new ≡ text.old) }
{
    match Suite::from_number(suite) {
        Some(suite) => open_to(&ByBytes { suite, key }, nonce, aad, sealed, text),
        None => UNKNOWN_SUITE,
    }
}
