//! The commands on values given in hexadecimal, and `check`.
ghost use Rattle.std.specs.Prelude.{◌≡◌, ◌⊎◌, ⊤, MatchResult, IfErr};
ghost use Rattle.aes.specs.Cipher.{IsKey};
ghost use Rattle.aead.specs.AnyCiphers.{keyed_of};
ghost use Rattle.aead.specs.Refusals.{WholeSealRefused, WholeOpenRefused};
ghost use Rattle.command.specs.Aead.{IsReady, IsSealed, IsOpened, InputsRefused, IsRefused};
ghost use Rattle.command.specs.Blames.{InputMayFail, Blames};
ghost use Rattle.command.specs.Hex.{Spells, IsBadHex};
ghost use Rattle.command.specs.Reports.{IsReportOf, FileRefused};
ghost use Rattle.command.specs.Keywrap.{Wraps, IsWrapped, IsUnwrapped, IsWrapRefused, WrapInputsRefused};
ghost use Rattle.command.specs.Keywrap.{WrapFault, UnwrapFault};
ghost use Rattle.command.specs.declared.failure.Failure.TheVariants.{BadHex, Fault as OfFault};
ghost use Rattle.octets.specs.declared.fault.Fault.TheVariants.{OutOfMemory};

use crate::failure::Failure;
use crate::readings::file_bytes;
use crate::storage::Storage;
use crate::words::Inputs;
use aead::{AnyAead, Suite};
use aes::AesKey;
use hex::FromHexError;
use octets::{Fault, Nonce};
use std::alloc::Allocator;
use vectors::Report;

// Returns the bytes that a hexadecimal value spells. `BadHex` if it is not an even number of hex digits.
fn decode<A: Allocator>(alloc: A, digits: &str) -> Result<Vec<u8, A>, Failure>
    ensures { MatchResult result (λ v. Spells digits.now v.items)
        (λ e. (e ≡ OfFault OutOfMemory) ⊎ ((e ≡ BadHex) × IsBadHex digits.now)) }
{
    match hex::decode(alloc, digits) {
        Ok(bytes) => Ok(bytes),
        Err(FromHexError::OutOfMemory) => Err(Failure::Fault(Fault::OutOfMemory)),
        Err(_) => Err(Failure::BadHex),
    }
}

// Returns the wrapping of a text, with padding or without.
fn wrap_text<A: Allocator>(
    alloc: A,
    key: &AesKey,
    text: &[u8],
    pad: bool,
) -> Result<Vec<u8, A>, Fault>
    ensures { MatchResult result (λ v. Wraps pad key.now v.items text.now) (WrapFault pad key.now text.now) }
{
    if pad {
        keywrap::wrap_padded(alloc, key, text)
    } else {
        keywrap::wrap(alloc, key, text)
    }
}

// Returns the text of a wrapping, with padding or without.
fn unwrap_text<A: Allocator>(
    alloc: A,
    key: &AesKey,
    sealed: &[u8],
    pad: bool,
) -> Result<Vec<u8, A>, Fault>
    ensures { MatchResult result (λ v. Wraps pad key.now sealed.now v.items)
        (UnwrapFault pad key.now sealed.now) }
{
    if pad {
        keywrap::unwrap_padded(alloc, key, sealed)
    } else {
        keywrap::unwrap(alloc, key, sealed)
    }
}

// A key, and a text to wrap or a wrapping.
#[derive(Drop)]
struct WrapInputs<A: Allocator> {
    key: AesKey,
    body: Vec<u8, A>,
}

// Returns the key and the bytes that the words spell. Faults, in this order: `BadHex` for the key, then for the bytes, and
// `KeyLength`.
fn wrap_inputs<'a, A: Allocator>(
    alloc: &'a A,
    key: &str,
    body: &str,
) -> Result<WrapInputs<&'a A>, Failure>
    ensures { MatchResult result
        (λ call. IsKey call.key × Spells key.now call.key × Spells body.now call.body.items)
        (WrapInputsRefused key.now body.now) }
{
    let key_bytes = decode(alloc, key)?;
    let body = decode(alloc, body)?;
    Ok(WrapInputs {
        key: AesKey::from_slice(&key_bytes)?,
        body,
    })
}

// `wrap`: returns the wrapping of a text, with padding or without. Faults, in this order: `BadHex` for the key, then for the
// text, `KeyLength`, and those of the call.
pub(crate) fn wrap<'a, A: Allocator>(
    alloc: &'a A,
    key: &str,
    text: &str,
    pad: bool,
) -> Result<Vec<u8, &'a A>, Failure>
    ensures { MatchResult result (λ v. IsWrapped pad key.now text.now v.items)
        (IsWrapRefused (WrapFault pad) key.now text.now) }
{
    let call = wrap_inputs(alloc, key, text)?;
    Ok(wrap_text(alloc, &call.key, &call.body, pad)?)
}

// `unwrap`: returns the text of a wrapping, with padding or without. Faults, in this order: `BadHex` for the key, then for the
// wrapping, `KeyLength`, and those of the call.
pub(crate) fn unwrap<'a, A: Allocator>(
    alloc: &'a A,
    key: &str,
    sealed: &str,
    pad: bool,
) -> Result<Vec<u8, &'a A>, Failure>
    ensures { MatchResult result (λ v. IsUnwrapped pad key.now sealed.now v.items)
        (IsWrapRefused (UnwrapFault pad) key.now sealed.now) }
{
    let call = wrap_inputs(alloc, key, sealed)?;
    Ok(unwrap_text(alloc, &call.key, &call.body, pad)?)
}

// The inputs of a call under a suite.
#[derive(Drop)]
pub(crate) struct AeadInputs<A: Allocator> {
    pub(crate) cipher: AnyAead,
    pub(crate) nonce: Nonce,
    pub(crate) aad: Vec<u8, A>,
    pub(crate) body: Vec<u8, A>,
}

// Returns the inputs that the words spell. Faults, in this order: `UnknownSuite`, `BadHex` for the key, the nonce, the
// associated data and the body, `KeyLength`, `NonceLength`.
pub(crate) fn aead_inputs<'a, A: Allocator>(
    alloc: &'a A,
    words: &Inputs<'_>,
) -> Result<AeadInputs<&'a A>, Failure>
    ensures { MatchResult result
        (λ p. IsReady words.now (keyed_of p.cipher) p.nonce p.aad.items p.body.items)
        (InputsRefused words.now) }
{
    let Some(suite) = Suite::named(words.suite) else {
        return Err(Failure::UnknownSuite);
    };
    let key = decode(alloc, words.key)?;
    let nonce = decode(alloc, words.nonce)?;
    let aad = decode(alloc, words.aad)?;
    let body = decode(alloc, words.body)?;
    Ok(AeadInputs {
        cipher: AnyAead::new(suite, &key)?,
        nonce: Nonce::from_slice(&nonce)?,
        aad,
        body,
    })
}

// `seal`: returns the sealing of a text. The faults of its inputs come first, then those of the call.
pub(crate) fn seal<'a, A: Allocator>(
    alloc: &'a A,
    words: &Inputs<'_>,
) -> Result<Vec<u8, &'a A>, Failure>
    ensures { MatchResult result (λ v. IsSealed words.now v.items) (IsRefused WholeSealRefused words.now) }
{
    let call = aead_inputs(alloc, words)?;
    Ok(aead::seal(alloc, &call.cipher, &call.nonce, &call.aad, &call.body)?)
}

// `open`: returns the text of sealed bytes. The faults of its inputs come first, then those of the call.
pub(crate) fn open<'a, A: Allocator>(
    alloc: &'a A,
    words: &Inputs<'_>,
) -> Result<Vec<u8, &'a A>, Failure>
    ensures { MatchResult result (λ v. IsOpened words.now v.items) (IsRefused WholeOpenRefused words.now) }
{
    let call = aead_inputs(alloc, words)?;
    Ok(aead::open(alloc, &call.cipher, &call.nonce, &call.aad, &call.body)?)
}

// `check`: returns the report of a vector file. The faults of reading it come first, then the first fault of its lines.
pub(crate) fn check<'a, A: Allocator, F: Storage>(
    alloc: &'a A,
    files: &F,
    path: &str,
) -> Result<Report<&'a A>, Failure>
    ensures answer { MatchResult result
        (λ r. IsReportOf (F.contents files.now path.now 0) r.records r.bad.items)
        (FileRefused (F.contents files.now path.now 0)) }
    ensures blame { Blames OfFault
        (InputMayFail (F.open_may_fail files.now path.now) F.Input.failures) ⊤ result }
{
    let file = file_bytes(alloc, files, path)?;
    match vectors::check(alloc, &file) {
        Ok(report) => Ok(report),
        Err(fault) => Err(Failure::Vector(fault)),
    }
}
