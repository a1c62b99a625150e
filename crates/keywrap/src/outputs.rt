//! Wrapping and unwrapping into an output of the caller's (RFC 3394, 2.2; RFC 5649, 4.1 and 4.2). Nothing is allocated.

ghost use Rattle.std.specs.Prelude.{◌≡◌, ℕ, ◌+◌, ◌-◌, ◌%◌, List, length, take, MatchResult, OnErr};
ghost use Rattle.keywrap.specs.Wrapping.{Unwrapped};
ghost use Rattle.keywrap.specs.Padded.{UnwrappedPadded, UnwrappedPaddedTo};
ghost use Rattle.keywrap.specs.Refusals.{left_at, WrapToRefused, UnwrapToRefused};
ghost use Rattle.keywrap.specs.Refusals.{PaddedWrapToRefused, PaddedUnwrapToRefused};

use crate::padded::{alternative_value, encrypt_register, has_blocks, unwrap_padded_register};
use crate::steps::{
    INITIAL_VALUE, first_eight, has_wrapped_length, is_initial_value, unwrap_blocks, wrap_register,
};
use aes::AesKey;
use octets::Fault;

/// Wraps a text into `wrapped`, which is eight bytes longer than it (RFC 3394, 2.2.1). Returns `WrapLength` if the text is
/// not at least two whole blocks of eight bytes; then nothing is written.
pub fn wrap_to(key: &AesKey, text: &[u8], wrapped: &mut [u8]) -> Result<(), Fault>
    requires { length wrapped.old ≡ length text.now + 8 }
    ensures answer { MatchResult result (λ _. Unwrapped key.now wrapped.new text.now)
        (WrapToRefused text.now) }
    ensures unchanged { OnErr result (wrapped.new ≡ wrapped.old) }
{
    if !has_wrapped_length(wrapped) {
        return Err(Fault::WrapLength);
    }
    wrapped[8..].copy_from_slice(text);
    wrapped[..8].copy_from_slice(&INITIAL_VALUE);
    wrap_register(key, wrapped);
    Ok(())
}

/// Unwraps into `text`, which is eight bytes shorter than the wrapping (RFC 3394, 2.2.2). Faults, in this order: `WrapLength`
/// if the wrapping's length is under 24 or not a multiple of 8, `WrapIntegrity` if the bytes are not a valid wrapping under
/// this key. On `WrapIntegrity` the whole of `text` is zeros; on `WrapLength` nothing is written.
pub fn unwrap_to(key: &AesKey, wrapped: &[u8], text: &mut [u8]) -> Result<(), Fault>
    requires { length wrapped.now ≡ length text.old + 8 }
    ensures answer { MatchResult result (λ _. Unwrapped key.now wrapped.now text.new)
        (λ e. (text.new ≡ left_at e text.old) × UnwrapToRefused key.now wrapped.now e) }
    ensures found { (was : List ℕ) → Unwrapped key.now wrapped.now was
        → MatchResult result (λ _. text.new ≡ was) (λ _. ⊥) }
{
    if !has_wrapped_length(wrapped) {
        return Err(Fault::WrapLength);
    }
    let mut first = first_eight(wrapped);
    text.copy_from_slice(&wrapped[8..]);
    unwrap_blocks(key, &mut first, text);
    if is_initial_value(&first) {
        return Ok(());
    }
    text.fill(0);
    Err(Fault::WrapIntegrity)
}

/// Wraps a text with padding into `wrapped`, which is eight bytes longer than the padded text (RFC 5649, 4.1). Faults, in this
/// order: `WrapLength` for an empty text, `TextTooLong` past 2^32 - 1 bytes. On a fault nothing is written.
pub fn wrap_padded_to(key: &AesKey, text: &[u8], wrapped: &mut [u8]) -> Result<(), Fault>
    requires { length wrapped.old ≡ 8 + (length text.now + (8 - length text.now % 8) % 8) }
    ensures answer { MatchResult result (λ _. UnwrappedPadded key.now wrapped.new text.now)
        (PaddedWrapToRefused text.now) }
    ensures unchanged { OnErr result (wrapped.new ≡ wrapped.old) }
{
    if text.is_empty() {
        return Err(Fault::WrapLength);
    }
    if text.len() as u64 >= 1 << 32 {
        return Err(Fault::TextTooLong);
    }
    let zeros = wrapped.len() - 8 - text.len();
    wrapped[8..8 + text.len()].copy_from_slice(text);
    wrapped[..8].copy_from_slice(&alternative_value(text.len() as u32));
    wrapped[8 + text.len()..].copy_from_slice(&[0; 8][..zeros]);
    encrypt_register(key, wrapped);
    Ok(())
}

/// Unwraps with padding into `text`, which is eight bytes shorter than the wrapping (RFC 5649, 4.2), and returns the text's
/// length: `text` becomes the text and the zeros of its padding. Faults, in this order: `WrapLength` if the wrapping's length
/// is under 16 or not a multiple of 8, `TextTooLong` past 2^32 + 8 bytes, `WrapIntegrity` if the bytes are not a valid
/// wrapping with padding under this key. On `WrapIntegrity` the whole of `text` is zeros; on another fault nothing is written.
pub fn unwrap_padded_to(key: &AesKey, wrapped: &[u8], text: &mut [u8]) -> Result<usize, Fault>
    requires { length wrapped.now ≡ length text.old + 8 }
    ensures answer { MatchResult result (λ n. UnwrappedPaddedTo key.now wrapped.now n text.new)
        (λ e. (text.new ≡ left_at e text.old) × PaddedUnwrapToRefused key.now wrapped.now e) }
    ensures found { (was : List ℕ) → UnwrappedPadded key.now wrapped.now was
        → MatchResult result (λ n. take n text.new ≡ was) (λ _. ⊥) }
{
    if !has_blocks(wrapped) {
        return Err(Fault::WrapLength);
    }
    if wrapped.len() as u64 > (1 << 32) + 8 {
        return Err(Fault::TextTooLong);
    }
    let mut first = first_eight(wrapped);
    text.copy_from_slice(&wrapped[8..]);
    match unwrap_padded_register(key, &mut first, text) {
        Some(length) => Ok(length),
        None => {
            text.fill(0);
            Err(Fault::WrapIntegrity)
        }
    }
}
