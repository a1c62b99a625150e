//! A whole sealing that is returned in pieces, at offsets of the caller's choice.

ghost use Rattle.std.specs.Prelude.{◌≡◌, ◌∷◌, ◌++◌, [], map, IfOk, OnOk, MatchResult};
ghost use Rattle.aead.specs.Ciphers.{setting};
ghost use Rattle.aead.specs.AnyCiphers.{keyed_of};
ghost use Rattle.aead.specs.Cuts.{Rise, IsCutSealing};
ghost use Rattle.aead.specs.Code.CutBytes.{AreCut};
ghost use Rattle.aead.specs.Refusals.{WholeSealRefused};

use crate::any::AnyAead;
use crate::sealing_has_one_text;
use crate::whole::seal;
use octets::{Fault, Nonce};
use std::alloc::{AllocError, Allocator};

// Appends a copy of `piece`.
fn add<A: Allocator + Copy>(
    alloc: A,
    pieces: &mut Vec<Vec<u8, A>, A>,
    piece: &[u8],
) -> Result<(), AllocError>
    ensures { OnOk result (map (λ v. v.items) pieces.new.items
        ≡ map (λ v. v.items) pieces.old.items ++ piece.now ∷ []) }
{
    let bytes = Vec::from_slice(alloc, piece)?;
    pieces.push(bytes)?;
    Ok(())
}

// Cuts bytes into pieces, which begin at offset 0 and at each cut that is at most their length.
fn cut_into<A: Allocator + Copy>(
    alloc: A,
    pieces: &mut Vec<Vec<u8, A>, A>,
    bytes: &[u8],
    cuts: &[u64],
) -> Result<(), AllocError>
    requires rise { Rise 0 cuts.now }
    requires none { pieces.old.items ≡ [] }
    ensures { OnOk result (AreCut bytes.now cuts.now (map (λ v. v.items) pieces.new.items)) }
{
    let mut place = 0;
    for cut in cuts {
        if *cut <= bytes.len() as u64 {
            let end = *cut as usize;
            add(alloc, pieces, &bytes[place..end])?;
            place = end;
        }
    }
    add(alloc, pieces, &bytes[place..])?;
    Ok(())
}

/// Returns the sealing of a text in pieces: the ciphertext in pieces that begin at offset 0 and at each cut
/// that is at most the text's length, and then the tag as one more. The caller shows that the cuts rise
/// strictly and are at least 1. Allocates the sealing whole, and then in pieces. Faults: `AadTooLong`, then
/// `TextTooLong`, if a length in bytes is past the suite's limit, then `OutOfMemory`.
///
/// The nonce must never be used twice under one key. Under ChaCha20-Poly1305 and AES-GCM a repeat gives away the XOR of
/// the two texts, and enough to forge messages; under AES-GCM-SIV it gives away only whether the texts and the
/// associated data were the same.
pub fn seal_cut<A: Allocator + Copy>(
    alloc: A,
    cipher: &AnyAead,
    nonce: &Nonce,
    aad: &[u8],
    text: &[u8],
    cuts: &[u64],
) -> Result<Vec<Vec<u8, A>, A>, Fault>
    requires { Rise 0 cuts.now }
    ensures { let s = setting (keyed_of cipher.now) nonce.now aad.now in
        MatchResult result (λ pieces. IsCutSealing s text.now cuts.now (map (λ v. v.items) pieces.items))
        (λ e. WholeSealRefused s text.now e) }
{
    sealing_has_one_text();
    // The text is sealed whole first, so that the proof needs only the contract of `seal`.
    let sealed = seal(alloc, cipher, nonce, aad, text)?;
    let (body, tag) = sealed.split_at(text.len());
    let mut pieces = Vec::new(alloc);
    cut_into(alloc, &mut pieces, body, cuts)?;
    add(alloc, &mut pieces, tag)?;
    Ok(pieces)
}
