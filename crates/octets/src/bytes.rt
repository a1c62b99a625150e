//! Keys, nonces, blocks and tags: lists of bytes whose length is in their type (FIPS 197, 5; RFC 8439, 2.8; SP 800-38D, 8.2;
//! RFC 8452, 4).
//!
//! All of them are one type, `Bytes`, with a marker for the use of the bytes: a tag is never mistaken for a block, though both
//! are 16 bytes long.

ghost use Rattle.std.specs.Prelude.{◌≡◌, ◌≢◌, ℕ, List, length, MatchResult};
ghost use Rattle.octets.specs.Bytes.{AreBytes};

use crate::fault::Fault;
use std::marker::{Model, PhantomData};

/// A law for the caller's proof: each byte of a slice is below 256. The call does nothing.
pub fn tells_bytes(bytes: &[u8])
    ensures { AreBytes (length bytes.now) bytes.now }
{}

/// A use whose bytes may come as a slice. It says which fault a slice of the wrong length gives.
pub trait LengthFault {
    ghost use Rattle.octets.specs.declared.fault.Fault.{Fault};

    // The fault of a slice of the wrong length.
    ghost length_fault: { Fault };

    /// Returns the fault of a slice of the wrong length.
    fn length_fault() -> Fault
        ensures { result ≡ length_fault };
}

/// Marks the bytes of a key. Keys have neither `Debug` nor `==`.
#[derive(Clone, Copy)]
pub struct KeyUse;

impl LengthFault for KeyUse {
    ghost use Rattle.octets.specs.declared.fault.Fault.{Fault};

    ghost length_fault = { Fault.KeyLength };

    fn length_fault() -> Fault {
        Fault::KeyLength
    }
}

/// Marks the bytes of a nonce.
#[derive(Clone, Copy, Debug, PartialEq, Eq)]
pub struct NonceUse;

impl LengthFault for NonceUse {
    ghost use Rattle.octets.specs.declared.fault.Fault.{Fault};

    ghost length_fault = { Fault.NonceLength };

    fn length_fault() -> Fault {
        Fault::NonceLength
    }
}

/// Marks the bytes of a block.
#[derive(Clone, Copy, Debug, PartialEq, Eq)]
pub struct BlockUse;

/// Marks the bytes of a tag. Tags have no `==`: use `same` to compare their bytes.
#[derive(Clone, Copy, Debug)]
pub struct TagUse;

/// `N` bytes for one use. They have `Debug` and `==` only if the marker of their use has.
#[derive(Clone, Copy, Debug, PartialEq, Eq)]
pub struct Bytes<U, const N: usize> {
    bytes: [u8; N],
    used_as: PhantomData<U>,
}

/// A key of 16 bytes, for AES-128 (FIPS 197, 5). A slice of another length is refused with `KeyLength`.
pub type Key16 = Bytes<KeyUse, 16>;

/// A key of 24 bytes, for AES-192 (FIPS 197, 5). A slice of another length is refused with `KeyLength`.
pub type Key24 = Bytes<KeyUse, 24>;

/// A key of 32 bytes, for AES-256 (FIPS 197, 5) and ChaCha20 (RFC 8439, 2.3). A slice of another length is refused with
/// `KeyLength`.
pub type Key32 = Bytes<KeyUse, 32>;

/// A nonce of 12 bytes, the only length here (RFC 8439, 2.8; SP 800-38D, 8.2; RFC 8452, 4). A slice of another length is
/// refused with `NonceLength`. A nonce must never be used twice for sealing under one key: the calls that seal say what a
/// repeat gives away.
// AES-GCM has other lengths too, and SP 800-38D, 5.2.1.1, recommends this one: so one type serves every suite.
pub type Nonce = Bytes<NonceUse, 12>;

/// A block of 16 bytes, the unit that AES, GHASH, POLYVAL and Poly1305 work on.
pub type Block = Bytes<BlockUse, 16>;

/// A tag of 16 bytes, which authenticates a text (RFC 8439, 2.8; SP 800-38D, 7.1; RFC 8452, 4).
pub type Tag = Bytes<TagUse, 16>;

impl<U, const N: usize> Model for Bytes<U, N> {
    ghost Value = { List ℕ };

    ghost view = { λ b. b.bytes };

    ghost inverse = { λ bytes. record { bytes = bytes; used_as = _ } };
}

impl<U, const N: usize> Bytes<U, N> {
    /// Makes the value with these `N` bytes, for this use.
    pub fn new(bytes: [u8; N]) -> Bytes<U, N>
        ensures value { result ≡ bytes.entry }
        ensures are_bytes { AreBytes N result }
    {
        tells_bytes(&bytes);
        Bytes {
            bytes,
            used_as: PhantomData,
        }
    }

    /// Returns the `N` bytes.
    pub fn bytes(&self) -> &[u8; N]
        ensures value { result.now ≡ self.now }
        ensures are_bytes { AreBytes N self.now }
    {
        tells_bytes(&self.bytes);
        &self.bytes
    }
}

impl<U: LengthFault, const N: usize> Bytes<U, N> {
    /// Makes the value with the bytes of a slice, which has to be `N` bytes long. Any other length is refused: with
    /// `KeyLength` for a key, with `NonceLength` for a nonce.
    pub fn from_slice(bytes: &[u8]) -> Result<Bytes<U, N>, Fault>
        ensures { MatchResult result (λ b. (b ≡ bytes.now) × (length bytes.now ≡ N))
            (λ e. (e ≡ U.length_fault) × (length bytes.now ≢ N)) }
    {
        match <[u8; N]>::try_from(bytes) {
            Ok(bytes) => Ok(Bytes::new(bytes)),
            Err(_) => Err(U::length_fault()),
        }
    }
}

/// The conversion is `from_slice`.
impl<U: LengthFault, const N: usize> TryFrom<&[u8]> for Bytes<U, N> {
    type Error = Fault;

    ghost try_from_gives = { λ bytes result. MatchResult result (λ b. (b ≡ bytes.now) × (length bytes.now ≡ N))
        (λ e. (e ≡ U.length_fault) × (length bytes.now ≢ N)) };

    fn try_from(bytes: &[u8]) -> Result<Bytes<U, N>, Fault> {
        Bytes::from_slice(bytes)
    }
}
