//! The hashes of the constructions, of which their tags are made: Poly1305 (RFC 8439, 2.8), GHASH (SP 800-38D, 7.1) and POLYVAL
//! (RFC 8452, 4).

ghost use Rattle.std.specs.Prelude.{◌≡◌, ◌<◌, ◌*◌, ◌/◌, ◌^◌, ◌++◌, ℕ, List, length, take, drop};
ghost use Rattle.octets.specs.Bytes.{pad16};
ghost use Rattle.gf128.specs.Orders.{Serves};
ghost use Rattle.aead.specs.Suites.{ByChaCha, construction_of};
ghost use Rattle.aead.specs.Sealing.{Setting, Fits};
ghost use Rattle.aead.specs.PassStates.{IsMessageSecret, IsSumOf};
ghost use Rattle.aead.specs.Code.States.{HeldByPoly, HeldByBlocks, block_key, digest_over};

use crate::rule::Rule;
use gf128::{BlockHash, Multiply};
use octets::Block;
use poly1305::Poly;
use std::marker::PhantomData;

// The hash of a construction under the keys of a message.
pub(crate) trait TagHash: Drop {
    // The hash holds this text under the keys of a message.
    ghost held: { Self → Setting → List ℕ → Type 0 };

    // Takes in the next bytes.
    fn take_in(&mut self, bytes: &[u8])
        ensures { (s : Setting) (m : List ℕ) → held self.old s m → held self.new s (m ++ bytes.now) };

    // Pads with zeros to whole blocks.
    fn pad(&mut self)
        ensures { (s : Setting) (m : List ℕ) → held self.old s m → held self.new s (pad16 m) };

    // Returns the sum over the whole blocks of the text: the lower 128 bits, and the bits above them.
    fn sum(&self) -> (u128, u64)
        ensures { (s : Setting) (m : List ℕ) → held self.now s m
            → IsSumOf (construction_of s.suite) result.0 result.1 s m };

    // Returns the bytes of the text after the last whole block.
    fn rest(&self) -> &[u8]
        ensures value { (s : Setting) (m : List ℕ) → held self.now s m
            → result.now ≡ drop (length m / 16 * 16) m }
        ensures short { length result.now < 16 };

    // Pads the bytes after the associated data, takes in both lengths, and returns the hash, of which the tag is made. The state must
    // not be used afterwards.
    fn digest(&mut self, aad_length: u64, bytes_length: u64) -> Block
        ensures { (s : Setting) (m : List ℕ) → held self.old s (pad16 s.aad ++ m) → Fits s m
            → aad_length ≡ length s.aad → bytes_length ≡ length m → result ≡ digest_over s m };
}

// Poly1305; the lengths are in bytes (RFC 8439, 2.8).
impl TagHash for Poly {
    ghost held = { HeldByPoly };

    fn take_in(&mut self, bytes: &[u8]) {
        self.update(bytes);
    }

    fn pad(&mut self) {
        self.pad16();
    }

    fn sum(&self) -> (u128, u64) {
        self.sum()
    }

    fn rest(&self) -> &[u8] {
        self.rest()
    }

    #[inline(always)]
    fn digest(&mut self, aad_length: u64, bytes_length: u64) -> Block {
        self.pad16_and_add_two(aad_length, bytes_length);
        Block::new(*self.tag().bytes())
    }
}

// Returns the number of bits in `bytes` bytes.
#[inline(always)]
fn bits(bytes: u64) -> u64
    ensures { bytes < 2 ^ 61 → result ≡ 8 * bytes }
{
    bytes.wrapping_mul(8)
}

// GHASH and POLYVAL; the lengths are in bits, and stay numbers.
impl<M: Multiply, R: Rule> TagHash for BlockHash<M, R> {
    ghost held = { HeldByBlocks R.Count.by R.order M.key_bytes };

    #[inline(always)]
    fn take_in(&mut self, bytes: &[u8]) {
        self.update(bytes);
    }

    fn pad(&mut self) {
        self.pad16();
    }

    fn sum(&self) -> (u128, u64) {
        (self.sum(), 0)
    }

    fn rest(&self) -> &[u8] {
        self.rest()
    }

    #[inline(always)]
    fn digest(&mut self, aad_length: u64, bytes_length: u64) -> Block {
        R::ends_in_lengths();
        self.pad16_and_add_two(bits(aad_length), bits(bytes_length));
        self.hash()
    }
}

// The keys of a hash, by which it is made again from plain numbers.
pub(crate) trait HashKeys {
    type Hash: TagHash;

    // The keys are those of a message.
    ghost serves: { Self → Setting → Type 0 };

    // Makes the hash of a text again from the secret of its message, its sum over the whole blocks, and the bytes after them.
    fn resumed(&self, secret: &[u8; 32], low: u128, high: u64, rest: &[u8]) -> Self::Hash
        requires { length rest.now < 16 }
        ensures { (s : Setting) (m : List ℕ) → serves self.now s → IsMessageSecret (construction_of s.suite) secret.now s
            → IsSumOf (construction_of s.suite) low high s m → rest.now ≡ drop (length m / 16 * 16) m
            → Self.Hash.held result s m };
}

// The key of Poly1305, which is among the numbers.
#[derive(Drop)]
pub(crate) struct PolyKeys;

impl HashKeys for PolyKeys {
    type Hash = Poly;

    ghost serves = { λ _ s. construction_of s.suite ≡ ByChaCha };

    #[inline(always)]
    fn resumed(&self, secret: &[u8; 32], low: u128, high: u64, rest: &[u8]) -> Poly {
        Poly::resumed(secret, low, high, rest)
    }
}

// A multiplier that serves GHASH or POLYVAL.
#[derive(Drop)]
pub(crate) struct BlockKeys<'a, M, R> {
    multiplier: &'a M,
    rule: PhantomData<R>,
}

impl<'a, M, R> BlockKeys<'a, M, R> {
    // The keys with this multiplier.
    #[inline(always)]
    pub(crate) fn by(multiplier: &'a M) -> BlockKeys<'a, M, R>
        ensures { result.multiplier.now ≡ multiplier.now }
    {
        BlockKeys {
            multiplier,
            rule: PhantomData,
        }
    }
}

impl<'a, M: Multiply, R: Rule> HashKeys for BlockKeys<'a, M, R> {
    type Hash = BlockHash<&'a M, R>;

    ghost serves = { λ k s. (construction_of s.suite ≡ R.Count.by)
        × Serves R.order (block_key R.Count.by s) (M.key_bytes k.multiplier.now) };

    #[inline(always)]
    fn resumed(
        &self,
        _secret: &[u8; 32],
        low: u128,
        _high: u64,
        rest: &[u8],
    ) -> BlockHash<&'a M, R> {
        BlockHash::resumed(self.multiplier, low, rest)
    }
}

// Returns the first 16 bytes.
pub(crate) fn first_block(bytes: &[u8; 32]) -> Block
    ensures { result ≡ take 16 bytes.now }
{
    let mut first = [0; 16];
    first.copy_from_slice(&bytes[..16]);
    Block::new(first)
}

// Returns the last 16 bytes.
pub(crate) fn last_block(bytes: &[u8; 32]) -> Block
    ensures { result ≡ drop 16 bytes.now }
{
    let mut last = [0; 16];
    last.copy_from_slice(&bytes[16..]);
    Block::new(last)
}
