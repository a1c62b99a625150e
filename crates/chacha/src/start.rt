//! The first blocks of a key stream (RFC 8439, 2.4), computed at once: a type for each number of blocks.

ghost use Rattle.std.specs.Prelude.{◌≡◌, ◌+◌, ◌%◌, ◌^◌, ◌<◌, ◌≤◌, ℕ, List, length, replicate, slice_index};
ghost use Rattle.chacha.specs.Stream.{key_stream_byte};

use crate::row_beside::xor_five_blocks;
use crate::rows::{put_three_sets, put_two_blocks, put_two_sets};
use crate::runs::xor_runs;
use octets::{Idle, Key32, Nonce, Work, wide};
use std::simd::{u32x4, u32x8};

/// The first blocks of a key stream, from counter 0 on (RFC 8439, 2.4).
// A type for each number of blocks, so that a short text clears and copies no more bytes than it needs.
pub trait KeyStreamStart: Drop + Sized {
    // The bytes of the blocks.
    ghost bytes: { Self → List ℕ };

    /// Returns zeros, which [`KeyStreamStart::set`] replaces.
    fn zeros() -> Self
        ensures { bytes result ≡ replicate (length (bytes result)) 0 };

    /// Computes the first blocks of the key stream, in place, since blocks that are returned are copied. As for
    /// [`crate::ChaStream::new`], a nonce must never be used twice under one key. AEAD_CHACHA20_POLY1305 takes its one-time key
    /// from the first 32 bytes (2.6), which must not mask a text.
    #[inline(always)]
    fn set(&mut self, key: &Key32, nonce: &Nonce)
        ensures { (i : ℕ) → i < length (bytes self.new)
            → slice_index (bytes self.new) i ≡ key_stream_byte key.now nonce.now 0 i }
    {
        self.set_from(key, 0, nonce, &mut Idle::new());
    }

    /// Computes the blocks from a counter on in place of the first ones, and offers places for steps of other work. The caller shows
    /// that eight blocks from this counter on exist.
    fn set_from<W: Work>(&mut self, key: &Key32, counter: u32, nonce: &Nonce, work: &mut W)
        requires { counter + 8 ≤ 2 ^ 32 }
        ensures stream { (i : ℕ) → i < length (bytes self.new)
            → slice_index (bytes self.new) i ≡ key_stream_byte key.now nonce.now counter i }
        ensures work { (w : W) → W.reaches w work.old → W.reaches w work.new };

    /// Returns the bytes of the blocks: 64 for each of two to eight.
    fn blocks(&self) -> &[u8]
        ensures value { result.now ≡ bytes self.now }
        ensures whole { length result.now % 64 ≡ 0 }
        ensures some { 64 ≤ length result.now }
        ensures at_most_eight { length result.now ≤ 512 };
}

/// The two blocks with the counters 0 and 1.
#[derive(Drop)]
pub struct TwoBlocks {
    bytes: [u8; 128],
}

impl KeyStreamStart for TwoBlocks {
    ghost bytes = { λ s. s.bytes };

    fn zeros() -> TwoBlocks {
        TwoBlocks { bytes: [0; 128] }
    }

    #[inline(always)]
    fn set_from<W: Work>(&mut self, key: &Key32, counter: u32, nonce: &Nonce, work: &mut W) {
        put_two_blocks(key, counter, nonce, &mut self.bytes, work);
    }

    fn blocks(&self) -> &[u8] {
        &self.bytes
    }
}

/// The three blocks with the counters 0 to 2.
#[derive(Drop)]
pub struct ThreeBlocks {
    bytes: [u8; 192],
}

impl KeyStreamStart for ThreeBlocks {
    ghost bytes = { λ s. s.bytes };

    fn zeros() -> ThreeBlocks {
        ThreeBlocks { bytes: [0; 192] }
    }

    #[inline(always)]
    fn set_from<W: Work>(&mut self, key: &Key32, counter: u32, nonce: &Nonce, work: &mut W) {
        put_three_sets::<[u32x4; 4], W>(key, counter, nonce, &mut self.bytes, work);
    }

    fn blocks(&self) -> &[u8] {
        &self.bytes
    }
}

/// The four blocks with the counters 0 to 3.
#[derive(Drop)]
pub struct FourBlocks {
    bytes: [u8; 256],
}

impl KeyStreamStart for FourBlocks {
    ghost bytes = { λ s. s.bytes };

    fn zeros() -> FourBlocks {
        FourBlocks { bytes: [0; 256] }
    }

    #[inline(always)]
    fn set_from<W: Work>(&mut self, key: &Key32, counter: u32, nonce: &Nonce, work: &mut W) {
        if wide() {
            put_two_sets::<[u32x8; 4], W>(key, counter, nonce, &mut self.bytes, work);
        } else {
            self.bytes = [0; 256];
            xor_runs::<[u32x4; 16], W>(key, counter, nonce, &mut self.bytes, work);
        }
    }

    fn blocks(&self) -> &[u8] {
        &self.bytes
    }
}

/// The five blocks with the counters 0 to 4.
#[derive(Drop)]
pub struct FiveBlocks {
    bytes: [u8; 320],
}

impl KeyStreamStart for FiveBlocks {
    ghost bytes = { λ s. s.bytes };

    fn zeros() -> FiveBlocks {
        FiveBlocks { bytes: [0; 320] }
    }

    #[inline(always)]
    fn set_from<W: Work>(&mut self, key: &Key32, counter: u32, nonce: &Nonce, work: &mut W) {
        self.bytes = [0; 320];
        xor_five_blocks(key, counter, nonce, &mut self.bytes, work);
    }

    fn blocks(&self) -> &[u8] {
        &self.bytes
    }
}

/// The six blocks with the counters 0 to 5.
#[derive(Drop)]
pub struct SixBlocks {
    bytes: [u8; 384],
}

impl KeyStreamStart for SixBlocks {
    ghost bytes = { λ s. s.bytes };

    fn zeros() -> SixBlocks {
        SixBlocks { bytes: [0; 384] }
    }

    #[inline(always)]
    fn set_from<W: Work>(&mut self, key: &Key32, counter: u32, nonce: &Nonce, work: &mut W) {
        put_three_sets::<[u32x8; 4], W>(key, counter, nonce, &mut self.bytes, work);
    }

    fn blocks(&self) -> &[u8] {
        &self.bytes
    }
}

/// The eight blocks with the counters 0 to 7.
#[derive(Drop)]
pub struct EightBlocks {
    bytes: [u8; 512],
}

impl KeyStreamStart for EightBlocks {
    ghost bytes = { λ s. s.bytes };

    fn zeros() -> EightBlocks {
        EightBlocks { bytes: [0; 512] }
    }

    #[inline(always)]
    fn set_from<W: Work>(&mut self, key: &Key32, counter: u32, nonce: &Nonce, work: &mut W) {
        self.bytes = [0; 512];
        xor_runs::<[u32x8; 16], W>(key, counter, nonce, &mut self.bytes, work);
    }

    fn blocks(&self) -> &[u8] {
        &self.bytes
    }
}
