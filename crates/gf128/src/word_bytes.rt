//! Words of 128 bits as vectors of bytes: a shift by one byte is one shuffle, where LLVM makes three shifts for a number.

ghost use Rattle.std.specs.Prelude.{◌≡◌, ◌*◌, ◌/◌, ◌%◌, ◌^◌, ◌<◌, bit_xor};
ghost use Rattle.octets.specs.Bytes.{IsBlock, le};
ghost use Rattle.gf128.specs.Code.Words.{IsMoved};

use crate::placed::Lanes;
use octets::le_bytes;
use std::simd::prelude::*;
use std::simd::{u8x16, u64x2};

// A word as the vector of its bytes, the least significant one first.
#[derive(Drop, Clone, Copy)]
pub(crate) struct WordBytes {
    pub(crate) bytes: u8x16,
    ghost is_block: { IsBlock bytes },
}

impl WordBytes {
    // The vector of a word.
    #[inline(always)]
    pub(crate) fn of(word: u128) -> WordBytes
        ensures { le result.bytes ≡ word }
    {
        WordBytes {
            bytes: u8x16::from_array(le_bytes(word)),
        }
    }

    // The vector of sixteen bytes.
    #[inline(always)]
    pub(crate) fn of_bytes(bytes: [u8; 16]) -> WordBytes
        ensures { result.bytes ≡ bytes }
    {
        WordBytes {
            bytes: u8x16::from_array(bytes),
        }
    }

    // The word.
    #[inline(always)]
    pub(crate) fn word(self) -> u128
        ensures { result ≡ le self.bytes }
    {
        u128::from_le_bytes(self.bytes.to_array())
    }

    // The word moved up by 64 places. What it loses is gone.
    #[inline(always)]
    pub(crate) fn half_up(self) -> WordBytes
        ensures { le result.bytes ≡ le self.bytes * 2 ^ 64 % 2 ^ 128 }
    {
        WordBytes {
            bytes: u64x2::from_le_bytes(self.bytes)
                .shuffle(u64x2::splat(0), [2, 0])
                .to_le_bytes(),
        }
    }

    // The word shifted down by 64 places.
    #[inline(always)]
    pub(crate) fn half_down(self) -> WordBytes
        ensures { le result.bytes ≡ le self.bytes / 2 ^ 64 }
    {
        WordBytes {
            bytes: u64x2::from_le_bytes(self.bytes)
                .shuffle(u64x2::splat(0), [1, 2])
                .to_le_bytes(),
        }
    }

    // The word shifted down by `count` places, fewer than 64: what the upper half loses goes to the lower one.
    #[inline(always)]
    pub(crate) fn shifted_down(self, count: u64) -> WordBytes
        requires some { 0 < count }
        requires within { count < 64 }
        ensures { le result.bytes ≡ le self.bytes / 2 ^ count }
    {
        let carried = self.half_down().up(64 - count);
        carried.xor(self.down(count))
    }

    // The word times 1 + x + x^2 + x^7, without what comes to the places below it.
    #[inline(always)]
    pub(crate) fn folded(self) -> WordBytes
        ensures { let f = le self.bytes in le result.bytes ≡ bit_xor f (bit_xor (f / 2 ^ 1) (bit_xor (f / 2 ^ 2) (f / 2 ^ 7))) }
    {
        let by_x = self.shifted_down(1);
        let by_x2 = self.shifted_down(2);
        let by_x7 = self.shifted_down(7);
        let two = by_x2.xor(by_x7);
        let three = by_x.xor(two);
        self.xor(three)
    }

    // The word times x^`count` in GHASH's field: the bit of weight 2^127 is the coefficient of x^0, so this shifts down, and what
    // falls out below is folded in. The callers want 1, 2 and 4. It is left to LLVM to inline this: were it always done, the body
    // that makes all tables would be too long to be inlined itself, and the tables would be copied.
    pub(crate) fn times_power(self, count: u64) -> WordBytes
        requires some { 0 < count }
        requires within { count < 8 }
        ensures { IsMoved count (le self.bytes) (le result.bytes) }
    {
        let out = self.up(64 - count).half_up();
        let fold = out.folded();
        self.shifted_down(count).xor(fold)
    }
}

impl Lanes for WordBytes {
    ghost value = { λ s. le s.bytes };

    #[inline(always)]
    fn zero() -> WordBytes {
        WordBytes::of(0)
    }

    #[inline(always)]
    fn xor(self, other: WordBytes) -> WordBytes {
        WordBytes {
            bytes: self.bytes ^ other.bytes,
        }
    }

    #[inline(always)]
    fn up(self, count: u64) -> WordBytes {
        WordBytes {
            bytes: (u64x2::from_le_bytes(self.bytes) << u64x2::splat(count)).to_le_bytes(),
        }
    }

    #[inline(always)]
    fn down(self, count: u64) -> WordBytes {
        WordBytes {
            bytes: (u64x2::from_le_bytes(self.bytes) >> u64x2::splat(count)).to_le_bytes(),
        }
    }

    #[inline(always)]
    fn sum(self) -> WordBytes {
        self
    }
}
