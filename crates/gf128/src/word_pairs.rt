//! Two words of 128 bits in a vector of 32 bytes. What counts is their XOR, so that a vector needs to be halved only once.

ghost use Rattle.std.specs.Prelude.{◌≡◌, ◌++◌, take, drop};
ghost use Rattle.gf128.specs.Code.Words.{both, IsPair};

use crate::placed::Lanes;
use crate::word_bytes::WordBytes;
use std::simd::prelude::*;
use std::simd::{u8x16, u8x32, u64x4};

// Two vectors of 16 bytes as one of 32.
#[inline(always)]
fn joined(first: u8x16, second: u8x16) -> u8x32
    ensures { result ≡ first ++ second }
{
    first.shuffle(
        second,
        [
            0, 1, 2, 3, 4, 5, 6, 7, 8, 9, 10, 11, 12, 13, 14, 15, 16, 17, 18, 19, 20, 21, 22, 23,
            24, 25, 26, 27, 28, 29, 30, 31,
        ],
    )
}

// The first 16 bytes of a vector of 32.
#[inline(always)]
fn first_half(both: u8x32) -> u8x16
    ensures { result ≡ take 16 both }
{
    both.swizzle([0, 1, 2, 3, 4, 5, 6, 7, 8, 9, 10, 11, 12, 13, 14, 15])
}

// The last 16 bytes of a vector of 32.
#[inline(always)]
fn second_half(both: u8x32) -> u8x16
    ensures { result ≡ drop 16 both }
{
    both.swizzle([
        16, 17, 18, 19, 20, 21, 22, 23, 24, 25, 26, 27, 28, 29, 30, 31,
    ])
}

// Two words as the vector of their bytes, the first word first.
#[derive(Drop, Clone, Copy)]
pub(crate) struct WordPair {
    pub(crate) bytes: u8x32,
    ghost is_pair: { IsPair bytes },
}

impl WordPair {
    // The vector of two words.
    #[inline(always)]
    pub(crate) fn of(first: WordBytes, second: WordBytes) -> WordPair
        ensures { result.bytes ≡ first.bytes ++ second.bytes }
    {
        WordPair {
            bytes: joined(first.bytes, second.bytes),
        }
    }

    // The vector of 32 bytes.
    #[inline(always)]
    pub(crate) fn of_bytes(bytes: [u8; 32]) -> WordPair
        ensures { result.bytes ≡ bytes }
    {
        WordPair {
            bytes: u8x32::from_array(bytes),
        }
    }
}

impl Lanes for WordPair {
    ghost value = { λ s. both s.bytes };

    #[inline(always)]
    fn zero() -> WordPair {
        WordPair::of(WordBytes::of(0), WordBytes::of(0))
    }

    #[inline(always)]
    fn xor(self, other: WordPair) -> WordPair {
        WordPair {
            bytes: self.bytes ^ other.bytes,
        }
    }

    #[inline(always)]
    fn up(self, count: u64) -> WordPair {
        WordPair {
            bytes: (u64x4::from_le_bytes(self.bytes) << u64x4::splat(count)).to_le_bytes(),
        }
    }

    #[inline(always)]
    fn down(self, count: u64) -> WordPair {
        WordPair {
            bytes: (u64x4::from_le_bytes(self.bytes) >> u64x4::splat(count)).to_le_bytes(),
        }
    }

    #[inline(always)]
    fn sum(self) -> WordBytes {
        WordBytes {
            bytes: first_half(self.bytes) ^ second_half(self.bytes),
        }
    }
}
