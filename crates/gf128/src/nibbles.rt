//! Look-ups by the bytes of a word in registers: each byte's high and low four bits are the index into a table of sixteen bytes
//! that is a vector. No address depends on the word.

ghost use Rattle.std.specs.Prelude.{◌≡◌, ℕ, ◌/◌, ◌%◌, ◌<◌, ◌++◌, length, slice_index, take, drop, bit_xor};
ghost use Rattle.octets.specs.Bytes.{le};
ghost use Rattle.gf128.specs.Code.Words.{looked_up, both};

use crate::word_bytes::WordBytes;
use crate::word_pairs::WordPair;
use std::simd::prelude::*;
use std::simd::{u8x16, u8x32};

// The bytes of a word, and the high and the low four bits of each.
#[derive(Drop, Clone, Copy)]
pub(crate) struct Nibbles {
    word: WordBytes,
    high: u8x16,
    low: u8x16,
    ghost long_high: { length high ≡ 16 },
    ghost long_low: { length low ≡ 16 },
    ghost high_is: { (p : ℕ) → p < 16 → slice_index high p ≡ slice_index word.bytes p / 16 },
    ghost low_is: { (p : ℕ) → p < 16 → slice_index low p ≡ slice_index word.bytes p % 16 },
}

impl Nibbles {
    // Splits the bytes of a word.
    #[inline(always)]
    pub(crate) fn of(word: WordBytes) -> Nibbles
        ensures { result.word ≡ word }
    {
        Nibbles {
            word,
            high: word.bytes >> u8x16::splat(4),
            low: word.bytes & u8x16::splat(15),
        }
    }

    // Looks the high four bits of each byte up in one table and the low four bits in another, and XORs what they give.
    #[inline(always)]
    pub(crate) fn look(self, high: [u8; 16], low: [u8; 16]) -> WordBytes
        ensures { result.bytes ≡ looked_up high low self.word.bytes }
    {
        let by_high = u8x16::from_array(high).swizzle_dyn_within::<16>(self.high);
        let by_low = u8x16::from_array(low).swizzle_dyn_within::<16>(self.low);
        WordBytes {
            bytes: by_high ^ by_low,
        }
    }
}

// The bytes of two words, and the high and the low four bits of each, in vectors of 32 bytes.
#[derive(Drop, Clone, Copy)]
pub(crate) struct NibblePairs {
    first: WordBytes,
    second: WordBytes,
    high: u8x32,
    low: u8x32,
    ghost long_high: { length high ≡ 32 },
    ghost long_low: { length low ≡ 32 },
    ghost high_is: { (p : ℕ) → p < 32 → slice_index high p ≡ slice_index (first.bytes ++ second.bytes) p / 16 },
    ghost low_is: { (p : ℕ) → p < 32 → slice_index low p ≡ slice_index (first.bytes ++ second.bytes) p % 16 },
}

impl NibblePairs {
    // Splits the bytes of two words.
    #[inline(always)]
    pub(crate) fn of(first: WordBytes, second: WordBytes) -> NibblePairs
        ensures first { result.first ≡ first }
        ensures second { result.second ≡ second }
    {
        let pair = WordPair::of(first, second);
        NibblePairs {
            first,
            second,
            high: pair.bytes >> u8x32::splat(4),
            low: pair.bytes & u8x32::splat(15),
        }
    }

    // Looks the bytes of each word up in a pair of tables of its own, as [`Nibbles::look`] does: those of the first word in the
    // first halves of these tables, and those of the second word in the second halves.
    #[inline(always)]
    pub(crate) fn look(self, high: WordPair, low: WordPair) -> WordPair
        ensures { both result.bytes ≡ bit_xor (le (looked_up (take 16 high.bytes) (take 16 low.bytes) self.first.bytes))
            (le (looked_up (drop 16 high.bytes) (drop 16 low.bytes) self.second.bytes)) }
    {
        let by_high = high.bytes.swizzle_dyn_within::<16>(self.high);
        let by_low = low.bytes.swizzle_dyn_within::<16>(self.low);
        WordPair {
            bytes: by_high ^ by_low,
        }
    }
}
