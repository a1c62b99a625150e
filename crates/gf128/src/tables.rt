//! The multiples of a word of GHASH's field (SP 800-38D, 6.3) by all polynomials of four bits, stored byte by byte: a table of
//! sixteen bytes has byte j of all sixteen multiples, so that a vector looks sixteen bytes up at once, in a register.

ghost use Rattle.std.specs.Prelude.{◌≡◌, ℕ, ◌+◌, ◌*◌, ◌/◌, ◌%◌, ◌<◌, slice_index, bit_xor};
ghost use Rattle.std.specs.Int.{w128, to_be_bytes};
ghost use Rattle.octets.specs.Bytes.{le};
ghost use Rattle.gf128.specs.Code.Words.{of_word, entry, looked_up, looked_word, table_at, AreBytes, AreMultiples, AreTables};
ghost use Rattle.gf128.specs.Code.Words.{IsBitsProduct, IsWordProduct};

use crate::nibbles::Nibbles;
use crate::placed::{Parts, placed_sum};
use crate::word_bytes::WordBytes;
use std::simd::prelude::*;
use std::simd::u8x16;

// Where the bit of weight 2 of an index is set, and that of weight 1.
const TWOS: [u8; 16] = [
    0, 0, 255, 255, 0, 0, 255, 255, 0, 0, 255, 255, 0, 0, 255, 255,
];

const ONES: [u8; 16] = [
    0, 255, 0, 255, 0, 255, 0, 255, 0, 255, 0, 255, 0, 255, 0, 255,
];

// An index divided by 4, and its remainder.
const FOURTHS: [u8; 16] = [0, 0, 0, 0, 1, 1, 1, 1, 2, 2, 2, 2, 3, 3, 3, 3];

const REMAINDERS: [u8; 16] = [0, 1, 2, 3, 0, 1, 2, 3, 0, 1, 2, 3, 0, 1, 2, 3];

// Four bytes of two words, from byte 4 * `group` on: of each the four sums of none, the second word's, the first word's, and both.
#[inline(always)]
fn pair_sums(first: WordBytes, second: WordBytes, group: usize) -> u8x16
    requires { group < 4 }
    ensures { (k : ℕ) → k < 16 → slice_index result k ≡ bit_xor (k % 4 / 2 * slice_index first.bytes (4 * group + k / 4))
        (k % 4 % 2 * slice_index second.bytes (4 * group + k / 4)) }
{
    let at = u8x16::from_array(FOURTHS) + u8x16::splat(4 * group as u8);
    let twos = first.bytes.swizzle_dyn_within::<16>(at) & u8x16::from_array(TWOS);
    let ones = second.bytes.swizzle_dyn_within::<16>(at) & u8x16::from_array(ONES);
    twos ^ ones
}

// The table of the byte at `place` in two such groups: the upper two bits of an index choose in `high`, the lower two in `low`.
#[inline(always)]
fn table_of(high: u8x16, low: u8x16, place: usize) -> [u8; 16]
    requires { place < 4 }
    ensures { (n : ℕ) → n < 16 → slice_index result n
        ≡ bit_xor (slice_index high (4 * place + n / 4)) (slice_index low (4 * place + n % 4)) }
{
    let first = u8x16::splat(4 * place as u8);
    let by_high = high.swizzle_dyn_within::<16>(u8x16::from_array(FOURTHS) + first);
    let by_low = low.swizzle_dyn_within::<16>(u8x16::from_array(REMAINDERS) + first);
    (by_high ^ by_low).to_array()
}

// The sixteen multiples of a word by four bits, which are sums of the word times 1, x, x^2 and x^3. Table j has byte j of each.
#[inline(always)]
fn sixteen_tables(once: WordBytes) -> [[u8; 16]; 16]
    ensures { (n : ℕ) → n < 16 → IsBitsProduct 4 n (le once.bytes) (entry result n) }
{
    let by_x = once.times_power(1);
    let by_x2 = once.times_power(2);
    let by_x3 = by_x2.times_power(1);
    let mut tables = [[0; 16]; 16];
    'groups: for group in 0..4usize {
        let high = pair_sums(once, by_x, group);
        let low = pair_sums(by_x2, by_x3, group);
        'places: for place in 0..4usize {
            tables[4 * group + place] = table_of(high, low, place);
        }
    }
    tables
}

// Shows that the entries of a table are bytes. It does nothing.
#[inline(always)]
fn entries_known(_table: [u8; 16])
    ensures { (n : ℕ) → slice_index _table n < 256 }
{}

/// The 32 multiples of a key by four bits each, stored byte by byte in 32 tables of 16 bytes, for a caller that stores them.
#[repr(C)]
#[derive(Drop, Clone, Copy)]
pub struct PlainMultiples {
    high: [[u8; 16]; 16],
    low: [[u8; 16]; 16],
}

impl PlainMultiples {
    ghost use Rattle.gf128.specs.Code.PlainMultiples.{no_multiples};

    /// All zeros, which are the multiples of 0.
    pub fn zeros() -> PlainMultiples
        ensures { result ≡ no_multiples }
    {
        PlainMultiples {
            high: [[0; 16]; 16],
            low: [[0; 16]; 16],
        }
    }

    // The multiples of a word.
    #[inline(always)]
    pub(crate) fn of(word: u128) -> PlainMultiples
        ensures { AreMultiples (of_word word) (entry result.high) (entry result.low) }
    {
        let once = WordBytes::of(word);
        let by_x4 = once.times_power(4);
        PlainMultiples {
            high: sixteen_tables(once),
            low: sixteen_tables(by_x4),
        }
    }

    // Shows that the tables hold bytes. It does nothing.
    #[inline(always)]
    pub(crate) fn bytes_known(&self)
        ensures high { AreBytes self.now.high }
        ensures low { AreBytes self.now.low }
    {
        'tables: for j in 0..16usize {
            entries_known(self.high[j]);
            entries_known(self.low[j]);
        }
    }

    // The table of byte `j` of the multiples by the high four bits.
    #[inline(always)]
    pub(crate) fn high_table(&self, j: usize) -> WordBytes
        requires { j < 16 }
        ensures { result.bytes ≡ table_at self.now.high j }
    {
        WordBytes::of_bytes(self.high[j])
    }

    // The table of byte `j` of the multiples by the low four bits.
    #[inline(always)]
    pub(crate) fn low_table(&self, j: usize) -> WordBytes
        requires { j < 16 }
        ensures { result.bytes ≡ table_at self.now.low j }
    {
        WordBytes::of_bytes(self.low[j])
    }

    // What the tables of byte `j` of the multiples give for the bytes of a word.
    #[inline(always)]
    pub(crate) fn part(&self, at: Nibbles, j: usize) -> WordBytes
        requires { j < 16 }
        ensures { result.bytes ≡ looked_up (table_at self.now.high j) (table_at self.now.low j) at.word.bytes }
    {
        at.look(self.high[j], self.low[j])
    }

    // Multiplies the word whose multiples these are by another word, both as vectors.
    #[inline(always)]
    pub(crate) fn times_bytes(&self, word: WordBytes) -> WordBytes
        ensures { (h : ℕ) → AreTables h self.now.high self.now.low
            → IsWordProduct (le word.bytes) (to_be_bytes w128 h) (le result.bytes) }
    {
        let at = Nibbles::of(word);
        let words = OneWord {
            multiples: self,
            at,
        };
        placed_sum::<WordBytes, OneWord>(&words)
    }

    // Multiplies the word whose multiples these are by another word.
    #[inline(always)]
    pub(crate) fn times_word(&self, x: u128) -> u128
        ensures { (h : ℕ) → AreTables h self.now.high self.now.low
            → IsWordProduct x (to_be_bytes w128 h) result }
    {
        let word = WordBytes::of(x);
        self.times_bytes(word).word()
    }
}

// What the multiples of a word give for each byte of another one.
#[derive(Drop)]
struct OneWord<'a> {
    multiples: &'a PlainMultiples,
    at: Nibbles,
}

impl<'a> Parts<WordBytes> for OneWord<'a> {
    ghost parts = { λ s. looked_word s.multiples.now.high s.multiples.now.low s.at.word.bytes };

    #[inline(always)]
    fn part(&self, j: usize) -> WordBytes {
        self.multiples.part(self.at, j)
    }
}
