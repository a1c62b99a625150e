//! A sum of words, each moved up by some places, that is reduced once at the end (SP 800-38D, 6.3). Its three vectors overlap: a
//! half of 64 bits is shifted by itself, and what it loses goes to the next vector.

ghost use Rattle.std.specs.Prelude.{◌≡◌, ℕ, ◌+◌, ◌*◌, ◌^◌, ◌<◌, bit_xor};
ghost use Rattle.octets.specs.Bytes.{le};
ghost use Rattle.gf128.specs.Code.Words.{total, halves_up, halves_down, placed, folded_wide};

use crate::word_bytes::WordBytes;

// A word in a vector of 16 bytes, or two in one of 32, of which only the XOR counts.
pub(crate) trait Lanes: Drop + Copy {
    // The word, or the XOR of the two.
    ghost value: { Self → ℕ };

    // The vector of zeros.
    fn zero() -> Self
        ensures { value result ≡ 0 };

    // XORs two vectors.
    fn xor(self, other: Self) -> Self
        ensures { value result ≡ bit_xor (value self) (value other) };

    // Shifts both halves of each word up.
    fn up(self, count: u64) -> Self
        requires { count < 64 }
        ensures shifted { value result ≡ halves_up count (value self) }
        ensures within { value self < 2 ^ 128 };

    // Shifts both halves of each word down.
    fn down(self, count: u64) -> Self
        requires { count < 64 }
        ensures { value result ≡ halves_down count (value self) };

    // The word, or the XOR of the two, as one word.
    fn sum(self) -> WordBytes
        ensures { le result.bytes ≡ value self };
}

// A number of 256 bits: the XOR of a word, of one that is moved up by 64 places, and of one that is moved up by 128. In vectors of
// 32 bytes it is the XOR of two such numbers, so that they need to be halved only once.
#[derive(Drop, Clone, Copy)]
struct Placed<L> {
    low: L,
    middle: L,
    high: L,
}

impl<L: Lanes> Placed<L> {
    // 0.
    #[inline(always)]
    fn none() -> Placed<L>
        ensures { total (L.value result.low) (L.value result.middle) (L.value result.high) ≡ 0 }
    {
        let zero = L::zero();
        Placed {
            low: zero,
            middle: zero,
            high: zero,
        }
    }

    // XORs in words that are moved up by `count` places, fewer than 64.
    #[inline(always)]
    fn low(self, words: L, count: u64) -> Placed<L>
        requires some { 0 < count }
        requires within { count < 64 }
        ensures { total (L.value result.low) (L.value result.middle) (L.value result.high)
            ≡ bit_xor (total (L.value self.low) (L.value self.middle) (L.value self.high)) (L.value words * 2 ^ count) }
    {
        Placed {
            low: self.low.xor(words.up(count)),
            middle: self.middle.xor(words.down(64 - count)),
            high: self.high,
        }
    }

    // XORs in words that are moved up by 64 places.
    #[inline(always)]
    fn middle(self, words: L) -> Placed<L>
        ensures { total (L.value result.low) (L.value result.middle) (L.value result.high)
            ≡ bit_xor (total (L.value self.low) (L.value self.middle) (L.value self.high)) (L.value words * 2 ^ 64) }
    {
        Placed {
            low: self.low,
            middle: self.middle.xor(words),
            high: self.high,
        }
    }

    // XORs in words that are moved up by 64 + `count` places, fewer than 128.
    #[inline(always)]
    fn high(self, words: L, count: u64) -> Placed<L>
        requires some { 0 < count }
        requires within { count < 64 }
        ensures { total (L.value result.low) (L.value result.middle) (L.value result.high)
            ≡ bit_xor (total (L.value self.low) (L.value self.middle) (L.value self.high)) (L.value words * 2 ^ (64 + count)) }
    {
        Placed {
            low: self.low,
            middle: self.middle.xor(words.up(count)),
            high: self.high.xor(words.down(64 - count)),
        }
    }

    // XORs in words that are moved up by 128 places, and reduces the number.
    #[inline(always)]
    fn reduce_with(self, words: L) -> WordBytes
        ensures { le result.bytes ≡ folded_wide (bit_xor (total (L.value self.low) (L.value self.middle) (L.value self.high))
            (L.value words * 2 ^ 128)) }
    {
        let first = self.low.sum();
        let second = self.middle.sum();
        let third = self.high.sum();
        let fourth = words.sum();
        let above = second.half_up();
        let below = second.half_down();
        let low = first.xor(above);
        let last = third.xor(fourth);
        let high = below.xor(last);
        let fold = low.folded();
        high.xor(fold)
    }
}

// Sixteen words, which stand for the bytes of a factor.
pub(crate) trait Parts<L: Lanes> {
    // The word of each byte.
    ghost parts: { Self → ℕ → ℕ };

    // The word of byte `j`.
    fn part(&self, j: usize) -> L
        requires { j < 16 }
        ensures { L.value result ≡ parts self.now j };
}

// The sum of sixteen words, each moved up to the place of its byte, reduced.
#[inline(always)]
pub(crate) fn placed_sum<L: Lanes, P: Parts<L>>(words: &P) -> WordBytes
    ensures { le result.bytes ≡ folded_wide (placed (P.parts words.now) 16) }
{
    let mut sum = Placed::<L>::none();
    'low: for j in 0..7usize {
        sum = sum.low(words.part(j), 8 * j as u64 + 8);
    }
    let seventh = words.part(7);
    sum = sum.middle(seventh);
    'high: for j in 0..7usize {
        sum = sum.high(words.part(j + 8), 8 * j as u64 + 8);
    }
    let last = words.part(15);
    sum.reduce_with(last)
}
