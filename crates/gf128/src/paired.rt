//! The tables of multiples of two words side by side, so that a vector of 32 bytes looks the bytes of two words up at once.

ghost use Rattle.std.specs.Prelude.{◌≡◌, ◌<◌, bit_xor};
ghost use Rattle.gf128.specs.Code.Words.{both, first_tables, second_tables, looked_word, looked_four, folded_wide, placed};
ghost use Rattle.gf128.specs.Code.PlainMultiples.{ArePaired};
ghost use Rattle.octets.specs.Bytes.{le};

use crate::nibbles::NibblePairs;
use crate::placed::{Lanes, Parts, placed_sum};
use crate::tables::PlainMultiples;
use crate::word_bytes::WordBytes;
use crate::word_pairs::WordPair;

// The tables of two words: those of the first one are the first halves of the tables of 32 bytes.
#[derive(Drop)]
pub(crate) struct PairTables {
    high: [[u8; 32]; 16],
    low: [[u8; 32]; 16],
}

impl PairTables {
    // The tables of two words from those of each.
    #[inline(always)]
    pub(crate) fn of(first: &PlainMultiples, second: &PlainMultiples) -> PairTables
        ensures { ArePaired result.high result.low first.now second.now }
    {
        let mut high = [[0; 32]; 16];
        let mut low = [[0; 32]; 16];
        'tables: for j in 0..16usize {
            let high_pair = WordPair::of(first.high_table(j), second.high_table(j));
            let low_pair = WordPair::of(first.low_table(j), second.low_table(j));
            high[j] = high_pair.bytes.to_array();
            low[j] = low_pair.bytes.to_array();
        }
        PairTables { high, low }
    }

    // What the tables of byte `j` of the multiples give for the bytes of two words.
    #[inline(always)]
    fn part(&self, at: NibblePairs, j: usize) -> WordPair
        requires { j < 16 }
        ensures { let s = self.now in both result.bytes
            ≡ bit_xor (looked_word (first_tables s.high) (first_tables s.low) at.first.bytes j)
            (looked_word (second_tables s.high) (second_tables s.low) at.second.bytes j) }
    {
        let high = WordPair::of_bytes(self.high[j]);
        let low = WordPair::of_bytes(self.low[j]);
        at.look(high, low)
    }
}

// What two pairs of tables give for each byte of four words.
#[derive(Drop)]
struct FourPaired<'a> {
    upper: &'a PairTables,
    lower: &'a PairTables,
    ab: NibblePairs,
    cd: NibblePairs,
}

impl<'a> Parts<WordPair> for FourPaired<'a> {
    ghost parts = { λ s. let u = s.upper.now in let l = s.lower.now in
        looked_four (looked_word (first_tables u.high) (first_tables u.low) s.ab.first.bytes)
        (looked_word (second_tables u.high) (second_tables u.low) s.ab.second.bytes)
        (looked_word (first_tables l.high) (first_tables l.low) s.cd.first.bytes)
        (looked_word (second_tables l.high) (second_tables l.low) s.cd.second.bytes) };

    #[inline(always)]
    fn part(&self, j: usize) -> WordPair {
        let high = self.upper.part(self.ab, j);
        let low = self.lower.part(self.cd, j);
        high.xor(low)
    }
}

// The sum of the products of four words, each with the word whose multiples a half of the tables holds.
#[inline(always)]
pub(crate) fn times_pairs(
    upper: &PairTables,
    lower: &PairTables,
    a: WordBytes,
    b: WordBytes,
    c: WordBytes,
    d: WordBytes,
) -> WordBytes
    ensures { let u = upper.now in let l = lower.now in le result.bytes
        ≡ folded_wide (placed (looked_four (looked_word (first_tables u.high) (first_tables u.low) a.bytes)
        (looked_word (second_tables u.high) (second_tables u.low) b.bytes)
        (looked_word (first_tables l.high) (first_tables l.low) c.bytes)
        (looked_word (second_tables l.high) (second_tables l.low) d.bytes)) 16) }
{
    let ab = NibblePairs::of(a, b);
    let cd = NibblePairs::of(c, d);
    let words = FourPaired {
        upper,
        lower,
        ab,
        cd,
    };
    placed_sum::<WordPair, FourPaired>(&words)
}
