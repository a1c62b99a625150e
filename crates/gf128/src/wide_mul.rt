//! Four products in GHASH's field (SP 800-38D, 6.3) in one sum, by tables of multiples of the key's first four powers.

ghost use Rattle.std.specs.Prelude.{◌≡◌, ℕ, ◌*◌, ◌<◌, List, length};
ghost use Rattle.std.specs.Int.{w128, to_be_bytes};
ghost use Rattle.octets.specs.Bytes.{le};
ghost use Rattle.octets.specs.Polynomial.{power, Agree};
ghost use Rattle.gf128.specs.Code.Words.{of_word, looked_word, looked_four, AreTables, AreFours, IsReduced, IsFourProducts};
ghost use Rattle.gf128.specs.Code.PlainMultiples.{ArePaired};
ghost use Rattle.gf128.specs.Orders.{sum_after, IsSumAfter};

use crate::hash_order::HashOrder;
use crate::nibbles::Nibbles;
use crate::paired::{PairTables, times_pairs};
use crate::placed::{Lanes, Parts, placed_sum};
use crate::table_mul::{TableMul, times_few};
use crate::tables::PlainMultiples;
use crate::word_bytes::WordBytes;
use crate::{Keyed128, Multiply};
use octets::{Block, wide};

// From this many runs of four blocks on, it is faster to copy the tables for vectors of 32 bytes.
const PAIRS_PAY: usize = 3;

/// The multiplier that holds 32 multiples of each of the key's first four powers, 2 KiB, and takes four blocks at a time. It
/// is for a key that hashes several long texts; for one long text, [`TableMul`] makes the tables where they are used.
///
/// It looks them up as [`TableMul`] does, in registers: no address and no branch depends on the key or on the blocks.
#[derive(Drop)]
pub struct WideMul {
    first: TableMul,
    second: TableMul,
    third: TableMul,
    fourth: TableMul,
    ghost second_power: { IsReduced (power (of_word first.word) 2) second.word },
    ghost third_power: { IsReduced (power (of_word first.word) 3) third.word },
    ghost fourth_power: { IsReduced (power (of_word first.word) 4) fourth.word },
}

// What multiplies four words by the first four powers of a key.
trait FourProducts {
    // The key's bytes.
    ghost key: { Self → List ℕ };

    // The sum of four words times four powers of the key, the fourth power first.
    fn times_four(&self, a: WordBytes, b: WordBytes, c: WordBytes, d: WordBytes) -> WordBytes
        ensures { IsFourProducts (le a.bytes) (le b.bytes) (le c.bytes) (le d.bytes) (key self.now) (le result.bytes) };
}

// What the tables of a multiplier give for each byte of four words, each with the tables of its own power.
#[derive(Drop)]
struct FourWords<'a> {
    multiplier: &'a WideMul,
    fourth: Nibbles,
    third: Nibbles,
    second: Nibbles,
    first: Nibbles,
}

impl<'a> Parts<WordBytes> for FourWords<'a> {
    ghost parts = { λ s. let m = s.multiplier.now in
        looked_four (looked_word m.fourth.multiples.high m.fourth.multiples.low s.fourth.word.bytes)
        (looked_word m.third.multiples.high m.third.multiples.low s.third.word.bytes)
        (looked_word m.second.multiples.high m.second.multiples.low s.second.word.bytes)
        (looked_word m.first.multiples.high m.first.multiples.low s.first.word.bytes) };

    #[inline(always)]
    fn part(&self, j: usize) -> WordBytes {
        let tables = self.multiplier;
        let fourth = tables.fourth.multiples.part(self.fourth, j);
        let third = tables.third.multiples.part(self.third, j);
        let second = tables.second.multiples.part(self.second, j);
        let first = tables.first.multiples.part(self.first, j);
        let high = fourth.xor(third);
        let low = second.xor(first);
        high.xor(low)
    }
}

impl FourProducts for WideMul {
    ghost key = { λ s. to_be_bytes w128 s.first.word };

    #[inline(always)]
    fn times_four(&self, a: WordBytes, b: WordBytes, c: WordBytes, d: WordBytes) -> WordBytes {
        let fourth = Nibbles::of(a);
        let third = Nibbles::of(b);
        let second = Nibbles::of(c);
        let first = Nibbles::of(d);
        let words = FourWords {
            multiplier: self,
            fourth,
            third,
            second,
            first,
        };
        placed_sum::<WordBytes, FourWords>(&words)
    }
}

// A multiplier with its tables in pairs, for vectors of 32 bytes.
#[derive(Drop)]
struct PairedMul<'a> {
    multiplier: &'a WideMul,
    upper: &'a PairTables,
    lower: &'a PairTables,
    ghost upper_is: { ArePaired upper.now.high upper.now.low multiplier.now.fourth.multiples multiplier.now.third.multiples },
    ghost lower_is: { ArePaired lower.now.high lower.now.low multiplier.now.second.multiples multiplier.now.first.multiples },
}

impl<'a> FourProducts for PairedMul<'a> {
    ghost key = { λ s. to_be_bytes w128 s.multiplier.now.first.word };

    #[inline(always)]
    fn times_four(&self, a: WordBytes, b: WordBytes, c: WordBytes, d: WordBytes) -> WordBytes {
        times_pairs(self.upper, self.lower, a, b, c, d)
    }
}

// The sum after blocks that come in fours.
#[inline(always)]
fn times_fours<O: HashOrder, F: FourProducts>(
    multiplier: &F,
    sum: u128,
    fours: &[[[u8; 16]; 4]],
) -> u128
    ensures { (blocks : List (List ℕ)) → AreFours fours.now blocks → Agree (of_word result)
        (sum_after O.order (F.key multiplier.now) (of_word sum) blocks (length fours.now * 4)) }
{
    // The sum stays a vector from one run of four blocks to the next.
    let mut total = WordBytes::of(sum);
    'fours: for four in fours {
        let first = WordBytes::of_bytes(O::word_bytes(&four[0]));
        let a = total.xor(first);
        let b = WordBytes::of_bytes(O::word_bytes(&four[1]));
        let c = WordBytes::of_bytes(O::word_bytes(&four[2]));
        let d = WordBytes::of_bytes(O::word_bytes(&four[3]));
        total = multiplier.times_four(a, b, c, d);
    }
    total.word()
}

impl WideMul {
    // Makes this the multiplier of the key that this word is, in place. To copy the key's multiples is faster than to make them.
    fn set_multiples(&mut self, word: u128, multiples: &PlainMultiples)
        requires { AreTables word multiples.now.high multiples.now.low }
        ensures { self.new.first.word ≡ word }
    {
        self.first = TableMul {
            word,
            multiples: *multiples,
        };
        let second = multiples.times_word(word);
        let third = multiples.times_word(second);
        let fourth = multiples.times_word(third);
        self.second.set_word(second);
        self.third.set_word(third);
        self.fourth.set_word(fourth);
    }

    /// Makes this the multiplier of the key that `table` is the multiplier of, in place.
    pub fn set_table(&mut self, table: &TableMul)
        ensures { ⟦<WideMul as Multiply>⟧.key_bytes self.new ≡ ⟦<TableMul as Multiply>⟧.key_bytes table.now }
    {
        self.set_multiples(table.word, &table.multiples);
    }

    // The form that the processor's vectors allow.
    #[inline(always)]
    fn times_runs<O: HashOrder>(&self, sum: u128, fours: &[[[u8; 16]; 4]]) -> u128
        ensures { (blocks : List (List ℕ)) → AreFours fours.now blocks → Agree (of_word result)
            (sum_after O.order (to_be_bytes w128 self.now.first.word) (of_word sum) blocks (length fours.now * 4)) }
    {
        if wide() && fours.len() >= PAIRS_PAY {
            // The tables are copied once, so that each look-up loads two tables at once.
            let upper = PairTables::of(&self.fourth.multiples, &self.third.multiples);
            let lower = PairTables::of(&self.second.multiples, &self.first.multiples);
            let by_pairs = PairedMul {
                multiplier: self,
                upper: &upper,
                lower: &lower,
            };
            times_fours::<O, PairedMul>(&by_pairs, sum, fours)
        } else {
            times_fours::<O, WideMul>(self, sum, fours)
        }
    }
}

impl Multiply for WideMul {
    ghost key_bytes = { λ s. to_be_bytes w128 s.first.word };

    fn times_word(&self, x: u128) -> u128 {
        self.first.times_word(x)
    }

    // A call of its own: inlined where the multiplier is chosen at run time, it would make the caller's frame 2 KiB longer.
    #[inline(never)]
    fn times_all<O: HashOrder>(&self, sum: u128, blocks: &[[u8; 16]]) -> u128 {
        let (fours, rest) = blocks.as_chunks::<4>();
        let taken = self.times_runs::<O>(sum, fours);
        times_few::<O>(&self.first.multiples, taken, rest)
    }
}

impl Keyed128 for WideMul {
    // Inlined, since a call would move the tables twice.
    #[inline(always)]
    fn of(key: &Block) -> WideMul {
        let mut multiplier = WideMul::none();
        multiplier.set(key);
        multiplier
    }

    // Inlined, so that the tables are cleared where they stay.
    #[inline(always)]
    fn none() -> WideMul {
        WideMul {
            first: TableMul::of_zero(),
            second: TableMul::of_zero(),
            third: TableMul::of_zero(),
            fourth: TableMul::of_zero(),
        }
    }

    fn set(&mut self, key: &Block) {
        let first = TableMul::of(key);
        self.set_multiples(first.word, &first.multiples);
    }
}

// The sum after many blocks, under the key that this word is and whose multiples these are. The tables of four powers stand on
// the stack here alone.
#[inline(never)]
pub(crate) fn times_many<O: HashOrder>(
    word: u128,
    multiples: &PlainMultiples,
    sum: u128,
    blocks: &[[u8; 16]],
) -> u128
    requires { AreTables word multiples.now.high multiples.now.low }
    ensures { IsSumAfter O.order (to_be_bytes w128 word) sum blocks.now result }
{
    let mut multiplier = WideMul::none();
    multiplier.set_multiples(word, multiples);
    multiplier.times_all::<O>(sum, blocks)
}
