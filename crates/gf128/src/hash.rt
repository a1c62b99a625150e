//! GHASH and POLYVAL over a text that comes in pieces (SP 800-38D, 6.4; RFC 8452, 3). Both have the same state, with the order
//! of a block's bytes as a type parameter.

ghost use Rattle.std.specs.Prelude.{◌≡◌, ℕ, ◌*◌, ◌/◌, ◌%◌, ◌<◌, ◌++◌, List, [], length, drop};
ghost use Rattle.octets.specs.Bytes.{IsBlock};
ghost use Rattle.gf128.specs.Code.Words.{of_word};
ghost use Rattle.gf128.specs.Orders.{reading, two_numbers, Serves, hash_by};

use crate::hash_order::HashOrder;
use crate::{Keyed128, Multiply};
use octets::{Absorb, Block, Pieces};
use std::marker::PhantomData;

// The sum over whole blocks.
#[derive(Drop)]
pub(crate) struct BlockSum<M, O> {
    pub(crate) multiplier: M,
    pub(crate) sum: u128,
    pub(crate) order: PhantomData<O>,
}

impl<M: Multiply, O: HashOrder> BlockSum<M, O> {
    ghost use Rattle.gf128.specs.Code.States.{SumHolds};

    // Absorbs the block that has this word.
    #[inline(always)]
    fn absorb_word(&mut self, word: u128)
        ensures { (h m block : List ℕ) → length m % 16 ≡ 0 → length block ≡ 16 → of_word word ≡ reading O.order block
            → SumHolds O.order M.key_bytes self.old h m → SumHolds O.order M.key_bytes self.new h (m ++ block) }
    {
        self.sum = self.multiplier.times_word(self.sum ^ word);
    }
}

impl<M: Multiply, O: HashOrder> Absorb for BlockSum<M, O> {
    ghost use Rattle.gf128.specs.Code.States.{SumHolds};

    ghost absorbed = { λ s h m. SumHolds O.order M.key_bytes s h m };

    fn absorb(&mut self, blocks: &[u8]) {
        let (whole, _) = blocks.as_chunks::<16>();
        self.sum = self.multiplier.times_all::<O>(self.sum, whole);
    }
}

/// GHASH or POLYVAL over a text that comes in pieces, with the multiplier `M` in GHASH's field.
#[derive(Drop)]
pub struct BlockHash<M, O> {
    pub(crate) pieces: Pieces<BlockSum<M, O>>,
}

impl<M: Keyed128, O: HashOrder> BlockHash<M, O> {
    ghost use Rattle.gf128.specs.Code.States.{HashHolds};

    /// Makes a state that holds the empty text, under a key of 16 bytes.
    pub fn new(key: &Block) -> BlockHash<M, O>
        ensures { HashHolds O.order M.key_bytes result key.now [] }
    {
        BlockHash::with(M::of(&O::multiplier_key(key)))
    }
}

impl<M: Multiply, O: HashOrder> BlockHash<M, O> {
    ghost use Rattle.octets.specs.Bytes.{pad16};
    ghost use Rattle.gf128.specs.Code.States.{HashHolds, IsSum};

    /// Makes a state that holds the empty text. For GHASH the key is that of the multiplier; for POLYVAL it is the key of which
    /// [`crate::reversed_mul_x`] is that of the multiplier. The multiplier may be borrowed.
    pub fn with(multiplier: M) -> BlockHash<M, O>
        ensures { (h : List ℕ) → Serves O.order h (M.key_bytes multiplier)
            → HashHolds O.order M.key_bytes result h [] }
    {
        BlockHash {
            pieces: Pieces::new(BlockSum {
                multiplier,
                sum: 0,
                order: PhantomData,
            }),
        }
    }

    /// Resumes the state that holds a text: `sum` is the sum over the whole blocks of the text, and `rest` the bytes after
    /// them, fewer than 16. The multiplier is as for [`BlockHash::with`].
    pub fn resumed(multiplier: M, sum: u128, rest: &[u8]) -> BlockHash<M, O>
        requires { length rest.now < 16 }
        ensures { (h m : List ℕ) → Serves O.order h (M.key_bytes multiplier) → IsSum O.order h m sum
            → rest.now ≡ drop (length m / 16 * 16) m → HashHolds O.order M.key_bytes result h m }
    {
        let order = PhantomData;
        BlockHash {
            pieces: Pieces::resumed(
                BlockSum {
                    multiplier,
                    sum,
                    order,
                },
                rest,
            ),
        }
    }

    /// Returns the sum over the whole blocks of the text.
    pub fn sum(&self) -> u128
        ensures { (h m : List ℕ) → HashHolds O.order M.key_bytes self.now h m → IsSum O.order h m result }
    {
        self.pieces.core.sum
    }

    /// Returns the bytes of the text after its last whole block: fewer than 16.
    pub fn rest(&self) -> &[u8]
        ensures value { (h m : List ℕ) → HashHolds O.order M.key_bytes self.now h m
            → result.now ≡ drop (length m / 16 * 16) m }
        ensures short { length result.now < 16 }
    {
        self.pieces.rest()
    }

    /// Adds `piece`, of any length, to the text.
    pub fn update(&mut self, piece: &[u8])
        ensures { (h m : List ℕ) → HashHolds O.order M.key_bytes self.old h m
            → HashHolds O.order M.key_bytes self.new h (m ++ piece.now) }
    {
        self.pieces.update(piece);
    }

    /// Adds the fewest zero bytes that make the text's length a multiple of 16.
    pub fn pad16(&mut self)
        ensures { (h m : List ℕ) → HashHolds O.order M.key_bytes self.old h m
            → HashHolds O.order M.key_bytes self.new h (pad16 m) }
    {
        self.pieces.pad16();
    }

    /// Adds the fewest zero bytes that make the text's length a multiple of 16, and then a block of two numbers of 8 bytes each, as
    /// [`HashOrder::word_of_two`] has it.
    pub fn pad16_and_add_two(&mut self, first: u64, second: u64)
        ensures { (h m : List ℕ) → HashHolds O.order M.key_bytes self.old h m
            → HashHolds O.order M.key_bytes self.new h (pad16 m ++ two_numbers O.order first second) }
    {
        self.pieces.pad16();
        self.pieces.core.absorb_word(O::word_of_two(first, second));
    }

    /// Returns the hash of the text so far, if the text is whole blocks of 16 bytes.
    pub fn hash(&self) -> Block
        ensures value { (h m : List ℕ) → HashHolds O.order M.key_bytes self.now h m → length m % 16 ≡ 0
            → result ≡ hash_by O.order h m }
        ensures is_block { IsBlock result }
    {
        O::hash_of(self.pieces.core.sum)
    }

    /// Returns the hash of the text, padded with zeros to whole blocks. Consumes the state.
    pub fn finish(mut self) -> Block
        ensures value { (h m : List ℕ) → HashHolds O.order M.key_bytes self h m
            → result ≡ hash_by O.order h (pad16 m) }
        ensures is_block { IsBlock result }
    {
        self.pad16();
        self.hash()
    }
}
