//! POLYVAL (RFC 8452, 3), which reads a block from its last byte to its first. It is computed with GHASH's product (appendix
//! A).

ghost use Rattle.octets.specs.Bytes.{IsBlock};
ghost use Rattle.gf128.specs.Orders.{Reversed};
ghost use Rattle.gf128.specs.Polyval.{DotIsTheOnly, PolyvalIsTheOnly, PolyvalByGhash, IsReversedMulX};

use crate::hash::BlockHash;
use crate::hash_order::HashOrder;
use crate::polynomial_word::{
    block_of, reversed_block_of, reversed_word_bytes, reversed_word_of, times_x, word_of_two,
};
use octets::Block;

/// Returns the key under which GHASH's product computes POLYVAL's: mulX of the reversed key (RFC 8452, appendix A). A
/// multiplier of that key serves [`Polyval::with`].
pub fn reversed_mul_x(key: &Block) -> Block
    ensures value { IsReversedMulX key.now result }
    ensures of_block { IsBlock key.now }
{
    let word = reversed_word_of(key.bytes());
    let times = times_x(word);
    block_of(times)
}

/// The order of POLYVAL: the first byte of a block is the lowest byte of its word.
pub struct PolyvalOrder;

impl HashOrder for PolyvalOrder {
    ghost order = { Reversed };

    #[inline(always)]
    fn word_of(block: &[u8; 16]) -> u128 {
        reversed_word_of(block)
    }

    #[inline(always)]
    fn word_bytes(block: &[u8; 16]) -> [u8; 16] {
        reversed_word_bytes(block)
    }

    // Both numbers and their bytes are in reverse order.
    #[inline(always)]
    fn word_of_two(first: u64, second: u64) -> u128 {
        word_of_two(second, first)
    }

    #[inline(always)]
    fn hash_of(sum: u128) -> Block {
        reversed_block_of(sum)
    }

    fn multiplier_key(key: &Block) -> Block {
        reversed_mul_x(key)
    }
}

/// POLYVAL over a text that comes in pieces (RFC 8452, 3), with the multiplier `M` in GHASH's field.
pub type Polyval<M> = BlockHash<M, PolyvalOrder>;

/// The law of `dot` (RFC 8452, 3): the dot of two polynomials is the only polynomial of degree below 128 whose product with
/// x^128 has the residue of their product. The call does nothing; its contract is the law.
pub fn dot_is_the_only()
    ensures { DotIsTheOnly }
{}

/// The law of POLYVAL (RFC 8452, 3): it is the only block that the sums S_j, made with `dot`, lead to. The call does nothing;
/// its contract is the law.
pub fn polyval_is_the_only()
    ensures { PolyvalIsTheOnly }
{}

/// The law of RFC 8452, appendix A: POLYVAL is the byte reverse of GHASH under mulX of the reversed key over the reversed
/// blocks. The call does nothing; its contract is the law.
pub fn polyval_by_ghash()
    ensures { PolyvalByGhash }
{}
