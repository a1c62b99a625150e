//! Words of 128 bits as polynomials of GHASH's field (SP 800-38D, 6.3): the bit of weight 2^127 is the coefficient of x^0.

ghost use Rattle.std.specs.Prelude.{◌≡◌, ◌++◌, reverse};
ghost use Rattle.std.specs.Int.{w64, to_be_bytes};
ghost use Rattle.octets.specs.Bytes.{IsBlock, le};
ghost use Rattle.octets.specs.Bits.{g, v};
ghost use Rattle.gf128.specs.Code.Words.{of_word, times_x};

use crate::word_bytes::WordBytes;
use octets::{Block, be_bytes, le_bytes};
use std::simd::prelude::*;

// The coefficients of the modulus below x^128.
const REDUCTION: u128 = 0xe100_0000_0000_0000_0000_0000_0000_0000;

// The word of a block.
#[inline(always)]
pub(crate) fn word_of(block: &[u8; 16]) -> u128
    ensures { of_word result ≡ g block.now }
{
    u128::from_be_bytes(*block)
}

// The bytes of the word of a block, the least significant one first. They are reversed in a vector, so that a block that is
// read into one stays out of the general registers.
#[inline(always)]
pub(crate) fn word_bytes(block: &[u8; 16]) -> [u8; 16]
    ensures { of_word (le result) ≡ g block.now }
{
    let word = WordBytes::of_bytes(*block);
    word.bytes.reverse().to_array()
}

// The bytes of the word of the block with its bytes in reverse order, the least significant one first.
#[inline(always)]
pub(crate) fn reversed_word_bytes(block: &[u8; 16]) -> [u8; 16]
    ensures { of_word (le result) ≡ g (reverse block.now) }
{
    let word = WordBytes::of_bytes(*block);
    word.bytes.to_array()
}

// The word of the block with its bytes in reverse order.
#[inline(always)]
pub(crate) fn reversed_word_of(block: &[u8; 16]) -> u128
    ensures { of_word result ≡ g (reverse block.now) }
{
    u128::from_le_bytes(*block)
}

// The word of a block of two numbers, each with its most significant byte first.
#[inline(always)]
pub(crate) fn word_of_two(first: u64, second: u64) -> u128
    ensures { of_word result ≡ g (to_be_bytes w64 first ++ to_be_bytes w64 second) }
{
    u128::from(first) * 0x1_0000_0000_0000_0000 + u128::from(second)
}

// The block of a word.
#[inline(always)]
pub(crate) fn block_of(word: u128) -> Block
    ensures value { g result ≡ of_word word }
    ensures is_block { IsBlock result }
{
    Block::new(be_bytes(word))
}

// The block of a word, with its bytes in reverse order.
#[inline(always)]
pub(crate) fn reversed_block_of(word: u128) -> Block
    ensures value { v result ≡ reverse (of_word word) }
    ensures is_block { IsBlock result }
{
    Block::new(le_bytes(word))
}

// The word times x, with no branch: the bit that falls out is a factor.
#[inline(always)]
pub(crate) fn times_x(word: u128) -> u128
    ensures { result ≡ times_x word }
{
    (word >> 1) ^ (word % 2 * REDUCTION)
}
