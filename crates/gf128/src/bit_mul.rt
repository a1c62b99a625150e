//! Multiplication in GHASH's field by shifts, one bit at a time (SP 800-38D, 6.3, algorithm 1).

ghost use Rattle.std.specs.Prelude.{◌≡◌, ℕ};
ghost use Rattle.std.specs.Int.{w128, to_be_bytes};

use crate::polynomial_word::{times_x, word_of};
use crate::{Keyed128, Multiply};
use octets::Block;

/// The multiplier that takes one bit at a time. It has no table, and no branch: each bit of the factor multiplies the key, and
/// each bit that falls out of the product multiplies the modulus.
#[derive(Drop, Clone, Copy)]
pub struct BitMul {
    key: u128,
}

impl Multiply for BitMul {
    ghost key_bytes = { λ s. to_be_bytes w128 s.key };

    fn times_word(&self, x: u128) -> u128 {
        let key = self.key;
        let mut product = 0u128;
        // From the coefficient of x^127, the lowest bit, to that of x^0.
        'bits: for i in 0..128u32 {
            product = times_x(product) ^ ((x >> i) % 2 * key);
        }
        product
    }
}

impl Keyed128 for BitMul {
    fn of(key: &Block) -> BitMul {
        BitMul {
            key: word_of(key.bytes()),
        }
    }
}
