//! A sum of Poly1305 over whole blocks (RFC 8439, 2.5). A stream adds one block to it in each step, interleaved with its own work.

ghost use Rattle.std.specs.Prelude.{◌≡◌, ⊤};

use crate::Multiplier;
use crate::residue::Sum;
use octets::BlockWork;
use std::alloc::AllocError;

/// The sum over the blocks so far.
pub struct PartialSum<'a, M> {
    pub(crate) multiplier: &'a M,
    /// Partly reduced.
    pub sum: Sum,
}

impl<'a, M> Clone for PartialSum<'a, M> {
    ghost is_clone = { λ x y. y ≡ x };

    ghost is_infallible = { λ _. ⊤ };

    fn clone(&self) -> Result<PartialSum<'a, M>, AllocError> {
        Ok(*self)
    }
}

impl<'a, M> Copy for PartialSum<'a, M> {}

impl<'a, M: Multiplier> BlockWork for PartialSum<'a, M> {
    ghost use Rattle.poly1305.specs.Code.PartialSums.{PartialSumHolds, text_grows};

    ghost comes_to = { PartialSumHolds M.factor };

    ghost grows = { text_grows M.factor };

    #[inline(always)]
    fn step<'t>(&mut self, left: &'t [u8], reserve: usize) -> &'t [u8] {
        if left.len() / 16 <= reserve {
            return left;
        }
        match left.split_first_chunk::<16>() {
            Some((block, rest)) => {
                self.sum = self
                    .multiplier
                    .step(self.sum, u128::from_le_bytes(*block), 1);
                rest
            }
            None => left,
        }
    }
}
