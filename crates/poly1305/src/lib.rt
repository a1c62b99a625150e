//! Poly1305 (RFC 8439, 2.5): the tag of 16 bytes of a text that comes in pieces, under a key of 32 bytes. It is a one-time key:
//! it must never be used for two texts. No call fails, and none allocates.
//!
//! From `crates/poly1305/src/uses.rt`:
//! ```
//! // The tag of a text that comes in two pieces. The key must not be used for another text.
//! fn tag_of_two(key: &[u8; 32], first: &[u8], second: &[u8]) -> Tag
//!     ensures { result ≡ poly1305 key.now (first.now ++ second.now) }
//! {
//!     let mut state = Poly::new(key);
//!     state.update(first);
//!     state.update(second);
//!     state.finish()
//! }
//! ```
#![tactic(auto)]

mod nibble_mul;
mod partial_sum;
mod poly;
mod residue;
mod side_by_side;
mod uses;
mod word_mul;

ghost use Rattle.std.specs.Prelude.{◌≡◌, ℕ, ◌+◌, ◌*◌, ◌%◌, ◌^◌, ◌≤◌};
ghost use Rattle.poly1305.specs.Poly1305.{prime};
ghost use Rattle.poly1305.specs.Code.Residue.{pair, IsClamped};

pub use nibble_mul::NibbleMul;
pub use partial_sum::PartialSum;
pub use poly::PolyBy;
pub use residue::Sum;
pub use word_mul::WordMul;

/// A way to multiply by the key's clamped number r, modulo 2^130 - 5.
pub trait Multiplier: Drop {
    // The factor r.
    ghost factor: { Self → ℕ };

    /// Makes the multiplier by `r`, 16 bytes of the key after clamping (RFC 8439, 2.5).
    fn new(r: u128) -> Self
        requires { IsClamped r }
        ensures { factor result ≡ r };

    /// Adds a block to the sum and multiplies by the factor. `mark` is 1 for a whole block, whose extra bit stands above its 16
    /// bytes, and 0 for a shorter one, which has that bit within `block`.
    fn step(&self, sum: Sum, block: u128, mark: u64) -> Sum
        requires { mark ≤ 1 }
        ensures { pair result.low result.high % prime
            ≡ (pair sum.low sum.high + block + mark * 2 ^ 128) * factor self.now % prime };
}

/// The one-time authenticator (RFC 8439, 2.5) with the multiplier that is used here: `new`, then `update` and `pad16` in any
/// order, then `finish`.
pub type Poly = PolyBy<WordMul>;
