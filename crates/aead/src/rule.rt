//! What AES-GCM (SP 800-38D, 7) and AES-GCM-SIV (RFC 8452, 4) do not share: the order in which the hash reads the bytes of a block, and
//! how counter blocks count and with which the mask begins.

ghost use Rattle.std.specs.Prelude.{◌≡◌, ℕ, List, take};
ghost use Rattle.gf128.specs.Orders.{Serves};
ghost use Rattle.gf128.specs.Code.States.{IsSum};
ghost use Rattle.aead.specs.Sealing.{Setting};
ghost use Rattle.aead.specs.PassStates.{IsMessageSecret, IsSumOf};
ghost use Rattle.aead.specs.Code.States.{block_key, first_counter};
ghost use Rattle.aead.specs.Code.Rules.{EndsInLengths};
ghost use Rattle.aead.specs.Code.Rules.{gcm_serves, gcm_sums, gcm_is_sum, siv_serves, siv_sums, siv_is_sum};

use crate::mask::MaskCount;
use crate::{gcm, gcm_siv};
use aes::{FirstFour, LastFour};
use gf128::{GhashOrder, HashOrder, PolyvalOrder};
use octets::{Block, Nonce};

// What the two constructions with AES do not share.
pub(crate) trait Rule: HashOrder {
    // How the counter blocks of the mask count. It also says which construction it is.
    type Count: MaskCount;

    // Returns the first counter block of the mask of the message with this tag.
    fn first_counter(nonce: &Nonce, tag: &[u8; 16]) -> Block
        ensures { result ≡ first_counter Self.Count.by nonce.now tag.now };

    // A law for the caller's proof: the hash ends with the block of both lengths in bits. The call does nothing.
    fn ends_in_lengths()
        ensures { EndsInLengths Self.order Self.Count.by };

    // The secret that a state holds begins with a key of the multiplier.
    ghost serves: { (s : Setting) (k : List ℕ) → IsMessageSecret Self.Count.by k s
        → Serves Self.order (block_key Self.Count.by s) (take 16 k) };

    // The sum that a state holds is the sum of the hash.
    ghost sums: { (s : Setting) (m : List ℕ) (low : ℕ) → ∥ IsSum Self.order (block_key Self.Count.by s) m low ∥₁
        → IsSumOf Self.Count.by low 0 s m };

    ghost is_sum: { (s : Setting) (m : List ℕ) (low high : ℕ) → IsSumOf Self.Count.by low high s m
        → ∥ IsSum Self.order (block_key Self.Count.by s) m low ∥₁ };
}

// The rule of AES-GCM (SP 800-38D, 7.1).
impl Rule for GhashOrder {
    type Count = LastFour;

    #[inline(always)]
    fn first_counter(nonce: &Nonce, _tag: &[u8; 16]) -> Block {
        gcm::nonce_and_counter(nonce, 2)
    }

    fn ends_in_lengths() {}

    ghost serves = { gcm_serves };

    ghost sums = { gcm_sums };

    ghost is_sum = { gcm_is_sum };
}

// The rule of AES-GCM-SIV (RFC 8452, 4).
impl Rule for PolyvalOrder {
    type Count = FirstFour;

    #[inline(always)]
    fn first_counter(_nonce: &Nonce, tag: &[u8; 16]) -> Block {
        Block::new(gcm_siv::counter_block(tag))
    }

    fn ends_in_lengths() {}

    ghost serves = { siv_serves };

    ghost sums = { siv_sums };

    ghost is_sum = { siv_is_sum };
}
