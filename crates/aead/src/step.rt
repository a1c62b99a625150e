//! A mask and a hash over one piece, in one of two orders: with the mask first, the masked bytes are authenticated; with the hash
//! first, the bytes as they were before. Nothing else in the crate decides by the order.

ghost use Rattle.std.specs.Prelude.{◌≡◌, ◌+◌, ◌<◌, ◌^◌, length};
ghost use Rattle.aead.specs.Code.Masks.{Masks, Takes, MasksAndHashes, hashed_by};

use crate::authenticator::Authenticator;
use crate::hashes::TagHash;
use crate::mask::{MaskCount, MaskStream};
use crate::rule::Rule;
use aes::Ctr;
use gf128::{BlockHash, Multiply};

// Which of two comes first: with the mask first, the masked bytes are hashed; with the hash first, the bytes as they come.
#[derive(Clone, Copy)]
pub(crate) enum Order {
    // The bytes are hashed as they leave: a sealing.
    MaskFirst,
    // The bytes are hashed as they come: an opening.
    HashFirst,
}

// A mask with the hash of its construction. By default one goes over a piece after the other; those that are interleaved where this
// takes less time say so.
pub(crate) trait MaskWith<H: TagHash>: MaskStream {
    // Masks a piece, and hashes it as it leaves.
    #[inline(always)]
    fn mask_first(&mut self, hash: &mut H, piece: &mut [u8])
        ensures masks { Masks Self.made self.old self.new piece.old piece.new }
        ensures takes { Takes H.held hash.old hash.new piece.new }
    {
        self.apply_to(piece);
        hash.take_in(piece);
    }

    // Hashes a piece as it comes, and masks it.
    #[inline(always)]
    fn hash_first(&mut self, hash: &mut H, piece: &mut [u8])
        ensures masks { Masks Self.made self.old self.new piece.old piece.new }
        ensures takes { Takes H.held hash.old hash.new piece.old }
    {
        hash.take_in(piece);
        self.apply_to(piece);
    }
}

impl<'k, C: MaskCount, M: Multiply, R: Rule> MaskWith<BlockHash<M, R>> for Ctr<'k, C> {}

// Masks a piece and authenticates it. Where the order is a constant, as it is in every call on a whole message, nothing of the
// choice is left in the program. It is not a type, which every function that passes it on would have to name.
#[inline(always)]
pub(crate) fn step<S: MaskWith<H>, H: TagHash>(
    order: Order,
    mask: &mut S,
    authenticator: &mut Authenticator<H>,
    piece: &mut [u8],
)
    requires { authenticator.old.length + length piece.old < 2 ^ 64 }
    ensures step { MasksAndHashes S.made H.held (hashed_by order) mask.old mask.new authenticator.old
        authenticator.new piece.old piece.new }
    ensures length { authenticator.new.length ≡ authenticator.old.length + length piece.old }
{
    match order {
        Order::MaskFirst => {
            mask.mask_first(&mut authenticator.hash, piece);
            authenticator.length += piece.len() as u64;
        }
        Order::HashFirst => {
            mask.hash_first(&mut authenticator.hash, piece);
            authenticator.length += piece.len() as u64;
        }
    }
}
