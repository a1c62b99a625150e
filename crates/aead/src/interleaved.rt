//! ChaCha20 and Poly1305 interleaved: a piece is masked while it is hashed, in one loop (RFC 8439, 2.8).

ghost use Rattle.std.specs.Prelude.{◌≡◌, ℕ, ◌%◌, ◌≤◌, List, length, take, drop, true};
ghost use Rattle.chacha.specs.Code.States.{Did};
ghost use Rattle.aead.specs.Sealing.{Setting};
ghost use Rattle.aead.specs.Code.Masks.{Masks, Takes};
ghost use Rattle.aead.specs.Code.States.{HeldByPoly, MadeByChaCha};

use crate::hashes::TagHash;
use crate::mask::MaskStream;
use crate::step::MaskWith;
use chacha::{ChaStream, interleaving_pays};
use octets::padded;
use poly1305::Poly;

// Returns whether to interleave the hash with the mask of the next `count` bytes, of which the first `ready` are made, takes less
// time than one after the other. The text that is hashed so far must consist of whole blocks.
#[inline(always)]
pub(crate) fn pays(hash: &Poly, ready: usize, count: usize) -> bool
    ensures { (s : Setting) (m : List ℕ) → result ≡ true → HeldByPoly hash.now s m → length m % 16 ≡ 0 }
{
    interleaving_pays(ready, count) && hash.rest().is_empty()
}

// Masks a piece after its first `begun` bytes, which are masked, and hashes all of it as it leaves. This is a separate function, as
// the next one is, since its frame would slow down short pieces.
#[inline(never)]
pub(crate) fn mask_first_interleaved(
    mask: &mut ChaStream,
    hash: &mut Poly,
    piece: &mut [u8],
    begun: usize,
)
    requires begun { begun ≤ length piece.old }
    requires whole { (s : Setting) (m : List ℕ) → HeldByPoly hash.old s m → length m % 16 ≡ 0 }
    ensures did { Did mask.old mask.new (drop begun piece.old) (drop begun piece.new) }
    ensures begun { take begun piece.new ≡ take begun piece.old }
    ensures takes { Takes HeldByPoly hash.old hash.new piece.new }
{
    let whole = piece.len() / 16 * 16;
    let mut partial = hash.partial_sum();
    mask.apply_and_hash(piece, begun, &mut partial);
    let sum = partial.sum;
    hash.set_sum(sum);
    hash.update(&piece[whole..]);
}

// Hashes a piece as it comes, and masks it.
#[inline(never)]
fn hash_first_interleaved(mask: &mut ChaStream, hash: &mut Poly, piece: &mut [u8])
    requires { (s : Setting) (m : List ℕ) → HeldByPoly hash.old s m → length m % 16 ≡ 0 }
    ensures masks { Masks MadeByChaCha mask.old mask.new piece.old piece.new }
    ensures takes { Takes HeldByPoly hash.old hash.new piece.old }
{
    let whole = piece.len() / 16 * 16;
    let count = piece.len() - whole;
    let rest = padded(&piece[whole..]);
    let mut partial = hash.partial_sum();
    mask.hash_and_apply(piece, &mut partial);
    let sum = partial.sum;
    hash.set_sum(sum);
    hash.update(&rest[..count]);
}

impl MaskWith<Poly> for ChaStream {
    #[inline(always)]
    fn mask_first(&mut self, hash: &mut Poly, piece: &mut [u8]) {
        if pays(hash, 0, piece.len()) {
            mask_first_interleaved(self, hash, piece, 0);
            return;
        }
        self.apply_to(piece);
        hash.take_in(piece);
    }

    #[inline(always)]
    fn hash_first(&mut self, hash: &mut Poly, piece: &mut [u8]) {
        if pays(hash, 0, piece.len()) {
            hash_first_interleaved(self, hash, piece);
            return;
        }
        hash.take_in(piece);
        self.apply_to(piece);
    }
}
