//! The masks that texts are XORed with, each of which is made piece by piece: the key stream of ChaCha20 (RFC 8439, 2.8), and
//! the counter streams of AES-GCM (SP 800-38D, 7.1) and AES-GCM-SIV (RFC 8452, 4).

ghost use Rattle.std.specs.Prelude.{◌≡◌, ◌+◌, ◌≤◌, ℕ, List, length};
ghost use Rattle.octets.specs.Masked.{masked};
ghost use Rattle.aead.specs.Suites.{text_limit};
ghost use Rattle.aead.specs.Sealing.{Setting, mask_of};
ghost use Rattle.aead.specs.Suites.{Construction, ByGcm, ByGcmSiv};
ghost use Rattle.aead.specs.Code.States.{MadeByChaCha, MadeByCounter};
ghost use Rattle.aead.specs.Code.Masks.{Masks, IsMask, chacha_masks, gcm_mask, siv_mask, counter_masks};

use aes::{Count, Ctr, FirstFour, LastFour};
use chacha::ChaStream;
use octets::Stream;

// The mask of a message, made so far up to some byte.
pub(crate) trait MaskStream: Stream + Drop {
    // The mask is that of a message with this setting and this tag, and this many bytes of it were made.
    ghost made: { Self → Setting → List ℕ → ℕ → Type 0 };

    // XORs the next bytes of the mask into `piece`.
    fn apply_to(&mut self, piece: &mut [u8])
        ensures { (s : Setting) (tag : List ℕ) (n : ℕ) → made self.old s tag n
            → n + length piece.old ≤ text_limit s.suite
            → made self.new s tag (n + length piece.old) × (piece.new ≡ masked (mask_of s tag) n piece.old) }
    {
        self.apply_next(piece);
    }

    // A call of the stream masks the next bytes.
    ghost masks: { (a b : Self) (was now : List ℕ) → Self.did a b was now → Masks made a b was now };
}

// Under ChaCha20-Poly1305 the mask is the key stream from counter 1 on (RFC 8439, 2.8).
impl MaskStream for ChaStream {
    ghost made = { MadeByChaCha };

    ghost masks = { chacha_masks };
}

// How the counter blocks of a construction with AES count.
pub(crate) trait MaskCount: Count {
    ghost by: { Construction };

    // The stream that counts so, from the construction's first counter block on, is the mask.
    ghost is_mask: { IsMask by Self.up };
}

// AES-GCM (SP 800-38D, 7.1).
impl MaskCount for LastFour {
    ghost by = { ByGcm };

    ghost is_mask = { gcm_mask };
}

// AES-GCM-SIV (RFC 8452, 4).
impl MaskCount for FirstFour {
    ghost by = { ByGcmSiv };

    ghost is_mask = { siv_mask };
}

// Under AES-GCM and AES-GCM-SIV the mask is a counter stream.
impl<'k, C: MaskCount> MaskStream for Ctr<'k, C> {
    ghost made = { MadeByCounter C.by C.up };

    ghost masks = { counter_masks C.by C.up C.is_mask };
}
