//! A ChaCha20 key stream (RFC 8439, 2.4) with its first blocks precomputed: they were made together with the block that holds
//! the key of Poly1305.

ghost use Rattle.std.specs.Prelude.{◌≡◌, ◌+◌, ◌%◌, ◌<◌, ◌≤◌, ℕ, List, length, slice_index};
ghost use Rattle.chacha.specs.Stream.{key_stream_byte};

use crate::hashes::TagHash;
use crate::interleaved::{mask_first_interleaved, pays};
use crate::mask::MaskStream;
use crate::step::MaskWith;
use chacha::ChaStream;
use octets::{Key32, Nonce, Stream, xor_into};
use poly1305::Poly;

// The key stream from counter 1 on: first that of the precomputed blocks, and then that of the blocks after them.
#[derive(Drop)]
pub(crate) struct BufferedStream<'a> {
    // The blocks from counter 0 on.
    start: &'a [u8],
    // How many of their bytes were used.
    used: usize,
    rest: ChaStream,
    ghost in_range: { used ≤ length start.now },
    ghost short: { length start.now ≤ 512 },
}

impl<'a> BufferedStream<'a> {
    ghost use Rattle.aead.specs.Sealing.{Setting};
    ghost use Rattle.aead.specs.Code.Masks.{Takes};
    ghost use Rattle.aead.specs.Code.States.{HeldByPoly};
    ghost use Rattle.aead.specs.Code.Buffered.{IsBuffered, DidBuffered};

    // No byte is used yet.
    pub(crate) fn new(key: &Key32, nonce: &Nonce, start: &'a [u8]) -> BufferedStream<'a>
        requires has_a_block { 64 ≤ length start.now }
        requires short { length start.now ≤ 512 }
        requires whole { length start.now % 64 ≡ 0 }
        requires start_is { (i : ℕ) → i < length start.now
            → slice_index start.now i ≡ key_stream_byte key.now nonce.now 0 i }
        ensures { IsBuffered result key.now nonce.now 0 }
    {
        BufferedStream {
            start,
            used: 64,
            rest: ChaStream::new(key, nonce, (start.len() / 64) as u32),
        }
    }

    // Masks a piece and hashes it as it leaves, interleaved. This is a separate function, since its frame would slow down short
    // pieces.
    #[inline(never)]
    fn mask_first_interleaved(&mut self, hash: &mut Poly, piece: &mut [u8])
        requires { (s : Setting) (m : List ℕ) → HeldByPoly hash.old s m → length m % 16 ≡ 0 }
        ensures did { DidBuffered self.old self.new piece.old piece.new }
        ensures takes { Takes HeldByPoly hash.old hash.new piece.new }
    {
        let n = piece.len().min(self.start.len() - self.used);
        let (first, _) = piece.split_at_mut(n);
        xor_into(first, &self.start[self.used..self.used + n]);
        self.used += n;
        mask_first_interleaved(&mut self.rest, hash, piece, n);
    }
}

impl<'a> Stream for BufferedStream<'a> {
    ghost use Rattle.aead.specs.Code.Buffered.{DidBuffered};

    ghost did = { DidBuffered };

    fn apply_next(&mut self, bytes: &mut [u8]) {
        let n = bytes.len().min(self.start.len() - self.used);
        let (first, last) = bytes.split_at_mut(n);
        xor_into(first, &self.start[self.used..self.used + n]);
        self.used += n;
        self.rest.apply_next(last);
    }
}

impl<'a> MaskStream for BufferedStream<'a> {
    ghost use Rattle.aead.specs.Code.Buffered.{MadeByBuffered, buffered_masks};

    ghost made = { MadeByBuffered };

    ghost masks = { buffered_masks };
}

// Interleaved with the mask first alone: with the hash first, a whole message is authenticated before a byte is masked.
impl<'a> MaskWith<Poly> for BufferedStream<'a> {
    #[inline(always)]
    fn mask_first(&mut self, hash: &mut Poly, piece: &mut [u8]) {
        if pays(hash, self.start.len() - self.used, piece.len()) {
            self.mask_first_interleaved(hash, piece);
            return;
        }
        self.apply_to(piece);
        hash.take_in(piece);
    }
}
