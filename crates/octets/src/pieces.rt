//! A text that comes in pieces of any length and is absorbed in whole blocks of 16 bytes: the state under Poly1305, GHASH and
//! POLYVAL, with the padding of RFC 8439, 2.8, SP 800-38D, 7.1, and RFC 8452, 4.

ghost use Rattle.std.specs.Prelude.{◌≡◌, ℕ, ◌+◌, ◌*◌, ◌/◌, ◌%◌, ◌<◌, ◌++◌, ◌-◌, List, [], length, take, drop, replicate};

use crate::words::{le_bytes, padded};

/// A state that absorbs whole blocks of 16 bytes. It does not depend on how they are split into calls.
pub trait Absorb {
    // The state has absorbed this text of whole blocks under this key.
    ghost absorbed: { Self → List ℕ → List ℕ → Type 0 };

    /// Absorbs any number of whole blocks.
    fn absorb(&mut self, blocks: &[u8])
        requires { length blocks.now % 16 ≡ 0 }
        ensures { (k m : List ℕ) → length m % 16 ≡ 0 → absorbed self.old k m
            → absorbed self.new k (m ++ blocks.now) };
}

// The last `count` of 16 bytes, followed by zeros. The bytes are shifted within a word: if they were copied in parts, a read of
// the whole block would wait until every part has reached the cache.
fn last_bytes(bytes: &[u8], count: usize) -> [u8; 16]
    requires { (length bytes.now ≡ 16) × (0 < count) × (count < 16) }
    ensures { result ≡ drop (16 - count) bytes.now ++ replicate (16 - count) 0 }
{
    let mut block = [0; 16];
    block.copy_from_slice(bytes);
    le_bytes(u128::from_le_bytes(block) >> (8 * (16 - count) as u32))
}

/// A text that comes in pieces of any length: the state that absorbed its whole blocks of 16 bytes, and the bytes
/// after them, padded with zeros. Whole blocks are passed on many at a time, and only the two ends of a piece are copied.
#[derive(Drop)]
pub struct Pieces<A> {
    /// The state that absorbed the whole blocks.
    pub core: A,
    buffer: [u8; 16],
    used: usize,
    ghost in_range: { used < 16 },
}

impl<A: Absorb> Pieces<A> {
    ghost use Rattle.octets.specs.Bytes.{pad16};
    ghost use Rattle.octets.specs.Code.Pieces.{HoldsPieces};

    /// Makes a state that holds the empty text. `core` has absorbed nothing yet.
    pub fn new(core: A) -> Pieces<A>
        ensures { (k : List ℕ) → A.absorbed core k [] → HoldsPieces A.absorbed result k [] }
    {
        Pieces::resumed(core, &[])
    }

    /// Makes a state that holds the text whose whole blocks `core` absorbed, and whose bytes after them are `rest`: fewer than
    /// 16.
    pub fn resumed(core: A, rest: &[u8]) -> Pieces<A>
        requires { length rest.now < 16 }
        ensures { (k m : List ℕ) → A.absorbed core k (take (length m / 16 * 16) m)
            → rest.now ≡ drop (length m / 16 * 16) m → HoldsPieces A.absorbed result k m }
    {
        let mut buffer = [0; 16];
        buffer[..rest.len()].copy_from_slice(rest);
        Pieces {
            core,
            buffer,
            used: rest.len(),
        }
    }

    /// Returns the bytes of the text after its last whole block: fewer than 16.
    pub fn rest(&self) -> &[u8]
        ensures value { (k m : List ℕ) → HoldsPieces A.absorbed self.now k m
            → result.now ≡ drop (length m / 16 * 16) m }
        ensures short { length result.now < 16 }
    {
        &self.buffer[..self.used]
    }

    // Buffers bytes that do not complete a block.
    fn keep(&mut self, bytes: &[u8])
        requires { self.old.used + length bytes.now < 16 }
        ensures { (k m : List ℕ) → HoldsPieces A.absorbed self.old k m
            → HoldsPieces A.absorbed self.new k (m ++ bytes.now) }
    {
        let end = self.used + bytes.len();
        self.buffer[self.used..end].copy_from_slice(bytes);
        self.used = end;
    }

    // Adds the bytes that complete the buffered block.
    fn fill(&mut self, bytes: &[u8])
        requires { self.old.used + length bytes.now ≡ 16 }
        ensures holds { (k m : List ℕ) → HoldsPieces A.absorbed self.old k m
            → HoldsPieces A.absorbed self.new k (m ++ bytes.now) }
        ensures empty { self.new.used ≡ 0 }
    {
        self.buffer[self.used..16].copy_from_slice(bytes);
        self.core.absorb(&self.buffer);
        self.buffer = [0; 16];
        self.used = 0;
    }

    // Adds bytes while the buffer is empty.
    #[inline(always)]
    fn update_whole(&mut self, bytes: &[u8])
        requires { self.old.used ≡ 0 }
        ensures { (k m : List ℕ) → HoldsPieces A.absorbed self.old k m
            → HoldsPieces A.absorbed self.new k (m ++ bytes.now) }
    {
        let whole = bytes.len() / 16 * 16;
        if whole == 0 {
            self.buffer = padded(bytes);
            self.used = bytes.len();
            return;
        }
        self.core.absorb(&bytes[..whole]);
        if whole < bytes.len() {
            self.used = bytes.len() - whole;
            self.buffer = last_bytes(&bytes[bytes.len() - 16..], self.used);
        }
    }

    /// Adds `piece`, of any length, to the end of the text.
    pub fn update(&mut self, piece: &[u8])
        ensures { (k m : List ℕ) → HoldsPieces A.absorbed self.old k m
            → HoldsPieces A.absorbed self.new k (m ++ piece.now) }
    {
        let mut rest = piece;
        let used = self.used;
        if used > 0 {
            let room = 16 - used;
            if piece.len() < room {
                self.keep(piece);
                return;
            }
            self.fill(&piece[..room]);
            rest = &piece[room..];
        }
        self.update_whole(rest);
    }

    /// Adds the fewest zero bytes that make the length of the text a multiple of 16: none if it already is.
    pub fn pad16(&mut self)
        ensures { (k m : List ℕ) → HoldsPieces A.absorbed self.old k m
            → HoldsPieces A.absorbed self.new k (pad16 m) }
    {
        if self.used > 0 {
            self.core.absorb(&self.buffer);
            self.buffer = [0; 16];
            self.used = 0;
        }
    }
}
