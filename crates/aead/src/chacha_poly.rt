//! The cipher ChaCha20-Poly1305 (RFC 8439, 2.8). The block with counter 0 begins with the key of Poly1305, and the text is
//! masked from counter 1 on.
//!
//! A text that the first blocks of the key stream cover goes its own way, by `seal_short` and `open_short`. All other texts go
//! through `one_pass`, by `BufferedChaCha` or `NoncedChaCha`. A change keeps alike in both where the key of Poly1305 and the mask
//! begin, that the hash is over the ciphertext, and that `open_fitting` compares the tags before it decrypts a byte.

ghost use Rattle.std.specs.Prelude.{◌≡◌, ℕ, List, ◌+◌, ◌-◌, ◌^◌, ◌%◌, ◌<◌, ◌≤◌, ◌++◌, length, take, slice_index, refl};
ghost use Rattle.chacha.specs.Stream.{key_stream_byte};
ghost use Rattle.aead.specs.Suites.{ByChaCha, construction_of, text_limit, aad_limit};
ghost use Rattle.aead.specs.Sealing.{Setting, Opened, poly_key, tag_over};
ghost use Rattle.aead.specs.Code.States.{MadeByChaCha, digest_over};
ghost use Rattle.aead.specs.Ciphers.{Keyed, setting};
ghost use Rattle.aead.specs.InPlace.{OpensInPlace};
ghost use Rattle.aead.specs.declared.suite.Suite.TheVariants.{ChaCha20Poly1305};

use crate::aead::Aead;
use crate::authenticator::Authenticator;
use crate::buffered_stream::BufferedStream;
use crate::one_pass::{OnePass, open_and_restore, open_whole, seal_whole};
use crate::suite::Suite;
use chacha::{
    BlocksAtOnce, ChaStream, EightBlocks, FiveBlocks, FourBlocks, KeyStreamStart, SEVEN_BLOCKS,
    SixBlocks, ThreeBlocks, TwoBlocks, block,
};
use octets::{Block, Fault, Key32, Nonce, Tag, same, tells_bytes, xor_into};
use poly1305::Poly;
use std::marker::Model;

/// ChaCha20-Poly1305 under a key of 32 bytes (RFC 8439, 2.8). Opening in place authenticates before it
/// changes a byte. Contracts see its suite and key.
#[derive(Drop)]
pub struct ChaChaPoly {
    key: Key32,
}

impl Model for ChaChaPoly {
    ghost Value = { Keyed };

    ghost view = { λ c. record { suite = ChaCha20Poly1305; key = c.key } };
}

impl ChaChaPoly {
    /// ChaCha20-Poly1305 under a key of 32 bytes.
    pub fn new(key: &Key32) -> ChaChaPoly
        ensures { result ≡ record { suite = ChaCha20Poly1305; key = key.now } }
    {
        ChaChaPoly { key: *key }
    }

    // Returns the key.
    pub(crate) fn key(&self) -> &Key32
        ensures key { result.now ≡ self.now.key }
        ensures by { construction_of self.now.suite ≡ ByChaCha }
    {
        &self.key
    }

    // Seals a text. The first blocks of the key stream are made together, as many as `S` says.
    #[inline(never)]
    fn seal_at_once<S: KeyStreamStart>(&self, nonce: &Nonce, aad: &[u8], text: &mut [u8]) -> Tag
        requires aad_fits { length aad.now ≤ aad_limit self.now.suite }
        requires text_fits { length text.old ≤ text_limit self.now.suite }
        ensures { Opened (setting self.now nonce.now aad.now) (text.new ++ result) text.old }
    {
        let key = &self.key;
        let mut first = S::zeros();
        first.set(key, nonce);
        let start = first.blocks();
        let message = BufferedChaCha { key, nonce, start };
        if text.len() <= start.len() - 64 {
            return message.seal_short(aad, text);
        }
        seal_whole(&message, aad, text)
    }

    // Opens a ciphertext. The first blocks of the key stream are made together, as many as `S` says.
    #[inline(never)]
    fn open_at_once<S: KeyStreamStart>(
        &self,
        nonce: &Nonce,
        aad: &[u8],
        body: &mut [u8],
        tag: &Tag,
    ) -> Result<(), Fault>
        requires aad_fits { length aad.now ≤ aad_limit self.now.suite }
        requires text_fits { length body.old ≤ text_limit self.now.suite }
        ensures { OpensInPlace (setting self.now nonce.now aad.now) tag.now body.old body.new result }
    {
        let key = &self.key;
        let mut first = S::zeros();
        first.set(key, nonce);
        let start = first.blocks();
        let message = BufferedChaCha { key, nonce, start };
        if body.len() <= start.len() - 64 {
            return message.open_short(aad, body, tag);
        }
        open_whole(&message, aad, body, tag)
    }
}

// Returns the one-time key of Poly1305: the first 32 bytes of the block with counter 0 (RFC 8439, 2.6).
pub(crate) fn one_time_key(key: &Key32, nonce: &Nonce) -> [u8; 32]
    ensures { result ≡ poly_key key.now nonce.now }
{
    first_32(&block(key, 0, nonce))
}

// Returns the mask of a message, after its first `done` bytes.
pub(crate) fn mask_at(key: &Key32, nonce: &Nonce, done: u64) -> ChaStream
    requires { done ≤ 2 ^ 38 - 64 }
    ensures { (s : Setting) (tag : List ℕ) → construction_of s.suite ≡ ByChaCha → s.key ≡ key.now
        → s.nonce ≡ nonce.now → MadeByChaCha result s tag done }
{
    ChaStream::at(key, nonce, 64 + done)
}

// Returns the tag, which is the hash.
#[inline(always)]
pub(crate) fn hash_as_tag(digest: &Block) -> Tag
    ensures { (s : Setting) (m : List ℕ) → construction_of s.suite ≡ ByChaCha → digest.now ≡ digest_over s m
        → result ≡ tag_over s.suite s.key s.nonce s.aad m }
{
    Tag::new(*digest.bytes())
}

// Returns the first 32 bytes.
pub(crate) fn first_32(start: &[u8]) -> [u8; 32]
    requires { 32 ≤ length start.now }
    ensures { result ≡ take 32 start.now }
{
    let mut first = [0; 32];
    first.copy_from_slice(&start[..32]);
    first
}

// The inputs of one message: the key and the nonce.
#[derive(Drop)]
struct NoncedChaCha<'k, 'n> {
    key: &'k Key32,
    nonce: &'n Nonce,
}

impl<'k, 'n> OnePass for NoncedChaCha<'k, 'n> {
    type Stream = ChaStream;

    type Hash = Poly;

    ghost keyed = { λ m. record { suite = ChaCha20Poly1305; key = m.key.now } };

    ghost nonce = { λ m. m.nonce.now };

    fn mask(&self) -> ChaStream {
        ChaStream::new(self.key, self.nonce, 1)
    }

    fn hash(&self) -> Poly {
        Poly::new(&one_time_key(self.key, self.nonce))
    }

    fn tag(&self, digest: &Block) -> Tag {
        hash_as_tag(digest)
    }

    ghost one_pass = { λ _. refl };
}

// The inputs of one whole message: the key, the nonce, and the first blocks of the key stream, from counter 0 on.
#[derive(Drop)]
struct BufferedChaCha<'a> {
    key: &'a Key32,
    nonce: &'a Nonce,
    start: &'a [u8],
    ghost has_a_block: { 64 ≤ length start.now },
    ghost short: { length start.now ≤ 512 },
    ghost whole: { length start.now % 64 ≡ 0 },
    ghost start_is: { (i : ℕ) → i < length start.now
        → slice_index start.now i ≡ key_stream_byte key.now nonce.now 0 i },
}

impl<'a> BufferedChaCha<'a> {
    // Returns the tag over a ciphertext.
    #[inline(always)]
    fn tag_over(&self, aad: &[u8], body: &[u8]) -> Tag
        requires aad_fits { length aad.now ≤ aad_limit ChaCha20Poly1305 }
        requires body_fits { length body.now ≤ text_limit ChaCha20Poly1305 }
        ensures { result ≡ tag_over ChaCha20Poly1305 self.now.key.now self.now.nonce.now aad.now body.now }
    {
        let mut authenticator = Authenticator::empty(self.hash());
        authenticator.begin(aad);
        authenticator.update(body);
        hash_as_tag(&authenticator.digest())
    }

    // Seals a text that needs no more of the key stream than these blocks.
    #[inline(always)]
    fn seal_short(&self, aad: &[u8], text: &mut [u8]) -> Tag
        requires aad_fits { length aad.now ≤ aad_limit ChaCha20Poly1305 }
        requires text_fits { length text.old ≤ text_limit ChaCha20Poly1305 }
        requires covers { 64 + length text.old ≤ length self.now.start.now }
        ensures { Opened (setting (record { suite = ChaCha20Poly1305; key = self.now.key.now }) self.now.nonce.now aad.now)
            (text.new ++ result) text.old }
    {
        tells_bytes(text);
        xor_into(text, &self.start[64..64 + text.len()]);
        self.tag_over(aad, text)
    }

    // Opens a ciphertext that needs no more of the key stream than these blocks.
    #[inline(always)]
    fn open_short(&self, aad: &[u8], body: &mut [u8], tag: &Tag) -> Result<(), Fault>
        requires aad_fits { length aad.now ≤ aad_limit ChaCha20Poly1305 }
        requires text_fits { length body.old ≤ text_limit ChaCha20Poly1305 }
        requires covers { 64 + length body.old ≤ length self.now.start.now }
        ensures { OpensInPlace (setting (record { suite = ChaCha20Poly1305; key = self.now.key.now }) self.now.nonce.now aad.now)
            tag.now body.old body.new result }
    {
        let given = tag.bytes();
        if !same(self.tag_over(aad, body).bytes(), given) {
            return Err(Fault::TagMismatch);
        }
        xor_into(body, &self.start[64..64 + body.len()]);
        Ok(())
    }
}

impl<'a> OnePass for BufferedChaCha<'a> {
    type Stream = BufferedStream<'a>;

    type Hash = Poly;

    ghost keyed = { λ m. record { suite = ChaCha20Poly1305; key = m.key.now } };

    ghost nonce = { λ m. m.nonce.now };

    fn mask(&self) -> BufferedStream<'a> {
        BufferedStream::new(self.key, self.nonce, self.start)
    }

    // The one-time key is at the start of the block with counter 0 (RFC 8439, 2.6).
    fn hash(&self) -> Poly {
        Poly::new(&first_32(self.start))
    }

    fn tag(&self, digest: &Block) -> Tag {
        hash_as_tag(digest)
    }

    ghost one_pass = { λ _. refl };
}

impl Aead for ChaChaPoly {
    ghost keyed = { λ c. c };

    fn suite(&self) -> Suite
        ensures value { result ≡ self.now.suite }
        ensures by_chacha { result ≡ ChaCha20Poly1305 }
    {
        // The proof sees a cipher by its fields.
        let _key = &self.key;
        Suite::ChaCha20Poly1305
    }

    fn seal_fitting(&self, nonce: &Nonce, aad: &[u8], text: &mut [u8]) -> Tag {
        match BlocksAtOnce::for_text(text.len()) {
            BlocksAtOnce::Two => self.seal_at_once::<TwoBlocks>(nonce, aad, text),
            BlocksAtOnce::Three => self.seal_at_once::<ThreeBlocks>(nonce, aad, text),
            BlocksAtOnce::Four => self.seal_at_once::<FourBlocks>(nonce, aad, text),
            BlocksAtOnce::Five => self.seal_at_once::<FiveBlocks>(nonce, aad, text),
            BlocksAtOnce::Six => self.seal_at_once::<SixBlocks>(nonce, aad, text),
            BlocksAtOnce::Eight => self.seal_at_once::<EightBlocks>(nonce, aad, text),
        }
    }

    fn open_fitting(
        &self,
        nonce: &Nonce,
        aad: &[u8],
        body: &mut [u8],
        tag: &Tag,
    ) -> Result<(), Fault> {
        match BlocksAtOnce::for_text(body.len()) {
            BlocksAtOnce::Two => self.open_at_once::<TwoBlocks>(nonce, aad, body, tag),
            BlocksAtOnce::Three => self.open_at_once::<ThreeBlocks>(nonce, aad, body, tag),
            BlocksAtOnce::Four => self.open_at_once::<FourBlocks>(nonce, aad, body, tag),
            BlocksAtOnce::Five => self.open_at_once::<FiveBlocks>(nonce, aad, body, tag),
            BlocksAtOnce::Six => self.open_at_once::<SixBlocks>(nonce, aad, body, tag),
            BlocksAtOnce::Eight => self.open_at_once::<EightBlocks>(nonce, aad, body, tag),
        }
    }

    fn open_and_restore(
        &self,
        nonce: &Nonce,
        aad: &[u8],
        body: &mut [u8],
        tag: &Tag,
    ) -> Result<(), Fault> {
        if body.len() <= SEVEN_BLOCKS {
            return self.open_fitting(nonce, aad, body, tag);
        }
        let key = &self.key;
        open_and_restore(&NoncedChaCha { key, nonce }, aad, body, tag)
    }
}
