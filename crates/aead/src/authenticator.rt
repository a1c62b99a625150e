//! The authenticator of a message, which makes the hash that its tag is made of. It hashes the associated data, padded with zeros to whole blocks; then
//! the ciphertext, or under AES-GCM-SIV the text, which may come in pieces and is padded in the same way; and at the end both
//! lengths (RFC 8439, 2.8; SP 800-38D, 7.1; RFC 8452, 4).

ghost use Rattle.std.specs.Prelude.{◌≡◌, ◌+◌, ◌<◌, ◌≤◌, ◌^◌, ◌++◌, ℕ, List, [], get_or, length};
ghost use Rattle.aead.specs.Suites.{text_limit, aad_limit};
ghost use Rattle.aead.specs.Sealing.{Setting};
ghost use Rattle.aead.specs.Code.States.{HoldsAuthenticator, digest_over};

use crate::hashes::TagHash;
use octets::Block;

// The hash of the associated data and of the bytes after it, and both lengths so far.
#[derive(Drop)]
pub(crate) struct Authenticator<H> {
    pub(crate) hash: H,
    pub(crate) aad_length: u64,
    // The bytes after the associated data, so far.
    pub(crate) length: u64,
}

impl<H: TagHash> Authenticator<H> {
    // Returns the authenticator of a message of which nothing was hashed.
    #[inline(always)]
    pub(crate) fn empty(hash: H) -> Authenticator<H>
        ensures { (result.hash ≡ hash) × (result.length ≡ 0) }
    {
        Authenticator {
            hash,
            aad_length: 0,
            length: 0,
        }
    }

    // Hashes the associated data, which comes first. This is a method of a state that is in its place already, since a state
    // that is returned is copied.
    #[inline(always)]
    pub(crate) fn begin(&mut self, aad: &[u8])
        requires { self.old.length ≡ 0 }
        ensures holds { (s : Setting) → s.aad ≡ aad.now → length aad.now ≤ aad_limit s.suite
            → H.held self.old.hash s []
            → HoldsAuthenticator H.held self.new s [] }
        ensures none { self.new.length ≡ 0 }
    {
        self.aad_length = aad.len() as u64;
        if aad.is_empty() {
            return;
        }
        self.hash.take_in(aad);
        self.hash.pad();
    }

    // Hashes the next bytes of the ciphertext or the text.
    #[inline(always)]
    pub(crate) fn update(&mut self, bytes: &[u8])
        requires { self.old.length + length bytes.now < 2 ^ 64 }
        ensures holds { (s : Setting) (m : List ℕ) → HoldsAuthenticator H.held self.old s m
            → length m + length bytes.now ≤ text_limit s.suite
            → HoldsAuthenticator H.held self.new s (m ++ bytes.now) }
        ensures length { self.new.length ≡ self.old.length + length bytes.now }
        ensures bytes { (i : ℕ) → get_or bytes.now i 0 < 256 }
    {
        self.hash.take_in(bytes);
        self.length += bytes.len() as u64;
    }

    // Returns the hash, of which the tag is made. The authenticator must not be used afterwards.
    #[inline(always)]
    pub(crate) fn digest(&mut self) -> Block
        ensures digest { (s : Setting) (m : List ℕ) → HoldsAuthenticator H.held self.old s m → result ≡ digest_over s m }
        ensures length { self.new.length ≡ self.old.length }
    {
        self.hash.digest(self.aad_length, self.length)
    }

    // Returns the hash, of which the tag is made, and consumes the authenticator.
    #[inline(always)]
    pub(crate) fn finish(mut self) -> Block
        ensures { (s : Setting) (m : List ℕ) → HoldsAuthenticator H.held self s m → result ≡ digest_over s m }
    {
        self.digest()
    }
}
