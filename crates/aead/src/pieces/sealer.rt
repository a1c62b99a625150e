//! Sealing piece by piece in one reading, under the suites whose tag is over the ciphertext: ChaCha20-Poly1305 (RFC 8439)
//! and AES-GCM (SP 800-38D).

ghost use Rattle.std.specs.Prelude.{◌≡◌, ◌≤◌, ◌++◌, ℕ, List, [], length, MatchResult, OnErr};
ghost use Rattle.octets.specs.Masked.{masked};
ghost use Rattle.aead.specs.Suites.{text_limit};
ghost use Rattle.aead.specs.Sealing.{Setting, mask_of, tag_of};
ghost use Rattle.aead.specs.Ciphers.{setting};
ghost use Rattle.aead.specs.AnyCiphers.{one_pass_keyed};
ghost use Rattle.aead.specs.Refusals.{SealRefused};

use crate::aead::Aead;
use crate::any::AnyOnePass;
use crate::pieces::keys::MessageKeys;
use crate::pieces::pass_state::PassState;
use aes::KnownBlock;
use octets::{Fault, Nonce, Tag};

/// A text that is sealed piece by piece in one reading, under a nonce and the keys that a cipher lends.
#[derive(Drop)]
pub struct Sealer<'a> {
    keys: MessageKeys<'a>,
    state: PassState,
    // The block of AES that the text ends inside.
    known: KnownBlock,
}

impl<'a> Sealer<'a> {
    ghost use Rattle.aead.specs.Pieces.{HoldsSealer};

    /// Begins with the empty text, under a nonce with associated data. `AadTooLong` if the data is longer than the suite's
    /// limit.
    ///
    /// The nonce must never be used twice under one key: a repeat gives away the XOR of the two texts, and enough to
    /// forge messages.
    pub fn new(cipher: &'a AnyOnePass, nonce: &Nonce, aad: &[u8]) -> Result<Sealer<'a>, Fault>
        ensures { let s = setting (one_pass_keyed cipher.now) nonce.now aad.now in
            MatchResult result (λ sealer. HoldsSealer sealer s []) (λ e. SealRefused s [] e) }
    {
        cipher.suite().check_aad(aad)?;
        Ok(Sealer {
            keys: cipher.keys(nonce),
            state: cipher.initial_state(nonce, aad),
            known: KnownBlock::none(),
        })
    }

    /// Adds `piece`, of any length, to the text, and replaces it with its ciphertext. `TextTooLong` if the text would be longer
    /// than the suite's limit: the state and the piece do not change then.
    pub fn update(&mut self, piece: &mut [u8]) -> Result<(), Fault>
        ensures answer { (s : Setting) (text : List ℕ) → HoldsSealer self.old s text → MatchResult result
            (λ _. HoldsSealer self.new s (text ++ piece.old)
            × ((tag : List ℕ) → piece.new ≡ masked (mask_of s tag) (length text) piece.old)
            × (length (text ++ piece.old) ≤ text_limit s.suite))
            (λ e. SealRefused s (text ++ piece.old) e) }
        ensures kept { OnErr result ((self.new ≡ self.old) × (piece.new ≡ piece.old)) }
        ensures fault { MatchResult result (λ _. Unit {0}) (λ e. e ≡ Fault.TextTooLong) }
    {
        self.state.seal(&self.keys, &mut self.known, piece)
    }

    /// Returns the tag of the text, 16 bytes. Consumes the state.
    pub fn finish(self) -> Tag
        ensures { (s : Setting) (text : List ℕ) → HoldsSealer self.entry s text → result ≡ tag_of s text }
    {
        let (keys, state) = (self.keys, self.state);
        state.tag_of_text(&keys)
    }
}
