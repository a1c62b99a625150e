//! Sealing piece by piece in two readings under AES-GCM-SIV (RFC 8452), whose tag is over the text: the first reading gives
//! the tag, and the second one is encrypted under it.

ghost use Rattle.std.specs.Prelude.{◌≡◌, ◌++◌, ◌+◌, ◌<◌, ◌≤◌, ℕ, List, [], length, MatchResult, OnErr};
ghost use Rattle.octets.specs.Masked.{masked};
ghost use Rattle.aead.specs.Suites.{text_limit};
ghost use Rattle.aead.specs.Sealing.{Setting, mask_of, tag_of};
ghost use Rattle.aead.specs.Ciphers.{setting};
ghost use Rattle.aead.specs.Refusals.{FitsIn, SealRefused};

use crate::aead::Aead;
use crate::derived_keys::SivKeys;
use crate::gcm_siv::GcmSiv;
use crate::pieces::two_pass_state::TwoPassState;
use aes::KnownBlock;
use octets::{Fault, Nonce, Tag};

/// The first reading of a text that is sealed by AES-GCM-SIV.
#[derive(Drop)]
pub struct SivAbsorb {
    keys: SivKeys,
    state: TwoPassState,
}

impl SivAbsorb {
    ghost use Rattle.aead.specs.Pieces.{HoldsAbsorb, HoldsWriter};

    /// Begins with the empty text, under a nonce with associated data. `AadTooLong` if the data is longer than the suite's
    /// limit.
    ///
    /// The nonce must never be used twice under one key: a repeat gives away whether the texts and the associated data
    /// were the same, and nothing else.
    pub fn new(cipher: &GcmSiv, nonce: &Nonce, aad: &[u8]) -> Result<SivAbsorb, Fault>
        ensures { let s = setting cipher.now nonce.now aad.now in
            MatchResult result (λ absorb. HoldsAbsorb absorb s []) (λ e. SealRefused s [] e) }
    {
        cipher.suite().check_aad(aad)?;
        let keys = SivKeys::new(cipher, nonce);
        let state = TwoPassState::first_reading(keys.initial_state(aad));
        Ok(SivAbsorb { keys, state })
    }

    /// Adds `piece`, of any length, to the text. `TextTooLong` if the text would be longer than the suite's limit: the state
    /// does not change then.
    pub fn update(&mut self, piece: &[u8]) -> Result<(), Fault>
        ensures answer { (s : Setting) (text : List ℕ) → HoldsAbsorb self.old s text → MatchResult result
            (λ _. HoldsAbsorb self.new s (text ++ piece.now)
            × (length (text ++ piece.now) ≤ text_limit s.suite)) (λ e. SealRefused s (text ++ piece.now) e) }
        ensures kept { OnErr result (self.new ≡ self.old) }
        ensures fault { MatchResult result (λ _. Unit {0}) (λ e. e ≡ Fault.TextTooLong) }
    {
        self.state.absorb(&self.keys.keys(), piece)
    }

    /// Returns the tag of the text, 16 bytes, and the state that encrypts the second reading. Consumes the state of the first.
    pub fn finish(self) -> (Tag, SivWriter)
        ensures { (s : Setting) (text : List ℕ) → HoldsAbsorb self s text
            → (result.0 ≡ tag_of s text) × HoldsWriter result.1 s text [] }
    {
        let SivAbsorb { keys, mut state } = self;
        let tag = state.begin_second_reading(&keys.keys());
        (
            tag,
            SivWriter {
                keys,
                state,
                known: KnownBlock::none(),
            },
        )
    }
}

/// The second reading of a text that is sealed by AES-GCM-SIV.
#[derive(Drop)]
pub struct SivWriter {
    keys: SivKeys,
    state: TwoPassState,
    // The block of AES that the second text ends inside.
    known: KnownBlock,
}

impl SivWriter {
    ghost use Rattle.aead.specs.Pieces.{HoldsWriter, Repeats, siv_writer_count, siv_writer_limit};

    /// Adds `piece`, of any length, to the second text, and replaces it with its ciphertext. `SourceChanged` if that text would
    /// be longer than the first: the state and the piece do not change then.
    pub fn update(&mut self, piece: &mut [u8]) -> Result<(), Fault>
        ensures answer { (s : Setting) (first text : List ℕ) → HoldsWriter self.old s first text →
            MatchResult result (λ _. HoldsWriter self.new s first (text ++ piece.old)
            × (piece.new ≡ masked (mask_of s (tag_of s first)) (length text) piece.old)
            × (length text + length piece.old ≤ length first))
            (λ e. (e ≡ Fault.SourceChanged) × (length first < length text + length piece.old)) }
        ensures kept { OnErr result ((self.new ≡ self.old) × (piece.new ≡ piece.old)) }
        ensures fault { FitsIn Fault.SourceChanged result (siv_writer_count self.old) (length piece.old)
            (siv_writer_limit self.old) }
    {
        self.state.write(&self.keys.keys(), &mut self.known, piece)
    }

    /// Returns `Ok` if the second text has the length and the tag of the first, else `SourceChanged`.
    /// Consumes the state.
    pub fn finish(self) -> Result<(), Fault>
        ensures fault { MatchResult result (λ _. Unit {0}) (λ e. e ≡ Fault.SourceChanged) }
        ensures answer { (s : Setting) (first text : List ℕ) → HoldsWriter self s first text
            → MatchResult result (λ _. Repeats s first text)
            (λ e. (e ≡ Fault.SourceChanged) × ¬ (Repeats s first text)) }
    {
        self.state.end_reading(&self.keys.keys())
    }
}
