//! Opening piece by piece in two passes, under any suite. The first pass over the ciphertext returns no text; only if it was over
//! a valid sealing does a second pass decrypt.

ghost use Rattle.std.specs.Prelude.{◌≡◌, ◌<◌, ◌≤◌, ◌++◌, ℕ, List, [], length, MatchResult, OnErr};
ghost use Rattle.octets.specs.Masked.{masked};
ghost use Rattle.aead.specs.Suites.{text_limit, aad_limit};
ghost use Rattle.aead.specs.Sealing.{Setting, IsNoSealing, mask_of};
ghost use Rattle.aead.specs.Ciphers.{setting};
ghost use Rattle.aead.specs.AnyCiphers.{keyed_of};
ghost use Rattle.aead.specs.Refusals.{FitsIn, SealRefused};
ghost use Rattle.aead.specs.PassStates.{HoldsNumbers};
ghost use Rattle.aead.specs.Code.MessageKeys.{construction_by, AreKeysOf};
ghost use Rattle.aead.specs.Pieces.{Opens, WasOverASealing, MasksByBytes, OpensUnder};
ghost use Rattle.aead.specs.Pieces.{construction_under};

use crate::aead::Aead;
use crate::any::AnyAead;
use crate::pieces::key_and_nonce::KeyAndNonce;
use crate::pieces::keys::MessageKeys;
use crate::pieces::pass_state::PassState;
use crate::pieces::two_pass_state::TwoPassState;
use crate::suite::Suite;
use aes::KnownBlock;
use octets::{Fault, Nonce, Tag};

// The keys of a message that is opened: a cipher lends them, or they are the message's own.
#[derive(Drop, Clone, Copy)]
pub(crate) enum OpenerKeys<'a> {
    OnePass(MessageKeys<'a>),
    Siv(Suite, KeyAndNonce),
}

impl<'a> OpenerKeys<'a> {
    // Lends the keys for a step.
    fn keys<'b>(&'b self) -> MessageKeys<'b>
        ensures by { construction_by result.cipher ≡ construction_under self.now }
        ensures keys { (s : Setting) → OpensUnder self.now s → AreKeysOf result s }
    {
        match self {
            OpenerKeys::OnePass(keys) => *keys,
            OpenerKeys::Siv(suite, own) => own.keys(*suite),
        }
    }
}

// The keys of the message with this nonce, and the initial state for associated data.
fn keys_and_state<'a>(cipher: &'a AnyAead, nonce: &Nonce, aad: &[u8]) -> (OpenerKeys<'a>, PassState)
    requires { length aad.now ≤ aad_limit (keyed_of cipher.now).suite }
    ensures keys { (any : List ℕ) → let s = setting (keyed_of cipher.now) nonce.now any in
        OpensUnder result.0 s × MasksByBytes s }
    ensures holds { HoldsNumbers result.1 (setting (keyed_of cipher.now) nonce.now aad.now) [] }
{
    match cipher {
        AnyAead::OnePass(cipher) => (
            OpenerKeys::OnePass(cipher.keys(nonce)),
            cipher.initial_state(nonce, aad),
        ),
        AnyAead::Siv(cipher) => {
            let suite = cipher.suite();
            let mut own = KeyAndNonce::zeros();
            let mut state = PassState::zeros();
            own.begin_siv(&mut state, suite, cipher.key(), nonce, aad);
            (OpenerKeys::Siv(suite, own), state)
        }
    }
}

/// The first pass over a ciphertext that is opened under the tag of its sealing.
#[derive(Drop)]
pub struct Opener<'a> {
    keys: OpenerKeys<'a>,
    state: TwoPassState,
}

impl<'a> Opener<'a> {
    ghost use Rattle.aead.specs.Pieces.{HoldsOpener, HoldsOpenWriter};

    /// Begins the first pass, under a nonce with associated data and the tag of the sealing. `AadTooLong` if the data is longer
    /// than the suite's limit.
    pub fn new(
        cipher: &'a AnyAead,
        nonce: &Nonce,
        aad: &[u8],
        tag: &Tag,
    ) -> Result<Opener<'a>, Fault>
        ensures { let s = setting (keyed_of cipher.now) nonce.now aad.now in
            MatchResult result (λ opener. HoldsOpener opener s tag.now []) (λ e. SealRefused s [] e) }
    {
        cipher.suite().check_aad(aad)?;
        let (keys, pass) = keys_and_state(cipher, nonce, aad);
        let state = TwoPassState::first_pass(pass, tag.bytes());
        Ok(Opener { keys, state })
    }

    /// Authenticates a piece of the ciphertext, of any length. `TextTooLong` if the ciphertext would be longer than the suite's
    /// limit: the state does not change then.
    pub fn update(&mut self, piece: &[u8]) -> Result<(), Fault>
        ensures answer { (s : Setting) (tag body : List ℕ) → HoldsOpener self.old s tag body → MatchResult result
            (λ _. HoldsOpener self.new s tag (body ++ piece.now)
            × (length (body ++ piece.now) ≤ text_limit s.suite)) (λ e. SealRefused s (body ++ piece.now) e) }
        ensures kept { OnErr result (self.new ≡ self.old) }
        ensures fault { MatchResult result (λ _. Unit {0}) (λ e. e ≡ Fault.TextTooLong) }
    {
        self.state.check(&self.keys.keys(), piece)
    }

    /// Returns the state of the second pass if the bytes of the first pass and the tag are a valid sealing. `TagMismatch` if
    /// authentication failed. Consumes the state of the first pass.
    pub fn finish(self) -> Result<OpenWriter<'a>, Fault>
        ensures answer { (s : Setting) (tag body : List ℕ) → HoldsOpener self.entry s tag body → MatchResult result
            (λ writer. HoldsOpenWriter writer s tag (length body) [] × Opens s tag body)
            (λ e. (e ≡ Fault.TagMismatch) × IsNoSealing s (body ++ tag)) }
        ensures fault { MatchResult result (λ _. Unit {0}) (λ e. e ≡ Fault.TagMismatch) }
    {
        let (keys, mut state) = (self.keys, self.state);
        match state.begin_second_pass(&keys.keys()) {
            Ok(()) => Ok(OpenWriter {
                keys,
                state,
                known: KnownBlock::none(),
            }),
            Err(fault) => Err(fault),
        }
    }
}

/// The second pass over a ciphertext that is opened, after a first one that was over a valid sealing.
#[derive(Drop)]
pub struct OpenWriter<'a> {
    keys: OpenerKeys<'a>,
    state: TwoPassState,
    // The block of AES that the ciphertext ends inside.
    known: KnownBlock,
}

impl<'a> OpenWriter<'a> {
    ghost use Rattle.aead.specs.Pieces.{HoldsOpenWriter, open_writer_count, open_writer_limit};

    /// Replaces a piece of the ciphertext, of any length, with its text. `SourceChanged` if the second pass would be longer than the
    /// first: the state and the piece do not change then.
    pub fn update(&mut self, piece: &mut [u8]) -> Result<(), Fault>
        ensures answer { (s : Setting) (tag : List ℕ) (first : ℕ) (body : List ℕ)
            → HoldsOpenWriter self.old s tag first body → MatchResult result
            (λ _. HoldsOpenWriter self.new s tag first (body ++ piece.old)
            × (piece.new ≡ masked (mask_of s tag) (length body) piece.old) × WasOverASealing s tag first
            × (length (body ++ piece.old) ≤ first))
            (λ e. (e ≡ Fault.SourceChanged) × (first < length (body ++ piece.old))) }
        ensures kept { OnErr result ((self.new ≡ self.old) × (piece.new ≡ piece.old)) }
        ensures fault { FitsIn Fault.SourceChanged result (open_writer_count self.old) (length piece.old)
            (open_writer_limit self.old) }
    {
        self.state.open(&self.keys.keys(), &mut self.known, piece)
    }

    /// Returns `Ok` if the second pass was over the ciphertext of the sealing, else `SourceChanged`: the text that `update` wrote
    /// must then be thrown away. Consumes the state.
    pub fn finish(self) -> Result<(), Fault>
        ensures answer { (s : Setting) (tag : List ℕ) (first : ℕ) (body : List ℕ)
            → HoldsOpenWriter self.entry s tag first body → MatchResult result (λ _. Opens s tag body)
            (λ e. (e ≡ Fault.SourceChanged) × IsNoSealing s (body ++ tag)) }
        ensures fault { MatchResult result (λ _. Unit {0}) (λ e. e ≡ Fault.SourceChanged) }
    {
        let (keys, state) = (self.keys, self.state);
        state.end_pass(&keys.keys())
    }
}
