//! The state of a sealing in two readings or of an opening in two passes, as plain numbers. The steps are
//! the same whether a cipher lends the keys or a [`crate::KeyAndNonce`].

ghost use Rattle.std.specs.Prelude.{◌≡◌, ◌+◌, ◌<◌, ◌≤◌, ◌++◌, ℕ, List, [], length, min, true, false};
ghost use Rattle.std.specs.Prelude.{◌↔◌, IsTrue, MatchResult, OnErr};
ghost use Rattle.octets.specs.Masked.{masked};
ghost use Rattle.aead.specs.Suites.{ByGcmSiv, construction_of, text_limit, text_limit_by};
ghost use Rattle.aead.specs.Sealing.{Setting, IsNoSealing, mask_of, tag_of};
ghost use Rattle.aead.specs.Refusals.{FitsIn, SealRefused};
ghost use Rattle.aead.specs.PassStates.{HoldsNumbers, IsStart};
ghost use Rattle.aead.specs.Pieces.{Repeats};
ghost use Rattle.aead.specs.Code.MessageKeys.{AreKeysOf};

use crate::pieces::keys::MessageKeys;
use crate::pieces::pass_state::{PassState, SumWords};
use crate::step::Order;
use aes::KnownBlock;
use octets::{Fault, Tag, same};

// Whether the text of a second reading has the length and the tag of the first one.
pub(crate) fn repeats(
    keys: &MessageKeys,
    again: &PassState,
    first_length: u64,
    tag: &[u8; 16],
) -> bool
    ensures { (s : Setting) (first text : List ℕ) → construction_of s.suite ≡ ByGcmSiv → AreKeysOf keys.now s
        → first_length ≡ length first → tag.now ≡ tag_of s first → HoldsNumbers again.now s text
        → IsTrue result ↔ Repeats s first text }
{
    again.length == first_length && same(keys.tag(again).bytes(), tag)
}

/// The state of a sealing in two readings under AES-GCM-SIV, or of an opening in two passes under any suite, as plain numbers,
/// without the message's key and nonce. Each number may have any value.
///
/// Keep the numbers as secret as the key: whoever has them can forge sealings, as with those of a [`PassState`].
#[repr(C)]
#[derive(Clone, Copy)]
pub struct TwoPassState {
    /// The state of the reading or the pass, which [`crate::KeyAndNonce::begin`] sets before a message begins.
    pub pass: PassState,
    // The sum of the hash over the padded associated data, where both readings or passes begin.
    pub(crate) start: SumWords,
    // The tag of the first text, in the second reading; or the tag of the sealing, in both passes.
    pub(crate) tag: [u8; 16],
    // The length of the first reading or pass, in the second.
    pub(crate) first: u64,
}

impl TwoPassState {
    ghost use Rattle.aead.specs.KeyedPasses.{KnowsCipherOf};
    ghost use Rattle.aead.specs.Code.MessageKeys.{construction_by};
    ghost use Rattle.aead.specs.Pieces.{zero_passes, IsInFirstReading, IsInSecondReading};
    ghost use Rattle.aead.specs.Pieces.{IsInPass, IsInFirstPass, IsInSecondPass, Opens, WasOverASealing, MasksByBytes};

    /// All zeros.
    pub fn zeros() -> TwoPassState
        ensures { result ≡ zero_passes }
    {
        TwoPassState {
            pass: PassState::zeros(),
            start: SumWords::zero(),
            tag: [0; 16],
            first: 0,
        }
    }

    // The state of a first reading or pass that begins in this initial state.
    fn first(pass: PassState, tag: &[u8; 16]) -> TwoPassState
        ensures pass { result.pass ≡ pass }
        ensures start { (s : Setting) → HoldsNumbers pass s [] → IsStart result.start s }
        ensures tag { result.tag ≡ tag.now }
        ensures none { result.first ≡ 0 }
    {
        TwoPassState {
            pass,
            start: pass.sum(),
            tag: *tag,
            first: 0,
        }
    }

    /// The state of the first reading of a sealing that begins in this initial state, with the empty text.
    #[inline(always)]
    pub fn first_reading(pass: PassState) -> TwoPassState
        ensures { (s : Setting) → HoldsNumbers pass s [] → IsInFirstReading result s [] }
    {
        TwoPassState::first(pass, &[0; 16])
    }

    /// The state of the first pass of an opening that begins in this initial state, with no ciphertext, under the tag of the sealing.
    #[inline(always)]
    pub fn first_pass(pass: PassState, tag: &[u8; 16]) -> TwoPassState
        ensures { (s : Setting) → HoldsNumbers pass s [] → IsInFirstPass result s tag.now [] }
    {
        TwoPassState::first(pass, tag)
    }

    // The state at the start of the second reading or pass, after a first one with this tag.
    fn second(&self, tag: &[u8; 16]) -> TwoPassState
        ensures pass { (s : Setting) (text : List ℕ) → HoldsNumbers self.now.pass s text → IsStart self.now.start s
            → HoldsNumbers result.pass s [] }
        ensures start { result.start ≡ self.now.start }
        ensures tag { result.tag ≡ tag.now }
        ensures first { result.first ≡ self.now.pass.length }
    {
        TwoPassState {
            pass: self.pass.restarted(self.start),
            start: self.start,
            tag: *tag,
            first: self.pass.length,
        }
    }

    // The limit of the second reading or pass in bytes: the length of the first, and no more than the limit of a text.
    #[inline(always)]
    fn second_limit(&self, keys: &MessageKeys) -> u64
        ensures { result ≡ min self.now.first (text_limit_by (construction_by keys.now.cipher)) }
    {
        self.first.min(keys.text_limit())
    }

    // ---- a sealing in two readings

    /// Adds a piece, of any length, to the text in the first reading. `TextTooLong` if the text would be longer than the suite's
    /// limit: the state does not change then.
    #[inline(always)]
    pub fn absorb(&mut self, keys: &MessageKeys, piece: &[u8]) -> Result<(), Fault>
        ensures answer { (s : Setting) (text : List ℕ) → AreKeysOf keys.now s → IsInFirstReading self.old s text
            → MatchResult result (λ _. IsInFirstReading self.new s (text ++ piece.now)
            × (length (text ++ piece.now) ≤ text_limit s.suite)) (λ e. SealRefused s (text ++ piece.now) e) }
        ensures kept { OnErr result (self.new ≡ self.old) }
        ensures fault { FitsIn Fault.TextTooLong result self.old.pass.length (length piece.now)
            (text_limit_by (construction_by keys.now.cipher)) }
    {
        if !self.pass.has_room(keys.text_limit(), piece) {
            return Err(Fault::TextTooLong);
        }
        keys.take(&mut self.pass, piece);
        Ok(())
    }

    /// Ends the first reading, and returns the tag of its text, 16 bytes. The second reading begins.
    pub fn begin_second_reading(&mut self, keys: &MessageKeys) -> Tag
        ensures { (s : Setting) (text : List ℕ) → construction_of s.suite ≡ ByGcmSiv → AreKeysOf keys.now s
            → IsInFirstReading self.old s text
            → (result ≡ tag_of s text) × IsInSecondReading self.new s text [] }
    {
        let tag = keys.tag(&self.pass);
        *self = self.second(tag.bytes());
        tag
    }

    /// Adds a piece, of any length, to the text in the second reading, and replaces it with its ciphertext. `known` is the block of
    /// AES that the text ends inside, if it is known. `SourceChanged` if that text would be longer than the first: the state, the
    /// piece and `known` do not change then.
    #[inline(always)]
    pub fn write(
        &mut self,
        keys: &MessageKeys,
        known: &mut KnownBlock,
        piece: &mut [u8],
    ) -> Result<(), Fault>
        ensures answer { (s : Setting) (first text : List ℕ) → AreKeysOf keys.now s
            → IsInSecondReading self.old s first text → KnowsCipherOf known.old s → MatchResult result
            (λ _. IsInSecondReading self.new s first (text ++ piece.old)
            × (piece.new ≡ masked (mask_of s (tag_of s first)) (length text) piece.old)
            × (length text + length piece.old ≤ length first) × KnowsCipherOf known.new s)
            (λ e. (e ≡ Fault.SourceChanged) × (length first < length text + length piece.old)) }
        ensures kept { OnErr result ((self.new ≡ self.old) × (piece.new ≡ piece.old) × (known.new ≡ known.old)) }
        ensures fault { FitsIn Fault.SourceChanged result self.old.pass.length (length piece.old)
            (min self.old.first (text_limit_by (construction_by keys.now.cipher))) }
    {
        if !self.pass.has_room(self.second_limit(keys), piece) {
            return Err(Fault::SourceChanged);
        }
        let tag = self.tag;
        keys.mask(&mut self.pass, known, Order::HashFirst, &tag, piece);
        Ok(())
    }

    /// Returns `Ok` if the second text has the length and the tag of the first, else `SourceChanged`: the ciphertext that
    /// [`TwoPassState::write`] wrote must then be thrown away.
    pub fn end_reading(&self, keys: &MessageKeys) -> Result<(), Fault>
        ensures answer { (s : Setting) (first text : List ℕ) → construction_of s.suite ≡ ByGcmSiv
            → AreKeysOf keys.now s → IsInSecondReading self.now s first text
            → MatchResult result (λ _. Repeats s first text)
            (λ e. (e ≡ Fault.SourceChanged) × ¬ (Repeats s first text)) }
        ensures fault { MatchResult result (λ _. Unit {0}) (λ e. e ≡ Fault.SourceChanged) }
    {
        if repeats(keys, &self.pass, self.first, &self.tag) {
            Ok(())
        } else {
            Err(Fault::SourceChanged)
        }
    }

    // ---- an opening in two passes

    /// Authenticates a piece of the ciphertext, of any length, in the first pass. `TextTooLong` if the ciphertext would be longer than
    /// the suite's limit: the state does not change then.
    #[inline(always)]
    pub fn check(&mut self, keys: &MessageKeys, piece: &[u8]) -> Result<(), Fault>
        ensures answer { (s : Setting) (tag body : List ℕ) → AreKeysOf keys.now s → IsInFirstPass self.old s tag body
            → MatchResult result (λ _. IsInFirstPass self.new s tag (body ++ piece.now)
            × (length (body ++ piece.now) ≤ text_limit s.suite)) (λ e. SealRefused s (body ++ piece.now) e) }
        ensures kept { OnErr result (self.new ≡ self.old) }
        ensures fault { FitsIn Fault.TextTooLong result self.old.pass.length (length piece.now)
            (text_limit_by (construction_by keys.now.cipher)) }
    {
        if !self.pass.has_room(keys.text_limit(), piece) {
            return Err(Fault::TextTooLong);
        }
        let tag = self.tag;
        keys.check(&mut self.pass, &tag, piece);
        Ok(())
    }

    // Whether the bytes of the pass and the tag are a valid sealing.
    fn is_sealing(&self, keys: &MessageKeys) -> bool
        ensures sealing { (s : Setting) (tag body : List ℕ) → AreKeysOf keys.now s → MasksByBytes s
            → IsInPass self.now s tag body → result ≡ true → Opens s tag body }
        ensures none { (s : Setting) (tag body : List ℕ) → AreKeysOf keys.now s → MasksByBytes s
            → IsInPass self.now s tag body → result ≡ false → IsNoSealing s (body ++ tag) }
    {
        same(keys.tag(&self.pass).bytes(), &self.tag)
    }

    /// Ends the first pass. `Ok` if it was over a valid sealing: the second pass begins. `TagMismatch` if authentication failed: the
    /// state does not change then, and must not be used any more.
    pub fn begin_second_pass(&mut self, keys: &MessageKeys) -> Result<(), Fault>
        ensures answer { (s : Setting) (tag body : List ℕ) → AreKeysOf keys.now s → MasksByBytes s
            → IsInFirstPass self.old s tag body
            → MatchResult result (λ _. IsInSecondPass self.new s tag (length body) [] × Opens s tag body)
            (λ e. (e ≡ Fault.TagMismatch) × IsNoSealing s (body ++ tag)) }
        ensures compared { (s : Setting) (tag body : List ℕ) → AreKeysOf keys.now s → MasksByBytes s
            → IsInPass self.old s tag body
            → MatchResult result (λ _. Opens s tag body) (λ _. IsNoSealing s (body ++ tag)) }
        ensures kept { OnErr result (self.new ≡ self.old) }
        ensures fault { MatchResult result (λ _. Unit {0}) (λ e. e ≡ Fault.TagMismatch) }
    {
        if !self.is_sealing(keys) {
            return Err(Fault::TagMismatch);
        }
        *self = self.second(&self.tag);
        Ok(())
    }

    /// Replaces a piece of the ciphertext, of any length, with its text in the second pass, and authenticates it. `known` is the block
    /// of AES that the ciphertext ends inside, if it is known. `SourceChanged` if the second pass would be longer than the first: the
    /// state, the piece and `known` do not change then.
    #[inline(always)]
    pub fn open(
        &mut self,
        keys: &MessageKeys,
        known: &mut KnownBlock,
        piece: &mut [u8],
    ) -> Result<(), Fault>
        ensures answer { (s : Setting) (tag : List ℕ) (first : ℕ) (body : List ℕ) → AreKeysOf keys.now s
            → MasksByBytes s → IsInSecondPass self.old s tag first body → KnowsCipherOf known.old s → MatchResult result
            (λ _. IsInSecondPass self.new s tag first (body ++ piece.old)
            × (piece.new ≡ masked (mask_of s tag) (length body) piece.old) × WasOverASealing s tag first
            × (length (body ++ piece.old) ≤ first) × KnowsCipherOf known.new s)
            (λ e. (e ≡ Fault.SourceChanged) × (first < length (body ++ piece.old))) }
        ensures kept { OnErr result ((self.new ≡ self.old) × (piece.new ≡ piece.old) × (known.new ≡ known.old)) }
        ensures fault { FitsIn Fault.SourceChanged result self.old.pass.length (length piece.old)
            (min self.old.first (text_limit_by (construction_by keys.now.cipher))) }
    {
        if !self.pass.has_room(self.second_limit(keys), piece) {
            return Err(Fault::SourceChanged);
        }
        let tag = self.tag;
        keys.open(&mut self.pass, known, &tag, piece);
        Ok(())
    }

    /// Returns `Ok` if the second pass was over the ciphertext of the sealing, else `SourceChanged`: the text that
    /// [`TwoPassState::open`] wrote must then be thrown away.
    pub fn end_pass(&self, keys: &MessageKeys) -> Result<(), Fault>
        ensures answer { (s : Setting) (tag : List ℕ) (first : ℕ) (body : List ℕ) → AreKeysOf keys.now s
            → MasksByBytes s → IsInSecondPass self.now s tag first body → MatchResult result (λ _. Opens s tag body)
            (λ e. (e ≡ Fault.SourceChanged) × IsNoSealing s (body ++ tag)) }
        ensures compared { (s : Setting) (tag body : List ℕ) → AreKeysOf keys.now s → MasksByBytes s
            → IsInPass self.now s tag body
            → MatchResult result (λ _. Opens s tag body) (λ _. IsNoSealing s (body ++ tag)) }
        ensures fault { MatchResult result (λ _. Unit {0}) (λ e. e ≡ Fault.SourceChanged) }
    {
        if self.is_sealing(keys) {
            Ok(())
        } else {
            Err(Fault::SourceChanged)
        }
    }
}
