//! The state of a pass over a message as plain numbers: the sum of its hash, the bytes after the last whole block, and both
//! lengths. A caller in C has it in its own memory.

ghost use Rattle.std.specs.Prelude.{◌≡◌, ◌↔◌, ◌+◌, ◌*◌, ◌<◌, ◌≤◌, ◌^◌, ◌++◌, ℕ, List, [], length, take, drop, true, false};
ghost use Rattle.std.specs.Prelude.{MatchResult, IfOk, OnErr};
ghost use Rattle.octets.specs.Bytes.{IsBlock, pad16};
ghost use Rattle.octets.specs.Masked.{masked};
ghost use Rattle.aead.specs.Suites.{construction_of, is_one_pass, text_limit, text_limit_by, aad_limit};
ghost use Rattle.aead.specs.Sealing.{Setting, mask_of, tag_of};
ghost use Rattle.aead.specs.Refusals.{FitsIn, SealRefused};
ghost use Rattle.aead.specs.Code.States.{HoldsAuthenticator, digest_over};

use crate::authenticator::Authenticator;
use crate::hashes::{HashKeys, TagHash, first_block, last_block};
use crate::pieces::keys::MessageKeys;
use crate::pieces::text_parts::take_text;
use crate::step::{MaskWith, Order, step};
use aes::KnownBlock;
use octets::{Block, Fault, Tag};

// 2^64.
const WORD: u128 = 0x1_0000_0000_0000_0000;

/// The state of a pass over a message as plain numbers, without the message's key and nonce. Each number may have any value.
///
/// Keep the numbers as secret as the key: whoever has them can forge sealings, under every suite. They give away the one-time key
/// of ChaCha20-Poly1305; the key of GHASH and the cipher of J0 under AES-GCM; or the authentication key of AES-GCM-SIV.
#[repr(C)]
#[derive(Clone, Copy)]
pub struct PassState {
    // What hash and tag of the message rest on: the one-time key of Poly1305; or the key of GHASH and the cipher of J0; or the key of
    // POLYVAL's multiplier and zeros.
    message_secret: [u8; 32],
    // The bytes after the last whole block of what is hashed, and zeros after them.
    rest: [u8; 16],
    // The sum over the whole blocks, in words of 64 bits. `high` is 0 under GHASH and POLYVAL.
    low: u64,
    middle: u64,
    high: u64,
    aad_length: u64,
    pub(crate) length: u64,
}

/// The sum of a hash over whole blocks, in words of 64 bits.
#[repr(C)]
#[derive(Clone, Copy)]
pub(crate) struct SumWords {
    low: u64,
    middle: u64,
    high: u64,
}

impl SumWords {
    ghost use Rattle.aead.specs.PassStates.{zero_sum};

    // The sum of zeros.
    pub(crate) fn zero() -> SumWords
        ensures { result ≡ zero_sum }
    {
        SumWords {
            low: 0,
            middle: 0,
            high: 0,
        }
    }
}

impl PassState {
    ghost use Rattle.aead.specs.PassStates.{zero_state, IsMessageSecret, IsStart, HoldsNumbers, HoldsState};
    ghost use Rattle.aead.specs.KeyedPasses.{KnowsCipherOf};
    ghost use Rattle.aead.specs.Code.Masks.{hashed_by};
    ghost use Rattle.aead.specs.Code.MessageKeys.{construction_by, AreKeysOf};
    ghost use Rattle.aead.specs.Code.PassSteps.{MasksPiece, TakesPiece, TakesPieceText};

    /// All zeros.
    pub fn zeros() -> PassState
        ensures { result ≡ zero_state }
    {
        PassState {
            message_secret: [0; 32],
            rest: [0; 16],
            low: 0,
            middle: 0,
            high: 0,
            aad_length: 0,
            length: 0,
        }
    }

    // The state of an authenticator.
    #[inline(always)]
    fn of<H: TagHash>(secret: [u8; 32], authenticator: &Authenticator<H>) -> PassState
        ensures holds { (s : Setting) (bytes : List ℕ) → IsMessageSecret (construction_of s.suite) secret s
            → HoldsAuthenticator H.held authenticator.now s bytes → HoldsNumbers result s bytes }
        ensures length { result.length ≡ authenticator.now.length }
    {
        let (low, high) = authenticator.hash.sum();
        let last = authenticator.hash.rest();
        let mut rest = [0; 16];
        rest[..last.len()].copy_from_slice(last);
        PassState {
            message_secret: secret,
            rest,
            low: (low % WORD) as u64,
            middle: (low >> 64) as u64,
            high,
            aad_length: authenticator.aad_length,
            length: authenticator.length,
        }
    }

    // The lower 128 bits of the sum.
    fn low(&self) -> u128
        ensures { result ≡ self.now.low + self.now.middle * 2 ^ 64 }
    {
        u128::from(self.low) + u128::from(self.middle) * WORD
    }

    // The authenticator with this state.
    #[inline(always)]
    fn authenticator<K: HashKeys>(&self, keys: &K) -> Authenticator<K::Hash>
        ensures holds { (s : Setting) (bytes : List ℕ) → K.serves keys.now s → HoldsNumbers self.now s bytes
            → HoldsAuthenticator K.Hash.held result s bytes }
        ensures length { result.length ≡ self.now.length }
    {
        let used = (self.length % 16) as usize;
        Authenticator {
            hash: keys.resumed(
                &self.message_secret,
                self.low(),
                self.high,
                &self.rest[..used],
            ),
            aad_length: self.aad_length,
            length: self.length,
        }
    }

    // The key of the multiplier of GHASH or POLYVAL.
    pub(crate) fn multiplier_key(&self) -> Block
        ensures { result ≡ take 16 self.now.message_secret }
    {
        first_block(&self.message_secret)
    }

    // The block that the tag of AES-GCM is masked with: the cipher of J0.
    pub(crate) fn tag_mask(&self) -> Block
        ensures { result ≡ drop 16 self.now.message_secret }
    {
        last_block(&self.message_secret)
    }

    // Whether the text so far and the piece are together within this limit.
    pub(crate) fn has_room(&self, limit: u64, piece: &[u8]) -> bool
        ensures fits { result ≡ true → self.now.length + length piece.now ≤ limit }
        ensures past { result ≡ false → limit < self.now.length + length piece.now }
    {
        self.length <= limit && piece.len() as u64 <= limit - self.length
    }

    // The initial state without associated data. It needs no table of the hash key.
    #[inline(always)]
    pub(crate) fn empty(secret: [u8; 32]) -> PassState
        ensures { (s : Setting) → IsMessageSecret (construction_of s.suite) secret s → length s.aad ≡ 0
            → HoldsNumbers result s [] }
    {
        PassState {
            message_secret: secret,
            rest: [0; 16],
            low: 0,
            middle: 0,
            high: 0,
            aad_length: 0,
            length: 0,
        }
    }

    // The initial state for associated data.
    #[inline(always)]
    pub(crate) fn initial<K: HashKeys>(keys: &K, secret: [u8; 32], aad: &[u8]) -> PassState
        ensures { (s : Setting) → K.serves keys.now s → IsMessageSecret (construction_of s.suite) secret s
            → s.aad ≡ aad.now → length aad.now ≤ aad_limit s.suite → HoldsNumbers result s [] }
    {
        let mut authenticator = Authenticator::empty(keys.resumed(&secret, 0, 0, &[]));
        authenticator.begin(aad);
        PassState::of(secret, &authenticator)
    }

    // Masks a piece and authenticates it. The mask stands where the piece begins.
    #[inline(never)]
    pub(crate) fn step<K: HashKeys, S: MaskWith<K::Hash>>(
        &mut self,
        keys: &K,
        mask: &mut S,
        order: Order,
        piece: &mut [u8],
    )
        requires { self.old.length + length piece.old < 2 ^ 64 }
        ensures masks { (s : Setting) (tag fed : List ℕ) → K.serves keys.now s
            → S.made mask.old s tag self.old.length
            → MasksPiece (hashed_by order) self.old self.new piece.old piece.new s tag fed }
        ensures mask { (s : Setting) (tag fed : List ℕ) → K.serves keys.now s
            → S.made mask.old s tag self.old.length → self.old.length ≡ length fed
            → self.old.length + length piece.old ≤ text_limit s.suite
            → HoldsNumbers self.old s (hashed_by order (mask_of s tag) fed)
            → S.made mask.new s tag (length (fed ++ piece.old)) }
        ensures length { self.new.length ≡ self.old.length + length piece.old }
    {
        let mut authenticator = self.authenticator(keys);
        step(order, mask, &mut authenticator, piece);
        *self = PassState::of(self.message_secret, &authenticator);
    }

    // Authenticates a piece.
    #[inline(never)]
    pub(crate) fn take<K: HashKeys>(&mut self, keys: &K, piece: &[u8])
        requires { self.old.length + length piece.now < 2 ^ 64 }
        ensures takes { (s : Setting) (bytes : List ℕ) → K.serves keys.now s
            → TakesPiece self.old self.new piece.now s bytes }
        ensures length { self.new.length ≡ self.old.length + length piece.now }
    {
        let mut authenticator = self.authenticator(keys);
        authenticator.update(piece);
        *self = PassState::of(self.message_secret, &authenticator);
    }

    // Authenticates the text of a piece of a ciphertext. The mask stands where the piece begins.
    #[inline(never)]
    pub(crate) fn take_text<K: HashKeys, S: MaskWith<K::Hash>>(
        &mut self,
        keys: &K,
        mask: &mut S,
        piece: &[u8],
    )
        requires { self.old.length + length piece.now < 2 ^ 64 }
        ensures takes { (s : Setting) (tag fed : List ℕ) → K.serves keys.now s
            → S.made mask.old s tag self.old.length
            → TakesPieceText self.old self.new piece.now s tag fed }
        ensures length { self.new.length ≡ self.old.length + length piece.now }
    {
        let mut authenticator = self.authenticator(keys);
        take_text(mask, &mut authenticator, piece);
        *self = PassState::of(self.message_secret, &authenticator);
    }

    // Returns the hash of what was authenticated, of which the tag is made.
    #[inline(never)]
    pub(crate) fn digest<K: HashKeys>(&self, keys: &K) -> Block
        ensures { (s : Setting) (bytes : List ℕ) → K.serves keys.now s → HoldsNumbers self.now s bytes
            → result ≡ digest_over s bytes }
    {
        self.authenticator(keys).finish()
    }

    // The sum over the whole blocks.
    pub(crate) fn sum(&self) -> SumWords
        ensures { (s : Setting) → HoldsNumbers self.now s [] → IsStart result s }
    {
        SumWords {
            low: self.low,
            middle: self.middle,
            high: self.high,
        }
    }

    // The initial state for the same key, nonce and associated data. `start` is the sum over the associated data.
    pub(crate) fn restarted(&self, start: SumWords) -> PassState
        ensures holds { (s : Setting) (bytes : List ℕ) → HoldsNumbers self.now s bytes → IsStart start s
            → HoldsNumbers result s [] }
        ensures length { result.length ≡ 0 }
    {
        PassState {
            message_secret: self.message_secret,
            rest: [0; 16],
            low: start.low,
            middle: start.middle,
            high: start.high,
            aad_length: self.aad_length,
            length: 0,
        }
    }

    // ---- a text that is sealed in one reading

    /// Adds a piece, of any length, to a text that is sealed in one reading, and replaces it with its ciphertext. `known` is the block
    /// of AES that the text ends inside, if it is known. `TextTooLong` if the text would be longer than the suite's limit: the state,
    /// the piece and `known` do not change then.
    #[inline(always)]
    pub fn seal(
        &mut self,
        keys: &MessageKeys,
        known: &mut KnownBlock,
        piece: &mut [u8],
    ) -> Result<(), Fault>
        ensures answer { (s : Setting) (text : List ℕ) → AreKeysOf keys.now s
            → is_one_pass (construction_of s.suite) ≡ true → HoldsState self.old s text → KnowsCipherOf known.old s
            → MatchResult result
            (λ _. HoldsState self.new s (text ++ piece.old)
            × ((tag : List ℕ) → piece.new ≡ masked (mask_of s tag) (length text) piece.old)
            × (length (text ++ piece.old) ≤ text_limit s.suite) × KnowsCipherOf known.new s)
            (λ e. SealRefused s (text ++ piece.old) e) }
        ensures kept { OnErr result ((self.new ≡ self.old) × (piece.new ≡ piece.old) × (known.new ≡ known.old)) }
        ensures count { IfOk result (λ _. self.new.length ≡ self.old.length + length piece.old) }
        ensures fault { FitsIn Fault.TextTooLong result self.old.length (length piece.old)
            (text_limit_by (construction_by keys.now.cipher)) }
    {
        if !self.has_room(keys.text_limit(), piece) {
            return Err(Fault::TextTooLong);
        }
        keys.mask(self, known, Order::MaskFirst, &[0; 16], piece);
        Ok(())
    }

    /// Returns the tag of a text that is sealed in one reading, 16 bytes.
    #[inline(always)]
    pub fn tag_of_text(&self, keys: &MessageKeys) -> Tag
        ensures { (s : Setting) (text : List ℕ) → AreKeysOf keys.now s → is_one_pass (construction_of s.suite) ≡ true
            → HoldsState self.now s text → result ≡ tag_of s text }
    {
        keys.tag(self)
    }
}
