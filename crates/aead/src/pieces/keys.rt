//! The keys of a message with its nonce, and the steps of a pass over the message under them, in any suite. A cipher or a state
//! lends the keys for a step: either a key schedule and a multiplier by the hash key, or the bytes of the key.

ghost use Rattle.std.specs.Prelude.{◌≡◌, ◌+◌, ◌-◌, ◌≤◌, ◌^◌, ◌++◌, ℕ, List, length, take};
ghost use Rattle.gf128.specs.Orders.{Reversed};
ghost use Rattle.aead.specs.Suites.{ByChaCha, ByGcmSiv, construction_of, key_length, text_limit_by};
ghost use Rattle.aead.specs.Sealing.{Setting, tag_over};
ghost use Rattle.aead.specs.PassStates.{HoldsNumbers};
ghost use Rattle.aead.specs.KeyedPasses.{authenticated_by, cipher_key};
ghost use Rattle.aead.specs.Code.States.{digest_over};
ghost use Rattle.aead.specs.Code.Masks.{hashed_by};
ghost use Rattle.aead.specs.Code.MessageKeys.{AreAesKeys, lent_key};
ghost use Rattle.aead.specs.Code.PassSteps.{MasksPiece, MasksPieceKnowing, TakesPiece, ChecksPiece, OpensPiece};

use crate::hashes::PolyKeys;
use crate::pieces::aes_pass;
use crate::pieces::pass_state::PassState;
use crate::step::Order;
use crate::suite::{Construction, Suite};
use crate::{chacha_poly, gcm, gcm_siv};
use aes::{AesKey, KnownBlock};
use gf128::{GhashOrder, HashOrder, Multiply, PolyvalOrder, TableMul, WideMul};
use octets::{Block, Key32, Nonce, Tag};

// A multiplier by the hash key: the small table, for pieces of any length, or the tables of four powers, for streams.
#[derive(Drop, Clone, Copy)]
pub(crate) enum LentMul<'a> {
    Table(&'a TableMul),
    Wide(&'a WideMul),
}

impl<'a> Multiply for LentMul<'a> {
    ghost key_bytes = { lent_key };

    #[inline(always)]
    fn times_word(&self, x: u128) -> u128 {
        match self {
            LentMul::Table(multiplier) => multiplier.times_word(x),
            LentMul::Wide(multiplier) => multiplier.times_word(x),
        }
    }

    #[inline(always)]
    fn times_all<O: HashOrder>(&self, sum: u128, blocks: &[[u8; 16]]) -> u128 {
        match self {
            LentMul::Table(multiplier) => multiplier.times_all::<O>(sum, blocks),
            LentMul::Wide(multiplier) => multiplier.times_all::<O>(sum, blocks),
        }
    }
}

// The schedule of an AES key, with a multiplier by the hash key.
#[derive(Drop, Clone, Copy)]
pub(crate) struct ExpandedKey<'a> {
    pub(crate) key: &'a AesKey,
    pub(crate) multiplier: LentMul<'a>,
}

// The bytes of a key, and zeros after them.
#[derive(Drop, Clone, Copy)]
pub(crate) struct KeyBytes<'a> {
    pub(crate) suite: Suite,
    pub(crate) key: &'a [u8; 32],
}

impl<'a> KeyBytes<'a> {
    // The schedule of the key.
    pub(crate) fn schedule(&self) -> AesKey
        ensures { result ≡ take (key_length self.now.suite) self.now.key.now }
    {
        AesKey::expanded(&self.key[..self.suite.key_length()])
    }
}

// An AES key for a step, which makes the schedule and the table that it needs if it has only the bytes.
#[derive(Drop, Clone, Copy)]
pub(crate) enum AesKeys<'a> {
    Expanded(ExpandedKey<'a>),
    Bytes(KeyBytes<'a>),
}

// The key that a message is encrypted with. Under AES-GCM-SIV it is the message's own.
#[derive(Drop, Clone, Copy)]
pub(crate) enum CipherKeys<'a> {
    ChaCha(&'a [u8; 32]),
    Gcm(AesKeys<'a>),
    Siv(AesKeys<'a>),
}

/// The keys of a message and its nonce, lent for a step of its state by [`crate::KeyAndNonce::keys`].
#[derive(Drop, Clone, Copy)]
pub struct MessageKeys<'a> {
    pub(crate) cipher: CipherKeys<'a>,
    pub(crate) nonce: [u8; 12],
}

// Masks and authenticates a piece under ChaCha20-Poly1305.
#[inline(never)]
fn mask_chacha(state: &mut PassState, key: &[u8; 32], nonce: &Nonce, order: Order, piece: &mut [u8])
    requires { state.old.length + length piece.old ≤ 2 ^ 38 - 64 }
    ensures masks { (s : Setting) (tag fed : List ℕ) → construction_of s.suite ≡ ByChaCha → key.now ≡ s.key
        → nonce.now ≡ s.nonce
        → MasksPiece (hashed_by order) state.old state.new piece.old piece.new s tag fed }
    ensures length { state.new.length ≡ state.old.length + length piece.old }
{
    let mut mask = chacha_poly::mask_at(&Key32::new(*key), nonce, state.length);
    state.step(&PolyKeys, &mut mask, order, piece);
}

// Returns the tag of a message of AES-GCM-SIV under the bytes of its encryption key. Only this call has the key schedule on its stack.
#[inline(never)]
fn siv_tag_anew(bytes: KeyBytes, nonce: &Nonce, digest: &Block) -> Tag
    ensures { (s : Setting) (m : List ℕ) → construction_of s.suite ≡ ByGcmSiv
        → AreAesKeys ByGcmSiv Reversed (AesKeys.Bytes bytes.entry) s → nonce.now ≡ s.nonce
        → digest.now ≡ digest_over s m → result ≡ tag_over s.suite s.key s.nonce s.aad m }
{
    gcm_siv::encrypted_tag(&bytes.schedule(), nonce, digest)
}

// Returns the tag of a message of AES-GCM-SIV.
#[inline(always)]
fn siv_tag(keys: AesKeys, nonce: &Nonce, digest: &Block) -> Tag
    ensures { (s : Setting) (m : List ℕ) → construction_of s.suite ≡ ByGcmSiv
        → AreAesKeys ByGcmSiv Reversed keys.entry s → nonce.now ≡ s.nonce → digest.now ≡ digest_over s m
        → result ≡ tag_over s.suite s.key s.nonce s.aad m }
{
    match keys {
        AesKeys::Expanded(keys) => gcm_siv::encrypted_tag(keys.key, nonce, digest),
        AesKeys::Bytes(bytes) => siv_tag_anew(bytes, nonce, digest),
    }
}

impl<'a> MessageKeys<'a> {
    ghost use Rattle.aead.specs.Code.MessageKeys.{construction_by, AreKeysOf};

    // The construction that the keys are for.
    #[inline(always)]
    fn construction(&self) -> Construction
        ensures { result ≡ construction_by self.now.cipher }
    {
        match self.cipher {
            CipherKeys::ChaCha(_) => Construction::ChaChaPoly,
            CipherKeys::Gcm(_) => Construction::Gcm,
            CipherKeys::Siv(_) => Construction::GcmSiv,
        }
    }

    // The limit of a text in bytes.
    #[inline(always)]
    pub(crate) fn text_limit(&self) -> u64
        ensures { result ≡ text_limit_by (construction_by self.now.cipher) }
    {
        self.construction().text_limit()
    }

    // Masks a piece of the message with this tag and authenticates it. Only under AES-GCM-SIV does the mask depend on the tag. If
    // the piece begins inside the block of AES that is known, this block is not encrypted again; `known` becomes the block that
    // the piece ends inside.
    #[inline(always)]
    pub(crate) fn mask(
        &self,
        state: &mut PassState,
        known: &mut KnownBlock,
        order: Order,
        tag: &[u8; 16],
        piece: &mut [u8],
    )
        requires { state.old.length + length piece.old ≤ text_limit_by (construction_by self.now.cipher) }
        ensures masks { (s : Setting) (fed : List ℕ) → AreKeysOf self.now s
            → MasksPieceKnowing (hashed_by order) state.old state.new known.old known.new piece.old piece.new
            (cipher_key (construction_of s.suite) s) s tag.now fed }
        ensures length { state.new.length ≡ state.old.length + length piece.old }
    {
        let nonce = Nonce::new(self.nonce);
        match self.cipher {
            CipherKeys::ChaCha(key) => mask_chacha(state, key, &nonce, order, piece),
            CipherKeys::Gcm(keys) => {
                aes_pass::mask::<GhashOrder>(state, keys, &nonce, known, order, tag, piece);
            }
            CipherKeys::Siv(keys) => {
                aes_pass::mask::<PolyvalOrder>(state, keys, &nonce, known, order, tag, piece);
            }
        }
    }

    // Authenticates a piece.
    #[inline(always)]
    pub(crate) fn take(&self, state: &mut PassState, piece: &[u8])
        requires { state.old.length + length piece.now ≤ text_limit_by (construction_by self.now.cipher) }
        ensures takes { (s : Setting) (bytes : List ℕ) → AreKeysOf self.now s
            → TakesPiece state.old state.new piece.now s bytes }
        ensures length { state.new.length ≡ state.old.length + length piece.now }
    {
        match self.cipher {
            CipherKeys::ChaCha(_) => state.take(&PolyKeys, piece),
            CipherKeys::Gcm(keys) => aes_pass::take::<GhashOrder>(state, keys, piece),
            CipherKeys::Siv(keys) => aes_pass::take::<PolyvalOrder>(state, keys, piece),
        }
    }

    // Authenticates a piece of the ciphertext with this tag, or under AES-GCM-SIV the piece's text. The piece stays as it is.
    #[inline(always)]
    pub(crate) fn check(&self, state: &mut PassState, tag: &[u8; 16], piece: &[u8])
        requires { state.old.length + length piece.now ≤ text_limit_by (construction_by self.now.cipher) }
        ensures { (s : Setting) (body : List ℕ) → AreKeysOf self.now s
            → ChecksPiece state.old state.new piece.now s tag.now body }
    {
        match self.cipher {
            CipherKeys::Siv(keys) => {
                let nonce = Nonce::new(self.nonce);
                aes_pass::take_text::<PolyvalOrder>(state, keys, &nonce, tag, piece);
            }
            CipherKeys::ChaCha(_) | CipherKeys::Gcm(_) => self.take(state, piece),
        }
    }

    // The order in which a ciphertext is decrypted and authenticated.
    #[inline(always)]
    pub(crate) fn order_of_opening(&self) -> Order
        ensures { (mask : ℕ → ℕ) (body : List ℕ)
            → hashed_by result mask body ≡ authenticated_by (construction_by self.now.cipher) mask body }
    {
        match self.construction() {
            Construction::GcmSiv => Order::MaskFirst,
            Construction::ChaChaPoly | Construction::Gcm => Order::HashFirst,
        }
    }

    // Decrypts a piece of the ciphertext with this tag, and authenticates it.
    #[inline(always)]
    pub(crate) fn open(
        &self,
        state: &mut PassState,
        known: &mut KnownBlock,
        tag: &[u8; 16],
        piece: &mut [u8],
    )
        requires { state.old.length + length piece.old ≤ text_limit_by (construction_by self.now.cipher) }
        ensures { (s : Setting) (body : List ℕ) → AreKeysOf self.now s
            → OpensPiece state.old state.new known.old known.new piece.old piece.new s tag.now body }
    {
        self.mask(state, known, self.order_of_opening(), tag, piece);
    }

    // Returns the tag of what was authenticated.
    #[inline(always)]
    pub(crate) fn tag(&self, state: &PassState) -> Tag
        ensures { (s : Setting) (bytes : List ℕ) → AreKeysOf self.now s → HoldsNumbers state.now s bytes
            → result ≡ tag_over s.suite s.key s.nonce s.aad bytes }
    {
        match self.cipher {
            CipherKeys::ChaCha(_) => chacha_poly::hash_as_tag(&state.digest(&PolyKeys)),
            CipherKeys::Gcm(keys) => {
                let digest = aes_pass::digest::<GhashOrder>(state, keys);
                gcm::masked_tag(&state.tag_mask(), &digest)
            }
            CipherKeys::Siv(keys) => {
                let digest = aes_pass::digest::<PolyvalOrder>(state, keys);
                siv_tag(keys, &Nonce::new(self.nonce), &digest)
            }
        }
    }
}
