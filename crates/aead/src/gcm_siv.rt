//! The cipher AES-GCM-SIV (RFC 8452, 4 and 5). An authentication key and an encryption key are derived for each message. The
//! tag is over the text, and the first counter block of the mask is made from the tag.

ghost use Rattle.std.specs.Prelude.{◌≡◌, ◌≢◌, ◌<◌, ◌≤◌, ◌^◌, ◌++◌, ℕ, List, length, MatchResult};
ghost use Rattle.octets.specs.Bytes.{IsBlock};
ghost use Rattle.aes.specs.Counters.{up_le};
ghost use Rattle.gf128.specs.Orders.{Reversed, Serves};
ghost use Rattle.gf128.specs.Polyval.{IsReversedMulX};
ghost use Rattle.gf128.specs.Code.States.{key_of};
ghost use Rattle.aead.specs.declared.suite.Suite.{Suite};
ghost use Rattle.aead.specs.Suites.{construction_of, key_length, text_limit, aad_limit, ByGcmSiv};
ghost use Rattle.aead.specs.Sealing.{Setting, Opened, authentication_key, encryption_key, counter_block};
ghost use Rattle.aead.specs.Sealing.{tag_block, tag_over};
ghost use Rattle.aead.specs.PassStates.{IsMessageSecret};
ghost use Rattle.aead.specs.Ciphers.{Keyed, setting};
ghost use Rattle.aead.specs.InPlace.{OpensInPlace};
ghost use Rattle.aead.specs.Code.States.{MadeByCounter, digest_over};

use crate::aead::Aead;
use crate::authenticator::Authenticator;
use crate::derived_keys::DerivedKeys;
use crate::mask::MaskStream;
use crate::step::{Order, step};
use crate::suite::Suite;
use aes::{AesKey, CtrLe};
use gf128::{Keyed128, Polyval, TableMul};
use octets::{Block, Fault, Nonce, Tag, joined, same, xor_into};
use std::marker::Model;

/// AES-GCM-SIV under a key of 16 or 32 bytes (RFC 8452). Opening in place decrypts before it can
/// authenticate, and encrypts again after `TagMismatch`. Contracts see its suite and key.
#[derive(Drop)]
pub struct GcmSiv {
    key: AesKey,
    suite: Suite,
}

impl Model for GcmSiv {
    ghost Value = { Keyed };

    ghost view = { λ c. record { suite = c.suite; key = c.key } };

    ghost invariant = { λ c. (construction_of c.suite ≡ ByGcmSiv) × (length c.key ≡ key_length c.suite) };
}

impl GcmSiv {
    /// AES-GCM-SIV of one of its two suites, under a key of the suite's length, 16 or 32 bytes.
    #[inline(always)]
    pub fn new(suite: Suite, key: AesKey) -> GcmSiv
        requires by_gcm_siv { construction_of suite ≡ ByGcmSiv }
        requires long { length key ≡ key_length suite }
        ensures { result ≡ record { suite = suite; key = key } }
    {
        GcmSiv { key, suite }
    }

    // Returns the key from which those of the messages are derived.
    pub(crate) fn key(&self) -> &AesKey
        ensures key { result.now ≡ self.now.key }
        ensures long { length self.now.key ≡ key_length self.now.suite }
    {
        &self.key
    }

    // Derives the keys of a message.
    pub(crate) fn derive(&self, nonce: &Nonce) -> DerivedKeys
        ensures block { IsBlock (authentication_key self.now.key nonce.now) }
        ensures multiplier_key { IsReversedMulX (authentication_key self.now.key nonce.now) result.multiplier_key }
        ensures encryption { result.encryption ≡ encryption_key self.now.key nonce.now }
        ensures by { construction_of self.now.suite ≡ ByGcmSiv }
    {
        DerivedKeys::new(self.suite, &self.key, nonce)
    }
}

// Returns the first counter block of the message with this tag (RFC 8452, 4).
pub(crate) fn counter_block(tag: &[u8; 16]) -> [u8; 16]
    ensures { result ≡ counter_block tag.now }
{
    let mut block = *tag;
    block[15] |= 0x80;
    block
}

// Returns the mask of the message with this tag (RFC 8452, 4).
#[inline(always)]
pub(crate) fn mask_of_tag<'k>(encryption: &'k AesKey, tag: &Tag) -> CtrLe<'k>
    ensures { (s : Setting) → construction_of s.suite ≡ ByGcmSiv
        → encryption.now ≡ encryption_key s.key s.nonce
        → MadeByCounter ByGcmSiv up_le result s tag.now 0 }
{
    CtrLe::new(encryption, &Block::new(counter_block(tag.bytes())))
}

// Returns the secret that the state of a message holds: the key of POLYVAL's multiplier, and zeros.
pub(crate) fn message_secret(multiplier_key: &Block) -> [u8; 32]
    ensures { (s : Setting) → Serves Reversed (authentication_key s.key s.nonce) multiplier_key.now
        → IsMessageSecret ByGcmSiv result s }
{
    joined(multiplier_key.bytes(), &[0; 16])
}

// Returns the block that is encrypted to the tag (RFC 8452, 4).
#[inline(always)]
fn tag_block(hash: &[u8; 16], nonce: &[u8; 12]) -> [u8; 16]
    ensures { result ≡ tag_block hash.now nonce.now }
{
    let mut block = *hash;
    xor_into(&mut block[..12], nonce);
    block[15] &= 0x7f;
    block
}

// Returns the tag: the cipher of a block that the hash and the nonce give (RFC 8452, 4).
#[inline(always)]
pub(crate) fn encrypted_tag(encryption: &AesKey, nonce: &Nonce, digest: &Block) -> Tag
    ensures { (s : Setting) (m : List ℕ) → construction_of s.suite ≡ ByGcmSiv
        → encryption.now ≡ encryption_key s.key s.nonce → nonce.now ≡ s.nonce → digest.now ≡ digest_over s m
        → result ≡ tag_over s.suite s.key s.nonce s.aad m }
{
    let block = Block::new(tag_block(digest.bytes(), nonce.bytes()));
    Tag::new(*encryption.encrypt_in_registers(&block).bytes())
}

impl Aead for GcmSiv {
    ghost keyed = { λ c. c };

    fn suite(&self) -> Suite
        ensures value { result ≡ self.now.suite }
        ensures by_gcm_siv { construction_of result ≡ ByGcmSiv }
    {
        self.suite
    }

    fn seal_fitting(&self, nonce: &Nonce, aad: &[u8], text: &mut [u8]) -> Tag {
        let keys = self.derive(nonce);
        let multiplier = TableMul::of(&keys.multiplier_key);
        let mut authenticator = Authenticator::empty(Polyval::with(&multiplier));
        authenticator.begin(aad);
        authenticator.update(text);
        let tag = encrypted_tag(&keys.encryption, nonce, &authenticator.digest());
        mask_of_tag(&keys.encryption, &tag).apply_to(text);
        tag
    }

    fn open_fitting(
        &self,
        nonce: &Nonce,
        aad: &[u8],
        body: &mut [u8],
        tag: &Tag,
    ) -> Result<(), Fault> {
        let keys = self.derive(nonce);
        let multiplier = TableMul::of(&keys.multiplier_key);
        let given = tag.bytes();
        let mut mask = mask_of_tag(&keys.encryption, tag);
        let mut authenticator = Authenticator::empty(Polyval::with(&multiplier));
        authenticator.begin(aad);
        step(Order::MaskFirst, &mut mask, &mut authenticator, body);
        let found = encrypted_tag(&keys.encryption, nonce, &authenticator.digest());
        if same(found.bytes(), given) {
            return Ok(());
        }
        mask_of_tag(&keys.encryption, tag).apply_to(body);
        Err(Fault::TagMismatch)
    }
}
