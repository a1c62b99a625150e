//! A cipher whose suite is chosen when the program runs: ChaCha20-Poly1305, AES-GCM or AES-GCM-SIV.

ghost use Rattle.std.specs.Prelude.{◌≡◌, ◌≢◌, ◌≤◌, ◌++◌, ℕ, List, [], length, true, MatchResult};
ghost use Rattle.aead.specs.Suites.{construction_of, is_one_pass, key_length, text_limit, aad_limit};
ghost use Rattle.aead.specs.Sealing.{hash_key};
ghost use Rattle.aead.specs.Ciphers.{setting};
ghost use Rattle.aead.specs.AnyCiphers.{one_pass_keyed, keyed_of};
ghost use Rattle.aead.specs.PassStates.{HoldsNumbers};
ghost use Rattle.aead.specs.Pieces.{MasksByBytes};
ghost use Rattle.aead.specs.Code.MessageKeys.{AreKeysOf, lent_key};

use crate::aead::Aead;
use crate::chacha_poly::{ChaChaPoly, one_time_key};
use crate::gcm::{Gcm, message_secret};
use crate::gcm_siv::GcmSiv;
use crate::hashes::PolyKeys;
use crate::pieces::aes_pass;
use crate::pieces::keys::{AesKeys, CipherKeys, ExpandedKey, LentMul, MessageKeys};
use crate::pieces::pass_state::PassState;
use crate::suite::{Construction, Suite};
use aes::AesKey;
use gf128::GhashOrder;
use octets::{Fault, Key32, Nonce, Tag};

/// A cipher of a suite whose tag is over the ciphertext, so that one reading of a text seals it.
#[derive(Drop)]
pub enum AnyOnePass {
    /// ChaCha20-Poly1305.
    ChaCha(ChaChaPoly),
    /// AES-GCM.
    Gcm(Gcm),
}

/// A cipher of any suite.
#[derive(Drop)]
pub enum AnyAead {
    /// ChaCha20-Poly1305 or AES-GCM, whose tag is over the ciphertext.
    OnePass(AnyOnePass),
    /// AES-GCM-SIV, whose tag is over the text.
    Siv(GcmSiv),
}

// Lends the keys of a message of AES-GCM with this nonce, with a multiplier by the hash key.
pub(crate) fn gcm_keys<'a>(
    cipher: &'a Gcm,
    nonce: &Nonce,
    multiplier: LentMul<'a>,
) -> MessageKeys<'a>
    requires { lent_key multiplier ≡ hash_key cipher.now.key }
    ensures { (aad : List ℕ) → let s = setting cipher.now nonce.now aad in
        AreKeysOf result s × MasksByBytes s × (is_one_pass (construction_of s.suite) ≡ true) }
{
    let (key, _) = cipher.keys();
    MessageKeys {
        cipher: CipherKeys::Gcm(AesKeys::Expanded(ExpandedKey { key, multiplier })),
        nonce: *nonce.bytes(),
    }
}

impl AnyOnePass {
    // Lends the keys of a message with this nonce.
    pub(crate) fn keys<'a>(&'a self, nonce: &Nonce) -> MessageKeys<'a>
        ensures { (aad : List ℕ) → let s = setting (one_pass_keyed self.now) nonce.now aad in
            AreKeysOf result s × MasksByBytes s × (is_one_pass (construction_of s.suite) ≡ true) }
    {
        match self {
            AnyOnePass::ChaCha(cipher) => MessageKeys {
                cipher: CipherKeys::ChaCha(cipher.key().bytes()),
                nonce: *nonce.bytes(),
            },
            AnyOnePass::Gcm(cipher) => {
                let (_, multiplier) = cipher.keys();
                gcm_keys(cipher, nonce, LentMul::Table(multiplier))
            }
        }
    }

    // Returns the initial state for this nonce and associated data.
    pub(crate) fn initial_state(&self, nonce: &Nonce, aad: &[u8]) -> PassState
        requires { length aad.now ≤ aad_limit (one_pass_keyed self.now).suite }
        ensures { HoldsNumbers result (setting (one_pass_keyed self.now) nonce.now aad.now) [] }
    {
        match self {
            AnyOnePass::ChaCha(cipher) => {
                PassState::initial(&PolyKeys, one_time_key(cipher.key(), nonce), aad)
            }
            AnyOnePass::Gcm(cipher) => {
                let (key, multiplier) = cipher.keys();
                let secret = message_secret(key, &multiplier.key(), nonce);
                aes_pass::initial_state::<GhashOrder>(secret, aad)
            }
        }
    }
}

impl AnyAead {
    /// Returns the cipher of a suite under a key. The key has 32 bytes for ChaCha20-Poly1305 and the suites of AES-256, 24 for
    /// AES-192 and 16 for AES-128; any other length is `KeyLength`, the only fault.
    #[inline(always)]
    pub fn new(suite: Suite, key: &[u8]) -> Result<AnyAead, Fault>
        ensures { MatchResult result
            (λ c. (keyed_of c ≡ record { suite = suite; key = key.now })
            × (length key.now ≡ key_length suite))
            (λ e. (e ≡ Fault.KeyLength) × (length key.now ≢ key_length suite)) }
    {
        if key.len() != suite.key_length() {
            return Err(Fault::KeyLength);
        }
        match suite.construction() {
            Construction::ChaChaPoly => {
                let cipher = ChaChaPoly::new(&Key32::from_slice(key)?);
                Ok(AnyAead::OnePass(AnyOnePass::ChaCha(cipher)))
            }
            Construction::Gcm => {
                let cipher = Gcm::new(suite, AesKey::from_slice(key)?);
                Ok(AnyAead::OnePass(AnyOnePass::Gcm(cipher)))
            }
            Construction::GcmSiv => {
                Ok(AnyAead::Siv(GcmSiv::new(suite, AesKey::from_slice(key)?)))
            }
        }
    }
}

impl Aead for AnyOnePass {
    ghost keyed = { one_pass_keyed };

    fn suite(&self) -> Suite
        ensures value { result ≡ (one_pass_keyed self.now).suite }
        ensures one_pass { is_one_pass (construction_of result) ≡ true }
    {
        match self {
            AnyOnePass::ChaCha(cipher) => cipher.suite(),
            AnyOnePass::Gcm(cipher) => cipher.suite(),
        }
    }

    fn seal_fitting(&self, nonce: &Nonce, aad: &[u8], text: &mut [u8]) -> Tag {
        match self {
            AnyOnePass::ChaCha(cipher) => cipher.seal_fitting(nonce, aad, text),
            AnyOnePass::Gcm(cipher) => cipher.seal_fitting(nonce, aad, text),
        }
    }

    fn open_fitting(
        &self,
        nonce: &Nonce,
        aad: &[u8],
        body: &mut [u8],
        tag: &Tag,
    ) -> Result<(), Fault> {
        match self {
            AnyOnePass::ChaCha(cipher) => cipher.open_fitting(nonce, aad, body, tag),
            AnyOnePass::Gcm(cipher) => cipher.open_fitting(nonce, aad, body, tag),
        }
    }

    fn open_and_restore(
        &self,
        nonce: &Nonce,
        aad: &[u8],
        body: &mut [u8],
        tag: &Tag,
    ) -> Result<(), Fault> {
        match self {
            AnyOnePass::ChaCha(cipher) => cipher.open_and_restore(nonce, aad, body, tag),
            AnyOnePass::Gcm(cipher) => cipher.open_and_restore(nonce, aad, body, tag),
        }
    }
}

impl Aead for AnyAead {
    ghost keyed = { keyed_of };

    fn suite(&self) -> Suite {
        match self {
            AnyAead::OnePass(cipher) => cipher.suite(),
            AnyAead::Siv(cipher) => cipher.suite(),
        }
    }

    fn seal_fitting(&self, nonce: &Nonce, aad: &[u8], text: &mut [u8]) -> Tag {
        match self {
            AnyAead::OnePass(AnyOnePass::ChaCha(cipher)) => cipher.seal_fitting(nonce, aad, text),
            AnyAead::OnePass(AnyOnePass::Gcm(cipher)) => cipher.seal_fitting(nonce, aad, text),
            AnyAead::Siv(cipher) => cipher.seal_fitting(nonce, aad, text),
        }
    }

    fn open_fitting(
        &self,
        nonce: &Nonce,
        aad: &[u8],
        body: &mut [u8],
        tag: &Tag,
    ) -> Result<(), Fault> {
        match self {
            AnyAead::OnePass(AnyOnePass::ChaCha(cipher)) => {
                cipher.open_fitting(nonce, aad, body, tag)
            }
            AnyAead::OnePass(AnyOnePass::Gcm(cipher)) => {
                cipher.open_fitting(nonce, aad, body, tag)
            }
            AnyAead::Siv(cipher) => cipher.open_fitting(nonce, aad, body, tag),
        }
    }

    fn open_and_restore(
        &self,
        nonce: &Nonce,
        aad: &[u8],
        body: &mut [u8],
        tag: &Tag,
    ) -> Result<(), Fault> {
        match self {
            AnyAead::OnePass(AnyOnePass::ChaCha(cipher)) => {
                cipher.open_and_restore(nonce, aad, body, tag)
            }
            AnyAead::OnePass(AnyOnePass::Gcm(cipher)) => {
                cipher.open_and_restore(nonce, aad, body, tag)
            }
            AnyAead::Siv(cipher) => cipher.open_and_restore(nonce, aad, body, tag),
        }
    }
}
