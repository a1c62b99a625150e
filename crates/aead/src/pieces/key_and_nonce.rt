//! The key and the nonce of a message as plain numbers, under any suite, for a caller that stores a message in pieces in its own memory.
//! Only the bytes of the key are stored: each step makes the key schedule and the table of the hash key that it needs.

ghost use Rattle.std.specs.Prelude.{◌≡◌, ◌≤◌, ◌-◌, ℕ, List, length, take, drop, replicate};
ghost use Rattle.std.specs.Prelude.{MatchResult, IfOk, OnErr};
ghost use Rattle.aes.specs.Cipher.{IsKey, IsKeyLength};
ghost use Rattle.gf128.specs.Orders.{Reversed, Serves};
ghost use Rattle.aead.specs.declared.suite.Suite.{Suite};
ghost use Rattle.aead.specs.Suites.{ByChaCha, ByGcm, ByGcmSiv, construction_of, key_length, aad_limit};
ghost use Rattle.aead.specs.Sealing.{Setting, hash_key, authentication_key, encryption_key};
ghost use Rattle.aead.specs.KeyedPasses.{setting_of, BeginRefused};
ghost use Rattle.aead.specs.Pieces.{MasksByBytes};
ghost use Rattle.aead.specs.Code.MessageKeys.{construction_by, AreKeysOf};

use crate::chacha_poly::one_time_key;
use crate::derived_keys::{KeyParts, long_encryption_key, multiplier_key, short_encryption_key};
use crate::gcm::hash_subkey;
use crate::hashes::PolyKeys;
use crate::pieces::aes_pass;
use crate::pieces::keys::{AesKeys, CipherKeys, KeyBytes, MessageKeys};
use crate::pieces::pass_state::PassState;
use crate::suite::{Construction, Suite};
use crate::{gcm, gcm_siv};
use aes::AesKey;
use gf128::{GhashOrder, PolyvalOrder};
use octets::{Block, Fault, Key32, Nonce};

/// The key and the nonce of a message as plain numbers, 44 bytes. Each number may have any value.
///
/// They stand beside the state of the message, a [`PassState`] or a [`crate::TwoPassState`], and lend the keys for each of its steps
/// ([`KeyAndNonce::keys`]). For short pieces under the AES suites [`crate::Sealer`] and [`crate::SivAbsorb`] are faster: they have a key
/// schedule, which each step makes again here.
#[repr(C)]
#[derive(Clone, Copy)]
pub struct KeyAndNonce {
    // The key that the message is encrypted with, and zeros after it. Under AES-GCM-SIV this is the message's own encryption key.
    key: [u8; 32],
    nonce: [u8; 12],
}

impl KeyAndNonce {
    ghost use Rattle.aead.specs.KeyedPasses.{zero_keys, HasKeys, HasBegun};

    /// All zeros.
    pub fn zeros() -> KeyAndNonce
        ensures { result ≡ zero_keys }
    {
        KeyAndNonce {
            key: [0; 32],
            nonce: [0; 12],
        }
    }

    // The key that the message is encrypted with, and its nonce.
    #[inline(always)]
    fn of(key: &[u8], nonce: &Nonce) -> KeyAndNonce
        requires { length key.now ≤ 32 }
        ensures key { take (length key.now) result.key ≡ key.now }
        ensures padded { drop (length key.now) result.key ≡ replicate (32 - length key.now) 0 }
        ensures nonce { result.nonce ≡ nonce.now }
        ensures nonce_length { length nonce.now ≡ 12 }
    {
        let mut padded = [0; 32];
        padded[..key.len()].copy_from_slice(key);
        KeyAndNonce {
            key: padded,
            nonce: *nonce.bytes(),
        }
    }

    /// Lends the keys for a step of a message under its suite.
    #[inline(always)]
    pub fn keys<'a>(&'a self, suite: Suite) -> MessageKeys<'a>
        ensures by { construction_by result.cipher ≡ construction_of suite }
        ensures keys { (s : Setting) → s.suite ≡ suite → HasKeys self.now s → AreKeysOf result s }
    {
        let key = &self.key;
        let bytes = AesKeys::Bytes(KeyBytes { suite, key });
        let nonce = self.nonce;
        match suite.construction() {
            Construction::ChaChaPoly => MessageKeys {
                cipher: CipherKeys::ChaCha(key),
                nonce,
            },
            Construction::Gcm => MessageKeys {
                cipher: CipherKeys::Gcm(bytes),
                nonce,
            },
            Construction::GcmSiv => MessageKeys {
                cipher: CipherKeys::Siv(bytes),
                nonce,
            },
        }
    }

    // Begins a pass under ChaCha20-Poly1305. Each construction has a function of its own, which is not inlined, since the compiler
    // clears the locals of all arms of a `match` when the function is entered.
    #[inline(never)]
    fn begin_chacha(&mut self, state: &mut PassState, key: &Key32, nonce: &Nonce, aad: &[u8])
        ensures { (suite : Suite) → construction_of suite ≡ ByChaCha → length aad.now ≤ aad_limit suite
            → HasBegun self.new state.new (setting_of suite key.now nonce.now aad.now) }
    {
        *self = KeyAndNonce::of(key.bytes(), nonce);
        *state = PassState::initial(&PolyKeys, one_time_key(key, nonce), aad);
    }

    // Begins a pass under AES-GCM.
    #[inline(never)]
    fn begin_gcm(
        &mut self,
        state: &mut PassState,
        key: &[u8],
        cipher: &AesKey,
        ghash_key: &Block,
        nonce: &Nonce,
        aad: &[u8],
    )
        requires long { length key.now ≤ 32 }
        requires cipher { cipher.now ≡ key.now }
        requires ghash_key { ghash_key.now ≡ hash_key key.now }
        ensures { (suite : Suite) → construction_of suite ≡ ByGcm → length key.now ≡ key_length suite
            → length aad.now ≤ aad_limit suite → HasBegun self.new state.new (setting_of suite key.now nonce.now aad.now) }
    {
        *self = KeyAndNonce::of(key, nonce);
        *state = aes_pass::initial_state::<GhashOrder>(
            gcm::message_secret(cipher, ghash_key, nonce),
            aad,
        );
    }

    // Begins a pass under AES-GCM-SIV, from the encryption key of the message and the key of POLYVAL's multiplier.
    fn begin_derived(
        &mut self,
        state: &mut PassState,
        key: &[u8],
        multiplier_key: &Block,
        nonce: &Nonce,
        aad: &[u8],
    )
        requires { length key.now ≤ 32 }
        ensures is_key { IsKeyLength (length key.now) → IsKey key.now }
        ensures holds { (s : Setting) → construction_of s.suite ≡ ByGcmSiv → length key.now ≡ key_length s.suite
            → length s.key ≡ key_length s.suite → key.now ≡ encryption_key s.key s.nonce
            → Serves Reversed (authentication_key s.key s.nonce) multiplier_key.now
            → s.nonce ≡ nonce.now → s.aad ≡ aad.now → length aad.now ≤ aad_limit s.suite
            → HasBegun self.new state.new s }
    {
        *self = KeyAndNonce::of(key, nonce);
        *state = aes_pass::initial_state::<PolyvalOrder>(
            gcm_siv::message_secret(multiplier_key),
            aad,
        );
    }

    // Begins a pass under AES-GCM-SIV, from the key that the message's keys are derived from.
    #[inline(never)]
    pub(crate) fn begin_siv(
        &mut self,
        state: &mut PassState,
        suite: Suite,
        cipher: &AesKey,
        nonce: &Nonce,
        aad: &[u8],
    )
        requires by { construction_of suite ≡ ByGcmSiv }
        requires long { length cipher.now ≡ key_length suite }
        requires fits { length aad.now ≤ aad_limit suite }
        ensures is_key { IsKey (encryption_key cipher.now nonce.now) }
        ensures holds { HasBegun self.new state.new (setting_of suite cipher.now nonce.now aad.now) }
    {
        let parts = KeyParts::new(cipher, nonce);
        let multiplier_key = multiplier_key(&parts);
        match suite {
            Suite::Aes128GcmSiv => {
                let key = short_encryption_key(&parts);
                self.begin_derived(state, &key, &multiplier_key, nonce, aad);
            }
            Suite::Aes256GcmSiv => {
                let key = long_encryption_key(&parts);
                self.begin_derived(state, &key, &multiplier_key, nonce, aad);
            }
            Suite::ChaCha20Poly1305 | Suite::Aes128Gcm | Suite::Aes192Gcm | Suite::Aes256Gcm =>
                unreachable!(),
        }
    }

    /// Begins a message under a suite, the bytes of a key and of a nonce, and associated data: `state` becomes the initial state of a
    /// pass, of which [`crate::TwoPassState::first_reading`] and [`crate::TwoPassState::first_pass`] make those of two. What the keys
    /// and the state were before makes no difference. `KeyLength` if the key does not have the suite's length, then `NonceLength` if
    /// the nonce is not 12 bytes long, then `AadTooLong` if the data is longer than the suite's limit: the keys and the state do not
    /// change then.
    ///
    /// A nonce must never be used twice under one key to seal. Under ChaCha20-Poly1305 and AES-GCM a repeat gives away the XOR of the
    /// two texts, and enough to forge messages; under AES-GCM-SIV it gives away only whether the texts and the associated data were
    /// the same.
    pub fn begin(
        &mut self,
        state: &mut PassState,
        suite: Suite,
        key: &[u8],
        nonce: &[u8],
        aad: &[u8],
    ) -> Result<(), Fault>
        ensures answer { let s = setting_of suite key.now nonce.now aad.now in
            MatchResult result (λ _. HasBegun self.new state.new s) (BeginRefused s) }
        ensures kept { OnErr result ((self.new ≡ self.old) × (state.new ≡ state.old)) }
        ensures bytes { IfOk result (λ _. MasksByBytes (setting_of suite key.now nonce.now aad.now)) }
    {
        if key.len() != suite.key_length() {
            return Err(Fault::KeyLength);
        }
        let nonce = Nonce::from_slice(nonce)?;
        suite.check_aad(aad)?;
        match suite.construction() {
            Construction::ChaChaPoly => {
                let key = Key32::from_slice(key)?;
                self.begin_chacha(state, &key, &nonce, aad);
                Ok(())
            }
            Construction::Gcm => {
                let cipher = AesKey::expanded(key);
                self.begin_gcm(state, key, &cipher, &hash_subkey(&cipher), &nonce, aad);
                Ok(())
            }
            Construction::GcmSiv => {
                self.begin_siv(state, suite, &AesKey::expanded(key), &nonce, aad);
                Ok(())
            }
        }
    }

    /// Begins a message under a suite of AES-GCM-SIV as [`KeyAndNonce::begin`] does, with the schedule of the key.
    pub fn begin_siv_by(
        &mut self,
        state: &mut PassState,
        suite: Suite,
        cipher: &AesKey,
        nonce: &[u8],
        aad: &[u8],
    ) -> Result<(), Fault>
        requires by { construction_of suite ≡ ByGcmSiv }
        requires long { length cipher.now ≡ key_length suite }
        ensures answer { let s = setting_of suite cipher.now nonce.now aad.now in
            MatchResult result (λ _. HasBegun self.new state.new s) (BeginRefused s) }
        ensures kept { OnErr result ((self.new ≡ self.old) × (state.new ≡ state.old)) }
        ensures bytes { IfOk result (λ _. MasksByBytes (setting_of suite cipher.now nonce.now aad.now)) }
    {
        let nonce = Nonce::from_slice(nonce)?;
        suite.check_aad(aad)?;
        self.begin_siv(state, suite, cipher, &nonce, aad);
        Ok(())
    }

    /// Begins a message under a suite of AES-GCM as [`KeyAndNonce::begin`] does, with the schedule of the key and the key of GHASH, which
    /// is the cipher of a block of zeros.
    pub fn begin_gcm_by(
        &mut self,
        state: &mut PassState,
        suite: Suite,
        key: &[u8],
        cipher: &AesKey,
        ghash_key: &Block,
        nonce: &[u8],
        aad: &[u8],
    ) -> Result<(), Fault>
        requires by { construction_of suite ≡ ByGcm }
        requires long { length key.now ≡ key_length suite }
        requires cipher { cipher.now ≡ key.now }
        requires ghash_key { ghash_key.now ≡ hash_key key.now }
        ensures answer { let s = setting_of suite key.now nonce.now aad.now in
            MatchResult result (λ _. HasBegun self.new state.new s) (BeginRefused s) }
        ensures kept { OnErr result ((self.new ≡ self.old) × (state.new ≡ state.old)) }
        ensures bytes { IfOk result (λ _. MasksByBytes (setting_of suite key.now nonce.now aad.now)) }
    {
        let nonce = Nonce::from_slice(nonce)?;
        suite.check_aad(aad)?;
        self.begin_gcm(state, key, cipher, ghash_key, &nonce, aad);
        Ok(())
    }
}
