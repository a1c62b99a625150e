//! A key that a caller in C keeps in its memory, with the values that depend on the key alone.

ghost use Rattle.std.specs.Prelude.{◌≡◌, ◌-◌, length, drop, replicate, true};
ghost use Rattle.aes.specs.Cipher.{IsKey};
ghost use Rattle.aes.specs.Code.ReadyKeys.{KeepsReadyKeys};
ghost use Rattle.gf128.specs.Code.PlainMultiples.{HasMultiples, no_multiples};
ghost use Rattle.aead.specs.declared.suite.Suite.{Suite};
ghost use Rattle.aead.specs.declared.suite.Construction.TheVariants.{ChaChaPoly as ByChaCha, Gcm as ByGcm, GcmSiv as ByGcmSiv};
ghost use Rattle.aead.specs.Suites.{construction_of, key_length};
ghost use Rattle.aead.specs.Sealing.{hash_key};
ghost use Rattle.capi.specs.Keys.{key_mark, first_key, has_aes, has_hash_key};

use crate::suites::mark_of;
use aead::{Construction, Suite, hash_subkey};
use aes::AesKey;
use gf128::{Keyed128, Multiply, PlainMul, PlainMultiples, TableMul};
use octets::Block;

// The number of this kind of struct: `cipher` in ASCII, and the version of its layout. A mark is this number plus the suite's.
pub(crate) const KEY: u64 = 0x6369_7068_6572_0200;

/// The numbers of a struct that may keep a key. Each may have any value.
#[repr(C)]
#[derive(Clone, Copy)]
pub struct KeyNumbers {
    // The mark of a kept key of a suite; any other number if no key is kept.
    pub(crate) mark: u64,
    // The key, and zeros after it.
    pub(crate) key: [u8; 32],
    // The schedule of AES under the key, and zeros after it. Under ChaCha20-Poly1305 all of it is zeros.
    ready_keys: [[u8; 16]; 15],
    // The key of GHASH, and its multiples, under AES-GCM. Under ChaCha20-Poly1305 they are zeros, and also under AES-GCM-SIV, which
    // derives another hash key for each nonce.
    ghash_key: [u8; 16],
    multiples: PlainMultiples,
}

impl KeyNumbers {
    ghost use Rattle.capi.specs.StoredKeys.{IsCleared};

    // Returns numbers that are all zero. They keep no key.
    pub(crate) fn zeros() -> KeyNumbers
        ensures mark { result.mark ≡ 0 }
        ensures cleared { IsCleared result }
    {
        KeyNumbers {
            mark: 0,
            key: [0; 32],
            ready_keys: [[0; 16]; 15],
            ghash_key: [0; 16],
            multiples: PlainMultiples::zeros(),
        }
    }

    // Returns the numbers that keep a key, whose bytes have the suite's length, without the values that depend on it: zeros are in
    // their place.
    fn of_key(suite: Suite, key: &[u8]) -> KeyNumbers
        requires { length key.now ≡ key_length suite }
        ensures mark { result.mark ≡ key_mark suite }
        ensures key { first_key suite result.key ≡ key.now }
        ensures padded { drop (key_length suite) result.key ≡ replicate (32 - key_length suite) 0 }
        ensures ready_keys { result.ready_keys ≡ replicate 15 (replicate 16 0) }
        ensures ghash_key { result.ghash_key ≡ replicate 16 0 }
        ensures multiples { result.multiples ≡ no_multiples }
    {
        let mut padded = [0; 32];
        padded[..key.len()].copy_from_slice(key);
        KeyNumbers {
            mark: mark_of(KEY, suite),
            key: padded,
            ready_keys: [[0; 16]; 15],
            ghash_key: [0; 16],
            multiples: PlainMultiples::zeros(),
        }
    }
}

/// A key of a suite with the values that the suite needs and that depend on the key alone, in 808 bytes: the schedule of AES if the
/// suite has AES, and the key of GHASH and its multiples under AES-GCM. The others are zeros. The caller in C has to see to it that a
/// struct with the mark of a suite is as `aeadkit_key_init` left it. A struct with any other mark is refused.
// To check a schedule or multiples, a call would have to make them again.
#[repr(C)]
#[derive(Clone, Copy)]
pub struct StoredKey {
    pub(crate) numbers: KeyNumbers,
    ghost ready: { (suite : Suite) → numbers.mark ≡ key_mark suite → has_aes (construction_of suite) ≡ true
        → KeepsReadyKeys numbers.ready_keys (first_key suite numbers.key) },
    ghost hashes: { (suite : Suite) → numbers.mark ≡ key_mark suite → has_hash_key (construction_of suite) ≡ true
        → numbers.ghash_key ≡ hash_key (first_key suite numbers.key) },
    ghost multiplied: { (suite : Suite) → numbers.mark ≡ key_mark suite
        → has_hash_key (construction_of suite) ≡ true
        → HasMultiples numbers.multiples (hash_key (first_key suite numbers.key)) },
}

impl StoredKey {
    ghost use Rattle.capi.specs.StoredKeys.{IsOfKey};

    // Makes the struct that keeps a key of ChaCha20-Poly1305, which needs nothing else.
    fn of_chacha(suite: Suite, key: &[u8]) -> StoredKey
        requires by { construction_of suite ≡ ByChaCha }
        requires long { length key.now ≡ key_length suite }
        ensures { IsOfKey result suite key.now }
    {
        let numbers = KeyNumbers::of_key(suite, key);
        StoredKey { numbers }
    }

    // Makes the struct that keeps a key of AES-GCM, with the schedule, the key of GHASH and its multiples.
    fn of_gcm(suite: Suite, key: &[u8]) -> StoredKey
        requires by { construction_of suite ≡ ByGcm }
        requires long { length key.now ≡ key_length suite }
        ensures { IsOfKey result suite key.now }
    {
        let mut numbers = KeyNumbers::of_key(suite, key);
        let aes = AesKey::expanded(key);
        let ghash_key = hash_subkey(&aes);
        numbers.ready_keys = aes.ready_keys();
        let bytes = *ghash_key.bytes();
        numbers.ghash_key = bytes;
        numbers.multiples = TableMul::of(&ghash_key).plain_multiples();
        StoredKey { numbers }
    }

    // Makes the struct that keeps a key of AES-GCM-SIV, with the schedule.
    fn of_siv(suite: Suite, key: &[u8]) -> StoredKey
        requires by { construction_of suite ≡ ByGcmSiv }
        requires long { length key.now ≡ key_length suite }
        ensures { IsOfKey result suite key.now }
    {
        let mut numbers = KeyNumbers::of_key(suite, key);
        numbers.ready_keys = AesKey::expanded(key).ready_keys();
        StoredKey { numbers }
    }

    // Makes the struct that keeps a key, whose bytes have the suite's length.
    pub(crate) fn new(suite: Suite, key: &[u8]) -> StoredKey
        requires { length key.now ≡ key_length suite }
        ensures { IsOfKey result suite key.now }
    {
        match suite.construction() {
            Construction::ChaChaPoly => StoredKey::of_chacha(suite, key),
            Construction::Gcm => StoredKey::of_gcm(suite, key),
            Construction::GcmSiv => StoredKey::of_siv(suite, key),
        }
    }

    // Returns the bytes of the key, as many as the suite's keys have.
    #[inline(always)]
    pub(crate) fn key(&self, suite: Suite) -> &[u8]
        ensures { result.now ≡ first_key suite self.now.numbers.key }
    {
        &self.numbers.key[..suite.key_length()]
    }

    // Returns AES under the key, if the suite has AES. It copies the schedule: a borrowed one is no faster.
    #[inline(always)]
    pub(crate) fn aes(&self, suite: Suite) -> AesKey
        requires marked { self.now.numbers.mark ≡ key_mark suite }
        requires has { has_aes (construction_of suite) ≡ true }
        ensures value { result ≡ first_key suite self.now.numbers.key }
        ensures is_key { IsKey (first_key suite self.now.numbers.key) }
    {
        AesKey::from_ready_keys(
            &self.numbers.ready_keys,
            &self.numbers.key[..suite.key_length()],
        )
    }

    // Returns the key of GHASH, under AES-GCM.
    #[inline(always)]
    pub(crate) fn ghash_key(&self, suite: Suite) -> Block
        requires marked { self.now.numbers.mark ≡ key_mark suite }
        requires has { has_hash_key (construction_of suite) ≡ true }
        ensures { result ≡ hash_key (first_key suite self.now.numbers.key) }
    {
        Block::new(self.numbers.ghash_key)
    }

    // Returns the multiplier by the key of GHASH, under AES-GCM.
    #[inline(always)]
    pub(crate) fn multiplier<'a>(&'a self, suite: Suite) -> PlainMul<'a>
        requires marked { self.now.numbers.mark ≡ key_mark suite }
        requires has { has_hash_key (construction_of suite) ≡ true }
        ensures { ⟦<PlainMul<'a> as Multiply>⟧.key_bytes result
            ≡ hash_key (first_key suite self.now.numbers.key) }
    {
        PlainMul::new(&self.ghash_key(suite), &self.numbers.multiples)
    }
}
