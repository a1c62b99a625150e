//! The keys of a message of AES-GCM-SIV, which are derived from the key and the nonce (RFC 8452, 4).

ghost use Rattle.std.specs.Prelude.{◌≡◌, ℕ, ◌+◌, ◌*◌, ◌<◌, ◌≤◌, ◌++◌, length, take};
ghost use Rattle.std.specs.Int.{w32, to_le_bytes};
ghost use Rattle.octets.specs.Bytes.{IsBlock, block_at};
ghost use Rattle.gf128.specs.Polyval.{IsReversedMulX};
ghost use Rattle.aead.specs.Suites.{construction_of, key_length, ByGcmSiv};
ghost use Rattle.aead.specs.Sealing.{key_part, authentication_key, encryption_key};

use crate::gcm_siv::{GcmSiv, message_secret};
use crate::pieces::aes_pass;
use crate::pieces::keys::{AesKeys, CipherKeys, ExpandedKey, LentMul, MessageKeys};
use crate::pieces::pass_state::PassState;
use crate::suite::Suite;
use aes::AesKey;
use gf128::{Keyed128, PolyvalOrder, TableMul, reversed_mul_x};
use octets::{Block, Nonce, joined};

// Returns the first half of block `q` of concatenated blocks.
fn first_half(blocks: &[u8], q: usize) -> [u8; 8]
    requires { 16 * q + 16 ≤ length blocks.now }
    ensures { result ≡ take 8 (block_at blocks.now q) }
{
    let mut half = [0; 8];
    half.copy_from_slice(&blocks[16 * q..16 * q + 8]);
    half
}

// Returns the block of a number and a nonce (RFC 8452, 4).
fn numbered(i: u32, nonce: &[u8; 12]) -> [u8; 16]
    ensures { result ≡ to_le_bytes w32 i ++ nonce.now }
{
    let mut block = [0; 16];
    block[..4].copy_from_slice(&i.to_le_bytes());
    block[4..].copy_from_slice(nonce);
    block
}

// Returns the blocks with the numbers 0 to 3.
fn first_numbered(nonce: &[u8; 12]) -> [u8; 64]
    ensures { (q : ℕ) → q < 4 → block_at result q ≡ to_le_bytes w32 q ++ nonce.now }
{
    let front: [u8; 32] = joined(&numbered(0, nonce), &numbered(1, nonce));
    let back: [u8; 32] = joined(&numbered(2, nonce), &numbered(3, nonce));
    joined(&front, &back)
}

// Parts 0 to 3 of the derived keys, each the first half of an encrypted block (RFC 8452, 4). The four blocks are encrypted at
// once.
#[derive(Drop)]
pub(crate) struct KeyParts<'a> {
    key: &'a AesKey,
    nonce: &'a Nonce,
    blocks: [u8; 64],
    ghost parts: { (q : ℕ) → q < 4 → take 8 (block_at blocks q) ≡ key_part key.now nonce.now q },
}

impl<'a> KeyParts<'a> {
    // Derives parts 0 to 3 from a key and a nonce.
    pub(crate) fn new(key: &'a AesKey, nonce: &'a Nonce) -> KeyParts<'a>
        ensures key { result.key.now ≡ key.now }
        ensures nonce { result.nonce.now ≡ nonce.now }
    {
        KeyParts {
            key,
            nonce,
            blocks: key.encrypt_four(&first_numbered(nonce.bytes())),
        }
    }

    // Returns part `i`, 8 bytes.
    fn at(&self, i: usize) -> [u8; 8]
        requires { i < 4 }
        ensures { result ≡ key_part self.now.key.now self.now.nonce.now i }
    {
        first_half(&self.blocks, i)
    }
}

// Derives parts 4 and 5 of the keys, joined (RFC 8452, 4). Both blocks are encrypted at once.
fn last_parts(key: &AesKey, nonce: &Nonce) -> [u8; 16]
    ensures { result ≡ key_part key.now nonce.now 4 ++ key_part key.now nonce.now 5 }
{
    let bytes = nonce.bytes();
    let blocks = key.encrypt_two(&joined(&numbered(4, bytes), &numbered(5, bytes)));
    joined(&first_half(&blocks, 0), &first_half(&blocks, 1))
}

// Returns the encryption key of 16 bytes: parts 2 and 3 (RFC 8452, 4).
pub(crate) fn short_encryption_key(parts: &KeyParts) -> [u8; 16]
    requires { length parts.now.key.now ≡ 16 }
    ensures { result ≡ encryption_key parts.now.key.now parts.now.nonce.now }
{
    joined(&parts.at(2), &parts.at(3))
}

// Returns the encryption key of 32 bytes: parts 2 to 5 (RFC 8452, 4).
pub(crate) fn long_encryption_key(parts: &KeyParts) -> [u8; 32]
    requires { length parts.now.key.now ≡ 32 }
    ensures { result ≡ encryption_key parts.now.key.now parts.now.nonce.now }
{
    let first: [u8; 16] = joined(&parts.at(2), &parts.at(3));
    joined(&first, &last_parts(parts.key, parts.nonce))
}

// Returns the key of POLYVAL's multiplier in GHASH's field (RFC 8452, appendix A). POLYVAL's key is parts 0 and 1 (RFC 8452, 4).
pub(crate) fn multiplier_key(parts: &KeyParts) -> Block
    ensures value { IsReversedMulX (authentication_key parts.now.key.now parts.now.nonce.now) result }
    ensures of_block { IsBlock (authentication_key parts.now.key.now parts.now.nonce.now) }
{
    let key = Block::new(joined(&parts.at(0), &parts.at(1)));
    reversed_mul_x(&key)
}

// The keys of one message.
#[derive(Drop)]
pub(crate) struct DerivedKeys {
    // The key of POLYVAL's multiplier in GHASH's field.
    pub(crate) multiplier_key: Block,
    pub(crate) encryption: AesKey,
}

impl DerivedKeys {
    ghost use Rattle.std.specs.Prelude.{List, []};
    ghost use Rattle.aead.specs.Suites.{aad_limit};
    ghost use Rattle.aead.specs.Sealing.{Setting};
    ghost use Rattle.aead.specs.PassStates.{HoldsNumbers};
    ghost use Rattle.aead.specs.Code.MessageKeys.{construction_by, lent_key, AreDerived, AreKeysOf};

    // Derives the keys of a message from a suite's key and a nonce (RFC 8452, 4).
    pub(crate) fn new(suite: Suite, key: &AesKey, nonce: &Nonce) -> DerivedKeys
        requires by_gcm_siv { construction_of suite ≡ ByGcmSiv }
        requires long { length key.now ≡ key_length suite }
        ensures block { IsBlock (authentication_key key.now nonce.now) }
        ensures multiplier_key { IsReversedMulX (authentication_key key.now nonce.now) result.multiplier_key }
        ensures encryption { result.encryption ≡ encryption_key key.now nonce.now }
    {
        let parts = KeyParts::new(key, nonce);
        let multiplier_key = multiplier_key(&parts);
        let encryption = match suite {
            Suite::Aes128GcmSiv => AesKey::expanded(&short_encryption_key(&parts)),
            Suite::Aes256GcmSiv => AesKey::expanded(&long_encryption_key(&parts)),
            Suite::ChaCha20Poly1305 | Suite::Aes128Gcm | Suite::Aes192Gcm | Suite::Aes256Gcm =>
                unreachable!(),
        };
        DerivedKeys {
            multiplier_key,
            encryption,
        }
    }

    // Lends the keys of the message with this nonce, with a multiplier by the hash key.
    pub(crate) fn message_keys<'a>(
        &'a self,
        nonce: &Nonce,
        multiplier: LentMul<'a>,
    ) -> MessageKeys<'a>
        ensures by { construction_by result.cipher ≡ ByGcmSiv }
        ensures keys { (s : Setting) → AreDerived self.now s → lent_key multiplier.entry ≡ self.now.multiplier_key
            → nonce.now ≡ s.nonce → AreKeysOf result s }
    {
        let key = &self.encryption;
        MessageKeys {
            cipher: CipherKeys::Siv(AesKeys::Expanded(ExpandedKey { key, multiplier })),
            nonce: *nonce.bytes(),
        }
    }

    // Returns the initial state for associated data.
    pub(crate) fn initial_state(&self, aad: &[u8]) -> PassState
        ensures { (s : Setting) → AreDerived self.now s → s.aad ≡ aad.now → length aad.now ≤ aad_limit s.suite
            → HoldsNumbers result s [] }
    {
        aes_pass::initial_state::<PolyvalOrder>(message_secret(&self.multiplier_key), aad)
    }
}

// The keys of a message and its nonce, with a multiplier by the hash key.
#[derive(Drop)]
pub(crate) struct SivKeys {
    derived: DerivedKeys,
    // The small table of the hash key, for short pieces.
    multiplier: TableMul,
    nonce: Nonce,
}

impl SivKeys {
    ghost use Rattle.std.specs.Prelude.{List, []};
    ghost use Rattle.aead.specs.Suites.{aad_limit};
    ghost use Rattle.aead.specs.Sealing.{Setting};
    ghost use Rattle.aead.specs.Ciphers.{setting};
    ghost use Rattle.aead.specs.PassStates.{HoldsNumbers};
    ghost use Rattle.aead.specs.Pieces.{AreKeys};
    ghost use Rattle.aead.specs.Code.MessageKeys.{construction_by, AreKeysOf};

    // Derives the keys of the message with this nonce.
    pub(crate) fn new(cipher: &GcmSiv, nonce: &Nonce) -> SivKeys
        ensures { (aad : List ℕ) → AreKeys result (setting cipher.now nonce.now aad) }
    {
        let derived = cipher.derive(nonce);
        SivKeys {
            multiplier: TableMul::of(&derived.multiplier_key),
            derived,
            nonce: *nonce,
        }
    }

    // Lends the keys for a step.
    pub(crate) fn keys<'a>(&'a self) -> MessageKeys<'a>
        ensures by { construction_by result.cipher ≡ ByGcmSiv }
        ensures keys { (s : Setting) → AreKeys self.now s → AreKeysOf result s }
    {
        self.derived
            .message_keys(&self.nonce, LentMul::Table(&self.multiplier))
    }

    // Returns the initial state for associated data.
    pub(crate) fn initial_state(&self, aad: &[u8]) -> PassState
        ensures { (s : Setting) → AreKeys self.now s → s.aad ≡ aad.now → length aad.now ≤ aad_limit s.suite
            → HoldsNumbers result s [] }
    {
        self.derived.initial_state(aad)
    }
}
