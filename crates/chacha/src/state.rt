//! The state from which a block of ChaCha20 starts (RFC 8439, 2.3).

ghost use Rattle.std.specs.Prelude.{◌≡◌, ◌+◌, ◌*◌, ◌≤◌, length, take, drop};
ghost use Rattle.octets.specs.Bytes.{le};
ghost use Rattle.chacha.specs.Block.{initial_state};

use byteorder::{ByteOrder, LittleEndian};
use octets::{Key32, Nonce};

// The little-endian word of the four bytes that start at offset `4 * i`.
#[inline(always)]
fn word(bytes: &[u8], i: usize) -> u32
    requires { 4 * i + 4 ≤ length bytes.now }
    ensures { result ≡ le (take 4 (drop (4 * i) bytes.now)) }
{
    LittleEndian::read_u32(&bytes[4 * i..])
}

// The little-endian words of the first eight bytes, which are read at once: a nonce was copied as eight bytes and four, and a read
// of parts of both would wait until they have reached the cache.
#[inline(always)]
fn two_words(bytes: &[u8]) -> (u32, u32)
    requires { 8 ≤ length bytes.now }
    ensures first { result.0 ≡ le (take 4 bytes.now) }
    ensures second { result.1 ≡ le (take 4 (drop 4 bytes.now)) }
{
    let both = LittleEndian::read_u64(bytes);
    ((both % 0x1_0000_0000) as u32, (both >> 32) as u32)
}

// Four constants, eight words of the key, the counter, three words of the nonce.
#[tactic(auto, unfolding(crate::specs::Block::initial_state))]
pub(crate) fn initial_state(key: &Key32, counter: u32, nonce: &Nonce) -> [u32; 16]
    ensures { result ≡ initial_state key.now counter nonce.now }
{
    let key = key.bytes();
    let nonce = nonce.bytes();
    let (first, second) = two_words(nonce);
    [
        0x6170_7865,
        0x3320_646e,
        0x7962_2d32,
        0x6b20_6574,
        word(key, 0),
        word(key, 1),
        word(key, 2),
        word(key, 3),
        word(key, 4),
        word(key, 5),
        word(key, 6),
        word(key, 7),
        counter,
        first,
        second,
        word(nonce, 2),
    ]
}
