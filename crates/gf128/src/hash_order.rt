//! The order in which a hash reads the bytes of a block: GHASH begins with the first byte (SP 800-38D, 6.3), POLYVAL with the
//! last (RFC 8452, 3).

ghost use Rattle.std.specs.Prelude.{◌≡◌, ℕ, ◌*◌, ◌/◌, ◌^◌, ◌<◌, List, length};
ghost use Rattle.octets.specs.Bytes.{IsBlock, le};
ghost use Rattle.octets.specs.Polynomial.{Agree};
ghost use Rattle.gf128.specs.Code.Words.{of_bits, of_word};
ghost use Rattle.gf128.specs.Orders.{Order, reading, two_numbers, Serves, hash_by, block_sum};

use octets::Block;

/// The order in which a hash reads the bytes of a block.
pub trait HashOrder {
    ghost order: { Order };

    /// Returns the word of a block.
    fn word_of(block: &[u8; 16]) -> u128
        ensures { of_word result ≡ reading order block.now };

    /// Returns the bytes of the word of a block, the least significant one first.
    fn word_bytes(block: &[u8; 16]) -> [u8; 16]
        ensures { of_word (le result) ≡ reading order block.now };

    /// Returns the word of a block of two numbers of 8 bytes each. Under GHASH each has its most significant byte first (SP 800-38D,
    /// 7.1), under POLYVAL its least significant one (RFC 8452, 4).
    fn word_of_two(first: u64, second: u64) -> u128
        ensures { of_word result ≡ reading order (two_numbers order first second) };

    /// Returns the hash of blocks from their sum, which is a word.
    fn hash_of(sum: u128) -> Block
        ensures value { (h k m : List ℕ) → Serves order h k
            → Agree (of_word sum) (block_sum order k m (length m / 16)) → result ≡ hash_by order h m }
        ensures is_block { IsBlock result };

    /// Returns the key of the multiplier that serves the hash under `key`.
    fn multiplier_key(key: &Block) -> Block
        ensures { Serves order key.now result };
}
