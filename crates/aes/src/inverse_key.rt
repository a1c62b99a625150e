//! A key made ready to decrypt: the equivalent inverse cipher (FIPS 197, 5.3.5).

ghost use Rattle.std.specs.Prelude.{◌≡◌, ◌<◌, ◌≤◌, ℕ, List};
ghost use Rattle.octets.specs.Bytes.{IsBlock};
ghost use Rattle.aes.specs.Cipher.{IsPreimage};

use crate::inverse_lanes::{begin, end, inverse_round, middle_key};
use crate::key::AesKey;
use octets::Block;
use std::simd::prelude::*;
use std::simd::u8x16;

// It is a type of its own, so that a caller that only encrypts does not make it. No definition has an inverse cipher: the
// contract of `decrypt` speaks of the cipher alone.
/// A key of AES made ready to decrypt many blocks: its round keys, with InvMixColumns applied to all but the first and the last
/// (FIPS 197, 5.3.5).
#[derive(Clone, Copy)]
pub struct InverseKey {
    keys: [[u8; 16]; 15],
    rounds: usize,
    ghost some: { 0 < rounds },
    ghost few: { rounds < 15 },
}

impl InverseKey {
    ghost use Rattle.aes.specs.Code.InverseKey.{IsInverse};

    // Makes a key ready. Each of its round keys is made and written in one step, so that no array of them is copied before.
    pub(crate) fn new(key: &AesKey) -> InverseKey
        ensures { IsInverse result key.now }
    {
        let rounds = key.rounds();
        let mut keys = [[0; 16]; 15];
        keys[0] = key.plain_key(0);
        for n in 1..rounds {
            keys[n] = middle_key(u8x16::from_array(key.plain_key(n)));
        }
        keys[rounds] = key.plain_key(rounds);
        InverseKey { keys, rounds }
    }

    /// Returns the block of 16 bytes that the cipher takes to `block`; it is the only one (FIPS 197, 5.3.5).
    #[inline(always)]
    pub fn decrypt(&self, block: &Block) -> Block
        ensures value { (key : List ℕ) → IsInverse self.now key → IsPreimage key block.now result }
        ensures is_block { IsBlock result }
    {
        let last = self.rounds;
        let mut state = begin(block.bytes(), self.keys[last]);
        for done in 0..last - 1 {
            let next = inverse_round(state, self.keys[last - 1 - done]);
            state = next;
        }
        Block::new(end(state, self.keys[0]))
    }
}
