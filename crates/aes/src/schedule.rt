//! The key schedule (FIPS 197, 5.2) in vectors, with look-ups in registers. The words are in the basis of `lanes`, four in a vector.

ghost use Rattle.std.specs.Prelude.{◌≡◌, ℕ, ◌+◌, ◌*◌, ◌/◌, ◌%◌, ◌<◌, ◌≤◌, List, length, slice_index, bit_xor};
ghost use Rattle.aes.specs.Field.{sbox};
ghost use Rattle.aes.specs.Code.Lanes.{in_basis, row_source, AreBytes, HoldsWords, HasSums, Follows};
ghost use Rattle.aes.specs.Code.Planes.{word_byte, masked_byte};
ghost use Rattle.aes.specs.Code.ExpandedKey.{IsKeySize};
ghost use Rattle.aes.specs.Code.ReadyKeys.{ready_byte, KeepsReadyKeys};
ghost use Rattle.aes.specs.Schedule.{schedule, rcon, MeetsRecurrence};

use crate::lanes::{Lanes, from_basis, substitute, to_basis};
use std::simd::prelude::*;
use std::simd::u8x16;

// Each round constant in the basis, in all four words, plus the constant of the S-box, which the S-box in lanes leaves out.
static ROUND_CONSTANTS: [[u8; 16]; 10] = [
    [
        0x7d, 0x7c, 0x7c, 0x7c, 0x7d, 0x7c, 0x7c, 0x7c, 0x7d, 0x7c, 0x7c, 0x7c, 0x7d, 0x7c, 0x7c,
        0x7c,
    ],
    [
        0x23, 0x7c, 0x7c, 0x7c, 0x23, 0x7c, 0x7c, 0x7c, 0x23, 0x7c, 0x7c, 0x7c, 0x23, 0x7c, 0x7c,
        0x7c,
    ],
    [
        0x6f, 0x7c, 0x7c, 0x7c, 0x6f, 0x7c, 0x7c, 0x7c, 0x6f, 0x7c, 0x7c, 0x7c, 0x6f, 0x7c, 0x7c,
        0x7c,
    ],
    [
        0x6d, 0x7c, 0x7c, 0x7c, 0x6d, 0x7c, 0x7c, 0x7c, 0x6d, 0x7c, 0x7c, 0x7c, 0x6d, 0x7c, 0x7c,
        0x7c,
    ],
    [
        0xb5, 0x7c, 0x7c, 0x7c, 0xb5, 0x7c, 0x7c, 0x7c, 0xb5, 0x7c, 0x7c, 0x7c, 0xb5, 0x7c, 0x7c,
        0x7c,
    ],
    [
        0x93, 0x7c, 0x7c, 0x7c, 0x93, 0x7c, 0x7c, 0x7c, 0x93, 0x7c, 0x7c, 0x7c, 0x93, 0x7c, 0x7c,
        0x7c,
    ],
    [
        0xb1, 0x7c, 0x7c, 0x7c, 0xb1, 0x7c, 0x7c, 0x7c, 0xb1, 0x7c, 0x7c, 0x7c, 0xb1, 0x7c, 0x7c,
        0x7c,
    ],
    [
        0x52, 0x7c, 0x7c, 0x7c, 0x52, 0x7c, 0x7c, 0x7c, 0x52, 0x7c, 0x7c, 0x7c, 0x52, 0x7c, 0x7c,
        0x7c,
    ],
    [
        0xfa, 0x7c, 0x7c, 0x7c, 0xfa, 0x7c, 0x7c, 0x7c, 0xfa, 0x7c, 0x7c, 0x7c, 0xfa, 0x7c, 0x7c,
        0x7c,
    ],
    [
        0x16, 0x7c, 0x7c, 0x7c, 0x16, 0x7c, 0x7c, 0x7c, 0x16, 0x7c, 0x7c, 0x7c, 0x16, 0x7c, 0x7c,
        0x7c,
    ],
];

// The constant of the S-box in the basis.
const SBOX_CONSTANT: [u8; 16] = [0x7c; 16];

// The lanes of the words one and two places before each word; a lane from 16 on is a lane of the second vector.
const ONE_WORD_BACK: [usize; 16] = [0, 1, 2, 3, 16, 17, 18, 19, 20, 21, 22, 23, 24, 25, 26, 27];

const TWO_WORDS_BACK: [usize; 16] = [0, 1, 2, 3, 4, 5, 6, 7, 16, 17, 18, 19, 20, 21, 22, 23];

// The sums of each word and all words before it.
#[inline(always)]
fn sums(words: u8x16) -> u8x16
    ensures { HasSums result words }
{
    let pairs = words ^ u8x16::splat(0).shuffle(words, ONE_WORD_BACK);
    pairs ^ u8x16::splat(0).shuffle(pairs, TWO_WORDS_BACK)
}

// The words that follow: each is the sum of the word four or fewer places back and the word before it, and the first is the sum
// with `temp`, which stands in all four words.
#[inline(always)]
fn follow(back: u8x16, temp: u8x16) -> u8x16
    ensures { (count : ℕ) (ws : List (List ℕ)) (m n : ℕ) (t : ℕ → ℕ) → count ≤ 4 → AreBytes ws → ((r : ℕ) → t r < 256)
        → HoldsWords count back ws m → ((i : ℕ) → i < 16 → slice_index temp i ≡ in_basis (t (i % 4)))
        → Follows count ws m n t → HoldsWords count result ws n }
{
    sums(back) ^ temp
}

// SubWord of the word that stands in all four words, plus a round constant.
#[inline(always)]
fn sub_word(word: u8x16, constant: [u8; 16]) -> u8x16
    ensures { (s c : ℕ → ℕ) → ((r : ℕ) → s r < 256) → ((r : ℕ) → c r < 256)
        → ((i : ℕ) → i < 16 → slice_index word i ≡ in_basis (s (i % 4)))
        → ((i : ℕ) → i < 16 → slice_index constant i ≡ bit_xor (in_basis (c (i % 4))) 0x7c)
        → (i : ℕ) → i < 16 → slice_index result i ≡ in_basis (bit_xor (sbox (s (i % 4))) (c (i % 4))) }
{
    let (_, once, _) = substitute(word);
    once.sum(u8x16::from_array(constant))
}

// RotWord of the last of four words, in all four words.
#[inline(always)]
fn rotated_last(words: u8x16) -> u8x16
    ensures { (i : ℕ) → i < 16 → slice_index result i ≡ slice_index words (12 + (i % 4 + 1) % 4) }
{
    words.swizzle([
        13, 14, 15, 12, 13, 14, 15, 12, 13, 14, 15, 12, 13, 14, 15, 12,
    ])
}

// RotWord of the second of two words, in all four words.
#[inline(always)]
fn rotated_second(words: u8x16) -> u8x16
    ensures { (i : ℕ) → i < 16 → slice_index result i ≡ slice_index words (4 + (i % 4 + 1) % 4) }
{
    words.swizzle([5, 6, 7, 4, 5, 6, 7, 4, 5, 6, 7, 4, 5, 6, 7, 4])
}

// The last of four words, in all four words.
#[inline(always)]
fn last_word(words: u8x16) -> u8x16
    ensures { (i : ℕ) → i < 16 → slice_index result i ≡ slice_index words (12 + i % 4) }
{
    words.swizzle([
        12, 13, 14, 15, 12, 13, 14, 15, 12, 13, 14, 15, 12, 13, 14, 15,
    ])
}

// Two words and the first two of four words.
#[inline(always)]
fn join_first(two: u8x16, four: u8x16) -> u8x16
    ensures { (ws : List (List ℕ)) (m : ℕ) → HoldsWords 2 two ws m → HoldsWords 4 four ws (m + 2) → HoldsWords 4 result ws m }
{
    two.shuffle(
        four,
        [0, 1, 2, 3, 4, 5, 6, 7, 16, 17, 18, 19, 20, 21, 22, 23],
    )
}

// The last two of four words and two words.
#[inline(always)]
fn join_last(four: u8x16, two: u8x16) -> u8x16
    ensures { (ws : List (List ℕ)) (m : ℕ) → HoldsWords 4 four ws m → HoldsWords 2 two ws (m + 4)
        → HoldsWords 4 result ws (m + 2) }
{
    four.shuffle(
        two,
        [8, 9, 10, 11, 12, 13, 14, 15, 16, 17, 18, 19, 20, 21, 22, 23],
    )
}

// Four words as a round key between the first and the last.
#[inline(always)]
fn ready(words: u8x16) -> [u8; 16]
    ensures { (ws : List (List ℕ)) (n : ℕ) → HoldsWords 4 words ws (4 * n)
        → (i : ℕ) → i < 16 → slice_index result i ≡ ready_byte ws n (row_source i) }
{
    words
        .shift_rows()
        .sum(u8x16::from_array(SBOX_CONSTANT))
        .to_array()
}

// Four words as the last round key.
#[inline(always)]
fn ready_last(words: u8x16) -> [u8; 16]
    ensures { (ws : List (List ℕ)) (n : ℕ) → AreBytes ws → HoldsWords 4 words ws (4 * n)
        → (i : ℕ) → i < 16 → slice_index result i ≡ masked_byte ws n i }
{
    from_basis(words).sum(u8x16::splat(0x63)).to_array()
}

// The sixteen bytes of a key from `at` on.
#[inline(always)]
fn sixteen(key: &[u8], at: usize) -> [u8; 16]
    requires { at + 16 ≤ length key.now }
    ensures { (i : ℕ) → i < 16 → slice_index result i ≡ slice_index key.now (at + i) }
{
    let mut bytes = [0; 16];
    bytes.copy_from_slice(&key[at..at + 16]);
    bytes
}

// The eight bytes of a key from 16 on, and zeros.
#[inline(always)]
fn eight(key: &[u8]) -> [u8; 16]
    requires { length key.now ≡ 24 }
    ensures { (i : ℕ) → i < 8 → slice_index result i ≡ slice_index key.now (16 + i) }
{
    let mut bytes = [0; 16];
    bytes[..8].copy_from_slice(&key[16..]);
    bytes
}

// The round keys of a key of four words.
fn expand128(key: &[u8]) -> [[u8; 16]; 15]
    requires { length key.now ≡ 16 }
    ensures { KeepsReadyKeys result key.now }
{
    let bytes = sixteen(key, 0);
    let mut keys = [[0; 16]; 15];
    keys[0] = bytes;
    let mut words = to_basis(u8x16::from_array(bytes));
    for r in 0..9usize {
        let next = follow(words, sub_word(rotated_last(words), ROUND_CONSTANTS[r]));
        keys[r + 1] = ready(next);
        words = next;
    }
    keys[10] = ready_last(follow(words, sub_word(rotated_last(words), ROUND_CONSTANTS[9])));
    keys
}

// The round keys of a key of six words. Three keys are two groups of six words.
fn expand192(key: &[u8]) -> [[u8; 16]; 15]
    requires { length key.now ≡ 24 }
    ensures { KeepsReadyKeys result key.now }
{
    let bytes = sixteen(key, 0);
    let mut keys = [[0; 16]; 15];
    keys[0] = bytes;
    let mut four = to_basis(u8x16::from_array(bytes));
    let mut two = to_basis(u8x16::from_array(eight(key)));
    for r in 0..3usize {
        let next_four = follow(four, sub_word(rotated_second(two), ROUND_CONSTANTS[2 * r]));
        keys[3 * r + 1] = ready(join_first(two, next_four));
        let next_two = follow(two, last_word(next_four));
        keys[3 * r + 2] = ready(join_last(next_four, next_two));
        four = follow(
            next_four,
            sub_word(rotated_second(next_two), ROUND_CONSTANTS[2 * r + 1]),
        );
        keys[3 * r + 3] = ready(four);
        two = follow(next_two, last_word(four));
    }
    let next_four = follow(four, sub_word(rotated_second(two), ROUND_CONSTANTS[6]));
    keys[10] = ready(join_first(two, next_four));
    let next_two = follow(two, last_word(next_four));
    keys[11] = ready(join_last(next_four, next_two));
    keys[12] = ready_last(follow(
        next_four,
        sub_word(rotated_second(next_two), ROUND_CONSTANTS[7]),
    ));
    keys
}

// The round keys of a key of eight words.
fn expand256(key: &[u8]) -> [[u8; 16]; 15]
    requires { length key.now ≡ 32 }
    ensures { KeepsReadyKeys result key.now }
{
    let bytes = sixteen(key, 0);
    let mut keys = [[0; 16]; 15];
    keys[0] = bytes;
    let mut first = to_basis(u8x16::from_array(bytes));
    let mut second = to_basis(u8x16::from_array(sixteen(key, 16)));
    keys[1] = ready(second);
    for r in 0..6usize {
        let next = follow(first, sub_word(rotated_last(second), ROUND_CONSTANTS[r]));
        keys[2 * r + 2] = ready(next);
        let after = follow(second, sub_word(last_word(next), SBOX_CONSTANT));
        keys[2 * r + 3] = ready(after);
        first = next;
        second = after;
    }
    keys[14] = ready_last(follow(first, sub_word(rotated_last(second), ROUND_CONSTANTS[6])));
    keys
}

// The round keys of a key of nk words. They are arrays of bytes, since numbers of 128 bits take longer to make.
pub(crate) fn expand(key: &[u8], nk: usize) -> [[u8; 16]; 15]
    requires size { IsKeySize nk }
    requires long { length key.now ≡ 4 * nk }
    ensures { KeepsReadyKeys result key.now }
{
    if nk == 4 {
        expand128(key)
    } else if nk == 6 {
        expand192(key)
    } else {
        expand256(key)
    }
}

/// The law of the key schedule (FIPS 197, 5.2): the first Nk words are the key's, and any other word is the sum of the word Nk
/// places back and temp, which is made of the word before it. The call does nothing; its contract is the law.
pub fn schedule_recurs()
    ensures { MeetsRecurrence }
{}
