//! The steps of wrapping and unwrapping by index (RFC 3394, 2.2.1 and 2.2.2), from any first value of A. From step to step A is half
//! a vector: in memory, each step would wait until the one before has stored it.

ghost use Rattle.std.specs.Prelude.{◌≡◌, ℕ, List, ◌+◌, ◌-◌, ◌*◌, ◌/◌, ◌%◌, ◌≤◌, ◌++◌, ◌↔◌, take, drop};
ghost use Rattle.std.specs.Prelude.{length, IsTrue};
ghost use Rattle.std.specs.Int.{bytes_high_first};
ghost use Rattle.octets.specs.Bytes.{AreBytes, xor_bytes};
ghost use Rattle.aes.specs.Cipher.{IsKey};
ghost use Rattle.aes.specs.Code.InverseKey.{IsInverse};
ghost use Rattle.keywrap.specs.Wrapping.{step, steps, initial_value, HasWrappedLength};
ghost use Rattle.keywrap.specs.Code.Places.{register};

use aes::{AesKey, InverseKey};
use octets::Block;
use std::simd::prelude::*;
use std::simd::{u8x8, u8x16};

// The default initial value (RFC 3394, 2.2.3.1). No caller here needs another one.
pub(crate) const INITIAL_VALUE: [u8; 8] = [0xa6; 8];

// The default initial value as a number.
const INITIAL_NUMBER: u64 = 0xa6a6_a6a6_a6a6_a6a6;

// Whether the length is that of a wrapping.
pub(crate) fn has_wrapped_length(bytes: &[u8]) -> bool
    ensures { IsTrue result ↔ HasWrappedLength bytes.now }
{
    bytes.len() >= 24 && bytes.len() % 8 == 0
}

// Whether the checks of an unwrapped register hold, all at once. The answer is public: it is whether the bytes were a valid
// wrapping, which the caller is told.
pub(crate) fn is_valid(difference: u64) -> bool
    ensures { IsTrue result ↔ (difference ≡ 0) }
{
    difference == 0
}

// Whether A is the default initial value. All eight bytes are compared at once, as one number, so that the time doesn't tell how
// many are right.
pub(crate) fn is_initial_value(first: &[u8; 8]) -> bool
    ensures { IsTrue result ↔ (first.now ≡ initial_value) }
{
    is_valid(u64::from_be_bytes(*first).wrapping_sub(INITIAL_NUMBER))
}

// The first eight bytes.
pub(crate) fn first_eight(bytes: &[u8]) -> [u8; 8]
    requires { 8 ≤ length bytes.now }
    ensures { result ≡ take 8 bytes.now }
{
    let mut first = [0; 8];
    first.copy_from_slice(&bytes[..8]);
    first
}

// The XOR of half a block with the number of a step.
#[inline(always)]
fn xor_number(half: u8x8, t: u64) -> u8x8
    ensures { result ≡ xor_bytes half (bytes_high_first 8 t) }
{
    half ^ u8x8::from_array(t.to_be_bytes())
}

// The block with these two halves.
#[inline(always)]
pub(crate) fn join_halves(first: u8x8, second: u8x8) -> [u8; 16]
    ensures { result ≡ first ++ second }
{
    first
        .shuffle(
            second,
            [0, 1, 2, 3, 4, 5, 6, 7, 8, 9, 10, 11, 12, 13, 14, 15],
        )
        .to_array()
}

// The two halves of a block.
#[inline(always)]
pub(crate) fn halves(block: &[u8; 16]) -> (u8x8, u8x8)
    ensures first { result.0 ≡ take 8 block.now }
    ensures second { result.1 ≡ drop 8 block.now }
    ensures long { length block.now ≡ 16 }
{
    let bytes = u8x16::from_array(*block);
    (
        bytes.swizzle([0, 1, 2, 3, 4, 5, 6, 7]),
        bytes.swizzle([8, 9, 10, 11, 12, 13, 14, 15]),
    )
}

// A after step t, which also changes the block at `place`.
#[inline(always)]
fn wrap_step(key: &AesKey, t: u64, place: usize, first: u8x8, blocks: &mut [u8]) -> u8x8
    requires { place + 8 ≤ length blocks.old }
    ensures { register (place + 8) result blocks.new
        ≡ step key.now t (register place first blocks.old) }
{
    let block = join_halves(first, u8x8::from_slice(&blocks[place..place + 8]));
    let (half, second) = halves(key.encrypt_in_registers(&Block::new(block)).bytes());
    blocks[place..place + 8].copy_from_slice(&second.to_array());
    xor_number(half, t)
}

// A before step t, which is undone at the block at `place`.
#[inline(always)]
fn unwrap_step(inverse: &InverseKey, t: u64, place: usize, first: u8x8, blocks: &mut [u8]) -> u8x8
    requires { place + 8 ≤ length blocks.old }
    ensures step { (key : List ℕ) → IsInverse inverse.now key
        → step key t (register place result blocks.new) ≡ register (place + 8) first blocks.old }
    ensures first { AreBytes (length result) result }
    ensures rest { AreBytes (length blocks.new) blocks.new }
{
    let block = join_halves(
        xor_number(first, t),
        u8x8::from_slice(&blocks[place..place + 8]),
    );
    let (half, second) = halves(inverse.decrypt(&Block::new(block)).bytes());
    blocks[place..place + 8].copy_from_slice(&second.to_array());
    half
}

// Does the steps of all six rounds.
pub(crate) fn wrap_blocks(key: &AesKey, first: &mut [u8; 8], blocks: &mut [u8])
    requires { length blocks.old % 8 ≡ 0 }
    ensures { first.new ++ blocks.new
        ≡ steps key.now (6 * (length blocks.old / 8)) (first.old ++ blocks.old) }
{
    let count = blocks.len() / 8;
    let mut a = u8x8::from_array(*first);
    for round in 0..6 {
        for i in 0..count {
            a = wrap_step(key, (count * round + i + 1) as u64, 8 * i, a, blocks);
        }
    }
    *first = a.to_array();
}

// Undoes the steps of all six rounds, the last one first.
pub(crate) fn unwrap_blocks(key: &AesKey, first: &mut [u8; 8], blocks: &mut [u8])
    requires { length blocks.old % 8 ≡ 0 }
    ensures undone { steps key.now (6 * (length blocks.old / 8)) (first.new ++ blocks.new)
        ≡ first.old ++ blocks.old }
    ensures key { IsKey key.now }
    ensures first { AreBytes (length first.new) first.new }
    ensures rest { AreBytes (length blocks.new) blocks.new }
{
    let ready = key.inverse();
    let count = blocks.len() / 8;
    let mut a = u8x8::from_array(*first);
    for round in (0..6).rev() {
        for i in (0..count).rev() {
            a = unwrap_step(&ready, (count * round + i + 1) as u64, 8 * i, a, blocks);
        }
    }
    *first = a.to_array();
}

// Does the steps of all six rounds on a register in one slice, A first.
pub(crate) fn wrap_register(key: &AesKey, bytes: &mut [u8])
    requires least { 8 ≤ length bytes.old }
    requires whole { length bytes.old % 8 ≡ 0 }
    ensures { bytes.new ≡ steps key.now (6 * ((length bytes.old - 8) / 8)) bytes.old }
{
    let mut first = first_eight(bytes);
    wrap_blocks(key, &mut first, &mut bytes[8..]);
    bytes[..8].copy_from_slice(&first);
}

// Undoes the steps of all six rounds on a register in one slice, A first.
pub(crate) fn unwrap_register(key: &AesKey, bytes: &mut [u8])
    requires least { 8 ≤ length bytes.old }
    requires whole { length bytes.old % 8 ≡ 0 }
    ensures undone { steps key.now (6 * ((length bytes.old - 8) / 8)) bytes.new ≡ bytes.old }
    ensures key { IsKey key.now }
    ensures bytes { AreBytes (length bytes.new) bytes.new }
{
    let mut first = first_eight(bytes);
    unwrap_blocks(key, &mut first, &mut bytes[8..]);
    bytes[..8].copy_from_slice(&first);
}
