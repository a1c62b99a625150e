//! Four or eight blocks of ChaCha20 at once (RFC 8439, 2.3): a vector for each word of the state, a lane for each block.
//! [`four_blocks`] is the public function.

ghost use Rattle.std.specs.Prelude.{◌≡◌, ℕ, ◌+◌, ◌/◌, ◌%◌, ◌^◌, ◌<◌, ◌≤◌, ◌∷◌, ◌++◌, [], List, length};
ghost use Rattle.std.specs.Prelude.{take, drop, slice_index, bit_xor};
ghost use Rattle.std.specs.Int.{w32, rotate_left};
ghost use Rattle.octets.specs.Bytes.{xor_bytes};
ghost use Rattle.octets.specs.Masked.{masked};
ghost use Rattle.chacha.specs.Block.{add_xor_rotate, double_rounds, added, serialized, initial_state, block};
ghost use Rattle.chacha.specs.Code.Lanes.{lane, AreStarts, HasBlocks, HasStarts};
ghost use Rattle.chacha.specs.Code.Rows.{four_from};
ghost use Rattle.chacha.specs.Code.Halves.{half_quarter, half_columns, half_diagonals};
ghost use Rattle.chacha.specs.Stream.{key_stream_byte};

use crate::state::initial_state;
use octets::{Key32, Nonce, Work, wide, xor_into};
use std::simd::{Simd, u8x32, u32x4, u32x8};

// The sums of the words, lane by lane.
#[inline(always)]
pub(crate) fn sum<const N: usize>(x: Simd<u32, N>, y: Simd<u32, N>) -> Simd<u32, N>
    ensures { (j : ℕ) → j < N
        → slice_index result j ≡ (slice_index x.entry j + slice_index y.entry j) % 2 ^ 32 }
{
    x + y
}

// The XORs of the words, rotated to the left by `n` bits.
#[inline(always)]
fn xor_rotated<const N: usize>(x: Simd<u32, N>, y: Simd<u32, N>, n: u32) -> Simd<u32, N>
    requires { (0 < n) × (n < 32) }
    ensures { (j : ℕ) → j < N → slice_index result j
        ≡ rotate_left w32 (bit_xor (slice_index x.entry j) (slice_index y.entry j)) n }
{
    let z = x ^ y;
    (z << Simd::splat(n)) | (z >> Simd::splat(32 - n))
}

// a += b; d ^= a; d <<<= n, in each lane.
#[inline(always)]
fn add_xor_rotate<const N: usize, const K: usize>(
    x: &mut [Simd<u32, N>; K],
    a: usize,
    b: usize,
    d: usize,
    n: u32,
)
    requires places { (a < K) × (b < K) × (d < K) }
    requires turn { (0 < n) × (n < 32) }
    ensures { (j : ℕ) → j < N → lane j x.new ≡ add_xor_rotate a b d n (lane j x.old) }
{
    let sum = sum(x[a], x[b]);
    let turned = xor_rotated(x[d], sum, n);
    x[a] = sum;
    x[d] = turned;
}

// Half of the quarter round in each lane: the first half, which rotates by 16 and 12, or the second, by 8 and 7.
#[inline(always)]
pub(crate) fn half_quarter<const N: usize>(x: &mut [Simd<u32, N>; 4], n: u32, m: u32)
    requires { (0 < n) × (n < 32) × (0 < m) × (m < 32) }
    ensures { (j : ℕ) → j < N → lane j x.new ≡ half_quarter n m (lane j x.old) }
{
    add_xor_rotate(x, 0, 1, 3, n);
    add_xor_rotate(x, 2, 3, 1, m);
}

// Half of the round of the columns in each lane: the first half, which rotates by 16 and 12, or the second, by 8 and 7. Each
// operation is done on all four quarter rounds before the next one, so that LLVM keeps 15 of the 16 words in registers.
#[inline(always)]
pub(crate) fn half_columns<const N: usize>(x: &mut [Simd<u32, N>; 16], n: u32, m: u32)
    requires { (0 < n) × (n < 32) × (0 < m) × (m < 32) }
    ensures { (j : ℕ) → j < N → lane j x.new ≡ half_columns n m (lane j x.old) }
{
    add_xor_rotate(x, 0, 4, 12, n);
    add_xor_rotate(x, 1, 5, 13, n);
    add_xor_rotate(x, 2, 6, 14, n);
    add_xor_rotate(x, 3, 7, 15, n);
    add_xor_rotate(x, 8, 12, 4, m);
    add_xor_rotate(x, 9, 13, 5, m);
    add_xor_rotate(x, 10, 14, 6, m);
    add_xor_rotate(x, 11, 15, 7, m);
}

// Half of the round of the diagonals in each lane: the first half, which rotates by 16 and 12, or the second, by 8 and 7.
#[inline(always)]
pub(crate) fn half_diagonals<const N: usize>(x: &mut [Simd<u32, N>; 16], n: u32, m: u32)
    requires { (0 < n) × (n < 32) × (0 < m) × (m < 32) }
    ensures { (j : ℕ) → j < N → lane j x.new ≡ half_diagonals n m (lane j x.old) }
{
    add_xor_rotate(x, 0, 5, 15, n);
    add_xor_rotate(x, 1, 6, 12, n);
    add_xor_rotate(x, 2, 7, 13, n);
    add_xor_rotate(x, 3, 4, 14, n);
    add_xor_rotate(x, 10, 15, 5, m);
    add_xor_rotate(x, 11, 12, 6, m);
    add_xor_rotate(x, 8, 13, 7, m);
    add_xor_rotate(x, 9, 14, 4, m);
}

// After the second half of a round a step of other work is done only if more steps than this are left. A run of four blocks has
// 40 places for a step, and about 16 steps to do. If the first places took them all, they would fill the processor there and
// leave it idle at the others. A run of eight blocks has 32 steps to do, and needs no reserve.
#[inline(always)]
pub(crate) fn reserve() -> usize {
    if wide() { 0 } else { 20 }
}

// Ten double rounds in halves of rounds, with a step of other work after each half. The steps are done on a copy, which stays in
// registers where a reference would not. A step is a branch, and so it keeps the halves of a round apart: in one basic block
// LLVM would make two shuffles of the rotation by 8, one for each side of the XOR before it.
#[inline(always)]
fn ten_rounds<const N: usize, W: Work>(x: &mut [Simd<u32, N>; 16], work: &mut W)
    ensures lanes { (j : ℕ) → j < N → lane j x.new ≡ double_rounds 10 (lane j x.old) }
    ensures work { (w : W) → W.reaches w work.old → W.reaches w work.new }
{
    let mut own = *work;
    'rounds: for _ in 0..10u32 {
        half_columns(x, 16, 12);
        own.step(0);
        half_columns(x, 8, 7);
        own.step(reserve());
        half_diagonals(x, 16, 12);
        own.step(0);
        half_diagonals(x, 8, 7);
        own.step(reserve());
    }
    *work = own;
}

// Adds the words of `start`.
#[inline(always)]
pub(crate) fn add<const N: usize>(x: &mut [Simd<u32, N>; 16], start: &[Simd<u32, N>; 16])
    ensures { (j : ℕ) → j < N → lane j x.new ≡ added (lane j x.old) (lane j start.now) }
{
    'words: for i in 0..16 {
        x[i] = sum(x[i], start[i]);
    }
}

// Sets each lane to the initial state of the block of its counter.
#[inline(always)]
pub(crate) fn set_starts<const N: usize>(
    x: &mut [Simd<u32, N>; 16],
    key: &Key32,
    counters: Simd<u32, N>,
    nonce: &Nonce,
)
    ensures { (j : ℕ) → j < N
        → lane j x.new ≡ initial_state key.now (slice_index counters.entry j) nonce.now }
{
    let state = initial_state(key, 0, nonce);
    'words: for i in 0..16 {
        x[i] = Simd::splat(state[i]);
    }
    x[12] = counters;
}

// Returns the words of the blocks that start from the states in the lanes, and adds the number of lanes to the counters in these
// states.
#[inline(always)]
pub(crate) fn next_blocks<const N: usize, W: Work>(
    start: &mut [Simd<u32, N>; 16],
    work: &mut W,
) -> [Simd<u32, N>; 16]
    requires { N < 2 ^ 32 }
    ensures blocks { (j : ℕ) → j < N → (key nonce : List ℕ) (n : ℕ) → lane j start.old ≡ initial_state key n nonce
        → serialized (lane j result) ≡ block key n nonce }
    ensures counts { (j : ℕ) → j < N → (key nonce : List ℕ) (n : ℕ) → lane j start.old ≡ initial_state key n nonce
        → lane j start.new ≡ initial_state key ((n + N) % 2 ^ 32) nonce }
    ensures work { (w : W) → W.reaches w work.old → W.reaches w work.new }
{
    let mut x = *start;
    ten_rounds(&mut x, work);
    add(&mut x, start);
    start[12] = sum(start[12], Simd::splat(N as u32));
    x
}

// Four counters, one in each lane.
#[inline(always)]
pub(crate) fn four_counters(counter: u32) -> u32x4
    requires { counter + 3 < 2 ^ 32 }
    ensures { (j : ℕ) → j < 4 → slice_index result j ≡ counter + j }
{
    u32x4::from_array([counter, counter + 1, counter + 2, counter + 3])
}

/// Sets the states from which the blocks with the counters `counter` to `counter + 3` start (RFC 8439, 2.3), one in each
/// lane, for [`four_blocks`]. As for [`crate::ChaStream::new`], a nonce must never be used twice under one key. The caller shows
/// that the last counter is below 2^32.
#[inline(always)]
pub fn set_four_starts(start: &mut [u32x4; 16], key: &Key32, counter: u32, nonce: &Nonce)
    requires { counter + 3 < 2 ^ 32 }
    ensures { HasStarts 4 start.new key.now counter nonce.now }
{
    set_starts(start, key, four_counters(counter), nonce);
}

/// Returns the words of four blocks at once (RFC 8439, 2.3): vector i has word i of each block, and lane j has the block with the
/// counter `counter + j`, if `start` has the states from which these blocks start, as [`set_four_starts`] sets them. Afterwards
/// `start` has the states of the next four, so a long text sets them once. Steps of `work` are done at the same time.
///
/// The caller shows that the last of the four counters is below 2^32, so that no block past counter 2^32 - 1 is computed.
#[inline(always)]
pub fn four_blocks<W: Work>(start: &mut [u32x4; 16], work: &mut W) -> [u32x4; 16]
    requires { AreStarts 4 start.old }
    ensures blocks { (key nonce : List ℕ) (counter : ℕ) → HasStarts 4 start.old key counter nonce
        → counter + 3 < 2 ^ 32 → HasBlocks 4 result key counter nonce }
    ensures next { (key nonce : List ℕ) (counter : ℕ) → HasStarts 4 start.old key counter nonce
        → HasStarts 4 start.new key (counter + 4) nonce }
    ensures work { (w : W) → W.reaches w work.old → W.reaches w work.new }
{
    next_blocks(start, work)
}

// Eight counters, one in each lane.
#[inline(always)]
pub(crate) fn eight_counters(counter: u32) -> u32x8
    requires { counter + 7 < 2 ^ 32 }
    ensures { (j : ℕ) → j < 8 → slice_index result j ≡ counter + j }
{
    u32x8::from_array([
        counter,
        counter + 1,
        counter + 2,
        counter + 3,
        counter + 4,
        counter + 5,
        counter + 6,
        counter + 7,
    ])
}

// The first four lanes of both vectors.
#[inline(always)]
pub(crate) fn low_halves(a: u32x8, b: u32x8) -> u32x8
    ensures { result ≡ four_from 0 a ++ four_from 0 b }
{
    a.shuffle(b, [0, 1, 2, 3, 8, 9, 10, 11])
}

// The last four lanes of both vectors.
#[inline(always)]
pub(crate) fn high_halves(a: u32x8, b: u32x8) -> u32x8
    ensures { result ≡ four_from 4 a ++ four_from 4 b }
{
    a.shuffle(b, [4, 5, 6, 7, 12, 13, 14, 15])
}

// Lane j of the four vectors becomes vector j.
#[inline(always)]
fn transposed(a: u32x4, b: u32x4, c: u32x4, d: u32x4) -> (u32x4, u32x4, u32x4, u32x4)
    ensures first { result.0 ≡ slice_index a 0 ∷ slice_index b 0 ∷ slice_index c 0 ∷ slice_index d 0 ∷ [] }
    ensures second { result.1 ≡ slice_index a 1 ∷ slice_index b 1 ∷ slice_index c 1 ∷ slice_index d 1 ∷ [] }
    ensures third { result.2 ≡ slice_index a 2 ∷ slice_index b 2 ∷ slice_index c 2 ∷ slice_index d 2 ∷ [] }
    ensures fourth { result.3 ≡ slice_index a 3 ∷ slice_index b 3 ∷ slice_index c 3 ∷ slice_index d 3 ∷ [] }
{
    let (ac_low, ac_high) = a.interleave(c);
    let (bd_low, bd_high) = b.interleave(d);
    let (first, second) = ac_low.interleave(bd_low);
    let (third, fourth) = ac_high.interleave(bd_high);
    (first, second, third, fourth)
}

// The first two words of both vectors in turn, in each half of the lanes.
#[inline(always)]
fn low_words(a: u32x8, b: u32x8) -> u32x8
    ensures { result ≡ slice_index a 0 ∷ slice_index b 0 ∷ slice_index a 1 ∷ slice_index b 1
        ∷ slice_index a 4 ∷ slice_index b 4 ∷ slice_index a 5 ∷ slice_index b 5 ∷ [] }
{
    a.shuffle(b, [0, 8, 1, 9, 4, 12, 5, 13])
}

// The last two words of both vectors in turn, in each half of the lanes.
#[inline(always)]
fn high_words(a: u32x8, b: u32x8) -> u32x8
    ensures { result ≡ slice_index a 2 ∷ slice_index b 2 ∷ slice_index a 3 ∷ slice_index b 3
        ∷ slice_index a 6 ∷ slice_index b 6 ∷ slice_index a 7 ∷ slice_index b 7 ∷ [] }
{
    a.shuffle(b, [2, 10, 3, 11, 6, 14, 7, 15])
}

// Lanes j and 4 + j of the four vectors become vector j: processors with vectors of 32 bytes move words within each
// half of one.
#[inline(always)]
fn transposed_halves(a: u32x8, b: u32x8, c: u32x8, d: u32x8) -> (u32x8, u32x8, u32x8, u32x8)
    ensures first { result.0 ≡ slice_index a 0 ∷ slice_index b 0 ∷ slice_index c 0 ∷ slice_index d 0
        ∷ slice_index a 4 ∷ slice_index b 4 ∷ slice_index c 4 ∷ slice_index d 4 ∷ [] }
    ensures second { result.1 ≡ slice_index a 1 ∷ slice_index b 1 ∷ slice_index c 1 ∷ slice_index d 1
        ∷ slice_index a 5 ∷ slice_index b 5 ∷ slice_index c 5 ∷ slice_index d 5 ∷ [] }
    ensures third { result.2 ≡ slice_index a 2 ∷ slice_index b 2 ∷ slice_index c 2 ∷ slice_index d 2
        ∷ slice_index a 6 ∷ slice_index b 6 ∷ slice_index c 6 ∷ slice_index d 6 ∷ [] }
    ensures fourth { result.3 ≡ slice_index a 3 ∷ slice_index b 3 ∷ slice_index c 3 ∷ slice_index d 3
        ∷ slice_index a 7 ∷ slice_index b 7 ∷ slice_index c 7 ∷ slice_index d 7 ∷ [] }
{
    let (ac_low, ac_high) = (low_words(a, c), high_words(a, c));
    let (bd_low, bd_high) = (low_words(b, d), high_words(b, d));
    (
        low_words(ac_low, bd_low),
        high_words(ac_low, bd_low),
        low_words(ac_high, bd_high),
        high_words(ac_high, bd_high),
    )
}

// The words of the lanes, each with its lowest byte first.
#[inline(always)]
pub(crate) fn bytes_of(lanes: u32x4) -> [u8; 16]
    ensures { result ≡ serialized lanes }
{
    lanes.to_le_bytes().to_array()
}

// XORs four words, serialized, into the 16 bytes that start at offset `at`.
#[inline(always)]
fn xor_at(bytes: &mut [u8], at: usize, words: u32x4)
    requires { at + 16 ≤ length bytes.old }
    ensures { bytes.new ≡ take at bytes.old ++ xor_bytes (take 16 (drop at bytes.old)) (serialized words)
        ++ drop (at + 16) bytes.old }
{
    xor_into(&mut bytes[at..at + 16], &bytes_of(words));
}

// The words of eight lanes, each with its lowest byte first.
#[inline(always)]
pub(crate) fn bytes_of_eight(lanes: u32x8) -> u8x32
    ensures { result ≡ serialized lanes }
{
    lanes.to_le_bytes()
}

// XORs 32 bytes into 32 others at once.
#[inline(always)]
pub(crate) fn xor_thirty_two(bytes: &mut [u8], by: u8x32)
    requires { length bytes.old ≡ 32 }
    ensures { bytes.new ≡ xor_bytes bytes.old by }
{
    let sum = Simd::from_slice(bytes) ^ by;
    sum.copy_to_slice(bytes);
}

// XORs eight words, serialized, into the 32 bytes that start at offset `at`.
#[inline(always)]
fn xor_eight_at(bytes: &mut [u8], at: usize, words: u32x8)
    requires { at + 32 ≤ length bytes.old }
    ensures { bytes.new ≡ take at bytes.old ++ xor_bytes (take 32 (drop at bytes.old)) (serialized words)
        ++ drop (at + 32) bytes.old }
{
    xor_thirty_two(&mut bytes[at..at + 32], bytes_of_eight(words));
}

// XORs the words of each lane, serialized, into the block of bytes of that lane.
#[inline(always)]
fn xor_lanes(
    x: &[u32x4; 16],
    first: &mut [u8],
    second: &mut [u8],
    third: &mut [u8],
    fourth: &mut [u8],
)
    requires front { (length first.old ≡ 64) × (length second.old ≡ 64) }
    requires back { (length third.old ≡ 64) × (length fourth.old ≡ 64) }
    ensures first { first.new ≡ xor_bytes first.old (serialized (lane 0 x.now)) }
    ensures second { second.new ≡ xor_bytes second.old (serialized (lane 1 x.now)) }
    ensures third { third.new ≡ xor_bytes third.old (serialized (lane 2 x.now)) }
    ensures fourth { fourth.new ≡ xor_bytes fourth.old (serialized (lane 3 x.now)) }
{
    'quads: for q in 0..4 {
        let (a, b, c, d) = transposed(x[4 * q], x[4 * q + 1], x[4 * q + 2], x[4 * q + 3]);
        xor_at(first, 16 * q, a);
        xor_at(second, 16 * q, b);
        xor_at(third, 16 * q, c);
        xor_at(fourth, 16 * q, d);
    }
}

// XORs the words of the lanes, serialized one lane after the other, into 256 bytes.
#[inline(always)]
pub(crate) fn xor_serialized(x: &[u32x4; 16], bytes: &mut [u8])
    requires { length bytes.old ≡ 256 }
    ensures { (key nonce : List ℕ) (counter : ℕ) → HasBlocks 4 x.now key counter nonce
        → bytes.new ≡ masked (key_stream_byte key nonce counter) 0 bytes.old }
{
    let (front, back) = bytes.split_at_mut(128);
    let (first, second) = front.split_at_mut(64);
    let (third, fourth) = back.split_at_mut(64);
    xor_lanes(x, first, second, third, fourth);
}

// XORs the words of each of eight lanes, serialized, into the block of bytes of that lane.
#[inline(always)]
fn xor_eight_lanes(
    x: &[u32x8; 16],
    first: &mut [u8],
    second: &mut [u8],
    third: &mut [u8],
    fourth: &mut [u8],
    fifth: &mut [u8],
    sixth: &mut [u8],
    seventh: &mut [u8],
    eighth: &mut [u8],
)
    requires front { (length first.old ≡ 64) × (length second.old ≡ 64) × (length third.old ≡ 64)
        × (length fourth.old ≡ 64) }
    requires back { (length fifth.old ≡ 64) × (length sixth.old ≡ 64) × (length seventh.old ≡ 64)
        × (length eighth.old ≡ 64) }
    ensures first { first.new ≡ xor_bytes first.old (serialized (lane 0 x.now)) }
    ensures second { second.new ≡ xor_bytes second.old (serialized (lane 1 x.now)) }
    ensures third { third.new ≡ xor_bytes third.old (serialized (lane 2 x.now)) }
    ensures fourth { fourth.new ≡ xor_bytes fourth.old (serialized (lane 3 x.now)) }
    ensures fifth { fifth.new ≡ xor_bytes fifth.old (serialized (lane 4 x.now)) }
    ensures sixth { sixth.new ≡ xor_bytes sixth.old (serialized (lane 5 x.now)) }
    ensures seventh { seventh.new ≡ xor_bytes seventh.old (serialized (lane 6 x.now)) }
    ensures eighth { eighth.new ≡ xor_bytes eighth.old (serialized (lane 7 x.now)) }
{
    'eights: for q in 0..2 {
        let (a, b, c, d) = transposed_halves(x[8 * q], x[8 * q + 1], x[8 * q + 2], x[8 * q + 3]);
        let (e, f, g, h) = transposed_halves(
            x[8 * q + 4],
            x[8 * q + 5],
            x[8 * q + 6],
            x[8 * q + 7],
        );
        xor_eight_at(first, 32 * q, low_halves(a, e));
        xor_eight_at(second, 32 * q, low_halves(b, f));
        xor_eight_at(third, 32 * q, low_halves(c, g));
        xor_eight_at(fourth, 32 * q, low_halves(d, h));
        xor_eight_at(fifth, 32 * q, high_halves(a, e));
        xor_eight_at(sixth, 32 * q, high_halves(b, f));
        xor_eight_at(seventh, 32 * q, high_halves(c, g));
        xor_eight_at(eighth, 32 * q, high_halves(d, h));
    }
}

// XORs the words of eight lanes, serialized one lane after the other, into twice 256 bytes.
#[inline(always)]
pub(crate) fn xor_halves(x: &[u32x8; 16], front: &mut [u8], back: &mut [u8])
    requires front { length front.old ≡ 256 }
    requires back { length back.old ≡ 256 }
    ensures front { (key nonce : List ℕ) (counter : ℕ) → HasBlocks 8 x.now key counter nonce
        → front.new ≡ masked (key_stream_byte key nonce counter) 0 front.old }
    ensures back { (key nonce : List ℕ) (counter : ℕ) → HasBlocks 8 x.now key counter nonce
        → back.new ≡ masked (key_stream_byte key nonce (counter + 4)) 0 back.old }
{
    let (front_low, front_high) = front.split_at_mut(128);
    let (first, second) = front_low.split_at_mut(64);
    let (third, fourth) = front_high.split_at_mut(64);
    let (back_low, back_high) = back.split_at_mut(128);
    let (fifth, sixth) = back_low.split_at_mut(64);
    let (seventh, eighth) = back_high.split_at_mut(64);
    xor_eight_lanes(
        x, first, second, third, fourth, fifth, sixth, seventh, eighth,
    );
}

// XORs the words of eight lanes, serialized one lane after the other, into 512 bytes.
#[inline(always)]
pub(crate) fn xor_eight_serialized(x: &[u32x8; 16], bytes: &mut [u8])
    requires { length bytes.old ≡ 512 }
    ensures { (key nonce : List ℕ) (counter : ℕ) → HasBlocks 8 x.now key counter nonce
        → bytes.new ≡ masked (key_stream_byte key nonce counter) 0 bytes.old }
{
    let (front, back) = bytes.split_at_mut(256);
    xor_halves(x, front, back);
}
