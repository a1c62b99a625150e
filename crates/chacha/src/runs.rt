//! Whole runs of blocks of ChaCha20 (RFC 8439, 2.4), alone or interleaved with a hash of the same text: a sealing hashes the bytes
//! after they are masked, an opening before.

ghost use Rattle.std.specs.Prelude.{◌≡◌, ℕ, ◌+◌, ◌-◌, ◌/◌, ◌%◌, ◌^◌, ◌<◌, ◌≤◌, ◌++◌, [], List, length, take, drop};
ghost use Rattle.octets.specs.Masked.{masked};
ghost use Rattle.chacha.specs.Code.Lanes.{HasBlocks, HasStarts, four_size, eight_size};
ghost use Rattle.chacha.specs.Stream.{key_stream_byte};

use crate::lanes::{
    eight_counters, four_blocks, next_blocks, set_four_starts, set_starts, xor_eight_serialized,
    xor_halves, xor_serialized,
};
use octets::{BlockWork, Interleaved, Key32, Nonce, Work};
use std::simd::{u32x4, u32x8};

// Blocks that are computed side by side, one in each lane: the states from which they start, or their words.
pub(crate) trait Run: Copy {
    // It has the states from which the blocks with the counters `counter`, `counter + 1` and so on start.
    ghost starts: { Self → (key : List ℕ) → (counter : ℕ) → (nonce : List ℕ) → Type 0 };

    // It has the words of the blocks with the counters `counter`, `counter + 1` and so on.
    ghost blocks: { Self → (key : List ℕ) → (counter : ℕ) → (nonce : List ℕ) → Type 0 };

    // The length in bytes of its blocks.
    ghost SIZE: { ℕ };

    const SIZE: usize;

    // Returns the states from which the blocks with the counters `counter`, `counter + 1` and so on start.
    fn starts_at(key: &Key32, counter: u32, nonce: &Nonce) -> Self
        requires { counter + SIZE / 64 ≤ 2 ^ 32 }
        ensures { starts result key.now counter nonce.now };

    // Returns the words of the blocks that start from these states, and offers places for steps of other work. Afterwards the
    // states are those of the next blocks.
    fn next<W: Work>(&mut self, work: &mut W) -> Self
        requires { (key : List ℕ) × ((nonce : List ℕ) × ((counter : ℕ)
            × ((counter + SIZE / 64 ≤ 2 ^ 32) × starts self.old key counter nonce))) }
        ensures made { (key nonce : List ℕ) (counter : ℕ) → starts self.old key counter nonce
            → counter + SIZE / 64 ≤ 2 ^ 32 → blocks result key counter nonce }
        ensures next { (key nonce : List ℕ) (counter : ℕ) → starts self.old key counter nonce
            → starts self.new key (counter + SIZE / 64) nonce }
        ensures work { (w : W) → W.reaches w work.old → W.reaches w work.new };

    // XORs the blocks with these words, serialized one after the other, into bytes of the same length.
    fn xor_serialized(&self, bytes: &mut [u8])
        requires { length bytes.old ≡ SIZE }
        ensures { (key nonce : List ℕ) (counter : ℕ) → blocks self.now key counter nonce
            → bytes.new ≡ masked (key_stream_byte key nonce counter) 0 bytes.old };

    // A run is at least one block, and has whole blocks.
    ghost whole: { (0 < SIZE) × (SIZE % 64 ≡ 0) };
}

impl Run for [u32x4; 16] {
    ghost starts = { HasStarts 4 };

    ghost blocks = { HasBlocks 4 };

    ghost SIZE = { 256 };

    const SIZE: usize = 256;

    ghost whole = { four_size };

    #[inline(always)]
    fn starts_at(key: &Key32, counter: u32, nonce: &Nonce) -> [u32x4; 16] {
        let mut start = [u32x4::splat(0); 16];
        set_four_starts(&mut start, key, counter, nonce);
        start
    }

    #[inline(always)]
    fn next<W: Work>(&mut self, work: &mut W) -> [u32x4; 16] {
        four_blocks(self, work)
    }

    #[inline(always)]
    fn xor_serialized(&self, bytes: &mut [u8]) {
        xor_serialized(self, bytes);
    }
}

impl Run for [u32x8; 16] {
    ghost starts = { HasStarts 8 };

    ghost blocks = { HasBlocks 8 };

    ghost SIZE = { 512 };

    const SIZE: usize = 512;

    ghost whole = { eight_size };

    #[inline(always)]
    fn starts_at(key: &Key32, counter: u32, nonce: &Nonce) -> [u32x8; 16] {
        let mut start = [u32x8::splat(0); 16];
        set_starts(&mut start, key, eight_counters(counter), nonce);
        start
    }

    #[inline(always)]
    fn next<W: Work>(&mut self, work: &mut W) -> [u32x8; 16] {
        next_blocks(self, work)
    }

    #[inline(always)]
    fn xor_serialized(&self, bytes: &mut [u8]) {
        xor_eight_serialized(self, bytes);
    }
}

// XORs the key stream from a counter on into bytes that are whole runs, and offers 40 places for steps of other work in each. The
// states from which blocks start are set once. It is a separate function, since its frame would slow down the other forms.
#[inline(never)]
pub(crate) fn xor_runs<R: Run, W: Work>(
    key: &Key32,
    counter: u32,
    nonce: &Nonce,
    bytes: &mut [u8],
    work: &mut W,
)
    requires some { R.SIZE ≤ length bytes.old }
    requires whole { length bytes.old % R.SIZE ≡ 0 }
    requires counters { counter + length bytes.old / 64 ≤ 2 ^ 32 }
    ensures masked { bytes.new ≡ masked (key_stream_byte key.now nonce.now counter) 0 bytes.old }
    ensures work { (w : W) → W.reaches w work.old → W.reaches w work.new }
{
    let size = R::SIZE;
    let mut own = *work;
    let mut start = R::starts_at(key, counter, nonce);
    let mut done = 0;
    'runs: while bytes.len() - done >= size {
        let x = start.next(&mut own);
        x.xor_serialized(&mut bytes[done..done + size]);
        done += size;
    }
    *work = own;
}

// XORs the first 512 bytes of the key stream from a counter on into twice 256 bytes, and offers 40 places for steps of other
// work. It is a separate function, since inlining it would slow down the other widths.
#[inline(never)]
pub(crate) fn xor_eight<W: Work>(
    key: &Key32,
    counter: u32,
    nonce: &Nonce,
    front: &mut [u8],
    back: &mut [u8],
    work: &mut W,
)
    requires counters { counter + 8 ≤ 2 ^ 32 }
    requires front { length front.old ≡ 256 }
    requires back { length back.old ≡ 256 }
    ensures front { front.new ≡ masked (key_stream_byte key.now nonce.now counter) 0 front.old }
    ensures back { back.new ≡ masked (key_stream_byte key.now nonce.now (counter + 4)) 0 back.old }
    ensures work { (w : W) → W.reaches w work.old → W.reaches w work.new }
{
    let mut start = <[u32x8; 16]>::starts_at(key, counter, nonce);
    let x = start.next(work);
    xor_halves(&x, front, back);
}

// XORs the key stream from a counter on into all whole runs of the bytes after the first `begun`. `hash` takes in the bytes from
// the first on: while a run is computed, bytes before that run, which are masked. Returns the number of bytes before the first
// that is not masked, and how many of them are hashed.
#[inline(never)]
pub(crate) fn mask_then_hash<R: Run, W: BlockWork>(
    key: &Key32,
    counter: u32,
    nonce: &Nonce,
    bytes: &mut [u8],
    begun: usize,
    hash: &mut W,
) -> (usize, usize)
    requires some { begun + R.SIZE ≤ length bytes.old }
    requires counters { counter + (length bytes.old - begun) / 64 ≤ 2 ^ 32 }
    ensures done { (begun ≤ result.0) × (result.0 ≤ length bytes.old) × ((result.0 - begun) % 64 ≡ 0) }
    ensures taken { (result.1 ≤ result.0) × (result.1 % 16 ≡ 0) }
    ensures masked { let rest = drop begun bytes.old in let n = result.0 - begun in
        bytes.new ≡ take begun bytes.old
        ++ (masked (key_stream_byte key.now nonce.now counter) 0 (take n rest) ++ drop n rest) }
    ensures hashed { let before = take result.0 bytes.new in
        (k m : List ℕ) → W.comes_to hash.old [] k m → W.comes_to hash.new (drop result.1 before) k (m ++ before) }
{
    let size = R::SIZE;
    let mut own = *hash;
    let mut start = R::starts_at(key, counter, nonce);
    let mut taken = 0;
    let mut done = begun;
    'runs: while bytes.len() - done >= size {
        let (before, after) = bytes.split_at_mut(done);
        let mut interleaved = Interleaved {
            hash: own,
            left: &before[taken..],
        };
        let x = start.next(&mut interleaved);
        own = interleaved.hash;
        taken = done - interleaved.left.len();
        x.xor_serialized(&mut after[..size]);
        done += size;
    }
    *hash = own;
    (done, taken)
}

// XORs the key stream from a counter on into all whole runs of the bytes. `hash` takes in each run while its blocks are
// computed, before they are XORed in. Returns the length of the runs in bytes.
#[inline(never)]
pub(crate) fn hash_then_mask<R: Run, W: BlockWork>(
    key: &Key32,
    counter: u32,
    nonce: &Nonce,
    bytes: &mut [u8],
    hash: &mut W,
) -> usize
    requires some { R.SIZE ≤ length bytes.old }
    requires counters { counter + length bytes.old / 64 ≤ 2 ^ 32 }
    ensures done { result ≤ length bytes.old }
    ensures whole { result % 64 ≡ 0 }
    ensures masked { bytes.new ≡ masked (key_stream_byte key.now nonce.now counter) 0 (take result bytes.old)
        ++ drop result bytes.old }
    ensures hashed { (k m : List ℕ) → W.comes_to hash.old [] k m
        → W.comes_to hash.new [] k (m ++ take result bytes.old) }
{
    let size = R::SIZE;
    let mut own = *hash;
    let mut start = R::starts_at(key, counter, nonce);
    let mut done = 0;
    'runs: while bytes.len() - done >= size {
        let mut interleaved = Interleaved {
            hash: own,
            left: &bytes[done..done + size],
        };
        let x = start.next(&mut interleaved);
        own = interleaved.hash;
        own.take_all(interleaved.left);
        x.xor_serialized(&mut bytes[done..done + size]);
        done += size;
    }
    *hash = own;
    done
}
