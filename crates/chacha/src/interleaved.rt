//! The key stream of ChaCha20 (RFC 8439, 2.4), XORed into a text, interleaved with a hash of the same text: first the whole runs of
//! the text, and then the rest.

ghost use Rattle.std.specs.Prelude.{◌≡◌, ℕ, ◌+◌, ◌-◌, ◌*◌, ◌/◌, ◌%◌, ◌^◌, ◌<◌, ◌≤◌};
ghost use Rattle.std.specs.Prelude.{◌++◌, [], List, length, take, drop};
ghost use Rattle.octets.specs.Ends.{whole_blocks};
ghost use Rattle.octets.specs.Masked.{masked};
ghost use Rattle.chacha.specs.Stream.{key_stream_byte};

use crate::plan::{has_run_of_eight, has_run_of_four};
use crate::runs::{hash_then_mask, mask_then_hash};
use crate::stream::xor_stream;
use octets::{BlockWork, Idle, Interleaved, Key32, Nonce};
use std::simd::{u32x4, u32x8};

// XORs whole runs of the key stream from an offset on into the bytes after the first `begun`, while `hash` takes in bytes that
// are masked, from the first on. Returns the number of bytes before the first that is not masked, and how many of them are
// hashed. If the offset is inside a block, there is no run.
fn mask_runs<W: BlockWork>(
    key: &Key32,
    nonce: &Nonce,
    offset: u64,
    bytes: &mut [u8],
    begun: usize,
    hash: &mut W,
) -> (usize, usize)
    requires begun { begun ≤ length bytes.old }
    requires within { offset + (length bytes.old - begun) ≤ 2 ^ 38 }
    ensures done { (begun ≤ result.0) × (result.0 ≤ length bytes.old) × ((result.0 - begun) % 64 ≡ 0) }
    ensures taken { (result.1 ≤ result.0) × (result.1 % 16 ≡ 0) }
    ensures masked { let rest = drop begun bytes.old in let n = result.0 - begun in
        bytes.new ≡ take begun bytes.old
        ++ (masked (key_stream_byte key.now nonce.now 0) offset (take n rest) ++ drop n rest) }
    ensures hashed { let before = take result.0 bytes.new in
        (k m : List ℕ) → W.comes_to hash.old [] k m → W.comes_to hash.new (drop result.1 before) k (m ++ before) }
{
    let left = bytes.len() - begun;
    let skip = (offset % 64) as usize;
    if has_run_of_eight(skip, left) {
        return mask_then_hash::<[u32x8; 16], W>(
            key,
            (offset / 64) as u32,
            nonce,
            bytes,
            begun,
            hash,
        );
    }
    if has_run_of_four(skip, left) {
        return mask_then_hash::<[u32x4; 16], W>(
            key,
            (offset / 64) as u32,
            nonce,
            bytes,
            begun,
            hash,
        );
    }
    (begun, 0)
}

// XORs the key stream from an offset on into the bytes after the first `done`, while `hash` takes in the bytes after the first
// `taken`, as far as they are whole blocks, each after it is masked. Both numbers are of whole blocks of 16 bytes.
fn mask_last<W: BlockWork>(
    key: &Key32,
    nonce: &Nonce,
    offset: u64,
    bytes: &mut [u8],
    done: usize,
    taken: usize,
    hash: &mut W,
)
    requires done { (done ≤ length bytes.old) × (done % 16 ≡ 0) }
    requires taken { (taken ≤ done) × (taken % 16 ≡ 0) }
    requires within { offset + (length bytes.old - done) ≤ 2 ^ 38 }
    ensures masked { bytes.new ≡ take done bytes.old
        ++ masked (key_stream_byte key.now nonce.now 0) offset (drop done bytes.old) }
    ensures hashed { let before = take done bytes.old in
        (k m : List ℕ) → W.comes_to hash.old (drop taken before) k (m ++ before)
        → W.comes_to hash.new [] k (m ++ whole_blocks bytes.new) }
{
    let (before, after) = bytes.split_at_mut(done);
    let mut interleaved = Interleaved {
        hash: *hash,
        left: &before[taken..],
    };
    xor_stream(key, nonce, offset, after, &mut interleaved);
    *hash = interleaved.hash;
    let left = done - interleaved.left.len();
    let whole = bytes.len() / 16 * 16;
    hash.take_all(&bytes[left..whole]);
}

// XORs the key stream from an offset on into the bytes after the first `begun`, and then hashes the whole blocks of all bytes.
fn mask_plainly<W: BlockWork>(
    key: &Key32,
    nonce: &Nonce,
    offset: u64,
    bytes: &mut [u8],
    begun: usize,
    hash: &mut W,
)
    requires begun { begun ≤ length bytes.old }
    requires within { offset + (length bytes.old - begun) ≤ 2 ^ 38 }
    ensures masked { bytes.new ≡ take begun bytes.old
        ++ masked (key_stream_byte key.now nonce.now 0) offset (drop begun bytes.old) }
    ensures hashed { (k m : List ℕ) → W.comes_to hash.old [] k m
        → W.comes_to hash.new [] k (m ++ whole_blocks bytes.new) }
{
    let (_, after) = bytes.split_at_mut(begun);
    xor_stream(key, nonce, offset, after, &mut Idle::new());
    let whole = bytes.len() / 16 * 16;
    hash.take_all(&bytes[..whole]);
}

// XORs the key stream from an offset on into the bytes after the first `begun`, while `hash` takes in the whole blocks of all
// bytes, each byte after it is masked.
pub(crate) fn mask_interleaved<W: BlockWork>(
    key: &Key32,
    nonce: &Nonce,
    offset: u64,
    bytes: &mut [u8],
    begun: usize,
    hash: &mut W,
)
    requires begun { begun ≤ length bytes.old }
    requires within { offset + (length bytes.old - begun) ≤ 2 ^ 38 }
    ensures masked { bytes.new ≡ take begun bytes.old
        ++ masked (key_stream_byte key.now nonce.now 0) offset (drop begun bytes.old) }
    ensures hashed { (k m : List ℕ) → W.comes_to hash.old [] k m
        → W.comes_to hash.new [] k (m ++ whole_blocks bytes.new) }
{
    if begun % 16 != 0 {
        mask_plainly(key, nonce, offset, bytes, begun, hash);
        return;
    }
    let (done, taken) = mask_runs(key, nonce, offset, bytes, begun, hash);
    mask_last(
        key,
        nonce,
        offset + (done - begun) as u64,
        bytes,
        done,
        taken,
        hash,
    );
}

// XORs whole runs of the key stream from an offset on into the bytes, while `hash` takes in the bytes of the runs, each before it
// is masked. Returns the length of the runs in bytes. If the offset is inside a block, there is no run.
fn hash_runs<W: BlockWork>(
    key: &Key32,
    nonce: &Nonce,
    offset: u64,
    bytes: &mut [u8],
    hash: &mut W,
) -> usize
    requires within { offset + length bytes.old ≤ 2 ^ 38 }
    ensures done { (result ≤ length bytes.old) × (result % 64 ≡ 0) }
    ensures masked { bytes.new ≡ masked (key_stream_byte key.now nonce.now 0) offset (take result bytes.old)
        ++ drop result bytes.old }
    ensures hashed { (k m : List ℕ) → W.comes_to hash.old [] k m
        → W.comes_to hash.new [] k (m ++ take result bytes.old) }
{
    let skip = (offset % 64) as usize;
    if has_run_of_eight(skip, bytes.len()) {
        return hash_then_mask::<[u32x8; 16], W>(key, (offset / 64) as u32, nonce, bytes, hash);
    }
    if has_run_of_four(skip, bytes.len()) {
        return hash_then_mask::<[u32x4; 16], W>(key, (offset / 64) as u32, nonce, bytes, hash);
    }
    0
}

// Hashes the whole blocks of the bytes, and then XORs the key stream from an offset on into the bytes.
fn hash_last<W: BlockWork>(key: &Key32, nonce: &Nonce, offset: u64, bytes: &mut [u8], hash: &mut W)
    requires within { offset + length bytes.old ≤ 2 ^ 38 }
    ensures masked { bytes.new ≡ masked (key_stream_byte key.now nonce.now 0) offset bytes.old }
    ensures hashed { (k m : List ℕ) → W.comes_to hash.old [] k m
        → W.comes_to hash.new [] k (m ++ whole_blocks bytes.old) }
{
    let whole = bytes.len() / 16 * 16;
    hash.take_all(&bytes[..whole]);
    xor_stream(key, nonce, offset, bytes, &mut Idle::new());
}

// XORs the key stream from an offset on into the bytes, while `hash` takes in their whole blocks, each byte before it is masked.
pub(crate) fn hash_interleaved<W: BlockWork>(
    key: &Key32,
    nonce: &Nonce,
    offset: u64,
    bytes: &mut [u8],
    hash: &mut W,
)
    requires within { offset + length bytes.old ≤ 2 ^ 38 }
    ensures masked { bytes.new ≡ masked (key_stream_byte key.now nonce.now 0) offset bytes.old }
    ensures hashed { (k m : List ℕ) → W.comes_to hash.old [] k m
        → W.comes_to hash.new [] k (m ++ whole_blocks bytes.old) }
{
    let done = hash_runs(key, nonce, offset, bytes, hash);
    let (_, after) = bytes.split_at_mut(done);
    hash_last(key, nonce, offset + done as u64, after, hash);
}
