//! Readings of a file.
ghost use Rattle.std.specs.Prelude.{◌≡◌, ◌⊎◌, true, Some, IfOk, IfErr, IfSome, MatchResult};
ghost use Rattle.std.specs.Io.KnownBytes.{Keeps, IsAtEnd, prepend_known};
ghost use Rattle.octets.specs.declared.fault.Fault.TheVariants.{OutOfMemory, Read as OfRead};
ghost use Rattle.command.specs.Blames.{InputMayFail, MayFail};

use crate::failure::fault_of;
use crate::storage::Storage;
use octets::{Fault, Intake, fill};
use std::alloc::Allocator;

// How many bytes are taken at a time when a whole file is read.
const CHUNK: usize = 65536;

// Opens a file for a reading. `Read` if it can't be opened, `OutOfMemory` if an allocation fails.
pub(crate) fn reading<F: Storage>(files: &F, path: &str, reading: u8) -> Result<F::Input, Fault>
    ensures { MatchResult result
        (λ input. IfSome (F.contents files.now path.now reading) (λ bytes. F.Input.left input ≡ Some bytes))
        (λ e. ((e ≡ OfRead) × (F.open_may_fail files.now path.now reading ≡ true)) ⊎ (e ≡ OutOfMemory)) }
{
    match files.open(path, reading) {
        Ok(input) => Ok(input),
        Err(error) => Err(fault_of(&error, Fault::Read)),
    }
}

// Takes a chunk and appends it to the bytes taken so far. Returns whether it was the last.
fn take_chunk<A: Allocator, I: Intake>(
    input: &mut I,
    chunk: &mut [u8],
    bytes: &mut Vec<u8, A>,
) -> Result<bool, Fault>
    ensures taken { IfOk result (λ _. Keeps (prepend_known bytes.old.items (I.left input.old))
        (prepend_known bytes.new.items (I.left input.new))) }
    ensures all { IfOk result (λ is_last. is_last ≡ true → IsAtEnd (I.left input.new)) }
    ensures blame { IfErr result (λ e. ((e ≡ OfRead) × ∥ MayFail I.failures ∥₁) ⊎ (e ≡ OutOfMemory)) }
{
    let n = match fill(input, chunk) {
        Ok(n) => n,
        Err(_) => return Err(Fault::Read),
    };
    bytes.extend_from_slice(&chunk[..n])?;
    Ok(n < chunk.len())
}

// Takes all bytes that are left. `Read` if the device fails, `OutOfMemory` if an allocation fails. No vector holds 2^64 chunks,
// so the loop always returns before its end.
fn take_all<'a, A: Allocator, I: Intake>(
    alloc: &'a A,
    input: &mut I,
) -> Result<Vec<u8, &'a A>, Fault>
    ensures { MatchResult result
        (λ v. IfSome (I.left input.old) (λ bytes. v.items ≡ bytes))
        (λ e. ((e ≡ OfRead) × ∥ MayFail I.failures ∥₁) ⊎ (e ≡ OutOfMemory)) }
{
    let mut chunk = vec![in alloc; 0; CHUNK]?;
    let mut bytes = Vec::new(alloc);
    for _ in 0..u64::MAX {
        let is_last = take_chunk(input, &mut chunk, &mut bytes)?;
        if is_last {
            return Ok(bytes);
        }
    }
    Err(Fault::OutOfMemory)
}

// Returns the bytes of a file. `Read` if it can't be opened or read, `OutOfMemory` if an allocation fails.
pub(crate) fn file_bytes<'a, A: Allocator, F: Storage>(
    alloc: &'a A,
    files: &F,
    path: &str,
) -> Result<Vec<u8, &'a A>, Fault>
    ensures { MatchResult result
        (λ v. IfSome (F.contents files.now path.now 0) (λ bytes. v.items ≡ bytes))
        (λ e. ((e ≡ OfRead) × InputMayFail (F.open_may_fail files.now path.now) F.Input.failures)
        ⊎ (e ≡ OutOfMemory)) }
{
    let mut input = reading(files, path, 0)?;
    match take_all(alloc, &mut input) {
        Ok(bytes) => Ok(bytes),
        Err(fault) => Err(fault),
    }
}
