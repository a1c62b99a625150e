//! The file commands: they seal or open a file into another one, in memory of a fixed size.
ghost use Rattle.std.specs.Prelude.{◌≡◌, ◌⊎◌, true, is_some, IfOk, IfErr, MatchResult};
ghost use Rattle.octets.specs.Device.{Failed};
ghost use Rattle.aead.specs.Refusals.{UntouchedUnless, late_in_one_reading, late_in_readings};
ghost use Rattle.aead.specs.Ciphers.{setting};
ghost use Rattle.aead.specs.AnyCiphers.{one_pass_keyed, keyed_of};
ghost use Rattle.command.specs.Blames.{InputMayFail, OutputMayFail, Blames};
ghost use Rattle.command.specs.Files.{Sealing, Opening, Engine};
ghost use Rattle.command.specs.Code.Engines.{EngineRan, Ran};
ghost use Rattle.command.specs.Files.{FileDone, FileStopped, RefusesOneFile, late_faults, StopsLate, EngineOf, Wrote};
ghost use Rattle.command.specs.NewFiles.{held};
ghost use Rattle.command.specs.declared.failure.Failure.TheVariants.{Fault as OfFault};

use crate::commands::aead_inputs;
use crate::failure::Failure;
use crate::identity::is_one_file;
use crate::new_file::NewFile;
use crate::readings::reading;
use crate::storage::Storage;
use crate::words::{FileCommand, FileRequest};
use aead::{AnyAead, AnyOnePass, GcmSiv, open_stream, seal_siv_stream, seal_stream};
use octets::{Fault, Nonce, Outlet};
use std::alloc::Allocator;

// Seals a file into an outlet, in one reading.
#[tactic(auto, using(crate::proofs::BlamesLemmas::unopened_blames))]
fn seal_once<F: Storage, O: Outlet>(
    files: &F,
    path: &str,
    cipher: &AnyOnePass,
    nonce: &Nonce,
    aad: &[u8],
    out: &mut O,
) -> Result<(), Fault>
    ensures ran { EngineRan (Sealing (F.contents files.now path.now))
        (setting (one_pass_keyed cipher.now) nonce.now aad.now)
        (O.taken out.old) (O.taken out.new) (out.new ≡ out.old) result }
    ensures blame { Blames (λ f. f) (InputMayFail (F.open_may_fail files.now path.now) F.Input.failures)
        (Failed (O.failures out.old) (O.failures out.new)) result }
    ensures untouched { UntouchedUnless late_in_one_reading out.old out.new result }
{
    let mut text = reading(files, path, 0)?;
    seal_stream(cipher, nonce, aad, &mut text, out)
}

// Seals a file into an outlet under AES-GCM-SIV, in two readings.
#[tactic(auto, using(crate::proofs::BlamesLemmas::unopened_blames))]
fn seal_twice<F: Storage, O: Outlet>(
    files: &F,
    path: &str,
    cipher: &GcmSiv,
    nonce: &Nonce,
    aad: &[u8],
    out: &mut O,
) -> Result<(), Fault>
    ensures ran { EngineRan (Sealing (F.contents files.now path.now))
        (setting cipher.now nonce.now aad.now)
        (O.taken out.old) (O.taken out.new) (out.new ≡ out.old) result }
    ensures blame { Blames (λ f. f) (InputMayFail (F.open_may_fail files.now path.now) F.Input.failures)
        (Failed (O.failures out.old) (O.failures out.new)) result }
    ensures untouched { UntouchedUnless late_in_readings out.old out.new result }
{
    let mut first = reading(files, path, 0)?;
    let mut second = reading(files, path, 1)?;
    seal_siv_stream(cipher, nonce, aad, &mut first, &mut second, out)
}

// Opens a file into an outlet, in three readings.
#[tactic(auto, using(crate::proofs::BlamesLemmas::unopened_blames))]
fn open_thrice<F: Storage, O: Outlet>(
    files: &F,
    path: &str,
    cipher: &AnyAead,
    nonce: &Nonce,
    aad: &[u8],
    out: &mut O,
) -> Result<(), Fault>
    ensures ran { EngineRan (Opening (F.contents files.now path.now))
        (setting (keyed_of cipher.now) nonce.now aad.now)
        (O.taken out.old) (O.taken out.new) (out.new ≡ out.old) result }
    ensures blame { Blames (λ f. f) (InputMayFail (F.open_may_fail files.now path.now) F.Input.failures)
        (Failed (O.failures out.old) (O.failures out.new)) result }
    ensures untouched { UntouchedUnless late_in_readings out.old out.new result }
{
    let mut measure = reading(files, path, 0)?;
    let mut verify = reading(files, path, 1)?;
    let mut write = reading(files, path, 2)?;
    open_stream(
        cipher,
        nonce,
        aad,
        &mut measure,
        &mut verify,
        &mut write,
        out,
    )
}

// Runs a command's engine from a file into an outlet, under any cipher.
fn run_engine<F: Storage, O: Outlet>(
    files: &F,
    words: &FileRequest<'_>,
    cipher: &AnyAead,
    nonce: &Nonce,
    aad: &[u8],
    out: &mut O,
) -> Result<(), Fault>
    ensures ran { EngineRan (Engine words.now.command (F.contents files.now words.now.input.now))
        (setting (keyed_of cipher.now) nonce.now aad.now)
        (O.taken out.old) (O.taken out.new) (out.new ≡ out.old) result }
    ensures blame { Blames (λ f. f)
        (InputMayFail (F.open_may_fail files.now words.now.input.now) F.Input.failures)
        (Failed (O.failures out.old) (O.failures out.new)) result }
    ensures untouched { UntouchedUnless (late_faults words.now.command) out.old out.new result }
{
    match words.command {
        FileCommand::Seal => match cipher {
            AnyAead::OnePass(cipher) => seal_once(files, words.input, cipher, nonce, aad, out),
            AnyAead::Siv(cipher) => seal_twice(files, words.input, cipher, nonce, aad, out),
        },
        FileCommand::Open => open_thrice(files, words.input, cipher, nonce, aad, out),
    }
}

// Runs a command's engine from a file into an outlet, on the inputs that the words spell.
fn run_command<A: Allocator, F: Storage, O: Outlet>(
    alloc: &A,
    files: &F,
    words: &FileRequest<'_>,
    out: &mut O,
) -> Result<(), Failure>
    ensures ran { Ran (Engine words.now.command (F.contents files.now words.now.input.now)) words.now.inputs
        (O.taken out.old) (O.taken out.new) (out.new ≡ out.old) result }
    ensures blame { Blames OfFault
        (InputMayFail (F.open_may_fail files.now words.now.input.now) F.Input.failures)
        (Failed (O.failures out.old) (O.failures out.new)) result }
    ensures untouched { IfErr result (λ e. StopsLate words.now.command e ⊎ (out.new ≡ out.old)) }
{
    let inputs = aead_inputs(alloc, &words.inputs)?;
    Ok(run_engine(
        files,
        words,
        &inputs.cipher,
        &inputs.nonce,
        &inputs.aad,
        out,
    )?)
}

// Runs a file command into a file that is not made before it is needed, and returns status 0. `Words` if it would be made over
// the file to read.
fn write_file<'a, A: Allocator, B: Allocator, F: Storage>(
    alloc: &A,
    files: &F,
    words: &FileRequest<'_>,
    file: &mut NewFile<'a, F, B>,
) -> Result<u8, Failure>
    // The new bytes in the file follow those that it had taken before.
    ensures answer { let before = ⟦<NewFile<'a, F, B> as Outlet>⟧.taken file.old in
        MatchResult result
        (λ _. FileDone (EngineOf (F.contents files.now) words.now) words.now.inputs before
        (held before F.Output.taken file.new.file))
        (FileStopped (EngineOf (F.contents files.now) words.now) words.now.inputs before
        (held before F.Output.taken file.new.file) (file.new.file ≡ file.old.file)) }
    ensures two_files { RefusesOneFile (F.leads_to files.now) words.now result }
    ensures made { IfOk result (λ _. is_some file.new.file ≡ true) }
    ensures blame { Blames OfFault
        (InputMayFail (F.open_may_fail files.now words.now.input.now) F.Input.failures)
        (OutputMayFail F.make_may_fail F.Output.failures) result }
    ensures untouched { IfErr result (λ e. StopsLate words.now.command e ⊎ (file.new.file ≡ file.old.file)) }
    ensures status { IfOk result (λ status. status ≡ 0) }
{
    if is_one_file(files.identity(words.input), files.identity(words.output)) {
        return Err(Failure::Words);
    }
    run_command(alloc, files, words, file)?;
    file.finish()?;
    Ok(0)
}

/// `seal-file` and `open-file`: seals or opens a file into another one, and returns status 0. The written file is
/// closed when this returns.
///
/// Faults, in this order: `Words` if both paths lead to one file, as a link does, those of the inputs, `Read` if the file can't
/// be opened, and those of the engine;
/// `OutOfMemory` wherever an allocation fails. The engine's faults for sealing are `AadTooLong`, `TextTooLong` once more than
/// the suite's limit was read, `Read`, `Write`, and for AES-GCM-SIV `SourceChanged`. For opening they are `AadTooLong`, then
/// those of its three readings: nothing is written before authentication of a whole reading has succeeded.
///
/// On `SourceChanged`, `Read` and `Write`, and on `TextTooLong` when sealing, the written file was not made, or holds a prefix
/// of its intended contents, which has to be thrown away. On any other fault, and if the file to read can't be opened, the
/// written file was not made.
pub fn write_new_file<A: Allocator, F: Storage>(
    alloc: &A,
    files: &F,
    request: &FileRequest<'_>,
) -> Result<u8, Failure>
    // On `Ok` the written file holds all that the engine gave; on `Err` it was not made, or holds a prefix of that. If both paths
    // lead to one file, the result is `Words`, and nothing was made.
    ensures wrote { Wrote (F.leads_to files.now) (F.contents files.now) (F.blank files.now) F.Output.taken request.now result }
    // `Read` comes only if the input can fail, and `Write` only if the output can.
    ensures blame { Blames OfFault
        (InputMayFail (F.open_may_fail files.now request.now.input.now) F.Input.failures)
        (OutputMayFail F.make_may_fail F.Output.failures) result }
    ensures status { IfOk result (λ status. status ≡ 0) }
{
    let mut file = NewFile::new(alloc, files, request.output)?;
    write_file(alloc, files, request, &mut file)
}
