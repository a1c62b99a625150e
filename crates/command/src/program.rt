//! The program, with a writer for each stream.
ghost use Rattle.std.specs.Prelude.{◌≤◌, ◌≡◌, ◌↔◌, ◌⊎◌, ⊤, [], Err, IfOk, IfErr, MatchResult};
ghost use Rattle.std.specs.Prelude.{string_bytes};
ghost use Rattle.std.specs.Io.KnownBytes.{Appends};
ghost use Rattle.octets.specs.Device.{GivesAll};
ghost use Rattle.command.specs.Answers.{Answered, Stopped, Silent, IsOutputFailure};
ghost use Rattle.command.specs.Answers.{IsRefusedAs, Answers, AppendsBeginning, Ends, Runs};
ghost use Rattle.command.specs.Blames.{InputMayFail, Blames, RequestBlames};
ghost use Rattle.command.specs.declared.failure.Failure.TheVariants.{Fault as OfFault};
ghost use Rattle.command.specs.Hex.{hex_line};
ghost use Rattle.command.specs.Names.{failure_line};
ghost use Rattle.command.specs.Reports.{report_text, IsChecked, FileRefused};
ghost use Rattle.command.specs.Statuses.{failure_status};

use crate::failure::{Failure, fault_of};
use crate::files::write_new_file;
use crate::storage::Storage;
use crate::version::VERSION;
use crate::words::{PrintRequest, Refusal, Request};
use crate::{commands, words};
use octets::{DeviceFault, Fault};
use std::alloc::{AllocError, Allocator, Global};
use std::convert::AsStr;
use std::fmt::{InlineText, Write as _};
use std::io::{ErrorKind, Write};
use vectors::Report;

// Writes text to standard output, and returns status 0. The only faults are `Write` and `OutOfMemory`.
fn print<W: Write>(out: &mut W, text: &str) -> Result<u8, Failure>
    ensures { MatchResult result
        (λ status. (status ≡ 0) × Appends (W.contents out.old) (W.contents out.new) text.now)
        IsOutputFailure }
{
    if let Err(error) = out.write_all(text.as_bytes()) {
        return Err(Failure::Fault(fault_of(&error, Fault::Write)));
    }
    // Flushed here, so that a fault that the system finds late shows in the status.
    if let Err(error) = out.flush() {
        return Err(Failure::Fault(fault_of(&error, Fault::Write)));
    }
    Ok(0)
}

// Prints the value that a command returns as one line of lower-case hexadecimal, and returns status 0. A failure of the command
// is passed on; the only other faults are `Write` and `OutOfMemory`.
fn print_value<A: Allocator + Copy, W: Write>(
    alloc: A,
    out: &mut W,
    value: Result<Vec<u8, A>, Failure>,
) -> Result<u8, Failure>
    ensures { MatchResult value
        (λ v. MatchResult result
        (λ status. (status ≡ 0) × Appends (W.contents out.old) (W.contents out.new) (hex_line v.items))
        IsOutputFailure)
        (λ e. (result ≡ Err e) × (W.contents out.new ≡ W.contents out.old)) }
{
    let mut line = hex::encode(alloc, &value?)?;
    line.push('\n')?;
    print(out, &line)
}

// Returns the text of a report: the number of records, then a line for each bad one.
fn report_text<A: Allocator>(alloc: A, records: u64, bad: &[u64]) -> Result<String<A>, AllocError>
    ensures { IfOk result (λ text. string_bytes text ≡ report_text records bad.now) }
{
    let mut text = String::new(alloc);
    writeln!(text, "records {records}")?;
    for number in bad {
        writeln!(text, "bad {number}")?;
    }
    Ok(text)
}

// Returns the status of a report: 0 if there are records and none is bad, else 1.
fn report_status<A: Allocator>(report: &Report<A>) -> u8
    ensures yes { (result ≡ 0) ↔ ((1 ≤ report.now.records) × (report.now.bad.items ≡ [])) }
    ensures bound { result ≤ 1 }
{
    if report.yes() { 0 } else { 1 }
}

// Prints the report of a vector file, and returns status 0, or 1 if a record is bad or there is none.
fn print_checking<A: Allocator, F: Storage, W: Write>(
    alloc: &A,
    files: &F,
    path: &str,
    out: &mut W,
) -> Result<u8, Failure>
    ensures answer { MatchResult result
        (IsChecked (F.contents files.now path.now 0) (W.contents out.old) (W.contents out.new))
        (Silent (W.contents out.old) (W.contents out.new) (FileRefused (F.contents files.now path.now 0))) }
    ensures blame { Blames OfFault
        (InputMayFail (F.open_may_fail files.now path.now) F.Input.failures) ⊤ result }
    ensures status { IfOk result (λ status. status ≤ 1) }
{
    let report = commands::check(alloc, files, path)?;
    let text = report_text(alloc, report.records, &report.bad)?;
    print(out, &text)?;
    Ok(report_status(&report))
}

/// Does what a request asks for: prints its answer and returns the status, which is 0, or 1 for a file with bad records.
/// Faults, in this order: those of its values, those of the call, `Write`; `OutOfMemory` wherever an allocation fails.
pub fn perform<A: Allocator, F: Storage, W: Write>(
    alloc: &A,
    files: &F,
    request: &PrintRequest<'_>,
    out: &mut W,
) -> Result<u8, Failure>
    // On `Ok` the right answer was printed; on `Err` the failure is one that the request can have.
    ensures answer { MatchResult result
        (Answered (F.contents files.now) (W.contents out.old) (W.contents out.new) request.now)
        (Stopped (F.contents files.now) (W.contents out.old) (W.contents out.new) request.now) }
    // `Read` comes only if the input can fail.
    ensures blame { RequestBlames
        (λ path. InputMayFail (F.open_may_fail files.now path) F.Input.failures) request.now result }
    ensures status { IfOk result (λ status. status ≤ 1) }
{
    match request {
        PrintRequest::Seal(inputs) => print_value(alloc, out, commands::seal(alloc, inputs)),
        PrintRequest::Open(inputs) => print_value(alloc, out, commands::open(alloc, inputs)),
        PrintRequest::Wrap { key, text, pad } => {
            print_value(alloc, out, commands::wrap(alloc, key, text, *pad))
        }
        PrintRequest::Unwrap { key, sealed, pad } => {
            print_value(alloc, out, commands::unwrap(alloc, key, sealed, *pad))
        }
        PrintRequest::Check { path } => print_checking(alloc, files, path, out),
    }
}

// Prints the help or the version that was asked for, or returns why the words are not a request.
fn refuse<W: Write>(alloc: Global, refusal: &Refusal, out: &mut W) -> Result<u8, Failure>
    ensures answer { IsRefusedAs refusal.now (W.contents out.old) (W.contents out.new) result }
    ensures status { IfOk result (λ status. status ≤ 1) }
{
    match refusal {
        Refusal::Help(help) => {
            let text = format!(in alloc; "{help}")?;
            print(out, &text)
        }
        Refusal::Version => {
            let line = format!(in alloc; "aeadkit {VERSION}\n")?;
            print(out, &line)
        }
        Refusal::Words => Err(Failure::Words),
        Refusal::OutOfMemory => Err(Failure::Fault(Fault::OutOfMemory)),
    }
}

// Writes a line to standard error, in at most 1,000 writes. An interrupted write is tried again. At any other failure a
// beginning of the line was written.
fn write_line<E: Write>(err: &mut E, line: &[u8]) -> Result<(), DeviceFault>
    ensures { GivesAll (E.contents err.old) (E.contents err.new) result line.now }
{
    let mut at = 0;
    for _ in 0..1000 {
        if at == line.len() {
            return Ok(());
        }
        match err.write(&line[at..]) {
            Ok(0) => return Err(DeviceFault),
            Ok(n) => at += n,
            Err(error) if error.kind() == ErrorKind::Interrupted => {}
            Err(_) => return Err(DeviceFault),
        }
    }
    Err(DeviceFault)
}

/// Prints on standard error why the program stops, and returns the status. If standard error fails, the status is the same.
pub fn report<E: Write>(err: &mut E, failure: Failure) -> u8
    ensures value { result ≡ failure_status failure }
    ensures bound { result ≤ 4 }
    // What is printed is a beginning of the line that names this failure.
    ensures line { AppendsBeginning (E.contents err.old) (E.contents err.new) (failure_line failure) }
{
    // No contract says what `writeln!` wrote before it failed, so the line is made first, and then written by `write`. The longest
    // one, an unknown suite in the line with the greatest number, has 51 bytes.
    let mut line = InlineText::<64>::new();
    if let Ok(()) = writeln!(line, "aeadkit: {failure}") {
        let _ = write_line(err, line.as_str().as_bytes());
    }
    failure.status()
}

// Carries out the request or the refusal that the words were read as.
fn answer<F: Storage, W: Write>(
    alloc: Global,
    files: &F,
    read: &Result<Request<'_>, Refusal>,
    out: &mut W,
) -> Result<u8, Failure>
    ensures answers { Answers (F.leads_to files.now) (F.contents files.now) (F.blank files.now) F.Output.taken
        (W.contents out.old) (W.contents out.new) read.now result }
    ensures status { IfOk result (λ status. status ≤ 1) }
{
    match read {
        Ok(Request::Print(request)) => perform(&alloc, files, request, out),
        Ok(Request::Write(request)) => write_new_file(&alloc, files, request),
        Err(refusal) => refuse(alloc, refusal, out),
    }
}

/// Carries out the request or the refusal that the words were read as, and returns the program's status. If standard error
/// fails, the status is the same.
pub fn respond<F: Storage, W: Write, E: Write>(
    alloc: Global,
    files: &F,
    read: &Result<Request<'_>, Refusal>,
    out: &mut W,
    err: &mut E,
) -> u8
    ensures ends { Ends (F.leads_to files.now) (F.contents files.now) (F.blank files.now) F.Output.taken
        (W.contents out.old) (W.contents out.new) (E.contents err.old) (E.contents err.new) read.now result }
    ensures bound { result ≤ 4 }
    // With status 0 nothing is printed on standard error.
    ensures quiet { result ≡ 0 → E.contents err.new ≡ E.contents err.old }
{
    match answer(alloc, files, read, out) {
        Ok(status) => status,
        Err(failure) => report(err, failure),
    }
}

/// Runs the command line, which is the words after the program's name, and returns the status: 0 if it succeeded, 1 if
/// authentication failed or a vector file has a fault or a bad record, 2 if the words or a value are invalid, 3 if a read or a
/// write failed or a file changed between two readings, 4 if an allocation failed.
pub fn run<S: AsStr, F: Storage, W: Write, E: Write>(
    alloc: Global,
    files: &F,
    words: &[S],
    out: &mut W,
    err: &mut E,
) -> u8
    // Standard output, standard error and the status are those of a request or a refusal that the words can be read as.
    // Which one that is, is left to `clap` and to tests.
    ensures runs { Runs (F.leads_to files.now) (F.contents files.now) (F.blank files.now) F.Output.taken
        (W.contents out.old) (W.contents out.new) (E.contents err.old) (E.contents err.new) result }
    ensures bound { result ≤ 4 }
    ensures quiet { result ≡ 0 → E.contents err.new ≡ E.contents err.old }
{
    respond(alloc, files, &words::read(alloc, words), out, err)
}
