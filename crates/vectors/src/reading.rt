//! A vector file, read once from its first byte to its last.

ghost use Rattle.std.specs.Prelude.{List, IfOk, IfErr};
ghost use Rattle.vectors.specs.Lines.{lines_of};
ghost use Rattle.vectors.specs.Grammar.{Record, IsFile};
ghost use Rattle.vectors.specs.Faults.{IsFaultOf};
ghost use Rattle.vectors.specs.Reports.{IsReport, IsReported};

use crate::fault::VectorFault;
use crate::lines::first_line;
use crate::place::{Next, Place, step};
use crate::report::Report;
use std::alloc::Allocator;

// Reads a vector file and judges each record as it ends.
fn read<A: Allocator>(alloc: A, file: &[u8]) -> Result<Report<A>, VectorFault>
    ensures report { IfOk result (λ report. IsReport (lines_of file.now) report.records report.bad.items) }
    ensures fault { IfErr result (IsFaultOf (lines_of file.now)) }
{
    let mut report = Report {
        records: 0,
        bad: Vec::new(alloc),
    };
    let mut place = Place::Start;
    let mut count = 0u64;
    let mut rest = file;
    while let Some((line, behind)) = first_line(rest) {
        count += 1;
        rest = behind;
        match step(place, line) {
            Err(cause) => return Err(VectorFault::AtLine(count, cause)),
            Ok(
                Next {
                    place: next,
                    ended: None,
                },
            ) => place = next,
            Ok(
                Next {
                    place: next,
                    ended: Some(entry),
                },
            ) => {
                report.judge(&entry)?;
                place = next;
            }
        }
    }
    match place {
        Place::Start => Err(VectorFault::NoRecords),
        Place::Between(_) => {
            if report.records == 0 {
                Err(VectorFault::NoRecords)
            } else {
                Ok(report)
            }
        }
        _ => Err(VectorFault::Unfinished(count)),
    }
}

/// Returns the report of a vector file of format 1 or 2: how many records it has, and which of them disagree
/// with their standard. The file may be any bytes, and is read once. If it does not follow the grammar, returns its
/// first fault: the line with the least number such that the lines up to it cannot begin a file.
/// `OutOfMemory` comes only if a record has ended and an allocation failed in this call. Memory is allocated
/// for the sealed bytes and the associated data of one record at a time, while it is judged, and for the
/// numbers in the report.
pub fn check<A: Allocator>(alloc: A, file: &[u8]) -> Result<Report<A>, VectorFault>
    // A report is that of the records of the file.
    ensures report { IfOk result (λ report. IsReport (lines_of file.now) report.records report.bad.items) }

    // An error is the first fault of the file, with its line.
    ensures fault { IfErr result (IsFaultOf (lines_of file.now)) }

    // A file that follows the grammar gets a report, or an allocation failed.
    ensures found { (records : List Record) → IsFile (lines_of file.now) records → IsReported result }
{
    read(alloc, file)
}
