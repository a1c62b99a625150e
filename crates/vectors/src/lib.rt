//! Vector files: the records that a file lists, and whether each agrees with its standard.
//!
//! From `crates/vectors/src/uses.rt`:
//! ```
//! // Whether each record of a vector file agrees with its standard.
//! fn all_agree<A: Allocator>(alloc: A, file: &[u8]) -> Result<bool, VectorFault>
//!     ensures { IfOk result (λ yes. IsTrue yes
//!         → (count : ℕ) × ((1 ≤ count) × IsReport (lines_of file.now) count [])) }
//! {
//!     let report = check(alloc, file)?;
//!     Ok(report.yes())
//! }
//! ```
#![tactic(auto)]

ghost use Rattle.vectors.specs.Grammar.{HasOneReading};

mod agree;
mod cuts;
mod digits;
mod fault;
mod field;
mod lines;
mod place;
mod reading;
mod report;
mod suite;
mod uses;

pub use fault::{Cause, VectorFault};
pub use reading::check;
pub use report::Report;

/// The law of reading: lines are a file of only one list of records, so a file has only one report. The call does nothing; its
/// contract is the law.
pub fn has_one_reading()
    ensures { HasOneReading }
{}
