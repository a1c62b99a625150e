//! The report of a vector file: how many records it has, and which of them disagree.

ghost use Rattle.std.specs.Prelude.{◌≡◌, ◌↔◌, ◌+◌, ◌<◌, ◌≤◌, ◌^◌, [], ◌∷◌, ◌++◌, OnOk, IsTrue, if◌then◌else◌};
ghost use Rattle.vectors.specs.Code.Views.{entry_view};
ghost use Rattle.vectors.specs.Code.Judging.{IsSized};
ghost use Rattle.vectors.specs.Code.Judging.{Judges};

use crate::agree::agrees;
use crate::place::Entry;
use std::alloc::{AllocError, Allocator};

/// The report of a vector file: how many records it has, and the numbers of those that disagree with their standard, in rising
/// order. Records are numbered from 1.
#[derive(Drop)]
pub struct Report<A: Allocator> {
    /// The number of records.
    pub records: u64,
    /// The numbers of the records that disagree.
    pub bad: Vec<u64, A>,
}

impl<A: Allocator> Report<A> {
    // Counts one more record, and notes its number if it disagrees.
    pub(crate) fn judge(&mut self, entry: &Entry<'_>) -> Result<(), AllocError>
        requires room { self.old.records + 1 < 2 ^ 64 }
        requires sized { IsSized (entry_view entry.now) }
        ensures { OnOk result (Judges self.old.records self.old.bad.items (entry_view entry.now)
            self.new.records self.new.bad.items) }
    {
        let agrees = agrees(self.bad.allocator(), entry)?;
        self.count(agrees)
    }

    // Counts one more record, which agrees or disagrees.
    fn count(&mut self, agrees: bool) -> Result<(), AllocError>
        requires { self.old.records + 1 < 2 ^ 64 }
        ensures records { OnOk result (self.new.records ≡ self.old.records + 1) }
        ensures bad { OnOk result (self.new.bad.items
            ≡ (if agrees then self.old.bad.items else self.old.bad.items ++ (self.old.records + 1) ∷ [])) }
    {
        let number = self.records + 1;
        if !agrees {
            self.bad.push(number)?;
        }
        self.records = number;
        Ok(())
    }

    /// Whether there is at least one record, and each agrees with its standard.
    pub fn yes(&self) -> bool
        ensures { IsTrue result ↔ ((1 ≤ self.now.records) × (self.now.bad.items ≡ [])) }
    {
        self.records >= 1 && self.bad.is_empty()
    }
}
