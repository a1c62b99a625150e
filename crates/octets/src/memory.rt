//! Devices over memory: an intake over a slice, and an outlet that is a vector.

ghost use Rattle.std.specs.Prelude.{◌≡◌, min, length, take, [], Some, MatchResult};
ghost use Rattle.std.specs.Io.{ReadsAtMost};
ghost use Rattle.std.specs.Io.KnownBytes.{ReadConsumes};
ghost use Rattle.octets.specs.Device.{Counts};

use crate::device::{DeviceFault, Intake, Outlet};
use crate::failures::Failures;
use std::alloc::Allocator;

/// Gives the bytes of a slice. Each take fills the buffer, or gives all that is left. It never fails.
#[derive(Drop)]
pub struct SliceIntake<'a> {
    rest: &'a [u8],
}

impl<'a> SliceIntake<'a> {
    /// Makes a device with all bytes of the slice left.
    pub fn new(bytes: &'a [u8]) -> Self
        ensures { ⟦<SliceIntake<'a> as Intake>⟧.left result ≡ Some bytes.now }
    {
        SliceIntake { rest: bytes }
    }
}

impl<'a> Intake for SliceIntake<'a> {
    ghost left = { λ s. Some s.rest.now };

    ghost failures = { λ _. 0 };

    fn take(&mut self, buf: &mut [u8]) -> Result<usize, DeviceFault>
        ensures bound { ReadsAtMost result buf.new }
        ensures bytes { ReadConsumes (Some self.old.rest.now) (Some self.new.rest.now) result buf.new }
        ensures count { Counts 0 0 result }
        ensures all { MatchResult result (λ n. n ≡ min (length buf.old) (length self.old.rest.now)) (λ _. ⊥) }
    {
        let n = buf.len().min(self.rest.len());
        let (front, back) = self.rest.split_at(n);
        buf[..n].copy_from_slice(front);
        self.rest = back;
        Ok(n)
    }
}

/// Appends the bytes that it is given to a vector. It fails if an allocation fails.
#[derive(Drop)]
pub struct VecOutlet<A: Allocator> {
    bytes: Vec<u8, A>,
    failures: Failures,
}

impl<A: Allocator> VecOutlet<A> {
    /// Makes an empty outlet, with no failures yet.
    pub fn new(alloc: A) -> Self
        ensures taken { ⟦<VecOutlet<A> as Outlet>⟧.taken result ≡ Some [] }
        ensures failed { ⟦<VecOutlet<A> as Outlet>⟧.failures result ≡ 0 }
    {
        VecOutlet {
            bytes: Vec::new(alloc),
            failures: Failures::none(),
        }
    }

    /// Returns the bytes taken so far.
    pub fn bytes(&self) -> &[u8]
        ensures { ⟦<VecOutlet<A> as Outlet>⟧.taken self.now ≡ Some result.now }
    {
        self.bytes.as_slice()
    }
}

impl<A: Allocator> Outlet for VecOutlet<A> {
    ghost taken = { λ s. Some s.bytes.items };

    ghost failures = { λ s. s.failures };

    fn give(&mut self, bytes: &[u8]) -> Result<usize, DeviceFault> {
        match self.bytes.extend_from_slice(bytes) {
            Ok(()) => Ok(bytes.len()),
            Err(_) => {
                self.failures.add();
                Err(DeviceFault)
            }
        }
    }
}
