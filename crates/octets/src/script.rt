//! Devices that follow a script, for tests: each step gives or takes a part, or fails.

ghost use Rattle.std.specs.Prelude.{◌≡◌, ◌≤◌, [], Some, drop, IfSome, vec_len};

use crate::device::{DeviceFault, Intake, Outlet};
use crate::failures::Failures;
use crate::memory::VecOutlet;
use std::alloc::Allocator;

/// The behaviour of a device in one call.
#[derive(Clone, Copy, Drop)]
pub enum Step {
    /// Moves at most this many bytes; 0 counts as 1.
    Give(usize),
    /// Fails.
    Fail,
}

/// Gives bytes as a script says. After the end of the script each take fills the buffer, or gives all that is left.
#[derive(Drop)]
pub struct ScriptIntake<A: Allocator> {
    bytes: Vec<u8, A>,
    at: usize,
    steps: Vec<Step, A>,
    call: usize,
    failures: Failures,
    ghost in_range: { at ≤ vec_len bytes },
}

impl<A: Allocator> ScriptIntake<A> {
    /// Makes a device with all bytes left, at the first step of the script, with no failures yet.
    pub fn new(bytes: Vec<u8, A>, steps: Vec<Step, A>) -> Self
        ensures left { ⟦<ScriptIntake<A> as Intake>⟧.left result ≡ Some bytes.items }
        ensures failed { ⟦<ScriptIntake<A> as Intake>⟧.failures result ≡ 0 }
    {
        ScriptIntake {
            bytes,
            at: 0,
            steps,
            call: 0,
            failures: Failures::none(),
        }
    }
}

// Returns how many bytes this call may move, or `None` if it fails.
fn allowed(steps: &[Step], call: &mut usize, wanted: usize) -> Option<usize>
    ensures { IfSome result (λ n. (n ≤ wanted) × (n ≡ 0 → wanted ≡ 0)) }
{
    if *call >= steps.len() {
        return Some(wanted);
    }
    let step = steps[*call];
    *call += 1;
    match step {
        Step::Give(most) => Some(wanted.min(most.max(1))),
        Step::Fail => None,
    }
}

impl<A: Allocator> Intake for ScriptIntake<A> {
    ghost left = { λ s. Some (drop s.at s.bytes.items) };

    ghost failures = { λ s. s.failures };

    fn take(&mut self, buf: &mut [u8]) -> Result<usize, DeviceFault> {
        let rest = &self.bytes.as_slice()[self.at..];
        let wanted = buf.len().min(rest.len());
        match allowed(self.steps.as_slice(), &mut self.call, wanted) {
            Some(n) => {
                let (front, _) = rest.split_at(n);
                buf[..n].copy_from_slice(front);
                self.at += n;
                Ok(n)
            }
            None => {
                self.failures.add();
                Err(DeviceFault)
            }
        }
    }
}

/// Takes bytes as a script says. After the end of the script it takes all that it is given.
#[derive(Drop)]
pub struct ScriptOutlet<A: Allocator> {
    outlet: VecOutlet<A>,
    steps: Vec<Step, A>,
    call: usize,
    failures: Failures,
}

impl<A: Allocator> ScriptOutlet<A> {
    /// Makes an empty outlet, at the first step of the script, with no failures yet.
    pub fn new(alloc: A, steps: Vec<Step, A>) -> Self
        ensures taken { ⟦<ScriptOutlet<A> as Outlet>⟧.taken result ≡ Some [] }
        ensures failed { ⟦<ScriptOutlet<A> as Outlet>⟧.failures result ≡ 0 }
    {
        ScriptOutlet {
            outlet: VecOutlet::new(alloc),
            steps,
            call: 0,
            failures: Failures::none(),
        }
    }

    /// Returns the bytes taken so far.
    pub fn bytes(&self) -> &[u8]
        ensures { ⟦<ScriptOutlet<A> as Outlet>⟧.taken self.now ≡ Some result.now }
    {
        self.outlet.bytes()
    }
}

impl<A: Allocator> Outlet for ScriptOutlet<A> {
    ghost taken = { λ s. ⟦<VecOutlet<A> as Outlet>⟧.taken s.outlet };

    ghost failures = { λ s. s.failures };

    fn give(&mut self, bytes: &[u8]) -> Result<usize, DeviceFault> {
        if let Some(n) = allowed(self.steps.as_slice(), &mut self.call, bytes.len()) {
            if let Ok(count) = self.outlet.give(&bytes[..n]) {
                return Ok(count);
            }
        }
        self.failures.add();
        Err(DeviceFault)
    }
}
