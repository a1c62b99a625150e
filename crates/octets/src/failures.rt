//! Counts the failures of a device, so that a contract can say that a fault came from a failure during this call.
//!
//! A device of your own has a field of type `Failures`, which begins as `Failures::none()`. It calls `add` at each failure, and
//! names the field as its count: `ghost failures = { λ device. device.failures };`. A call that succeeds leaves the count as it
//! is. This is all that the `count` clauses of `Intake` and `Outlet` ask for.

ghost use Rattle.std.specs.Prelude.{◌≡◌, ℕ};
ghost use Rattle.octets.specs.Device.{Failed};

use std::marker::Model;

/// The number of failures of a device, up to 2^64 - 1. Contracts see it as a number.
#[derive(Clone, Copy, Debug, PartialEq, Eq)]
pub struct Failures {
    count: u64,
}

impl Model for Failures {
    ghost Value = { ℕ };

    ghost view = { λ failures. failures.count };

    ghost inverse = { λ count. record { count = count } };
}

impl Failures {
    /// Makes a count of no failures.
    pub fn none() -> Failures
        ensures { result ≡ 0 }
    {
        Failures { count: 0 }
    }

    /// Counts one more failure. The count stays at 2^64 - 1 once it is there.
    pub fn add(&mut self)
        ensures { Failed self.old self.new }
    {
        self.count = self.count.saturating_add(1);
    }
}
