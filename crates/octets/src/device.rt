//! Devices: an `Intake` gives bytes, an `Outlet` takes them. The engines over streams read and write through them.

ghost use Rattle.std.specs.Prelude.{ℕ, List, Option};
ghost use Rattle.std.specs.Io.{ReadsAtMost};
ghost use Rattle.std.specs.Io.KnownBytes.{ReadConsumes, WriteAppends};
ghost use Rattle.octets.specs.Device.{Counts, GivesSome};

/// A failure of a device.
#[derive(Clone, Copy, Debug, PartialEq, Eq, Drop)]
pub struct DeviceFault;

/// A device that gives bytes. Contracts see its count of failures and, if they are known, the bytes left.
pub trait Intake {
    // The bytes left, if they are known.
    ghost left: { Self → Option (List ℕ) };

    // How many takes have failed, up to 2^64 - 1.
    ghost failures: { Self → ℕ };

    /// Takes the next bytes into the beginning of `buf` and returns their number, which is 0 only at the end
    /// or for an empty `buf`. The rest of `buf` is unspecified. On a fault the bytes left are as before.
    fn take(&mut self, buf: &mut [u8]) -> Result<usize, DeviceFault>
        ensures bound { ReadsAtMost result buf.new }
        ensures bytes { ReadConsumes (left self.old) (left self.new) result buf.new }
        ensures count { Counts (failures self.old) (failures self.new) result };
}

/// A device that takes bytes. Contracts see its count of failures and, if they are known, the bytes taken.
pub trait Outlet {
    // The bytes taken, if they are known.
    ghost taken: { Self → Option (List ℕ) };

    // How many gives have failed, up to 2^64 - 1.
    ghost failures: { Self → ℕ };

    /// Gives a prefix of `bytes` to the device and returns its length, which is 0 only for empty `bytes`. On a fault nothing is
    /// given.
    fn give(&mut self, bytes: &[u8]) -> Result<usize, DeviceFault>
        ensures bound { GivesSome result bytes.now }
        ensures bytes { WriteAppends (taken self.old) (taken self.new) result bytes.now }
        ensures count { Counts (failures self.old) (failures self.new) result };
}
