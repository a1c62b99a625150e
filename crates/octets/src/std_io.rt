//! Devices over the readers and writers of std.

ghost use Rattle.std.specs.Prelude.{◌≡◌};

use crate::device::{DeviceFault, Intake, Outlet};
use crate::failures::Failures;
use std::io::{Read, Write};

/// Takes from a reader, and counts its failures. An interrupted read is a failure. Contracts know the bytes left if they know
/// those of the reader.
#[derive(Drop)]
pub struct FromRead<R> {
    reader: R,
    failures: Failures,
}

impl<R: Read> FromRead<R> {
    /// Makes a device with the bytes that the reader has left, and no failures yet.
    pub fn new(reader: R) -> Self
        ensures left { ⟦<FromRead<R> as Intake>⟧.left result ≡ R.remaining reader }
        ensures failed { ⟦<FromRead<R> as Intake>⟧.failures result ≡ 0 }
    {
        FromRead {
            reader,
            failures: Failures::none(),
        }
    }
}

impl<R: Read> Intake for FromRead<R> {
    ghost left = { λ s. R.remaining s.reader };

    ghost failures = { λ s. s.failures };

    fn take(&mut self, buf: &mut [u8]) -> Result<usize, DeviceFault> {
        match self.reader.read(buf) {
            Ok(n) => Ok(n),
            Err(_) => {
                self.failures.add();
                Err(DeviceFault)
            }
        }
    }
}

/// Gives to a writer, and counts its failures. An interrupted write is a failure, and so is a write of 0 bytes from a slice
/// that is not empty. Contracts know the bytes taken if they know those of the writer.
#[derive(Drop)]
pub struct ToWrite<W> {
    writer: W,
    failures: Failures,
}

impl<W: Write> ToWrite<W> {
    /// Makes a device that has taken the bytes that the writer holds, with no failures yet.
    pub fn new(writer: W) -> Self
        ensures taken { ⟦<ToWrite<W> as Outlet>⟧.taken result ≡ W.contents writer }
        ensures failed { ⟦<ToWrite<W> as Outlet>⟧.failures result ≡ 0 }
    {
        ToWrite {
            writer,
            failures: Failures::none(),
        }
    }

    /// Returns the writer.
    pub fn get_ref(&self) -> &W
        ensures { W.contents result.now ≡ ⟦<ToWrite<W> as Outlet>⟧.taken self.now }
    {
        &self.writer
    }
}

impl<W: Write> Outlet for ToWrite<W> {
    ghost taken = { λ s. W.contents s.writer };

    ghost failures = { λ s. s.failures };

    fn give(&mut self, bytes: &[u8]) -> Result<usize, DeviceFault> {
        match self.writer.write(bytes) {
            Ok(n) if 0 < n || bytes.is_empty() => Ok(n),
            _ => {
                self.failures.add();
                Err(DeviceFault)
            }
        }
    }
}
