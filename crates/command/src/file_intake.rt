//! The intake over a file of the system.
ghost use Rattle.std.specs.Prelude.{◌≡◌, ◌-◌, ◌<◌, length, IfOk};
ghost use Rattle.std.specs.Io.{ReadsAtMost};
ghost use Rattle.std.specs.Io.KnownBytes.{ReadConsumes};
ghost use Rattle.octets.specs.Device.{Counts};

use octets::{DeviceFault, Failures, Intake};
use std::fs::OpenFile;
use std::io::Read;

/// Takes from a reader of a file. If the file ends before the length that it had when it was opened, it was truncated
/// meanwhile, and that is a failure; so is an interrupted read. Contracts know the bytes left if they know those of the reader.
#[derive(Drop)]
pub struct FileIntake<R> {
    reader: R,
    // How many bytes of that length have not been read yet. Without it, sealing a file that is truncated meanwhile
    // would end with status 0 and a part of the text.
    owed: u64,
    failures: Failures,
}

impl<R: Read> FileIntake<R> {
    // Makes a device with the bytes that the reader has left, which are at least `owed`, and no failures yet.
    pub(crate) fn new(reader: R, owed: u64) -> Self
        ensures left { ⟦<FileIntake<R> as Intake>⟧.left result ≡ R.remaining reader }
        ensures failed { ⟦<FileIntake<R> as Intake>⟧.failures result ≡ 0 }
        ensures owed { result.owed ≡ owed }
    {
        FileIntake {
            reader,
            owed,
            failures: Failures::none(),
        }
    }
}

impl<R: Read> Intake for FileIntake<R> {
    ghost left = { λ s. R.remaining s.reader };

    ghost failures = { λ s. s.failures };

    fn take(&mut self, buf: &mut [u8]) -> Result<usize, DeviceFault>
        ensures bound { ReadsAtMost result buf.new }
        ensures bytes { ReadConsumes (R.remaining self.old.reader) (R.remaining self.new.reader) result buf.new }
        ensures count { Counts self.old.failures self.new.failures result }
        // The end comes only once no byte is owed.
        ensures end { IfOk result (λ n. n ≡ 0 → 0 < length buf.new → self.old.owed ≡ 0) }
        ensures owed { IfOk result (λ n. self.new.owed ≡ self.old.owed - n) }
    {
        match self.reader.read(buf) {
            Ok(n) if 0 < n || buf.is_empty() || self.owed == 0 => {
                self.owed = self.owed.saturating_sub(n as u64);
                Ok(n)
            }
            _ => {
                self.failures.add();
                Err(DeviceFault)
            }
        }
    }
}

// Returns the length of a regular file, or 0 for any other file and if the system doesn't tell the length.
pub(crate) fn regular_length<F: OpenFile>(file: &F) -> u64 {
    match file.metadata() {
        Ok(about) if about.is_file() => about.len(),
        _ => 0,
    }
}
