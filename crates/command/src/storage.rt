//! Files by name.
ghost use Rattle.std.specs.Prelude.{◌≡◌, ℕ, Bool, true, List, Some, None, IfOk, IfErr, IfSome};
ghost use Rattle.std.specs.Io.KnownBytes.{Keeps};
ghost use Rattle.std.specs.declared.option.Option.{Option};

use crate::file_intake::{FileIntake, regular_length};
use crate::identity::Identity;
use octets::{Intake, Outlet, ToWrite};
use std::alloc::Allocator;
use std::fs::OpenFile;
use std::io::{BufReader, ErrorKind};
use std::rt::Files;
use std::{fs, io};

// How many bytes a reading requests from the system at a time.
const AHEAD: usize = 65536;

/// A place for the files of the program.
pub trait Storage {
    ghost use Rattle.command.specs.declared.identity.Identity.{Identity};

    /// A file that is open for reading.
    type Input: Intake + Drop;

    /// A file that is open for writing.
    type Output: Outlet + Drop;

    // The bytes that a file gives in a reading, if they are known. The readings of a request are counted from 0, so that
    // a contract can speak of readings that differ.
    ghost contents: { Self → List ℕ → ℕ → Option (List ℕ) } = { λ _ _ _. None };

    // The bytes that the file at a path holds just after it was made, if they are known.
    ghost blank: { Self → List ℕ → Option (List ℕ) } = { λ _ _. None };

    // The identity of the file that a path leads to, if it is known. It is `None` if there is no file that can be compared.
    ghost leads_to: { Self → List ℕ → Option (Option Identity) } = { λ _ _. None };

    // Whether opening a file for a reading may fail.
    ghost open_may_fail: { Self → List ℕ → ℕ → Bool } = { λ _ _ _. true };

    // Whether making or syncing a file may fail.
    ghost make_may_fail: { Self → Bool } = { λ _. true };

    /// Opens a file for a reading, at its beginning.
    fn open(&self, path: &str, reading: u8) -> io::Result<Self::Input>
        ensures bytes { IfOk result (λ input.
            IfSome (contents self.now path.now reading)
            (λ bytes. Self.Input.left input ≡ Some bytes)) }
        ensures blame { IfErr result (λ _. open_may_fail self.now path.now reading ≡ true) };

    /// Returns the identity of the file that a path leads to, or `None` if there is no file that can be compared.
    fn identity(&self, path: &str) -> Option<Identity>
        ensures { IfSome (leads_to self.now path.now) (λ known. result ≡ known) };

    /// Creates a file, or truncates it.
    fn create(&self, path: &str) -> io::Result<Self::Output>
        ensures blank { IfOk result (λ output. Keeps (blank self.now path.now) (Self.Output.taken output)) }
        ensures blame { IfErr result (λ _. make_may_fail self.now ≡ true) };

    /// Waits until the bytes that were written have reached the device that stores them, if there is one.
    fn sync(&self, output: &Self::Output) -> io::Result<()>
        ensures blame { IfErr result (λ _. make_may_fail self.now ≡ true) };
}

/// The files that a runtime has access to. Each reading allocates a buffer. A reading of a regular file fails if the file
/// ends before the length that it had when it was opened.
#[derive(Drop)]
pub struct Disk<'a, R: Files, A: Allocator> {
    pub runtime: &'a R,
    pub alloc: A,
}

impl<R: Files, A: Allocator + Copy> Storage for Disk<'_, R, A> {
    type Input = FileIntake<BufReader<R::File, A>>;

    type Output = ToWrite<R::File>;

    fn open(&self, path: &str, _reading: u8) -> io::Result<FileIntake<BufReader<R::File, A>>> {
        let file = fs::open(self.runtime, path)?;
        let length = regular_length(&file);
        let reader = BufReader::with_capacity(self.alloc, AHEAD, file)?;
        Ok(FileIntake::new(reader, length))
    }

    // If the system doesn't say what a path leads to, there is no file yet, or opening it says why.
    fn identity(&self, path: &str) -> Option<Identity> {
        match fs::metadata(self.runtime, path) {
            Ok(about) => Identity::of(&about),
            Err(_) => None,
        }
    }

    fn create(&self, path: &str) -> io::Result<ToWrite<R::File>> {
        Ok(ToWrite::new(fs::create(self.runtime, path)?))
    }

    // An output that can't be synced, such as a pipe or a terminal, is not a fault.
    fn sync(&self, output: &ToWrite<R::File>) -> io::Result<()> {
        match output.get_ref().sync_all() {
            Err(error) if error.kind() == ErrorKind::InvalidInput => Ok(()),
            result => result,
        }
    }
}
