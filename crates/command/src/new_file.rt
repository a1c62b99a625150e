//! The file that a command writes.
ghost use Rattle.std.specs.Prelude.{◌≡◌, ◌<◌, ◌≤◌, ◌+◌, ◌-◌, [], true, is_some, ◌++◌, drop, length, vec_len};
ghost use Rattle.std.specs.Prelude.{vec_capacity, None, OnOk, OnErr, IfOk, IfErr};
ghost use Rattle.std.specs.Io.KnownBytes.{Keeps, WriteAppends, append_known};
ghost use Rattle.octets.specs.Device.{GivesSome};
ghost use Rattle.command.specs.Blames.{OutputMayFail};
ghost use Rattle.command.specs.NewFiles.{held};

use crate::storage::Storage;
use octets::{DeviceFault, Failures, Fault, Outlet};
use std::alloc::{AllocError, Allocator};

// How many bytes may be pending before they are written.
const PENDING: usize = 65536;

/// A file that is created or truncated when its first byte is given, or at the end if none was. Bytes are written once 64 KiB
/// are pending. A failure of the system, including an interrupted call, is a failure of the device.
// It is not std's `BufWriter`, which tries an interrupted write again and writes when it is dropped: so after a failure too the
// file holds a prefix of the output.
#[derive(Drop)]
pub(crate) struct NewFile<'a, F: Storage, A: Allocator> {
    files: &'a F,
    path: &'a str,
    file: Option<F::Output>,
    pending: Vec<u8, A>,
    written: usize,
    failures: Failures,
    ghost in_range: { written ≤ vec_len pending },
    ghost room: { 0 < vec_capacity pending },
    ghost blame: { 0 < failures → OutputMayFail F.make_may_fail F.Output.failures },
}

impl<'a, F: Storage, A: Allocator> NewFile<'a, F, A> {
    /// Makes a device for a file, without making the file, and allocates memory for the pending bytes.
    #[tactic(auto, using(crate::proofs::NewFileLemmas::append_none))]
    pub(crate) fn new(alloc: A, files: &'a F, path: &'a str) -> Result<Self, AllocError>
        ensures taken { IfOk result (λ file.
            ⟦<NewFile<'a, F, A> as Outlet>⟧.taken file ≡ F.blank files.now path.now) }
        ensures unmade { IfOk result (λ file. file.file ≡ None) }
        ensures path { IfOk result (λ file. file.path.now ≡ path.now) }
        ensures room { IfOk result (λ file. 65536 ≤ vec_capacity file.pending) }
    {
        Ok(NewFile {
            files,
            path,
            file: None,
            pending: Vec::with_capacity(alloc, PENDING)?,
            written: 0,
            failures: Failures::none(),
        })
    }

    // Makes the file if it is not made yet.
    #[tactic(auto, using(crate::proofs::BlamesLemmas::making_may_fail))]
    fn make(&mut self) -> Result<(), DeviceFault>
        ensures made { OnOk result (is_some self.new.file ≡ true) }
        ensures taken { Keeps (⟦<NewFile<'a, F, A> as Outlet>⟧.taken self.old)
            (⟦<NewFile<'a, F, A> as Outlet>⟧.taken self.new) }
        ensures pending { self.new.pending ≡ self.old.pending }
        ensures written { self.new.written ≡ self.old.written }
        ensures failed { self.new.failures ≡ self.old.failures }
        ensures blame { OnErr result (OutputMayFail F.make_may_fail F.Output.failures) }
    {
        if self.file.is_none() {
            match self.files.create(self.path) {
                Ok(file) => self.file = Some(file),
                Err(_) => return Err(DeviceFault),
            }
        }
        Ok(())
    }

    // Writes some of the pending bytes.
    fn write_some(&mut self) -> Result<(), DeviceFault>
        requires pending { self.old.written < vec_len self.old.pending }
        requires made { is_some self.old.file ≡ true }
        ensures made { is_some self.new.file ≡ true }
        ensures taken { Keeps (⟦<NewFile<'a, F, A> as Outlet>⟧.taken self.old)
            (⟦<NewFile<'a, F, A> as Outlet>⟧.taken self.new) }
        ensures pending { self.new.pending ≡ self.old.pending }
        ensures written { OnOk result (self.old.written < self.new.written) }
        ensures failed { self.new.failures ≡ self.old.failures }
        ensures blame { OnErr result (OutputMayFail F.make_may_fail F.Output.failures) }
    {
        match &mut self.file {
            Some(file) => match file.give(&self.pending[self.written..]) {
                Ok(n) => {
                    self.written += n;
                    Ok(())
                }
                Err(fault) => Err(fault),
            },
            None => Err(DeviceFault),
        }
    }

    // Writes all pending bytes.
    #[tactic(auto, using(crate::proofs::NewFileLemmas::none_pending, crate::proofs::NewFileLemmas::keeps_more))]
    fn write_pending(&mut self) -> Result<(), DeviceFault>
        requires made { is_some self.old.file ≡ true }
        ensures made { is_some self.new.file ≡ true }
        ensures taken { Keeps (⟦<NewFile<'a, F, A> as Outlet>⟧.taken self.old)
            (⟦<NewFile<'a, F, A> as Outlet>⟧.taken self.new) }
        ensures none_left { OnOk result (self.new.pending.items ≡ []) }
        ensures empty { OnOk result (vec_len self.new.pending ≡ 0) }
        ensures failed { self.new.failures ≡ self.old.failures }
        ensures blame { OnErr result (OutputMayFail F.make_may_fail F.Output.failures) }
    {
        while self.written < self.pending.len() {
            self.write_some()?;
        }
        self.pending.clear();
        self.written = 0;
        Ok(())
    }

    // Adds bytes to the pending ones, if there is room for them.
    fn add(&mut self, bytes: &[u8])
        requires room { vec_len self.old.pending + length bytes.now ≤ vec_capacity self.old.pending }
        ensures items { self.new.pending.items ≡ self.old.pending.items ++ bytes.now }
        ensures held { held (F.blank self.new.files.now self.new.path.now) F.Output.taken self.new.file
            ≡ held (F.blank self.old.files.now self.old.path.now) F.Output.taken self.old.file }
        ensures written { self.new.written ≡ self.old.written }
        ensures failed { self.new.failures ≡ self.old.failures }
    {
        // This can't fail: within the capacity nothing is allocated.
        let _ = self.pending.extend_from_slice(bytes);
    }

    // Adds as many of the bytes to the pending ones as there is room for. If there is no room, writes the pending bytes first.
    #[tactic(auto, using(crate::proofs::NewFileLemmas::pends, crate::proofs::NewFileLemmas::keeps_more))]
    fn keep(&mut self, bytes: &[u8]) -> Result<usize, DeviceFault>
        ensures bound { GivesSome result bytes.now }
        ensures taken { WriteAppends (⟦<NewFile<'a, F, A> as Outlet>⟧.taken self.old)
            (⟦<NewFile<'a, F, A> as Outlet>⟧.taken self.new) result bytes.now }
        ensures failed { self.new.failures ≡ self.old.failures }
        ensures blame { OnErr result (OutputMayFail F.make_may_fail F.Output.failures) }
    {
        if bytes.is_empty() {
            return Ok(0);
        }
        self.make()?;
        if self.pending.len() == self.pending.capacity() {
            self.write_pending()?;
        }
        let room = self.pending.capacity() - self.pending.len();
        let n = bytes.len().min(room);
        self.add(&bytes[..n]);
        Ok(n)
    }

    /// Makes the file if no byte was given, writes the pending bytes, and syncs the file. The only fault is `Write`.
    #[tactic(auto, using(crate::proofs::NewFileLemmas::keeps_more))]
    pub(crate) fn finish(&mut self) -> Result<(), Fault>
        ensures taken { Keeps (⟦<NewFile<'a, F, A> as Outlet>⟧.taken self.old)
            (⟦<NewFile<'a, F, A> as Outlet>⟧.taken self.new) }
        ensures made { OnOk result (is_some self.new.file ≡ true) }
        ensures none_left { OnOk result (self.new.pending.items ≡ []) }
        ensures failed { self.new.failures ≡ self.old.failures }
        ensures fault { IfErr result (λ e. e ≡ Fault.Write) }
        ensures blame { OnErr result (OutputMayFail F.make_may_fail F.Output.failures) }
    {
        if self.make().is_err() || self.write_pending().is_err() {
            return Err(Fault::Write);
        }
        match &self.file {
            Some(file) if self.files.sync(file).is_ok() => Ok(()),
            _ => Err(Fault::Write),
        }
    }
}

impl<F: Storage, A: Allocator> Outlet for NewFile<'_, F, A> {
    ghost taken = { λ s. append_known (held (F.blank s.files.now s.path.now) F.Output.taken s.file)
        (drop s.written s.pending.items) };

    ghost failures = { λ s. s.failures };

    fn give(&mut self, bytes: &[u8]) -> Result<usize, DeviceFault> {
        match self.keep(bytes) {
            Ok(n) => Ok(n),
            Err(_) => {
                self.failures.add();
                Err(DeviceFault)
            }
        }
    }
}
