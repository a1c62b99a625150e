//! Why the program stops without doing what was asked, and with which status.
ghost use Rattle.std.specs.Prelude.{◌≡◌, ◌≤◌, ◌⊎◌};
ghost use Rattle.std.specs.IoError.{error_kind};
ghost use Rattle.command.specs.Statuses.{failure_status};
ghost use Rattle.command.specs.declared.failure.Failure.TheVariants.{Fault as OfFault};
ghost use Rattle.octets.specs.declared.fault.Fault.TheVariants.{OutOfMemory};

use octets::Fault;
use std::alloc::AllocError;
use std::io::ErrorKind;
use std::{fmt, io};
use vectors::VectorFault;

/// Why the program stops. `Display` writes the text that follows `aeadkit: ` on standard error: a name, or the text of a fault.
#[derive(Clone, Copy)]
pub enum Failure {
    /// The words are not a valid command line.
    Words,
    /// No suite has this name.
    UnknownSuite,
    /// A hexadecimal value is not an even number of hex digits.
    BadHex,
    /// A call was refused, a read or a write failed, or an allocation failed.
    Fault(Fault),
    /// A file is not a vector file, so it has no report.
    Vector(VectorFault),
}

impl fmt::Display for Failure {
    ghost use Rattle.std.specs.Prelude.{Some};
    ghost use Rattle.command.specs.Names.{failure_text};

    ghost output = { λ failure. Some (failure_text failure) };

    fn fmt<W: fmt::Write>(&self, f: &mut fmt::Formatter<W>) -> fmt::Result {
        match self {
            Failure::Words => f.write_str("Words"),
            Failure::UnknownSuite => f.write_str("UnknownSuite"),
            Failure::BadHex => f.write_str("BadHex"),
            Failure::Fault(fault) => fault.fmt(f),
            Failure::Vector(fault) => fault.fmt(f),
        }
    }
}

impl Failure {
    /// Returns the status that the program ends with, from 1 to 4.
    pub fn status(self) -> u8
        ensures value { result ≡ failure_status self }
        ensures bound { result ≤ 4 }
    {
        match self {
            Failure::Words | Failure::UnknownSuite | Failure::BadHex => 2,
            Failure::Fault(fault) => match fault {
                Fault::TooShort | Fault::TagMismatch | Fault::WrapIntegrity => 1,
                Fault::KeyLength
                | Fault::NonceLength
                | Fault::TextTooLong
                | Fault::AadTooLong
                | Fault::WrapLength
                | Fault::StreamEnd => 2,
                Fault::Read | Fault::Write | Fault::SourceChanged => 3,
                Fault::OutOfMemory => 4,
            },
            Failure::Vector(fault) => match fault {
                VectorFault::OutOfMemory => 4,
                _ => 1,
            },
        }
    }
}

impl From<Fault> for Failure {
    ghost from_gives = { λ fault failure. failure ≡ OfFault fault };

    fn from(fault: Fault) -> Failure {
        Failure::Fault(fault)
    }
}

impl From<AllocError> for Failure {
    ghost from_gives = { λ _ failure. failure ≡ OfFault OutOfMemory };

    fn from(_error: AllocError) -> Failure {
        Failure::Fault(Fault::OutOfMemory)
    }
}

// Returns the fault of a failed read or write: `OutOfMemory` if that is its kind, else the given fault.
pub(crate) fn fault_of(error: &io::Error, otherwise: Fault) -> Fault
    ensures memory { error_kind error.now ≡ ErrorKind.OutOfMemory → result ≡ Fault.OutOfMemory }
    ensures either { (result ≡ Fault.OutOfMemory) ⊎ (result ≡ otherwise) }
{
    match error.kind() {
        ErrorKind::OutOfMemory => Fault::OutOfMemory,
        _ => otherwise,
    }
}
