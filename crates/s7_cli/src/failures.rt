ghost use Rattle.std.specs.Prelude.{◌≡◌};
ghost use Rattle.s7_cli.specs.Answer.{exit_status, refused_file_status};
ghost use Rattle.s7_cli.specs.Faults.{failure_of_certificate, failure_of_compiling, failure_of_history, failure_of_loading, failure_of_text};

use crate::faults::CompileFault;
use event_text::TextFault;
use image_file::{LoadError, LoadFault};
use plc_base::Refusal;
use stack_bound::CertificateFault;
use std::alloc::AllocError;

/// A file that a command reads, or a text that it makes of one.
#[derive(Clone, Copy, Debug, PartialEq, Eq)]
pub enum File {
    Source,
    /// The translation of a source.
    Translation,
    Symbols,
    Image,
    /// A text of the listing of an image.
    Listing,
    History,
    Stimuli,
    /// What the last operator of a watch reads.
    Vars,
    /// The script of an operator, by his number.
    Script { number: u8 },
    Certificate,
}

/// Why a command wasn't done.
#[derive(Clone, Copy, Debug, PartialEq, Eq)]
pub enum Failure {
    /// The words of the call aren't those of a command.
    WordsRefused,
    /// A file can't be read.
    ReadFault,
    /// A file holds a byte past its limit, or a translation or a text of a listing would.
    TooLong { file: File },
    /// A file breaks a rule.
    Refused { file: File, refusal: Refusal },
    /// An image isn't that of a program that verifies.
    ImageRefused { fault: LoadFault },
    /// The listing of an image doesn't compile to its program.
    NoListing,
    /// A certificate doesn't hold.
    SaysNo,
    /// A chain of calls is too deep, and its line was written.
    TooDeep,
    /// The sink or an output file couldn't be written.
    WriteFault,
    /// Memory ran out.
    NoMemory,
}

impl From<AllocError> for Failure {
    ghost use Rattle.s7_cli.specs.declared.failures.Failure.TheVariants.{NoMemory};

    ghost from_gives = { λ _ failure. failure ≡ NoMemory };

    fn from(_error: AllocError) -> Failure {
        Failure::NoMemory
    }
}

impl From<CompileFault> for Failure {
    ghost from_gives = { λ fault failure. failure ≡ failure_of_compiling fault };

    fn from(fault: CompileFault) -> Failure {
        match fault {
            CompileFault::Symbols { refusal } => Failure::Refused {
                file: File::Symbols,
                refusal,
            },
            CompileFault::Source { refusal } => Failure::Refused {
                file: File::Source,
                refusal,
            },
            CompileFault::NoMemory => Failure::NoMemory,
        }
    }
}

impl From<LoadError> for Failure {
    ghost from_gives = { λ fault failure. failure ≡ failure_of_loading fault };

    fn from(error: LoadError) -> Failure {
        match error {
            LoadError::Fault { fault } => Failure::ImageRefused { fault },
            LoadError::NoMemory => Failure::NoMemory,
        }
    }
}

/// The failure by a fault of this file: a history, stimuli or a script.
pub(crate) fn failure_of_text(file: File, fault: TextFault) -> Failure
    ensures { result ≡ failure_of_text file fault }
{
    match fault {
        TextFault::BadLine { line, rule } => Failure::Refused {
            file,
            refusal: Refusal { line, rule },
        },
        TextFault::NoMemory => Failure::NoMemory,
    }
}

impl From<TextFault> for Failure {
    ghost from_gives = { λ fault failure. failure ≡ failure_of_history fault };

    fn from(fault: TextFault) -> Failure {
        failure_of_text(File::History, fault)
    }
}

impl From<CertificateFault> for Failure {
    ghost from_gives = { λ fault failure. failure ≡ failure_of_certificate fault };

    fn from(fault: CertificateFault) -> Failure {
        match fault {
            CertificateFault::BadLine { line, rule } => Failure::Refused {
                file: File::Certificate,
                refusal: Refusal { line, rule },
            },
            CertificateFault::NoMemory => Failure::NoMemory,
        }
    }
}

/// The exit status of a call.
#[derive(Clone, Copy, Debug, PartialEq, Eq)]
pub struct ExitStatus {
    pub code: u8,
}

/// The exit status where this file breaks a rule.
fn refused_code(file: File) -> u8
    ensures { result ≡ refused_file_status file }
{
    match file {
        File::Source | File::Translation | File::Symbols => 2,
        File::Image | File::Listing => 3,
        File::History | File::Stimuli | File::Vars | File::Script { .. } | File::Certificate => 4,
    }
}

impl ExitStatus {
    /// The exit status of a command that came out so.
    pub fn of(outcome: Result<(), Failure>) -> ExitStatus
        ensures { result.code ≡ exit_status outcome }
    {
        let code = match outcome {
            Ok(()) => 0,
            Err(Failure::WordsRefused) => 1,
            Err(Failure::Refused { file, .. }) => refused_code(file),
            Err(Failure::ImageRefused { .. }) => 3,
            Err(Failure::ReadFault) => 5,
            Err(Failure::WriteFault) => 6,
            Err(Failure::NoMemory) => 7,
            Err(Failure::TooLong { .. }) => 8,
            Err(Failure::NoListing) => 9,
            Err(Failure::SaysNo | Failure::TooDeep) => 10,
        };
        ExitStatus { code }
    }
}
