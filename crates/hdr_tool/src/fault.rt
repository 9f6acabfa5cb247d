//! The errors of a run.

ghost use Rattle.std.specs.Prelude.{◌≡◌};

use hdrhistogram::serialization::interval_log::IntervalLogWriterError;
use hdrhistogram::serialization::{DeserializeError, V2SerializeError};
use std::alloc::AllocError;
use std::fmt;

/// Why a run fails. It is displayed as the fault line on standard error; this allocates nothing.
#[derive(Debug, Drop)]
pub enum Fault {
    /// The arguments are not a command of the program: a usage error.
    Usage,
    /// The line of this number, from 1, is not a command.
    NotACommand(u64),
    /// The interval that ends at the line of this number was not written.
    NotWritten(u64, IntervalLogWriterError<V2SerializeError>),
    /// The line that starts at this byte is not a line of a log.
    NotALog(usize),
    /// The field of the interval of this number, from 1, is not valid Base64.
    NotBase64(u64),
    /// The bytes of the interval of this number, from 1, are not a histogram.
    NotRead(u64, DeserializeError),
    /// An allocation failed.
    NoMemory,
    /// The input could not be read.
    CannotRead,
    /// The output could not be written.
    CannotWrite,
}

impl Fault {
    ghost use Rattle.hdr_tool.specs.Outcomes.{status_of};

    /// The exit status of the program: 2 for a usage error, 1 for any other `Fault`.
    pub fn status(&self) -> u8
        ensures { result ≡ status_of self.now }
    {
        match self {
            Fault::Usage => 2,
            _ => 1,
        }
    }
}

impl From<AllocError> for Fault {
    ghost use Rattle.std.specs.Prelude.{◌≡◌};
    ghost use Rattle.hdr_tool.specs.declared.fault.Fault.TheVariants.{NoMemory};

    ghost from_gives = { λ _ fault. fault ≡ NoMemory };

    fn from(_error: AllocError) -> Fault {
        Fault::NoMemory
    }
}

impl fmt::Display for Fault {
    ghost use Rattle.hdr_tool.specs.Outcomes.{fault_text};

    ghost output = { fault_text };

    fn fmt<W: fmt::Write>(&self, f: &mut fmt::Formatter<W>) -> fmt::Result {
        match self {
            Fault::Usage => write!(
                f,
                "hdr: usage: hdr report SIGFIG Q.. | hdr log SIGFIG | hdr merge [--into COUNTER] [--tag T] [--from MS] [--to MS] SIGFIG Q.."
            ),
            Fault::NotACommand(line) => write!(f, "hdr: line {line}: not a command"),
            Fault::NotWritten(line, cause) => write!(f, "hdr: line {line}: {cause}"),
            Fault::NotALog(at) => write!(f, "hdr: log: parse error at byte {at}"),
            Fault::NotBase64(interval) => write!(f, "hdr: interval {interval}: not base64"),
            Fault::NotRead(interval, cause) => write!(f, "hdr: interval {interval}: {cause}"),
            Fault::NoMemory => write!(f, "hdr: no memory"),
            Fault::CannotRead => write!(f, "hdr: cannot read the input"),
            Fault::CannotWrite => write!(f, "hdr: cannot write the output"),
        }
    }
}
