//! Why a log is not read.

ghost use Rattle.hdr_logs.specs.Errors.{IsFieldError, IsReadError};

use crate::headers::UnitName;
use crate::lines::LONGEST;
use crate::place::Place;
use hdr_convert::ConvertError;
use hdrhistogram::serialization::interval_log::{CommentError, IntervalLogWriterError};
use hdrhistogram::serialization::{CountNotSerializable, DeserializeError, FieldDecodeError};
use hdrhistogram::{AdditionError, CreationError};
use std::alloc::{AllocError, AllocFailed};
use std::io;
use thiserror::Error;

/// Why a log is not read.
#[derive(Debug, Drop, Error)]
pub enum LogError {
    /// The line is neither an interval nor a line that is skipped.
    #[error("{place}: `{text}` is not a line of an interval log")]
    NotALine {
        place: Place,
        text: String,
    },
    /// The same of the first line.
    #[error("{place}: `{text}` is not a line of an interval log; `hdrstat log` makes a log of numbers, and `page --column` reads a table")]
    NotALog {
        place: Place,
        text: String,
    },
    /// The line begins as a file that is compressed.
    #[error("{0}: the log is compressed by gzip; `gzip -dc FILE | hdrstat ..` reads it")]
    Gzip(Place),
    /// The line has at least `LONGEST` bytes.
    #[error("{place}: `{text}` begins a line of {LONGEST} bytes or more")]
    TooLong {
        place: Place,
        text: String,
    },
    /// The values have other decimals than those of other intervals.
    #[error("{place}: the values have {decimals} decimals, and others {others}; `hdrstat gather --unsorted` makes one log of both")]
    OtherDecimals {
        place: Place,
        decimals: u32,
        others: u32,
    },
    /// The values have another unit than those of other intervals.
    #[error("{place}: the values are in {unit}, and others in {others}; `hdrstat gather --unsorted` makes one log of both")]
    OtherUnit {
        place: Place,
        unit: UnitName,
        others: UnitName,
    },
    /// The values have a unit, and those of other intervals have none, or the other way round.
    #[error("{place}: the values are in {unit}, and others in {others}; a log has a unit if it begins with a line such as #[Values are in ms]")]
    MissingUnit {
        place: Place,
        unit: UnitName,
        others: UnitName,
    },
    /// A value of the interval does not fit 64 bits in the scale of others.
    #[error("{0}: a value does not fit 64 bits in the unit and the decimals of other intervals")]
    TooLarge(Place),
    /// The histogram of the interval is not decoded.
    #[error("{place}: {cause}")]
    Field {
        place: Place,
        cause: FieldDecodeError,
    },
    /// The histogram of the interval is not converted.
    #[error("{place}: {cause}")]
    Conversion {
        place: Place,
        cause: ConvertError,
    },
    /// The interval is not stored.
    #[error("{0}: the interval begins past 64 bits of milliseconds")]
    TooLate(Place),
    /// The interval begins before the one above it.
    #[error("{0}: the interval begins before the one above it; --unsorted gathers such logs")]
    NotSorted(Place),
    #[error("{0}: the interval is neither finer nor coarser than others of its time and tag")]
    NotNested(Place),
    /// A level has a unit, and the values have none.
    #[error("the values have no unit, and a level has one; set theirs by --unit")]
    NoUnit,
    /// A log is not written.
    #[error("{0}")]
    Write(IntervalLogWriterError<CountNotSerializable>),
    /// The file of this index is not read.
    #[error("cannot read: {cause}")]
    Io {
        file: usize,
        cause: io::Error,
    },
    #[error("a log has 2^64 lines or more")]
    TooManyLines,
    #[error("out of memory")]
    OutOfMemory,
}

impl From<AllocError> for LogError {
    ghost use Rattle.std.specs.Prelude.{◌≡◌};
    ghost use Rattle.hdr_logs.specs.declared.errors.LogError.TheVariants.{OutOfMemory};

    ghost from_gives = { λ _ error. error ≡ OutOfMemory };

    fn from(_error: AllocError) -> LogError {
        LogError::OutOfMemory
    }
}

impl<T: Drop> From<AllocFailed<T>> for LogError {
    ghost use Rattle.std.specs.Prelude.{◌≡◌};
    ghost use Rattle.hdr_logs.specs.declared.errors.LogError.TheVariants.{OutOfMemory};

    ghost from_gives = { λ _ error. error ≡ OutOfMemory };

    fn from(_error: AllocFailed<T>) -> LogError {
        LogError::OutOfMemory
    }
}

// Sums have valid digits and grow, so that they are not made or not added to only if memory runs out.
impl From<CreationError> for LogError {
    ghost use Rattle.std.specs.Prelude.{◌≡◌};
    ghost use Rattle.hdr_logs.specs.declared.errors.LogError.TheVariants.{OutOfMemory};

    ghost from_gives = { λ _ error. error ≡ OutOfMemory };

    fn from(_error: CreationError) -> LogError {
        LogError::OutOfMemory
    }
}

impl From<AdditionError> for LogError {
    ghost use Rattle.std.specs.Prelude.{◌≡◌};
    ghost use Rattle.hdr_logs.specs.declared.errors.LogError.TheVariants.{OutOfMemory};

    ghost from_gives = { λ _ error. error ≡ OutOfMemory };

    fn from(_error: AdditionError) -> LogError {
        LogError::OutOfMemory
    }
}

impl From<CommentError> for LogError {
    ghost use Rattle.std.specs.Prelude.{◌≡◌};
    ghost use Rattle.hdr_logs.specs.declared.errors.LogError.TheVariants.{OutOfMemory};

    ghost from_gives = { λ _ error. error ≡ OutOfMemory };

    fn from(_error: CommentError) -> LogError {
        LogError::OutOfMemory
    }
}

impl From<IntervalLogWriterError<CountNotSerializable>> for LogError {
    ghost use Rattle.std.specs.Prelude.{◌≡◌};
    ghost use Rattle.hdr_logs.specs.Errors.{of_writing};

    ghost from_gives = { λ cause error. error ≡ of_writing cause };

    fn from(error: IntervalLogWriterError<CountNotSerializable>) -> LogError {
        match error {
            IntervalLogWriterError::OutOfMemory => LogError::OutOfMemory,
            error => LogError::Write(error),
        }
    }
}

impl LogError {
    /// Returns the index of the file that has the error, if one has.
    pub fn file(&self) -> Option<usize> {
        match self {
            LogError::NotALine { place, .. }
            | LogError::NotALog { place, .. }
            | LogError::TooLong { place, .. }
            | LogError::OtherDecimals { place, .. }
            | LogError::OtherUnit { place, .. }
            | LogError::MissingUnit { place, .. }
            | LogError::Field { place, .. }
            | LogError::Conversion { place, .. }
            | LogError::Gzip(place)
            | LogError::TooLarge(place)
            | LogError::TooLate(place)
            | LogError::NotSorted(place)
            | LogError::NotNested(place) => Some(place.file),
            LogError::Io { file, .. } => Some(*file),
            _ => None,
        }
    }

    /// Whether the logs can be read if their values are converted to one scale.
    pub fn is_of_scale(&self) -> bool {
        matches!(
            self,
            LogError::OtherDecimals { .. } | LogError::OtherUnit { .. }
        )
    }

    /// Returns the error of a reader that fails in a line.
    pub(crate) fn of_reading(place: Place, cause: io::Error) -> LogError
        ensures { IsReadError place result }
    {
        match cause.kind() {
            io::ErrorKind::OutOfMemory => LogError::OutOfMemory,
            _ => LogError::Io {
                file: place.file,
                cause,
            },
        }
    }

    /// Returns the error of an interval whose histogram is not decoded.
    pub fn of_field(place: Place, cause: FieldDecodeError) -> LogError
        ensures { IsFieldError place result }
    {
        match cause {
            FieldDecodeError::OutOfMemory => LogError::OutOfMemory,
            FieldDecodeError::Decode(DeserializeError::IoError(_)) => LogError::Conversion {
                place,
                cause: ConvertError::Incomplete,
            },
            cause => LogError::Field { place, cause },
        }
    }

    /// Returns the error of an interval whose histogram is not converted.
    pub(crate) fn of_conversion(place: Place, cause: ConvertError) -> LogError
        ensures { IsFieldError place result }
    {
        match cause {
            ConvertError::OutOfMemory => LogError::OutOfMemory,
            cause => LogError::Conversion { place, cause },
        }
    }
}
