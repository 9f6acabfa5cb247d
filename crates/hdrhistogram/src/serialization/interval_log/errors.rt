//! The errors of writing a log.

use std::fmt::Display;
use std::io;
use thiserror::Error;

/// Why a comment is not added to a builder.
#[derive(Debug, PartialEq, Eq, Drop, Error)]
pub enum CommentError {
    /// The builder could not grow.
    #[error("Out of memory")]
    OutOfMemory,
}

/// Why comments, headers or an interval are not written to a log.
#[derive(Debug, Drop, Error)]
#[error_bound(E: Display)]
pub enum IntervalLogWriterError<E> {
    /// The serializer returned an error.
    #[error("Histogram serialization failed: {0}")]
    SerializeError(E),

    /// The writer failed, was interrupted, or wrote no byte.
    #[error("An i/o error occurred: {0}")]
    IoError(io::Error),

    /// The seconds of a time, once it is rounded, do not fit a `u64`.
    #[error("A time is past the seconds that a u64 holds")]
    TimeOutOfRange,

    /// The output, or the bytes of the histogram, could not be allocated.
    #[error("Out of memory")]
    OutOfMemory,
}

impl<E> From<io::Error> for IntervalLogWriterError<E> {
    ghost use Rattle.std.specs.Prelude.{◌≡◌};
    ghost use Rattle.hdrhistogram.specs.declared.serialization.interval_log.errors.IntervalLogWriterError.TheVariants.{IoError};

    ghost from_gives = { λ cause error. error ≡ IoError cause };

    fn from(cause: io::Error) -> IntervalLogWriterError<E> {
        IntervalLogWriterError::IoError(cause)
    }
}
