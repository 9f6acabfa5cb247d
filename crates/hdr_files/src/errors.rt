//! Errors of the program, and their exit statuses.

ghost use Rattle.std.specs.Prelude.{◌≡◌};
ghost use Rattle.hdr_files.specs.Statuses.{status_of};

use hdr_compare::BatchError;
use hdr_input::InputError;
use hdr_logs::LogError;
use hdr_runs::ReportError;
use hdrhistogram::CreationError;
use hdrhistogram::serialization::CountNotSerializable;
use hdrhistogram::serialization::interval_log::{CommentError, IntervalLogWriterError};
use std::alloc::{AllocError, AllocFailed, Global};
use std::io;
use thiserror::Error;

/// Why the program fails. `file` is the name of a file, or `standard input`.
#[derive(Debug, Error, Drop)]
pub enum StatError {
    /// An argument is invalid in a way that clap does not check.
    #[error("{0}")]
    Usage(String),
    /// Numbers are not read.
    #[error("{file}: {cause}")]
    Numbers { file: String, cause: InputError },
    /// Most lines of numbers are bad, and were skipped.
    #[error("more lines were skipped than counted")]
    MostlySkipped,
    /// Logs are not read, or nothing is made of them.
    #[error("{file}: {cause}")]
    Logs { file: String, cause: LogError },
    /// A file is not opened, or not written.
    #[error("{file}: {cause}")]
    File { file: String, cause: io::Error },
    /// Logs of one run have other units or decimals.
    #[error("the logs of a run have values of different units or decimals; write them by the same --unit and --decimals")]
    OtherScale,
    /// A run has too many samples.
    #[error("a run has 2^40 samples or more")]
    TooManySamples,
    /// A report has too many comparisons.
    #[error("more than 5000 comparisons; choose fewer percentiles or a column with fewer values")]
    TooManyComparisons,
    /// A value overflows where runs have different decimals.
    #[error("a value is too large in units of the last decimal of the finer run")]
    TooLarge,
    #[error("cannot make the log: {0}")]
    Making(IntervalLogWriterError<CountNotSerializable>),
    #[error("cannot write the output: {0}")]
    Output(io::Error),
    #[error("out of memory")]
    OutOfMemory,
}

impl StatError {
    /// Returns the exit status: 2 for a usage error, and 1 for any other.
    pub fn status(&self) -> u8
        ensures { result ≡ status_of self.now }
    {
        match self {
            StatError::Usage(_) => 2,
            _ => 1,
        }
    }

    /// Whether it is of logs that can be read if their values are converted to one scale.
    pub(crate) fn is_of_scale(&self) -> bool {
        match self {
            StatError::Logs { cause, .. } => cause.is_of_scale(),
            _ => matches!(self, StatError::OtherScale),
        }
    }

    /// Returns the error of an argument: the argument in quotes, and what follows.
    pub fn usage(alloc: Global, argument: &str, text: &str) -> StatError {
        match format!(in alloc; "'{argument}' {text}") {
            Ok(text) => StatError::Usage(text),
            Err(_) => StatError::OutOfMemory,
        }
    }

    /// Returns the error of numbers that are not read.
    pub(crate) fn numbers(alloc: Global, file: &str, cause: InputError) -> StatError {
        match (String::from_str(alloc, file), cause) {
            (Err(_), _) | (_, InputError::OutOfMemory) => StatError::OutOfMemory,
            (Ok(file), cause) => StatError::Numbers { file, cause },
        }
    }

    /// Returns the error of logs. What is gathered is written to the output.
    pub(crate) fn logs(alloc: Global, file: &str, cause: LogError) -> StatError {
        match (String::from_str(alloc, file), cause) {
            (Err(_), _) | (_, LogError::OutOfMemory) => StatError::OutOfMemory,
            (_, LogError::Write(IntervalLogWriterError::IoError(cause))) => {
                StatError::Output(cause)
            }
            (Ok(file), cause) => StatError::Logs { file, cause },
        }
    }

    /// Returns the error of a file that is not opened, or not written.
    pub(crate) fn file(alloc: Global, file: &str, cause: io::Error) -> StatError {
        match String::from_str(alloc, file) {
            Ok(file) => StatError::File { file, cause },
            Err(_) => StatError::OutOfMemory,
        }
    }
}

impl From<AllocError> for StatError {
    fn from(_error: AllocError) -> StatError {
        StatError::OutOfMemory
    }
}

impl<T: Drop> From<AllocFailed<T>> for StatError {
    fn from(_error: AllocFailed<T>) -> StatError {
        StatError::OutOfMemory
    }
}

impl From<BatchError> for StatError {
    fn from(error: BatchError) -> StatError {
        match error {
            BatchError::TooMany => StatError::TooManySamples,
            BatchError::OutOfMemory => StatError::OutOfMemory,
        }
    }
}

impl From<ReportError> for StatError {
    fn from(error: ReportError) -> StatError {
        match error {
            ReportError::TooManyComparisons => StatError::TooManyComparisons,
            ReportError::TooLarge => StatError::TooLarge,
            ReportError::OutOfMemory => StatError::OutOfMemory,
        }
    }
}

impl From<CommentError> for StatError {
    fn from(_error: CommentError) -> StatError {
        StatError::OutOfMemory
    }
}

/// Significant digits are valid, as clap checks them, so only memory runs out.
impl From<CreationError> for StatError {
    fn from(_error: CreationError) -> StatError {
        StatError::OutOfMemory
    }
}

impl From<IntervalLogWriterError<CountNotSerializable>> for StatError {
    fn from(error: IntervalLogWriterError<CountNotSerializable>) -> StatError {
        match error {
            IntervalLogWriterError::OutOfMemory => StatError::OutOfMemory,
            error => StatError::Making(error),
        }
    }
}
