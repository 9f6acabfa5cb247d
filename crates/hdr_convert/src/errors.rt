//! Why a histogram is not converted.

use hdr_zlib::InflateError;
use hdrhistogram::CreationError;
use hdrhistogram::serialization::V2SerializeError;
use std::alloc::{AllocError, AllocFailed};
use thiserror::Error;

/// Why a line of a log is not converted.
#[derive(Clone, Copy, Debug, PartialEq, Eq, Error)]
pub enum ConvertError {
    /// The line of an interval has no comma.
    #[error("not a line of a log")]
    NotALine,
    /// Its last field is not valid Base64.
    #[error("not base64")]
    NotBase64,
    /// The bytes do not start as those of a histogram.
    #[error("not a histogram")]
    NotAHistogram,
    /// The bytes start as those of a version before V2. A conversion returns this only if the width
    /// of the counters is unknown.
    #[error("a histogram of version {0} with counters of an unknown width")]
    OldVersion(u8),
    /// A histogram of version 1 shifts its values, or has a ratio other than 1.
    #[error("a histogram with shifted or scaled values")]
    Unsupported,
    /// No histogram has the bounds, the digits or the counts of one of version 0 or 1.
    #[error("the bounds, the digits or a count of the histogram are invalid")]
    Bounds,
    /// The bytes start as those of a histogram of floating-point values.
    #[error("a double histogram")]
    DoubleHistogram,
    /// The bytes end before the histogram does.
    #[error("the histogram is incomplete")]
    Incomplete,
    /// What is compressed does not start as V2 bytes.
    #[error("the compressed bytes are not a histogram")]
    NotV2Inside,
    /// The zlib stream is invalid.
    #[error("invalid compressed histogram: {0}")]
    Inflate(InflateError),
    /// An allocation failed.
    #[error("out of memory")]
    OutOfMemory,
}

impl From<InflateError> for ConvertError {
    ghost use Rattle.hdr_convert.specs.Errors.{of_inflate};
    ghost use Rattle.std.specs.Prelude.{◌≡◌};

    ghost from_gives = { λ cause error. error ≡ of_inflate cause };

    fn from(error: InflateError) -> ConvertError {
        match error {
            InflateError::OutOfMemory => ConvertError::OutOfMemory,
            _ => ConvertError::Inflate(error),
        }
    }
}

impl From<CreationError> for ConvertError {
    fn from(error: CreationError) -> ConvertError {
        match error {
            CreationError::OutOfMemory => ConvertError::OutOfMemory,
            _ => ConvertError::Bounds,
        }
    }
}

impl From<V2SerializeError> for ConvertError {
    fn from(error: V2SerializeError) -> ConvertError {
        match error {
            V2SerializeError::OutOfMemory => ConvertError::OutOfMemory,
            _ => ConvertError::Bounds,
        }
    }
}

impl From<AllocError> for ConvertError {
    ghost use Rattle.std.specs.Prelude.{◌≡◌};
    ghost use Rattle.hdr_convert.specs.declared.errors.ConvertError.TheVariants.{OutOfMemory};

    ghost from_gives = { λ _ error. error ≡ OutOfMemory };

    fn from(_: AllocError) -> ConvertError {
        ConvertError::OutOfMemory
    }
}

impl<T: Drop> From<AllocFailed<T>> for ConvertError {
    ghost use Rattle.std.specs.Prelude.{◌≡◌};
    ghost use Rattle.hdr_convert.specs.declared.errors.ConvertError.TheVariants.{OutOfMemory};

    ghost from_gives = { λ _ error. error ≡ OutOfMemory };

    fn from(_: AllocFailed<T>) -> ConvertError {
        ConvertError::OutOfMemory
    }
}
