//! The errors of encoding and decoding.

use std::io;
use thiserror::Error;

/// Why a histogram is not encoded as V2 bytes.
#[derive(Debug, Drop, Error)]
pub enum V2SerializeError {
    /// A count is above `i64::MAX`, the greatest that zig-zag encodes.
    #[error("A count above i64::MAX cannot be zig-zag encoded")]
    CountNotSerializable,

    /// A length does not fit a `usize`. It is never returned: a histogram has at most 56,623,144
    /// bytes.
    #[error("Internal calculations cannot be represented in `usize`")]
    UsizeTypeTooSmall,

    /// The writer failed, was interrupted, or wrote no byte.
    #[error("An i/o operation failed: {0}")]
    IoError(io::Error),

    /// The buffer could not grow.
    #[error("Out of memory")]
    OutOfMemory,
}

/// A count is above `i64::MAX`, the greatest that zig-zag encodes: the only reason, apart from
/// memory, for which `IntervalLogWriter::write_v2` can't encode a histogram.
#[derive(Debug, Clone, Copy, PartialEq, Eq, Drop, Error)]
#[error("A count above i64::MAX cannot be zig-zag encoded")]
pub struct CountNotSerializable;

impl From<io::Error> for V2SerializeError {
    ghost use Rattle.std.specs.Prelude.{◌≡◌};
    ghost use Rattle.hdrhistogram.specs.declared.serialization.errors.V2SerializeError.TheVariants.{IoError};

    ghost from_gives = { λ cause error. error ≡ IoError cause };

    fn from(cause: io::Error) -> V2SerializeError {
        V2SerializeError::IoError(cause)
    }
}

/// Why bytes are not decoded as a histogram.
#[derive(Debug, Drop, Error)]
pub enum DeserializeError {
    /// The reader failed or was interrupted, the bytes end inside the histogram, or the payload
    /// ends inside a varint.
    #[error("An i/o operation failed: {0}")]
    IoError(io::Error),

    /// The first four bytes are not the cookie of a known format.
    #[error("The cookie (first 4 bytes) did not match that for any supported format")]
    InvalidCookie,

    /// The bytes are compressed, or their values are shifted or scaled: the normalizing offset is
    /// not 0, or the ratio of integers to doubles is not 1.0.
    #[error("The histogram uses features that this implementation doesn't support")]
    UnsupportedFeature,

    /// A count is above the greatest number of the counter type.
    #[error("A count exceeded what can be represented in the chosen counter type")]
    UnsuitableCounterType,

    /// No histogram has these bounds and digits.
    #[error("The serialized parameters were invalid(e.g. lowest value, highest value, etc)")]
    InvalidParameters,

    /// The index of a bin would be above `u64::MAX`.
    #[error("The current system's pointer width cannot represent the encoded histogram")]
    UsizeTypeTooSmall,

    /// A nonzero count is past the last bin.
    #[error("The encoded array is longer than it should be for the histogram's value range")]
    EncodedArrayTooLong,

    /// The counters or the buffer could not be allocated.
    #[error("Out of memory")]
    OutOfMemory,
}

/// Why the field of an interval is not decoded as a histogram.
#[derive(Debug, Drop, Error)]
pub enum FieldDecodeError {
    /// The field is not valid Base64.
    #[error("not base64")]
    NotBase64,

    /// The bytes of the field are not a histogram.
    #[error("{0}")]
    Decode(DeserializeError),

    /// The bytes or the counters could not be allocated.
    #[error("Out of memory")]
    OutOfMemory,
}

impl From<io::Error> for DeserializeError {
    ghost use Rattle.std.specs.Prelude.{◌≡◌};
    ghost use Rattle.hdrhistogram.specs.declared.serialization.errors.DeserializeError.TheVariants.{IoError};

    ghost from_gives = { λ cause error. error ≡ IoError cause };

    fn from(cause: io::Error) -> DeserializeError {
        DeserializeError::IoError(cause)
    }
}
