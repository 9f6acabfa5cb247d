//! Every variant of the errors that no guarantee here matches.

use hdrhistogram::serialization::DeserializeError;
use hdrhistogram::serialization::interval_log::CommentError;

pub fn deserializing(error: &DeserializeError) -> u64 {
    match error {
        DeserializeError::IoError(_) => 1,
        DeserializeError::InvalidCookie => 2,
        DeserializeError::UnsupportedFeature => 3,
        DeserializeError::UnsuitableCounterType => 4,
        DeserializeError::InvalidParameters => 5,
        DeserializeError::UsizeTypeTooSmall => 6,
        DeserializeError::EncodedArrayTooLong => 7,
        DeserializeError::OutOfMemory => 8,
    }
}

/// The only variant.
pub fn comment(error: &CommentError) -> u64 {
    match error {
        CommentError::OutOfMemory => 1,
    }
}
