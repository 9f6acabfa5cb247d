//! The traits of the types: printed, compared and copied.

use hdrhistogram::serialization::interval_log::{
    CommentError, IntervalLogHistogram, IntervalLogWriterError, LogEntry, LogIteratorError,
    MergeError, Tag,
};
use hdrhistogram::serialization::{DeserializeError, V2SerializeError};
use hdrhistogram::{
    AdditionError, CallError, CreationError, Fraction, Histogram, IterationValue, Quantile,
    RecordError, RunError, SubtractionError, UsizeTypeTooSmall,
};
use std::error::Error;
use std::fmt::{Debug, Display};

pub fn is_debug<T: Debug>() {}

pub fn is_compared<T: Debug + PartialEq>() {}

pub fn is_copied<T: Debug + PartialEq + Clone + Copy>() {}

pub fn is_error<E: Debug + Display + Error>() {}

pub fn is_plain_error<E: Debug + PartialEq + Eq + Display + Error>() {}

/// A histogram is `Debug`. Items and entries are compared, and small values copied.
pub fn types<'a>() {
    is_debug::<Histogram<u8>>();
    is_debug::<Histogram<u64>>();
    is_compared::<IterationValue<u64>>();
    is_compared::<LogEntry<'a>>();
    is_compared::<IntervalLogHistogram<'a>>();
    is_compared::<LogIteratorError>();
    is_copied::<Tag<'a>>();
    is_copied::<Quantile>();
    is_copied::<Fraction>();
}

/// Errors without a stream's error inside are compared too.
pub fn errors() {
    is_plain_error::<CreationError>();
    is_plain_error::<RecordError>();
    is_plain_error::<AdditionError>();
    is_plain_error::<SubtractionError>();
    is_plain_error::<CommentError>();
    is_plain_error::<CallError>();
    is_plain_error::<RunError>();
    is_error::<UsizeTypeTooSmall>();
    is_error::<V2SerializeError>();
    is_error::<DeserializeError>();
    is_error::<IntervalLogWriterError<V2SerializeError>>();
    is_error::<IntervalLogWriterError<CommentError>>();
    is_error::<MergeError>();
}
