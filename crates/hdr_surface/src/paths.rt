//! One type by each of its paths. `Counter` is a bound by each of its three.

use hdrhistogram::serialization::{
    DeserializeError, Deserializer, V2SerializeError, V2Serializer, deserializer, v2_serializer,
};
use hdrhistogram::{
    AdditionError, CreationError, RecordError, SubtractionError, UsizeTypeTooSmall, errors,
};

pub fn serializer(serializer: v2_serializer::V2Serializer) -> V2Serializer {
    serializer
}

pub fn serialize_error(error: v2_serializer::V2SerializeError) -> V2SerializeError {
    error
}

pub fn deserializer(deserializer: deserializer::Deserializer) -> Deserializer {
    deserializer
}

pub fn deserialize_error(error: deserializer::DeserializeError) -> DeserializeError {
    error
}

/// It is defined with the deserializer.
pub fn decode_zig_zag(encoded: u64) -> i64 {
    deserializer::zig_zag_decode(encoded)
}

pub fn creation_error(error: errors::CreationError) -> CreationError {
    error
}

pub fn record_error(error: errors::RecordError) -> RecordError {
    error
}

pub fn addition_error(error: errors::AdditionError) -> AdditionError {
    error
}

pub fn subtraction_error(error: errors::SubtractionError) -> SubtractionError {
    error
}

pub fn usize_error(error: errors::UsizeTypeTooSmall) -> UsizeTypeTooSmall {
    error
}

/// `hdr_core` names it too.
pub fn creation_error_of_core(error: hdr_core::CreationError) -> CreationError {
    error
}

pub fn histogram<T: hdr_core::Counter>(
    histogram: hdr_core::Histogram<T>,
) -> hdrhistogram::Histogram<T> {
    histogram
}

/// The iterators are in `hdr_core` too.
pub fn iterator<T: hdrhistogram::Counter>(
    histogram: &hdrhistogram::Histogram<T>,
) -> hdr_core::iterators::HistogramIterator<'_, T, hdr_core::iterators::all::Iter> {
    histogram.iter_all()
}

/// By four paths.
pub fn item<T: hdr_base::Counter>(
    item: &hdr_base::IterationValue<T>,
) -> &hdrhistogram::iterators::IterationValue<T> {
    let core: &hdr_core::IterationValue<T> = item;
    let root: &hdrhistogram::IterationValue<T> = core;
    root
}

/// By three paths.
pub fn quantile(quantile: hdr_base::Quantile) -> hdr_core::Quantile {
    let again: hdrhistogram::Quantile = quantile;
    again
}

/// By three paths.
pub fn fraction(fraction: hdr_base::Fraction) -> hdr_core::Fraction {
    let again: hdrhistogram::Fraction = fraction;
    again
}

/// By three paths.
pub fn ticks(ticks: hdr_base::Ticks) -> hdr_core::Ticks {
    let again: hdrhistogram::Ticks = ticks;
    again
}
