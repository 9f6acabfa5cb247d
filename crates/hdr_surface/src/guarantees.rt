//! What a caller may rely on: a variant that can't occur is `unreachable!()`, and what is there or succeeds is unwrapped.

use hdrhistogram::serialization::interval_log::{
    IntervalLogWriter, IntervalLogWriterBuilder, IntervalLogWriterError, Tag,
};
use hdrhistogram::serialization::{V2SerializeError, V2Serializer};
use hdrhistogram::{
    AdditionError, Call, CallError, Counter, CreationError, Histogram, RecordError,
    SubtractionError,
};
use std::alloc::Global;
use std::io::Write;

/// The number of a counter converts back.
pub fn same_counter<T: Counter>(counter: T) -> T {
    T::from_u64(counter.as_u64()).unwrap()
}

/// The value and the count of a bin. Guard: an index below `distinct_values`.
pub fn bin_at<T: Counter>(histogram: &Histogram<T>, index: usize) -> (u64, T) {
    if index >= histogram.distinct_values() {
        return (0, T::zero());
    }
    (
        histogram.bin_value(index).unwrap(),
        histogram.bin_count(index).unwrap(),
    )
}

/// The bin of a value is a bin.
pub fn count_of<T: Counter>(histogram: &Histogram<T>, value: u64) -> Option<T> {
    let bin = histogram.bin_of(value)?;
    Some(histogram.bin_count(bin).unwrap())
}

/// The greatest value has a bin.
pub fn last_bin<T: Counter>(histogram: &Histogram<T>) -> usize {
    histogram.bin_of(histogram.max()).unwrap()
}

/// A `low` of 0 is an error.
pub fn low_of_zero<T: Counter>(alloc: Global, high: u64, sigfig: u8) -> CreationError {
    match Histogram::<T>::new_with_bounds(alloc, 0, high, sigfig) {
        Ok(_) => unreachable!(),
        Err(error) => error,
    }
}

/// `OutOfMemory` is the only error.
pub fn clone<T: Counter>(histogram: &Histogram<T>) -> Option<Histogram<T>> {
    match histogram.clone() {
        Ok(copy) => Some(copy),
        Err(CreationError::OutOfMemory) => None,
        Err(_) => unreachable!(),
    }
}

/// `OutOfMemory` is the only error.
pub fn new_from<T: Counter, F: Counter>(
    alloc: Global,
    source: &Histogram<F>,
) -> Option<Histogram<T>> {
    match Histogram::new_from(alloc, source) {
        Ok(made) => Some(made),
        Err(CreationError::OutOfMemory) => None,
        Err(_) => unreachable!(),
    }
}

/// `OutOfMemory` is the only error.
pub fn clone_correct<T: Counter>(histogram: &Histogram<T>, interval: u64) -> Option<Histogram<T>> {
    match histogram.clone_correct(interval) {
        Ok(made) => Some(made),
        Err(CreationError::OutOfMemory) => None,
        Err(_) => unreachable!(),
    }
}

/// Recording a value that has a bin succeeds.
pub fn record<T: Counter>(histogram: &mut Histogram<T>, value: u64) {
    if histogram.bin_of(value).is_some() {
        histogram.record(value).unwrap();
    }
}

/// Correcting a value that has a bin succeeds.
pub fn record_correct<T: Counter>(histogram: &mut Histogram<T>, value: u64, interval: u64) {
    if histogram.bin_of(value).is_some() {
        histogram.record_correct(value, interval).unwrap();
    }
}

/// Correcting a value that has a bin succeeds.
pub fn record_n_correct<T: Counter>(
    histogram: &mut Histogram<T>,
    value: u64,
    count: T,
    interval: u64,
) {
    if histogram.bin_of(value).is_some() {
        histogram.record_n_correct(value, count, interval).unwrap();
    }
}

/// A value is past the bins only if auto-resize is off, and memory runs out only if it is on.
pub fn record_or_grow<T: Counter>(histogram: &mut Histogram<T>, value: u64) -> bool {
    let grows = histogram.is_auto_resize();
    match histogram.record(value) {
        Ok(()) => true,
        Err(RecordError::ValueOutOfRangeResizeDisabled) => {
            if grows { unreachable!() } else { false }
        }
        Err(RecordError::ResizeFailedUsizeTypeTooSmall) => unreachable!(),
        Err(RecordError::OutOfMemory) => { if grows { false } else { unreachable!() } }
    }
}

/// A source whose greatest value has a bin is added.
pub fn add<T: Counter>(target: &mut Histogram<T>, source: &Histogram<T>) {
    if target.bin_of(source.max()).is_none() {
        return;
    }
    match target.add(source) {
        Ok(()) => {}
        Err(AdditionError::OtherAddendValueExceedsRange) => unreachable!(),
        Err(AdditionError::ResizeFailedUsizeTypeTooSmall) => unreachable!(),
        Err(AdditionError::OutOfMemory) => unreachable!(),
    }
}

/// An empty source is added.
pub fn add_empty<T: Counter>(target: &mut Histogram<T>, source: &Histogram<T>) {
    if source.is_empty() {
        target.add(source).unwrap();
    }
}

/// Setting to a source whose greatest value has a bin succeeds.
pub fn set_to<T: Counter>(target: &mut Histogram<T>, source: &Histogram<T>) {
    if target.bin_of(source.max()).is_some() {
        target.set_to(source).unwrap();
    }
}

/// The same for a source of another counter type.
pub fn add_from<T: Counter, F: Counter>(target: &mut Histogram<T>, source: &Histogram<F>) {
    if target.bin_of(source.max()).is_some() {
        target.add_from(source).unwrap();
    }
}

/// If the greatest value of a subtrahend has a bin, only a count can be an error.
pub fn subtract<T: Counter>(target: &mut Histogram<T>, source: &Histogram<T>) -> bool {
    if target.bin_of(source.max()).is_none() {
        return false;
    }
    match target.subtract(source) {
        Ok(()) => true,
        Err(SubtractionError::SubtrahendValueExceedsMinuendRange) => unreachable!(),
        Err(SubtractionError::SubtrahendCountExceedsMinuendCount) => false,
    }
}

/// An empty subtrahend is subtracted.
pub fn subtract_empty<T: Counter>(target: &mut Histogram<T>, source: &Histogram<T>) {
    if source.is_empty() {
        target.subtract(source).unwrap();
    }
}

/// Clamping always succeeds.
pub fn clamp<T: Counter>(histogram: &mut Histogram<T>, value: u64, count: T) {
    histogram.apply(&Call::Clamp(value, count)).unwrap();
}

/// `Record` fails with a `RecordError`.
pub fn apply_record<T: Counter>(
    histogram: &mut Histogram<T>,
    value: u64,
    count: T,
) -> Result<(), RecordError> {
    match histogram.apply(&Call::Record(value, count)) {
        Ok(()) => Ok(()),
        Err(CallError::Record(cause)) => Err(cause),
        Err(CallError::Addition(_)) => unreachable!(),
    }
}

/// The call that failed is one of the list.
pub fn failed_call<'a, 'b, T: Counter>(
    histogram: &mut Histogram<T>,
    calls: &'a [Call<'b, T>],
) -> Option<&'a Call<'b, T>> {
    match histogram.apply_all(calls) {
        Ok(()) => None,
        Err(error) => Some(&calls[error.at]),
    }
}

/// Borrowed bytes need no stream.
pub fn to_bytes<'a, T: Counter>(
    serializer: &'a mut V2Serializer,
    histogram: &Histogram<T>,
) -> Option<&'a [u8]> {
    match serializer.to_bytes(histogram) {
        Ok(bytes) => Some(bytes),
        Err(V2SerializeError::CountNotSerializable) => None,
        Err(V2SerializeError::OutOfMemory) => None,
        Err(V2SerializeError::UsizeTypeTooSmall) => unreachable!(),
        Err(V2SerializeError::IoError(_)) => unreachable!(),
    }
}

/// A comment has no time and no histogram.
pub fn write_comment<W: Write>(
    log: &mut IntervalLogWriter<'_, '_, W, V2Serializer>,
    comment: &str,
) -> bool {
    match log.write_comment(comment) {
        Ok(()) => true,
        Err(IntervalLogWriterError::IoError(_)) => false,
        Err(IntervalLogWriterError::OutOfMemory) => false,
        Err(IntervalLogWriterError::TimeOutOfRange) => unreachable!(),
        Err(IntervalLogWriterError::SerializeError(_)) => unreachable!(),
    }
}

/// A log without options has an empty start, so writing it succeeds.
pub fn begin<W: Write>(alloc: Global, writer: &mut W, serializer: &mut V2Serializer) {
    match IntervalLogWriterBuilder::new(alloc).begin_log_with(writer, serializer) {
        Ok(_) => {}
        Err(_) => unreachable!(),
    }
}

/// The text of a tag is a tag.
pub fn tag_again<'a>(tag: Tag<'a>) -> Tag<'a> {
    Tag::new(tag.as_str()).unwrap()
}

/// A letter is a tag, and so is the empty text.
pub fn two_tags() -> [Tag<'static>; 2] {
    [Tag::new("a").unwrap(), Tag::new("").unwrap()]
}
