//! Through the line of a log.

ghost use Rattle.std.specs.Prelude.{◌<◌, IfOk, OnOk, IfErr, MatchOption, vec_items};
ghost use Rattle.std.specs.Option.{option_map};
ghost use Rattle.std.specs.Duration.{as_nanos};
ghost use Rattle.hdr_log.specs.Tags.{tag_text};
ghost use Rattle.hdr_log.specs.Texts.{IsTimeInRange};
ghost use Rattle.hdrhistogram.specs.LogLeaving.{IsIntervalText};
ghost use Rattle.hdrhistogram.specs.V2.{IsV2};
ghost use Rattle.hdrhistogram.specs.V2Read.{IsReadBack};
ghost use Rattle.hdr_headline.specs.Alike.{StandsAlike, IsFirstField, BeginsWithNone};
ghost use Rattle.hdr_headline.specs.Errors.{IsLineError};

use crate::errors::HeadlineError;
use hdr_log::laws::{base64_is_read, written_is_read};
use hdrhistogram::laws::{bytes_read_back, read_back_stands};
use hdrhistogram::serialization::interval_log::{
    IntervalLogIterator, IntervalLogWriter, IntervalLogWriterError, LogEntry, Tag,
};
use hdrhistogram::serialization::{Deserializer, FieldDecodeError, V2Serializer};
use hdrhistogram::{Counter, Histogram};
use std::alloc::Global;
use std::time::Duration;

/// The parts of an interval's line that its histogram does not have. The start counts from the log's base time, or from the epoch
/// if there is none. The greatest value is divided by the divisor, which is at least 1.
#[derive(Clone, Copy)]
pub struct LineParts<'a> {
    pub start: Duration,
    pub duration: Duration,
    pub tag: Option<Tag<'a>>,
    pub divisor: u64,
}

/// Returns the line of an interval.
fn line<T: Counter>(
    alloc: Global,
    histogram: &Histogram<T>,
    interval: LineParts<'_>,
    serializer: &mut V2Serializer,
) -> Result<Vec<u8>, HeadlineError>
    requires { 0 < interval.divisor }
    ensures line { IfOk result (λ line. IsIntervalText IsV2 histogram.now
        (option_map tag_text interval.entry.tag) (as_nanos interval.entry.start)
        (as_nanos interval.entry.duration) interval.entry.divisor (vec_items line)) }
    ensures err { IfErr result (IsLineError histogram.now (as_nanos interval.entry.start)
        (as_nanos interval.entry.duration)) }
{
    let mut line = Vec::new(alloc);
    let mut log = IntervalLogWriter::new(alloc, &mut line, serializer, interval.divisor);
    match log.push_v2(histogram, interval.start, interval.duration, interval.tag) {
        Ok(()) => {}
        Err(IntervalLogWriterError::SerializeError(_)) => {
            return Err(HeadlineError::CountNotSerializable);
        }
        Err(IntervalLogWriterError::IoError(_)) => unreachable!(),
        Err(IntervalLogWriterError::TimeOutOfRange) => return Err(HeadlineError::TimeOutOfRange),
        Err(IntervalLogWriterError::OutOfMemory) => return Err(HeadlineError::OutOfMemory),
    }
    drop(log);
    Ok(line)
}

/// Returns the field of a log's first interval, if nothing comes before it.
fn first_field(log: &[u8]) -> Option<&str>
    ensures { MatchOption result (BeginsWithNone log.now) (λ field. IsFirstField log.now field.now) }
{
    match IntervalLogIterator::new(log).next() {
        Some(Ok(LogEntry::Interval(interval))) => Some(interval.encoded_histogram()),
        _ => None,
    }
}

/// Writes a histogram as the line of an interval, reads the line, and decodes its field for the same counter type.
///
/// # Errors
/// Returns `CountNotSerializable` if a count is above `i64::MAX`, `TimeOutOfRange` if the seconds of a time do not fit a `u64`,
/// or `OutOfMemory`.
pub fn through_line<T: Counter>(
    alloc: Global,
    histogram: &Histogram<T>,
    interval: LineParts<'_>,
    serializer: &mut V2Serializer,
    deserializer: &mut Deserializer,
) -> Result<Histogram<T>, HeadlineError>
    requires { 0 < interval.divisor }
    ensures read { IfOk result (IsReadBack histogram.now) }
    ensures alike { IfOk result (StandsAlike histogram.now) }
    ensures times { OnOk result (IsTimeInRange (as_nanos interval.entry.start)
        × IsTimeInRange (as_nanos interval.entry.duration)) }
    ensures err { IfErr result (IsLineError histogram.now (as_nanos interval.entry.start)
        (as_nanos interval.entry.duration)) }
{
    let _bins = histogram.distinct_values();
    written_is_read();
    base64_is_read();
    bytes_read_back();
    read_back_stands();
    let line = match line(alloc, histogram, interval, serializer) {
        Ok(line) => line,
        Err(error) => return Err(error),
    };
    let Some(field) = first_field(&line) else {
        unreachable!()
    };
    match deserializer.decode_field::<T>(field) {
        Ok(copy) => Ok(copy),
        Err(FieldDecodeError::OutOfMemory) => Err(HeadlineError::OutOfMemory),
        Err(FieldDecodeError::NotBase64) => unreachable!(),
        Err(FieldDecodeError::Decode(_)) => unreachable!(),
    }
}
