//! Interval logs: writing and reading.

ghost use Rattle.std.specs.Prelude.{◌≡◌, OnErr, IfErr};
ghost use Rattle.std.specs.Duration.{as_nanos};
ghost use Rattle.hdrhistogram.specs.LogLeaving.{IsV2LineError};
ghost use Rattle.hdrhistogram.specs.LogWriters.{sink};

use hdrhistogram::serialization::interval_log::{
    IntervalLogHistogram, IntervalLogWriter, IntervalLogWriterBuilder, IntervalLogWriterError, Tag,
    TimedInterval, TimedIntervals,
};
use hdrhistogram::serialization::{CountNotSerializable, V2Serializer};
use hdrhistogram::{Counter, Histogram};
use std::time::Duration;

/// The setters return the builder. Guard: a divisor of at least 1.
pub fn set(builder: &mut IntervalLogWriterBuilder, time: Duration, divisor: u64) {
    if divisor == 0 {
        return;
    }
    builder
        .with_start_time(time)
        .with_base_time(time)
        .with_max_value_divisor(divisor);
}

/// In memory. The log is unchanged after each error, of which none is an i/o error.
pub fn push_v2<T: Counter>(
    log: &mut IntervalLogWriter<'_, '_, Vec<u8>, V2Serializer>,
    histogram: &Histogram<T>,
    start: Duration,
    duration: Duration,
    tag: Option<Tag<'_>>,
) -> Result<(), IntervalLogWriterError<CountNotSerializable>>
    ensures unchanged { OnErr result ((sink log.new).now.items ≡ (sink log.old).now.items) }
    ensures err { IfErr result (IsV2LineError histogram.now (as_nanos start) (as_nanos duration)) }
{
    log.push_v2(histogram, start, duration, tag)
}

/// When the first interval of a log begins, in nanoseconds since the epoch.
pub fn first_time(log: &[u8]) -> Option<u128> {
    match TimedIntervals::new(log).next() {
        Some(Ok(TimedInterval { time, interval: _ })) => Some(time),
        _ => None,
    }
}

/// The tag, the max and the field are slices of the log.
pub fn slices_of<'a>(interval: &IntervalLogHistogram<'a>) -> (Option<Tag<'a>>, &'a str, &'a str) {
    (interval.tag(), interval.max(), interval.encoded_histogram())
}
