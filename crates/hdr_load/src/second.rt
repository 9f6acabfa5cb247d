//! The seconds of a run, and the intervals that are written for them.

ghost use Rattle.std.specs.Prelude.{◌≡◌, ◌/◌, ℕ, List, OnOk, IfOk};
ghost use Rattle.std.specs.Io.KnownBytes.{Appends};
ghost use Rattle.hdrhistogram.specs.LogWriters.{sink, divisor_of, IsSameLog};
ghost use Rattle.hdr_load.specs.Seconds.{new_second, after_response, after_second, IsIntervalOf, IsWrittenBefore};

use anyhow::Result;
use hdrhistogram::serialization::V2Serializer;
use hdrhistogram::serialization::interval_log::IntervalLogWriter;
use hdrhistogram::{CreationError, Histogram};
use std::alloc::Global;
use std::io::Write;
use std::time::Duration;

/// The microseconds of a second and of a millisecond.
const PER_SECOND: u64 = 1_000_000;

pub(crate) const PER_MILLISECOND: u64 = 1_000;

/// The samples of one second of a run.
#[derive(Drop)]
pub(crate) struct Second {
    /// The number of seconds before this one.
    number: u64,
    histogram: Histogram<u64>,
}

impl Second {
    /// Returns the first second of a run, with no samples.
    pub(crate) fn new(alloc: Global, sigfig: u8) -> Result<Second, CreationError>
        ensures { IfOk result (λ second. second ≡ new_second sigfig) }
    {
        Ok(Second {
            number: 0,
            histogram: Histogram::new(alloc, sigfig)?,
        })
    }
}

/// Records the response time of a request that ended at `end`, in the second of `end`. The samples of an earlier second are
/// written first. Times are in microseconds.
pub(crate) fn record_response<W: Write>(
    second: &mut Second,
    log: &mut IntervalLogWriter<'_, '_, W, V2Serializer>,
    end: u64,
    response: u64,
    interval: u64,
) -> Result<()>
    requires { divisor_of log.old ≡ 1_000 }
    ensures same_log { IsSameLog log.old log.new }
    ensures recorded { OnOk result
        (second.new ≡ after_response second.old (end / 1_000_000) response interval) }
    ensures written { OnOk result ((text : List ℕ)
        × IsWrittenBefore second.old (end / 1_000_000) text
        × Appends (W.contents (sink log.old).now) (W.contents (sink log.new).now) text) }
{
    let number = end / PER_SECOND;
    if second.number != number {
        write_second(second, log)?;
        second.number = number;
    }
    second.histogram.record_correct(response, interval)?;
    Ok(())
}

/// Writes the samples of `second` as an interval, if there are any, and clears them.
pub(crate) fn write_second<W: Write>(
    second: &mut Second,
    log: &mut IntervalLogWriter<'_, '_, W, V2Serializer>,
) -> Result<()>
    requires { divisor_of log.old ≡ 1_000 }
    ensures same_log { IsSameLog log.old log.new }
    ensures begins { OnOk result (second.new ≡ after_second second.old) }
    ensures written { OnOk result ((text : List ℕ) × IsIntervalOf second.old text
        × Appends (W.contents (sink log.old).now) (W.contents (sink log.new).now) text) }
{
    if !second.histogram.is_empty() {
        let start = Duration::from_secs(second.number);
        log.write_histogram(&second.histogram, start, Duration::from_secs(1), None)?;
    }
    second.histogram.reset();
    Ok(())
}
