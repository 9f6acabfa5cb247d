//! Logs that are written of intervals.

ghost use Rattle.std.specs.Prelude.{◌≡◌, ◌+◌, ◌++◌, ℕ, OnOk, length, map, option_to_list};
ghost use Rattle.std.specs.Option.{option_map};
ghost use Rattle.hdrhistogram.specs.LogWriters.{sink, divisor_of, IsSameLog};
ghost use Rattle.hdr_logs.specs.Headers.{decimals_comment, unit_comment};
ghost use Rattle.hdr_logs.specs.Stored.{view_of_stored};
ghost use Rattle.hdr_gather.specs.Counts.{CountsMore};
ghost use Rattle.hdr_gather.specs.Keys.{all_of, AreSorted};
ghost use Rattle.hdr_gather.specs.Logs.{WritesStart, WritesLine, Writes, WritesAll};

use crate::order::{same_key, sort};
use crate::sum::{Summing, longest};
use hdr_input::Unit;
use hdr_logs::{LogError, StoredInterval, decimals_comment, unit_comment};
use hdrhistogram::serialization::interval_log::{IntervalLogWriter, IntervalLogWriterBuilder};
use hdrhistogram::serialization::{CountNotSerializable, V2Serializer};
use std::alloc::Global;
use std::io::Write;
use std::time::Duration;

/// Writes the start of a log: the decimals and the unit of its values in comments, if it has them.
pub(crate) fn write_start<W: Write>(
    alloc: Global,
    decimals: Option<u32>,
    unit: Option<Unit>,
    output: &mut W,
) -> Result<(), LogError>
    ensures { OnOk result (WritesStart decimals unit (W.contents output.old) (W.contents output.new)) }
{
    let mut start = IntervalLogWriterBuilder::new(alloc);
    add_decimals(alloc, decimals, &mut start)?;
    add_unit(alloc, unit, &mut start)?;
    start.write_headers::<W, CountNotSerializable>(output)?;
    Ok(())
}

/// Adds the comment that has the decimals of a log's values, if it has them.
fn add_decimals(
    alloc: Global,
    decimals: Option<u32>,
    start: &mut IntervalLogWriterBuilder,
) -> Result<(), LogError>
    ensures { OnOk result (start.new ≡ record start.old {
      comments
          = start.old.comments ++ option_to_list (option_map decimals_comment decimals);
    }) }
{
    match decimals {
        Some(decimals) => {
            let comment = decimals_comment(alloc, decimals)?;
            Ok(start.add_comment(comment.as_str())?)
        }
        None => Ok(()),
    }
}

/// Adds the comment that has the unit of a log's values, if it has one.
fn add_unit(
    alloc: Global,
    unit: Option<Unit>,
    start: &mut IntervalLogWriterBuilder,
) -> Result<(), LogError>
    ensures { OnOk result (start.new ≡ record start.old {
      comments
          = start.old.comments ++ option_to_list (option_map unit_comment unit);
    }) }
{
    match unit {
        Some(unit) => {
            let comment = unit_comment(alloc, unit)?;
            Ok(start.add_comment(comment.as_str())?)
        }
        None => Ok(()),
    }
}

/// Writes the intervals that others become, one for each time and tag, in order of time and tag.
pub(crate) fn write_intervals<W: Write>(
    alloc: Global,
    intervals: &[StoredInterval],
    log: &mut IntervalLogWriter<'_, '_, W, V2Serializer>,
    sums: &mut Summing,
) -> Result<(), LogError>
    requires { divisor_of log.old ≡ 1 }
    ensures same_log { IsSameLog log.old log.new }
    ensures written { OnOk result ((finer : ℕ) × WritesAll (map view_of_stored intervals.now) finer
        (W.contents (sink log.old).now) (W.contents (sink log.new).now)
        × CountsMore sums.old.counts (length intervals.now) finer sums.new.counts) }
{
    let mut parts = intervals.iter().collect(alloc)?;
    sort(&mut parts)?;
    write_parts(&parts, log, sums)
}

/// Writes the intervals that sorted ones become, one for each time and tag.
fn write_parts<W: Write>(
    parts: &[&StoredInterval],
    log: &mut IntervalLogWriter<'_, '_, W, V2Serializer>,
    sums: &mut Summing,
) -> Result<(), LogError>
    requires divisor { divisor_of log.old ≡ 1 }
    requires sorted { AreSorted (all_of parts.now) }
    ensures same_log { IsSameLog log.old log.new }
    ensures written { OnOk result ((finer : ℕ) × Writes (all_of parts.now) finer
        (W.contents (sink log.old).now) (W.contents (sink log.new).now)
        × CountsMore sums.old.counts (length parts.now) finer sums.new.counts) }
{
    let mut at = 0;
    while at < parts.len() {
        let first = parts[at];
        let end = at + 1 + same_key(first, &parts[at + 1..]);
        write_sum(first, &parts[at + 1..end], log, sums)?;
        at = end;
    }
    Ok(())
}

/// Writes the interval that intervals of the same key become, as long as the longest of them.
fn write_sum<W: Write>(
    first: &StoredInterval,
    others: &[&StoredInterval],
    log: &mut IntervalLogWriter<'_, '_, W, V2Serializer>,
    sums: &mut Summing,
) -> Result<(), LogError>
    requires { divisor_of log.old ≡ 1 }
    ensures same_log { IsSameLog log.old log.new }
    ensures written { OnOk result ((finer : ℕ) × WritesLine (view_of_stored first.now)
        (all_of others.now) finer (W.contents (sink log.old).now) (W.contents (sink log.new).now)
        × CountsMore sums.old.counts (length others.now + 1) finer sums.new.counts) }
{
    let sum = sums.sum_of(first, others)?;
    let start = Duration::from_millis(first.start);
    log.write_v2(&sum.histogram, start, longest(first, others), first.tag())?;
    sums.count(sum);
    Ok(())
}
