//! Logs that are gathered: side by side, or of intervals that were read before.

ghost use Rattle.std.specs.Prelude.{◌≡◌, ◌≤◌, ◌+◌, ◌↔◌, ℕ, [], true, false, IsTrue, Option, OnOk, IfOk, IfSome, map, vec_items};
ghost use Rattle.std.specs.List.{All};
ghost use Rattle.hdrhistogram.specs.LogWriters.{sink, divisor_of, IsSameLog};
ghost use Rattle.hdr_logs.specs.Stored.{view_of_stored, decimals_of};
ghost use Rattle.hdr_gather.specs.Left.{IsKnown, IsNextIn, IsReady, IsFrom, Loses, Takes, WritesRest, Gathers};
ghost use Rattle.hdr_gather.specs.Logs.{WritesConverted};

use crate::peekable::PeekableLog;
use crate::sum::{Counts, Summing};
use crate::writing::{write_intervals, write_start};
use hdr_input::Unit;
use hdr_logs::{LogError, LogIntervals, StoredInterval, check_decimals, check_unit};
use hdrhistogram::serialization::V2Serializer;
use hdrhistogram::serialization::interval_log::IntervalLogWriter;
use std::alloc::Global;
use std::io::{Read, Write};

/// Merges logs, and writes the result as one log, with one interval for each tag and time. Returns
/// how many intervals were read. The logs are read side by side, and each has to be in order of time: at most the intervals of one start
/// are kept in memory. If comments have the decimals and the unit of the values, the log begins with
/// these.
///
/// # Errors
/// Returns `NotSorted` if an interval of a log begins before the one above it, and `OtherDecimals`
/// or `OtherUnit` if its values have other decimals or another unit than others. Otherwise returns the first error of reading,
/// adding or writing an interval. What precedes an error may have been written.
pub fn gather_sorted<R: Read + Drop, W: Write>(
    alloc: Global,
    logs: &mut [PeekableLog<'_, R>],
    output: &mut W,
) -> Result<Counts, LogError>
    ensures { IfOk result (λ counts. Gathers R.remaining logs.old counts (W.contents output.old)
        (W.contents output.new)) }
{
    begin_logs(alloc, logs)?;
    let decimals = logs.iter().filter_map(|log| log.next_decimals()).max();
    let unit = logs.iter().find_map(|log| log.next_unit());
    write_start(alloc, decimals, unit, output)?;
    let mut serializer = V2Serializer::new(alloc);
    let mut log = IntervalLogWriter::new(alloc, output, &mut serializer, 1);
    let mut sums = Summing::new(alloc);
    write_in_order(alloc, logs, decimals, unit, &mut log, &mut sums)?;
    drop(log);
    Ok(sums.counts)
}

/// Merges the intervals of logs, which may be in any order of time, and writes the result as one
/// log, as `gather_sorted` does.
///
/// # Errors
/// Returns the first error of adding or writing an interval. What precedes it may have been written.
pub fn gather_unsorted<W: Write>(
    alloc: Global,
    intervals: &LogIntervals,
    output: &mut W,
) -> Result<Counts, LogError>
    ensures { IfOk result (λ counts. WritesConverted intervals.now counts (W.contents output.old)
        (W.contents output.new)) }
{
    write_start(alloc, intervals.decimals(), intervals.unit(), output)?;
    let mut serializer = V2Serializer::new(alloc);
    let mut log = IntervalLogWriter::new(alloc, output, &mut serializer, 1);
    let mut sums = Summing::new(alloc);
    write_intervals(alloc, &intervals.list, &mut log, &mut sums)?;
    drop(log);
    Ok(sums.counts)
}

/// Reads up to the first interval of each log. Returns whether the values of these intervals have the
/// same decimals and the same unit.
///
/// # Errors
/// Returns the first error of reading.
pub fn have_one_scale<R: Read + Drop>(
    alloc: Global,
    logs: &mut [PeekableLog<'_, R>],
) -> Result<bool, LogError>
    ensures left { OnOk result (Loses R.remaining logs.old logs.new []) }
    ensures ready { OnOk result (All (IsKnown R.remaining) logs.old
        → All (IsReady R.remaining) logs.new) }
    ensures one { IfOk result (λ one. one ≡ true → (decimals : ℕ) × (unit : Option Unit)
        × All (IsNextIn decimals unit) logs.new) }
    ensures several { IfOk result (λ one. one ≡ false → (decimals : ℕ) (unit : Option Unit)
        → All (IsNextIn decimals unit) logs.new → ⊥) }
{
    begin_logs(alloc, logs)?;
    let (decimals, unit) = first_scale(logs);
    Ok(are_next_in(logs, decimals, unit))
}

/// Whether the values of the next intervals of logs have these decimals and this unit.
fn are_next_in<R: Read + Drop>(
    logs: &[PeekableLog<'_, R>],
    decimals: u32,
    unit: Option<Unit>,
) -> bool
    ensures { IsTrue result ↔ All (IsNextIn decimals unit) logs.now }
{
    for log in logs {
        if !log.is_next_in(decimals, unit) {
            return false;
        }
    }
    true
}

/// Returns the decimals and the unit of the values of the first log that has an interval.
fn first_scale<R: Read + Drop>(logs: &[PeekableLog<'_, R>]) -> (u32, Option<Unit>)
    ensures { (decimals : ℕ) (unit : Option Unit) → All (IsNextIn decimals unit) logs.now
        → All (IsNextIn result.0 result.1) logs.now }
{
    for log in logs {
        if let Some(scale) = log.next_scale() {
            return scale;
        }
    }
    (0, None)
}

/// Reads up to the first interval of each log.
fn begin_logs<R: Read + Drop>(
    alloc: Global,
    logs: &mut [PeekableLog<'_, R>],
) -> Result<(), LogError>
    ensures left { OnOk result (Loses R.remaining logs.old logs.new []) }
    ensures ready { OnOk result (All (IsKnown R.remaining) logs.old
        → All (IsReady R.remaining) logs.new) }
{
    for log in logs.iter_mut() {
        log.begin(alloc)?;
    }
    Ok(())
}

/// Writes the intervals of logs in order of time, from the next one of each log on. Takes time in
/// proportion to the number of starts times the number of logs.
fn write_in_order<R: Read + Drop, W: Write>(
    alloc: Global,
    logs: &mut [PeekableLog<'_, R>],
    decimals: Option<u32>,
    unit: Option<Unit>,
    log: &mut IntervalLogWriter<'_, '_, W, V2Serializer>,
    sums: &mut Summing,
) -> Result<(), LogError>
    requires { divisor_of log.old ≡ 1 }
    ensures same_log { IsSameLog log.old log.new }
    ensures written { OnOk result (WritesRest R.remaining decimals unit logs.old sums.old.counts
        sums.new.counts (W.contents (sink log.old).now) (W.contents (sink log.new).now)) }
{
    for _ in 0..u64::MAX {
        let Some(start) = first_start(logs) else {
            return Ok(());
        };
        let intervals = take_at(alloc, logs, start)?;
        check_values(&intervals, decimals.unwrap_or(0), unit)?;
        write_intervals(alloc, &intervals, log, sums)?;
    }
    Err(LogError::TooManyLines)
}

/// Returns when the first of the next intervals of logs begins.
fn first_start<R: Read + Drop>(logs: &[PeekableLog<'_, R>]) -> Option<u64>
    ensures { (low : ℕ) → IfSome result (λ t. low ≤ t) ↔ All (IsFrom low) logs.now }
{
    let mut first = None;
    for log in logs {
        first = earlier(first, log.next_start());
    }
    first
}

/// Returns the earlier of two times that there may be.
fn earlier(one: Option<u64>, other: Option<u64>) -> Option<u64>
    ensures { (low : ℕ) → IfSome result (λ t. low ≤ t)
        ↔ (IfSome one (λ t. low ≤ t) × IfSome other (λ t. low ≤ t)) }
{
    match (one, other) {
        (Some(one), Some(other)) => Some(one.min(other)),
        (one, other) => one.or(other),
    }
}

/// Takes the intervals of logs that begin at this time, up to the first that begins later.
fn take_at<R: Read + Drop>(
    alloc: Global,
    logs: &mut [PeekableLog<'_, R>],
    start: u64,
) -> Result<Vec<StoredInterval>, LogError>
    requires { All (IsFrom start) logs.old }
    ensures rest { OnOk result (All (IsFrom (start + 1)) logs.new) }
    ensures ready { OnOk result (All (IsReady R.remaining) logs.old
        → All (IsReady R.remaining) logs.new) }
    ensures left { IfOk result (λ taken. Loses R.remaining logs.old logs.new
        (map view_of_stored (vec_items taken))) }
    ensures taken { IfOk result (λ taken. All (λ i. i.start ≡ start) (vec_items taken)) }
{
    let mut taken = Vec::new(alloc);
    for log in logs.iter_mut() {
        take_from(alloc, log, start, &mut taken)?;
    }
    Ok(taken)
}

/// Appends the intervals of a log that begin at this time, up to the first that begins later.
fn take_from<R: Read + Drop>(
    alloc: Global,
    log: &mut PeekableLog<'_, R>,
    start: u64,
    taken: &mut Vec<StoredInterval>,
) -> Result<(), LogError>
    requires rest { IsFrom start log.old }
    requires taken { All (λ i. i.start ≡ start) (vec_items taken.old) }
    ensures rest { OnOk result (IsFrom (start + 1) log.new) }
    ensures ready { OnOk result (IsReady R.remaining log.old → IsReady R.remaining log.new) }
    ensures left { OnOk result (Takes R.remaining log.old log.new (vec_items taken.old)
        (vec_items taken.new)) }
    ensures taken { OnOk result (All (λ i. i.start ≡ start) (vec_items taken.new)) }
{
    for _ in 0..u64::MAX {
        match log.next_at(alloc, start)? {
            Some(interval) => taken.push(interval)?,
            None => return Ok(()),
        }
    }
    Err(LogError::TooManyLines)
}

/// Returns an error unless the values of all intervals have these decimals and this unit.
fn check_values(
    intervals: &[StoredInterval],
    decimals: u32,
    unit: Option<Unit>,
) -> Result<(), LogError>
    ensures decimals { OnOk result (All (λ i. decimals_of i ≡ decimals) intervals.now) }
    ensures unit { OnOk result (All (λ i. i.unit ≡ unit) intervals.now) }
{
    check_all(intervals, decimals)?;
    check_units(intervals, unit)
}

/// Returns an error unless the values of all intervals have these decimals.
fn check_all(intervals: &[StoredInterval], decimals: u32) -> Result<(), LogError>
    ensures { OnOk result (All (λ i. decimals_of i ≡ decimals) intervals.now) }
{
    for interval in intervals {
        check_decimals(interval.place, interval.decimals, decimals)?;
    }
    Ok(())
}

/// Returns an error unless the values of all intervals have this unit.
fn check_units(intervals: &[StoredInterval], unit: Option<Unit>) -> Result<(), LogError>
    ensures { OnOk result (All (λ i. i.unit ≡ unit) intervals.now) }
{
    for interval in intervals {
        check_unit(interval.place, interval.unit, unit)?;
    }
    Ok(())
}
