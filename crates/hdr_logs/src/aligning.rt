//! Intervals that are laid over others.

ghost use Rattle.std.specs.Prelude.{◌≡◌, ◌≤◌, ◌⊎◌, [], OnOk, IfOk, MatchOption, map};
ghost use Rattle.hdr_logs.specs.Stored.{view_of_stored, decimals_of};
ghost use Rattle.hdr_logs.specs.Aligned.{IsFirstStart, BeginAt, moved};

use crate::errors::LogError;
use crate::stored::StoredInterval;

/// Returns when the first of some intervals begins, or `None` if there are none.
pub(crate) fn first_start(intervals: &[StoredInterval]) -> Option<u64>
    ensures { MatchOption result (intervals.now ≡ [])
        (IsFirstStart (map view_of_stored intervals.now)) }
{
    let (first, others) = intervals.split_first()?;
    let mut start = first.start;
    for interval in others {
        start = earlier(start, interval.start);
    }
    Some(start)
}

/// Returns the earlier of two times.
fn earlier(one: u64, other: u64) -> u64
    ensures one { result ≤ one }
    ensures other { result ≤ other }
    ensures one_of { (result ≡ one) ⊎ (result ≡ other) }
{
    if other < one { other } else { one }
}

/// Moves intervals by the same time, so that the first of them begins at `start`.
///
/// # Errors
/// Returns `TooLate` if an interval would begin past 64 bits of milliseconds. Others may be moved
/// then.
pub(crate) fn begin_at(intervals: &mut [StoredInterval], start: u64) -> Result<(), LogError>
    ensures begin { OnOk result (BeginAt start (map view_of_stored intervals.old)
        (map view_of_stored intervals.new)) }
    ensures decimals { OnOk result (map decimals_of intervals.new ≡ map decimals_of intervals.old) }
    ensures unit { OnOk result (map (λ i. i.unit) intervals.new ≡ map (λ i. i.unit) intervals.old) }
{
    let Some(first) = first_start(intervals) else {
        return Ok(());
    };
    for interval in intervals.iter_mut() {
        interval.start = moved(interval, first, start)?;
    }
    Ok(())
}

/// Returns when an interval begins if it begins as long after `to` as it began after `from`.
fn moved(interval: &StoredInterval, from: u64, to: u64) -> Result<u64, LogError>
    ensures { IfOk result (λ start. start ≡ (moved from to (view_of_stored interval.now)).start) }
{
    let after = interval.start.saturating_sub(from);
    to.checked_add(after)
        .ok_or(LogError::TooLate(interval.place))
}
