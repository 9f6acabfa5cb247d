//! The intervals of a log, with the times at which they begin.

ghost use Rattle.std.specs.Prelude.{◌≡◌, ◌≤◌, ◌+◌, None, length};
ghost use Rattle.std.specs.Option.{option_map};
ghost use Rattle.std.specs.Duration.{as_nanos};
ghost use Rattle.std.specs.Iterator.{YieldsFirstBy, item_count};
ghost use Rattle.hdr_log.specs.Reading.{view_of_entry, view_of_timed, view_of_timed_item};
ghost use Rattle.hdr_log.specs.Timed.{base_after, interval_after, timed_intervals};

use crate::entry::{IntervalLogHistogram, LogEntry, LogIteratorError};
use crate::iterator::IntervalLogIterator;
use std::marker::Model;
use std::time::Duration;

/// An interval of a log, and when it begins.
#[derive(Debug, PartialEq, Drop)]
pub struct TimedInterval<'a> {
    /// When the interval begins, in nanoseconds since the epoch: its start after the last base time before it in the log.
    pub time: u128,
    /// The interval as its line has it.
    pub interval: IntervalLogHistogram<'a>,
}

/// The last base time of the entries so far, if there is one: the intervals after it count from there, and otherwise from the
/// epoch. Contracts see it as its nanoseconds.
#[derive(Drop)]
pub struct LastBaseTime {
    base: Option<Duration>,
}

impl Model for LastBaseTime {
    ghost use Rattle.std.specs.Prelude.{ℕ, Option};
    ghost use Rattle.std.specs.Option.{option_map};
    ghost use Rattle.std.specs.Duration.{as_nanos};

    ghost Value = { Option ℕ };

    ghost view = { λ b. option_map as_nanos b.base };
}

impl LastBaseTime {
    /// Returns the state before the first base time.
    pub fn new() -> LastBaseTime
        ensures { result ≡ None }
    {
        LastBaseTime { base: None }
    }

    /// The base time, if there is one.
    pub fn get(&self) -> Option<Duration>
        ensures { option_map as_nanos result ≡ self.now }
    {
        self.base
    }

    /// Takes the next entry of the log: returns its interval with the time at which it begins, or takes over its base time.
    pub fn timed<'a>(&mut self, entry: LogEntry<'a>) -> Option<TimedInterval<'a>>
        ensures base { self.new ≡ base_after self.old (view_of_entry entry.entry) }
        ensures interval { option_map view_of_timed result ≡ interval_after self.old (view_of_entry entry.entry) }
    {
        match entry {
            LogEntry::StartTime(_) => None,
            LogEntry::BaseTime(time) => {
                self.base = Some(time);
                None
            }
            LogEntry::Interval(interval) => {
                let base = self.base.unwrap_or(Duration::ZERO);
                let time = base.as_nanos() + interval.start_timestamp().as_nanos();
                Some(TimedInterval { time, interval })
            }
        }
    }
}

/// An iterator over the intervals of a log in order, with the times at which they begin. It ends where `IntervalLogIterator` does.
/// Contracts see it as the list of its remaining items.
#[derive(Drop)]
pub struct TimedIntervals<'a> {
    base: LastBaseTime,
    entries: IntervalLogIterator<'a>,
}

impl<'a> Model for TimedIntervals<'a> {
    ghost use Rattle.std.specs.Prelude.{ℕ, List, Result};
    ghost use Rattle.hdr_log.specs.Timed.{TimedInterval, timed};

    ghost Value = { List (Result TimedInterval ℕ) };

    ghost view = { λ it. timed it.base it.entries };
}

impl<'a> TimedIntervals<'a> {
    /// Returns an iterator over the intervals of `log`. The offset of a parse error is an offset into it.
    pub fn new(log: &'a [u8]) -> TimedIntervals<'a>
        ensures items { result ≡ timed_intervals log.now }
        ensures at_most { length result ≤ length log.now + 1 }
    {
        TimedIntervals {
            base: LastBaseTime::new(),
            entries: IntervalLogIterator::new(log),
        }
    }
}

impl<'a> Iterator for TimedIntervals<'a> {
    type Item = Result<TimedInterval<'a>, LogIteratorError>;

    ghost next_gives = { YieldsFirstBy view_of_timed_item (λ rest. rest) };

    ghost remaining = { item_count (λ rest. rest) };

    fn next(&mut self) -> Option<Result<TimedInterval<'a>, LogIteratorError>> {
        while let Some(entry) = self.entries.next() {
            match entry {
                Ok(entry) => {
                    if let Some(interval) = self.base.timed(entry) {
                        return Some(Ok(interval));
                    }
                }
                Err(error) => return Some(Err(error)),
            }
        }
        None
    }
}
