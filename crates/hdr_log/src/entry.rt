//! The entries of a log.

ghost use Rattle.std.specs.Prelude.{◌≡◌};
ghost use Rattle.std.specs.Option.{option_map};
ghost use Rattle.std.specs.Duration.{as_nanos};
ghost use Rattle.hdr_log.specs.Tags.{tag_text};

use crate::tag::Tag;
use std::time::Duration;

/// An interval of a log. It borrows from the log's bytes.
#[derive(Debug, PartialEq, Drop)]
pub struct IntervalLogHistogram<'a> {
    pub(crate) tag: Option<Tag<'a>>,
    pub(crate) start_timestamp: Duration,
    pub(crate) duration: Duration,
    pub(crate) max: &'a str,
    pub(crate) encoded_histogram: &'a str,
}

impl<'a> IntervalLogHistogram<'a> {
    ghost use Rattle.hdr_log.specs.Reading.{view_of_interval};

    /// The tag, if the line has one.
    pub fn tag(&self) -> Option<Tag<'a>>
        ensures { option_map tag_text result ≡ (view_of_interval self.now).tag }
    {
        self.tag
    }

    /// The start of the interval, since the log's base time if it has one, and otherwise since the epoch.
    pub fn start_timestamp(&self) -> Duration
        ensures { as_nanos result ≡ (view_of_interval self.now).start }
    {
        self.start_timestamp
    }

    /// The duration of the interval.
    pub fn duration(&self) -> Duration
        ensures { as_nanos result ≡ (view_of_interval self.now).duration }
    {
        self.duration
    }

    /// The greatest value as the line has it, in decimal. The log's writer may have divided it.
    pub fn max(&self) -> &'a str
        ensures { result.now ≡ (view_of_interval self.now).max }
    {
        self.max
    }

    /// The histogram's bytes in Base64, as the line has them. They are not decoded yet.
    pub fn encoded_histogram(&self) -> &'a str
        ensures { result.now ≡ (view_of_interval self.now).field }
    {
        self.encoded_histogram
    }
}

/// An entry of a log: a header that is read, or an interval.
#[derive(Debug, PartialEq, Drop)]
pub enum LogEntry<'a> {
    /// The start time of a header, since the epoch. The times of intervals do not depend on it.
    StartTime(Duration),
    /// The base time of a header, since the epoch: intervals after it count from there.
    BaseTime(Duration),
    /// An interval.
    Interval(IntervalLogHistogram<'a>),
}

/// Why reading a log stops before its end.
#[derive(Debug, PartialEq, Drop)]
pub enum LogIteratorError {
    /// The line that starts at the byte `offset` is invalid.
    ParseError { offset: usize },
}
