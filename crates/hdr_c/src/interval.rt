//! What a log's reader returns of an interval.

ghost use Rattle.std.specs.Prelude.{◌≡◌, ◌<◌};
ghost use Rattle.std.specs.Option.{option_map};
ghost use Rattle.std.specs.Duration.{as_nanos};
ghost use Rattle.hdr_log.specs.Reading.{view_of_interval};
ghost use Rattle.hdr_c.specs.Times.{as_time, base_of, IsInterval, AreNanosInRange};

use hdrhistogram::serialization::interval_log::IntervalLogHistogram;
use std::time::Duration;

/// A time in seconds and nanoseconds.
#[repr(C)]
#[derive(Clone, Copy)]
pub struct Time {
    pub seconds: u64,
    pub nanos: u32,
}

/// An interval of a log, and where the next one is looked for: from the byte `next` on, 0 to begin
/// with. The base time is that of the last header before it. If it has no tag, the tag has no bytes.
#[repr(C)]
#[derive(Drop)]
pub struct NextInterval {
    pub next: usize,
    pub start: Time,
    pub duration: Time,
    pub base: Time,
    pub has_base: bool,
    pub tag_at: usize,
    pub tag_length: usize,
}

/// What the lines of a log have up to their first interval.
#[derive(Drop)]
pub enum Found<'a> {
    /// No interval.
    End,
    /// A line at this offset, which is invalid.
    Invalid(usize),
    /// An interval: the offset of its line and of the next, the base time, and its entry.
    Interval(usize, usize, Option<Time>, IntervalLogHistogram<'a>),
}

/// The number of bytes of `Tag=`, which a tag follows.
const BEFORE_TAG: usize = 4;

impl Time {
    pub(crate) fn new(time: Duration) -> Time
        ensures length { as_time result ≡ as_nanos time }
        ensures nanos { result.nanos < 1_000_000_000 }
    {
        Time {
            seconds: time.as_secs(),
            nanos: time.subsec_nanos(),
        }
    }
}

impl NextInterval {
    /// Returns the base time, if it has one.
    pub(crate) fn base(&self) -> Option<Time>
        ensures time { option_map as_time result ≡ base_of self.now }
        ensures nanos { self.now.base.nanos < 1_000_000_000 → AreNanosInRange result }
    {
        if self.has_base { Some(self.base) } else { None }
    }

    /// Returns what `found` has, of the line at this offset.
    pub(crate) fn new(
        at: usize,
        next: usize,
        base: Option<Time>,
        found: &IntervalLogHistogram<'_>,
    ) -> NextInterval
        ensures interval { IsInterval at next (option_map as_time base) (view_of_interval found.now) result }
        ensures base_nanos { AreNanosInRange base → result.base.nanos < 1_000_000_000 }
    {
        let tag = found.tag();
        NextInterval {
            next,
            start: Time::new(found.start_timestamp()),
            duration: Time::new(found.duration()),
            base: base.unwrap_or(Time {
                seconds: 0,
                nanos: 0,
            }),
            has_base: base.is_some(),
            tag_at: at.saturating_add(BEFORE_TAG),
            tag_length: tag.map_or(0, |tag| tag.as_str().len()),
        }
    }
}
