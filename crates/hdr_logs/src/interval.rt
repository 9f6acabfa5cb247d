//! The intervals of logs.

ghost use Rattle.std.specs.Prelude.{◌≡◌};
ghost use Rattle.std.specs.Option.{option_map};
ghost use Rattle.hdr_log.specs.Tags.{tag_text};
ghost use Rattle.hdr_log.specs.Reading.{view_of_interval, view_of_timed};
ghost use Rattle.hdrhistogram.specs.Chosen.{view_of_interval_choice};
ghost use Rattle.hdr_logs.specs.Intervals.{tag_or_none, is_chosen_interval};

use crate::place::Place;
use hdr_input::Unit;
use hdr_log::TimedInterval;
use hdrhistogram::serialization::interval_log::{IntervalChoice, IntervalLogHistogram, Tag};
use std::time::Duration;

/// An interval of a log. Its texts are slices of the line.
#[derive(Drop)]
pub struct Interval<'a> {
    /// When it begins, in nanoseconds since the epoch: its start after the last base time before it.
    pub time: u128,
    /// The tag. An empty one counts as none.
    pub tag: Option<Tag<'a>>,
    pub duration: Duration,
    /// The Base64 of its histogram, which is plain.
    pub field: &'a str,
    /// The decimals of its values, if a comment before it has them. Otherwise they are integers.
    pub decimals: Option<u32>,
    /// The unit of its values, if a comment before it has one.
    pub unit: Option<Unit>,
    pub place: Place,
}

/// Returns the tag of an interval, or `None` if it is empty.
pub(crate) fn tag_of<'a>(interval: &IntervalLogHistogram<'a>) -> Option<Tag<'a>>
    ensures { option_map tag_text result ≡ tag_or_none (view_of_interval interval.now).tag }
{
    match interval.tag() {
        Some(tag) if !tag.as_str().is_empty() => Some(tag),
        _ => None,
    }
}

/// Whether an interval is chosen, by its tag and by the time at which it begins.
pub(crate) fn chooses(choice: &IntervalChoice<'_>, timed: &TimedInterval<'_>) -> bool
    ensures { result ≡ is_chosen_interval (view_of_interval_choice choice.now) (view_of_timed timed.now) }
{
    choice.chooses_at(tag_of(&timed.interval), timed.time)
}
