//! Points of time, each of which merges some intervals.

ghost use Rattle.std.specs.Prelude.{◌≡◌, ◌≤◌, ◌<◌, ◌+◌, ◌-◌, ◌*◌, ◌/◌, ◌^◌, ◌↔◌, IfOk, IsTrue, max, min};
ghost use Rattle.std.specs.List.{All};
ghost use Rattle.hdr_figures.specs.Breaks.{IsBreakOf, with_breaks, without_breaks};
ghost use Rattle.hdr_figures.specs.Figures.{length_at};
ghost use Rattle.hdr_figures.specs.Intervals.{first_start, last_end};

use crate::breaks::{Break, breaks_of};
use hdr_logs::StoredInterval;
use std::alloc::{AllocError, Global};

/// The most points of time.
const MOST: u64 = 200;

/// The first time that is a time of a clock, in milliseconds: 366 days after the epoch.
const CLOCK_FROM: u64 = 31_622_400_000;

/// The points of time of a log, in milliseconds as `StoredInterval::start`.
#[derive(Drop)]
pub struct Timeline {
    /// When the first interval began, and the last one ended.
    pub first: u64,
    pub last: u64,
    /// The number of intervals of the usual length that a point has.
    pub merged: u64,
    /// The length of a point.
    pub step: u64,
    pub points: usize,
    /// What the points leave out, in order.
    pub breaks: Vec<Break>,
}

impl Timeline {
    /// Returns the points of time of intervals.
    pub fn new(alloc: Global, intervals: &[StoredInterval]) -> Result<Timeline, AllocError>
        ensures points { IfOk result (λ t. (1 ≤ t.points) × (t.points ≤ 200)) }
        ensures first { IfOk result (λ t. t.first ≡ min (first_start intervals.now) (last_end intervals.now)) }
        ensures last { IfOk result (λ t. t.last ≡ last_end intervals.now) }
        ensures breaks { IfOk result (λ t. All (IsBreakOf intervals.now) t.breaks.items) }
    {
        let mut first = u64::MAX;
        let mut last = 0;
        let mut lengths = Vec::new(alloc);
        for interval in intervals {
            first = first.min(interval.start);
            last = last.max(interval.end());
            lengths.push(interval.length())?;
        }
        lengths.sort()?;
        let usual = match lengths.get(lengths.len() / 2) {
            Some(0) | None => 1_000,
            Some(usual) => *usual,
        };
        let first = first.min(last);
        let breaks = breaks_of(alloc, intervals, last.saturating_sub(first))?;
        Ok(Timeline::of_span(first, last, usual, breaks))
    }

    /// Returns the points of time from a time to another, of intervals of a usual length.
    fn of_span(first: u64, last: u64, usual: u64, breaks: Vec<Break>) -> Timeline
        ensures points { (1 ≤ result.points) × (result.points ≤ 200) }
        ensures first { result.first ≡ first }
        ensures last { result.last ≡ last }
        ensures breaks { result.breaks ≡ breaks }
    {
        let length = without_breaks(last, &breaks, last.saturating_sub(first));
        let span = length.max(usual);
        let merged = parts(span, usual, 1_000).div_ceil(MOST).max(1);
        let step = usual.saturating_mul(merged).max(1);
        Timeline {
            first,
            last,
            merged,
            step,
            points: parts(span, step, 1_000_000).clamp(1, MOST) as usize,
            breaks,
        }
    }

    /// Whether the times are those of a clock.
    pub fn has_clock(&self) -> bool
        ensures { IsTrue result ↔ 31622400000 ≤ self.now.first }
    {
        self.first >= CLOCK_FROM
    }

    /// Returns how far a time is from the first one, without the breaks.
    pub fn shown(&self, time: u64) -> u64
        ensures { result ≡ without_breaks time self.now.breaks.items (time - self.now.first) }
    {
        without_breaks(time, &self.breaks, time.saturating_sub(self.first))
    }

    /// Returns the point of a time.
    pub fn point_of(&self, time: u64) -> usize
        ensures { result ≡ min (without_breaks time self.now.breaks.items (time - self.now.first)
            / max 1 self.now.step) (self.now.points - 1) }
    {
        let point = self.shown(time) / self.step.max(1);
        (point as usize).min(self.points.saturating_sub(1))
    }

    /// Returns when a point begins.
    pub fn start_of(&self, point: usize) -> u64
        ensures { result ≡ with_breaks self.now.breaks.items
            (min (self.now.first + self.now.step * point) (2 ^ 64 - 1)) }
    {
        let after = self.step.saturating_mul(point as u64);
        with_breaks(&self.breaks, self.first.saturating_add(after))
    }

    /// Returns how much of a point is before the end.
    pub fn length_of(&self, point: usize) -> u64
        ensures is { result ≡ length_at self.now point }
        ensures some { 0 < result }
        ensures within { result ≤ max 1 self.now.step }
    {
        let before = self.step.saturating_mul(point as u64);
        self.shown(self.last)
            .saturating_sub(before)
            .min(self.step)
            .max(1)
    }

    /// Returns the length of all points.
    pub fn span(&self) -> u64
        ensures { result ≡ min (self.now.step * self.now.points) (2 ^ 64 - 1) }
    {
        self.step.saturating_mul(self.points as u64)
    }
}

/// Returns what is left of a length of time up to another without the breaks before that.
fn without_breaks(time: u64, breaks: &[Break], length: u64) -> u64
    ensures { result ≡ without_breaks time breaks.now length }
{
    let mut left = length;
    for gap in breaks {
        left = left.saturating_sub(gap.part_before(time));
    }
    left
}

/// Returns a time on an axis without breaks, with those that begin before it.
fn with_breaks(breaks: &[Break], time: u64) -> u64
    ensures { result ≡ with_breaks breaks.now time }
{
    let mut time = time;
    for gap in breaks {
        if gap.start <= time {
            time = time.saturating_add(gap.length());
        }
    }
    time
}

/// Returns how many parts of some length a span has, rounded up after rounding to some fraction of
/// a part, since intervals are seldom equally long.
fn parts(span: u64, length: u64, fraction: u64) -> u64 {
    let length = u128::from(length.max(1));
    let rounded = (u128::from(span) * u128::from(fraction) + length / 2) / length;
    u64::try_from(rounded.div_ceil(u128::from(fraction.max(1)))).unwrap_or(u64::MAX)
}
