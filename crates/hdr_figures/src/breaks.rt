//! Long times without intervals, which an axis of time leaves out.

ghost use Rattle.std.specs.Prelude.{◌≡◌, ◌-◌, ◌↔◌, IfOk, IsTrue};
ghost use Rattle.std.specs.List.{All};
ghost use Rattle.hdr_figures.specs.Breaks.{IsBreakOf, part_before};

use hdr_logs::StoredInterval;
use std::alloc::{AllocError, Global};
use std::cmp::Reverse;

/// The least length of a break, in milliseconds: a day.
pub const DAY: u64 = 86_400_000;

/// The most breaks of an axis.
const MOST: usize = 8;

/// A time that an axis leaves out, in milliseconds as `StoredInterval::start`.
#[derive(Clone, Copy)]
pub struct Break {
    pub start: u64,
    pub end: u64,
}

impl Break {
    /// Returns how long it is.
    pub fn length(self) -> u64
        ensures { result ≡ self.end - self.start }
    {
        self.end.saturating_sub(self.start)
    }

    /// Returns how much of it is before a time.
    pub(crate) fn part_before(self, time: u64) -> u64
        ensures { result ≡ part_before time self }
    {
        self.end.min(time).saturating_sub(self.start)
    }

    /// Whether it lasts a day or more, and no interval begins within it.
    fn is_break_of(self, intervals: &[StoredInterval]) -> bool
        ensures { IsTrue result ↔ IsBreakOf intervals.now self }
    {
        self.length() >= DAY
            && intervals.iter().all(|interval| interval.start <= self.start
                || self.end <= interval.start)
    }
}

/// Returns the gaps of a day or more between intervals, in order.
fn gaps_of(alloc: Global, intervals: &[StoredInterval]) -> Result<Vec<Break>, AllocError> {
    let mut spans = Vec::new(alloc);
    for interval in intervals {
        spans.push((interval.start, interval.end()))?;
    }
    spans.sort()?;
    let mut gaps = Vec::new(alloc);
    let mut end = spans.first().map_or(0, |span| span.0);
    for span in &spans {
        if span.0.saturating_sub(end) >= DAY {
            let start = end;
            gaps.push(Break { start, end: span.0 })?;
        }
        end = end.max(span.1);
    }
    Ok(gaps)
}

/// Returns the breaks of an axis on which intervals span a length of time, in order: the longest of
/// the gaps of a day or more that are longer than all that was measured.
pub(crate) fn breaks_of(
    alloc: Global,
    intervals: &[StoredInterval],
    length: u64,
) -> Result<Vec<Break>, AllocError>
    ensures { IfOk result (λ breaks. All (IsBreakOf intervals.now) breaks.items) }
{
    let mut gaps = gaps_of(alloc, intervals)?;
    let mut measured = length;
    for gap in &gaps {
        measured = measured.saturating_sub(gap.length());
    }
    gaps.sort_by_key(|gap| (Reverse(gap.length()), gap.start))?;
    gaps.truncate(MOST);
    gaps.sort_by_key(|gap| gap.start)?;
    let mut breaks = Vec::new(alloc);
    for gap in gaps {
        if gap.length() > measured && gap.is_break_of(intervals) {
            breaks.push(gap)?;
        }
    }
    Ok(breaks)
}
