//! The iterator over levels at equal steps.

ghost use Rattle.std.specs.Prelude.{◌≡◌, ◌≤◌, ◌<◌, ℕ, None, Bool};
ghost use Rattle.hdr_iterators.specs.Seen.{bins_in};
ghost use Rattle.hdr_iterators.specs.Picks.{items_of};
ghost use Rattle.hdr_iterators.specs.Places.{linear_picks};
ghost use Rattle.hdr_iterators.specs.Linear.{end_at, is_last_level};

use crate::bins::{Binned, Bins};
use crate::picking::{HistogramIterator, PickMetadata, PickyIterator, is_due};
use hdr_base::Counter;

/// The picker of levels at equal steps.
#[derive(Debug, Drop)]
pub struct Iter<'a, T: Counter> {
    bins: Bins<'a, T>,
    step: u64,
    level: u64,
    /// The bin of the level, or the last bin.
    place: usize,
    /// The top of the class where the first level at the last recorded bin or after it was picked.
    end: Option<u64>,
    done: bool,
}

impl<'a, T: Counter> Iter<'a, T> {
    /// Returns an iterator over the levels `step - 1`, `2 * step - 1`, .. up to the top of the class of the first that is not below the last
    /// recorded class. A level past `u64::MAX` becomes `u64::MAX`, and is the last. `step` is at least 1.
    pub fn new<H: Binned<T>>(histogram: &'a H, step: u64) -> HistogramIterator<'a, T, Iter<'a, T>>
        requires { 1 ≤ step }
        ensures { result ≡ items_of (H.seen histogram.now)
            (linear_picks (H.seen histogram.now) step) }
    {
        let bins = histogram.binned();
        let picker = Iter {
            place: bins.bin_or_last(step - 1),
            bins: histogram.binned(),
            step,
            level: step - 1,
            end: None,
            done: false,
        };
        HistogramIterator::new(bins, picker, false)
    }
}

impl<'a, T: Counter> PickyIterator<T> for Iter<'a, T> {
    ghost use Rattle.std.specs.Prelude.{◌≡◌, ◌/◌, [], if◌then◌else◌};
    ghost use Rattle.hdr_iterators.specs.Seen.{bin_or_last};
    ghost use Rattle.hdr_iterators.specs.Linear.{LinearStep, levels_from};

    ghost picks = { λ p h. if p.done then [] else levels_from h p.step (p.level / p.step) };

    ghost goes_with = { λ p h last. (p.bins ≡ h) × (p.place ≡ bin_or_last h p.level) × LinearStep h p.step p.level p.end p.done };

    fn pick(&mut self, index: usize, _: u64, _: T) -> Option<PickMetadata> {
        if self.done || !is_due(&self.bins, self.place, index) {
            return None;
        }
        let level = self.level;
        let end = end_after(&self.bins, self.end, index);
        self.level = level.saturating_add(self.step);
        self.place = self.bins.bin_or_last(self.level);
        self.done = was_last(level, self.level, end);
        self.end = end;
        Some(PickMetadata::new(None, Some(level)))
    }

    fn more(&mut self, _: usize) -> bool {
        !self.done
    }
}

/// The end after a pick at a bin.
fn end_after<T: Counter>(bins: &Bins<'_, T>, end: Option<u64>, index: usize) -> Option<u64>
    requires { index < bins_in bins.now }
    ensures { result ≡ end_at bins.now end index }
{
    match end {
        None if index >= bins.last() => Some(bins.top(index)),
        end => end,
    }
}

/// Whether no level follows this one.
fn was_last(level: u64, next: u64, end: Option<u64>) -> bool
    ensures { result ≡ is_last_level level next end }
{
    level == u64::MAX || end.is_some_and(|end| end < next)
}
