//! The iterator over levels at the powers of a base.

ghost use Rattle.std.specs.Prelude.{◌≡◌, ◌≤◌};
ghost use Rattle.hdr_iterators.specs.Picks.{items_of};
ghost use Rattle.hdr_iterators.specs.Places.{log_picks};

use crate::bins::{Binned, Bins};
use crate::picking::{HistogramIterator, PickMetadata, PickyIterator, is_due};
use hdr_base::Counter;

/// The picker of levels at the powers of a base.
#[derive(Debug, Drop)]
pub struct Iter<'a, T: Counter> {
    bins: Bins<'a, T>,
    base: u64,
    /// One more than the next level.
    power: u64,
    /// The bin of the next level, or the last bin.
    place: usize,
    done: bool,
}

impl<'a, T: Counter> Iter<'a, T> {
    /// Returns an iterator over the levels `start - 1`, `start * base - 1`, `start * base ^ 2 - 1`, .. up to the first that is not below the last
    /// recorded class. A power past `u64::MAX` counts as `u64::MAX`. `start` is at least 1, and `base` at least 2.
    pub fn new<H: Binned<T>>(
        histogram: &'a H,
        start: u64,
        base: u64,
    ) -> HistogramIterator<'a, T, Iter<'a, T>>
        requires nonzero { 1 ≤ start }
        requires wide { 2 ≤ base }
        ensures { result ≡ items_of (H.seen histogram.now)
            (log_picks (H.seen histogram.now) start base) }
    {
        let bins = histogram.binned();
        let picker = Iter {
            place: bins.bin_or_last(start - 1),
            bins: histogram.binned(),
            base,
            power: start,
            done: false,
        };
        HistogramIterator::new(bins, picker, false)
    }
}

impl<'a, T: Counter> PickyIterator<T> for Iter<'a, T> {
    ghost use Rattle.std.specs.Prelude.{◌≡◌, ◌-◌, [], if◌then◌else◌};
    ghost use Rattle.hdr_iterators.specs.Seen.{bin_or_last};
    ghost use Rattle.hdr_iterators.specs.Places.{log_picks};
    ghost use Rattle.hdr_iterators.specs.Log.{LogStep};

    ghost picks = { λ p h. if p.done then [] else log_picks h p.power p.base };

    ghost goes_with = { λ p h last. (p.bins ≡ h) × (p.place ≡ bin_or_last h (p.power - 1)) × LogStep h p.power p.base };

    fn pick(&mut self, index: usize, _: u64, _: T) -> Option<PickMetadata> {
        if self.done || !is_due(&self.bins, self.place, index) {
            return None;
        }
        let level = self.power.saturating_sub(1);
        self.power = self.power.saturating_mul(self.base);
        self.place = self.bins.bin_or_last(self.power.saturating_sub(1));
        self.done = index >= self.bins.last();
        Some(PickMetadata::new(None, Some(level)))
    }

    fn more(&mut self, _: usize) -> bool {
        !self.done
    }
}
