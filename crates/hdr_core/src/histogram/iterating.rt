//! Iterators over a histogram.

ghost use Rattle.std.specs.Prelude.{◌≡◌, ℕ, ◌<◌, ◌≤◌, length, slice_index};
ghost use Rattle.hdr_core.specs.Iterating.{bins_seen};
ghost use Rattle.hdr_iterators.specs.Picks.{items_of};
ghost use Rattle.hdr_iterators.specs.Places.{all_picks, recorded_picks, linear_picks, log_picks, quantile_picks};

use super::Histogram;
use hdr_base::Counter;
use hdr_iterators::{Binned, Bins, HistogramIterator, all, linear, log, quantile, recorded};

impl<T: Counter> Binned<T> for Histogram<T> {
    ghost use Rattle.hdr_core.specs.Iterating.{bins_seen};

    ghost seen = { bins_seen };

    fn binned(&self) -> Bins<'_, T> {
        let last = self.marks.top().unwrap_or(0);
        Bins::new(self.scale, &self.counts, self.total, last)
    }
}

impl<T: Counter> Histogram<T> {
    /// Returns the index of the first nonempty bin from `from` on, or the number of bins if there
    /// is none.
    pub fn next_filled(&self, from: usize) -> usize
        requires { from ≤ length self.now.counts }
        ensures onward { from ≤ result }
        ensures within { result ≤ length self.now.counts }
        ensures empty { (i : ℕ) → from ≤ i → i < result → slice_index self.now.counts i ≡ 0 }
        ensures filled { result < length self.now.counts → 0 < slice_index self.now.counts result }
    {
        self.counts.next_filled(from)
    }

    /// Returns an iterator over every bin once, in ascending order, each at the greatest value of
    /// its class.
    pub fn iter_all(&self) -> HistogramIterator<'_, T, all::Iter>
        ensures { result ≡ items_of (bins_seen self.now) (all_picks (bins_seen self.now)) }
    {
        all::Iter::new(self)
    }

    /// Returns an iterator over every nonempty bin once, in ascending order, each at the greatest
    /// value of its class.
    pub fn iter_recorded(&self) -> HistogramIterator<'_, T, recorded::Iter>
        ensures { result ≡ items_of (bins_seen self.now) (recorded_picks (bins_seen self.now)) }
    {
        recorded::Iter::new(self)
    }

    /// Returns an iterator in steps of `step` values, at least 1. It yields an item for each level
    /// `step - 1`, `2 * step - 1`, .. with the samples up to its class. These are the levels below
    /// the top mark's class, then the next one, then those up to the top of that level's class.
    pub fn iter_linear(&self, step: u64) -> HistogramIterator<'_, T, linear::Iter<'_, T>>
        requires { 1 ≤ step }
        ensures { result ≡ items_of (bins_seen self.now) (linear_picks (bins_seen self.now) step) }
    {
        linear::Iter::new(self, step)
    }

    /// Returns an iterator in growing steps. It yields an item for each level `start - 1`,
    /// `start * base - 1`, `start * base ^ 2 - 1`, .. below the top mark's class, and for the next
    /// one. `start` is at least 1, and `base` at least 2.
    pub fn iter_log(&self, start: u64, base: u64) -> HistogramIterator<'_, T, log::Iter<'_, T>>
        requires nonzero { 1 ≤ start }
        requires wide { 2 ≤ base }
        ensures { result ≡ items_of (bins_seen self.now)
            (log_picks (bins_seen self.now) start base) }
    {
        log::Iter::new(self, start, base)
    }

    /// Returns an iterator over quantiles that approach 1. `ticks_per_half_distance` equal steps,
    /// at least 1, cover the first half, then as many half of the rest, and so on. Each nonempty
    /// bin is yielded once for each quantile that it reaches. At the bin that reaches the total,
    /// the next quantile follows, and then 1.
    pub fn iter_quantiles(
        &self,
        ticks_per_half_distance: u32,
    ) -> HistogramIterator<'_, T, quantile::Iter<'_, T>>
        requires { 1 ≤ ticks_per_half_distance }
        ensures { result ≡ items_of (bins_seen self.now)
            (quantile_picks (bins_seen self.now) ticks_per_half_distance) }
    {
        quantile::Iter::new(self, ticks_per_half_distance)
    }
}
