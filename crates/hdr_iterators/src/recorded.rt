//! The iterator over the bins that hold samples.

ghost use Rattle.std.specs.Prelude.{◌≡◌, None};
ghost use Rattle.hdr_iterators.specs.Picks.{items_of};
ghost use Rattle.hdr_iterators.specs.Places.{recorded_picks};

use crate::bins::Binned;
use crate::picking::{HistogramIterator, PickMetadata, PickyIterator};
use hdr_base::Counter;

/// The picker of every nonempty bin.
#[derive(Debug, Drop)]
pub struct Iter {
    visited: Option<usize>,
}

impl Iter {
    /// Returns an iterator over every nonempty bin once, in ascending order.
    pub fn new<T: Counter, H: Binned<T>>(histogram: &H) -> HistogramIterator<'_, T, Iter>
        ensures { result ≡ items_of (H.seen histogram.now) (recorded_picks (H.seen histogram.now)) }
    {
        HistogramIterator::new(histogram.binned(), Iter { visited: None }, true)
    }
}

impl<T: Counter> PickyIterator<T> for Iter {
    ghost use Rattle.std.specs.Prelude.{map, filter, ◌≡◌};
    ghost use Rattle.hdr_iterators.specs.Seen.{AreBins};
    ghost use Rattle.hdr_iterators.specs.Picks.{bin_after};
    ghost use Rattle.hdr_iterators.specs.Places.{bin_pick, bins_from, is_nonempty};

    ghost picks = { λ p h. map bin_pick (filter (is_nonempty h) (bins_from h (bin_after p.visited))) };

    ghost goes_with = { λ p h last. AreBins h × (p.visited ≡ last) };

    fn pick(&mut self, index: usize, _: u64, count_at_index: T) -> Option<PickMetadata> {
        if count_at_index.as_u64() == 0 || self.visited == Some(index) {
            return None;
        }
        self.visited = Some(index);
        Some(PickMetadata::new(None, None))
    }

    fn more(&mut self, _: usize) -> bool {
        false
    }
}
