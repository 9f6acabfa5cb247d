//! The iterator over every bin.

ghost use Rattle.std.specs.Prelude.{◌≡◌, None};
ghost use Rattle.hdr_iterators.specs.Picks.{items_of};
ghost use Rattle.hdr_iterators.specs.Places.{all_picks};

use crate::bins::Binned;
use crate::picking::{HistogramIterator, PickMetadata, PickyIterator};
use hdr_base::Counter;

/// The picker of every bin.
#[derive(Debug, Drop)]
pub struct Iter {
    visited: Option<usize>,
}

impl Iter {
    /// Returns an iterator over every bin once, in ascending order.
    pub fn new<T: Counter, H: Binned<T>>(histogram: &H) -> HistogramIterator<'_, T, Iter>
        ensures { result ≡ items_of (H.seen histogram.now) (all_picks (H.seen histogram.now)) }
    {
        HistogramIterator::new(histogram.binned(), Iter { visited: None }, false)
    }
}

impl<T: Counter> PickyIterator<T> for Iter {
    ghost use Rattle.std.specs.Prelude.{map, ◌≡◌};
    ghost use Rattle.hdr_iterators.specs.Picks.{bin_after};
    ghost use Rattle.hdr_iterators.specs.Places.{bin_pick, bins_from};

    ghost picks = { λ p h. map bin_pick (bins_from h (bin_after p.visited)) };

    ghost goes_with = { λ p h last. p.visited ≡ last };

    fn pick(&mut self, index: usize, _: u64, _: T) -> Option<PickMetadata> {
        if self.visited == Some(index) {
            return None;
        }
        self.visited = Some(index);
        Some(PickMetadata::new(None, None))
    }

    fn more(&mut self, _: usize) -> bool {
        true
    }
}
