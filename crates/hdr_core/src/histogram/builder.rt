//! Setting bins, with the total and the marks computed once at the end.

ghost use Rattle.std.specs.Prelude.{◌≡◌, ◌+◌, ◌<◌, ◌≤◌, MatchResult, true, false, length, slice_set};
ghost use Rattle.hdr_base.specs.Classes.{most_bins};
ghost use Rattle.hdr_model.specs.Unfinished.{unfinished_of, IsClosed};
ghost use Rattle.hdr_model.specs.Marks.{IsTopMark, IsLowerMark};
ghost use Rattle.hdr_model.specs.Plain.{empty_plain};
ghost use Rattle.hdr_model.specs.CallErrors.{IsCreationError, IsBounds};

use super::Histogram;
use super::bounds::{Bounds, scale_for};
use super::merging::capped_sum;
use crate::marks::Marks;
use hdr_base::{Counter, Scale};
use hdr_counts::CountsBuilder;
use hdr_model::CreationError;
use std::alloc::Global;
use std::marker::Model;

/// A histogram whose bins are being set, seen as its bounds and the number of each bin.
///
/// `into_histogram` computes the total and the marks.
#[derive(Debug, Drop)]
pub struct HistogramBuilder<T: Counter> {
    scale: Scale,
    bounds: Bounds,
    counts: CountsBuilder<T>,
}

impl<T: Counter> Model for HistogramBuilder<T> {
    ghost use Rattle.hdr_model.specs.Unfinished.{Unfinished, AreBinsFor};

    ghost Value = { Unfinished };

    ghost view = { λ f. record { low = f.bounds.low; high = f.bounds.high; sigfig = f.bounds.sigfig; auto_resize = f.bounds.auto_resize; counts = f.counts.numbers } };

    ghost invariant = { λ f. AreBinsFor f.bounds.low f.bounds.high f.bounds.sigfig f.scale f.counts };
}

impl<T: Counter> HistogramBuilder<T> {
    /// Returns empty bins, as those of `Histogram::new_with_bounds`, and the same errors.
    pub fn new_with_bounds(
        alloc: Global,
        low: u64,
        high: u64,
        sigfig: u8,
    ) -> Result<HistogramBuilder<T>, CreationError>
        ensures { MatchResult result (λ f. (f ≡ unfinished_of (empty_plain low high sigfig false))
            × IsBounds low high sigfig) (IsCreationError low high sigfig) }
    {
        let scale = scale_for(low, high, sigfig)?;
        let Ok(counts) = CountsBuilder::new(alloc, scale.blocks(high), scale.block()) else {
            return Err(CreationError::OutOfMemory);
        };
        let bounds = Bounds::fixed(low, high, sigfig);
        Ok(HistogramBuilder {
            scale,
            bounds,
            counts,
        })
    }

    /// Returns the bins of `histogram`, each set to 0, as those of `new_with_bounds` for its
    /// bounds. Sections that are empty are skipped, and nothing is allocated.
    pub fn emptied(histogram: Histogram<T>) -> HistogramBuilder<T>
        ensures { (result ≡ unfinished_of
            (empty_plain histogram.low histogram.high histogram.sigfig false))
            × IsBounds histogram.low histogram.high histogram.sigfig }
    {
        let bounds = histogram.bounds;
        HistogramBuilder {
            scale: histogram.scale,
            bounds: Bounds::fixed(bounds.low, bounds.high, bounds.sigfig),
            counts: CountsBuilder::cleared(histogram.counts),
        }
    }

    /// The number of bins.
    #[inline(always)]
    pub fn distinct_values(&self) -> usize
        ensures value { result ≡ length self.now.counts }
        ensures at_most { result ≤ most_bins }
    {
        self.counts.len()
    }

    /// Sets the counter of `bin`, which is below `distinct_values()`.
    #[inline(always)]
    pub fn set(&mut self, bin: usize, count: T)
        requires { bin < length self.old.counts }
        ensures { self.new ≡ record self.old {
          counts = slice_set self.old.counts bin
              (T.number count);
        } }
    {
        self.counts.set(bin, count);
    }

    /// Fast path: sets the counters of `bin` and of the one after it, with a store each, if it can.
    /// Both must follow the bins that were set. Returns whether it did; `self` is unchanged if not.
    #[inline(always)]
    pub fn set_pair(&mut self, bin: usize, first: T, second: T) -> bool
        ensures set { result ≡ true → (bin + 1 < length self.old.counts)
            × (self.new ≡ record self.old {
              counts = slice_set
                  (slice_set self.old.counts bin (T.number first)) (bin + 1) (T.number second);
            }) }
        ensures unchanged { result ≡ false → self.new ≡ self.old }
        ensures at_most { length self.old.counts ≤ most_bins }
    {
        self.counts.set_pair(bin, first, second)
    }

    /// Returns the histogram of the bins. Its total is the saturated sum of its counters, and its
    /// marks are those of the nonzero ones.
    pub fn into_histogram(self) -> Histogram<T>
        ensures { IsClosed self result }
    {
        let marks = marks_of(self.scale, &self.counts);
        let counts = self.counts.into_counts();
        Histogram {
            scale: self.scale,
            bounds: self.bounds,
            total: capped_sum(&counts),
            counts,
            marks,
        }
    }
}

/// Returns the marks of counters that are being set.
fn marks_of<T: Counter>(scale: Scale, counts: &CountsBuilder<T>) -> Marks
    ensures top { IsTopMark counts.now.numbers result.top }
    ensures lower { IsLowerMark counts.now.numbers result.lower }
{
    Marks::new(scale, counts.last_nonzero(), counts.next_nonzero())
}
