//! The histogram: constructors and properties.

ghost use Rattle.std.specs.Prelude.{◌≡◌, ◌↔◌, MatchResult, MatchOption, IsTrue, false, true, ◌+◌, ◌*◌, ◌<◌, ◌≤◌, IfSome, SomeIff, IfErr, length, map, slice_index, unwrap_or};
ghost use Rattle.hdr_base.specs.Classes.{most_bins, bin_of, bucket, resolution_of, value_of, top_of};
ghost use Rattle.hdr_model.specs.Plain.{IsPlain, resolution, reach, block_of, empty_plain, max_of, min_nz_of, min_of};
ghost use Rattle.hdr_model.specs.CallErrors.{IsCreationError, IsBounds, IsForGreatLow};
ghost use Rattle.hdr_model.specs.Merging.{highest_top};
ghost use Rattle.hdr_model.specs.declared.errors.CreationError.TheVariants.{OutOfMemory};

mod bounds;
mod builder;
mod classes;
mod copying;
mod correction;
mod equality;
mod growing;
mod iterating;
mod merging;
mod merging_corrected;
mod quantiles;
mod recording;
mod statistics;
mod subtracting;
mod values;

use crate::marks::Marks;
use bounds::{Bounds, scale_for};
pub use builder::HistogramBuilder;
use hdr_base::{Counter, Scale};
use hdr_counts::Counts;
use hdr_model::CreationError;
use std::alloc::Global;
use std::marker::Model;
pub use values::Values;

/// How often values were recorded, class by class, in counters of type `T`.
///
/// It is seen as a `Plain`: its bounds, the number of each bin, the total and the two marks. Bins are the classes from 0
/// to the reach, in order.
#[derive(Debug, Drop)]
pub struct Histogram<T: Counter> {
    scale: Scale,
    bounds: Bounds,
    counts: Counts<T>,
    total: u64,
    marks: Marks,
}

impl<T: Counter> Model for Histogram<T> {
    ghost use Rattle.hdr_model.specs.Plain.{Plain};

    ghost Value = { Plain };

    ghost use Rattle.hdr_core.specs.Shown.{plain_of, IsHeld};

    ghost view = { plain_of };

    ghost invariant = { λ h. IsHeld T.greatest h };
}

impl<T: Counter> Histogram<T> {
    /// Returns an empty histogram for values from 0 to at least `high` that does not grow. It keeps
    /// `sigfig` significant digits, but may count values that differ by less than `low` together.
    /// `low` is rounded down to a power of two, the unit.
    ///
    /// `low` is 1 to `u64::MAX / 2`, `high` at least twice `low`, `sigfig` 0 to 5, and unit and
    /// digits fit 63 bits. Returns an error for the first of these that does not hold: `LowIsZero`
    /// or `LowExceedsMax`, `HighLessThanTwiceLow`, `SigFigExceedsMax`, or
    /// `CannotRepresentSigFigBeyondLow`. Returns `OutOfMemory` if all hold and an allocation fails.
    pub fn new_with_bounds(
        alloc: Global,
        low: u64,
        high: u64,
        sigfig: u8,
    ) -> Result<Histogram<T>, CreationError>
        ensures made { MatchResult result (λ h. (h ≡ empty_plain low high sigfig false)
            × IsBounds low high sigfig) (IsCreationError low high sigfig) }
        ensures beyond { IfErr result (IsForGreatLow low) }
    {
        let scale = scale_for(low, high, sigfig)?;
        Histogram::empty(alloc, scale, Bounds::fixed(low, high, sigfig))
    }

    /// Returns an empty histogram of these bounds, whose scale is `scale`. Returns an error only if
    /// an allocation fails.
    fn empty(alloc: Global, scale: Scale, bounds: Bounds) -> Result<Histogram<T>, CreationError>
        requires scale { scale ≡ resolution_of bounds.low bounds.sigfig }
        requires bounds { IsBounds bounds.low bounds.high bounds.sigfig }
        ensures { MatchResult result (λ h. h
            ≡ empty_plain bounds.low bounds.high bounds.sigfig bounds.auto_resize) (λ e. e ≡ OutOfMemory) }
    {
        let Ok(counts) = Counts::new(alloc, scale.blocks(bounds.high), scale.block()) else {
            return Err(CreationError::OutOfMemory);
        };
        Ok(Histogram {
            scale,
            bounds,
            counts,
            total: 0,
            marks: Marks::none(scale),
        })
    }

    /// As `new_with_bounds` with `low` 1: `high` is at least 2, and `sigfig` 0 to 5.
    pub fn new_with_max(alloc: Global, high: u64, sigfig: u8) -> Result<Histogram<T>, CreationError>
        ensures made { MatchResult result (λ h. (h ≡ empty_plain 1 high sigfig false)
            × IsBounds 1 high sigfig) (IsCreationError 1 high sigfig) }
        ensures beyond { IfErr result (IsForGreatLow 1) }
    {
        Histogram::new_with_bounds(alloc, 1, high, sigfig)
    }

    /// Returns an empty histogram with unit 1 that grows as values are recorded; `high` is 2 at
    /// first. `sigfig` is 0 to 5. Returns `SigFigExceedsMax` if it is above 5, and otherwise
    /// `OutOfMemory` if an allocation fails.
    #[tactic(auto, unfolding(hdr_model::specs::Plain::empty_plain))]
    pub fn new(alloc: Global, sigfig: u8) -> Result<Histogram<T>, CreationError>
        ensures made { MatchResult result (λ h. (h ≡ empty_plain 1 2 sigfig true)
            × IsBounds 1 2 sigfig) (IsCreationError 1 2 sigfig) }
        ensures beyond { IfErr result (IsForGreatLow 1) }
    {
        let mut histogram = Histogram::new_with_bounds(alloc, 1, 2, sigfig)?;
        histogram.bounds.auto_resize = true;
        Ok(histogram)
    }

    /// Sets whether the bins grow to values past them.
    pub fn auto(&mut self, enabled: bool)
        ensures { self.new ≡ record self.old { auto_resize = enabled } }
    {
        self.bounds.auto_resize = enabled;
    }

    /// The number of bins, one for each class from 0 to the reach.
    pub fn distinct_values(&self) -> usize
        ensures value { result ≡ length self.now.counts }
        ensures blocks { result ≡ (bucket (resolution self.now) self.now.high + 2) * block_of self.now }
        ensures at_most { result ≤ most_bins }
        ensures plain { IsPlain T.greatest self.now }
    {
        self.counts.len()
    }

    /// The bound `low`: values that differ by less may be counted together.
    pub fn low(&self) -> u64
        ensures { result ≡ self.now.low }
    {
        self.bounds.low
    }

    /// The highest value that the bins were made for. If the bins grow, it becomes the reach of the
    /// value recorded past them, or the `max` of the histogram added. It has a bin, and it is no
    /// lower than `low`: the bounds of a histogram are valid for another.
    pub fn high(&self) -> u64
        ensures value { result ≡ self.now.high }
        ensures in_bins { self.now.high ≤ reach self.now }
        ensures wide { self.now.low ≤ self.now.high }
        ensures bounds { IsBounds self.now.low self.now.high self.now.sigfig }
    {
        self.bounds.high
    }

    /// The number of significant digits kept, 0 to 5.
    pub fn sigfig(&self) -> u8
        ensures value { result ≡ self.now.sigfig }
        ensures bound { self.now.sigfig ≤ 5 }
    {
        self.bounds.sigfig
    }

    /// The number of samples counted; it saturates at `u64::MAX`.
    pub fn len(&self) -> u64
        ensures { result ≡ self.now.total }
    {
        self.total
    }

    /// As `len`.
    pub fn count(&self) -> u64
        ensures { result ≡ self.now.total }
    {
        self.total
    }

    /// Whether no samples are counted.
    pub fn is_empty(&self) -> bool
        ensures { IsTrue result ↔ (self.now.total ≡ 0) }
    {
        self.total == 0
    }

    /// The number of buckets up to that of `high`, 1 to 64.
    pub fn buckets(&self) -> u8
        ensures value { result ≡ bucket (resolution self.now) self.now.high + 1 }
        ensures bound { result ≤ 64 }
    {
        self.scale.buckets(self.bounds.high) as u8
    }

    /// Whether the bins grow to values past them.
    pub fn is_auto_resize(&self) -> bool
        ensures { result ≡ self.now.auto_resize }
    {
        self.bounds.auto_resize
    }

    /// The greatest value that has a bin.
    fn reach(&self) -> u64
        ensures { result ≡ reach self.now }
    {
        self.scale.reach(self.bounds.high)
    }

    /// Returns the index of the bin of `value`, or `None` if `value` is past the bins.
    pub fn bin_of(&self, value: u64) -> Option<usize>
        ensures value { SomeIff result (value ≤ reach self.now) (bin_of (resolution self.now) value) }
        ensures within { IfSome result (λ bin. bin < length self.now.counts) }
        ensures plain { IsPlain T.greatest self.now }
    {
        let bin = self.scale.bin(value);
        if bin < self.counts.len() {
            Some(bin)
        } else {
            None
        }
    }

    /// Returns the lowest value of the class of bin `index`, or `None` if `index` is past the bins.
    pub fn bin_value(&self, index: usize) -> Option<u64>
        ensures value { SomeIff result (index < length self.now.counts)
            (value_of (resolution self.now) index) }
        ensures bin { IfSome result (λ v. bin_of (resolution self.now) v ≡ index) }
        ensures within { IfSome result (λ v. v ≤ reach self.now) }
    {
        if index < self.counts.len() {
            Some(self.class_value(index))
        } else {
            None
        }
    }

    /// Returns the counter of bin `index`, or `None` if `index` is past the bins.
    pub fn bin_count(&self, index: usize) -> Option<T>
        ensures { MatchOption result (length self.now.counts ≤ index)
            (λ c. (index < length self.now.counts)
            × (T.number c ≡ slice_index self.now.counts index)) }
    {
        self.counters().get(index).copied()
    }

    /// The counters of the bins in their order.
    pub fn counters(&self) -> &[T]
        ensures { map T.number result.now ≡ self.now.counts }
    {
        self.counts.as_slice()
    }

    /// Returns the lowest value of the class of `bin`.
    fn class_value(&self, bin: usize) -> u64
        requires { bin < length self.now.counts }
        ensures { result ≡ value_of (resolution self.now) bin }
    {
        self.scale.bin_value(bin).unwrap_or(0)
    }

    /// Returns the greatest value of the class of `bin`.
    fn class_top(&self, bin: usize) -> u64
        requires { bin < length self.now.counts }
        ensures { result ≡ top_of (resolution self.now) (value_of (resolution self.now) bin) }
    {
        self.scale.top(self.class_value(bin))
    }

    /// Returns the greatest value of the last class that counts as recorded, or 0 if none does. No
    /// class after it holds samples.
    pub fn max(&self) -> u64
        ensures value { result ≡ max_of self.now }
        ensures bin { bin_of (resolution self.now) result ≡ unwrap_or self.now.top_mark 0 }
        ensures within { result ≤ reach self.now }
        ensures covers { highest_top self.now ≤ result }
    {
        self.marks.greatest(self.scale)
    }

    /// Returns the lowest value of the first class other than class 0 that counts as recorded, or
    /// `u64::MAX` if none does.
    pub fn min_nz(&self) -> u64
        ensures { result ≡ min_nz_of self.now }
    {
        self.marks.lowest(self.scale)
    }

    /// Returns 0 if `len` is 0 or the first bin is not empty. Otherwise returns `min_nz`, the
    /// lowest value of the first class that counts as recorded.
    pub fn min(&self) -> u64
        ensures { result ≡ min_of self.now }
    {
        if self.total == 0 || self.counts.get(0).as_u64() > 0 {
            0
        } else {
            self.min_nz()
        }
    }
}
