//! The values at many quantiles in ascending order, in one pass.

ghost use Rattle.std.specs.Prelude.{◌≡◌, ℕ, ◌*◌, ◌^◌, ◌<◌, ◌≤◌, List, map, length};
ghost use Rattle.std.specs.Iterator.{YieldsFirst, item_count};
ghost use Rattle.hdr_model.specs.Samples.{StandsFor};
ghost use Rattle.hdr_model.specs.Quantiles.{per, hundredth, is_below, nothing_of_it, returned_from, value_at_quantiles, AreTopsNear};

use super::Histogram;
use super::quantiles::rank_of;
use hdr_base::{Counter, Fraction, Quantile};
use hdr_counts::Search;
use std::marker::Model;

/// The values at quantiles in ascending order, seen as the list of those still to come. It reads
/// the bins once.
#[derive(Debug, Drop)]
pub struct Values<'a, T: Counter> {
    histogram: &'a Histogram<T>,
    rest: &'a [Quantile],
    /// What each quantile is a fraction of: 1, or 100 for percentiles.
    whole: u64,
    /// The last quantile whose value was yielded; 0/1 at first.
    last: Fraction,
    search: Search<'a, T>,
}

impl<'a, T: Counter> Model for Values<'a, T> {
    ghost use Rattle.std.specs.Prelude.{ℕ, List, map, ◌≡◌, ◌^◌, ◌<◌, ◌≤◌};
    ghost use Rattle.hdr_model.specs.Quantiles.{rank, per, quantiles_from};

    ghost Value = { List ℕ };

    ghost view = { λ v. quantiles_from v.histogram.now (per v.whole v.last) (map (per v.whole) v.rest.now) };

    ghost invariant = { λ v. (v.search.numbers ≡ v.histogram.now.counts) × (0 < v.whole) × (v.whole ≤ 100) × (0 < v.last.den) × (v.last.num < 2 ^ 64) × (v.last.den < 2 ^ 64) × (v.search.passed < rank (per v.whole v.last) v.histogram.now.total) };
}

impl<T: Counter> Histogram<T> {
    /// Returns an iterator over the results of `value_at_quantile` for quantiles in ascending
    /// order, by one pass. It ends before the first quantile that is below the one before it. If
    /// `len` is 0, it yields 0 for each of them, in any order.
    pub fn value_at_quantiles<'a>(&'a self, quantiles: &'a [Quantile]) -> Values<'a, T>
        ensures value { result ≡ value_at_quantiles self.now quantiles.now }
        ensures ranked { (S : List ℕ) → StandsFor self.now S → 0 < length S
            → AreTopsNear self.now S (returned_from self.now nothing_of_it quantiles.now) result }
    {
        self.values(quantiles, 1)
    }

    /// As `value_at_quantiles`, for percentiles.
    pub fn value_at_percentiles<'a>(&'a self, percentiles: &'a [Quantile]) -> Values<'a, T>
        ensures value { result ≡ value_at_quantiles self.now (map hundredth percentiles.now) }
        ensures ranked { (S : List ℕ) → StandsFor self.now S → 0 < length S
            → AreTopsNear self.now S (returned_from self.now nothing_of_it
            (map hundredth percentiles.now)) result }
    {
        self.values(percentiles, 100)
    }

    /// Returns an iterator over the values at fractions of 1 or 100.
    fn values<'a>(&'a self, shares: &'a [Quantile], whole: u64) -> Values<'a, T>
        requires nonzero { 0 < whole }
        requires at_most { whole ≤ 100 }
        ensures value { result ≡ value_at_quantiles self.now (map (per whole) shares.now) }
        ensures ranked { (S : List ℕ) → StandsFor self.now S → 0 < length S
            → AreTopsNear self.now S (returned_from self.now nothing_of_it
            (map (per whole) shares.now)) result }
    {
        Values {
            histogram: self,
            rest: shares,
            whole,
            last: Fraction { num: 0, den: 1 },
            search: Search::new(&self.counts),
        }
    }
}

impl<'a, T: Counter> Iterator for Values<'a, T> {
    type Item = u64;

    ghost next_gives = { YieldsFirst (λ rest. rest) };

    ghost remaining = { item_count (λ rest. rest) };

    fn next(&mut self) -> Option<u64> {
        let histogram = self.histogram;
        let (first, rest) = self.rest.split_first()?;
        let share = *first;
        let total = histogram.len();
        if total > 0 && is_below(share, self.last) {
            self.rest = &[];
            return None;
        }
        let num = share.num();
        let den = share.den();
        let rank = rank_of(num, u128::from(den) * u128::from(self.whole), total);
        let place = self.search.next_position(rank);
        self.rest = rest;
        self.last = Fraction {
            num: u128::from(num),
            den: u128::from(den),
        };
        Some(histogram.value_at_rank(num, rank, place))
    }
}

/// Whether a quantile is below a fraction.
fn is_below(share: Quantile, last: Fraction) -> bool
    requires num { last.num < 2 ^ 64 }
    requires den { last.den < 2 ^ 64 }
    ensures { result ≡ is_below share last }
{
    u128::from(share.num()) * last.den < last.num * u128::from(share.den())
}
