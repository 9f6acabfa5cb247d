//! What the counters of a histogram hold.

ghost use Rattle.std.specs.Prelude.{◌≡◌, ℕ, ◌+◌, ◌-◌, ◌*◌, ◌^◌, ◌<◌, ◌≤◌, min, slice_index, length, List, IfSome};
ghost use Rattle.hdr_base.specs.Classes.{lowest_of, top_of, value_of, bin_of};
ghost use Rattle.hdr_model.specs.Plain.{IsPlain, resolution, reach};
ghost use Rattle.hdr_model.specs.Samples.{StandsFor};
ghost use Rattle.hdr_model.specs.Statistics.{bin_or_last, sum_between, samples_between, quantile_below, in_hundredths, median_of, weight_from, mean};

mod deviation;
mod u256;

use super::Histogram;
use hdr_base::{Counter, Fraction, Scale, saturating_from};

impl<T: Counter> Histogram<T> {
    /// Returns the counter of the class of `value`, or of the last bin if `value` is past the bins.
    pub fn count_at(&self, value: u64) -> T
        ensures { T.number result ≡ slice_index self.now.counts (bin_or_last self.now value) }
    {
        self.counts.get(self.bin_or_last(value))
    }

    /// Returns the sum of the counters from the bin of `low` to that of `high`, saturated at
    /// `u64::MAX`, or 0 if the bin of `low` is later. A value past the bins counts as one of the
    /// last bin. The result is at most `len`.
    pub fn count_between(&self, low: u64, high: u64) -> u64
        ensures value { result ≡ min (sum_between self.now low high) (2 ^ 64 - 1) }
        ensures samples { (S : List ℕ) → StandsFor self.now S → low ≤ high → high ≤ reach self.now
            → result ≡ samples_between (lowest_of (resolution self.now) low)
            (top_of (resolution self.now) high) S }
        ensures at_most { result ≤ self.now.total }
    {
        let from = self.bin_or_last(low);
        let to = self.bin_or_last(high);
        if from > to {
            return 0;
        }
        let before = if from == 0 {
            0
        } else {
            self.counts.sum_to(from - 1)
        };
        saturating_from(self.counts.sum_to(to) - before)
    }

    /// Returns the fraction of the samples that lie in the class of `value` or below it: the sum of
    /// the counters up to its bin, over `len`. A value past the bins counts as one of the last bin.
    /// Returns 1/1 if `len` is 0.
    pub fn quantile_below(&self, value: u64) -> Fraction
        ensures value { result ≡ quantile_below self.now value }
        ensures samples { (S : List ℕ) → StandsFor self.now S → 0 < length S
            → result ≡ record {
              num = samples_between 0
                  (top_of (resolution self.now) value) S;
              den = length S;
            } }
        ensures fits { result.num < 2 ^ 64 }
        ensures share { result.num ≤ result.den }
        ensures den { 0 < result.den }
    {
        if self.total == 0 {
            return Fraction { num: 1, den: 1 };
        }
        let up_to: u64 = saturating_from(self.counts.sum_to(self.bin_or_last(value)));
        Fraction::new(u128::from(up_to), u128::from(self.total))
    }

    /// As `quantile_below`, times 100.
    pub fn percentile_below(&self, value: u64) -> Fraction
        ensures value { result ≡ in_hundredths (quantile_below self.now value) }
        ensures share { result.num ≤ 100 * result.den }
        ensures den { 0 < result.den }
    {
        let share = self.quantile_below(value);
        Fraction::new(share.num * 100, share.den)
    }

    /// Returns the mean of the samples, each taken as the value in the middle of its class: the
    /// exact sum over `len`. Returns 0/1 if `len` is 0. Returns `None` if `len` is `u64::MAX`,
    /// which may be a saturated total.
    pub fn mean(&self) -> Option<Fraction>
        ensures value { result ≡ mean self.now }
        ensures den { IfSome result (λ m. 0 < m.den) }
    {
        if self.total == u64::MAX {
            return None;
        }
        if self.total == 0 {
            return Some(Fraction { num: 0, den: 1 });
        }
        Some(Fraction::new(self.weighed(), u128::from(self.total)))
    }

    /// Returns the sum of the counters, each times the value in the middle of its class.
    fn weighed(&self) -> u128
        requires { self.now.total < 2 ^ 64 - 1 }
        ensures { result ≡ weight_from (resolution self.now) 0 self.now.counts }
    {
        let mut sum: u128 = 0;
        let mut bin = self.counts.next_filled(0);
        while bin < self.counts.len() {
            sum += weight(self.scale, bin, self.counts.get(bin).as_u64());
            bin = self.counts.next_filled(bin + 1);
        }
        sum
    }

    /// Returns the bin of `value`, or the last bin if `value` is past the bins.
    fn bin_or_last(&self, value: u64) -> usize
        ensures value { result ≡ bin_or_last self.now value }
        ensures within { result < length self.now.counts }
        ensures plain { IsPlain T.greatest self.now }
    {
        self.scale.bin(value).min(self.counts.len() - 1)
    }
}

/// Returns `number` times the value in the middle of the class of `bin`.
fn weight(scale: Scale, bin: usize, number: u64) -> u128
    requires { bin ≤ bin_of scale (2 ^ 64 - 1) }
    ensures value { result ≡ median_of scale (value_of scale bin) * number }
    ensures bound { result ≤ 2 ^ 64 * number }
{
    u128::from(middle(scale, bin)) * u128::from(number)
}

/// Returns the value in the middle of the class of `bin`.
fn middle(scale: Scale, bin: usize) -> u64
    requires { bin ≤ bin_of scale (2 ^ 64 - 1) }
    ensures { result ≡ median_of scale (value_of scale bin) }
{
    let Some(lowest) = scale.bin_value(bin) else {
        return 0;
    };
    scale.lowest(lowest) + scale.width(lowest) / 2
}
