//! Quantiles of what was recorded.

ghost use Rattle.std.specs.Prelude.{◌≡◌, ℕ, ◌+◌, ◌^◌, ◌<◌, ◌≤◌, List, IfSome, MatchOption, length, sum};
ghost use Rattle.std.specs.Int.{div_ceil};
ghost use Rattle.hdr_base.specs.Classes.{bucket, most_bins};
ghost use Rattle.hdr_counts.specs.Blocks.{looks, IsFirstToReach};
ghost use Rattle.hdr_model.specs.Plain.{resolution, block_of};
ghost use Rattle.hdr_model.specs.Samples.{StandsFor};
ghost use Rattle.hdr_model.specs.Quantiles.{rank, ranked_sample, position_of_rank, value_at_bin, value_at_quantile, IsTopNear, hundredth};

use super::Histogram;
use hdr_base::{Counter, Quantile, Ticks};

impl<T: Counter> Histogram<T> {
    /// Returns the greatest value of the class that holds the sample of rank
    /// `ceil(num * len / den)`, at least 1, among all samples in order. For the quantile 0, returns
    /// the lowest value of that class. Returns 0 if the counters, saturated ones among them, do not
    /// reach the rank. A quantile above 1 counts as 1.
    pub fn value_at_quantile(&self, quantile: Quantile) -> u64
        ensures value { result ≡ value_at_quantile self.now quantile }
        ensures ranked { (S : List ℕ) → StandsFor self.now S → 0 < length S → 0 < quantile.num
            → IsTopNear self.now (ranked_sample quantile S) result }
    {
        let rank = rank_of(quantile.num(), u128::from(quantile.den()), self.total);
        self.value_at_rank(quantile.num(), rank, self.counts.position_of_rank(rank))
    }

    /// As `value_at_quantile`. `ticks` grows by one for each block's sum and each counter compared,
    /// at most as many as there are blocks and counters in a block. A tick is a step, and not a
    /// read: a block, half as many bins as the first bucket, has its sum added up from those of its
    /// sections, or at `sigfig` 0 and 1 from its counters.
    pub fn value_at_quantile_counted(&self, quantile: Quantile, ticks: &mut Ticks) -> u64
        requires { ticks.old ≤ 2 ^ 63 }
        ensures value { result ≡ value_at_quantile self.now quantile }
        ensures ranked { (S : List ℕ) → StandsFor self.now S → 0 < length S → 0 < quantile.num
            → IsTopNear self.now (ranked_sample quantile S) result }

        // One tick for each sum of a block and each counter that is read.
        ensures looks { ticks.new ≡ ticks.old + looks (block_of self.now) (length self.now.counts)
            (position_of_rank self.now.counts (rank quantile self.now.total)) }
        ensures at_most { ticks.new ≤ ticks.old +
            (bucket (resolution self.now) self.now.high + 2 + block_of self.now) }
        ensures bounded { ticks.new ≤ ticks.old + most_bins }
    {
        let rank = rank_of(quantile.num(), u128::from(quantile.den()), self.total);
        let place = self.find(rank, ticks);
        self.value_at_bin(quantile.num(), place)
    }

    /// As `value_at_quantile`, for a hundredth of `percentile`: 999/10 is 99.9 %.
    pub fn value_at_percentile(&self, percentile: Quantile) -> u64
        ensures value { result ≡ value_at_quantile self.now (hundredth percentile) }
        ensures ranked { (S : List ℕ) → StandsFor self.now S → 0 < length S → 0 < percentile.num
            → IsTopNear self.now (ranked_sample (hundredth percentile) S) result }
    {
        let den = u128::from(percentile.den()) * 100;
        let rank = rank_of(percentile.num(), den, self.total);
        self.value_at_rank(percentile.num(), rank, self.counts.position_of_rank(rank))
    }

    /// Returns the first bin at which the sum of the counters up to it reaches `rank`, and counts a
    /// tick for each read.
    fn find(&self, rank: u64, ticks: &mut Ticks) -> Option<usize>
        requires nonzero { 1 ≤ rank }
        requires ticks_fit { ticks.old ≤ 2 ^ 63 }
        ensures index { result ≡ position_of_rank self.now.counts rank }
        ensures within { IfSome result (λ i. i < length self.now.counts) }
        ensures looks { ticks.new ≡ ticks.old + looks (block_of self.now)
            (length self.now.counts) result }
    {
        self.counts.find(rank, ticks)
    }

    /// As `value_at_bin`. `place` is the result of a search for `rank`, which the contract alone
    /// speaks of.
    pub(super) fn value_at_rank(&self, num: u64, rank: u64, place: Option<usize>) -> u64
        requires nonzero { 1 ≤ rank }
        requires first { MatchOption place (sum self.now.counts < rank)
            (IsFirstToReach self.now.counts rank) }
        ensures { result ≡ value_at_bin (resolution self.now) num (position_of_rank self.now.counts rank) }
    {
        self.value_at_bin(num, place)
    }

    /// Returns the top of bin `place`, or its lowest value if `num` is 0. Returns 0 for `None`.
    fn value_at_bin(&self, num: u64, place: Option<usize>) -> u64
        requires { IfSome place (λ i. i < length self.now.counts) }
        ensures { result ≡ value_at_bin (resolution self.now) num place }
    {
        match place {
            Some(bin) if num == 0 => self.class_value(bin),
            Some(bin) => self.class_top(bin),
            None => 0,
        }
    }
}

/// Returns the rank, from 1, of the quantile `num / whole` among `total` samples.
pub(super) fn rank_of(num: u64, whole: u128, total: u64) -> u64
    requires { 0 < whole }
    ensures value { result ≡ rank (record { num = num; den = whole }) total }
    ensures at_least_one { 1 ≤ result }
{
    let share = u128::from(num).min(whole);
    let place = divided_up(share * u128::from(total), whole);
    (place as u64).max(1)
}

/// Returns the quotient, rounded up. Divides in 64 bits if both numbers fit them, which takes less
/// time.
fn divided_up(number: u128, by: u128) -> u128
    requires { 0 < by }
    ensures { result ≡ div_ceil number by }
{
    let greatest = u128::from(u64::MAX);
    if number > greatest || by > greatest {
        return number.div_ceil(by);
    }
    u128::from((number as u64).div_ceil(by as u64))
}
