//! Means, and levels of them.

ghost use Rattle.std.specs.Prelude.{◌≡◌, ◌↔◌, ◌+◌, ◌*◌, ◌-◌, ◌^◌, ◌<◌, ◌≤◌, ℕ, List, [], ◌++◌, IsTrue, min};
ghost use Rattle.std.specs.Ordering.{nat_cmp};
ghost use Rattle.hdr_model.specs.Plain.{IsPlain, resolution};
ghost use Rattle.hdr_model.specs.Samples.{StandsFor};
ghost use Rattle.hdr_summary.specs.Classes.{Known, known_by};
ghost use Rattle.hdr_summary.specs.Levels.{bound_of};
ghost use Rattle.hdr_summary.specs.Means.{IsMeanWithin, IsSumOf};

use crate::levels::Level;
use crate::verdicts::LevelCounts;
use hdr_input::Bound;
use hdr_input::distribution::MOST_DECIMALS;
use hdrhistogram::Histogram;
use std::cmp::Ordering;

/// The number of samples, and the bounds of their sum: of samples that are only known by their
/// classes these are the sums of the lowest and of the greatest values of the classes.
#[derive(Clone, Copy)]
pub struct SampleSum {
    pub total: u64,
    pub low: u128,
    pub high: u128,
}

impl SampleSum {
    /// The sum of no samples.
    pub const EMPTY: SampleSum = SampleSum {
        total: 0,
        low: 0,
        high: 0,
    };

    /// Adds the samples of a histogram, whose unit is `factor` units.
    pub fn add(&mut self, histogram: &Histogram<u64>, factor: u64)
        ensures { (L : List Known) (S : List ℕ) → IsSumOf self.old L → StandsFor histogram.now S
            → IsSumOf self.new (L ++ known_by factor (resolution histogram.now) S) }
    {
        let sum = SampleSum::of(histogram).in_units(factor);
        self.total = self.total.saturating_add(sum.total);
        self.low = self.low.saturating_add(sum.low);
        self.high = self.high.saturating_add(sum.high);
    }

    /// Returns the sum in units of which `factor` are one of its own.
    fn in_units(self, factor: u64) -> SampleSum
        ensures total { result.total ≡ self.total }
        ensures low { result.low ≡ min (self.low * factor) (2 ^ 128 - 1) }
        ensures high { result.high ≡ min (self.high * factor) (2 ^ 128 - 1) }
    {
        SampleSum {
            total: self.total,
            low: self.low.saturating_mul(u128::from(factor)),
            high: self.high.saturating_mul(u128::from(factor)),
        }
    }

    /// Returns the sum of the samples of a histogram.
    fn of(histogram: &Histogram<u64>) -> SampleSum
        ensures { (S : List ℕ) → StandsFor histogram.now S
            → IsSumOf result (known_by 1 (resolution histogram.now) S) }
    {
        show_plain(histogram);
        let (mut low, mut high) = (0u128, 0u128);
        for item in histogram.iter_recorded() {
            let count = u128::from(item.count_at_value());
            let greatest = item.value_iterated_to();
            let lowest = histogram.lowest_equivalent(greatest);
            low = low.saturating_add(count * u128::from(lowest));
            high = high.saturating_add(count * u128::from(greatest));
        }
        let total = histogram.len();
        SampleSum { total, low, high }
    }

    /// Returns the counts of one value, the mean: whether it is surely within the bound of a level,
    /// and whether perhaps.
    pub fn counts(&self, level: &Level<'_>, decimals: u32) -> LevelCounts
        ensures total { result.total ≡ self.now.total }
        ensures sure { decimals ≤ 18 → (result.sure ≡ 1) ↔ IsMeanWithin
            (bound_of level.now.side level.now.number) self.now.high self.now.total decimals }
        ensures perhaps { decimals ≤ 18 → (result.perhaps ≡ 1) ↔ IsMeanWithin
            (bound_of level.now.side level.now.number) self.now.low self.now.total decimals }
        ensures sure_or_not { result.sure ≤ 1 }
        ensures perhaps_or_not { result.perhaps ≤ 1 }
    {
        let bound = level.bound();
        let is_sure = is_mean_within(bound, self.high, self.total, decimals);
        let is_perhaps = is_mean_within(bound, self.low, self.total, decimals);
        LevelCounts {
            total: self.total,
            sure: u64::from(is_sure),
            perhaps: u64::from(is_perhaps),
            greatest: 0,
            low: 0,
            high: 0,
        }
    }
}

/// Whether `sum / total`, in units of which 10^decimals are 1, is within a bound.
#[tactic(auto, using(hdr_input::proofs::InUnits::positive))]
fn is_mean_within(bound: Bound, sum: u128, total: u64, decimals: u32) -> bool
    ensures { bound.number.decimals ≤ 18 → decimals ≤ 18
        → IsTrue result ↔ IsMeanWithin bound sum total decimals }
{
    if total == 0 {
        return false;
    }
    let scale = u128::from(10u64.pow(bound.number.decimals.min(MOST_DECIMALS)));
    let level = u128::from(bound.number.digits) * 10u128.pow(decimals.min(MOST_DECIMALS));
    match compare_fractions(sum, u128::from(total), level, scale) {
        Ordering::Less => true,
        Ordering::Equal => bound.is_included,
        Ordering::Greater => false,
    }
}

/// Compares the fractions `num / den` and `other_num / other_den`.
fn compare_fractions(num: u128, den: u128, other_num: u128, other_den: u128) -> Ordering
    requires den { 0 < den }
    requires other_den { 0 < other_den }
    requires small_den { den < 2 ^ 64 }
    requires small_other_den { other_den < 2 ^ 64 }
    ensures { result ≡ nat_cmp (num * other_den) (other_num * den) }
{
    let quotients = (num / den).cmp(&(other_num / other_den));
    let rests = (num % den * other_den).cmp(&(other_num % other_den * den));
    quotients.then(rests)
}

/// For the prover alone: the histogram is plain (`IsPlain`). It does nothing.
fn show_plain(histogram: &Histogram<u64>)
    ensures { IsPlain (2 ^ 64 - 1) histogram.now }
{
    let _bins = histogram.distinct_values();
}
