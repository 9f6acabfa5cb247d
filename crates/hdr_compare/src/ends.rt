//! Whether a rank is an end of the interval of a quantile.

ghost use Rattle.std.specs.Prelude.{◌↔◌, ◌*◌, ◌<◌, ◌≤◌, ◌^◌, IsTrue};
ghost use Rattle.hdr_compare.specs.Ends.{IsShift};

use crate::ranks::{is_far_above, is_far_below};
use crate::tiers::Tier;
use hdrhistogram::Quantile;

/// The number of samples, as how many independent ones they count, and the quantile and the
/// confidence of an interval.
#[derive(Clone, Copy)]
pub(crate) struct Basis {
    pub(crate) samples: u64,
    pub(crate) independent: u64,
    pub(crate) quantile: Quantile,
    pub(crate) tier: Tier,
}

impl Basis {
    ghost use Rattle.std.specs.Prelude.{◌≡◌, IfSome, Some, false, true};
    ghost use Rattle.hdr_compare.specs.Ends.{IsFarLow, IsFarHigh, IsRankFarAbove, IsRankFarBelow, ReachesFirst, ReachesLast};
    ghost use Rattle.hdr_compare.specs.EndsOf.{IsFirstOfInterval, IsLastOfInterval};
    ghost use Rattle.hdr_compare.specs.Tiers.{edge_of, normal_of};

    /// Whether the sample after `under` ones is below the quantile by more than chance.
    #[tactic(auto, using(crate::proofs::Shifted::sum_fits))]
    pub(crate) fn is_far_low(&self, under: u64) -> bool
        requires few { self.now.samples < 2 ^ 40 }
        requires den { self.now.quantile.den ≤ 1000000 }
        requires proper { self.now.quantile.num ≤ self.now.quantile.den }
        ensures { IsTrue result ↔ IsFarLow self.now.samples self.now.independent self.now.quantile
            under (normal_of self.now.tier) }
    {
        let Some(rank) = under.checked_add(1) else {
            return false;
        };
        self.is_below(rank) && self.is_rank_far_below(rank)
    }

    /// Whether the sample of a rank is farther from the quantile than by chance, for one below it.
    #[tactic(auto, using(crate::proofs::Bounds::few_of_shift, crate::proofs::Shifted::same_shift))]
    fn is_rank_far_below(&self, rank: u64) -> bool
        requires few { self.now.samples < 2 ^ 40 }
        requires den { self.now.quantile.den ≤ 1000000 }
        requires proper { self.now.quantile.num ≤ self.now.quantile.den }
        ensures { IsTrue result ↔ IsRankFarBelow self.now.samples self.now.independent
            self.now.quantile rank (normal_of self.now.tier) }
    {
        let shift = shift_of(self.samples);
        let unit = 1u64 << shift;
        if rank.div_ceil(unit) > self.samples / unit {
            return false;
        }
        is_far_below(
            shift,
            self.samples,
            self.independent,
            self.quantile,
            rank,
            self.tier,
        )
    }

    /// Whether the last sample but one of `upto` ones is above the quantile by more than chance.
    pub(crate) fn is_far_high(&self, upto: u64) -> bool
        requires few { self.now.samples < 2 ^ 40 }
        requires den { self.now.quantile.den ≤ 1000000 }
        requires proper { self.now.quantile.num ≤ self.now.quantile.den }
        ensures { IsTrue result ↔ IsFarHigh self.now.samples self.now.independent self.now.quantile
            upto (normal_of self.now.tier) }
    {
        let rank = upto.saturating_sub(1);
        self.is_above(rank) && rank <= self.samples && self.is_rank_far_above(rank)
    }

    /// As `is_rank_far_below`, for one of the samples above the quantile.
    #[tactic(auto, using(crate::proofs::Bounds::few_above_shift, crate::proofs::Shifted::same_shift))]
    fn is_rank_far_above(&self, rank: u64) -> bool
        requires few { self.now.samples < 2 ^ 40 }
        requires rank { rank ≤ self.now.samples }
        requires den { self.now.quantile.den ≤ 1000000 }
        requires proper { self.now.quantile.num ≤ self.now.quantile.den }
        ensures { IsTrue result ↔ IsRankFarAbove self.now.samples self.now.independent
            self.now.quantile rank (normal_of self.now.tier) }
    {
        let shift = shift_of(self.samples);
        is_far_above(
            shift,
            self.samples,
            self.independent,
            self.quantile,
            rank,
            self.tier,
        )
    }

    /// Whether the sample after `under` ones is the lower end, or `None` if one before it may be.
    pub(crate) fn is_low_end(&self, under: u64) -> Option<bool>
        requires few { self.now.samples < 2 ^ 40 }
        requires den { self.now.quantile.den ≤ 1000000 }
        requires proper { self.now.quantile.num ≤ self.now.quantile.den }
        ensures is { IfSome result (λ is. IsTrue is → IsFirstOfInterval self.now under) }
        ensures missed { IsFirstOfInterval self.now under → result ≡ Some true }
        ensures none_before { result ≡ Some false → under ≡ 0 }
    {
        if self.is_far_low(under) {
            return Some(true);
        }
        if under == 0 {
            return Some(self.reaches_first());
        }
        None
    }

    /// Whether the last of `upto` samples is the upper end, or `None` if one after it may be.
    pub(crate) fn is_high_end(&self, upto: u64) -> Option<bool>
        requires few { self.now.samples < 2 ^ 40 }
        requires den { self.now.quantile.den ≤ 1000000 }
        requires proper { self.now.quantile.num ≤ self.now.quantile.den }
        ensures is { IfSome result (λ is. IsTrue is → IsLastOfInterval self.now upto) }
        ensures missed { IsLastOfInterval self.now upto → result ≡ Some true }
        ensures none_after { result ≡ Some false → self.now.samples ≤ upto }
    {
        if self.is_far_high(upto) {
            return Some(true);
        }
        if upto >= self.samples {
            return Some(self.reaches_last());
        }
        None
    }

    /// Whether the interval begins with the sample after `under` ones.
    pub(crate) fn begins_after(&self, under: u64) -> bool
        requires few { self.now.samples < 2 ^ 40 }
        requires den { self.now.quantile.den ≤ 1000000 }
        requires proper { self.now.quantile.num ≤ self.now.quantile.den }
        ensures { IsTrue result ↔ IsFirstOfInterval self.now under }
    {
        self.is_far_low(under) || (under == 0 && self.reaches_first())
    }

    /// Whether the interval ends with the last of `upto` samples.
    pub(crate) fn ends_with(&self, upto: u64) -> bool
        requires few { self.now.samples < 2 ^ 40 }
        requires den { self.now.quantile.den ≤ 1000000 }
        requires proper { self.now.quantile.num ≤ self.now.quantile.den }
        ensures { IsTrue result ↔ IsLastOfInterval self.now upto }
    {
        self.is_far_high(upto) || (self.samples <= upto && self.reaches_last())
    }

    /// Whether a rank is below the quantile of the samples.
    fn is_below(&self, rank: u64) -> bool
        ensures { IsTrue result ↔ (rank * self.now.quantile.den < self.now.quantile.num * self.now.samples) }
    {
        let own = u128::from(rank) * u128::from(self.quantile.den());
        own < u128::from(self.quantile.num()) * u128::from(self.samples)
    }

    /// Whether a rank is above the quantile of the samples.
    fn is_above(&self, rank: u64) -> bool
        ensures { IsTrue result ↔ (self.now.quantile.num * self.now.samples < rank * self.now.quantile.den) }
    {
        let own = u128::from(rank) * u128::from(self.quantile.den());
        u128::from(self.quantile.num()) * u128::from(self.samples) < own
    }

    /// Whether the interval begins with the first sample: enough are expected below the quantile.
    pub(crate) fn reaches_first(&self) -> bool
        requires den { self.now.quantile.den ≤ 1000000 }
        requires proper { self.now.quantile.num ≤ self.now.quantile.den }
        ensures { IsTrue result ↔ ReachesFirst self.now.independent self.now.quantile (edge_of self.now.tier) }
    {
        let expected = u128::from(self.independent) * u128::from(self.quantile.num());
        u128::from(self.tier.edge()) * u128::from(self.quantile.den()) <= 100 * expected
    }

    /// Whether the interval ends with the last sample: enough are expected above the quantile.
    pub(crate) fn reaches_last(&self) -> bool
        requires den { self.now.quantile.den ≤ 1000000 }
        requires proper { self.now.quantile.num ≤ self.now.quantile.den }
        ensures { IsTrue result ↔ ReachesLast self.now.independent self.now.quantile (edge_of self.now.tier) }
    {
        let rest = u128::from(self.quantile.den() - self.quantile.num());
        let expected = u128::from(self.independent) * rest;
        u128::from(self.tier.edge()) * u128::from(self.quantile.den()) <= 100 * expected
    }
}

/// Returns by which power of two samples are divided, so that they are at most 2^30.
fn shift_of(samples: u64) -> u32
    requires { samples < 2 ^ 40 }
    ensures shift { IsShift samples result }
    ensures within { result ≤ 10 }
{
    for shift in 0..10u32 {
        if samples <= 1u64 << (30 + shift) {
            return shift;
        }
    }
    10
}
