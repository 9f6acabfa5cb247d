//! The confidence interval of a quantile: from a sample to another, by the classes of samples.

ghost use Rattle.std.specs.Prelude.{◌≡◌, min};

use crate::counting::counted_upto;
use crate::ends::Basis;
use crate::run::Run;
use crate::tiers::Tier;
use hdrhistogram::Quantile;
use std::alloc::{AllocError, Global};

/// An end of an interval. There is none if the samples are too few.
#[derive(Clone, Copy)]
pub struct End {
    pub value: Option<u64>,
    /// The effective number of independent samples.
    pub independent: u64,
}

/// The confidence interval of a quantile.
#[derive(Clone, Copy)]
pub struct Interval {
    /// The greatest value of the class of the sample at the quantile.
    pub value: u64,
    /// The least value of the class of a sample, and the greatest one of that of another.
    pub low: End,
    pub high: End,
}

impl Interval {
    /// Returns the effective number of independent samples of the run.
    pub fn independent(&self) -> u64
        ensures { result ≡ min self.now.low.independent self.now.high.independent }
    {
        self.low.independent.min(self.high.independent)
    }
}

impl End {
    ghost use Rattle.std.specs.Prelude.{◌≡◌, None, Some};

    /// Returns an end, if the samples count as some independent ones.
    fn at(value: u64, independent: u64) -> End
        ensures value { result.value ≡ Some value }
        ensures independent { result.independent ≡ independent }
    {
        End {
            value: Some(value),
            independent,
        }
    }

    /// Returns an end that the samples do not reach.
    fn open(independent: u64) -> End
        ensures value { result.value ≡ None }
        ensures independent { result.independent ≡ independent }
    {
        End {
            value: None,
            independent,
        }
    }
}

impl Run {
    ghost use Rattle.std.specs.Prelude.{ℕ, List, ◌-◌, ◌^◌, ◌<◌, ◌≤◌, length, IfOk, IfSome, IsSome, MatchOption};
    ghost use Rattle.hdr_compare.specs.Intervals.{AreEnds, CountsAs, CountsByValue, EndsCount, HasReachedEnds, IsHighEnd, IsLowEnd, samples_of};
    ghost use Rattle.hdr_compare.specs.Nearest.{AreNearest, IsNearestHigh, IsNearestLow};
    ghost use Rattle.hdr_model.specs.Plain.{resolution};
    ghost use Rattle.hdr_model.specs.Quantiles.{IsTopNear, ranked_sample, value_at_quantile};
    ghost use Rattle.hdr_model.specs.Samples.{StandsFor};
    ghost use Rattle.hdr_compare.specs.Runs.{all_of, batches_of};

    /// Returns the interval of a quantile, or `None` without samples. The denominator of the
    /// quantile is at most 1,000,000.
    pub fn interval(
        &self,
        alloc: Global,
        quantile: Quantile,
        tier: Tier,
    ) -> Result<Option<Interval>, AllocError>
        requires den { quantile.den ≤ 1000000 }
        requires proper { quantile.num ≤ quantile.den }
        ensures value { IfOk result (λ found. IfSome found (λ i. (S : List ℕ) → StandsFor (all_of self.now) S
            → 0 < length S → 0 < quantile.num → IsTopNear (all_of self.now) (ranked_sample quantile S) i.value)) }
        ensures ends { IfOk result (λ found. MatchOption found (samples_of (batches_of self.now) ≡ 0)
            (AreEnds (batches_of self.now) quantile tier)) }
        ensures reached { IfOk result (λ found. IfSome found (HasReachedEnds (batches_of self.now) quantile tier)) }
        ensures counts { IfOk result (λ found. IfSome found (EndsCount (batches_of self.now) tier)) }
        ensures at_quantile { IfOk result (λ found. IfSome found (λ i. i.value ≡ value_at_quantile (all_of self.now) quantile)) }
        ensures by_value { IfOk result (λ found. IfSome found
            (CountsByValue (resolution (all_of self.now)) (batches_of self.now) tier)) }
        ensures nearest { IfOk result (λ found. IfSome found
            (AreNearest (all_of self.now) (batches_of self.now) quantile tier)) }
    {
        if self.samples == 0 {
            return Ok(None);
        }
        let value = self.all.value_at_quantile(quantile);
        let below = self.all.lowest_equivalent(value).checked_sub(1);
        let under = counted_upto(alloc, &self.batches, below, tier)?;
        let upto = counted_upto(alloc, &self.batches, Some(value), tier)?;
        let independent = under.independent.min(upto.independent);
        Ok(Some(Interval {
            value,
            low: self.low_end(alloc, quantile, tier, value, independent)?,
            high: self.high_end(alloc, quantile, tier, value, independent)?,
        }))
    }

    /// Returns the lower end of the interval of a quantile, from the class of a value downwards.
    pub(crate) fn low_end(
        &self,
        alloc: Global,
        quantile: Quantile,
        tier: Tier,
        value: u64,
        independent: u64,
    ) -> Result<End, AllocError>
        requires den { quantile.den ≤ 1000000 }
        requires proper { quantile.num ≤ quantile.den }
        ensures low { IfOk result (λ end. IfSome end.value
            (IsLowEnd (batches_of self.now) quantile tier end.independent)) }
        ensures reached { IfOk result (λ end. IsLowEnd (batches_of self.now) quantile tier end.independent 0
            → IsSome end.value) }
        ensures independent { IfOk result (λ end. end.independent ≤ independent) }
        ensures counts { IfOk result (λ end. CountsAs (batches_of self.now) tier independent end.independent) }
        ensures nearest { IfOk result (λ end. IfSome end.value (IsNearestLow (all_of self.now) (batches_of self.now)
            quantile tier end.independent value)) }
    {
        let mut independent = independent;
        let mut low = self.all.lowest_equivalent(value);
        for _ in 0..u64::MAX {
            let under = counted_upto(alloc, &self.batches, low.checked_sub(1), tier)?;
            independent = independent.min(under.independent);
            let basis = Basis {
                samples: self.samples,
                independent,
                quantile,
                tier,
            };
            match basis.is_low_end(under.count) {
                Some(true) => return Ok(End::at(low, independent)),
                Some(false) => break,
                None => {}
            }
            low = self.all.lowest_equivalent(self.value_at_rank(under.count));
        }
        self.least_end(alloc, quantile, tier, independent)
    }

    /// Returns 0 as the lower end, if the first sample is one, and none otherwise.
    fn least_end(
        &self,
        alloc: Global,
        quantile: Quantile,
        tier: Tier,
        independent: u64,
    ) -> Result<End, AllocError>
        requires den { quantile.den ≤ 1000000 }
        requires proper { quantile.num ≤ quantile.den }
        ensures low { IfOk result (λ end. IfSome end.value
            (IsLowEnd (batches_of self.now) quantile tier end.independent)) }
        ensures reached { IfOk result (λ end. IsLowEnd (batches_of self.now) quantile tier end.independent 0
            → IsSome end.value) }
        ensures independent { IfOk result (λ end. end.independent ≤ independent) }
        ensures counts { IfOk result (λ end. CountsAs (batches_of self.now) tier independent end.independent) }
        ensures zero { IfOk result (λ end. (end.independent ≤ independent) × IfSome end.value (λ low. low ≡ 0)) }
    {
        let under = counted_upto(alloc, &self.batches, None, tier)?;
        let independent = under.independent.min(independent);
        let basis = Basis {
            samples: self.samples,
            independent,
            quantile,
            tier,
        };
        if basis.begins_after(under.count) {
            Ok(End::at(0, independent))
        } else {
            Ok(End::open(independent))
        }
    }

    /// Returns the upper end of the interval of a quantile, from the class of a value upwards.
    pub(crate) fn high_end(
        &self,
        alloc: Global,
        quantile: Quantile,
        tier: Tier,
        value: u64,
        independent: u64,
    ) -> Result<End, AllocError>
        requires den { quantile.den ≤ 1000000 }
        requires proper { quantile.num ≤ quantile.den }
        ensures high { IfOk result (λ end. IfSome end.value
            (IsHighEnd (batches_of self.now) quantile tier end.independent)) }
        ensures reached { IfOk result (λ end. IsHighEnd (batches_of self.now) quantile tier end.independent
            u64.MAX → IsSome end.value) }
        ensures independent { IfOk result (λ end. end.independent ≤ independent) }
        ensures counts { IfOk result (λ end. CountsAs (batches_of self.now) tier independent end.independent) }
        ensures nearest { IfOk result (λ end. IfSome end.value (IsNearestHigh (all_of self.now) (batches_of self.now)
            quantile tier end.independent value)) }
    {
        let mut independent = independent;
        let mut high = self.all.highest_equivalent(value);
        for _ in 0..u64::MAX {
            let upto = counted_upto(alloc, &self.batches, Some(high), tier)?;
            independent = independent.min(upto.independent);
            let basis = Basis {
                samples: self.samples,
                independent,
                quantile,
                tier,
            };
            match basis.is_high_end(upto.count) {
                Some(true) => return Ok(End::at(high, independent)),
                Some(false) => break,
                None => {}
            }
            high = self.value_at_rank(upto.count.saturating_add(1));
        }
        self.greatest_end(alloc, quantile, tier, independent)
    }

    /// Returns `u64::MAX` as the upper end, if the last sample is one, and none otherwise.
    fn greatest_end(
        &self,
        alloc: Global,
        quantile: Quantile,
        tier: Tier,
        independent: u64,
    ) -> Result<End, AllocError>
        requires den { quantile.den ≤ 1000000 }
        requires proper { quantile.num ≤ quantile.den }
        ensures high { IfOk result (λ end. IfSome end.value
            (IsHighEnd (batches_of self.now) quantile tier end.independent)) }
        ensures reached { IfOk result (λ end. IsHighEnd (batches_of self.now) quantile tier end.independent
            u64.MAX → IsSome end.value) }
        ensures independent { IfOk result (λ end. end.independent ≤ independent) }
        ensures counts { IfOk result (λ end. CountsAs (batches_of self.now) tier independent end.independent) }
        ensures last { IfOk result (λ end. (end.independent ≤ independent) × IfSome end.value (λ high. high ≡ 2 ^ 64 - 1)) }
    {
        let upto = counted_upto(alloc, &self.batches, Some(u64::MAX), tier)?;
        let independent = upto.independent.min(independent);
        let basis = Basis {
            samples: self.samples,
            independent,
            quantile,
            tier,
        };
        if basis.ends_with(upto.count) {
            Ok(End::at(u64::MAX, independent))
        } else {
            Ok(End::open(independent))
        }
    }
}
