//! The samples of a run, or of one of its tags.

ghost use Rattle.std.specs.Prelude.{◌≡◌, ◌-◌, ◌^◌, min};
ghost use Rattle.hdr_compare.specs.Intervals.{samples_of};
ghost use Rattle.hdr_compare.specs.Runs.{batches_of};

use crate::order::Order;
use crate::point::Point;
use crate::report::ReportError;
use hdr_compare::{BatchError, Measured, Position, Run, Tier, WithinBound};
use hdr_input::distribution::MOST_DECIMALS;
use hdrhistogram::{Histogram, Quantile};
use std::alloc::{AllocError, Global};

/// Samples in batches, in units of their last decimal.
#[derive(Drop)]
pub struct Samples {
    pub batches: Vec<Histogram<u64>>,
    /// The least and the greatest sample.
    pub min: u64,
    pub max: u64,
    /// The decimals of a unit.
    pub decimals: u32,
    pub order: Order,
}

impl Samples {
    ghost use Rattle.std.specs.Prelude.{◌≡◌, OnErr, OnOk};
    ghost use Rattle.hdr_runs.specs.RunSamples.{AddsRun};

    /// Adds a run, whose samples become one batch more. After an error the batches are the same.
    pub fn add_run(
        &mut self,
        histogram: Histogram<u64>,
        min: u64,
        max: u64,
    ) -> Result<(), BatchError>
        ensures added { OnOk result (AddsRun histogram min max self.old self.new) }
        ensures err { OnErr result (self.new.batches.items ≡ self.old.batches.items) }
    {
        self.min = self.min.min(min);
        self.max = self.max.max(max);
        match self.batches.push(histogram) {
            Ok(()) => Ok(()),
            Err(_) => Err(BatchError::OutOfMemory),
        }
    }
}

/// The samples of a run, or of one of its tags.
#[derive(Drop)]
pub struct Side {
    pub tag: Option<String>,
    pub order: Order,
    run: Run,
    /// How many samples there are.
    samples: u64,
    pub(crate) min: u64,
    pub(crate) max: u64,
    decimals: u32,
    ghost counted: { samples ≡ samples_of (batches_of run) },
}

/// Returns how many samples batches have, or `u64::MAX` if that is less.
fn total_of(batches: &[Histogram<u64>]) -> u64
    ensures { result ≡ min (samples_of batches.now) (2 ^ 64 - 1) }
{
    let mut total = 0u64;
    for batch in batches {
        total = total.saturating_add(batch.len());
    }
    total
}

impl Side {
    ghost use Rattle.std.specs.Prelude.{◌≡◌, ◌≤◌, ◌<◌, ◌+◌, IfErr, IfOk, OnErr, OnOk, MatchOption};
    ghost use Rattle.std.specs.Option.{option_map};
    ghost use Rattle.hdr_compare.specs.Intervals.{samples_of};
    ghost use Rattle.hdr_runs.specs.LevelVerdicts.{IsPositionAmong};
    ghost use Rattle.hdr_compare.specs.Sums.{IsSumOf};
    ghost use Rattle.hdr_runs.specs.Points.{IsPointOf, batches_of_side, decimals_of, greatest_of, least_of, samples_of_side, within};
    ghost use Rattle.hdr_runs.specs.RunSamples.{IsSideError};

    /// Returns samples and their tag.
    ///
    /// # Errors
    /// Returns `TooMany` if there are 2^40 samples or more, or more than 2^20 batches, and
    /// `OutOfMemory` if an allocation fails.
    pub fn new(alloc: Global, tag: Option<String>, samples: Samples) -> Result<Side, BatchError>
        ensures tag { IfOk result (λ side. side.tag ≡ tag) }
        ensures order { IfOk result (λ side. side.order ≡ samples.order) }
        ensures batches { IfOk result (λ side. batches_of_side side ≡ samples.batches.items) }
        ensures all { IfOk result (λ side. IsSumOf samples.batches.items (samples_of_side side)) }
        ensures extremes { IfOk result (λ side. (least_of side ≡ samples.min) × (greatest_of side ≡ samples.max)) }
        ensures decimals { IfOk result (λ side. decimals_of side ≡ samples.decimals) }
        ensures errors { IfErr result (IsSideError samples) }
    {
        let Samples {
            batches,
            min,
            max,
            decimals,
            order,
        } = samples;
        let count = total_of(&batches);
        Ok(Side {
            tag,
            order,
            run: Run::new(alloc, batches)?,
            samples: count,
            min,
            max,
            decimals,
        })
    }

    /// Returns how many samples there are.
    pub fn samples(&self) -> u64
        ensures { result ≡ samples_of (batches_of_side self.now) }
    {
        self.samples
    }

    /// Returns the decimals of a unit.
    pub fn decimals(&self) -> u32
        ensures { result ≡ decimals_of self.now }
    {
        self.decimals
    }

    /// Converts the values to a unit that is coarser by a power of ten, in which they have as many
    /// more decimals.
    ///
    /// # Errors
    /// Returns `TooLarge` if they would have more than 18. Nothing changes then.
    pub fn coarsen_unit(&mut self, power: u32) -> Result<(), ReportError>
        ensures decimals { OnOk result (decimals_of self.new ≡ decimals_of self.old + power) }
        ensures batches { batches_of_side self.new ≡ batches_of_side self.old }
        ensures all { samples_of_side self.new ≡ samples_of_side self.old }
        ensures least { least_of self.new ≡ least_of self.old }
        ensures greatest { greatest_of self.new ≡ greatest_of self.old }
        ensures tag { self.new.tag ≡ self.old.tag }
        ensures order { self.new.order ≡ self.old.order }
        ensures err { OnErr result ((18 < decimals_of self.old + power) × (self.new ≡ self.old)) }
    {
        let decimals = self.decimals.saturating_add(power);
        if decimals > MOST_DECIMALS {
            return Err(ReportError::TooLarge);
        }
        self.decimals = decimals;
        Ok(())
    }

    /// Returns a percentile and its interval, or `None` without samples. The denominator of the
    /// quantile is at most 1,000,000.
    pub fn point(
        &self,
        alloc: Global,
        quantile: Quantile,
        tier: Tier,
    ) -> Result<Option<Point>, AllocError>
        requires den { quantile.den ≤ 1000000 }
        requires proper { quantile.num ≤ quantile.den }
        ensures { IfOk result (λ found. MatchOption found
            (samples_of (batches_of_side self.now) ≡ 0) (IsPointOf self.now quantile tier)) }
    {
        let Some(interval) = self.run.interval(alloc, quantile, tier)? else {
            return Ok(None);
        };
        let measured = Measured {
            value: self.within(interval.value),
            low: self.end_within(interval.low.value),
            high: self.end_within(interval.high.value),
        };
        Ok(Some(Point {
            measured,
            independent: interval.independent(),
        }))
    }

    /// Returns on which side of a bound a quantile is, or `None` without samples. The denominator
    /// of the quantile is at most 1,000,000.
    #[tactic(auto, unfolding(crate::specs::LevelVerdicts::IsPositionAmong))]
    pub(crate) fn position(
        &self,
        alloc: Global,
        quantile: Quantile,
        tier: Tier,
        within: WithinBound,
    ) -> Result<Option<Position>, AllocError>
        requires den { quantile.den ≤ 1000000 }
        requires proper { quantile.num ≤ quantile.den }
        ensures { IfOk result (λ found. MatchOption found (samples_of (batches_of_side self.now) ≡ 0)
            (IsPositionAmong (batches_of_side self.now) quantile tier within)) }
    {
        self.run.position(alloc, quantile, tier, within)
    }

    /// Returns a value within the least and the greatest sample.
    fn within(&self, value: u64) -> u64
        ensures { result ≡ within self.now value }
    {
        value.min(self.max).max(self.min)
    }

    /// Returns an end within the least and the greatest sample, if there is one.
    fn end_within(&self, end: Option<u64>) -> Option<u64>
        ensures { result ≡ option_map (within self.now) end }
    {
        match end {
            Some(value) => Some(self.within(value)),
            None => None,
        }
    }
}
