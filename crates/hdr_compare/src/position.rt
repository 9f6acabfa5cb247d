//! On which side of a bound a quantile is, beyond chance.

ghost use Rattle.std.specs.Prelude.{◌≡◌, ◌≤◌, ◌<◌, ◌^◌};
ghost use Rattle.hdr_compare.specs.Positions.{IsPosition};

use crate::counting::counted_upto;
use crate::ends::Basis;
use crate::interval::Interval;
use crate::run::Run;
use crate::tiers::Tier;
use hdrhistogram::Quantile;
use std::alloc::{AllocError, Global};

/// How many samples of a run are within a bound.
#[derive(Clone, Copy)]
pub struct WithinBound {
    /// The greatest value within the bound, or `None` if no value is.
    pub most: Option<u64>,
    /// How many samples are surely within it, and how many may be.
    pub sure: u64,
    pub perhaps: u64,
}

/// On which side of a bound a quantile is, as far as samples suffice to say it.
#[derive(Debug, Clone, Copy, PartialEq, Eq)]
pub enum Position {
    /// It is within the bound: so is the upper end of its interval.
    Within,
    /// It is beyond the bound: so is the lower end of its interval.
    Beyond,
    /// The interval has both ends, and the bound is between them.
    Between,
    /// The interval is open at an end, and neither end is on one side.
    Open,
}

impl Basis {
    /// Returns on which side of a bound the quantile is, if this many samples are within it.
    fn position(&self, within: WithinBound) -> Position
        requires few { self.now.samples < 2 ^ 40 }
        requires den { self.now.quantile.den ≤ 1000000 }
        requires proper { self.now.quantile.num ≤ self.now.quantile.den }
        ensures { IsPosition self.now within.sure within.perhaps result }
    {
        if self.ends_with(within.sure) {
            Position::Within
        } else if self.begins_after(within.perhaps) {
            Position::Beyond
        } else if self.begins_after(0) && self.ends_with(self.samples) {
            Position::Between
        } else {
            Position::Open
        }
    }
}

impl Run {
    ghost use Rattle.std.specs.Prelude.{IfOk, MatchOption};
    ghost use Rattle.hdr_compare.specs.Intervals.{samples_of};
    ghost use Rattle.hdr_compare.specs.Positions.{IsPositionOf};
    ghost use Rattle.hdr_compare.specs.Runs.{batches_of};

    /// Returns on which side of a bound a quantile is, or `None` without samples. The denominator
    /// of the quantile is at most 1,000,000. All samples count as few independent ones: as those of
    /// the quantile's interval, or as by the class of the bound if these are fewer.
    pub fn position(
        &self,
        alloc: Global,
        quantile: Quantile,
        tier: Tier,
        within: WithinBound,
    ) -> Result<Option<Position>, AllocError>
        requires den { quantile.den ≤ 1000000 }
        requires proper { quantile.num ≤ quantile.den }
        ensures { IfOk result (λ found. MatchOption found (samples_of (batches_of self.now) ≡ 0)
            (IsPositionOf (batches_of self.now) quantile tier within)) }
    {
        let Some(interval) = self.interval(alloc, quantile, tier)? else {
            return Ok(None);
        };
        let counted = counted_upto(alloc, &self.batches, within.most, tier)?;
        let basis = Basis {
            samples: self.samples,
            independent: interval.independent().min(counted.independent),
            quantile,
            tier,
        };
        Ok(Some(basis.position(within)))
    }
}
