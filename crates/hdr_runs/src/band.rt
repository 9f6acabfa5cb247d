//! The confidence intervals of percentiles along a curve.

ghost use Rattle.std.specs.Prelude.{◌≡◌, ◌≤◌, ◌*◌, ◌↔◌, IsTrue, MatchOption, IfOk, OnOk};
ghost use Rattle.std.specs.List.{All};
ghost use Rattle.hdr_compare.specs.Intervals.{samples_of};
ghost use Rattle.hdr_runs.specs.Bands.{IsBandPointOf, IsBandPointAt};
ghost use Rattle.hdr_runs.specs.Points.{batches_of_side};

use crate::report::MOST_DENOMINATOR;
use crate::side::Side;
use hdr_compare::Tier;
use hdrhistogram::Quantile;
use std::alloc::{AllocError, Global};

/// The interval of 95 % of a percentile. An end that the samples do not reach is the least or the
/// greatest of them.
#[derive(Clone, Copy)]
pub struct BandPoint {
    /// How many of 1,000,000 samples are above the percentile.
    pub above: u64,
    pub low: u64,
    pub high: u64,
}

impl Side {
    /// Returns the intervals of percentiles up to that of the last sample: each is a quarter nearer
    /// to the greatest than the one before.
    pub fn band(&self, alloc: Global) -> Result<Vec<BandPoint>, AllocError>
        ensures { IfOk result (λ band. All (IsBandPointOf self.now) band.items) }
    {
        let mut band = Vec::new(alloc);
        let mut above = MOST_DENOMINATOR;
        for _ in 0..MOST_DENOMINATOR {
            if !self.has_above(above) {
                break;
            }
            self.push_band_point(alloc, &mut band, above)?;
            above = above.saturating_sub((above / 4).max(1));
        }
        self.push_band_point(alloc, &mut band, 0)?;
        Ok(band)
    }

    /// Whether half a sample or more is above the percentile that `above` of 1,000,000 samples are
    /// above.
    fn has_above(&self, above: u64) -> bool
        ensures { IsTrue result ↔ (1000000 ≤ 2 * (above * samples_of (batches_of_side self.now))) }
    {
        let expected = u128::from(above) * u128::from(self.samples());
        expected.saturating_mul(2) >= u128::from(MOST_DENOMINATOR)
    }

    /// Adds the interval of a percentile, if there are samples.
    fn push_band_point(
        &self,
        alloc: Global,
        band: &mut Vec<BandPoint>,
        above: u64,
    ) -> Result<(), AllocError>
        ensures { OnOk result (All (IsBandPointOf self.now) band.old.items
            → All (IsBandPointOf self.now) band.new.items) }
    {
        if let Some(point) = self.band_point(alloc, above)? {
            band.push(point)?;
        }
        Ok(())
    }

    /// Returns the interval of the percentile that as many of 1,000,000 samples are above, or `None`
    /// without samples.
    fn band_point(&self, alloc: Global, above: u64) -> Result<Option<BandPoint>, AllocError>
        ensures { IfOk result (λ found. MatchOption found (samples_of (batches_of_side self.now) ≡ 0)
            (IsBandPointAt self.now above)) }
    {
        let rank = MOST_DENOMINATOR.saturating_sub(above);
        let Some(quantile) = Quantile::new(rank, MOST_DENOMINATOR) else {
            return Ok(None);
        };
        let Some(point) = self.point(alloc, quantile, Tier::FivePercent)? else {
            return Ok(None);
        };
        Ok(Some(BandPoint {
            above,
            low: point.measured.low.unwrap_or(self.min),
            high: point.measured.high.unwrap_or(self.max),
        }))
    }
}
