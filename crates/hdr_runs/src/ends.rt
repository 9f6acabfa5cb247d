//! The ends of the confidence intervals of percentiles.

ghost use Rattle.std.specs.Prelude.{◌≡◌, IfErr, IfOk};
ghost use Rattle.std.specs.List.{AllZip};
ghost use Rattle.hdr_runs.specs.PercentileEnds.{AreEndsAt};
ghost use Rattle.hdr_runs.specs.Points.{batches_of_side, greatest_of, least_of, samples_of_side};
ghost use Rattle.hdr_compare.specs.Sums.{IsSumOf};
ghost use Rattle.hdr_model.specs.Plain.{Plain};
ghost use Rattle.hdr_runs.specs.RunSamples.{IsSideError};

use crate::report::MOST_DENOMINATOR;
use crate::side::{Samples, Side};
use hdr_compare::{BatchError, Tier};
use hdr_summary::figures::Ends;
use hdr_summary::percentile::Percentile;
use std::alloc::Global;

/// Returns the ends of the intervals of 95 % of percentiles, as far as samples reach them. There is
/// none for a percentile of more than 4 decimals.
///
/// # Errors
/// As `Side::new`.
pub fn ends_of(
    alloc: Global,
    samples: Samples,
    percentiles: &[Percentile<'_>],
) -> Result<Vec<Ends>, BatchError>
    ensures ends { IfOk result (λ ends. (all : Plain) × IsSumOf samples.batches.items all
        × AllZip (AreEndsAt all samples.batches.items samples.min samples.max) percentiles.now ends.items) }
    ensures errors { IfErr result (IsSideError samples) }
{
    let side = Side::new(alloc, None, samples)?;
    let mut ends = Vec::new(alloc);
    for percentile in percentiles {
        match ends.push(ends_of_percentile(alloc, &side, percentile)?) {
            Ok(()) => {}
            Err(_) => return Err(BatchError::OutOfMemory),
        }
    }
    Ok(ends)
}

/// Returns the ends of the interval of a percentile.
fn ends_of_percentile(
    alloc: Global,
    side: &Side,
    percentile: &Percentile<'_>,
) -> Result<Ends, BatchError>
    ensures ends { IfOk result (AreEndsAt (samples_of_side side.now) (batches_of_side side.now) (least_of side.now)
        (greatest_of side.now) percentile.now) }
    ensures errors { IfErr result (λ e. e ≡ BatchError.OutOfMemory) }
{
    let quantile = percentile.quantile;
    let none = Ends {
        low: None,
        high: None,
    };
    if quantile.den() > MOST_DENOMINATOR || quantile.num() > quantile.den() {
        return Ok(none);
    }
    match side.point(alloc, quantile, Tier::FivePercent) {
        Ok(Some(point)) => Ok(Ends {
            low: point.measured.low,
            high: point.measured.high,
        }),
        Ok(None) => Ok(none),
        Err(_) => Err(BatchError::OutOfMemory),
    }
}
