//! Levels that are compared with the confidence intervals of percentiles.

ghost use Rattle.std.specs.Prelude.{◌≡◌, ◌↔◌, IsTrue, MatchOption};
ghost use Rattle.hdr_runs.specs.LevelVerdicts.{IsLevelVerdict, HasInterval, IsOfInterval, verdict_at};

use crate::report::MOST_DENOMINATOR;
use crate::side::Side;
use hdr_compare::{Position, Tier, WithinBound};
use hdr_input::{Distribution, push_visible};
use hdr_summary::checks::{Check, CheckedSamples};
use hdr_summary::levels::{Level, Measure};
use hdr_summary::verdicts::{LevelCounts, Verdict};
use hdrhistogram::Quantile;
use std::alloc::{AllocError, Global};

/// Returns the quantile of a figure that has an interval: a percentile of at most 4 decimals, above
/// 0 and below 100.
fn quantile_of(measure: &Measure) -> Option<Quantile>
    ensures { MatchOption result (IsOfInterval measure.now → ⊥) (λ q. (measure.now ≡ Measure.Quantile q) × HasInterval q) }
{
    match measure {
        Measure::Quantile(quantile) if has_interval(*quantile) => Some(*quantile),
        _ => None,
    }
}

/// Whether a quantile has an interval.
fn has_interval(quantile: Quantile) -> bool
    ensures { IsTrue result ↔ HasInterval quantile }
{
    let (num, den) = (quantile.num(), quantile.den());
    0 < num && num < den && den <= MOST_DENOMINATOR
}

/// Returns what the position of a percentile says of a level, which bounds it from above or from
/// below.
fn verdict_at(is_upper: bool, position: Position) -> Verdict
    ensures { result ≡ verdict_at is_upper position }
{
    match (position, is_upper) {
        (Position::Within, true) | (Position::Beyond, false) => Verdict::Kept,
        (Position::Within, false) | (Position::Beyond, true) => Verdict::Broken,
        (Position::Between, _) => Verdict::Undecided,
        (Position::Open, _) => Verdict::Few,
    }
}

impl Side {
    ghost use Rattle.std.specs.Prelude.{◌≡◌, ◌≢◌, ◌<◌, IfOk};
    ghost use Rattle.hdr_base.specs.Fractions.{Ratio};
    ghost use Rattle.hdr_compare.specs.Intervals.{samples_of};
    ghost use Rattle.hdr_summary.specs.Verdicts.{IsVerdict};
    ghost use Rattle.hdr_runs.specs.Points.{batches_of_side};

    /// Returns whether the samples suffice to say that a percentile keeps a level, if it has an
    /// interval. Any other figure keeps the level or does not. The counts are those of the samples.
    pub fn verdict(
        &self,
        alloc: Global,
        level: &Level<'_>,
        counts: &LevelCounts,
        tier: Tier,
    ) -> Result<Verdict, AllocError>
        ensures interval { IfOk result (λ verdict. (q : Ratio) → level.now.measure ≡ Measure.Quantile q
            → HasInterval q → 0 < samples_of (batches_of_side self.now)
            → IsLevelVerdict self.now level.now counts.now q tier verdict) }
        ensures others { IfOk result (λ verdict. (IsOfInterval level.now.measure → ⊥)
            → level.now.measure ≢ Measure.Count → 0 < counts.now.total
            → IsVerdict level.now.measure level.now.side counts.now.total counts.now.sure
            counts.now.perhaps verdict) }
    {
        let Some(quantile) = quantile_of(&level.measure) else {
            return Ok(level.verdict(counts));
        };
        let within = WithinBound {
            most: level.bound().most(self.decimals()),
            sure: counts.sure,
            perhaps: counts.perhaps,
        };
        match self.position(alloc, quantile, tier, within)? {
            Some(position) => Ok(verdict_at(level.side.is_upper(), position)),
            None => Ok(level.verdict(counts)),
        }
    }
}

/// A level that was compared with samples, and with the intervals of percentiles if there is a
/// confidence.
#[derive(Clone, Copy)]
pub struct LevelCheck {
    pub check: Check,
    pub tier: Option<Tier>,
}

impl LevelCheck {
    /// Appends a line: the verdict, the level, the value of its figure, and the tag. If samples are
    /// too few for an interval, it has how many independent ones are needed.
    pub fn push_line(
        &self,
        alloc: Global,
        text: &mut String,
        level: &Level<'_>,
        samples: CheckedSamples<'_>,
    ) -> Result<(), AllocError> {
        let (Some(tier), Some(quantile)) = (self.tier, quantile_of(&level.measure)) else {
            return self.check.push_line(alloc, text, level, samples);
        };
        let name = match self.check.verdict {
            Verdict::Undecided => "undecided",
            Verdict::Few => "few",
            _ => return self.check.push_line(alloc, text, level, samples),
        };
        let Level { text: written, .. } = *level;
        let value = value_of(
            &self.check.counts,
            &level.measure,
            quantile,
            samples.distribution,
        );
        let decimals = samples.distribution.decimals;
        let value = samples
            .conversion
            .decimal(alloc, u128::from(value), decimals)?;
        write!(text, "{name} {written} {value}")?;
        if self.check.verdict == Verdict::Few {
            let needed = tier.needed(quantile);
            write!(text, " needs {needed}")?;
        }
        if let Some(tag) = samples.tag {
            text.push(' ')?;
            push_visible(text, tag)?;
        }
        text.push('\n')
    }
}

/// Returns the value of a percentile: the top of its class, or the greatest sample within the level
/// if that is less and has the rank or a greater one.
fn value_of(
    counts: &LevelCounts,
    measure: &Measure,
    quantile: Quantile,
    distribution: &Distribution,
) -> u64 {
    let value = distribution.value_at_quantile(quantile);
    if measure.rank(counts.total) <= counts.sure {
        value.min(counts.greatest)
    } else {
        value
    }
}
