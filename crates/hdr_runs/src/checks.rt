//! The levels of numbers and of the tags of logs, compared with what was counted.

ghost use Rattle.std.specs.Prelude.{◌≡◌, ◌<◌, ◌^◌, ℕ, List, IfOk, length};
ghost use Rattle.std.specs.List.{AllZip};
ghost use Rattle.std.specs.Option.{option_map};
ghost use Rattle.hdr_input.specs.Bounds.{HasCounted};
ghost use Rattle.hdr_input.specs.declared.number.Number.{Number};
ghost use Rattle.hdr_summary.specs.Classes.{Known, HasClasses};
ghost use Rattle.hdr_summary.specs.Levels.{bound_of};
ghost use Rattle.hdr_runs.specs.LevelChecks.{IsByCounts, IsOfClasses, IsOfMean, IsOfTally};
ghost use Rattle.hdr_runs.specs.LevelChecks.{sum_of_numbers};

use crate::level_check::LevelCheck;
use crate::log_counts::TagCounts;
use crate::side::Side;
use hdr_compare::Tier;
use hdr_input::BoundTally;
use hdr_summary::checks::Check;
use hdr_summary::classes::ClassCounts;
use hdr_summary::levels::{Level, Measure};
use hdr_summary::means::SampleSum;
use hdr_summary::verdicts::LevelCounts;
use std::alloc::{AllocError, Global};

/// Samples in batches, by which percentiles have intervals of this confidence.
#[derive(Drop)]
pub struct LevelIntervals {
    pub side: Side,
    pub tier: Tier,
}

impl LevelCheck {
    /// Compares a level with the counts of samples, or with the interval of its percentile if there
    /// are intervals.
    fn by_counts(
        alloc: Global,
        level: &Level<'_>,
        counts: LevelCounts,
        intervals: Option<&LevelIntervals>,
    ) -> Result<LevelCheck, AllocError>
        ensures counts { IfOk result (λ c. c.check.counts ≡ counts) }
        ensures said { IfOk result (IsByCounts level.now (option_map (λ i. i.now) intervals.entry)) }
    {
        let (verdict, tier) = match (&level.measure, intervals) {
            (Measure::Quantile(_), Some(LevelIntervals { side, tier })) => (
                side.verdict(alloc, level, &counts, *tier)?,
                Some(*tier),
            ),
            _ => (level.verdict(&counts), None),
        };
        Ok(LevelCheck {
            check: Check { counts, verdict },
            tier,
        })
    }

    /// Compares the level of a mean with a sum of samples, whose values have these decimals.
    fn of_mean(level: &Level<'_>, sum: &SampleSum, decimals: u32) -> LevelCheck
        ensures { level.now.measure ≡ Measure.Mean → IsOfMean level.now sum.now decimals result }
    {
        let counts = sum.counts(level, decimals);
        let verdict = level.verdict(&counts);
        LevelCheck {
            check: Check { counts, verdict },
            tier: None,
        }
    }

    /// Compares a level with numbers that were counted at its bound. A percentile is compared by its
    /// interval if there are intervals, and a mean by the sum of the numbers.
    ///
    /// # Errors
    /// Returns an error if an allocation fails.
    pub fn of_numbers(
        alloc: Global,
        level: &Level<'_>,
        tally: &BoundTally,
        intervals: Option<&LevelIntervals>,
    ) -> Result<LevelCheck, AllocError>
        ensures { IfOk result (λ c. (S : List Number) → HasCounted tally.now S → length S < 2 ^ 64
            → IsOfTally tally.now S (option_map (λ i. i.now) intervals.entry) level.now c) }
    {
        match level.measure {
            Measure::Mean => {
                let sum = sum_of_numbers(tally);
                Ok(LevelCheck::of_mean(level, &sum, tally.tally.decimals))
            }
            _ => LevelCheck::by_counts(
                alloc,
                level,
                LevelCounts::of_tally(tally, level),
                intervals,
            ),
        }
    }

    /// Compares a level with samples of logs that were counted at its bound.
    fn of_classes(
        alloc: Global,
        level: &Level<'_>,
        counts: &ClassCounts,
        intervals: Option<&LevelIntervals>,
    ) -> Result<LevelCheck, AllocError>
        ensures { IfOk result (λ c. (decimals : ℕ) (L : List Known)
            → HasClasses counts.now (bound_of level.now.side level.now.number) decimals L
            → IsOfClasses level.now decimals L (option_map (λ i. i.now) intervals.entry) c) }
    {
        LevelCheck::by_counts(alloc, level, counts.counts(), intervals)
    }
}

/// Returns the number of the numbers of a tally, and the bounds of their sum.
pub fn sum_of_numbers(tally: &BoundTally) -> SampleSum
    ensures { (S : List Number) → HasCounted tally.now S → length S < 2 ^ 64
        → result ≡ sum_of_numbers tally.now (length S) }
{
    let (low, high) = tally.sums();
    SampleSum {
        total: tally.total(),
        low,
        high,
    }
}

/// Compares levels with numbers that were counted at their bounds, as `LevelCheck::of_numbers`.
///
/// # Errors
/// Returns an error if an allocation fails.
pub fn checks_of_numbers(
    alloc: Global,
    levels: &[Level<'_>],
    tally: &BoundTally,
    intervals: Option<&LevelIntervals>,
) -> Result<Vec<LevelCheck>, AllocError>
    ensures { IfOk result (λ checks. (S : List Number) → HasCounted tally.now S → length S < 2 ^ 64
        → AllZip (IsOfTally tally.now S (option_map (λ i. i.now) intervals.entry)) levels.now checks.items) }
{
    let mut checks = Vec::new(alloc);
    for level in levels {
        checks.push(LevelCheck::of_numbers(alloc, level, tally, intervals)?)?;
    }
    Ok(checks)
}

impl TagCounts {
    ghost use Rattle.hdr_runs.specs.LevelChecks.{IsOfTag};
    ghost use Rattle.hdr_runs.specs.LogCounts as logs;

    /// Compares a level with the samples of the tag, which were counted at its bound.
    fn check(
        &self,
        alloc: Global,
        level: &Level<'_>,
        counts: &ClassCounts,
        decimals: u32,
        intervals: Option<&LevelIntervals>,
    ) -> Result<LevelCheck, AllocError>
        ensures { IfOk result (λ c. (L : List Known)
            → HasClasses counts.now (bound_of level.now.side level.now.number) decimals L
            → IsOfTag self.now decimals L (option_map (λ i. i.now) intervals.entry) level.now c) }
    {
        match level.measure {
            Measure::Mean => Ok(LevelCheck::of_mean(level, &self.sum(), decimals)),
            _ => LevelCheck::of_classes(alloc, level, counts, intervals),
        }
    }

    /// Compares the levels at which the samples of the tag were counted with these. Values have
    /// `decimals`. A percentile is compared by its interval if there are intervals, and a mean by the
    /// sum of the samples.
    ///
    /// # Errors
    /// Returns an error if an allocation fails.
    pub fn checks(
        &self,
        alloc: Global,
        levels: &[Level<'_>],
        decimals: u32,
        intervals: Option<&LevelIntervals>,
    ) -> Result<Vec<LevelCheck>, AllocError>
        ensures { IfOk result (λ checks. (L : List Known) → logs.HasCounted levels.now decimals L self.now
            → AllZip (IsOfTag self.now decimals L (option_map (λ i. i.now) intervals.entry)) levels.now checks.items) }
    {
        let mut checks = Vec::new(alloc);
        for (index, level) in levels.iter().enumerate() {
            let Some(counts) = self.counts().get(index) else {
                return Ok(checks);
            };
            let check = self.check(alloc, level, counts, decimals, intervals)?;
            checks.push(check)?;
        }
        Ok(checks)
    }
}
