//! Whether a run is slower or faster than another.

ghost use Rattle.std.specs.Prelude.{MatchOption};
ghost use Rattle.hdr_compare.specs.Changes.{IsComparable};
ghost use Rattle.hdr_compare.specs.Verdicts.{HasNoRatio, IsNearestRatio, IsVerdict};

use crate::changes::{Measured, exceeds, falls_below};

/// What is said of a change.
#[derive(Debug, Clone, Copy, PartialEq, Eq)]
pub enum Verdict {
    Slower,
    Faster,
    /// The change is within what chance makes.
    Same,
    /// The samples are too few to say it.
    TooFew,
}

/// Returns what is said of a percentile `before` and `after` a change. The values are below 2^40
/// (`comparable`).
pub fn verdict_of(before: &Measured, after: &Measured) -> Verdict
    requires before { IsComparable before.now }
    requires after { IsComparable after.now }
    ensures { IsVerdict before.now after.now result }
{
    match (
        exceeds(1, 1, before, after),
        falls_below(1, 1, before, after),
    ) {
        (Some(true), _) => Verdict::Slower,
        (_, Some(true)) => Verdict::Faster,
        (Some(false), Some(false)) => Verdict::Same,
        _ => Verdict::TooFew,
    }
}

/// Returns the nearest ratio of `after` to `before` in thousandths, halves up, or `None` if `before`
/// is 0 or the ratio does not fit 64 bits.
pub fn nearest_ratio(before: u64, after: u64) -> Option<u64>
    ensures { MatchOption result (HasNoRatio before after) (IsNearestRatio before after) }
{
    let twice = (2_000 * u128::from(after) + u128::from(before)).checked_div(
        2 * u128::from(before),
    )?;
    u64::try_from(twice).ok()
}
