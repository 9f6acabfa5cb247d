//! What changed between two runs.

ghost use Rattle.std.specs.Prelude.{◌≡◌};
ghost use Rattle.hdr_runs.specs.ReportChanges.{IsChange, greatest_with, least_with};

use hdr_compare::{
    Measured, Verdict, comparable, greatest_ratio, least_ratio, nearest_ratio, verdict_of,
};

/// The change of a percentile. Ratios of after to before are in thousandths.
#[derive(Debug, Clone, Copy, PartialEq, Eq)]
pub struct Change {
    pub ratio: Option<u64>,
    /// The least and the greatest ratio that chance does not rule out, or `ratio` if that is rounded past
    /// one of them.
    pub least: Option<u64>,
    pub greatest: Option<u64>,
    pub verdict: Verdict,
}

/// Returns the change of a percentile. One from 0 has no ratio.
pub fn change_of(before: &Measured, after: &Measured) -> Change
    ensures { IsChange before.now after.now result }
{
    let (before, after) = comparable(before, after);
    let verdict = verdict_of(&before, &after);
    if before.value == 0 {
        return Change {
            ratio: None,
            least: None,
            greatest: None,
            verdict,
        };
    }
    let ratio = nearest_ratio(before.value, after.value);
    Change {
        ratio,
        least: least_with(least_ratio(&before, &after), ratio),
        greatest: greatest_with(greatest_ratio(&before, &after), ratio),
        verdict,
    }
}

/// Returns the lesser of the least ratio and the nearest one, if both are known.
fn least_with(least: Option<u64>, ratio: Option<u64>) -> Option<u64>
    ensures { result ≡ least_with least ratio }
{
    match (least, ratio) {
        (Some(least), Some(ratio)) => Some(least.min(ratio)),
        _ => least,
    }
}

/// Returns the greater of the greatest ratio and the nearest one, if both are known.
fn greatest_with(greatest: Option<u64>, ratio: Option<u64>) -> Option<u64>
    ensures { result ≡ greatest_with greatest ratio }
{
    match (greatest, ratio) {
        (Some(greatest), Some(ratio)) => Some(greatest.max(ratio)),
        _ => greatest,
    }
}
