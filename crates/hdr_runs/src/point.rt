//! A percentile with its confidence interval.

ghost use Rattle.std.specs.Prelude.{◌≡◌, ◌*◌, MatchOption};
ghost use Rattle.std.specs.Option.{option_map};
ghost use Rattle.hdr_runs.specs.Scaled.{IsTooLarge, Overflows, times};

use hdr_compare::Measured;

/// A percentile of a run, with its confidence interval.
#[derive(Clone, Copy)]
pub struct Point {
    pub measured: Measured,
    /// As how many independent samples those of the run count.
    pub independent: u64,
}

impl Point {
    /// Returns the point in units of which as many make one as `factor`, or `None` on overflow.
    pub(crate) fn times(self, factor: u64) -> Option<Point>
        ensures { MatchOption result (Overflows factor self.measured)
            (λ p. (p.measured ≡ times factor self.measured) × (p.independent ≡ self.independent)) }
    {
        let Measured { value, low, high } = self.measured;
        Some(Point {
            measured: Measured {
                value: value.checked_mul(factor)?,
                low: end_times(low, factor)?,
                high: end_times(high, factor)?,
            },
            independent: self.independent,
        })
    }
}

/// Returns an end times a factor, if there is one, or `None` on overflow.
fn end_times(end: Option<u64>, factor: u64) -> Option<Option<u64>>
    ensures { MatchOption result (IsTooLarge factor end)
        (λ times. times ≡ option_map (λ value. value * factor) end) }
{
    match end {
        Some(value) => Some(Some(value.checked_mul(factor)?)),
        None => Some(None),
    }
}
