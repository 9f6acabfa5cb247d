//! What takes numbers.

use crate::cause::Cause;
use crate::number::Number;
use crate::units::Unit;
use crate::wide::Wide;

/// What takes numbers.
pub trait NumberSink {
    /// What taking numbers does.
    ghost takes: { Self → Self → Type 0 };

    /// Takes a number.
    ///
    /// # Errors
    /// As `Tally::record`. No number is then taken.
    fn record(&mut self, number: Number) -> Result<(), Cause>
        ensures taken { takes self.old self.new };

    /// Takes a number that may be rounded.
    ///
    /// # Errors
    /// As `record`.
    fn record_wide(&mut self, number: Wide) -> Result<(), Cause>
        ensures taken { takes self.old self.new };

    /// Takes a number that may be rounded, as often as `times`, which is above 0.
    ///
    /// # Errors
    /// As `record`.
    fn record_times(&mut self, number: Wide, times: u64) -> Result<(), Cause>
        ensures taken { takes self.old self.new };

    /// Counts a line that is bad for this cause, if such lines are skipped, and returns whether.
    fn count_if_skipped(&mut self, cause: Cause) -> bool
        ensures taken { takes self.old self.new };

    /// Returns the unit of numbers that have none, if numbers may have units.
    fn unit(&self) -> Option<Unit>;

    /// Without a number nothing changes.
    ghost takes_none: { (sink : Self) → takes sink sink };

    /// What follows is taken after.
    ghost takes_more: { (a b c : Self) → takes a b → takes b c → takes a c };
}
