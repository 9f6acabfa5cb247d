//! Surveys of numbers, which determine the decimals of a unit.

ghost use Rattle.std.specs.Prelude.{◌≡◌, List, [], max, IsTrue, ◌↔◌};
ghost use Rattle.hdr_input.specs.declared.number.Number.{Number};
ghost use Rattle.hdr_input.specs.Rounding.{HasSurveyed, AreDecimalsOf, HasDigits, HasRoom};

use crate::cause::Cause;
use crate::number::Number;
use crate::sink::NumberSink;
use crate::units::Unit;
use crate::wide::Wide;

/// What is known of numbers that were read and not recorded. Bad lines are left out.
#[derive(Drop)]
pub struct Survey {
    /// The unit of numbers that have none, if numbers may have units.
    unit: Option<Unit>,
    /// The most decimals of a number.
    decimals: u32,
    /// How many digits before its point the greatest number has, 0 if it is below 1.
    digits: u32,
}

/// The most digits of the greatest number with its decimals.
const MOST_DIGITS: u32 = 15;

/// Returns how many digits an integer has, 0 for 0.
fn digits_of(integer: u64) -> u32
    ensures { HasDigits integer result }
{
    match integer.checked_ilog10() {
        Some(power) => power + 1,
        None => 0,
    }
}

impl Survey {
    /// Returns a survey of no numbers. With a `unit`, numbers may have units.
    pub fn new(unit: Option<Unit>) -> Survey
        ensures { HasSurveyed result [] }
    {
        Survey {
            unit,
            decimals: 0,
            digits: 0,
        }
    }

    /// Returns the decimals of a unit: the most that a number has, or as many as the greatest has
    /// in 15 digits, if these are fewer.
    pub fn decimals(&self) -> u32
        ensures { (S : List Number) → HasSurveyed self.now S → AreDecimalsOf S result }
    {
        self.decimals.min(MOST_DIGITS.saturating_sub(self.digits))
    }

    /// Whether one more decimal of a number would be one of the unit.
    pub fn may_be_finer(&self) -> bool
        ensures { (S : List Number) → HasSurveyed self.now S → IsTrue result ↔ HasRoom S }
    {
        self.decimals < MOST_DIGITS.saturating_sub(self.digits)
    }

    /// Adds a number that has these decimals, and as many digits before its point.
    fn add(&mut self, decimals: u32, digits: u32)
        ensures decimals { self.new.decimals ≡ max self.old.decimals decimals }
        ensures digits { self.new.digits ≡ max self.old.digits digits }
    {
        self.decimals = self.decimals.max(decimals);
        self.digits = self.digits.max(digits);
    }
}

impl NumberSink for Survey {
    ghost use Rattle.hdr_input.specs.Rounding.{Surveys};
    ghost use Rattle.hdr_input.specs.Surveys.{surveys_nothing, surveys_after};

    ghost takes = { Surveys };

    ghost takes_none = { surveys_nothing };

    ghost takes_more = { surveys_after };

    fn record(&mut self, number: Number) -> Result<(), Cause> {
        self.add(number.decimals, digits_of(number.whole()));
        Ok(())
    }

    // A number of 2^64 or more is not one that determines a unit: it is too large for each.
    fn record_wide(&mut self, number: Wide) -> Result<(), Cause> {
        number.rounded(0)?;
        self.add(number.decimals(), number.digits_before_point());
        Ok(())
    }

    fn record_times(&mut self, number: Wide, _times: u64) -> Result<(), Cause> {
        self.record_wide(number)
    }

    fn count_if_skipped(&mut self, _cause: Cause) -> bool {
        true
    }

    fn unit(&self) -> Option<Unit> {
        self.unit
    }
}
