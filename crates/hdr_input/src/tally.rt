//! Numbers, recorded as they come.

ghost use Rattle.std.specs.Prelude.{◌≡◌, ◌+◌, ◌-◌, ◌%◌, ◌^◌, ◌<◌, ◌≤◌, min, max, Bool, true, ◌&&◌};
ghost use Rattle.std.specs.Prelude.{Some, None, Ok, OnOk, IfOk, IfErr};
ghost use Rattle.hdr_model.specs.CallErrors.{IsCreationError};
ghost use Rattle.hdr_model.specs.Plain.{empty_plain};
ghost use Rattle.hdr_input.specs.Numbers.{in_units};
ghost use Rattle.hdr_input.specs.Recorded.{IsInterval, IsLeast, Takes, TakesTimes, TakesWide, TakesWideTimes, KeepsUnit};
ghost use Rattle.hdr_input.specs.Recorded.{IsTallyError, IsCauseOf, after_rounding, after_copies};
ghost use Rattle.hdr_input.specs.Recorded.{may_be_skipped, with_skipped};
ghost use Rattle.hdr_input.specs.declared.number.Number.{Number};

use crate::cause::Cause;
use crate::distribution::{Distribution, MOST_DECIMALS};
use crate::number::Number;
use crate::sink::NumberSink;
use crate::units::Unit;
use crate::wide::Wide;
use hdrhistogram::{CreationError, Histogram, RecordError};
use std::alloc::Global;

/// How numbers are recorded.
#[derive(Clone, Copy)]
pub struct Recording {
    /// The significant digits of the histogram, at most 5.
    pub sigfig: u8,
    /// The decimals of a unit, to which all numbers are rounded.
    pub decimals: u32,
    /// Whether these decimals were chosen by the user, and not by a survey.
    pub has_chosen_decimals: bool,
    /// The unit of numbers that have none, if numbers may have units.
    pub unit: Option<Unit>,
    /// The expected interval between two samples, 0 for none.
    pub interval: Number,
    /// Whether bad lines are skipped.
    pub skips_bad: bool,
}

/// The numbers recorded so far. The extremes are exact, and so is the sum of fewer than 2^64 numbers,
/// unless an interval is expected.
#[derive(Drop)]
pub struct Tally {
    pub histogram: Histogram<u64>,
    /// The decimals of a unit.
    pub decimals: u32,
    /// The expected interval in units, 0 for none.
    pub interval: u64,
    unit: Option<Unit>,
    skips_bad: bool,
    pub min: u64,
    pub max: u64,
    pub sum: u128,
    /// How many numbers have more decimals than a unit, and were rounded.
    pub rounded: u64,
    /// How many missing samples were recorded.
    pub missing: u64,
    /// The number of lines skipped.
    pub skipped: u64,
}

impl Tally {
    /// Returns an empty tally.
    pub fn new(alloc: Global, recording: Recording) -> Result<Tally, CreationError>
        ensures decimals { IfOk result (λ tally. tally.decimals ≡ recording.decimals) }
        ensures interval { IfOk result
            (λ tally. IsInterval recording.interval recording.decimals tally.interval) }
        ensures histogram { IfOk result
            (λ tally. tally.histogram ≡ empty_plain 1 2 recording.sigfig true) }
        ensures extremes { IfOk result (λ tally. (tally.min ≡ 2 ^ 64 - 1) × (tally.max ≡ 0)) }
        ensures sum { IfOk result (λ tally. tally.sum ≡ 0) }
        ensures counts { IfOk result
            (λ tally. (tally.rounded ≡ 0) × (tally.missing ≡ 0) × (tally.skipped ≡ 0)) }
        ensures errors { IfErr result (IsCreationError 1 2 recording.sigfig) }
    {
        let decimals = recording.decimals;
        Ok(Tally {
            histogram: Histogram::new(alloc, recording.sigfig)?,
            decimals,
            interval: recording.interval.rounded(decimals).unwrap_or(u64::MAX),
            unit: recording.unit,
            skips_bad: recording.skips_bad,
            min: u64::MAX,
            max: 0,
            sum: 0,
            rounded: 0,
            missing: 0,
            skipped: 0,
        })
    }

    /// As `NumberSink::count_if_skipped`.
    pub fn count_skipped(&mut self, cause: Cause) -> bool
        ensures unit { KeepsUnit self.old self.new }
        ensures histogram { self.new.histogram ≡ self.old.histogram }
        ensures result { result ≡ (self.old.skips_bad && may_be_skipped cause) }
        ensures skipped { self.new.skipped ≡ with_skipped self.old.skipped result }
    {
        let is_skipped = self.skips_bad && cause.may_be_skipped();
        if is_skipped {
            self.skipped = self.skipped.saturating_add(1);
        }
        is_skipped
    }

    /// Returns the unit of numbers that have none, if numbers may have units.
    pub fn unit(&self) -> Option<Unit> {
        self.unit
    }

    /// Returns how many numbers were recorded, without missing samples.
    pub fn numbers(&self) -> u64 {
        self.histogram.len().saturating_sub(self.missing)
    }

    /// Returns the distribution of the numbers.
    pub fn into_distribution(self) -> Distribution
        ensures histogram { result.histogram ≡ self.histogram }
        ensures min { result.min ≡ self.min }
        ensures max { result.max ≡ self.max }
        ensures sum { self.interval ≡ 0 → result.sum ≡ Some self.sum }
        ensures unknown { 0 < self.interval → result.sum ≡ None }
        ensures decimals { self.decimals ≤ MOST_DECIMALS → result.decimals ≡ self.decimals }
    {
        let sum = if self.interval > 0 {
            None
        } else {
            Some(self.sum)
        };
        Distribution {
            histogram: self.histogram,
            min: self.min,
            max: self.max,
            sum,
            decimals: self.decimals.min(MOST_DECIMALS),
        }
    }

    /// Records a number, rounded to the unit.
    ///
    /// # Errors
    /// Returns `TooLarge` if the number overflows in units, or `OutOfMemory`.
    #[inline(always)]
    pub fn record(&mut self, number: Number) -> Result<(), Cause>
        ensures number { OnOk result (Takes self.old self.new number) }
        ensures unit { KeepsUnit self.old self.new }
        ensures errors { IfErr result (IsTallyError self.old number) }
    {
        if self.decimals == number.decimals && self.interval == 0 {
            return self.record_alone(number);
        }
        self.record_other(number)
    }

    /// Records a number that is in units, if no interval is expected.
    ///
    /// # Errors
    /// As `record`.
    #[inline(always)]
    #[tactic(auto, using(crate::proofs::InUnits::units_same, crate::proofs::InUnits::after_alone, crate::proofs::InUnits::exact_same))]
    pub fn record_alone(&mut self, number: Number) -> Result<(), Cause>
        ensures number { OnOk result (self.old.decimals ≡ number.decimals
            → self.old.interval ≡ 0 → Takes self.old self.new number) }
        ensures unit { KeepsUnit self.old self.new }
        ensures errors { IfErr result (λ cause. self.old.decimals ≡ number.decimals
            → IsTallyError self.old number cause) }
    {
        let done = self.histogram.record(number.digits);
        self.update_extremes(done, number.digits, number.digits)
    }

    /// Records a number that is not in units, or a number with its missing samples, if an interval
    /// is expected.
    #[inline(never)]
    fn record_other(&mut self, number: Number) -> Result<(), Cause>
        ensures number { OnOk result (Takes self.old self.new number) }
        ensures unit { KeepsUnit self.old self.new }
        ensures errors { IfErr result (IsTallyError self.old number) }
    {
        let units = self.units_of(number)?;
        let done = self.histogram.record_correct(units, self.interval);
        self.update_extremes(done, least_of(units, self.interval), units)?;
        self.count_rounded(number.is_rounded(self.decimals));
        self.missing = self
            .missing
            .wrapping_add(missing_before(units, self.interval));
        Ok(())
    }

    /// Widens the extremes by a value that was recorded, and by the least of the samples recorded
    /// with it.
    #[inline(always)]
    fn update_extremes(
        &mut self,
        done: Result<(), RecordError>,
        least: u64,
        value: u64,
    ) -> Result<(), Cause>
        ensures done { OnOk result (done ≡ Ok tt) }
        ensures errors { IfErr result (IsCauseOf done) }
        ensures histogram { self.new.histogram ≡ self.old.histogram }
        ensures unit { KeepsUnit self.old self.new }
        ensures min { OnOk result (self.new.min ≡ min self.old.min least) }
        ensures max { OnOk result (self.new.max ≡ max self.old.max value) }
        ensures sum { OnOk result (self.new.sum ≡ (self.old.sum + value) % 2 ^ 128) }
        ensures rounded { self.new.rounded ≡ self.old.rounded }
    {
        match done {
            Ok(()) => {
                if least < self.min {
                    self.min = least;
                }
                if value > self.max {
                    self.max = value;
                }
                self.sum = self.sum.wrapping_add(u128::from(value));
                Ok(())
            }
            Err(RecordError::OutOfMemory) => Err(Cause::OutOfMemory),
            Err(_) => Err(Cause::TooLarge),
        }
    }

    /// Records a number as often as `times`, which is above 0, rounded to the unit.
    ///
    /// # Errors
    /// As `record`.
    pub fn record_times(&mut self, number: Wide, times: u64) -> Result<(), Cause>
        ensures taken { OnOk result (0 < times → TakesWideTimes self.old self.new number times) }
        ensures unit { KeepsUnit self.old self.new }
    {
        let is_rounded = number.is_rounded(self.decimals);
        let number = number.rounded(self.decimals)?;
        self.record_copies(number, times, is_rounded)
    }

    /// Records a number as often as `times`, which is above 0. `is_rounded` is whether it was rounded
    /// to the unit.
    #[tactic(auto, using(crate::proofs::Copies::sum_times))]
    fn record_copies(&mut self, number: Number, times: u64, is_rounded: bool) -> Result<(), Cause>
        ensures taken { OnOk result (0 < times → TakesTimes self.old self.new number times is_rounded) }
        ensures unit { KeepsUnit self.old self.new }
        ensures errors { IfErr result (IsTallyError self.old number) }
    {
        let units = self.units_of(number)?;
        let done = self.histogram.record_n_correct(units, times, self.interval);
        self.update_extremes(done, least_of(units, self.interval), units)?;
        self.add_copies(units, times.saturating_sub(1));
        if is_rounded {
            self.rounded = self.rounded.wrapping_add(times);
        }
        let missing = missing_before(units, self.interval).wrapping_mul(times);
        self.missing = self.missing.wrapping_add(missing);
        Ok(())
    }

    /// Adds a number of units to the sum, as often as `times`.
    fn add_copies(&mut self, units: u64, times: u64)
        ensures { self.new ≡ after_copies self.old units times }
    {
        let more = u128::from(units) * u128::from(times);
        self.sum = self.sum.wrapping_add(more);
    }

    /// Returns a number in units.
    pub fn units_of(&self, number: Number) -> Result<u64, Cause>
        ensures units { IfOk result
            (λ units. units ≡ in_units number.digits number.decimals self.now.decimals) }
        ensures errors { IfErr result (IsTallyError self.now number) }
    {
        number.rounded(self.decimals).ok_or(Cause::TooLarge)
    }

    /// Counts a number that was recorded, if it was rounded.
    pub fn count_rounded(&mut self, is_rounded: bool)
        ensures { self.new ≡ after_rounding self.old is_rounded }
    {
        if is_rounded {
            self.rounded = self.rounded.wrapping_add(1);
        }
    }
}

impl NumberSink for Tally {
    ghost use Rattle.hdr_input.specs.Recorded.{keeps_unit_of_none, keeps_unit_after};

    ghost takes = { KeepsUnit };

    ghost takes_none = { keeps_unit_of_none };

    ghost takes_more = { keeps_unit_after };

    #[inline(always)]
    fn record(&mut self, number: Number) -> Result<(), Cause>
        ensures taken { KeepsUnit self.old self.new }
        ensures number { OnOk result (Takes self.old self.new number) }
        ensures errors { IfErr result (IsTallyError self.old number) }
    {
        self.record(number)
    }

    fn record_wide(&mut self, number: Wide) -> Result<(), Cause>
        ensures taken { KeepsUnit self.old self.new }
        ensures number { OnOk result (TakesWide self.old self.new number) }
    {
        let decimals = self.decimals;
        self.record(number.rounded(decimals)?)?;
        self.count_rounded(number.is_rounded(decimals));
        Ok(())
    }

    fn record_times(&mut self, number: Wide, times: u64) -> Result<(), Cause>
        ensures taken { KeepsUnit self.old self.new }
        ensures number { OnOk result (0 < times → TakesWideTimes self.old self.new number times) }
    {
        self.record_times(number, times)
    }

    fn count_if_skipped(&mut self, cause: Cause) -> bool
        ensures taken { KeepsUnit self.old self.new }
        ensures result { result ≡ (self.old.skips_bad && may_be_skipped cause) }
        ensures skipped { self.new.skipped ≡ with_skipped self.old.skipped result }
    {
        self.count_skipped(cause)
    }

    fn unit(&self) -> Option<Unit> {
        self.unit
    }
}

/// Returns how many missing samples a value has at an expected interval, 0 for none.
fn missing_before(value: u64, interval: u64) -> u64 {
    value.checked_div(interval).unwrap_or(0).saturating_sub(1)
}

/// Returns the least of a value and of its missing samples at an expected interval, 0 for none.
fn least_of(value: u64, interval: u64) -> u64
    ensures least { IsLeast value interval result }
    ensures bound { result ≤ value }
{
    if interval > 0 && value / 2 >= interval {
        return interval + value % interval;
    }
    value
}
