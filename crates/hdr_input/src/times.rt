//! The times of numbers.

ghost use Rattle.std.specs.Prelude.{◌≡◌, ◌≤◌, ◌+◌, ◌^◌, IfNone, IfSome};
ghost use Rattle.hdr_input.specs.Numbers.{in_units};
ghost use Rattle.hdr_input.specs.Times.{unit_of_size, decimals_of};

use crate::cause::Cause;
use crate::number::Number;
use jiff::Timestamp;

/// The unit of times.
#[derive(Debug, Clone, Copy, PartialEq, Eq)]
pub enum TimeUnit {
    Seconds,
    Milliseconds,
    Microseconds,
    Nanoseconds,
}

impl TimeUnit {
    /// The names of units.
    pub const NAMES: [&'static str; 4] = ["ns", "us", "ms", "s"];

    /// Returns the unit of this name.
    pub fn from_name(name: &str) -> Option<TimeUnit> {
        match name {
            "s" => Some(TimeUnit::Seconds),
            "ms" => Some(TimeUnit::Milliseconds),
            "us" => Some(TimeUnit::Microseconds),
            "ns" => Some(TimeUnit::Nanoseconds),
            _ => None,
        }
    }

    /// Returns the unit of a time by its size, as dates of these years have it.
    pub fn of_size(time: u64) -> TimeUnit
        ensures { result ≡ unit_of_size time }
    {
        match time {
            0..=99_999_999_999 => TimeUnit::Seconds,
            100_000_000_000..=99_999_999_999_999 => TimeUnit::Milliseconds,
            100_000_000_000_000..=99_999_999_999_999_999 => TimeUnit::Microseconds,
            _ => TimeUnit::Nanoseconds,
        }
    }

    /// Returns the decimals of a second in this unit.
    pub fn decimals(self) -> u32
        ensures { result ≡ decimals_of self }
    {
        match self {
            TimeUnit::Seconds => 0,
            TimeUnit::Milliseconds => 3,
            TimeUnit::Microseconds => 6,
            TimeUnit::Nanoseconds => 9,
        }
    }

    /// Returns a time of this unit in nanoseconds, to the nearest, or `None` on overflow.
    pub fn nanoseconds(self, time: Number) -> Option<u64>
        ensures time { IfSome result
            (λ n. n ≡ in_units time.digits (time.decimals + decimals_of self) 9) }
        ensures overflow { time.decimals + decimals_of self ≤ 18
            → IfNone result (2 ^ 64 ≤ in_units time.digits (time.decimals + decimals_of self) 9) }
    {
        time.divided_by_ten(self.decimals())?.rounded(9)
    }
}

/// How times are read.
#[derive(Clone, Copy)]
pub struct Times {
    /// The unit of all times, or `None` if the first time of each file determines it.
    unit: Option<TimeUnit>,
    /// The unit that the first time of a file has determined.
    found: Option<TimeUnit>,
}

impl Times {
    /// Returns how times are read before the first one.
    pub fn new(unit: Option<TimeUnit>) -> Times {
        Times { unit, found: unit }
    }

    /// Begins a file.
    pub fn begin_file(&mut self) {
        self.found = self.unit;
    }

    /// Parses a time, and returns it in nanoseconds: a number in the unit of the file, or a date of
    /// ISO 8601 with a zone, as `2026-11-28T06:00:00.5+02:00`.
    pub fn parse(&mut self, text: &[u8]) -> Result<u64, Cause> {
        let unit = match self.found {
            Some(unit) => unit,
            None => match Number::parse(text, Some(0)) {
                Ok(size) => TimeUnit::of_size(size.digits),
                Err(cause) => return parse_date(text).ok_or(cause_of_time(cause)),
            },
        };
        match Number::parse(text, Some(9 - unit.decimals())) {
            Ok(time) => {
                self.found = Some(unit);
                unit.nanoseconds(time).ok_or(Cause::TimeTooLarge)
            }
            Err(cause) => parse_date(text).ok_or(cause_of_time(cause)),
        }
    }
}

/// Parses a date of ISO 8601 with a zone, and returns its nanoseconds since 1970.
fn parse_date(text: &[u8]) -> Option<u64> {
    let date = str::from_utf8(text).ok()?.parse::<Timestamp>().ok()?;
    u64::try_from(date.as_nanosecond()).ok()
}

/// Returns the cause of a text that is not a time by that of the number.
fn cause_of_time(cause: Cause) -> Cause {
    match cause {
        Cause::Negative => Cause::NegativeTime,
        Cause::TooLarge => Cause::TimeTooLarge,
        Cause::NotANumber | Cause::Blank => Cause::NotATime,
        cause => cause,
    }
}
