//! Values with their units.

ghost use Rattle.std.specs.Prelude.{ℕ, List, Option, None, Some, ◌≡◌, ◌⊎◌, ◌<◌, ◌≤◌, ◌+◌, ◌*◌, ◌/◌, ◌^◌, ◌++◌, IfSome, IfNone, IsSome, MatchOption, OnOk, string_bytes};
ghost use Rattle.std.specs.Option.{ForNone};
ghost use Rattle.hdr_input.specs.Units.{exponent};
ghost use Rattle.hdr_draw.specs.Numbers.{IsDecimalOf};
ghost use Rattle.hdr_view.specs.Amounts.{IsExact, IsInUnit, IsLabel, IsScale, IsValueText, box_text, longer_by, nanos_of, unit_name, unit_text};

use hdr_draw::labels::split_powers;
use hdr_draw::number::{Decimal, push_exponent, push_grouped, scientific};
use hdr_input::distribution::MOST_DECIMALS;
use hdr_summary::units::Unit;
use hdrhistogram::Fraction;
use std::alloc::AllocError;

/// A space at which a line is not broken.
pub(crate) const SPACE: &str = "\u{a0}";

/// The index of the longest unit of time.
const LONGEST: usize = 3;

/// From here on numbers have an exponent, in a table and at an axis.
const LONG: u128 = 10_000_000;

const LONG_AT_AXIS: u64 = 100_000;

/// The most zeros at the end of an integer of 64 bits.
const MOST_ZEROS: u32 = 19;

/// The unit in which a log's values are shown, if it is known.
#[derive(Clone, Copy)]
pub struct Units {
    /// The index of the unit, from nanoseconds.
    pub unit: Option<usize>,
    /// A value of 1 is `times / 10^decimals` of the unit.
    times: u64,
    decimals: u32,
    ghost few: { times ≤ 100 },
    ghost few_decimals: { decimals ≤ 18 },
    ghost unknown: { ForNone unit (times ≡ 1) },
}

/// A fraction of some unit.
#[derive(Clone, Copy)]
pub struct Amount {
    pub num: u128,
    pub den: u128,
    /// The index of the unit, from nanoseconds, if it is known.
    pub unit: Option<usize>,
    /// Whether the unit is longer than that of the log, so that its integers are rounded.
    is_longer: bool,
}

/// Returns the name of a unit.
fn name_of(unit: usize) -> &'static str
    ensures { result.now ≡ unit_name unit }
{
    match unit {
        0 => "ns",
        1 => "µs",
        2 => "ms",
        _ => "s",
    }
}

/// Returns the length of a unit in nanoseconds.
fn nanos_of(unit: usize) -> u128
    ensures { result ≡ nanos_of unit }
{
    match unit {
        0 => 1,
        1 => 1_000,
        2 => 1_000_000,
        _ => 1_000_000_000,
    }
}

impl Units {
    /// Returns how values are shown that are in units of the last of these decimals, 18 at most, of
    /// `unit`: in the longest unit of which they are integers, or in nanoseconds. Without `unit` it
    /// is unknown.
    pub fn new(unit: Option<Unit>, decimals: u32) -> Units
        ensures known { decimals ≤ 18 → IfSome unit (λ unit. (index : ℕ) × (result.unit ≡ Some index)
            × IsScale (decimals + exponent unit) index result.times result.decimals) }
        ensures unknown { decimals ≤ 18 → unit ≡ None
            → (result.unit ≡ None) × (result.times ≡ 1) × (result.decimals ≡ decimals) }
    {
        let decimals = decimals.min(MOST_DECIMALS);
        let Some(unit) = unit else {
            return Units {
                unit: None,
                times: 1,
                decimals,
            };
        };
        let (index, times, decimals) = scale_of(decimals + unit.decimals());
        Units {
            unit: Some(index),
            times,
            decimals,
        }
    }

    /// Returns a value in parts of the unit.
    fn in_parts(self, value: u64) -> u128
        ensures { result ≡ value * self.times }
    {
        u128::from(value) * u128::from(self.times)
    }

    /// Returns how many parts the unit has.
    fn parts(self) -> u128
        ensures { result ≡ 10 ^ self.decimals }
    {
        10u128.pow(self.decimals)
    }

    /// Returns a value in milliseconds, rounded down, if the unit is known.
    pub(crate) fn milliseconds(self, value: u64) -> Option<u128>
        ensures { MatchOption self.unit (result ≡ None)
            (λ unit. result ≡ Some (value * self.times * nanos_of unit / (10 ^ self.decimals * 1_000_000))) }
    {
        let nanos = self.in_parts(value) * nanos_of(self.unit?);
        Some(nanos / (self.parts() * 1_000_000))
    }

    /// Returns a value in the longest unit of which it is one or more, after rounding.
    pub fn amount_of(self, value: u64) -> Amount
        ensures { IsInUnit self.unit (value * self.times) (10 ^ self.decimals)
            result.unit result.num result.den }
    {
        self.amount(self.in_parts(value), self.parts())
    }

    /// Returns an amount in the longest unit of which it is one or more, after rounding.
    pub fn amount(self, num: u128, den: u128) -> Amount
        ensures { IsInUnit self.unit num den result.unit result.num result.den }
    {
        let mut amount = Amount {
            num,
            den,
            unit: self.unit,
            is_longer: false,
        };
        for _ in 0..LONGEST {
            match longer(amount) {
                Some(longer) => amount = longer,
                None => return amount,
            }
        }
        amount
    }

    /// Appends a value with its unit.
    pub fn push(self, text: &mut String, value: u64) -> Result<(), AllocError>
        ensures { OnOk result ((added : List ℕ)
            × IsValueText self.unit (value * self.times) (10 ^ self.decimals) added
            × (string_bytes text.new ≡ string_bytes text.old ++ added)) }
    {
        let amount = self.amount_of(value);
        amount.push_number(text)?;
        push_unit(text, amount.unit)
    }

    /// Appends a value exactly, as the label of an axis, if it is below 2^64 in the unit.
    pub fn push_label(self, text: &mut String, value: u64) -> Result<(), AllocError>
        ensures { self.decimals ≡ 0 → value * self.times < 2 ^ 64 → OnOk result ((added : List ℕ)
            × IsLabel self.unit (value * self.times) added
            × (string_bytes text.new ≡ string_bytes text.old ++ added)) }
    {
        if self.decimals == 0 {
            return self.push_whole(text, value);
        }
        let parts = self.in_parts(value);
        match integer(parts, self.parts()) {
            Some(whole) => push_label_of(text, whole, self.unit),
            None => {
                let decimals = self.decimals;
                Decimal { parts, decimals }.trimmed().push(text)?;
                push_unit(text, self.unit)
            }
        }
    }

    /// Appends a value exactly that is an integer of the unit, as `push_label`.
    fn push_whole(self, text: &mut String, value: u64) -> Result<(), AllocError>
        ensures { value * self.times < 2 ^ 64 → OnOk result ((added : List ℕ)
            × IsLabel self.unit (value * self.times) added
            × (string_bytes text.new ≡ string_bytes text.old ++ added)) }
    {
        match self.unit {
            Some(unit) => push_label_in(text, value.saturating_mul(self.times), unit),
            None => push_exact(text, value),
        }
    }
}

/// Returns the index of the longest unit of which values are integers, or otherwise that of
/// nanoseconds, and what a value of 1 is: a number of the unit, with decimals. Values are in units of
/// the last of some decimals of a second.
fn scale_of(power: u32) -> (usize, u64, u32)
    requires { power ≤ 27 }
    ensures scale { IsScale power result.0 result.1 result.2 }
    ensures few { result.2 ≤ 18 }
{
    match power {
        0 => (3, 1, 0),
        1 => (2, 100, 0),
        2 => (2, 10, 0),
        3 => (2, 1, 0),
        4 => (1, 100, 0),
        5 => (1, 10, 0),
        6 => (1, 1, 0),
        7 => (0, 100, 0),
        8 => (0, 10, 0),
        _ => (0, 1, power - 9),
    }
}

/// Returns an amount in a unit that is 1,000 times as long, if it is one or more there.
fn longer(amount: Amount) -> Option<Amount>
    ensures unit { IfSome result (λ a. IsSome amount.unit × (a.unit ≡ longer_by 1 amount.unit)) }
    ensures same { IfSome result (λ a. (a.num ≡ amount.num) × (a.den ≡ amount.den * 1000)) }
    ensures at_least { IfSome result (λ a. a.den * 9995 ≤ a.num * 10000) }
    ensures no_longer { IfSome result (λ a. IfSome a.unit (λ unit. unit ≤ 3)) }
{
    let unit = amount.unit?;
    if unit >= LONGEST {
        return None;
    }
    let den = amount.den.checked_mul(1_000)?;
    let least = den.checked_mul(9_995)?;
    if amount.num.saturating_mul(10_000) < least {
        return None;
    }
    Some(Amount {
        den,
        unit: Some(unit + 1),
        is_longer: true,
        ..amount
    })
}

/// Appends a space and the name of a unit, if it is known.
fn push_unit(text: &mut String, unit: Option<usize>) -> Result<(), AllocError>
    ensures { OnOk result (string_bytes text.new ≡ string_bytes text.old ++ unit_text unit) }
{
    let Some(unit) = unit else {
        return Ok(());
    };
    text.push_str(SPACE)?;
    text.push_str(name_of(unit))
}

/// Appends the name of a unit in a box, if it is known.
fn push_box(text: &mut String, unit: Option<usize>) -> Result<(), AllocError>
    ensures { OnOk result (string_bytes text.new ≡ string_bytes text.old ++ box_text unit) }
{
    let Some(unit) = unit else {
        return Ok(());
    };
    text.push_str("<i>")?;
    text.push_str(name_of(unit))?;
    text.push_str("</i>")
}

/// Appends a value exactly, as the label of an axis, in a unit or a longer one, if it is known.
fn push_label_of(text: &mut String, value: u64, unit: Option<usize>) -> Result<(), AllocError> {
    match unit {
        Some(unit) => push_label_in(text, value, unit),
        None => push_exact(text, value),
    }
}

/// Appends a value exactly, as the label of an axis, in a unit or a longer one.
fn push_label_in(text: &mut String, value: u64, unit: usize) -> Result<(), AllocError>
    ensures { OnOk result ((added : List ℕ) × IsLabel (Some unit) value added
        × (string_bytes text.new ≡ string_bytes text.old ++ added)) }
{
    let longer = LONGEST.saturating_sub(unit) as u32;
    let split = split_powers(value, 1_000, longer);
    push_exact(text, split.number)?;
    push_unit(text, Some(unit.saturating_add(split.power as usize)))
}

/// Returns the most zeros at the end of a label that become an exponent: none if the label is short
/// with them, or has more than three other digits.
fn most_zeros(value: u64) -> u32 {
    let other_digits = split_powers(value, 10, MOST_ZEROS).number;
    if value < LONG_AT_AXIS || other_digits >= 1_000 {
        0
    } else {
        MOST_ZEROS
    }
}

/// Appends an integer exactly, with an exponent if it is long and round.
fn push_exact(text: &mut String, value: u64) -> Result<(), AllocError>
    ensures { OnOk result ((added : List ℕ) × IsExact value added
        × (string_bytes text.new ≡ string_bytes text.old ++ added)) }
{
    let split = split_powers(value, 10, most_zeros(value));
    push_grouped(text, split.number)?;
    push_exponent(text, split.power)
}

/// Returns a fraction as an integer, or `None` if it is none of 64 bits.
fn integer(num: u128, den: u128) -> Option<u64>
    ensures { IfSome result (λ n. n * den ≡ num) }
{
    if num.checked_rem(den)? != 0 {
        return None;
    }
    u64::try_from(num.checked_div(den)?).ok()
}

impl Amount {
    /// Returns the amount of a mean, or `None` if its sum in parts of the unit is 2^128 / 1,000 or
    /// more, or if the samples have 2^128 parts or more.
    pub fn of_mean(units: Units, mean: Fraction) -> Option<Amount>
        ensures is { IfSome result (λ a. IsInUnit units.unit (mean.num * units.times)
            (mean.den * 10 ^ units.decimals) a.unit a.num a.den) }
        ensures fits { IfNone result ((2 ^ 128 ≤ mean.num * units.times * 1000)
            ⊎ (2 ^ 128 ≤ mean.den * 10 ^ units.decimals)) }
    {
        let num = mean.num.checked_mul(u128::from(units.times))?;
        num.checked_mul(1_000)?;
        let den = mean.den.checked_mul(units.parts())?;
        Some(units.amount(num, den))
    }

    /// Appends the amount as the content of a table's cell, with its unit in a box.
    pub fn push_in_cell(self, text: &mut String) -> Result<(), AllocError>
        ensures { 0 < self.den → self.num * 10 ^ 9 + 1 < 2 ^ 128 → OnOk result ((cell : List ℕ)
            × IsDecimalOf self.num self.den cell
            × (string_bytes text.new ≡ string_bytes text.old ++ (cell ++ box_text self.unit))) }
    {
        self.push_number(text)?;
        push_box(text, self.unit)
    }

    /// Appends the number: three significant digits, and integers of the log's own unit in full below
    /// 10,000,000. From there on it has an exponent.
    pub(crate) fn push_number(self, text: &mut String) -> Result<(), AllocError>
        ensures { 0 < self.den → self.num * 10 ^ 9 + 1 < 2 ^ 128 → OnOk result ((added : List ℕ)
            × IsDecimalOf self.num self.den added
            × (string_bytes text.new ≡ string_bytes text.old ++ added)) }
    {
        if self.num >= self.den.saturating_mul(LONG) {
            let (decimal, power) = scientific(self.num, self.den);
            decimal.push(text)?;
            return push_exponent(text, power);
        }
        match integer(self.num, self.den) {
            Some(integer) if !self.is_longer => return push_grouped(text, integer),
            _ => {}
        }
        Decimal::of_fraction(self.num, self.den).push(text)
    }
}
