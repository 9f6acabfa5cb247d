//! Amounts in units of time.

ghost use Rattle.std.specs.Prelude.{◌≡◌, ◌≤◌, ◌<◌, ◌^◌, length, IfNone, IfSome};
ghost use Rattle.hdr_input.specs.Amounts.{IsAmountIn, IsDurationIn, IsExact, IsInUnit, IsSingleAmount, with_name};
ghost use Rattle.hdr_input.specs.Units.{IsSameTime, IsTooGreat};

use crate::distribution::MOST_DECIMALS;
use crate::durations::parse_duration;
use crate::number::Number;
pub use crate::unit::Unit;

/// Splits a text before the unit that it ends in.
fn split_unit(text: &str) -> (&str, Option<Unit>)
    ensures text { text.now ≡ with_name result.0.now result.1 }
    ensures shorter { length result.0.now ≤ length text.now }
{
    for unit in [
        Unit::Nanoseconds,
        Unit::Microseconds,
        Unit::Milliseconds,
        Unit::Seconds,
    ] {
        if let Some(start) = text.strip_suffix(unit.name()) {
            return (start, Some(unit));
        }
    }
    (text, None)
}

/// Returns the number of one unit in another, or `None` on overflow.
pub fn in_unit(number: Number, from: Unit, to: Unit) -> Option<Number>
    ensures same { IfSome result (λ n. IsSameTime number from n to) }
    ensures overflow { IfNone result (IsTooGreat number from to) }
{
    let from = from.decimals();
    let to = to.decimals();
    if to <= from {
        number.divided_by_ten(from - to)
    } else {
        number.times_ten(to - from)
    }
}

/// Parses a number, which is exact.
fn exact(text: &str) -> Option<Number>
    ensures { length text.now < 2 ^ 62 → IfSome result (IsExact text.now) }
{
    Number::parse(text.as_bytes(), None).ok()
}

/// Returns a number of a unit in the unit of the input. One without a unit stays as it is.
fn in_unit_of_input(number: Number, from: Option<Unit>, to: Option<Unit>) -> Option<Number>
    ensures { IfSome result (IsInUnit number from to) }
{
    match (from, to) {
        (None, _) => Some(number),
        (Some(_), None) => None,
        (Some(from), Some(to)) => in_unit(number, from, to),
    }
}

/// Parses a number that one unit may follow, in the unit of the input. One without a unit is in
/// `usual`, if there is one.
fn single_amount(text: &str, usual: Option<Unit>, unit: Option<Unit>) -> Option<Number>
    ensures { length text.now < 2 ^ 62 → IfSome result (IsSingleAmount text.now usual unit) }
{
    let (start, written) = split_unit(text);
    let number = exact(start)?;
    in_unit_of_input(number, written.or(usual), unit)
}

/// Parses a duration, in the unit of the input. There is none if the input has no unit.
fn duration_in(text: &str, unit: Option<Unit>) -> Option<Number>
    ensures { IfSome result (IsDurationIn text.now unit) }
{
    parse_duration(text.as_bytes(), unit?)
}

/// Parses one number or a duration, in the unit of the input.
fn any_amount(text: &str, usual: Option<Unit>, unit: Option<Unit>) -> Option<Number>
    ensures { length text.now < 2 ^ 62 → IfSome result (IsAmountIn text.now usual unit) }
{
    match single_amount(text, usual, unit) {
        Some(number) => Some(number),
        None => duration_in(text, unit),
    }
}

/// Parses an amount such as `200`, `200ms` or `1m30s`, in the unit of the input. One with a unit is
/// invalid if the input has none.
pub fn parse_amount(text: &str, unit: Option<Unit>) -> Option<Number>
    ensures amount { length text.now < 2 ^ 62 → IfSome result (IsAmountIn text.now unit unit) }
    ensures few { IfSome result (λ n. n.decimals ≤ 18) }
{
    parse_amount_in(text, unit, unit)
}

/// As `parse_amount`. An amount without a unit is in `usual`, if there is one.
pub fn parse_amount_in(text: &str, usual: Option<Unit>, unit: Option<Unit>) -> Option<Number>
    ensures amount { length text.now < 2 ^ 62 → IfSome result (IsAmountIn text.now usual unit) }
    ensures few { IfSome result (λ n. n.decimals ≤ 18) }
{
    let number = any_amount(text, usual, unit)?;
    if number.decimals > MOST_DECIMALS {
        return None;
    }
    Some(number)
}
