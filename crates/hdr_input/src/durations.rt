//! Durations as programs print them: numbers with units, one after another.

ghost use Rattle.std.specs.Prelude.{◌≡◌, ◌<◌, List, ◌∷◌, length, IfSome};
ghost use Rattle.hdr_input.specs.declared.number.Number.{Number};
ghost use Rattle.hdr_input.specs.Durations.{BeginsWithName, BeginsWithUnit, BeginsWithPart, AreParts, IsDuration};
ghost use Rattle.hdr_input.specs.Durations.{in_seconds, sum_of, sum_after};

use crate::number::{Number, plain_start};
use crate::units::{Unit, in_unit};

/// A unit of a part of a duration.
#[derive(Clone, Copy)]
pub(crate) enum PartUnit {
    Hours,
    Minutes,
    Of(Unit),
}

/// The most parts of a duration.
const MOST_PARTS: u32 = 6;

/// Splits a text after the name of a unit that it begins with.
fn split_name(text: &[u8]) -> Option<(PartUnit, &[u8])>
    ensures length { IfSome result (λ p. length p.1.now < length text.now) }
    ensures name { IfSome result (λ p. BeginsWithName text.now p.0 p.1.now) }
{
    match text {
        [b'n', b's', rest @ ..] => Some((PartUnit::Of(Unit::Nanoseconds), rest)),
        [b'u', b's', rest @ ..] => Some((PartUnit::Of(Unit::Microseconds), rest)),
        // The micro sign, and the Greek letter.
        [0xc2, 0xb5, b's', rest @ ..] => Some((PartUnit::Of(Unit::Microseconds), rest)),
        [0xce, 0xbc, b's', rest @ ..] => Some((PartUnit::Of(Unit::Microseconds), rest)),
        [b'm', b's', rest @ ..] => Some((PartUnit::Of(Unit::Milliseconds), rest)),
        [b's', rest @ ..] => Some((PartUnit::Of(Unit::Seconds), rest)),
        [b'm', rest @ ..] => Some((PartUnit::Minutes, rest)),
        [b'h', rest @ ..] => Some((PartUnit::Hours, rest)),
        _ => None,
    }
}

/// Splits a text after the unit that it begins with, which may follow a space.
fn split_unit(text: &[u8]) -> Option<(PartUnit, &[u8])>
    ensures length { IfSome result (λ p. length p.1.now < length text.now) }
    ensures unit { IfSome result (λ p. BeginsWithUnit text.now p.0 p.1.now) }
{
    match text {
        [b' ', name @ ..] => split_name(name),
        _ => split_name(text),
    }
}

impl PartUnit {
    /// Returns a number of the unit in seconds, or `None` on overflow.
    fn in_seconds(self, number: Number) -> Option<Number>
        ensures { IfSome result (λ n. n ≡ in_seconds number self) }
    {
        let (seconds, decimals) = match self {
            PartUnit::Hours => (3600, 0),
            PartUnit::Minutes => (60, 0),
            PartUnit::Of(unit) => (1, unit.decimals()),
        };
        Some(Number {
            digits: number.digits.checked_mul(seconds)?,
            decimals: number.decimals.checked_add(decimals)?,
        })
    }
}

/// Returns the sum of two numbers, with the decimals of the one that has more, or `None` on
/// overflow.
fn sum_of(one: Number, other: Number) -> Option<Number>
    ensures { IfSome result (λ n. n ≡ sum_of one other) }
{
    let decimals = one.decimals.max(other.decimals);
    let first = 10u64.checked_pow(decimals - one.decimals)?;
    let second = 10u64.checked_pow(decimals - other.decimals)?;
    Some(Number {
        digits: one
            .digits
            .checked_mul(first)?
            .checked_add(other.digits.checked_mul(second)?)?,
        decimals,
    })
}

/// Parses the part that a text begins with, a number and its unit. Returns it in seconds, with the
/// rest.
fn first_part(text: &[u8]) -> Option<(Number, &[u8])>
    ensures length { IfSome result (λ p. length p.1.now < length text.now) }
    ensures part { IfSome result (λ p. BeginsWithPart text.now p.0 p.1.now) }
{
    let (number, rest) = plain_start(text)?;
    let (unit, rest) = split_unit(rest)?;
    Some((unit.in_seconds(number)?, rest))
}

/// Adds the parts of a text to a number of seconds. Returns `None` if it has more than `most`, or
/// on overflow.
fn add_parts(seconds: Number, text: &[u8], most: u32) -> Option<Number>
    ensures { IfSome result (λ n. (parts : List Number)
        × AreParts text.now parts × (n ≡ sum_after seconds parts)) }
{
    if text.is_empty() {
        return Some(seconds);
    }
    if most == 0 {
        return None;
    }
    let (part, rest) = first_part(text)?;
    add_parts(sum_of(seconds, part)?, rest, most - 1)
}

/// Parses a duration such as `12.3ms`, `12.3 ms` or `1h2m3s`, and returns it in seconds. Returns `None` for
/// another text, one of more than `MOST_PARTS` parts, and on overflow.
fn seconds_of(text: &[u8]) -> Option<Number>
    ensures { IfSome result (λ n. (first : Number) × (parts : List Number)
        × AreParts text.now (first ∷ parts) × (n ≡ sum_after first parts)) }
{
    let (first, rest) = first_part(text)?;
    add_parts(first, rest, MOST_PARTS - 1)
}

/// Whether a text is a duration.
pub(crate) fn is_duration(text: &[u8]) -> bool {
    seconds_of(text).is_some()
}

/// Parses a duration such as `12.3ms`, `12.3 ms` or `1h2m3s`, and returns it in a unit. Returns `None` for
/// another text, one of more than `MOST_PARTS` parts, and on overflow.
pub(crate) fn parse_duration(text: &[u8], unit: Unit) -> Option<Number>
    ensures { IfSome result (λ n. IsDuration text.now n unit) }
{
    in_unit(seconds_of(text)?, Unit::Seconds, unit)
}
