//! Texts of numbers, and why a text is none.

ghost use Rattle.hdr_input.specs.Decimals.{IsNoNumber};

use crate::cause::Cause;
use crate::durations::{is_duration, parse_duration};
use crate::number::Number;
use crate::units::Unit;
use crate::wide::{parse_unsigned, split_sign};

/// Returns why a text is not a number.
pub(crate) fn cause_of(text: &[u8]) -> Cause
    ensures { IsNoNumber result }
{
    match text {
        b"-" => Cause::Dash,
        _ if is_infinite(text) => Cause::Infinite,
        _ if has_comma(text) => Cause::Comma,
        _ if text.contains(&b' ') => Cause::Blank,
        _ => Cause::NotANumber,
    }
}

/// Whether a text is an infinite number, as programs print it.
fn is_infinite(text: &[u8]) -> bool {
    let (_, name) = split_sign(text);
    name.eq_ignore_ascii_case(b"inf") || name.eq_ignore_ascii_case(b"infinity")
}

/// Whether a text is digits with a comma between them, and perhaps a point.
fn has_comma(text: &[u8]) -> bool {
    text.contains(&b',')
        && text.first().is_some_and(|byte| byte.is_ascii_digit())
        && text.last().is_some_and(|byte| byte.is_ascii_digit())
        && text.iter().all(|byte| byte.is_ascii_digit() || matches!(*byte, b',' | b'.'))
}

/// Whether a text is a number or a duration, whatever it is recorded as.
pub(crate) fn is_number(text: &[u8]) -> bool {
    let (_, digits) = split_sign(text);
    match parse_unsigned(text) {
        Ok(_) | Err(Cause::Negative) => true,
        Err(_) => is_duration(digits),
    }
}

/// Parses a duration such as `12.3ms`, and returns it in the unit of the numbers.
///
/// # Errors
/// Returns `Duration` if that unit is not known, and `Negative` for a duration below 0. Returns
/// `None` if the text is not a duration.
pub(crate) fn duration(text: &[u8], unit: Option<Unit>) -> Option<Result<Number, Cause>> {
    let (is_negative, digits) = split_sign(text);
    if !is_duration(digits) {
        return None;
    }
    let Some(unit) = unit else {
        return Some(Err(Cause::Duration));
    };
    match parse_duration(digits, unit) {
        Some(number) if is_negative && number.digits > 0 => Some(Err(Cause::Negative)),
        Some(number) => Some(Ok(number)),
        None => Some(Err(Cause::TooLarge)),
    }
}
