//! Texts of decimal numbers, with signs and exponents.

ghost use Rattle.std.specs.Prelude.{◌≡◌, ◌+◌, ◌*◌, ◌^◌, ◌<◌, ◌≤◌, ◌-◌, min, ◌||◌, ◌&&◌, not, ◌++◌, ◌==◌, true, false, pos, ◌+ℤ◌, if◌then◌else◌, nat_lt, unsigned_abs, length};
ghost use Rattle.std.specs.Prelude.{Some, None, SomeIff, OnSome, IfSome, IfNone, IfOk, IfErr, position, option_map};
ghost use Rattle.std.specs.Str.Parse.{digits_value, starts_with_minus, without_leading_sign};
ghost use Rattle.hdr_log.specs.Parts.{is_digits};
ghost use Rattle.std.specs.List.{before_first, after_first, list_all};
ghost use Rattle.std.specs.Char.{is_ascii_digit};
ghost use Rattle.hdr_input.specs.declared.number.Number.{Number};
ghost use Rattle.hdr_input.specs.Decimals.{is_point, decimal_of, HasDigitsOf, with_digit, with_digits};
ghost use Rattle.hdr_input.specs.Decimals.{is_e, after_e, exponent_in, integer_of, limited, number_of, times_power, StandsFor};
ghost use Rattle.hdr_input.specs.Decimals.{IsText, IsTextError};

use crate::cause::Cause;
use crate::number::Number;
use crate::text::cause_of;
use crate::wide::Wide;
use hdr_log::parts::number;

/// The greatest exponent that is distinguished from greater ones.
const GREATEST_EXPONENT: u64 = 1_000_000_000;

/// Returns a number with one more digit at its end, or `None` on overflow.
fn longer(digits: u128, digit: u8) -> Option<u128>
    ensures { SomeIff result (digits * 10 + digit < 2 ^ 128) (digits * 10 + digit) }
{
    digits.checked_mul(10)?.checked_add(u128::from(digit))
}

/// Returns an exponent, one greater if `is_greater`.
fn raised(exponent: i64, is_greater: bool) -> i64
    ensures bound { unsigned_abs result ≤ unsigned_abs exponent + 1 }
    ensures value { unsigned_abs exponent < 2 ^ 62
        → result ≡ exponent +ℤ pos (if is_greater then 1 else 0) }
{
    exponent.saturating_add(i64::from(is_greater))
}

/// Returns an exponent, one less if `is_less`.
fn lowered(exponent: i64, is_less: bool) -> i64
    ensures bound { unsigned_abs result ≤ unsigned_abs exponent + 1 }
    ensures value { unsigned_abs exponent < 2 ^ 62
        → exponent ≡ result +ℤ pos (if is_less then 1 else 0) }
{
    exponent.saturating_sub(i64::from(is_less))
}

/// Whether a digit that was cut is not 0, after one more.
fn is_cut_after(is_cut: bool, digit: u8) -> bool
    ensures { result ≡ (is_cut || nat_lt 0 digit) }
{
    is_cut || digit > 0
}

/// Cuts a digit that does not fit.
fn without_digit(number: Wide, digit: u8, is_fraction: bool) -> Wide
    requires { digit < 10 }
    ensures bound { unsigned_abs result.exponent ≤ unsigned_abs number.exponent + 1 }
    ensures value { unsigned_abs number.exponent < 2 ^ 62 → 2 ^ 124 ≤ number.digits → (x : Number)
        → HasDigitsOf number x → HasDigitsOf result (with_digit x digit is_fraction) }
{
    Wide {
        exponent: raised(number.exponent, !is_fraction),
        is_full: true,
        is_cut: is_cut_after(number.is_cut, digit),
        ..number
    }
}

/// Appends a digit to a number.
fn with_digit(number: Wide, digit: u8, is_fraction: bool) -> Wide
    requires { digit < 10 }
    ensures bound { unsigned_abs result.exponent ≤ unsigned_abs number.exponent + 1 }
    ensures value { unsigned_abs number.exponent < 2 ^ 62 → (x : Number)
        → HasDigitsOf number x → HasDigitsOf result (with_digit x digit is_fraction) }
{
    match longer(number.digits, digit) {
        Some(digits) if !number.is_full => Wide {
            digits,
            exponent: lowered(number.exponent, is_fraction),
            ..number
        },
        _ => without_digit(number, digit, is_fraction),
    }
}

/// Appends the digits of a text to a number. Returns `None` for any other byte.
fn with_digits(start: Wide, text: &[u8], is_fraction: bool) -> Option<Wide>
    ensures none { IfNone result (list_all is_ascii_digit text.now ≡ false) }
    ensures some { OnSome result (list_all is_ascii_digit text.now ≡ true) }
    ensures bound { IfSome result
        (λ w. unsigned_abs w.exponent ≤ unsigned_abs start.exponent + length text.now) }
    ensures value { IfSome result (λ w. unsigned_abs start.exponent + length text.now < 2 ^ 62
        → (x : Number) → HasDigitsOf start x → HasDigitsOf w (with_digits x text.now is_fraction)) }
{
    let mut number = start;
    for byte in text {
        let digit = *byte;
        if !digit.is_ascii_digit() {
            return None;
        }
        number = with_digit(number, digit - b'0', is_fraction);
    }
    Some(number)
}

/// Returns the index of the first point of a text.
fn point(text: &[u8]) -> Option<usize>
    ensures { result ≡ position is_point text.now }
{
    text.iter().position(|b| *b == b'.')
}

/// Splits a text at its first point, which is in neither part.
#[tactic(auto, using(crate::proofs::FirstBytes::before_some, crate::proofs::FirstBytes::after_some, crate::proofs::FirstBytes::before_none, crate::proofs::FirstBytes::after_none))]
fn split_at_point(text: &[u8]) -> (&[u8], &[u8])
    ensures before { result.0.now ≡ before_first is_point text.now }
    ensures after { result.1.now ≡ after_first is_point text.now }
    ensures length { length result.0.now + length result.1.now ≤ length text.now }
{
    match point(text) {
        Some(at) => (&text[..at], &text[at + 1..]),
        None => (text, &text[text.len()..]),
    }
}

/// Whether two parts of a text are both empty.
fn are_empty(whole: &[u8], fraction: &[u8]) -> bool
    ensures { result ≡ (length (whole.now ++ fraction.now) == 0) }
{
    whole.is_empty() && fraction.is_empty()
}

/// Parses a number without sign and exponent, such as `12`, `0.50` or `.5`.
fn mantissa(text: &[u8]) -> Option<Wide>
    ensures none { IfNone result (decimal_of text.now ≡ None) }
    ensures bound { IfSome result (λ w. unsigned_abs w.exponent ≤ length text.now) }
    ensures value { IfSome result (λ w. (x : Number) × (decimal_of text.now ≡ Some x)
        × (length text.now < 2 ^ 62 → HasDigitsOf w x)) }
{
    let (whole, fraction) = split_at_point(text);
    if are_empty(whole, fraction) {
        return None;
    }
    let zero = Wide {
        digits: 0,
        exponent: 0,
        is_full: false,
        is_cut: false,
    };
    let number = with_digits(zero, whole, false)?;
    with_digits(number, fraction, true)
}

/// Splits a text after its sign, if it has one. Returns whether that is `-`, and the rest.
pub(crate) fn split_sign(text: &[u8]) -> (bool, &[u8])
    ensures sign { result.0 ≡ starts_with_minus text.now }
    ensures rest { result.1.now ≡ without_leading_sign text.now }
    ensures length { length result.1.now ≤ length text.now }
{
    match text {
        [b'-', rest @ ..] => (true, rest),
        [b'+', rest @ ..] => (false, rest),
        _ => (false, text),
    }
}

/// Whether each byte is a digit.
fn has_only_digits(text: &[u8]) -> bool
    ensures { result ≡ list_all is_ascii_digit text.now }
{
    text.iter().all(|digit| digit.is_ascii_digit())
}

/// Whether a text is one digit or more.
fn is_digits(text: &[u8]) -> bool
    ensures { result ≡ is_digits text.now }
{
    !text.is_empty() && has_only_digits(text)
}

/// Returns the value of digits, or `GREATEST_EXPONENT` if it is greater.
#[tactic(auto, unfolding(hdr_log::specs::Parts::number_of))]
fn magnitude(digits: &[u8]) -> u64
    ensures value { is_digits digits.now ≡ true
        → result ≡ min (digits_value 10 digits.now) GREATEST_EXPONENT }
    ensures bound { result ≤ GREATEST_EXPONENT }
{
    number(digits)
        .unwrap_or(GREATEST_EXPONENT)
        .min(GREATEST_EXPONENT)
}

/// Parses an exponent such as `5` or `-05`. A greater one than `GREATEST_EXPONENT` is lowered to
/// it.
fn exponent(text: &[u8]) -> Option<i64>
    ensures value { result ≡ option_map limited (integer_of text.now) }
    ensures bound { IfSome result (λ e. unsigned_abs e ≤ GREATEST_EXPONENT) }
{
    let (is_negative, digits) = split_sign(text);
    if !is_digits(digits) {
        return None;
    }
    let value = magnitude(digits) as i64;
    Some(if is_negative { -value } else { value })
}

/// Returns the index of the first `e` or `E` of a text.
fn position_of_e(text: &[u8]) -> Option<usize>
    ensures { result ≡ position is_e text.now }
{
    text.iter().position(|b| *b == b'e' || *b == b'E')
}

/// Splits a text at its first `e` or `E`, if it has one, which is in neither part.
#[tactic(auto, using(crate::proofs::FirstBytes::before_some, crate::proofs::FirstBytes::before_none, crate::proofs::FirstBytes::rest_some, crate::proofs::FirstBytes::rest_none))]
fn split_at_e(text: &[u8]) -> (&[u8], Option<&[u8]>)
    ensures before { result.0.now ≡ before_first is_e text.now }
    ensures after { option_map (λ rest. rest.now) result.1 ≡ after_e text.now }
    ensures length { length result.0.now ≤ length text.now }
{
    match position_of_e(text) {
        Some(at) => (&text[..at], Some(&text[at + 1..])),
        None => (text, None),
    }
}

/// Parses the exponent after an `e`. It is 0 without one.
fn exponent_after(rest: Option<&[u8]>) -> Option<i64>
    ensures value { result ≡ option_map limited (exponent_in (option_map (λ rest. rest.now) rest.entry)) }
    ensures bound { IfSome result (λ e. unsigned_abs e ≤ GREATEST_EXPONENT) }
{
    match rest {
        Some(text) => exponent(text),
        None => Some(0),
    }
}

/// Returns the sum of two exponents, saturated.
fn sum_of(exponent: i64, other: i64) -> i64
    ensures { unsigned_abs exponent < 2 ^ 62 → unsigned_abs other ≤ GREATEST_EXPONENT
        → result ≡ exponent +ℤ other }
{
    exponent.saturating_add(other)
}

/// Multiplies a number by 10 to a power.
fn times_power(number: Wide, exponent: i64) -> Wide
    ensures { unsigned_abs number.exponent < 2 ^ 62 → unsigned_abs exponent ≤ GREATEST_EXPONENT
        → (x : Number) → HasDigitsOf number x → StandsFor result (times_power x exponent) }
{
    Wide {
        exponent: sum_of(number.exponent, exponent),
        ..number
    }
}

/// Parses a number without sign, such as `12`, `0.50` or `1.5e-05`.
fn parse_wide(text: &[u8]) -> Option<Wide>
    ensures none { IfNone result (number_of text.now ≡ None) }
    ensures value { IfSome result (λ w. (x : Number) × (number_of text.now ≡ Some x)
        × (length text.now < 2 ^ 62 → StandsFor w x)) }
{
    let (decimal, rest) = split_at_e(text);
    let number = mantissa(decimal)?;
    let exponent = exponent_after(rest)?;
    Some(times_power(number, exponent))
}

/// Whether a number after a sign is below 0.
fn is_below_zero(is_negative: bool, number: Wide) -> bool
    ensures { result ≡ (is_negative && not (number.digits == 0)) }
{
    is_negative && !number.is_zero()
}

/// Parses a number such as `12`, `+0.50` or `1.5e-05`.
///
/// # Errors
/// Returns `Negative` for a number below 0, and `cause_of` another text.
pub(crate) fn parse_unsigned(text: &[u8]) -> Result<Wide, Cause>
    ensures value { length text.now < 2 ^ 62
        → IfOk result (λ w. (x : Number) × IsText text.now x × StandsFor w x) }
    ensures errors { length text.now < 2 ^ 62 → IfErr result (IsTextError text.now) }
{
    let (is_negative, digits) = split_sign(text);
    let Some(number) = parse_wide(digits) else {
        return Err(cause_of(text));
    };
    if is_below_zero(is_negative, number) {
        return Err(Cause::Negative);
    }
    Ok(number)
}
