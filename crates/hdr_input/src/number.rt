//! Decimal numbers, and their values in units.

ghost use Rattle.std.specs.Prelude.{◌≡◌, ◌+◌, ◌-◌, ◌*◌, ◌^◌, ◌<◌, ◌≤◌, ℕ, List, [], min, max, true, length, IfNone, IfSome, IfOk, IfErr, SomeIff};
ghost use Rattle.std.specs.Char.{is_ascii_digit, digit_value};
ghost use Rattle.hdr_input.specs.Rounding.{whole_of, is_rounded};
ghost use Rattle.hdr_input.specs.Decimals.{IsText, IsNarrowed, IsParseError};
ghost use Rattle.hdr_input.specs.Numbers.{in_units, BeginsWithDigits, BeginsWithNumber, EndsLine};

use crate::cause::Cause;
use crate::wide::parse_unsigned;

/// A decimal number: `12.50` is 1250 by 2 decimals.
#[derive(Debug, Clone, Copy, PartialEq, Eq)]
pub struct Number {
    pub digits: u64,
    pub decimals: u32,
}

/// Returns the value of a decimal digit, or `None` for any other byte.
#[inline(always)]
fn digit(byte: u8) -> Option<u64>
    ensures value { SomeIff result (is_ascii_digit byte ≡ true) (digit_value byte) }
    ensures bound { IfSome result (λ d. d < 10) }
{
    match byte {
        b'0'..=b'9' => Some(u64::from(byte - b'0')),
        _ => None,
    }
}

/// The most digits of a number whose line is parsed at once: each such number fits 64 bits.
const MOST_DIGITS: usize = 18;

/// Appends the digits that a text begins with to a number of `before` digits, and returns it with
/// the rest. Of more than `MOST_DIGITS`, one more is appended.
#[inline(always)]
fn first_digits(start: u64, before: usize, text: &[u8]) -> (u64, &[u8])
    requires few { before ≤ MOST_DIGITS }
    requires small { start < 10 ^ before }
    ensures length { length result.1.now ≤ length text.now }
    ensures value { BeginsWithDigits start text.now result.0 result.1.now }
    ensures small { result.0 < 10 ^ (before + (length text.now - length result.1.now)) }
{
    let mut value = start;
    let most = text.len().min(MOST_DIGITS + 1 - before);
    for at in 0..most {
        match digit(text[at]) {
            Some(digit) => value = value * 10 + digit,
            None => return (value, &text[at..]),
        }
    }
    (value, &text[most..])
}

/// Appends the digits that a text begins with to a number of `before` digits, and returns it with
/// the rest. Returns `None` if there are more than `MOST_DIGITS`.
#[inline(always)]
fn leading_digits(start: u64, before: usize, text: &[u8]) -> Option<(u64, &[u8])>
    requires few { before ≤ MOST_DIGITS }
    requires small { start < 10 ^ before }
    ensures length { IfSome result (λ p. length p.1.now ≤ length text.now) }
    ensures value { IfSome result (λ p. BeginsWithDigits start text.now p.0 p.1.now) }
    ensures small { IfSome result (λ p. p.0 < 10 ^ (before + (length text.now - length p.1.now))) }
    ensures few { IfSome result (λ p. before + length text.now ≤ MOST_DIGITS + length p.1.now) }
{
    let (value, rest) = first_digits(start, before, text);
    if text.len() - rest.len() > MOST_DIGITS - before {
        return None;
    }
    Some((value, rest))
}

/// Returns what follows an end of line, LF or CR LF, that a text begins with.
#[inline(always)]
fn after_line_end(text: &[u8]) -> Option<&[u8]>
    ensures length { IfSome result (λ after. length after.now < length text.now) }
    ensures value { IfSome result (λ after. EndsLine text.now after.now) }
{
    match text {
        [b'\n', after @ ..] => Some(after),
        [b'\r', b'\n', after @ ..] => Some(after),
        _ => None,
    }
}

/// Parses the number of the first line, if the line has digits with at most a point between them.
/// Returns it with what follows the line.
#[inline(always)]
pub(crate) fn plain_line(text: &[u8]) -> Option<(Number, &[u8])>
    ensures length { IfSome result (λ p. length p.1.now < length text.now) }
    ensures value { IfSome result (λ p. (end : List ℕ)
        × BeginsWithNumber text.now p.0.digits p.0.decimals end × EndsLine end p.1.now) }
{
    let (number, rest) = plain_start(text)?;
    Some((number, after_line_end(rest)?))
}

/// Parses a number that is digits with at most a point after the first or a later one.
pub(crate) fn plain_number(text: &[u8]) -> Option<Number>
    ensures { IfSome result (λ n. BeginsWithNumber text.now n.digits n.decimals []) }
{
    match plain_start(text)? {
        (number, []) => Some(number),
        _ => None,
    }
}

/// Parses the digits that a text begins with, with at most a point after the first or a later one.
/// Returns the number with the rest. Returns `None` if it has more than `MOST_DIGITS`.
#[inline(always)]
pub(crate) fn plain_start(text: &[u8]) -> Option<(Number, &[u8])>
    ensures length { IfSome result (λ p. length p.1.now < length text.now) }
    ensures value { IfSome result (λ p. BeginsWithNumber text.now p.0.digits p.0.decimals p.1.now) }
{
    let (digits, rest) = leading_digits(0, 0, text)?;
    let before = text.len() - rest.len();
    match rest {
        _ if before == 0 => None,
        [b'.', fraction @ ..] => {
            let (digits, rest) = leading_digits(digits, before, fraction)?;
            let decimals = (fraction.len() - rest.len()) as u32;
            Some((Number { digits, decimals }, rest))
        }
        _ => {
            let decimals = 0;
            Some((Number { digits, decimals }, rest))
        }
    }
}

impl Number {
    pub const ZERO: Number = Number {
        digits: 0,
        decimals: 0,
    };

    /// Parses a number such as `12`, `+0.50` or `1.5e-05`. It is rounded to `decimals`, or exact if
    /// that is `None`.
    ///
    /// # Errors
    /// Returns `NotANumber` or another cause for another text, and `Negative` for a number below 0.
    /// Returns `TooManyDecimals` if an exact number has more than 18, and `TooLarge` on overflow.
    pub fn parse(text: &[u8], decimals: Option<u32>) -> Result<Number, Cause>
        ensures value { length text.now < 2 ^ 62
            → IfOk result (λ n. (x : Number) × IsText text.now x × IsNarrowed decimals x n) }
        ensures errors { length text.now < 2 ^ 62 → IfErr result (IsParseError text.now decimals) }
    {
        parse_unsigned(text)?.narrowed(decimals)
    }

    /// Returns the number rounded down to an integer.
    #[tactic(auto, using(crate::proofs::InUnits::positive))]
    pub fn whole(self) -> u64
        ensures { result ≡ whole_of self }
    {
        match 10u64.checked_pow(self.decimals) {
            Some(divisor) => self.digits / divisor,
            None => 0,
        }
    }

    /// Whether the number changes if it is rounded to `decimals`.
    #[tactic(auto, using(crate::proofs::InUnits::positive))]
    pub fn is_rounded(self, decimals: u32) -> bool
        ensures { result ≡ is_rounded self decimals }
    {
        match 10u64.checked_pow(self.decimals.saturating_sub(decimals)) {
            Some(divisor) => self.digits % divisor > 0,
            None => self.digits > 0,
        }
    }

    /// Divides the number by 10 to the power of `times`. Returns `None` on overflow.
    pub fn divided_by_ten(self, times: u32) -> Option<Number>
        ensures digits { IfSome result (λ n. n.digits ≡ self.digits) }
        ensures decimals { IfSome result (λ n. n.decimals ≡ self.decimals + times) }
        ensures overflow { IfNone result (2 ^ 32 ≤ self.decimals + times) }
    {
        Some(Number {
            digits: self.digits,
            decimals: self.decimals.checked_add(times)?,
        })
    }

    /// Multiplies the number by 10 to the power of `times`. Returns `None` on overflow.
    pub fn times_ten(self, times: u32) -> Option<Number>
        ensures digits { IfSome result (λ n. n.digits
            ≡ self.digits * 10 ^ (times - min times self.decimals)) }
        ensures decimals { IfSome result (λ n. n.decimals
            ≡ self.decimals - min times self.decimals) }
        ensures overflow { IfNone result (2 ^ 64 ≤ max 1 self.digits * 10 ^ (times - min times self.decimals)) }
    {
        let fewer = times.min(self.decimals);
        let factor = 10u64.checked_pow(times - fewer)?;
        Some(Number {
            digits: self.digits.checked_mul(factor)?,
            decimals: self.decimals - fewer,
        })
    }

    /// Returns the number in units of the last of `decimals`, halves rounded up, or `None` on
    /// overflow.
    #[tactic(auto, using(crate::proofs::InUnits::positive))]
    pub fn rounded(self, decimals: u32) -> Option<u64>
        ensures units { IfSome result (λ units. units ≡ in_units self.digits self.decimals decimals) }
        ensures overflow { self.decimals ≤ 18 → decimals ≤ 18
            → IfNone result (2 ^ 64 ≤ in_units self.digits self.decimals decimals) }
    {
        let divisor = 10u128.checked_pow(self.decimals)?;
        let factor = 10u128.checked_pow(decimals)?;
        let units = u128::from(self.digits)
            .checked_mul(factor)?
            .checked_add(divisor / 2)?
            .checked_div(divisor)?;
        u64::try_from(units).ok()
    }
}
