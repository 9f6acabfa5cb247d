//! Numbers as decimals, by whole numbers alone.

ghost use Rattle.std.specs.Prelude.{ℕ, List, ◌≡◌, ◌≤◌, ◌<◌, ◌+◌, ◌-◌, ◌*◌, ◌/◌, ◌%◌, ◌^◌, ◌++◌, IfSome, IfNone, OnOk, string_bytes};
ghost use Rattle.hdr_draw.specs.Numbers.{IsDecimalOf, IsNearest, decimal_text, exponent, grouped, last_digits};

use std::alloc::AllocError;

/// The most decimals of a number.
const MOST_DECIMALS: u32 = 9;

/// Returns `num * parts / den` to the nearest integer, halves to the even one. Returns `None` if
/// `den` is 0 or the product overflows.
pub fn in_parts(num: u128, den: u128, parts: u128) -> Option<u128>
    ensures nearest { IfSome result (λ n. IsNearest num den parts n) }
    ensures even { IfSome result (λ n. 2 * (num * parts % den) ≡ den → n % 2 ≡ 0) }
    ensures fits { IfNone result (0 < den → 2 ^ 128 ≤ num * parts + 1) }
{
    let product = num.checked_mul(parts)?;
    let below = product.checked_div(den)?;
    let rest = product % den;
    let is_above = rest > den - rest || (rest == den - rest && below % 2 == 1);
    if is_above {
        below.checked_add(1)
    } else {
        Some(below)
    }
}

/// Appends an integer, with a comma between groups of three digits.
pub fn push_grouped(text: &mut String, number: u64) -> Result<(), AllocError>
    ensures { OnOk result (string_bytes text.new ≡ string_bytes text.old ++ grouped number) }
{
    push_groups(text, u128::from(number))
}

/// Appends an integer of any size, with a comma between groups of three digits.
#[tactic(auto, unfolding(crate::specs::Numbers::grouped))]
fn push_groups(text: &mut String, number: u128) -> Result<(), AllocError>
    ensures { OnOk result (string_bytes text.new ≡ string_bytes text.old ++ grouped number) }
{
    if number < 1_000 {
        let group = number as u16;
        return write!(text, "{group}");
    }
    push_groups(text, number / 1_000)?;
    text.push_str(",")?;
    push_last_digits(text, number, 3)
}

/// Returns the digit of an integer at an index from its end.
fn digit_at(number: u128, index: u32) -> u8
    ensures is { result ≡ number / 10 ^ index % 10 }
    ensures within { result < 10 }
{
    match 10u128.checked_pow(index) {
        Some(power) => (number / power.max(1) % 10) as u8,
        None => 0,
    }
}

/// Appends the last digits of an integer.
fn push_last_digits(text: &mut String, number: u128, digits: u32) -> Result<(), AllocError>
    ensures { OnOk result (string_bytes text.new ≡ string_bytes text.old
        ++ last_digits digits number) }
{
    for index in 0..digits {
        let digit = digit_at(number, digits - 1 - index);
        write!(text, "{digit}")?;
    }
    Ok(())
}

/// A decimal: some tenths, hundredths or smaller parts.
#[derive(Clone, Copy)]
pub struct Decimal {
    pub parts: u128,
    pub decimals: u32,
}

impl Decimal {
    /// Returns a fraction with three significant digits but at most nine decimals, or as an integer
    /// from 99.95 on. If one more decimal would overflow, the decimals before it are returned.
    pub fn of_fraction(num: u128, den: u128) -> Decimal
        ensures nearest { 0 < den → num * 10 ^ 9 + 1 < 2 ^ 128
            → IsNearest num den (10 ^ result.decimals) result.parts }
        ensures few { result.decimals ≤ 9 }
        ensures even { 0 < den → num * 10 ^ 9 + 1 < 2 ^ 128
            → 2 * (num * 10 ^ result.decimals % den) ≡ den → result.parts % 2 ≡ 0 }
        ensures digits { 0 < den → num * 10 ^ 9 + 1 < 2 ^ 128
            → result.decimals < 9 → 1999 * den ≤ 20 * (num * 10 ^ result.decimals) }
        ensures at_most { 0 < den → num * 10 ^ 9 + 1 < 2 ^ 128
            → 0 < result.decimals → result.parts < 1000 }
    {
        let mut parts = in_parts(num, den, 1).unwrap_or(0);
        for decimals in 0..MOST_DECIMALS {
            let Some(longer) = in_parts(num, den, 10u128.pow(decimals + 1)) else {
                return Decimal { parts, decimals };
            };
            if longer >= 1_000 {
                return Decimal { parts, decimals };
            }
            parts = longer;
        }
        Decimal {
            parts,
            decimals: MOST_DECIMALS,
        }
    }

    /// Returns the decimal without zeros at its end.
    pub fn trimmed(self) -> Decimal
        ensures few { result.decimals ≤ self.decimals }
        ensures short { 0 < result.decimals → 0 < result.parts % 10 }
        ensures same { result.parts * 10 ^ (self.decimals - result.decimals) ≡ self.parts }
    {
        let mut decimal = self;
        for _ in 0..self.decimals {
            if decimal.parts % 10 != 0 || decimal.decimals == 0 {
                return decimal;
            }
            decimal.parts /= 10;
            decimal.decimals -= 1;
        }
        decimal
    }

    /// Returns the integer part of the decimal.
    fn whole(self) -> u128
        ensures { result ≡ self.parts / 10 ^ self.decimals }
    {
        match 10u128.checked_pow(self.decimals) {
            Some(one) => self.parts / one.max(1),
            None => 0,
        }
    }

    /// Appends the decimal.
    #[tactic(auto, unfolding(crate::specs::Numbers::decimal_text))]
    pub fn push(self, text: &mut String) -> Result<(), AllocError>
        ensures { OnOk result (string_bytes text.new ≡ string_bytes text.old
            ++ decimal_text self.parts self.decimals) }
    {
        if self.decimals == 0 {
            return push_groups(text, self.parts);
        }
        push_groups(text, self.whole())?;
        text.push_str(".")?;
        push_last_digits(text, self.parts, self.decimals)
    }
}

/// Returns a fraction of 1 or more as a decimal from 1 up to 10, times the power of ten of an
/// exponent. The exponent of a fraction below 1 is 0.
pub fn scientific(num: u128, den: u128) -> (Decimal, u32)
    ensures nearest { 0 < den → num * 10 ^ 9 + 1 < 2 ^ 128
        → IsNearest num (den * 10 ^ result.1) (10 ^ result.0.decimals) result.0.parts }
{
    let mut tens = den;
    let mut power = 0u32;
    for _ in 0..40u32 {
        let Some(longer) = tens.checked_mul(10) else {
            break;
        };
        if num.saturating_mul(10_000) < longer.saturating_mul(9_995) {
            break;
        }
        tens = longer;
        power += 1;
    }
    (Decimal::of_fraction(num, tens), power)
}

/// Appends an exponent of ten, unless it is 0.
#[tactic(auto, unfolding(crate::specs::Numbers::exponent))]
pub fn push_exponent(text: &mut String, power: u32) -> Result<(), AllocError>
    ensures { OnOk result (string_bytes text.new ≡ string_bytes text.old ++ exponent power) }
{
    if power == 0 {
        return Ok(());
    }
    write!(text, "e{power}")
}

/// Appends a fraction with three significant digits, or as an integer from 99.95 on. Zeros at the
/// end of its decimals are left out.
pub fn push_fraction(text: &mut String, num: u128, den: u128) -> Result<(), AllocError>
    requires some { 0 < den }
    requires fits { num * 10 ^ 9 + 1 < 2 ^ 128 }
    ensures { OnOk result ((added : List ℕ) × IsDecimalOf num den added
        × (string_bytes text.new ≡ string_bytes text.old ++ added)) }
{
    Decimal::of_fraction(num, den).trimmed().push(text)
}

/// Appends a number of samples in some milliseconds as a number for each second, and 0 if there is
/// no time.
pub fn push_rate(text: &mut String, samples: u64, milliseconds: u64) -> Result<(), AllocError>
    ensures { 0 < milliseconds → OnOk result ((added : List ℕ)
        × IsDecimalOf (samples * 1000) milliseconds added
        × (string_bytes text.new ≡ string_bytes text.old ++ added)) }
{
    if milliseconds == 0 {
        return text.push_str("0");
    }
    push_fraction(text, u128::from(samples) * 1_000, u128::from(milliseconds))
}
