//! Powers of any length, by their digits to the base 2^64, the lowest first.

ghost use Rattle.std.specs.Prelude.{◌≡◌, ◌≤◌, ◌+◌, ◌*◌, ◌^◌, ◌↔◌, IfOk, IsTrue, length};
ghost use Rattle.hdr_draw.specs.Rows.{number};

use std::alloc::{AllocError, Global};

const BASE: u128 = 1 << 64;

/// Returns the two digits of a digit times a factor, plus a carry.
fn times_digit(digit: u64, factor: u64, carry: u64) -> (u64, u64)
    ensures { result.0 + 18446744073709551616 * result.1 ≡ digit * factor + carry }
{
    let wide = u128::from(digit) * u128::from(factor) + u128::from(carry);
    ((wide % BASE) as u64, (wide / BASE) as u64)
}

/// Returns the digits of a number times a factor: one more.
fn times(alloc: Global, digits: &[u64], factor: u64) -> Result<Vec<u64>, AllocError>
    ensures value { IfOk result (λ v. number v.items ≡ number digits.now * factor) }
    ensures len { IfOk result (λ v. length v.items ≡ length digits.now + 1) }
{
    let mut product = Vec::with_capacity(alloc, digits.len() + 1)?;
    let mut carry = 0;
    for digit in digits {
        let (low, high) = times_digit(*digit, factor, carry);
        product.push(low)?;
        carry = high;
    }
    product.push(carry)?;
    Ok(product)
}

/// Returns the digits of a number times a power.
pub(crate) fn times_power(
    alloc: Global,
    digits: Vec<u64>,
    base: u64,
    exponent: usize,
) -> Result<Vec<u64>, AllocError>
    ensures value { IfOk result (λ v. number v.items ≡ number digits.items * base ^ exponent) }
    ensures len { IfOk result (λ v. length v.items ≡ length digits.items + exponent) }
{
    let mut product = digits;
    for power in 0..exponent {
        product = times(alloc, &product, base)?;
    }
    Ok(product)
}

/// Whether a number is at least another with as many digits.
pub(crate) fn is_at_least(digits: &[u64], others: &[u64]) -> bool
    requires { length digits.now ≡ length others.now }
    ensures { IsTrue result ↔ number others.now ≤ number digits.now }
{
    let mut is_at_least = true;
    for index in 0..digits.len() {
        if digits[index] != others[index] {
            is_at_least = digits[index] > others[index];
        }
    }
    is_at_least
}
