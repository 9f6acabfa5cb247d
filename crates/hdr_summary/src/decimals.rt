//! Integers and fractions as decimal texts.

ghost use Rattle.std.specs.Prelude.{◌≡◌, ◌<◌, ◌≤◌, ◌+◌, ◌-◌, ◌*◌, ◌/◌, ◌^◌, min, IfNone, IfSome};
ghost use Rattle.hdr_summary.specs.Decimals.{nearest};
ghost use Rattle.hdr_summary.specs.Units.{Converts};

use hdr_input::units::Unit;
use std::alloc::{AllocError, Global};

/// Returns an integer of units as a decimal. A unit is one of the last of `decimals`.
pub fn decimal(alloc: Global, units: u128, decimals: u32) -> Result<String, AllocError> {
    let mut digits = format!(in alloc; "{units}")?;
    let decimals = decimals as usize;
    if decimals == 0 {
        return Ok(digits);
    }
    for _ in digits.len()..=decimals {
        digits.insert(0, '0')?;
    }
    let at = digits.len().saturating_sub(decimals);
    match digits.as_str().split_at_checked(at) {
        Some((whole, part)) => format!(in alloc; "{whole}.{part}"),
        None => Ok(digits),
    }
}

/// Returns `num * parts / den` to the nearest integer, halves up, or `None` if `den` is 0 or the
/// product overflows.
pub fn in_parts(num: u128, den: u128, parts: u128) -> Option<u128>
    ensures nearest { IfSome result (λ n. n ≡ nearest num den parts) }
    ensures fits { IfNone result (0 < den → 2 ^ 128 ≤ num * parts + den / 2) }
{
    num.checked_mul(parts)?
        .checked_add(den / 2)?
        .checked_div(den)
}

/// Returns a decimal without the zeros at the end of its fraction, and without a point at its end.
pub fn without_zeros(decimal: &str) -> &str {
    if !decimal.contains('.') {
        return decimal;
    }
    decimal.trim_end_matches('0').trim_end_matches('.')
}

/// Converts values from the unit of the input to that of the output.
#[derive(Clone, Copy)]
pub struct Conversion {
    /// The power of ten that values are multiplied by, and the one that they are divided by.
    times: u32,
    divided: u32,
}

impl Conversion {
    /// Values stay as they are.
    pub const NONE: Conversion = Conversion {
        times: 0,
        divided: 0,
    };

    /// Returns the conversion from a unit to another.
    pub fn new(from: Unit, to: Unit) -> Conversion
        ensures { Converts result from to }
    {
        let from = from.decimals();
        let to = to.decimals();
        Conversion {
            times: to.saturating_sub(from),
            divided: from.saturating_sub(to),
        }
    }

    /// Returns the decimals of a value that has these, after it is converted.
    pub fn decimals(self, decimals: u32) -> u32
        ensures { result ≡ min (decimals - self.times + self.divided) (2 ^ 32 - 1) }
    {
        decimals
            .saturating_sub(self.times)
            .saturating_add(self.divided)
    }

    /// Returns what units are multiplied by, so that they are units of the converted decimals, or
    /// `None` on overflow.
    pub fn factor(self, decimals: u32) -> Option<u128>
        ensures factor { IfSome result (λ factor. factor ≡ 10 ^ (self.times - decimals)) }
        ensures overflow { IfNone result (2 ^ 128 ≤ 10 ^ (self.times - decimals)) }
    {
        10u128.checked_pow(self.times.saturating_sub(decimals))
    }

    /// Returns a converted value as a decimal. On overflow it is `-`.
    pub fn decimal(self, alloc: Global, units: u128, decimals: u32) -> Result<String, AllocError> {
        let factor = self.factor(decimals);
        match factor.and_then(|factor| units.checked_mul(factor)) {
            Some(units) => decimal(alloc, units, self.decimals(decimals)),
            None => String::from_str(alloc, "-"),
        }
    }
}
