//! Decimal numbers with more digits than are recorded, and with exponents.

mod parsing;
mod rounding;

ghost use Rattle.std.specs.Prelude.{◌≡◌, ◌+◌, ◌*◌, ◌^◌, ◌<◌, ◌-◌, ◌/◌, ◌%◌, min, ◌||◌, ◌==◌, false, if◌then◌else◌, nat_lt};
ghost use Rattle.std.specs.Prelude.{Some, None, SomeIff, position};
ghost use Rattle.hdr_input.specs.declared.number.Number.{Number};
ghost use Rattle.hdr_input.specs.Decimals.{StandsFor};
ghost use Rattle.hdr_input.specs.Bounds.{position_of};

use crate::distribution::MOST_DECIMALS;
use crate::number::Number;
pub(crate) use parsing::{parse_unsigned, split_sign};

/// The number digits * 10^exponent. If digits were cut, the number is greater by less than
/// 10^exponent.
#[derive(Clone, Copy)]
pub struct Wide {
    digits: u128,
    exponent: i64,
    /// Whether no more digits fit, and whether one that did not fit is not 0.
    is_full: bool,
    is_cut: bool,
}

/// Returns 10 to a power, or `None` on overflow.
#[tactic(auto, using(crate::proofs::Rounded::power_beyond))]
fn power_of_ten(exponent: u128) -> Option<u128>
    ensures { SomeIff result (10 ^ exponent < 2 ^ 128) (10 ^ exponent) }
{
    10u128.checked_pow(u32::try_from(exponent).ok()?)
}

impl Wide {
    /// Returns a number with as many digits as it has.
    pub(crate) fn of(number: Number) -> Wide
        ensures { StandsFor result number }
    {
        Wide {
            digits: u128::from(number.digits),
            exponent: -i64::from(number.decimals),
            is_full: false,
            is_cut: false,
        }
    }

    /// Whether the number is 0.
    fn is_zero(self) -> bool
        ensures { result ≡ (self.digits == 0) }
    {
        self.digits == 0
    }

    /// Returns the position of the number, as `Number::position`. One past 2^125 is past all bounds.
    pub(crate) fn position(self) -> u128
        ensures { (x : Number) → StandsFor self x
            → min result (2 ^ 125) ≡ min (position_of x) (2 ^ 125) }
    {
        let power = self.power_in(MOST_DECIMALS);
        if power < 0 {
            self.position_divided(power.unsigned_abs())
        } else {
            self.position_multiplied(power.unsigned_abs())
        }
    }

    /// Whether 10 to a power does not divide the number.
    fn is_above(self, power: u128) -> bool
        ensures { result ≡ (self.is_cut || nat_lt 0 (self.digits % 10 ^ power)) }
    {
        self.is_cut || self.has_rest(power)
    }

    /// Returns the position of the digits divided by 10 to a power.
    #[tactic(auto, using(crate::proofs::InUnits::positive, crate::proofs::Rounded::below_power, crate::proofs::WidePositions::few_left, crate::proofs::WidePositions::tenth))]
    fn position_divided(self, power: u128) -> u128
        ensures { 0 < power → result ≡ 2 * (self.digits / 10 ^ power)
            + (if self.is_cut || nat_lt 0 (self.digits % 10 ^ power) then 1 else 0) }
    {
        let is_above = self.is_above(power);
        match power_of_ten(power) {
            Some(divisor) => (self.digits / divisor)
                .saturating_mul(2)
                .saturating_add(u128::from(is_above)),
            None => u128::from(is_above),
        }
    }

    /// Returns the position of the digits times 10 to a power.
    #[tactic(auto, using(crate::proofs::WidePositions::great_product))]
    fn position_multiplied(self, power: u128) -> u128
        ensures zero { self.digits ≡ 0 → result ≡ 0 }
        ensures value { 0 < self.digits → min result (2 ^ 125)
            ≡ min (2 * (self.digits * 10 ^ power) + (if self.is_cut then 1 else 0)) (2 ^ 125) }
    {
        if self.is_zero() {
            return 0;
        }
        match power_of_ten(power) {
            Some(factor) => self
                .digits
                .saturating_mul(factor)
                .saturating_mul(2)
                .saturating_add(u128::from(self.is_cut)),
            None => u128::MAX >> 1,
        }
    }
}
