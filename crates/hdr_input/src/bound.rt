//! Bounds of numbers, and the order of numbers of any decimals.

ghost use Rattle.std.specs.Prelude.{◌≡◌, ◌≤◌, ◌<◌, ◌+◌, ◌*◌, ◌/◌, ◌%◌, ◌^◌, min};
ghost use Rattle.hdr_input.specs.Bounds.{position_of, end_of, IsMost};

use crate::distribution::MOST_DECIMALS;
use crate::number::Number;

/// A bound of numbers, of at most `MOST_DECIMALS` decimals. Those below it are within it, and it is
/// too if it is included.
#[derive(Clone, Copy)]
pub struct Bound {
    pub number: Number,
    pub is_included: bool,
}

/// 10 to the power of the decimals of a position.
const POSITION: u128 = 1_000_000_000_000_000_000;

/// Returns twice a quotient, rounded down, and one more if it is not exact.
fn position_of_quotient(dividend: u128, divisor: u128) -> u128
    requires some { 0 < divisor }
    requires small { dividend < 2 ^ 126 }
    ensures { result ≡ 2 * (dividend / divisor) + min 1 (dividend % divisor) }
{
    dividend / divisor * 2 + (dividend % divisor).min(1)
}

impl Number {
    /// Returns the position of the number: twice its value in units of 10^-18, rounded down, and
    /// one more if it is above that.
    pub(crate) fn position(self) -> u128
        ensures value { result ≡ position_of self }
        ensures bound { result < 2 ^ 127 }
    {
        let dividend = u128::from(self.digits) * POSITION;
        match 10u128.checked_pow(self.decimals) {
            Some(divisor) => position_of_quotient(dividend, divisor),
            None => dividend.min(1),
        }
    }
}

impl Bound {
    /// Returns the greatest number of units within the bound, as far as 64 bits hold it, or `None`
    /// if none is. A unit is one of the last of `decimals`.
    #[tactic(auto, using(crate::proofs::InUnits::positive))]
    pub fn most(self, decimals: u32) -> Option<u64>
        ensures { decimals ≤ 18 → self.number.decimals ≤ 18 → IsMost self decimals result }
    {
        let level = u128::from(self.number.digits) * 10u128.pow(decimals.min(MOST_DECIMALS));
        let within = if self.is_included {
            level
        } else {
            level.checked_sub(1)?
        };
        let most = within / 10u128.pow(self.number.decimals.min(MOST_DECIMALS));
        Some(most.min(u128::from(u64::MAX)) as u64)
    }

    /// Returns the least position that is not within the bound.
    #[tactic(auto, using(crate::proofs::Positions::within_before))]
    pub(crate) fn end(self) -> u128
        ensures { result ≡ end_of self }
    {
        self.number.position() + u128::from(self.is_included)
    }
}
