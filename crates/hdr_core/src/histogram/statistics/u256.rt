//! Integers of 256 bits.

ghost use Rattle.std.specs.Prelude.{◌≡◌, ◌+◌, ◌-◌, ◌*◌, ◌^◌, ◌<◌, ◌≤◌, true, false};
ghost use Rattle.hdr_core.specs.Integers.{number_of};
ghost use Rattle.hdr_model.specs.Deviation.{IsRoot};

/// An integer of 256 bits: `high * 2^128 + low`.
#[derive(Clone, Copy)]
pub(super) struct U256 {
    high: u128,
    low: u128,
}

impl U256 {
    /// 0.
    pub(super) const ZERO: U256 = U256 { high: 0, low: 0 };

    /// Returns the square of an integer.
    pub(super) fn square(root: u128) -> U256
        ensures { number_of result ≡ root * root }
    {
        let (low, high) = root.carrying_mul(root, 0);
        U256 { high, low }
    }

    /// Returns this plus the product of two integers.
    pub(super) fn plus_product(self, a: u128, b: u64) -> U256
        requires { number_of self < 2 ^ 255 }
        ensures sum { number_of result ≡ number_of self + a * b }
        ensures at_most { number_of result ≤ number_of self + 2 ^ 128 * b }
    {
        let (low, carry) = a.carrying_mul(u128::from(b), self.low);
        U256 {
            high: self.high + carry,
            low,
        }
    }

    /// Returns this times an integer.
    pub(super) fn times(self, factor: u64) -> U256
        requires { number_of self < 2 ^ 192 }
        ensures { number_of result ≡ number_of self * factor }
    {
        let (low, carry) = self.low.carrying_mul(u128::from(factor), 0);
        U256 {
            high: self.high * u128::from(factor) + carry,
            low,
        }
    }

    /// Returns this less another, or 0 if the other is greater.
    pub(super) fn saturating_sub(self, other: U256) -> U256
        ensures { number_of result ≡ number_of self - number_of other }
    {
        let (low, borrow) = self.low.borrowing_sub(other.low, false);
        let (high, is_less) = self.high.borrowing_sub(other.high, borrow);
        if is_less {
            return U256::ZERO;
        }
        U256 { high, low }
    }

    /// Whether this is at most another.
    fn is_at_most(self, other: U256) -> bool
        ensures at_most { result ≡ true → number_of self ≤ number_of other }
        ensures above { result ≡ false → number_of other < number_of self }
    {
        if self.high == other.high {
            self.low <= other.low
        } else {
            self.high < other.high
        }
    }

    /// Returns the square root, rounded down.
    pub(super) fn root(self) -> u128
        ensures { IsRoot (number_of self) result }
    {
        if U256::square(u128::MAX).is_at_most(self) {
            return u128::MAX;
        }
        let mut low: u128 = 0;
        let mut high = u128::MAX;
        while low + 1 < high {
            let middle = low + (high - low) / 2;
            if U256::square(middle).is_at_most(self) {
                low = middle;
            } else {
                high = middle;
            }
        }
        low
    }
}
