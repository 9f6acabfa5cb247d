//! How far samples are from their mean.

ghost use Rattle.std.specs.Prelude.{◌≡◌, ◌-◌, ◌*◌, ◌^◌, ◌<◌, ◌≤◌, IfSome, MatchOption};
ghost use Rattle.hdr_model.specs.Plain.{resolution};
ghost use Rattle.hdr_model.specs.Deviation.{IsDeviation, squares_from};
ghost use Rattle.hdr_core.specs.Integers.{number_of};

use super::middle;
use super::u256::U256;
use crate::histogram::Histogram;
use hdr_base::{Counter, Fraction};

impl<T: Counter> Histogram<T> {
    /// Returns the standard deviation of the samples, each taken as the value in the middle of its
    /// class: the square root of the mean square of their distances from the mean, rounded down to a
    /// fraction over `len`. Returns 0/1 if `len` is 0. Returns `None` if `len` is `u64::MAX`, which
    /// may be a saturated total.
    pub fn standard_deviation(&self) -> Option<Fraction>
        ensures value { MatchOption result (self.now.total ≡ 2 ^ 64 - 1)
            (λ d. (self.now.total < 2 ^ 64 - 1) × IsDeviation self.now d) }
        ensures den { IfSome result (λ d. 0 < d.den) }
    {
        if self.total == u64::MAX {
            return None;
        }
        if self.total == 0 {
            return Some(Fraction { num: 0, den: 1 });
        }
        let sum = U256::square(self.weighed());
        let variance = self.squares().times(self.total).saturating_sub(sum);
        Some(Fraction::new(variance.root(), u128::from(self.total)))
    }

    /// Returns the sum of the counters, each times the square of the value in the middle of its
    /// class.
    fn squares(&self) -> U256
        requires { self.now.total < 2 ^ 64 - 1 }
        ensures sum { number_of result ≡ squares_from (resolution self.now) 0 self.now.counts }
        ensures below { number_of result < 2 ^ 192 }
    {
        let mut sum = U256::ZERO;
        let mut bin = self.counts.next_filled(0);
        while bin < self.counts.len() {
            let square = square_of(middle(self.scale, bin));
            sum = sum.plus_product(square, self.counts.get(bin).as_u64());
            bin = self.counts.next_filled(bin + 1);
        }
        sum
    }
}

/// Returns the square of a value.
fn square_of(value: u64) -> u128
    ensures { result ≡ value * value }
{
    u128::from(value) * u128::from(value)
}
