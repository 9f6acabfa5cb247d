//! The items of the iterators over a histogram.

ghost use Rattle.std.specs.Prelude.{◌≡◌, ◌*◌, ◌^◌, ◌<◌};
ghost use Rattle.std.proofs.Common.{rules};
ghost use Rattle.std.specs.Cmp.Rules.{comparing};
ghost use Rattle.hdr_base.specs.Items.{same_item, same_ratio};

use crate::counter::Counter;
use crate::fraction::Fraction;
use std::marker::Model;

/// One step of an iterator over a histogram: the value iterated to, and the samples counted up to its bin.
#[derive(Debug, Drop)]
pub struct IterationValue<T: Counter> {
    value: u64,
    quantile: Fraction,
    tick: Fraction,
    count_at: T,
    count_since: u64,
}

impl<T: Counter> Model for IterationValue<T> {
    ghost use Rattle.std.specs.Prelude.{◌^◌, ◌<◌};
    ghost use Rattle.hdr_base.specs.Items.{Item};

    ghost Value = { Item };

    ghost view = { λ v. record { value = v.value; quantile = v.quantile; tick = v.tick; count = T.number v.count_at; since = v.count_since } };

    ghost invariant = { λ v. v.quantile.num < 2 ^ 64 };
}

impl<T: Counter> IterationValue<T> {
    /// Returns a step at `value`. `quantile` is the quantile of the value's bin, and its numerator is below 2^64; `tick` is the
    /// quantile iterated to, `count_at` the bin's counter, and `count_since` the number of samples since the previous step.
    pub fn new(
        value: u64,
        quantile: Fraction,
        tick: Fraction,
        count_at: T,
        count_since: u64,
    ) -> IterationValue<T>
        requires { quantile.num < 2 ^ 64 }
        ensures { result ≡ record {
          value = value;
          quantile = quantile;
          tick = tick;
          count = T.number count_at;
          since = count_since;
        } }
    {
        IterationValue {
            value,
            quantile,
            tick,
            count_at,
            count_since,
        }
    }

    /// The value iterated to: a level, or the greatest value of a class.
    pub fn value_iterated_to(&self) -> u64
        ensures { result ≡ self.now.value }
    {
        self.value
    }

    /// The quantile of this bin: the fraction of all samples that lie in bins up to this one. 0/0 in an empty histogram.
    pub fn quantile(&self) -> Fraction
        ensures value { result ≡ self.now.quantile }
        ensures fits { result.num < 2 ^ 64 }
    {
        self.quantile
    }

    /// 100 times `quantile`.
    pub fn percentile(&self) -> Fraction
        ensures { result
            ≡ record { num = self.now.quantile.num * 100; den = self.now.quantile.den } }
    {
        Fraction::new(self.quantile.num * 100, self.quantile.den)
    }

    /// The quantile iterated to, if the iterator steps by quantiles; otherwise the same as `quantile`.
    pub fn quantile_iterated_to(&self) -> Fraction
        ensures { result ≡ self.now.tick }
    {
        self.tick
    }

    /// The counter of this bin.
    pub fn count_at_value(&self) -> T
        ensures { T.number result ≡ self.now.count }
    {
        self.count_at
    }

    /// The number of samples since the previous step, at most `u64::MAX`.
    pub fn count_since_last_iteration(&self) -> u64
        ensures { result ≡ self.now.since }
    {
        self.count_since
    }
}

impl<T: Counter> PartialEq for IterationValue<T> {
    ghost eq = { same_item };

    ghost laws = { Prim.search (comparing, rules) depth 9 };

    fn eq(&self, other: &IterationValue<T>) -> bool {
        self.value == other.value
            && self.quantile == other.quantile
            && self.tick == other.tick
            && self.count_at.as_u64() == other.count_at.as_u64()
            && self.count_since == other.count_since
    }
}
