//! Exact fractions of integers: quantiles, and the results of statistics.

ghost use Rattle.std.specs.Prelude.{◌≡◌, ◌<◌, ℕ, SomeIff};

use std::fmt;
use std::marker::Model;

/// A quantile as the exact fraction `num / den`, with `den` at least 1.
#[derive(Debug, PartialEq, Clone, Copy)]
pub struct Quantile {
    num: u64,
    den: u64,
}

impl Model for Quantile {
    ghost use Rattle.std.specs.Prelude.{◌<◌};
    ghost use Rattle.hdr_base.specs.Fractions.{Ratio};

    ghost Value = { Ratio };

    ghost view = { λ q. record { num = q.num; den = q.den } };

    ghost invariant = { λ q. 0 < q.den };

    ghost inverse = { λ r. record { num = r.num; den = r.den } };
}

impl Quantile {
    /// Returns the quantile `num / den`, or `None` if `den` is 0. Calls treat a quantile above 1 as 1.
    pub fn new(num: u64, den: u64) -> Option<Quantile>
        ensures { SomeIff result (0 < den) (record { num = num; den = den }) }
    {
        if den == 0 {
            return None;
        }
        Some(Quantile { num, den })
    }

    /// The numerator.
    pub fn num(self) -> u64
        ensures { result ≡ self.num }
    {
        self.num
    }

    /// The denominator, at least 1.
    pub fn den(self) -> u64
        ensures value { result ≡ self.den }
        ensures not_zero { 0 < self.den }
    {
        self.den
    }
}

/// The fraction `num / den` as computed. It is not reduced, and it is compared as a pair.
#[derive(Debug, PartialEq, Clone, Copy)]
pub struct Fraction {
    pub num: u128,
    pub den: u128,
}

impl Model for Fraction {
    ghost use Rattle.hdr_base.specs.Fractions.{Ratio};

    ghost Value = { Ratio };

    ghost view = { λ f. record { num = f.num; den = f.den } };

    ghost inverse = { λ r. record { num = r.num; den = r.den } };
}

impl Fraction {
    /// Returns the fraction `num / den`.
    pub fn new(num: u128, den: u128) -> Fraction
        ensures { result ≡ record { num = num; den = den } }
    {
        Fraction { num, den }
    }
}

/// Writes `num/den`.
impl fmt::Display for Fraction {
    ghost use Rattle.std.specs.Prelude.{Some};
    ghost use Rattle.hdr_base.specs.Fractions.{fraction_text};

    ghost output = { λ f. Some (fraction_text f) };

    fn fmt<W: fmt::Write>(&self, f: &mut fmt::Formatter<W>) -> fmt::Result {
        write!(f, "{}/{}", self.num, self.den)
    }
}
