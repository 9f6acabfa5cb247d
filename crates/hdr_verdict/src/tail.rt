//! Tails: parts of samples, the greatest ones.

ghost use Rattle.std.specs.Prelude.{◌≡◌, ◌<◌, ◌*◌, ◌^◌, ◌==◌, ◌&&◌};

use hdrhistogram::Quantile;

/// The part `num / den` of samples that are the greatest.
#[derive(Clone, Copy)]
pub struct Tail {
    pub num: u64,
    pub den: u64,
    ghost proper: { num < den },
    ghost fits: { den < 2 ^ 63 },
}

impl Tail {
    ghost use Rattle.hdr_verdict.specs.Tails.{quantile_without};

    /// Returns the quantile that leaves out the tail.
    pub fn quantile(self) -> Quantile
        ensures value { result ≡ quantile_without self.num self.den }
        ensures some { 0 < result.num }
        ensures proper { 0 < result.den }
    {
        quantile(self.den - self.num, self.den)
    }

    /// Returns the quantile that leaves out half of the tail.
    pub fn half_quantile(self) -> Quantile
        ensures value { result ≡ quantile_without self.num (2 * self.den) }
        ensures some { 0 < result.num }
        ensures proper { 0 < result.den }
    {
        quantile(2 * self.den - self.num, 2 * self.den)
    }

    /// Whether two tails are the same.
    pub fn is(self, other: Tail) -> bool
        ensures { result ≡ ((self.num == other.num) && (self.den == other.den)) }
    {
        self.num == other.num && self.den == other.den
    }
}

/// Returns the quantile `num / den`.
fn quantile(num: u64, den: u64) -> Quantile
    requires { 0 < den }
    ensures { result ≡ record { num = num; den = den } }
{
    match Quantile::new(num, den) {
        Some(quantile) => quantile,
        None => unreachable!(),
    }
}
