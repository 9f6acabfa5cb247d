//! Decimal numbers, rounded to decimals.

ghost use Rattle.std.specs.Prelude.{◌≡◌, ◌+◌, ◌*◌, ◌^◌, ◌<◌, ◌≤◌, ◌-◌, ◌/◌, ◌%◌, min, true, false, pos, ◌+ℤ◌, if◌then◌else◌, nat_lt};
ghost use Rattle.std.specs.Prelude.{Some, None, SomeIff, OnSome, IfSome, IfNone, IfOk, IfErr};
ghost use Rattle.hdr_input.specs.declared.number.Number.{Number};
ghost use Rattle.hdr_input.specs.Decimals.{StandsFor};
ghost use Rattle.hdr_input.specs.Decimals.{IsNarrowed, IsNarrowError, decimals_of};
ghost use Rattle.hdr_input.specs.Rounding.{is_rounded};
ghost use Rattle.hdr_input.specs.Numbers.{in_units};
ghost use Rattle.hdr_input.specs.declared.cause.Cause.TheVariants.{TooLarge};

use crate::cause::Cause;
use crate::distribution::MOST_DECIMALS;
use crate::number::Number;
use crate::wide::{Wide, power_of_ten};

impl Wide {
    /// Returns the number rounded to `decimals`, or the exact number if that is `None`.
    pub(crate) fn narrowed(self, decimals: Option<u32>) -> Result<Number, Cause>
        ensures value { IfOk result (λ n. (x : Number) → StandsFor self x → IsNarrowed decimals x n) }
        ensures errors { IfErr result (λ cause. (x : Number) → StandsFor self x
            → IsNarrowError decimals x cause) }
    {
        match decimals {
            Some(decimals) => self.rounded(decimals),
            None => self.exact(),
        }
    }

    /// Returns the exact number. One with a fraction has the decimals of its text, 18 at most; a 0
    /// with more has 18.
    fn exact(self) -> Result<Number, Cause>
        ensures value { IfOk result (λ n. (x : Number) → StandsFor self x → IsNarrowed None x n) }
        ensures errors { IfErr result (λ cause. (x : Number) → StandsFor self x
            → IsNarrowError None x cause) }
    {
        let decimals = self.decimals();
        if decimals <= MOST_DECIMALS {
            self.rounded(decimals)
        } else if self.is_zero() {
            self.rounded(MOST_DECIMALS)
        } else {
            Err(Cause::TooManyDecimals)
        }
    }

    /// Returns how many decimals the number has.
    pub(crate) fn decimals(self) -> u32
        ensures { result ≡ min (decimals_of self.exponent) (2 ^ 32 - 1) }
    {
        let decimals = 0i64.saturating_sub(self.exponent).max(0);
        u32::try_from(decimals).unwrap_or(u32::MAX)
    }

    /// Returns how many digits the number has before its point, 0 if it is below 1.
    pub(crate) fn digits_before_point(self) -> u32 {
        let Some(power) = self.digits.checked_ilog10() else {
            return 0;
        };
        let digits = self.exponent.saturating_add(i64::from(power) + 1);
        u32::try_from(digits.max(0)).unwrap_or(u32::MAX)
    }

    /// Whether the number changes if it is rounded to `decimals`.
    pub fn is_rounded(self, decimals: u32) -> bool
        ensures { (x : Number) → StandsFor self x → in_units x.digits x.decimals decimals < 2 ^ 64
            → result ≡ is_rounded x decimals }
    {
        let power = self.power_in(decimals);
        if power >= 0 {
            return self.is_cut;
        }
        self.is_above(power.unsigned_abs())
    }

    /// Whether 10 to a power does not divide the digits.
    #[tactic(auto, using(crate::proofs::InUnits::positive, crate::proofs::Rounded::below_power))]
    pub(crate) fn has_rest(self, power: u128) -> bool
        ensures { result ≡ nat_lt 0 (self.digits % 10 ^ power) }
    {
        match power_of_ten(power) {
            Some(divisor) => self.digits % divisor > 0,
            None => !self.is_zero(),
        }
    }

    /// Returns the number rounded to `decimals`, halves up.
    pub fn rounded(self, decimals: u32) -> Result<Number, Cause>
        ensures decimals { IfOk result (λ n. n.decimals ≡ decimals) }
        ensures bound { IfOk result (λ n. n.digits < 2 ^ 64) }
        ensures value { IfOk result (λ n. (x : Number) → StandsFor self x
            → n.digits ≡ in_units x.digits x.decimals decimals) }
        ensures errors { IfErr result (λ cause. (cause ≡ TooLarge) × ((x : Number) → StandsFor self x
            → 2 ^ 64 ≤ in_units x.digits x.decimals decimals)) }
    {
        match self.units(decimals) {
            Some(digits) => Ok(Number { digits, decimals }),
            None => Err(Cause::TooLarge),
        }
    }

    /// Returns the power of ten that the digits are multiplied by in units of 10^-`decimals`.
    pub(crate) fn power_in(self, decimals: u32) -> i128
        ensures { result ≡ self.exponent +ℤ pos decimals }
    {
        i128::from(self.exponent) + i128::from(decimals)
    }

    /// Returns the number in units of 10^-`decimals`, halves rounded up, or `None` on overflow.
    fn units(self, decimals: u32) -> Option<u64>
        ensures value { IfSome result (λ units. (x : Number) → StandsFor self x
            → units ≡ in_units x.digits x.decimals decimals) }
        ensures overflow { IfNone result ((x : Number) → StandsFor self x
            → 2 ^ 64 ≤ in_units x.digits x.decimals decimals) }
    {
        let power = self.power_in(decimals);
        if power < 0 {
            return narrow(self.divided(power.unsigned_abs()));
        }
        narrow(self.multiplied(power.unsigned_abs())?)
    }

    /// Returns the digits times 10 to a power, or `None` on overflow.
    #[tactic(auto, using(crate::proofs::Rounded::product_beyond, crate::proofs::Rounded::at_least))]
    fn multiplied(self, power: u128) -> Option<u128>
        ensures value { IfSome result (λ units. units ≡ self.digits * 10 ^ power) }
        ensures exact { OnSome result (0 < self.digits → self.is_cut ≡ false) }
        ensures overflow { IfNone result ((self.is_cut ≡ true → 2 ^ 124 ≤ self.digits)
            → 2 ^ 64 ≤ self.digits * 10 ^ power) }
    {
        if self.is_zero() {
            return Some(0);
        }
        if self.is_cut {
            return None;
        }
        self.digits.checked_mul(power_of_ten(power)?)
    }

    /// Returns the digits divided by 10 to a power, halves rounded up. Digits are below 10^39, so a
    /// greater power leaves 0.
    #[tactic(auto, using(crate::proofs::Rounded::none_left, crate::proofs::InUnits::positive))]
    fn divided(self, power: u128) -> u128
        ensures { result ≡ (self.digits + 10 ^ power / 2) / 10 ^ power }
    {
        match power_of_ten(power) {
            Some(divisor) => rounded_quotient(self.digits, divisor),
            None => 0,
        }
    }
}

/// Returns an integer that 64 bits hold, or `None` on overflow.
fn narrow(units: u128) -> Option<u64>
    ensures { SomeIff result (units < 2 ^ 64) units }
{
    u64::try_from(units).ok()
}

/// Returns a quotient to the nearest integer, halves rounded up.
#[tactic(auto, using(crate::proofs::Rounded::quotient_up, crate::proofs::Rounded::quotient_down))]
fn rounded_quotient(dividend: u128, divisor: u128) -> u128
    requires { 0 < divisor }
    ensures { result ≡ (dividend + divisor / 2) / divisor }
{
    let whole = dividend / divisor;
    if dividend % divisor >= divisor - divisor / 2 {
        whole + 1
    } else {
        whole
    }
}
