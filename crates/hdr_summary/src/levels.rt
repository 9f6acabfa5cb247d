//! Levels that figures have to keep, such as `p99<=200ms`.

ghost use Rattle.std.specs.Prelude.{◌≡◌, ◌<◌, ◌≤◌, ◌*◌, ◌%◌, ◌^◌, ◌↔◌, ◌++◌, length, IfSome, IsTrue};
ghost use Rattle.hdr_summary.specs.LevelTexts.{IsLevelAmount, IsLevelText, IsMeasureName, sign_of};
ghost use Rattle.hdr_summary.specs.Levels.{IsOnSide, is_upper, bound_of};

use crate::percentile::parse_percentile;
use crate::units::{Unit, parse_amount, parse_amount_in};
use hdr_input::{Bound, Number};
use hdrhistogram::Quantile;

/// The figure of a level.
#[derive(Clone, Copy)]
pub enum Measure {
    Count,
    Min,
    Max,
    Mean,
    Quantile(Quantile),
}

/// On which side of a number a figure has to be.
#[derive(Clone, Copy)]
pub enum Side {
    Below,
    AtMost,
    Above,
    AtLeast,
}

/// A level, with its text.
#[derive(Clone, Copy)]
pub struct Level<'a> {
    pub text: &'a str,
    pub measure: Measure,
    pub side: Side,
    pub number: Number,
    ghost few: { number.decimals ≤ 18 },
}

/// Parses the name of a figure.
fn parse_measure(name: &str) -> Option<Measure>
    ensures { IfSome result (IsMeasureName name.now) }
{
    match name {
        "count" => Some(Measure::Count),
        "min" => Some(Measure::Min),
        "max" => Some(Measure::Max),
        "mean" => Some(Measure::Mean),
        _ => match parse_percentile(name) {
            Some(percentile) => Some(Measure::Quantile(percentile.quantile)),
            None => None,
        },
    }
}

/// Splits a level at its sign.
fn split_side(text: &str) -> Option<(&str, Side, &str)>
    ensures text { IfSome result (λ p. text.now ≡ p.0.now ++ (sign_of p.1 ++ p.2.now)) }
    ensures shorter { IfSome result (λ p. length p.2.now ≤ length text.now) }
{
    for side in [Side::AtMost, Side::AtLeast, Side::Below, Side::Above] {
        if let Some((name, number)) = text.split_once(side.sign()) {
            return Some((name, side, number));
        }
    }
    None
}

/// Parses the amount of a level, which has no unit if it is of a count.
fn level_amount(
    is_count: bool,
    text: &str,
    usual: Option<Unit>,
    unit: Option<Unit>,
) -> Option<Number>
    ensures amount { length text.now < 2 ^ 62 → IfSome result (IsLevelAmount is_count text.now usual unit) }
    ensures few { IfSome result (λ n. n.decimals ≤ 18) }
{
    if is_count {
        parse_amount(text, None)
    } else {
        parse_amount_in(text, usual, unit)
    }
}

/// Parses a level such as `p99<=200ms`. A unit of time is only valid if the input has one. A count
/// has none.
pub fn parse_level(text: &str, unit: Option<Unit>) -> Option<Level<'_>>
    ensures text { IfSome result (λ level. level.text.now ≡ text.now) }
    ensures level { length text.now < 2 ^ 62
        → IfSome result (λ level. IsLevelText text.now unit unit level.measure level.side level.number) }
{
    parse_level_in(text, unit, unit)
}

/// As `parse_level`. A level without a unit is in `usual`, if there is one.
pub fn parse_level_in(text: &str, usual: Option<Unit>, unit: Option<Unit>) -> Option<Level<'_>>
    ensures text { IfSome result (λ level. level.text.now ≡ text.now) }
    ensures level { length text.now < 2 ^ 62
        → IfSome result (λ level. IsLevelText text.now usual unit level.measure level.side level.number) }
{
    let (name, side, amount) = split_side(text)?;
    let measure = parse_measure(name)?;
    let is_count = matches!(measure, Measure::Count);
    let number = level_amount(is_count, amount, usual, unit)?;
    Some(Level {
        text,
        measure,
        side,
        number,
    })
}

/// Whether `units`, of which 10^decimals are 1, are on this side of a number.
pub(crate) fn is_on_side(units: u64, decimals: u32, side: Side, number: Number) -> bool
    requires few { decimals ≤ 18 }
    requires few_of_number { number.decimals ≤ 18 }
    ensures { IsTrue result ↔ IsOnSide side units decimals number.digits number.decimals }
{
    let value = u128::from(units) * 10u128.pow(number.decimals);
    let bound = u128::from(number.digits) * 10u128.pow(decimals);
    match side {
        Side::Below => value < bound,
        Side::AtMost => value <= bound,
        Side::Above => value > bound,
        Side::AtLeast => value >= bound,
    }
}

impl Side {
    /// Returns the sign of this side.
    fn sign(self) -> &'static str
        ensures { result.now ≡ sign_of self }
    {
        match self {
            Side::Below => "<",
            Side::AtMost => "<=",
            Side::Above => ">",
            Side::AtLeast => ">=",
        }
    }

    /// Whether a level of this side bounds figures from above.
    pub fn is_upper(self) -> bool
        ensures { result ≡ is_upper self }
    {
        matches!(self, Side::Below | Side::AtMost)
    }
}

impl<'a> Level<'a> {
    /// Returns the bound of the numbers that are below the level, or at it if it is `<=` or `>`. The
    /// others are on the other side.
    pub fn bound(&self) -> Bound
        ensures value { result ≡ bound_of self.now.side self.now.number }
        ensures few { result.number.decimals ≤ 18 }
    {
        Bound {
            number: self.number,
            is_included: matches!(self.side, Side::AtMost | Side::Above),
        }
    }

    /// Whether the number of the level is an integer of units, of which 10^decimals are 1.
    pub fn is_whole(&self, decimals: u32) -> bool
        requires { decimals ≤ 18 }
        ensures { IsTrue result ↔ ((self.now.number.digits * 10 ^ decimals) % 10 ^ self.now.number.decimals ≡ 0) }
    {
        let units = u128::from(self.number.digits) * 10u128.pow(decimals);
        units % 10u128.pow(self.number.decimals) == 0
    }

    /// Returns the amount of the level, as it is written after its sign.
    pub fn amount(&self) -> &'a str {
        match split_side(self.text) {
            Some((_, _, amount)) => amount,
            None => self.text,
        }
    }
}
