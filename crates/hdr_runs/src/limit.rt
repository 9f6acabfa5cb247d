//! Limits of changes, such as `p99>+5%`.

ghost use Rattle.std.specs.Prelude.{◌≡◌, ◌<◌, ◌≤◌, ◌+◌, ◌*◌, ◌^◌, ◌↔◌, ℕ, List, length, IfSome, IsTrue, MatchOption};
ghost use Rattle.hdr_input.specs.Amounts.{IsExact};
ghost use Rattle.hdr_summary.specs.Percent.{IsPercentile};
ghost use Rattle.hdr_runs.specs.Limits.{BeginsWithDigit, IsAmount, IsLimitText, IsLimitVerdict, IsSameFraction, grown, parts_of};

use crate::point::Point;
use hdr_compare::{comparable, exceeds, falls_below};
use hdr_input::Number;
use hdr_summary::percentile::{Percentile, parse_percentile};

/// The most decimals of the percentage of a limit.
const MOST_DECIMALS: u32 = 3;

/// The greatest ratio of a limit, in parts of its denominator.
const MOST_RATIO: u64 = 10_000_000;

/// A limit of the change of a percentile: it must not grow by more.
#[derive(Clone, Copy)]
pub struct Limit<'a> {
    pub text: &'a str,
    pub percentile: Percentile<'a>,
    /// By how many percent it may grow.
    pub amount: Number,
    ghost few: { amount.decimals ≤ 3 },
    ghost small: { 100 * 10 ^ amount.decimals + amount.digits ≤ 10000000 },
}

/// Whether a percentile grew by more than a limit.
#[derive(Debug, Clone, Copy, PartialEq, Eq)]
pub enum LimitVerdict {
    /// It grew by less, beyond chance.
    Kept,
    /// It grew by more, beyond chance.
    Broken,
    /// Chance can make it less or more.
    Undecided,
    /// There are too few samples to say it.
    Few,
}

impl LimitVerdict {
    /// Returns the name that is printed.
    pub fn name(self) -> &'static str {
        match self {
            LimitVerdict::Kept => "kept",
            LimitVerdict::Broken => "broken",
            LimitVerdict::Undecided => "undecided",
            LimitVerdict::Few => "few",
        }
    }
}

/// Parses a limit of a change, such as `p99>+5%`. The percentage has 3 decimals at most.
#[tactic(auto, using(crate::proofs::LimitTexts::amount_is_short))]
pub fn parse_limit(text: &str) -> Option<Limit<'_>>
    ensures text { IfSome result (λ limit. limit.text.now ≡ text.now) }
    ensures parts { IfSome result (λ limit. (percentile amount : List ℕ) × IsLimitText text.now percentile amount
        × IsPercentile percentile limit.percentile × (length text.now < 2 ^ 62 → IsExact amount limit.amount)) }
    ensures amount { IfSome result (λ limit. IsAmount limit.amount) }
{
    let (percentile, amount) = split_limit(text)?;
    let Some(percentile) = parse_percentile(percentile) else {
        return None;
    };
    let amount = Number::parse(amount.as_bytes(), None).ok()?;
    if !is_amount(amount) {
        return None;
    }
    Some(Limit {
        text,
        percentile,
        amount,
    })
}

/// Splits a limit into its percentile and its percentage, which begins with a digit.
fn split_limit(text: &str) -> Option<(&str, &str)>
    ensures { MatchOption result ((percentile amount : List ℕ) → IsLimitText text.now percentile amount → ⊥)
        (λ parts. IsLimitText text.now parts.0.now parts.1.now) }
{
    let Some((percentile, growth)) = text.split_once('>') else {
        return None;
    };
    let Some(shown) = growth.strip_prefix('+') else {
        return None;
    };
    let Some(amount) = shown.strip_suffix('%') else {
        return None;
    };
    if !begins_with_digit(amount) {
        return None;
    }
    Some((percentile, amount))
}

/// Whether a text begins with a digit.
fn begins_with_digit(text: &str) -> bool
    ensures { IsTrue result ↔ BeginsWithDigit text.now }
{
    match text.as_bytes() {
        [first, ..] => first.is_ascii_digit(),
        [] => false,
    }
}

/// Whether a limit can be by a percentage: it has 3 decimals at most, and is not too large.
fn is_amount(amount: Number) -> bool
    ensures { IsTrue result ↔ IsAmount amount }
{
    amount.decimals <= MOST_DECIMALS && amount.digits <= MOST_RATIO - parts_of(amount.decimals)
}

/// Returns how many parts a hundred percent have, if one percent has these decimals.
fn parts_of(decimals: u32) -> u64
    requires { decimals ≤ 3 }
    ensures parts { result ≡ parts_of decimals }
    ensures within { result ≤ 100000 }
{
    match decimals {
        0 => 100,
        1 => 1_000,
        2 => 10_000,
        _ => 100_000,
    }
}

impl Limit<'_> {
    /// Whether a limit is of a percentile: both are the same fraction.
    pub fn is_of(&self, percentile: &Percentile<'_>) -> bool
        ensures { IsTrue result ↔ IsSameFraction self.now.percentile.quantile percentile.now.quantile }
    {
        let (one, other) = (self.percentile.quantile, percentile.quantile);
        u128::from(one.num()) * u128::from(other.den())
            == u128::from(other.num()) * u128::from(one.den())
    }

    /// Returns whether a percentile grew by more.
    pub fn verdict(&self, before: &Point, after: &Point) -> LimitVerdict
        ensures { IsLimitVerdict self.now.amount before.now.measured after.now.measured result }
    {
        let (before, after) = comparable(&before.measured, &after.measured);
        let den = parts_of(self.amount.decimals);
        let num = den + self.amount.digits;
        match (
            exceeds(num, den, &before, &after),
            falls_below(num, den, &before, &after),
        ) {
            (Some(true), _) => LimitVerdict::Broken,
            (_, Some(true)) => LimitVerdict::Kept,
            (None, _) => LimitVerdict::Few,
            _ => LimitVerdict::Undecided,
        }
    }
}
