//! Percentiles, and the quantiles that they name.

ghost use Rattle.std.specs.Prelude.{◌≡◌, ◌⊎◌, ◌≤◌, ◌++◌, ◌∷◌, [], ℕ, List, IfNone, IfSome, true};
ghost use Rattle.hdr_log.specs.Parts.{is_digits};
ghost use Rattle.hdr_summary.specs.Percent.{IsBeyond, IsMarked, IsPercentile, IsSplit, decimals_of, percent};

use hdr_log::parts::number;
use hdrhistogram::Quantile;

/// A percentile as it was written, and its quantile.
#[derive(Clone, Copy)]
pub struct Percentile<'a> {
    /// The number without `p` and `%`.
    pub digits: &'a str,
    pub quantile: Quantile,
    /// The decimals of the quantile, whose denominator is 10 to their power.
    decimals: u32,
}

impl Percentile<'_> {
    /// Returns the decimals of the quantile: `99.9` is 0.999, with 3.
    pub fn decimals(&self) -> u32
        ensures { result ≡ decimals_of self.now }
    {
        self.decimals
    }
}

/// Returns the quantile of the percentile `whole.part`, or `None` if one of them is not digits, if
/// it is above 100, or if its fraction overflows 64 bits.
#[tactic(auto, using(hdr_input::proofs::InUnits::positive, hdr_input::proofs::Powers::great_power), unfolding(hdr_log::specs::Parts::number_of))]
pub fn quantile(whole: &[u8], part: &[u8]) -> Option<Quantile>
    ensures value { IfSome result (λ q. q ≡ percent whole.now part.now) }
    ensures within { IfSome result (λ q. q.num ≤ q.den) }
    ensures digits { IfSome result (λ q. (is_digits whole.now ≡ true) × (is_digits part.now ≡ true)) }
    ensures errors { IfNone result (is_digits whole.now ≡ true → is_digits part.now ≡ true
        → IsBeyond (percent whole.now part.now)) }
{
    let zeros = u32::try_from(part.len()).ok()?;
    let scale = 10u64.checked_pow(zeros)?;
    let num = number(whole)?
        .checked_mul(scale)?
        .checked_add(number(part)?)?;
    let den = scale.checked_mul(100)?;
    if num > den {
        return None;
    }
    Quantile::new(num, den)
}

/// Parses a percentile such as `p99`, `99.9` or `99%`.
#[tactic(auto, using(hdr_input::proofs::Powers::great_power))]
pub fn parse_percentile(text: &str) -> Option<Percentile<'_>>
    ensures some { IfSome result (IsPercentile text.now) }
    ensures none { IfNone result ((digits whole part : List ℕ) → IsMarked text.now digits
        → IsSplit digits whole part → is_digits whole ≡ true → is_digits part ≡ true
        → IsBeyond (percent whole part)) }
{
    let digits = without_percent(without_p(text));
    let (whole, part) = split_digits(digits);
    let quantile = quantile(whole, part)?;
    let decimals = part.len() as u32 + 2;
    Some(Percentile {
        digits,
        quantile,
        decimals,
    })
}

/// Returns a text without the `p` that it begins with.
fn without_p(text: &str) -> &str
    ensures kept { (result.now ≡ text.now) ⊎ (text.now ≡ 112 ∷ result.now) }
    ensures stripped { (rest : List ℕ) → text.now ≡ 112 ∷ rest → result.now ≡ rest }
{
    match text.strip_prefix('p') {
        Some(rest) => rest,
        None => text,
    }
}

/// Returns a text without the `%` that it ends with.
fn without_percent(text: &str) -> &str
    ensures kept { (result.now ≡ text.now) ⊎ (text.now ≡ result.now ++ 37 ∷ []) }
    ensures stripped { (start : List ℕ) → text.now ≡ start ++ 37 ∷ [] → result.now ≡ start }
{
    match text.strip_suffix('%') {
        Some(start) => start,
        None => text,
    }
}

/// Splits digits at their point. Without one, 0 follows it.
fn split_digits(digits: &str) -> (&[u8], &[u8])
    ensures split { IsSplit digits.now result.0.now result.1.now }
    ensures only { (whole part : List ℕ) → IsSplit digits.now whole part → is_digits whole ≡ true
        → (result.0.now ≡ whole) × (result.1.now ≡ part) }
{
    match digits.split_once('.') {
        Some((whole, part)) => (whole.as_bytes(), part.as_bytes()),
        None => (digits.as_bytes(), b"0".as_slice()),
    }
}
