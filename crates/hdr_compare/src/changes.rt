//! Whether a percentile changed.

ghost use Rattle.std.specs.Prelude.{◌≡◌, ◌↔◌, ◌-◌, ◌*◌, ◌^◌, ◌<◌, ◌≤◌, IsTrue, MatchOption};
ghost use Rattle.hdr_compare.specs.Changes.{Exceeds, ExceedsBy, FallsBelow, FallsBelowBy, IsComparable, IsGreatestRatio, IsLeastRatio, IsOpen, square};

/// A percentile of a run: its value, and the ends of its interval, as far as the samples reach them.
#[derive(Clone, Copy)]
pub struct Measured {
    pub value: u64,
    pub low: Option<u64>,
    pub high: Option<u64>,
}

/// Returns `factor * (greater - less)`, squared.
fn square_of(factor: u64, greater: u64, less: u64) -> u128
    requires factor { factor ≤ 10000000 }
    requires greater { greater < 2 ^ 40 }
    ensures value { result ≡ square (factor * (greater - less)) }
    ensures bound { result < 2 ^ 127 }
{
    let side = u128::from(factor) * u128::from(greater.saturating_sub(less));
    side * side
}

/// Whether `y` is above `num / den` times `x` by more than chance: by more than the half-widths of
/// both intervals, added as the sides of a right triangle.
fn is_beyond(num: u64, den: u64, x: u64, high: u64, y: u64, low: u64) -> bool
    requires num { num ≤ 10000000 }
    requires den { den ≤ 10000000 }
    requires x { x < 2 ^ 40 }
    requires high { high < 2 ^ 40 }
    requires y { y < 2 ^ 40 }
    ensures { IsTrue result ↔ Exceeds num den x high y low }
{
    let reached = u128::from(num) * u128::from(x);
    let other = u128::from(den) * u128::from(y);
    if other <= reached {
        return false;
    }
    let distance = other - reached;
    square_of(den, y, low) + square_of(num, high, x) < distance * distance
}

/// Whether `y` is below `num / den` times `x` by more than chance, as `is_beyond`.
fn is_short(num: u64, den: u64, x: u64, low: u64, y: u64, high: u64) -> bool
    requires num { num ≤ 10000000 }
    requires den { den ≤ 10000000 }
    requires x { x < 2 ^ 40 }
    requires y { y < 2 ^ 40 }
    requires high { high < 2 ^ 40 }
    ensures { IsTrue result ↔ FallsBelow num den x low y high }
{
    let reached = u128::from(num) * u128::from(x);
    let other = u128::from(den) * u128::from(y);
    if reached <= other {
        return false;
    }
    let distance = reached - other;
    square_of(den, high, y) + square_of(num, x, low) < distance * distance
}

/// The greatest value that is compared.
const MOST_VALUE: u64 = (1 << 40) - 1;

impl Measured {
    /// Whether its value and the ends of its interval are small enough to be compared.
    pub fn is_comparable(&self) -> bool
        ensures { IsTrue result ↔ IsComparable self.now }
    {
        let is_small = |end: Option<u64>| end.is_none_or(|end| end <= MOST_VALUE);
        self.value <= MOST_VALUE && is_small(self.low) && is_small(self.high)
    }
}

/// Whether `after` is above `num / den` times `before` by more than chance: by more than the
/// half-widths of both intervals, added as the sides of a right triangle. Returns `None` if the
/// samples are too few for an end. `num` and `den` are at most 10,000,000, and the values below 2^40
/// (`is_comparable`).
pub fn exceeds(num: u64, den: u64, before: &Measured, after: &Measured) -> Option<bool>
    requires num { num ≤ 10000000 }
    requires den { den ≤ 10000000 }
    requires before { IsComparable before.now }
    requires after { IsComparable after.now }
    ensures { MatchOption result (IsOpen before.now.high after.now.low)
        (λ b. (IsOpen before.now.high after.now.low → ⊥)
        × (IsTrue b ↔ ExceedsBy num den before.now after.now)) }
{
    match (before.high, after.low) {
        (Some(high), Some(low)) => Some(is_beyond(num, den, before.value, high, after.value, low)),
        _ => None,
    }
}

/// Whether `after` is below `num / den` times `before` by more than chance, as `exceeds`.
pub fn falls_below(num: u64, den: u64, before: &Measured, after: &Measured) -> Option<bool>
    requires num { num ≤ 10000000 }
    requires den { den ≤ 10000000 }
    requires before { IsComparable before.now }
    requires after { IsComparable after.now }
    ensures { MatchOption result (IsOpen before.now.low after.now.high)
        (λ b. (IsOpen before.now.low after.now.high → ⊥)
        × (IsTrue b ↔ FallsBelowBy num den before.now after.now)) }
{
    match (before.low, after.high) {
        (Some(low), Some(high)) => Some(is_short(num, den, before.value, low, after.value, high)),
        _ => None,
    }
}

/// The ratios of changes are in thousandths.
const THOUSAND: u64 = 1_000;

/// The greatest ratio that is distinguished from others.
const MOST_RATIO: u64 = 10_000_000;

/// Returns the least ratio of `after` to `before`, in thousandths, that chance does not rule out, or
/// 10,000,000 if it rules out all below that. Returns `None` if the samples are too few for an end.
pub fn least_ratio(before: &Measured, after: &Measured) -> Option<u64>
    requires before { IsComparable before.now }
    requires after { IsComparable after.now }
    ensures { MatchOption result (IsOpen before.now.high after.now.low)
        (λ ratio. (IsOpen before.now.high after.now.low → ⊥)
        × IsLeastRatio before.now after.now ratio) }
{
    let _ = exceeds(0, THOUSAND, before, after)?;
    let mut low = 0;
    let mut high = MOST_RATIO;
    while low < high {
        let middle = (low + high) / 2;
        match exceeds(middle, THOUSAND, before, after) {
            Some(true) => low = middle + 1,
            _ => high = middle,
        }
    }
    Some(low)
}

/// Returns the greatest ratio of `after` to `before`, in thousandths, that chance does not rule out,
/// as `least_ratio`, or `None` too if it does not rule out 10,000,000.
pub fn greatest_ratio(before: &Measured, after: &Measured) -> Option<u64>
    requires before { IsComparable before.now }
    requires after { IsComparable after.now }
    ensures { MatchOption result (FallsBelowBy 10000000 1000 before.now after.now → ⊥)
        (IsGreatestRatio before.now after.now) }
{
    if falls_below(MOST_RATIO, THOUSAND, before, after) != Some(true) {
        return None;
    }
    let mut low = 0;
    let mut high = MOST_RATIO - 1;
    while low < high {
        let middle = (low + high + 1) / 2;
        match falls_below(middle, THOUSAND, before, after) {
            Some(true) => high = middle - 1,
            _ => low = middle,
        }
    }
    Some(low)
}
