//! How many numbers are within bounds.

ghost use Rattle.std.specs.Prelude.{◌≡◌, ◌≤◌, ◌<◌, ◌^◌, ◌+◌, ◌-◌, ◌*◌, ◌/◌, ◌%◌, nat_le, nat_lt, if◌then◌else◌, map, position};
ghost use Rattle.hdr_input.specs.Bounds.{counted_to, missing_to};
ghost use Rattle.hdr_input.specs.Counted.{without_numbers, with_numbers, with_missing, in_units_of, counted, steps_to};

use crate::distribution::MOST_DECIMALS;

/// How many numbers are within a bound, and not within one before it.
#[derive(Clone, Copy)]
pub(crate) struct BoundCount {
    /// The least position that is not within the bound.
    pub end: u128,
    /// The greatest number of units that is within the bound.
    pub most: u64,
    /// How many numbers, and how many missing samples. The latter count at each bound that they are
    /// within.
    pub count: u64,
    pub missing: u64,
    /// The greatest of these in units, or 0.
    pub greatest: u64,
}

impl BoundCount {
    /// Returns the count of no numbers.
    pub(crate) fn new(end: u128) -> BoundCount
        ensures { result ≡ without_numbers end }
    {
        BoundCount {
            end,
            most: 0,
            count: 0,
            missing: 0,
            greatest: 0,
        }
    }

    /// Counts some numbers, of as many units each.
    #[inline(always)]
    fn add_numbers(&mut self, times: u64, units: u64)
        ensures { self.new ≡ with_numbers times units self.old }
    {
        self.count = self.count.wrapping_add(times);
        if units > self.greatest {
            self.greatest = units;
        }
    }

    /// Counts the missing samples before `value` that are within the bound.
    fn with_missing(self, value: u64, interval: u64) -> BoundCount
        requires { 0 < interval }
        ensures { result ≡ with_missing value interval self }
    {
        let steps = steps_to(self.most, value, interval);
        let greatest = if steps == 0 {
            0
        } else {
            value % interval + steps * interval
        };
        BoundCount {
            missing: self.missing.wrapping_add(steps),
            greatest: self.greatest.max(greatest),
            ..self
        }
    }

    /// Returns how many numbers were counted if the bound ends at `end` or before, and otherwise 0.
    fn count_to(self, end: u128) -> u64
        ensures { result ≡ (if nat_le self.end end then self.count else 0) }
    {
        if self.end <= end { self.count } else { 0 }
    }

    /// Sets the decimals of a unit, at most `MOST_DECIMALS`.
    #[tactic(auto, using(crate::proofs::InUnits::positive))]
    fn in_units(self, decimals: u32) -> BoundCount
        requires few { decimals ≤ 18 }
        ensures { result ≡ in_units_of decimals self }
    {
        let unit = 2 * 10u128.pow(MOST_DECIMALS - decimals);
        let most = self.end.saturating_sub(1) / unit;
        BoundCount {
            most: most.min(u128::from(u64::MAX)) as u64,
            ..self
        }
    }
}

/// Returns how many of the missing samples before `value` are at most `most`: each is some intervals
/// above `value % interval`.
pub(crate) fn steps_to(most: u64, value: u64, interval: u64) -> u64
    requires { 0 < interval }
    ensures value { result ≡ steps_to most value interval }
    ensures bound { value % interval + result * interval ≤ value }
{
    let steps = (value / interval).saturating_sub(1);
    (most.saturating_sub(value % interval) / interval).min(steps)
}

/// Returns the index of the first of `counts` that a number of units is within.
#[inline(always)]
fn first_within(counts: &[BoundCount], units: u64) -> Option<usize>
    ensures { result ≡ position (λ c. nat_le units c.most) counts.now }
{
    counts.iter().position(|count| units <= count.most)
}

/// Returns the index of the first of `counts` that a position is within.
fn first_before(counts: &[BoundCount], place: u128) -> Option<usize>
    ensures { result ≡ position (λ c. nat_lt place c.end) counts.now }
{
    counts.iter().position(|count| place < count.end)
}

/// Counts a number at the first of `counts` that it is within, if it is within one.
#[inline(always)]
#[tactic(auto, using(crate::proofs::Counting::counted_found, crate::proofs::Counting::counted_unfound))]
pub(crate) fn count_units(counts: &mut [BoundCount], units: u64)
    ensures { counts.new ≡ counted (λ c. nat_le units c.most) 1 units counts.old }
{
    if let Some(at) = first_within(counts, units) {
        counts[at].add_numbers(1, units);
    }
}

/// Counts some numbers at this position, as `count_units`.
#[tactic(auto, using(crate::proofs::Counting::counted_found, crate::proofs::Counting::counted_unfound))]
pub(crate) fn count_position(counts: &mut [BoundCount], place: u128, times: u64, units: u64)
    ensures { counts.new ≡ counted (λ c. nat_lt place c.end) times units counts.old }
{
    if let Some(at) = first_before(counts, place) {
        counts[at].add_numbers(times, units);
    }
}

/// Counts the missing samples before `value` at each of `counts`.
pub(crate) fn count_missing(counts: &mut [BoundCount], value: u64, interval: u64)
    requires { 0 < interval }
    ensures { counts.new ≡ map (with_missing value interval) counts.old }
{
    for at in 0..counts.len() {
        counts[at] = counts[at].with_missing(value, interval);
    }
}

/// Sets the decimals of a unit of each of `counts`.
pub(crate) fn set_units(counts: &mut [BoundCount], decimals: u32)
    requires { decimals ≤ 18 }
    ensures { counts.new ≡ map (in_units_of decimals) counts.old }
{
    for at in 0..counts.len() {
        counts[at] = counts[at].in_units(decimals);
    }
}

/// Returns how many numbers were counted at bounds that end at `end` or before.
pub(crate) fn counted_to(counts: &[BoundCount], end: u128) -> u64
    ensures { counted_to end counts.now < 2 ^ 64 → result ≡ counted_to end counts.now }
{
    let mut counted = 0u64;
    for count in counts {
        counted = counted.wrapping_add(count.count_to(end));
    }
    counted
}

/// Returns how many missing samples were counted at the first bound that ends at `end`.
pub(crate) fn missing_to(counts: &[BoundCount], end: u128) -> u64
    ensures { result ≡ missing_to end counts.now }
{
    for count in counts {
        if count.end == end {
            return count.missing;
        }
    }
    0
}

/// Returns the greatest number of units that was counted at bounds that end at `end` or before.
pub(crate) fn greatest_to(counts: &[BoundCount], end: u128) -> u64 {
    let mut greatest = 0;
    for count in counts {
        if count.end <= end {
            greatest = count.greatest.max(greatest);
        }
    }
    greatest
}
