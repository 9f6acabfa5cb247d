//! The first index at which a running sum reaches a rank.

ghost use Rattle.std.specs.Prelude.{◌≡◌, ℕ, ◌+◌, ◌-◌, ◌*◌, ◌^◌, ◌<◌, ◌≤◌, length, take, drop, map, sum, MatchOption};
ghost use Rattle.hdr_base.specs.Classes.{most_bins};
ghost use Rattle.hdr_counts.specs.Blocks.{sum_below, IsFirstToReach};

use crate::Counts;
use crate::adding::short_sum;
use hdr_base::{Counter, Ticks};
use std::marker::Model;

/// A search for ranks in ascending order. Each rank is searched from the section where the one
/// before was found.
#[derive(Debug, Drop)]
pub struct Search<'a, T: Counter> {
    counts: &'a Counts<T>,
    /// The section that is read next, and the sum of those before it.
    section: usize,
    before: u64,
}

impl<'a, T: Counter> Model for Search<'a, T> {
    ghost use Rattle.std.specs.Prelude.{◌≡◌, ◌*◌, ◌≤◌};
    ghost use Rattle.hdr_counts.specs.Blocks.{Searched, sum_before};
    ghost use Rattle.hdr_base.specs.Classes.{most_bins};

    ghost Value = { Searched };

    ghost view = { λ s. record { numbers = s.counts.now.numbers; passed = s.before } };

    ghost invariant = { λ s. (s.before ≡ sum_before s.counts.now s.section) × (s.section ≤ most_bins) };
}

impl<'a, T: Counter> Search<'a, T> {
    /// Returns a search from the first counter on.
    pub fn new(counts: &'a Counts<T>) -> Search<'a, T>
        ensures { result ≡ record { numbers = counts.now.numbers; passed = 0 } }
    {
        Search {
            counts,
            section: 0,
            before: 0,
        }
    }

    /// Returns the first index at which the running sum reaches `rank`, or `None` if there is none.
    /// `rank` is above the sum of the sections that were skipped.
    pub fn next_position(&mut self, rank: u64) -> Option<usize>
        requires { self.old.passed < rank }
        ensures numbers { self.new.numbers ≡ self.old.numbers }
        ensures passed { self.new.passed < rank }
        ensures index { MatchOption result (sum self.old.numbers < rank)
            (IsFirstToReach self.old.numbers rank) }
    {
        let counts = self.counts;
        let mut section = self.section;
        let mut rest = rank - self.before;
        while let Some(sum) = counts.section_sum(section) {
            if sum >= u128::from(rest) {
                self.section = section;
                self.before = rank - rest;
                return Some(counts.first_in_section(section, rest));
            }
            rest -= sum as u64;
            section += 1;
        }
        self.section = section;
        self.before = rank - rest;
        None
    }
}

/// The number of counters that are added up at once.
const LANES: usize = 64;

/// Returns the sum of the sums of several sections.
pub(crate) fn sum_of_sums(sums: &[u128]) -> u128
    requires { sum sums.now < 2 ^ 128 }
    ensures { result ≡ sum sums.now }
{
    let mut total: u128 = 0;
    for sum in sums {
        total += *sum;
    }
    total
}

/// Returns the first index at which the running sum reaches `rest`, or `None` if there is none.
/// Counts one tick for each counter that is read.
pub(crate) fn position_of_rank_counted<T: Counter>(
    counters: &[T],
    mut rest: u64,
    ticks: &mut Ticks,
) -> Option<usize>
    requires nonzero { 1 ≤ rest }
    requires ticks_fit { ticks.old + length counters.now < 2 ^ 64 }
    ensures index { MatchOption result (sum (map T.number counters.now) < rest)
        (IsFirstToReach (map T.number counters.now) rest) }
    ensures ticks { MatchOption result (ticks.new ≡ ticks.old + length counters.now)
        (λ i. ticks.new ≡ ticks.old + i + 1) }
{
    for (i, counter) in counters.iter().enumerate() {
        ticks.tick();
        let number = counter.as_u64();
        if number >= rest {
            return Some(i);
        }
        rest -= number;
    }
    None
}

/// Returns the first index at which the running sum reaches `rest`, or `None` if there is none.
/// `whole` is the sum of all counters. If it fits a `u64`, `LANES` counters are added up at once.
pub(crate) fn position_in_section<T: Counter>(
    counters: &[T],
    rest: u64,
    whole: u128,
) -> Option<usize>
    requires nonzero { 1 ≤ rest }
    requires at_most { length counters.now ≤ most_bins }
    requires whole { whole ≡ sum (map T.number counters.now) }
    ensures { MatchOption result (sum (map T.number counters.now) < rest)
        (IsFirstToReach (map T.number counters.now) rest) }
{
    if whole <= u128::from(u64::MAX) {
        by_lanes(counters, rest)
    } else {
        one_by_one(counters, rest)
    }
}

/// As `position_in_section`, for a sum that fits a `u64`.
fn by_lanes<T: Counter>(counters: &[T], mut rest: u64) -> Option<usize>
    requires nonzero { 1 ≤ rest }
    requires at_most { length counters.now ≤ most_bins }
    requires fits { sum (map T.number counters.now) < 2 ^ 64 }
    ensures { MatchOption result (sum (map T.number counters.now) < rest)
        (IsFirstToReach (map T.number counters.now) rest) }
{
    let mut from = 0usize;
    while counters.len() - from > LANES {
        let sum = short_sum(&counters[from..from + LANES]);
        if sum >= rest {
            break;
        }
        rest -= sum;
        from += LANES;
    }
    let place = one_by_one(&counters[from..], rest)?;
    Some(from + place)
}

/// As `position_in_section`, counter by counter.
fn one_by_one<T: Counter>(counters: &[T], mut rest: u64) -> Option<usize>
    requires { 1 ≤ rest }
    ensures { MatchOption result (sum (map T.number counters.now) < rest)
        (IsFirstToReach (map T.number counters.now) rest) }
{
    for (i, counter) in counters.iter().enumerate() {
        let number = counter.as_u64();
        if number >= rest {
            return Some(i);
        }
        rest -= number;
    }
    None
}
