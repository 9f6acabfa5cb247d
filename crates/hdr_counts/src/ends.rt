//! The first and the last nonzero counter.

ghost use Rattle.std.specs.Prelude.{◌≡◌, ℕ, ◌<◌, ◌≤◌, IfSome, MatchOption, length, map, slice_index, sum};
ghost use Rattle.hdr_base.specs.Classes.{most_bins};
ghost use Rattle.hdr_counts.specs.Blocks.{AreSums, AreZeros, IsLastNonzero, IsFirstNonzero};

use crate::{Counts, quotient};
use hdr_base::Counter;

/// The number of counters that are read before the sums of sections are.
const NEAR: usize = 16;

impl<T: Counter> Counts<T> {
    /// Returns the index of the last nonzero counter. A section whose sum is 0 is skipped.
    pub fn last_nonzero(&self) -> Option<usize>
        ensures within { IfSome result (λ m. m < most_bins) }
        ensures index { MatchOption result ((i : ℕ) → slice_index self.now.numbers i ≡ 0)
            (λ m. (0 < slice_index self.now.numbers m)
            × ((i : ℕ) → m < i → slice_index self.now.numbers i ≡ 0)) }
    {
        last_place(&self.counters, &self.sums, self.section)
    }

    /// Returns the index of the first nonzero counter after counter 0.
    pub fn next_nonzero(&self) -> Option<usize>
        ensures within { IfSome result (λ m. (0 < m) × (m < most_bins)) }
        ensures index { MatchOption result ((i : ℕ) → 0 < i → slice_index self.now.numbers i ≡ 0)
            (λ m. (0 < slice_index self.now.numbers m)
            × ((i : ℕ) → 0 < i → i < m → slice_index self.now.numbers i ≡ 0)) }
    {
        let place = self.next_filled(self.len().min(1));
        (place < self.len()).then_some(place)
    }

    /// Returns the index of the first nonzero counter from `from` on, or `len()` if there is none.
    #[inline(always)]
    pub fn next_filled(&self, from: usize) -> usize
        requires { from ≤ length self.now.numbers }
        ensures onward { from ≤ result }
        ensures within { result ≤ length self.now.numbers }
        ensures empty { (i : ℕ) → from ≤ i → i < result → slice_index self.now.numbers i ≡ 0 }
        ensures filled { result < length self.now.numbers → 0 < slice_index self.now.numbers result }
    {
        if from < self.counters.len() && self.counters[from].as_u64() > 0 {
            return from;
        }
        self.filled_near(from)
    }

    /// As `next_filled`. The next `NEAR` counters are read before the sums of sections are.
    #[inline(never)]
    fn filled_near(&self, from: usize) -> usize
        requires { from ≤ length self.now.numbers }
        ensures onward { from ≤ result }
        ensures within { result ≤ length self.now.numbers }
        ensures empty { (i : ℕ) → from ≤ i → i < result → slice_index self.now.numbers i ≡ 0 }
        ensures filled { result < length self.now.numbers → 0 < slice_index self.now.numbers result }
    {
        let near = self.counters.len().min(from + NEAR);
        match first_nonzero(&self.counters[from..near]) {
            Some(i) => from + i,
            None => self.filled_by_section(near),
        }
    }

    /// As `next_filled`. A section whose sum is 0 is skipped.
    #[inline(never)]
    fn filled_by_section(&self, from: usize) -> usize
        requires { from ≤ length self.now.numbers }
        ensures onward { from ≤ result }
        ensures within { result ≤ length self.now.numbers }
        ensures empty { (i : ℕ) → from ≤ i → i < result → slice_index self.now.numbers i ≡ 0 }
        ensures filled { result < length self.now.numbers → 0 < slice_index self.now.numbers result }
    {
        let mut place = from;
        while place < self.counters.len() {
            let k = quotient(place, self.section, self.shift);
            let end = (k + 1) * self.section;
            match first_of(&self.counters[place..end], self.sums[k]) {
                Some(i) => return place + i,
                None => place = end,
            }
        }
        place
    }
}

/// Returns the index of the last nonzero counter; `sums` are the sums of the sections.
fn last_place<T: Counter>(counters: &[T], sums: &[u128], section: usize) -> Option<usize>
    requires { AreSums section (map T.number counters.now) sums.now }
    ensures within { IfSome result (λ m. m < most_bins) }
    ensures index { MatchOption result (AreZeros (map T.number counters.now))
        (IsLastNonzero (map T.number counters.now)) }
{
    for passed in 0..sums.len() {
        let k = sums.len() - 1 - passed;
        let from = k * section;
        if let Some(i) = last_of(&counters[from..from + section], sums[k]) {
            return Some(from + i);
        }
    }
    None
}

/// Returns the index of the last nonzero counter; `most` is at least the sum of `counters`.
pub(crate) fn last_of<T: Counter>(counters: &[T], most: u128) -> Option<usize>
    requires { sum (map T.number counters.now) ≤ most }
    ensures within { IfSome result (λ m. m < length counters.now) }
    ensures index { MatchOption result (AreZeros (map T.number counters.now))
        (IsLastNonzero (map T.number counters.now)) }
{
    if most == 0 {
        return None;
    }
    for passed in 0..counters.len() {
        let i = counters.len() - 1 - passed;
        if counters[i].as_u64() > 0 {
            return Some(i);
        }
    }
    None
}

/// Returns the index of the first nonzero counter; `most` is at least the sum of `counters`.
fn first_of<T: Counter>(counters: &[T], most: u128) -> Option<usize>
    requires { sum (map T.number counters.now) ≤ most }
    ensures within { IfSome result (λ m. m < length counters.now) }
    ensures index { MatchOption result (AreZeros (map T.number counters.now))
        (IsFirstNonzero (map T.number counters.now)) }
{
    if most == 0 {
        return None;
    }
    first_nonzero(counters)
}

/// Returns the index of the first nonzero counter.
#[inline]
pub(crate) fn first_nonzero<T: Counter>(counters: &[T]) -> Option<usize>
    ensures within { IfSome result (λ m. m < length counters.now) }
    ensures index { MatchOption result (AreZeros (map T.number counters.now))
        (IsFirstNonzero (map T.number counters.now)) }
{
    for (i, counter) in counters.iter().enumerate() {
        if counter.as_u64() > 0 {
            return Some(i);
        }
    }
    None
}
