//! Counters that are being set.

ghost use Rattle.std.specs.Prelude.{◌≡◌, ℕ, ◌+◌, ◌*◌, ◌<◌, ◌≤◌, ◌++◌, length, map, replicate, slice_index, slice_set, vec_capacity, All, IfOk, IfSome, MatchOption, true, false};
ghost use Rattle.hdr_base.specs.Classes.{most_bins};
ghost use Rattle.hdr_counts.specs.Blocks.{with_zeros, zero_blocks, cleared, with_number};

use crate::ends::{first_nonzero, last_of};
use crate::{Counts, exchanged, exponent, quotient, section_len};
use hdr_base::Counter;
use std::alloc::{AllocError, Global};
use std::marker::Model;

/// The number of counters that are zero-filled at once, past the section that needs it.
const PIECE: usize = 128;

/// Counters that are being set, seen as `Counts` are.
///
/// Their capacity is allocated at the start. They are zero-filled piece by piece, as counters at
/// higher indices are set.
#[derive(Debug, Drop)]
pub struct CountsBuilder<T: Counter> {
    /// The first counters; those after them are 0.
    counters: Vec<T>,
    sums: Vec<u128>,
    /// The sum of the current section. The one in `sums` is from when that section became current.
    sum: u128,
    block: usize,
    section: usize,
    shift: Option<u32>,
    /// The number of counters.
    len: usize,
    /// The section of the highest index that was set, or 0.
    current: usize,
    /// All counters from this index on are 0.
    next: usize,
    /// The indices from `next` to `end` lie in the current section and in `counters`. There are
    /// none if `end` is at most `next`.
    end: usize,
    /// All counters before this index but counter 0 are 0. It is at most `next` if `next` is below
    /// `end`.
    first: usize,
}

impl<T: Counter> Model for CountsBuilder<T> {
    ghost use Rattle.std.specs.Prelude.{map, vec_capacity, slice_set};
    ghost use Rattle.hdr_counts.specs.Blocks.{Blocks, AreOpen, AreSections, IsAt, with_zeros};

    ghost Value = { Blocks };

    ghost view = { λ c. record { block = c.block; numbers = with_zeros (map T.number c.counters.items) c.len } };

    ghost invariant = { λ c. AreOpen T.greatest c.section c.len (vec_capacity c.counters) (map T.number c.counters.items) (slice_set c.sums.items c.current c.sum) c.shift
        × IsAt c.section c.current c.next c.end c.first (map T.number c.counters.items)
        × AreSections c.block c.section c.len };
}

impl<T: Counter> CountsBuilder<T> {
    /// Returns `blocks * block` counters of 0. Returns an error only if an allocation fails.
    pub fn new(alloc: Global, blocks: usize, block: usize) -> Result<CountsBuilder<T>, AllocError>
        requires nonzero { 1 ≤ block }
        requires at_most { blocks * block ≤ most_bins }
        ensures { IfOk result (λ c. c ≡ zero_blocks blocks block) }
    {
        let len = blocks * block;
        let section = section_len(block, len);
        let sections = len / section;
        let mut sums = Vec::with_capacity(alloc, sections)?;
        sums.resize(sections, 0)?;
        Ok(CountsBuilder {
            counters: Vec::with_capacity(alloc, len)?,
            sums,
            sum: 0,
            block,
            section,
            shift: exponent(section),
            len,
            current: 0,
            next: 0,
            end: 0,
            first: usize::MAX,
        })
    }

    /// Returns the counters of `counts`, each set to 0. A section whose sum is 0 is skipped.
    pub fn cleared(mut counts: Counts<T>) -> CountsBuilder<T>
        ensures { result ≡ cleared counts }
    {
        counts.clear();
        CountsBuilder {
            len: counts.counters.len(),
            counters: counts.counters,
            sums: counts.sums,
            sum: 0,
            block: counts.block,
            section: counts.section,
            shift: counts.shift,
            current: 0,
            next: 0,
            end: 0,
            first: usize::MAX,
        }
    }

    /// The number of counters.
    #[inline(always)]
    pub fn len(&self) -> usize
        ensures value { result ≡ length self.now.numbers }
        ensures at_most { length self.now.numbers ≤ most_bins }
    {
        self.len
    }

    /// Sets the counter at index `i` to `value`.
    #[inline(always)]
    pub fn set(&mut self, i: usize, value: T)
        requires { i < length self.old.numbers }
        ensures { self.new ≡ with_number self.old i (T.number value) }
    {
        if i >= self.next && i < self.end {
            self.sum += u128::from(value.as_u64());
            self.counters[i] = value;
            self.next = i + 1;
            return;
        }
        self.set_further(i, value);
    }

    /// Fast path: sets the counters at indices `i` and `i + 1`, if it can. Both must follow the
    /// indices that were set, in the section of the last of them, which isn't index 0. Returns
    /// whether it did; `self` is unchanged if not.
    #[inline(always)]
    pub fn set_pair(&mut self, i: usize, first: T, second: T) -> bool
        ensures set { result ≡ true → (i + 1 < length self.old.numbers)
            × (self.new ≡ with_number (with_number self.old i (T.number first)) (i + 1)
            (T.number second)) }
        ensures unchanged { result ≡ false → self.new ≡ self.old }
        ensures at_most { length self.old.numbers ≤ most_bins }
    {
        if i < self.next || i >= self.end || i + 1 >= self.end {
            return false;
        }
        self.set(i, first);
        self.set(i + 1, second);
        true
    }

    /// Sets a counter outside the fast path: in another section, or at an index below `next`.
    #[inline(never)]
    fn set_further(&mut self, i: usize, value: T)
        requires { i < length self.old.numbers }
        ensures { self.new ≡ with_number self.old i (T.number value) }
    {
        let k = quotient(i, self.section, self.shift);
        let end = (k + 1) * self.section;
        zero_fill_to(&mut self.counters, end, self.len);
        keep_sum(&mut self.sums, self.current, self.sum);
        let new = value.as_u64();
        let old = self.counters[i].as_u64();
        let sum = exchanged(self.sums[k], old, new);
        self.sums[k] = sum;
        self.counters[i] = value;
        self.first = lower(self.first, i);
        if i < self.next {
            self.sum = sum_at(&self.sums, self.current);
            return;
        }
        self.current = k;
        self.sum = sum;
        self.next = i + 1;
        self.end = end_after(i, end);
    }

    /// Returns the index of the last nonzero counter.
    pub fn last_nonzero(&self) -> Option<usize>
        ensures within { IfSome result (λ m. m < most_bins) }
        ensures index { MatchOption result ((i : ℕ) → slice_index self.now.numbers i ≡ 0)
            (λ m. (0 < slice_index self.now.numbers m)
            × ((i : ℕ) → m < i → slice_index self.now.numbers i ≡ 0)) }
    {
        last_of(&self.counters[..self.next], u128::MAX)
    }

    /// Returns the index of the first nonzero counter after counter 0.
    pub fn next_nonzero(&self) -> Option<usize>
        ensures within { IfSome result (λ m. (0 < m) × (m < most_bins)) }
        ensures index { MatchOption result ((i : ℕ) → 0 < i → slice_index self.now.numbers i ≡ 0)
            (λ m. (0 < slice_index self.now.numbers m)
            × ((i : ℕ) → 0 < i → i < m → slice_index self.now.numbers i ≡ 0)) }
    {
        let from = self.first.min(self.next);
        let place = first_nonzero(&self.counters[from..self.next])?;
        Some(from + place)
    }

    /// Returns the counters with the sums of their sections.
    pub fn into_counts(mut self) -> Counts<T>
        ensures value { result ≡ self }
        ensures fit { All (λ n. n ≤ T.greatest) self.numbers }
    {
        zero_fill(&mut self.counters, self.len);
        keep_sum(&mut self.sums, self.current, self.sum);
        Counts {
            counters: self.counters,
            sums: self.sums,
            block: self.block,
            section: self.section,
            shift: self.shift,
        }
    }
}

/// Stores the sum of section `k`, if there is such a section.
fn keep_sum(sums: &mut Vec<u128>, k: usize, sum: u128)
    ensures { sums.new.items ≡ slice_set sums.old.items k sum }
{
    if k < sums.len() {
        sums[k] = sum;
    }
}

/// Returns the sum of section `k`, or 0 past the sections.
fn sum_at(sums: &[u128], k: usize) -> u128
    ensures { result ≡ slice_index sums.now k }
{
    if k < sums.len() { sums[k] } else { 0 }
}

/// Returns the lower of `first` and `i`, or `first` if `i` is 0.
fn lower(first: usize, i: usize) -> usize
    requires { 0 < first }
    ensures nonzero { 0 < result }
    ensures within { result ≤ first }
    ensures own { 0 < i → result ≤ i }
{
    if i == 0 { first } else { first.min(i) }
}

/// Returns `end`, up to which the fast path is open after index `i` was set, or 0 if `i` is 0.
fn end_after(i: usize, end: usize) -> usize
    ensures within { result ≤ end }
    ensures nonzero { 0 < result → 0 < i }
{
    if i == 0 { 0 } else { end }
}

/// Zero-fills `counters` up to index `end`, and up to `PIECE` further, within `len`. Does nothing
/// if they are that long.
fn zero_fill_to<T: Counter>(counters: &mut Vec<T>, end: usize, len: usize)
    requires inside { end ≤ len }
    requires at_most { len ≤ most_bins }
    requires within { length counters.old.items ≤ len }
    requires capacity { len ≤ vec_capacity counters.old }

    // Zeros are appended, up to `end` and within `len`.
    ensures numbers { (more : ℕ) × (map T.number counters.new.items
        ≡ map T.number counters.old.items ++ replicate more 0) }
    ensures covered { end ≤ length counters.new.items }
    ensures within { length counters.new.items ≤ len }
    ensures capacity { len ≤ vec_capacity counters.new }
{
    if end > counters.len() {
        zero_fill(counters, len.min(end + PIECE));
    }
}

/// Zero-fills `counters` to the length `len`, which is within the capacity.
fn zero_fill<T: Counter>(counters: &mut Vec<T>, len: usize)
    requires within { length counters.old.items ≤ len }
    requires capacity { len ≤ vec_capacity counters.old }
    ensures numbers { map T.number counters.new.items ≡ with_zeros
        (map T.number counters.old.items) len }
    ensures len { length counters.new.items ≡ len }
    ensures capacity { vec_capacity counters.old ≤ vec_capacity counters.new }
{
    let _ = counters.resize(len, T::zero());
}
