//! A list of counters in blocks of one length, with their exact sums.
#![tactic(auto)]

mod adding;
mod clearing;
mod counts_builder;
mod ends;
mod search;
mod sections;

ghost use Rattle.std.specs.Prelude.{◌≡◌, ℕ, ◌+◌, ◌-◌, ◌*◌, ◌/◌, ◌%◌, ◌^◌, ◌<◌, ◌≤◌, length, take, map, sum, replicate, slice_index, slice_set, MatchOption, MatchResult, IfOk, IfSome, [], ◌++◌, All};
ghost use Rattle.hdr_base.specs.Classes.{most_bins};
ghost use Rattle.hdr_counts.specs.Blocks.{Blocks, sum_below, IsFirstToReach, looks, capped_sums, parted, own_section, section_of, section_start, sum_before, HasSection, IsShift, zero_blocks, grown_to, cleared, with_number};

use adding::sum_of;
use clearing::clear_sections;
pub use counts_builder::CountsBuilder;
use hdr_base::{Counter, Ticks};
pub use search::Search;
use search::{position_in_section, position_of_rank_counted, sum_of_sums};
use std::alloc::{AllocError, Global};
use std::marker::Model;

/// Counters in blocks of one length, seen as that length and the list of their numbers.
///
/// The sum of each section is kept. If blocks have fewer than 32 counters, all counters are one
/// section. Otherwise a block is one section, or, from 1,024 counters on, several of equal length.
/// Each counter takes the memory of a `T`, and each section 16 bytes. There are at most 6,291,456
/// counters, as many as the largest histogram has bins.
#[derive(Debug, Drop)]
pub struct Counts<T: Counter> {
    counters: Vec<T>,
    /// The sum of each section.
    sums: Vec<u128>,
    block: usize,
    /// The length of a section, and its binary exponent if it is a power of two.
    section: usize,
    shift: Option<u32>,
}

impl<T: Counter> Model for Counts<T> {
    ghost use Rattle.std.specs.Prelude.{map};
    ghost use Rattle.hdr_counts.specs.Blocks.{Blocks, AreHeld};

    ghost Value = { Blocks };

    ghost view = { λ c. record { block = c.block; numbers = map T.number c.counters.items } };

    ghost invariant = { λ c. AreHeld T.greatest c.block c.section (map T.number c.counters.items) c.sums.items c.shift };
}

impl<T: Counter> Counts<T> {
    /// Returns `blocks * block` counters of 0. Returns an error only if an allocation fails.
    pub fn new(alloc: Global, blocks: usize, block: usize) -> Result<Counts<T>, AllocError>
        requires nonzero { 1 ≤ block }
        requires at_most { blocks * block ≤ most_bins }
        ensures { IfOk result (λ c. c ≡ zero_blocks blocks block) }
    {
        let len = blocks * block;
        let section = section_len(block, len);
        let sections = len / section;
        let mut counters = Vec::with_capacity(alloc, len)?;
        counters.resize(len, T::zero())?;
        let mut sums = Vec::with_capacity(alloc, sections)?;
        sums.resize(sections, 0)?;
        Ok(Counts {
            counters,
            sums,
            block,
            section,
            shift: exponent(section),
        })
    }

    /// Grows to `blocks` blocks; the new counters are 0. Returns an error only if an allocation
    /// fails; `self` is then unchanged.
    pub fn grow(&mut self, blocks: usize) -> Result<(), AllocError>
        requires more { length self.old.numbers ≤ blocks * self.old.block }
        requires at_most { blocks * self.old.block ≤ most_bins }
        ensures { MatchResult result (λ _. self.new ≡ grown_to self.old blocks)
            (λ _. self.new ≡ self.old) }
    {
        let len = blocks * self.block;
        self.counters.reserve(len - self.counters.len())?;
        let section = section_len(self.block, len);
        self.sums.resize(len / section, 0)?;
        self.section = section;
        self.shift = exponent(section);
        self.counters.resize(len, T::zero())
    }

    /// Returns a copy of the counters. Those from index `used` on must be 0, and are not read.
    /// Returns an error only if an allocation fails.
    pub fn copied(&self, used: usize) -> Result<Counts<T>, AllocError>
        requires within { used ≤ length self.now.numbers }
        requires rest { (i : ℕ) → used ≤ i → slice_index self.now.numbers i ≡ 0 }
        ensures { IfOk result (λ c. c ≡ self.now) }
    {
        let len = self.counters.len();
        let mut counters = Vec::with_capacity(self.allocator(), len)?;
        counters.extend_from_slice(&self.counters[..used])?;
        counters.resize(len, T::zero())?;
        let mut sums = Vec::with_capacity(self.allocator(), self.sums.len())?;
        sums.extend_from_slice(&self.sums)?;
        Ok(Counts {
            counters,
            sums,
            block: self.block,
            section: self.section,
            shift: self.shift,
        })
    }

    /// The allocator of the counters.
    pub fn allocator(&self) -> Global {
        *self.counters.allocator()
    }

    /// The number of counters.
    pub fn len(&self) -> usize
        ensures value { result ≡ length self.now.numbers }
        ensures at_most { length self.now.numbers ≤ most_bins }
        ensures fit { All (λ n. n ≤ T.greatest) self.now.numbers }
    {
        self.counters.len()
    }

    /// The counters in their order.
    pub fn as_slice(&self) -> &[T]
        ensures { map T.number result.now ≡ self.now.numbers }
    {
        self.counters.as_slice()
    }

    /// Returns the counter at index `i`.
    pub fn get(&self, i: usize) -> T
        requires { i < length self.now.numbers }
        ensures { T.number result ≡ slice_index self.now.numbers i }
    {
        self.counters[i]
    }

    /// Sets the counter at index `i` to `value`.
    pub fn set(&mut self, i: usize, value: T)
        requires { i < length self.old.numbers }
        ensures { self.new ≡ with_number self.old i (T.number value) }
    {
        let k = quotient(i, self.section, self.shift);
        let old = self.counters[i].as_u64();
        let new = value.as_u64();
        self.sums[k] = exchanged(self.sums[k], old, new);
        self.counters[i] = value;
    }

    /// Adds `number` to the counter at index `i`. Returns `None` exactly if the sum is above
    /// `T::max_value()`; `self` is then unchanged.
    pub fn try_add(&mut self, i: usize, number: u64) -> Option<()>
        requires { i < length self.old.numbers }
        ensures { let sum = slice_index self.old.numbers i + number in
            MatchOption result ((T.greatest < sum) × (self.new ≡ self.old))
            (λ _. (sum ≤ T.greatest) × (self.new ≡ with_number self.old i sum)) }
    {
        let sum = self.counters[i].as_u64().checked_add(number)?;
        let counter = T::from_u64(sum)?;
        let k = quotient(i, self.section, self.shift);
        self.sums[k] += u128::from(number);
        self.counters[i] = counter;
        Some(())
    }

    /// Sets each counter to 0. A section whose sum is 0 is skipped.
    pub fn clear(&mut self)
        ensures { self.new ≡ cleared self.old }
    {
        clear_sections(&mut self.counters, &mut self.sums, self.section);
    }

    /// Returns the exact sum of the counters up to and including index `i`, by the sums of the
    /// sections before its own.
    pub fn sum_to(&self, i: usize) -> u128
        requires { i < length self.now.numbers }
        ensures { result ≡ sum_below self.now.numbers (i + 1) }
    {
        let k = quotient(i, self.section, self.shift);
        sum_of_sums(&self.sums[..k]) + self.sum_in_section(k, i)
    }

    /// Returns the first index at which the running sum reaches `rank`, or `None` if there is none.
    /// `ticks` grows by one for each block's sum that is read, up to that of the index's block. It
    /// then grows by one for each counter of that block up to the index. For `None`, each block's
    /// sum was read. A block's sum is added up from those of its sections, or from the counters of
    /// a short block, and costs one tick.
    pub fn find(&self, rank: u64, ticks: &mut Ticks) -> Option<usize>
        requires nonzero { 1 ≤ rank }
        requires ticks_fit { ticks.old ≤ 2 ^ 63 }
        ensures index { MatchOption result (sum self.now.numbers < rank)
            (IsFirstToReach self.now.numbers rank) }
        ensures ticks { ticks.new ≡ ticks.old + looks self.now.block (length self.now.numbers)
            result }
    {
        let mut rest = rank;
        for k in 0..self.counters.len() / self.block {
            let sum = self.look_block(k, ticks);
            if sum >= u128::from(rest) {
                let from = k * self.block;
                let counters = &self.counters[from..from + self.block];
                let place = position_of_rank_counted(counters, rest, ticks)?;
                return Some(from + place);
            }
            rest -= sum as u64;
        }
        None
    }

    /// Returns the sum of block `k`, and counts one tick.
    fn look_block(&self, k: usize, ticks: &mut Ticks) -> u128
        requires within { (k + 1) * self.now.block ≤ length self.now.numbers }
        requires ticks_fit { ticks.old < 2 ^ 64 - 1 }
        ensures value { sum_below self.now.numbers (k * self.now.block) + result
            ≡ sum_below self.now.numbers ((k + 1) * self.now.block) }
        ensures counted { ticks.new ≡ ticks.old + 1 }
    {
        ticks.tick();
        if self.section > self.block {
            let from = k * self.block;
            return sum_of(&self.counters[from..from + self.block]);
        }
        let sections = self.block / self.section;
        let from = k * sections;
        sum_of_sums(&self.sums[from..from + sections])
    }

    /// As `find`, without ticks: returns the first index at which the running sum reaches `rank`.
    pub fn position_of_rank(&self, rank: u64) -> Option<usize>
        requires { 1 ≤ rank }
        ensures { MatchOption result (sum self.now.numbers < rank)
            (IsFirstToReach self.now.numbers rank) }
    {
        Search::new(self).next_position(rank)
    }

    /// Returns the sum of section `k`, or `None` past the sections.
    fn section_sum(&self, k: usize) -> Option<u128>
        ensures sum { MatchOption result (length self.now.numbers ≤ section_start self.now k)
            (λ s. (sum_before self.now k + s ≡ sum_before self.now (k + 1)) × HasSection self.now k) }
        ensures inside { IfSome result (λ _. k < length self.now.numbers) }
        ensures at_most { length self.now.numbers ≤ most_bins }
    {
        if k < self.sums.len() {
            Some(self.sums[k])
        } else {
            None
        }
    }

    /// Returns the first index at which the running sum reaches `rest` more than the sum before
    /// section `k`. It lies in that section.
    fn first_in_section(&self, k: usize, rest: u64) -> usize
        requires nonzero { 1 ≤ rest }
        requires within { HasSection self.now k }
        requires reached { sum_before self.now k + rest ≤ sum_before self.now (k + 1) }
        ensures { IsFirstToReach self.now.numbers (sum_before self.now k + rest) result }
    {
        let from = k * self.section;
        let counters = &self.counters[from..from + self.section];
        match position_in_section(counters, rest, self.sums[k]) {
            Some(place) => from + place,
            // Cannot occur: the sum of the section reaches `rest`.
            None => from,
        }
    }
}

/// Returns the length of the sections of `len` counters in blocks.
#[tactic(auto, unfolding(crate::specs::Blocks::section_of))]
fn section_len(block: usize, len: usize) -> usize
    requires { 1 ≤ block }
    ensures value { result ≡ section_of block len }
    ensures nonzero { 1 ≤ result }
{
    if block < 32 && len > 0 {
        return len;
    }
    own_section(block)
}

/// Returns the length of the sections of a block that has sections of its own: 256 for blocks from
/// 1,024 counters on, 1,024 from 16,384 on, and 4,096 from 131,072 on. Below these it is the length
/// of the block.
#[tactic(auto, unfolding(crate::specs::Blocks::own_section))]
fn own_section(block: usize) -> usize
    requires { 1 ≤ block }
    ensures value { result ≡ own_section block }
    ensures nonzero { 1 ≤ result }
{
    let from_1024 = part_len(block, 1024, 256, block);
    let from_16_384 = part_len(block, 16_384, 1024, from_1024);
    part_len(block, 131_072, 4096, from_16_384)
}

/// Returns `section` if `block` is at least `least` and a multiple of it, or `otherwise` if not.
#[tactic(auto, unfolding(crate::specs::Blocks::parted))]
fn part_len(block: usize, least: usize, section: usize, otherwise: usize) -> usize
    requires { 1 ≤ section }
    ensures { result ≡ parted block least section otherwise }
{
    if block >= least && block % section == 0 {
        section
    } else {
        otherwise
    }
}

/// Returns the exponent of a power of two, or `None` for any other number.
fn exponent(n: usize) -> Option<u32>
    requires { 1 ≤ n }
    ensures { IsShift n result }
{
    let exponent = n.ilog2();
    (1usize << exponent == n).then_some(exponent)
}

/// Returns `sum` with its number `old` replaced by `new`.
fn exchanged(sum: u128, old: u64, new: u64) -> u128
    requires within { old ≤ sum }
    requires fits { sum + new < 2 ^ 128 }
    ensures { result ≡ sum - old + new }
{
    sum - u128::from(old) + u128::from(new)
}

/// Returns `place / section`, by a shift if `section` is a power of two.
fn quotient(place: usize, section: usize, shift: Option<u32>) -> usize
    requires nonzero { 1 ≤ section }
    requires shift { IsShift section shift }
    ensures { result ≡ place / section }
{
    match shift {
        Some(shift) => place >> shift,
        None if place < section => 0,
        None => place / section,
    }
}
