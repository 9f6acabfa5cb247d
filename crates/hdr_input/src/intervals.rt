//! Numbers with times, cut into intervals of one length.

mod reading;

ghost use Rattle.std.specs.Prelude.{◌≡◌, ℕ, ◌++◌, [], ◌∷◌, ◌<◌, ◌≤◌, max, nat_lt, ◌==◌, not, length, if◌then◌else◌};
ghost use Rattle.std.specs.Prelude.{true, false, IfOk, OnOk, OnErr, vec_len};
ghost use Rattle.std.specs.List.{All, list_all, list_any};
ghost use Rattle.std.specs.List.Sorted.{IsPermutation};
ghost use Rattle.hdr_input.specs.TimeSlices.{begins_before, begins_by, AreInOrder};

use crate::errors::InputError;
use crate::group_texts::GroupTexts;
use crate::tally::{Recording, Tally};
use crate::times::{TimeUnit, Times};
use hdrhistogram::{CreationError, Histogram};
use std::alloc::{AllocError, Global};
use std::collections::HashMap;
use std::mem;

/// An interval with numbers.
#[derive(Drop)]
pub struct TimeSlice {
    /// The number of the interval, which begins at as many lengths after 0.
    pub number: u64,
    /// The index of the text of its group.
    pub group: usize,
    pub histogram: Histogram<u64>,
}

/// Numbers, cut into intervals by their times and groups.
#[derive(Drop)]
pub struct Intervals<'l, 'n> {
    /// The intervals with numbers, in the order in which they were first read.
    pub intervals: Vec<TimeSlice>,
    pub groups: GroupTexts,
    /// Converts numbers to units, and counts the lines skipped. Its histogram stays empty.
    pub tally: Tally,
    numbers: u64,
    alloc: Global,
    sigfig: u8,
    cut: Cut<'l, 'n>,
    times: Times,
    /// The number read last, in units, how often it counts, and whether it was rounded.
    units: u64,
    count: u64,
    is_rounded: bool,
    /// The index of the interval used last.
    last: usize,
    /// The indices of the intervals by their numbers and groups.
    indices: HashMap<(u64, usize), usize>,
    /// The number of the latest interval.
    latest: u64,
    /// Whether the latest interval began after others, which are complete if times do not fall.
    has_complete: bool,
    /// The intervals before this number were taken.
    open_from: u64,
    late_count: u64,
    /// No interval begins after the latest one.
    ghost is_latest: { list_all (begins_by latest) intervals.items ≡ true },
    ghost is_complete: { has_complete ≡ true → list_any (begins_before latest) intervals.items ≡ true },
}

/// How numbers are divided into intervals.
#[derive(Clone, Copy)]
pub struct Cut<'l, 'n> {
    /// The length of an interval in nanoseconds, or `None` if numbers have no times.
    pub length: Option<u64>,
    /// The unit of the times, or `None` if the first time of a file determines it.
    pub time_unit: Option<TimeUnit>,
    /// The names of the columns of the texts that have groups. Without any there is one group.
    pub groups: &'l [&'n str],
}

impl<'l, 'n> Intervals<'l, 'n> {
    ghost use Rattle.hdr_input.specs.Intervals.{held, latest_of, taken_to, late_of, has_later, KeepsTimes};
    ghost use Rattle.hdr_input.specs.Intervals.{length_of, count_of, number_at, with_late, KeepsNumber};

    /// Returns no intervals yet.
    pub fn new(
        alloc: Global,
        recording: Recording,
        cut: Cut<'l, 'n>,
    ) -> Result<Intervals<'l, 'n>, CreationError>
        ensures none { IfOk result (λ read. held read ≡ []) }
        ensures late { IfOk result (λ read. late_of read ≡ 0) }
        ensures taken_to { IfOk result (λ read. taken_to read ≡ 0) }
        ensures later { IfOk result (λ read. has_later read ≡ false) }
    {
        Ok(Intervals {
            intervals: Vec::new(alloc),
            groups: GroupTexts::new(alloc),
            tally: Tally::new(alloc, recording)?,
            numbers: 0,
            alloc,
            sigfig: recording.sigfig,
            cut,
            times: Times::new(cut.time_unit),
            units: 0,
            count: 0,
            is_rounded: false,
            last: 0,
            indices: HashMap::new(alloc),
            latest: 0,
            has_complete: false,
            open_from: 0,
            late_count: 0,
        })
    }

    /// Whether an interval has begun after others, since intervals were taken last. These others are
    /// then complete.
    pub fn has_complete(&self) -> bool
        ensures value { result ≡ has_later self.now }
        ensures some { result ≡ true
            → list_any (begins_before (latest_of self.now)) (held self.now) ≡ true }
    {
        self.has_complete
    }

    /// Removes the intervals before the latest one, and returns them in order of time, and at one
    /// time in the order of their groups. A number that is read of such a time later is late, and
    /// begins an interval of that time again.
    ///
    /// # Errors
    /// Returns an error if an allocation fails. Intervals may then be lost.
    pub fn take_complete(&mut self) -> Result<Vec<TimeSlice>, AllocError>
        // What is returned, and what stays.
        ensures all { IfOk result
            (λ complete. IsPermutation (held self.old) (complete.items ++ held self.new)) }
        ensures order { IfOk result (λ complete. AreInOrder complete.items) }
        ensures complete { IfOk result
            (λ complete. All (λ s. s.number < latest_of self.old) complete.items) }
        ensures rest { OnOk result (All (λ s. s.number ≡ latest_of self.old) (held self.new)) }

        // Numbers are late from now on if they are of a time before the latest interval.
        ensures later { OnOk result (has_later self.new ≡ false) }
        ensures latest { latest_of self.new ≡ latest_of self.old }
        ensures taken_to { OnOk result (taken_to self.new ≡ latest_of self.old) }
        ensures late { late_of self.new ≡ late_of self.old }
    {
        let mut complete = Vec::new(self.alloc);
        for slice in self.take_all()? {
            if slice.number < self.latest {
                complete.push(slice).map_err(|_| AllocError)?;
            } else {
                self.push(slice)?;
            }
        }
        self.open_from = self.latest;
        Ok(complete)
    }

    /// Removes all intervals, and returns them in the order of `take_complete`.
    ///
    /// # Errors
    /// Returns an error if an allocation fails. The intervals are then unchanged.
    pub fn take_all(&mut self) -> Result<Vec<TimeSlice>, AllocError>
        // What is returned, and what stays.
        ensures all { IfOk result (λ all. IsPermutation (held self.old) all.items) }
        ensures order { IfOk result (λ all. AreInOrder all.items) }
        ensures rest { OnOk result (held self.new ≡ []) }

        // No number is late by this.
        ensures later { OnOk result (has_later self.new ≡ false) }
        ensures times { KeepsTimes self.old self.new }
        ensures err { OnErr result (held self.new ≡ held self.old) }
    {
        self.intervals
            .sort_by_key(|slice: &TimeSlice| (slice.number, slice.group))?;
        self.indices.clear();
        self.has_complete = false;
        Ok(mem::replace(&mut self.intervals, Vec::new(self.alloc)))
    }

    /// Appends an interval, and returns its index.
    fn push(&mut self, slice: TimeSlice) -> Result<usize, AllocError>
        requires { slice.number ≤ latest_of self.old }
        // The interval comes last.
        ensures held { OnOk result (held self.new ≡ held self.old ++ slice ∷ []) }
        ensures index { IfOk result (λ index. index ≡ vec_len self.old.intervals) }

        // All else is unchanged, and after an error the intervals are, too.
        ensures later { has_later self.new ≡ has_later self.old }
        ensures times { KeepsTimes self.old self.new }
        ensures number { KeepsNumber self.old self.new }
        ensures err { OnErr result (held self.new ≡ held self.old) }
    {
        let index = self.intervals.len();
        self.indices
            .insert((slice.number, slice.group), index)
            .map_err(|_| AllocError)?;
        self.intervals.push(slice).map_err(|_| AllocError)?;
        Ok(index)
    }

    /// Returns how many numbers were read after the intervals of their times were taken by
    /// `take_complete`.
    pub fn late(&self) -> u64
        ensures { result ≡ late_of self.now }
    {
        self.late_count
    }

    /// Returns the index of the interval of this number and group, which is added if it is new.
    fn index_of(&mut self, number: u64, group: usize) -> Result<usize, AllocError>
        ensures latest { latest_of self.old ≤ latest_of self.new }
        ensures taken_to { taken_to self.new ≡ taken_to self.old }
        ensures late { late_of self.new ≡ late_of self.old }
        ensures number { KeepsNumber self.old self.new }
    {
        let last = self.intervals.get(self.last);
        if last.is_some_and(|slice| slice.number == number && slice.group == group) {
            return Ok(self.last);
        }
        if let Some(index) = self.indices.get(&(number, group)) {
            return Ok(*index);
        }
        let histogram = Histogram::new(self.alloc, self.sigfig).map_err(|_| AllocError)?;
        self.raise_latest(number);
        self.push(TimeSlice {
            number,
            group,
            histogram,
        })
    }

    /// Makes an interval the latest one, if it begins after that. The others are then complete.
    fn raise_latest(&mut self, number: u64)
        ensures latest { latest_of self.new ≡ max (latest_of self.old) number }
        ensures later { has_later self.new ≡ (if nat_lt (latest_of self.old) number
            then not (length (held self.old) == 0) else has_later self.old) }
        ensures held { held self.new ≡ held self.old }
        ensures taken_to { taken_to self.new ≡ taken_to self.old }
        ensures late { late_of self.new ≡ late_of self.old }
        ensures number { KeepsNumber self.old self.new }
    {
        if number > self.latest {
            self.latest = number;
            self.has_complete = !self.intervals.is_empty();
        }
    }

    /// Returns how many numbers were recorded, without missing samples.
    pub fn numbers(&self) -> u64 {
        self.numbers
    }

    /// Records the number read last in the interval of a time in nanoseconds, and of a group. It is
    /// late if intervals of its time were taken.
    fn record_in(&mut self, time: u64, group: &[u8]) -> Result<(), InputError>
        ensures latest { latest_of self.old ≤ latest_of self.new }
        ensures taken_to { taken_to self.new ≡ taken_to self.old }
        ensures late { OnOk result (late_of self.new ≡ with_late (taken_to self.old)
            (number_at (length_of self.old) time) (count_of self.old) (late_of self.old)) }
        ensures err { OnErr result (late_of self.new ≡ late_of self.old) }
    {
        let group = match self.groups.add(self.alloc, group) {
            Ok(group) => group,
            Err(error) => return Err(InputError::of_groups(self.alloc, self.cut.groups, error)),
        };
        let number = self.number_at(time);
        self.last = self.index_of(number, group)?;
        self.record_at(self.last)?;
        self.tally.count_rounded(self.is_rounded);
        self.numbers = self.numbers.wrapping_add(self.count);
        self.count_late(number);
        Ok(())
    }

    /// Returns the number of the interval of a time in nanoseconds.
    fn number_at(&self, time: u64) -> u64
        ensures { result ≡ number_at (length_of self.now) time }
    {
        match self.cut.length {
            Some(length) => time.checked_div(length).unwrap_or(0),
            None => 0,
        }
    }

    /// Counts the number read last if it is late: if the interval of this number was taken.
    fn count_late(&mut self, number: u64)
        ensures late { late_of self.new
            ≡ with_late (taken_to self.old) number (count_of self.old) (late_of self.old) }
        ensures latest { latest_of self.new ≡ latest_of self.old }
        ensures taken_to { taken_to self.new ≡ taken_to self.old }
    {
        if number < self.open_from {
            self.late_count = self.late_count.saturating_add(self.count);
        }
    }

    /// Records the number read last in the interval at an index.
    fn record_at(&mut self, index: usize) -> Result<(), InputError>
        ensures later { has_later self.new ≡ has_later self.old }
        ensures times { KeepsTimes self.old self.new }
        ensures number { KeepsNumber self.old self.new }
    {
        let missing = self.tally.interval;
        match self.intervals.get_mut(index) {
            Some(slice) => slice
                .histogram
                .record_n_correct(self.units, self.count, missing)
                .map_err(|_| InputError::OutOfMemory),
            None => Ok(()),
        }
    }
}
