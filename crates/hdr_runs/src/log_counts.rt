//! What is counted of the samples of logs: for each tag, at each level.

ghost use Rattle.std.specs.Prelude.{◌≡◌, ◌≤◌, ℕ, List, [], IfOk, length, map, max};
ghost use Rattle.std.specs.List.{AllZip};
ghost use Rattle.hdr_summary.specs.Classes.{Known};
ghost use Rattle.hdr_runs.specs.LogCounts.{has_mean, is_of_mean};

use hdr_compare::{BatchError, Batching, Tier};
use hdr_logs::{HistogramSink, LogError, LogSums};
use hdr_summary::classes::ClassCounts;
use hdr_summary::levels::{Level, Measure, parse_level_in};
use hdr_summary::means::SampleSum;
use hdr_summary::units::Unit;
use hdrhistogram::Histogram;
use std::alloc::{AllocError, Global};
use std::io::Read;

/// Samples as they were before their values were converted.
#[derive(Clone, Copy)]
pub struct Scaled<'h> {
    pub histogram: &'h Histogram<u64>,
    /// How many units its unit is, 1 or more: 1 if the values are as they were.
    pub factor: u64,
}

/// What is counted of the samples of a tag: those within the bound of each level, and their sum.
#[derive(Drop)]
pub struct TagCounts {
    counts: Vec<ClassCounts>,
    sum: SampleSum,
    /// The intervals of the tag in batches, if percentiles are to have confidence intervals.
    batching: Option<Batching>,
}

impl TagCounts {
    ghost use Rattle.std.specs.Prelude.{OnOk};
    ghost use Rattle.hdr_runs.specs.LogCounts.{CountsIn, HasCounted, JoinsBatches, counts_of, sum_of};

    /// Returns the counts of a tag without samples, whose values have these decimals.
    fn new(
        alloc: Global,
        levels: &[Level<'_>],
        decimals: u32,
        batching: Option<Batching>,
    ) -> Result<TagCounts, AllocError>
        ensures counted { IfOk result (λ tag. decimals ≤ 18 → HasCounted levels.now decimals [] tag) }
        ensures batches { IfOk result (λ tag. tag.batching ≡ batching) }
    {
        Ok(TagCounts {
            counts: empty_counts(alloc, levels, decimals)?,
            sum: SampleSum::EMPTY,
            batching,
        })
    }

    /// The counts of the samples at each level, in order.
    pub fn counts(&self) -> &[ClassCounts]
        ensures { result.now ≡ counts_of self.now }
    {
        &self.counts
    }

    /// Returns the sum of the samples, if one of the levels is of a mean.
    pub fn sum(&self) -> SampleSum
        ensures { result ≡ sum_of self.now }
    {
        self.sum
    }

    /// Adds samples at each level, and to the sum if `is_summed`.
    fn count(&mut self, samples: Scaled<'_>, is_summed: bool)
        ensures counted { CountsIn is_summed samples.entry.factor samples.entry.histogram.now self.old self.new }
        ensures batches { self.new.batching ≡ self.old.batching }
    {
        add_to_each(&mut self.counts, samples);
        if is_summed {
            self.sum.add(samples.histogram, samples.factor);
        }
    }

    /// Adds samples at each level, to the sum if `is_summed`, and the histogram to the batches if there
    /// are any.
    fn add(
        &mut self,
        samples: Scaled<'_>,
        histogram: &Histogram<u64>,
        is_summed: bool,
    ) -> Result<(), BatchError>
        ensures counted { OnOk result (CountsIn is_summed samples.entry.factor samples.entry.histogram.now self.old self.new) }
        ensures batches { OnOk result (JoinsBatches histogram.now self.old.batching self.new.batching) }
    {
        self.count(samples, is_summed);
        match &mut self.batching {
            Some(batching) => batching.add(histogram),
            None => Ok(()),
        }
    }
}

ghost use Rattle.hdr_runs.specs.LogCounts.{AddsClasses, AreCountsAt};

/// Returns the counts of no samples at levels. Values have these decimals.
fn empty_counts(
    alloc: Global,
    levels: &[Level<'_>],
    decimals: u32,
) -> Result<Vec<ClassCounts>, AllocError>
    ensures { IfOk result (λ all. decimals ≤ 18 → AreCountsAt levels.now decimals [] all.items) }
{
    let mut all = Vec::new(alloc);
    for level in levels {
        all.push(ClassCounts::new(level, decimals))?;
    }
    Ok(all)
}

/// Adds samples to each of some counts.
fn add_to_each(all: &mut [ClassCounts], samples: Scaled<'_>)
    ensures { AllZip (AddsClasses samples.entry.factor samples.entry.histogram.now) all.old all.new }
{
    for counts in all.iter_mut() {
        counts.add(samples.histogram, samples.factor);
    }
}

/// The levels of logs as they are written, the unit that the arguments ask for, and the tier if
/// percentiles are to have confidence intervals.
#[derive(Clone, Copy)]
pub struct LogLevels<'a, 'n> {
    pub texts: &'a [&'n str],
    pub asked: Option<Unit>,
    pub tier: Option<Tier>,
}

/// What is counted of the samples of each tag of logs.
#[derive(Drop)]
pub struct LogCounts<'a, 'n> {
    alloc: Global,
    written: LogLevels<'a, 'n>,
    /// The levels in the unit of the values, once it is known.
    levels: Vec<Level<'n>>,
    tags: Vec<TagCounts>,
    /// The significant digits of batches, up to 5.
    sigfig: u8,
}

impl<'a, 'n> LogCounts<'a, 'n> {
    ghost use Rattle.std.specs.Prelude.{◌+◌, ◌<◌, min, OnOk, OnErr, MatchOption, slice_get};
    ghost use Rattle.std.specs.Option.{option_map};
    ghost use Rattle.hdr_runs.specs.LogCounts.{asked_of, batches_of_tag, levels_of, tags_of};
    ghost use Rattle.hdr_runs.specs.LogCounts.{AddsTags, CountsAt, HasCounted, HasCountedAt, InBatches};
    ghost use Rattle.hdr_runs.specs.LogCounts.{AreLevelsOf, JoinsAt, ParsesLevels, TakesConverted};

    /// Returns the counts of no tags. Batches have these significant digits, up to 5.
    pub fn new(alloc: Global, written: LogLevels<'a, 'n>, sigfig: u8) -> LogCounts<'a, 'n>
        ensures asked { asked_of result ≡ record {
          texts = map (λ text. text.now) written.entry.texts.now;
          unit = written.entry.asked;
          tier = written.entry.tier;
          digits = min sigfig 5;
        } }
        ensures levels { levels_of result ≡ [] }
        ensures tags { tags_of result ≡ [] }
    {
        LogCounts {
            alloc,
            written,
            levels: Vec::new(alloc),
            tags: Vec::new(alloc),
            sigfig,
        }
    }

    /// Returns the tier, if percentiles are to have confidence intervals.
    pub fn tier(&self) -> Option<Tier>
        ensures { result ≡ (asked_of self.now).tier }
    {
        self.written.tier
    }

    /// The levels, once the unit of the values is known.
    pub fn levels(&self) -> &[Level<'n>]
        ensures { result.now ≡ levels_of self.now }
    {
        &self.levels
    }

    /// Parses the levels, unless they are parsed. A level without a unit is in that of the printed
    /// values. After an error nothing has changed.
    pub fn parse_levels(&mut self, unit: Option<Unit>) -> Result<(), LogError>
        ensures levels { OnOk result (ParsesLevels self.old self.new) }
        ensures amounts { OnOk result (levels_of self.old ≡ [] → AreLevelsOf self.old unit (levels_of self.new)) }
        ensures tags { tags_of self.new ≡ tags_of self.old }
        ensures unchanged { OnErr result (self.new ≡ self.old) }
    {
        if !self.levels.is_empty() {
            return Ok(());
        }
        self.levels = self.parsed(unit)?;
        Ok(())
    }

    /// Returns the levels for values in `unit`.
    fn parsed(&self, unit: Option<Unit>) -> Result<Vec<Level<'n>>, LogError>
        ensures texts { IfOk result (λ levels. map (λ level. level.text.now) levels.items ≡ (asked_of self.now).texts) }
        ensures levels { IfOk result (λ levels. AreLevelsOf self.now unit levels.items) }
    {
        let LogLevels { texts, asked, .. } = self.written;
        let mut levels = Vec::new(self.alloc);
        for text in texts {
            let Some(level) = parse_level_in(*text, asked.or(unit), unit.or(asked)) else {
                return Err(LogError::NoUnit);
            };
            match levels.push(level) {
                Ok(()) => {}
                Err(_) => return Err(LogError::OutOfMemory),
            }
        }
        Ok(levels)
    }

    /// Adds tags without samples, whose values have these decimals, so that there are `count` or
    /// more.
    pub fn push_tags(&mut self, count: usize, decimals: u32) -> Result<(), BatchError>
        ensures tags { AddsTags decimals self.old self.new }
        ensures count { OnOk result (length (tags_of self.new) ≡ max (length (tags_of self.old)) count) }
    {
        for _ in self.tags.len()..count {
            self.push_tag(decimals)?;
        }
        Ok(())
    }

    /// Adds a tag without samples, whose values have these decimals.
    fn push_tag(&mut self, decimals: u32) -> Result<(), BatchError>
        ensures tags { AddsTags decimals self.old self.new }
        ensures count { OnOk result (length (tags_of self.new) ≡ length (tags_of self.old) + 1) }
    {
        let tag = self.new_tag(decimals)?;
        if self.tags.push(tag).is_err() {
            return Err(BatchError::OutOfMemory);
        }
        Ok(())
    }

    /// Returns a tag without samples, whose values have these decimals.
    fn new_tag(&self, decimals: u32) -> Result<TagCounts, BatchError>
        ensures counted { IfOk result (λ tag. decimals ≤ 18 → HasCounted (levels_of self.now) decimals [] tag) }
        ensures batches { IfOk result (λ tag. InBatches (asked_of self.now).tier (asked_of self.now).digits []
            (batches_of_tag tag)) }
    {
        let batching = self.new_batching()?;
        match TagCounts::new(self.alloc, &self.levels, decimals, batching) {
            Ok(tag) => Ok(tag),
            Err(_) => Err(BatchError::OutOfMemory),
        }
    }

    /// Returns batches without samples if there is a tier.
    fn new_batching(&self) -> Result<Option<Batching>, BatchError>
        ensures { IfOk result (InBatches (asked_of self.now).tier (asked_of self.now).digits []) }
    {
        match self.written.tier {
            Some(_) => Ok(Some(Batching::new(self.alloc, self.sigfig.min(5))?)),
            None => Ok(None),
        }
    }

    /// Takes the histogram of an interval, which is part of the sum at this index. Its values have
    /// these decimals, and this unit if one is known. The samples are counted by the classes that they
    /// had before their values were converted.
    ///
    /// # Errors
    /// Returns `NoUnit` if a level has a unit and the log has none, and `OutOfMemory` if an allocation
    /// fails.
    pub fn take_converted(
        &mut self,
        sum: usize,
        samples: Scaled<'_>,
        histogram: &Histogram<u64>,
        decimals: u32,
        unit: Option<Unit>,
    ) -> Result<(), LogError>
        ensures taken { OnOk result (TakesConverted self.old sum samples.entry.factor samples.entry.histogram.now
            histogram.now decimals self.new) }
        ensures levels { OnOk result (levels_of self.old ≡ [] → AreLevelsOf self.old unit (levels_of self.new)) }
    {
        self.parse_levels(unit)?;
        match self.push_tags(sum.saturating_add(1), decimals) {
            Ok(()) => self.add_at(sum, samples, histogram),
            Err(_) => Err(LogError::OutOfMemory),
        }
    }

    /// Adds samples to the tag of an index, and the histogram to its batches.
    fn add_at(
        &mut self,
        index: usize,
        samples: Scaled<'_>,
        histogram: &Histogram<u64>,
    ) -> Result<(), LogError>
        ensures levels { levels_of self.new ≡ levels_of self.old }
        ensures asked { asked_of self.new ≡ asked_of self.old }
        ensures tags { length (tags_of self.new) ≡ length (tags_of self.old) }
        ensures inside { OnOk result (index < length (tags_of self.new)) }
        ensures samples { OnOk result (CountsAt (levels_of self.old) samples.entry.factor
            samples.entry.histogram.now index (tags_of self.old) (tags_of self.new)) }
        ensures batches { OnOk result (JoinsAt (asked_of self.old) histogram.now index (tags_of self.old)
            (tags_of self.new)) }
    {
        let is_summed = has_mean(&self.levels);
        let Some(tag) = self.tags.get_mut(index) else {
            return Err(LogError::OutOfMemory);
        };
        match tag.add(samples, histogram, is_summed) {
            Ok(()) => Ok(()),
            Err(_) => Err(LogError::OutOfMemory),
        }
    }

    /// Returns the batches of the tag of an index, which then has none.
    pub fn take_batching(&mut self, index: usize) -> Option<Batching>
        ensures batches { MatchOption (slice_get (tags_of self.old) index) (result ≡ None)
            (λ tag. result ≡ batches_of_tag tag) }
        ensures asked { asked_of self.new ≡ asked_of self.old }
        ensures levels { levels_of self.new ≡ levels_of self.old }
        ensures counted { (k decimals : ℕ) (L : List Known)
            → HasCountedAt (levels_of self.old) decimals (tags_of self.old) k L
            → HasCountedAt (levels_of self.old) decimals (tags_of self.new) k L }
    {
        let tag = self.tags.get_mut(index)?;
        tag.batching.take()
    }

    /// Returns the counts of the tag of an index.
    pub fn tag(&self, index: usize) -> Option<&TagCounts>
        ensures { option_map (λ tag. tag.now) result ≡ slice_get (tags_of self.now) index }
    {
        self.tags.get(index)
    }
}

impl LogCounts<'_, '_> {
    ghost use Rattle.std.specs.Prelude.{OnOk};
    ghost use Rattle.hdr_logs.specs.Sums.{AreIndexed, decimals_of_sums, view_of_sums};
    ghost use Rattle.hdr_runs.specs.CountedLogs.{CountsLog};

    /// Reads the log of this index to its end, adds its chosen intervals to their sums, and counts
    /// the samples of each in the tag of its sum.
    ///
    /// # Errors
    /// As `LogSums::read_log`; `NoUnit` if a level has a unit and the log none; `OutOfMemory`.
    pub fn read_log<R: Read + Drop>(
        &mut self,
        alloc: Global,
        sums: &mut LogSums<'_>,
        file: usize,
        reader: R,
    ) -> Result<(), LogError>
        ensures counted { OnOk result (AreIndexed sums.old → CountsLog (R.remaining reader)
            (decimals_of_sums sums.new) (view_of_sums sums.old) (view_of_sums sums.new) self.old self.new) }
        ensures indices { OnOk result (AreIndexed sums.old → AreIndexed sums.new) }
    {
        sums.read_log_into(alloc, file, reader, self)
    }
}

impl HistogramSink for LogCounts<'_, '_> {
    ghost use Rattle.hdr_runs.specs.LogCounts.{TakesHistogram};

    ghost takes = { TakesHistogram };

    fn take_histogram(
        &mut self,
        sum: usize,
        histogram: &Histogram<u64>,
        decimals: u32,
        unit: Option<Unit>,
    ) -> Result<(), LogError> {
        let samples = Scaled {
            histogram,
            factor: 1,
        };
        self.take_converted(sum, samples, histogram, decimals, unit)
    }
}

/// Whether one of levels is of a mean.
fn has_mean(levels: &[Level<'_>]) -> bool
    ensures { result ≡ has_mean levels.now }
{
    levels.iter().any(|level| is_of_mean(level))
}

/// Whether a level is of a mean.
fn is_of_mean(level: &Level<'_>) -> bool
    ensures { result ≡ is_of_mean level.now }
{
    matches!(level.measure, Measure::Mean)
}
