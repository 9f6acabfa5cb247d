//! The sums of the chosen intervals of logs.

pub mod sink;

ghost use Rattle.std.specs.Prelude.{◌≡◌, ◌-◌, ◌^◌, ◌<◌, ◌++◌, ℕ, [], ◌∷◌, List, IfOk, IfSome, OnOk, None, Some, length, unwrap_or};
ghost use Rattle.std.specs.Option.{option_map};
ghost use Rattle.std.specs.String.{string_bytes};
ghost use Rattle.hdr_model.specs.Plain.{Plain};
ghost use Rattle.hdr_log.specs.Tags.{tag_text};
ghost use Rattle.hdrhistogram.specs.Chosen.{view_of_interval_choice};
ghost use Rattle.hdrhistogram.specs.FieldRead.{IsHeldIn};
ghost use Rattle.hdr_logs.specs.Intervals.{LogInterval, LogHolds, view_of_log_interval};
ghost use Rattle.hdr_logs.specs.Sums.{sums_of, view_of_sums, empty_sum, sum_tag, unit_of_sums};
ghost use Rattle.hdr_logs.specs.Sums.{AddsHeld, AddsAll, AddsField, KeepScale};
ghost use Rattle.hdr_logs.specs.Sums.{index_of, AreIndexed, IsSumAt, KeepsOptions, added_at, decimals_of_sums};

use crate::adding::add;
use crate::errors::LogError;
use crate::headers::{check_decimals, check_unit};
use crate::interval::Interval;
use crate::note::Note;
use crate::place::Place;
use crate::reader::{LineBuffer, LogLine, LogReader};
use crate::stored::decoded;
use hdr_input::Unit;
use hdrhistogram::Histogram;
use hdrhistogram::serialization::Deserializer;
use hdrhistogram::serialization::interval_log::{IntervalChoice, Tag};
use std::alloc::Global;
use std::collections::HashMap;
use std::io::Read;

/// The sum of a tag's intervals.
#[derive(Drop)]
pub struct TagSum {
    /// The tag, or `None` for the intervals without a tag, or for all intervals.
    pub tag: Option<String>,
    pub histogram: Histogram<u64>,
}

impl TagSum {
    /// Adds the histogram that the field of an interval holds, which is decoded into the memory of
    /// `spare` and left there. Returns whether it is coarser than the sum.
    fn add_field(
        &mut self,
        deserializer: &mut Deserializer,
        spare: &mut Option<Histogram<u64>>,
        field: &str,
        place: Place,
    ) -> Result<bool, LogError>
        ensures tag { self.new.tag ≡ self.old.tag }
        ensures added { IfOk result (λ coarser. AddsField field.now
            self.old.histogram self.new.histogram spare.new coarser) }
    {
        let source = decoded(deserializer, spare.take(), field, place)?;
        let is_coarser = add(&mut self.histogram, &source)?;
        *spare = Some(source);
        Ok(is_coarser)
    }
}

/// The sums of the chosen intervals of logs.
#[derive(Drop)]
pub struct LogSums<'a> {
    /// The sums, in the order in which their tags were first read.
    pub sums: Vec<TagSum>,
    /// The number of chosen intervals, and of those of them that are coarser than their sum.
    pub chosen: u64,
    pub coarser: u64,
    choice: IntervalChoice<'a>,
    /// The significant digits of sums.
    sigfig: u8,
    /// Whether each tag has a sum of its own.
    is_by_tag: bool,
    /// The indices of the sums of tags, and that of the sum without a tag.
    indices: HashMap<String, usize>,
    untagged: Option<usize>,
    deserializer: Deserializer,
    /// The histogram that was added last: the next one is decoded into its memory.
    spare: Option<Histogram<u64>>,
    /// The decimals of all values so far.
    decimals: Option<u32>,
    /// The unit of all values so far.
    unit: Option<Unit>,
    notes: Vec<Note>,
}

impl<'a> LogSums<'a> {
    /// Returns sums without intervals. Each tag has a sum of its own if `is_by_tag`.
    pub fn new(
        alloc: Global,
        choice: IntervalChoice<'a>,
        sigfig: u8,
        is_by_tag: bool,
    ) -> LogSums<'a>
        ensures options { view_of_sums result ≡ record {
          filter = view_of_interval_choice choice.entry;
          sigfig = sigfig;
          is_by_tag = is_by_tag;
          sums = [];
        } }
        ensures sums { result.sums.items ≡ [] }
        ensures indices { AreIndexed result }
        ensures counts { (result.chosen ≡ 0) × (result.coarser ≡ 0) }
        ensures scale { decimals_of_sums result ≡ 0 }
        ensures unit { unit_of_sums result ≡ None }
    {
        LogSums {
            sums: Vec::new(alloc),
            chosen: 0,
            coarser: 0,
            choice,
            sigfig,
            is_by_tag,
            indices: HashMap::new(alloc),
            untagged: None,
            deserializer: Deserializer::new(alloc),
            spare: None,
            decimals: None,
            unit: None,
            notes: Vec::new(alloc),
        }
    }

    /// Reads the file of this index to its end, and adds its chosen intervals.
    ///
    /// # Errors
    /// Returns an error if the log is not read, if a histogram is invalid, or if an interval has
    /// other decimals or another unit than those before it.
    pub fn read_log<R: Read + Drop>(
        &mut self,
        alloc: Global,
        file: usize,
        reader: R,
    ) -> Result<(), LogError>
        ensures sums { OnOk result (AreIndexed self.old → (all : List LogInterval)
            × IfSome (R.remaining reader) (λ text. LogHolds (view_of_sums self.old).filter text all)
            × AddsAll (view_of_sums self.old) all (view_of_sums self.new)) }
        ensures indices { OnOk result (AreIndexed self.old → AreIndexed self.new) }
        ensures scale { OnOk result (KeepScale self.old self.new) }
    {
        let mut buffer = LineBuffer::new(alloc);
        let mut log = LogReader::new(alloc, file, reader, self.choice)?;
        for _ in 0..u64::MAX {
            match log.next_line(alloc, &mut buffer)? {
                LogLine::Chosen(interval) => {
                    self.add(alloc, &interval)?;
                }
                LogLine::Other => {}
                LogLine::End => {
                    self.notes.extend_from_slice(log.notes())?;
                    return Ok(());
                }
            }
        }
        Err(LogError::TooManyLines)
    }

    /// The lines of the logs that were not read, at most 100 of each log.
    pub fn notes(&self) -> &[Note] {
        &self.notes
    }

    /// Returns the decimals of the values.
    pub fn decimals(&self) -> u32
        ensures { result ≡ decimals_of_sums self.now }
    {
        self.decimals.unwrap_or(0)
    }

    /// Returns the unit of the values, if a comment has one.
    pub fn unit(&self) -> Option<Unit>
        ensures { result ≡ unit_of_sums self.now }
    {
        self.unit
    }

    /// Returns an error if the values of an interval have other decimals or another unit than those
    /// before.
    fn check_scale(&mut self, interval: &Interval<'_>) -> Result<(), LogError>
        ensures options { KeepsOptions self.old self.new }
        ensures sums { self.new.sums ≡ self.old.sums }
        ensures indices { AreIndexed self.old → AreIndexed self.new }
        ensures decimals { OnOk result (self.new.decimals ≡ Some (unwrap_or interval.now.decimals 0)) }
        ensures unit { OnOk result (self.new.unit ≡ interval.now.unit) }
        ensures known { (d : ℕ) → self.old.decimals ≡ Some d → self.new.decimals ≡ Some d }
        ensures known_unit { (d : ℕ) → self.old.decimals ≡ Some d → self.new.unit ≡ self.old.unit }
    {
        let decimals = interval.decimals.unwrap_or(0);
        if self.decimals.is_none() {
            self.unit = interval.unit;
        }
        let others = *self.decimals.get_or_insert(decimals);
        check_unit(interval.place, interval.unit, self.unit)?;
        check_decimals(interval.place, interval.decimals, others)
    }

    /// Returns the index of the sum of a tag, which is added if it is new.
    fn index_of(&mut self, alloc: Global, tag: Option<Tag<'_>>) -> Result<usize, LogError>
        ensures options { KeepsOptions self.old self.new }
        ensures index { IfOk result (λ index. AreIndexed self.old → IsSumAt self.old.sigfig
            (sums_of self.old) (sums_of self.new)
            (sum_tag self.old.is_by_tag (option_map tag_text tag.entry)) index) }
        ensures found { IfOk result (λ index. AreIndexed self.old → index_of
            (sum_tag self.old.is_by_tag (option_map tag_text tag.entry)) (sums_of self.new)
            ≡ Some index) }
        ensures indices { OnOk result (AreIndexed self.old → AreIndexed self.new) }
        ensures decimals { self.new.decimals ≡ self.old.decimals }
        ensures unit { self.new.unit ≡ self.old.unit }
    {
        let tag = if self.is_by_tag { tag } else { None };
        match tag {
            None => match self.untagged {
                Some(index) => Ok(index),
                None => {
                    let index = self.push_sum(alloc, None)?;
                    self.untagged = Some(index);
                    Ok(index)
                }
            },
            Some(tag) => self.index_of_tag(alloc, tag.as_str()),
        }
    }

    /// Returns the index of the sum of a tag of this text, which is added if it is new.
    fn index_of_tag(&mut self, alloc: Global, tag: &str) -> Result<usize, LogError>
        ensures options { KeepsOptions self.old self.new }
        ensures index { IfOk result (λ index. AreIndexed self.old → IsSumAt self.old.sigfig
            (sums_of self.old) (sums_of self.new) (Some tag.now) index) }
        ensures found { IfOk result (λ index. AreIndexed self.old
            → index_of (Some tag.now) (sums_of self.new) ≡ Some index) }
        ensures indices { OnOk result (AreIndexed self.old → AreIndexed self.new) }
        ensures decimals { self.new.decimals ≡ self.old.decimals }
        ensures unit { self.new.unit ≡ self.old.unit }
    {
        if let Some(index) = self.indices.get(tag) {
            return Ok(*index);
        }
        let key = String::from_str(alloc, tag)?;
        let tag = String::from_str(alloc, tag)?;
        let index = self.push_sum(alloc, Some(tag))?;
        self.indices.insert(key, index)?;
        Ok(index)
    }

    /// Adds an empty sum, and returns its index.
    fn push_sum(&mut self, alloc: Global, tag: Option<String>) -> Result<usize, LogError>
        ensures options { KeepsOptions self.old self.new }
        ensures index { IfOk result (λ index. index ≡ length self.old.sums.items) }
        ensures sums { OnOk result (sums_of self.new
            ≡ sums_of self.old ++ empty_sum self.old.sigfig (option_map string_bytes tag) ∷ []) }
        ensures indices { self.new.indices ≡ self.old.indices }
        ensures untagged { self.new.untagged ≡ self.old.untagged }
        ensures decimals { self.new.decimals ≡ self.old.decimals }
        ensures unit { self.new.unit ≡ self.old.unit }
    {
        let index = self.sums.len();
        let histogram = Histogram::new(alloc, self.sigfig)?;
        self.sums.push(TagSum { tag, histogram })?;
        Ok(index)
    }

    /// Adds the histogram of an interval to the sum at an index.
    fn add_at(&mut self, index: usize, interval: &Interval<'_>) -> Result<(), LogError>
        ensures options { KeepsOptions self.old self.new }
        ensures added { OnOk result (index < length self.old.sums.items → (h : Plain)
            × IsHeldIn (2 ^ 64 - 1) (view_of_log_interval interval.now).field h
            × (sums_of self.new ≡ added_at index (sums_of self.old) h) × (self.new.spare ≡ Some h)) }
        ensures indices { self.new.indices ≡ self.old.indices }
        ensures untagged { self.new.untagged ≡ self.old.untagged }
        ensures decimals { self.new.decimals ≡ self.old.decimals }
        ensures unit { self.new.unit ≡ self.old.unit }
    {
        let Some(sum) = self.sums.get_mut(index) else {
            return Ok(());
        };
        let place = interval.place;
        let is_coarser = sum.add_field(
            &mut self.deserializer,
            &mut self.spare,
            interval.field,
            place,
        )?;
        self.coarser = self.coarser.saturating_add(u64::from(is_coarser));
        Ok(())
    }

    /// Adds the histogram of a chosen interval to the sum of its tag, and returns the index of that
    /// sum.
    fn add(&mut self, alloc: Global, interval: &Interval<'_>) -> Result<usize, LogError>
        ensures added { OnOk result (AreIndexed self.old → AddsHeld (view_of_sums self.old)
            (view_of_log_interval interval.now) (view_of_sums self.new) self.new.spare) }
        ensures index { IfOk result (λ index. AreIndexed self.old → index_of (sum_tag self.old.is_by_tag
            (view_of_log_interval interval.now).tag) (sums_of self.new) ≡ Some index) }
        ensures choice { self.new.choice ≡ self.old.choice }
        ensures indices { OnOk result (AreIndexed self.old → AreIndexed self.new) }
        ensures decimals { OnOk result (self.new.decimals ≡ Some (unwrap_or interval.now.decimals 0)) }
        ensures unit { OnOk result (self.new.unit ≡ interval.now.unit) }
        ensures known { (d : ℕ) → self.old.decimals ≡ Some d → self.new.decimals ≡ Some d }
        ensures known_unit { (d : ℕ) → self.old.decimals ≡ Some d → self.new.unit ≡ self.old.unit }
    {
        self.check_scale(interval)?;
        let index = self.index_of(alloc, interval.tag)?;
        self.add_at(index, interval)?;
        self.chosen = self.chosen.saturating_add(1);
        Ok(index)
    }
}
