//! The chosen intervals of logs, whose histograms are not decoded yet.

ghost use Rattle.std.specs.Prelude.{◌≡◌, ◌∷◌, [], ℕ, List, Option, OnOk, IfOk, IfErr, IfSome, map, take, drop, unwrap_or};
ghost use Rattle.std.specs.List.{All, AllZip, count_by};
ghost use Rattle.std.specs.Option.{option_map};
ghost use Rattle.hdr_log.specs.Tags.{tag_text};
ghost use Rattle.hdrhistogram.specs.Chosen.{view_of_interval_choice};
ghost use Rattle.hdr_logs.specs.Intervals.{LogInterval, LogHolds, view_of_log_interval};
ghost use Rattle.hdr_logs.specs.FileNames.{in_file};
ghost use Rattle.hdr_logs.specs.Stored.{AddsOfFile, Keeps, Pushes, HaveSameDecimals, HaveSameUnit, decimals_of, intervals_of};
ghost use Rattle.hdr_logs.specs.Aligned.{LieOver};
ghost use Rattle.hdr_logs.specs.Scales.{is_coarser, IsFactor, IsFinest, IsIn, IsConverted, IsOneScaleError, IsScaleError};

use crate::aligning::{begin_at, first_start};
use crate::errors::LogError;
use crate::interval::Interval;
use crate::note::Note;
use crate::reader::{LineBuffer, LogLine, LogReader};
use crate::scales::{Converter, finest_scale};
use crate::stored::StoredInterval;
use hdr_input::Unit;
use hdrhistogram::serialization::interval_log::{IntervalChoice, Tag};
use std::alloc::Global;
use std::io::Read;

/// The chosen intervals of logs, in order.
#[derive(Drop)]
pub struct LogIntervals {
    pub list: Vec<StoredInterval>,
    /// How many of them have other values, since they were converted to the scale of others.
    pub converted: u64,
    notes: Vec<Note>,
}

impl LogIntervals {
    /// Returns no intervals.
    pub fn new(alloc: Global) -> LogIntervals
        ensures { result.list.items ≡ [] }
    {
        LogIntervals {
            list: Vec::new(alloc),
            converted: 0,
            notes: Vec::new(alloc),
        }
    }

    /// Reads the file of this index to its end, and adds its chosen intervals. If the file has a
    /// name, their tags end with that.
    ///
    /// # Errors
    /// Returns an error if the log is not read, or if an interval begins past 64 bits of milliseconds.
    pub fn read_log<R: Read + Drop>(
        &mut self,
        alloc: Global,
        file: usize,
        reader: R,
        choice: IntervalChoice<'_>,
        file_name: Option<Tag<'_>>,
    ) -> Result<(), LogError>
        ensures kept { OnOk result ((all : List LogInterval)
            × IfSome (R.remaining reader) (λ text. LogHolds (view_of_interval_choice choice.entry) text all)
            × Keeps self.old (map (in_file (option_map tag_text file_name.entry)) all) self.new) }
        ensures files { OnOk result (AddsOfFile file self.old self.new) }
    {
        let mut buffer = LineBuffer::new(alloc);
        let mut log = LogReader::new(alloc, file, reader, choice)?;
        for _ in 0..u64::MAX {
            match log.next_line(alloc, &mut buffer)? {
                LogLine::Chosen(interval) => self.push(alloc, &interval, file_name)?,
                LogLine::Other => {}
                LogLine::End => {
                    self.notes.extend_from_slice(log.notes())?;
                    return Ok(());
                }
            }
        }
        Err(LogError::TooManyLines)
    }

    /// Adds an interval.
    fn push(
        &mut self,
        alloc: Global,
        interval: &Interval<'_>,
        file_name: Option<Tag<'_>>,
    ) -> Result<(), LogError>
        ensures kept { OnOk result (Keeps self.old
            (in_file (option_map tag_text file_name.entry) (view_of_log_interval interval.now) ∷ [])
            self.new) }
        ensures scale { OnOk result (Pushes interval.now.decimals interval.now.unit interval.now.place
            self.old self.new) }
    {
        let interval = StoredInterval::new(alloc, interval, file_name)?;
        self.list.push(interval)?;
        Ok(())
    }

    /// Converts the values of all intervals to one scale: to the finest of their units, and to as
    /// many decimals as one of them has in that unit. Of a class, the greatest value is converted.
    /// `converted` is then the number of intervals that have other values.
    ///
    /// # Errors
    /// Returns `MissingUnit` if some intervals have a unit and others have none, `TooLarge` if a value
    /// does not fit 64 bits, `Field` if a field holds no histogram, `Write` if a count does not fit
    /// 63 bits, or `OutOfMemory`. Some intervals may then be converted.
    pub fn convert_to_one_scale(&mut self, alloc: Global) -> Result<(), LogError>
        ensures errors { IfErr result (IsOneScaleError self.old.list.items) }
        ensures scale { OnOk result ((decimals : ℕ) × (unit : Option Unit)
            × IsFinest self.old.list.items decimals unit × All (IsIn decimals unit) self.new.list.items
            × (self.new.converted ≡ count_by (is_coarser decimals unit) self.old.list.items)) }
        ensures converted { OnOk result (AllZip IsConverted self.old.list.items self.new.list.items) }
        ensures decimals { OnOk result (HaveSameDecimals self.new) }
        ensures unit { OnOk result (HaveSameUnit self.new) }
    {
        let scale = finest_scale(&self.list)?;
        self.converted = Converter::new(alloc).convert_all(&mut self.list, scale)?;
        Ok(())
    }

    /// Returns by which factors `convert_to_one_scale` would multiply the values of the intervals, in
    /// order.
    ///
    /// # Errors
    /// Returns `MissingUnit` if some intervals have a unit and others have none, `TooLarge` if a factor
    /// does not fit 64 bits, or `OutOfMemory`.
    pub fn factors(&self, alloc: Global) -> Result<Vec<u64>, LogError>
        ensures factors { IfOk result (λ factors. (decimals : ℕ) × (unit : Option Unit)
            × IsFinest self.now.list.items decimals unit
            × AllZip (IsFactor decimals unit) self.now.list.items factors.items) }
        ensures errors { IfErr result (IsScaleError self.now.list.items) }
    {
        let scale = finest_scale(&self.list)?;
        scale.factors(alloc, &self.list)
    }

    /// Moves the intervals from this index on by the same time, so that the first of them begins
    /// with the first of those before. If there are none before, they stay.
    ///
    /// # Errors
    /// Returns `TooLate` if an interval would begin past 64 bits of milliseconds.
    pub fn align_from(&mut self, index: usize) -> Result<(), LogError>
        ensures aligned { OnOk result (LieOver (take index (intervals_of self.old))
            (drop index (intervals_of self.old)) (intervals_of self.new)) }
        ensures decimals { OnOk result (HaveSameDecimals self.old → HaveSameDecimals self.new) }
        ensures unit { OnOk result (HaveSameUnit self.old → HaveSameUnit self.new) }
    {
        let index = index.min(self.list.len());
        let (before, rest) = self.list.split_at_mut(index);
        match first_start(before) {
            Some(start) => begin_at(rest, start),
            None => Ok(()),
        }
    }

    /// Returns the decimals of the values, if a comment has them.
    pub fn decimals(&self) -> Option<u32>
        ensures { HaveSameDecimals self.now
            → All (λ s. decimals_of s ≡ unwrap_or result 0) self.now.list.items }
    {
        self.list.iter().find_map(|interval| interval.decimals)
    }

    /// Returns the unit of the values, if a comment has one.
    pub fn unit(&self) -> Option<Unit>
        ensures { HaveSameUnit self.now → All (λ s. s.unit ≡ result) self.now.list.items }
    {
        match self.list.first() {
            Some(interval) => interval.unit,
            None => None,
        }
    }

    /// The lines of the logs that were not read, at most 100 of each log.
    pub fn notes(&self) -> &[Note] {
        &self.notes
    }
}
