//! A log that is read interval by interval.

ghost use Rattle.std.specs.Prelude.{◌≡◌, ◌↔◌, ◌<◌, ◌++◌, ◌+◌, List, None, IfOk, IfErr, IfSome, IsSome, IsSomeAnd, IsTrue, OnOk, OnErr, option_and_then};
ghost use Rattle.std.specs.Option.{option_map};
ghost use Rattle.hdr_log.specs.Tags.{tag_text};
ghost use Rattle.hdrhistogram.specs.Chosen.{view_of_interval_choice};
ghost use Rattle.hdr_logs.specs.Reading.{decimals_at, unit_at};
ghost use Rattle.hdr_logs.specs.Stored.{Stored};
ghost use Rattle.hdr_gather.specs.Left.{LogHolds, next_interval, next_start, UnreadHold, HasLeft};
ghost use Rattle.hdr_gather.specs.Left.{IsKnown, IsNotSorted, IsReady, IsReadyAt, IsFrom, IsNextIn, scale_of};

use hdr_input::Unit;
use hdr_logs::{LineBuffer, LogError, LogLine, LogReader, Note, StoredInterval};
use hdrhistogram::serialization::interval_log::{IntervalChoice, Tag};
use std::alloc::Global;
use std::io::Read;
use std::mem;

/// A log that is read interval by interval. It holds the next one.
#[derive(Drop)]
pub struct PeekableLog<'c, R> {
    log: LogReader<'c, R>,
    buffer: LineBuffer,
    /// The name of its file, with which tags end, if they are by file.
    file_name: Option<Tag<'c>>,
    next: Option<StoredInterval>,
}

impl<'c, R: Read + Drop> PeekableLog<'c, R> {
    /// Returns a reader of the chosen intervals of the file of this index, of which nothing is read
    /// yet. If the file has a name, their tags end with that.
    ///
    /// # Errors
    /// Returns an error if an allocation fails.
    pub fn new(
        alloc: Global,
        file: usize,
        reader: R,
        choice: IntervalChoice<'c>,
        file_name: Option<Tag<'c>>,
    ) -> Result<PeekableLog<'c, R>, LogError>
        ensures log { IfOk result (λ log. (all : List Stored) → HasLeft R.remaining log all
            → IfSome (R.remaining reader) (λ text. LogHolds (view_of_interval_choice choice.entry)
            (option_map tag_text file_name.entry) text all)) }
        ensures known { IfOk result (λ log. IsSome (R.remaining reader) → IsKnown R.remaining log) }
    {
        Ok(PeekableLog {
            log: LogReader::new(alloc, file, reader, choice)?,
            buffer: LineBuffer::new(alloc),
            file_name,
            next: None,
        })
    }

    /// Returns when the next interval begins, or `None` at the end of the log.
    pub(crate) fn next_start(&self) -> Option<u64>
        ensures { result ≡ next_start self.now }
    {
        self.next.as_ref().map(|next| next.start)
    }

    /// Returns the decimals of the next interval's values, if a comment has them.
    pub(crate) fn next_decimals(&self) -> Option<u32>
        ensures { result ≡ option_and_then (λ s. s.decimals) self.now.next }
    {
        self.next.as_ref().and_then(|next| next.decimals)
    }

    /// Returns the unit of the next interval's values, if a comment has one.
    pub(crate) fn next_unit(&self) -> Option<Unit>
        ensures { result ≡ option_and_then (λ s. s.unit) self.now.next }
    {
        self.next.as_ref().and_then(|next| next.unit)
    }

    /// Returns the decimals and the unit of the next interval's values, or `None` at the end of the log.
    pub(crate) fn next_scale(&self) -> Option<(u32, Option<Unit>)>
        ensures { result ≡ option_map scale_of self.now.next }
    {
        match &self.next {
            Some(next) => Some((next.decimals.unwrap_or(0), next.unit)),
            None => None,
        }
    }

    /// Whether the next interval's values, if there is one, have these decimals and this unit.
    pub(crate) fn is_next_in(&self, decimals: u32, unit: Option<Unit>) -> bool
        ensures { IsTrue result ↔ IsNextIn decimals unit self.now }
    {
        match &self.next {
            Some(next) => next.decimals.unwrap_or(0) == decimals && next.unit == unit,
            None => true,
        }
    }

    /// Reads up to the first interval, unless one is held.
    pub(crate) fn begin(&mut self, alloc: Global) -> Result<(), LogError>
        ensures left { OnOk result ((all : List Stored) → HasLeft R.remaining self.new all
            → HasLeft R.remaining self.old all) }
        ensures ready { OnOk result (IsKnown R.remaining self.old → IsReady R.remaining self.new) }
    {
        if self.next.is_some() {
            return Ok(());
        }
        self.next = self.read(alloc)?;
        Ok(())
    }

    /// Returns the next interval if it begins at `start`, and then reads up to the one after it.
    ///
    /// # Errors
    /// Returns `NotSorted` if that begins before `start`, or an error of reading.
    pub(crate) fn next_at(
        &mut self,
        alloc: Global,
        start: u64,
    ) -> Result<Option<StoredInterval>, LogError>
        ensures left { IfOk result (λ taken. (all : List Stored) → HasLeft R.remaining self.new all
            → HasLeft R.remaining self.old (next_interval taken ++ all)) }
        ensures ready { OnOk result (IsReady R.remaining self.old → IsReady R.remaining self.new) }
        ensures taken { IfOk result (λ taken. IfSome taken (λ i. i.start ≡ start)) }
        ensures from { OnOk result (IsFrom start self.old → IsFrom start self.new) }
        ensures end { IfOk result (λ taken. taken ≡ None → IsFrom start self.old
            → IsFrom (start + 1) self.new) }
        ensures errors { IfErr result (λ e. IsNotSorted e
            → IsSomeAnd (next_start self.new) (λ next. next < start)) }
    {
        if self.next_start() != Some(start) {
            return Ok(None);
        }
        let next = self.read(alloc)?;
        let taken = mem::replace(&mut self.next, next);
        self.check_order(start)?;
        Ok(taken)
    }

    /// Returns an error if the next interval begins before this time.
    fn check_order(&self, start: u64) -> Result<(), LogError>
        ensures ok { OnOk result (IsFrom start self.now) }
        ensures err { OnErr result (IsSomeAnd (next_start self.now) (λ next. next < start)) }
    {
        if self.next_start().is_some_and(|next| next < start) {
            return Err(LogError::NotSorted(self.log.place()));
        }
        Ok(())
    }

    /// Reads up to the next interval, and returns it.
    fn read(&mut self, alloc: Global) -> Result<Option<StoredInterval>, LogError>
        ensures next { self.new.next ≡ self.old.next }
        ensures left { IfOk result (λ next. (rest : List Stored) → UnreadHold R.remaining self.new rest
            → UnreadHold R.remaining self.old (next_interval next ++ rest)) }
        ensures ready { IfOk result (λ next. IsKnown R.remaining self.old
            → IsReadyAt R.remaining self.new next) }
        ensures errors { IfErr result (λ e. IsNotSorted e → ⊥) }
        ensures scale { IfOk result (λ next. IfSome next (λ s. (s.decimals ≡ decimals_at self.new.log)
            × (s.unit ≡ unit_at self.new.log))) }
    {
        for _ in 0..u64::MAX {
            match self.log.next_line(alloc, &mut self.buffer)? {
                LogLine::Chosen(interval) => {
                    let interval = StoredInterval::new(alloc, &interval, self.file_name)?;
                    return Ok(Some(interval));
                }
                LogLine::Other => {}
                LogLine::End => return Ok(None),
            }
        }
        Err(LogError::TooManyLines)
    }

    /// The lines so far that are not read, at most 100 of them.
    pub fn notes(&self) -> &[Note] {
        self.log.notes()
    }
}
