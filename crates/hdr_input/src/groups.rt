//! Numbers by the text of their row: each text has a group.

use crate::bound::Bound;
use crate::bound_tally::BoundTally;
use crate::cause::Cause;
use crate::errors::InputError;
use crate::group_texts::GroupTexts;
use crate::pieces::LineSink;
use crate::rows::{RowSink, RowTexts};
use crate::tally::{Recording, Tally};
use std::alloc::Global;
use std::mem;

/// What the numbers of a group are recorded in.
pub trait GroupSink: RowSink + LineSink {
    /// Whether no number was recorded.
    fn is_empty(&self) -> bool;

    /// Returns the tally of the numbers.
    fn tally(&mut self) -> &mut Tally;
}

impl GroupSink for Tally {
    fn is_empty(&self) -> bool {
        self.histogram.is_empty()
    }

    fn tally(&mut self) -> &mut Tally {
        self
    }
}

impl GroupSink for BoundTally {
    fn is_empty(&self) -> bool {
        self.tally.histogram.is_empty()
    }

    fn tally(&mut self) -> &mut Tally {
        &mut self.tally
    }
}

/// What makes the sink of a new group.
pub trait GroupMaker {
    type Sink: GroupSink;

    /// Returns how numbers are recorded.
    fn recording(&self) -> Recording;

    /// Returns what makes sinks of numbers that are recorded so.
    fn with_recording(self, recording: Recording) -> Self;

    /// Returns a sink without numbers.
    fn make(&self, alloc: Global) -> Result<Self::Sink, InputError>;
}

impl GroupMaker for Recording {
    ghost use Rattle.std.specs.Prelude.{IfOk};
    ghost use Rattle.hdr_input.specs.Recorded.{IsEmptyTally};

    type Sink = Tally;

    fn recording(&self) -> Recording {
        *self
    }

    fn with_recording(self, recording: Recording) -> Recording {
        recording
    }

    fn make(&self, alloc: Global) -> Result<Tally, InputError>
        ensures { IfOk result (IsEmptyTally self.now) }
    {
        match Tally::new(alloc, *self) {
            Ok(tally) => Ok(tally),
            Err(_) => Err(InputError::OutOfMemory),
        }
    }
}

/// How numbers are recorded, and counted within bounds.
#[derive(Clone, Copy)]
pub struct BoundRecording<'a> {
    pub recording: Recording,
    pub bounds: &'a [Bound],
}

impl GroupMaker for BoundRecording<'_> {
    ghost use Rattle.std.specs.Prelude.{IfOk, []};
    ghost use Rattle.std.specs.List.{All};
    ghost use Rattle.hdr_input.specs.Bounds.{HasBound, HasCounted};
    ghost use Rattle.hdr_input.specs.Recorded.{IsEmptyTally};

    type Sink = BoundTally;

    fn recording(&self) -> Recording {
        self.recording
    }

    fn with_recording(self, recording: Recording) -> Self {
        BoundRecording { recording, ..self }
    }

    fn make(&self, alloc: Global) -> Result<BoundTally, InputError>
        ensures counted { IfOk result (λ t. HasCounted t []) }
        ensures bounds { IfOk result (λ t. All (HasBound t) self.now.bounds.now) }
        ensures tally { IfOk result (λ t. IsEmptyTally self.now.recording t.tally) }
    {
        let tally = self.recording.make(alloc)?;
        Ok(BoundTally::new(alloc, tally, self.bounds)?)
    }
}

/// Numbers by the text of their row.
#[derive(Drop)]
pub struct Groups<'l, 'n, M: GroupMaker> {
    maker: M,
    /// The names of the columns of the texts, for errors.
    columns: &'l [&'n str],
    texts: GroupTexts,
    /// The sinks of the groups, in the order of their texts.
    sinks: Vec<M::Sink>,
    /// A sink without numbers, which is that of the next group.
    next: M::Sink,
}

/// The texts of groups, and what is recorded of each.
#[derive(Drop)]
pub struct GroupParts<S> {
    pub texts: GroupTexts,
    pub sinks: Vec<S>,
    /// How many lines were skipped, and how many numbers were rounded.
    pub skipped: u64,
    pub rounded: u64,
}

impl<'l, 'n, M: GroupMaker + Drop> Groups<'l, 'n, M> {
    /// Returns no groups.
    pub fn new(
        alloc: Global,
        maker: M,
        columns: &'l [&'n str],
    ) -> Result<Groups<'l, 'n, M>, InputError> {
        let next = maker.make(alloc)?;
        Ok(Groups {
            maker,
            columns,
            texts: GroupTexts::new(alloc),
            sinks: Vec::new(alloc),
            next,
        })
    }

    /// Returns the groups in the order of their first numbers.
    pub fn into_parts(self) -> GroupParts<M::Sink> {
        let mut sinks = self.sinks;
        let mut next = self.next;
        let mut skipped = next.tally().skipped;
        let mut rounded = 0u64;
        for sink in &mut sinks {
            let tally = sink.tally();
            skipped = skipped.saturating_add(tally.skipped);
            rounded = rounded.saturating_add(tally.rounded);
        }
        GroupParts {
            texts: self.texts,
            sinks,
            skipped,
            rounded,
        }
    }

    /// Takes the first row of a text. If its number is skipped, no group is added.
    fn take_first(
        &mut self,
        alloc: Global,
        row: RowTexts<'_>,
        text: &[u8],
    ) -> Result<(), InputError> {
        self.next.take_row(alloc, row)?;
        if self.next.is_empty() {
            return Ok(());
        }
        self.push(alloc, text)
    }

    /// Adds the group of a text, whose first number is recorded in the sink of the next group.
    fn push(&mut self, alloc: Global, text: &[u8]) -> Result<(), InputError> {
        if let Err(cause) = self.texts.add(alloc, text) {
            return Err(InputError::of_groups(alloc, self.columns, cause));
        }
        let next = self.maker.make(alloc)?;
        self.sinks.push(mem::replace(&mut self.next, next))?;
        Ok(())
    }
}

impl<M: GroupMaker + Drop> RowSink for Groups<'_, '_, M> {
    fn take_row(&mut self, alloc: Global, row: RowTexts<'_>) -> Result<(), InputError> {
        let Some(text) = row.group else {
            return self.next.take_row(alloc, without_group(row));
        };
        match self.texts.index_of(text) {
            Some(index) if index < self.sinks.len() => self.sinks[index].take_row(alloc, row),
            _ => self.take_first(alloc, row, text),
        }
    }

    fn begin_file(&mut self) {
        for sink in self.sinks.iter_mut() {
            sink.begin_file();
        }
        self.next.begin_file();
    }
}

/// Returns a row that has no text of a group as one without a number.
fn without_group(row: RowTexts<'_>) -> RowTexts<'_> {
    RowTexts {
        value: Err(row.value.err().unwrap_or(Cause::NoField)),
        ..row
    }
}
