//! Numbers that are counted within the bounds of levels, and recorded in batches.

ghost use Rattle.hdr_runs.specs.LevelTallies.{TakesInBoth};

use crate::batch_tally::{BatchRecording, BatchTally};
use hdr_input::cause::Cause;
use hdr_input::groups::{BoundRecording, GroupMaker, GroupSink};
use hdr_input::lines::record_lines;
use hdr_input::pieces::LineSink;
use hdr_input::rows::{RowSink, RowTexts, record_row};
use hdr_input::units::Unit;
use hdr_input::wide::Wide;
use hdr_input::{Bound, BoundTally, InputError, Number, NumberSink, Recording, Tally};
use std::alloc::Global;

/// Numbers that are counted within bounds, and recorded in batches if intervals are asked for.
#[derive(Drop)]
pub struct LevelTally {
    pub counted: BoundTally,
    pub batches: Option<BatchTally>,
}

/// How numbers are recorded, counted within bounds, and recorded in batches.
#[derive(Clone, Copy)]
pub struct LevelRecording<'a> {
    pub recording: Recording,
    pub bounds: &'a [Bound],
    pub has_batches: bool,
}

impl GroupMaker for LevelRecording<'_> {
    ghost use Rattle.std.specs.Prelude.{IfOk, []};
    ghost use Rattle.std.specs.List.{All};
    ghost use Rattle.hdr_input.specs.Bounds.{HasBound, HasCounted};
    ghost use Rattle.hdr_input.specs.Recorded.{IsEmptyTally};
    ghost use Rattle.hdr_runs.specs.LevelTallies.{HasEmptyBatches};

    type Sink = LevelTally;

    fn recording(&self) -> Recording {
        self.recording
    }

    fn with_recording(self, recording: Recording) -> Self {
        LevelRecording { recording, ..self }
    }

    fn make(&self, alloc: Global) -> Result<LevelTally, InputError>
        ensures counted { IfOk result (λ t. HasCounted t.counted []) }
        ensures bounds { IfOk result (λ t. All (HasBound t.counted) self.now.bounds.now) }
        ensures tally { IfOk result (λ t. IsEmptyTally self.now.recording t.counted.tally) }
        ensures batches { IfOk result (λ t. HasEmptyBatches self.now.recording self.now.has_batches t.batches) }
    {
        let recording = self.recording;
        let counts = BoundRecording {
            recording,
            bounds: self.bounds,
        };
        let batches = if self.has_batches {
            Some(BatchRecording { recording }.make(alloc)?)
        } else {
            None
        };
        Ok(LevelTally {
            counted: counts.make(alloc)?,
            batches,
        })
    }
}

impl GroupSink for LevelTally {
    fn is_empty(&self) -> bool {
        self.counted.is_empty()
    }

    fn tally(&mut self) -> &mut Tally {
        self.counted.tally()
    }
}

impl NumberSink for LevelTally {
    ghost use Rattle.std.specs.Prelude.{OnOk};
    ghost use Rattle.hdr_runs.specs.LevelTallies.{RecordsInBoth, RecordsTimesInBoth, RecordsWideInBoth};
    ghost use Rattle.hdr_runs.specs.LevelTallies.{TakesInBoth, takes_in_none, takes_in_more};

    ghost takes = { TakesInBoth };

    ghost takes_none = { takes_in_none };

    ghost takes_more = { takes_in_more };

    #[inline(always)]
    fn record(&mut self, number: Number) -> Result<(), Cause>
        ensures taken { TakesInBoth self.old self.new }
        ensures number { OnOk result (RecordsInBoth number self.old self.new) }
    {
        self.counted.record(number)?;
        match &mut self.batches {
            Some(batches) => batches.record(number),
            None => Ok(()),
        }
    }

    fn record_wide(&mut self, number: Wide) -> Result<(), Cause>
        ensures taken { TakesInBoth self.old self.new }
        ensures number { OnOk result (RecordsWideInBoth number self.old self.new) }
    {
        self.counted.record_wide(number)?;
        match &mut self.batches {
            Some(batches) => batches.record_wide(number),
            None => Ok(()),
        }
    }

    fn record_times(&mut self, number: Wide, times: u64) -> Result<(), Cause>
        ensures taken { TakesInBoth self.old self.new }
        ensures number { OnOk result (RecordsTimesInBoth number times self.old self.new) }
    {
        self.counted.record_times(number, times)?;
        match &mut self.batches {
            Some(batches) => batches.record_times(number, times),
            None => Ok(()),
        }
    }

    fn count_if_skipped(&mut self, cause: Cause) -> bool {
        self.counted.count_if_skipped(cause)
    }

    fn unit(&self) -> Option<Unit> {
        self.counted.unit()
    }
}

impl LineSink for LevelTally {
    ghost use Rattle.hdr_runs.specs.LevelTallies.{TakesInBoth, takes_in_none, takes_in_more};

    ghost takes = { λ _ _ _ old new. TakesInBoth old new };

    ghost takes_none = { λ _ sink. takes_in_none sink };

    ghost takes_more = { λ _ _ _ _ _ a b c _ first more. takes_in_more a b c first more };

    fn take_lines(&mut self, alloc: Global, lines: &[u8], first: u64) -> Result<u64, InputError> {
        record_lines(alloc, self, lines, first)
    }
}

impl RowSink for LevelTally {
    #[inline(always)]
    fn take_row(&mut self, alloc: Global, row: RowTexts<'_>) -> Result<(), InputError> {
        record_row(alloc, self, row)
    }

    fn begin_file(&mut self) {
        if let Some(batches) = &mut self.batches {
            batches.begin_file();
        }
    }
}
