//! Numbers that are recorded, and in batches of those that follow one another.

ghost use Rattle.std.specs.Prelude.{◌≡◌, ◌∷◌, [], IfOk};

use crate::order::Order;
use crate::side::Samples;
use crate::steps::Steps;
use hdr_compare::{BatchError, Batching};
use hdr_input::cause::Cause;
use hdr_input::groups::{GroupMaker, GroupSink};
use hdr_input::lines::record_lines;
use hdr_input::pieces::LineSink;
use hdr_input::rows::{RowSink, RowTexts, record_row};
use hdr_input::units::Unit;
use hdr_input::wide::Wide;
use hdr_input::{Distribution, InputError, Number, NumberSink, Recording, Tally};
use hdr_model::laws::{clearing_stands, recording_stands};
use hdrhistogram::Histogram;
use std::alloc::Global;

/// A tally that also records its numbers in batches of those that follow one another.
#[derive(Drop)]
pub struct BatchTally {
    pub tally: Tally,
    batching: Batching,
    steps: Steps,
    /// Whether the batches have all numbers: not those that are counted, whose order is not known.
    has_batches: bool,
}

/// How numbers are recorded in batches.
#[derive(Clone, Copy)]
pub struct BatchRecording {
    pub recording: Recording,
}

impl GroupMaker for BatchRecording {
    ghost use Rattle.std.specs.Prelude.{IfOk, [], min};
    ghost use Rattle.hdr_input.specs.Recorded.{IsEmptyTally};
    ghost use Rattle.hdr_runs.specs.Batched.{HasBatches, HasSamples, digits_of_tally, steps_of};
    ghost use Rattle.hdr_runs.specs.Sorted.{no_steps};

    type Sink = BatchTally;

    fn recording(&self) -> Recording {
        self.recording
    }

    fn with_recording(self, recording: Recording) -> Self {
        BatchRecording { recording }
    }

    fn make(&self, alloc: Global) -> Result<BatchTally, InputError>
        ensures batches { IfOk result HasBatches }
        ensures none { IfOk result (HasSamples []) }
        ensures digits { IfOk result (λ t. digits_of_tally t ≡ min self.now.recording.sigfig 5) }
        ensures tally { IfOk result (λ t. IsEmptyTally self.now.recording t.tally) }
        ensures steps { IfOk result (λ t. steps_of t ≡ no_steps) }
    {
        clearing_stands();
        let tally = self.recording.make(alloc)?;
        match Batching::new(alloc, self.recording.sigfig.min(5)) {
            Ok(batching) => Ok(BatchTally {
                tally,
                batching,
                steps: Steps::NONE,
                has_batches: true,
            }),
            Err(_) => Err(InputError::OutOfMemory),
        }
    }
}

impl BatchTally {
    ghost use Rattle.std.specs.Prelude.{◌≡◌, ◌<◌, ◌≤◌, Some, None, IfOk, OnOk};
    ghost use Rattle.hdr_input.specs.Numbers.{in_units};
    ghost use Rattle.hdr_input.specs.Recorded.{KeepsUnit};
    ghost use Rattle.hdr_runs.specs.Batched.{AreSamplesOf, HasBatches, IsOrderOf, RecordsNumber, TakesSame, steps_of};
    ghost use Rattle.hdr_runs.specs.Sorted.{after_number};

    /// Records a number, which has these units. After an error the batches do not have all numbers.
    fn take(&mut self, number: Number, units: u64) -> Result<(), Cause>
        requires { units ≡ in_units number.digits number.decimals self.old.tally.decimals }
        ensures same { TakesSame self.old self.new }
        ensures unit { KeepsUnit self.old.tally self.new.tally }
        ensures number { OnOk result (RecordsNumber self.old self.new number) }
        ensures keeps { OnOk result (HasBatches self.old → HasBatches self.new) }
        ensures steps { OnOk result (steps_of self.new ≡ after_number (steps_of self.old) units) }
    {
        recording_stands();
        // The histogram is plain
        let _bins = self.tally.histogram.distinct_values();
        if let Err(cause) = self.tally.record(number) {
            self.has_batches = false;
            return Err(cause);
        }
        self.steps.add(units);
        let interval = self.tally.interval;
        match self.batching.record(units, interval) {
            Ok(()) => Ok(()),
            Err(_) => {
                self.has_batches = false;
                Err(Cause::OutOfMemory)
            }
        }
    }

    /// Returns in which order the numbers are known.
    pub fn order(&self) -> Order
        ensures { IsOrderOf self.now result }
    {
        if !self.has_batches {
            Order::Counted
        } else if self.steps.is_sorted() {
            Order::Sorted
        } else {
            Order::OfTime
        }
    }

    /// Returns the samples in batches: in one if their order is not that of time.
    pub fn into_samples(self, alloc: Global) -> Result<Samples, BatchError>
        ensures { IfOk result (AreSamplesOf self) }
    {
        let (_, samples) = self.into_parts(alloc)?;
        Ok(samples)
    }

    /// Returns the distribution of the numbers, and their samples in batches.
    pub fn into_parts(self, alloc: Global) -> Result<(Distribution, Samples), BatchError>
        ensures histogram { IfOk result (λ parts. parts.0.histogram ≡ self.tally.histogram) }
        ensures extremes { IfOk result (λ parts. (parts.0.min ≡ self.tally.min) × (parts.0.max ≡ self.tally.max)) }
        ensures sum { IfOk result (λ parts. self.tally.interval ≡ 0 → parts.0.sum ≡ Some self.tally.sum) }
        ensures unknown { IfOk result (λ parts. 0 < self.tally.interval → parts.0.sum ≡ None) }
        ensures decimals { IfOk result (λ parts. self.tally.decimals ≤ 18 → parts.0.decimals ≡ self.tally.decimals) }
        ensures samples { IfOk result (λ parts. AreSamplesOf self parts.1) }
    {
        let order = self.order();
        let BatchTally {
            tally,
            batching,
            ..
        } = self;
        let batches = match order {
            Order::OfTime => batching.into_batches()?,
            _ => one_batch(alloc, &tally.histogram)?,
        };
        let samples = Samples {
            batches,
            min: tally.min,
            max: tally.max,
            decimals: tally.decimals,
            order,
        };
        Ok((tally.into_distribution(), samples))
    }
}

/// Returns a histogram as a list.
fn one_batch(alloc: Global, histogram: &Histogram<u64>) -> Result<Vec<Histogram<u64>>, BatchError>
    ensures { IfOk result (λ batches. batches.items ≡ histogram.now ∷ []) }
{
    let Ok(copy) = histogram.clone() else {
        return Err(BatchError::OutOfMemory);
    };
    let mut batches = Vec::new(alloc);
    match batches.push(copy) {
        Ok(()) => Ok(batches),
        Err(_) => Err(BatchError::OutOfMemory),
    }
}

impl GroupSink for BatchTally {
    fn is_empty(&self) -> bool {
        self.tally.histogram.is_empty()
    }

    fn tally(&mut self) -> &mut Tally {
        &mut self.tally
    }
}

impl NumberSink for BatchTally {
    ghost use Rattle.std.specs.Prelude.{◌≡◌, OnOk};
    ghost use Rattle.hdr_runs.specs.BatchLaws.{takes_nothing, takes_after};
    ghost use Rattle.hdr_input.specs.Numbers.{in_units};
    ghost use Rattle.hdr_runs.specs.Batched.{HasBatches, RecordsNumber, RecordsTimes, RecordsWide, TakesSame, steps_of};
    ghost use Rattle.hdr_runs.specs.Sorted.{after_number};

    ghost takes = { TakesSame };

    ghost takes_none = { takes_nothing };

    ghost takes_more = { takes_after };

    #[inline(always)]
    #[tactic(auto, using(hdr_input::proofs::InUnits::units_same))]
    fn record(&mut self, number: Number) -> Result<(), Cause>
        ensures taken { TakesSame self.old self.new }
        ensures number { OnOk result (RecordsNumber self.old self.new number) }
        ensures keeps { OnOk result (HasBatches self.old → HasBatches self.new) }
        ensures steps { OnOk result (steps_of self.new ≡ after_number (steps_of self.old)
            (in_units number.digits number.decimals self.old.tally.decimals)) }
    {
        if number.decimals == self.tally.decimals {
            return self.take(number, number.digits);
        }
        let units = self.tally.units_of(number)?;
        self.take(number, units)
    }

    fn record_wide(&mut self, number: Wide) -> Result<(), Cause>
        ensures taken { TakesSame self.old self.new }
        ensures number { OnOk result (RecordsWide self.old self.new number) }
        ensures keeps { OnOk result (HasBatches self.old → HasBatches self.new) }
    {
        let decimals = self.tally.decimals;
        let narrow = number.rounded(decimals)?;
        self.record(narrow)?;
        self.tally.count_rounded(number.is_rounded(decimals));
        Ok(())
    }

    fn record_times(&mut self, number: Wide, times: u64) -> Result<(), Cause>
        ensures taken { TakesSame self.old self.new }
        ensures number { OnOk result (RecordsTimes self.old self.new number times) }
    {
        self.has_batches = false;
        self.tally.record_times(number, times)
    }

    fn count_if_skipped(&mut self, cause: Cause) -> bool {
        self.tally.count_skipped(cause)
    }

    fn unit(&self) -> Option<Unit> {
        self.tally.unit()
    }
}

impl LineSink for BatchTally {
    ghost use Rattle.hdr_runs.specs.BatchLaws.{takes_nothing, takes_after};
    ghost use Rattle.hdr_runs.specs.Batched.{TakesSame};

    ghost takes = { λ _ _ _ old new. TakesSame old new };

    ghost takes_none = { λ _ sink. takes_nothing sink };

    ghost takes_more = { λ _ _ _ _ _ a b c _ first more. takes_after a b c first more };

    fn take_lines(&mut self, alloc: Global, lines: &[u8], first: u64) -> Result<u64, InputError> {
        record_lines(alloc, self, lines, first)
    }
}

impl RowSink for BatchTally {
    ghost use Rattle.std.specs.Prelude.{◌≡◌};
    ghost use Rattle.hdr_runs.specs.Batched.{steps_of};
    ghost use Rattle.hdr_runs.specs.Sorted.{without_last};

    #[inline(always)]
    fn take_row(&mut self, alloc: Global, row: RowTexts<'_>) -> Result<(), InputError> {
        record_row(alloc, self, row)
    }

    fn begin_file(&mut self)
        ensures { steps_of self.new ≡ without_last (steps_of self.old) }
    {
        self.steps.begin_file();
    }
}
