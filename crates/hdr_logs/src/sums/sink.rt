//! The histograms of the chosen intervals, while they are summed.

ghost use Rattle.std.specs.Prelude.{◌≡◌, ℕ, List, IfOk, IfSome, OnOk, Some};
ghost use Rattle.hdr_model.specs.Plain.{Plain};
ghost use Rattle.hdr_logs.specs.Intervals.{LogInterval, LogHolds, tag_or_none};
ghost use Rattle.hdr_logs.specs.Stored.{decimals_of, view_of_stored};
ghost use Rattle.hdr_logs.specs.Sums.{view_of_sums, sums_of, sum_tag, index_of, decimals_of_sums};
ghost use Rattle.hdr_logs.specs.Sums.{AreIndexed, KeepScale, PassesAll, PassesStored, AddsStored, unit_of_sums};

use crate::errors::LogError;
use crate::reader::{LineBuffer, LogLine, LogReader};
use crate::stored::StoredInterval;
use crate::sums::LogSums;
use hdr_input::Unit;
use hdrhistogram::Histogram;
use std::alloc::Global;
use std::io::Read;

/// What takes the histograms of intervals.
pub trait HistogramSink {
    /// What taking a histogram does, with the index of a sum and the decimals of its values.
    ghost takes: { Self → ℕ → Plain → ℕ → Self → Type 0 };

    /// Takes the histogram of an interval, which is part of the sum at this index. Its values have
    /// these decimals, and this unit if one is known.
    fn take_histogram(
        &mut self,
        sum: usize,
        histogram: &Histogram<u64>,
        decimals: u32,
        unit: Option<Unit>,
    ) -> Result<(), LogError>
        ensures taken { OnOk result (takes self.old sum histogram.now decimals self.new) };
}

impl LogSums<'_> {
    /// As `read_log`, and passes the histogram of each interval to `sink`.
    ///
    /// # Errors
    /// As `read_log`, and the errors of `sink`.
    pub fn read_log_into<R: Read + Drop, S: HistogramSink>(
        &mut self,
        alloc: Global,
        file: usize,
        reader: R,
        sink: &mut S,
    ) -> Result<(), LogError>
        ensures sums { OnOk result (AreIndexed self.old → (all : List LogInterval)
            × IfSome (R.remaining reader) (λ text. LogHolds (view_of_sums self.old).filter text all)
            × PassesAll S.takes (decimals_of_sums self.new) (view_of_sums self.old) all (view_of_sums self.new)
            sink.old sink.new) }
        ensures indices { OnOk result (AreIndexed self.old → AreIndexed self.new) }
        ensures scale { OnOk result (KeepScale self.old self.new) }
    {
        let mut buffer = LineBuffer::new(alloc);
        let mut log = LogReader::new(alloc, file, reader, self.choice)?;
        for _ in 0..u64::MAX {
            match log.next_line(alloc, &mut buffer)? {
                LogLine::Chosen(interval) => {
                    let sum = self.add(alloc, &interval)?;
                    self.pass(sum, sink)?;
                }
                LogLine::Other => {}
                LogLine::End => {
                    self.notes.extend_from_slice(log.notes())?;
                    return Ok(());
                }
            }
        }
        Err(LogError::TooManyLines)
    }

    /// Adds a copy of an interval, whether it is chosen or not, and returns the index of its sum.
    ///
    /// # Errors
    /// Returns an error if its histogram is invalid, or if its values have other decimals or another
    /// unit than those before.
    pub fn add_stored(&mut self, alloc: Global, stored: &StoredInterval) -> Result<usize, LogError>
        ensures sums { OnOk result (AreIndexed self.old → AddsStored
            (view_of_sums self.old) (view_of_stored stored.now) (view_of_sums self.new)) }
        ensures index { IfOk result (λ index. AreIndexed self.old → index_of (sum_tag
            (view_of_sums self.old).is_by_tag (tag_or_none (Some (view_of_stored stored.now).tag)))
            (sums_of self.new) ≡ Some index) }
        ensures indices { OnOk result (AreIndexed self.old → AreIndexed self.new) }
        ensures decimals { OnOk result (decimals_of_sums self.new ≡ decimals_of stored.now) }
        ensures unit { OnOk result (unit_of_sums self.new ≡ stored.now.unit) }
        ensures scale { KeepScale self.old self.new }
    {
        self.add(alloc, &stored.interval())
    }

    /// As `add_stored`, and passes the histogram of the interval to `sink`.
    ///
    /// # Errors
    /// As `add_stored`, and the errors of `sink`.
    pub fn add_stored_into<S: HistogramSink>(
        &mut self,
        alloc: Global,
        stored: &StoredInterval,
        sink: &mut S,
    ) -> Result<(), LogError>
        ensures sums { OnOk result (AreIndexed self.old → PassesStored S.takes (decimals_of stored.now)
            (view_of_sums self.old) (view_of_stored stored.now) (view_of_sums self.new) sink.old sink.new) }
        ensures indices { OnOk result (AreIndexed self.old → AreIndexed self.new) }
        ensures decimals { OnOk result (decimals_of_sums self.new ≡ decimals_of stored.now) }
        ensures unit { OnOk result (unit_of_sums self.new ≡ stored.now.unit) }
        ensures scale { KeepScale self.old self.new }
    {
        let sum = self.add(alloc, &stored.interval())?;
        self.pass(sum, sink)?;
        Ok(())
    }

    /// Passes the histogram of the interval that was added last to a sink, with the index of its
    /// sum.
    fn pass<S: HistogramSink>(&self, sum: usize, sink: &mut S) -> Result<(), LogError>
        ensures { OnOk result ((h : Plain) → self.now.spare ≡ Some h
            → S.takes sink.old sum h (decimals_of_sums self.now) sink.new) }
    {
        let decimals = self.decimals();
        match &self.spare {
            Some(histogram) => sink.take_histogram(sum, histogram, decimals, self.unit),
            None => Ok(()),
        }
    }
}
