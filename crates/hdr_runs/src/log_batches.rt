//! The intervals of logs in batches, for each sum of them.

ghost use Rattle.std.specs.Prelude.{◌≡◌, IfOk, OnOk, length, min, [], ◌∷◌, ◌++◌};
ghost use Rattle.hdr_compare.specs.Batchings.{batches_of};
ghost use Rattle.hdr_compare.specs.declared.batching.Batching.{Batching};
ghost use Rattle.hdr_model.specs.Plain.{max_of, min_of};
ghost use Rattle.hdr_runs.specs.Orders.{order_of};
ghost use Rattle.hdr_runs.specs.SumBatches.{AddsTo, AddsToSum, IsWithoutSamples, ReachesSum, digits_of_sums, sums_of};

use crate::order::Order;
use crate::side::Samples;
use hdr_compare::{BatchError, Batching};
use hdr_input::Unit;
use hdr_logs::{HistogramSink, LogError};
use hdrhistogram::Histogram;
use std::alloc::Global;

/// How many batches show how correlated samples are.
const FEWEST_BATCHES: usize = 4;

/// The intervals of logs in batches of those that follow one another, for each of their sums.
#[derive(Drop)]
pub struct LogBatches {
    alloc: Global,
    sigfig: u8,
    sums: Vec<Batching>,
}

impl LogBatches {
    /// Returns no intervals. Sums have these significant digits, up to 5.
    pub fn new(alloc: Global, sigfig: u8) -> LogBatches
        ensures sums { sums_of result ≡ [] }
        ensures digits { digits_of_sums result ≡ min sigfig 5 }
    {
        LogBatches {
            alloc,
            sigfig,
            sums: Vec::new(alloc),
        }
    }

    /// Adds sums without intervals, so that there is one at `index`.
    fn reach(&mut self, index: usize) -> Result<(), LogError>
        ensures digits { digits_of_sums self.new ≡ digits_of_sums self.old }
        ensures sums { OnOk result (ReachesSum (digits_of_sums self.old) index (sums_of self.old) (sums_of self.new)) }
    {
        for _ in self.sums.len()..index.saturating_add(1) {
            self.push_sum()?;
        }
        Ok(())
    }

    /// Adds a sum without intervals.
    fn push_sum(&mut self) -> Result<(), LogError>
        ensures digits { digits_of_sums self.new ≡ digits_of_sums self.old }
        ensures sums { OnOk result ((b : Batching) × IsWithoutSamples (digits_of_sums self.old) b
            × (sums_of self.new ≡ sums_of self.old ++ b ∷ [])) }
    {
        let Ok(batching) = Batching::new(self.alloc, self.sigfig.min(5)) else {
            return Err(LogError::OutOfMemory);
        };
        self.sums.push(batching)?;
        Ok(())
    }

    /// Returns the batches of each sum.
    pub fn into_sums(self) -> Vec<Batching>
        ensures { result.items ≡ sums_of self }
    {
        self.sums
    }
}

impl HistogramSink for LogBatches {
    ghost takes = { λ old sum h decimals new. AddsToSum old sum h new };

    fn take_histogram(
        &mut self,
        sum: usize,
        histogram: &Histogram<u64>,
        _decimals: u32,
        _unit: Option<Unit>,
    ) -> Result<(), LogError> {
        self.reach(sum)?;
        let Some(batching) = self.sums.get_mut(sum) else {
            return Err(LogError::OutOfMemory);
        };
        add_to(batching, histogram)
    }
}

/// Adds the samples of a histogram to batches.
fn add_to(batching: &mut Batching, histogram: &Histogram<u64>) -> Result<(), LogError>
    ensures { OnOk result (AddsTo histogram.now batching.old batching.new) }
{
    match batching.add(histogram) {
        Ok(()) => Ok(()),
        Err(_) => Err(LogError::OutOfMemory),
    }
}

impl Samples {
    /// Returns the samples of the intervals of a sum, whose values have these decimals.
    pub fn of_intervals(
        sum: &Histogram<u64>,
        batching: Batching,
        decimals: u32,
    ) -> Result<Samples, BatchError>
        ensures batches { IfOk result (λ samples. samples.batches.items ≡ batches_of batching) }
        ensures order { IfOk result (λ samples. samples.order ≡ order_of (length (batches_of batching))) }
        ensures extremes { IfOk result (λ samples. (samples.min ≡ min_of sum.now) × (samples.max ≡ max_of sum.now)) }
        ensures decimals { IfOk result (λ samples. samples.decimals ≡ decimals) }
    {
        let batches = batching.into_batches()?;
        let order = if batches.len() < FEWEST_BATCHES {
            Order::FewIntervals
        } else {
            Order::OfTime
        };
        Ok(Samples {
            batches,
            min: sum.min(),
            max: sum.max(),
            decimals,
            order,
        })
    }
}
