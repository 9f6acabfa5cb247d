//! The samples of a run.

ghost use Rattle.std.specs.Prelude.{◌≡◌, ◌-◌, ◌<◌, ◌≤◌, ◌^◌, length, min};
ghost use Rattle.std.specs.List.{sum_by};
ghost use Rattle.hdr_compare.specs.Sums.{AreLeastClasses, IsSumOf};
ghost use Rattle.hdr_model.specs.Plain.{resolution};

use crate::sums::sum_of;
use hdrhistogram::{Histogram, Quantile};
use std::alloc::Global;
use thiserror::Error;

/// The samples of a run are fewer than 2^40.
const MOST_SAMPLES: u64 = 1 << 40;

/// The most batches of a run.
const MOST_BATCHES: usize = 1 << 20;

/// Why samples are not those of a run.
#[derive(Debug, Clone, Copy, PartialEq, Eq, Error)]
pub enum BatchError {
    /// There are 2^40 samples or more, or more than 2^20 batches.
    #[error("a run has 2^40 samples or more")]
    TooMany,
    /// An allocation fails.
    #[error("memory ran out")]
    OutOfMemory,
}

/// The samples of a run, in batches of one after the other.
#[derive(Drop)]
pub struct Run {
    pub(crate) batches: Vec<Histogram<u64>>,
    /// All samples, in classes that have those of the batches in them.
    pub(crate) all: Histogram<u64>,
    /// Their number.
    pub(crate) samples: u64,
    ghost few: { sum_by (λ h. h.total) batches.items < 2 ^ 40 },
    ghost most: { length batches.items ≤ 2 ^ 20 },
    ghost count: { samples ≡ sum_by (λ h. h.total) batches.items },
    ghost sum: { IsSumOf batches.items all },
    ghost classes: { ∥ AreLeastClasses batches.items (resolution all) ∥₁ },
}

impl Run {
    ghost use Rattle.std.specs.Prelude.{◌⊎◌, IfErr, IfOk};
    ghost use Rattle.hdr_compare.specs.Intervals.{samples_of};
    ghost use Rattle.hdr_compare.specs.Nearest.{value_at_rank};
    ghost use Rattle.hdr_compare.specs.Runs.{all_of, batches_of};

    /// Returns the samples of a run: batches of one after the other.
    ///
    /// # Errors
    /// Returns `TooMany` if there are 2^40 samples or more, or more than 2^20 batches, and
    /// `OutOfMemory` if an allocation fails.
    pub fn new(alloc: Global, batches: Vec<Histogram<u64>>) -> Result<Run, BatchError>
        ensures batches { IfOk result (λ run. batches_of run ≡ batches.items) }
        ensures all { IfOk result (λ run. IsSumOf batches.items (all_of run)) }
        ensures classes { IfOk result (λ run. AreLeastClasses batches.items (resolution (all_of run))) }
        ensures errors { IfErr result (λ e. (e ≡ BatchError.OutOfMemory)
            ⊎ (2 ^ 40 ≤ sum_by (λ h. h.total) batches.items)
            ⊎ (2 ^ 20 < length batches.items)) }
    {
        let samples = total_of(&batches);
        if samples >= MOST_SAMPLES || batches.len() > MOST_BATCHES {
            return Err(BatchError::TooMany);
        }
        Ok(Run {
            all: sum_of(alloc, &batches)?,
            samples,
            batches,
        })
    }

    /// Returns the greatest value of the class of the sample of a rank.
    pub(crate) fn value_at_rank(&self, rank: u64) -> u64
        ensures { result ≡ value_at_rank (all_of self.now) (samples_of (batches_of self.now)) rank }
    {
        match Quantile::new(rank, self.samples) {
            Some(quantile) => self.all.value_at_quantile(quantile),
            None => 0,
        }
    }
}

/// Returns the number of samples of batches, or `u64::MAX` if that is less.
fn total_of(batches: &[Histogram<u64>]) -> u64
    ensures { result ≡ min (sum_by (λ h. h.total) batches.now) (2 ^ 64 - 1) }
{
    let mut total = 0u64;
    for batch in batches {
        total = total.saturating_add(batch.len());
    }
    total
}
