//! Samples that are recorded one after the other, in batches.

ghost use Rattle.std.specs.Prelude.{◌≡◌, ◌≤◌, [], IfErr};

use crate::merging::{in_pairs, push};
use crate::run::BatchError;
use hdr_model::laws::clearing_stands;
use hdrhistogram::Histogram;
use std::alloc::Global;
use std::mem;

/// The most batches that are full: after these, each two become one.
const MOST: usize = 16;

/// Samples that are recorded one after the other, in batches of the same number of them but the last
/// one. There are at most 16 batches.
#[derive(Drop)]
pub struct Batching {
    alloc: Global,
    sigfig: u8,
    /// The batches that are full.
    full: Vec<Histogram<u64>>,
    /// The last batch, which may be empty.
    last: Histogram<u64>,
    /// How many numbers a full batch has, and how many the last one has.
    size: u64,
    filled: u64,
    ghost digits: { sigfig ≤ 5 },
}

impl Batching {
    ghost use Rattle.std.specs.Prelude.{ℕ, List, ◌++◌, ◌<◌, ◌^◌, length, OnOk};
    ghost use Rattle.hdr_base.specs.Classes.{IsFiner};
    ghost use Rattle.hdr_compare.specs.Batchings.{HasRecorded, batches_of, digits_of, recorded};
    ghost use Rattle.hdr_model.specs.Merging.{lowest_values};

    /// Returns no samples. Their classes have these significant digits, up to 5.
    pub fn new(alloc: Global, sigfig: u8) -> Result<Batching, BatchError>
        requires { sigfig ≤ 5 }
        ensures none { IfOk result (HasRecorded []) }
        ensures digits { IfOk result (λ b. digits_of b ≡ sigfig) }
        ensures errors { IfErr result (λ e. e ≡ BatchError.OutOfMemory) }
    {
        Ok(Batching {
            alloc,
            sigfig,
            full: Vec::new(alloc),
            last: empty(alloc, sigfig)?,
            size: 1,
            filled: 0,
        })
    }

    /// Records a number, and the samples that are missing before it if one was due each `interval`
    /// (0: none is). After an error the samples are lost.
    pub fn record(&mut self, value: u64, interval: u64) -> Result<(), BatchError>
        ensures digits { digits_of self.new ≡ digits_of self.old }
        ensures samples { OnOk result ((S : List ℕ) → length (S ++ recorded value interval) < 2 ^ 64
            → HasRecorded S self.old → HasRecorded (S ++ recorded value interval) self.new) }
        ensures errors { IfErr result (λ e. e ≡ BatchError.OutOfMemory) }
    {
        if self.filled >= self.size {
            self.begin()?;
        }
        self.record_in_last(value, interval)?;
        self.filled = self.filled.saturating_add(1);
        Ok(())
    }

    /// Records all samples of a histogram, as those of an interval of time: batches then have the
    /// same number of intervals with samples. After an error the samples are lost. Of a histogram
    /// with coarser classes, each sample counts as the lowest value of its class.
    pub fn add(&mut self, histogram: &Histogram<u64>) -> Result<(), BatchError>
        ensures digits { digits_of self.new ≡ digits_of self.old }
        ensures samples { OnOk result ((S T : List ℕ) → StandsFor histogram.now T
            → IsFiner (resolution histogram.now) (resolution_of 1 (digits_of self.old))
            → length (S ++ T) < 2 ^ 64 → HasRecorded S self.old → HasRecorded (S ++ T) self.new) }
        ensures lowest { OnOk result ((S T : List ℕ) → StandsFor histogram.now T → length (S ++ T) < 2 ^ 64
            → HasRecorded S self.old → (length (lowest_values histogram.now) ≡ length T)
            × HasRecorded (S ++ lowest_values histogram.now) self.new) }
        ensures errors { IfErr result (λ e. e ≡ BatchError.OutOfMemory) }
    {
        let intervals = u64::from(!histogram.is_empty());
        if self.filled.saturating_add(intervals) > self.size {
            self.begin()?;
        }
        self.add_to_last(histogram)?;
        self.filled = self.filled.saturating_add(intervals);
        Ok(())
    }

    /// Adds a histogram to the last batch.
    fn add_to_last(&mut self, histogram: &Histogram<u64>) -> Result<(), BatchError>
        ensures digits { digits_of self.new ≡ digits_of self.old }
        ensures samples { OnOk result ((S T : List ℕ) → StandsFor histogram.now T
            → IsFiner (resolution histogram.now) (resolution_of 1 (digits_of self.old))
            → length (S ++ T) < 2 ^ 64 → HasRecorded S self.old → HasRecorded (S ++ T) self.new) }
        ensures lowest { OnOk result ((S T : List ℕ) → StandsFor histogram.now T → length (S ++ T) < 2 ^ 64
            → HasRecorded S self.old → (length (lowest_values histogram.now) ≡ length T)
            × HasRecorded (S ++ lowest_values histogram.now) self.new) }
        ensures errors { IfErr result (λ e. e ≡ BatchError.OutOfMemory) }
    {
        // Both histograms are plain
        let _own = self.last.distinct_values();
        let _more = histogram.distinct_values();
        match self.last.add(histogram) {
            Ok(()) => Ok(()),
            Err(_) => Err(BatchError::OutOfMemory),
        }
    }

    /// Records a number in the last batch.
    fn record_in_last(&mut self, value: u64, interval: u64) -> Result<(), BatchError>
        ensures digits { digits_of self.new ≡ digits_of self.old }
        ensures samples { OnOk result ((S : List ℕ) → length (S ++ recorded value interval) < 2 ^ 64
            → HasRecorded S self.old → HasRecorded (S ++ recorded value interval) self.new) }
        ensures errors { IfErr result (λ e. e ≡ BatchError.OutOfMemory) }
    {
        match self.last.record_correct(value, interval) {
            Ok(()) => Ok(()),
            Err(_) => Err(BatchError::OutOfMemory),
        }
    }

    /// Begins a new batch, after the full ones.
    fn begin(&mut self) -> Result<(), BatchError>
        ensures digits { digits_of self.new ≡ digits_of self.old }
        ensures samples { OnOk result ((S : List ℕ) → length S < 2 ^ 64 → HasRecorded S self.old → HasRecorded S self.new) }
        ensures errors { IfErr result (λ e. e ≡ BatchError.OutOfMemory) }
    {
        let last = mem::replace(&mut self.last, empty(self.alloc, self.sigfig)?);
        push(&mut self.full, last)?;
        self.filled = 0;
        if self.full.len() >= MOST {
            let full = mem::replace(&mut self.full, Vec::new(self.alloc));
            self.full = in_pairs(self.alloc, full)?;
            self.size = self.size.saturating_mul(2);
        }
        Ok(())
    }

    /// Returns the batches.
    pub fn into_batches(self) -> Result<Vec<Histogram<u64>>, BatchError>
        ensures batches { IfOk result (λ batches. batches.items ≡ batches_of self) }
        ensures errors { IfErr result (λ e. e ≡ BatchError.OutOfMemory) }
    {
        let mut batches = self.full;
        push(&mut batches, self.last)?;
        Ok(batches)
    }
}

ghost use Rattle.std.specs.Prelude.{IfOk};
ghost use Rattle.hdr_base.specs.Classes.{resolution_of};
ghost use Rattle.hdr_model.specs.Plain.{resolution};
ghost use Rattle.hdr_model.specs.Samples.{StandsFor};

/// Returns a batch without samples.
#[tactic(auto, unfolding(hdr_model::specs::Plain::empty_plain))]
fn empty(alloc: Global, sigfig: u8) -> Result<Histogram<u64>, BatchError>
    requires { sigfig ≤ 5 }
    ensures stands { IfOk result (λ h. StandsFor h []) }
    ensures classes { IfOk result (λ h. resolution h ≡ resolution_of 1 sigfig) }
    ensures errors { IfErr result (λ e. e ≡ BatchError.OutOfMemory) }
{
    clearing_stands();
    match Histogram::new(alloc, sigfig) {
        Ok(histogram) => Ok(histogram),
        Err(_) => Err(BatchError::OutOfMemory),
    }
}
