//! The sum of intervals.

ghost use Rattle.std.specs.Prelude.{◌≡◌, ◌≤◌, ◌+◌, ◌⊎◌, ◌++◌, ◌∷◌, [], List, IfOk, OnOk, map};
ghost use Rattle.std.specs.Duration.{as_nanos};
ghost use Rattle.hdr_model.specs.Plain.{Plain, resolution};
ghost use Rattle.hdr_logs.specs.Stored.{view_of_stored};
ghost use Rattle.hdr_gather.specs.Counts.{one_if_finer, AreCounts};
ghost use Rattle.hdr_gather.specs.Keys.{all_of};
ghost use Rattle.hdr_gather.specs.Lines.{IsLongest};
ghost use Rattle.hdr_gather.specs.Sums.{IsSum, IsGrowing, SumsFields};

use hdr_logs::{LogError, Place, StoredInterval};
use hdrhistogram::Histogram;
use hdrhistogram::serialization::Deserializer;
use std::alloc::Global;
use std::mem;
use std::time::Duration;

/// How many intervals were gathered.
#[derive(Debug, Clone, Copy, Default, PartialEq, Eq)]
pub struct Counts {
    /// The number of intervals.
    pub intervals: u64,
    /// The number of them that are finer than the sum that they are in: their samples lose digits.
    pub finer: u64,
}

impl Counts {
    /// Adds the numbers of more intervals. Both saturate.
    fn add(&mut self, intervals: u64, finer: u64)
        ensures { AreCounts self.new (self.old.intervals + intervals) (self.old.finer + finer) }
    {
        self.intervals = self.intervals.saturating_add(intervals);
        self.finer = self.finer.saturating_add(finer);
    }
}

/// The sum of the histograms of intervals, by the coarsest of their classes.
#[derive(Drop)]
pub(crate) struct IntervalSum {
    pub histogram: Histogram<u64>,
    counts: Counts,
}

impl IntervalSum {
    /// Returns the sum of one histogram.
    fn new(histogram: Histogram<u64>) -> IntervalSum
        ensures { IsSum (histogram ∷ []) result }
    {
        IntervalSum {
            histogram,
            counts: Counts {
                intervals: 1,
                finer: 0,
            },
        }
    }

    /// Adds a histogram, by the coarser classes. Returns a histogram that is no longer needed. It is
    /// an error if the classes of neither lie in those of the other; `place` is the line that `other`
    /// was read from.
    fn add(&mut self, mut other: Histogram<u64>, place: Place) -> Result<Histogram<u64>, LogError>
        ensures { OnOk result ((hs : List Plain) → IsSum hs self.old → IsSum (hs ++ other ∷ []) self.new) }
    {
        if other.refines(&self.histogram) {
            let finer = one_if_finer(&self.histogram, &other);
            self.histogram.add(&other)?;
            self.counts.add(1, finer);
            return Ok(other);
        }
        if self.histogram.refines(&other) {
            other.add(&self.histogram)?;
            let finer = mem::replace(&mut self.histogram, other);
            self.counts.finer = self.counts.intervals;
            self.counts.add(1, 0);
            return Ok(finer);
        }
        Err(LogError::NotNested(place))
    }
}

/// Returns 1 if a histogram is finer than a sum, and 0 otherwise.
fn one_if_finer(sum: &Histogram<u64>, one: &Histogram<u64>) -> u64
    ensures { result ≡ one_if_finer (resolution sum.now) one.now }
{
    if sum.refines(one) { 0 } else { 1 }
}

/// The sums of intervals, one after the other.
#[derive(Drop)]
pub(crate) struct Summing {
    /// The intervals of the sums so far.
    pub counts: Counts,
    deserializer: Deserializer,
    /// The last sum. Its memory is used again.
    last_sum: Option<Histogram<u64>>,
    /// The histogram that the last addition no longer needs. Its memory is used again.
    last_part: Option<Histogram<u64>>,
}

impl Summing {
    /// Returns the state before the first sum.
    pub fn new(alloc: Global) -> Summing
        ensures { AreCounts result.counts 0 0 }
    {
        Summing {
            counts: Counts::default(),
            deserializer: Deserializer::new(alloc),
            last_sum: None,
            last_part: None,
        }
    }

    /// Returns the sum of the histograms of an interval and of others.
    pub fn sum_of(
        &mut self,
        first: &StoredInterval,
        others: &[&StoredInterval],
    ) -> Result<IntervalSum, LogError>
        ensures sum { IfOk result (SumsFields (map (λ i. i.field) (view_of_stored first.now ∷ all_of others.now))) }
        ensures counts { self.new.counts ≡ self.old.counts }
    {
        let spare = self.last_sum.take();
        let mut sum = IntervalSum::new(self.histogram_of(first, spare)?);
        for part in others {
            let spare = self.last_part.take();
            let histogram = self.histogram_of(part, spare)?;
            self.last_part = Some(sum.add(histogram, part.place)?);
        }
        Ok(sum)
    }

    /// Returns the histogram of an interval, which grows, in the memory of `spare`.
    fn histogram_of(
        &mut self,
        interval: &StoredInterval,
        spare: Option<Histogram<u64>>,
    ) -> Result<Histogram<u64>, LogError>
        ensures histogram { IfOk result (IsGrowing (view_of_stored interval.now).field) }
        ensures counts { self.new.counts ≡ self.old.counts }
    {
        let mut histogram = interval.histogram(&mut self.deserializer, spare)?;
        histogram.auto(true);
        Ok(histogram)
    }

    /// Counts the intervals of a sum that was written.
    pub fn count(&mut self, sum: IntervalSum)
        ensures { AreCounts self.new.counts (self.old.counts.intervals + sum.counts.intervals)
            (self.old.counts.finer + sum.counts.finer) }
    {
        self.counts.add(sum.counts.intervals, sum.counts.finer);
        self.last_sum = Some(sum.histogram);
    }
}

/// Returns how long the longest of an interval and others is.
pub(crate) fn longest(first: &StoredInterval, others: &[&StoredInterval]) -> Duration
    ensures { IsLongest (map (λ i. i.duration) (view_of_stored first.now ∷ all_of others.now)) (as_nanos result) }
{
    let mut longest = first.duration;
    for part in others {
        longest = longer(longest, part.duration);
    }
    longest
}

/// Returns the longer of two durations.
fn longer(one: Duration, other: Duration) -> Duration
    ensures low { as_nanos one ≤ as_nanos result }
    ensures high { as_nanos other ≤ as_nanos result }
    ensures one_of { (result ≡ one) ⊎ (result ≡ other) }
{
    if one.as_nanos() < other.as_nanos() {
        other
    } else {
        one
    }
}
