//! The classes of a tag's intervals.

ghost use Rattle.std.specs.Prelude.{◌≡◌, ◌-◌, ◌<◌, ◌^◌, length, map, min, slice_index_or, IfOk, List};
ghost use Rattle.hdr_base.specs.Classes.{HasScale};
ghost use Rattle.hdr_verdict.specs.ClassSamples.{AppendsHeld, values_of};

use crate::width::Width;
use hdr_logs::{LogError, StoredInterval};
use hdrhistogram::serialization::{Deserializer, RecordedBounds, RecordedClass};
use std::alloc::Global;

/// What decodes the classes of a tag's intervals.
#[derive(Drop)]
pub(crate) struct Decoder<'a> {
    alloc: Global,
    /// The intervals, in ascending order of their starts.
    intervals: Vec<&'a StoredInterval>,
    deserializer: Deserializer,
}

/// The number of samples of each interval, and the width of classes that have those of all
/// intervals in them.
#[derive(Drop)]
pub(crate) struct Counts {
    pub(crate) samples: Vec<u64>,
    pub(crate) width: Width,
    ghost scale: { HasScale width.low width.sigfig },
}

impl<'a> Decoder<'a> {
    ghost use Rattle.hdr_verdict.specs.Samples.{Held, nothing_held, width_of, AreHeld};
    ghost use Rattle.hdr_verdict.specs.Decoders.{intervals_of};

    /// Returns what decodes intervals.
    pub(crate) fn new(alloc: Global, intervals: Vec<&'a StoredInterval>) -> Decoder<'a>
        ensures { intervals_of result ≡ map (λ i. i.now) intervals.entry.items }
    {
        Decoder {
            alloc,
            intervals,
            deserializer: Deserializer::new(alloc),
        }
    }

    /// Returns the intervals.
    pub(crate) fn intervals(&self) -> &[&'a StoredInterval]
        ensures { map (λ i. i.now) result.now ≡ intervals_of self.now }
    {
        &self.intervals
    }

    /// Appends the nonempty classes of an interval's histogram, and returns the bounds of that.
    pub(crate) fn decode(
        &mut self,
        index: usize,
        classes: &mut Vec<RecordedClass>,
    ) -> Result<RecordedBounds, LogError>
        requires { index < length (intervals_of self.old) }
        ensures intervals { intervals_of self.new ≡ intervals_of self.old }
        ensures scale { IfOk result (λ bounds. HasScale bounds.low bounds.sigfig) }
        ensures held { IfOk result (λ bounds. (all : List Held) → AreHeld (intervals_of self.old) all
            → AppendsHeld (slice_index_or all index nothing_held) bounds classes.old.items
            classes.new.items) }
    {
        let interval = self.intervals[index];
        interval.classes(&mut self.deserializer, classes)
    }

    /// Counts the samples of the intervals.
    pub(crate) fn count(&mut self) -> Result<Counts, LogError>
        ensures intervals { intervals_of self.new ≡ intervals_of self.old }
        ensures many { IfOk result (λ counts. length counts.samples.items
            ≡ length (intervals_of self.old)) }
        ensures counts { IfOk result (λ counts. (all : List Held)
            → AreHeld (intervals_of self.old) all
            → (counts.samples.items ≡ map (λ held. length held.samples) all)
            × (counts.width ≡ width_of all)) }
    {
        let mut classes = Vec::new(self.alloc);
        let mut samples = Vec::new(self.alloc);
        let mut width = Width::FINEST;
        for index in 0..self.intervals().len() {
            classes.clear();
            let bounds = self.decode(index, &mut classes)?;
            width = width.join(bounds);
            samples.push(total_of(&classes))?;
        }
        Ok(Counts { samples, width })
    }
}

/// Returns the number of samples of classes, or `u64::MAX` if that is less.
fn total_of(classes: &[RecordedClass]) -> u64
    ensures { result ≡ min (length (values_of classes.now)) (2 ^ 64 - 1) }
{
    let mut total = 0u64;
    for class in classes {
        total = total.saturating_add(class.count);
    }
    total
}
