//! The samples of a tag's cells.

ghost use Rattle.std.specs.Prelude.{◌≡◌, ◌+◌, ◌-◌, ◌<◌, ◌≤◌, ◌^◌, ℕ, List, [], false, length, map, min, slice_index_or, ◌++◌, IfOk, OnOk};
ghost use Rattle.std.specs.List.{sum_by};
ghost use Rattle.hdr_base.specs.Classes.{HasScale};
ghost use Rattle.hdr_model.specs.Plain.{resolution};
ghost use Rattle.hdr_model.specs.Quantiles.{ranked_sample};
ghost use Rattle.hdr_verdict.specs.Cells.{AreWithin, cells_of_intervals};
ghost use Rattle.hdr_verdict.specs.Decoders.{intervals_of};

use crate::cell::{Cell, cells_of};
use crate::decoder::Decoder;
use crate::runs::Run;
use crate::width::Width;
use hdr_logs::{LogError, StoredInterval};
use hdrhistogram::serialization::RecordedClass;
use hdrhistogram::{Histogram, Quantile};
use std::alloc::Global;

/// The samples of a tag's cells, each as the greatest value of its class.
#[derive(Drop)]
pub struct TagSamples<'a> {
    alloc: Global,
    decoder: Decoder<'a>,
    cells: Vec<Cell>,
    /// The width of classes that have those of all intervals in them.
    width: Width,
    ghost within: { AreWithin (length (intervals_of decoder)) cells.items },
    ghost scale: { HasScale width.low width.sigfig },
}

impl<'a> TagSamples<'a> {
    ghost use Rattle.hdr_verdict.specs.ClassSamples.{AreClassesOf};
    ghost use Rattle.hdr_verdict.specs.Samples.{Held, AreHeld, Rounds, CanCount, samples_of_cells, samples_between, rounded, classes_of, width_of};
    ghost use Rattle.hdr_verdict.specs.TagSamples.{HasSamples, KeepsCells, cells_of, intervals_of_tag, width_of_tag};
    ghost use Rattle.hdr_verdict.specs.Slow.{samples_in, kept};

    /// Returns the samples of the cells of intervals, which are in ascending order of their starts,
    /// up to the end of a log.
    ///
    /// # Errors
    /// As `StoredInterval::histogram`.
    pub fn new(
        alloc: Global,
        intervals: Vec<&'a StoredInterval>,
        end: u64,
    ) -> Result<TagSamples<'a>, LogError>
        ensures intervals { IfOk result (λ s. intervals_of_tag s ≡ map (λ i. i.now) intervals.entry.items) }
        ensures cells { IfOk result (λ s. (all : List Held)
            → AreHeld (map (λ i. i.now) intervals.entry.items) all
            → cells_of s ≡ cells_of_intervals (map (λ i. i.now) intervals.entry.items)
            (map (λ held. length held.samples) all) end) }
        ensures samples { IfOk result (λ s. (all : List Held)
            → AreHeld (map (λ i. i.now) intervals.entry.items) all
            → let cells = samples_of_cells all (width_of all) (cells_of s) in
            CanCount cells → HasSamples s cells) }
    {
        let mut decoder = Decoder::new(alloc, intervals);
        let counts = decoder.count()?;
        Ok(TagSamples {
            alloc,
            cells: cells_of(alloc, decoder.intervals(), &counts.samples, end)?,
            decoder,
            width: counts.width,
        })
    }

    /// Returns the cells.
    pub fn cells(&self) -> &[Cell]
        ensures { result.now ≡ cells_of self.now }
    {
        &self.cells
    }

    /// Returns the number of all samples, or `u64::MAX` if that is less.
    pub fn total(&self) -> u64
        ensures { result ≡ min (sum_by (λ cell. cell.samples) (cells_of self.now)) (2 ^ 64 - 1) }
    {
        let mut total = 0u64;
        for cell in &self.cells {
            total = total.saturating_add(cell.samples);
        }
        total
    }

    /// Returns the width of classes that have those of all intervals in them.
    pub fn width(&self) -> Width
        ensures width { result ≡ width_of_tag self.now }
        ensures scale { HasScale result.low result.sigfig }
    {
        self.width
    }

    /// Replaces `classes` by the classes of a cell.
    pub(crate) fn decode(
        &mut self,
        index: usize,
        classes: &mut Vec<RecordedClass>,
    ) -> Result<(), LogError>
        requires { index < length (cells_of self.old) }
        ensures keeps { KeepsCells self.old self.new }
        ensures samples { OnOk result ((cells : List (List ℕ)) → HasSamples self.old cells
            → AreClassesOf (width_of_tag self.old) classes.new.items (slice_index_or cells index [])) }
    {
        let cell = self.cells[index];
        self.decode_all(cell.first, cell.next, classes)
    }

    /// Replaces `classes` by the classes of intervals, from the index `first` to before the index
    /// `next`.
    fn decode_all(
        &mut self,
        first: usize,
        next: usize,
        classes: &mut Vec<RecordedClass>,
    ) -> Result<(), LogError>
        requires order { first ≤ next }
        requires within { next ≤ length (intervals_of self.old.decoder) }
        ensures keeps { KeepsCells self.old self.new }
        ensures samples { OnOk result ((all : List Held) → AreHeld (intervals_of self.old.decoder) all
            → self.old.width ≡ width_of all → AreClassesOf self.old.width classes.new.items
            (rounded self.old.width (samples_between all first next))) }
    {
        classes.clear();
        for index in first..next {
            let _bounds = self.decoder.decode(index, classes)?;
        }
        Ok(())
    }

    /// Returns the value at a quantile of the samples in the cells of a run, but those that are
    /// left out.
    pub(crate) fn value_in(
        &mut self,
        run: Run,
        left_out: &[bool],
        quantile: Quantile,
    ) -> Result<u64, LogError>
        ensures keeps { KeepsCells self.old self.new }
        ensures value { IfOk result (λ value. (cells : List (List ℕ)) → HasSamples self.old cells
            → 0 < quantile.num → 0 < quantile.den
            → value ≡ ranked_sample quantile (samples_in cells left_out.now run)) }
    {
        let mut classes = Vec::new(self.alloc);
        let mut sum = self.width.histogram(self.alloc)?;
        for index in run.start..run.end.min(self.cells().len()) {
            self.add_kept(&mut sum, index, left_out, &mut classes)?;
        }
        Ok(self.width.value(&sum, quantile))
    }

    /// Adds the samples of a cell to a sum, unless it is left out, and decodes its classes into
    /// `classes`.
    fn add_kept(
        &mut self,
        sum: &mut Histogram<u64>,
        index: usize,
        left_out: &[bool],
        classes: &mut Vec<RecordedClass>,
    ) -> Result<(), LogError>
        requires { index < length (cells_of self.old) }
        ensures keeps { KeepsCells self.old self.new }
        ensures classes { resolution sum.new ≡ resolution sum.old }
        ensures samples { OnOk result ((cells : List (List ℕ)) (S : List ℕ) → HasSamples self.old cells
            → resolution sum.old ≡ classes_of self.old.width → Rounds self.old.width sum.old S
            → length S + length (kept cells left_out.now index) < 2 ^ 64
            → Rounds self.old.width sum.new (S ++ kept cells left_out.now index)) }
    {
        if is_set(left_out, index) {
            return Ok(());
        }
        self.decode(index, classes)?;
        self.width.add(sum, classes)
    }
}

/// Whether an element is there and true.
pub(crate) fn is_set(flags: &[bool], index: usize) -> bool
    ensures { result ≡ slice_index_or flags.now index false }
{
    match flags.get(index) {
        Some(flag) => *flag,
        None => false,
    }
}
