//! The sums of intervals: of points of time, of tags, and of all.

ghost use Rattle.std.specs.Prelude.{◌≡◌, ◌↔◌, ◌-◌, ◌^◌, ◌++◌, ◌∷◌, [], List, map, Some, IfOk, IsTrue, MatchOption, OnOk, slice_set};
ghost use Rattle.std.specs.List.{slice_get};
ghost use Rattle.std.specs.List.Sorted.{IsPermutation};
ghost use Rattle.hdr_model.specs.Merging.{after_add};
ghost use Rattle.hdr_model.specs.Plain.{Plain};
ghost use Rattle.hdr_model.specs.Recording.{after_reset};
ghost use Rattle.hdrhistogram.specs.FieldRead.{IsHeldIn};
ghost use Rattle.hdr_logs.specs.Stored.{view_of_stored};
ghost use Rattle.hdr_figures.specs.Classes.{AreClassesOf, IsMarkedBySamples};
ghost use Rattle.hdr_figures.specs.Figures.{AreFiguresOf, ArePeaksOf, peaks_with, value_at, with_samples};
ghost use Rattle.hdr_figures.specs.Intervals.{AreHistogramsOf, IsWorse, span_of, sum_of};
ghost use Rattle.hdr_figures.specs.TagSums.{AreSumsOf, HasOwnClasses, IsTagSum};

use crate::classes::Classes;
use crate::figures::{Cell, LogFigures, Peaks, PointFigures, TagFigures, TagSamples, Total, Worst};
use crate::level::PageLevel;
use crate::sum::Sum;
use crate::timeline::Timeline;
use hdr_logs::{LogError, StoredInterval};
use hdrhistogram::Histogram;
use hdrhistogram::serialization::{Deserializer, RecordedClass};
use std::alloc::{AllocError, Global};
use std::cmp::Reverse;
use std::mem;

/// An interval and its point of time.
#[derive(Clone, Copy)]
struct Key<'a> {
    interval: &'a StoredInterval,
    point: usize,
}

/// Returns the intervals, ordered by their tags and points.
fn keys_of<'a>(
    alloc: Global,
    intervals: &'a [StoredInterval],
    timeline: &Timeline,
) -> Result<Vec<Key<'a>>, AllocError>
    ensures { IfOk result (λ keys. IsPermutation intervals.now (map (λ k. k.interval.now) keys.items)) }
{
    let mut keys = Vec::new(alloc);
    for interval in intervals {
        keys.push(Key {
            interval,
            point: timeline.point_of(interval.start),
        })?;
    }
    keys.sort_by_key(|key| (key.interval.name(), key.point))?;
    Ok(keys)
}

/// What adds intervals, and what is known of those so far.
#[derive(Drop)]
struct Sums<'a> {
    deserializer: Deserializer,
    /// The classes of the interval that was added last.
    classes: Vec<RecordedClass>,
    /// The sum of a point of a tag, and the greatest percentiles of its intervals.
    point: Sum,
    peaks: Peaks,
    /// When the intervals with samples of a tag begin.
    starts: Vec<u64>,
    totals: Vec<Total>,
    worst: Option<Worst<'a>>,
    coarser: u64,
}

/// Returns the figures of intervals, with the values of each tag at levels. `drawn` has the names of
/// the tags that are drawn.
pub fn figures_of<'a>(
    alloc: Global,
    intervals: &'a [StoredInterval],
    timeline: &Timeline,
    levels: &[PageLevel],
    drawn: &[&str],
) -> Result<LogFigures<'a>, LogError>
    ensures all { IfOk result (λ log. AreFiguresOf log.sum.histogram log.all) }
    ensures sums { IfOk result (AreSumsOf intervals.now levels.now) }
{
    let keys = keys_of(alloc, intervals, timeline)?;
    let mut sums = Sums::new(alloc, timeline.points)?;
    let mut sum = Sum::new(alloc)?;
    let mut tags = Vec::new(alloc);
    let mut kept = Vec::new(alloc);
    for part in keys.chunk_by(|a, b| a.interval.name() == b.interval.name()) {
        let name = part.first().map_or("", |key| key.interval.name());
        let is_drawn = position_in(drawn, name) < drawn.len();
        let (length, samples) = sums.tag_of(alloc, part, is_drawn)?;
        sum.add(&samples.sum)?;
        push_tag(&mut tags, tag_figures(alloc, &samples, length, levels)?)?;
        push_drawn(&mut kept, samples, is_drawn)?;
    }
    tags.sort_by_key(|tag: &TagFigures<'_>| (Reverse(tag.figures.count), tag.tag))?;
    kept.sort_by_key(|samples: &TagSamples<'_>| position_in(drawn, samples.tag))?;
    Ok(LogFigures {
        all: sum.figures(),
        sum,
        tags,
        drawn: kept,
        totals: sums.totals,
        worst: sums.worst,
        coarser: sums.coarser,
    })
}

/// Returns the figures of a tag of these samples, with their values at levels.
fn tag_figures<'a>(
    alloc: Global,
    samples: &TagSamples<'a>,
    length: u64,
    levels: &[PageLevel],
) -> Result<TagFigures<'a>, AllocError>
    ensures figures { IfOk result (λ tag. tag.figures ≡ samples.now.figures) }
    ensures levels { IfOk result (λ tag. map (λ at. at.value) tag.at_levels.items
        ≡ map (λ l. value_at samples.now.sum.histogram l.num l.den) levels.now) }
    ensures length { IfOk result (λ tag. tag.length ≡ length) }
{
    Ok(TagFigures {
        tag: samples.tag,
        figures: samples.figures,
        at_levels: samples.sum.at_levels(alloc, levels)?,
        length,
    })
}

/// Appends the figures of a tag.
fn push_tag<'a>(tags: &mut Vec<TagFigures<'a>>, tag: TagFigures<'a>) -> Result<(), AllocError>
    ensures { OnOk result (tags.new.items ≡ tags.old.items ++ tag.entry ∷ []) }
{
    match tags.push(tag) {
        Ok(()) => Ok(()),
        Err(_) => Err(AllocError),
    }
}

/// Appends the samples of a tag if it is drawn.
fn push_drawn<'a>(
    drawn: &mut Vec<TagSamples<'a>>,
    samples: TagSamples<'a>,
    is_drawn: bool,
) -> Result<(), LogError> {
    if is_drawn {
        drawn.push(samples)?;
    }
    Ok(())
}

/// Returns the position of a name, or the number of names if it is none of them.
fn position_in(names: &[&str], name: &str) -> usize {
    names
        .iter()
        .position(|other| *other == name)
        .unwrap_or(names.len())
}

impl<'a> Sums<'a> {
    /// Returns what is known of no intervals at a number of points of time.
    fn new(alloc: Global, points: usize) -> Result<Sums<'a>, LogError>
        ensures { IfOk result (λ sums. HasOwnClasses sums.point.histogram) }
    {
        let none = Total {
            count: 0,
            max: None,
        };
        Ok(Sums {
            deserializer: Deserializer::new(alloc),
            classes: Vec::new(alloc),
            point: Sum::new(alloc)?,
            peaks: Peaks::new(),
            starts: Vec::new(alloc),
            totals: vec![in alloc; none; points]?,
            worst: None,
            coarser: 0,
        })
    }

    /// Adds the intervals of a tag. Returns how long it was seen, in milliseconds, and its samples.
    fn tag_of(
        &mut self,
        alloc: Global,
        keys: &[Key<'a>],
        is_drawn: bool,
    ) -> Result<(u64, TagSamples<'a>), LogError>
        requires { HasOwnClasses self.old.point.histogram }
        ensures classes { OnOk result (HasOwnClasses self.new.point.histogram) }
        ensures sum { IfOk result (λ r. IsTagSum (map (λ k. k.interval.now) keys.now) r.1.sum.histogram) }
        ensures figures { IfOk result (λ r. AreFiguresOf r.1.sum.histogram r.1.figures) }
        ensures length { IfOk result (λ r. r.0 ≡ span_of (map (λ k. k.interval.now) keys.now)) }
    {
        let tag = keys.first().map_or("", |key| key.interval.name());
        let mut sum = Sum::new(alloc)?;
        let mut points = Vec::new(alloc);
        let mut cells = Vec::new(alloc);
        for part in keys.chunk_by(|a, b| a.point == b.point) {
            let point = self.add_point(part)?;
            sum.add(&self.point)?;
            if let Some(point) = point {
                self.add_total(&point);
                if is_drawn {
                    push_cells(&mut cells, point.point, &self.point.histogram)?;
                    points.push(point)?;
                }
            }
        }
        let figures = sum.figures();
        let length = length_of(keys);
        let starts = self.take_starts(alloc)?;
        let samples = TagSamples {
            tag,
            figures,
            sum,
            points,
            cells,
            starts,
        };
        Ok((length, samples))
    }

    /// Returns when the intervals with samples of a tag begin, in order, and removes them.
    fn take_starts(&mut self, alloc: Global) -> Result<Vec<u64>, AllocError>
        ensures { self.new.point ≡ self.old.point }
    {
        self.starts.sort()?;
        Ok(mem::replace(&mut self.starts, Vec::new(alloc)))
    }

    /// Adds the intervals of a point of a tag. Returns the figures of its samples, or `None` if it
    /// has none.
    fn add_point(&mut self, keys: &[Key<'a>]) -> Result<Option<PointFigures>, LogError>
        ensures { IfOk result (λ point. (all : List Plain)
            × AreHistogramsOf (map (λ k. k.interval.now) keys.now) all
            × (self.new.point.histogram ≡ sum_of (after_reset self.old.point.histogram) all)
            × MatchOption point (self.new.point.histogram.total ≡ 0)
            (λ p. (p.count ≡ self.new.point.histogram.total) × ArePeaksOf all p.peaks)) }
    {
        self.point.reset();
        self.peaks = Peaks::new();
        for key in keys {
            self.add_interval(key.interval)?;
        }
        let count = self.point.histogram.len();
        if count == 0 {
            return Ok(None);
        }
        let point = keys.first().map_or(0, |key| key.point);
        Ok(Some(PointFigures {
            point,
            count,
            peaks: self.peaks,
        }))
    }

    /// Adds an interval to its point.
    fn add_interval(&mut self, interval: &'a StoredInterval) -> Result<(), LogError>
        requires { IsMarkedBySamples self.old.point.histogram }
        ensures sum { OnOk result ((h : Plain)
            × IsHeldIn (2 ^ 64 - 1) (view_of_stored interval.now).field h
            × (self.new.point.histogram ≡ after_add (2 ^ 64 - 1) self.old.point.histogram h)
            × (self.new.peaks ≡ peaks_with self.old.peaks h)) }
        ensures marks { OnOk result (IsMarkedBySamples self.new.point.histogram) }
    {
        self.classes.clear();
        let bounds = interval.classes(&mut self.deserializer, &mut self.classes)?;
        let classes = Classes::new(bounds, &self.classes);
        let is_coarser = add_to_sum(&mut self.point, &mut self.deserializer, interval, &classes)?;
        self.coarser = self.coarser.saturating_add(u64::from(is_coarser));
        self.peaks = self.peaks.with(&classes);
        let greatest = classes.greatest();
        self.add_start(interval, greatest)?;
        Ok(())
    }

    /// Adds the start of an interval, and compares its greatest value, if it has samples.
    fn add_start(
        &mut self,
        interval: &'a StoredInterval,
        greatest: Option<u64>,
    ) -> Result<(), AllocError>
        ensures point { self.new.point ≡ self.old.point }
        ensures peaks { self.new.peaks ≡ self.old.peaks }
    {
        let Some(value) = greatest else {
            return Ok(());
        };
        self.update_worst(Worst { value, interval });
        self.starts.push(interval.start)?;
        Ok(())
    }

    /// Keeps an interval if it has the greatest value so far, or comes first with it.
    fn update_worst(&mut self, other: Worst<'a>)
        ensures worst { MatchOption self.old.worst (self.new.worst ≡ Some other.entry)
            (λ w. (IsWorse other.entry w → self.new.worst ≡ Some other.entry)
            × ((IsWorse other.entry w → ⊥) → self.new.worst ≡ Some w)) }
        ensures point { self.new.point ≡ self.old.point }
        ensures peaks { self.new.peaks ≡ self.old.peaks }
    {
        match &self.worst {
            Some(worst) if !other.is_worse(worst) => {}
            _ => self.worst = Some(other),
        }
    }

    /// Adds the figures of a point of a tag to those of all tags.
    fn add_total(&mut self, point: &PointFigures)
        ensures totals { MatchOption (slice_get self.old.totals.items point.now.point)
            (self.new.totals ≡ self.old.totals)
            (λ t. self.new.totals.items
            ≡ slice_set self.old.totals.items point.now.point
            (with_samples t point.now.count point.now.peaks.max)) }
        ensures point { self.new.point ≡ self.old.point }
    {
        if let Some(total) = self.totals.get_mut(point.point) {
            total.count = total.count.saturating_add(point.count);
            total.max = Some(total.max.unwrap_or(0).max(point.peaks.max));
        }
    }
}

impl Worst<'_> {
    /// Whether the value is greater than that of another, or the same in an interval before it.
    fn is_worse(&self, other: &Worst<'_>) -> bool
        ensures { IsTrue result ↔ IsWorse self.now other.now }
    {
        let place = self.interval.place;
        let others = other.interval.place;
        let is_before = place.file < others.file
            || place.file == others.file && place.line < others.line;
        self.value > other.value || self.value == other.value && is_before
    }
}

/// Adds an interval of these classes to a sum. Returns whether it is coarser.
fn add_to_sum(
    sum: &mut Sum,
    deserializer: &mut Deserializer,
    interval: &StoredInterval,
    classes: &Classes<'_>,
) -> Result<bool, LogError>
    ensures { (h : Plain) → IsHeldIn (2 ^ 64 - 1) (view_of_stored interval.now).field h
        → AreClassesOf classes.now h → IsMarkedBySamples sum.old.histogram
        → OnOk result (sum.new.histogram ≡ after_add (2 ^ 64 - 1) sum.old.histogram h) }
{
    if sum.has_bins_for(classes) {
        return Ok(sum.add_classes(classes)?);
    }
    // Only the addition of a histogram makes the bins that it needs.
    let histogram = interval.histogram(deserializer, None)?;
    Ok(sum.add(&Sum::of(histogram))?)
}

/// Appends the samples of a point.
fn push_cells(
    cells: &mut Vec<Cell>,
    point: usize,
    histogram: &Histogram<u64>,
) -> Result<(), AllocError> {
    for step in histogram.iter_recorded() {
        let cell = Cell {
            point,
            value: step.value_iterated_to(),
            count: step.count_at_value(),
        };
        match cells.push(cell) {
            Ok(()) => {}
            Err(_) => return Err(AllocError),
        }
    }
    Ok(())
}

/// Returns how long a tag was seen, in milliseconds: from the start of its first interval to the
/// end of its last one.
fn length_of(keys: &[Key<'_>]) -> u64
    ensures { result ≡ span_of (map (λ k. k.interval.now) keys.now) }
{
    let mut start = u64::MAX;
    let mut end = 0;
    for key in keys {
        start = start.min(key.interval.start);
        end = end.max(key.interval.end());
    }
    end.saturating_sub(start)
}
