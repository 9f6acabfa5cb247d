//! What a page shows.

ghost use Rattle.std.specs.Prelude.{ℕ, ◌≡◌, ◌≤◌, ◌<◌, ◌↔◌, ◌==◌, IfOk, IsTrue, length, []};
ghost use Rattle.std.specs.List.{All, AllZip};
ghost use Rattle.hdr_draw.specs.Scales.{IsValueScale};
ghost use Rattle.hdr_logs.specs.Stored.{HaveSameDecimals, HaveSameUnit};
ghost use Rattle.hdr_view.specs.Views.{IsLevelOf, IsShownIn, figure_of, name_without_tag};

use crate::amount::Units;
use crate::clock::Clock;
use crate::name::{push_shown, shortened};
use crate::naming::Naming;
use crate::options::PageOptions;
use crate::order::{named_incidents, order_of, slow_lengths};
use hdr_draw::path::Joint;
use hdr_draw::values::ValueScale;
use hdr_figures::figures::{DRAWN, LogFigures, Peaks, TagSamples};
use hdr_figures::level::PageLevel;
use hdr_figures::sums::figures_of;
use hdr_figures::timeline::Timeline;
use hdr_logs::{LogError, LogIntervals};
use hdr_verdict::{Incident, LogVerdict, Tail, TailLevel, verdict_of};
use std::alloc::{AllocError, Global};

/// The form of a page.
#[derive(Clone, Copy, PartialEq, Eq)]
pub enum PageForm {
    Html,
    /// Text for a terminal.
    Plain,
}

/// What a page shows.
#[derive(Drop)]
pub struct View<'a> {
    pub alloc: Global,
    pub form: PageForm,
    pub options: PageOptions<'a>,
    pub units: Units,
    pub timeline: Timeline,
    pub clock: Clock,
    /// The number of intervals.
    pub intervals: usize,
    pub log: LogFigures<'a>,
    pub verdict: LogVerdict<'a>,
    pub naming: Naming,
    /// The indices of the tags in the order of the table: those of incidents that are named, and then
    /// the ones with the most samples. The first `DRAWN` are drawn.
    pub order: Vec<usize>,
    /// How long each tag was slow, in milliseconds.
    pub slow: Vec<u64>,
}

impl<'a> View<'a> {
    ghost use Rattle.hdr_view.specs.Pages.{IsViewOf};

    /// Returns what a page of intervals shows.
    ///
    /// # Errors
    /// Returns an error if a histogram is invalid, or if an allocation fails.
    pub fn new(
        alloc: Global,
        intervals: &'a LogIntervals,
        options: PageOptions<'a>,
        form: PageForm,
    ) -> Result<View<'a>, LogError>
        ensures view { IfOk result (IsViewOf intervals.now.list.items options.entry form) }
        ensures units { IfOk result (λ view. HaveSameDecimals intervals.now → HaveSameUnit intervals.now
            → All (IsShownIn view.units) intervals.now.list.items) }
    {
        let unit = intervals.unit().or(options.unit);
        let decimals = intervals.decimals().unwrap_or(0);
        let timeline = Timeline::new(alloc, &intervals.list)?;
        let levels = tested_levels(alloc, options.levels)?;
        let verdict = verdict_of(alloc, &intervals.list, &levels)?;
        let naming = Naming::new(alloc, &verdict.incidents)?;
        let order = order_of(alloc, verdict.tags.len(), &verdict.incidents, &naming)?;
        let drawn = drawn_names(alloc, &verdict, &order)?;
        let log = figures_of(alloc, &intervals.list, &timeline, options.levels, &drawn)?;
        let slow = slow_lengths(alloc, verdict.tags.len(), &verdict.incidents)?;
        Ok(View {
            alloc,
            form,
            options,
            units: Units::new(unit, decimals),
            clock: Clock::new(&timeline),
            timeline,
            intervals: intervals.list.len(),
            log,
            verdict,
            naming,
            order,
            slow,
        })
    }

    /// Whether the log has one tag.
    pub fn is_single(&self) -> bool
        ensures { result ≡ (length self.now.log.tags.items == 1) }
    {
        self.log.tags.len() == 1
    }

    /// Whether the log has one point of time.
    pub fn is_instant(&self) -> bool
        ensures { IsTrue result ↔ self.now.timeline.points ≤ 1 }
    {
        self.timeline.points <= 1
    }

    /// Returns the least value, or the least level if that is less.
    fn least(&self) -> u64
        ensures below { result ≤ self.now.log.all.min }
        ensures levels { All (λ l. result ≤ l.value) self.now.options.levels.now }
    {
        let mut least = self.log.all.min;
        for level in self.options.levels {
            least = least.min(level.value);
        }
        least
    }

    /// Returns the greatest value, or the greatest level if that is greater.
    pub fn greatest(&self) -> u64
        ensures some { 1 ≤ result }
        ensures above { self.now.log.all.max ≤ result }
        ensures levels { All (λ l. l.value ≤ result) self.now.options.levels.now }
    {
        let mut greatest = self.log.all.max.max(1);
        for level in self.options.levels {
            greatest = greatest.max(level.value);
        }
        greatest
    }

    /// Returns the scale of all values, and of the levels.
    pub fn scale(&self) -> ValueScale
        ensures { (least : ℕ) × (greatest : ℕ) × IsValueScale result least greatest
            × (least ≤ self.now.log.all.min) × (self.now.log.all.max ≤ greatest) }
    {
        ValueScale::new(self.least(), self.greatest())
    }

    /// Returns the incidents that are named, the heaviest first.
    pub fn named_incidents(&self) -> Result<Vec<&Incident>, AllocError> {
        named_incidents(self.alloc, &self.verdict.incidents, &self.naming)
    }

    /// Returns when a drawn tag has samples again, from a time on.
    pub fn next_samples(&self, tag: usize, time: u64) -> Option<u64> {
        let mut drawn = self.order.iter().zip(&self.log.drawn);
        let (_, samples) = drawn.find(|(index, _)| **index == tag)?;
        let next = samples.starts.partition_point(|start| *start < time);
        samples.starts.get(next).copied()
    }

    /// Appends the name of a tag, with at most a number of columns.
    pub fn push_tag(&self, text: &mut String, tag: &str, most: usize) -> Result<(), AllocError> {
        self.push_shown(text, self.name_of(tag), most)
    }

    /// Appends the name of a tag in `<bdi>`, so that its direction does not affect the text around
    /// it.
    pub fn push_isolated(
        &self,
        text: &mut String,
        tag: &str,
        most: usize,
    ) -> Result<(), AllocError> {
        self.push_markup(text, "<bdi>")?;
        self.push_tag(text, tag, most)?;
        self.push_markup(text, "</bdi>")
    }

    /// Appends a text of a log, with at most a number of columns.
    pub fn push_shown(&self, text: &mut String, name: &str, most: usize) -> Result<(), AllocError> {
        match self.form {
            PageForm::Html => push_shown(self.alloc, text, name, most),
            PageForm::Plain => text.push_str(shortened(self.alloc, name, most)?.as_str()),
        }
    }

    /// Appends a tag of HTML, unless the text is plain.
    pub(crate) fn push_markup(&self, text: &mut String, tag: &str) -> Result<(), AllocError> {
        match self.form {
            PageForm::Html => text.push_str(tag),
            PageForm::Plain => Ok(()),
        }
    }

    /// Returns the name of a tag.
    pub(crate) fn name_of<'n>(&self, tag: &'n str) -> &'n str
        ensures tag { 0 < length tag.now → result.now ≡ tag.now }
        ensures no_tag { tag.now ≡ [] → result.now ≡ name_without_tag (length self.now.log.tags.items) }
    {
        if !tag.is_empty() {
            return tag;
        }
        if self.is_single() {
            "all samples"
        } else {
            "(no tag)"
        }
    }
}

/// Returns levels as those of tails.
fn tested_levels(alloc: Global, levels: &[PageLevel]) -> Result<Vec<Option<TailLevel>>, AllocError>
    ensures { IfOk result (λ all. AllZip IsLevelOf levels.now all.items) }
{
    let mut all = Vec::new(alloc);
    for level in levels {
        all.push(level_of(*level))?;
    }
    Ok(all)
}

/// Returns the names of the tags that are drawn.
fn drawn_names<'a>(
    alloc: Global,
    verdict: &LogVerdict<'a>,
    order: &[usize],
) -> Result<Vec<&'a str>, AllocError> {
    let mut names = Vec::new(alloc);
    for index in order.iter().take(DRAWN) {
        if let Some(tag) = verdict.tags.get(*index) {
            match names.push(tag.tag) {
                Ok(()) => {}
                Err(_) => return Err(AllocError),
            }
        }
    }
    Ok(names)
}

/// Returns the level of a quantile above 0, as one of the tail that the quantile leaves out.
fn level_of(level: PageLevel) -> Option<TailLevel>
    ensures { IsLevelOf level result }
{
    if level.num == 0 || level.num > level.den || level.den >= 1 << 63 {
        return None;
    }
    Some(TailLevel {
        tail: Tail {
            num: level.den - level.num,
            den: level.den,
        },
        value: level.value,
    })
}

/// The figure of a point that a line shows.
#[derive(Clone, Copy)]
pub enum Series {
    P50,
    P90,
    P99,
    P999,
    Max,
}

impl Series {
    /// Returns the percentile that leaves out a tail.
    pub fn of_tail(tail: Tail) -> Series {
        match (tail.num, tail.den) {
            (1, 2) => Series::P50,
            (1, 10) => Series::P90,
            (1, 100) => Series::P99,
            _ => Series::P999,
        }
    }

    /// Returns the joint of the levels of the line.
    pub fn joint(self) -> Joint {
        match self {
            Series::Max => Joint::Gap,
            _ => Joint::Jump,
        }
    }

    /// Returns the figure that the line shows.
    pub fn of(self, peaks: &Peaks) -> u64
        ensures { result ≡ figure_of self peaks.now }
    {
        match self {
            Series::P50 => peaks.p50,
            Series::P90 => peaks.p90,
            Series::P99 => peaks.p99,
            Series::P999 => peaks.p999,
            Series::Max => peaks.max,
        }
    }

    /// Returns the values of all points of a tag: `None` without samples.
    pub fn values(
        self,
        alloc: Global,
        tag: &TagSamples<'_>,
        points: usize,
    ) -> Result<Vec<Option<u64>>, AllocError> {
        let mut values = vec![in alloc; None; points]?;
        for point in &tag.points {
            if let Some(value) = values.get_mut(point.point) {
                *value = Some(self.of(&point.peaks));
            }
        }
        Ok(values)
    }
}
