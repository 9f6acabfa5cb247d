//! The verdict of a log.

ghost use Rattle.std.specs.Prelude.{◌≡◌, ◌<◌, ◌++◌, ℕ, List, IfOk, OnOk, map};
ghost use Rattle.hdr_verdict.specs.Episodes.{view_of_episode};
ghost use Rattle.hdr_verdict.specs.Slow.{runs_in, views_of};
ghost use Rattle.hdr_verdict.specs.TagSamples.{HasSamples, KeepsCells, cells_of};
ghost use Rattle.hdr_verdict.specs.Verdicts.{AreFound, HasEpisodes, IsFound, IsVerdictOf, span_of, times_over};

use crate::cell::Cell;
use crate::episode::{Episode, TagCells, episodes_of, push_episode};
use crate::incident::{Incident, incidents_of};
use crate::level::TailLevel;
use crate::missing::missing_of;
use crate::runs::Run;
use crate::samples::TagSamples;
use crate::slow::{SlowTime, Test};
use crate::tags::{Tag, bar_of, last_end, sort_tags, tags_of};
use crate::tests::{SlowTimes, slow_times};
use hdr_logs::{LogError, StoredInterval};
use std::alloc::{AllocError, Global};

/// A time, in milliseconds as `StoredInterval::start`.
#[derive(Clone, Copy)]
pub struct Span {
    pub start: u64,
    pub end: u64,
}

/// What was found of a tag.
#[derive(Drop)]
pub struct TagFindings<'a> {
    pub tag: &'a str,
    pub samples: u64,
    /// The number of its cells.
    pub cells: usize,
    /// The tests that there were samples enough for.
    pub tests: Vec<Test>,
    /// The times at which it was over each level, in their order.
    pub over: Vec<Vec<Span>>,
}

/// The verdict of a log.
#[derive(Drop)]
pub struct LogVerdict<'a> {
    /// The number of samples that have to be slow, or missing, for an episode.
    pub bar: u64,
    /// The tags, those with the most samples first.
    pub tags: Vec<TagFindings<'a>>,
    /// The incidents, the heaviest first.
    pub incidents: Vec<Incident>,
}

/// Returns the verdict of the intervals of a log: what happened to its tags by what is usual for
/// them, and when they were over each level: never at `None`.
///
/// # Errors
/// Returns an error if a histogram is invalid, or if an allocation fails.
pub fn verdict_of<'a>(
    alloc: Global,
    intervals: &'a [StoredInterval],
    levels: &[Option<TailLevel>],
) -> Result<LogVerdict<'a>, LogError>
    ensures { IfOk result (IsVerdictOf intervals.now levels.now) }
{
    let mut tags = tags_of(alloc, intervals)?;
    sort_tags(&mut tags)?;
    let bar = bar_of(&tags);
    let all = find_all(alloc, tags, last_end(intervals), levels, bar)?;
    Ok(LogVerdict {
        bar,
        tags: all.tags,
        incidents: incidents_of(alloc, all.episodes)?,
    })
}

/// What is found of tags, and their episodes.
#[derive(Drop)]
struct FoundTag<'a> {
    tags: Vec<TagFindings<'a>>,
    episodes: Vec<Episode>,
}

/// Returns what is found of tags, and their episodes, one tag after the other.
fn find_all<'a>(
    alloc: Global,
    tags: Vec<Tag<'a>>,
    log_end: u64,
    levels: &[Option<TailLevel>],
    bar: u64,
) -> Result<FoundTag<'a>, LogError>
    requires { 0 < bar }
    ensures { IfOk result (λ all. AreFound bar levels.now log_end 0 tags.entry.items all.tags.items
        (map view_of_episode all.episodes.items)) }
{
    let mut all = Vec::new(alloc);
    let mut episodes = Vec::new(alloc);
    for tag in tags {
        let index = all.len();
        let (found, own) = findings_of(alloc, tag, index, log_end, levels, bar)?;
        push_episodes(&mut episodes, own)?;
        all.push(found)?;
    }
    Ok(FoundTag {
        tags: all,
        episodes,
    })
}

/// Appends episodes.
fn push_episodes(episodes: &mut Vec<Episode>, more: Vec<Episode>) -> Result<(), AllocError>
    ensures { OnOk result (map view_of_episode episodes.new.items
        ≡ map view_of_episode episodes.old.items ++ map view_of_episode more.items) }
{
    for episode in more {
        push_episode(episodes, episode)?;
    }
    Ok(())
}

/// Returns what is found of the tag of an index, and its episodes.
fn findings_of<'a>(
    alloc: Global,
    tag: Tag<'a>,
    index: usize,
    log_end: u64,
    levels: &[Option<TailLevel>],
    bar: u64,
) -> Result<(TagFindings<'a>, Vec<Episode>), LogError>
    requires { 0 < bar }
    ensures found { IfOk result (λ r. IsFound bar levels.now tag.entry r.0) }
    ensures episodes { IfOk result (λ r. HasEpisodes bar log_end index tag.entry r.0
        (map view_of_episode r.1.items)) }
{
    let Tag { name, mut samples } = tag;
    let over = over_levels(alloc, &mut samples, levels, bar)?;
    let SlowTimes { tests, times } = slow_times(alloc, &mut samples, None, bar)?;
    let cells = TagCells {
        tag: index,
        cells: samples.cells(),
        log_end,
    };
    let missing = missing_of(alloc, cells.cells, bar)?;
    let episodes = episodes_of(alloc, &cells, times, missing)?;
    let found = TagFindings {
        tag: name,
        samples: samples.total(),
        cells: samples.cells().len(),
        tests,
        over,
    };
    Ok((found, episodes))
}

/// Returns the times at which a tag is over each level.
fn over_levels(
    alloc: Global,
    samples: &mut TagSamples<'_>,
    levels: &[Option<TailLevel>],
    bar: u64,
) -> Result<Vec<Vec<Span>>, LogError>
    requires { 0 < bar }
    ensures keeps { KeepsCells samples.old samples.new }
    ensures over { IfOk result (λ all. (cells : List (List ℕ)) → HasSamples samples.old cells
        → map (λ over. over.items) all.items
        ≡ map (times_over bar (cells_of samples.old) cells) levels.now) }
{
    let mut all = Vec::new(alloc);
    for level in levels {
        all.push(times_over(alloc, samples, *level, bar)?)?;
    }
    Ok(all)
}

/// Returns the times at which a tag is over a level.
fn times_over(
    alloc: Global,
    samples: &mut TagSamples<'_>,
    level: Option<TailLevel>,
    bar: u64,
) -> Result<Vec<Span>, LogError>
    requires { 0 < bar }
    ensures keeps { KeepsCells samples.old samples.new }
    ensures over { IfOk result (λ over. (cells : List (List ℕ)) → HasSamples samples.old cells
        → over.items ≡ times_over bar (cells_of samples.old) cells level) }
{
    if level.is_none() {
        return Ok(Vec::new(alloc));
    }
    let slow = slow_times(alloc, samples, level, bar)?;
    Ok(spans_of(alloc, samples.cells(), &slow.times)?)
}

/// Returns when slow times begin and end.
fn spans_of(alloc: Global, cells: &[Cell], slow: &[SlowTime]) -> Result<Vec<Span>, AllocError>
    ensures { IfOk result (λ spans. spans.items ≡ map (span_of cells.now) (runs_in (views_of slow.now))) }
{
    let mut spans = Vec::new(alloc);
    for time in slow {
        spans.push(span_of(cells, time.run))?;
    }
    Ok(spans)
}

/// Returns when a run of cells begins and ends.
fn span_of(cells: &[Cell], run: Run) -> Span
    ensures { result ≡ span_of cells.now run }
{
    let first = cells.get(run.start);
    let last = cells.get(run.end.saturating_sub(1));
    Span {
        start: first.map_or(0, |cell| cell.start),
        end: last.map_or(0, |cell| cell.last),
    }
}
