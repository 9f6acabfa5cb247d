//! The tags of intervals.

ghost use Rattle.std.specs.Prelude.{◌≡◌, ◌<◌, ◌↔◌, IfOk, IsTrue, OnOk, length, map};
ghost use Rattle.std.specs.List.Sorted.{IsPermutation, IsSorted};
ghost use Rattle.hdr_verdict.specs.TagSamples.{intervals_of_tag};
ghost use Rattle.hdr_verdict.specs.Tags.{AreTagsOf, HasCells, bar_of, first_name, interval_cmp, is_of, last_end, tag_cmp};

use crate::bar::bar_of_cells;
use crate::samples::TagSamples;
use hdr_logs::{LogError, StoredInterval};
use std::alloc::{AllocError, Global};
use std::cmp::Ordering;

/// A tag, and the samples of its cells.
#[derive(Drop)]
pub struct Tag<'a> {
    pub name: &'a str,
    pub samples: TagSamples<'a>,
}

/// An interval, to be sorted.
#[derive(Clone, Copy)]
struct Entry<'a> {
    interval: &'a StoredInterval,
}

/// Returns the tags of intervals, in order of their names: each has the intervals of its name, in
/// order of start and end.
///
/// # Errors
/// As `StoredInterval::histogram`.
pub fn tags_of<'a>(alloc: Global, intervals: &'a [StoredInterval]) -> Result<Vec<Tag<'a>>, LogError>
    ensures { IfOk result (λ tags. AreTagsOf intervals.now tags.items) }
{
    let end = last_end(intervals);
    let entries = sorted(alloc, intervals)?;
    let mut tags = Vec::new(alloc);
    let mut group = Vec::new(alloc);
    for entry in &entries {
        if !is_of(&group, entry.interval) {
            tags.push(tag_of(alloc, group, end)?)?;
            group = Vec::new(alloc);
        }
        group.push(entry.interval)?;
    }
    if has_some(&group) {
        tags.push(tag_of(alloc, group, end)?)?;
    }
    Ok(tags)
}

/// Whether an interval has the tag of others, if there are any.
fn is_of(group: &[&StoredInterval], interval: &StoredInterval) -> bool
    ensures { result ≡ is_of (map (λ i. i.now) group.now) interval.now }
{
    match group.first() {
        Some(first) => matches!(first.name().cmp(interval.name()), Ordering::Equal),
        None => true,
    }
}

/// Whether there are intervals.
fn has_some(group: &[&StoredInterval]) -> bool
    ensures { IsTrue result ↔ 0 < length group.now }
{
    group.len() > 0
}

/// Returns the tag of intervals that have the same, up to the end of a log.
fn tag_of<'a>(alloc: Global, group: Vec<&'a StoredInterval>, end: u64) -> Result<Tag<'a>, LogError>
    ensures intervals { IfOk result (λ tag. intervals_of_tag tag.samples
        ≡ map (λ i. i.now) group.entry.items) }
    ensures name { IfOk result (λ tag. tag.name.now ≡ first_name (map (λ i. i.now) group.entry.items)) }
    ensures cells { IfOk result (λ tag. HasCells end tag.samples) }
{
    Ok(Tag {
        name: name_of(&group),
        samples: TagSamples::new(alloc, group, end)?,
    })
}

/// Returns the name of the first of intervals, or an empty one if there is none.
fn name_of<'a>(group: &[&'a StoredInterval]) -> &'a str
    ensures { result.now ≡ first_name (map (λ i. i.now) group.now) }
{
    match group.first() {
        Some(first) => first.name(),
        None => "",
    }
}

/// Returns the intervals in order of their names, starts and ends.
fn sorted<'a>(alloc: Global, intervals: &'a [StoredInterval]) -> Result<Vec<Entry<'a>>, AllocError>
    ensures permutation { IfOk result (λ entries. IsPermutation intervals.now
        (map (λ entry. entry.interval.now) entries.items)) }
    ensures sorted { IfOk result (λ entries. IsSorted interval_cmp
        (map (λ entry. entry.interval.now) entries.items)) }
{
    let mut entries = Vec::new(alloc);
    for interval in intervals {
        entries.push(Entry { interval })?;
    }
    entries.sort_by(|one, other| compare(one.interval, other.interval))?;
    Ok(entries)
}

/// Compares intervals by their names, starts and ends.
fn compare(one: &StoredInterval, other: &StoredInterval) -> Ordering
    ensures { result ≡ interval_cmp one.now other.now }
{
    let starts = one.start.cmp(&other.start);
    let rest = starts.then(one.end().cmp(&other.end()));
    one.name().cmp(other.name()).then(rest)
}

/// Returns when the last of intervals ends.
pub(crate) fn last_end(intervals: &[StoredInterval]) -> u64
    ensures { result ≡ last_end intervals.now }
{
    let mut end = 0u64;
    for interval in intervals {
        end = end.max(interval.end());
    }
    end
}

/// Sorts tags: those with the most samples are first, and of as many they are in order of their
/// names.
pub(crate) fn sort_tags(tags: &mut Vec<Tag<'_>>) -> Result<(), AllocError>
    ensures permutation { IsPermutation tags.old.items tags.new.items }
    ensures sorted { OnOk result (IsSorted tag_cmp tags.new.items) }
{
    tags.sort_by(|one, other| compare_tags(one, other))?;
    Ok(())
}

/// Compares tags by falling numbers of samples, and then by names.
fn compare_tags(one: &Tag<'_>, other: &Tag<'_>) -> Ordering
    ensures { result ≡ tag_cmp one.now other.now }
{
    let totals = other.samples.total().cmp(&one.samples.total());
    totals.then(one.name.cmp(other.name))
}

/// Returns how many samples that are all slow open a run, so that chance alone seldom does: 6, and
/// half the number of bits of the number of tests.
pub fn bar_of(tags: &[Tag<'_>]) -> u64
    ensures value { result ≡ bar_of tags.now }
    ensures some { 0 < result }
{
    let mut cells = 0u64;
    for tag in tags {
        cells = cells.saturating_add(tag.samples.cells().len() as u64);
    }
    bar_of_cells(cells)
}
