//! The order of the tags on a page, and how long each was slow.

ghost use Rattle.std.specs.Prelude.{ℕ, ◌≡◌, List, IfOk, OnOk, map};
ghost use Rattle.std.specs.List.{fold};
ghost use Rattle.std.specs.List.Sorted.{IsPermutation, IsSorted};
ghost use Rattle.std.specs.Ordering.{nat_cmp};
ghost use Rattle.hdr_verdict.specs.declared.incident.Incident.{Incident};
ghost use Rattle.hdr_view.specs.Order.{AreAt, first_tags, indices_of, with_first, with_others};

use crate::naming::{Naming, push, tags_of};
use hdr_figures::figures::DRAWN;
use hdr_verdict::{Episode, EpisodeKind, Incident};
use std::alloc::{AllocError, Global};

/// Returns the indices of tags in the order of a page: the first of those of the incidents that
/// are named, and then all others.
pub(crate) fn order_of(
    alloc: Global,
    tags: usize,
    incidents: &[Incident],
    naming: &Naming,
) -> Result<Vec<usize>, AllocError>
    ensures { IfOk result (λ order. (named : List Incident)
        × AreAt (indices_of naming.now.named.items) incidents.now named
        × (order.items ≡ with_others tags (first_tags tags named))) }
{
    let named = named_incidents(alloc, incidents, naming)?;
    let first = first_tags(alloc, tags, &named)?;
    with_others(alloc, tags, &first)
}

/// Returns the incidents that are named, the heaviest first.
pub(crate) fn named_incidents<'a>(
    alloc: Global,
    incidents: &'a [Incident],
    naming: &Naming,
) -> Result<Vec<&'a Incident>, AllocError>
    ensures { IfOk result (λ named. AreAt (indices_of naming.now.named.items) incidents.now
        (map (λ i. i.now) named.items)) }
{
    let mut named = Vec::new(alloc);
    for index in &indices_of(alloc, naming)? {
        if let Some(incident) = incidents.get(*index) {
            match named.push(incident) {
                Ok(()) => {}
                Err(_) => return Err(AllocError),
            }
        }
    }
    Ok(named)
}

/// Returns the indices of the incidents that are named, in ascending order.
fn indices_of(alloc: Global, naming: &Naming) -> Result<Vec<usize>, AllocError>
    ensures permutation { IfOk result (λ indices. IsPermutation (indices_of naming.now.named.items)
        indices.items) }
    ensures sorted { IfOk result (λ indices. IsSorted nat_cmp indices.items) }
{
    let mut indices = Vec::new(alloc);
    for line in &naming.named {
        indices.extend_from_slice(&line.all)?;
    }
    indices.sort()?;
    Ok(indices)
}

/// Returns some tags, and then all others below a number.
fn with_others(alloc: Global, tags: usize, first: &[usize]) -> Result<Vec<usize>, AllocError>
    ensures { IfOk result (λ order. order.items ≡ with_others tags first.now) }
{
    let mut order = Vec::new(alloc);
    order.extend_from_slice(first)?;
    for tag in 0..tags {
        if !first.contains(&tag) {
            push(&mut order, tag)?;
        }
    }
    Ok(order)
}

/// Returns the tags of incidents, each once, up to as many as are drawn.
fn first_tags(alloc: Global, tags: usize, incidents: &[&Incident]) -> Result<Vec<usize>, AllocError>
    ensures { IfOk result (λ first. first.items ≡ first_tags tags (map (λ i. i.now) incidents.now)) }
{
    let mut first = Vec::new(alloc);
    for incident in incidents {
        push_firsts(&mut first, tags, &tags_of(alloc, incident)?)?;
    }
    Ok(first)
}

/// Appends each of some tags, unless it is there or enough others are.
fn push_firsts(first: &mut Vec<usize>, tags: usize, more: &[usize]) -> Result<(), AllocError>
    ensures { OnOk result (first.new.items ≡ fold (with_first tags) first.old.items more.now) }
{
    for tag in more {
        push_first(first, tags, *tag)?;
    }
    Ok(())
}

/// Appends a tag, unless it is there or enough others are.
fn push_first(first: &mut Vec<usize>, tags: usize, tag: usize) -> Result<(), AllocError>
    ensures { OnOk result (first.new.items ≡ with_first tags first.old.items tag) }
{
    if first.len() < DRAWN && tag < tags && !first.contains(&tag) {
        push(first, tag)?;
    }
    Ok(())
}

/// A time at which a tag was slow, in milliseconds.
#[derive(Clone, Copy)]
struct SlowSpan {
    tag: usize,
    start: u64,
    end: u64,
}

/// Returns how long each tag was slow, in milliseconds.
pub(crate) fn slow_lengths(
    alloc: Global,
    tags: usize,
    incidents: &[Incident],
) -> Result<Vec<u64>, AllocError> {
    let mut spans = Vec::new(alloc);
    for incident in incidents {
        push_span(&mut spans, &incident.heaviest)?;
        for episode in &incident.joined {
            push_span(&mut spans, episode)?;
        }
    }
    spans.sort_by_key(|span: &SlowSpan| (span.tag, span.start))?;
    let mut lengths = vec![in alloc; 0; tags]?;
    for spans in spans.chunk_by(|a, b| a.tag == b.tag) {
        let tag = spans.first().map_or(tags, |span| span.tag);
        if let Some(length) = lengths.get_mut(tag) {
            *length = length_of(spans);
        }
    }
    Ok(lengths)
}

/// Appends the time of an episode, unless samples were missing alone.
fn push_span(spans: &mut Vec<SlowSpan>, episode: &Episode) -> Result<(), AllocError> {
    if !matches!(episode.kind, EpisodeKind::Slow | EpisodeKind::Stall) {
        return Ok(());
    }
    let span = SlowSpan {
        tag: episode.tag,
        start: episode.start,
        end: episode.end,
    };
    spans.push(span).map_err(|_| AllocError)
}

/// Returns how long times are together, in ascending order of their starts. A time that is in two
/// of them counts once.
fn length_of(spans: &[SlowSpan]) -> u64 {
    let mut length = 0u64;
    let mut end = 0;
    for span in spans {
        let more = span.end.saturating_sub(span.start.max(end));
        length = length.saturating_add(more);
        end = span.end.max(end);
    }
    length
}
