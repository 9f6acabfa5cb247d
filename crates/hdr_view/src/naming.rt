//! The incidents that are named by letters.

ghost use Rattle.std.specs.Prelude.{◌≡◌, ◌↔◌, ℕ, ◌+◌, ◌<◌, ◌++◌, ◌∷◌, [], IfOk, OnOk, IsTrue, length, map, take, drop};
ghost use Rattle.std.specs.Prelude.{if◌then◌else◌, nat_lt};
ghost use Rattle.std.specs.List.{All};
ghost use Rattle.hdr_view.specs.Naming.{HaveEachOnce, IsLineOf, IsNaming, count_in, is_first, is_gap, least, lightest, start_of, tag_of, times, times_in};
ghost use Rattle.std.specs.Prelude.{slice_get};
ghost use Rattle.hdr_view.specs.Order.{tags_of};

use hdr_verdict::{Episode, EpisodeKind, Incident};
use std::alloc::{AllocError, Global};

/// The most letters.
const NAMED: usize = 8;

/// The letters of incidents, in order of time.
pub const LETTERS: [&str; NAMED] = ["A", "B", "C", "D", "E", "F", "G", "H"];

/// This number of incidents that are alike have one letter: three may be named one by one.
const FEWEST_ALIKE: usize = 4;

/// The most cells of an incident that is alike others.
const SHORT: usize = 3;

/// An incident that is more times as heavy as the median of those like it is not alike them.
const OUTLIER: u128 = 8;

/// Incidents of one letter: one, or several that are alike.
#[derive(Drop)]
pub struct NamedIncidents {
    /// The index of the heaviest.
    pub heaviest: usize,
    /// The indices of all of them, in order of time.
    pub all: Vec<usize>,
    /// Whether it is a stall or a gap, which have letters before others.
    pub(crate) comes_first: bool,
    /// When the heaviest began, and its tag.
    pub(crate) start: u64,
    pub(crate) tag: usize,
}

/// The incidents that are named, in order of time, and the others.
#[derive(Drop)]
pub struct Naming {
    pub named: Vec<NamedIncidents>,
    /// How many more there would be.
    pub others: usize,
    /// Whether each of the others is lighter than those that are named.
    pub are_lighter: bool,
}

/// Whether an incident is slow, and not one at which samples are missing alone.
pub(crate) fn is_slow(incident: &Incident) -> bool {
    matches!(
        incident.heaviest.kind,
        EpisodeKind::Slow | EpisodeKind::Stall
    )
}

/// Returns the tags of an incident: that of the heaviest episode, and then the others by weight.
pub(crate) fn tags_of(alloc: Global, incident: &Incident) -> Result<Vec<usize>, AllocError>
    ensures { IfOk result (λ tags. tags.items ≡ tags_of incident.now) }
{
    let mut tags = Vec::new(alloc);
    push(&mut tags, incident.heaviest.tag)?;
    for episode in &incident.joined {
        push(&mut tags, episode.tag)?;
    }
    Ok(tags)
}

/// Returns the episode of a tag in an incident.
pub fn episode_of(incident: &Incident, tag: usize) -> Option<&Episode> {
    if incident.heaviest.tag == tag {
        return Some(&incident.heaviest);
    }
    incident.joined.iter().find(|episode| episode.tag == tag)
}

/// Appends an index.
pub(crate) fn push(indices: &mut Vec<usize>, index: usize) -> Result<(), AllocError>
    ensures { OnOk result (indices.new.items ≡ indices.old.items ++ index ∷ []) }
{
    indices.push(index).map_err(|_| AllocError)
}

/// A short incident and its tags in order.
#[derive(Drop)]
struct Short {
    tags: Vec<usize>,
    index: usize,
}

/// Returns the short incidents by their tags, and those of the same tags by falling weight. Appends
/// the index of each other incident.
fn short_ones(
    alloc: Global,
    incidents: &[Incident],
    single: &mut Vec<usize>,
) -> Result<Vec<Short>, AllocError>
    ensures { IfOk result (λ short. (index : ℕ)
        → times index single.new.items + times index (map (λ s. s.index) short.items)
        ≡ times index single.old.items + (if nat_lt index (length incidents.now) then 1 else 0)) }
{
    let mut short = Vec::new(alloc);
    for (index, incident) in incidents.iter().enumerate() {
        if is_short(incident) {
            push_short(&mut short, sorted_tags(alloc, incident)?, index)?;
        } else {
            push(single, index)?;
        }
    }
    short.sort_by(|a: &Short, b: &Short| a.tags.cmp(&b.tags).then(a.index.cmp(&b.index)))?;
    Ok(short)
}

/// Whether an incident is slow for a short time, and over at the end of the log.
fn is_short(incident: &Incident) -> bool {
    let run = incident.heaviest.run;
    is_slow(incident) && run.end.saturating_sub(run.start) <= SHORT && !incident.has_lasting()
}

/// Returns the tags of an incident in ascending order.
fn sorted_tags(alloc: Global, incident: &Incident) -> Result<Vec<usize>, AllocError> {
    let mut tags = tags_of(alloc, incident)?;
    tags.sort()?;
    Ok(tags)
}

/// Appends a short incident.
fn push_short(short: &mut Vec<Short>, tags: Vec<usize>, index: usize) -> Result<(), AllocError>
    ensures { OnOk result (map (λ s. s.index) short.new.items
        ≡ map (λ s. s.index) short.old.items ++ index ∷ []) }
{
    match short.push(Short { tags, index }) {
        Ok(()) => Ok(()),
        Err(_) => Err(AllocError),
    }
}

/// Returns how many of the heaviest of some incidents are no longer alike the others.
fn outliers(incidents: &[Incident], alike: &[&Short]) -> usize {
    let weight = |at: usize| {
        alike
            .get(at)
            .and_then(|short| incidents.get(short.index))
            .map_or(0, |incident| incident.weight)
    };
    for from in 0..alike.len() {
        let rest = alike.len().saturating_sub(from);
        let middle = from.saturating_add(rest / 2);
        let is_outlier = weight(from) > weight(middle).saturating_mul(OUTLIER);
        if rest < FEWEST_ALIKE || !is_outlier {
            return from;
        }
    }
    alike.len()
}

/// Returns all incidents by their letters: those that are alike have one.
fn lines_of(alloc: Global, incidents: &[Incident]) -> Result<Vec<NamedIncidents>, AllocError>
    ensures each_once { IfOk result (λ lines. HaveEachOnce (length incidents.now) lines.items) }
    ensures each { IfOk result (λ lines. All (IsLineOf incidents.now) lines.items) }
{
    let mut single = Vec::new(alloc);
    let short = short_ones(alloc, incidents, &mut single)?;
    let mut lines = Vec::new(alloc);
    let mut alike = Vec::new(alloc);
    for short in &short {
        if !has_tags_of(&alike, short) {
            push_alike(alloc, incidents, &alike, &mut lines, &mut single)?;
            alike = Vec::new(alloc);
        }
        push_reference(&mut alike, short)?;
    }
    push_alike(alloc, incidents, &alike, &mut lines, &mut single)?;
    push_singles(alloc, incidents, &mut lines, &single)?;
    Ok(lines)
}

/// Whether a short incident has the same tags as others, if there are any.
fn has_tags_of(alike: &[&Short], short: &Short) -> bool {
    match alike.first() {
        Some(first) => first.tags == short.tags,
        None => true,
    }
}

/// Appends a short incident.
fn push_reference<'a>(alike: &mut Vec<&'a Short>, short: &'a Short) -> Result<(), AllocError>
    ensures { OnOk result (map (λ s. s.now.index) alike.new.items
        ≡ map (λ s. s.now.index) alike.old.items ++ short.entry.now.index ∷ []) }
{
    match alike.push(short) {
        Ok(()) => Ok(()),
        Err(_) => Err(AllocError),
    }
}

/// Appends a line of incidents that are alike, if there are enough of them, and the indices of the
/// others.
fn push_alike(
    alloc: Global,
    incidents: &[Incident],
    alike: &[&Short],
    lines: &mut Vec<NamedIncidents>,
    single: &mut Vec<usize>,
) -> Result<(), AllocError>
    ensures times { OnOk result ((index : ℕ) → times_in index lines.new.items + times index single.new.items
        ≡ times_in index lines.old.items + times index single.old.items
        + times index (map (λ s. s.now.index) alike.now)) }
    ensures lines { OnOk result (All (IsLineOf incidents.now) lines.old.items
        → All (IsLineOf incidents.now) lines.new.items) }
{
    let outliers = outliers(incidents, alike);
    let is_group = alike.len().saturating_sub(outliers) >= FEWEST_ALIKE;
    let mut all = Vec::new(alloc);
    for (position, short) in alike.iter().enumerate() {
        if is_group && position >= outliers {
            push(&mut all, short.index)?;
        } else {
            push(single, short.index)?;
        }
    }
    push_line(incidents, lines, all)?;
    Ok(())
}

/// Appends a line of incidents, if there are any.
fn push_line(
    incidents: &[Incident],
    lines: &mut Vec<NamedIncidents>,
    mut all: Vec<usize>,
) -> Result<(), AllocError>
    ensures times { OnOk result ((index : ℕ) → times_in index lines.new.items
        ≡ times_in index lines.old.items + times index all.items) }
    ensures lines { OnOk result (All (IsLineOf incidents.now) lines.old.items
        → All (IsLineOf incidents.now) lines.new.items) }
{
    if all.is_empty() {
        return Ok(());
    }
    all.sort_by_key(|index: &usize| start_of(incidents, *index))?;
    let heaviest = least(&all);
    let (start, tag) = start_of(incidents, heaviest);
    let comes_first = comes_first(incidents, heaviest);
    let line = NamedIncidents {
        heaviest,
        all,
        comes_first,
        start,
        tag,
    };
    push_named(lines, line)?;
    Ok(())
}

/// Appends a line for each of some incidents.
fn push_singles(
    alloc: Global,
    incidents: &[Incident],
    lines: &mut Vec<NamedIncidents>,
    single: &[usize],
) -> Result<(), AllocError>
    ensures times { OnOk result ((index : ℕ) → times_in index lines.new.items
        ≡ times_in index lines.old.items + times index single.now) }
    ensures lines { OnOk result (All (IsLineOf incidents.now) lines.old.items
        → All (IsLineOf incidents.now) lines.new.items) }
{
    for index in single {
        let mut all = Vec::new(alloc);
        push(&mut all, *index)?;
        push_line(incidents, lines, all)?;
    }
    Ok(())
}

/// Appends a line.
fn push_named(lines: &mut Vec<NamedIncidents>, line: NamedIncidents) -> Result<(), AllocError>
    ensures { OnOk result (lines.new.items ≡ lines.old.items ++ line ∷ []) }
{
    match lines.push(line) {
        Ok(()) => Ok(()),
        Err(_) => Err(AllocError),
    }
}

/// Returns the least of some indices.
fn least(indices: &[usize]) -> usize
    ensures { result ≡ least indices.now }
{
    let mut least = usize::MAX;
    for index in indices {
        least = least.min(*index);
    }
    least
}

/// Returns when an incident begins, and its first tag.
fn start_of(incidents: &[Incident], index: usize) -> (u64, usize)
    ensures start { result.0 ≡ start_of (slice_get incidents.now index) }
    ensures tag { result.1 ≡ tag_of (slice_get incidents.now index) }
{
    match incidents.get(index) {
        Some(incident) => (incident.heaviest.start, incident.heaviest.tag),
        None => (0, 0),
    }
}

/// Whether an incident is a stall or a gap.
fn comes_first(incidents: &[Incident], index: usize) -> bool
    ensures { result ≡ is_first (slice_get incidents.now index) }
{
    match incidents.get(index) {
        Some(incident) => incident.has_stall() || is_gap(incident.heaviest.kind),
        None => false,
    }
}

/// Whether samples did not come.
fn is_gap(kind: EpisodeKind) -> bool
    ensures { result ≡ is_gap kind }
{
    matches!(kind, EpisodeKind::Gap)
}

/// Returns the lines that have letters.
fn first_of(lines: &[NamedIncidents]) -> &[NamedIncidents]
    ensures { result.now ≡ take 8 lines.now }
{
    lines.get(..NAMED).unwrap_or(lines)
}

/// Returns the lines that have none.
fn rest_of(lines: &[NamedIncidents]) -> &[NamedIncidents]
    ensures { result.now ≡ drop 8 lines.now }
{
    lines.get(NAMED..).unwrap_or(&[])
}

/// Returns how many incidents are in lines.
fn count_in(lines: &[NamedIncidents]) -> usize
    ensures { result ≡ count_in lines.now }
{
    let mut count = 0usize;
    for line in lines {
        count = count.saturating_add(line.all.len());
    }
    count
}

/// Returns the index of the lightest of the heaviest incidents of lines.
fn lightest(lines: &[NamedIncidents]) -> usize
    ensures { result ≡ lightest lines.now }
{
    let mut index = 0usize;
    for line in lines {
        index = index.max(line.heaviest);
    }
    index
}

/// Whether the incidents of lines are lighter than the one of an index.
fn are_lighter(lines: &[NamedIncidents], index: usize) -> bool
    ensures { IsTrue result ↔ All (λ line. index < line.heaviest) lines.now }
{
    for line in lines {
        if line.heaviest <= index {
            return false;
        }
    }
    true
}

impl Naming {
    /// Returns which of the incidents are named: stalls and gaps, and then the heaviest others.
    pub fn new(alloc: Global, incidents: &[Incident]) -> Result<Naming, AllocError>
        ensures { IfOk result (λ n. IsNaming incidents.now n) }
    {
        let mut named = lines_of(alloc, incidents)?;
        named.sort_by_key(|line: &NamedIncidents| (!line.comes_first, line.heaviest))?;
        let others = count_in(rest_of(&named));
        let are_lighter = are_lighter(rest_of(&named), lightest(first_of(&named)));
        named.truncate(NAMED);
        named.sort_by_key(|line: &NamedIncidents| (line.start, line.tag))?;
        Ok(Naming {
            named,
            others,
            are_lighter,
        })
    }

    /// Returns the letter of an incident, if it is named.
    pub fn letter(&self, index: usize) -> Option<&'static str> {
        let mut letters = self.named.iter().zip(LETTERS);
        letters
            .find(|(line, _)| line.all.contains(&index))
            .map(|(_, letter)| letter)
    }
}
