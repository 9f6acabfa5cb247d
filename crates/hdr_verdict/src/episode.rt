//! Episodes: what happened to a tag, and when.

ghost use Rattle.std.specs.Prelude.{◌≡◌, ℕ, ◌+◌, ◌-◌, ◌*◌, ◌<◌, ◌≤◌, ◌^◌, ◌++◌, ◌∷◌, [], length, map, IfOk, OnOk};
ghost use Rattle.hdr_verdict.specs.Episodes.{cell_at, start_of, end_of, begins_in, overlap, is_during};
ghost use Rattle.hdr_verdict.specs.Episodes.{is_part, is_fall_during, others, change_of, lasts};
ghost use Rattle.hdr_verdict.specs.Episodes.{magnitude, greatest_magnitude, slow_weight, missing_weight};
ghost use Rattle.hdr_verdict.specs.Episodes.{stall_start, last_fall, slow_kind, missing_kind};
ghost use Rattle.hdr_verdict.specs.Episodes.{slow_episode, missing_episode, episodes_of, view_of_episode};

use crate::cell::Cell;
use crate::missing::MissingTime;
use crate::rate::Rate;
use crate::runs::Run;
use crate::slow::{Rise, SlowTime};
use std::alloc::{AllocError, Global};

/// What happened.
#[derive(Clone, Copy, PartialEq, Eq)]
pub enum EpisodeKind {
    /// Percentiles rose.
    Slow,
    /// Samples did not come, and then percentiles rose.
    Stall,
    /// Samples did not come.
    Gap,
    /// There were fewer samples than usual.
    Fall,
}

/// A rate, and the usual one.
#[derive(Clone, Copy)]
pub struct RateChange {
    pub rate: Rate,
    pub usual: Rate,
}

/// What happened to a tag, and when.
#[derive(Drop)]
pub struct Episode {
    /// The index of the tag.
    pub tag: usize,
    pub kind: EpisodeKind,
    /// When it began and ended, in milliseconds as `StoredInterval::start`.
    pub start: u64,
    pub end: u64,
    /// Its cells, of a stall those that were slow.
    pub run: Run,
    /// The quantiles that rose, of a slow time or a stall.
    pub rises: Vec<Rise>,
    /// The rate of a gap or a fall, or of the last one within a slow time.
    pub rates: Option<RateChange>,
    /// How many samples are slow or missing, and how slow.
    pub weight: u128,
    /// Whether it is not over at the end of the log.
    pub lasts: bool,
}

/// A cell of no time.
const NO_CELL: Cell = Cell {
    start: 0,
    end: 0,
    last: 0,
    samples: 0,
    first: 0,
    next: 0,
};

/// The cells of a tag.
#[derive(Clone, Copy)]
pub struct TagCells<'a> {
    /// The index of the tag.
    pub tag: usize,
    pub cells: &'a [Cell],
    /// When the log ends.
    pub log_end: u64,
}

/// Whether a slow run begins in a gap, or right after it.
fn begins_in(run: Run, missing: &MissingTime) -> bool
    ensures { result ≡ begins_in run missing.now }
{
    missing.is_gap && missing.run.start <= run.start && run.start <= missing.run.end
}

/// Returns how long two times overlap.
pub(crate) fn overlap(start: u64, end: u64, other_start: u64, other_end: u64) -> u64
    ensures { result ≡ overlap start end other_start other_end }
{
    end.min(other_end).saturating_sub(start.max(other_start))
}

/// Returns how far a value is above the usual one: 1 up to 2 times, 2 up to 4 times, 3 up to 8
/// times, and so on.
fn magnitude(rise: Rise) -> u32
    ensures { result ≡ magnitude rise }
{
    let usual = u128::from(rise.usual.unwrap_or(0)) + 1;
    let times = 16 * (u128::from(rise.value) + 1) / usual;
    (u128::BITS - times.leading_zeros()).saturating_sub(4)
}

/// Returns the greatest magnitude of rises, and at least 1.
fn greatest_magnitude(rises: &[Rise]) -> u32
    ensures { result ≡ greatest_magnitude rises.now }
{
    let mut greatest = 1u32;
    for rise in rises {
        greatest = greatest.max(magnitude(*rise));
    }
    greatest
}

/// Returns the weight of a slow time: the samples that are too many, times how far they are above.
fn slow_weight(excess: u128, rises: &[Rise]) -> u128
    ensures { result ≡ slow_weight excess rises.now }
{
    excess
        .max(1)
        .saturating_mul(u128::from(greatest_magnitude(rises)))
}

/// Returns the weight of a time in which samples are missing: their number, and at least 1.
fn missing_weight(rates: RateChange, time: u64) -> u128
    ensures { result ≡ missing_weight rates time }
{
    let usual = rates.usual.expected(1, 1, time);
    usual.saturating_sub(u128::from(rates.rate.samples)).max(1)
}

/// Returns the rates of a time in which samples are missing.
fn change_of(missing: &MissingTime) -> RateChange
    ensures { result ≡ change_of missing.now }
{
    RateChange {
        rate: missing.rate,
        usual: missing.usual,
    }
}

/// Returns the kind of a slow time, which begins with a gap or does not.
fn slow_kind(stall: Option<u64>) -> EpisodeKind
    ensures { result ≡ slow_kind stall }
{
    match stall {
        Some(_) => EpisodeKind::Stall,
        None => EpisodeKind::Slow,
    }
}

/// Returns the kind of a time in which samples are missing.
fn missing_kind(is_gap: bool) -> EpisodeKind
    ensures { result ≡ missing_kind is_gap }
{
    if is_gap {
        EpisodeKind::Gap
    } else {
        EpisodeKind::Fall
    }
}

impl TagCells<'_> {
    /// Returns a cell, or one of no time if there is none.
    fn cell_at(&self, index: usize) -> Cell
        ensures { result ≡ cell_at self.now.cells.now index }
    {
        match self.cells.get(index) {
            Some(cell) => *cell,
            None => NO_CELL,
        }
    }

    /// Returns when a run begins.
    fn start_of(&self, run: Run) -> u64
        ensures { result ≡ start_of self.now.cells.now run }
    {
        self.cell_at(run.start).start
    }

    /// Returns when the intervals of a run's last cell end.
    fn end_of(&self, run: Run) -> u64
        ensures { result ≡ end_of self.now.cells.now run }
    {
        self.cell_at(run.end.saturating_sub(1)).last
    }

    /// Whether half or more of a time in which samples are missing is in a run.
    fn is_during(&self, run: Run, missing: &MissingTime) -> bool
        ensures { result ≡ is_during self.now.cells.now run missing.now }
    {
        let start = self.start_of(missing.run);
        let end = self.end_of(missing.run);
        let both = overlap(self.start_of(run), self.end_of(run), start, end);
        end.saturating_sub(start) <= both.saturating_mul(2)
    }

    /// Whether a time in which samples are missing is a part of a slow run.
    fn is_part(&self, run: Run, missing: &MissingTime) -> bool
        ensures { result ≡ is_part self.now.cells.now run missing.now }
    {
        begins_in(run, missing) || self.is_during(run, missing)
    }

    /// Whether a time in which samples are missing is in a slow run, and doesn't begin it.
    fn is_fall_during(&self, run: Run, missing: &MissingTime) -> bool
        ensures { result ≡ is_fall_during self.now.cells.now run missing.now }
    {
        !begins_in(run, missing) && self.is_during(run, missing)
    }

    /// Whether a run that ended at a time is not over at the end of the log.
    fn lasts(&self, run: Run, end: u64) -> bool
        ensures { result ≡ lasts self.now.cells.now self.now.log_end run end }
    {
        let last = self.cell_at(run.end.saturating_sub(1));
        let length = last.end.saturating_sub(last.start);
        run.end == self.cells.len() && self.log_end.saturating_sub(length) <= end
    }

    /// Returns when the gap begins in which a slow run begins, or right after it. Returns `None` if
    /// it begins otherwise.
    fn stall_start(&self, run: Run, missing: &[MissingTime]) -> Option<u64>
        ensures { result ≡ stall_start self.now.cells.now run missing.now }
    {
        for time in missing {
            if begins_in(run, time) {
                return Some(self.cell_at(time.from).start.min(self.start_of(run)));
            }
        }
        None
    }

    /// Returns the rates of the last time within a slow run in which samples are missing.
    fn last_fall(&self, run: Run, missing: &[MissingTime]) -> Option<RateChange>
        ensures { result ≡ last_fall self.now.cells.now run missing.now }
    {
        let mut last = None;
        for time in missing {
            if self.is_fall_during(run, time) {
                last = Some(change_of(time));
            }
        }
        last
    }

    /// Retains the times that are a part of no slow run.
    fn retain_others(&self, run: Run, missing: &mut Vec<MissingTime>)
        ensures { missing.new.items ≡ others self.now.cells.now run missing.old.items }
    {
        missing.retain(|time| !self.is_part(run, time));
    }

    /// Returns the episode of a slow time, with what is missing in it.
    fn slow_episode(&self, slow: SlowTime, missing: &[MissingTime]) -> Episode
        ensures { view_of_episode result
            ≡ slow_episode self.now.tag self.now.cells.now self.now.log_end missing.now slow }
    {
        let stall = self.stall_start(slow.run, missing);
        let end = self.end_of(slow.run);
        Episode {
            tag: self.tag,
            kind: slow_kind(stall),
            start: stall.unwrap_or(self.start_of(slow.run)),
            end,
            run: slow.run,
            rates: self.last_fall(slow.run, missing),
            weight: slow_weight(slow.excess, &slow.rises),
            lasts: self.lasts(slow.run, end),
            rises: slow.rises,
        }
    }

    /// Returns the episode of a time in which samples are missing.
    fn missing_episode(&self, alloc: Global, missing: &MissingTime) -> Episode
        ensures { view_of_episode result
            ≡ missing_episode self.now.tag self.now.cells.now self.now.log_end missing.now }
    {
        let start = self.start_of(missing.run);
        let end = self.end_of(missing.run);
        let rates = change_of(missing);
        Episode {
            tag: self.tag,
            kind: missing_kind(missing.is_gap),
            start,
            end,
            run: missing.run,
            rises: Vec::new(alloc),
            rates: Some(rates),
            weight: missing_weight(rates, end.saturating_sub(start)),
            lasts: self.lasts(missing.run, end),
        }
    }
}

/// Returns the episodes of a tag: its slow times, and the times in which samples are missing that
/// are a part of none.
pub fn episodes_of(
    alloc: Global,
    tag: &TagCells<'_>,
    slow: Vec<SlowTime>,
    mut missing: Vec<MissingTime>,
) -> Result<Vec<Episode>, AllocError>
    ensures { IfOk result (λ episodes. map view_of_episode episodes.items
        ≡ episodes_of tag.now.tag tag.now.cells.now tag.now.log_end slow.items missing.items) }
{
    let mut episodes = Vec::new(alloc);
    for time in slow {
        let run = time.run;
        push_episode(&mut episodes, tag.slow_episode(time, &missing))?;
        tag.retain_others(run, &mut missing);
    }
    for time in &missing {
        push_episode(&mut episodes, tag.missing_episode(alloc, time))?;
    }
    Ok(episodes)
}

/// Appends an episode.
pub(crate) fn push_episode(episodes: &mut Vec<Episode>, episode: Episode) -> Result<(), AllocError>
    ensures { OnOk result (map view_of_episode episodes.new.items
        ≡ map view_of_episode episodes.old.items ++ view_of_episode episode ∷ []) }
{
    match episodes.push(episode) {
        Ok(()) => Ok(()),
        Err(_) => Err(AllocError),
    }
}
