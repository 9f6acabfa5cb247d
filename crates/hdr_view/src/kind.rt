//! What happened in an incident.

use crate::naming::is_slow;
use crate::view::View;
use hdr_verdict::{Episode, EpisodeKind, Incident, Rise};

/// What happened in an incident.
#[derive(Clone, Copy, PartialEq, Eq)]
pub(crate) enum IncidentKind {
    /// Percentiles rose.
    Slow,
    /// All of its tags lacked samples, and then had slow ones, which took less than half of this time.
    EmptyThenSlow,
    /// All of its tags lacked samples, and then had slow ones, which took half of this time or more.
    Stalled,
    /// One of its tags was stalled, and one was slow.
    PartlyStalled,
    /// None of its tags had samples.
    Empty,
    /// The heaviest of its tags had no samples, and one had fewer.
    PartlyEmpty,
    /// There were fewer samples.
    Fewer,
}

impl IncidentKind {
    /// Returns what begins the line of an incident.
    pub(crate) fn title(self) -> &'static str {
        match self {
            IncidentKind::Slow => "Slow",
            IncidentKind::EmptyThenSlow => "No samples and then slow",
            IncidentKind::Stalled => "Stalled",
            IncidentKind::PartlyStalled => "Stalled or slow",
            IncidentKind::Empty => "No samples",
            IncidentKind::PartlyEmpty => "No or fewer samples",
            IncidentKind::Fewer => "Fewer samples",
        }
    }

    /// Returns the same within a sentence.
    pub(crate) fn phrase(self) -> &'static str {
        match self {
            IncidentKind::Slow => "slow",
            IncidentKind::EmptyThenSlow => "no samples and then slow",
            IncidentKind::Stalled => "stalled",
            IncidentKind::PartlyStalled => "stalled or slow",
            IncidentKind::Empty => "no samples",
            IncidentKind::PartlyEmpty => "no or fewer samples",
            IncidentKind::Fewer => "fewer samples",
        }
    }

    /// Whether a tag was stalled.
    pub(crate) fn has_stall(self) -> bool {
        matches!(self, IncidentKind::Stalled | IncidentKind::PartlyStalled)
    }
}

impl View<'_> {
    /// Returns what happened in an incident.
    pub(crate) fn kind_of(&self, incident: &Incident) -> IncidentKind {
        let Incident {
            heaviest,
            joined,
            ..
        } = incident;
        if !is_slow(incident) {
            return missing_kind(heaviest, joined);
        }
        let is_first = self.was_stalled(heaviest);
        if is_first && joined.iter().all(|episode| self.was_stalled(episode)) {
            IncidentKind::Stalled
        } else if is_first || joined.iter().any(|episode| self.was_stalled(episode)) {
            IncidentKind::PartlyStalled
        } else if is_stall(heaviest) && joined.iter().all(is_stall) {
            IncidentKind::EmptyThenSlow
        } else {
            IncidentKind::Slow
        }
    }

    /// Whether a tag was stalled: it had no samples, and then a percentile took half of the time or
    /// more, if the unit of values is known.
    fn was_stalled(&self, episode: &Episode) -> bool {
        let length = episode.end.saturating_sub(episode.start);
        let greatest = self.units.milliseconds(greatest_value(&episode.rises));
        is_stall(episode) && greatest.map_or(true, |greatest| greatest >= u128::from(length / 2))
    }
}

/// Returns the kind of an incident in which samples are missing.
fn missing_kind(heaviest: &Episode, joined: &[Episode]) -> IncidentKind {
    if !is_empty(heaviest) {
        IncidentKind::Fewer
    } else if joined.iter().all(is_empty) {
        IncidentKind::Empty
    } else {
        IncidentKind::PartlyEmpty
    }
}

/// Whether a tag had no samples.
fn is_empty(episode: &Episode) -> bool {
    episode.kind == EpisodeKind::Gap && episode.rates.map_or(true, |rates| rates.rate.samples == 0)
}

/// Whether a tag had no samples, and then slow ones.
fn is_stall(episode: &Episode) -> bool {
    episode.kind == EpisodeKind::Stall
}

/// Returns the greatest value of percentiles that rose.
fn greatest_value(rises: &[Rise]) -> u64 {
    let mut greatest = 0;
    for rise in rises {
        greatest = rise.value.max(greatest);
    }
    greatest
}
