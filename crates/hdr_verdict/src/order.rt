//! The order of episodes and incidents: by falling weight.

ghost use Rattle.std.specs.Prelude.{◌≡◌, map, OnOk};
ghost use Rattle.std.specs.List.Sorted.{IsPermutation};
ghost use Rattle.hdr_verdict.specs.Episodes.{view_of_episode};
ghost use Rattle.hdr_verdict.specs.Incidents.{view_of_incident, key_of_episode, key_of_incident, key_cmp};
ghost use Rattle.hdr_verdict.specs.Incidents.{AreSortedEpisodes, AreSortedIncidents};

use crate::episode::Episode;
use crate::incident::Incident;
use std::alloc::AllocError;
use std::cmp::Ordering;

/// The order of episodes and incidents: the heavier is first, then the earlier, then the lesser
/// tag.
#[derive(Clone, Copy)]
struct Key {
    weight: u128,
    start: u64,
    tag: usize,
}

impl Key {
    /// Returns the key of an episode.
    fn of_episode(episode: &Episode) -> Key
        ensures { result ≡ key_of_episode (view_of_episode episode.now) }
    {
        Key {
            weight: episode.weight,
            start: episode.start,
            tag: episode.tag,
        }
    }

    /// Returns the key of an incident.
    fn of_incident(incident: &Incident) -> Key
        ensures { result ≡ key_of_incident (view_of_incident incident.now) }
    {
        Key {
            weight: incident.weight,
            start: incident.heaviest.start,
            tag: incident.heaviest.tag,
        }
    }

    /// Compares two keys.
    fn compare(self, other: Key) -> Ordering
        ensures { result ≡ key_cmp self other }
    {
        let starts = self.start.cmp(&other.start);
        let rest = starts.then(self.tag.cmp(&other.tag));
        other.weight.cmp(&self.weight).then(rest)
    }
}

/// Sorts episodes by falling weight, and those of one weight by start and tag.
pub(crate) fn sort_episodes(episodes: &mut Vec<Episode>) -> Result<(), AllocError>
    ensures permutation { IsPermutation (map view_of_episode episodes.old.items)
        (map view_of_episode episodes.new.items) }
    ensures sorted { OnOk result (AreSortedEpisodes (map view_of_episode episodes.new.items)) }
{
    episodes.sort_by(|one, other| Key::of_episode(one).compare(Key::of_episode(other)))?;
    Ok(())
}

/// Sorts incidents by falling weight, and those of one weight by start and tag.
pub(crate) fn sort_incidents(incidents: &mut Vec<Incident>) -> Result<(), AllocError>
    ensures permutation { IsPermutation (map view_of_incident incidents.old.items)
        (map view_of_incident incidents.new.items) }
    ensures sorted { OnOk result (AreSortedIncidents (map view_of_incident incidents.new.items)) }
{
    incidents.sort_by(|one, other| Key::of_incident(one).compare(Key::of_incident(other)))?;
    Ok(())
}
