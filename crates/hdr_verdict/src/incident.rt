//! Incidents: episodes of several tags at one time.

ghost use Rattle.std.specs.Prelude.{◌≡◌, ◌++◌, ◌∷◌, [], map, IfOk, OnOk};
ghost use Rattle.std.specs.List.{fold, position_or_len};
ghost use Rattle.hdr_verdict.specs.Episodes.{view_of_episode};
ghost use Rattle.hdr_verdict.specs.Incidents.{view_of_incident, is_slow, is_stall, has_stall, has_lasting, has_tag};
ghost use Rattle.hdr_verdict.specs.Incidents.{is_alike, accepts, new_incident, joined_by, with_episode, AreIncidents};

use crate::episode::{Episode, EpisodeKind, overlap, push_episode};
use crate::order::{sort_episodes, sort_incidents};
use std::alloc::{AllocError, Global};

/// Episodes of several tags at one time.
#[derive(Drop)]
pub struct Incident {
    /// The heaviest episode.
    pub heaviest: Episode,
    /// Those of other tags, by falling weight.
    pub joined: Vec<Episode>,
    /// The sum of the weights.
    pub weight: u128,
}

/// Whether samples are slow, and not missing.
fn is_slow(kind: EpisodeKind) -> bool
    ensures { result ≡ is_slow kind }
{
    matches!(kind, EpisodeKind::Slow | EpisodeKind::Stall)
}

/// Whether samples did not come, and then were slow.
fn is_stall(kind: EpisodeKind) -> bool
    ensures { result ≡ is_stall kind }
{
    matches!(kind, EpisodeKind::Stall)
}

impl Incident {
    /// Returns an incident of one episode.
    fn new(alloc: Global, heaviest: Episode) -> Incident
        ensures { view_of_incident result ≡ new_incident (view_of_episode heaviest) }
    {
        Incident {
            weight: heaviest.weight,
            heaviest,
            joined: Vec::new(alloc),
        }
    }

    /// Adds an episode.
    fn push(&mut self, episode: Episode) -> Result<(), AllocError>
        ensures { OnOk result (view_of_incident self.new
            ≡ joined_by (view_of_incident self.old) (view_of_episode episode)) }
    {
        self.weight = self.weight.saturating_add(episode.weight);
        push_episode(&mut self.joined, episode)
    }

    /// Whether an episode is of an incident: it is of the same sort as the heaviest
    /// one, both overlap for half of their union or more, and no other is of its tag.
    fn accepts(&self, episode: &Episode) -> bool
        ensures { result ≡ accepts (view_of_incident self.now) (view_of_episode episode.now) }
    {
        let first = &self.heaviest;
        is_slow(first.kind) == is_slow(episode.kind)
            && is_alike(first, episode)
            && !self.has_tag(episode.tag)
    }

    /// Whether an episode of it is a stall.
    pub fn has_stall(&self) -> bool
        ensures { result ≡ has_stall (view_of_incident self.now) }
    {
        is_stall(self.heaviest.kind) || self.joined.iter().any(|episode| is_stall(episode.kind))
    }

    /// Whether an episode of it is not over at the end of the log.
    pub fn has_lasting(&self) -> bool
        ensures { result ≡ has_lasting (view_of_incident self.now) }
    {
        self.heaviest.lasts || self.joined.iter().any(|episode| episode.lasts)
    }

    /// Whether it has an episode of a tag.
    fn has_tag(&self, tag: usize) -> bool
        ensures { result ≡ has_tag (view_of_incident self.now) tag }
    {
        self.heaviest.tag == tag || self.joined.iter().any(|episode| episode.tag == tag)
    }
}

/// Whether two episodes overlap for half of their union or more.
fn is_alike(one: &Episode, other: &Episode) -> bool
    ensures { result ≡ is_alike (view_of_episode one.now) (view_of_episode other.now) }
{
    let both = overlap(one.start, one.end, other.start, other.end);
    let union = one
        .end
        .max(other.end)
        .saturating_sub(one.start.min(other.start));
    u128::from(union) <= 2 * u128::from(both)
}

/// Returns the index of the first incident that accepts an episode, or the number of incidents.
fn position(incidents: &[Incident], episode: &Episode) -> usize
    ensures { result ≡ position_or_len
        (λ i. accepts (view_of_incident i) (view_of_episode episode.now)) incidents.now }
{
    for (index, incident) in incidents.iter().enumerate() {
        if incident.accepts(episode) {
            return index;
        }
    }
    incidents.len()
}

/// Adds an episode to the first incident that accepts it, or else to a new one.
fn add(alloc: Global, incidents: &mut Vec<Incident>, episode: Episode) -> Result<(), AllocError>
    ensures { OnOk result (map view_of_incident incidents.new.items
        ≡ with_episode (map view_of_incident incidents.old.items) (view_of_episode episode)) }
{
    let index = position(incidents, &episode);
    if index < incidents.len() {
        return incidents[index].push(episode);
    }
    push_incident(incidents, Incident::new(alloc, episode))
}

/// Appends an incident.
fn push_incident(incidents: &mut Vec<Incident>, incident: Incident) -> Result<(), AllocError>
    ensures { OnOk result (incidents.new.items ≡ incidents.old.items ++ incident ∷ []) }
{
    match incidents.push(incident) {
        Ok(()) => Ok(()),
        Err(_) => Err(AllocError),
    }
}

/// Returns the incidents of episodes of tags. By falling weight, each episode joins the first
/// incident that accepts it, or else begins one.
pub fn incidents_of(alloc: Global, mut episodes: Vec<Episode>) -> Result<Vec<Incident>, AllocError>
    ensures { IfOk result (λ incidents. AreIncidents (map view_of_episode episodes.items)
        (map view_of_incident incidents.items)) }
{
    sort_episodes(&mut episodes)?;
    let mut incidents = join(alloc, episodes)?;
    sort_incidents(&mut incidents)?;
    Ok(incidents)
}

/// Returns the incidents of episodes, each of which joins the first that accepts it, in this order.
fn join(alloc: Global, episodes: Vec<Episode>) -> Result<Vec<Incident>, AllocError>
    ensures { IfOk result (λ incidents. map view_of_incident incidents.items
        ≡ fold with_episode [] (map view_of_episode episodes.items)) }
{
    let mut incidents = Vec::new(alloc);
    for episode in episodes {
        add(alloc, &mut incidents, episode)?;
    }
    Ok(incidents)
}
