//! Laws of incidents.

ghost use Rattle.std.specs.Prelude.{◌≡◌, ℕ, ◌≤◌, ◌<◌, ◌^◌, Bool, List, length, count_by};
ghost use Rattle.std.specs.List.{All, AllAdjacentBelow, sum_by};
ghost use Rattle.hdr_verdict.specs.Episodes.{EpisodeValue};
ghost use Rattle.hdr_verdict.specs.Incidents.{IncidentValue, AreIncidents, episodes_in};
ghost use Rattle.hdr_verdict.specs.Incidents.{JoinsAlike, HasEachTagOnce, HasHeaviestFirst};
ghost use Rattle.hdr_verdict.specs.Incidents.{HasSumOfWeights};

/// Each episode is in exactly one of the incidents: of each test, as many episodes pass as in all
/// incidents together. An incident has at most one episode of a tag. Each of them overlaps the
/// first for half of their union or more, and is not heavier. Incidents are in falling order of
/// weight, and have the weight of their episodes together.
pub fn incidents_have_each_episode_once()
    ensures each_once { (episodes : List EpisodeValue) (incidents : List IncidentValue)
        → AreIncidents episodes incidents
        → (test : EpisodeValue → Bool)
        → count_by test episodes ≡ sum_by (λ i. count_by test (episodes_in i)) incidents }
    ensures alike { (episodes : List EpisodeValue) (incidents : List IncidentValue)
        → AreIncidents episodes incidents → All JoinsAlike incidents }
    ensures tags { (episodes : List EpisodeValue) (incidents : List IncidentValue)
        → AreIncidents episodes incidents → All HasEachTagOnce incidents }
    ensures falling { (episodes : List EpisodeValue) (incidents : List IncidentValue)
        → AreIncidents episodes incidents
        → AllAdjacentBelow (λ i j. j.weight ≤ i.weight) incidents (length incidents) }
    ensures heaviest { (episodes : List EpisodeValue) (incidents : List IncidentValue)
        → AreIncidents episodes incidents → All HasHeaviestFirst incidents }
    ensures weights { (episodes : List EpisodeValue) (incidents : List IncidentValue)
        → AreIncidents episodes incidents
        → All (λ e. e.weight < 2 ^ 128) episodes → All HasSumOfWeights incidents }
{}
