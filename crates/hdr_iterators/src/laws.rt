//! Laws over the lists of picks, each the contract of an empty function.

ghost use Rattle.std.specs.Prelude.{◌↔◌, ℕ, ◌<◌, Contains, slice_index};
ghost use Rattle.hdr_iterators.specs.Seen.{Seen, bins_in};
ghost use Rattle.hdr_iterators.specs.Picks.{places, RiseFrom};
ghost use Rattle.hdr_iterators.specs.Places.{all_picks, recorded_picks};

/// Every bin, and every nonempty bin, is picked once, in ascending order.
pub fn bins_once()
    ensures all { (h : Seen) (i : ℕ) → Contains (places (all_picks h)) i ↔ (i < bins_in h) }
    ensures all_rise { (h : Seen) → RiseFrom 0 (places (all_picks h)) }
    ensures recorded { (h : Seen) (i : ℕ) → Contains (places (recorded_picks h)) i ↔ (i < bins_in h)
        × (0 < slice_index h.numbers i) }
    ensures recorded_rise { (h : Seen) → RiseFrom 0 (places (recorded_picks h)) }
{}
