//! Laws over the definitions, each the contract of a function with nothing to do.

ghost use Rattle.std.specs.Prelude.{◌≡◌, ◌↔◌, ℕ, ◌+◌, ◌-◌, ◌/◌, ◌^◌, ◌<◌, ◌≤◌, Bool, true, List, [], ◌∷◌, ◌++◌, length, map, sum, replicate, slice_index, Contains, MatchOption};
ghost use Rattle.hdr_base.specs.Classes.{most_bins, IsFiner, top_of};
ghost use Rattle.hdr_base.specs.Fractions.{Ratio};
ghost use Rattle.hdr_counts.specs.Blocks.{IsFirstToReach};
ghost use Rattle.hdr_model.specs.Plain.{Plain, IsPlain, OfEachPlain, max_of, resolution, empty_plain};
ghost use Rattle.hdr_model.specs.Recording.{after_record, clamp_to_bins, after_clear, after_reset, samples_of};
ghost use Rattle.hdr_model.specs.Samples.{StandsFor, GainsSamples, OfEachFilled};
ghost use Rattle.hdr_model.specs.Quantiles.{ranked_sample, position_of_rank, value_at_quantile, value_at_quantiles, IsAscending, IsTopNear};
ghost use Rattle.hdr_model.specs.Correction.{missing, IsMissing, each_times, after_correct};
ghost use Rattle.hdr_model.specs.Merging.{after_add_correct, corrected_samples, after_add, OfEachTwo, OfEachAlike, HaveSameNumbers, SumFits};
ghost use Rattle.hdr_model.specs.Statistics.{quantile_below, IsAtMost};
ghost use Rattle.hdr_model.specs.Runs.{StandsAt, State};
ghost use Rattle.hdr_model.specs.Joining.{OfEachSum, AnswersRanked};
ghost use Rattle.hdr_model.specs.CallErrors.{IsBounds};
ghost use Rattle.hdr_model.specs.Subtracting.{IsDifference};
ghost use Rattle.hdr_model.specs.Equality.{same_plain, IsSame};

/// The missing values are those an interval apart below a value that are at least the interval, and how many.
pub fn missing_values()
    ensures which { (v i x : ℕ) → Contains (missing v i) x ↔ IsMissing v i x }
    ensures count { (v i : ℕ) → length (missing v i) ≡ v / i - 1 }
{}

/// The class of a quantile is the first where the sum of the numbers up to it reaches the rank, if there is one.
pub fn first_class()
    ensures { (counts : List ℕ) (r : ℕ) → 0 < r
        → MatchOption (position_of_rank counts r) (sum counts < r) (IsFirstToReach counts r) }
{}

/// The value at a quantile above 0 is the top of the class of the ranked sample, and near that sample.
pub fn quantile_is_ranked()
    ensures { (greatest : ℕ) (h : Plain) (q : Ratio) (S : List ℕ) → IsPlain greatest h → 0 < q.den
        → StandsFor h S → 0 < length S → 0 < q.num
        → IsTopNear h (ranked_sample q S) (value_at_quantile h q) }
{}

/// For quantiles in ascending order, the list of their values is the value at each, in empty and in full histograms too.
pub fn ascending_quantiles()
    ensures { (h : Plain) (qs : List Ratio) → IsAscending qs
        → value_at_quantiles h qs ≡ map (value_at_quantile h) qs }
{}

/// With at least one sample, and for a quantile above 0 and at most 1: its value lies in the classes up to that of `v` if
/// and only if the quantile is at most the fraction of the samples in those classes.
pub fn quantile_and_share()
    ensures { OfEachFilled (λ h S. (q : Ratio) (v : ℕ) → 0 < q.num → q.num ≤ q.den
        → (value_at_quantile h q ≤ top_of (resolution h) v) ↔ IsAtMost q (quantile_below h v)) }
{}

/// What recording a value does to the samples that a histogram stands for.
pub fn recording_stands()
    ensures recorded { OfEachPlain (λ greatest h. (v n : ℕ) → v < 2 ^ 64
        → GainsSamples greatest h (after_record greatest h v n) (replicate n v)) }
    ensures clamped { OfEachPlain (λ greatest h. (v n : ℕ) → v < 2 ^ 64
        → let value = clamp_to_bins h v in
        GainsSamples greatest h (after_record greatest h value n) (replicate n value)) }
    ensures corrected { OfEachPlain (λ greatest h. (v n i : ℕ) → v < 2 ^ 64 → 1 ≤ greatest
        → GainsSamples greatest h (after_correct greatest h v n i)
        (samples_of (each_times n (v ∷ missing v i)))) }
{}

/// The numbers of a histogram that stands for samples sum to how many there are.
pub fn samples_are_counted()
    ensures { (greatest : ℕ) (h : Plain) (S : List ℕ) → IsPlain greatest h → StandsFor h S
        → sum h.counts ≡ length S }
{}

/// A constructor with valid bounds returns a histogram, for every counter type.
pub fn new_is_plain()
    ensures { (greatest low high sigfig : ℕ) (auto_resize : Bool) → IsBounds low high sigfig
        → high < 2 ^ 64
        → IsPlain greatest (empty_plain low high sigfig auto_resize) }
{}

/// A histogram has at most `most_bins` bins, and its greatest recorded value is below 2^64.
pub fn bins_and_max_are_bounded()
    ensures bins { OfEachPlain (λ greatest h. length h.counts ≤ most_bins) }
    ensures max { OfEachPlain (λ greatest h. max_of h < 2 ^ 64) }
{}

/// A new histogram stands for no samples, and so does one that was cleared or reset.
pub fn clearing_stands()
    ensures made { (low high sigfig : ℕ) (auto_resize : Bool)
        → StandsFor (empty_plain low high sigfig auto_resize) [] }
    ensures cleared { (h : Plain) → StandsFor (after_clear h) [] }
    ensures restarted { (h : Plain) → StandsFor (after_reset h) [] }
{}

/// Adding a histogram whose classes are no coarser joins the samples. With correction its classes may have any width.
pub fn adding_stands()
    ensures merged { OfEachTwo (λ greatest h s. (L : List ℕ) → StandsFor s L
        → IsFiner (resolution s) (resolution h) → GainsSamples greatest h (after_add greatest h s) L) }
    ensures corrected { OfEachTwo (λ greatest h s. (i : ℕ) (L : List ℕ) → StandsFor s L
        → GainsSamples greatest h (after_add_correct greatest h s i)
        (corrected_samples (resolution s) i L)) }
{}

/// A sum is a histogram again, with the classes, `low`, `sigfig` and auto-resize of the one that was
/// added to; of any source, full counters included.
pub fn adding_keeps()
    ensures merged { OfEachTwo (λ greatest h s. IsPlain greatest (after_add greatest h s)) }
    ensures merged_classes { (greatest most : ℕ) (h s : Plain) → IsPlain most s
        → resolution (after_add greatest h s) ≡ resolution h }
    ensures merged_bounds { (greatest : ℕ) (h s : Plain) → let sum = after_add greatest h s in
        (sum.low ≡ h.low) × (sum.sigfig ≡ h.sigfig) × (sum.auto_resize ≡ h.auto_resize) }
    ensures corrected { OfEachTwo (λ greatest h s. (i : ℕ)
        → IsPlain greatest (after_add_correct greatest h s i)) }
    ensures corrected_classes { (greatest : ℕ) (h s : Plain) (i : ℕ)
        → resolution (after_add_correct greatest h s i) ≡ resolution h }
    ensures corrected_bounds { (greatest : ℕ) (h s : Plain) (i : ℕ)
        → let sum = after_add_correct greatest h s i in
        (sum.low ≡ h.low) × (sum.sigfig ≡ h.sigfig) × (sum.auto_resize ≡ h.auto_resize) }
{}

/// Histograms that are added in order stand for all of their samples, if those fit, for any counter types. The value at each
/// quantile is then that of all samples.
pub fn joined_stands()
    ensures sum { OfEachSum (λ greatest h S. StandsFor h S × IsPlain greatest h) }
    ensures ranked { OfEachSum (λ greatest h S. AnswersRanked h S) }
{
    adding_keeps();
    adding_stands();
    quantile_is_ranked();
}

/// At one unit and as many digits a sum has the same numbers in either order.
pub fn adding_commutes()
    ensures { OfEachAlike (λ greatest h s.
        HaveSameNumbers (after_add greatest h s) (after_add greatest s h)) }
{}

/// At one unit and as many digits a sum of three has the same numbers whichever two are added first.
pub fn adding_associates()
    ensures { OfEachAlike (λ greatest h s. (t : Plain) → IsPlain greatest t
        → resolution s ≡ resolution t → let add = after_add greatest in
        HaveSameNumbers (add (add h s) t) (add h (add s t))) }
{}

/// Subtracting one of two histograms from their sum gives the numbers of the other, if no counter was saturated, and its
/// total, if that is the sum of its numbers.
pub fn subtracting_undoes_adding()
    ensures numbers { OfEachAlike (λ greatest h s. SumFits greatest h s → (d : Plain)
        → IsDifference (after_add greatest h s) s d → HaveSameNumbers d h) }
    ensures total { OfEachAlike (λ greatest h s. SumFits greatest h s → (d : Plain)
        → IsDifference (after_add greatest h s) s d
        → h.total ≡ sum h.counts → d.total ≡ h.total) }
    ensures other { OfEachAlike (λ greatest h s. SumFits greatest h s → (d : Plain)
        → IsDifference (after_add greatest h s) h d → HaveSameNumbers d s) }
    ensures other_total { OfEachAlike (λ greatest h s. SumFits greatest h s → (d : Plain)
        → IsDifference (after_add greatest h s) h d
        → s.total ≡ sum s.counts → d.total ≡ s.total) }
{}

/// What equality means, and that it is an equivalence.
pub fn equality()
    ensures meaning { (h k : Plain) → (same_plain h k ≡ true) ↔ IsSame h k }
    ensures reflexive { (h : Plain) → same_plain h h ≡ true }
    ensures symmetric { (h k : Plain) → same_plain h k ≡ true → same_plain k h ≡ true }
    ensures transitive { (h k j : Plain) → same_plain h k ≡ true → same_plain k j ≡ true
        → same_plain h j ≡ true }
{}
