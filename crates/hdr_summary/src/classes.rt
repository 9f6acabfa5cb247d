//! Samples that are only known by their classes, and levels.

ghost use Rattle.std.specs.Prelude.{◌≡◌, ◌≢◌, ◌≤◌, ◌<◌, ◌+◌, ◌*◌, ◌/◌, ◌-◌, ◌^◌, ℕ, List, [], ◌++◌, length, nat_le, count_by};
ghost use Rattle.std.specs.Option.{option_map};
ghost use Rattle.hdr_base.specs.Classes.{lowest_of, top_of};
ghost use Rattle.hdr_model.specs.Plain.{IsPlain, resolution};
ghost use Rattle.hdr_model.specs.Samples.{StandsFor};
ghost use Rattle.hdr_input.specs.declared.bound.Bound.{Bound};
ghost use Rattle.hdr_input.specs.Bounds.{IsMost};
ghost use Rattle.hdr_summary.specs.Classes.{Known, known_by, AreByClass, FitUnits, HasClasses, IsVerdictByClass};
ghost use Rattle.hdr_summary.specs.Levels.{bound_of};

use crate::levels::{Level, Measure};
use crate::verdicts::{LevelCounts, Verdict};
use hdrhistogram::Histogram;

/// How many samples of histograms are within the bound of a level.
#[derive(Clone, Copy)]
pub struct ClassCounts {
    /// The greatest value within the bound, or `None` if no value is.
    most: Option<u64>,
    counts: LevelCounts,
}

impl ClassCounts {
    /// Returns the counts of no samples. Values have these decimals.
    pub fn new(level: &Level<'_>, decimals: u32) -> ClassCounts
        ensures { decimals ≤ 18 → HasClasses result
            (bound_of level.now.side level.now.number) decimals [] }
    {
        let most = level.bound().most(decimals);
        ClassCounts {
            most,
            counts: LevelCounts {
                total: 0,
                sure: 0,
                perhaps: 0,
                greatest: most.unwrap_or(0),
                low: u64::MAX,
                high: 0,
            },
        }
    }

    /// Adds the samples of a histogram, whose unit is `factor` units, 1 or more.
    pub fn add(&mut self, histogram: &Histogram<u64>, factor: u64)
        ensures { (b : Bound) (decimals : ℕ) (L : List Known) (S : List ℕ) → 0 < factor
            → HasClasses self.old b decimals L → StandsFor histogram.now S
            → (factor ≢ 1 → FitUnits factor (resolution histogram.now) S)
            → HasClasses self.new b decimals (L ++ known_by factor (resolution histogram.now) S) }
    {
        let counts = counts_of(histogram, self.most, factor);
        self.counts = self.counts.joined(&counts);
    }

    /// The counts of the samples so far.
    pub fn counts(&self) -> LevelCounts
        ensures { (b : Bound) (decimals : ℕ) (L : List Known) → HasClasses self.now b decimals L
            → AreByClass result b decimals L }
    {
        self.counts
    }
}

impl Level<'_> {
    /// Returns whether the samples of some counts keep the level.
    pub fn verdict_by_class(&self, counts: &ClassCounts) -> Verdict
        ensures { (decimals : ℕ) (L : List Known) → self.now.measure ≢ Measure.Count
            → self.now.measure ≢ Measure.Mean
            → HasClasses counts.now (bound_of self.now.side self.now.number) decimals L
            → 0 < length L → length L < 2 ^ 64
            → IsVerdictByClass self.now.measure self.now.side self.now.number decimals L result }
    {
        self.verdict(&counts.counts)
    }
}

/// Returns the counts of the samples of a histogram, whose unit is `factor` units, at the bound of
/// which `most` is the greatest number of units.
fn counts_of(histogram: &Histogram<u64>, most: Option<u64>, factor: u64) -> LevelCounts
    ensures { (b : Bound) (decimals : ℕ) (S : List ℕ) → 0 < factor → IsMost b decimals most
        → StandsFor histogram.now S → (factor ≢ 1 → FitUnits factor (resolution histogram.now) S)
        → AreByClass result b decimals (known_by factor (resolution histogram.now) S) }
{
    match most_in(most, factor) {
        Some(most) => counts_at(histogram, most).in_units(factor),
        None => LevelCounts {
            total: histogram.len(),
            sure: 0,
            perhaps: 0,
            greatest: 0,
            low: u64::MAX,
            high: 0,
        },
    }
}

/// Returns the greatest number of units of which each is `factor` others, at most `most` of these.
fn most_in(most: Option<u64>, factor: u64) -> Option<u64>
    ensures { 0 < factor → result ≡ option_map (λ most. most / factor) most }
{
    match most {
        Some(most) => most.checked_div(factor),
        None => None,
    }
}

/// Returns the counts of the samples of a histogram, at the bound that ends after `most`.
fn counts_at(histogram: &Histogram<u64>, most: u64) -> LevelCounts
    ensures total { result.total ≡ histogram.now.total }
    ensures sure { (S : List ℕ) → StandsFor histogram.now S → result.sure
        ≡ count_by (λ s. nat_le (top_of (resolution histogram.now) s) most) S }
    ensures perhaps { (S : List ℕ) → StandsFor histogram.now S → result.perhaps
        ≡ count_by (λ s. nat_le (lowest_of (resolution histogram.now) s) most) S }
    ensures plain { IsPlain (2 ^ 64 - 1) histogram.now }
{
    let sure = count_ended(histogram, most);
    let perhaps = count_begun(histogram, most);
    let (low, high) = if sure < perhaps {
        (
            histogram.lowest_equivalent(most),
            histogram.highest_equivalent(most),
        )
    } else {
        (u64::MAX, 0)
    };
    LevelCounts {
        total: histogram.len(),
        sure,
        perhaps,
        greatest: most,
        low,
        high,
    }
}

/// Returns how many samples of a histogram are in classes that begin at `value` or below it.
pub(crate) fn count_begun(histogram: &Histogram<u64>, value: u64) -> u64
    ensures at_most { result ≤ histogram.now.total }
    ensures samples { (S : List ℕ) → StandsFor histogram.now S
        → result ≡ count_by (λ s. nat_le (lowest_of (resolution histogram.now) s) value) S }
    ensures plain { IsPlain (2 ^ 64 - 1) histogram.now }
{
    match histogram.bin_of(value) {
        Some(_) => histogram.count_between(0, value),
        None => histogram.len(),
    }
}

/// Returns how many samples of a histogram are in classes that end at `value` or below it.
fn count_ended(histogram: &Histogram<u64>, value: u64) -> u64
    ensures { (S : List ℕ) → StandsFor histogram.now S
        → result ≡ count_by (λ s. nat_le (top_of (resolution histogram.now) s) value) S }
{
    if histogram.highest_equivalent(value) == value {
        return count_begun(histogram, value);
    }
    match histogram.lowest_equivalent(value).checked_sub(1) {
        Some(before) => count_begun(histogram, before),
        None => 0,
    }
}
