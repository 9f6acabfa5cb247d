//! Whether samples keep a level.

ghost use Rattle.std.specs.Prelude.{◌≡◌, ◌≢◌, ◌≤◌, ◌<◌, ◌+◌, ◌-◌, ◌^◌, min, ◌↔◌, IsTrue, List, length, ℕ, MatchBool};
ghost use Rattle.hdr_input.specs.declared.number.Number.{Number};
ghost use Rattle.hdr_input.specs.Bounds.{HasBound, HasCounted, count_within};
ghost use Rattle.hdr_model.specs.Quantiles.{rank};
ghost use Rattle.hdr_summary.specs.Levels.{IsOnSide, bound_of};
ghost use Rattle.hdr_summary.specs.Verdicts.{rank_of, needed_of, AreLikely, IsFew, IsOn, IsOff};
ghost use Rattle.hdr_summary.specs.Verdicts.{IsVerdict, IsVerdictOf, MatchVerdict};

use crate::levels::{Level, Measure, Side, is_on_side};
use hdr_input::BoundTally;
use hdrhistogram::Quantile;

/// How many samples there are, and how many of them are within the bound of a level. Of samples that
/// are only known by their classes, some are surely within it, and others perhaps.
#[derive(Clone, Copy)]
pub struct LevelCounts {
    pub total: u64,
    pub sure: u64,
    /// Those that are surely within it, and those that are perhaps.
    pub perhaps: u64,
    /// No sample that is surely within the bound is above this value.
    pub greatest: u64,
    /// The least and the greatest value of the classes that are partly within the bound.
    pub low: u64,
    pub high: u64,
}

/// Whether samples keep a level.
#[derive(Clone, Copy, PartialEq, Eq)]
pub enum Verdict {
    Kept,
    Broken,
    /// The class of the sample has values on both sides of the level.
    Undecided,
    /// All samples are where so few of them are likely to be.
    Few,
}

/// Returns the rank of a quantile among samples.
#[tactic(auto, unfolding(hdr_model::specs::Quantiles::rank))]
fn rank(quantile: Quantile, total: u64) -> u64
    ensures { result ≡ rank quantile total }
{
    let num = quantile.num().min(quantile.den());
    let product = u128::from(num) * u128::from(total);
    let rank = product.div_ceil(u128::from(quantile.den()));
    rank.max(1) as u64
}

impl Measure {
    /// Returns the rank of the sample that is measured. A mean is one value, and a count none.
    pub fn rank(&self, total: u64) -> u64
        ensures { result ≡ rank_of self.now total }
    {
        match self {
            Measure::Count | Measure::Min | Measure::Mean => 1,
            Measure::Max => total,
            Measure::Quantile(quantile) => rank(*quantile, total),
        }
    }

    /// Returns how many samples are needed, so that one is expected beyond the quantile.
    pub fn needed(&self) -> u64
        ensures { result ≡ needed_of self.now }
    {
        let Measure::Quantile(quantile) = self else {
            return 0;
        };
        let (num, den) = (quantile.num(), quantile.den());
        let beyond = num.min(den.saturating_sub(num));
        if beyond == 0 {
            return 0;
        }
        den.div_ceil(beyond)
    }
}

impl LevelCounts {
    /// Returns the counts with their values in units of which `factor` are one of theirs.
    pub(crate) fn in_units(self, factor: u64) -> LevelCounts
        ensures total { result.total ≡ self.total }
        ensures sure { result.sure ≡ self.sure }
        ensures perhaps { result.perhaps ≡ self.perhaps }
    {
        LevelCounts {
            greatest: self.greatest.saturating_mul(factor),
            low: self.low.saturating_mul(factor),
            high: self.high.saturating_mul(factor),
            ..self
        }
    }

    /// Returns the counts of these samples and others, at one bound.
    pub(crate) fn joined(&self, others: &LevelCounts) -> LevelCounts
        ensures total { result.total ≡ min (self.now.total + others.now.total) (2 ^ 64 - 1) }
        ensures sure { result.sure ≡ min (self.now.sure + others.now.sure) (2 ^ 64 - 1) }
        ensures perhaps { result.perhaps
            ≡ min (self.now.perhaps + others.now.perhaps) (2 ^ 64 - 1) }
    {
        LevelCounts {
            total: self.total.saturating_add(others.total),
            sure: self.sure.saturating_add(others.sure),
            perhaps: self.perhaps.saturating_add(others.perhaps),
            greatest: self.greatest,
            low: self.low.min(others.low),
            high: self.high.max(others.high),
        }
    }

    /// Returns the counts of numbers that a tally counted.
    pub fn of_tally(tally: &BoundTally, level: &Level<'_>) -> LevelCounts
        ensures { (S : List Number) → let bound = bound_of level.now.side level.now.number in
            HasBound tally.now bound → HasCounted tally.now S → length S < 2 ^ 64
            → (result.total ≡ length S) × (result.sure ≡ count_within bound S)
            × (result.perhaps ≡ count_within bound S) }
    {
        let within = tally.within(level.bound());
        LevelCounts {
            total: tally.total(),
            sure: within.count,
            perhaps: within.count,
            greatest: within.greatest,
            low: 0,
            high: 0,
        }
    }

    /// Whether all samples are on the side of a quantile's level where so few of them are likely to
    /// be.
    fn are_likely(&self, quantile: Quantile, side: Side) -> bool
        ensures { IsTrue result
            ↔ AreLikely quantile side self.now.total self.now.sure self.now.perhaps }
    {
        let (num, den) = (u128::from(quantile.num()), u128::from(quantile.den()));
        if side.is_upper() {
            den <= 2 * num && self.sure == self.total
        } else {
            2 * num <= den && self.perhaps == 0
        }
    }

    /// Whether so few samples are on one side of a level that they say nothing of it.
    fn is_few(&self, measure: &Measure, side: Side) -> bool
        ensures { IsTrue result
            ↔ IsFew measure.now side self.now.total self.now.sure self.now.perhaps }
    {
        match measure {
            Measure::Quantile(quantile) => {
                self.total < measure.needed() && self.are_likely(*quantile, side)
            }
            _ => false,
        }
    }

    /// Returns whether the samples are on a side of the bound, if there are any.
    fn verdict(&self, measure: &Measure, side: Side) -> Verdict
        ensures { IsVerdict measure.now side self.now.total self.now.sure self.now.perhaps result }
    {
        let rank = measure.rank(self.total);
        if self.is_few(measure, side) {
            Verdict::Few
        } else {
            self.verdict_of_rank(rank, side)
        }
    }

    /// Returns whether the sample of a rank is on a side of the bound.
    fn verdict_of_rank(&self, rank: u64, side: Side) -> Verdict
        ensures kept { result ≡ Verdict.Kept → IsOn side rank self.now.sure self.now.perhaps }
        ensures broken { result ≡ Verdict.Broken → IsOff side rank self.now.sure self.now.perhaps }
        ensures undecided { result ≡ Verdict.Undecided
            → (self.now.sure < rank) × (rank ≤ self.now.perhaps) }
        ensures few { result ≢ Verdict.Few }
    {
        let is_within = rank <= self.sure;
        let is_beyond = self.perhaps < rank;
        match (side.is_upper(), is_within, is_beyond) {
            (true, true, _) | (false, _, true) => Verdict::Kept,
            (_, false, false) => Verdict::Undecided,
            _ => Verdict::Broken,
        }
    }
}

impl Level<'_> {
    /// Returns whether samples keep the level. Without samples each level but that of a count is
    /// kept.
    pub fn verdict(&self, counts: &LevelCounts) -> Verdict
        ensures count { self.now.measure ≡ Measure.Count → MatchVerdict result
            (IsOnSide self.now.side counts.now.total 0 self.now.number.digits self.now.number.decimals) }
        ensures samples { self.now.measure ≢ Measure.Count → 0 < counts.now.total
            → IsVerdict self.now.measure self.now.side counts.now.total counts.now.sure
            counts.now.perhaps result }
        ensures none { self.now.measure ≢ Measure.Count → counts.now.total ≡ 0
            → result ≡ Verdict.Kept }
    {
        match self.measure {
            Measure::Count => self.verdict_of_count(counts.total),
            _ if counts.total == 0 => Verdict::Kept,
            _ => counts.verdict(&self.measure, self.side),
        }
    }

    /// Returns whether the number of samples keeps the level.
    fn verdict_of_count(&self, total: u64) -> Verdict
        ensures { MatchVerdict result
            (IsOnSide self.now.side total 0 self.now.number.digits self.now.number.decimals) }
    {
        if is_on_side(total, 0, self.side, self.number) {
            Verdict::Kept
        } else {
            Verdict::Broken
        }
    }

    /// Returns whether numbers keep the level, whose bound is one of the tally's.
    pub fn verdict_of_tally(&self, tally: &BoundTally) -> Verdict
        ensures { (S : List Number) → self.now.measure ≢ Measure.Count
            → self.now.measure ≢ Measure.Mean
            → HasBound tally.now (bound_of self.now.side self.now.number)
            → HasCounted tally.now S → 0 < length S → length S < 2 ^ 64
            → IsVerdictOf self.now.measure self.now.side self.now.number S result }
    {
        self.verdict(&LevelCounts::of_tally(tally, self))
    }
}
