//! The engine of the iterators, and what a picker is.

ghost use Rattle.std.specs.Prelude.{◌≡◌, ℕ, ◌+◌, ◌^◌, ◌<◌, ◌≤◌, List, [], Option, None, IsTrue, ◌↔◌, false};
ghost use Rattle.std.specs.Iterator.{YieldsFirst, item_count};
ghost use Rattle.hdr_iterators.specs.Seen.{Seen, AreEmpty, bins_in};
ghost use Rattle.hdr_iterators.specs.Picks.{Pick, NoneBefore, AllBefore, AllFilled, IsAtEnd, PicksAt, item_at, items_of};

use crate::bins::Bins;
use hdr_base::{Counter, Fraction, IterationValue};
use std::marker::Model;

/// What a picker returns with a bin that it picks: the quantile or the level that the bin is picked for.
#[derive(Debug, Drop)]
pub struct PickMetadata {
    tick: Option<Fraction>,
    level: Option<u64>,
}

impl Model for PickMetadata {
    ghost use Rattle.hdr_iterators.specs.Picks.{Metadata};

    ghost Value = { Metadata };

    ghost view = { λ m. record { tick = m.tick; level = m.level } };
}

impl PickMetadata {
    pub(crate) fn new(tick: Option<Fraction>, level: Option<u64>) -> PickMetadata
        ensures { result ≡ record { tick = tick; level = level } }
    {
        PickMetadata { tick, level }
    }
}

/// A picker: called at each bin in turn, it makes a finite list of picks.
pub trait PickyIterator<T: Counter>: Drop {
    /// The picks still to come over bins.
    ghost picks: { Self → Seen → List Pick };

    /// The picker was made for these bins, and the bin is the one that it picked last.
    ghost goes_with: { Self → Seen → Option ℕ → Type 0 };

    /// Returns the quantile or the level that bin `index` is picked for, or `None` to go on. The engine calls it again at the same bin until it returns `None`. `total_count_to_index` is
    /// the sum of the counters up to the bin, at most `u64::MAX`, and `count_at_index` the bin's counter.
    fn pick(
        &mut self,
        index: usize,
        total_count_to_index: u64,
        count_at_index: T,
    ) -> Option<PickMetadata>
        ensures { PicksAt (goes_with self.old) (picks self.old) (goes_with self.new) (picks self.new)
            index total_count_to_index (T.number count_at_index) result };

    /// Whether more picks may follow after a pick at the last recorded bin or a later one.
    fn more(&mut self, index_to_pick: usize) -> bool
        ensures goes_on { (h : Seen) (last : Option ℕ) → goes_with self.old h last
            → goes_with self.new h last × (picks self.new h ≡ picks self.old h) }
        ensures end { (h : Seen) (last : Option ℕ) → goes_with self.old h last → IsAtEnd h last
            → result ≡ false → picks self.old h ≡ [] };
}

/// An iterator over the bins of a histogram that stops where its picker picks, seen as the list of items still to come.
#[derive(Drop)]
pub struct HistogramIterator<'a, T: Counter, P: PickyIterator<T>> {
    bins: Bins<'a, T>,
    /// The sum of the counters up to the current bin, at most `u64::MAX`.
    total_count_to_index: u64,
    /// The sum of the counters after the last bin picked, at most `u64::MAX`.
    count_since_last_iteration: u64,
    count_at_index: T,
    current_index: usize,
    last_picked_index: Option<usize>,
    ended: bool,
    /// The picker picks nonempty bins alone, so that empty ones are skipped.
    skips_empty: bool,
    picker: P,
}

impl<'a, T: Counter, P: PickyIterator<T>> Model for HistogramIterator<'a, T, P> {
    ghost use Rattle.std.specs.Prelude.{List, ◌≡◌, IsTrue, []};
    ghost use Rattle.hdr_base.specs.Items.{Item};
    ghost use Rattle.hdr_iterators.specs.Picks.{items_from, bin_after, InStep, AllFilled};

    ghost Value = { List Item };

    ghost view = { λ it. items_from it.bins (bin_after it.last_picked_index) (P.picks it.picker it.bins) };

    ghost invariant = { λ it. P.goes_with it.picker it.bins it.last_picked_index
        × InStep it.bins (P.picks it.picker it.bins) it.current_index it.total_count_to_index it.count_since_last_iteration (T.number it.count_at_index) it.last_picked_index
        × (IsTrue it.ended → P.picks it.picker it.bins ≡ [])
        × (IsTrue it.skips_empty → AllFilled it.bins (P.picks it.picker it.bins)) };
}

impl<'a, T: Counter, P: PickyIterator<T>> HistogramIterator<'a, T, P> {
    /// Returns an iterator that calls the picker at each bin, or at the nonempty ones alone if it
    /// skips empty bins. The picker must then pick no other.
    pub(crate) fn new(
        bins: Bins<'a, T>,
        picker: P,
        skips_empty: bool,
    ) -> HistogramIterator<'a, T, P>
        requires made { P.goes_with picker bins None }
        requires within { AllBefore (bins_in bins) (P.picks picker bins) }
        requires filled { IsTrue skips_empty → AllFilled bins (P.picks picker bins) }
        ensures { result ≡ items_of bins.entry (P.picks picker bins.entry) }
    {
        let count_at_index = bins.first();
        let count = count_at_index.as_u64();
        HistogramIterator {
            bins,
            total_count_to_index: count,
            count_since_last_iteration: count,
            count_at_index,
            current_index: 0,
            last_picked_index: None,
            ended: false,
            skips_empty,
            picker,
        }
    }
}

impl<'a, T: Counter, P: PickyIterator<T>> Iterator for HistogramIterator<'a, T, P> {
    type Item = IterationValue<T>;

    ghost next_gives = { YieldsFirst (λ rest. rest) };

    ghost remaining = { item_count (λ rest. rest) };

    fn next(&mut self) -> Option<IterationValue<T>> {
        let len = self.bins.len();
        while !self.ended {
            let index = self.current_index;
            let last = self.bins.last();
            if has_ended(&mut self.picker, self.last_picked_index, last, index) {
                self.ended = true;
                return None;
            }
            let total = self.total_count_to_index;
            let counter = self.count_at_index;
            if let Some(picked) = self.picker.pick(index, total, counter) {
                let since = self.count_since_last_iteration;
                let value = value_at(&self.bins, index, total, counter, since, picked);
                self.count_since_last_iteration = 0;
                self.last_picked_index = Some(index);
                return Some(value);
            }
            let next = next_candidate(&self.bins, self.skips_empty, index);
            if next == len {
                self.ended = true;
                return None;
            }
            self.current_index = next;
            self.count_at_index = self.bins.count(next);
            let count = self.count_at_index.as_u64();
            self.total_count_to_index = self.total_count_to_index.saturating_add(count);
            self.count_since_last_iteration = self.count_since_last_iteration.saturating_add(count);
        }
        None
    }
}

/// Whether a pick was made at the last recorded bin or after it, and the picker has no more.
fn has_ended<T: Counter, P: PickyIterator<T>>(
    picker: &mut P,
    last_picked_index: Option<usize>,
    last: usize,
    index: usize,
) -> bool
    ensures goes_on { (h : Seen) (picked : Option ℕ) → P.goes_with picker.old h picked
        → P.goes_with picker.new h picked × (P.picks picker.new h ≡ P.picks picker.old h) }
    ensures end { (h : Seen) → P.goes_with picker.old h last_picked_index → last ≡ h.last
        → IsTrue result → P.picks picker.old h ≡ [] }
{
    last_picked_index.is_some_and(|picked| picked >= last) && !picker.more(index)
}

/// Returns the bin to call the picker at after it has declined one: the next bin, or the next nonempty one if it picks no
/// other. Returns the number of bins if none is left.
fn next_candidate<T: Counter>(bins: &Bins<'_, T>, skips_empty: bool, index: usize) -> usize
    requires inside { index < bins_in bins.now }
    requires fits { index + 1 < 2 ^ 64 }
    ensures onward { index < result }
    ensures within { result ≤ bins_in bins.now }

    // The bins between are empty, or the picker picks none of them.
    ensures empty { AreEmpty bins.now.numbers (index + 1) result }
    ensures declined { (picks : List Pick) → (IsTrue skips_empty → AllFilled bins.now picks)
        → NoneBefore (index + 1) picks → NoneBefore result picks }
{
    if skips_empty {
        bins.next_filled(index + 1)
    } else {
        index + 1
    }
}

/// Returns the item of a pick at bin `index`.
fn value_at<T: Counter>(
    bins: &Bins<'_, T>,
    index: usize,
    total: u64,
    count_at_index: T,
    since: u64,
    picked: PickMetadata,
) -> IterationValue<T>
    requires { index < bins_in bins.now }
    ensures { result ≡ item_at bins.now index picked total (T.number count_at_index) since }
{
    let quantile = Fraction::new(u128::from(total), u128::from(bins.total()));
    let value = match picked.level {
        Some(level) => level,
        None => bins.top(index),
    };
    let tick = picked.tick.unwrap_or(quantile);
    IterationValue::new(value, quantile, tick, count_at_index, since)
}

/// Whether the bin of a level is the current bin or a lower one.
pub(crate) fn is_due<T: Counter>(bins: &Bins<'_, T>, place: usize, index: usize) -> bool
    ensures { IsTrue result ↔ (index < bins_in bins.now) × (place ≤ index) }
{
    index < bins.len() && place <= index
}
