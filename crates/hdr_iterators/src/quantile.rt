//! The iterator over quantiles whose steps halve with the distance to 1.

ghost use Rattle.std.specs.Prelude.{◌≡◌, ◌+◌, ◌*◌, ◌^◌, ◌<◌, ◌≤◌, IsTrue};
ghost use Rattle.hdr_iterators.specs.Picks.{items_of};
ghost use Rattle.hdr_iterators.specs.Places.{quantile_picks, tick_of, is_within};
ghost use Rattle.hdr_iterators.specs.Ticks.{IsReachedAt};

use crate::bins::{Binned, Bins};
use crate::picking::{HistogramIterator, PickMetadata, PickyIterator};
use hdr_base::{Counter, Fraction};
use std::marker::Model;

/// A tick, seen as its index and the number of ticks in each half of the distance to 1.
#[derive(Debug, Drop)]
struct Tick {
    per_half: u32,
    half: u32,
    step: u32,
}

impl Model for Tick {
    ghost use Rattle.std.specs.Prelude.{◌+◌, ◌*◌, ◌<◌, ◌≤◌};
    ghost use Rattle.hdr_iterators.specs.Ticks.{Ticked};

    ghost Value = { Ticked };

    ghost view = { λ k. record { per_half = k.per_half; number = k.half * k.per_half + k.step } };

    ghost invariant = { λ k. (k.step < k.per_half) × (k.half ≤ 64) };
}

impl Tick {
    fn first(per_half: u32) -> Tick
        requires { 1 ≤ per_half }
        ensures { result ≡ record { per_half = per_half; number = 0 } }
    {
        Tick {
            per_half,
            half: 0,
            step: 0,
        }
    }

    /// The denominator of the tick.
    fn whole(&self) -> u128
        ensures value { result ≡ (tick_of self.now.per_half self.now.number).den }
        ensures nonzero { 1 ≤ result }
    {
        u128::from(self.per_half) << (self.half + 1)
    }

    /// The numerator of the distance from the tick to 1.
    fn left_after(&self) -> u128
        ensures value { (tick_of self.now.per_half self.now.number).num + result
            ≡ (tick_of self.now.per_half self.now.number).den }
        ensures fits { result < 2 ^ 33 }
    {
        2 * u128::from(self.per_half) - u128::from(self.step)
    }

    fn fraction(&self) -> Fraction
        ensures { result ≡ tick_of self.now.per_half self.now.number }
    {
        let whole = self.whole();
        Fraction::new(whole - self.left_after(), whole)
    }

    /// The least count whose fraction of `total` is at least the tick. It is computed from the distances to 1 and to `total`,
    /// so that each product fits 128 bits.
    fn reached_at(&self, total: u64) -> u64
        ensures { IsReachedAt self.now.per_half self.now.number total result }
    {
        let left = self.left_after() * u128::from(total) / self.whole();
        total - left as u64
    }

    fn advance(&mut self)
        requires { self.old.number < 64 * self.old.per_half }
        ensures { self.new ≡ record { per_half = self.old.per_half; number = self.old.number + 1 } }
    {
        self.step += 1;
        if self.step == self.per_half {
            self.step = 0;
            self.half += 1;
        }
    }
}

/// The next tick of a total, with the least count whose fraction of the total is at least the tick.
#[derive(Debug, Drop)]
struct NextTick {
    tick: Tick,
    total: u64,
    reached_at: u64,
}

impl Model for NextTick {
    ghost use Rattle.std.specs.Prelude.{◌^◌, ◌<◌, ◌≤◌};
    ghost use Rattle.hdr_iterators.specs.Ticks.{TickOf, IsReachedAt};

    ghost Value = { TickOf };

    ghost view = { λ n. record { per_half = n.tick.per_half; number = n.tick.number; total = n.total } };

    ghost invariant = { λ n. (1 ≤ n.tick.per_half) × (n.total < 2 ^ 64) × IsReachedAt n.tick.per_half n.tick.number n.total n.reached_at };
}

impl NextTick {
    fn first(per_half: u32, total: u64) -> NextTick
        requires { 1 ≤ per_half }
        ensures { result ≡ record { per_half = per_half; number = 0; total = total } }
    {
        let tick = Tick::first(per_half);
        let reached_at = tick.reached_at(total);
        NextTick {
            tick,
            total,
            reached_at,
        }
    }

    fn total(&self) -> u64
        ensures { result ≡ self.now.total }
    {
        self.total
    }

    fn fraction(&self) -> Fraction
        ensures { result ≡ tick_of self.now.per_half self.now.number }
    {
        self.tick.fraction()
    }

    /// Whether the tick is at most `count / total`.
    fn is_within(&self, count: u64) -> bool
        requires { count < self.now.total }
        ensures value { result ≡ is_within self.now.per_half count self.now.total self.now.number }
        ensures below { IsTrue result → self.now.number < 64 * self.now.per_half }
    {
        count >= self.reached_at
    }

    fn advance(&mut self)
        requires { self.old.number < 64 * self.old.per_half }
        ensures { self.new ≡ record {
          per_half = self.old.per_half;
          number = self.old.number + 1;
          total = self.old.total;
        } }
    {
        self.tick.advance();
        self.reached_at = self.tick.reached_at(self.total);
    }
}

/// The picker of ticks whose steps halve with the distance to 1.
#[derive(Debug, Drop)]
pub struct Iter<'a, T: Counter> {
    bins: Bins<'a, T>,
    next: NextTick,
    /// The total was reached, and 1 is still to come.
    closing: bool,
    done: bool,
}

impl<'a, T: Counter> Iter<'a, T> {
    /// Returns an iterator that yields each nonempty bin once for each tick that it reaches. Each half of the distance to 1 has
    /// `ticks_per_half_distance` ticks, at least 1. At the bin that reaches the total, the next tick follows, and then 1.
    pub fn new<H: Binned<T>>(
        histogram: &'a H,
        ticks_per_half_distance: u32,
    ) -> HistogramIterator<'a, T, Iter<'a, T>>
        requires { 1 ≤ ticks_per_half_distance }
        ensures { result ≡ items_of (H.seen histogram.now)
            (quantile_picks (H.seen histogram.now) ticks_per_half_distance) }
    {
        let bins = histogram.binned();
        let picker = Iter {
            bins: histogram.binned(),
            next: NextTick::first(ticks_per_half_distance, bins.total()),
            closing: false,
            done: false,
        };
        HistogramIterator::new(bins, picker, true)
    }
}

impl<'a, T: Counter> PickyIterator<T> for Iter<'a, T> {
    ghost use Rattle.std.specs.Prelude.{◌≡◌, [], drop, if◌then◌else◌};
    ghost use Rattle.hdr_iterators.specs.Places.{quantile_picks};
    ghost use Rattle.hdr_iterators.specs.Ticks.{TickStep, ticks_yielded};

    ghost picks = { λ p h. if p.done then [] else drop (ticks_yielded p.next.number p.closing) (quantile_picks h p.next.per_half) };

    ghost goes_with = { λ p h last. (p.bins ≡ h) × TickStep h p.next.per_half p.next.number p.closing p.done last × (p.next.total ≡ h.total) };

    fn pick(
        &mut self,
        index: usize,
        total_count_to_index: u64,
        count_at_index: T,
    ) -> Option<PickMetadata> {
        if self.done || count_at_index.as_u64() == 0 {
            return None;
        }
        if self.closing {
            self.done = true;
            return Some(PickMetadata::new(Some(Fraction { num: 1, den: 1 }), None));
        }
        let tick = self.next.fraction();
        if total_count_to_index >= self.next.total() {
            self.closing = true;
        } else if self.next.is_within(total_count_to_index) {
            self.next.advance();
        } else {
            return None;
        }
        Some(PickMetadata::new(Some(tick), None))
    }

    fn more(&mut self, _: usize) -> bool {
        !self.done
    }
}
