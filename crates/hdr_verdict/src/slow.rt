//! Times at which a tag was slow.

use crate::runs::Run;
use crate::score::Score;
use crate::tail::Tail;
use std::alloc::{AllocError, Global};

/// A test of a tail: what is usual, and from where on samples count as slow.
#[derive(Clone, Copy)]
pub struct Test {
    pub tail: Tail,
    /// The usual value of the tail, if there are samples enough to know it.
    pub usual: Option<u64>,
    /// Samples above it are slow.
    pub threshold: u64,
    /// Whether the threshold is a level, so that a run needs no value far above the usual one.
    pub is_level: bool,
}

/// The value of a tail at a time.
#[derive(Clone, Copy)]
pub struct Rise {
    pub tail: Tail,
    /// Its usual value, if there are samples enough to know it.
    pub usual: Option<u64>,
    pub value: u64,
}

/// A time at which a tag was slow.
#[derive(Drop)]
pub struct SlowTime {
    /// Its cells.
    pub run: Run,
    /// The values of tails: first of the one that rose first, and then of the later ones.
    pub rises: Vec<Rise>,
    /// How many more samples are above the thresholds than may be.
    pub excess: u128,
    /// The number of cells with scores above 0.
    pub cells: usize,
}

impl Test {
    ghost use Rattle.std.specs.Prelude.{◌≡◌, ℕ, List, length};
    ghost use Rattle.hdr_verdict.specs.Runs.{Fits};
    ghost use Rattle.hdr_verdict.specs.Slow.{is_enough, is_rise, rise_of, score_of};
    ghost use Rattle.hdr_verdict.specs.Tails.{count_above};

    /// Returns the score of a cell. A cell that an earlier time explains counts for nothing.
    pub(crate) fn score(&self, above: u64, samples: u64, is_explained: bool) -> Score
        ensures score { (cell : List ℕ) → above ≡ count_above self.now.threshold cell → samples ≡ length cell
            → result ≡ score_of self.now is_explained cell }
        ensures fits { Fits result }
    {
        if is_explained {
            return Score { gain: 0, loss: 0 };
        }
        Score {
            gain: u128::from(self.tail.den) * u128::from(above),
            loss: u128::from(self.tail.num) * u128::from(samples),
        }
    }

    /// Whether a value is too high for chance, if this number of cells have scores above 0.
    pub(crate) fn is_rise(&self, cells: usize, value: u64) -> bool
        ensures { result ≡ is_rise self.now cells value }
    {
        self.is_level || Test::is_enough(cells, self.usual.unwrap_or(0), value)
    }

    /// Returns the value of the tail at a time.
    pub(crate) fn rise(&self, value: u64) -> Rise
        ensures { result ≡ rise_of self.now value }
    {
        Rise {
            tail: self.tail,
            usual: self.usual,
            value,
        }
    }

    /// Whether a value is as many times its usual one as it has to be, if `cells` have scores
    /// above 0: 4 times in one cell, 3 times in less than four, twice in less than eight, and
    /// otherwise 3/2 times.
    fn is_enough(cells: usize, usual: u64, value: u64) -> bool
        ensures { result ≡ is_enough cells usual value }
    {
        let usual = u128::from(usual);
        let value = u128::from(value);
        if cells == 1 {
            value >= 4 * usual
        } else if cells < 4 {
            value >= 3 * usual
        } else if cells < 8 {
            value >= 2 * usual
        } else {
            2 * value >= 3 * usual
        }
    }
}

impl SlowTime {
    ghost use Rattle.std.specs.Prelude.{◌≡◌, ◌++◌, IfOk, filter, not};
    ghost use Rattle.hdr_verdict.specs.Slow.{has_tail, joined, view_of_slow};

    /// Whether it has the value of a tail.
    pub fn has(&self, tail: Tail) -> bool
        ensures { result ≡ has_tail self.now.rises.items tail }
    {
        self.rises.iter().any(|rise| rise.tail.is(tail))
    }

    /// Returns the time with an earlier one that it joins.
    pub(crate) fn joined(self, alloc: Global, earlier: &SlowTime) -> Result<SlowTime, AllocError>
        ensures { IfOk result (λ slow. view_of_slow slow
            ≡ joined (view_of_slow self) (view_of_slow earlier.now)) }
    {
        Ok(SlowTime {
            run: self.run.joined(earlier.run),
            rises: earlier.rises_and(alloc, &self.rises)?,
            excess: self.excess.saturating_add(earlier.excess),
            cells: self.cells.saturating_add(earlier.cells),
        })
    }

    /// Returns its values of tails, and then those of other tails.
    fn rises_and(&self, alloc: Global, more: &[Rise]) -> Result<Vec<Rise>, AllocError>
        ensures { IfOk result (λ rises. rises.items ≡ self.now.rises.items
            ++ filter (λ rise. not (has_tail self.now.rises.items rise.tail)) more.now) }
    {
        let mut rises = Vec::new(alloc);
        rises.extend_from_slice(&self.rises)?;
        for rise in more {
            if !self.has(rise.tail) {
                rises.push(*rise)?;
            }
        }
        Ok(rises)
    }
}
