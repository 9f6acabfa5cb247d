//! Runs of cells, which scores open and close.

ghost use Rattle.std.specs.Prelude.{◌≡◌, ◌≤◌, ◌<◌, ◌+◌, ◌^◌, ◌==◌, if◌then◌else◌, IfOk, OnOk};
ghost use Rattle.std.specs.List.{All};
ghost use Rattle.hdr_verdict.specs.States.{sum_of};

use crate::score::Score;
use std::alloc::{AllocError, Global};

/// A run of cells, from the index `start` to before the index `end`.
#[derive(Clone, Copy)]
pub struct Run {
    pub start: usize,
    pub end: usize,
}

impl Run {
    ghost use Rattle.hdr_verdict.specs.Runs.{extended, Fits};
    ghost use Rattle.hdr_verdict.specs.Slow.{cells_in, is_in, joined_run, touches};

    /// Returns the number of cells.
    pub fn len(self) -> usize
        ensures { result ≡ cells_in self }
    {
        self.end.saturating_sub(self.start)
    }

    /// Whether a cell is in the run.
    pub fn has(self, cell: usize) -> bool
        ensures { result ≡ is_in self cell }
    {
        self.start <= cell && cell < self.end
    }

    /// Whether two runs have a cell in common, or one begins where the other ends.
    pub fn touches(self, other: Run) -> bool
        ensures { result ≡ touches self other }
    {
        self.start <= other.end && other.start <= self.end
    }

    /// Returns the run from the earlier start to the later end.
    pub(crate) fn joined(self, other: Run) -> Run
        ensures { result ≡ joined_run self other }
    {
        Run {
            start: self.start.min(other.start),
            end: self.end.max(other.end),
        }
    }

    /// Returns the run with its end behind a cell, if the cell has a score above 0 and nothing
    /// speaks against the run.
    fn extended(self, cell: usize, against: u128, score: Score) -> Run
        requires { cell + 1 < 2 ^ 64 }
        ensures { result ≡ extended self cell against score }
    {
        if against == 0 && score.gain > score.loss {
            Run {
                start: self.start,
                end: cell + 1,
            }
        } else {
            self
        }
    }
}

/// Whether the last cell is in a run.
#[derive(Clone, Copy)]
enum State {
    /// The sum of the scores since it left 0, at the cell `start`.
    Outside { sum: u128, start: usize },
    /// What speaks against the run since its end.
    Within { run: Run, against: u128 },
}

/// A search for the runs of cells that come one after the other.
#[derive(Drop)]
pub struct RunSearch {
    bar: u128,
    runs: Vec<Run>,
    cells: usize,
    state: State,
    ghost bar_fits: { bar ≤ 2 ^ 127 },
    ghost below: { sum_of state < bar },
}

impl RunSearch {
    ghost use Rattle.hdr_verdict.specs.Runs.{view_of_search, empty_search, after_cell, after_outside, after_within};
    ghost use Rattle.hdr_verdict.specs.Runs.{extended, plus, minus, found, runs_of, is_within, Fits};

    /// Returns a search that has seen no cells. `bar` is the sum that opens and closes a run.
    pub fn new(alloc: Global, bar: u128) -> RunSearch
        requires some { 0 < bar }
        requires fits { bar ≤ 2 ^ 127 }
        ensures { view_of_search result ≡ empty_search bar }
    {
        RunSearch {
            bar,
            runs: Vec::new(alloc),
            cells: 0,
            state: State::Outside { sum: 0, start: 0 },
        }
    }

    /// Whether the last cell is in a run.
    pub fn is_within(&self) -> bool
        ensures { result ≡ is_within (view_of_search self.now).state }
    {
        matches!(self.state, State::Within { .. })
    }
    /// Adds a cell, which has a score that may open a run and another that may close it.
    pub fn push(&mut self, opening: Score, closing: Score) -> Result<(), AllocError>
        requires room { (view_of_search self.old).cells + 1 < 2 ^ 64 }
        requires opening { Fits opening }
        requires closing { Fits closing }
        ensures { OnOk result (view_of_search self.new
            ≡ after_cell (view_of_search self.old) opening closing) }
    {
        match self.state {
            State::Outside { sum, start } => self.push_outside(sum, start, opening),
            State::Within { run, against } => self.push_within(run, against, closing)?,
        }
        self.cells += 1;
        Ok(())
    }

    /// Changes the state for a cell after one that is in no run.
    fn push_outside(&mut self, sum: u128, start: usize, score: Score)
        requires bar { sum < self.old.bar }
        requires room { self.old.cells + 1 < 2 ^ 64 }
        requires fits { Fits score }
        ensures { view_of_search self.new ≡ record (view_of_search self.old) {
          state = after_outside self.old.bar self.old.cells
              (if sum == 0 then self.old.cells else start) (plus sum score);
        } }
    {
        let start = if sum == 0 { self.cells } else { start };
        let sum = score.added_to(sum);
        self.state = if sum >= self.bar {
            State::Within {
                run: Run {
                    start,
                    end: self.cells + 1,
                },
                against: 0,
            }
        } else {
            State::Outside { sum, start }
        };
    }

    /// Changes the state for a cell after one in a run, which may be over.
    fn push_within(&mut self, run: Run, against: u128, score: Score) -> Result<(), AllocError>
        requires bar { against < self.old.bar }
        requires room { self.old.cells + 1 < 2 ^ 64 }
        requires fits { Fits score }
        ensures { OnOk result (view_of_search self.new ≡ after_within (view_of_search self.old)
            (extended run self.old.cells (minus against score) score) (minus against score)) }
    {
        let against = score.subtracted_from(against);
        let run = run.extended(self.cells, against, score);
        if against >= self.bar {
            self.runs.push(run)?;
            self.state = State::Outside { sum: 0, start: 0 };
        } else {
            self.state = State::Within { run, against };
        }
        Ok(())
    }

    /// Returns the runs that were found. The last one may still be open.
    pub fn finish(self) -> Result<Vec<Run>, AllocError>
        ensures { IfOk result (λ runs. runs.items ≡ found (view_of_search self)) }
    {
        let mut runs = self.runs;
        if let State::Within { run, .. } = self.state {
            runs.push(run)?;
        }
        Ok(runs)
    }

    /// Returns the runs of cells with these scores.
    #[tactic(auto, unfolding(crate::specs::Runs::runs_of))]
    pub fn runs_of(alloc: Global, scores: &[Score], bar: u128) -> Result<Vec<Run>, AllocError>
        requires some { 0 < bar }
        requires fits { bar ≤ 2 ^ 127 }
        requires scores { All Fits scores.now }
        ensures { IfOk result (λ runs. runs.items ≡ runs_of bar scores.now) }
    {
        let mut search = Self::new(alloc, bar);
        for score in scores {
            search.push(*score, *score)?;
        }
        search.finish()
    }
}
