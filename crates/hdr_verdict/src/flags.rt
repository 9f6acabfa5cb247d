//! Which cells are in runs, and what the scores of runs sum to.

ghost use Rattle.std.specs.Prelude.{◌≡◌, ◌-◌, ◌^◌, ◌<◌, IfOk, filter, min, nat_lt};
ghost use Rattle.std.specs.List.{list_any, slice_range};
ghost use Rattle.hdr_verdict.specs.Runs.{gain_of, loss_of};
ghost use Rattle.hdr_verdict.specs.Slow.{cells_in, excess_of, has_kept, high_cells, inside, is_in, shorter_than};

use crate::runs::Run;
use crate::samples::is_set;
use crate::score::Score;
use std::alloc::{AllocError, Global};

/// Whether a cell is in one of some runs.
fn is_inside(runs: &[Run], cell: usize) -> bool
    ensures { result ≡ list_any (λ run. is_in run cell) runs.now }
{
    runs.iter().any(|run| run.has(cell))
}

/// Returns for each of `len` cells whether it is in one of some runs.
pub(crate) fn inside(alloc: Global, runs: &[Run], len: usize) -> Result<Vec<bool>, AllocError>
    ensures { IfOk result (λ inside_runs. inside_runs.items ≡ inside runs.now len) }
{
    let mut inside = Vec::new(alloc);
    for index in 0..len {
        inside.push(is_inside(runs, index))?;
    }
    Ok(inside)
}

/// Returns the runs that are shorter than a run.
pub(crate) fn shorter(alloc: Global, run: Run, runs: &[Run]) -> Result<Vec<Run>, AllocError>
    ensures { IfOk result (λ shorter. shorter.items ≡ shorter_than run runs.now) }
{
    let mut shorter = Vec::new(alloc);
    for other in runs {
        if other.len() < run.len() {
            shorter.push(*other)?;
        }
    }
    Ok(shorter)
}

/// Whether a run has a cell that is not left out.
pub(crate) fn has_kept(left_out: &[bool], run: Run) -> bool
    ensures { result ≡ has_kept left_out.now run }
{
    (run.start..run.end).any(|index| !is_set(left_out, index))
}

/// Returns the scores of a run.
fn scores_in(scores: &[Score], run: Run) -> &[Score]
    ensures { result.now ≡ slice_range scores.now run.start run.end }
{
    let end = run.end.min(scores.len());
    let start = run.start.min(end);
    &scores[start..end]
}

/// Returns how many cells of a run have a score above 0.
pub(crate) fn high_cells(scores: &[Score], run: Run) -> usize
    ensures { result ≡ high_cells scores.now run }
{
    let scores = scores_in(scores, run);
    scores
        .iter()
        .filter(|score| score.loss < score.gain)
        .count()
}

/// Returns how many samples too many a run has: the sum of its scores, over `den`.
pub(crate) fn excess_of(scores: &[Score], run: Run, den: u64) -> u128
    requires { 0 < den }
    ensures { result ≡ excess_of scores.now run den }
{
    let mut gain = 0u128;
    let mut loss = 0u128;
    for score in scores_in(scores, run) {
        gain = gain.saturating_add(score.gain);
        loss = loss.saturating_add(score.loss);
    }
    gain.saturating_sub(loss) / u128::from(den)
}
