//! The search for times at which a tag was slow.

ghost use Rattle.std.specs.Prelude.{◌≡◌, ◌+◌, ◌*◌, ◌<◌, ◌^◌, ◌++◌, ℕ, Bool, List, [], ◌∷◌, if◌then◌else◌, length, map, slice_index, IfOk, OnOk};
ghost use Rattle.std.specs.List.{All};
ghost use Rattle.hdr_verdict.specs.Runs.{Fits};
ghost use Rattle.hdr_verdict.specs.Slow.{after_run, after_test, is_same, joined, scores_of, slow_of, runs_in};
ghost use Rattle.hdr_verdict.specs.Slow.{value_in, view_of_slow, views_of, with_slow, with_value, inside};
ghost use Rattle.hdr_verdict.specs.Tails.{count_above};
ghost use Rattle.hdr_verdict.specs.TagSamples.{HasSamples, KeepsCells};
ghost use Rattle.hdr_verdict.specs.declared.cell.Cell.{Cell};
ghost use Rattle.hdr_verdict.specs.declared.slow.Test.{Test};

use crate::cell::Cell;
use crate::counting::{counts_above, counts_at};
use crate::flags::{excess_of, has_kept, high_cells, inside, shorter};
use crate::runs::{Run, RunSearch};
use crate::samples::{TagSamples, is_set};
use crate::score::Score;
use crate::slow::{SlowTime, Test};
use hdr_logs::LogError;
use std::alloc::{AllocError, Global};

/// Returns the value of a test's tail in the cells of a run, but those that are left out.
fn value_in(
    samples: &mut TagSamples<'_>,
    test: &Test,
    left_out: &[bool],
    run: Run,
) -> Result<u64, LogError>
    ensures keeps { KeepsCells samples.old samples.new }
    ensures value { IfOk result (λ value. (cells : List (List ℕ)) → HasSamples samples.old cells
        → value ≡ value_in test.now cells left_out.now run) }
{
    samples.value_in(run, left_out, test.tail.quantile())
}

/// Returns the scores of cells. Cells that earlier times explain count for nothing.
fn scores_of(
    alloc: Global,
    test: &Test,
    cells: &[Cell],
    above: &[u64],
    explained: &[bool],
) -> Result<Vec<Score>, AllocError>
    ensures scores { IfOk result (λ scores. (all : List (List ℕ))
        → map (λ (cell : Cell). cell.samples) cells.now ≡ map length all
        → above.now ≡ map (count_above test.now.threshold) all
        → scores.items ≡ scores_of test.now explained.now all) }
    ensures fit { IfOk result (λ scores. All Fits scores.items) }
    ensures many { IfOk result (λ scores. length scores.items ≡ length cells.now) }
{
    let mut scores = Vec::new(alloc);
    for (index, cell) in cells.iter().enumerate() {
        let above = count_at(above, index);
        scores.push(test.score(above, cell.samples, is_set(explained, index)))?;
    }
    Ok(scores)
}

/// Returns the count of an index, or 0 past the last one.
fn count_at(counts: &[u64], index: usize) -> u64
    ensures { result ≡ slice_index counts.now index }
{
    match counts.get(index) {
        Some(count) => *count,
        None => 0,
    }
}

/// Whether an earlier run touches a run, and its value is below four times that of the run: what is
/// below looks like one state.
fn is_same(
    samples: &mut TagSamples<'_>,
    test: &Test,
    value: u64,
    run: Run,
    earlier: Run,
) -> Result<bool, LogError>
    ensures keeps { KeepsCells samples.old samples.new }
    ensures same { IfOk result (λ same. (cells : List (List ℕ)) → HasSamples samples.old cells
        → same ≡ is_same test.now cells value run earlier) }
{
    if !earlier.touches(run) {
        return Ok(false);
    }
    let other = value_in(samples, test, &[], earlier)?;
    Ok(u128::from(other) < 4 * u128::from(value))
}

/// Joins an earlier time to a time, if it is of the same state, and otherwise keeps it.
fn join_or_keep(
    alloc: Global,
    slow: SlowTime,
    kept: &mut Vec<SlowTime>,
    earlier: SlowTime,
    is_same: bool,
) -> Result<SlowTime, AllocError>
    ensures slow { IfOk result (λ new. view_of_slow new ≡ (if is_same then joined (view_of_slow slow)
        (view_of_slow earlier) else view_of_slow slow)) }
    ensures kept { OnOk result (views_of kept.new.items ≡ (if is_same then views_of kept.old.items
        else views_of kept.old.items ++ view_of_slow earlier ∷ [])) }
{
    if is_same {
        return slow.joined(alloc, &earlier);
    }
    match kept.push(earlier) {
        Ok(()) => Ok(slow),
        Err(_) => Err(AllocError),
    }
}

/// Returns the times that were found with one more, which earlier times of the same state join.
fn with_slow(
    alloc: Global,
    samples: &mut TagSamples<'_>,
    test: &Test,
    value: u64,
    slow: SlowTime,
    found: Vec<SlowTime>,
) -> Result<Vec<SlowTime>, LogError>
    ensures keeps { KeepsCells samples.old samples.new }
    ensures found { IfOk result (λ all. (cells : List (List ℕ)) → HasSamples samples.old cells
        → views_of all.items ≡ with_slow test.now cells value (view_of_slow slow) (views_of found.items)) }
{
    let run = slow.run;
    let mut slow = slow;
    let mut kept = Vec::new(alloc);
    for earlier in found {
        let same = is_same(samples, test, value, run, earlier.run)?;
        slow = join_or_keep(alloc, slow, &mut kept, earlier, same)?;
    }
    kept.push(slow)?;
    Ok(kept)
}

/// What runs are searched in: the scores of cells by a test, and which cells earlier times explain.
#[derive(Drop)]
struct Scored {
    explained: Vec<bool>,
    scores: Vec<Score>,
}

/// Returns the times that were found after a run of cells.
fn after_run(
    alloc: Global,
    samples: &mut TagSamples<'_>,
    test: &Test,
    scored: &Scored,
    run: Run,
    found: Vec<SlowTime>,
) -> Result<Vec<SlowTime>, LogError>
    ensures keeps { KeepsCells samples.old samples.new }
    ensures found { IfOk result (λ all. (cells : List (List ℕ)) → HasSamples samples.old cells
        → views_of all.items ≡ after_run test.now cells scored.now.explained.items
        scored.now.scores.items (views_of found.items) run) }
{
    let value = value_in(samples, test, &scored.explained, run)?;
    let cells = high_cells(&scored.scores, run);
    if !test.is_rise(cells, value) {
        return Ok(found);
    }
    let slow = SlowTime {
        run,
        rises: vec![in alloc; test.rise(value)]?,
        excess: excess_of(&scored.scores, run, test.tail.den),
        cells,
    };
    with_slow(alloc, samples, test, value, slow, found)
}

/// Returns the runs of times.
fn runs_in(alloc: Global, found: &[SlowTime]) -> Result<Vec<Run>, AllocError>
    ensures { IfOk result (λ runs. runs.items ≡ runs_in (views_of found.now)) }
{
    let mut runs = Vec::new(alloc);
    for slow in found {
        runs.push(slow.run)?;
    }
    Ok(runs)
}

/// Returns a time with the value of a test's tail, unless it has one or each of its cells is in a
/// shorter one of some runs.
fn with_value(
    alloc: Global,
    samples: &mut TagSamples<'_>,
    test: &Test,
    runs: &[Run],
    slow: SlowTime,
) -> Result<SlowTime, LogError>
    ensures keeps { KeepsCells samples.old samples.new }
    ensures slow { IfOk result (λ new. (cells : List (List ℕ)) → HasSamples samples.old cells
        → view_of_slow new ≡ with_value test.now cells runs.now (view_of_slow slow)) }
{
    let left_out = inside(
        alloc,
        &shorter(alloc, slow.run, runs)?,
        samples.cells().len(),
    )?;
    if slow.has(test.tail) || !has_kept(&left_out, slow.run) {
        return Ok(slow);
    }
    let mut slow = slow;
    let value = value_in(samples, test, &left_out, slow.run)?;
    slow.rises.push(test.rise(value))?;
    Ok(slow)
}

/// Returns the times that were found with the values of a test's tail.
fn with_values(
    alloc: Global,
    samples: &mut TagSamples<'_>,
    test: &Test,
    found: Vec<SlowTime>,
) -> Result<Vec<SlowTime>, LogError>
    ensures keeps { KeepsCells samples.old samples.new }
    ensures found { IfOk result (λ all. (cells : List (List ℕ)) → HasSamples samples.old cells
        → views_of all.items
        ≡ map (with_value test.now cells (runs_in (views_of found.items))) (views_of found.items)) }
{
    let runs = runs_in(alloc, &found)?;
    let mut all = Vec::new(alloc);
    for slow in found {
        all.push(with_value(alloc, samples, test, &runs, slow)?)?;
    }
    Ok(all)
}

/// Returns which cells earlier times explain, and the scores of the others.
fn score_cells(
    alloc: Global,
    samples: &TagSamples<'_>,
    test: &Test,
    above: &[u64],
    found: &[SlowTime],
) -> Result<Scored, AllocError>
    ensures explained { IfOk result (λ scored. (cells : List (List ℕ)) → HasSamples samples.now cells
        → scored.explained.items ≡ inside (runs_in (views_of found.now)) (length cells)) }
    ensures scores { IfOk result (λ scored. (cells : List (List ℕ)) → HasSamples samples.now cells
        → above.now ≡ map (count_above test.now.threshold) cells
        → scored.scores.items ≡ scores_of test.now scored.explained.items cells) }
    ensures fit { IfOk result (λ scored. All Fits scored.scores.items) }
{
    let runs = runs_in(alloc, found)?;
    let explained = inside(alloc, &runs, samples.cells().len())?;
    let scores = scores_of(alloc, test, samples.cells(), above, &explained)?;
    Ok(Scored { explained, scores })
}

/// Returns the times that were found after one more test. `above` is how many samples of each cell
/// are above its threshold.
fn after_test(
    alloc: Global,
    samples: &mut TagSamples<'_>,
    test: &Test,
    above: &[u64],
    bar: u64,
    found: Vec<SlowTime>,
) -> Result<Vec<SlowTime>, LogError>
    requires { 0 < bar }
    ensures keeps { KeepsCells samples.old samples.new }
    ensures found { IfOk result (λ all. (cells : List (List ℕ)) → HasSamples samples.old cells
        → above.now ≡ map (count_above test.now.threshold) cells
        → views_of all.items ≡ after_test bar cells (views_of found.items) test.now) }
{
    let scored = score_cells(alloc, samples, test, above, &found)?;
    let bar = u128::from(bar) * u128::from(test.tail.den - test.tail.num);
    let mut found = found;
    for run in &RunSearch::runs_of(alloc, &scored.scores, bar)? {
        found = after_run(alloc, samples, test, &scored, *run, found)?;
    }
    with_values(alloc, samples, test, found)
}

/// Returns the times at which a tag was slow by tests, one after the other. A sum of `bar` samples
/// that are all slow opens and closes a run of cells.
pub fn slow_of(
    alloc: Global,
    samples: &mut TagSamples<'_>,
    tests: &[Test],
    bar: u64,
) -> Result<Vec<SlowTime>, LogError>
    requires { 0 < bar }
    ensures keeps { KeepsCells samples.old samples.new }
    ensures slow { IfOk result (λ all. (cells : List (List ℕ)) → HasSamples samples.old cells
        → views_of all.items ≡ slow_of bar cells tests.now) }
{
    if tests.is_empty() {
        return Ok(Vec::new(alloc));
    }
    let thresholds = thresholds_of(alloc, tests)?;
    let all = counts_above(alloc, samples, &thresholds)?;
    let mut found = Vec::new(alloc);
    for (index, test) in tests.iter().enumerate() {
        found = after_test(alloc, samples, test, counts_at(&all, index), bar, found)?;
    }
    Ok(found)
}

/// Returns the thresholds of tests.
fn thresholds_of(alloc: Global, tests: &[Test]) -> Result<Vec<u64>, AllocError>
    ensures { IfOk result (λ thresholds. thresholds.items
        ≡ map (λ (test : Test). test.threshold) tests.now) }
{
    let mut thresholds = Vec::new(alloc);
    for test in tests {
        thresholds.push(test.threshold)?;
    }
    Ok(thresholds)
}
