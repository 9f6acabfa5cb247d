//! The tests of a tag, and its slow times.

ghost use Rattle.std.specs.Prelude.{◌≡◌, ◌<◌, ◌++◌, ℕ, List, [], ◌∷◌, None, Option, MatchOption, IfOk, OnOk, slice_index_or};
ghost use Rattle.hdr_verdict.specs.Slow.{slow_of, views_of};
ghost use Rattle.hdr_verdict.specs.TagSamples.{HasSamples, KeepsCells};
ghost use Rattle.hdr_verdict.specs.Tests.{AreUsualTests, level_test, usual_test, usual_tests};

use crate::level::TailLevel;
use crate::samples::TagSamples;
use crate::search::slow_of;
use crate::slow::{SlowTime, Test};
use crate::tail::Tail;
use crate::usual::Usual;
use crate::usual_tails::all_tails;
use crate::usual_values::usual_of;
use hdr_logs::LogError;
use std::alloc::{AllocError, Global};

/// The slow times of a tag, by the tests that there were samples enough for.
#[derive(Drop)]
pub struct SlowTimes {
    pub tests: Vec<Test>,
    pub times: Vec<SlowTime>,
}

/// Returns the slow times of a tag: by a level, or by what is usual if there is none. A sum of `bar`
/// samples that are all slow opens and closes a run of cells.
///
/// # Errors
/// As `StoredInterval::histogram`.
pub fn slow_times(
    alloc: Global,
    samples: &mut TagSamples<'_>,
    level: Option<TailLevel>,
    bar: u64,
) -> Result<SlowTimes, LogError>
    requires { 0 < bar }
    ensures keeps { KeepsCells samples.old samples.new }
    ensures tests { IfOk result (λ slow. (cells : List (List ℕ)) → HasSamples samples.old cells
        → MatchOption level (AreUsualTests cells slow.tests.items)
        (λ l. slow.tests.items ≡ level_test l cells ∷ [])) }
    ensures times { IfOk result (λ slow. (cells : List (List ℕ)) → HasSamples samples.old cells
        → views_of slow.times.items ≡ slow_of bar cells slow.tests.items) }
{
    let tests = tests_of(alloc, samples, level)?;
    let times = slow_of(alloc, samples, &tests, bar)?;
    Ok(SlowTimes { tests, times })
}

/// Returns the tests of a tag: of a level, or of what is usual if there is none.
fn tests_of(
    alloc: Global,
    samples: &mut TagSamples<'_>,
    level: Option<TailLevel>,
) -> Result<Vec<Test>, LogError>
    ensures keeps { KeepsCells samples.old samples.new }
    ensures tests { IfOk result (λ tests. (cells : List (List ℕ)) → HasSamples samples.old cells
        → MatchOption level (AreUsualTests cells tests.items)
        (λ l. tests.items ≡ level_test l cells ∷ [])) }
{
    match level {
        Some(level) => level_tests(alloc, samples, level),
        None => usual_tests(alloc, samples, &all_tails()),
    }
}

/// Returns the tests of the tails that there are samples enough for.
fn usual_tests(
    alloc: Global,
    samples: &mut TagSamples<'_>,
    tails: &[Tail],
) -> Result<Vec<Test>, LogError>
    ensures keeps { KeepsCells samples.old samples.new }
    ensures tests { IfOk result (λ tests. (cells : List (List ℕ)) → HasSamples samples.old cells
        → tests.items ≡ usual_tests tails.now cells) }
{
    let all = usual_of(alloc, samples, tails)?;
    let mut tests = Vec::new(alloc);
    for (index, tail) in tails.iter().enumerate() {
        push_test(&mut tests, *tail, usual_at(&all, index))?;
    }
    Ok(tests)
}

/// Returns the element of an index, or `None` past the last one.
fn usual_at(all: &[Option<Usual>], index: usize) -> Option<Usual>
    ensures { result ≡ slice_index_or all.now index None }
{
    match all.get(index) {
        Some(usual) => *usual,
        None => None,
    }
}

/// Appends the test of a tail, if it is known what is usual.
fn push_test(tests: &mut Vec<Test>, tail: Tail, usual: Option<Usual>) -> Result<(), AllocError>
    ensures { OnOk result (tests.new.items ≡ tests.old.items ++ usual_test tail usual) }
{
    let Some(usual) = usual else {
        return Ok(());
    };
    tests.push(Test {
        tail,
        usual: Some(usual.value),
        threshold: usual.threshold(),
        is_level: false,
    })?;
    Ok(())
}

/// Returns the test of a level.
fn level_tests(
    alloc: Global,
    samples: &mut TagSamples<'_>,
    level: TailLevel,
) -> Result<Vec<Test>, LogError>
    ensures keeps { KeepsCells samples.old samples.new }
    ensures test { IfOk result (λ tests. (cells : List (List ℕ)) → HasSamples samples.old cells
        → tests.items ≡ level_test level cells ∷ []) }
{
    let all = usual_of(alloc, samples, &[level.tail])?;
    let test = Test {
        tail: level.tail,
        usual: usual_at(&all, 0).map(|usual| usual.value),
        threshold: level.value,
        is_level: true,
    };
    Ok(vec![in alloc; test]?)
}
