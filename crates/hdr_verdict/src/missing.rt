//! Times at which samples of a tag are missing.

ghost use Rattle.std.specs.Prelude.{◌≡◌, ℕ, ◌+◌, ◌-◌, ◌*◌, ◌<◌, ◌≤◌, ◌^◌, ◌++◌, length, map, option_to_list, IfOk, IfSome, OnOk};
ghost use Rattle.std.specs.List.{All, filter_map};
ghost use Rattle.hdr_verdict.specs.Runs.{Fits, found};
ghost use Rattle.hdr_verdict.specs.Rates.{rate_of_cell};
ghost use Rattle.hdr_verdict.specs.Missing.{swing, swings, usual_swing, shortage, cells_of, empty_time};
ghost use Rattle.hdr_verdict.specs.Missing.{is_gap, first_empty, end_of_empty, gap_in, is_low, time_in};
ghost use Rattle.hdr_verdict.specs.Missing.{missing_in, search_of, missing_of, IsWithin, IsTimeWithin};
ghost use Rattle.hdr_verdict.specs.RateSearches.{view_of_rates};

use crate::cell::Cell;
use crate::rate::{Rate, usual_rate};
use crate::runs::{Run, RunSearch};
use crate::score::Score;
use std::alloc::{AllocError, Global};

/// A fall of fewer cells has to be deeper.
const LONG_FALL: usize = 8;

/// Fewer cells with fewer samples than usual are chance, unless some have none.
const SHORT_FALL: usize = 3;

/// A time at which samples of a tag are missing.
#[derive(Clone, Copy)]
pub struct MissingTime {
    /// Whether more than half of the time is without samples. Otherwise there are few.
    pub is_gap: bool,
    /// Its cells. A gap begins with a cell without samples, and ends with one.
    pub run: Run,
    /// The first of the cells with fewer samples than usual, which may be before a gap.
    pub from: usize,
    pub rate: Rate,
    /// The usual rate before its first cell.
    pub usual: Rate,
}

/// Returns the rates of cells.
fn rates_of(alloc: Global, cells: &[Cell]) -> Result<Vec<Rate>, AllocError>
    ensures { IfOk result (λ rates. rates.items ≡ map rate_of_cell cells.now) }
{
    cells.iter().map(Rate::of_cell).collect(alloc)
}

/// Returns how much the number of samples changes from a cell to the next one, if that were as
/// long.
fn swing(one: &Rate, next: &Rate) -> u64
    ensures { result ≡ swing one.now next.now }
{
    let before = u128::from(one.samples) * u128::from(next.time);
    let after = u128::from(next.samples) * u128::from(one.time);
    let change = before.abs_diff(after) / u128::from(one.time.max(1));
    u64::try_from(change).unwrap_or(u64::MAX)
}

/// Returns how much the number of samples changes between cells.
fn swings(alloc: Global, rates: &[Rate]) -> Result<Vec<u64>, AllocError>
    ensures { IfOk result (λ changes. changes.items ≡ swings rates.now) }
{
    let mut changes = Vec::new(alloc);
    for next in 1..rates.len() {
        changes.push(swing(&rates[next - 1], &rates[next]))?;
    }
    Ok(changes)
}

/// Returns the median of how much the number of samples changes between cells, or 0 of fewer
/// than two cells.
#[tactic(auto, unfolding(crate::specs::Missing::usual_swing))]
fn usual_swing(alloc: Global, rates: &[Rate]) -> Result<u64, AllocError>
    ensures { IfOk result (λ median. median ≡ usual_swing rates.now) }
{
    let mut changes = swings(alloc, rates)?;
    changes.sort()?;
    match changes.get(changes.len() / 2) {
        Some(median) => Ok(*median),
        None => Ok(0),
    }
}

/// Returns the samples that are missing in a cell to `num / den` of the usual rate, and those that
/// there are. Nothing is missing if no rate is usual.
fn shortage(num: u128, den: u128, usual: Option<Rate>, rate: &Rate) -> Score
    requires some { 2 ≤ den }
    requires few { den < 2 ^ 64 }
    ensures value { result ≡ shortage num den usual rate.now }
    ensures fits { Fits result }
{
    match usual {
        Some(usual) => Score {
            gain: usual.expected(num, den, rate.time),
            loss: u128::from(rate.samples),
        },
        None => Score { gain: 0, loss: 0 },
    }
}

/// A search for runs of cells with fewer samples than usual.
#[derive(Drop)]
struct RateSearch {
    search: RunSearch,
    /// The rates of the cells that are in no run and have half the usual samples or more.
    past: Vec<Rate>,
    /// The usual rate before each cell.
    usual: Vec<Option<Rate>>,
}

impl RateSearch {
    ghost use Rattle.hdr_verdict.specs.Missing.{after_rate, empty_rates};

    /// Returns a search that has seen no cells.
    fn new(alloc: Global, bar: u128) -> RateSearch
        requires some { 0 < bar }
        requires fits { bar ≤ 2 ^ 127 }
        ensures { view_of_rates result ≡ empty_rates bar }
    {
        RateSearch {
            search: RunSearch::new(alloc, bar),
            past: Vec::new(alloc),
            usual: Vec::new(alloc),
        }
    }

    /// Adds a cell. Fewer samples than half the usual rate open a run, and it ends where they are
    /// back to three quarters.
    fn push(&mut self, rate: &Rate) -> Result<(), AllocError>
        requires room { (view_of_rates self.old).search.cells + 1 < 2 ^ 64 }
        ensures { OnOk result (view_of_rates self.new
            ≡ after_rate (view_of_rates self.old) rate.now) }
    {
        let usual = usual_rate(&self.past);
        let opening = shortage(1, 2, usual, rate);
        self.search.push(opening, shortage(3, 4, usual, rate))?;
        if !self.search.is_within() && opening.gain <= opening.loss {
            self.past.push(*rate)?;
        }
        self.usual.push(usual)?;
        Ok(())
    }
}

/// Returns the rates of the cells of a run.
fn cells_of(rates: &[Rate], run: Run) -> &[Rate]
    requires { IsWithin (length rates.now) run }
    ensures { result.now ≡ cells_of rates.now run }
{
    &rates[run.start..run.end]
}

/// Returns the time of the cells without samples.
fn empty_time(rates: &[Rate]) -> u64
    ensures { result ≡ empty_time rates.now }
{
    let mut time = 0u64;
    for rate in rates {
        if rate.samples == 0 {
            time = time.saturating_add(rate.time);
        }
    }
    time
}

/// Whether a run of cells is a gap.
fn is_gap(rates: &[Rate]) -> bool
    ensures { result ≡ is_gap rates.now }
{
    let empty = u128::from(empty_time(rates));
    2 * empty > u128::from(Rate::together(rates).time) || rates.len() < SHORT_FALL && empty > 0
}

/// Returns the index of the first cell without samples, or the number of cells.
fn first_empty(rates: &[Rate]) -> usize
    ensures { result ≡ first_empty rates.now }
{
    for (index, rate) in rates.iter().enumerate() {
        if rate.samples == 0 {
            return index;
        }
    }
    rates.len()
}

/// Returns the index behind the last cell without samples, or 0.
fn end_of_empty(rates: &[Rate]) -> usize
    ensures { result ≡ end_of_empty rates.now }
{
    let mut end = rates.len();
    while end > 0 && rates[end - 1].samples > 0 {
        end -= 1;
    }
    end
}

/// Whether a rate over some cells is so low that samples are missing.
fn is_low(cells: usize, rate: Rate, usual: Rate) -> bool
    ensures { result ≡ is_low cells rate usual }
{
    let times = if cells < LONG_FALL { 5u128 } else { 2 };
    let least = times.saturating_mul(u128::from(rate.samples) * u128::from(usual.time));
    cells >= SHORT_FALL && least <= u128::from(usual.samples) * u128::from(rate.time)
}

/// Returns the cells of a gap in a run: those from the first without samples to the last. Returns
/// `None` if the run is not a gap.
fn gap_in(rates: &[Rate], run: Run) -> Option<Run>
    requires { IsWithin (length rates.now) run }
    ensures value { result ≡ gap_in rates.now run }
    ensures within { IfSome result (IsWithin (length rates.now)) }
{
    let cells = cells_of(rates, run);
    if !is_gap(cells) {
        return None;
    }
    Some(Run {
        start: run.start + first_empty(cells),
        end: run.start + end_of_empty(cells),
    })
}

/// Returns what is missing in some cells of the run that begins at the cell `from`, or `None` if
/// the rate is not low.
fn time_in(rates: &[Rate], is_gap: bool, from: usize, run: Run, usual: Rate) -> Option<MissingTime>
    requires { IsWithin (length rates.now) run }
    ensures value { result ≡ time_in rates.now is_gap from run usual }
    ensures cells { IfSome result (λ time. (time.run ≡ run) × (time.from ≡ from)) }
{
    let rate = Rate::together(cells_of(rates, run));
    if is_gap || is_low(run.end - run.start, rate, usual) {
        Some(MissingTime {
            is_gap,
            run,
            from,
            rate,
            usual,
        })
    } else {
        None
    }
}

/// Returns what is missing in a run of cells, by the usual rate before its first cell.
#[tactic(auto, unfolding(crate::specs::Missing::missing_in))]
fn missing_in(rates: &[Rate], usual: &[Option<Rate>], run: Run) -> Option<MissingTime>
    requires { IsWithin (length rates.now) run }
    ensures value { result ≡ missing_in rates.now usual.now run }
    ensures within { IfSome result (IsTimeWithin (length rates.now)) }
{
    let gap = gap_in(rates, run);
    let cells = gap.unwrap_or(run);
    match usual.get(cells.start) {
        Some(Some(usual)) => time_in(rates, gap.is_some(), run.start, cells, *usual),
        _ => None,
    }
}

/// Appends what is missing in a run, if that is any.
fn push_some(times: &mut Vec<MissingTime>, time: Option<MissingTime>) -> Result<(), AllocError>
    ensures { OnOk result (times.new.items ≡ times.old.items ++ option_to_list time) }
{
    if let Some(time) = time {
        times.push(time)?;
    }
    Ok(())
}

/// Returns what is missing in runs of cells.
fn missing_in_runs(
    alloc: Global,
    rates: &[Rate],
    usual: &[Option<Rate>],
    runs: &[Run],
) -> Result<Vec<MissingTime>, AllocError>
    requires { All (IsWithin (length rates.now)) runs.now }
    ensures value { IfOk result (λ times. times.items
        ≡ filter_map (missing_in rates.now usual.now) runs.now) }
    ensures within { IfOk result (λ times. All (IsTimeWithin (length rates.now)) times.items) }
{
    let mut times = Vec::new(alloc);
    for run in runs {
        push_some(&mut times, missing_in(rates, usual, *run))?;
    }
    Ok(times)
}

/// Returns the search for runs of cells with few samples, after all cells.
#[tactic(auto, unfolding(crate::specs::Missing::search_of))]
fn search_of(alloc: Global, rates: &[Rate], bar: u64) -> Result<RateSearch, AllocError>
    requires { 0 < bar }
    ensures value { IfOk result (λ search. view_of_rates search ≡ search_of bar rates.now) }
    ensures runs { IfOk result (λ search. All (IsWithin (length rates.now))
        (found (view_of_rates search).search)) }
{
    let bar = u128::from(bar) + 3 * u128::from(usual_swing(alloc, rates)?);
    let mut search = RateSearch::new(alloc, bar);
    for rate in rates {
        search.push(rate)?;
    }
    Ok(search)
}

/// Returns the times at which samples of a tag are missing. `bar` is the number of samples that
/// have to be missing, if the number of samples of cells does not change.
#[tactic(auto, unfolding(crate::specs::Missing::missing_of))]
pub fn missing_of(alloc: Global, cells: &[Cell], bar: u64) -> Result<Vec<MissingTime>, AllocError>
    requires { 0 < bar }
    ensures value { IfOk result (λ times. times.items ≡ missing_of bar cells.now) }
    ensures within { IfOk result (λ times. All (IsTimeWithin (length cells.now)) times.items) }
{
    let rates = rates_of(alloc, cells)?;
    let search = search_of(alloc, &rates, bar)?;
    let runs = search.search.finish()?;
    missing_in_runs(alloc, &rates, &search.usual, &runs)
}
