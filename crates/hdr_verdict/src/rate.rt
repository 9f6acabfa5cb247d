//! Rates: how many samples come in how much time, and how many usually come.

ghost use Rattle.std.specs.Prelude.{◌≡◌, ℕ, ◌+◌, ◌-◌, ◌*◌, ◌<◌, ◌≤◌, ◌^◌, max, min, length};
ghost use Rattle.hdr_verdict.specs.Rates.{rate_of_cell, together, is_slower, slower, expected, has_rank};
ghost use Rattle.hdr_verdict.specs.Rates.{last_of, samples_before_last, window, of_rank, parts_of};
ghost use Rattle.hdr_verdict.specs.Rates.{usual_of_cells, usual_rate};

use crate::cell::Cell;

/// A usual rate is the lower quartile of this number of parts, and not known of fewer cells.
const PARTS: usize = 8;

/// The cells that count, at least. A rate that changes with the time of day changes little over 16
/// cells.
const FEWEST_CELLS: usize = 16;

/// The cells that count, at most.
const MOST_CELLS: usize = 64;

/// More cells count until they have 100 samples. Chance changes such a number by a tenth.
const ENOUGH_SAMPLES: u64 = 100;

/// A number of samples in a time.
#[derive(Clone, Copy)]
pub struct Rate {
    pub samples: u64,
    /// In milliseconds.
    pub time: u64,
}

impl Rate {
    /// Returns the rate of a cell, whose time is at least 1 ms.
    pub(crate) fn of_cell(cell: &Cell) -> Rate
        ensures { result ≡ rate_of_cell cell.now }
    {
        Rate {
            samples: cell.samples,
            time: cell.end.saturating_sub(cell.start).max(1),
        }
    }

    /// Returns the rate of several cells together.
    pub(crate) fn together(rates: &[Rate]) -> Rate
        ensures { result ≡ together rates.now }
    {
        let mut samples = 0u64;
        let mut time = 0u64;
        for rate in rates {
            samples = samples.saturating_add(rate.samples);
            time = time.saturating_add(rate.time);
        }
        Rate { samples, time }
    }

    /// Whether this rate is below another.
    pub(crate) fn is_slower(&self, other: &Rate) -> bool
        ensures { result ≡ is_slower self.now other.now }
    {
        let this = u128::from(self.samples) * u128::from(other.time);
        this < u128::from(other.samples) * u128::from(self.time)
    }

    /// Returns the other rate if it is below this one, and otherwise this one.
    fn slower(self, other: Rate) -> Rate
        ensures { result ≡ slower self other }
    {
        if other.is_slower(&self) { other } else { self }
    }

    /// Returns the number of samples that `num / den` of the rate gives in a time, rounded down.
    #[tactic(auto, unfolding(crate::specs::Rates::expected))]
    pub(crate) fn expected(&self, num: u128, den: u128, time: u64) -> u128
        requires some { 0 < den }
        requires fits { den < 2 ^ 64 }
        ensures value { result ≡ expected self.now num den time }
        ensures half { 2 ≤ den → result < 2 ^ 127 }
    {
        let samples = num.saturating_mul(u128::from(self.samples) * u128::from(time));
        samples / (den * u128::from(self.time.max(1)))
    }

    /// Whether at most `rank` of some rates are below this one, and more are not above it.
    fn has_rank(&self, rank: usize, rates: &[Rate]) -> bool
        ensures { result ≡ has_rank rank rates.now self.now }
    {
        let mut below = 0usize;
        let mut above = 0usize;
        for rate in rates {
            if rate.is_slower(self) {
                below += 1;
            }
            if self.is_slower(rate) {
                above += 1;
            }
        }
        below <= rank && rank < rates.len() - above
    }
}

/// Returns the last `n` rates, or all of them.
fn last_of(n: usize, rates: &[Rate]) -> &[Rate]
    ensures { result.now ≡ last_of n rates.now }
{
    &rates[rates.len().saturating_sub(n)..]
}

/// Returns the samples of the cell before the last `n`, or 0 if there is none.
fn samples_before_last(n: usize, past: &[Rate]) -> u64
    ensures { result ≡ samples_before_last n past.now }
{
    if n < past.len() {
        past[past.len() - 1 - n].samples
    } else {
        0
    }
}

/// Returns how many of the last cells count.
fn window(past: &[Rate]) -> usize
    ensures { result ≡ window past.now }
{
    let mut samples = Rate::together(last_of(FEWEST_CELLS, past)).samples;
    for cells in FEWEST_CELLS..MOST_CELLS {
        if samples >= ENOUGH_SAMPLES {
            return cells;
        }
        samples = samples.saturating_add(samples_before_last(cells, past));
    }
    MOST_CELLS
}

/// Returns the first rate of a rank.
#[tactic(auto, unfolding(crate::specs::Rates::of_rank))]
fn of_rank(rank: usize, rates: &[Rate]) -> Option<Rate>
    ensures { result ≡ of_rank rank rates.now }
{
    for rate in rates {
        if rate.has_rank(rank, rates) {
            return Some(*rate);
        }
    }
    None
}

/// Returns the rates of eight equal parts of the last cells.
fn parts_of(cells: &[Rate]) -> [Rate; PARTS]
    ensures { result ≡ parts_of cells.now }
{
    let size = cells.len() / PARTS;
    let cells = last_of(PARTS * size, cells);
    let mut parts = [Rate {
        samples: 0,
        time: 0,
    }; PARTS];
    for part in 0..PARTS {
        parts[part] = Rate::together(&cells[part * size..part * size + size]);
    }
    parts
}

/// Returns the rate over some cells, or the lower quartile of their eight parts if that is less.
fn usual_of_cells(cells: &[Rate]) -> Rate
    ensures { result ≡ usual_of_cells cells.now }
{
    let all = Rate::together(cells);
    match of_rank(PARTS / 4, &parts_of(cells)) {
        Some(quartile) => all.slower(quartile),
        None => all,
    }
}

/// Returns the usual rate after cells of these rates: over the last of them, or the lower quartile
/// of eight parts of these if that is less. Returns `None` if there are fewer than eight cells, or
/// usually no samples.
#[tactic(auto, unfolding(crate::specs::Rates::usual_rate))]
pub fn usual_rate(past: &[Rate]) -> Option<Rate>
    ensures { result ≡ usual_rate past.now }
{
    if past.len() < PARTS {
        return None;
    }
    let usual = usual_of_cells(last_of(window(past), past));
    if usual.samples == 0 {
        None
    } else {
        Some(usual)
    }
}
