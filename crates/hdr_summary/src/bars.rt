//! Distributions as bars: a line for each step of their values.

ghost use Rattle.std.specs.Prelude.{◌≡◌, ◌≤◌, ◌+◌, ℕ, List, length, IfOk};
ghost use Rattle.hdr_model.specs.Plain.{resolution};
ghost use Rattle.hdr_model.specs.Samples.{StandsFor};
ghost use Rattle.hdr_summary.specs.Bars.{HaveOwn, LeadTo, count_of};

use crate::classes::count_begun;
use crate::decimals::{Conversion, in_parts};
use crate::formats::{push_right, push_spaces};
use hdr_input::Distribution;
use hdrhistogram::Histogram;
use std::alloc::{AllocError, Global};

/// The most steps of a distribution.
const MOST_STEPS: usize = 20;

/// By how many sixteenths of its lowest value a step is long, from the finest.
const LENGTHS: [u64; 9] = [1, 2, 4, 8, 16, 32, 64, 128, 256];

/// The most characters of a bar.
const MOST_CHARACTERS: u128 = 40;

/// A range of values, and how many numbers are in it.
#[derive(Clone, Copy)]
pub struct Step {
    pub lowest: u64,
    pub greatest: u64,
    pub count: u64,
}

/// Returns the end of a step, which is that of a class.
fn end_of(histogram: &Histogram<u64>, lowest: u64, sixteenths: u64) -> u64
    ensures { lowest ≤ result }
{
    let length = u128::from(lowest).saturating_mul(u128::from(sixteenths)) / 16;
    let length = u64::try_from(length).unwrap_or(u64::MAX);
    let last = lowest.saturating_add(length.saturating_sub(1));
    histogram.highest_equivalent(last)
}

/// Returns whether steps of a length lead from a value to another.
fn reaches(histogram: &Histogram<u64>, least: u64, greatest: u64, sixteenths: u64) -> bool {
    let mut lowest = least;
    for _ in 0..MOST_STEPS {
        let end = end_of(histogram, lowest, sixteenths);
        if end >= greatest {
            return true;
        }
        lowest = end + 1;
    }
    false
}

/// Returns the least length of steps that lead from a value to another.
fn length_of(histogram: &Histogram<u64>, least: u64, greatest: u64) -> u64 {
    for sixteenths in LENGTHS {
        if reaches(histogram, least, greatest, sixteenths) {
            return sixteenths;
        }
    }
    256
}

/// Returns the steps of the numbers of a histogram, of which these are the least and the greatest.
pub fn steps_of(
    alloc: Global,
    histogram: &Histogram<u64>,
    least: u64,
    greatest: u64,
) -> Result<Vec<Step>, AllocError>
    ensures few { IfOk result (λ steps. length steps.items ≤ 20) }
    ensures counts { IfOk result (λ steps. count_of steps.items ≡ histogram.now.total) }
    ensures own { (S : List ℕ) → StandsFor histogram.now S
        → IfOk result (λ steps. HaveOwn (resolution histogram.now) S steps.items) }
    ensures order { least ≤ greatest → IfOk result (λ steps. LeadTo least steps.items (greatest + 1)) }
{
    let sixteenths = length_of(histogram, least, greatest);
    let mut steps = Vec::new(alloc);
    let mut lowest = least;
    let mut below = 0u64;
    for _ in 1..MOST_STEPS {
        let end = end_of(histogram, lowest, sixteenths);
        if end >= greatest {
            break;
        }
        let count = count_begun(histogram, end).saturating_sub(below);
        steps.push(Step {
            lowest,
            greatest: end,
            count,
        })?;
        below += count;
        lowest = end + 1;
    }
    let count = histogram.len() - below;
    steps.push(Step {
        lowest,
        greatest,
        count,
    })?;
    Ok(steps)
}

/// Returns the range of values of a step.
fn range_of(
    alloc: Global,
    step: Step,
    decimals: u32,
    conversion: Conversion,
) -> Result<String, AllocError> {
    let lowest = conversion.decimal(alloc, u128::from(step.lowest), decimals)?;
    let greatest = conversion.decimal(alloc, u128::from(step.greatest), decimals)?;
    format!(in alloc; "{lowest}..{greatest}")
}

/// Appends a bar. That of the most numbers has `MOST_CHARACTERS`.
fn push_bar(text: &mut String, count: u64, most: u64) -> Result<(), AllocError> {
    let length = in_parts(u128::from(count), u128::from(most), MOST_CHARACTERS).unwrap_or(0);
    if length > 0 {
        text.push_str("  ")?;
    }
    for _ in 0..length {
        text.push('#')?;
    }
    Ok(())
}

/// Appends an empty line and the steps of a distribution: the range of values of each, how many
/// numbers are in it, and a bar for these. Without numbers nothing is appended.
pub fn push_bars(
    alloc: Global,
    text: &mut String,
    distribution: &Distribution,
    conversion: Conversion,
) -> Result<(), AllocError> {
    let histogram = &distribution.histogram;
    if histogram.is_empty() {
        return Ok(());
    }
    let steps = steps_of(alloc, histogram, distribution.min, distribution.max)?;
    let mut ranges = Vec::new(alloc);
    for step in &steps {
        ranges.push(range_of(alloc, *step, distribution.decimals, conversion)?)?;
    }
    push_steps(alloc, text, &steps, &ranges)
}

/// Appends an empty line, and a line for each step, which has this range.
fn push_steps(
    alloc: Global,
    text: &mut String,
    steps: &[Step],
    ranges: &[String],
) -> Result<(), AllocError> {
    let width = ranges.iter().map(|range| range.len()).max().unwrap_or(0);
    let most = steps.iter().map(|step| step.count).max().unwrap_or(0);
    let digits = format!(in alloc; "{most}")?.len();
    text.push('\n')?;
    for (step, range) in steps.iter().zip(ranges) {
        push_spaces(text, width.saturating_sub(range.len()))?;
        text.push_str(range.as_str())?;
        let count = step.count;
        push_right(text, format!(in alloc; "{count}")?.as_str(), digits)?;
        push_bar(text, count, most)?;
        text.push('\n')?;
    }
    Ok(())
}
