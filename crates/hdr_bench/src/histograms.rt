//! The values and the histograms that the workloads start with.

use hdrhistogram::Histogram;
use std::alloc::Global;

/// The highest value of each histogram: an hour in microseconds.
pub(crate) const HIGH: u64 = 3_600_000_000;

/// For histograms with 100 nonempty classes: the first of each `FEW` classes is filled.
pub(crate) const FEW: usize = 233;

/// Returns the next number of the generator, in 64 bits.
pub(crate) fn step(x: u64) -> u64 {
    let x = x ^ (x << 13);
    let x = x ^ (x >> 7);
    x ^ (x << 17)
}

/// Returns a value from 1 to `HIGH`, by a number of the generator.
pub(crate) fn value(x: u64) -> u64 {
    let part = (x >> 32) as u32;
    1 + ((u64::from(part) * HIGH) >> 32)
}

pub(crate) fn empty(alloc: Global) -> Option<Histogram<u64>> {
    Histogram::new_with_max(alloc, HIGH, 3).ok()
}

/// Returns a histogram in which each class up to the highest value holds 1 to 1024.
pub(crate) fn filled(alloc: Global, seed: u64) -> Option<Histogram<u64>> {
    filled_at_each(alloc, seed, 1)
}

/// Returns a histogram in which the first of each `every` classes up to the highest value holds 1
/// to 1024.
pub(crate) fn filled_at_each(alloc: Global, seed: u64, every: usize) -> Option<Histogram<u64>> {
    let mut histogram = empty(alloc)?;
    let mut x = seed;
    let mut value = 0;
    let mut skip: usize = 0;
    for _ in 0..histogram.distinct_values() {
        if value > HIGH {
            break;
        }
        if skip == 0 {
            skip = every;
            x = step(x);
            histogram.record_n(value, (x >> 54).saturating_add(1)).ok()?;
        }
        skip = skip.saturating_sub(1);
        value = histogram.next_non_equivalent(value);
    }
    Some(histogram)
}

/// Returns a histogram in which 100 classes hold 1 to 1024: 99 in a row from 1 ms on, and that of
/// the highest value.
pub(crate) fn sparse(alloc: Global, seed: u64) -> Option<Histogram<u64>> {
    let mut histogram = empty(alloc)?;
    let mut x = seed;
    let mut value = 1000;
    for _ in 0..99 {
        x = step(x);
        histogram.record_n(value, (x >> 54).saturating_add(1)).ok()?;
        value = histogram.next_non_equivalent(value);
    }
    histogram.record(HIGH).ok()?;
    Some(histogram)
}

/// A histogram in which one class in 235 holds 1 to 1024.
pub(crate) fn scattered(alloc: Global, seed: u64) -> Option<Histogram<u64>> {
    let mut histogram = empty(alloc)?;
    let mut x = seed;
    let mut value = 0;
    for class in 0..histogram.distinct_values() {
        if value > HIGH {
            break;
        }
        if class % 235 == 117 {
            x = step(x);
            histogram.record_n(value, (x >> 54).saturating_add(1)).ok()?;
        }
        value = histogram.next_non_equivalent(value);
    }
    Some(histogram)
}
