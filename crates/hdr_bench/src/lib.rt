//! Workloads on numbers alone, which a benchmark times beside another program. Each call makes its
//! histograms, runs an operation `n` times and returns a checksum, or 0 if an allocation fails.
#![tactic(auto)]

ghost use Rattle.std.specs.Prelude.{◌<◌, ◌^◌, ◌≤◌};

mod bytes;
mod histograms;
mod log;
mod shapes;

use hdrhistogram::serialization::{Deserializer, V2Serializer};
use hdrhistogram::{Histogram, Quantile};
use histograms::{FEW, HIGH, empty, filled, filled_at_each, scattered, sparse, step, value};
use std::alloc::Global;

fn record(alloc: Global, seed: u64, n: u64) -> Option<u64> {
    let mut histogram = empty(alloc)?;
    let mut x = seed;
    for _ in 0..n {
        x = step(x);
        histogram.record(value(x)).ok()?;
    }
    Some(histogram.len().wrapping_add(histogram.max()))
}

/// Out of line, as `to_bytes` is, so that the code of other workloads does not move its loop.
#[inline(never)]
fn record_n_correct(alloc: Global, seed: u64, n: u64, interval: u64) -> Option<u64> {
    let mut histogram = empty(alloc)?;
    let mut x = seed;
    for _ in 0..n {
        x = step(x);
        let late = (HIGH / 2).saturating_add(value(x) / 2);
        histogram
            .record_n_correct(late, (x & 7).saturating_add(1), interval)
            .ok()?;
    }
    Some(histogram.len().wrapping_add(histogram.max()))
}

fn value_at_quantile(alloc: Global, seed: u64, n: u64, num: u64, den: u64) -> Option<u64> {
    let histogram = filled(alloc, seed)?;
    let quantile = Quantile::new(num, den)?;
    let mut sum: u64 = 0;
    for _ in 0..n {
        sum = sum.wrapping_add(histogram.value_at_quantile(quantile));
    }
    Some(sum)
}

fn add(alloc: Global, seed: u64, n: u64) -> Option<u64> {
    let mut sum = filled(alloc, seed)?;
    let source = filled(alloc, step(seed))?;
    for _ in 0..n {
        sum.add(&source).ok()?;
    }
    Some(sum.len())
}

#[inline(never)]
fn to_bytes(alloc: Global, seed: u64, n: u64) -> Option<u64> {
    let histogram = filled(alloc, seed)?;
    let mut serializer = V2Serializer::new(alloc);
    let mut sum: u64 = 0;
    for _ in 0..n {
        let bytes = serializer.to_bytes(&histogram).ok()?;
        let last = bytes.last()?;
        sum = sum
            .wrapping_add(bytes.len() as u64)
            .wrapping_add(u64::from(*last));
    }
    Some(sum)
}

#[inline(never)]
fn iter_recorded(alloc: Global, seed: u64, n: u64) -> Option<u64> {
    Some(sum_recorded(&filled(alloc, seed)?, n))
}

#[inline(never)]
fn iter_all(alloc: Global, seed: u64, n: u64) -> Option<u64> {
    let histogram = filled(alloc, seed)?;
    let mut sum: u64 = 0;
    for _ in 0..n {
        for item in histogram.iter_all() {
            sum = sum.wrapping_add(item.value_iterated_to() ^ item.count_at_value());
        }
    }
    Some(sum)
}

/// Passes over the nonempty bins: the sum of each value with its counter's bits turned by it.
fn sum_recorded(histogram: &Histogram<u64>, n: u64) -> u64 {
    let mut sum: u64 = 0;
    for _ in 0..n {
        for item in histogram.iter_recorded() {
            sum = sum.wrapping_add(item.value_iterated_to() ^ item.count_at_value());
        }
    }
    sum
}

#[inline(never)]
fn iter_recorded_few(alloc: Global, seed: u64, n: u64) -> Option<u64> {
    Some(sum_recorded(&sparse(alloc, seed)?, n))
}

#[inline(never)]
fn iter_recorded_apart(alloc: Global, seed: u64, n: u64) -> Option<u64> {
    Some(sum_recorded(&scattered(alloc, seed)?, n))
}

#[inline(never)]
fn iter_linear(alloc: Global, seed: u64, n: u64, width: u64) -> Option<u64> {
    let histogram = filled(alloc, seed)?;
    if width == 0 {
        return None;
    }
    let mut sum: u64 = 0;
    for _ in 0..n {
        for item in histogram.iter_linear(width) {
            sum = sum.wrapping_add(item.value_iterated_to() ^ item.count_since_last_iteration());
        }
    }
    Some(sum)
}

#[inline(never)]
fn iter_log(alloc: Global, seed: u64, n: u64) -> Option<u64> {
    let histogram = filled(alloc, seed)?;
    let mut sum: u64 = 0;
    for _ in 0..n {
        for item in histogram.iter_log(1, 2) {
            sum = sum.wrapping_add(item.value_iterated_to() ^ item.count_since_last_iteration());
        }
    }
    Some(sum)
}

#[inline(never)]
fn iter_quantiles(alloc: Global, seed: u64, n: u64) -> Option<u64> {
    let histogram = filled(alloc, seed)?;
    let mut sum: u64 = 0;
    for _ in 0..n {
        for item in histogram.iter_quantiles(5) {
            sum = sum.wrapping_add(item.value_iterated_to() ^ item.count_since_last_iteration());
        }
    }
    Some(sum)
}

/// Twenty quantiles: 1/20, 2/20, .. 20/20.
fn twentieths(alloc: Global) -> Option<Vec<Quantile>> {
    let mut quantiles = Vec::new(alloc);
    for num in 1..21 {
        quantiles.push(Quantile::new(num, 20)?).ok()?;
    }
    Some(quantiles)
}

#[inline(never)]
fn value_at_quantiles(alloc: Global, seed: u64, n: u64) -> Option<u64> {
    let histogram = filled(alloc, seed)?;
    let quantiles = twentieths(alloc)?;
    let mut sum: u64 = 0;
    for _ in 0..n {
        for value in histogram.value_at_quantiles(&quantiles) {
            sum = sum.wrapping_add(value);
        }
    }
    Some(sum)
}

#[inline(never)]
fn quantile_below(alloc: Global, seed: u64, n: u64) -> Option<u64> {
    let histogram = filled(alloc, seed)?;
    let mut x = seed;
    let mut sum: u64 = 0;
    for _ in 0..n {
        x = step(x);
        let quantile = histogram.quantile_below(HIGH >> (x & 31));
        sum = sum.wrapping_add(quantile.num as u64);
    }
    Some(sum)
}

#[inline(never)]
fn quantile_below_median(alloc: Global, seed: u64, n: u64) -> Option<u64> {
    let histogram = filled(alloc, seed)?;
    let median = histogram.value_at_quantile(Quantile::new(1, 2)?);
    let mut x = seed;
    let mut sum: u64 = 0;
    for _ in 0..n {
        x = step(x);
        let quantile = histogram.quantile_below(median.saturating_add(x & 1023));
        sum = sum.wrapping_add(quantile.num as u64);
    }
    Some(sum)
}

fn decode_slice(alloc: Global, seed: u64, n: u64, every: usize) -> Option<u64> {
    let histogram = filled_at_each(alloc, seed, every)?;
    let mut serializer = V2Serializer::new(alloc);
    let bytes = serializer.to_bytes(&histogram).ok()?;
    let mut deserializer = Deserializer::new(alloc);
    let mut sum: u64 = 0;
    for _ in 0..n {
        let (read, _) = deserializer.decode_slice::<u64>(bytes).ok()?;
        sum = sum.wrapping_add(read.len());
    }
    Some(sum)
}

/// The generator alone: the sum of `n` values.
#[unsafe(no_mangle)]
pub extern "C" fn hdrb_generate(seed: u64, n: u64) -> u64 {
    let mut x = seed;
    let mut sum: u64 = 0;
    for _ in 0..n {
        x = step(x);
        sum = sum.wrapping_add(value(x));
    }
    sum
}

/// `record`: the length and the greatest value.
#[unsafe(no_mangle)]
pub extern "C" fn hdrb_record(alloc: Global, seed: u64, n: u64) -> u64 {
    record(alloc, seed, n).unwrap_or(0)
}

/// `record_n_correct` of late values by an interval: the length and the greatest value.
#[unsafe(no_mangle)]
pub extern "C" fn hdrb_correct(alloc: Global, seed: u64, n: u64, interval: u64) -> u64 {
    record_n_correct(alloc, seed, n, interval).unwrap_or(0)
}

/// `value_at_quantile` of num/den: the sum of the results.
#[unsafe(no_mangle)]
pub extern "C" fn hdrb_quantile(alloc: Global, seed: u64, n: u64, num: u64, den: u64) -> u64 {
    value_at_quantile(alloc, seed, n, num, den).unwrap_or(0)
}

/// `add` of one histogram to another of its shape: the length.
#[unsafe(no_mangle)]
pub extern "C" fn hdrb_add(alloc: Global, seed: u64, n: u64) -> u64 {
    add(alloc, seed, n).unwrap_or(0)
}

/// `to_bytes`: the sum of each output's length and last byte.
#[unsafe(no_mangle)]
pub extern "C" fn hdrb_serialize(alloc: Global, seed: u64, n: u64) -> u64 {
    to_bytes(alloc, seed, n).unwrap_or(0)
}

/// Passes of `iter_recorded`: the sum of each value with its counter's bits turned by it.
#[unsafe(no_mangle)]
pub extern "C" fn hdrb_iter_recorded(alloc: Global, seed: u64, n: u64) -> u64 {
    iter_recorded(alloc, seed, n).unwrap_or(0)
}

/// Passes of `iter_all`, likewise.
#[unsafe(no_mangle)]
pub extern "C" fn hdrb_iter_all(alloc: Global, seed: u64, n: u64) -> u64 {
    iter_all(alloc, seed, n).unwrap_or(0)
}

/// Passes of `iter_recorded` over 100 filled bins, 99 of them in a row.
#[unsafe(no_mangle)]
pub extern "C" fn hdrb_iter_recorded_few(alloc: Global, seed: u64, n: u64) -> u64 {
    iter_recorded_few(alloc, seed, n).unwrap_or(0)
}

/// Passes of `iter_recorded` over 100 filled bins that lie apart.
#[unsafe(no_mangle)]
pub extern "C" fn hdrb_iter_recorded_apart(alloc: Global, seed: u64, n: u64) -> u64 {
    iter_recorded_apart(alloc, seed, n).unwrap_or(0)
}

/// Passes of `iter_linear` by a step: the sum of each level with the bits of its count turned by it.
#[unsafe(no_mangle)]
pub extern "C" fn hdrb_iter_linear(alloc: Global, seed: u64, n: u64, width: u64) -> u64 {
    iter_linear(alloc, seed, n, width).unwrap_or(0)
}

/// Passes of `iter_log` from 1 by 2, likewise.
#[unsafe(no_mangle)]
pub extern "C" fn hdrb_iter_log(alloc: Global, seed: u64, n: u64) -> u64 {
    iter_log(alloc, seed, n).unwrap_or(0)
}

/// Passes of `iter_quantiles` by 5 ticks, likewise.
#[unsafe(no_mangle)]
pub extern "C" fn hdrb_iter_quantiles(alloc: Global, seed: u64, n: u64) -> u64 {
    iter_quantiles(alloc, seed, n).unwrap_or(0)
}

/// `value_at_quantiles` of twenty quantiles: the sum of the results.
#[unsafe(no_mangle)]
pub extern "C" fn hdrb_values(alloc: Global, seed: u64, n: u64) -> u64 {
    value_at_quantiles(alloc, seed, n).unwrap_or(0)
}

/// `quantile_below` of the highest value and its halves: the sum of the counts.
#[unsafe(no_mangle)]
pub extern "C" fn hdrb_quantile_below(alloc: Global, seed: u64, n: u64) -> u64 {
    quantile_below(alloc, seed, n).unwrap_or(0)
}

/// `quantile_below` of values from the median on, likewise.
#[unsafe(no_mangle)]
pub extern "C" fn hdrb_quantile_below_median(alloc: Global, seed: u64, n: u64) -> u64 {
    quantile_below_median(alloc, seed, n).unwrap_or(0)
}

/// `decode_slice` of the bytes of a histogram with each class filled: the sum of the lengths.
#[unsafe(no_mangle)]
pub extern "C" fn hdrb_decode(alloc: Global, seed: u64, n: u64) -> u64 {
    decode_slice(alloc, seed, n, 1).unwrap_or(0)
}

/// `decode_slice` of the bytes of a histogram with 100 filled classes, likewise.
#[unsafe(no_mangle)]
pub extern "C" fn hdrb_decode_few(alloc: Global, seed: u64, n: u64) -> u64 {
    decode_slice(alloc, seed, n, FEW).unwrap_or(0)
}
