//! The library's operations on histograms of the caller's samples.

use hdrhistogram::serialization::{Deserializer, V2Serializer};
use hdrhistogram::{Histogram, Quantile};
use std::alloc::Global;

/// The interval of corrections, the step of linear levels, and a value in the middle, in microseconds.
const MIDDLE: u64 = 1000;

/// The samples, and the histogram that counts them: of values up to `high`, or one that grows if
/// `high` is 0.
#[derive(Drop)]
struct Shape<'a> {
    alloc: Global,
    sigfig: u8,
    high: u64,
    samples: &'a [u64],
}

impl<'a> Shape<'a> {
    fn empty(&self) -> Option<Histogram<u64>> {
        match self.high {
            0 => Histogram::new(self.alloc, self.sigfig).ok(),
            high => Histogram::new_with_max(self.alloc, high, self.sigfig).ok(),
        }
    }

    fn filled(&self) -> Option<Histogram<u64>> {
        let mut histogram = self.empty()?;
        for sample in self.samples {
            histogram.record(*sample).ok()?;
        }
        Some(histogram)
    }
}

fn record(shape: &Shape<'_>, n: u64) -> Option<u64> {
    let mut histogram = shape.filled()?;
    for _ in 0..n {
        for sample in shape.samples {
            histogram.record(*sample).ok()?;
        }
    }
    Some(histogram.len())
}

fn saturating_record(shape: &Shape<'_>, n: u64) -> Option<u64> {
    let mut histogram = shape.filled()?;
    for _ in 0..n {
        for sample in shape.samples {
            histogram.saturating_record(sample.wrapping_mul(64));
        }
    }
    Some(histogram.len())
}

fn record_correct(shape: &Shape<'_>, n: u64) -> Option<u64> {
    let mut histogram = shape.filled()?;
    for _ in 0..n {
        for sample in shape.samples {
            histogram.record_correct(*sample, MIDDLE).ok()?;
        }
    }
    Some(histogram.len())
}

fn reset(shape: &Shape<'_>, n: u64) -> Option<u64> {
    let mut histogram = shape.filled()?;
    let mut sum: u64 = 0;
    for _ in 0..n {
        histogram.reset();
        for sample in shape.samples {
            histogram.record(*sample).ok()?;
        }
        sum = sum.wrapping_add(histogram.max());
    }
    Some(sum)
}

fn value_at_quantile(shape: &Shape<'_>, n: u64, num: u64) -> Option<u64> {
    let histogram = shape.filled()?;
    let quantile = Quantile::new(num, 100)?;
    let mut sum: u64 = 0;
    for _ in 0..n {
        sum = sum.wrapping_add(histogram.value_at_quantile(quantile));
    }
    Some(sum)
}

fn value_at_quantiles(shape: &Shape<'_>, n: u64) -> Option<u64> {
    let histogram = shape.filled()?;
    let mut quantiles = Vec::new(shape.alloc);
    for num in 1..21 {
        quantiles.push(Quantile::new(num, 20)?).ok()?;
    }
    let mut sum: u64 = 0;
    for _ in 0..n {
        for value in histogram.value_at_quantiles(&quantiles) {
            sum = sum.wrapping_add(value);
        }
    }
    Some(sum)
}

fn quantile_below(shape: &Shape<'_>, n: u64) -> Option<u64> {
    let histogram = shape.filled()?;
    let mut sum: u64 = 0;
    for _ in 0..n {
        sum = sum.wrapping_add(histogram.quantile_below(MIDDLE).num as u64);
    }
    Some(sum)
}

fn count_between(shape: &Shape<'_>, n: u64) -> Option<u64> {
    let histogram = shape.filled()?;
    let mut sum: u64 = 0;
    for _ in 0..n {
        sum = sum.wrapping_add(histogram.count_between(MIDDLE, MIDDLE * 10));
    }
    Some(sum)
}

fn mean(shape: &Shape<'_>, n: u64) -> Option<u64> {
    let histogram = shape.filled()?;
    let mut sum: u64 = 0;
    for _ in 0..n {
        sum = sum.wrapping_add(u64::try_from(histogram.mean()?.num).ok()?);
    }
    Some(sum)
}

fn clone(shape: &Shape<'_>, n: u64) -> Option<u64> {
    let histogram = shape.filled()?;
    let mut sum: u64 = 0;
    for _ in 0..n {
        sum = sum.wrapping_add(histogram.clone().ok()?.len());
    }
    Some(sum)
}

fn clone_correct(shape: &Shape<'_>, n: u64) -> Option<u64> {
    let histogram = shape.filled()?;
    let mut sum: u64 = 0;
    for _ in 0..n {
        sum = sum.wrapping_add(histogram.clone_correct(MIDDLE).ok()?.len());
    }
    Some(sum)
}

fn compare(shape: &Shape<'_>, n: u64) -> Option<u64> {
    let histogram = shape.filled()?;
    let other = shape.filled()?;
    let mut sum: u64 = 0;
    for _ in 0..n {
        sum = sum.wrapping_add(u64::from(histogram == other));
    }
    Some(sum)
}

fn add(shape: &Shape<'_>, n: u64) -> Option<u64> {
    let source = shape.filled()?;
    let mut histogram = shape.filled()?;
    for _ in 0..n {
        histogram.add(&source).ok()?;
    }
    Some(histogram.len())
}

/// Adds to a histogram of more bins.
fn add_to_wider(shape: &Shape<'_>, n: u64) -> Option<u64> {
    let source = shape.filled()?;
    let mut histogram: Histogram<u64> = Histogram::new_with_max(
        shape.alloc,
        u64::MAX,
        shape.sigfig,
    ).ok()?;
    for _ in 0..n {
        histogram.add(&source).ok()?;
    }
    Some(histogram.len())
}

/// Adds to a histogram of fewer digits.
fn add_to_coarser(shape: &Shape<'_>, n: u64) -> Option<u64> {
    let source = shape.filled()?;
    let mut histogram: Histogram<u64> = Histogram::new_with_max(
        shape.alloc,
        u64::MAX,
        shape.sigfig.saturating_sub(1),
    ).ok()?;
    for _ in 0..n {
        histogram.add(&source).ok()?;
    }
    Some(histogram.len())
}

/// Adds, and subtracts the same.
fn subtract(shape: &Shape<'_>, n: u64) -> Option<u64> {
    let source = shape.filled()?;
    let mut histogram = shape.filled()?;
    for _ in 0..n {
        histogram.add(&source).ok()?;
        histogram.subtract(&source).ok()?;
    }
    Some(histogram.len())
}

fn to_bytes(shape: &Shape<'_>, n: u64) -> Option<u64> {
    let histogram = shape.filled()?;
    let mut serializer = V2Serializer::new(shape.alloc);
    let mut sum: u64 = 0;
    for _ in 0..n {
        sum = sum.wrapping_add(serializer.to_bytes(&histogram).ok()?.len() as u64);
    }
    Some(sum)
}

fn decode_slice(shape: &Shape<'_>, n: u64) -> Option<u64> {
    let histogram = shape.filled()?;
    let mut serializer = V2Serializer::new(shape.alloc);
    let bytes = serializer.to_bytes(&histogram).ok()?;
    let mut deserializer = Deserializer::new(shape.alloc);
    let mut sum: u64 = 0;
    for _ in 0..n {
        let (histogram, _) = deserializer.decode_slice::<u64>(bytes).ok()?;
        sum = sum.wrapping_add(histogram.len());
    }
    Some(sum)
}

fn new_with_max(shape: &Shape<'_>, n: u64) -> Option<u64> {
    let mut sum: u64 = 0;
    for _ in 0..n {
        sum = sum.wrapping_add(shape.empty()?.distinct_values() as u64);
    }
    Some(sum)
}

fn iter_all(shape: &Shape<'_>, n: u64) -> Option<u64> {
    let histogram = shape.filled()?;
    let mut sum: u64 = 0;
    for _ in 0..n {
        for item in histogram.iter_all() {
            sum = sum.wrapping_add(item.value_iterated_to() ^ item.count_at_value());
        }
    }
    Some(sum)
}

fn iter_recorded(shape: &Shape<'_>, n: u64) -> Option<u64> {
    let histogram = shape.filled()?;
    let mut sum: u64 = 0;
    for _ in 0..n {
        for item in histogram.iter_recorded() {
            sum = sum.wrapping_add(item.value_iterated_to() ^ item.count_at_value());
        }
    }
    Some(sum)
}

fn iter_linear(shape: &Shape<'_>, n: u64) -> Option<u64> {
    let histogram = shape.filled()?;
    let mut sum: u64 = 0;
    for _ in 0..n {
        for item in histogram.iter_linear(MIDDLE) {
            sum = sum.wrapping_add(item.value_iterated_to() ^ item.count_since_last_iteration());
        }
    }
    Some(sum)
}

fn iter_log(shape: &Shape<'_>, n: u64) -> Option<u64> {
    let histogram = shape.filled()?;
    let mut sum: u64 = 0;
    for _ in 0..n {
        for item in histogram.iter_log(1, 2) {
            sum = sum.wrapping_add(item.value_iterated_to() ^ item.count_since_last_iteration());
        }
    }
    Some(sum)
}

fn iter_quantiles(shape: &Shape<'_>, n: u64) -> Option<u64> {
    let histogram = shape.filled()?;
    let mut sum: u64 = 0;
    for _ in 0..n {
        for item in histogram.iter_quantiles(5) {
            sum = sum.wrapping_add(item.value_iterated_to() ^ item.count_since_last_iteration());
        }
    }
    Some(sum)
}

fn run(shape: &Shape<'_>, operation: u64, n: u64) -> Option<u64> {
    match operation {
        0 => record(shape, n),
        1 => saturating_record(shape, n),
        2 => record_correct(shape, n),
        3 => reset(shape, n),
        4 => value_at_quantile(shape, n, 50),
        5 => value_at_quantile(shape, n, 99),
        6 => value_at_quantiles(shape, n),
        7 => quantile_below(shape, n),
        8 => count_between(shape, n),
        9 => mean(shape, n),
        10 => clone(shape, n),
        11 => clone_correct(shape, n),
        12 => compare(shape, n),
        13 => add(shape, n),
        14 => add_to_wider(shape, n),
        15 => add_to_coarser(shape, n),
        16 => subtract(shape, n),
        17 => to_bytes(shape, n),
        18 => decode_slice(shape, n),
        19 => new_with_max(shape, n),
        20 => iter_all(shape, n),
        21 => iter_recorded(shape, n),
        22 => iter_linear(shape, n),
        23 => iter_log(shape, n),
        24 => iter_quantiles(shape, n),
        _ => None,
    }
}

/// Runs an operation `n` times on a histogram of the samples. Returns a checksum, or 0 if an
/// operation or an allocation fails.
#[unsafe(no_mangle)]
pub extern "C" fn hdrb_shape(
    alloc: Global,
    operation: u64,
    sigfig: u8,
    high: u64,
    samples: &[u64],
    n: u64,
) -> u64 {
    let shape = Shape {
        alloc,
        sigfig,
        high,
        samples,
    };
    run(&shape, operation, n).unwrap_or(0)
}
