//! The percentile distribution of HdrHistogram, which its plotter reads.

use crate::decimals::{Conversion, decimal, in_parts};
use crate::figures::mean_in_parts;
use hdr_input::Distribution;
use hdrhistogram::{Histogram, IterationValue};
use std::alloc::{AllocError, Global};

/// The number of rows for each half of the distance to 1.
const TICKS: u32 = 5;

const HEAD: &str = "       Value     Percentile TotalCount 1/(1-Percentile)\n\n";

/// Returns a fraction with this number of decimals, or `-` on overflow.
fn fraction(alloc: Global, num: u128, den: u128, decimals: u32) -> Result<String, AllocError> {
    let parts = 10u128.checked_pow(decimals).unwrap_or(1);
    match in_parts(num, den, parts) {
        Some(number) => decimal(alloc, number, decimals),
        None => String::from_str(alloc, "-"),
    }
}

/// Returns a value in units with three decimals, or with all that it has if they are more.
fn value(
    alloc: Global,
    distribution: &Distribution,
    units: u64,
    conversion: Conversion,
) -> Result<String, AllocError> {
    let missing = 3u32.saturating_sub(distribution.decimals);
    let factor = 10u128.checked_pow(missing).unwrap_or(1);
    let decimals = distribution.decimals.max(3);
    conversion.decimal(alloc, u128::from(units).saturating_mul(factor), decimals)
}

/// Appends the percentile distribution: a row for each quantile iterated to, with a value, the
/// quantile, the number of samples up to that value, and 1/(1 - q).
pub fn push_hgrm(
    alloc: Global,
    text: &mut String,
    distribution: &Distribution,
    conversion: Conversion,
) -> Result<(), AllocError> {
    text.push_str(HEAD)?;
    let mut count = 0u64;
    for step in distribution.histogram.iter_quantiles(TICKS) {
        count = count.saturating_add(step.count_since_last_iteration());
        push_row(alloc, text, distribution, conversion, &step, count)?;
    }
    push_footer(alloc, text, distribution, conversion)
}

/// Appends the row of a step. No value is above the greatest number, and the last row has no
/// 1/(1 - q).
fn push_row(
    alloc: Global,
    text: &mut String,
    distribution: &Distribution,
    conversion: Conversion,
    step: &IterationValue<u64>,
    count: u64,
) -> Result<(), AllocError> {
    let units = step.value_iterated_to().min(distribution.max);
    let value = value(alloc, distribution, units, conversion)?;
    let quantile = step.quantile_iterated_to();
    let share = fraction(alloc, quantile.num, quantile.den, 12)?;
    if quantile.num >= quantile.den {
        return writeln!(text, "{value:>12} {share} {count:>10}");
    }
    let inverted = fraction(alloc, quantile.den, quantile.den - quantile.num, 2)?;
    writeln!(text, "{value:>12} {share} {count:>10} {inverted:>14}")
}

/// Returns the mean with three decimals, or with two more than the values have if those are more.
/// It is 0 without numbers.
fn mean(
    alloc: Global,
    distribution: &Distribution,
    conversion: Conversion,
) -> Result<Option<String>, AllocError> {
    let more = 3u32.saturating_sub(distribution.decimals).max(2);
    let parts = 10u128.checked_pow(more).unwrap_or(1);
    let decimals = distribution.decimals + more;
    match mean_in_parts(distribution, parts) {
        Some(units) => Ok(Some(conversion.decimal(alloc, units, decimals)?)),
        None if distribution.histogram.is_empty() => {
            Ok(Some(conversion.decimal(alloc, 0, decimals)?))
        }
        None => Ok(None),
    }
}

/// Appends the lines about all values.
fn push_footer(
    alloc: Global,
    text: &mut String,
    distribution: &Distribution,
    conversion: Conversion,
) -> Result<(), AllocError> {
    if let Some(mean) = mean(alloc, distribution, conversion)? {
        writeln!(text, "#[Mean    = {mean:>12}]")?;
    }
    let histogram = &distribution.histogram;
    let count = histogram.len();
    let max = if count > 0 { distribution.max } else { 0 };
    let max = value(alloc, distribution, max, conversion)?;
    writeln!(text, "#[Max     = {max:>12}, Total count    = {count:>12}]")?;
    let buckets = histogram.buckets();
    let classes = first_bucket(histogram);
    writeln!(
        text,
        "#[Buckets = {buckets:>12}, SubBuckets     = {classes:>12}]"
    )
}

/// Returns the number of classes of the first bucket. Each bucket after it adds half as many.
fn first_bucket(histogram: &Histogram<u64>) -> usize {
    let halves = usize::from(histogram.buckets()) + 1;
    histogram.distinct_values() / halves * 2
}
