//! The figures of a distribution.

ghost use Rattle.std.specs.Prelude.{◌≡◌, ◌⊎◌, ◌+◌, ◌*◌, ◌/◌, ◌<◌, ℕ, Some, None, IfNone, IfSome};
ghost use Rattle.hdr_base.specs.Fractions.{Ratio};
ghost use Rattle.hdr_model.specs.Statistics.{mean};
ghost use Rattle.hdr_summary.specs.Decimals.{IsPast128, hundredths, nearest};

use crate::decimals::{Conversion, decimal, in_parts};
use crate::percentile::Percentile;
use hdr_input::Distribution;
use std::alloc::{AllocError, Global};

/// A figure and its name. If nothing was recorded, only the count has a value.
#[derive(Drop)]
pub struct Figure {
    pub name: String,
    pub value: Option<String>,
    /// The ends of its confidence interval, if it has one.
    pub ends: Option<EndTexts>,
}

/// The ends of a confidence interval, as far as the samples reach them.
#[derive(Clone, Copy)]
pub struct Ends {
    pub low: Option<u64>,
    pub high: Option<u64>,
}

/// The ends of a confidence interval, as they are printed.
#[derive(Drop)]
pub struct EndTexts {
    pub low: Option<String>,
    pub high: Option<String>,
}

/// A distribution, and the tag of its intervals.
#[derive(Drop)]
pub struct Tagged {
    pub tag: Option<String>,
    pub distribution: Distribution,
    /// The ends of the confidence interval of each percentile, or none if intervals are not printed.
    pub ends: Vec<Ends>,
}

/// Returns the mean in parts of a unit, halves rounded up, or `None` without numbers or on
/// overflow. It is that of the numbers, or that of their classes if only these are known.
pub fn mean_in_parts(distribution: &Distribution, parts: u128) -> Option<u128>
    ensures nearest { (sum : ℕ) → distribution.now.sum ≡ Some sum → IfSome result
        (λ n. n ≡ nearest sum distribution.now.histogram.total parts) }
    ensures fits { (sum : ℕ) → distribution.now.sum ≡ Some sum → IfNone result (0 < distribution.now.histogram.total
        → IsPast128 (sum * parts + distribution.now.histogram.total / 2)) }
    ensures classes { (m : Ratio) → distribution.now.sum ≡ None → mean distribution.now.histogram ≡ Some m
        → IfSome result (λ n. n ≡ nearest m.num m.den parts) }
{
    if distribution.histogram.is_empty() {
        return None;
    }
    match distribution.sum {
        Some(sum) => in_parts(sum, u128::from(distribution.histogram.len()), parts),
        None => {
            let mean = distribution.histogram.mean()?;
            in_parts(mean.num, mean.den, parts)
        }
    }
}

/// Returns the mean in hundredths of a unit of converted values, halves rounded up, or `None`
/// without numbers or on overflow.
pub fn converted_mean(distribution: &Distribution, conversion: Conversion) -> Option<u128>
    ensures nearest { (sum : ℕ) → distribution.now.sum ≡ Some sum → IfSome result (λ n. n
        ≡ nearest sum distribution.now.histogram.total (hundredths conversion distribution.now.decimals)) }
    ensures fits { (sum : ℕ) → distribution.now.sum ≡ Some sum → IfNone result (0 < distribution.now.histogram.total
        → IsPast128 (hundredths conversion distribution.now.decimals)
        ⊎ IsPast128 (sum * hundredths conversion distribution.now.decimals + distribution.now.histogram.total / 2)) }
    ensures classes { (m : Ratio) → distribution.now.sum ≡ None → mean distribution.now.histogram ≡ Some m
        → IfSome result (λ n. n ≡ nearest m.num m.den (hundredths conversion distribution.now.decimals)) }
{
    let parts = conversion.factor(distribution.decimals)?.checked_mul(100)?;
    mean_in_parts(distribution, parts)
}

/// Returns the mean, with two digits more than the values have.
fn mean(
    alloc: Global,
    distribution: &Distribution,
    conversion: Conversion,
) -> Result<Option<String>, AllocError> {
    match converted_mean(distribution, conversion) {
        Some(units) => {
            let decimals = conversion.decimals(distribution.decimals).saturating_add(2);
            Ok(Some(decimal(alloc, units, decimals)?))
        }
        None => Ok(None),
    }
}

/// Returns a value in units as a decimal, or `None` if nothing was recorded.
fn value(
    alloc: Global,
    distribution: &Distribution,
    units: u64,
    conversion: Conversion,
) -> Result<Option<String>, AllocError> {
    if distribution.histogram.is_empty() {
        return Ok(None);
    }
    let decimals = distribution.decimals;
    Ok(Some(conversion.decimal(alloc, u128::from(units), decimals)?))
}

/// Appends a figure.
fn push(
    alloc: Global,
    figures: &mut Vec<Figure>,
    name: &str,
    value: Option<String>,
) -> Result<(), AllocError> {
    let name = String::from_str(alloc, name)?;
    figures.push(Figure {
        name,
        value,
        ends: None,
    })?;
    Ok(())
}

/// Returns an end of a confidence interval as a decimal, if the samples reach it.
fn end_text(
    alloc: Global,
    end: Option<u64>,
    decimals: u32,
    conversion: Conversion,
) -> Result<Option<String>, AllocError> {
    match end {
        Some(units) => Ok(Some(conversion.decimal(alloc, u128::from(units), decimals)?)),
        None => Ok(None),
    }
}

/// Returns the ends of the confidence interval at an index as texts, if there is one.
fn end_texts(
    alloc: Global,
    part: &Tagged,
    index: usize,
    conversion: Conversion,
) -> Result<Option<EndTexts>, AllocError> {
    let Some(ends) = part.ends.get(index) else {
        return Ok(None);
    };
    let decimals = part.distribution.decimals;
    Ok(Some(EndTexts {
        low: end_text(alloc, ends.low, decimals, conversion)?,
        high: end_text(alloc, ends.high, decimals, conversion)?,
    }))
}

/// Appends a figure for each percentile.
fn push_percentiles(
    alloc: Global,
    figures: &mut Vec<Figure>,
    part: &Tagged,
    percentiles: &[Percentile<'_>],
    conversion: Conversion,
) -> Result<(), AllocError> {
    let distribution = &part.distribution;
    for (index, percentile) in percentiles.iter().enumerate() {
        let digits = percentile.digits;
        let name = format!(in alloc; "p{digits}")?;
        let units = distribution.value_at_quantile(percentile.quantile);
        let value = value(alloc, distribution, units, conversion)?;
        let ends = end_texts(alloc, part, index, conversion)?;
        figures.push(Figure { name, value, ends })?;
    }
    Ok(())
}

/// Returns the figures of a distribution: count, min, mean, the percentiles in their order, and
/// max.
pub fn figures(
    alloc: Global,
    part: &Tagged,
    percentiles: &[Percentile<'_>],
    conversion: Conversion,
) -> Result<Vec<Figure>, AllocError> {
    let distribution = &part.distribution;
    let mut figures = Vec::new(alloc);
    let count = distribution.histogram.len();
    let count = format!(in alloc; "{count}")?;
    push(alloc, &mut figures, "count", Some(count))?;
    let min = value(alloc, distribution, distribution.min, conversion)?;
    push(alloc, &mut figures, "min", min)?;
    let mean = mean(alloc, distribution, conversion)?;
    push(alloc, &mut figures, "mean", mean)?;
    push_percentiles(alloc, &mut figures, part, percentiles, conversion)?;
    let max = value(alloc, distribution, distribution.max, conversion)?;
    push(alloc, &mut figures, "max", max)?;
    Ok(figures)
}
