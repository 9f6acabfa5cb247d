//! Metrics in the text format that Prometheus, OpenMetrics and the collector of a node's text files
//! read.

use crate::decimals::{decimal, without_zeros};
use crate::figures::Tagged;
use crate::formats::Layout;
use crate::percentile::Percentile;
use hdr_input::Distribution;
use std::alloc::{AllocError, Global};

const HEAD: &str = "# HELP hdrstat_value Values by quantile.\n# TYPE hdrstat_value summary\n";

/// The names of the extremes, and their help.
const MIN: (&str, &str) = ("hdrstat_value_min", "The least value.");

const MAX: (&str, &str) = ("hdrstat_value_max", "The greatest value.");

/// Appends a text as the value of a label.
fn push_escaped(text: &mut String, label: &str) -> Result<(), AllocError> {
    for letter in label.chars() {
        match letter {
            '\\' => text.push_str("\\\\")?,
            '"' => text.push_str("\\\"")?,
            '\n' => text.push_str("\\n")?,
            letter => text.push(letter)?,
        }
    }
    Ok(())
}

/// Appends labels: the tag, if there is one, and the quantile.
fn push_labels(text: &mut String, part: &Tagged, quantile: Option<&str>) -> Result<(), AllocError> {
    let mut before = "{";
    if let Some(tag) = &part.tag {
        text.push_str("{tag=\"")?;
        push_escaped(text, tag.as_str())?;
        text.push('"')?;
        before = ",";
    }
    if let Some(quantile) = quantile {
        text.push_str(before)?;
        write!(text, "quantile=\"{quantile}\"")?;
        before = ",";
    }
    if before == "," {
        text.push('}')?;
    }
    Ok(())
}

/// Returns a percentile as a quantile, such as `0.999`.
fn quantile_text(alloc: Global, percentile: &Percentile<'_>) -> Result<String, AllocError> {
    let num = percentile.quantile.num();
    let decimals = percentile.decimals();
    let text = decimal(alloc, u128::from(num), decimals)?;
    String::from_str(alloc, without_zeros(text.as_str()))
}

/// Whether two percentiles name one quantile.
fn have_one_quantile(one: &Percentile<'_>, other: &Percentile<'_>) -> bool {
    u128::from(one.quantile.num()) * u128::from(other.quantile.den())
        == u128::from(other.quantile.num()) * u128::from(one.quantile.den())
}

/// Appends a line for each quantile that percentiles name.
fn push_quantiles(
    alloc: Global,
    text: &mut String,
    part: &Tagged,
    layout: &Layout<'_>,
) -> Result<(), AllocError> {
    let distribution = &part.distribution;
    for (index, percentile) in layout.percentiles.iter().enumerate() {
        let mut percentiles = layout.percentiles.iter();
        let first = percentiles.position(|one| have_one_quantile(one, percentile));
        if first != Some(index) {
            continue;
        }
        let quantile = quantile_text(alloc, percentile)?;
        text.push_str("hdrstat_value")?;
        push_labels(text, part, Some(quantile.as_str()))?;
        let units = u128::from(distribution.value_at_quantile(percentile.quantile));
        push_value(alloc, text, distribution, units, layout)?;
    }
    Ok(())
}

/// Appends a line with a value.
fn push_value(
    alloc: Global,
    text: &mut String,
    distribution: &Distribution,
    units: u128,
    layout: &Layout<'_>,
) -> Result<(), AllocError> {
    let value = layout
        .conversion
        .decimal(alloc, units, distribution.decimals)?;
    writeln!(text, " {value}")
}

/// Appends the quantiles, the sum if it is exact, and the count of a distribution.
fn push_summary(
    alloc: Global,
    text: &mut String,
    part: &Tagged,
    layout: &Layout<'_>,
) -> Result<(), AllocError> {
    let distribution = &part.distribution;
    if !distribution.histogram.is_empty() {
        push_quantiles(alloc, text, part, layout)?;
    }
    if let Some(sum) = distribution.sum {
        text.push_str("hdrstat_value_sum")?;
        push_labels(text, part, None)?;
        push_value(alloc, text, distribution, sum, layout)?;
    }
    let count = distribution.histogram.len();
    text.push_str("hdrstat_value_count")?;
    push_labels(text, part, None)?;
    writeln!(text, " {count}")
}

/// Appends a gauge with a value of each distribution that has numbers.
fn push_gauge(
    alloc: Global,
    text: &mut String,
    parts: &[Tagged],
    layout: &Layout<'_>,
    gauge: (&str, &str),
    is_max: bool,
) -> Result<(), AllocError> {
    let (name, help) = gauge;
    write!(text, "# HELP {name} {help}\n# TYPE {name} gauge\n")?;
    for part in parts {
        let distribution = &part.distribution;
        if !distribution.histogram.is_empty() {
            let units = if is_max {
                distribution.max
            } else {
                distribution.min
            };
            text.push_str(name)?;
            push_labels(text, part, None)?;
            push_value(alloc, text, distribution, u128::from(units), layout)?;
        }
    }
    Ok(())
}

/// Appends the metrics of distributions.
pub(crate) fn push_metrics(
    alloc: Global,
    text: &mut String,
    parts: &[Tagged],
    layout: &Layout<'_>,
) -> Result<(), AllocError> {
    text.push_str(HEAD)?;
    for part in parts {
        push_summary(alloc, text, part, layout)?;
    }
    push_gauge(alloc, text, parts, layout, MIN, false)?;
    push_gauge(alloc, text, parts, layout, MAX, true)?;
    text.push_str("# EOF\n")
}
