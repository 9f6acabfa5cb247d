//! The lines of a report: what its formats have in common.

use crate::change::Change;
use crate::point::Point;
use crate::report::{Compared, Pair, Report};
use crate::side::Side;
use crate::texts::ReportLayout;
use hdr_compare::{Tier, Verdict};
use hdr_summary::decimals::{Conversion, decimal};
use hdr_summary::percentile::Percentile;
use hdrhistogram::Quantile;
use std::alloc::{AllocError, Global};

/// A line of a report. What is not known has no text.
#[derive(Drop)]
pub(crate) struct Line<'a> {
    pub tag: Option<&'a str>,
    pub run: &'a str,
    pub figure: String,
    pub before: Texts,
    pub after: Texts,
    pub change: Texts,
    /// What is said of the change, and as how many independent samples it would be said, if the
    /// samples are too few.
    pub verdict: &'static str,
    pub needed: Option<u128>,
    /// As how many independent samples those of both runs count.
    pub independent: (Option<u64>, Option<u64>),
    /// Whether it is the line of a count, in which nothing stands for what is not known.
    pub is_count: bool,
}

/// A value and the ends of its interval.
#[derive(Drop)]
pub(crate) struct Texts {
    pub value: Option<String>,
    pub low: Option<String>,
    pub high: Option<String>,
}

impl Texts {
    /// No value.
    fn none() -> Texts {
        Texts {
            value: None,
            low: None,
            high: None,
        }
    }

    /// Returns the texts in their order.
    pub(crate) fn each(&self) -> [&Option<String>; 3] {
        [&self.value, &self.low, &self.high]
    }
}

/// Returns the lines of a report.
pub(crate) fn lines_of<'a>(
    alloc: Global,
    report: &'a Report<'_>,
    layout: &ReportLayout<'_>,
) -> Result<Vec<Line<'a>>, AllocError> {
    let mut lines = Vec::new(alloc);
    for pair in &report.pairs {
        lines.push(count_line(alloc, pair)?)?;
        for (compared, percentile) in pair.percentiles.iter().zip(layout.percentiles) {
            let figure = Figure {
                percentile,
                tier: report.tier,
                scale: (layout.conversion, pair.decimals),
            };
            lines.push(percentile_line(alloc, pair, compared, figure)?)?;
        }
    }
    Ok(lines)
}

/// Returns the line of the counts of samples.
fn count_line<'a>(alloc: Global, pair: &Pair<'a>) -> Result<Line<'a>, AllocError> {
    Ok(Line {
        tag: pair.tag,
        run: pair.run,
        figure: String::from_str(alloc, "count")?,
        before: count_of(alloc, pair.before)?,
        after: count_of(alloc, pair.after)?,
        change: Texts::none(),
        verdict: "",
        needed: None,
        independent: (None, None),
        is_count: true,
    })
}

/// Returns the number of samples of a run, 0 if it has none.
fn count_of(alloc: Global, side: Option<&Side>) -> Result<Texts, AllocError> {
    let count = match side {
        Some(side) => side.samples(),
        None => 0,
    };
    Ok(Texts {
        value: Some(format!(in alloc; "{count}")?),
        low: None,
        high: None,
    })
}

/// A percentile of a line, the confidence of its interval, how its values are converted to be
/// printed, and their decimals.
#[derive(Clone, Copy)]
struct Figure<'a> {
    percentile: &'a Percentile<'a>,
    tier: Tier,
    scale: (Conversion, u32),
}

/// Returns the line of a percentile.
fn percentile_line<'a>(
    alloc: Global,
    pair: &Pair<'a>,
    compared: &Compared,
    figure: Figure<'_>,
) -> Result<Line<'a>, AllocError> {
    let Figure {
        percentile,
        tier,
        scale,
    } = figure;
    let digits = percentile.digits;
    let (verdict, needed) = match &compared.change {
        Some(change) => verdict_of(change, percentile.quantile, tier),
        None => ("missing", None),
    };
    Ok(Line {
        tag: pair.tag,
        run: pair.run,
        figure: format!(in alloc; "p{digits}")?,
        before: point_texts(alloc, &compared.before, scale)?,
        after: point_texts(alloc, &compared.after, scale)?,
        change: change_texts(alloc, &compared.change)?,
        verdict,
        needed,
        independent: (
            independent_of(&compared.before),
            independent_of(&compared.after),
        ),
        is_count: false,
    })
}

/// Returns as how many independent samples those of a run count.
fn independent_of(point: &Option<Point>) -> Option<u64> {
    match point {
        Some(point) => Some(point.independent),
        None => None,
    }
}

/// Returns what is said of a change, and how many independent samples a percentile needs if they are
/// too few. The first and the last percentile have no such number.
fn verdict_of(change: &Change, quantile: Quantile, tier: Tier) -> (&'static str, Option<u128>) {
    match change.verdict {
        Verdict::Slower => ("slower", None),
        Verdict::Faster => ("faster", None),
        Verdict::Same => ("same", None),
        Verdict::TooFew if quantile.num() == 0 || quantile.num() >= quantile.den() => {
            ("too few", None)
        }
        Verdict::TooFew => ("too few", Some(tier.needed(quantile))),
    }
}

/// Returns the texts of a percentile and its interval.
fn point_texts(
    alloc: Global,
    point: &Option<Point>,
    scale: (Conversion, u32),
) -> Result<Texts, AllocError> {
    let Some(point) = point else {
        return Ok(Texts::none());
    };
    Ok(Texts {
        value: value_text(alloc, Some(point.measured.value), scale)?,
        low: value_text(alloc, point.measured.low, scale)?,
        high: value_text(alloc, point.measured.high, scale)?,
    })
}

/// Returns a value as a converted decimal, if there is one.
fn value_text(
    alloc: Global,
    value: Option<u64>,
    scale: (Conversion, u32),
) -> Result<Option<String>, AllocError> {
    let (conversion, decimals) = scale;
    match value {
        Some(value) => Ok(Some(conversion.decimal(alloc, u128::from(value), decimals)?)),
        None => Ok(None),
    }
}

/// Returns the texts of a change and its interval, in percent.
fn change_texts(alloc: Global, change: &Option<Change>) -> Result<Texts, AllocError> {
    let Some(change) = change else {
        return Ok(Texts::none());
    };
    Ok(Texts {
        value: percent_text(alloc, change.ratio)?,
        low: percent_text(alloc, change.least)?,
        high: percent_text(alloc, change.greatest)?,
    })
}

/// Returns a ratio in thousandths as the percentage of a change, such as `+20.0`, if there is one.
fn percent_text(alloc: Global, ratio: Option<u64>) -> Result<Option<String>, AllocError> {
    let Some(ratio) = ratio else {
        return Ok(None);
    };
    let (sign, tenths) = match ratio {
        0..=999 => ("-", 1_000 - ratio),
        1_000 => ("", 0),
        _ => ("+", ratio - 1_000),
    };
    let number = decimal(alloc, u128::from(tenths), 1)?;
    Ok(Some(format!(in alloc; "{sign}{number}")?))
}
