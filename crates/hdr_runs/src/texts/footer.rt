//! What is said below a report: its confidence, and what it cannot see.

use crate::point::Point;
use crate::report::{NamedRun, Pair, Report};
use crate::side::Side;
use crate::texts::ReportLayout;
use hdr_compare::Tier;
use hdr_input::push_visible;
use std::alloc::{AllocError, Global};

/// What is said of runs of which there is one each.
const SINGLE_RUNS: &str = "\
What changes from run to run by itself is not seen in one run of each: --with compares 4 or more of each.\n";

/// What is said of runs whose values have different numbers of decimals in one unit.
const OTHER_DECIMALS: &str = "\
Runs have values of different decimals or units: what was rounded is taken as exact.\n";

/// Returns the confidence of intervals, in percent.
pub(crate) fn confidence_of(tier: Tier) -> &'static str {
    match tier {
        Tier::FivePercent => "95",
        Tier::OnePercent => "99",
        Tier::OneInThousand => "99.9",
        Tier::OneInTenThousand => "99.99",
        Tier::OneInHundredThousand => "99.999",
    }
}

/// A percentile whose samples count as few independent ones.
#[derive(Clone, Copy)]
struct Fraction<'a, 'p> {
    independent: u64,
    samples: u64,
    /// The percentile, the name of the run, and the tag.
    digits: &'p str,
    run: &'a str,
    tag: Option<&'a str>,
}

impl Fraction<'_, '_> {
    /// Whether fewer of the samples count than of another one.
    fn is_below(&self, other: &Fraction<'_, '_>) -> bool {
        let (independent, samples) = (self.independent, self.samples);
        let (others, all) = (other.independent, other.samples);
        u128::from(independent) * u128::from(all) < u128::from(others) * u128::from(samples)
    }

    /// Whether the samples count as fewer than half as many independent ones.
    fn is_below_half(&self) -> bool {
        let (independent, samples) = (self.independent, self.samples);
        2 * u128::from(independent) < u128::from(samples)
    }
}

impl Report<'_> {
    /// Returns what is said below a report: its confidence, the percentile whose samples count as
    /// the fewest independent ones, and which samples have no order of time. If `has_several` runs
    /// are on each side, what changes from run to run is in the intervals.
    pub fn footer(
        &self,
        alloc: Global,
        before: &[Side],
        runs: &[NamedRun<'_>],
        layout: &ReportLayout<'_>,
        has_several: bool,
    ) -> Result<String, AllocError> {
        let mut text = String::new(alloc);
        let confidence = confidence_of(self.tier);
        write!(
            text,
            "Intervals of {confidence} %: of 20 such reports on equal runs, at most 1 has a false verdict.\n"
        )?;
        if !has_several {
            text.push_str(SINGLE_RUNS)?;
        }
        if self.pairs.iter().any(|pair| have_other_decimals(pair)) {
            text.push_str(OTHER_DECIMALS)?;
        }
        if let Some(fraction) = self.least_fraction(layout) {
            if fraction.is_below_half() {
                push_fraction(&mut text, fraction, layout)?;
            }
        }
        push_orders(&mut text, "before", before, layout)?;
        for run in runs {
            push_orders(&mut text, run.name, &run.sides, layout)?;
        }
        Ok(text)
    }

    /// Returns the percentile whose samples count as the smallest fraction of independent ones, the
    /// first of equal ones.
    fn least_fraction<'a, 'p>(&'a self, layout: &ReportLayout<'p>) -> Option<Fraction<'a, 'p>> {
        let mut least = None;
        for pair in &self.pairs {
            least = least_of_pair(least, pair, layout);
        }
        least
    }
}

/// Whether the values of two runs have different numbers of decimals.
fn have_other_decimals(pair: &Pair<'_>) -> bool {
    match (pair.before, pair.after) {
        (Some(before), Some(after)) => before.decimals() != after.decimals(),
        _ => false,
    }
}

/// Returns the smallest fraction of those so far and of two runs.
fn least_of_pair<'a, 'p>(
    least: Option<Fraction<'a, 'p>>,
    pair: &'a Pair<'_>,
    layout: &ReportLayout<'p>,
) -> Option<Fraction<'a, 'p>> {
    let mut least = least;
    for (compared, percentile) in pair.percentiles.iter().zip(layout.percentiles) {
        let (Some(before), Some(after)) = (&compared.before, &compared.after) else {
            continue;
        };
        let digits = percentile.digits;
        least = lesser(
            least,
            fraction_of("before", before, pair.before, pair.tag, digits),
        );
        least = lesser(
            least,
            fraction_of(pair.run, after, pair.after, pair.tag, digits),
        );
    }
    least
}

/// Returns how many samples of a percentile count as independent ones.
fn fraction_of<'a, 'p>(
    run: &'a str,
    point: &Point,
    side: Option<&Side>,
    tag: Option<&'a str>,
    digits: &'p str,
) -> Fraction<'a, 'p> {
    Fraction {
        independent: point.independent,
        samples: match side {
            Some(side) => side.samples(),
            None => point.independent,
        },
        digits,
        run,
        tag,
    }
}

/// Returns the smaller of two fractions, the first one if they are equal.
fn lesser<'a, 'p>(
    first: Option<Fraction<'a, 'p>>,
    other: Fraction<'a, 'p>,
) -> Option<Fraction<'a, 'p>> {
    match first {
        Some(first) if !other.is_below(&first) => Some(first),
        _ => Some(other),
    }
}

/// Appends as how many independent samples those of a percentile count.
fn push_fraction(
    text: &mut String,
    fraction: Fraction<'_, '_>,
    layout: &ReportLayout<'_>,
) -> Result<(), AllocError> {
    let digits = fraction.digits;
    write!(text, "p{digits} of ")?;
    push_name(text, fraction.run, fraction.tag, layout)?;
    let (samples, independent) = (fraction.samples, fraction.independent);
    write!(
        text,
        ": its {samples} samples count as {independent} independent ones.\n"
    )
}

/// Appends which samples of a run have no order of time.
fn push_orders(
    text: &mut String,
    run: &str,
    sides: &[Side],
    layout: &ReportLayout<'_>,
) -> Result<(), AllocError> {
    for side in sides {
        if let Some(note) = side.order.note() {
            let tag = match &side.tag {
                Some(tag) => Some(tag.as_str()),
                None => None,
            };
            push_name(text, run, tag, layout)?;
            text.push(' ')?;
            text.push_str(note)?;
            text.push('\n')?;
        }
    }
    Ok(())
}

/// Appends the name of a run, and its tag if tags are printed.
fn push_name(
    text: &mut String,
    run: &str,
    tag: Option<&str>,
    layout: &ReportLayout<'_>,
) -> Result<(), AllocError> {
    push_visible(text, run)?;
    if let Some(tag) = tag {
        if layout.has_tags {
            text.push(' ')?;
            push_visible(text, tag)?;
        }
    }
    Ok(())
}
