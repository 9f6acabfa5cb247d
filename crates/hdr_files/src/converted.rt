//! Logs whose values are converted to one scale, and whose samples are counted by the classes that they had
//! before.

use crate::errors::StatError;
use crate::files::Files;
use crate::logs::{read_intervals, read_stored};
use crate::names::FileNames;
use hdr_logs::{LogError, LogIntervals, LogSums, StoredInterval};
use hdr_runs::{LogCounts, LogLevels, Scaled};
use hdr_summary::figures::Tagged;
use hdr_summary::levels::{Measure, parse_level};
use hdrhistogram::Histogram;
use hdrhistogram::serialization::Deserializer;
use hdrhistogram::serialization::interval_log::IntervalChoice;
use std::alloc::{AllocError, Global};

/// The least and the greatest value of the classes of samples, in units of the scale.
#[derive(Clone, Copy)]
pub(crate) struct Extremes {
    min: u64,
    max: u64,
}

impl Extremes {
    /// The extremes of no samples.
    const NONE: Extremes = Extremes {
        min: u64::MAX,
        max: 0,
    };

    /// Returns the extremes of these samples and of those of a histogram, whose unit is `factor` units.
    fn with(self, histogram: &Histogram<u64>, factor: u64) -> Extremes {
        if histogram.is_empty() {
            return self;
        }
        Extremes {
            min: self.min.min(histogram.min().saturating_mul(factor)),
            max: self.max.max(histogram.max().saturating_mul(factor)),
        }
    }
}

/// Sets the extremes of distributions to those of classes, where there are samples.
pub(crate) fn set_extremes(parts: &mut [Tagged], extremes: &[Extremes]) {
    for (part, own) in parts.iter_mut().zip(extremes) {
        if own.min <= own.max {
            part.distribution.min = own.min;
            part.distribution.max = own.max;
        }
    }
}

/// Reads logs into sums, with their values in one scale, and counts their samples by the classes that they
/// had before. Returns the extremes of these classes for each sum.
///
/// # Errors
/// Returns a usage error if the logs have several units, the arguments ask for none, and a level has none.
pub(crate) fn count_converted(
    files: Files<'_, '_, '_>,
    choice: IntervalChoice<'_>,
    levels: LogLevels<'_, '_>,
    sums: &mut LogSums<'_>,
    counts: &mut LogCounts<'_, '_>,
) -> Result<Vec<Extremes>, StatError> {
    let alloc = files.alloc();
    let names = FileNames::none(alloc);
    let converted = read_intervals(files, choice, &names, false)?;
    let mut before = LogIntervals::new(alloc);
    read_stored(files, choice, &names, false, &mut before)?;
    if levels.asked.is_none() && have_several_units(&before) {
        require_units(alloc, levels.texts)?;
    }
    let factors = before
        .factors(alloc)
        .map_err(|cause| files.log_error(cause))?;
    let mut counting = Counting {
        alloc,
        deserializer: Deserializer::new(alloc),
        extremes: Vec::new(alloc),
    };
    let intervals = before.list.iter().zip(&converted.list);
    for ((before, converted), factor) in intervals.zip(&factors) {
        counting
            .count(before, converted, *factor, sums, counts)
            .map_err(|cause| files.log_error(cause))?;
    }
    Ok(counting.extremes)
}

/// Whether intervals have values in several units.
fn have_several_units(intervals: &LogIntervals) -> bool {
    let first = intervals.unit();
    intervals.list.iter().any(|interval| interval.unit != first)
}

/// Returns a usage error if a level of values is written without a unit.
fn require_units(alloc: Global, levels: &[&str]) -> Result<(), StatError> {
    for text in levels {
        // Without a unit of the values, only a level without one is parsed.
        let Some(level) = parse_level(*text, None) else {
            continue;
        };
        if !matches!(level.measure, Measure::Count) {
            return Err(StatError::usage(alloc, *text, "needs a unit, since the logs have several"));
        }
    }
    Ok(())
}

/// Counts the samples of intervals. Its memory is used again.
#[derive(Drop)]
struct Counting {
    alloc: Global,
    deserializer: Deserializer,
    extremes: Vec<Extremes>,
}

impl Counting {
    /// Adds a converted interval to the sum of its tag, and counts its samples. Before, its unit was
    /// `factor` units.
    fn count(
        &mut self,
        before: &StoredInterval,
        converted: &StoredInterval,
        factor: u64,
        sums: &mut LogSums<'_>,
        counts: &mut LogCounts<'_, '_>,
    ) -> Result<(), LogError> {
        let sum = sums.add_stored(self.alloc, converted)?;
        let own = before.histogram(&mut self.deserializer, None)?;
        let histogram = converted.histogram(&mut self.deserializer, None)?;
        self.add_extremes(sum, &own, factor)?;
        let samples = Scaled {
            histogram: &own,
            factor,
        };
        let decimals = converted.decimals.unwrap_or(0);
        counts.take_converted(sum, samples, &histogram, decimals, converted.unit)
    }

    /// Adds the extremes of a histogram to those of the sum at an index.
    fn add_extremes(
        &mut self,
        index: usize,
        histogram: &Histogram<u64>,
        factor: u64,
    ) -> Result<(), AllocError> {
        for _ in self.extremes.len()..index.saturating_add(1) {
            self.extremes.push(Extremes::NONE)?;
        }
        if let Some(extremes) = self.extremes.get_mut(index) {
            *extremes = extremes.with(histogram, factor);
        }
        Ok(())
    }
}
