//! Distributions, with the intervals of their percentiles.

use crate::errors::StatError;
use crate::files::{Files, or_standard_input};
use crate::log_runs::add_stored;
use crate::logs::{Parts, can_be_converted, parts_of, print_coarser, read_intervals};
use crate::names::FileNames;
use crate::numbers::{Form, read_groups, read_sink, require_most_lines, tag_of_group};
use crate::reading::Reading;
use hdr_compare::Batching;
use hdr_input::Recording;
use hdr_input::groups::GroupParts;
use hdr_logs::LogSums;
use hdr_runs::{BatchRecording, BatchTally, LogBatches, Samples, ends_of};
use hdr_summary::figures::{Ends, Tagged};
use hdr_summary::percentile::Percentile;
use hdrhistogram::serialization::interval_log::IntervalChoice;
use std::alloc::{AllocError, Global};

/// Returns the distributions of files, one or one for each tag, with the intervals of percentiles.
pub fn read_parts_with_ends(
    files: Files<'_, '_, '_>,
    reading: Reading<'_, '_>,
    percentiles: &[Percentile<'_>],
) -> Result<Parts, StatError> {
    match reading {
        Reading::Numbers { recording, form } => {
            read_number_parts(files, recording, form, percentiles)
        }
        Reading::Logs {
            choice,
            sigfig,
            is_by_tag,
        } => read_log_parts(files, sigfig, choice, is_by_tag, percentiles),
    }
}

/// Returns the distributions of numbers: of all, or of each group.
fn read_number_parts(
    files: Files<'_, '_, '_>,
    recording: Recording,
    form: Form<'_, '_>,
    percentiles: &[Percentile<'_>],
) -> Result<Parts, StatError> {
    let alloc = files.alloc();
    let maker = BatchRecording { recording };
    let mut list = Vec::new(alloc);
    let Some(columns) = form.groups() else {
        let tally = read_sink(files, maker, form)?;
        require_most_lines(tally.tally.numbers(), tally.tally.skipped)?;
        list.push(part_of_tally(alloc, None, tally, percentiles)?)?;
        return Ok(Parts { list, unit: None });
    };
    let groups = read_groups(files, maker, form, columns)?;
    let skipped = groups.skipped;
    let GroupParts { texts, sinks, .. } = groups;
    let mut numbers = 0u64;
    for (text, tally) in texts.as_slice().iter().zip(sinks) {
        numbers = numbers.saturating_add(tally.tally.numbers());
        let tag = tag_of_group(alloc, text)?;
        list.push(part_of_tally(alloc, tag, tally, percentiles)?)?;
    }
    require_most_lines(numbers, skipped)?;
    Ok(Parts { list, unit: None })
}

/// Returns the distribution of the numbers of a tag.
fn part_of_tally(
    alloc: Global,
    tag: Option<String>,
    tally: BatchTally,
    percentiles: &[Percentile<'_>],
) -> Result<Tagged, StatError> {
    let (distribution, samples) = tally.into_parts(alloc)?;
    let ends = ends_of(alloc, samples, percentiles)?;
    Ok(Tagged {
        tag,
        distribution,
        ends,
    })
}

/// Returns the sums of the chosen intervals of logs: one, or one for each tag.
fn read_log_parts(
    files: Files<'_, '_, '_>,
    sigfig: u8,
    choice: IntervalChoice<'_>,
    is_by_tag: bool,
    percentiles: &[Percentile<'_>],
) -> Result<Parts, StatError> {
    let alloc = files.alloc();
    let mut sums = LogSums::new(alloc, choice, sigfig, is_by_tag);
    let mut batches = LogBatches::new(alloc, sigfig);
    let read = read_logs_into(files, &mut sums, &mut batches);
    if can_be_converted(files, &read) {
        sums = LogSums::new(alloc, choice, sigfig, is_by_tag);
        batches = LogBatches::new(alloc, sigfig);
        add_converted_into(files, choice, &mut sums, &mut batches)?;
    } else {
        files.print_notes(sums.notes());
        read?;
    }
    print_coarser(files.rt, &sums, sigfig);
    let unit = sums.unit();
    let mut list = Vec::new(alloc);
    let parts = parts_of(alloc, sums, sigfig, is_by_tag)?;
    let mut batchings = batches.into_sums().into_iter();
    for part in parts {
        list.push(with_ends(alloc, part, batchings.next(), percentiles)?)?;
    }
    Ok(Parts { list, unit })
}

/// Returns the sum of a tag with the intervals of percentiles, by the batches of its intervals. They are
/// open if the tag has no interval.
fn with_ends(
    alloc: Global,
    mut part: Tagged,
    batching: Option<Batching>,
    percentiles: &[Percentile<'_>],
) -> Result<Tagged, StatError> {
    let Some(batching) = batching else {
        part.ends = no_ends(alloc, percentiles)?;
        return Ok(part);
    };
    let decimals = part.distribution.decimals;
    let samples = Samples::of_intervals(&part.distribution.histogram, batching, decimals)?;
    part.ends = ends_of(alloc, samples, percentiles)?;
    Ok(part)
}

/// Returns that the interval of each percentile is open.
fn no_ends(alloc: Global, percentiles: &[Percentile<'_>]) -> Result<Vec<Ends>, AllocError> {
    let mut ends = Vec::new(alloc);
    for _ in percentiles {
        ends.push(Ends {
            low: None,
            high: None,
        })?;
    }
    Ok(ends)
}

/// Reads logs into sums, and their intervals into batches.
fn read_logs_into(
    files: Files<'_, '_, '_>,
    sums: &mut LogSums<'_>,
    batches: &mut LogBatches,
) -> Result<(), StatError> {
    for (index, name) in or_standard_input(files.names).iter().enumerate() {
        let input = files.open(*name)?;
        sums.read_log_into(files.alloc(), index, input, batches)
            .map_err(|cause| files.log_error(cause))?;
    }
    Ok(())
}

/// Adds the intervals of logs to sums and to batches, with their values in one scale.
fn add_converted_into(
    files: Files<'_, '_, '_>,
    choice: IntervalChoice<'_>,
    sums: &mut LogSums<'_>,
    batches: &mut LogBatches,
) -> Result<(), StatError> {
    let intervals = read_intervals(files, choice, &FileNames::none(files.alloc()), false)?;
    for interval in &intervals.list {
        add_stored(files, sums, interval, batches)?;
    }
    Ok(())
}
