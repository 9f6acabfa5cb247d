//! The two logs of a page, compared.

use hdr_files::{Files, StatError, TagSamples, add_sums};
use hdr_logs::{LogIntervals, LogSums};
use hdr_page::{Comparison, TagSide};
use hdr_runs::{LogBatches, NamedRun, Report, ReportFormat, ReportLayout, Side};
use hdr_summary::decimals::Conversion;
use hdr_summary::percentile::Percentile;
use hdrhistogram::serialization::interval_log::{IntervalChoice, TagChoice};
use std::alloc::Global;

/// The significant digits of sums, which `hdrstat compare` has too.
const SIGFIG: u8 = 3;

/// What is between the tag of an interval and the name of its file, which has none.
const BEFORE_FILE_NAME: char = '@';

/// The samples of a log by tag, and the tags of its intervals, which end with the name of the file.
#[derive(Drop)]
struct LogRun {
    sides: Vec<Side>,
    tags: Vec<String>,
}

/// Compares the first two logs of intervals, whose tags are by file. Returns `None` if there are no
/// intervals, or too many tags or samples.
pub(crate) fn compared_logs(
    files: Files<'_, '_, '_>,
    intervals: &LogIntervals,
    percentiles: &[Percentile<'_>],
) -> Result<Option<Comparison>, StatError> {
    if intervals.list.is_empty() {
        return Ok(None);
    }
    match compare_logs(files, intervals, percentiles) {
        Ok(comparison) => Ok(Some(comparison)),
        Err(StatError::TooManySamples | StatError::TooManyComparisons) => Ok(None),
        Err(error) => Err(error),
    }
}

/// Compares the first two logs of intervals.
fn compare_logs(
    files: Files<'_, '_, '_>,
    intervals: &LogIntervals,
    percentiles: &[Percentile<'_>],
) -> Result<Comparison, StatError> {
    let alloc = files.alloc();
    let LogRun {
        sides: before,
        tags,
    } = run_of_log(files, intervals, 0)?;
    let LogRun {
        sides,
        tags: tags_after,
    } = run_of_log(files, intervals, 1)?;
    let mut runs = Vec::new(alloc);
    runs.push(NamedRun {
        name: "after",
        sides,
    })?;
    let mut comparison = comparison_of(alloc, &before, &runs, percentiles)?;
    push_sides(&mut comparison.sides, tags, before)?;
    if let Some(run) = runs.pop() {
        push_sides(&mut comparison.sides, tags_after, run.sides)?;
    }
    Ok(comparison)
}

/// Returns the samples of the log of an index, by tag.
fn run_of_log(
    files: Files<'_, '_, '_>,
    intervals: &LogIntervals,
    file: usize,
) -> Result<LogRun, StatError> {
    let alloc = files.alloc();
    let mut run = LogRun {
        sides: Vec::new(alloc),
        tags: Vec::new(alloc),
    };
    for TagSamples { tag, samples } in samples_of_log(files, intervals, file)? {
        let Some(tag) = tag else {
            continue;
        };
        let own = match tag.as_str().rsplit_once(BEFORE_FILE_NAME) {
            Some((own, _)) => Some(String::from_str(alloc, own)?),
            None => None,
        };
        run.sides.push(Side::new(alloc, own, samples)?)?;
        run.tags.push(tag)?;
    }
    Ok(run)
}

/// Returns the samples of the log of an index in batches, by tag. If intervals of it have fewer
/// significant digits than others, all have as few.
fn samples_of_log(
    files: Files<'_, '_, '_>,
    intervals: &LogIntervals,
    file: usize,
) -> Result<Vec<TagSamples>, StatError> {
    let alloc = files.alloc();
    let (sums, batches) = match sums_of_fewer_digits(files, intervals, file)? {
        Some(both) => both,
        None => sums_of_log(files, intervals, file, SIGFIG)?,
    };
    let mut tags = Vec::new(alloc);
    add_sums(alloc, &mut tags, sums, batches, true)?;
    Ok(tags)
}

/// Returns the sums and the batches of a log by the most significant digits that all of its intervals
/// have, or `None` if some differ in their unit.
fn sums_of_fewer_digits(
    files: Files<'_, '_, '_>,
    intervals: &LogIntervals,
    file: usize,
) -> Result<Option<(LogSums<'static>, LogBatches)>, StatError> {
    for sigfig in (0..=SIGFIG).rev() {
        let (sums, batches) = sums_of_log(files, intervals, file, sigfig)?;
        if sums.coarser == 0 {
            return Ok(Some((sums, batches)));
        }
    }
    Ok(None)
}

/// Returns the sums of the log of an index by tag, and its intervals in batches.
fn sums_of_log(
    files: Files<'_, '_, '_>,
    intervals: &LogIntervals,
    file: usize,
    sigfig: u8,
) -> Result<(LogSums<'static>, LogBatches), StatError> {
    let alloc = files.alloc();
    let every = IntervalChoice {
        tags: TagChoice::Every,
        from: None,
        to: None,
    };
    let mut sums = LogSums::new(alloc, every, sigfig, true);
    let mut batches = LogBatches::new(alloc, sigfig);
    for interval in &intervals.list {
        if interval.place.file == file {
            sums.add_stored_into(alloc, interval, &mut batches)
                .map_err(|cause| files.log_error(cause))?;
        }
    }
    Ok((sums, batches))
}

/// Whether a run has a tag.
fn have_tags(sides: &[Side]) -> bool {
    sides.iter().any(|side| side.tag.is_some())
}

/// Returns runs and the one before them in the texts of `hdrstat compare`, without their samples.
fn comparison_of(
    alloc: Global,
    before: &[Side],
    runs: &[NamedRun<'_>],
    percentiles: &[Percentile<'_>],
) -> Result<Comparison, StatError> {
    let has_tags = have_tags(before) || runs.iter().any(|run| have_tags(&run.sides));
    let layout = ReportLayout {
        format: ReportFormat::Table,
        percentiles,
        has_tags,
        has_runs: false,
        conversion: Conversion::NONE,
    };
    let report = Report::new(alloc, before, runs, percentiles)?;
    Ok(Comparison {
        rows: report.rows(alloc, &layout)?,
        lines: report.text(alloc, &layout)?,
        footer: report.footer(alloc, before, runs, &layout, false)?,
        names: 1 + usize::from(has_tags),
        sides: Vec::new(alloc),
    })
}

/// Adds the samples of a run, with the tags of its intervals.
fn push_sides(
    all: &mut Vec<TagSide>,
    tags: Vec<String>,
    sides: Vec<Side>,
) -> Result<(), StatError> {
    for (tag, side) in tags.into_iter().zip(sides) {
        all.push(TagSide { tag, side })?;
    }
    Ok(())
}
