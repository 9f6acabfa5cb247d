//! The runs of logs: their chosen intervals in batches.

use crate::errors::StatError;
use crate::files::{Files, or_standard_input};
use crate::logs::{can_be_converted, print_coarser, push_coarser, push_notes, read_intervals};
use crate::names::FileNames;
use crate::output::print_error_line;
use crate::runs::{RunSides, are_equal, sides_of};
use hdr_input::Unit;
use hdr_logs::{LogSums, StoredInterval, TagSum};
use hdr_runs::{LogBatches, Order, Samples};
use hdrhistogram::serialization::interval_log::IntervalChoice;
use std::alloc::Global;

/// The samples of a tag of logs.
#[derive(Drop)]
pub struct TagSamples {
    pub tag: Option<String>,
    pub samples: Samples,
}

/// What was read of the logs of a run.
#[derive(Drop)]
struct LogRun {
    tags: Vec<TagSamples>,
    unit: Option<Unit>,
    /// How many intervals have fewer significant digits, or a greater unit.
    coarser: u64,
}

impl LogRun {
    /// Returns the samples by tag.
    fn into_sides(self, files: Files<'_, '_, '_>) -> Result<RunSides, StatError> {
        Ok(RunSides {
            sides: sides_of(files, self.tags)?,
            unit: self.unit,
        })
    }
}

/// Returns the chosen intervals of the logs of a run, by tag. Their values are converted to one scale if
/// they have several. If intervals have fewer significant digits, all of the run have as few.
pub(crate) fn read_log_run(
    files: Files<'_, '_, '_>,
    sigfig: u8,
    choice: IntervalChoice<'_>,
    is_by_tag: bool,
) -> Result<RunSides, StatError> {
    let mut notes = Vec::new(files.alloc());
    let run = log_run(files, sigfig, choice, is_by_tag, &mut notes);
    if can_be_converted(files, &run) {
        return converted_log_run(files, sigfig, choice, is_by_tag);
    }
    for note in &notes {
        print_error_line(files.rt, note.as_str());
    }
    let run = run?;
    if run.coarser > 0 && files.can_repeat_all() {
        if let Some(run) = run_of_fewer_digits(files, sigfig, choice, is_by_tag)? {
            return run.into_sides(files);
        }
    }
    run.into_sides(files)
}

/// Returns a run by the most significant digits that all of its intervals have, if the logs differ in
/// nothing else. A line on standard error says so.
fn run_of_fewer_digits(
    files: Files<'_, '_, '_>,
    sigfig: u8,
    choice: IntervalChoice<'_>,
    is_by_tag: bool,
) -> Result<Option<LogRun>, StatError> {
    for digits in (0..sigfig).rev() {
        let mut notes = Vec::new(files.alloc());
        let run = log_run(files, digits, choice, is_by_tag, &mut notes)?;
        if run.coarser == 0 {
            let line = format!(in files.alloc();
                "hdrstat: such a run is compared by classes of {digits} digits"
            )?;
            print_error_line(files.rt, line.as_str());
            return Ok(Some(run));
        }
    }
    Ok(None)
}

/// Returns the chosen intervals of the logs of a run, by tag. What is to be printed of the logs is appended
/// to `notes`, a line each.
fn log_run(
    files: Files<'_, '_, '_>,
    sigfig: u8,
    choice: IntervalChoice<'_>,
    is_by_tag: bool,
    notes: &mut Vec<String>,
) -> Result<LogRun, StatError> {
    let alloc = files.alloc();
    let has_one_file = files.names.len() <= 1;
    let mut tags = Vec::new(alloc);
    let mut units = LogUnits::NONE;
    let mut coarser = 0u64;
    for (index, name) in or_standard_input(files.names).iter().enumerate() {
        let mut sums = LogSums::new(alloc, choice, sigfig, is_by_tag);
        let mut batches = LogBatches::new(alloc, sigfig);
        let input = files.open(*name)?;
        let read = sums
            .read_log_into(alloc, index, input, &mut batches)
            .map_err(|cause| files.log_error(cause));
        push_notes(files, notes, sums.notes())?;
        read?;
        push_coarser(alloc, notes, &sums, sigfig)?;
        coarser = coarser.saturating_add(sums.coarser);
        if sums.chosen > 0 {
            units.add(sums.unit())?;
        }
        add_sums(alloc, &mut tags, sums, batches, has_one_file)?;
    }
    Ok(LogRun {
        tags,
        unit: units.unit,
        coarser,
    })
}

/// Returns the chosen intervals of the logs of a run, by tag, with their values in one scale.
fn converted_log_run(
    files: Files<'_, '_, '_>,
    sigfig: u8,
    choice: IntervalChoice<'_>,
    is_by_tag: bool,
) -> Result<RunSides, StatError> {
    let alloc = files.alloc();
    let has_one_file = files.names.len() <= 1;
    let intervals = read_intervals(files, choice, &FileNames::none(alloc), false)?;
    let mut tags = Vec::new(alloc);
    for file in 0..files.names.len().max(1) {
        let mut sums = LogSums::new(alloc, choice, sigfig, is_by_tag);
        let mut batches = LogBatches::new(alloc, sigfig);
        for interval in &intervals.list {
            if interval.place.file == file {
                add_stored(files, &mut sums, interval, &mut batches)?;
            }
        }
        print_coarser(files.rt, &sums, sigfig);
        add_sums(alloc, &mut tags, sums, batches, has_one_file)?;
    }
    Ok(RunSides {
        sides: sides_of(files, tags)?,
        unit: intervals.unit(),
    })
}

/// Adds a copy of an interval to sums and to batches.
pub(crate) fn add_stored(
    files: Files<'_, '_, '_>,
    sums: &mut LogSums<'_>,
    interval: &StoredInterval,
    batches: &mut LogBatches,
) -> Result<(), StatError> {
    sums.add_stored_into(files.alloc(), interval, batches)
        .map_err(|cause| files.log_error(cause))
}

/// Adds the sums of a log to the samples of its run: its intervals in batches if the run has one log,
/// and otherwise as one batch.
pub fn add_sums(
    alloc: Global,
    tags: &mut Vec<TagSamples>,
    sums: LogSums<'_>,
    batches: LogBatches,
    has_one_file: bool,
) -> Result<(), StatError> {
    let decimals = sums.decimals();
    for (sum, batching) in sums.sums.into_iter().zip(batches.into_sums()) {
        let TagSum { tag, histogram } = sum;
        if histogram.is_empty() {
            continue;
        }
        if has_one_file {
            let samples = Samples::of_intervals(&histogram, batching, decimals)?;
            tags.push(TagSamples { tag, samples })?;
            continue;
        }
        let samples = samples_of_tag(alloc, tags, tag, decimals)?;
        let (min, max) = (histogram.min(), histogram.max());
        samples.add_run(histogram, min, max)?;
    }
    Ok(())
}

/// Returns the samples of a tag, which are added if they are new.
///
/// # Errors
/// Returns `OtherScale` if they have other decimals.
fn samples_of_tag<'a>(
    alloc: Global,
    tags: &'a mut Vec<TagSamples>,
    tag: Option<String>,
    decimals: u32,
) -> Result<&'a mut Samples, StatError> {
    let index = match tags.iter().position(|other| are_equal(&other.tag, &tag)) {
        Some(index) => index,
        None => {
            let index = tags.len();
            let samples = Samples {
                batches: Vec::new(alloc),
                min: u64::MAX,
                max: 0,
                decimals,
                order: Order::OfTime,
            };
            tags.push(TagSamples { tag, samples })?;
            index
        }
    };
    match tags.get_mut(index) {
        Some(part) if part.samples.decimals == decimals => Ok(&mut part.samples),
        _ => Err(StatError::OtherScale),
    }
}

/// The unit of the values of logs so far.
#[derive(Clone, Copy)]
struct LogUnits {
    /// Whether there was a log.
    is_known: bool,
    unit: Option<Unit>,
}

impl LogUnits {
    /// No logs.
    const NONE: LogUnits = LogUnits {
        is_known: false,
        unit: None,
    };

    /// Adds the unit of a log.
    ///
    /// # Errors
    /// Returns `OtherScale` if another log has another unit.
    fn add(&mut self, unit: Option<Unit>) -> Result<(), StatError> {
        if self.is_known && self.unit != unit {
            return Err(StatError::OtherScale);
        }
        self.is_known = true;
        self.unit = unit;
        Ok(())
    }
}
