//! The logs of the arguments.

use crate::errors::StatError;
use crate::files::{Files, or_standard_input};
use crate::names::FileNames;
use crate::output::print_error_line;
use hdr_input::{Distribution, Unit};
use hdr_logs::{LogError, LogIntervals, LogSums, Note, TagSum};
use hdr_summary::figures::Tagged;
use hdrhistogram::Histogram;
use hdrhistogram::serialization::interval_log::IntervalChoice;
use std::alloc::{AllocError, Global};

/// Distributions, and the unit that logs have of their values.
#[derive(Drop)]
pub struct Parts {
    pub list: Vec<Tagged>,
    pub unit: Option<Unit>,
}

/// Returns the sums of the chosen intervals of logs: one, or one for each tag. If intervals are
/// coarser than their sum, their number is printed on standard error.
pub(crate) fn read_sums(
    files: Files<'_, '_, '_>,
    sigfig: u8,
    choice: IntervalChoice<'_>,
    is_by_tag: bool,
) -> Result<Parts, StatError> {
    let alloc = files.alloc();
    let mut sums = LogSums::new(alloc, choice, sigfig, is_by_tag);
    let added = add_logs(files, &mut sums);
    if can_be_converted(files, &added) {
        sums = LogSums::new(alloc, choice, sigfig, is_by_tag);
        add_converted(files, choice, &mut sums)?;
    } else {
        files.print_notes(sums.notes());
        added?;
    }
    print_coarser(files.rt, &sums, sigfig);
    let unit = sums.unit();
    let list = parts_of(alloc, sums, sigfig, is_by_tag)?;
    Ok(Parts { list, unit })
}

/// Adds the chosen intervals of logs to sums, log by log.
fn add_logs(files: Files<'_, '_, '_>, sums: &mut LogSums<'_>) -> Result<(), StatError> {
    for (index, name) in or_standard_input(files.names).iter().enumerate() {
        let input = files.open(*name)?;
        sums.read_log(files.alloc(), index, input)
            .map_err(|cause| files.log_error(cause))?;
    }
    Ok(())
}

/// Whether logs were not added since they have several scales, and can be read again.
pub(crate) fn can_be_converted<T: Drop>(
    files: Files<'_, '_, '_>,
    read: &Result<T, StatError>,
) -> bool {
    match read {
        Ok(_) => false,
        Err(error) => error.is_of_scale() && files.can_repeat_all(),
    }
}

/// Adds the chosen intervals of logs to sums, with their values in one scale.
fn add_converted(
    files: Files<'_, '_, '_>,
    choice: IntervalChoice<'_>,
    sums: &mut LogSums<'_>,
) -> Result<(), StatError> {
    let alloc = files.alloc();
    let intervals = read_intervals(files, choice, &FileNames::none(alloc), false)?;
    for interval in &intervals.list {
        sums.add_stored(alloc, interval)
            .map_err(|cause| files.log_error(cause))?;
    }
    Ok(())
}

/// Returns the distributions of sums: one, or one for each tag.
pub(crate) fn parts_of(
    alloc: Global,
    sums: LogSums<'_>,
    sigfig: u8,
    is_by_tag: bool,
) -> Result<Vec<Tagged>, StatError> {
    let decimals = sums.decimals();
    let mut parts = Vec::new(alloc);
    for TagSum { tag, histogram } in sums.sums {
        let distribution = Distribution::of_histogram(histogram, decimals);
        let ends = Vec::new(alloc);
        parts.push(Tagged {
            tag,
            distribution,
            ends,
        })?;
    }
    if parts.is_empty() && !is_by_tag {
        let empty = Histogram::new(alloc, sigfig)?;
        parts.push(Tagged {
            tag: None,
            distribution: Distribution::of_histogram(empty, decimals),
            ends: Vec::new(alloc),
        })?;
    }
    Ok(parts)
}

/// Prints on standard error how many of the chosen intervals are coarser than their sum, if any are.
pub(crate) fn print_coarser(rt: &HostRuntime, sums: &LogSums<'_>, sigfig: u8) {
    let mut lines = Vec::new(rt.alloc());
    let _ = push_coarser(rt.alloc(), &mut lines, sums, sigfig);
    for line in &lines {
        print_error_line(rt, line.as_str());
    }
}

/// Appends a line with how many of the chosen intervals are coarser than their sum, if any are.
pub(crate) fn push_coarser(
    alloc: Global,
    lines: &mut Vec<String>,
    sums: &LogSums<'_>,
    sigfig: u8,
) -> Result<(), AllocError> {
    let coarser = sums.coarser;
    let chosen = sums.chosen;
    if coarser > 0 {
        let line = format!(in alloc;
            "hdrstat: {coarser} of {chosen} intervals coarser than {sigfig} digits"
        )?;
        lines.push(line)?;
    }
    Ok(())
}

/// Returns the chosen intervals of logs, with their values in one scale. If logs are aligned, each is
/// laid over the first. How many intervals are converted is printed on standard error.
pub fn read_intervals(
    files: Files<'_, '_, '_>,
    choice: IntervalChoice<'_>,
    file_names: &FileNames,
    is_aligned: bool,
) -> Result<LogIntervals, StatError> {
    let alloc = files.alloc();
    let mut intervals = LogIntervals::new(alloc);
    let read = read_stored(files, choice, file_names, is_aligned, &mut intervals);
    files.print_notes(intervals.notes());
    read?;
    intervals
        .convert_to_one_scale(alloc)
        .map_err(|cause| files.log_error(cause))?;
    print_converted(files.rt, &intervals);
    Ok(intervals)
}

/// Adds the chosen intervals of logs, with their values as they are.
pub(crate) fn read_stored(
    files: Files<'_, '_, '_>,
    choice: IntervalChoice<'_>,
    file_names: &FileNames,
    is_aligned: bool,
    intervals: &mut LogIntervals,
) -> Result<(), StatError> {
    let alloc = files.alloc();
    files.read_each(|index, input| {
        let before = intervals.list.len();
        intervals
            .read_log(alloc, index, input, choice, file_names.name(index))
            .map_err(|cause| files.log_error(cause))?;
        if is_aligned {
            intervals
                .align_from(before)
                .map_err(|cause| files.log_error(cause))?;
        }
        Ok(())
    })
}

/// Prints on standard error how many intervals are converted, if any are.
fn print_converted(rt: &HostRuntime, intervals: &LogIntervals) {
    let converted = intervals.converted;
    if converted == 0 {
        return;
    }
    let all = intervals.list.len();
    let decimals = intervals.decimals().unwrap_or(0);
    let _ = match intervals.unit() {
        Some(unit) => {
            let unit = unit.name();
            eprintln!(rt;
                "hdrstat: {converted} of {all} intervals converted to {decimals} decimals of {unit}, at the top of each class"
            )
        }
        None => {
            eprintln!(rt;
                "hdrstat: {converted} of {all} intervals converted to {decimals} decimals, at the top of each class"
            )
        }
    };
}

impl Files<'_, '_, '_> {
    /// Returns the error of logs, with the name of the log that has it, if one has.
    pub fn log_error(self, cause: LogError) -> StatError {
        let name = match cause.file() {
            Some(index) => self.name(index),
            None => "the logs",
        };
        StatError::logs(self.alloc(), name, cause)
    }

    /// Prints the lines of logs that are not read on standard error, with the names of the logs.
    pub fn print_notes(self, notes: &[Note]) {
        for note in notes {
            if let Ok(line) = note_line(self, note) {
                print_error_line(self.rt, line.as_str());
            }
        }
    }
}

/// Appends the lines that `print_notes` prints.
pub(crate) fn push_notes(
    files: Files<'_, '_, '_>,
    lines: &mut Vec<String>,
    notes: &[Note],
) -> Result<(), AllocError> {
    for note in notes {
        lines.push(note_line(files, note)?)?;
    }
    Ok(())
}

/// Returns a line of a log that is not read, with the name of the log.
fn note_line(files: Files<'_, '_, '_>, note: &Note) -> Result<String, AllocError> {
    let file = files.name(note.place.file);
    format!(in files.alloc(); "hdrstat: {file}: {note}")
}
