//! The runs of the arguments: their samples in batches.

use crate::errors::StatError;
use crate::files::{Files, or_standard_input};
use crate::log_runs::{TagSamples, read_log_run};
use crate::numbers::{Form, require_most_lines, tag_of_group};
use crate::output::print_error_line;
use crate::reading::Reading;
use crate::surveyed::NumberFiles;
use hdr_input::groups::{GroupMaker, GroupParts, Groups};
use hdr_input::{Recording, Unit};
use hdr_runs::{BatchRecording, BatchTally, Order, Samples, Side};
use hdr_summary::formats::NO_TAG;
use std::alloc::Global;

/// A run: its samples by tag, and the unit that logs have of their values.
#[derive(Drop)]
pub struct RunSides {
    pub sides: Vec<Side>,
    pub unit: Option<Unit>,
}

impl RunSides {
    /// Returns the samples by tag, with their values in a unit that is as coarse as theirs or
    /// coarser, and as many more decimals.
    ///
    /// # Errors
    /// Returns an error if they would have more than 18 decimals.
    pub fn in_unit(self, unit: Option<Unit>) -> Result<Vec<Side>, StatError> {
        let mut sides = self.sides;
        if let (Some(own), Some(unit)) = (self.unit, unit) {
            let power = own.decimals().saturating_sub(unit.decimals());
            for side in sides.iter_mut() {
                side.coarsen_unit(power)?;
            }
        }
        Ok(sides)
    }
}

/// Returns the coarser of two units, or the one that is known.
pub fn coarser_unit(one: Option<Unit>, other: Option<Unit>) -> Option<Unit> {
    match (one, other) {
        (Some(one), Some(other)) if other.decimals() < one.decimals() => Some(other),
        (Some(one), _) => Some(one),
        (None, other) => other,
    }
}

/// The tallies of a tag, of each file that has it.
#[derive(Drop)]
struct TagTallies {
    tag: Option<String>,
    tallies: Vec<BatchTally>,
}

/// What was read of the files of a run.
#[derive(Drop)]
struct NumberRun {
    tags: Vec<TagTallies>,
    numbers: u64,
    skipped: u64,
    rounded: u64,
}

/// Returns the samples of a run, by tag. Those of a run of several files have a batch for each of
/// them, and otherwise batches of those that follow one another.
pub fn read_run(files: Files<'_, '_, '_>, reading: Reading<'_, '_>) -> Result<RunSides, StatError> {
    match reading {
        Reading::Numbers { recording, form } => Ok(RunSides {
            sides: read_number_run(files, recording, form)?,
            unit: None,
        }),
        Reading::Logs {
            choice,
            sigfig,
            is_by_tag,
        } => read_log_run(files, sigfig, choice, is_by_tag),
    }
}

/// Returns the numbers of a run, by the texts of their groups. How many lines were skipped and how
/// many numbers were rounded is printed on standard error.
fn read_number_run(
    files: Files<'_, '_, '_>,
    recording: Recording,
    form: Form<'_, '_>,
) -> Result<Vec<Side>, StatError> {
    let alloc = files.alloc();
    let mut numbers = NumberFiles::new(files, recording, form)?;
    let mut run = number_run_of(files, form, &mut numbers)?;
    if numbers.becomes_finer(run.rounded)? {
        run = number_run_of(files, form, &mut numbers)?;
    }
    numbers.print_notes(run.numbers == 0, run.skipped, run.rounded)?;
    require_most_lines(run.numbers, run.skipped)?;
    let has_one_file = files.names.len() <= 1;
    let mut tags = Vec::new(alloc);
    for TagTallies { tag, tallies } in run.tags {
        if let Some(samples) = samples_of(alloc, tallies, has_one_file)? {
            tags.push(TagSamples { tag, samples })?;
        }
    }
    sides_of(files, tags)
}

/// The fewest runs of a side of several whose samples can be compared.
pub const FEWEST_RUNS: usize = 4;

/// Returns the sides of tags. Of several files, a tag that has samples in fewer than four is left
/// out, and a line on standard error says so.
pub(crate) fn sides_of(
    files: Files<'_, '_, '_>,
    tags: Vec<TagSamples>,
) -> Result<Vec<Side>, StatError> {
    let alloc = files.alloc();
    let has_one_file = files.names.len() <= 1;
    let has_tags = tags.iter().any(|part| part.tag.is_some());
    let mut sides = Vec::new(alloc);
    for TagSamples { tag, samples } in tags {
        let runs = samples.batches.len();
        if has_one_file || runs >= FEWEST_RUNS {
            sides.push(Side::new(alloc, tag, samples)?)?;
        } else {
            print_few_runs(files, name_of(&tag, has_tags), runs)?;
        }
    }
    Ok(sides)
}

/// Returns the name of a tag. Samples without one have a name beside tags.
pub(crate) fn name_of(tag: &Option<String>, has_tags: bool) -> Option<&str> {
    match tag {
        Some(tag) => Some(tag.as_str()),
        None if has_tags => Some(NO_TAG),
        None => None,
    }
}

/// Prints on standard error that a tag has samples in a few runs alone.
fn print_few_runs(
    files: Files<'_, '_, '_>,
    tag: Option<&str>,
    runs: usize,
) -> Result<(), StatError> {
    let all = files.names.len();
    let mut line = String::new(files.alloc());
    line.push_str("hdrstat: ")?;
    if let Some(tag) = tag {
        line.push_str(tag)?;
        line.push_str(": ")?;
    }
    write!(
        line,
        "{runs} of {all} runs have samples, and fewer than 4 are not compared"
    )?;
    print_error_line(files.rt, line.as_str());
    Ok(())
}

/// Returns the numbers of the files of a run as they are recorded now.
fn number_run_of(
    files: Files<'_, '_, '_>,
    form: Form<'_, '_>,
    numbers: &mut NumberFiles<'_, '_, '_, '_, '_>,
) -> Result<NumberRun, StatError> {
    let alloc = files.alloc();
    let mut run = NumberRun {
        tags: Vec::new(alloc),
        numbers: 0,
        skipped: 0,
        rounded: 0,
    };
    let maker = BatchRecording {
        recording: numbers.recording,
    };
    for (index, name) in or_standard_input(files.names).iter().enumerate() {
        match form.groups() {
            Some(columns) => {
                let groups = Groups::new(alloc, maker, columns);
                let mut groups = groups.map_err(|cause| files.numbers_error(0, cause))?;
                numbers.read_file_rows_into(index, *name, &mut groups)?;
                run.add_groups(alloc, groups.into_parts())?;
            }
            None => {
                let mut tally = maker.make(alloc).map_err(|_| StatError::OutOfMemory)?;
                numbers.read_file_into(index, *name, &mut tally)?;
                run.skipped = run.skipped.saturating_add(tally.tally.skipped);
                run.rounded = run.rounded.saturating_add(tally.tally.rounded);
                run.add_tally(alloc, None, tally)?;
            }
        }
    }
    numbers.finish_pass();
    Ok(run)
}

impl NumberRun {
    /// Adds the groups of a file.
    fn add_groups(
        &mut self,
        alloc: Global,
        groups: GroupParts<BatchTally>,
    ) -> Result<(), StatError> {
        self.skipped = self.skipped.saturating_add(groups.skipped);
        self.rounded = self.rounded.saturating_add(groups.rounded);
        let GroupParts { texts, sinks, .. } = groups;
        for (text, tally) in texts.as_slice().iter().zip(sinks) {
            let tag = tag_of_group(alloc, text)?;
            self.add_tally(alloc, tag, tally)?;
        }
        Ok(())
    }

    /// Adds the numbers of a tag of a file.
    fn add_tally(
        &mut self,
        alloc: Global,
        tag: Option<String>,
        tally: BatchTally,
    ) -> Result<(), StatError> {
        self.numbers = self.numbers.saturating_add(tally.tally.numbers());
        for other in self.tags.iter_mut() {
            if are_equal(&other.tag, &tag) {
                other.tallies.push(tally)?;
                return Ok(());
            }
        }
        let mut tallies = Vec::new(alloc);
        tallies.push(tally)?;
        self.tags.push(TagTallies { tag, tallies })?;
        Ok(())
    }
}

/// Whether two tags are the same.
pub(crate) fn are_equal(one: &Option<String>, other: &Option<String>) -> bool {
    match (one, other) {
        (Some(one), Some(other)) => one.as_str() == other.as_str(),
        (None, None) => true,
        _ => false,
    }
}

/// Returns the samples of a tag, or `None` if there are none.
fn samples_of(
    alloc: Global,
    tallies: Vec<BatchTally>,
    has_one_file: bool,
) -> Result<Option<Samples>, StatError> {
    let mut samples = Samples {
        batches: Vec::new(alloc),
        min: u64::MAX,
        max: 0,
        decimals: 0,
        order: Order::OfTime,
    };
    for tally in tallies {
        if tally.tally.histogram.is_empty() {
            continue;
        }
        if has_one_file {
            return Ok(Some(tally.into_samples(alloc)?));
        }
        let tally = tally.tally;
        samples.decimals = tally.decimals;
        samples.add_run(tally.histogram, tally.min, tally.max)?;
    }
    if samples.batches.is_empty() {
        return Ok(None);
    }
    Ok(Some(samples))
}
