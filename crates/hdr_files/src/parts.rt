//! The distributions of numbers and of logs.

use crate::errors::StatError;
use crate::files::Files;
use crate::logs::{Parts, read_sums};
use crate::numbers::{Form, read_groups, read_numbers, require_most_lines, tag_of_group};
use crate::reading::Reading;
use hdr_input::groups::GroupParts;
use hdr_input::{Recording, Tally};
use hdr_summary::figures::Tagged;
use std::alloc::Global;

/// Returns the distributions of files: one, or one for each tag.
pub fn read_parts(files: Files<'_, '_, '_>, reading: Reading<'_, '_>) -> Result<Parts, StatError> {
    match reading {
        Reading::Numbers { recording, form } => match form.groups() {
            Some(columns) => read_group_parts(files, recording, form, columns),
            None => read_one_part(files, recording, form),
        },
        Reading::Logs {
            choice,
            sigfig,
            is_by_tag,
        } => read_sums(files, sigfig, choice, is_by_tag),
    }
}

/// Returns the distribution of all numbers of files.
fn read_one_part(
    files: Files<'_, '_, '_>,
    recording: Recording,
    form: Form<'_, '_>,
) -> Result<Parts, StatError> {
    let tally = read_numbers(files, recording, form)?;
    part_of_all(files.alloc(), tally)
}

/// Returns the distribution of all numbers.
pub fn part_of_all(alloc: Global, tally: Tally) -> Result<Parts, StatError> {
    let mut list = Vec::new(alloc);
    list.push(Tagged {
        tag: None,
        distribution: tally.into_distribution(),
        ends: Vec::new(alloc),
    })?;
    Ok(Parts { list, unit: None })
}

/// Returns the distributions of the groups of files.
///
/// # Errors
/// Returns `MostlySkipped` if more lines were skipped than numbers read.
fn read_group_parts(
    files: Files<'_, '_, '_>,
    recording: Recording,
    form: Form<'_, '_>,
    columns: &[&str],
) -> Result<Parts, StatError> {
    let groups = read_groups(files, recording, form, columns)?;
    let skipped = groups.skipped;
    let GroupParts { texts, sinks, .. } = groups;
    let mut numbers = 0u64;
    let mut list = Vec::new(files.alloc());
    for (text, tally) in texts.as_slice().iter().zip(sinks) {
        numbers = numbers.saturating_add(tally.numbers());
        list.push(Tagged {
            tag: tag_of_group(files.alloc(), text)?,
            distribution: tally.into_distribution(),
            ends: Vec::new(files.alloc()),
        })?;
    }
    require_most_lines(numbers, skipped)?;
    Ok(Parts { list, unit: None })
}
