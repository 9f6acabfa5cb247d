//! `hdrstat gather`.

use crate::options::arguments::{flag, logs, quiet, tag_by_file, with_choice};
use crate::options::matches::{choice_of, file_names_of};
use clap::{ArgMatches, Command, Error};
use hdr_files::{FileNames, Files, Output, StatError, read_intervals};
use hdr_gather::{Counts, PeekableLog, gather_sorted, gather_unsorted, have_one_scale};
use hdrhistogram::serialization::interval_log::IntervalChoice;
use std::alloc::Global;
use std::process::ExitCode;

const AFTER: &str = "\
Intervals of the same tag that begin at the same time become one, with the samples of all.
They are written in order of time and then of tag. The output can be gathered again.
Each log has to be in order of time, as logs are written: they are read side by side, in the
memory of the intervals of one start, which are written once all logs are past it. Logs of other
units or decimals are all read first, and converted to the finest: each class becomes its greatest
value, so that `hdrstat check` may decide a level within a class otherwise than of the logs.

--tag-by-file keeps the intervals of each file apart. Their tags end with @ and the name of the
file, and intervals without a tag have that name as their tag. It is the last part of the path, or
as many of the last parts as make the names differ, and `stdin` for standard input. `_` stands for
a comma, a space, an end of line and @.

Examples:
  hdrstat gather host1.log host2.log >all.log
  cat host1.log host2.log | hdrstat gather --unsorted >all.log
  hdrstat gather --tag-by-file host1.log host2.log >by_host.log

Status: 0; 1 if a log is invalid, or input or output fails; 2 for a usage error.";

/// Returns the command line of `hdrstat gather`.
pub fn command<'a>(alloc: Global) -> Result<Command<'a>, Error> {
    let help = "Read all logs first, whose intervals may be in any order";
    let command = Command::new(alloc, "gather")
        .about("Merge the interval logs of many hosts into one")
        .after_help(AFTER)
        .arg(flag(alloc, "unsorted", help))?
        .arg(tag_by_file(alloc))?
        .arg(quiet(alloc))?
        .arg(logs(alloc))?;
    with_choice(alloc, command)
}

/// Merges logs, and prints the result as one log.
pub fn run(rt: &HostRuntime, matches: &ArgMatches<'_>) -> Result<ExitCode, StatError> {
    let choice = choice_of(rt.alloc(), matches)?;
    let files = Files {
        rt,
        names: matches.get_strs("LOG").unwrap_or(&[]),
        is_quiet: matches.get_flag("quiet"),
    };
    let file_names = file_names_of(rt.alloc(), matches, files.names)?;
    let counts = if matches.get_flag("unsorted") {
        gather_all(files, choice, &file_names)?
    } else {
        gather_side_by_side(files, choice, &file_names)?
    };
    print_finer(rt, counts);
    Ok(ExitCode::SUCCESS)
}

/// Merges logs, whose intervals are all read first, and converted to one scale.
fn gather_all(
    files: Files<'_, '_, '_>,
    choice: IntervalChoice<'_>,
    file_names: &FileNames,
) -> Result<Counts, StatError> {
    let intervals = read_intervals(files, choice, file_names, false)?;
    gather_unsorted(files.alloc(), &intervals, &mut Output::new(files.rt)).map_err(
        |cause| files.log_error(cause),
    )
}

/// Merges logs, which are all open at once and in order of time. Those of several scales are read
/// first, if they can be read again.
fn gather_side_by_side<'x>(
    files: Files<'_, '_, '_>,
    choice: IntervalChoice<'x>,
    file_names: &'x FileNames,
) -> Result<Counts, StatError> {
    let alloc = files.alloc();
    let mut logs = Vec::new(alloc);
    files.read_each(|index, input| {
        let log = PeekableLog::new(alloc, index, input, choice, file_names.name(index));
        logs.push(log.map_err(|cause| files.log_error(cause))?)?;
        Ok(())
    })?;
    let gathered = match have_one_scale(alloc, &mut logs) {
        Ok(have_one_scale) => {
            if !have_one_scale && files.can_repeat_all() {
                return gather_all(files, choice, file_names);
            }
            gather_sorted(alloc, &mut logs, &mut Output::new(files.rt))
        }
        Err(cause) => Err(cause),
    };
    for log in &logs {
        files.print_notes(log.notes());
    }
    gathered.map_err(|cause| files.log_error(cause))
}

/// Prints on standard error how many intervals are finer than the sum that they are in, if any are.
fn print_finer(rt: &HostRuntime, counts: Counts) {
    let Counts { intervals, finer } = counts;
    if finer > 0 {
        let _ = eprintln!(rt;
            "hdrstat: {finer} of {intervals} intervals finer than their sum, which has the digits of the coarsest"
        );
    }
}
