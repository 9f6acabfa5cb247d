//! `hdrstat log`.

use crate::options::arguments::{
    TAGS_BY, files, option, quiet, skip_bad, unit, with_forms, with_groups, with_recording,
    with_times,
};
use crate::options::forms::{conditions_of, cut_of, form_of, groups_by};
use crate::options::matches::{recording_of, tag_of, unit_of};
use clap::{ArgMatches, Command, Error};
use hdr_files::{
    Files, StatError, log_of_intervals, log_of_numbers, print, print_log_as_read,
    read_intervals_of, read_numbers,
};
use std::alloc::Global;
use std::process::ExitCode;

const AFTER: &str = "\
The log has one interval, or with --time an interval for each --every that has numbers, in
order of time. Its values are in units of the last decimal: 0.0289 is 289, with 4 decimals.
The decimals and --unit are comments of the log, which the other subcommands read. Of a pipe
an interval is printed once a later one begins: after the first 64 KiB, or with --decimals at
once.

Examples:
  hdrstat log --tag checkout --unit s --decimals 6 <latencies.txt >service.log
  hdrstat log -c response-time --time offset --every 1s hey.csv >hey.log

Status: 0; 1 if the input is invalid, or input or output fails; 2 for a usage error.";

/// Returns the command line of `hdrstat log`.
pub fn command<'a>(alloc: Global) -> Result<Command<'a>, Error> {
    let tag = option(alloc, "tag", "TAG", "Tag of the intervals").conflicts_with("by")?;
    let command = Command::new(alloc, "log")
        .about("Write numbers as an interval log, which hdr and hdrstat read")
        .after_help(AFTER)
        .arg(files(alloc))?
        .arg(tag)?
        .arg(quiet(alloc))?;
    let command = with_forms(alloc, command)?
        .arg(unit(alloc))?
        .arg(skip_bad(alloc))?;
    let command = with_times(alloc, command)?;
    let command = with_groups(alloc, command, TAGS_BY)?;
    with_recording(alloc, command)
}

/// Prints the numbers of files as an interval log.
pub fn run(rt: &HostRuntime, matches: &ArgMatches<'_>) -> Result<ExitCode, StatError> {
    let alloc = rt.alloc();
    let recording = recording_of(alloc, matches)?;
    let groups = groups_by(alloc, matches)?;
    let conditions = conditions_of(alloc, matches)?;
    let form = form_of(alloc, matches, &groups, &conditions)?;
    let tag = tag_of(alloc, matches)?.filter(|tag| !tag.as_str().is_empty());
    let cut = cut_of(alloc, matches, &groups)?;
    let unit = unit_of(matches);
    let files = Files {
        rt,
        names: matches.get_strs("FILE").unwrap_or(&[]),
        is_quiet: matches.get_flag("quiet"),
    };
    if cut.length.is_some() && files.is_one_pipe() {
        print_log_as_read(files, recording, form, cut, unit, tag)?;
        return Ok(ExitCode::SUCCESS);
    }
    let log = if cut.length.is_none() && cut.groups.is_empty() {
        let numbers = read_numbers(files, recording, form)?.into_distribution();
        log_of_numbers(alloc, numbers, unit, tag)?
    } else {
        let mut read = read_intervals_of(files, recording, form, cut)?;
        log_of_intervals(alloc, &mut read, cut, unit, tag)?
    };
    print(rt, &log)?;
    Ok(ExitCode::SUCCESS)
}
