//! The subcommands: the command line of each, and what it does.

use crate::page;
use clap::{ArgMatches, Command, Error};
use hdr_commands::{check, compare, convert, gather, log, summary};
use hdr_files::StatError;
use std::alloc::Global;
use std::process::ExitCode;

const ABOUT: &str = "Percentiles of latencies and other numbers, by HDR histograms";

const AFTER: &str = "\
Examples:
  hdrstat summary latencies.txt
  hdrstat check 'p99<200' 'max<=1000' <latencies.txt

`hdrstat SUBCOMMAND --help` has the options and examples of each.";

/// Returns the command line of the program.
pub(crate) fn command<'a>(alloc: Global) -> Result<Command<'a>, Error> {
    let command = Command::new(alloc, "hdrstat")
        .bin_name("hdrstat")?
        .version("3.0.0")
        .about(ABOUT)
        .after_help(AFTER)
        .subcommand_required(true)
        .arg_required_else_help(true)
        .subcommand(summary::command(alloc)?)?
        .subcommand(check::command(alloc)?)?
        .subcommand(compare::command(alloc)?)?
        .subcommand(log::command(alloc)?)?
        .subcommand(gather::command(alloc)?)?
        .subcommand(convert::command(alloc)?)?
        .subcommand(page::command(alloc)?)?;
    Ok(command)
}

/// Runs a subcommand, and returns the exit status.
pub(crate) fn run(
    rt: &HostRuntime,
    name: &str,
    matches: &ArgMatches<'_>,
) -> Result<ExitCode, StatError> {
    match name {
        "check" => check::run(rt, matches),
        "compare" => compare::run(rt, matches),
        "convert" => convert::run(rt, matches),
        "gather" => gather::run(rt, matches),
        "log" => log::run(rt, matches),
        "page" => page::run(rt, matches),
        _ => summary::run(rt, matches),
    }
}
