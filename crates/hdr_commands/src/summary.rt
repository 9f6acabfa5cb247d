//! `hdrstat summary`.

use crate::options::arguments::{FIGURES, OUTPUT, files, flag, help, option, quiet, with_reading};
use crate::options::forms::{conditions_of, groups_by};
use crate::options::matches::{nanoseconds_of, reading_of, unit_of};
use clap::builder::ValueParser;
use clap::{Arg, ArgAction, ArgMatches, Command, Error};
use hdr_files::{
    Files, Parts, Periods, Reading, StatError, part_of_all, print, read_numbers_by_period,
    read_parts, read_parts_with_ends,
};
use hdr_summary::bars::push_bars;
use hdr_summary::decimals::Conversion;
use hdr_summary::figures::Tagged;
use hdr_summary::formats::{Format, Layout, text};
use hdr_summary::percentile::{Percentile, parse_percentile};
use hdr_summary::units::Unit;
use std::alloc::{AllocError, Global};
use std::collections::HashSet;
use std::process::ExitCode;
use std::time::Duration;

const AFTER: &str = "\
Examples:
  hdrstat summary -p 50,99.9 --format json <latencies.txt
  hey -o csv http://localhost/ | hdrstat summary -c response-time --by status-code
  hdrstat summary --from log --by-tag service.log";

/// Returns the command line of `hdrstat summary`.
pub fn command<'a>(alloc: Global) -> Result<Command<'a>, Error> {
    let command = Command::new(alloc, "summary")
        .about("Print count, min, mean, percentiles and max of numbers")
        .after_help(AFTER)
        .disable_help_flag(true)
        .arg(files(alloc))?;
    let command = with_reading(alloc, command)?;
    with_output(alloc, command)
}

/// Adds the options of the output.
fn with_output<'a>(alloc: Global, command: Command<'a>) -> Result<Command<'a>, Error> {
    let help_of_intervals = "Intervals of 95 % beside percentiles, for correlated samples too";
    let intervals = flag(alloc, "ci", help_of_intervals).help_heading(FIGURES);
    let help_of_bars = "Draw how many numbers are in ranges of values, below the table";
    let bars = flag(alloc, "bars", help_of_bars).help_heading(FIGURES);
    let help_of_every = "Print figures each TIME of reading, such as 10s; of a slow pipe from \
        64 KiB on, or with --decimals";
    let every = option(alloc, "every", "TIME", help_of_every)
        .conflicts_with("by")?
        .conflicts_with("ci")?
        .help_heading(FIGURES);
    let format = option(alloc, "format", "FORMAT", "Format of the output")
        .short('f')
        .value_parser(["table", "csv", "tsv", "json", "hgrm", "openmetrics"].as_slice())
        .default_value("table")
        .help_heading(OUTPUT);
    let unit = option(alloc, "output-unit", "UNIT", "Unit of the output")
        .value_parser(Unit::NAMES.as_slice())
        .help_heading(OUTPUT);
    let command = command
        .arg(percentiles_option(alloc))?
        .arg(intervals)?
        .arg(bars)?
        .arg(every)?
        .arg(format)?
        .arg(unit)?;
    let command = command
        .arg(quiet(alloc).help_heading(OUTPUT))?
        .arg(help(alloc))?;
    Ok(command)
}

/// The percentiles that are printed if none are asked for.
pub const USUAL_PERCENTILES: [&str; 4] = ["50", "90", "99", "99.9"];

/// Returns the option of the percentiles.
pub(crate) fn percentiles_option<'a>(alloc: Global) -> Arg<'a> {
    option(alloc, "percentiles", "LIST", "Percentiles to print")
        .short('p')
        .action(ArgAction::Append)
        .value_delimiter(',')
        .value_parser(ValueParser::NonEmptyString)
        .default_value("50,90,99,99.9")
        .help_heading(FIGURES)
}

/// Prints the figures of the numbers of files.
pub fn run(rt: &HostRuntime, matches: &ArgMatches<'_>) -> Result<ExitCode, StatError> {
    let alloc = rt.alloc();
    let groups = groups_by(alloc, matches)?;
    let conditions = conditions_of(alloc, matches)?;
    let reading = reading_of(alloc, matches, &groups, &conditions)?;
    let arguments = matches.get_strs("percentiles").unwrap_or(&[]);
    let percentiles = percentiles_of(alloc, arguments)?;
    let has_tags = matches.get_flag("by-tag") || matches.get_str("by").is_some();
    let format = format_of(alloc, matches, &percentiles, has_tags)?;
    if let Reading::Numbers { .. } = reading {
        let _ = conversion_of(alloc, matches, None)?;
    }
    let files = Files {
        rt,
        names: matches.get_strs("FILE").unwrap_or(&[]),
        is_quiet: matches.get_flag("quiet"),
    };
    let every = every_of(alloc, matches, format)?;
    let Parts { list, unit } = match (reading, every) {
        (Reading::Numbers { recording, form }, Some(length)) => {
            let conversion = conversion_of(alloc, matches, None)?;
            let periods = Periods {
                length,
                percentiles: &percentiles,
                conversion,
            };
            let tally = read_numbers_by_period(files, recording, form, periods)?;
            part_of_all(alloc, tally)?
        }
        _ if matches.get_flag("ci") => read_parts_with_ends(files, reading, &percentiles)?,
        _ => read_parts(files, reading)?,
    };
    let layout = Layout {
        format,
        percentiles: &percentiles,
        conversion: conversion_of(alloc, matches, unit)?,
        has_tags,
    };
    let text = text_of(alloc, matches, &list, &layout)?;
    print(rt, text.as_bytes())?;
    Ok(ExitCode::SUCCESS)
}

/// Returns how often lines of figures are printed, if they are asked for: of numbers, above a table.
fn every_of(
    alloc: Global,
    matches: &ArgMatches<'_>,
    format: Format,
) -> Result<Option<Duration>, StatError> {
    let Some(nanos) = nanoseconds_of(alloc, matches, "every")? else {
        return Ok(None);
    };
    if nanos == 0 {
        return Err(StatError::usage(alloc, "--every", "needs a time above 0"));
    }
    if matches.get_str("from") == Some("log") {
        let why = "prints figures of numbers while they are read, and not of logs";
        return Err(StatError::usage(alloc, "--every", why));
    }
    if format != Format::Table {
        let why = "prints lines above a table, and no other format";
        return Err(StatError::usage(alloc, "--every", why));
    }
    Ok(Some(Duration::from_nanos(nanos)))
}

/// Returns the format of the output, or an error if it does not have what is asked for.
fn format_of(
    alloc: Global,
    matches: &ArgMatches<'_>,
    percentiles: &[Percentile<'_>],
    has_tags: bool,
) -> Result<Format, StatError> {
    let format = matches.get_str("format").and_then(Format::from_name);
    let format = format.unwrap_or(Format::Table);
    if has_tags && format == Format::Hgrm {
        let why = "has one distribution: choose one by --tag or --where, without --by-tag and --by";
        return Err(StatError::usage(alloc, "hgrm", why));
    }
    check_intervals(alloc, matches, format, percentiles)?;
    check_bars(alloc, matches, format, has_tags)?;
    Ok(format)
}

/// Returns the text of distributions, with their bars if these are asked for.
fn text_of(
    alloc: Global,
    matches: &ArgMatches<'_>,
    parts: &[Tagged],
    layout: &Layout<'_>,
) -> Result<String, AllocError> {
    let mut text = text(alloc, parts, layout)?;
    if matches.get_flag("bars") {
        for part in parts {
            push_bars(alloc, &mut text, &part.distribution, layout.conversion)?;
        }
    }
    Ok(text)
}

/// Returns an error if intervals are asked for that the format or a percentile does not have.
fn check_intervals(
    alloc: Global,
    matches: &ArgMatches<'_>,
    format: Format,
    percentiles: &[Percentile<'_>],
) -> Result<(), StatError> {
    if !matches.get_flag("ci") {
        return Ok(());
    }
    if matches!(format, Format::Hgrm | Format::OpenMetrics) {
        let why = "has no intervals: table, csv, tsv and json have";
        let name = matches.get_str("format").unwrap_or("hgrm");
        return Err(StatError::usage(alloc, name, why));
    }
    require_intervals(alloc, percentiles)
}

/// Returns an error if bars are asked for that the format does not have, or of several tags.
fn check_bars(
    alloc: Global,
    matches: &ArgMatches<'_>,
    format: Format,
    has_tags: bool,
) -> Result<(), StatError> {
    if !matches.get_flag("bars") {
        return Ok(());
    }
    if format != Format::Table {
        let name = matches.get_str("format").unwrap_or("table");
        return Err(StatError::usage(alloc, name, "has no bars: table has"));
    }
    if has_tags {
        let why =
            "draws one distribution: choose one by --tag or --where, without --by-tag and --by";
        return Err(StatError::usage(alloc, "--bars", why));
    }
    Ok(())
}

/// The greatest denominator of the quantile of a percentile that has an interval.
pub(crate) const MOST_DENOMINATOR: u64 = 1_000_000;

/// Returns an error if a percentile has more than 4 decimals, and so no interval.
pub(crate) fn require_intervals(
    alloc: Global,
    percentiles: &[Percentile<'_>],
) -> Result<(), StatError> {
    for percentile in percentiles {
        if percentile.quantile.den() > MOST_DENOMINATOR {
            let why = "has more than 4 decimals, and so no interval";
            return Err(StatError::usage(alloc, percentile.digits, why));
        }
    }
    Ok(())
}

/// Parses percentiles. One that is written as another before it is left out.
pub fn percentiles_of<'a>(
    alloc: Global,
    arguments: &[&'a str],
) -> Result<Vec<Percentile<'a>>, StatError> {
    let mut percentiles = Vec::new(alloc);
    let mut texts = HashSet::new(alloc);
    for argument in arguments {
        let Some(percentile) = parse_percentile(*argument) else {
            let why = "is not a percentile from 0 to 100, such as 50, p99.9 or 99%";
            return Err(StatError::usage(alloc, *argument, why));
        };
        if !texts.insert(percentile.digits)? {
            continue;
        }
        if percentiles.push(percentile).is_err() {
            return Err(StatError::OutOfMemory);
        }
    }
    Ok(percentiles)
}

/// Returns the conversion of values to the unit of the output: that of --output-unit, or otherwise
/// of --unit. They are in the unit that logs have, or otherwise in that of --unit.
fn conversion_of(
    alloc: Global,
    matches: &ArgMatches<'_>,
    of_logs: Option<Unit>,
) -> Result<Conversion, StatError> {
    let asked = unit_of(matches);
    let output = matches.get_str("output-unit");
    match (
        of_logs.or(asked),
        output.and_then(Unit::from_name).or(asked),
    ) {
        (Some(from), Some(to)) => Ok(Conversion::new(from, to)),
        (None, Some(_)) => {
            let why = "is a unit of the output, which needs that of the numbers by --unit";
            Err(StatError::usage(alloc, output.unwrap_or("--output-unit"), why))
        }
        _ => Ok(Conversion::NONE),
    }
}
