//! The arguments that several subcommands have.

use clap::builder::ValueParser;
use clap::{Arg, ArgAction, Command, Error, value_parser};
use hdr_summary::units::Unit;
use std::alloc::Global;

pub(crate) const INPUT: &str = "Input";

/// The help of `--by` for logs and pages: the texts are their tags.
pub const TAGS_BY: &str = "Tags by the text of a column, or of COLUMN,COLUMN";

const CHOICE: &str = "Choice";

pub(crate) const FIGURES: &str = "Figures";

pub(crate) const OUTPUT: &str = "Output";

/// Returns an option that has a value.
pub fn option<'a>(alloc: Global, id: &'a str, name: &'a str, help: &'a str) -> Arg<'a> {
    Arg::new(alloc, id).long(id).value_name(name).help(help)
}

/// Returns an option that has no value.
pub fn flag<'a>(alloc: Global, id: &'a str, help: &'a str) -> Arg<'a> {
    Arg::new(alloc, id)
        .long(id)
        .action(ArgAction::SetTrue)
        .help(help)
}

/// Returns the option that turns the progress line off.
pub(crate) fn quiet<'a>(alloc: Global) -> Arg<'a> {
    let help = "Do not show on a terminal how much of a file is read";
    flag(alloc, "quiet", help).short('q')
}

/// Returns the option that prints help.
pub(crate) fn help<'a>(alloc: Global) -> Arg<'a> {
    flag(alloc, "help", "Print help")
        .short('h')
        .action(ArgAction::Help)
        .help_heading(OUTPUT)
}

/// Returns the files of a subcommand.
pub(crate) fn files<'a>(alloc: Global) -> Arg<'a> {
    let help = "Files to read; standard input if there are none, or for -";
    Arg::new(alloc, "FILE").num_args(0..).help(help)
}

/// Returns the logs of a subcommand.
pub(crate) fn logs<'a>(alloc: Global) -> Arg<'a> {
    let help = "Interval logs to read; standard input if there are none, or for -";
    Arg::new(alloc, "LOG").num_args(0..).help(help)
}

/// Adds the options of an input of numbers or of logs.
pub(crate) fn with_reading<'a>(alloc: Global, command: Command<'a>) -> Result<Command<'a>, Error> {
    let from = option(alloc, "from", "KIND", "Read numbers, or interval logs")
        .value_parser(["numbers", "log"].as_slice())
        .default_value("numbers")
        .help_heading(INPUT);
    let command = with_forms(alloc, command)?
        .arg(unit(alloc))?
        .arg(skip_bad(alloc))?
        .arg(from)?;
    let by_help = "Figures by the text of a column, or of COLUMN,COLUMN";
    let command = with_groups(alloc, command, by_help)?;
    let (tag, from_time, to_time) = choice(alloc);
    let help = "Figures of each tag of a log";
    let command = command
        .arg(flag(alloc, "by-tag", help).help_heading(CHOICE))?
        .arg(tag.help_heading(CHOICE))?
        .arg(from_time.help_heading(CHOICE))?
        .arg(to_time.help_heading(CHOICE))?;
    with_recording(alloc, command)
}

/// Adds the options of recording.
pub(crate) fn with_recording<'a>(
    alloc: Global,
    command: Command<'a>,
) -> Result<Command<'a>, Error> {
    let digits = option(alloc, "digits", "N", "Significant digits of percentiles")
        .short('d')
        .value_parser(value_parser!(u8).range(0..=5))
        .default_value("3")
        .help_heading(FIGURES);
    let help = "Round numbers to N decimals [default: the most of the first 64 KiB]";
    let decimals = option(alloc, "decimals", "N", help)
        .value_parser(value_parser!(u32).range(0..=18))
        .help_heading(FIGURES);
    let help = "Add the missing samples, if one was due each TIME";
    let interval = option(alloc, "expected-interval", "TIME", help).help_heading(FIGURES);
    let command = command.arg(digits)?.arg(decimals)?.arg(interval)?;
    Ok(command)
}

/// Returns the unit of the numbers.
pub(crate) fn unit<'a>(alloc: Global) -> Arg<'a> {
    let help = "Unit of numbers without one; with it they and levels may have one, as 200ms";
    option(alloc, "unit", "UNIT", help)
        .value_parser(Unit::NAMES.as_slice())
        .help_heading(INPUT)
}

/// Returns the option that skips bad lines.
pub fn skip_bad<'a>(alloc: Global) -> Arg<'a> {
    let help = "Skip lines whose number is missing or out of range, and print how many";
    flag(alloc, "skip-bad", help).help_heading(INPUT)
}

/// Adds the options of what the input is: a table, lines of JSON, or lines that match.
pub(crate) fn with_forms<'a>(alloc: Global, command: Command<'a>) -> Result<Command<'a>, Error> {
    let help = "Read the group of lines that match, such as 'time=([0-9.]+)'";
    let regex = option(alloc, "match", "REGEX", help)
        .conflicts_with("column")?
        .conflicts_with("json")?
        .help_heading(INPUT);
    let command = with_columns(alloc, command)?.arg(regex)?;
    with_layout(alloc, command)
}

/// Adds the options of rows: of a table, or of lines of JSON.
pub fn with_rows<'a>(alloc: Global, command: Command<'a>) -> Result<Command<'a>, Error> {
    let command = with_columns(alloc, command)?;
    with_layout(alloc, command)
}

/// Adds the options of the column of numbers.
fn with_columns<'a>(alloc: Global, command: Command<'a>) -> Result<Command<'a>, Error> {
    let help = "Read a column of a table: its name, or its number from 1";
    let column = option(alloc, "column", "COLUMN", help)
        .short('c')
        .value_parser(ValueParser::NonEmptyString)
        .help_heading(INPUT);
    let help = "Read a number of lines of JSON, such as .http.latency";
    let json = option(alloc, "json", "PATH", help)
        .conflicts_with("column")?
        .value_parser(ValueParser::NonEmptyString)
        .help_heading(INPUT);
    let command = command.arg(column)?.arg(json)?;
    Ok(command)
}

/// Adds the options of how rows are laid out.
fn with_layout<'a>(alloc: Global, command: Command<'a>) -> Result<Command<'a>, Error> {
    let help = "Column of how often a number counts, as of uniq -c [default: once]";
    let count = option(alloc, "count", "COLUMN", help)
        .value_parser(ValueParser::NonEmptyString)
        .help_heading(INPUT);
    let help = "Character between columns, or comma, tab, semicolon, space [default: guessed]";
    let delimiter = option(alloc, "delimiter", "CHAR", help)
        .requires_arg("column")?
        .help_heading(INPUT);
    let help = "The first line has no names of columns";
    let no_header = flag(alloc, "no-header", help)
        .requires_arg("column")?
        .help_heading(INPUT);
    let command = command.arg(count)?.arg(delimiter)?.arg(no_header)?;
    Ok(command)
}

/// Adds the options of the rows that are read, and of their groups.
pub fn with_groups<'a>(
    alloc: Global,
    command: Command<'a>,
    by_help: &'a str,
) -> Result<Command<'a>, Error> {
    let help = "Only rows that have a text, as COLUMN=TEXT; may be repeated";
    let conditions = option(alloc, "where", "CONDITION", help)
        .action(ArgAction::Append)
        .help_heading(CHOICE);
    let by = option(alloc, "by", "COLUMNS", by_help)
        .action(ArgAction::Append)
        .value_delimiter(',')
        .value_parser(ValueParser::NonEmptyString)
        .help_heading(CHOICE);
    let command = command.arg(conditions)?.arg(by)?;
    Ok(command)
}

/// Adds the options of times, which cut numbers into intervals.
pub fn with_times<'a>(alloc: Global, command: Command<'a>) -> Result<Command<'a>, Error> {
    let help = "Column of times, which cut the numbers into intervals";
    let time = option(alloc, "time", "COLUMN", help)
        .value_parser(ValueParser::NonEmptyString)
        .help_heading(INPUT);
    let help = "Unit of the times [default: by their size]";
    let time_unit = option(alloc, "time-unit", "UNIT", help)
        .requires_arg("time")?
        .value_parser(Unit::NAMES.as_slice())
        .help_heading(INPUT);
    let help = "Length of an interval, such as 500ms [default: 1s]";
    let every = option(alloc, "every", "TIME", help)
        .requires_arg("time")?
        .help_heading(INPUT);
    let command = command.arg(time)?.arg(time_unit)?.arg(every)?;
    Ok(command)
}

/// Adds the options that choose intervals.
pub fn with_choice<'a>(alloc: Global, command: Command<'a>) -> Result<Command<'a>, Error> {
    let (tag, from_time, to_time) = choice(alloc);
    let command = command.arg(tag)?.arg(from_time)?.arg(to_time)?;
    Ok(command)
}

/// Returns the option that adds the names of files to tags.
pub fn tag_by_file<'a>(alloc: Global) -> Arg<'a> {
    let help = "Add the file's name to tags, as api@host1.log, after --tag has chosen";
    flag(alloc, "tag-by-file", help)
}

/// Returns the options that choose intervals.
fn choice<'a>(alloc: Global) -> (Arg<'a>, Arg<'a>, Arg<'a>) {
    let tag = "Only intervals of this tag, or of none if it is empty";
    let from_time = "Only intervals that begin at this time or later, in seconds";
    let to_time = "Only intervals that begin before this time, in seconds";
    (
        option(alloc, "tag", "TAG", tag),
        option(alloc, "from-time", "TIME", from_time),
        option(alloc, "to-time", "TIME", to_time),
    )
}
