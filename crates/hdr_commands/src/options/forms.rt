//! The form of the input, by the arguments.

ghost use Rattle.std.specs.Prelude.{◌↔◌, ◌≡◌, ◌<◌, ◌%◌, IfOk, IfSome, IsTrue};
ghost use Rattle.hdr_commands.specs.Delimiters.{IsDelimiter};

use crate::options::matches::nanoseconds_of;
use clap::ArgMatches;
use hdr_files::{Form, StatError, Table};
use hdr_input::columns::{Columns, Condition};
use hdr_input::intervals::Cut;
use hdr_input::times::TimeUnit;
use regex::bytes::Regex;
use std::alloc::{AllocError, Global};

/// Checks that options of rows come with an input that has rows.
pub(crate) fn check_rows(alloc: Global, matches: &ArgMatches<'_>) -> Result<(), StatError> {
    if matches.get_str("column").is_some() || matches.get_str("json").is_some() {
        return Ok(());
    }
    if matches.get_str("by").is_some() {
        let why = "needs --column or --json; for logs, summary, check and compare have --by-tag";
        return Err(StatError::usage(alloc, "--by", why));
    }
    for option in ["--where", "--count", "--time"] {
        if matches.get_str(option.trim_start_matches('-')).is_some() {
            return Err(StatError::usage(alloc, option, "needs --column or --json"));
        }
    }
    Ok(())
}

/// Returns the form of the input.
pub fn form_of<'l, 'n>(
    alloc: Global,
    matches: &ArgMatches<'n>,
    groups: &'l [&'n str],
    conditions: &'l [Condition<'n>],
) -> Result<Form<'l, 'n>, StatError> {
    check_rows(alloc, matches)?;
    if let Some(regex) = matches.get_str("match") {
        check_regex(alloc, regex)?;
        return Ok(Form::Match(regex));
    }
    check_count(alloc, matches)?;
    let is_json = matches.get_str("json").is_some();
    let Some(value) = matches.get_str("json").or(matches.get_str("column")) else {
        return Ok(Form::Lines);
    };
    let columns = Columns {
        value,
        count: matches.get_str("count"),
        time: matches.get_str("time"),
        groups,
        conditions,
    };
    if is_json {
        return Ok(Form::Json(columns));
    }
    Ok(Form::Table(Table {
        columns,
        delimiter: delimiter_of(alloc, matches)?,
        has_header: !matches.get_flag("no-header"),
    }))
}

/// Checks that no interval is expected between samples that are counted together.
fn check_count(alloc: Global, matches: &ArgMatches<'_>) -> Result<(), StatError> {
    if matches.get_str("count").is_some() && matches.get_str("expected-interval").is_some() {
        let why = "does not go with --expected-interval, which is between single numbers";
        return Err(StatError::usage(alloc, "--count", why));
    }
    Ok(())
}

/// Checks that a regular expression is valid and has one group.
fn check_regex(alloc: Global, text: &str) -> Result<(), StatError> {
    match Regex::new(alloc, text) {
        Ok(regex) if regex.captures_len() == 2 => Ok(()),
        Err(regex::Error::OutOfMemory) => Err(StatError::OutOfMemory),
        _ => {
            let why = "is not a regular expression with one group, such as 'time=([0-9.]+)'";
            Err(StatError::usage(alloc, text, why))
        }
    }
}

/// Returns the names of the columns of groups.
pub fn groups_by<'a>(alloc: Global, matches: &ArgMatches<'a>) -> Result<Vec<&'a str>, AllocError> {
    let mut names = Vec::new(alloc);
    for name in matches.get_strs("by").unwrap_or(&[]) {
        names.push(*name).map_err(|_| AllocError)?;
    }
    Ok(names)
}

/// Returns the conditions of the arguments.
pub fn conditions_of<'a>(
    alloc: Global,
    matches: &ArgMatches<'a>,
) -> Result<Vec<Condition<'a>>, StatError> {
    let mut conditions = Vec::new(alloc);
    for argument in matches.get_strs("where").unwrap_or(&[]) {
        let Some((column, text)) = argument.split_once('=') else {
            let why = "is not a condition, such as metric=http_req_duration";
            return Err(StatError::usage(alloc, *argument, why));
        };
        if conditions.push(Condition { column, text }).is_err() {
            return Err(StatError::OutOfMemory);
        }
    }
    Ok(conditions)
}

/// Returns how numbers are divided into intervals.
pub fn cut_of<'l, 'n>(
    alloc: Global,
    matches: &ArgMatches<'_>,
    groups: &'l [&'n str],
) -> Result<Cut<'l, 'n>, StatError> {
    Ok(Cut {
        length: length_of(alloc, matches)?,
        time_unit: matches.get_str("time-unit").and_then(TimeUnit::from_name),
        groups,
    })
}

/// A log has times in milliseconds.
const NANOS_OF_A_MILLISECOND: u64 = 1_000_000;

/// The length of an interval, if the arguments have none.
const SECOND: u64 = 1_000_000_000;

/// Returns the length of an interval in nanoseconds, if numbers have times.
fn length_of(alloc: Global, matches: &ArgMatches<'_>) -> Result<Option<u64>, StatError>
    ensures { IfOk result (λ length. IfSome length (λ nanos. (0 < nanos) × (nanos % 1000000 ≡ 0))) }
{
    if matches.get_str("time").is_none() {
        return Ok(None);
    }
    match nanoseconds_of(alloc, matches, "every")? {
        Some(nanos) if nanos == 0 || nanos % NANOS_OF_A_MILLISECOND != 0 => {
            let text = matches.get_str("every").unwrap_or("0");
            let why = "is not a number of milliseconds above 0";
            Err(StatError::usage(alloc, text, why))
        }
        Some(nanos) => Ok(Some(nanos)),
        None => Ok(Some(SECOND)),
    }
}

/// Returns the delimiter of tables, if there is one.
fn delimiter_of(alloc: Global, matches: &ArgMatches<'_>) -> Result<Option<u8>, StatError> {
    let Some(text) = matches.get_str("delimiter") else {
        return Ok(None);
    };
    let why = "is not a delimiter: comma, tab, semicolon, space, or one ASCII character";
    let delimiter = parse_delimiter(text).ok_or_else(|| StatError::usage(alloc, text, why))?;
    Ok(Some(delimiter))
}

/// Parses a delimiter: a name, or a character of ASCII.
fn parse_delimiter(name: &str) -> Option<u8>
    ensures { IfSome result IsDelimiter }
{
    match name {
        "comma" => Some(b','),
        "tab" => Some(b'\t'),
        "semicolon" => Some(b';'),
        "space" => Some(b' '),
        _ => match name.as_bytes() {
            [byte] if is_delimiter(*byte) => Some(*byte),
            _ => None,
        },
    }
}

/// Whether a byte may be a delimiter. Quotes and ends of lines may not.
fn is_delimiter(byte: u8) -> bool
    ensures { IsTrue result ↔ IsDelimiter byte }
{
    byte.is_ascii() && byte != b'"' && byte != b'\n' && byte != b'\r'
}
