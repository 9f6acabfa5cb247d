//! What arguments mean.

use crate::options::forms::{check_rows, form_of};
use clap::ArgMatches;
use hdr_files::{FileNames, Form, Reading, StatError};
use hdr_input::columns::Condition;
use hdr_input::group_texts::tag_text;
use hdr_input::{Number, Recording};
use hdr_summary::units::{Unit, in_unit, parse_amount};
use hdrhistogram::serialization::interval_log::{IntervalChoice, Tag, TagChoice};
use std::alloc::{AllocError, Global};
use std::time::Duration;

/// Returns how the input is read.
pub(crate) fn reading_of<'l, 'n>(
    alloc: Global,
    matches: &ArgMatches<'n>,
    groups: &'l [&'n str],
    conditions: &'l [Condition<'n>],
) -> Result<Reading<'l, 'n>, StatError> {
    check_rows(alloc, matches)?;
    let is_log = matches.get_str("from") == Some("log");
    if let Some(option) = misplaced_option(matches, is_log) {
        let why = if is_log {
            "is not an option of --from log"
        } else {
            "is an option of --from log alone"
        };
        return Err(StatError::usage(alloc, option, why));
    }
    if is_log {
        Ok(Reading::Logs {
            choice: choice_of(alloc, matches)?,
            sigfig: digits_of(matches),
            is_by_tag: matches.get_flag("by-tag"),
        })
    } else {
        Ok(Reading::Numbers {
            recording: recording_of(alloc, matches)?,
            form: form_of(alloc, matches, groups, conditions)?,
        })
    }
}

/// Options of numbers, and options of logs, which have a value.
const OF_NUMBERS: [&str; 6] = [
    "--column",
    "--json",
    "--match",
    "--delimiter",
    "--decimals",
    "--expected-interval",
];

const OF_LOGS: [&str; 3] = ["--tag", "--from-time", "--to-time"];

/// Returns an option that does not go with the input, if one is present.
fn misplaced_option(matches: &ArgMatches<'_>, is_log: bool) -> Option<&'static str> {
    if is_log {
        if matches.get_flag("skip-bad") {
            return Some("--skip-bad");
        }
        return first_present(matches, OF_NUMBERS.as_slice());
    }
    if matches.get_flag("by-tag") {
        return Some("--by-tag");
    }
    first_present(matches, OF_LOGS.as_slice())
}

/// Returns the first of some options that is present, if one is.
fn first_present<'a>(matches: &ArgMatches<'_>, options: &[&'a str]) -> Option<&'a str> {
    options.iter().copied().find(|option| matches.get_str(option.trim_start_matches('-')).is_some())
}

/// Returns how numbers are recorded.
pub(crate) fn recording_of(
    alloc: Global,
    matches: &ArgMatches<'_>,
) -> Result<Recording, StatError> {
    let decimals = matches.get_one::<u32>("decimals");
    Ok(Recording {
        sigfig: digits_of(matches),
        decimals: decimals.unwrap_or(0),
        has_chosen_decimals: decimals.is_some(),
        unit: unit_of(matches),
        interval: interval_of(alloc, matches)?,
        skips_bad: matches.get_flag("skip-bad"),
    })
}

/// Returns the significant digits.
fn digits_of(matches: &ArgMatches<'_>) -> u8 {
    matches.get_one::<u8>("digits").unwrap_or(3)
}

/// Returns the expected interval, 0 if there is none.
fn interval_of(alloc: Global, matches: &ArgMatches<'_>) -> Result<Number, StatError> {
    let Some(text) = matches.get_str("expected-interval") else {
        return Ok(Number::ZERO);
    };
    let interval = parse_amount(text, unit_of(matches)).unwrap_or(Number::ZERO);
    if interval.digits == 0 {
        let why = "is not an interval above 0, such as 10, 0.01 or, with --unit, 10ms";
        return Err(StatError::usage(alloc, text, why));
    }
    let decimals = matches.get_one::<u32>("decimals");
    if decimals.is_some_and(|decimals| interval.is_rounded(decimals)) {
        let why = "is an interval with more decimals than --decimals";
        return Err(StatError::usage(alloc, text, why));
    }
    Ok(interval)
}

/// Returns the unit of the numbers, if there is one.
pub fn unit_of(matches: &ArgMatches<'_>) -> Option<Unit> {
    Unit::from_name(matches.get_str("unit")?)
}

/// Returns the choice of intervals.
pub fn choice_of<'a>(
    alloc: Global,
    matches: &ArgMatches<'a>,
) -> Result<IntervalChoice<'a>, StatError> {
    let tags = match tag_of(alloc, matches)? {
        Some(tag) if tag.as_str().is_empty() => TagChoice::Untagged,
        Some(tag) => TagChoice::Tagged(tag),
        None => TagChoice::Every,
    };
    let from = nanoseconds_of(alloc, matches, "from-time")?;
    let to = nanoseconds_of(alloc, matches, "to-time")?;
    if let (Some(from), Some(to)) = (from, to) {
        if to <= from {
            let text = matches.get_str("to-time").unwrap_or("--to-time");
            return Err(StatError::usage(alloc, text, "is not after --from-time"));
        }
    }
    Ok(IntervalChoice {
        tags,
        from: from.map(Duration::from_nanos),
        to: to.map(Duration::from_nanos),
    })
}

/// Returns the names of files in tags, if the arguments ask for them.
pub fn file_names_of(
    alloc: Global,
    matches: &ArgMatches<'_>,
    paths: &[&str],
) -> Result<FileNames, StatError> {
    if matches.get_flag("tag-by-file") {
        FileNames::new(alloc, paths)
    } else {
        Ok(FileNames::none(alloc))
    }
}

/// Returns the tag of the arguments, if there is one.
pub(crate) fn tag_of<'a>(
    alloc: Global,
    matches: &ArgMatches<'a>,
) -> Result<Option<Tag<'a>>, StatError> {
    let Some(text) = matches.get_str("tag") else {
        return Ok(None);
    };
    match Tag::new(text) {
        Some(tag) => Ok(Some(tag)),
        None => Err(not_a_tag(alloc, text)?),
    }
}

/// Returns the error of a text that is not a tag, with the one that logs of groups have for it.
fn not_a_tag(alloc: Global, text: &str) -> Result<StatError, AllocError> {
    let escaped = tag_text(alloc, text)?;
    let why = format!(in alloc;
        "is not a tag: it has a comma, a space or an end of line; `log --by` writes it as {escaped}"
    )?;
    Ok(StatError::usage(alloc, text, why.as_str()))
}

/// Returns the time of an option in nanoseconds. It is in seconds if it has no unit.
pub(crate) fn nanoseconds_of(
    alloc: Global,
    matches: &ArgMatches<'_>,
    option: &str,
) -> Result<Option<u64>, StatError> {
    let Some(text) = matches.get_str(option) else {
        return Ok(None);
    };
    let why = "is not a time, such as 1764054000, 90.5 or 500ms";
    let nanos = parse_nanoseconds(text).ok_or_else(|| StatError::usage(alloc, text, why))?;
    Ok(Some(nanos))
}

/// Parses a time, which is in seconds if it has no unit.
fn parse_nanoseconds(text: &str) -> Option<u64> {
    let time = parse_amount(text, Some(Unit::Seconds))?;
    in_unit(time, Unit::Seconds, Unit::Nanoseconds)?.rounded(0)
}
