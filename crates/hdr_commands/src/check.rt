//! `hdrstat check`.

ghost use Rattle.std.specs.Prelude.{◌≡◌};
ghost use Rattle.std.specs.List.{list_any, list_all};
ghost use Rattle.hdr_commands.specs.Statuses.{is_broken, is_kept, status_of_verdicts};

use crate::options::arguments::{self, FIGURES, INPUT, OUTPUT, flag, option, quiet, with_reading};
use crate::options::forms::{conditions_of, groups_by};
use crate::options::matches::{reading_of, unit_of};
use crate::summary::MOST_DENOMINATOR;
use clap::{Arg, ArgAction, ArgMatches, Command, Error};
use hdr_compare::Tier;
use hdr_files::{Checked, Files, Reading, StatError, check_logs, check_numbers, print};
use hdr_runs::LogLevels;
use hdr_summary::levels::{Level, Measure, parse_level_in};
use hdr_summary::units::Unit;
use hdr_summary::verdicts::Verdict;
use std::alloc::Global;
use std::fs;
use std::process::ExitCode;

const AFTER: &str = "\
A level is a figure (count, min, max, mean, or a percentile such as p99), a sign (<, <=, > or
>=) and a number. Each is printed on a line, with the value of its figure:
  kept, broken  the sample of the percentile's rank is on the side of the level, or is not
  undecided     a log only has the class of that sample, which has values on both sides, or
                numbers were rounded, and their mean is on either side
  few           too few samples, all of them on the side where so few are likely to be

Numbers are compared as they were read, and with levels as they are written. With --ci the
confidence intervals of percentiles decide, wrongly by chance in at most 5 % of the runs of a
tag: one is undecided if its interval has values on both sides of the level, and few if the
samples are too few for the end of the interval on which the level depends.

Examples:
  hdrstat check 'p99<0.2' 'max<=1' <latencies.txt
  hdrstat check 'p99<200ms' 'count>=1000' --unit s -c response-time -i hey.csv
  hdrstat check 'p99.9<=5000' --from log --by-tag -i service.log

Status: 0 if each level is kept; 3 if one is broken, or if there are no numbers; 4 if none is
broken, but one is undecided or few, or more lines were skipped than counted; 1 if the input is
invalid, or input or output fails; 2 for a usage error.";

/// Returns the command line of `hdrstat check`.
pub fn command<'a>(alloc: Global) -> Result<Command<'a>, Error> {
    let levels = Arg::new(alloc, "LEVEL")
        .required(true)
        .num_args(1..)
        .help("Levels to keep, such as 'p99<200'");
    let help = "File to read, in place of standard input; may be repeated";
    let input = option(alloc, "input", "FILE", help)
        .short('i')
        .action(ArgAction::Append)
        .help_heading(INPUT);
    let help = "Accept an input without numbers";
    let command = Command::new(alloc, "check")
        .about("Compare figures with levels, and fail if one is broken")
        .after_help(AFTER)
        .disable_help_flag(true)
        .arg(levels)?
        .arg(input)?
        .arg(flag(alloc, "allow-empty", help).help_heading(INPUT))?;
    let help = "Decide percentiles only if the samples suffice, also correlated ones";
    let command = with_reading(alloc, command)?
        .arg(flag(alloc, "ci", help).help_heading(FIGURES))?
        .arg(quiet(alloc).help_heading(OUTPUT))?
        .arg(arguments::help(alloc))?;
    Ok(command)
}

/// The status if a level is broken, or if the input is empty.
const BROKEN: u8 = 3;

/// The status if none is broken, and not all are kept.
const UNDECIDED: u8 = 4;

/// Compares the figures of the numbers of files with levels.
pub fn run(rt: &HostRuntime, matches: &ArgMatches<'_>) -> Result<ExitCode, StatError> {
    let alloc = rt.alloc();
    let groups = groups_by(alloc, matches)?;
    let conditions = conditions_of(alloc, matches)?;
    let reading = reading_of(alloc, matches, &groups, &conditions)?;
    let texts = matches.get_strs("LEVEL").unwrap_or(&[]);
    let asked = unit_of(matches);
    let levels = match reading {
        Reading::Numbers { .. } => levels_of(rt, texts, asked, asked)?,
        Reading::Logs { .. } => levels_of_logs(rt, texts, asked)?,
    };
    let tier = if matches.get_flag("ci") {
        Some(tier_of(alloc, &levels)?)
    } else {
        None
    };
    let files = Files {
        rt,
        names: matches.get_strs("input").unwrap_or(&[]),
        is_quiet: matches.get_flag("quiet"),
    };
    let written = LogLevels { texts, asked, tier };
    let checked = check_reading(files, reading, &levels, written)?;
    if checked.is_empty() && !matches.get_flag("allow-empty") {
        let _ = eprintln!(rt; "hdrstat: no numbers; --allow-empty accepts an empty input");
        return Ok(ExitCode::from(BROKEN));
    }
    let text = checked.text(alloc, &levels, asked)?;
    print(rt, text.as_bytes())?;
    Ok(ExitCode::from(status_of(&checked.verdicts(alloc)?, checked.is_mostly_skipped)))
}

/// Compares what the arguments ask to read with levels.
fn check_reading(
    files: Files<'_, '_, '_>,
    reading: Reading<'_, '_>,
    levels: &[Level<'_>],
    written: LogLevels<'_, '_>,
) -> Result<Checked, StatError> {
    match reading {
        Reading::Numbers { recording, form } => {
            check_numbers(files, recording, form, levels, written.tier)
        }
        Reading::Logs {
            choice,
            sigfig,
            is_by_tag,
        } => check_logs(files, sigfig, choice, is_by_tag, written),
    }
}

/// Whether a verdict is that of a level that is broken.
fn is_broken(verdict: Verdict) -> bool
    ensures { result ≡ is_broken verdict }
{
    matches!(verdict, Verdict::Broken)
}

/// Whether a verdict is that of a level that is kept.
fn is_kept(verdict: Verdict) -> bool
    ensures { result ≡ is_kept verdict }
{
    matches!(verdict, Verdict::Kept)
}

/// Whether a level is broken.
fn have_broken(verdicts: &[Verdict]) -> bool
    ensures { result ≡ list_any is_broken verdicts.now }
{
    verdicts.iter().any(|verdict| is_broken(*verdict))
}

/// Whether all levels are kept.
fn are_kept(verdicts: &[Verdict]) -> bool
    ensures { result ≡ list_all is_kept verdicts.now }
{
    verdicts.iter().all(|verdict| is_kept(*verdict))
}

/// Returns the status: 0 if all levels are kept and most lines were read, `BROKEN` if a level is
/// broken.
fn status_of(verdicts: &[Verdict], is_mostly_skipped: bool) -> u8
    ensures { result ≡ status_of_verdicts is_mostly_skipped verdicts.now }
{
    if have_broken(verdicts) {
        BROKEN
    } else if is_mostly_skipped {
        UNDECIDED
    } else if are_kept(verdicts) {
        0
    } else {
        UNDECIDED
    }
}

/// Parses levels for values in `unit`. A level without a unit is in `usual`.
fn levels_of<'a>(
    rt: &HostRuntime,
    texts: &[&'a str],
    usual: Option<Unit>,
    unit: Option<Unit>,
) -> Result<Vec<Level<'a>>, StatError> {
    let mut levels = Vec::new(rt.alloc());
    for text in texts {
        let Some(level) = parse_level_in(*text, usual, unit) else {
            return Err(bad_level(rt, *text));
        };
        if levels.push(level).is_err() {
            return Err(StatError::OutOfMemory);
        }
    }
    Ok(levels)
}

/// Parses levels for values of logs, whose unit is not known yet: they have to be levels whatever
/// it is.
fn levels_of_logs<'a>(
    rt: &HostRuntime,
    texts: &[&'a str],
    asked: Option<Unit>,
) -> Result<Vec<Level<'a>>, StatError> {
    for name in Unit::NAMES {
        let unit = Unit::from_name(name);
        let _ = levels_of(rt, texts, asked.or(unit), unit)?;
    }
    levels_of(rt, texts, None, asked.or(Some(Unit::Seconds)))
}

/// Returns the tier of the intervals of levels.
///
/// # Errors
/// Returns a usage error if there are more than 5,000 levels, or if one is of a mean, or of a
/// percentile with more than 4 decimals: these have no intervals.
fn tier_of(alloc: Global, levels: &[Level<'_>]) -> Result<Tier, StatError> {
    for level in levels {
        let Level { text, measure, .. } = *level;
        let why = match measure {
            Measure::Mean => "is of a mean, which has no interval",
            Measure::Quantile(quantile) if quantile.den() > MOST_DENOMINATOR => {
                "has more than 4 decimals, and so no interval"
            }
            _ => continue,
        };
        return Err(StatError::usage(alloc, text, why));
    }
    match Tier::of(levels.len() as u64) {
        Some(tier) => Ok(tier),
        None => Err(StatError::usage(alloc, "--ci", "decides at most 5000 levels")),
    }
}

/// Returns the error of an argument that is not a level.
fn bad_level(rt: &HostRuntime, argument: &str) -> StatError {
    let why = if fs::metadata(rt, argument).is_ok() {
        "is a file, and not a level: -i reads it"
    } else {
        "is not a level, such as p99<200, max<=1.5 or, with --unit, p99<200ms"
    };
    StatError::usage(rt.alloc(), argument, why)
}
