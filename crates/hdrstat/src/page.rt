//! `hdrstat page`.

ghost use Rattle.std.specs.Prelude.{◌<◌, ◌≤◌, IfSome};

use crate::compared::compared_logs;
use clap::{Arg, ArgAction, ArgMatches, Command, Error};
use hdr_commands::options::arguments::{
    TAGS_BY, flag, option, skip_bad, tag_by_file, with_choice, with_groups, with_rows, with_times,
};
use hdr_commands::options::forms::{conditions_of, cut_of, form_of, groups_by};
use hdr_commands::options::matches::{choice_of, file_names_of, unit_of};
use hdr_commands::summary::{USUAL_PERCENTILES, percentiles_of};
use hdr_files::{
    Files, Form, StatError, check_output, log_of_intervals, read_intervals, read_intervals_of,
    write_output,
};
use hdr_input::distribution::MOST_DECIMALS;
use hdr_input::{Number, Recording};
use hdr_logs::{LogError, LogIntervals};
use hdr_page::{Comparison, PageLevel, PageOptions, page, page_text, rows};
use hdr_summary::levels::{Level, Measure, Side, parse_level_in};
use hdr_summary::units::Unit;
use std::alloc::{AllocError, Global};
use std::process::ExitCode;

const AFTER: &str = "\
The page begins with a sentence on all samples, and with what was slow or missing: when, for how
long, of which tags, and how bad. A table has a row for each tag. Drawings show the percentiles
over time, all percentiles, and a heat map of each of ten tags: those of incidents first, then
those with the most samples. The page has no script, and needs no other file.

A time is slow if p50, p90, p99 or p99.9 of a tag is far above its usual value, and samples are
missing at half of the usual rate or less. The page says what far is, and which tags and percentiles
have too few samples to be tested. With --level the sentence also says which tags keep it.

--tag-by-file keeps the intervals of each file apart, as `hdrstat gather` does. With --align, two
runs are shown over one another. The page of two logs begins with what `hdrstat compare` prints of
them, if they have one unit and the same decimals, and the curves of its percentiles have bands:
intervals of 95 %.

Values are in the unit and the decimals that comments of a log have, as `hdrstat log` writes them,
and otherwise integers of --unit. Each is shown in the longest unit in which it is one or more.

CSV is that of RFC 4180. An apostrophe stands before a tag that a spreadsheet may take for a
formula, which is one that begins with =, +, -, @, a tab or a CR.

Examples:
  hdrstat page --unit us service.log >page.html
  hdrstat page --unit us --level 'p99<=5ms' -o page.html service.log
  hdrstat page --unit us --tag-by-file --align before.log after.log >runs.html

Status: 0; 1 if a log is invalid, or input or output fails; 2 for a usage error.";

/// Returns the command line of `hdrstat page`.
pub(crate) fn command<'a>(alloc: Global) -> Result<Command<'a>, Error> {
    let help = "File to write, or - for standard output";
    let output = option(alloc, "output", "FILE", help).short('o');
    let help = "Print text for a terminal, and no page";
    let text = flag(alloc, "text", help).conflicts_with("intervals")?;
    let help = "Print CSV with a row for each interval, and no page";
    let intervals = flag(alloc, "intervals", help)
        .conflicts_with("title")?
        .conflicts_with("level")?;
    let help = "Interval logs to read, or tables; standard input if there are none, or for -";
    let inputs = Arg::new(alloc, "LOG").num_args(0..).help(help);
    let command = Command::new(alloc, "page")
        .about("Make an HTML page of interval logs, or of tables with times")
        .after_help(AFTER)
        .arg(inputs)?;
    let command = with_content(alloc, command)?
        .arg(output)?
        .arg(text)?
        .arg(intervals)?;
    Ok(command)
}

/// Adds the options of what is shown.
fn with_content<'a>(alloc: Global, command: Command<'a>) -> Result<Command<'a>, Error> {
    let help = "Unit of levels, and of values that have none; they are then shown with units";
    let unit = option(alloc, "unit", "UNIT", help).value_parser(Unit::NAMES.as_slice());
    let help = "Title of the page [default: Interval log]";
    let title = option(alloc, "title", "TEXT", help);
    let help =
        "Percentile, and the value that it should not exceed, such as 'p99<=5ms'; may be repeated";
    let level = option(alloc, "level", "LEVEL", help).action(ArgAction::Append);
    let help = "Move each log so that its first interval begins with that of the first log";
    let align = flag(alloc, "align", help);
    let command = command.arg(unit)?.arg(title)?.arg(level)?;
    let command = command.arg(tag_by_file(alloc))?.arg(align)?;
    let command = with_choice(alloc, command)?;
    let command = with_rows(alloc, command)?.arg(skip_bad(alloc))?;
    let command = with_times(alloc, command)?;
    with_groups(alloc, command, TAGS_BY)
}

/// Writes a page of logs, or a row for each of their intervals.
pub(crate) fn run(rt: &HostRuntime, matches: &ArgMatches<'_>) -> Result<ExitCode, StatError> {
    let alloc = rt.alloc();
    let asked = unit_of(matches);
    check_levels(alloc, matches, asked)?;
    let files = Files {
        rt,
        names: matches.get_strs("LOG").unwrap_or(&[]),
        is_quiet: true,
    };
    let output = matches.get_str("output").unwrap_or("-");
    check_output(rt, output, files.names)?;
    let intervals = intervals_of(files, matches)?;
    let levels = levels_of(alloc, matches, intervals.unit(), asked)?;
    let decimals = intervals.decimals().unwrap_or(0).min(MOST_DECIMALS);
    if !levels.is_empty() && intervals.converted > 0 {
        let why = "needs logs of one unit and of the same decimals; \
                   `hdrstat gather` makes one log of others";
        return Err(StatError::usage(alloc, "--level", why));
    }
    let (levels, amounts) = page_levels(alloc, &levels, decimals, asked.or(intervals.unit()))?;
    let options = PageOptions {
        title: matches.get_str("title").unwrap_or("Interval log"),
        unit: asked,
        levels: &levels,
        amounts: &amounts,
    };
    let compared = comparison_of(files, matches, &intervals)?;
    let text = text_of(alloc, matches, &intervals, options, compared.as_ref());
    let text = text.map_err(|cause| files.log_error(cause))?;
    write_output(rt, output, text.as_bytes())?;
    Ok(ExitCode::SUCCESS)
}

/// Returns the intervals of logs or of rows.
fn intervals_of(
    files: Files<'_, '_, '_>,
    matches: &ArgMatches<'_>,
) -> Result<LogIntervals, StatError> {
    let alloc = files.alloc();
    let groups = groups_by(alloc, matches)?;
    let conditions = conditions_of(alloc, matches)?;
    let form = form_of(alloc, matches, &groups, &conditions)?;
    intervals_of_form(files, matches, form, &groups)
}

/// Returns the intervals of input of a form.
fn intervals_of_form(
    files: Files<'_, '_, '_>,
    matches: &ArgMatches<'_>,
    form: Form<'_, '_>,
    groups: &[&str],
) -> Result<LogIntervals, StatError> {
    match form {
        Form::Lines => intervals_of_logs(files, matches),
        form => intervals_of_rows(files, matches, form, groups),
    }
}

/// Returns the intervals of logs.
fn intervals_of_logs(
    files: Files<'_, '_, '_>,
    matches: &ArgMatches<'_>,
) -> Result<LogIntervals, StatError> {
    if matches.get_flag("skip-bad") {
        let why = "needs --column or --json";
        return Err(StatError::usage(files.alloc(), "--skip-bad", why));
    }
    let choice = choice_of(files.alloc(), matches)?;
    let names = file_names_of(files.alloc(), matches, files.names)?;
    read_intervals(files, choice, &names, matches.get_flag("align"))
}

/// Returns the intervals of rows, which are those of the log that `hdrstat log` makes of them.
fn intervals_of_rows(
    files: Files<'_, '_, '_>,
    matches: &ArgMatches<'_>,
    form: Form<'_, '_>,
    groups: &[&str],
) -> Result<LogIntervals, StatError> {
    let alloc = files.alloc();
    check_rows_of_page(alloc, matches)?;
    let recording = Recording {
        sigfig: SIGFIG,
        decimals: 0,
        has_chosen_decimals: false,
        unit: unit_of(matches),
        interval: Number::ZERO,
        skips_bad: matches.get_flag("skip-bad"),
    };
    let cut = cut_of(alloc, matches, groups)?;
    let mut read = read_intervals_of(files, recording, form, cut)?;
    let log = log_of_intervals(alloc, &mut read, cut, unit_of(matches), None)?;
    let mut intervals = LogIntervals::new(alloc);
    intervals
        .read_log(alloc, 0, log.as_slice(), choice_of(alloc, matches)?, None)
        .map_err(|cause| files.log_error(cause))?;
    Ok(intervals)
}

/// The significant digits of a page.
const SIGFIG: u8 = 3;

/// Checks that rows of a page have times, and no options of several logs.
fn check_rows_of_page(alloc: Global, matches: &ArgMatches<'_>) -> Result<(), StatError> {
    if matches.get_str("time").is_none() {
        let why = "is needed for a page of rows: the column of their times";
        return Err(StatError::usage(alloc, "--time", why));
    }
    if matches.get_str("tag").is_some() && matches.get_str("by").is_none() {
        let why = "needs --by for rows, which otherwise have no tags";
        return Err(StatError::usage(alloc, "--tag", why));
    }
    for option in ["--tag-by-file", "--align"] {
        if matches.get_flag(option.trim_start_matches('-')) {
            return Err(StatError::usage(alloc, option, "is an option of logs alone"));
        }
    }
    Ok(())
}

/// Returns an error if an argument is not a level of a percentile that values are not to exceed,
/// whatever the unit of the logs.
fn check_levels(
    alloc: Global,
    matches: &ArgMatches<'_>,
    asked: Option<Unit>,
) -> Result<(), StatError> {
    for name in Unit::NAMES {
        let _ = levels_of(alloc, matches, Unit::from_name(name), asked)?;
    }
    Ok(())
}

/// Returns the levels of the arguments for values in the unit of logs, or else in the one that the
/// arguments ask for. A level without a unit is in the latter.
fn levels_of<'a>(
    alloc: Global,
    matches: &ArgMatches<'a>,
    of_logs: Option<Unit>,
    asked: Option<Unit>,
) -> Result<Vec<Level<'a>>, StatError> {
    let usual = asked.or(of_logs);
    let unit = of_logs.or(asked);
    let mut levels = Vec::new(alloc);
    for text in matches.get_strs("level").unwrap_or(&[]) {
        let Some(level) = parse_level_in(*text, usual, unit) else {
            return Err(bad_level(alloc, *text));
        };
        if page_level(&level, 0).is_none() {
            return Err(bad_level(alloc, *text));
        }
        if levels.push(level).is_err() {
            return Err(StatError::OutOfMemory);
        }
    }
    Ok(levels)
}

/// Returns the error of a text that is not a level of a page.
fn bad_level(alloc: Global, text: &str) -> StatError {
    let why = "is not a level of a percentile, such as p99<=5000 or, with --unit, p99<5ms";
    StatError::usage(alloc, text, why)
}

/// Returns the levels of a page of values of these decimals, in order, and the amount of each as it
/// is written, unless values may be up to it and it is an integer of the values. An amount without a
/// unit is in `usual`. Equal levels come once.
fn page_levels(
    alloc: Global,
    levels: &[Level<'_>],
    decimals: u32,
    usual: Option<Unit>,
) -> Result<(Vec<PageLevel>, Vec<Option<String>>), AllocError>
    requires { decimals ≤ 18 }
{
    let mut all = Vec::new(alloc);
    let mut amounts = Vec::new(alloc);
    for written in levels {
        let Some(level) = page_level(written, decimals) else {
            continue;
        };
        if all.iter().any(|other: &PageLevel| other.is(level)) {
            continue;
        }
        let is_at_most = matches!(written.side, Side::AtMost);
        let amount = if is_at_most && written.is_whole(decimals) {
            None
        } else {
            Some(amount_of(alloc, written, usual)?)
        };
        amounts.push(amount).map_err(|_| AllocError)?;
        all.push(level).map_err(|_| AllocError)?;
    }
    Ok((all, amounts))
}

/// Returns the amount of a level as it is written, and `usual` if it has no unit. Values have to be
/// below it if the sign of the level is `<`.
fn amount_of(alloc: Global, level: &Level<'_>, usual: Option<Unit>) -> Result<String, AllocError> {
    let mut text = String::new(alloc);
    if matches!(level.side, Side::Below) {
        text.push_str("below ")?;
    }
    text.push_str(level.amount())?;
    let last = level.amount().as_bytes().last();
    let has_unit = last.is_some_and(|byte| byte.is_ascii_alphabetic());
    if let (false, Some(unit)) = (has_unit, usual) {
        text.push(' ')?;
        text.push_str(unit.name())?;
    }
    Ok(text)
}

/// Returns the level of a page of values of these decimals: the greatest value that the level
/// allows. There is none unless the level bounds a percentile from above.
fn page_level(level: &Level<'_>, decimals: u32) -> Option<PageLevel>
    ensures { IfSome result (λ level. (0 < level.den) × (level.num ≤ level.den)) }
{
    let Measure::Quantile(quantile) = level.measure else {
        return None;
    };
    let (num, den) = (quantile.num(), quantile.den());
    if !level.side.is_upper() || num > den {
        return None;
    }
    let value = level.bound().most(decimals)?;
    Some(PageLevel { num, den, value })
}

/// Compares the logs of a page, if there are two, which are aligned and have tags by file.
fn comparison_of(
    files: Files<'_, '_, '_>,
    matches: &ArgMatches<'_>,
    intervals: &LogIntervals,
) -> Result<Option<Comparison>, StatError> {
    let are_two_runs = files.names.len() == 2
        && matches.get_flag("align")
        && matches.get_flag("tag-by-file");
    // (the classes of converted values are not those of their samples, so that a difference within a class might be false)
    if !are_two_runs || matches.get_flag("intervals") || intervals.converted > 0 {
        return Ok(None);
    }
    let alloc = files.alloc();
    let percentiles = percentiles_of(alloc, &USUAL_PERCENTILES)?;
    compared_logs(files, intervals, &percentiles)
}

/// Returns the text of intervals that the arguments ask for.
fn text_of(
    alloc: Global,
    matches: &ArgMatches<'_>,
    intervals: &LogIntervals,
    options: PageOptions<'_>,
    comparison: Option<&Comparison>,
) -> Result<String, LogError> {
    if matches.get_flag("intervals") {
        rows(alloc, intervals)
    } else if matches.get_flag("text") {
        page_text(alloc, intervals, options, comparison)
    } else {
        page(alloc, intervals, options, comparison)
    }
}
