//! `hdrstat compare`.

ghost use Rattle.std.specs.Prelude.{◌≡◌};
ghost use Rattle.std.specs.List.{list_any};
ghost use Rattle.hdr_commands.specs.Comparisons.{is_broken, is_few, status_of_limits};

use crate::options::arguments::{FIGURES, OUTPUT, help, option, quiet, with_reading};
use crate::options::forms::{conditions_of, groups_by};
use crate::options::matches::{reading_of, unit_of};
use crate::summary::{percentiles_of, percentiles_option, require_intervals};
use clap::{Arg, ArgAction, ArgMatches, Command, Error};
use hdr_files::{
    FEWEST_RUNS, Files, Reading, RunSides, StatError, coarser_unit, print, print_error_line,
    read_run,
};
use hdr_runs::{
    Limit, LimitVerdict, NamedRun, Report, ReportFormat, ReportLayout, Side, parse_limit,
};
use hdr_summary::decimals::Conversion;
use hdr_summary::percentile::Percentile;
use hdr_summary::units::Unit;
use std::alloc::Global;
use std::process::ExitCode;

const AFTER: &str = "\
Each percentile has the ends of its confidence interval: the ranks that chance could reach, if the
samples are correlated as over the run. A change is slower or faster if it is beyond chance, and the
same if chance could make it. `man hdrstat` has what an interval is, and what it cannot see.

Examples:
  hdrstat compare before.txt after.txt
  hdrstat compare -c response-time --by status-code --fail 'p99>+5%' before.csv after.csv
  hdrstat compare --from log --by-tag before.log after.log
  hdrstat compare b1 b2 b3 b4 --with a1 a2 a3 a4

Status: 0, also where chance leaves a change of --fail undecided; 3 if one is broken, and 4 if none
is, but one has too few samples; 1 if the input is invalid, or input or output fails; 2 for a usage
error.";

/// Returns the command line of `hdrstat compare`.
pub fn command<'a>(alloc: Global) -> Result<Command<'a>, Error> {
    let runs = Arg::new(alloc, "RUN")
        .required(true)
        .num_args(1..)
        .help("The run before, and those after it: a file each");
    let help_of_with = "The runs after, 4 or more; as many are then before: a file each";
    let with = option(alloc, "with", "RUN", help_of_with).num_args(1..);
    let command = Command::new(alloc, "compare")
        .about("Compare percentiles of runs, with confidence intervals")
        .after_help(AFTER)
        .disable_help_flag(true)
        .arg(runs)?
        .arg(with)?;
    let command = with_reading(alloc, command)?;
    let format = option(alloc, "format", "FORMAT", "Format of the output")
        .short('f')
        .value_parser(["table", "csv", "tsv", "json", "md"].as_slice())
        .default_value("table")
        .help_heading(OUTPUT);
    let fail = option(
        alloc,
        "fail",
        "CHANGE",
        "Fail if a percentile grows by more, as 'p99>+5%'",
    )
    .action(ArgAction::Append)
    .help_heading(FIGURES);
    let command = command
        .arg(percentiles_option(alloc))?
        .arg(fail)?
        .arg(format)?
        .arg(quiet(alloc).help_heading(OUTPUT))?
        .arg(help(alloc))?;
    Ok(command)
}

/// The status if a limit is broken.
const BROKEN: u8 = 3;

/// The status if none is broken, and one has too few samples.
const FEW: u8 = 4;

/// The runs that are compared.
#[derive(Drop)]
struct Runs<'n> {
    before: Vec<Side>,
    after: Vec<NamedRun<'n>>,
    /// Whether those before and those after are several runs of each side.
    has_several: bool,
    /// The unit of the values of logs: the coarsest of theirs.
    unit: Option<Unit>,
}

/// Compares the runs of files.
pub fn run(rt: &HostRuntime, matches: &ArgMatches<'_>) -> Result<ExitCode, StatError> {
    let alloc = rt.alloc();
    let groups = groups_by(alloc, matches)?;
    let conditions = conditions_of(alloc, matches)?;
    let reading = reading_of(alloc, matches, &groups, &conditions)?;
    let percentiles = percentiles_of(alloc, matches.get_strs("percentiles").unwrap_or(&[]))?;
    require_intervals(alloc, &percentiles)?;
    let limits = limits_of(alloc, matches, &percentiles)?;
    let runs = read_runs(rt, matches, reading)?;
    let layout = ReportLayout {
        format: format_of(matches),
        percentiles: &percentiles,
        has_tags: matches.get_flag("by-tag") || matches.get_str("by").is_some(),
        has_runs: runs.after.len() > 1,
        conversion: match (runs.unit, unit_of(matches)) {
            (Some(from), Some(to)) if from != to => Conversion::new(from, to),
            _ => Conversion::NONE,
        },
    };
    let verdicts = print_report(rt, &runs, &limits, &layout)?;
    Ok(ExitCode::from(status_of(&verdicts)))
}

/// Prints what changed, and returns the verdicts of limits. Without samples of any run there are too
/// few for each.
fn print_report(
    rt: &HostRuntime,
    runs: &Runs<'_>,
    limits: &[Limit<'_>],
    layout: &ReportLayout<'_>,
) -> Result<Vec<LimitVerdict>, StatError> {
    let alloc = rt.alloc();
    let report = Report::new(alloc, &runs.before, &runs.after, layout.percentiles)?;
    print(rt, report.text(alloc, layout)?.as_bytes())?;
    if layout.format.has_footer() {
        let footer = report.footer(alloc, &runs.before, &runs.after, layout, runs.has_several)?;
        print(rt, footer.as_bytes())?;
    }
    let mut verdicts = Vec::new(alloc);
    for line in report.limit_lines(alloc, limits, layout)? {
        verdicts.push(line.verdict)?;
        print_limit(rt, layout, line.text.as_str())?;
    }
    if verdicts.is_empty() {
        for limit in limits {
            let text = limit.text;
            verdicts.push(LimitVerdict::Few)?;
            print_limit(rt, layout, format!(in alloc; "few {text}")?.as_str())?;
        }
    }
    Ok(verdicts)
}

/// Prints the line of a limit, on standard error if the output is for programs.
fn print_limit(rt: &HostRuntime, layout: &ReportLayout<'_>, line: &str) -> Result<(), StatError> {
    if !layout.format.has_footer() {
        print_error_line(rt, line);
        return Ok(());
    }
    print(rt, line.as_bytes())?;
    print(rt, b"\n")
}

/// Reads runs.
#[derive(Drop)]
struct RunReader<'r, 'l, 'n> {
    rt: &'r HostRuntime,
    reading: Reading<'l, 'n>,
    is_quiet: bool,
    /// The unit of values without one.
    asked: Option<Unit>,
}

impl RunReader<'_, '_, '_> {
    /// Returns the samples of a run, or of several runs of one side.
    fn read(&self, names: &[&str]) -> Result<RunSides, StatError> {
        let files = Files {
            rt: self.rt,
            names,
            is_quiet: self.is_quiet,
        };
        let RunSides { sides, unit } = read_run(files, self.reading)?;
        Ok(RunSides {
            sides,
            unit: unit.or(self.asked),
        })
    }

    /// Returns the coarsest unit of runs, if they have units. If they have different ones and no
    /// other is asked for, it is printed on standard error.
    ///
    /// # Errors
    /// Returns a usage error if some runs have a unit and others have none.
    fn unit_of(&self, before: &RunSides, others: &[RunSides]) -> Result<Option<Unit>, StatError> {
        let mut unit = before.unit;
        let mut is_one = true;
        for run in others {
            let have_samples = !run.sides.is_empty() && !before.sides.is_empty();
            if have_samples && run.unit.is_some() != before.unit.is_some() {
                let why = "is needed: some logs have a unit of their values, and others have none";
                return Err(StatError::usage(self.rt.alloc(), "--unit", why));
            }
            is_one = is_one && run.unit == before.unit;
            unit = coarser_unit(unit, run.unit);
        }
        if let (false, None, Some(unit)) = (is_one, self.asked, unit) {
            let name = unit.name();
            let _ = eprintln!(self.rt;
                "hdrstat: values are in {name}, the coarsest unit of the logs"
            );
        }
        Ok(unit)
    }
}

/// Reads the runs of the arguments.
fn read_runs<'n>(
    rt: &HostRuntime,
    matches: &ArgMatches<'n>,
    reading: Reading<'_, 'n>,
) -> Result<Runs<'n>, StatError> {
    let reader = RunReader {
        rt,
        reading,
        is_quiet: matches.get_flag("quiet"),
        asked: unit_of(matches),
    };
    let names = matches.get_strs("RUN").unwrap_or(&[]);
    match matches.get_strs("with") {
        Some(after) => read_sides(rt.alloc(), &reader, names, after),
        None => read_each(rt.alloc(), &reader, names),
    }
}

/// Reads several runs of each side.
fn read_sides<'n>(
    alloc: Global,
    reader: &RunReader<'_, '_, 'n>,
    before: &[&'n str],
    after: &[&'n str],
) -> Result<Runs<'n>, StatError> {
    if before.len() < FEWEST_RUNS || after.len() < FEWEST_RUNS {
        let why = "needs 4 or more runs on each side";
        return Err(StatError::usage(alloc, "--with", why));
    }
    let before = reader.read(before)?;
    let mut runs = Vec::new(alloc);
    runs.push(reader.read(after)?)?;
    let unit = reader.unit_of(&before, &runs)?;
    let mut after = Vec::new(alloc);
    for run in runs {
        let sides = run.in_unit(unit)?;
        after.push(NamedRun {
            name: "after",
            sides,
        })?;
    }
    Ok(Runs {
        before: before.in_unit(unit)?,
        after,
        has_several: true,
        unit,
    })
}

/// Reads a run, and each of those after it.
fn read_each<'n>(
    alloc: Global,
    reader: &RunReader<'_, '_, 'n>,
    names: &[&'n str],
) -> Result<Runs<'n>, StatError> {
    let [before, after @ ..] = names else {
        return Err(StatError::usage(alloc, "compare", "needs two runs or more"));
    };
    if after.is_empty() {
        return Err(StatError::usage(alloc, "compare", "needs two runs or more"));
    }
    let before = reader.read(&[*before])?;
    let mut runs = Vec::new(alloc);
    for name in after {
        runs.push(reader.read(&[*name])?)?;
    }
    let unit = reader.unit_of(&before, &runs)?;
    let is_one = after.len() == 1;
    let mut named = Vec::new(alloc);
    for (name, run) in after.iter().zip(runs) {
        let name = if is_one { "after" } else { *name };
        let sides = run.in_unit(unit)?;
        named.push(NamedRun { name, sides })?;
    }
    Ok(Runs {
        before: before.in_unit(unit)?,
        after: named,
        has_several: false,
        unit,
    })
}

/// Returns the format of the output.
fn format_of(matches: &ArgMatches<'_>) -> ReportFormat {
    let format = matches.get_str("format").and_then(ReportFormat::from_name);
    format.unwrap_or(ReportFormat::Table)
}

/// Parses the limits of changes, which are of percentiles that are compared.
fn limits_of<'a>(
    alloc: Global,
    matches: &ArgMatches<'a>,
    percentiles: &[Percentile<'_>],
) -> Result<Vec<Limit<'a>>, StatError> {
    let mut limits = Vec::new(alloc);
    for text in matches.get_strs("fail").unwrap_or(&[]) {
        let Some(limit) = parse_limit(*text) else {
            let why = "is not a change of at most 3 decimals, such as p99>+5%";
            return Err(StatError::usage(alloc, *text, why));
        };
        if !percentiles.iter().any(|percentile| limit.is_of(percentile)) {
            let why = "is of a percentile that is not compared: -p adds it";
            return Err(StatError::usage(alloc, *text, why));
        }
        if limits.push(limit).is_err() {
            return Err(StatError::OutOfMemory);
        }
    }
    Ok(limits)
}

/// Whether a verdict is that of a limit that is broken.
fn is_broken(verdict: LimitVerdict) -> bool
    ensures { result ≡ is_broken verdict }
{
    matches!(verdict, LimitVerdict::Broken)
}

/// Whether a verdict is that of a limit with too few samples.
fn is_few(verdict: LimitVerdict) -> bool
    ensures { result ≡ is_few verdict }
{
    matches!(verdict, LimitVerdict::Few)
}

/// Whether a limit is broken.
fn have_broken(verdicts: &[LimitVerdict]) -> bool
    ensures { result ≡ list_any is_broken verdicts.now }
{
    verdicts.iter().any(|verdict| is_broken(*verdict))
}

/// Whether a limit has too few samples.
fn have_few(verdicts: &[LimitVerdict]) -> bool
    ensures { result ≡ list_any is_few verdicts.now }
{
    verdicts.iter().any(|verdict| is_few(*verdict))
}

/// Returns the status: `BROKEN` if a limit is broken, and `FEW` if one has too few samples.
fn status_of(verdicts: &[LimitVerdict]) -> u8
    ensures { result ≡ status_of_limits verdicts.now }
{
    if have_broken(verdicts) {
        BROKEN
    } else if have_few(verdicts) {
        FEW
    } else {
        0
    }
}
