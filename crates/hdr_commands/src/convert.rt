//! `hdrstat convert`.

use crate::options::arguments::{logs, option, quiet, with_choice};
use crate::options::matches::choice_of;
use clap::{ArgMatches, Command, Error};
use hdr_convert::Form;
use hdr_files::{Files, Input, StatError, print};
use hdr_input::Unit;
use hdr_logs::{LineBuffer, LogError, LogReader, Place, check_unit};
use hdrhistogram::serialization::interval_log::IntervalChoice;
use std::alloc::{AllocError, Global};
use std::io::Read;
use std::process::ExitCode;

const AFTER: &str = "\
Other HdrHistogram libraries compress the histograms of their logs. `hdr` reads and writes
plain ones. Comments, tags, times and greatest values stay as they are. Compressed logs have
the comment of their version, without which HdrHistogram_c does not read them.

Examples:
  hdrstat convert --to plain java.log >plain.log
  hdrstat convert --to compressed all.log >java.log

Status: 0; 1 if a log is invalid, or input or output fails; 2 for a usage error.";

/// Returns the command line of `hdrstat convert`.
pub fn command<'a>(alloc: Global) -> Result<Command<'a>, Error> {
    let to = option(alloc, "to", "FORM", "The form of the histograms")
        .value_parser(["plain", "compressed"].as_slice())
        .required(true);
    let command = Command::new(alloc, "convert")
        .about("Convert interval logs from and to those of other HdrHistogram libraries")
        .after_help(AFTER)
        .arg(to)?
        .arg(quiet(alloc))?
        .arg(logs(alloc))?;
    with_choice(alloc, command)
}

/// Prints logs with their histograms in the form of the arguments.
pub fn run(rt: &HostRuntime, matches: &ArgMatches<'_>) -> Result<ExitCode, StatError> {
    let form = match matches.get_str("to") {
        Some("compressed") => Form::Compressed,
        _ => Form::Plain,
    };
    let choice = choice_of(rt.alloc(), matches)?;
    let files = Files {
        rt,
        names: matches.get_strs("LOG").unwrap_or(&[]),
        is_quiet: matches.get_flag("quiet"),
    };
    let mut headers = Headers::NONE;
    files.read_each(|index, input| convert_log(files, index, input, form, choice, &mut headers))?;
    Ok(ExitCode::SUCCESS)
}

/// Prints the chosen intervals of a log with their histograms in a form, up to its first error. The headers
/// of the logs before do not hold for it.
fn convert_log(
    files: Files<'_, '_, '_>,
    index: usize,
    input: Input<'_>,
    form: Form,
    choice: IntervalChoice<'_>,
    headers: &mut Headers,
) -> Result<(), StatError> {
    let alloc = files.alloc();
    let mut log = LogReader::new(alloc, index, input, choice).map_err(|cause| files.log_error(
        cause,
    ))?;
    let mut buffer = LineBuffer::new(alloc);
    let mut converted = Vec::new(alloc);
    let mut heading = Heading {
        before: *headers,
        own: Headers::NONE,
        lacks_version: form == Form::Compressed && index == 0,
        place: Place {
            file: index,
            line: 0,
        },
    };
    heading.before.push_resets(&mut converted)?;
    for _ in 0..u64::MAX {
        let goes_on = convert_lines(
            alloc,
            &mut log,
            form,
            &mut buffer,
            &mut converted,
            &mut heading,
        );
        print(files.rt, &converted)?;
        converted.clear();
        if !matches!(goes_on, Ok(true)) {
            *headers = Headers {
                unit: heading.own.unit.or(headers.unit),
                ..heading.own
            };
            files.print_notes(log.notes());
            return goes_on.map(|_| ()).map_err(|cause| files.log_error(cause));
        }
    }
    Err(files.log_error(LogError::TooManyLines))
}

/// The length of the lines that are printed at once, unless the input has no more yet.
const PIECE: usize = 65_536;

/// The comment of the version of logs of other libraries.
const VERSION: &[u8] = b"#[Histogram log format version 1.3]\n";

/// What any version's comment begins with.
const ANY_VERSION: &[u8] = b"#[Histogram log format version ";

/// What the comment begins with that has a base time, and the comment that times have none.
const BASE_TIME: &[u8] = b"#[BaseTime: ";

const NO_BASE_TIME: &[u8] = b"#[BaseTime: 0.000 (seconds since epoch)]";

/// What the comment begins with that has the decimals of values, and the comment that they have none.
const DECIMALS: &[u8] = b"#[Values have ";

const NO_DECIMALS: &[u8] = b"#[Values have 0 decimals]";

/// What the comment begins with that has the unit of values, and how it ends.
const UNIT: &[u8] = b"#[Values are in ";

const UNIT_END: &[u8] = b"]";

/// The comments of logs that hold for all lines after them.
#[derive(Clone, Copy)]
struct Headers {
    has_base_time: bool,
    has_decimals: bool,
    unit: Option<Unit>,
}

impl Headers {
    const NONE: Headers = Headers {
        has_base_time: false,
        has_decimals: false,
        unit: None,
    };

    /// Returns what holds after a comment.
    fn with(self, comment: &[u8]) -> Headers {
        let text = comment.trim_ascii_end();
        Headers {
            has_base_time: if text.starts_with(BASE_TIME) {
                text != NO_BASE_TIME
            } else {
                self.has_base_time
            },
            has_decimals: if text.starts_with(DECIMALS) {
                text != NO_DECIMALS
            } else {
                self.has_decimals
            },
            unit: unit_of(text).or(self.unit),
        }
    }

    /// Appends comments that end the base time and the decimals.
    fn push_resets(self, converted: &mut Vec<u8>) -> Result<(), AllocError> {
        if self.has_base_time {
            push_line(converted, NO_BASE_TIME)?;
        }
        if self.has_decimals {
            push_line(converted, NO_DECIMALS)?;
        }
        Ok(())
    }
}

/// Appends a line.
fn push_line(converted: &mut Vec<u8>, line: &[u8]) -> Result<(), AllocError> {
    converted.extend_from_slice(line)?;
    converted.extend_from_slice(b"\n")
}

/// Returns the unit of values, if a comment has it.
fn unit_of(comment: &[u8]) -> Option<Unit> {
    let name = comment.strip_prefix(UNIT)?.strip_suffix(UNIT_END)?;
    Unit::from_name(str::from_utf8(name).ok()?)
}

/// What is known of a log while it is converted.
#[derive(Clone, Copy)]
struct Heading {
    /// The headers of the logs before, and those of the log so far.
    before: Headers,
    own: Headers,
    /// Whether the comment of the version is to come.
    lacks_version: bool,
    /// The last line.
    place: Place,
}

impl Heading {
    /// Takes the last line, which begins at `start`.
    ///
    /// # Errors
    /// Returns `MissingUnit` if the line is an interval whose values have no unit, and a log before has
    /// one. The line is then removed.
    fn take_line(
        &mut self,
        alloc: Global,
        converted: &mut Vec<u8>,
        start: usize,
    ) -> Result<(), LogError> {
        self.place.line = self.place.line.saturating_add(1);
        let line = converted.get(start..).unwrap_or(&[]);
        if line.starts_with(b"#") {
            self.own = self.own.with(line);
        } else if self.own.unit.is_none() && is_interval(line) {
            if let Err(error) = check_unit(self.place, None, self.before.unit) {
                converted.truncate(start);
                return Err(error);
            }
        }
        self.add_version(alloc, converted, start)?;
        Ok(())
    }

    /// Inserts the comment of the version before the line at `start`, which is the last one, if that is the
    /// first line of a log that does not begin with `#`. A comment of any version before it is enough.
    fn add_version(
        &mut self,
        alloc: Global,
        converted: &mut Vec<u8>,
        start: usize,
    ) -> Result<(), AllocError> {
        let line = converted.get(start..).unwrap_or(&[]);
        if !self.lacks_version || line.is_empty() {
            return Ok(());
        }
        if line.starts_with(b"#") {
            self.lacks_version = !line.starts_with(ANY_VERSION);
            return Ok(());
        }
        let mut last = Vec::new(alloc);
        last.extend_from_slice(line)?;
        converted.truncate(start);
        converted.extend_from_slice(VERSION)?;
        converted.extend_from_slice(&last)?;
        self.lacks_version = false;
        Ok(())
    }
}

/// Whether a line of a log is an interval, unless it is a comment: it has no names of fields, and is not
/// blank.
fn is_interval(line: &[u8]) -> bool {
    !line.starts_with(b"\"") && !line.trim_ascii().is_empty()
}

/// Appends the next lines of a log. Returns whether there may be more.
fn convert_lines<R: Read + Drop>(
    alloc: Global,
    log: &mut LogReader<'_, R>,
    form: Form,
    buffer: &mut LineBuffer,
    converted: &mut Vec<u8>,
    heading: &mut Heading,
) -> Result<bool, LogError> {
    for _ in 0..u64::MAX {
        let start = converted.len();
        if !log.convert_line(alloc, form, buffer, converted)? {
            if heading.lacks_version {
                converted.extend_from_slice(VERSION)?;
            }
            return Ok(false);
        }
        heading.take_line(alloc, converted, start)?;
        if converted.len() >= PIECE || log.is_drained() {
            return Ok(true);
        }
    }
    Err(LogError::TooManyLines)
}
