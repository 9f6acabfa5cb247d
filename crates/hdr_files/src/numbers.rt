//! Numbers from the files of the arguments.

use crate::errors::StatError;
use crate::files::Files;
use crate::surveyed::NumberFiles;
use hdr_input::blanks::BlankReader;
use hdr_input::columns::{Columns, TableLayout, guess_delimiter, read_rows};
use hdr_input::groups::{GroupMaker, GroupParts, GroupSink, Groups};
use hdr_input::json_lines::read_json;
use hdr_input::match_lines::read_matches;
use hdr_input::pieces::{LineSink, read_lines};
use hdr_input::retry::RetryReader;
use hdr_input::rows::RowSink;
use hdr_input::{InputError, Recording, Tally};
use regex::bytes::Regex;
use std::alloc::{AllocError, Global};
use std::io::Read;

/// How many bytes of a longer first line determine the delimiter of a table.
const START: usize = 8_192;

/// The form of the input.
#[derive(Clone, Copy)]
pub enum Form<'l, 'n> {
    /// A number on each line.
    Lines,
    Table(Table<'l, 'n>),
    /// A value of JSON on each line, of which the columns are paths.
    Json(Columns<'l, 'n>),
    /// The group of a regular expression in the lines that match.
    Match(&'n str),
}

/// The columns of a table.
#[derive(Clone, Copy)]
pub struct Table<'l, 'n> {
    pub columns: Columns<'l, 'n>,
    /// The byte between columns, or `None` if the first line determines it.
    pub delimiter: Option<u8>,
    pub has_header: bool,
}

impl<'l, 'n> Form<'l, 'n> {
    /// Returns the columns of the texts that have groups, if numbers are counted by groups.
    pub(crate) fn groups(self) -> Option<&'l [&'n str]> {
        let columns = self.columns()?;
        if columns.groups.is_empty() {
            return None;
        }
        Some(columns.groups)
    }

    /// Returns a note that no line was chosen, if a choice of lines is all that can have left them
    /// out.
    pub(crate) fn note_of_none(self) -> Option<&'static str> {
        match self {
            Form::Match(_) => Some("--match finds no number"),
            Form::Table(table) if chooses_rows(table.columns) => {
                Some("no row has the text of each --where")
            }
            Form::Json(columns) if chooses_rows(columns) => {
                Some("no line has the text of each --where")
            }
            _ => None,
        }
    }

    /// Returns the columns of a table or of JSON.
    fn columns(self) -> Option<Columns<'l, 'n>> {
        match self {
            Form::Lines | Form::Match(_) => None,
            Form::Table(table) => Some(table.columns),
            Form::Json(columns) => Some(columns),
        }
    }
}

/// Whether rows are chosen by texts of columns, and each chosen one has a number.
fn chooses_rows(columns: Columns<'_, '_>) -> bool {
    !columns.conditions.is_empty() && columns.count.is_none()
}

/// Returns the numbers of files. How many lines were skipped and how many numbers were rounded is
/// printed on standard error.
///
/// # Errors
/// Returns `MostlySkipped` if more lines were skipped than numbers read.
pub fn read_numbers(
    files: Files<'_, '_, '_>,
    recording: Recording,
    form: Form<'_, '_>,
) -> Result<Tally, StatError> {
    let tally = read_sink(files, recording, form)?;
    require_most_lines(tally.numbers(), tally.skipped)?;
    Ok(tally)
}

/// Returns a sink of the numbers of files. How many lines were skipped and how many numbers were
/// rounded is printed on standard error.
pub(crate) fn read_sink<M: GroupMaker + Copy + Drop>(
    files: Files<'_, '_, '_>,
    maker: M,
    form: Form<'_, '_>,
) -> Result<M::Sink, StatError> {
    let mut numbers = NumberFiles::new(files, maker.recording(), form)?;
    let mut sink = sink_of(files.alloc(), maker, &mut numbers)?;
    if numbers.becomes_finer(sink.tally().rounded)? {
        sink = sink_of(files.alloc(), maker, &mut numbers)?;
    }
    let tally = sink.tally();
    numbers.print_notes(tally.numbers() == 0, tally.skipped, tally.rounded)?;
    Ok(sink)
}

/// Returns a sink of the numbers of files as they are recorded now.
fn sink_of<M: GroupMaker + Copy + Drop>(
    alloc: Global,
    maker: M,
    numbers: &mut NumberFiles<'_, '_, '_, '_, '_>,
) -> Result<M::Sink, StatError> {
    let maker = maker.with_recording(numbers.recording);
    let mut sink = maker.make(alloc).map_err(|_| StatError::OutOfMemory)?;
    numbers.read_into(&mut sink)?;
    Ok(sink)
}

/// Returns an error if more lines were skipped than numbers read.
pub(crate) fn require_most_lines(numbers: u64, skipped: u64) -> Result<(), StatError> {
    if numbers < skipped {
        return Err(StatError::MostlySkipped);
    }
    Ok(())
}

/// Returns the groups of the numbers of files. How many lines were skipped and how many numbers were
/// rounded is printed on standard error.
pub(crate) fn read_groups<M: GroupMaker + Copy + Drop>(
    files: Files<'_, '_, '_>,
    maker: M,
    form: Form<'_, '_>,
    columns: &[&str],
) -> Result<GroupParts<M::Sink>, StatError> {
    let mut numbers = NumberFiles::new(files, maker.recording(), form)?;
    let mut parts = groups_of(files, maker, columns, &mut numbers)?;
    if numbers.becomes_finer(parts.rounded)? {
        parts = groups_of(files, maker, columns, &mut numbers)?;
    }
    numbers.print_notes(parts.sinks.is_empty(), parts.skipped, parts.rounded)?;
    Ok(parts)
}

/// Returns the groups of the numbers of files as these are recorded now.
fn groups_of<M: GroupMaker + Copy + Drop>(
    files: Files<'_, '_, '_>,
    maker: M,
    columns: &[&str],
    numbers: &mut NumberFiles<'_, '_, '_, '_, '_>,
) -> Result<GroupParts<M::Sink>, StatError> {
    let maker = maker.with_recording(numbers.recording);
    let groups = Groups::new(files.alloc(), maker, columns);
    let mut groups = groups.map_err(|cause| files.numbers_error(0, cause))?;
    numbers.read_rows_into(&mut groups)?;
    Ok(groups.into_parts())
}

/// Returns the text of a group as a tag, or `None` if it is empty.
pub(crate) fn tag_of_group(alloc: Global, text: &[u8]) -> Result<Option<String>, AllocError> {
    if text.is_empty() {
        return Ok(None);
    }
    Ok(Some(String::from_utf8_lossy(alloc, text)?))
}

/// Reads the numbers of an input into `sink`. Returns the first row if it is taken as names, and no
/// column was found by its name.
pub(crate) fn read_input<R: Read + Drop, S: LineSink + RowSink>(
    alloc: Global,
    reader: R,
    form: Form<'_, '_>,
    sink: &mut S,
) -> Result<Option<String>, InputError> {
    match form {
        Form::Lines => {
            read_lines(alloc, reader, sink)?;
            Ok(None)
        }
        form => read_rows_of(alloc, reader, form, sink),
    }
}

/// Reads the rows of an input into `sink`. Returns the first row if it is taken as names, and no
/// column was found by its name.
pub(crate) fn read_rows_of<R: Read + Drop, S: RowSink>(
    alloc: Global,
    input: R,
    form: Form<'_, '_>,
    sink: &mut S,
) -> Result<Option<String>, InputError> {
    match form {
        Form::Lines => Ok(None),
        Form::Table(table) => read_table(alloc, input, table, sink),
        Form::Json(columns) => {
            read_json(alloc, input, columns, sink)?;
            Ok(None)
        }
        Form::Match(text) => {
            let regex = Regex::new(alloc, text).map_err(|_| InputError::OutOfMemory)?;
            read_matches(alloc, input, &regex, sink)?;
            Ok(None)
        }
    }
}

/// Reads a table. If its delimiter is not set, the first line determines it.
fn read_table<R: Read + Drop, S: RowSink>(
    alloc: Global,
    reader: R,
    table: Table<'_, '_>,
    sink: &mut S,
) -> Result<Option<String>, InputError> {
    let mut reader = RetryReader { reader };
    let start = match table.delimiter {
        Some(_) => Vec::new(alloc),
        None => read_start(alloc, &mut reader)?,
    };
    let layout = TableLayout {
        delimiter: table.delimiter.unwrap_or_else(|| guess_delimiter(&start)),
        has_header: table.has_header,
    };
    let reader = start.as_slice().chain(reader);
    if layout.delimiter == b' ' {
        return read_rows(alloc, BlankReader::new(reader), table.columns, layout, sink);
    }
    read_rows(alloc, reader, table.columns, layout, sink)
}

/// Returns the first bytes of a table: its first line at least, or `START` bytes or more of that.
fn read_start<R: Read>(alloc: Global, reader: &mut R) -> Result<Vec<u8>, InputError> {
    let mut start = Vec::new(alloc);
    let mut buffer = [0; START];
    // Each read but the last returns a byte or more.
    for _ in 0..START {
        let len = reader.read(&mut buffer).map_err(InputError::of_reading)?;
        let bytes = &buffer[..len];
        start.extend_from_slice(bytes)?;
        if bytes.is_empty() || bytes.contains(&b'\n') || start.len() >= START {
            break;
        }
    }
    Ok(start)
}
