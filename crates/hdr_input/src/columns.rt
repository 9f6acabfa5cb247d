//! Numbers from a column of a table.

mod finding;

use crate::cause::Cause;
use crate::errors::{InputError, InputPlace, excerpt};
use crate::joining::push_part;
use crate::lines::split_line;
use crate::rows::{RowSink, RowTexts};
use csv::{ByteRecord, ErrorKind, ReaderBuilder};
use finding::{FoundColumns, find_columns, names_of};
use std::alloc::{AllocError, Global};
use std::io::Read;

/// How a table is read.
#[derive(Clone, Copy)]
pub struct TableLayout {
    /// The byte between two columns.
    pub delimiter: u8,
    /// Whether the first line may have names of columns.
    pub has_header: bool,
}

/// The columns that are read: that of the numbers, that of how often they count, that of their
/// times, those of the texts that have groups, and those that have to have a text.
#[derive(Clone, Copy)]
pub struct Columns<'l, 'n> {
    pub value: &'n str,
    pub count: Option<&'n str>,
    pub time: Option<&'n str>,
    pub groups: &'l [&'n str],
    pub conditions: &'l [Condition<'n>],
}

/// A text that a column has to have.
#[derive(Clone, Copy)]
pub struct Condition<'a> {
    pub column: &'a str,
    pub text: &'a str,
}

/// Converts an error of the table's reader.
fn reading_error(error: csv::Error) -> InputError {
    match error.into_kind() {
        ErrorKind::Io(error) => InputError::of_reading(error),
        _ => InputError::OutOfMemory,
    }
}

impl FoundColumns<'_> {
    /// Whether a row has the text of each condition.
    #[inline(always)]
    fn chooses(&self, row: &ByteRecord) -> bool {
        self.conditions.is_empty() || self.meets_conditions(row)
    }

    /// Whether a row has the text of each of one or more conditions.
    #[inline(never)]
    fn meets_conditions(&self, row: &ByteRecord) -> bool {
        self.conditions
            .iter()
            .all(|condition| field(row, condition.0) == Some(condition.1))
    }

    /// Returns the text of a row that has a group. Those of several columns are joined by a space.
    #[inline(always)]
    fn group<'a>(
        &self,
        row: &'a ByteRecord,
        joined: &'a mut Vec<u8>,
    ) -> Result<Option<&'a [u8]>, AllocError> {
        match self.groups.as_slice() {
            [] => Ok(None),
            [index] => Ok(field(row, *index)),
            indices => join(row, indices, joined),
        }
    }

    /// Returns the texts of a row, of which one has a group.
    #[inline(always)]
    fn texts<'a>(&self, row: &'a ByteRecord, number: u64, group: Option<&'a [u8]>) -> RowTexts<'a> {
        let count = self.count.and_then(|index| field(row, index));
        let has_count = count.is_some() || self.count.is_none();
        let value = field(row, self.value).filter(|_| has_count);
        RowTexts {
            place: InputPlace::Row(number),
            row: row.as_slice(),
            value: value.ok_or(Cause::NoField),
            count,
            time: self.time.and_then(|index| field(row, index)),
            group,
        }
    }
}

/// Returns the fields of a row as `push_part` joins them, with a space between two, or `None` if the
/// row does not have one of them.
fn join<'a>(
    row: &ByteRecord,
    indices: &[usize],
    joined: &'a mut Vec<u8>,
) -> Result<Option<&'a [u8]>, AllocError> {
    joined.clear();
    for (position, index) in indices.iter().enumerate() {
        let Some(field) = field(row, *index) else {
            return Ok(None);
        };
        if position > 0 {
            joined.push(b' ')?;
        }
        push_part(joined, field)?;
    }
    Ok(Some(joined.as_slice()))
}

/// Returns the field of a row, without whitespace around it.
fn field(row: &ByteRecord, index: usize) -> Option<&[u8]> {
    row.get(index).map(|field| field.trim_ascii())
}

/// What follows a table that is read: a row of bytes that no text has. If a quote is open, the last
/// row of the table ends with it.
const END: &[u8] = b"\xff\xfe\xfd\xfc\xfb\xfa\xf9\xf8";

/// Reads a table to its end. A column has a number from 1, or a name in the first row. Returns the
/// first row, if it is taken as names and no column was found by its name. An interrupted read is
/// an error: `RetryReader` retries it.
pub fn read_rows<R: Read + Drop, S: RowSink>(
    alloc: Global,
    reader: R,
    columns: Columns<'_, '_>,
    layout: TableLayout,
    sink: &mut S,
) -> Result<Option<String>, InputError> {
    let end = b"\n".as_slice().chain(END);
    let mut rows = ReaderBuilder::new()
        .has_headers(false)
        .flexible(true)
        .delimiter(layout.delimiter)
        .from_reader(alloc, reader.chain(end));
    let mut row = ByteRecord::new(alloc);
    if let Err(error) = rows.read_byte_record(&mut row) {
        return Err(reading_error(error));
    }
    if has_end(&row) {
        check_quotes(&row, 1)?;
        return Ok(None);
    }
    let found = find_columns(alloc, &row, columns, layout)?;
    let names = names_of(alloc, &row)?;
    let mut joined = Vec::new(alloc);
    for number in 1..u64::MAX {
        if has_end(&row) {
            check_quotes(&row, number)?;
            break;
        }
        if number > 1 || !found.is_header {
            if let Err(error) = take_chosen(alloc, sink, &row, number, &found, &mut joined) {
                return Err(with_columns(alloc, error, &row, number, layout, names));
            }
        }
        if let Err(error) = rows.read_byte_record(&mut row) {
            return Err(reading_error(error));
        }
    }
    Ok(if found.is_header && !found.is_named {
        Some(names)
    } else {
        None
    })
}

/// Takes a row, if it has the text of each condition.
#[inline(always)]
fn take_chosen<S: RowSink>(
    alloc: Global,
    sink: &mut S,
    row: &ByteRecord,
    number: u64,
    found: &FoundColumns<'_>,
    joined: &mut Vec<u8>,
) -> Result<(), InputError> {
    if !found.chooses(row) {
        return Ok(());
    }
    let group = match found.group(row, joined) {
        Ok(group) => group,
        Err(_) => return Err(InputError::OutOfMemory),
    };
    sink.take_row(alloc, found.texts(row, number, group))
}

/// Whether the end of the table is in a row.
#[inline(always)]
fn has_end(row: &ByteRecord) -> bool {
    let bytes = row.as_slice();
    bytes.last() == END.last() && bytes.ends_with(END)
}

/// Checks that the row that has the end of the table has nothing else.
///
/// # Errors
/// Returns `OpenQuote` if it has.
#[cold]
#[inline(never)]
fn check_quotes(row: &ByteRecord, number: u64) -> Result<(), InputError> {
    if row.as_slice().len() > END.len() {
        return Err(InputError::OpenQuote(number));
    }
    Ok(())
}

/// Adds the columns of the first row to the error of a row that does not have a column.
#[cold]
#[inline(never)]
fn with_columns(
    alloc: Global,
    error: InputError,
    row: &ByteRecord,
    number: u64,
    layout: TableLayout,
    names: String,
) -> InputError {
    if !is_short(&error) {
        return error;
    }
    let delimiter = String::from_str(alloc, delimiter_name(layout.delimiter));
    match (text_of(alloc, row, layout.delimiter), delimiter) {
        (Ok(text), Ok(delimiter)) => InputError::NoField {
            place: InputPlace::Row(number),
            text,
            delimiter,
            names,
        },
        _ => InputError::OutOfMemory,
    }
}

/// Returns the start of the text of a row for an error.
fn text_of(alloc: Global, row: &ByteRecord, delimiter: u8) -> Result<String, AllocError> {
    let mut text = Vec::new(alloc);
    for (index, field) in row.into_iter().enumerate() {
        if index > 0 {
            text.push(delimiter)?;
        }
        text.extend_from_slice(field)?;
    }
    excerpt(alloc, &text)
}

/// Whether an error is that of a row that does not have a column.
fn is_short(error: &InputError) -> bool {
    match error {
        InputError::BadNumber { cause, .. } => *cause == Cause::NoField,
        _ => false,
    }
}

/// Returns the name of a delimiter.
fn delimiter_name(delimiter: u8) -> &'static str {
    match delimiter {
        b',' => "commas",
        b'\t' => "tabs",
        b';' => "semicolons",
        b' ' => "spaces",
        _ => "the delimiter",
    }
}

/// Returns the delimiter of a table by its first bytes: a tab if the first line has one, otherwise
/// a semicolon if it has one and no comma, otherwise a comma.
pub fn guess_delimiter(start: &[u8]) -> u8 {
    let (line, _) = split_line(start);
    if line.contains(&b'\t') {
        b'\t'
    } else if line.contains(&b';') && !line.contains(&b',') {
        b';'
    } else {
        b','
    }
}
