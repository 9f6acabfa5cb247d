//! Numbers from lines of JSON.

mod at_path;

use crate::cause::Cause;
use crate::columns::Columns;
use crate::errors::{InputError, InputPlace};
use crate::joining::push_part;
use crate::lines::{split_line, without_mark};
use crate::pieces::{LineSink, read_lines};
use crate::rows::{RowSink, RowTexts};
use at_path::read_text;
use json::{Element, Scratch, Tape};
use std::alloc::{AllocError, Global};
use std::io::Read;

/// Reads lines of JSON to the end of the input. The columns are paths, such as `.http.latency`.
pub fn read_json<R: Read + Drop, S: RowSink>(
    alloc: Global,
    reader: R,
    columns: Columns<'_, '_>,
    sink: &mut S,
) -> Result<(), InputError> {
    let path = columns.value;
    let names = path.strip_prefix(".").unwrap_or(path).split('.');
    let mut lines = JsonLines {
        columns,
        names: names.collect(alloc)?,
        has_value_alone: has_value_alone(columns),
        scratch: Scratch::new(alloc),
        joined: Vec::new(alloc),
        sink,
    };
    read_lines(alloc, reader, &mut lines)
}

/// Passes the texts of lines of JSON to a sink.
#[derive(Drop)]
struct JsonLines<'l, 'n, 's, S> {
    columns: Columns<'l, 'n>,
    /// The names of the path of the numbers.
    names: Vec<&'n str>,
    /// Whether no text is read but that of the number.
    has_value_alone: bool,
    scratch: Scratch,
    joined: Vec<u8>,
    sink: &'s mut S,
}

impl<S: RowSink> LineSink for JsonLines<'_, '_, '_, S> {
    ghost takes = { λ _ _ _ _ _. Unit {0} };

    ghost takes_none = { λ _ _. tt };

    ghost takes_more = { λ _ _ _ _ _ _ _ _ _ _ _. tt };

    fn take_lines(&mut self, alloc: Global, lines: &[u8], first: u64) -> Result<u64, InputError> {
        let mut rest = lines;
        let mut number = first;
        while !rest.is_empty() {
            let (line, after) = split_line(rest);
            let line = without_mark(line, number).trim_ascii();
            if let Err(error) = self.take_line(alloc, line, number) {
                return Err(error);
            }
            rest = after;
            number = number.saturating_add(1);
        }
        Ok(number)
    }
}

impl<S: RowSink> JsonLines<'_, '_, '_, S> {
    /// Takes a line. An empty one has no row.
    #[inline(always)]
    fn take_line(&mut self, alloc: Global, line: &[u8], number: u64) -> Result<(), InputError> {
        if line.is_empty() {
            return Ok(());
        }
        let place = InputPlace::Line(number);
        let Ok(text) = str::from_utf8(line) else {
            return take_other(alloc, self.sink, line, place);
        };
        if self.has_value_alone {
            self.take_value(alloc, text, place)
        } else {
            self.take_texts(alloc, text, place)
        }
    }

    /// Takes a line of which no text is read but that of the number.
    #[inline(always)]
    fn take_value(
        &mut self,
        alloc: Global,
        text: &str,
        place: InputPlace,
    ) -> Result<(), InputError> {
        let line = text.as_bytes();
        match read_text(text, &mut self.scratch, &self.names) {
            Ok(found) => {
                let row = row_of_value(place, line, found.ok_or(Cause::NoPath));
                self.sink.take_row(alloc, row)
            }
            Err(json::Error::OutOfMemory) => Err(InputError::OutOfMemory),
            Err(_) => take_other(alloc, self.sink, line, place),
        }
    }

    /// Takes a line of which several texts are read.
    #[inline(never)]
    fn take_texts(
        &mut self,
        alloc: Global,
        text: &str,
        place: InputPlace,
    ) -> Result<(), InputError> {
        let line = text.as_bytes();
        match Tape::parse(text, &mut self.scratch, Vec::new(alloc)) {
            Ok(tape) => {
                let root = tape.root();
                if !chooses(self.columns, &root) {
                    return Ok(());
                }
                let row = row_of(self.columns, &root, place, line, &mut self.joined)?;
                self.sink.take_row(alloc, row)
            }
            Err(json::Error::OutOfMemory) => Err(InputError::OutOfMemory),
            Err(_) => take_other(alloc, self.sink, line, place),
        }
    }
}

/// Takes a line that is not JSON.
#[cold]
#[inline(never)]
fn take_other<S: RowSink>(
    alloc: Global,
    sink: &mut S,
    line: &[u8],
    place: InputPlace,
) -> Result<(), InputError> {
    sink.take_row(alloc, row_of_value(place, line, Err(Cause::NotJson)))
}

/// Whether no text of a line is read but that of the number.
fn has_value_alone(columns: Columns<'_, '_>) -> bool {
    columns.count.is_none()
        && columns.time.is_none()
        && columns.groups.is_empty()
        && columns.conditions.is_empty()
}

/// Returns the texts of a line at the paths.
fn row_of<'a>(
    columns: Columns<'_, '_>,
    root: &Element<'_, 'a>,
    place: InputPlace,
    line: &'a [u8],
    joined: &'a mut Vec<u8>,
) -> Result<RowTexts<'a>, AllocError> {
    let group = join(columns.groups, root, joined)?;
    let count = optional_text(root, columns.count);
    let value = match text_at(root, columns.value) {
        Some(_) if count.is_none() && columns.count.is_some() => Err(Cause::NoCount),
        value => value.ok_or(Cause::NoPath),
    };
    Ok(RowTexts {
        place,
        row: line,
        value,
        count,
        time: optional_text(root, columns.time),
        group,
    })
}

/// Returns the row of a line of which no text is read but that of the number, or none at all.
#[inline(always)]
fn row_of_value<'a>(
    place: InputPlace,
    line: &'a [u8],
    value: Result<&'a [u8], Cause>,
) -> RowTexts<'a> {
    RowTexts {
        place,
        row: line,
        value,
        count: None,
        time: None,
        group: None,
    }
}

/// Whether a value has the text of each condition.
fn chooses(columns: Columns<'_, '_>, root: &Element<'_, '_>) -> bool {
    for condition in columns.conditions {
        if text_at(root, condition.column) != Some(condition.text.as_bytes()) {
            return false;
        }
    }
    true
}

/// Returns the text at a path, or those at several as `push_part` joins them, with a space between
/// two. Returns `None` without paths. The text of a path that leads nowhere is empty.
fn join<'j>(
    paths: &[&str],
    root: &Element<'_, '_>,
    joined: &'j mut Vec<u8>,
) -> Result<Option<&'j [u8]>, AllocError> {
    joined.clear();
    match paths {
        [] => return Ok(None),
        [path] => joined.extend_from_slice(text_at(root, *path).unwrap_or(b""))?,
        _ => push_texts(paths, root, joined)?,
    }
    Ok(Some(joined.as_slice()))
}

/// Appends the texts at several paths, with a space between two.
fn push_texts(
    paths: &[&str],
    root: &Element<'_, '_>,
    joined: &mut Vec<u8>,
) -> Result<(), AllocError> {
    for (index, path) in paths.iter().enumerate() {
        if index > 0 {
            joined.push(b' ')?;
        }
        push_part(joined, text_at(root, *path).unwrap_or(b""))?;
    }
    Ok(())
}

/// Returns the text at a path: that of a number as it is written, of a string, or of a boolean.
fn text_at<'a>(root: &Element<'_, 'a>, path: &str) -> Option<&'a [u8]> {
    let found = element_at(root, path)?;
    if let Some(number) = found.as_number() {
        return Some(number.as_bytes());
    }
    if let Some(text) = found.as_str() {
        return Some(text.as_bytes());
    }
    found.as_bool().map(|is_true| if is_true {
        b"true".as_slice()
    } else {
        b"false".as_slice()
    })
}

/// Returns the text at a path that may be absent.
fn optional_text<'a>(root: &Element<'_, 'a>, path: Option<&str>) -> Option<&'a [u8]> {
    text_at(root, path?)
}

/// Returns the value at a path of names, and of indices of arrays. A path may begin with a point.
fn element_at<'t, 'a>(root: &Element<'t, 'a>, path: &str) -> Option<Element<'t, 'a>> {
    let mut names = path.strip_prefix(".").unwrap_or(path).split('.');
    let mut element = member(root, names.next()?)?;
    for name in names {
        element = member(&element, name)?;
    }
    Some(element)
}

/// Returns the member of an object of this name, or the item of an array at this index.
fn member<'t, 'a>(element: &Element<'t, 'a>, name: &str) -> Option<Element<'t, 'a>> {
    match element.get(name) {
        Some(member) => Some(member),
        None => element.at(name.parse::<usize>().ok()?),
    }
}
