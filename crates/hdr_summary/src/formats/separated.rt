//! CSV and tab-separated values.

use crate::formats::{Row, or_none};
use csv::{Writer, WriterBuilder};
use std::alloc::{AllocError, Global};

/// Whether a spreadsheet may take a text for a formula.
fn is_formula(text: &str) -> bool {
    matches!(
        text.as_bytes().first(),
        Some(b'=' | b'+' | b'-' | b'@' | b'\t' | b'\r')
    )
}

/// Writes a field.
pub fn write_field(table: &mut Writer<Vec<u8>>, field: &str) -> Result<(), AllocError> {
    table.write_field(field.as_bytes()).map_err(|_| AllocError)
}

/// Writes a text of a log. An apostrophe before it keeps spreadsheets from running it as a formula.
pub fn write_text(
    alloc: Global,
    table: &mut Writer<Vec<u8>>,
    text: &str,
) -> Result<(), AllocError> {
    if is_formula(text) {
        let text = format!(in alloc; "'{text}")?;
        return write_field(table, text.as_str());
    }
    write_field(table, text)
}

/// Writes the names of the figures.
fn write_names(
    table: &mut Writer<Vec<u8>>,
    row: &Row<'_>,
    has_tags: bool,
) -> Result<(), AllocError> {
    if has_tags {
        write_field(table, "tag")?;
    }
    for figure in &row.figures {
        write_field(table, figure.name.as_str())?;
    }
    table.end_record().map_err(|_| AllocError)
}

/// Writes the values of the figures. There is none if nothing was recorded.
fn write_values(
    alloc: Global,
    table: &mut Writer<Vec<u8>>,
    row: &Row<'_>,
    has_tags: bool,
) -> Result<(), AllocError> {
    if has_tags {
        write_text(alloc, table, row.tag.unwrap_or(""))?;
    }
    for figure in &row.figures {
        write_field(table, or_none(figure, ""))?;
    }
    table.end_record().map_err(|_| AllocError)
}

/// Appends a line of names, and a line of values for each row.
pub(crate) fn push_separated(
    alloc: Global,
    text: &mut String,
    rows: &[Row<'_>],
    has_tags: bool,
    delimiter: u8,
) -> Result<(), AllocError> {
    let mut table = WriterBuilder::new()
        .delimiter(delimiter)
        .from_writer(Vec::new(alloc));
    if let Some(first) = rows.first() {
        write_names(&mut table, first, has_tags)?;
    }
    for row in rows {
        write_values(alloc, &mut table, row, has_tags)?;
    }
    let bytes = table.into_inner().map_err(|_| AllocError)?;
    let lines = String::from_utf8_lossy(alloc, &bytes)?;
    text.push_str(lines.as_str())
}
