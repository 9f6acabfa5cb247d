//! CSV and tab-separated values of compared runs.

use crate::texts::ReportLayout;
use crate::texts::lines::{Line, Texts};
use csv::{Writer, WriterBuilder};
use hdr_summary::formats::{write_field, write_text};
use std::alloc::{AllocError, Global};

/// The names of the columns.
const NAMES: [&str; 13] = [
    "figure",
    "before",
    "before_low",
    "before_high",
    "after",
    "after_low",
    "after_high",
    "change",
    "change_low",
    "change_high",
    "verdict",
    "before_independent",
    "after_independent",
];

/// Appends a line of names, and the lines of a report.
pub(crate) fn push_separated(
    alloc: Global,
    text: &mut String,
    lines: &[Line<'_>],
    layout: &ReportLayout<'_>,
    delimiter: u8,
) -> Result<(), AllocError> {
    let mut table = WriterBuilder::new()
        .delimiter(delimiter)
        .from_writer(Vec::new(alloc));
    if layout.has_tags {
        write_field(&mut table, "tag")?;
    }
    if layout.has_runs {
        write_field(&mut table, "run")?;
    }
    for name in NAMES {
        write_field(&mut table, name)?;
    }
    table.end_record().map_err(|_| AllocError)?;
    for line in lines {
        write_line(alloc, &mut table, line, layout)?;
    }
    let bytes = table.into_inner().map_err(|_| AllocError)?;
    let written = String::from_utf8_lossy(alloc, &bytes)?;
    text.push_str(written.as_str())
}

/// Writes a line. What is not known is empty.
fn write_line(
    alloc: Global,
    table: &mut Writer<Vec<u8>>,
    line: &Line<'_>,
    layout: &ReportLayout<'_>,
) -> Result<(), AllocError> {
    if layout.has_tags {
        write_text(alloc, table, line.tag.unwrap_or(""))?;
    }
    if layout.has_runs {
        write_text(alloc, table, line.run)?;
    }
    write_field(table, line.figure.as_str())?;
    write_texts(table, &line.before)?;
    write_texts(table, &line.after)?;
    write_texts(table, &line.change)?;
    write_field(table, line.verdict)?;
    write_number(alloc, table, line.independent.0)?;
    write_number(alloc, table, line.independent.1)?;
    table.end_record().map_err(|_| AllocError)
}

/// Writes a value and the ends of its interval.
fn write_texts(table: &mut Writer<Vec<u8>>, texts: &Texts) -> Result<(), AllocError> {
    for text in texts.each() {
        match text {
            Some(text) => write_field(table, text.as_str())?,
            None => write_field(table, "")?,
        }
    }
    Ok(())
}

/// Writes a number, if there is one.
fn write_number(
    alloc: Global,
    table: &mut Writer<Vec<u8>>,
    number: Option<u64>,
) -> Result<(), AllocError> {
    match number {
        Some(number) => write_field(table, format!(in alloc; "{number}")?.as_str()),
        None => write_field(table, ""),
    }
}
