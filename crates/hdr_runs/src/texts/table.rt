//! Aligned tables of compared runs.

use crate::texts::ReportLayout;
use crate::texts::lines::{Line, Texts};
use hdr_summary::formats::{NO_TAG, fitted, push_left, push_right};
use std::alloc::{AllocError, Global};

/// The names of the columns after the figure's.
const NAMES: [&str; 10] = [
    "before", "low", "high", "after", "low", "high", "change", "low", "high", "verdict",
];

/// Returns the rows of a table: that of names, and one for each line.
pub(crate) fn rows_of(
    alloc: Global,
    lines: &[Line<'_>],
    layout: &ReportLayout<'_>,
) -> Result<Vec<Vec<String>>, AllocError> {
    let mut rows = Vec::new(alloc);
    rows.push(names_of(alloc, layout)?)?;
    for line in lines {
        rows.push(cells_of(alloc, line, layout)?)?;
    }
    Ok(rows)
}

/// Returns the names of the columns.
fn names_of(alloc: Global, layout: &ReportLayout<'_>) -> Result<Vec<String>, AllocError> {
    let mut names = Vec::new(alloc);
    if layout.has_tags {
        names.push(String::from_str(alloc, "tag")?)?;
    }
    if layout.has_runs {
        names.push(String::from_str(alloc, "run")?)?;
    }
    names.push(String::from_str(alloc, "figure")?)?;
    for name in NAMES {
        names.push(String::from_str(alloc, name)?)?;
    }
    Ok(names)
}

/// Returns the cells of a line.
fn cells_of(
    alloc: Global,
    line: &Line<'_>,
    layout: &ReportLayout<'_>,
) -> Result<Vec<String>, AllocError> {
    let mut cells = Vec::new(alloc);
    if layout.has_tags {
        cells.push(fitted(alloc, line.tag.unwrap_or(NO_TAG))?)?;
    }
    if layout.has_runs {
        cells.push(fitted(alloc, line.run)?)?;
    }
    cells.push(String::from_str(alloc, line.figure.as_str())?)?;
    let none = if line.is_count { "" } else { "-" };
    push_texts(alloc, &mut cells, &line.before, none, "")?;
    push_texts(alloc, &mut cells, &line.after, none, "")?;
    push_texts(alloc, &mut cells, &line.change, none, "%")?;
    let verdict = line.verdict;
    cells.push(match line.needed {
        Some(needed) => format!(in alloc; "{verdict}: {needed} independent needed")?,
        None => String::from_str(alloc, verdict)?,
    })?;
    Ok(cells)
}

/// Appends a value, with what follows it, and the ends of its interval. `none` stands for each that is
/// not known.
fn push_texts(
    alloc: Global,
    cells: &mut Vec<String>,
    texts: &Texts,
    none: &str,
    sign: &str,
) -> Result<(), AllocError> {
    for (index, text) in texts.each().iter().enumerate() {
        let cell = match *text {
            Some(text) if index == 0 => format!(in alloc; "{text}{sign}")?,
            Some(text) => String::from_str(alloc, text.as_str())?,
            None => String::from_str(alloc, none)?,
        };
        cells.push(cell)?;
    }
    Ok(())
}

/// Appends rows with their columns aligned: names to the left, and values to the right.
pub(crate) fn push_table(
    alloc: Global,
    text: &mut String,
    rows: &[Vec<String>],
    layout: &ReportLayout<'_>,
) -> Result<(), AllocError> {
    let widths = widths_of(alloc, rows)?;
    let names = 1 + usize::from(layout.has_tags) + usize::from(layout.has_runs);
    for row in rows {
        push_row(alloc, text, row, &widths, names)?;
    }
    Ok(())
}

/// Returns the width of each column in characters.
fn widths_of(alloc: Global, rows: &[Vec<String>]) -> Result<Vec<usize>, AllocError> {
    let mut widths: Vec<usize> = Vec::new(alloc);
    for row in rows {
        for (index, cell) in row.iter().enumerate() {
            let width = cell.chars().count();
            match widths.get_mut(index) {
                Some(widest) => *widest = (*widest).max(width),
                None => widths.push(width)?,
            }
        }
    }
    Ok(widths)
}

/// Appends a row, of which the first columns are names, and the last one is a verdict.
fn push_row(
    alloc: Global,
    text: &mut String,
    row: &[String],
    widths: &[usize],
    names: usize,
) -> Result<(), AllocError> {
    let mut line = String::new(alloc);
    let last = row.len().saturating_sub(1);
    for (index, (cell, width)) in row.iter().zip(widths).enumerate() {
        if index < names || index == last {
            if index > 0 {
                line.push_str("  ")?;
            }
            push_left(&mut line, cell.as_str(), *width)?;
        } else {
            push_right(&mut line, cell.as_str(), *width)?;
        }
    }
    text.push_str(line.as_str().trim_end_matches(' '))?;
    text.push('\n')
}
