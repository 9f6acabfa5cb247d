//! Tables of Markdown.

use std::alloc::AllocError;

/// Appends rows as a table of Markdown, of which the first has the names of the columns, and an empty
/// line.
pub(crate) fn push_markdown(text: &mut String, rows: &[Vec<String>]) -> Result<(), AllocError> {
    for (index, row) in rows.iter().enumerate() {
        for cell in row {
            text.push_str("| ")?;
            push_cell(text, cell.as_str())?;
            text.push(' ')?;
        }
        text.push_str("|\n")?;
        if index == 0 {
            push_rule(text, row.len())?;
        }
    }
    text.push('\n')
}

/// Appends the line between the names of columns and the other rows.
fn push_rule(text: &mut String, columns: usize) -> Result<(), AllocError> {
    text.push('|')?;
    for _ in 0..columns {
        text.push_str("---|")?;
    }
    text.push('\n')
}

/// Appends a cell, in which a bar does not begin another.
fn push_cell(text: &mut String, cell: &str) -> Result<(), AllocError> {
    for letter in cell.chars() {
        if letter == '|' {
            text.push('\\')?;
        }
        text.push(letter)?;
    }
    Ok(())
}
