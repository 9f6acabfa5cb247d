//! Two runs that a page compares.

use hdr_draw::escape::push_escaped;
use hdr_draw::number::push_grouped;
use hdr_runs::Side;
use std::alloc::AllocError;

/// The rows that are shown at once.
const OPEN: usize = 40;

/// The samples of a tag of a page.
#[derive(Drop)]
pub struct TagSide {
    /// The tag, as the intervals of the page have it.
    pub tag: String,
    pub side: Side,
}

/// Two runs compared.
#[derive(Drop)]
pub struct Comparison {
    /// The cells of the table of `hdrstat compare`, the names of its columns first, and its lines.
    pub rows: Vec<Vec<String>>,
    pub lines: String,
    /// What is said below the table.
    pub footer: String,
    /// How many of the columns are names.
    pub names: usize,
    pub sides: Vec<TagSide>,
}

impl Comparison {
    /// Returns the samples of a tag of the page, if it is of one of the runs.
    pub(crate) fn side(&self, tag: &str) -> Option<&Side> {
        let found = self.sides.iter().find(|side| side.tag.as_str() == tag)?;
        Some(&found.side)
    }

    /// Appends the table, and what is said below it.
    pub(crate) fn push_html(&self, text: &mut String) -> Result<(), AllocError> {
        let Some((columns, rows)) = self.rows.split_first() else {
            return Ok(());
        };
        self.push_head(text, columns)?;
        let more = rows.len().saturating_sub(OPEN);
        for (position, row) in rows.iter().enumerate() {
            if position == OPEN {
                push_fold(text, more)?;
                self.push_head(text, columns)?;
            }
            self.push_row(text, columns, row)?;
        }
        text.push_str("</tbody></table>")?;
        text.push_str(if more > 0 { "</details>\n" } else { "\n" })?;
        for line in self.footer.lines() {
            text.push_str("<p class=\"soft\">")?;
            push_escaped(text, line)?;
            text.push_str("</p>\n")?;
        }
        Ok(())
    }

    /// Begins a table with the names of its columns.
    fn push_head(&self, text: &mut String, columns: &[String]) -> Result<(), AllocError> {
        text.push_str("<table class=\"runs\"><thead><tr>")?;
        for (index, name) in columns.iter().enumerate() {
            let is_left = index < self.names || index.saturating_add(1) == columns.len();
            text.push_str(if is_left {
                "<th scope=\"col\" class=\"l\">"
            } else {
                "<th scope=\"col\">"
            })?;
            push_escaped(text, name.as_str())?;
            text.push_str("</th>")?;
        }
        text.push_str("</tr></thead><tbody>")
    }

    /// Appends a row, whose cells know the names of their columns. The verdict of a change is bold.
    fn push_row(
        &self,
        text: &mut String,
        columns: &[String],
        row: &[String],
    ) -> Result<(), AllocError> {
        text.push_str("<tr>")?;
        for (index, (cell, name)) in row.iter().zip(columns).enumerate() {
            if index < self.names {
                text.push_str("<th scope=row class=l>")?;
            } else if index.saturating_add(1) == columns.len() {
                text.push_str(match cell.as_str() {
                    "slower" | "faster" => "<td class=\"l w\">",
                    _ => "<td class=l>",
                })?;
            } else {
                text.push_str("<td data-of=\"")?;
                push_escaped(text, name.as_str())?;
                text.push_str("\">")?;
            }
            push_escaped(text, cell.as_str())?;
        }
        text.push_str("\n")
    }

    /// Appends the lines of the table, up to as many as are shown at once, and what is said below it.
    pub(crate) fn push_plain(&self, text: &mut String) -> Result<(), AllocError> {
        for line in self.lines.lines().take(OPEN + 1) {
            text.push_str(line)?;
            text.push_str("\n")?;
        }
        let more = self.rows.len().saturating_sub(OPEN + 1);
        if more > 0 {
            writeln!(text, "and {more} more")?;
        }
        text.push_str(self.footer.as_str())
    }
}

/// Ends the table, and begins more lines that are opened by a click.
fn push_fold(text: &mut String, more: usize) -> Result<(), AllocError> {
    text.push_str("</tbody></table>\n<details><summary>")?;
    push_grouped(text, more as u64)?;
    text.push_str(if more == 1 {
        " more line</summary>"
    } else {
        " more lines</summary>"
    })
}
