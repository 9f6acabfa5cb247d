//! Aligned tables.

use crate::figures::Figure;
use crate::formats::ends::range_text;
use crate::formats::{Row, or_none};
use hdr_input::push_visible;
use std::alloc::{AllocError, Global};

/// What a table shows in place of a tag that an interval does not have.
pub const NO_TAG: &str = "(no tag)";

/// The most characters of a tag in a table.
const MOST_CHARACTERS: usize = 60;

/// Returns a tag as a table shows it. One of more than `MOST_CHARACTERS` ends with an ellipsis.
pub fn fitted(alloc: Global, name: &str) -> Result<String, AllocError> {
    let mut text = String::new(alloc);
    if name.chars().nth(MOST_CHARACTERS).is_none() {
        push_visible(&mut text, name)?;
        return Ok(text);
    }
    let start: String = name.chars().take(MOST_CHARACTERS - 1).collect(alloc)?;
    push_visible(&mut text, start.as_str())?;
    text.push('…')?;
    Ok(text)
}

/// Returns the tags of rows as a table shows them.
fn fitted_tags(alloc: Global, rows: &[Row<'_>]) -> Result<Vec<String>, AllocError> {
    let mut tags = Vec::new(alloc);
    for row in rows {
        tags.push(fitted(alloc, tag_of(row))?)?;
    }
    Ok(tags)
}

/// Returns the number of characters of the longest of texts.
fn longest(texts: &[String]) -> usize {
    let lengths = texts.iter().map(|text| char_count(text.as_str()));
    lengths.max().unwrap_or(0)
}

/// Appends the figures of distributions without tags: a line for each, with the points of the
/// values aligned, and the intervals after the longest of them.
pub(crate) fn push_figures(
    alloc: Global,
    text: &mut String,
    rows: &[Row<'_>],
) -> Result<(), AllocError> {
    for row in rows {
        let names = row.figures.iter().map(|figure| figure.name.len());
        let names = names.max().unwrap_or(0);
        let wholes = row.figures.iter().map(|figure| whole_len(value_of(figure)));
        let wholes = wholes.max().unwrap_or(0);
        let parts = row.figures.iter().map(|figure| part_len(value_of(figure)));
        let parts = parts.max().unwrap_or(0);
        for figure in &row.figures {
            let value = value_of(figure);
            push_left(text, figure.name.as_str(), names)?;
            text.push_str("  ")?;
            push_spaces(text, wholes.saturating_sub(whole_len(value)))?;
            text.push_str(value)?;
            if let Some(ends) = &figure.ends {
                let gap = parts.saturating_sub(part_len(value)).saturating_add(2);
                push_spaces(text, gap)?;
                text.push_str(range_text(alloc, ends)?.as_str())?;
            }
            text.push('\n')?;
        }
    }
    Ok(())
}

/// Returns the value of a figure as a table shows it.
fn value_of<'a>(figure: &'a Figure) -> &'a str {
    or_none(figure, "-")
}

/// Returns the length of a number before its point.
fn whole_len(value: &str) -> usize {
    value.find('.').unwrap_or(value.len())
}

/// Returns the length of a number from its point on.
fn part_len(value: &str) -> usize {
    value.len().saturating_sub(whole_len(value))
}

/// Appends a line of names, and a line for each tag.
pub(crate) fn push_tagged(
    alloc: Global,
    text: &mut String,
    rows: &[Row<'_>],
) -> Result<(), AllocError> {
    let Some(first) = rows.first() else {
        return Ok(());
    };
    let widths = widths(alloc, rows, &first.figures)?;
    let tags = fitted_tags(alloc, rows)?;
    let width = longest(&tags).max("tag".len());
    push_left(text, "tag", width)?;
    for (figure, width) in first.figures.iter().zip(&widths) {
        push_right(text, figure.name.as_str(), *width)?;
    }
    text.push('\n')?;
    for (row, tag) in rows.iter().zip(&tags) {
        push_left(text, tag.as_str(), width)?;
        for (figure, width) in row.figures.iter().zip(&widths) {
            push_right(text, or_none(figure, "-"), *width)?;
        }
        text.push('\n')?;
    }
    Ok(())
}

/// Returns the tag of a row as it is shown.
fn tag_of<'a>(row: &Row<'a>) -> &'a str {
    row.tag.unwrap_or(NO_TAG)
}

/// Returns the number of characters of a text.
fn char_count(text: &str) -> usize {
    text.chars().count()
}

/// Returns the widths of the columns of these figures: those of their names, or of longer values.
fn widths(alloc: Global, rows: &[Row<'_>], figures: &[Figure]) -> Result<Vec<usize>, AllocError> {
    let mut widths = Vec::new(alloc);
    for (index, figure) in figures.iter().enumerate() {
        let width = width(rows, index);
        widths.push(width.max(figure.name.len()))?;
    }
    Ok(widths)
}

/// Returns the length of the longest value of the column at an index.
fn width(rows: &[Row<'_>], index: usize) -> usize {
    let figures = rows.iter().filter_map(|row| row.figures.get(index));
    let widths = figures.map(|figure| or_none(figure, "-").len());
    widths.max().unwrap_or(0)
}

/// Appends a text to the left of its column, which has a width in characters.
pub fn push_left(text: &mut String, cell: &str, width: usize) -> Result<(), AllocError> {
    text.push_str(cell)?;
    push_spaces(text, width.saturating_sub(char_count(cell)))
}

/// Appends two spaces, and a text to the right of its column, which has a width in characters.
pub fn push_right(text: &mut String, cell: &str, width: usize) -> Result<(), AllocError> {
    text.push_str("  ")?;
    push_spaces(text, width.saturating_sub(char_count(cell)))?;
    text.push_str(cell)
}

/// Appends spaces.
pub(crate) fn push_spaces(text: &mut String, count: usize) -> Result<(), AllocError> {
    for _ in 0..count {
        text.push(' ')?;
    }
    Ok(())
}
