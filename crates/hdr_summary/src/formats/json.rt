//! JSON. Numbers are written as they are, so that none is rounded.

use crate::figures::Figure;
use crate::formats::{Row, or_none};
use serde_json::Value;
use std::alloc::{AllocError, Global};

/// Appends a string of JSON.
pub fn push_string(alloc: Global, text: &mut String, string: &str) -> Result<(), AllocError> {
    let value = Value::String(String::from_str(alloc, string)?);
    let quoted = value.to_string(alloc)?;
    text.push_str(quoted.as_str())
}

/// Appends the member of a figure.
fn push_figure(alloc: Global, text: &mut String, figure: &Figure) -> Result<(), AllocError> {
    push_string(alloc, text, figure.name.as_str())?;
    text.push(':')?;
    text.push_str(or_none(figure, "null"))
}

/// Appends the member of a tag.
fn push_tag(alloc: Global, text: &mut String, tag: Option<&str>) -> Result<(), AllocError> {
    text.push_str("\"tag\":")?;
    match tag {
        Some(tag) => push_string(alloc, text, tag)?,
        None => text.push_str("null")?,
    }
    text.push(',')
}

/// Appends the object of a row.
fn push_object(
    alloc: Global,
    text: &mut String,
    row: &Row<'_>,
    has_tags: bool,
) -> Result<(), AllocError> {
    text.push('{')?;
    if has_tags {
        push_tag(alloc, text, row.tag)?;
    }
    for (index, figure) in row.figures.iter().enumerate() {
        if index > 0 {
            text.push(',')?;
        }
        push_figure(alloc, text, figure)?;
    }
    text.push('}')
}

/// Appends an object, or an array of them if rows have tags, and a line feed.
pub(crate) fn push_json(
    alloc: Global,
    text: &mut String,
    rows: &[Row<'_>],
    has_tags: bool,
) -> Result<(), AllocError> {
    if has_tags {
        text.push('[')?;
    }
    for (index, row) in rows.iter().enumerate() {
        if index > 0 {
            text.push_str(",\n")?;
        }
        push_object(alloc, text, row, has_tags)?;
    }
    if has_tags {
        text.push(']')?;
    }
    text.push('\n')
}
