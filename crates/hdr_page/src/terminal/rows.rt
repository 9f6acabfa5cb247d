//! A row for each tag, for a terminal.

use crate::table::push_slow;
use hdr_draw::number::push_grouped;
use hdr_figures::figures::{Figures, TagFigures};
use hdr_view::name::columns;
use hdr_view::view::View;
use std::alloc::AllocError;

/// The most rows.
const MOST: usize = 40;

/// The columns of a tag.
const NAME: usize = 20;

/// The columns of each figure: with the tag 80 together.
const FIGURE: usize = 10;

/// The columns of how long a tag was slow. If they are there, a tag has as many fewer.
const SLOW: usize = 11;

const NAMES: [&str; 6] = ["samples", "p50", "p90", "p99", "p99.9", "max"];

/// Appends a row for each of the first tags.
pub(crate) fn push_rows(view: &View<'_>, text: &mut String) -> Result<(), AllocError> {
    let has_slow = has_slow(view)?;
    let width = if has_slow { NAME - SLOW } else { NAME };
    push_padded(text, "tag", width)?;
    for name in NAMES {
        push_right(text, name, FIGURE)?;
    }
    if has_slow {
        push_right(text, "slow", SLOW)?;
    }
    text.push_str("\n")?;
    for index in view.order.iter().take(MOST) {
        let Some(tag) = view.log.tags.get(*index) else {
            continue;
        };
        push_padded(text, name_of(view, tag)?.as_str(), width)?;
        push_figures(view, text, &tag.figures)?;
        if has_slow {
            push_slow_length(view, text, *index)?;
        }
        text.push_str("\n")?;
    }
    let more = view.order.len().saturating_sub(MOST);
    if more > 0 {
        writeln!(text, "and {more} more")?;
    }
    Ok(())
}

/// Appends how long a tag was slow, if it was.
fn push_slow_length(view: &View<'_>, text: &mut String, index: usize) -> Result<(), AllocError> {
    let mut slow = String::new(view.alloc);
    push_slow(view, &mut slow, index)?;
    if slow.is_empty() {
        return Ok(());
    }
    push_right(text, slow.as_str(), SLOW)
}

/// Returns the name of a tag.
fn name_of(view: &View<'_>, tag: &TagFigures<'_>) -> Result<String, AllocError> {
    let mut name = String::new(view.alloc);
    view.push_tag(&mut name, tag.tag, NAME)?;
    Ok(name)
}

/// Whether there is a column of how long tags were slow: one was, and no name is too long.
fn has_slow(view: &View<'_>) -> Result<bool, AllocError> {
    let mut is_slow = false;
    for index in view.order.iter().take(MOST) {
        if let Some(tag) = view.log.tags.get(*index) {
            if columns(name_of(view, tag)?.as_str(), NAME) > NAME - SLOW {
                return Ok(false);
            }
            is_slow = is_slow || view.slow.get(*index).is_some_and(|length| *length > 0);
        }
    }
    Ok(is_slow)
}

/// Appends the figures of a row.
fn push_figures(view: &View<'_>, text: &mut String, figures: &Figures) -> Result<(), AllocError> {
    let mut count = String::new(view.alloc);
    push_grouped(&mut count, figures.count)?;
    push_right(text, count.as_str(), FIGURE)?;
    for value in [
        figures.p50,
        figures.p90,
        figures.p99,
        figures.p999,
        figures.max,
    ] {
        let mut figure = String::new(view.alloc);
        if figures.count > 0 {
            view.units.push(&mut figure, value)?;
        } else {
            figure.push_str("-")?;
        }
        push_right(text, figure.as_str(), FIGURE)?;
    }
    Ok(())
}

/// Appends a text and spaces up to a number of columns.
fn push_padded(text: &mut String, shown: &str, width: usize) -> Result<(), AllocError> {
    text.push_str(shown)?;
    for _ in columns(shown, width)..width {
        text.push_str(" ")?;
    }
    Ok(())
}

/// Appends a text at the right of a number of columns.
fn push_right(text: &mut String, shown: &str, width: usize) -> Result<(), AllocError> {
    for _ in columns(shown, width)..width {
        text.push_str(" ")?;
    }
    text.push_str(shown)
}
