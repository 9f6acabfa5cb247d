//! The table of tags.

use crate::charts::legend::push_mark;
use hdr_draw::number::{push_grouped, push_rate};
use hdr_figures::figures::{DRAWN, Figures};
use hdr_view::amount::Amount;
use hdr_view::clock::push_length;
use hdr_view::name::IN_TABLE;
use hdr_view::view::View;
use std::alloc::AllocError;

/// The rows that are shown at once.
const OPEN: usize = 40;

/// The number of columns of quantiles.
const COLUMNS: usize = 5;

const HEAD: &str = "<table><thead><tr><th scope=\"col\">tag</th><th scope=\"col\">samples</th>\
<th scope=\"col\">samples/s</th><th scope=\"col\">mean</th><th scope=\"col\">p50</th>\
<th scope=\"col\">p90</th><th scope=\"col\">p99</th><th scope=\"col\">p99.9</th>\
<th scope=\"col\">max</th><th scope=\"col\">slow</th></tr></thead><tbody>";

/// Returns the values of the columns of quantiles.
fn columns(figures: &Figures) -> [u64; COLUMNS] {
    [
        figures.p50,
        figures.p90,
        figures.p99,
        figures.p999,
        figures.max,
    ]
}

/// Returns the value that is bold in each column: its greatest, if that is 1.5 times its median or
/// more.
fn bold_values(view: &View<'_>) -> Result<[Option<u64>; COLUMNS], AllocError> {
    let mut bold = [None; COLUMNS];
    for (column, bold) in bold.iter_mut().enumerate() {
        let mut values = Vec::new(view.alloc);
        for tag in &view.log.tags {
            if tag.figures.count > 0 {
                if let Some(value) = columns(&tag.figures).get(column) {
                    values.push(*value)?;
                }
            }
        }
        values.sort()?;
        let median = values.get(values.len().saturating_sub(1) / 2);
        if let (Some(greatest), Some(median)) = (values.last(), median) {
            if u128::from(*greatest) * 2 >= u128::from((*median).max(1)) * 3 {
                *bold = Some(*greatest);
            }
        }
    }
    Ok(bold)
}

/// Appends the table.
pub(crate) fn push_table(view: &View<'_>, text: &mut String) -> Result<(), AllocError> {
    let bold = bold_values(view)?;
    text.push_str(HEAD)?;
    if !view.is_single() {
        let length = view.timeline.last.saturating_sub(view.timeline.first);
        text.push_str("<tr class=all><th scope=row>all")?;
        push_row(view, text, &view.log.all, length, &[None; COLUMNS])?;
        text.push_str("<td>\n")?;
    }
    let more = view.order.len().saturating_sub(OPEN);
    for (position, index) in view.order.iter().enumerate() {
        if position == OPEN {
            push_fold(text, more)?;
        }
        push_tag_row(view, text, position, *index, &bold)?;
    }
    text.push_str("</tbody></table>")?;
    if more > 0 {
        text.push_str("</details>")?;
    }
    text.push_str("\n")?;
    push_drawn(view, text)
}

/// Ends the table, and begins one of more tags that is opened by a click.
fn push_fold(text: &mut String, more: usize) -> Result<(), AllocError> {
    text.push_str("</tbody></table>\n<details><summary>")?;
    push_grouped(text, more as u64)?;
    text.push_str(if more == 1 {
        " more tag</summary>"
    } else {
        " more tags</summary>"
    })?;
    text.push_str(HEAD)
}

/// Appends which tags are drawn, unless all are.
fn push_drawn(view: &View<'_>, text: &mut String) -> Result<(), AllocError> {
    if view.order.len() <= DRAWN {
        return Ok(());
    }
    text.push_str("<p class=\"soft\">Drawings show the ")?;
    if view.naming.named.is_empty() {
        write!(text, "{DRAWN} tags with the most samples")?;
    } else {
        write!(
            text,
            "first {DRAWN} tags: those of the incidents, and then those with the most samples"
        )?;
    }
    text.push_str("; \"all\" counts every tag.</p>\n")
}

/// Appends the row of the tag of an index.
fn push_tag_row(
    view: &View<'_>,
    text: &mut String,
    position: usize,
    index: usize,
    bold: &[Option<u64>; COLUMNS],
) -> Result<(), AllocError> {
    let Some(tag) = view.log.tags.get(index) else {
        return Ok(());
    };
    text.push_str("<tr><th scope=row>")?;
    if position < DRAWN && !view.is_single() {
        push_mark(text, position)?;
    }
    view.push_isolated(text, tag.tag, IN_TABLE)?;
    push_row(view, text, &tag.figures, tag.length, bold)?;
    text.push_str("<td>")?;
    push_slow(view, text, index)?;
    text.push_str("\n")
}

/// Appends how long the tag of an index was slow, if it was.
pub(crate) fn push_slow(
    view: &View<'_>,
    text: &mut String,
    index: usize,
) -> Result<(), AllocError> {
    match view.slow.get(index) {
        Some(length @ 1..) => push_length(text, *length),
        _ => Ok(()),
    }
}

/// Appends the cells of a row between its name and the last one.
fn push_row(
    view: &View<'_>,
    text: &mut String,
    figures: &Figures,
    milliseconds: u64,
    bold: &[Option<u64>; COLUMNS],
) -> Result<(), AllocError> {
    text.push_str("<td>")?;
    push_grouped(text, figures.count)?;
    text.push_str("<td>")?;
    push_rate(text, figures.count, milliseconds)?;
    let mean = match figures.mean {
        Some(mean) => Amount::of_mean(view.units, mean),
        None => None,
    };
    push_cell(view, text, mean, false)?;
    for (value, bold) in columns(figures).iter().zip(bold) {
        let amount = if figures.count > 0 {
            Some(view.units.amount_of(*value))
        } else {
            None
        };
        push_cell(
            view,
            text,
            amount,
            amount.is_some() && *bold == Some(*value),
        )?;
    }
    Ok(())
}

/// Appends a cell.
fn push_cell(
    view: &View<'_>,
    text: &mut String,
    amount: Option<Amount>,
    is_bold: bool,
) -> Result<(), AllocError> {
    text.push_str(if is_bold { "<td class=w>" } else { "<td>" })?;
    match amount {
        Some(amount) => amount.push_in_cell(text),
        None if view.units.unit.is_some() => text.push_str("–<i></i>"),
        None => text.push_str("–"),
    }
}
