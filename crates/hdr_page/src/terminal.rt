//! The page for a terminal: the sentence, the incidents, a row for each tag, and the curve of
//! percentiles of all samples in blocks.

mod rows;

use crate::charts::detail::curve_of;
use crate::charts::percentiles::LINES;
use crate::comparison::Comparison;
use hdr_draw::quantiles::QuantileScale;
use hdr_draw::values::{AxisTick, ValueScale};
use hdr_logs::{LogError, LogIntervals};
use hdr_view::name::columns;
use hdr_view::options::PageOptions;
use hdr_view::view::{PageForm, View};
use rows::push_rows;
use std::alloc::{AllocError, Global};

/// The columns of a label and a space, and of the curve: 80 together.
const LABEL: usize = 10;

const COLUMNS: usize = 70;

/// The rows of the curve, each of eight blocks.
const ROWS: u32 = 16;

const BLOCKS: [&str; 9] = [" ", "▁", "▂", "▃", "▄", "▅", "▆", "▇", "█"];

/// Returns the page of intervals as text for a terminal with 80 columns. The lines of runs that are
/// compared may be longer.
pub fn page_text(
    alloc: Global,
    intervals: &LogIntervals,
    options: PageOptions<'_>,
    comparison: Option<&Comparison>,
) -> Result<String, LogError> {
    let view = View::new(alloc, intervals, options, PageForm::Plain)?;
    let mut title = String::new(alloc);
    view.push_title(&mut title)?;
    let mut text = String::new(alloc);
    push_wrapped(&mut text, title.as_str())?;
    if let Some(comparison) = comparison {
        comparison.push_plain(&mut text)?;
    }
    let mut summary = String::new(alloc);
    view.push_summary(&mut summary)?;
    push_wrapped(&mut text, summary.as_str())?;
    if view.log.all.count > 0 {
        text.push_str("\n")?;
        push_rows(&view, &mut text)?;
        text.push_str("\n")?;
        push_blocks(&view, &mut text)?;
    }
    Ok(text)
}

/// Appends lines, broken at spaces.
fn push_wrapped(text: &mut String, summary: &str) -> Result<(), AllocError> {
    for line in summary.lines() {
        let mut column = 0usize;
        for word in line.split(' ') {
            let width = columns(word, usize::MAX);
            if column > 0 && column.saturating_add(width) >= LABEL + COLUMNS {
                text.push_str("\n")?;
                column = 0;
            }
            if column > 0 {
                text.push_str(" ")?;
                column = column.saturating_add(1);
            }
            text.push_str(word)?;
            column = column.saturating_add(width);
        }
        text.push_str("\n")?;
    }
    Ok(())
}

/// Appends the curve of percentiles.
fn push_blocks(view: &View<'_>, text: &mut String) -> Result<(), AllocError> {
    let scale = view.scale();
    let quantiles = QuantileScale::new(view.log.all.count);
    let heights = heights(view, &scale, &quantiles)?;
    let ticks = scale.ticks(view.alloc, ROWS * 150)?;
    for row in (0..ROWS).rev() {
        push_row_label(view, text, &scale, &ticks, row)?;
        for height in &heights {
            let blocks = height.saturating_sub(row * 8).min(8) as usize;
            text.push_str(BLOCKS.get(blocks).copied().unwrap_or(" "))?;
        }
        text.push_str("\n")?;
    }
    push_axis(view.alloc, text, &quantiles)
}

/// Returns the height of each column, in eighths of a row.
fn heights(
    view: &View<'_>,
    scale: &ValueScale,
    quantiles: &QuantileScale,
) -> Result<Vec<u32>, AllocError> {
    let last = COLUMNS - 1;
    let mut heights = vec![in view.alloc; 0; COLUMNS]?;
    for point in curve_of(view.alloc, &view.log.sum.histogram, quantiles, last as u32)? {
        let above = scale.place(point.value, ROWS * 8);
        for height in heights.iter_mut().skip(point.x as usize) {
            *height = above.max(1);
        }
    }
    Ok(heights)
}

/// Appends the label of the greatest step in a row, if it has one, in the columns of a label.
fn push_row_label(
    view: &View<'_>,
    text: &mut String,
    scale: &ValueScale,
    ticks: &[AxisTick],
    row: u32,
) -> Result<(), AllocError> {
    let mut label = String::new(view.alloc);
    for tick in ticks {
        let is_here = scale.place(tick.value, ROWS * 8).saturating_sub(1) / 8 == row;
        if tick.has_text && is_here {
            label = String::new(view.alloc);
            view.units.push_label(&mut label, tick.value)?;
        }
    }
    let width = columns(label.as_str(), LABEL);
    for _ in width..LABEL - 1 {
        text.push_str(" ")?;
    }
    text.push_str(label.as_str())?;
    text.push_str(" ")
}

/// Appends the names of percentiles below the curve.
fn push_axis(
    alloc: Global,
    text: &mut String,
    quantiles: &QuantileScale,
) -> Result<(), AllocError> {
    let last = COLUMNS - 1;
    let mut line = String::new(alloc);
    for (inverse, name) in LINES {
        let x = LABEL + quantiles.place(inverse, 1, last as u32) as usize;
        let is_free = line.is_empty() || line.len() < x;
        if quantiles.contains(inverse) && is_free && x + name.len() <= LABEL + COLUMNS {
            for _ in line.len()..x {
                line.push_str(" ")?;
            }
            line.push_str(name)?;
        }
    }
    text.push_str(line.as_str())?;
    text.push_str("\n")
}
