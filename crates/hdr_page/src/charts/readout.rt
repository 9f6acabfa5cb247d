//! Read-outs: the figures of a point of time, which a browser shows above it.

use crate::charts::field::Field;
use hdr_draw::number::push_grouped;
use hdr_figures::figures::{Peaks, TagSamples, Total};
use hdr_view::clock::TimeStyle;
use hdr_view::name::AT_CURVE;
use hdr_view::view::{Series, View};
use std::alloc::{AllocError, Global};

/// Appends the read-outs of the points of a tag.
pub(crate) fn push_tag_readouts(
    view: &View<'_>,
    text: &mut String,
    tag: &TagSamples<'_>,
    field: Field,
) -> Result<(), AllocError> {
    push_begin(view, text, field)?;
    for point in &tag.points {
        push_start(view, text, point.point)?;
        push_values(view, text, &point.peaks)?;
        push_end(text, point.count)?;
    }
    text.push_str("</svg>")
}

/// Appends the read-outs of the points of all tags: the p99 of each drawn tag, and the greatest
/// value of all.
pub(crate) fn push_readouts(
    view: &View<'_>,
    text: &mut String,
    field: Field,
) -> Result<(), AllocError> {
    let lines = p99_lines(view.alloc, view)?;
    push_begin(view, text, field)?;
    for (point, total) in view.log.totals.iter().enumerate() {
        if total.count > 0 {
            push_start(view, text, point)?;
            push_p99(view, text, &lines, point)?;
            push_greatest(view, text, total)?;
            push_end(text, total.count)?;
        }
    }
    text.push_str("</svg>")
}

/// Returns the p99 of each drawn tag at all points: `None` without samples.
fn p99_lines(alloc: Global, view: &View<'_>) -> Result<Vec<Vec<Option<u64>>>, AllocError> {
    let mut lines = Vec::new(alloc);
    for tag in &view.log.drawn {
        let values = Series::P99.values(alloc, tag, view.timeline.points)?;
        lines.push(values).map_err(|_| AllocError)?;
    }
    Ok(lines)
}

/// Begins the read-outs of a drawing: a point is 1 wide, and the drawing 1 high.
fn push_begin(view: &View<'_>, text: &mut String, field: Field) -> Result<(), AllocError> {
    let Field { top, height } = field;
    let points = view.timeline.points;
    write!(
        text,
        "<svg y=\"{top}\" width=\"100%\" height=\"{height}\" class=\"r\" \
         viewBox=\"0 0 {points} 1\" preserveAspectRatio=\"none\">"
    )
}

/// Begins the read-out of a point, with its time.
fn push_start(view: &View<'_>, text: &mut String, point: usize) -> Result<(), AllocError> {
    write!(text, "<rect x=\"{point}\" width=\"1\" height=\"1\"><title>")?;
    let start = view.timeline.start_of(point);
    view.clock.push(text, start, TimeStyle::Full)
}

/// Ends a read-out, with the number of samples.
fn push_end(text: &mut String, count: u64) -> Result<(), AllocError> {
    text.push_str("; ")?;
    push_grouped(text, count)?;
    text.push_str(if count == 1 {
        " sample</title></rect>"
    } else {
        " samples</title></rect>"
    })
}

/// Appends the percentiles of a point of a tag.
fn push_values(view: &View<'_>, text: &mut String, peaks: &Peaks) -> Result<(), AllocError> {
    for (name, value) in [
        (": p50 ", peaks.p50),
        (", p90 ", peaks.p90),
        (", p99 ", peaks.p99),
        (", max ", peaks.max),
    ] {
        text.push_str(name)?;
        view.units.push(text, value)?;
    }
    Ok(())
}

/// Appends the p99 of the tags that have samples at a point.
fn push_p99(
    view: &View<'_>,
    text: &mut String,
    lines: &[Vec<Option<u64>>],
    point: usize,
) -> Result<(), AllocError> {
    let mut has_tags = false;
    for (tag, line) in view.log.drawn.iter().zip(lines) {
        if let Some(Some(value)) = line.get(point) {
            text.push_str(if has_tags { ", " } else { ": p99 " })?;
            view.push_tag(text, tag.tag, AT_CURVE)?;
            text.push_str(" ")?;
            view.units.push(text, *value)?;
            has_tags = true;
        }
    }
    Ok(())
}

/// Appends the greatest value of a point, if it has one.
fn push_greatest(view: &View<'_>, text: &mut String, total: &Total) -> Result<(), AllocError> {
    match total.max {
        Some(max) => {
            text.push_str("; max ")?;
            view.units.push(text, max)
        }
        None => Ok(()),
    }
}
