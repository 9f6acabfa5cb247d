//! The drawings of a page: all tags over time, percentiles, and each tag with its heat map.

mod bands;
mod confidence;
pub(crate) mod detail;
mod emphasis;
mod ending;
mod field;
mod frame;
pub(crate) mod legend;
mod over_time;
pub(crate) mod percentiles;
mod rates;
mod readout;
mod tag_drawing;
mod time_axis;

use crate::charts::bands::push_pattern;
use crate::charts::detail::detail_of;
use crate::charts::over_time::push_over_time;
use crate::charts::percentiles::{push_percentiles, quantiles};
use crate::charts::tag_drawing::push_tag_drawing;
use crate::comparison::Comparison;
use hdr_view::view::View;
use std::alloc::AllocError;

/// Appends the drawings.
pub(crate) fn push_drawings(
    view: &View<'_>,
    text: &mut String,
    comparison: Option<&Comparison>,
) -> Result<(), AllocError> {
    let rows = view.scale().rows(view.alloc)?;
    let quantiles = quantiles(view);
    let mut details = Vec::new(view.alloc);
    let points = view.timeline.points;
    for samples in &view.log.drawn {
        details.push(detail_of(view.alloc, samples, points, &rows, &quantiles)?)?;
    }
    let has_times = !view.is_instant();
    push_pattern(text)?;
    text.push_str(if has_times {
        "<div class=\"two\">\n"
    } else {
        "<div class=\"two one\">\n"
    })?;
    if has_times && !view.is_single() {
        push_over_time(view, text)?;
        push_percentiles(view, text, &details, comparison)?;
        text.push_str("</div>\n<div class=\"two\">\n")?;
    }
    if has_times {
        for (index, (tag, detail)) in view.log.drawn.iter().zip(details.iter()).enumerate() {
            push_tag_drawing(view, text, index, tag, detail)?;
        }
    }
    if !has_times || view.is_single() {
        push_percentiles(view, text, &details, comparison)?;
    }
    text.push_str("</div>\n")
}
