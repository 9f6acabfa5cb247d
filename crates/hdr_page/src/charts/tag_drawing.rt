//! The drawing of a tag: its values over time, a heat map, and its samples a second.

use crate::charts::detail::Detail;
use crate::charts::ending::{Ending, last_level};
use crate::charts::field::{Field, FieldScale};
use crate::charts::frame::{Frame, push_caption};
use crate::charts::legend::{push_legend, push_mark};
use crate::charts::rates::rate_range;
use crate::charts::readout::push_tag_readouts;
use hdr_draw::heat::ROWS;
use hdr_figures::figures::TagSamples;
use hdr_view::name::{AT_CURVE, IN_TABLE};
use hdr_view::view::{Series, View};
use std::alloc::AllocError;

/// The parts of the drawing.
const VALUES: Field = Field {
    top: 0,
    height: 220,
};

const HEAT: Field = Field {
    top: 244,
    height: 160,
};

const RATES: Field = Field {
    top: 426,
    height: 44,
};

/// All parts together.
const ALL: Field = Field {
    top: 0,
    height: 470,
};

/// The lines, from the lowest layer to the uppermost, with their names.
const LINES: [(Series, &str); 4] = [
    (Series::P90, "p90"),
    (Series::P99, "p99"),
    (Series::P50, "p50"),
    (Series::Max, "max"),
];

/// Appends the drawing of a tag.
pub(crate) fn push_tag_drawing(
    view: &View<'_>,
    text: &mut String,
    index: usize,
    tag: &TagSamples<'_>,
    detail: &Detail,
) -> Result<(), AllocError> {
    push_tag_caption(view, text, index, tag, detail)?;
    let id = format!(in view.alloc; "g{index}")?;
    let frame = Frame {
        class: "tag",
        id: id.as_str(),
        all: ALL,
        rates: RATES,
        tag: view.order.get(index).copied(),
        has_names: false,
    };
    let mut title = String::new(view.alloc);
    view.push_tag(&mut title, tag.tag, AT_CURVE)?;
    title.push_str(" over time: p50, p90, p99 and max, a heat map, samples/s")?;
    let description = description_of(view, tag)?;
    frame.push_head(view, text, title.as_str(), description.as_str())?;
    let scale = FieldScale::Logarithmic(view.scale());
    frame.push_background(view, text, &[VALUES, HEAT], &scale)?;
    push_tag_lines(view, text, tag, &scale)?;
    if let Some(index) = view.order.get(index) {
        VALUES.push_emphasis(view, text, tag, *index, &scale)?;
    }
    push_heat(view, text, detail)?;
    let mut counts = vec![in view.alloc; 0u64; view.timeline.points]?;
    for point in &tag.points {
        if let Some(count) = counts.get_mut(point.point) {
            *count = point.count;
        }
    }
    RATES.push_rates(text, &counts, view, "through")?;
    push_tag_readouts(view, text, tag, ALL)?;
    text.push_str("</svg></figure>\n")
}

/// Appends the name of a tag, how long a point is, and the colours of its heat map.
fn push_tag_caption(
    view: &View<'_>,
    text: &mut String,
    index: usize,
    tag: &TagSamples<'_>,
    detail: &Detail,
) -> Result<(), AllocError> {
    write!(text, "<figure class=\"t{index}\"><h2>")?;
    if !view.is_single() {
        push_mark(text, index)?;
    }
    view.push_isolated(text, tag.tag, IN_TABLE)?;
    text.push_str("</h2><figcaption>")?;
    push_caption(view, text)?;
    push_legend(text, detail.heat.most())?;
    text.push_str("</figcaption>")
}

/// Returns the least and the greatest p99 and rate of a tag, its greatest value, and the slow times.
fn description_of(view: &View<'_>, tag: &TagSamples<'_>) -> Result<String, AllocError> {
    let mut least = u64::MAX;
    let mut greatest = 0;
    for point in &tag.points {
        least = least.min(point.peaks.p99);
        greatest = greatest.max(point.peaks.p99);
    }
    let (slowest, fastest) = rate_range(view, tag);
    let mut text = String::from_str(view.alloc, "p99 between ")?;
    view.units.push(&mut text, least.min(greatest))?;
    text.push_str(" and ")?;
    view.units.push(&mut text, greatest)?;
    text.push_str("; max ")?;
    view.units.push(&mut text, tag.figures.max)?;
    text.push_str("; ")?;
    slowest.push(&mut text)?;
    text.push_str(" to ")?;
    fastest.push(&mut text)?;
    text.push_str(" samples/s. ")?;
    view.push_description(&mut text)?;
    Ok(text)
}

/// Appends the lines of a tag, and their names.
fn push_tag_lines(
    view: &View<'_>,
    text: &mut String,
    tag: &TagSamples<'_>,
    scale: &FieldScale,
) -> Result<(), AllocError> {
    let low = VALUES.levels_of(view, tag, Series::P50, scale)?;
    let high = VALUES.levels_of(view, tag, Series::P99, scale)?;
    VALUES.push_begin(text)?;
    VALUES.push_area(view.alloc, text, "area", &low, &high)?;
    let mut endings = Vec::new(view.alloc);
    for (series, name) in LINES {
        let levels = VALUES.levels_of(view, tag, series, scale)?;
        let class = match series {
            Series::Max => "top",
            _ => name,
        };
        VALUES.push_levels(view.alloc, text, class, &levels, series.joint())?;
        let y = last_level(&levels, VALUES);
        endings.push(Ending::new(view.alloc, name, y, class)?)?;
    }
    text.push_str("</svg>")?;
    VALUES.push_endings(text, &mut endings)
}

/// Appends a heat map.
fn push_heat(view: &View<'_>, text: &mut String, detail: &Detail) -> Result<(), AllocError> {
    let Field { top, height } = HEAT;
    let points = view.timeline.points;
    write!(
        text,
        "<svg y=\"{top}\" width=\"100%\" height=\"{height}\" \
         viewBox=\"-.5 0 {points} {ROWS}\" preserveAspectRatio=\"none\">"
    )?;
    for (colour, path) in detail.heat.paths(view.alloc)?.iter().enumerate() {
        if !path.is_empty() {
            let path = path.as_str();
            write!(text, "<path class=\"h h{colour}\" d=\"{path}\"/>")?;
        }
    }
    text.push_str("</svg>")
}
