//! The drawing of all tags over time.

use crate::charts::ending::{Ending, last_level, push_level_endings};
use crate::charts::field::{Field, FieldScale};
use crate::charts::frame::{Frame, push_caption, push_names};
use crate::charts::legend::line_class;
use crate::charts::readout::push_readouts;
use hdr_draw::path::Joint;
use hdr_draw::values::ValueScale;
use hdr_view::view::{Series, View};
use std::alloc::AllocError;

/// The part of the values, and that of samples a second.
const VALUES: Field = Field {
    top: 0,
    height: 272,
};

const RATES: Field = Field {
    top: 292,
    height: 40,
};

const FRAME: Frame<'_> = Frame {
    class: "time",
    id: "o",
    all: Field {
        top: 0,
        height: 332,
    },
    rates: RATES,
    tag: None,
    has_names: true,
};

/// Appends the drawing of all tags over time.
pub(crate) fn push_over_time(view: &View<'_>, text: &mut String) -> Result<(), AllocError> {
    text.push_str("<figure><h2>Over time: p99 of each tag, max of all</h2><figcaption>")?;
    push_caption(view, text)?;
    text.push_str("; below: samples/s of all</figcaption>")?;
    let mut title = String::from_str(view.alloc, "p99 over time of ")?;
    push_names(view, &mut title)?;
    let mut description = String::new(view.alloc);
    view.push_description(&mut description)?;
    FRAME.push_head(view, text, title.as_str(), description.as_str())?;
    let scale = FieldScale::Logarithmic(p99_scale(view));
    FRAME.push_background(view, text, &[VALUES], &scale)?;
    push_p99_lines(view, text, &scale)?;
    let counts = view.log.totals.iter().map(|total| total.count);
    let counts = counts.collect::<Vec<u64>>(view.alloc)?;
    RATES.push_rates(text, &counts, view, "sum")?;
    push_readouts(view, text, FRAME.all)?;
    text.push_str("</svg></figure>\n")
}

/// Returns the scale from the least p99 of a point.
fn p99_scale(view: &View<'_>) -> ValueScale {
    let mut least = u64::MAX;
    for level in view.options.levels {
        least = least.min(level.value);
    }
    for tag in &view.log.drawn {
        for point in &tag.points {
            least = least.min(point.peaks.p99);
        }
    }
    ValueScale::new(least.min(view.greatest()), view.greatest())
}

/// Appends the line of each tag's p99, the greatest values, and the names at their ends.
fn push_p99_lines(
    view: &View<'_>,
    text: &mut String,
    scale: &FieldScale,
) -> Result<(), AllocError> {
    let mut endings = Vec::new(view.alloc);
    let thin = if view.log.drawn.len() > 4 { " z" } else { "" };
    let maxima = view.log.totals.iter().map(|total| total.max);
    let maxima = maxima.collect::<Vec<Option<u64>>>(view.alloc)?;
    let maxima = VALUES.levels(view.alloc, scale, &maxima)?;
    VALUES.push_begin(text)?;
    for (index, tag) in view.log.drawn.iter().enumerate().rev() {
        let levels = VALUES.levels_of(view, tag, Series::P99, scale)?;
        let mut class = line_class(view.alloc, index)?;
        class.push_str(thin)?;
        VALUES.push_levels(view.alloc, text, class.as_str(), &levels, Joint::Jump)?;
        let y = last_level(&levels, VALUES);
        endings.push(Ending::of_tag(view, index, tag.tag, y)?)?;
    }
    VALUES.push_levels(view.alloc, text, "top", &maxima, Joint::Gap)?;
    text.push_str("</svg>")?;
    let y = last_level(&maxima, VALUES);
    endings.push(Ending::new(view.alloc, "max (all)", y, "top")?)?;
    endings.reverse();
    push_level_endings(view, &mut endings, VALUES, scale)?;
    VALUES.push_endings(text, &mut endings)
}
