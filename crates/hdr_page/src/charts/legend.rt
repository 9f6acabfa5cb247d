//! Keys of lines and colours.

use hdr_draw::heat::COLOURS;
use hdr_draw::number::push_grouped;
use std::alloc::{AllocError, Global};

/// The tags with the most samples, whose lines have no dashes.
const SOLID: usize = 5;

/// Returns the class of the dashes of a tag's line.
fn dash_of(tag: usize) -> &'static str {
    if tag < SOLID { "" } else { " dash" }
}

/// Returns the classes of the line of a drawn tag.
pub(crate) fn line_class(alloc: Global, tag: usize) -> Result<String, AllocError> {
    let dash = dash_of(tag);
    format!(in alloc; "c t{tag}{dash}")
}

/// Appends the line of a drawn tag.
pub(crate) fn push_mark(text: &mut String, tag: usize) -> Result<(), AllocError> {
    let dash = dash_of(tag);
    write!(
        text,
        "<svg class=\"k t{tag}\" width=\"18\" height=\"4\" aria-hidden=\"true\">\
         <path class=\"c{dash}\" d=\"M0 2h18\"/></svg>"
    )
}

/// Appends the colours of a heat map, from one sample to the most.
pub(crate) fn push_legend(text: &mut String, most: u64) -> Result<(), AllocError> {
    text.push_str(
        "; heat map: samples in a cell <span style=\"white-space:nowrap\">1 \
         <svg class=\"k\" width=\"72\" height=\"9\" aria-hidden=\"true\">",
    )?;
    for colour in 0..COLOURS {
        let x = colour * 9;
        write!(
            text,
            "<path class=\"h h{colour}\" style=\"stroke-width:9\" d=\"M{x} 4.5h9\"/>"
        )?;
    }
    text.push_str("</svg>")?;
    push_grouped(text, most)?;
    text.push_str("</span>")
}
