//! The frames of drawings: their texts, axes, grids and slow times.

use crate::charts::field::{Field, FieldScale};
use crate::charts::time_axis::{push_time_axis, x_of};
use hdr_draw::path::WIDTH;
use hdr_draw::tenths::push_tenths;
use hdr_view::clock::push_length;
use hdr_view::name::{AT_CURVE, columns};
use hdr_view::view::View;
use std::alloc::AllocError;

/// The height of a drawing beside its parts: what is above and below.
const AROUND: u32 = 44;

/// The frame of a drawing.
#[derive(Clone, Copy)]
pub(crate) struct Frame<'f> {
    /// The class of the drawing.
    pub class: &'f str,
    /// The ids of its texts begin with this.
    pub id: &'f str,
    /// All parts together, and that of samples a second.
    pub all: Field,
    pub rates: Field,
    /// The index of its tag among all, if it has one alone.
    pub tag: Option<usize>,
    /// Whether there are names of tags at the right.
    pub has_names: bool,
}

impl Frame<'_> {
    /// Begins a drawing, with its title and its description. It ends with `</svg>`.
    pub(crate) fn push_head(
        self,
        view: &View<'_>,
        text: &mut String,
        title: &str,
        description: &str,
    ) -> Result<(), AllocError> {
        let Frame {
            class,
            id,
            all,
            has_names,
            ..
        } = self;
        let height = all.height.saturating_add(AROUND);
        write!(text, "<svg class=\"d {class}\" height=\"{height}\"")?;
        if has_names {
            text.push_str(" style=\"--r:")?;
            push_right(view, text)?;
            text.push_str("px\"")?;
        }
        write!(text, " role=\"img\" aria-labelledby=\"{id}t {id}d\">")?;
        write!(text, "<title id=\"{id}t\">{title}</title>")?;
        write!(text, "<desc id=\"{id}d\">{description}</desc>")
    }

    /// Appends what is behind the lines of a drawing over time: axis, grids, slow times, and the
    /// levels in the first part.
    pub(crate) fn push_background(
        self,
        view: &View<'_>,
        text: &mut String,
        parts: &[Field],
        scale: &FieldScale,
    ) -> Result<(), AllocError> {
        push_time_axis(view, text, self.all)?;
        for part in parts {
            part.push_grid(view.alloc, text, scale, view.units)?;
        }
        self.push_bands(view, text)?;
        match parts.first() {
            Some(part) => part.push_level_lines(text, scale, view.options.levels),
            None => Ok(()),
        }
    }
}

/// Appends how long a point is, and what times are.
pub(crate) fn push_caption(view: &View<'_>, text: &mut String) -> Result<(), AllocError> {
    text.push_str("a point is ")?;
    push_length(text, view.timeline.step)?;
    let merged = view.timeline.merged;
    if merged > 1 {
        write!(text, ": the greatest of {merged} intervals")?;
    }
    text.push_str(if view.timeline.has_clock() {
        "; UTC"
    } else {
        "; since the start"
    })
}

/// Appends the width at the right that the names of tags need, in pixels.
fn push_right(view: &View<'_>, text: &mut String) -> Result<(), AllocError> {
    let mut most = 9;
    for tag in &view.log.drawn {
        most = most.max(columns(tag.tag, AT_CURVE));
    }
    let right = 28 + 8 * most.min(AT_CURVE);
    write!(text, "{right}")
}

/// Appends the names of the drawn tags.
pub(crate) fn push_names(view: &View<'_>, text: &mut String) -> Result<(), AllocError> {
    for (index, tag) in view.log.drawn.iter().enumerate() {
        if index > 0 {
            text.push_str(", ")?;
        }
        view.push_tag(text, tag.tag, AT_CURVE)?;
    }
    Ok(())
}

/// Begins a text below a field. `x` is in ten-thousandths of its width. A narrow drawing has the
/// coarse ones.
pub(crate) fn push_below(
    text: &mut String,
    x: u32,
    field: Field,
    is_coarse: bool,
) -> Result<(), AllocError> {
    text.push_str("<text x=\"")?;
    push_tenths(text, x / 10)?;
    let y = field.bottom().saturating_add(20);
    let narrow = if is_coarse { "" } else { " n" };
    write!(text, "%\" y=\"{y}\" class=\"m{narrow}\">")
}
