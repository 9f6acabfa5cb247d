//! Names at the ends of curves.

use crate::charts::field::{Field, FieldScale};
use crate::charts::legend::line_class;
use hdr_draw::tenths::push_tenths;
use hdr_draw::values::GAP;
use hdr_view::name::AT_CURVE;
use hdr_view::options::push_percentile;
use hdr_view::view::View;
use std::alloc::{AllocError, Global};

/// How far the upper side of a name is above the end of its curve, in pixels.
const RISE: i64 = 8;

/// A name at the end of a curve.
#[derive(Drop)]
pub(crate) struct Ending {
    /// The name, escaped.
    pub name: String,
    /// Where the curve ends, in tenths below the upper side.
    pub y: u32,
    /// The class of the curve, or nothing for a name without a line.
    pub class: String,
}

impl Ending {
    /// Returns the end of a curve.
    pub(crate) fn new(
        alloc: Global,
        name: &str,
        y: u32,
        class: &str,
    ) -> Result<Ending, AllocError> {
        Ok(Ending {
            name: String::from_str(alloc, name)?,
            y,
            class: String::from_str(alloc, class)?,
        })
    }

    /// Returns the end of the curve of a tag, with a name of 20 columns.
    pub(crate) fn of_tag(
        view: &View<'_>,
        index: usize,
        tag: &str,
        y: u32,
    ) -> Result<Ending, AllocError> {
        let mut name = String::new(view.alloc);
        view.push_tag(&mut name, tag, AT_CURVE)?;
        Ok(Ending {
            name,
            y,
            class: line_class(view.alloc, index)?,
        })
    }

    /// Appends the name, in a box that reaches to the right side of the drawing. A browser ends a
    /// longer name in an ellipsis.
    fn push_name(&self, text: &mut String) -> Result<(), AllocError> {
        text.push_str("<foreignObject y=\"")?;
        push_tenths(text, self.y)?;
        text.push_str(if self.class.is_empty() {
            "\"><div dir=\"auto\">"
        } else {
            "\"><div class=\"o\" dir=\"auto\">"
        })?;
        text.push_str(self.name.as_str())?;
        text.push_str("</div></foreignObject>")
    }
}

/// Moves names apart, down and then up, so that each keeps its distance within a height.
fn move_apart(endings: &mut Vec<Ending>, height: u32) -> Result<(), AllocError> {
    endings.sort_by_key(|ending| ending.y)?;
    let mut least = 40;
    for ending in endings.iter_mut() {
        ending.y = ending.y.max(least);
        least = ending.y.saturating_add(GAP);
    }
    let mut most = height;
    for ending in endings.iter_mut().rev() {
        ending.y = ending.y.min(most);
        most = ending.y.saturating_sub(GAP);
    }
    Ok(())
}

/// Adds the ends of the levels' lines. If there are several, each is named with its percentile.
pub(crate) fn push_level_endings(
    view: &View<'_>,
    endings: &mut Vec<Ending>,
    field: Field,
    scale: &FieldScale,
) -> Result<(), AllocError> {
    for (at, level) in view.options.levels.iter().enumerate() {
        let mut name = String::from_str(view.alloc, "level ")?;
        if view.options.levels.len() > 1 {
            push_percentile(&mut name, *level)?;
            name.push_str(" ")?;
        }
        view.push_level(&mut name, at, *level)?;
        let y = field.y(scale, level.value);
        endings.push(Ending::new(view.alloc, name.as_str(), y, "level")?)?;
    }
    Ok(())
}

/// Returns the last level of a line, or the lower side of its field if it has none.
pub(crate) fn last_level(levels: &[Option<u32>], field: Field) -> u32 {
    let mut last = field.tenths();
    for level in levels {
        if let Some(level) = level {
            last = *level;
        }
    }
    last
}

impl Field {
    /// Appends names at the right, and a piece of the line of each.
    pub(crate) fn push_endings(
        self,
        text: &mut String,
        endings: &mut Vec<Ending>,
    ) -> Result<(), AllocError> {
        move_apart(endings, self.tenths())?;
        let Field { top, height } = self;
        write!(
            text,
            "<svg x=\"100%\" y=\"{top}\" width=\"18\" height=\"{height}\">"
        )?;
        for ending in endings.iter() {
            if !ending.class.is_empty() {
                let class = ending.class.as_str();
                write!(text, "<path class=\"{class}\" d=\"M5 ")?;
                push_tenths(text, ending.y)?;
                text.push_str("h12\"/>")?;
            }
        }
        text.push_str("</svg>")?;
        let above = i64::from(top) - RISE;
        write!(text, "<svg x=\"100%\" y=\"{above}\">")?;
        for ending in endings.iter() {
            ending.push_name(text)?;
        }
        text.push_str("</svg>")
    }
}
