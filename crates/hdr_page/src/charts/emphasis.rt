//! What rose in the bands of a tag's drawing, and what is usual.

use crate::charts::bands::Band;
use crate::charts::field::{Field, FieldScale};
use hdr_draw::path::{Joint, WIDTH};
use hdr_draw::tenths::push_tenths;
use hdr_figures::figures::TagSamples;
use hdr_verdict::{Episode, Rise};
use hdr_view::incidents::most_risen;
use hdr_view::name::columns;
use hdr_view::naming::episode_of;
use hdr_view::view::{Series, View};
use std::alloc::AllocError;

/// The least width of a tag's field, and that of a character, in tenths of a pixel.
const FIELD: u32 = 3_320;

const CHARACTER: u32 = 68;

/// The most columns of a usual value.
const MOST: usize = 100;

/// The height of a text, and how far its lower side is above its line, in tenths of a pixel.
const LINE: u32 = 150;

const RISE: u32 = 40;

/// A percentile that rose, and where.
#[derive(Clone, Copy)]
struct Emphasis<'v> {
    episode: &'v Episode,
    rise: Rise,
    place: Band,
}

/// The box of a text: its sides, of `WIDTH`, and its lower side in tenths.
#[derive(Clone, Copy)]
struct TextBox {
    left: u32,
    right: u32,
    y: u32,
}

impl TextBox {
    /// Returns the box of a text at the left side of a band: before it if the width fits there, or
    /// else from it on.
    fn of(place: Band, width: u32, y: u32) -> Option<TextBox> {
        if let Some(left) = place.left.checked_sub(width) {
            let right = place.left;
            return Some(TextBox { left, right, y });
        }
        let left = place.left;
        let right = left.saturating_add(width);
        if right > WIDTH {
            return None;
        }
        Some(TextBox { left, right, y })
    }

    /// Whether two texts overlap.
    fn overlaps(self, other: TextBox) -> bool {
        self.left < other.right && other.left < self.right && self.y.abs_diff(other.y) < LINE
    }
}

/// Returns the percentiles that rose most in the named slow times of a tag, the heaviest first.
fn emphases_of<'v>(view: &'v View<'_>, tag: usize) -> Result<Vec<Emphasis<'v>>, AllocError> {
    let mut emphases = Vec::new(view.alloc);
    for incident in view.named_incidents()? {
        let Some(episode) = episode_of(incident, tag) else {
            continue;
        };
        if let Some(rise) = episode.rises.get(most_risen(&episode.rises)) {
            let emphasis = Emphasis {
                episode,
                rise: *rise,
                place: Band::of(view, episode),
            };
            match emphases.push(emphasis) {
                Ok(()) => {}
                Err(_) => return Err(AllocError),
            }
        }
    }
    Ok(emphases)
}

impl Emphasis<'_> {
    /// Adds the values of the percentile at the points of the slow time.
    fn add_values(self, view: &View<'_>, tag: &TagSamples<'_>, values: &mut [Option<u64>]) {
        let from = view.timeline.point_of(self.episode.start);
        let to = view.timeline.point_of(self.episode.end.saturating_sub(1));
        let series = Series::of_tail(self.rise.tail);
        for point in &tag.points {
            if from <= point.point && point.point <= to {
                if let Some(value) = values.get_mut(point.point) {
                    *value = Some(series.of(&point.peaks));
                }
            }
        }
    }

    /// Returns the text of the usual value.
    fn text(self, view: &View<'_>, usual: u64) -> Result<String, AllocError> {
        let mut text = String::from_str(view.alloc, "usually ")?;
        view.units.push(&mut text, usual)?;
        Ok(text)
    }
}

impl Field {
    /// Appends the lines of the percentiles that rose, and what is usual for them.
    pub(crate) fn push_emphasis(
        self,
        view: &View<'_>,
        text: &mut String,
        tag: &TagSamples<'_>,
        index: usize,
        scale: &FieldScale,
    ) -> Result<(), AllocError> {
        let emphases = emphases_of(view, index)?;
        if emphases.is_empty() {
            return Ok(());
        }
        let mut values = vec![in view.alloc; None; view.timeline.points]?;
        for emphasis in emphases.iter().rev() {
            emphasis.add_values(view, tag, &mut values);
        }
        let levels = self.levels(view.alloc, scale, &values)?;
        self.push_begin(text)?;
        self.push_levels(view.alloc, text, "rose", &levels, Joint::Jump)?;
        self.push_usual_lines(text, &emphases, scale)?;
        text.push_str("</svg>")?;
        self.push_usual_texts(view, text, &emphases, scale)
    }

    /// Appends a line across each band at its usual value.
    fn push_usual_lines(
        self,
        text: &mut String,
        emphases: &[Emphasis<'_>],
        scale: &FieldScale,
    ) -> Result<(), AllocError> {
        text.push_str("<path class=\"usual\" d=\"")?;
        for emphasis in emphases {
            if let Some(usual) = emphasis.rise.usual {
                text.push_str("M")?;
                push_tenths(text, emphasis.place.left)?;
                text.push_str(" ")?;
                push_tenths(text, self.y(scale, usual))?;
                text.push_str("H")?;
                push_tenths(text, emphasis.place.right)?;
            }
        }
        text.push_str("\"/>")
    }

    /// Appends the usual values at the left sides of their bands. One that does not fit is left out.
    fn push_usual_texts(
        self,
        view: &View<'_>,
        text: &mut String,
        emphases: &[Emphasis<'_>],
        scale: &FieldScale,
    ) -> Result<(), AllocError> {
        let mut boxes = Vec::new(view.alloc);
        for emphasis in emphases {
            let Some(usual) = emphasis.rise.usual else {
                continue;
            };
            let shown = emphasis.text(view, usual)?;
            let y = self.y(scale, usual).saturating_sub(RISE).max(LINE);
            let width = columns(shown.as_str(), MOST).min(MOST) as u32;
            let width = width.saturating_mul(CHARACTER * 1_000) / (FIELD / 10);
            match TextBox::of(emphasis.place, width, y) {
                Some(place) if !boxes.iter().any(|other: &TextBox| other.overlaps(place)) => {
                    boxes.push(place)?;
                    self.push_usual_text(text, emphasis.place, place, shown.as_str())?;
                }
                _ => {}
            }
        }
        Ok(())
    }

    /// Appends the usual value of a band.
    fn push_usual_text(
        self,
        text: &mut String,
        band: Band,
        place: TextBox,
        shown: &str,
    ) -> Result<(), AllocError> {
        text.push_str(if place.right == band.left {
            "<text class=\"u e\" dx=\"-3\" x=\""
        } else {
            "<text class=\"u\" dx=\"3\" x=\""
        })?;
        push_tenths(text, band.left / 10)?;
        text.push_str("%\" y=\"")?;
        push_tenths(text, place.y.saturating_add(self.top.saturating_mul(10)))?;
        write!(text, "\">{shown}</text>")
    }
}
