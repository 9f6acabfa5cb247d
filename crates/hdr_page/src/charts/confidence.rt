//! The bands of confidence intervals, behind the curves of percentiles.

ghost use Rattle.std.specs.Prelude.{◌≡◌, ◌≤◌, ◌++◌, OnOk, codes, string_bytes};
ghost use Rattle.hdr_draw.specs.Paths.{tenths};

use crate::charts::field::{Field, FieldScale};
use crate::comparison::Comparison;
use hdr_draw::path::WIDTH;
use hdr_draw::quantiles::QuantileScale;
use hdr_draw::tenths::push_tenths;
use hdr_runs::BandPoint;
use hdr_view::view::View;
use std::alloc::AllocError;

/// The samples of which a point of a band says how many are above it.
const PARTS: u64 = 1_000_000;

/// The intervals of a curve's percentiles, and the number of its samples.
#[derive(Drop)]
pub(crate) struct ConfidenceBand {
    samples: u64,
    points: Vec<BandPoint>,
}

/// Returns the band of each drawn tag, without points for one that is not compared.
pub(crate) fn bands_of(
    view: &View<'_>,
    comparison: Option<&Comparison>,
) -> Result<Vec<ConfidenceBand>, AllocError> {
    let mut bands = Vec::new(view.alloc);
    for tag in &view.log.drawn {
        let side = match comparison {
            Some(comparison) => comparison.side(tag.tag),
            None => None,
        };
        let points = match side {
            Some(side) => side.band(view.alloc)?,
            None => Vec::new(view.alloc),
        };
        bands.push(ConfidenceBand {
            samples: tag.figures.count,
            points,
        })?;
    }
    Ok(bands)
}

impl ConfidenceBand {
    /// Appends the area between the ends of the intervals, in the colour of a drawn tag.
    pub(crate) fn push_to(
        &self,
        text: &mut String,
        tag: usize,
        field: Field,
        scale: &FieldScale,
        quantiles: &QuantileScale,
    ) -> Result<(), AllocError> {
        if self.points.is_empty() {
            return Ok(());
        }
        write!(text, "<path class=\"ci t{tag}\" d=\"")?;
        let mut letter = "M";
        for point in &self.points {
            let x = self.x_of(point, quantiles);
            push_point(text, letter, x, field.y(scale, point.low))?;
            letter = "L";
        }
        for point in self.points.iter().rev() {
            let x = self.x_of(point, quantiles);
            push_point(text, letter, x, field.y(scale, point.high))?;
        }
        text.push_str("Z\"/>")
    }

    /// Returns how far along the width the percentile of a point is.
    fn x_of(&self, point: &BandPoint, quantiles: &QuantileScale) -> u32
        ensures { result ≤ WIDTH }
    {
        if point.above == 0 {
            quantiles.place_of_last(self.samples, WIDTH)
        } else {
            quantiles.place(PARTS, point.above, WIDTH)
        }
    }
}

/// Appends a letter of a path and a point.
fn push_point(text: &mut String, letter: &str, x: u32, y: u32) -> Result<(), AllocError>
    ensures { OnOk result (string_bytes text.new ≡ string_bytes text.old
        ++ letter.now ++ tenths x ++ codes " " ++ tenths y) }
{
    text.push_str(letter)?;
    push_tenths(text, x)?;
    text.push_str(" ")?;
    push_tenths(text, y)
}
