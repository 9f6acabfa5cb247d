//! The drawing of percentiles.

use crate::charts::confidence::{ConfidenceBand, bands_of};
use crate::charts::detail::{CurvePoint, Detail};
use crate::charts::ending::{Ending, push_level_endings};
use crate::charts::field::{Field, FieldScale, push_path};
use crate::charts::frame::{Frame, push_below, push_names};
use crate::charts::legend::line_class;
use crate::comparison::Comparison;
use hdr_draw::path::{Path, Point, WIDTH};
use hdr_draw::quantiles::QuantileScale;
use hdr_draw::tenths::push_tenths;
use hdr_view::name::AT_CURVE;
use hdr_view::view::View;
use std::alloc::{AllocError, Global};

/// The part of the curves.
const CURVES: Field = Field {
    top: 0,
    height: 332,
};

/// The lines across the x axis: 1/(1 - q), and its name.
pub(crate) const LINES: [(u64, &str); 12] = [
    (1, "0"),
    (2, "p50"),
    (10, "p90"),
    (100, "p99"),
    (1_000, "p99.9"),
    (10_000, "p99.99"),
    (100_000, "p99.999"),
    (1_000_000, "p99.9999"),
    (10_000_000, "p99.99999"),
    (100_000_000, "p99.999999"),
    (1_000_000_000, "p99.9999999"),
    (10_000_000_000, "p99.99999999"),
];

/// The least width of the curves' part beside another drawing and on a phone, in tenths.
const DESK: u32 = 3_500;

const PHONE: u32 = 2_960;

/// Half a character's width, the space at the left of the part, and the least distance of names.
const HALF_CHARACTER: u64 = 34;

const LEFT: u64 = 600;

const GAP: u64 = 36;

/// The least distance of the names of p50 and 0.
const LEAST_MEDIAN: u32 = 172;

/// A scale of the drawing: its name, and the class and the id of the drawing on it.
#[derive(Clone, Copy)]
struct Kind {
    name: &'static str,
    class: &'static str,
    id: &'static str,
}

const LOGARITHMIC: Kind = Kind {
    name: "logarithmic",
    class: "time log",
    id: "log",
};

const LINEAR: Kind = Kind {
    name: "linear",
    class: "time lin",
    id: "lin",
};

const HEAD: &str = "<figure><fieldset class=\"sw\" aria-label=\"Scale of values\">\
<input type=\"radio\" name=\"y\" id=\"yl\" checked><label for=\"yl\">log</label>\
<input type=\"radio\" name=\"y\" id=\"yn\"><label for=\"yn\">linear</label></fieldset>\
<h2>Percentiles</h2><figcaption>of all samples; a curve ends at its max";

const BANDS: &str =
    "; bands: intervals of 95 % of each percentile, up to the least or the greatest \
sample where they are open";

/// Returns the scale of quantiles.
pub(crate) fn quantiles(view: &View<'_>) -> QuantileScale {
    let mut most = 1;
    for tag in &view.log.drawn {
        most = tag.figures.count.max(most);
    }
    QuantileScale::new(most)
}

/// Appends the drawing of percentiles, on a logarithmic and on a linear scale.
pub(crate) fn push_percentiles(
    view: &View<'_>,
    text: &mut String,
    details: &[Detail],
    comparison: Option<&Comparison>,
) -> Result<(), AllocError> {
    text.push_str(HEAD)?;
    if comparison.is_some() {
        text.push_str(BANDS)?;
    }
    text.push_str("</figcaption>")?;
    let bands = bands_of(view, comparison)?;
    let logarithmic = FieldScale::Logarithmic(view.scale());
    push_curves(view, text, details, &bands, &logarithmic, LOGARITHMIC)?;
    let linear = FieldScale::linear(view.greatest());
    push_curves(view, text, details, &bands, &linear, LINEAR)?;
    text.push_str("</figure>\n")
}

/// Appends the curves on a scale.
fn push_curves(
    view: &View<'_>,
    text: &mut String,
    details: &[Detail],
    bands: &[ConfidenceBand],
    scale: &FieldScale,
    kind: Kind,
) -> Result<(), AllocError> {
    push_curves_head(view, text, kind)?;
    push_quantile_axis(view, text, scale)?;
    CURVES.push_grid(view.alloc, text, scale, view.units)?;
    CURVES.push_level_lines(text, scale, view.options.levels)?;
    let mut endings = Vec::new(view.alloc);
    CURVES.push_begin(text)?;
    push_intervals(view, text, bands, scale)?;
    for (index, (tag, detail)) in view.log.drawn.iter().zip(details).enumerate().rev() {
        let class = line_class(view.alloc, index)?;
        let mut path = Path::new(view.alloc, CURVES.tenths());
        path.add_curve(&points(view.alloc, &detail.curve, scale)?)?;
        push_path(text, class.as_str(), &path)?;
        let y = CURVES.y(scale, tag.figures.max);
        if view.is_single() {
            let mut name = String::new(view.alloc);
            view.units.push(&mut name, tag.figures.max)?;
            endings.push(Ending::new(view.alloc, name.as_str(), y, "")?)?;
        } else {
            endings.push(Ending::of_tag(view, index, tag.tag, y)?)?;
        }
    }
    text.push_str("</svg>")?;
    endings.reverse();
    push_level_endings(view, &mut endings, CURVES, scale)?;
    CURVES.push_endings(text, &mut endings)?;
    text.push_str("</svg>")
}

/// Appends the bands behind the curves on a scale.
fn push_intervals(
    view: &View<'_>,
    text: &mut String,
    bands: &[ConfidenceBand],
    scale: &FieldScale,
) -> Result<(), AllocError> {
    let quantiles = quantiles(view);
    for (index, band) in bands.iter().enumerate() {
        band.push_to(text, index, CURVES, scale, &quantiles)?;
    }
    Ok(())
}

/// Begins the drawing on a scale, with its description.
fn push_curves_head(view: &View<'_>, text: &mut String, kind: Kind) -> Result<(), AllocError> {
    let mut title = String::from_str(view.alloc, "Percentiles of ")?;
    push_names(view, &mut title)?;
    title.push_str(", ")?;
    title.push_str(kind.name)?;
    title.push_str(" scale")?;
    let mut description = String::new(view.alloc);
    for (index, tag) in view.log.drawn.iter().enumerate() {
        description.push_str(if index > 0 { "; " } else { "" })?;
        view.push_tag(&mut description, tag.tag, AT_CURVE)?;
        let figures = &tag.figures;
        for (name, value) in [
            (": p50 ", figures.p50),
            (", p90 ", figures.p90),
            (", p99 ", figures.p99),
            (", p99.9 ", figures.p999),
            (", max ", figures.max),
        ] {
            description.push_str(name)?;
            view.units.push(&mut description, value)?;
        }
    }
    let frame = Frame {
        class: kind.class,
        id: kind.id,
        all: CURVES,
        rates: CURVES,
        tag: None,
        has_names: true,
    };
    frame.push_head(view, text, title.as_str(), description.as_str())
}

/// Appends the x axis, and the lines of the levels' quantiles.
fn push_quantile_axis(
    view: &View<'_>,
    text: &mut String,
    scale: &FieldScale,
) -> Result<(), AllocError> {
    let quantiles = quantiles(view);
    let height = CURVES.height;
    CURVES.push_begin(text)?;
    text.push_str("<path class=\"g\" d=\"")?;
    for (inverse, _) in LINES {
        if quantiles.contains(inverse) {
            text.push_str("M")?;
            push_tenths(text, quantiles.place(inverse, 1, WIDTH))?;
            write!(text, " 0v{height}")?;
        }
    }
    text.push_str("\"/>")?;
    for level in view.options.levels {
        if level.num < level.den {
            let x = quantiles.place(level.den, level.den - level.num, WIDTH);
            text.push_str("<path class=\"level\" style=\"stroke-dasharray:none\" d=\"M")?;
            push_tenths(text, x)?;
            write!(text, " {height}V")?;
            push_tenths(text, CURVES.y(scale, level.value))?;
            text.push_str("\"/>")?;
        }
    }
    text.push_str("</svg>")?;
    push_quantile_names(text, &quantiles)
}

/// Appends the names of quantiles that keep a distance: a phone has some of those of a wide drawing.
fn push_quantile_names(text: &mut String, quantiles: &QuantileScale) -> Result<(), AllocError> {
    let mut desk = Names::new(DESK);
    let mut phone = Names::new(PHONE);
    let median = quantiles.place(2, 1, DESK);
    for (inverse, name) in LINES {
        let x = quantiles.place(inverse, 1, WIDTH);
        let is_start = inverse == 1;
        let is_free = !is_start || median >= LEAST_MEDIAN;
        if quantiles.contains(inverse) && is_free && desk.try_push(x, name) {
            let is_coarse = !is_start && phone.try_push(x, name);
            push_below(text, x, CURVES, is_coarse)?;
            write!(text, "{name}</text>")?;
        }
    }
    Ok(())
}

/// Names from left to right in a drawing of some width.
#[derive(Drop)]
struct Names {
    width: u32,
    /// Where the next name may begin.
    end: u64,
}

impl Names {
    /// Returns the names of a drawing that has none.
    fn new(width: u32) -> Names {
        Names { width, end: 0 }
    }

    /// Adds a name whose middle is at `x`, unless the last one is too near.
    fn try_push(&mut self, x: u32, name: &str) -> bool {
        let half = (name.len() as u64).saturating_mul(HALF_CHARACTER);
        let middle = u64::from(x) * u64::from(self.width) / u64::from(WIDTH);
        let begin = middle.saturating_add(LEFT).saturating_sub(half);
        if begin < self.end {
            return false;
        }
        self.end = middle.saturating_add(LEFT + GAP).saturating_add(half);
        true
    }
}

/// Returns the points of a curve on a scale.
fn points(
    alloc: Global,
    curve: &[CurvePoint],
    scale: &FieldScale,
) -> Result<Vec<Point>, AllocError> {
    let points = curve.iter().map(|point| Point {
        x: point.x,
        y: CURVES.y(scale, point.value),
    });
    points.collect(alloc)
}
