//! Parts of drawings. A drawing's parts lie one below the other, above one x axis.

ghost use Rattle.std.specs.Prelude.{◌≡◌, ◌≤◌, ◌+◌, ◌-◌, ◌*◌, ◌^◌, min};

use hdr_draw::axis::Axis;
use hdr_draw::path::{Joint, Path};
use hdr_draw::steps::step_above;
use hdr_draw::tenths::push_tenths;
use hdr_draw::values::{AxisTick, ValueScale};
use hdr_figures::figures::TagSamples;
use hdr_figures::level::PageLevel;
use hdr_view::amount::Units;
use hdr_view::view::{Series, View};
use std::alloc::{AllocError, Global};

/// A part of a drawing: where it begins, and its height, in pixels.
#[derive(Clone, Copy)]
pub(crate) struct Field {
    pub top: u32,
    pub height: u32,
}

/// A scale of values.
#[derive(Drop)]
pub(crate) enum FieldScale {
    Logarithmic(ValueScale),
    /// From 0 to a multiple of a step.
    Linear { step: u64, high: u64 },
}

impl FieldScale {
    /// Returns a linear scale from 0 to a value or above.
    pub(crate) fn linear(greatest: u64) -> FieldScale {
        let step = step_above((greatest / 4).max(1)).max(1);
        let steps = greatest.max(1).div_ceil(step);
        FieldScale::Linear {
            step,
            high: step.saturating_mul(steps),
        }
    }

    /// Returns how far above the low end a value is along a height in tenths.
    fn place(&self, value: u64, height: u32) -> u32
        ensures { result ≤ height }
    {
        match self {
            FieldScale::Logarithmic(scale) => scale.place(value, height),
            FieldScale::Linear { high, .. } => Axis::new(0, *high).place(value, height),
        }
    }

    /// Returns the lines across a height in tenths.
    fn ticks(&self, alloc: Global, height: u32) -> Result<Vec<AxisTick>, AllocError> {
        match self {
            FieldScale::Logarithmic(scale) => scale.ticks(alloc, height),
            FieldScale::Linear { step, high } => {
                let mut ticks = Vec::new(alloc);
                for index in 0..20u64 {
                    match step.checked_mul(index) {
                        Some(value) if value <= *high => ticks.push(AxisTick {
                            value,
                            has_text: true,
                            is_power: index == 0,
                        })?,
                        _ => break,
                    }
                }
                Ok(ticks)
            }
        }
    }
}

impl Field {
    /// Returns the height in tenths.
    pub(crate) fn tenths(self) -> u32
        ensures { result ≡ min (self.height * 10) (2 ^ 32 - 1) }
    {
        self.height.saturating_mul(10)
    }

    /// Returns the lower side.
    pub(crate) fn bottom(self) -> u32
        ensures { result ≡ min (self.top + self.height) (2 ^ 32 - 1) }
    {
        self.top.saturating_add(self.height)
    }

    /// Returns how far a value is below the upper side, in tenths.
    pub(crate) fn y(self, scale: &FieldScale, value: u64) -> u32
        ensures { result ≤ self.height * 10 }
    {
        let height = self.tenths();
        height.saturating_sub(scale.place(value, height))
    }

    /// Returns how far values are below the upper side.
    pub(crate) fn levels(
        self,
        alloc: Global,
        scale: &FieldScale,
        values: &[Option<u64>],
    ) -> Result<Vec<Option<u32>>, AllocError> {
        let levels = values
            .iter()
            .map(|value| value.map(|value| self.y(scale, value)));
        levels.collect(alloc)
    }

    /// Returns how far the values of a tag over time are below the upper side.
    pub(crate) fn levels_of(
        self,
        view: &View<'_>,
        tag: &TagSamples<'_>,
        series: Series,
        scale: &FieldScale,
    ) -> Result<Vec<Option<u32>>, AllocError> {
        let values = series.values(view.alloc, tag, view.timeline.points)?;
        self.levels(view.alloc, scale, &values)
    }

    /// Begins the part, which stretches with the page. It ends with `</svg>`.
    pub(crate) fn push_begin(self, text: &mut String) -> Result<(), AllocError> {
        let Field { top, height } = self;
        write!(
            text,
            "<svg y=\"{top}\" width=\"100%\" height=\"{height}\" \
             viewBox=\"0 0 1000 {height}\" preserveAspectRatio=\"none\">"
        )
    }

    /// Appends the line of levels.
    pub(crate) fn push_levels(
        self,
        alloc: Global,
        text: &mut String,
        class: &str,
        levels: &[Option<u32>],
        joint: Joint,
    ) -> Result<(), AllocError> {
        let mut path = Path::new(alloc, self.tenths());
        path.add_levels(levels, joint)?;
        push_path(text, class, &path)
    }

    /// Appends the area between two levels.
    pub(crate) fn push_area(
        self,
        alloc: Global,
        text: &mut String,
        class: &str,
        low: &[Option<u32>],
        high: &[Option<u32>],
    ) -> Result<(), AllocError> {
        let mut path = Path::new(alloc, self.tenths());
        path.add_area(low, high)?;
        push_path(text, class, &path)
    }

    /// Appends a text at the y axis, this many tenths below the upper side.
    pub(crate) fn push_at_axis(self, text: &mut String, tenths: u32) -> Result<(), AllocError> {
        text.push_str("<text x=\"0\" dx=\"-8\" y=\"")?;
        let y = self.top.saturating_add(4).saturating_mul(10);
        push_tenths(text, y.saturating_add(tenths))?;
        text.push_str("\" class=\"e\">")
    }

    /// Appends the lines and texts of a scale.
    pub(crate) fn push_grid(
        self,
        alloc: Global,
        text: &mut String,
        scale: &FieldScale,
        units: Units,
    ) -> Result<(), AllocError> {
        let ticks = scale.ticks(alloc, self.tenths())?;
        self.push_begin(text)?;
        self.push_lines(text, scale, &ticks, false)?;
        self.push_lines(text, scale, &ticks, true)?;
        text.push_str("</svg>")?;
        for tick in &ticks {
            if tick.has_text {
                self.push_at_axis(text, self.y(scale, tick.value))?;
                units.push_label(text, tick.value)?;
                text.push_str("</text>")?;
            }
        }
        Ok(())
    }

    /// Appends the lines of a scale that are powers of ten, or the others.
    fn push_lines(
        self,
        text: &mut String,
        scale: &FieldScale,
        ticks: &[AxisTick],
        are_powers: bool,
    ) -> Result<(), AllocError> {
        text.push_str(if are_powers {
            "<path class=\"G\" d=\""
        } else {
            "<path class=\"g\" d=\""
        })?;
        for tick in ticks {
            if tick.is_power == are_powers {
                text.push_str("M0 ")?;
                push_tenths(text, self.y(scale, tick.value))?;
                text.push_str("h1e3")?;
            }
        }
        text.push_str("\"/>")
    }

    /// Appends the lines of the levels.
    pub(crate) fn push_level_lines(
        self,
        text: &mut String,
        scale: &FieldScale,
        levels: &[PageLevel],
    ) -> Result<(), AllocError> {
        for level in levels {
            self.push_begin(text)?;
            text.push_str("<path class=\"level\" d=\"M0 ")?;
            push_tenths(text, self.y(scale, level.value))?;
            text.push_str("h1e3\"/></svg>")?;
        }
        Ok(())
    }
}

/// Appends a path of a class.
pub(crate) fn push_path(text: &mut String, class: &str, path: &Path) -> Result<(), AllocError> {
    write!(text, "<path class=\"{class}\" d=\"")?;
    path.push_to(text)?;
    text.push_str("\"/>")
}
