//! The x axis of drawings over time. It leaves out long times without intervals.

ghost use Rattle.std.specs.Prelude.{◌≤◌};

use crate::charts::field::Field;
use crate::charts::frame::push_below;
use hdr_draw::axis::Axis;
use hdr_draw::path::WIDTH;
use hdr_draw::tenths::push_tenths;
use hdr_draw::times::{TimeSteps, TimeTick};
use hdr_view::clock::TimeStyle;
use hdr_view::view::View;
use std::alloc::AllocError;

/// The least distance of two texts at a broken axis, of `WIDTH`, and that of a narrow drawing.
const LEAST: u32 = 1_200;

const LEAST_COARSE: u32 = 2_500;

/// A text at the axis, and a line above it.
#[derive(Clone, Copy)]
struct TimeMark {
    /// How far it is along the axis, of `WIDTH`.
    x: u32,
    /// Its time, in milliseconds.
    time: u64,
    /// Whether a narrow drawing has its text.
    is_coarse: bool,
    /// Whether the axis leaves out the time before it.
    is_break: bool,
}

/// Returns how far a time is along a drawing, of `WIDTH`.
pub(crate) fn x_of(view: &View<'_>, time: u64) -> u32
    ensures { result ≤ WIDTH }
{
    let axis = Axis::new(0, view.timeline.span());
    axis.place(view.timeline.shown(time), WIDTH)
}

/// Appends the x axis of a drawing over time.
pub(crate) fn push_time_axis(
    view: &View<'_>,
    text: &mut String,
    field: Field,
) -> Result<(), AllocError> {
    let steps = TimeSteps::new(view.timeline.span());
    let style = if steps.has_seconds() {
        TimeStyle::ShortWithSeconds
    } else {
        TimeStyle::Short
    };
    let marks = marks_of(view, steps)?;
    push_grid(text, field, &marks)?;
    push_breaks(view, text, field)?;
    for mark in &marks {
        push_below(text, mark.x, field, mark.is_coarse)?;
        if mark.is_break {
            view.clock.push_day_of(text, mark.time)?;
        } else {
            view.clock.push(text, mark.time, style)?;
        }
        text.push_str("</text>")?;
    }
    Ok(())
}

/// Returns the marks of the axis: those of breaks, and then the ticks that are not too near to
/// them.
fn marks_of(view: &View<'_>, steps: TimeSteps) -> Result<Vec<TimeMark>, AllocError> {
    let mut marks = Vec::new(view.alloc);
    let mut start = view.timeline.first;
    for gap in &view.timeline.breaks {
        let x = x_of(view, gap.end);
        let is_coarse = is_free(&marks, x, LEAST_COARSE);
        if is_free(&marks, x, LEAST) {
            push(
                &mut marks,
                TimeMark {
                    x,
                    time: gap.end,
                    is_coarse,
                    is_break: true,
                },
            )?;
        }
    }
    for gap in &view.timeline.breaks {
        push_ticks(view, &mut marks, steps, start, gap.start)?;
        start = gap.end;
    }
    let end = view.timeline.start_of(view.timeline.points);
    push_ticks(view, &mut marks, steps, start, end)?;
    Ok(marks)
}

/// Appends the ticks from a time to another, in which no time is left out.
fn push_ticks(
    view: &View<'_>,
    marks: &mut Vec<TimeMark>,
    steps: TimeSteps,
    from: u64,
    to: u64,
) -> Result<(), AllocError> {
    let zero = if view.timeline.has_clock() {
        0
    } else {
        view.timeline.first
    };
    let (from, to) = (from.saturating_sub(zero), to.saturating_sub(zero));
    for tick in &steps.ticks(view.alloc, from, to)? {
        if let Some(mark) = mark_of(view, marks, *tick, zero) {
            push(marks, mark)?;
        }
    }
    Ok(())
}

/// Returns the mark of a tick. At a broken axis one that is too near to others has none.
fn mark_of(view: &View<'_>, marks: &[TimeMark], tick: TimeTick, zero: u64) -> Option<TimeMark> {
    let time = tick.time.saturating_add(zero);
    let x = x_of(view, time);
    let is_whole = view.timeline.breaks.is_empty();
    if !is_whole && !is_free(marks, x, LEAST) {
        return None;
    }
    Some(TimeMark {
        x,
        time,
        is_coarse: tick.is_coarse && (is_whole || is_free(marks, x, LEAST_COARSE)),
        is_break: false,
    })
}

/// Whether no mark is nearer to `x` than a distance.
fn is_free(marks: &[TimeMark], x: u32, least: u32) -> bool {
    marks.iter().all(|mark| mark.x.abs_diff(x) >= least)
}

/// Appends a mark.
fn push(marks: &mut Vec<TimeMark>, mark: TimeMark) -> Result<(), AllocError> {
    marks.push(mark).map_err(|_| AllocError)
}

/// Appends the lines above ticks.
fn push_grid(text: &mut String, field: Field, marks: &[TimeMark]) -> Result<(), AllocError> {
    field.push_begin(text)?;
    text.push_str("<path class=\"g\" d=\"")?;
    for mark in marks {
        if !mark.is_break {
            push_line(text, mark.x, field)?;
        }
    }
    text.push_str("\"/></svg>")
}

/// Appends a line for each break.
fn push_breaks(view: &View<'_>, text: &mut String, field: Field) -> Result<(), AllocError> {
    if view.timeline.breaks.is_empty() {
        return Ok(());
    }
    field.push_begin(text)?;
    text.push_str("<path class=\"break\" d=\"")?;
    for gap in &view.timeline.breaks {
        push_line(text, x_of(view, gap.end), field)?;
    }
    text.push_str("\"/></svg>")
}

/// Appends an upright line.
fn push_line(text: &mut String, x: u32, field: Field) -> Result<(), AllocError> {
    let height = field.height;
    text.push_str("M")?;
    push_tenths(text, x)?;
    write!(text, " 0v{height}")
}
