//! Samples a second.

ghost use Rattle.std.specs.Prelude.{ℕ, List, ◌≡◌, ◌≤◌, ◌<◌, ◌+◌, ◌*◌, ◌/◌, ◌^◌, ◌++◌, ◌↔◌, max, IsTrue, OnOk, string_bytes};
ghost use Rattle.hdr_draw.specs.Numbers.{IsDecimalOf};

use crate::charts::field::Field;
use hdr_draw::number::{push_exponent, push_fraction, push_rate, scientific};
use hdr_figures::figures::TagSamples;
use hdr_view::view::View;
use std::alloc::AllocError;

/// From here on a rate in 1,000 seconds has an exponent, beside the drawing.
const LONG_RATE: u128 = 1_000_000_000;

/// A number of samples in some milliseconds.
#[derive(Clone, Copy)]
pub(crate) struct Rate {
    samples: u64,
    milliseconds: u64,
}

impl Rate {
    /// No samples.
    const NONE: Rate = Rate {
        samples: 0,
        milliseconds: 1,
    };

    /// Returns the rate of samples at a point of time.
    fn at_point(view: &View<'_>, point: usize, samples: u64) -> Rate
        ensures samples { result.samples ≡ samples }
        ensures some { 0 < result.milliseconds }
    {
        Rate {
            samples,
            milliseconds: view.timeline.length_of(point),
        }
    }

    /// Whether the rate is below another.
    fn is_below(self, other: Rate) -> bool
        ensures { IsTrue result
            ↔ self.samples * other.milliseconds < other.samples * self.milliseconds }
    {
        u128::from(self.samples) * u128::from(other.milliseconds)
            < u128::from(other.samples) * u128::from(self.milliseconds)
    }

    /// Returns the number of samples in 1,000 seconds, rounded down.
    fn in_thousandths(self) -> u128
        ensures { result ≡ self.samples * 1000000 / max 1 self.milliseconds }
    {
        u128::from(self.samples) * 1_000_000 / u128::from(self.milliseconds.max(1))
    }

    /// Appends the rate as samples a second.
    pub(crate) fn push(self, text: &mut String) -> Result<(), AllocError>
        ensures { 0 < self.milliseconds → OnOk result ((added : List ℕ)
            × IsDecimalOf (self.samples * 1000) self.milliseconds added
            × (string_bytes text.new ≡ string_bytes text.old ++ added)) }
    {
        push_rate(text, self.samples, self.milliseconds)
    }
}

/// Returns the least and the greatest rate of a tag at the points of time.
pub(crate) fn rate_range(view: &View<'_>, tag: &TagSamples<'_>) -> (Rate, Rate) {
    let mut slowest = None;
    let mut fastest = Rate::NONE;
    for point in &tag.points {
        let rate = Rate::at_point(view, point.point, point.count);
        slowest = Some(match slowest {
            Some(slowest) if !rate.is_below(slowest) => slowest,
            _ => rate,
        });
        if fastest.is_below(rate) {
            fastest = rate;
        }
    }
    if tag.points.len() < view.timeline.points {
        slowest = None;
    }
    (slowest.unwrap_or(Rate::NONE), fastest)
}

impl Field {
    /// Appends samples a second over time, as an area above 0.
    pub(crate) fn push_rates(
        self,
        text: &mut String,
        counts: &[u64],
        view: &View<'_>,
        class: &str,
    ) -> Result<(), AllocError> {
        let mut rates = Vec::new(view.alloc);
        for (point, count) in counts.iter().enumerate() {
            rates.push(Rate::at_point(view, point, *count).in_thousandths())?;
        }
        let high = round_rate(rates.iter().copied().max().unwrap_or(0));
        let bottom = self.tenths();
        let low = vec![in view.alloc; Some(bottom); rates.len()]?;
        let mut levels = Vec::new(view.alloc);
        for rate in &rates {
            let above = place_of_rate(*rate, high, bottom);
            levels.push(Some(bottom.saturating_sub(above)))?;
        }
        let height = self.height;
        self.push_begin(text)?;
        write!(
            text,
            "<path class=\"G\" d=\"M0 {height}h1e3\"/><path class=\"g\" d=\"M0 0h1e3\"/>"
        )?;
        self.push_area(view.alloc, text, class, &low, &levels)?;
        text.push_str("</svg>")?;
        self.push_at_axis(text, 0)?;
        push_rate_label(text, high)?;
        text.push_str("/s</text>")?;
        self.push_at_axis(text, bottom)?;
        text.push_str("0</text>")
    }
}

/// Returns how far above 0 a rate is along a height, on a scale up to another.
fn place_of_rate(rate: u128, high: u128, height: u32) -> u32
    ensures { result ≤ height }
{
    let place = rate.saturating_mul(u128::from(height)) / high.max(1);
    place.min(u128::from(height)) as u32
}

/// Appends a number of samples in 1,000 seconds as a rate a second, with an exponent if it is long.
fn push_rate_label(text: &mut String, rate: u128) -> Result<(), AllocError>
    ensures { rate * 10 ^ 9 + 1 < 2 ^ 128 → OnOk result ((added : List ℕ)
        × IsDecimalOf rate 1000 added
        × (string_bytes text.new ≡ string_bytes text.old ++ added)) }
{
    if rate < LONG_RATE {
        return push_fraction(text, rate, 1_000);
    }
    let (decimal, power) = scientific(rate, 1_000);
    decimal.trimmed().push(text)?;
    push_exponent(text, power)
}

/// Returns the least of 1, 1.5, 2, 3, 4, 5, 6 and 8 times a power of ten that is not below a rate,
/// and at least 10.
fn round_rate(rate: u128) -> u128
    ensures { rate ≤ result }
{
    let mut tens = 1u128;
    for _ in 0..26 {
        for tenths in [10u128, 15, 20, 30, 40, 50, 60, 80] {
            let high = tens.saturating_mul(tenths);
            if high >= rate {
                return high;
            }
        }
        tens = tens.saturating_mul(10);
    }
    rate
}
