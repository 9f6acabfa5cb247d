//! A logarithmic scale of values.

ghost use Rattle.std.specs.Prelude.{ℕ, ◌≡◌, ◌≤◌, ◌^◌, IfNone, IfOk, IfSome};
ghost use Rattle.hdr_draw.specs.Lines.{AreLines, HasLine, IsLine};
ghost use Rattle.hdr_draw.specs.Scales.{IsValuePlace, IsValueScale};

use crate::axis::Axis;
use crate::logarithm::logarithm;
use crate::rows::Rows;
use crate::steps::{step_above, step_below, steps_between};
use std::alloc::{AllocError, Global};
use std::marker::Model;

/// The least distance of two texts, in tenths.
pub const GAP: u32 = 150;

/// A logarithmic scale of values, from a step to another. 0 is at its low end.
#[derive(Debug, Drop)]
pub struct ValueScale {
    low: u64,
    high: u64,
    axis: Axis,
}

impl Model for ValueScale {
    ghost use Rattle.std.specs.Prelude.{ℕ, ◌≡◌, ◌≤◌, ◌-◌, max};
    ghost use Rattle.hdr_draw.specs.Logarithm.{IsLogarithm};
    ghost use Rattle.hdr_draw.specs.Rows.{Ends};

    ghost Value = { Ends };

    ghost view = { λ s. record { low = s.low; high = s.high } };

    ghost invariant = { λ s. (1 ≤ s.low) × (s.low ≤ s.high) × IsLogarithm s.low s.axis.from
        × ((to : ℕ) × IsLogarithm s.high to × (s.axis.span ≡ max 1 (to - s.axis.from))) };
}

/// A line across the field of a scale.
#[derive(Clone, Copy, Debug)]
pub struct AxisTick {
    pub value: u64,
    /// Whether its text is drawn: the texts of a scale keep a distance.
    pub has_text: bool,
    /// Whether it is a power of ten.
    pub is_power: bool,
}

impl ValueScale {
    /// Returns the scale from the step at or below a value to the step at or above another.
    pub fn new(least: u64, greatest: u64) -> ValueScale
        ensures { IsValueScale result least greatest }
    {
        let low = step_below(least);
        let high = step_above(greatest.max(low.saturating_add(1)));
        ValueScale {
            low,
            high,
            axis: Axis::new(logarithm(low), logarithm(high)),
        }
    }

    /// Returns how far a value is above the low end of the scale, along a height.
    pub fn place(&self, value: u64, height: u32) -> u32
        ensures place { IsValuePlace self.now height value result }
        ensures within { result ≤ height }
    {
        self.axis.place(logarithm(value), height)
    }

    /// Returns the rows of a heat map over the scale.
    pub fn rows(&self, alloc: Global) -> Result<Rows, AllocError>
        ensures { IfOk result (λ r. r ≡ self.now) }
    {
        Rows::new(alloc, self.low, self.high)
    }

    /// Returns the steps of the scale that have a line in a field of this height.
    pub fn ticks(&self, alloc: Global, height: u32) -> Result<Vec<AxisTick>, AllocError>
        ensures { IfOk result (λ v. AreLines self.now height v.items) }
    {
        let decade = self.place(self.low.saturating_mul(10), height);
        let octave = self.place(self.low.saturating_mul(2), height);
        let steps = steps_between(alloc, self.low, self.high)?;
        let mut ticks = Vec::new(alloc);
        for step in &steps {
            if let Some(tick) = line_of(*step, decade, octave) {
                ticks.push(tick)?;
            }
        }
        Ok(ticks)
    }
}

/// Returns the line of a step for the widths of a decade and an octave, or `None` if it has none.
fn line_of(step: u64, decade: u32, octave: u32) -> Option<AxisTick>
    ensures value { IfSome result (λ t. t.value ≡ step) }
    ensures line { IfSome result (λ t. IsLine decade octave t) }
    ensures none { IfNone result (HasLine decade step → ⊥) }
{
    if let Some(power) = power_of(step) {
        let every = GAP.div_ceil(decade.max(1));
        return Some(AxisTick {
            value: step,
            has_text: power % every == 0,
            is_power: true,
        });
    }
    if decade < GAP {
        return None;
    }
    Some(AxisTick {
        value: step,
        has_text: octave >= GAP,
        is_power: false,
    })
}

/// Returns k if `value` is 10^k, or `None` if it is not a power of ten.
fn power_of(value: u64) -> Option<u32>
    ensures power { IfSome result (λ k. value ≡ 10 ^ k) }
    ensures none { IfNone result ((k : ℕ) → value ≡ 10 ^ k → ⊥) }
{
    let power = value.max(1).ilog10();
    if value != 10u64.pow(power) {
        return None;
    }
    Some(power)
}
