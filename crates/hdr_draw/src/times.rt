//! A scale of time: its steps, in milliseconds.

ghost use Rattle.std.specs.Prelude.{◌≤◌, ◌<◌, ◌+◌, ◌*◌, ◌^◌, ◌↔◌, IfOk, IsTrue, OnOk};
ghost use Rattle.hdr_draw.specs.Steps.{AreTicks, IsEvery, IsStepOfSpan, most_steps};

use std::alloc::{AllocError, Global};

/// The steps of time, in seconds: from a second to a month.
const STEPS: [u64; 21] = [
    1, 2, 5, 10, 15, 30, 60, 120, 300, 600, 900, 1_800, 3_600, 7_200, 10_800, 21_600, 43_200,
    86_400, 172_800, 604_800, MONTH,
];

/// The seconds of a month of 30 days.
const MONTH: u64 = 2_592_000;

/// The seconds of a minute: the texts of shorter steps have seconds.
const MINUTE: u64 = 60;

/// A line across the field of a scale of time.
#[derive(Clone, Copy, Debug)]
pub struct TimeTick {
    /// Its time, in milliseconds.
    pub time: u64,
    /// Whether a narrow drawing has its text.
    pub is_coarse: bool,
}

/// The steps of a scale of time, in seconds.
#[derive(Clone, Copy, Debug)]
pub struct TimeSteps {
    pub step: u64,
    /// A narrow drawing labels every `every`-th tick.
    pub every: u64,
    ghost some: { 0 < step },
    ghost fits: { step * 1000 < 2 ^ 64 },
    ghost often: { 0 < every },
}

impl TimeSteps {
    /// Returns the steps for a span in milliseconds: the shortest of which it has at most eight, or
    /// five if the texts have seconds. A narrow drawing has texts for four, or three.
    pub fn new(span: u64) -> TimeSteps
        ensures step { IsStepOfSpan span result.step }
        ensures every { IsEvery span result.step result.every }
    {
        let step = step_for(span);
        TimeSteps {
            step,
            every: every_for(span, step),
        }
    }

    /// Whether the texts have seconds.
    pub fn has_seconds(self) -> bool
        ensures { IsTrue result ↔ self.step < 60 }
    {
        self.step < MINUTE
    }

    /// Returns the ticks at the first ten multiples of the step from `from` on, up to `to`.
    pub fn ticks(self, alloc: Global, from: u64, to: u64) -> Result<Vec<TimeTick>, AllocError>
        ensures { IfOk result (λ v. AreTicks (self.step * 1000) self.every from to (from + 10 * (self.step * 1000)) v.items) }
    {
        let first = from.div_ceil(self.step * 1_000);
        let mut ticks = Vec::new(alloc);
        for index in 0..10 {
            self.push_tick(&mut ticks, first + index, from, to)?;
        }
        Ok(ticks)
    }

    /// Adds the tick at a number of steps, if it lies from a time to another.
    fn push_tick(
        self,
        ticks: &mut Vec<TimeTick>,
        number: u64,
        from: u64,
        to: u64,
    ) -> Result<(), AllocError>
        requires { AreTicks (self.step * 1000) self.every from to (number * (self.step * 1000)) ticks.old.items }
        ensures { OnOk result (AreTicks (self.step * 1000) self.every from to ((number + 1) * (self.step * 1000)) ticks.new.items) }
    {
        if let Some(time) = number.checked_mul(self.step * 1_000) {
            if time >= from && time <= to {
                let is_coarse = number % self.every == 0;
                ticks.push(TimeTick { time, is_coarse })?;
            }
        }
        Ok(())
    }
}

/// Returns the shortest step, in seconds, that a span in milliseconds has at most eight of, or five
/// below a minute. Past a month it is a multiple of a month.
fn step_for(span: u64) -> u64
    ensures is { IsStepOfSpan span result }
    ensures some { 0 < result }
    ensures fits { result * 4000 < 2 ^ 64 }
{
    for step in STEPS {
        if has_few(span, step) {
            return step;
        }
    }
    span.div_ceil(8_000 * MONTH) * MONTH
}

/// Whether a span in milliseconds has at most eight of a step, or five below a minute.
#[tactic(auto, unfolding(crate::specs::Steps::most_steps))]
fn has_few(span: u64, step: u64) -> bool
    ensures { IsTrue result ↔ span ≤ most_steps step * (1000 * step) }
{
    let most = if step < MINUTE { 5_000 } else { 8_000 };
    span <= step.saturating_mul(most)
}

/// Returns the least number of steps from text to text of which a span has at most four, or three
/// if the texts have seconds.
fn every_for(span: u64, step: u64) -> u64
    requires some { 0 < step }
    requires fits { step * 4000 < 2 ^ 64 }
    ensures { IsEvery span step result }
{
    let length = if step < MINUTE {
        3_000 * step
    } else {
        4_000 * step
    };
    span.div_ceil(length).max(1)
}
