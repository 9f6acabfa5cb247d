//! The steps of a scale: 1, 2 and 5 times a power of ten.

ghost use Rattle.std.specs.Prelude.{◌≡◌, ℕ, ◌<◌, ◌≤◌, ◌+◌, ◌-◌, ◌*◌, ◌^◌, max, IfNone, IfOk, IfSome, OnOk};
ghost use Rattle.std.specs.List.{All, Contains};
ghost use Rattle.hdr_draw.specs.Steps.{IsStep, IsStrictlyAscending, AreSteps, step_of};

use std::alloc::{AllocError, Global};

/// The number of steps that 64 bits hold.
const STEPS: u32 = 58;

/// Returns the greatest step at or below a value, 1 for 0.
pub fn step_below(value: u64) -> u64
    ensures step { IsStep result }
    ensures within { result ≤ max 1 value }
    ensures near { 2 * max 1 value < 5 * result }
    ensures greatest { (n : ℕ) → IsStep n → n ≤ max 1 value → n ≤ result }
{
    let value = value.max(1);
    let tens = 10u64.pow(value.ilog10());
    match value / tens {
        0..=1 => tens,
        2..=4 => 2 * tens,
        _ => 5 * tens,
    }
}

/// Returns the step at an index, or `None` if it overflows 64 bits.
#[tactic(auto, unfolding(crate::specs::Steps::step_of))]
fn step_at(index: u32) -> Option<u64>
    ensures value { IfSome result (λ step. step ≡ step_of index) }
    ensures overflow { IfNone result (2 ^ 64 ≤ step_of index) }
{
    let tens = 10u64.checked_pow(index / 3)?;
    match index % 3 {
        0 => Some(tens),
        1 => tens.checked_mul(2),
        _ => tens.checked_mul(5),
    }
}

/// Returns the least step at or above a value, or the greatest value if there is none.
pub fn step_above(value: u64) -> u64
    ensures within { value ≤ result }
    ensures step { value ≤ 10 ^ 19 → IsStep result }
    ensures last { 10 ^ 19 < value → result ≡ 2 ^ 64 - 1 }
    ensures least { (n : ℕ) → IsStep n → value ≤ n → result ≤ n }
{
    for index in 0..STEPS {
        let Some(step) = step_at(index) else {
            return u64::MAX;
        };
        if step >= value {
            return step;
        }
    }
    u64::MAX
}

/// Adds the step at an index, if it lies from a value to another.
fn push_step(steps: &mut Vec<u64>, index: u32, low: u64, high: u64) -> Result<(), AllocError>
    requires { AreSteps low high index steps.old.items }
    ensures { OnOk result (AreSteps low high (index + 1) steps.new.items) }
{
    if let Some(step) = step_at(index) {
        if step >= low && step <= high {
            steps.push(step)?;
        }
    }
    Ok(())
}

/// Returns the steps from a value to another, ascending.
pub fn steps_between(alloc: Global, low: u64, high: u64) -> Result<Vec<u64>, AllocError>
    ensures steps { IfOk result (λ v. All IsStep v.items) }
    ensures inside { IfOk result (λ v. All (λ n. (low ≤ n) × (n ≤ high)) v.items) }
    ensures ascending { IfOk result (λ v. IsStrictlyAscending v.items) }
    ensures every { IfOk result (λ v. (n : ℕ) → IsStep n → low ≤ n → n ≤ high → Contains v.items n) }
{
    let mut steps = Vec::new(alloc);
    for index in 0..STEPS {
        push_step(&mut steps, index, low, high)?;
    }
    Ok(steps)
}
