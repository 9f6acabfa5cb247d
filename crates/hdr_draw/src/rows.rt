//! The rows of a heat map: equal parts of a logarithmic scale, by exact bounds.

ghost use Rattle.std.specs.Prelude.{ℕ, ◌≡◌, ◌≤◌, ◌<◌, ◌^◌, ◌↔◌, max, length, slice_index, IfOk, IsTrue};
ghost use Rattle.hdr_draw.specs.Rows.{Ends, IsBound, IsRow, number, power_at};

use crate::heat::ROWS;
use crate::powers::{is_at_least, times_power};
use std::alloc::{AllocError, Global};
use std::marker::Model;

/// The rows of a scale of values.
#[derive(Drop)]
pub struct Rows {
    low: u64,
    high: u64,
    /// The least values of the rows above the lowest.
    bounds: Vec<u64>,
}

impl Model for Rows {
    ghost use Rattle.std.specs.Prelude.{ℕ, ◌≡◌, ◌<◌, ◌+◌, length, slice_index};
    ghost use Rattle.hdr_draw.specs.Rows.{Ends, IsBound};

    ghost Value = { Ends };

    ghost view = { λ r. record { low = r.low; high = r.high } };

    ghost invariant = { λ r. (length r.bounds.items ≡ 39)
        × ((k : ℕ) → k < 39 → IsBound (record { low = r.low; high = r.high }) (k + 1) (slice_index r.bounds.items k)) };
}

/// Returns the digits of 1.
fn digits_of_1(alloc: Global) -> Result<Vec<u64>, AllocError>
    ensures value { IfOk result (λ v. number v.items ≡ 1) }
    ensures len { IfOk result (λ v. length v.items ≡ 1) }
{
    let mut digits = Vec::new(alloc);
    digits.push(1)?;
    Ok(digits)
}

/// Returns the digits of the power at an index of equal parts of a scale.
fn digits_at(alloc: Global, low: u64, high: u64, index: usize) -> Result<Vec<u64>, AllocError>
    requires { index ≤ 40 }
    ensures value { IfOk result (λ v. number v.items ≡ power_at (record { low = low; high = high }) index) }
    ensures len { IfOk result (λ v. length v.items ≡ 41) }
{
    let highs = times_power(alloc, digits_of_1(alloc)?, high, index)?;
    times_power(alloc, highs, low, ROWS - index)
}

/// Whether the 40th power of a value is at least a number.
fn reaches(alloc: Global, value: u64, power: &[u64]) -> Result<bool, AllocError>
    requires { length power.now ≡ 41 }
    ensures { IfOk result (λ b. IsTrue b ↔ number power.now ≤ value ^ 40) }
{
    let digits = times_power(alloc, digits_of_1(alloc)?, value, ROWS)?;
    Ok(is_at_least(&digits, power))
}

/// Returns the least value of the rows from an index on.
fn bound_of(alloc: Global, low: u64, high: u64, index: usize) -> Result<u64, AllocError>
    requires above_0 { 0 < low }
    requires ordered { low ≤ high }
    requires inside { index ≤ 40 }
    ensures { IfOk result (λ b. IsBound (record { low = low; high = high }) index b) }
{
    let power = digits_at(alloc, low, high, index)?;
    let mut below = 0;
    let mut bound = high;
    while bound - below > 1 {
        let middle = below + (bound - below) / 2;
        if reaches(alloc, middle, &power)? {
            bound = middle;
        } else {
            below = middle;
        }
    }
    Ok(bound)
}

impl Rows {
    /// Returns the rows from a value to another. The lowest value is at least 1.
    pub fn new(alloc: Global, low: u64, high: u64) -> Result<Rows, AllocError>
        ensures low { IfOk result (λ r. r.low ≡ max 1 low) }
        ensures high { IfOk result (λ r. r.high ≡ max (max 1 low) high) }
    {
        let low = low.max(1);
        let high = high.max(low);
        let mut bounds = Vec::new(alloc);
        for index in 1..ROWS {
            bounds.push(bound_of(alloc, low, high, index)?)?;
        }
        Ok(Rows { low, high, bounds })
    }

    /// Returns the row of a value, from the lowest.
    pub fn row(&self, value: u64) -> usize
        ensures { IsRow self.now value result }
    {
        bounds_at_most(&self.bounds, value)
    }
}

/// Returns the index of the first bound above a value, or the number of bounds.
fn bounds_at_most(bounds: &[u64], value: u64) -> usize
    ensures inside { result ≤ length bounds.now }
    ensures below { (k : ℕ) → k < result → slice_index bounds.now k ≤ value }
    ensures above { result < length bounds.now → value < slice_index bounds.now result }
{
    for (index, bound) in bounds.iter().enumerate() {
        if value < *bound {
            return index;
        }
    }
    bounds.len()
}
