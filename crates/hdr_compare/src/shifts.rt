//! Values that are small enough to be compared.

ghost use Rattle.std.specs.Prelude.{◌≡◌, ◌/◌, ◌^◌, ◌<◌, ◌≤◌};
ghost use Rattle.std.specs.Int.{div_ceil};
ghost use Rattle.hdr_compare.specs.Changes.{IsComparable};
ghost use Rattle.hdr_compare.specs.Shifts.{AreShifted, shifted};

use crate::changes::Measured;

/// By how many bits values are shifted at most, so that they are below 2^40.
const MOST_SHIFT: u32 = 25;

/// Returns percentiles in the smallest power of two as a unit in which both can be compared. Values
/// are rounded down, and the ends of intervals outwards.
pub fn comparable(before: &Measured, after: &Measured) -> (Measured, Measured)
    ensures before { IsComparable result.0 }
    ensures after { IsComparable result.1 }
    ensures shifted { AreShifted before.now after.now result.0 result.1 }
{
    for shift in 0..MOST_SHIFT {
        let first = before.shifted(shift);
        let second = after.shifted(shift);
        if first.is_comparable() && second.is_comparable() {
            return (first, second);
        }
    }
    (before.shifted(MOST_SHIFT), after.shifted(MOST_SHIFT))
}

impl Measured {
    /// Returns it in units of a power of two: the value rounded down, and the ends outwards.
    fn shifted(&self, shift: u32) -> Measured
        requires { shift ≤ 25 }
        ensures value { result ≡ shifted shift self.now }
        ensures small { shift ≡ 25 → IsComparable result }
    {
        Measured {
            value: rounded_down(self.value, shift),
            low: match self.low {
                Some(low) => Some(rounded_down(low, shift)),
                None => None,
            },
            high: match self.high {
                Some(high) => Some(rounded_up(high, shift)),
                None => None,
            },
        }
    }
}

/// Returns a value in units of a power of two, rounded down.
fn rounded_down(value: u64, shift: u32) -> u64
    requires { shift ≤ 25 }
    ensures value { result ≡ value / 2 ^ shift }
    ensures small { shift ≡ 25 → result < 2 ^ 40 }
{
    value / (1u64 << shift)
}

/// Returns a value in units of a power of two, rounded up.
fn rounded_up(value: u64, shift: u32) -> u64
    requires { shift ≤ 25 }
    ensures value { result ≡ div_ceil value (2 ^ shift) }
    ensures small { shift ≡ 25 → result < 2 ^ 40 }
{
    value.div_ceil(1u64 << shift)
}
