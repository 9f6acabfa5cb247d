//! The classes of values, from a lowest value and a number of significant digits.

ghost use Rattle.std.specs.Prelude.{◌≡◌, ℕ, ◌+◌, ◌-◌, ◌*◌, ◌^◌, ◌<◌, ◌≤◌, MatchOption, SomeIff, IfSome, IsSome};
ghost use Rattle.hdr_base.specs.Classes.{most_bins, IsLeast, resolution_of, digits_of, bucket, width_of, lowest_of, top_of, bin_of, value_of, reach_of, HasScale};

use std::marker::Model;

/// The arithmetic of classes: the exponent of the unit, and the exponent of the number of classes that are one unit wide.
///
/// Values lie in buckets. Each bucket ends at twice the end of the one before, and its classes are twice as wide. The
/// arithmetic is on integers, and exact for every `u64`.
#[derive(Clone, Copy, Debug)]
pub struct Scale {
    unit: u8,
    digits: u8,
}

impl Model for Scale {
    ghost use Rattle.std.specs.Prelude.{◌+◌, ◌≤◌, ◌<◌};
    ghost use Rattle.hdr_base.specs.Classes.{Resolution};

    ghost Value = { Resolution };

    ghost view = { λ s. record { unit = s.unit; digits = s.digits } };

    ghost invariant = { λ s. (0 < s.digits) × (s.digits ≤ 18) × (s.unit + s.digits ≤ 63) };

    ghost inverse = { λ g. record { unit = g.unit; digits = g.digits } };
}

impl Scale {
    /// Returns the scale whose classes keep `sigfig` significant digits, or are as wide as the greatest power of two up to `low`.
    /// Returns `None` if `low` is 0, if `sigfig` is above 5, or if unit and digits together exceed 63 bits, which they never do for
    /// a `low` below 2^46.
    pub fn new(low: u64, sigfig: u8) -> Option<Scale>
        ensures scale { SomeIff result (HasScale low sigfig) (resolution_of low sigfig) }
        ensures unit { IfSome result (λ s. IsLeast (λ u. low < 2 ^ (u + 1)) s.unit) }
        ensures digits { IfSome result (λ s. IsLeast (λ m. 2 * 10 ^ sigfig ≤ 2 ^ m) s.digits) }
        ensures small { 0 < low → low < 2 ^ 46 → sigfig ≤ 5 → IsSome result }
    {
        let digits = digits_for(sigfig)?;
        if low == 0 {
            return None;
        }
        let unit = low.ilog2() as u8;
        if unit + digits > 63 {
            return None;
        }
        Some(Scale { unit, digits })
    }

    /// The exponent of the unit.
    pub fn unit(self) -> u8
        ensures value { result ≡ self.unit }
        ensures bound { self.unit + self.digits ≤ 63 }
    {
        self.unit
    }

    /// The exponent of the number of classes in the first bucket.
    pub fn digits(self) -> u8
        ensures value { result ≡ self.digits }
        ensures at_least_one { 0 < self.digits }
        ensures bound { self.digits ≤ 18 }
    {
        self.digits
    }

    /// The index of the bucket of a value.
    fn bucket(self, value: u64) -> u32
        ensures value { result ≡ bucket self value }
        ensures least { IsLeast (λ k. value < 2 ^ (self.unit + self.digits + k)) result }
        ensures bound { self.unit + self.digits + result ≤ 64 }
        ensures digits { (0 < self.digits) × (self.digits ≤ 18) }
    {
        let shift = self.unit + self.digits;
        64 - (value >> shift).leading_zeros()
    }

    /// Returns the index of the bin of a value's class, from 0.
    pub fn bin(self, value: u64) -> usize
        ensures value { result ≡ bin_of self value }
        ensures bound { result < 2 ^ 24 }
    {
        let bucket = self.bucket(value);
        let offset = (bucket as usize) << (self.digits - 1);
        offset + (value >> (self.unit as u32 + bucket)) as usize
    }

    /// Returns the width of a value's class: the least power of two, not below the unit, that keeps the digits.
    pub fn width(self, value: u64) -> u64
        ensures value { result ≡ width_of self value }
        ensures least { IsLeast (λ w. (k : ℕ) × (w ≡ 2 ^ (self.unit + k))
            × (value < 2 ^ (self.unit + self.digits + k))) result }
        ensures at_least_one { 1 ≤ result }
    {
        1 << (self.unit as u32 + self.bucket(value))
    }

    /// Returns the lowest value of a value's class.
    pub fn lowest(self, value: u64) -> u64
        ensures value { result ≡ lowest_of self value }
        ensures class_fits { lowest_of self value + width_of self value ≤ 2 ^ 64 }
    {
        let shift = self.unit as u32 + self.bucket(value);
        value >> shift << shift
    }

    /// Returns the greatest value of a value's class.
    pub fn top(self, value: u64) -> u64
        ensures { result ≡ top_of self value }
    {
        self.lowest(value) + (self.width(value) - 1)
    }

    /// Returns the greatest value of a value's bucket: the greatest that has a bin in a histogram made to hold `value`.
    pub fn reach(self, value: u64) -> u64
        ensures value { result ≡ reach_of self value }
        ensures least { IsLeast (λ r. (k : ℕ) × (r ≡ 2 ^ (self.unit + self.digits + k) - 1)
            × (value ≤ r)) result }
        ensures at_least { value ≤ result }
    {
        let exponent = (self.unit + self.digits) as u32 + self.bucket(value);
        u64::MAX >> (64 - exponent)
    }

    /// Returns the lowest value of a value's bucket.
    pub fn bucket_start(self, value: u64) -> u64
        ensures least { IsLeast (λ x. bucket self x ≡ bucket self value) result }
        ensures one_bucket { (x : ℕ) → result ≤ x → x ≤ value → bucket self x ≡ bucket self value }
    {
        let bucket = self.bucket(value);
        if bucket == 0 {
            0
        } else {
            1 << ((self.unit + self.digits) as u32 + (bucket - 1))
        }
    }

    /// Returns the number of buckets up to and including a value's bucket.
    pub fn buckets(self, value: u64) -> usize
        ensures value { result ≡ bucket self value + 1 }
        ensures bound { result ≤ 64 }
        ensures fits { (result + 1) * 2 ^ (self.digits - 1) ≤ most_bins }
    {
        self.bucket(value) as usize + 1
    }

    /// Returns the number of classes in a block: half of those in the first bucket, and all that each further bucket adds.
    pub fn block(self) -> usize
        ensures value { result ≡ 2 ^ (self.digits - 1) }
        ensures at_least_one { 1 ≤ result }
    {
        1 << (self.digits - 1)
    }

    /// Returns the number of blocks that hold the classes up to the end of a value's bucket.
    pub fn blocks(self, value: u64) -> usize
        ensures value { result ≡ bucket self value + 2 }
        ensures fits { result * 2 ^ (self.digits - 1) ≤ most_bins }
    {
        self.buckets(value) + 1
    }

    /// Returns the lowest value of the class of bin `index`, or `None` if `index` is above the bin of `u64::MAX`.
    pub fn bin_value(self, index: usize) -> Option<u64>
        ensures value { MatchOption result (bin_of self (2 ^ 64 - 1) < index)
            (λ v. (bin_of self v ≡ index) × (lowest_of self v ≡ v)) }
        ensures formula { IfSome result (λ v. v ≡ value_of self index) }
    {
        let half = self.digits - 1;
        let bucket = (index >> half).saturating_sub(1);
        if bucket > (64 - (self.unit + self.digits)) as usize {
            return None;
        }
        let place = index - (bucket << half);
        Some((place as u64) << (self.unit + bucket as u8))
    }

    /// Returns the greatest value of the class of bin `index`, or `None` if `index` is above the bin of `u64::MAX`.
    pub fn bin_top(self, index: usize) -> Option<u64>
        ensures { MatchOption result (bin_of self (2 ^ 64 - 1) < index)
            (λ t. t ≡ top_of self (value_of self index)) }
    {
        let lowest = self.bin_value(index)?;
        let bucket = (index >> (self.digits - 1)).saturating_sub(1);
        let width: u64 = 1 << (self.unit + bucket as u8);
        Some(lowest + (width - 1))
    }
}

/// Returns the exponent of the least power of two that is at least `2 * 10^sigfig`, or `None` if `sigfig` is above 5.
fn digits_for(sigfig: u8) -> Option<u8>
    ensures value { SomeIff result (sigfig ≤ 5) (digits_of sigfig) }
    ensures bounds { IfSome result (λ m. (0 < m) × (m ≤ 18)) }
{
    match sigfig {
        0 => Some(1),
        1 => Some(5),
        2 => Some(8),
        3 => Some(11),
        4 => Some(15),
        5 => Some(18),
        _ => None,
    }
}
