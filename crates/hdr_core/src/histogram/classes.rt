//! The classes of values, for every `u64`, past the bins too.

ghost use Rattle.std.specs.Prelude.{◌≡◌, ◌↔◌, ◌+◌, ◌-◌, ◌/◌, ◌^◌, ◌≤◌, IsTrue, min};
ghost use Rattle.hdr_base.specs.Classes.{width_of, lowest_of, top_of, AreEquivalent, IsFiner};
ghost use Rattle.hdr_model.specs.Plain.{resolution};

use super::Histogram;
use hdr_base::Counter;

impl<T: Counter> Histogram<T> {
    /// Returns the lowest value of the class of `value`.
    pub fn lowest_equivalent(&self, value: u64) -> u64
        ensures { result ≡ lowest_of (resolution self.now) value }
    {
        self.scale.lowest(value)
    }

    /// Returns the greatest value of the class of `value`.
    pub fn highest_equivalent(&self, value: u64) -> u64
        ensures { result ≡ top_of (resolution self.now) value }
    {
        self.scale.top(value)
    }

    /// Returns the lowest value of the next class, or `u64::MAX` if there is none.
    pub fn next_non_equivalent(&self, value: u64) -> u64
        ensures next { result ≡ min (lowest_of (resolution self.now) value
            + width_of (resolution self.now) value) (2 ^ 64 - 1) }
        ensures at_least { value ≤ result }
    {
        let scale = self.scale;
        scale.lowest(value).saturating_add(scale.width(value))
    }

    /// Returns the value half a width above the lowest of the class of `value`.
    pub fn median_equivalent(&self, value: u64) -> u64
        ensures { result ≡ lowest_of (resolution self.now) value + width_of (resolution self.now) value / 2 }
    {
        let scale = self.scale;
        scale.lowest(value) + scale.width(value) / 2
    }

    /// Returns the width of the class of `value`.
    pub fn equivalent_range(&self, value: u64) -> u64
        ensures width { result ≡ width_of (resolution self.now) value }
        ensures at_least_one { 1 ≤ result }
    {
        self.scale.width(value)
    }

    /// Whether two values have one class.
    pub fn equivalent(&self, a: u64, b: u64) -> bool
        ensures { IsTrue result ↔ AreEquivalent (resolution self.now) a b }
    {
        self.scale.bin(a) == self.scale.bin(b)
    }

    /// Whether each class of this histogram lies in one class of `other`, which may count in
    /// another type. This holds exactly if its unit is no greater and it keeps at least as many
    /// digits. Added to `other`, its samples then stay in their classes.
    pub fn refines<F: Counter>(&self, other: &Histogram<F>) -> bool
        ensures { IsTrue result ↔ IsFiner (resolution self.now) (resolution other.now) }
    {
        self.scale.unit() <= other.scale.unit() && other.scale.digits() <= self.scale.digits()
    }
}
