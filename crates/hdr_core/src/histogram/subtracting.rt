//! Subtracting one histogram from another.

ghost use Rattle.std.specs.Prelude.{◌≡◌, ℕ, ◌+◌, ◌-◌, ◌<◌, ◌≤◌, OnOk, IfErr, All, true, false, slice_index, slice_set, length};
ghost use Rattle.hdr_base.specs.Classes.{bin_of, value_of};
ghost use Rattle.hdr_model.specs.Marks.{IsTopMark, IsLowerMark};
ghost use Rattle.hdr_model.specs.Plain.{resolution, reach, max_of};
ghost use Rattle.hdr_model.specs.Merging.{lowest_values};
ghost use Rattle.hdr_model.specs.Samples.{in_class};
ghost use Rattle.hdr_model.specs.Subtracting.{IsDifference};
ghost use Rattle.hdr_model.specs.CallErrors.{IsSubtractionError};

use super::Histogram;
use super::merging::capped_sum;
use crate::marks::Marks;
use hdr_base::{Counter, Scale};
use hdr_counts::Counts;
use hdr_model::SubtractionError;

impl<T: Counter> Histogram<T> {
    /// Subtracts what `other` counted, each of its classes at its lowest value. An empty one
    /// changes nothing. The total and the marks are then computed from the counters. It allocates
    /// nothing.
    ///
    /// Returns an error if the `max` of `other` is past the reach, or if a class holds less than is
    /// subtracted from it; `self` is then unchanged.
    pub fn subtract(&mut self, other: &Histogram<T>) -> Result<(), SubtractionError>
        ensures none { other.now.total ≡ 0 → OnOk result (self.new ≡ self.old) }
        ensures ok { OnOk result (0 < other.now.total → IsDifference self.old other.now self.new) }
        ensures accepted { OnOk result (0 < other.now.total → max_of other.now ≤ reach self.old) }
        ensures err { IfErr result (λ e. IsSubtractionError self.old other.now e
            × (self.new ≡ self.old)) }
    {
        if other.total == 0 {
            return Ok(());
        }
        if other.max() > self.reach() {
            return Err(SubtractionError::SubtrahendValueExceedsMinuendRange);
        }
        if !self.holds(other) {
            return Err(SubtractionError::SubtrahendCountExceedsMinuendCount);
        }
        self.take_out(other);
        Ok(())
    }

    /// Whether each bin holds at least what the classes of `other` have there, each at its lowest
    /// value.
    fn holds(&self, other: &Histogram<T>) -> bool
        requires { max_of other.now ≤ reach self.now }
        ensures yes { result ≡ true → (j : ℕ)
            → in_class (resolution self.now) j (lowest_values other.now)
            ≤ slice_index self.now.counts j }
        ensures no { result ≡ false → (j : ℕ)
            × (slice_index self.now.counts j < in_class (resolution self.now) j
            (lowest_values other.now)) }
    {
        let mut at: usize = 0;
        let mut sum: u128 = 0;
        let mut bin = other.next_filled(0);
        while bin < other.distinct_values() {
            let target = self.bin_of_class(other, bin);
            let before = if target == at { sum } else { 0 };
            at = target;
            sum = before + u128::from(other.counts.get(bin).as_u64());
            if sum > u128::from(self.counts.get(at).as_u64()) {
                return false;
            }
            bin = other.next_filled(bin + 1);
        }
        true
    }

    /// Returns the bin of the lowest value of a class of `other`.
    fn bin_of_class(&self, other: &Histogram<T>, bin: usize) -> usize
        requires inside { bin < length other.now.counts }
        requires reached { value_of (resolution other.now) bin ≤ reach self.now }
        ensures value { result ≡ bin_of (resolution self.now) (value_of (resolution other.now) bin) }
        ensures bound { result < length self.now.counts }
    {
        self.scale.bin(other.class_value(bin))
    }

    /// Subtracts what `other` holds, if each bin has enough.
    fn take_out(&mut self, other: &Histogram<T>)
        requires { (j : ℕ) → in_class (resolution self.old) j (lowest_values other.now)
            ≤ slice_index self.old.counts j }
        ensures { IsDifference self.old other.now self.new }
    {
        take_each(&mut self.counts, self.scale, other);
        self.total = capped_sum(&self.counts);
        self.marks = marks_of(self.scale, &self.counts);
    }
}

/// Subtracts what the classes of `other` hold, each at its lowest value.
fn take_each<T: Counter>(counts: &mut Counts<T>, scale: Scale, other: &Histogram<T>)
    requires enough { (j : ℕ)
        → in_class scale j (lowest_values other.now) ≤ slice_index counts.old.numbers j }
    requires fit { All (λ n. n ≤ T.greatest) counts.old.numbers }

    // What is unchanged, and what each counter loses.
    ensures block { counts.new.block ≡ counts.old.block }
    ensures bins { length counts.new.numbers ≡ length counts.old.numbers }
    ensures fit { All (λ n. n ≤ T.greatest) counts.new.numbers }
    ensures numbers { (j : ℕ)
        → slice_index counts.new.numbers j + in_class scale j (lowest_values other.now)
        ≡ slice_index counts.old.numbers j }
{
    let mut bin = other.next_filled(0);
    while bin < other.distinct_values() {
        let target = scale.bin(other.class_value(bin));
        take_from(counts, target, other.counts.get(bin));
        bin = other.next_filled(bin + 1);
    }
}

/// Subtracts `count` from the counter at index `target`.
fn take_from<T: Counter>(counts: &mut Counts<T>, target: usize, count: T)
    requires inside { target < length counts.old.numbers }
    requires enough { T.number count ≤ slice_index counts.old.numbers target }
    ensures { counts.new ≡ record counts.old {
      numbers = slice_set counts.old.numbers target
          (slice_index counts.old.numbers target - T.number count);
    } }
{
    if let Some(rest) = counts.get(target).checked_sub(count) {
        counts.set(target, rest);
    }
}

/// Returns the marks of counters.
pub(super) fn marks_of<T: Counter>(scale: Scale, counts: &Counts<T>) -> Marks
    ensures top { IsTopMark counts.now.numbers result.top }
    ensures lower { IsLowerMark counts.now.numbers result.lower }
{
    Marks::new(scale, counts.last_nonzero(), counts.next_nonzero())
}
