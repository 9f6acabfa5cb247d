//! Adding one histogram to another, of the same or of another counter type.

ghost use Rattle.std.specs.Prelude.{◌==◌, ◌&&◌, if◌then◌else◌, ◌≡◌, ℕ, ◌+◌, ◌-◌, ◌^◌, ◌<◌, ◌≤◌, ◌⊎◌, ◌++◌, List, OnOk, IfErr, true, min, length, sum};
ghost use Rattle.hdr_base.specs.Classes.{value_of, IsFiner};
ghost use Rattle.hdr_model.specs.Plain.{IsPlain, resolution, reach, max_of};
ghost use Rattle.hdr_model.specs.Recording.{after_record, after_records, after_reset, high_with};
ghost use Rattle.hdr_model.specs.Merging.{classes_from, top_class, same_bins, after_add_same_bins, after_add_within, with_room, after_add};
ghost use Rattle.hdr_model.specs.CallErrors.{LeavesSet, IsRecordable, IsAdditionError, IsResizeError};
ghost use Rattle.hdr_model.specs.Samples.{StandsFor, GainsSamples};

use super::Histogram;
use hdr_base::{Counter, saturating_from};
use hdr_counts::Counts;
use hdr_model::AdditionError;

impl<T: Counter> Histogram<T> {
    /// Adds the samples of `source`; an empty one changes nothing. If its `max` is past the bins
    /// and auto-resize is on, the bins grow, and that `max` becomes `high`. Returns an error if it
    /// is past the bins, and auto-resize is off or the allocation fails; `self` is then unchanged.
    ///
    /// If the bins are equal, counters are added, and an empty target copies the source's total and
    /// marks. Otherwise each nonempty class is recorded at its lowest value, and the top mark's
    /// class with the count 0.
    pub fn add(&mut self, source: &Histogram<T>) -> Result<(), AdditionError>
        ensures ok { OnOk result (self.new ≡ after_add T.greatest self.old source.now) }
        ensures samples { OnOk result ((L : List ℕ) → StandsFor source.now L → IsFiner
            (resolution source.now) (resolution self.old)
            → GainsSamples T.greatest self.old self.new L) }

        // The classes stay the same, and the bins may grow.
        ensures same_classes { resolution self.new ≡ resolution self.old }
        ensures high { OnOk result (self.new.high
            ≡ (if source.now.total == 0 then self.old.high else high_with
            (resolution self.old) self.old.high (max_of source.now) (max_of source.now))) }

        // When which error is returned.
        ensures accepted { OnOk result ((source.now.total ≡ 0) ⊎ IsRecordable self.old (max_of source.now)) }
        ensures err { IfErr result (λ e. IsAdditionError self.old source.now e
            × (self.new ≡ self.old)) }
    {
        self.add_from(source)
    }

    /// As `add`, for a source that may count in another type. Its numbers are not saturated before
    /// they are added; only the sums saturate, at `T::max_value()`.
    pub fn add_from<F: Counter>(&mut self, source: &Histogram<F>) -> Result<(), AdditionError>
        ensures ok { OnOk result (self.new ≡ after_add T.greatest self.old source.now) }
        ensures samples { OnOk result ((L : List ℕ) → StandsFor source.now L → IsFiner
            (resolution source.now) (resolution self.old)
            → GainsSamples T.greatest self.old self.new L) }

        // The classes stay the same, and the bins may grow.
        ensures same_classes { resolution self.new ≡ resolution self.old }
        ensures high { OnOk result (self.new.high
            ≡ (if source.now.total == 0 then self.old.high else high_with
            (resolution self.old) self.old.high (max_of source.now) (max_of source.now))) }

        // When which error is returned.
        ensures accepted { OnOk result ((source.now.total ≡ 0) ⊎ IsRecordable self.old (max_of source.now)) }
        ensures err { IfErr result (λ e. IsAdditionError self.old source.now e
            × (self.new ≡ self.old)) }
    {
        if source.total == 0 {
            return Ok(());
        }
        self.resize_for_add(source.max())?;
        self.take_in(source);
        Ok(())
    }

    /// Resets the histogram, and adds the samples of `source`. If `max` of `source` is out of
    /// range, returns an error and leaves `self` reset. If the allocation fails, returns an error
    /// and leaves `self` unchanged.
    pub fn set_to(&mut self, source: &Histogram<T>) -> Result<(), AdditionError>
        ensures ok { OnOk result (self.new ≡ after_add T.greatest
            (after_reset self.old) source.now) }
        ensures accepted { OnOk result ((source.now.total ≡ 0) ⊎ IsRecordable self.old (max_of source.now)) }
        ensures err { IfErr result (λ e. IsAdditionError self.old source.now e
            × LeavesSet self.old self.new e) }
    {
        if source.total == 0 {
            self.reset();
            return Ok(());
        }
        match self.resize_for_add(source.max()) {
            Ok(()) => {
                self.reset();
                self.take_in(source);
                Ok(())
            }
            Err(AdditionError::OutOfMemory) => Err(AdditionError::OutOfMemory),
            Err(e) => {
                self.reset();
                Err(e)
            }
        }
    }

    /// Adds a source whose greatest value has a bin.
    pub(super) fn take_in<F: Counter>(&mut self, source: &Histogram<F>)
        requires { max_of source.now ≤ reach self.old }
        ensures { self.new ≡ after_add_within T.greatest self.old source.now }
    {
        if self.same_bins(source) {
            self.join(source);
        } else if self.same_classes(source) {
            self.join_front(source);
        } else {
            self.record_classes(source);
        }
    }

    /// Whether both have the same unit and digits.
    fn same_classes<F: Counter>(&self, other: &Histogram<F>) -> bool
        ensures { result ≡ (((resolution self.now).unit == (resolution other.now).unit)
            && ((resolution self.now).digits == (resolution other.now).digits)) }
    {
        self.scale.unit() == other.scale.unit() && self.scale.digits() == other.scale.digits()
    }

    /// Whether both have the same unit and digits, and as many bins.
    fn same_bins<F: Counter>(&self, other: &Histogram<F>) -> bool
        ensures { result ≡ same_bins self.now other.now }
    {
        self.same_classes(other) && self.counts.len() == other.counts.len()
    }

    /// Adds a source of the same bins, section by section.
    pub(super) fn join<F: Counter>(&mut self, source: &Histogram<F>)
        requires { same_bins self.old source.now ≡ true }
        ensures { self.new ≡ after_add_same_bins T.greatest self.old source.now }
    {
        self.counts.add_all(&source.counts);
        if self.total == 0 {
            self.total = source.total;
            self.marks = source.marks.same();
        } else {
            self.total = self.total.saturating_add(capped_sum(&source.counts));
            self.marks.widen_by(&source.marks);
        }
    }

    /// Adds a source of the same classes in another number of bins, section by section.
    fn join_front<F: Counter>(&mut self, source: &Histogram<F>)
        requires same_classes { resolution source.now ≡ resolution self.old }
        requires in_range { max_of source.now ≤ reach self.old }
        ensures { self.new ≡ after_records T.greatest self.old
            (classes_from (resolution source.now) 0 source.now.counts ++ top_class
            (resolution source.now) source.now.top_mark) }
    {
        let counts = &source.counts;
        self.counts.add_all(counts);
        self.total = self.total.saturating_add(capped_sum(counts));
        self.marks.widen_if(counts.next_nonzero());
        self.marks.widen_if(source.marks.top());
    }

    /// Records the classes of a source, each at its lowest value.
    fn record_classes<F: Counter>(&mut self, source: &Histogram<F>)
        requires { max_of source.now ≤ reach self.old }
        ensures { self.new ≡ after_records T.greatest self.old
            (classes_from (resolution source.now) 0 source.now.counts ++ top_class
            (resolution source.now) source.now.top_mark) }
    {
        let mut bin = source.next_filled(0);
        while bin < source.distinct_values() {
            self.record_inside(source.class_value(bin), source.counts.get(bin).as_u64());
            bin = source.next_filled(bin + 1);
        }
        if let Some(bin) = source.marks.top() {
            self.record_inside(source.class_value(bin), 0);
        }
    }

    /// Records a value that has a bin.
    #[inline(always)]
    pub(super) fn record_inside(&mut self, value: u64, number: u64)
        requires { value ≤ reach self.old }
        ensures { self.new ≡ after_record T.greatest self.old value number }
    {
        let bin = self.scale.bin(value);
        self.add_to_bin(bin, number);
    }
}

/// Returns the sum of the counters, saturated at `u64::MAX`.
pub(super) fn capped_sum<T: Counter>(counts: &Counts<T>) -> u64
    requires { 0 < length counts.now.numbers }
    ensures { result ≡ min (sum counts.now.numbers) (2 ^ 64 - 1) }
{
    saturating_from(counts.sum_to(counts.len() - 1))
}
