//! Adding what another histogram counted, with correction for coordinated omission.

ghost use Rattle.std.specs.Prelude.{◌≡◌, ℕ, List, ◌∷◌, ◌++◌, ◌+◌, ◌≤◌, OnOk, IfErr};
ghost use Rattle.hdr_base.specs.Classes.{reach_of};
ghost use Rattle.hdr_model.specs.Plain.{IsPlain, resolution, reach};
ghost use Rattle.hdr_model.specs.Recording.{after_records, with_bins_for, after_reset, high_with};
ghost use Rattle.hdr_model.specs.Samples.{StandsFor, GainsSamples};
ghost use Rattle.hdr_model.specs.CallErrors.{IsRecordable, IsRecordError, IsCorrectionError, LeavesCorrected};
ghost use Rattle.hdr_model.specs.Correction.{missing, each_times};
ghost use Rattle.hdr_model.specs.Merging.{corrections_from, highest_top, after_add_correct, corrected_samples};

use super::Histogram;
use super::correction::has_missing;
use hdr_base::{Counter, Ticks};
use hdr_model::RecordError;

impl<T: Counter> Histogram<T> {
    /// Adds each nonempty class of `source` at its greatest value, corrected as by
    /// `record_n_correct`. If the greatest value of its last nonempty class is past the bins and
    /// auto-resize is on, the bins grow. Returns an error if it is past the bins, and auto-resize
    /// is off or the allocation fails; `self` is then unchanged.
    pub fn add_correct(&mut self, source: &Histogram<T>, interval: u64) -> Result<(), RecordError>
        ensures ok { OnOk result (self.new
            ≡ after_add_correct T.greatest self.old source.now interval) }
        ensures samples { OnOk result ((L : List ℕ) → StandsFor source.now L
            → GainsSamples T.greatest self.old self.new
            (corrected_samples (resolution source.now) interval L)) }

        // The classes stay the same, and the bins may grow.
        ensures same_classes { resolution self.new ≡ resolution self.old }
        ensures high { OnOk result (self.new.high ≡ high_with (resolution self.old) self.old.high
            (highest_top source.now) (reach_of (resolution self.old) (highest_top source.now))) }

        // When which error is returned.
        ensures accepted { OnOk result (IsRecordable self.old (highest_top source.now)) }
        ensures err { IfErr result (λ e. IsCorrectionError self.old source.now e
            × (self.new ≡ self.old)) }
    {
        self.add_correct_from(source, interval)
    }

    /// As `add_correct`, for a source that may count in another type. Its numbers are not saturated
    /// before they are added; only the sums saturate, at `T::max_value()`.
    pub fn add_correct_from<F: Counter>(
        &mut self,
        source: &Histogram<F>,
        interval: u64,
    ) -> Result<(), RecordError>
        ensures ok { OnOk result (self.new
            ≡ after_add_correct T.greatest self.old source.now interval) }
        ensures samples { OnOk result ((L : List ℕ) → StandsFor source.now L
            → GainsSamples T.greatest self.old self.new
            (corrected_samples (resolution source.now) interval L)) }

        // The classes stay the same, and the bins may grow.
        ensures same_classes { resolution self.new ≡ resolution self.old }
        ensures high { OnOk result (self.new.high ≡ high_with (resolution self.old) self.old.high
            (highest_top source.now) (reach_of (resolution self.old) (highest_top source.now))) }

        // When which error is returned.
        ensures accepted { OnOk result (IsRecordable self.old (highest_top source.now)) }
        ensures err { IfErr result (λ e. IsCorrectionError self.old source.now e
            × (self.new ≡ self.old)) }
    {
        self.resize_for(source.highest_top())?;
        self.correct_classes(source, interval);
        Ok(())
    }

    /// Resets the histogram, and adds `source` as `add_correct` does. If `source` is out of range,
    /// returns an error and leaves `self` reset. If the allocation fails, returns an error and
    /// leaves `self` unchanged.
    pub fn set_to_corrected(
        &mut self,
        source: &Histogram<T>,
        interval: u64,
    ) -> Result<(), RecordError>
        ensures ok { OnOk result (self.new ≡ after_add_correct T.greatest
            (after_reset self.old) source.now interval) }
        ensures accepted { OnOk result (IsRecordable self.old (highest_top source.now)) }
        ensures err { IfErr result (λ e. IsCorrectionError self.old source.now e
            × LeavesCorrected self.old self.new e) }
    {
        match self.resize_for(source.highest_top()) {
            Ok(()) => {
                self.reset();
                self.correct_classes(source, interval);
                Ok(())
            }
            Err(RecordError::OutOfMemory) => Err(RecordError::OutOfMemory),
            Err(e) => {
                self.reset();
                Err(e)
            }
        }
    }

    /// Returns the greatest value of the last nonempty class, or 0 if all are empty.
    pub(super) fn highest_top(&self) -> u64
        ensures { result ≡ highest_top self.now }
    {
        match self.counts.last_nonzero() {
            Some(bin) => self.class_top(bin),
            None => 0,
        }
    }

    /// Corrects each nonempty class of a source whose last one has a bin.
    pub(super) fn correct_classes<F: Counter>(&mut self, source: &Histogram<F>, interval: u64)
        requires { highest_top source.now ≤ reach self.old }
        ensures made { self.new ≡ after_records T.greatest self.old
            (corrections_from (resolution source.now) interval 0 source.now.counts) }
        ensures source { IsPlain F.greatest source.now }
    {
        let mut bin = source.next_filled(0);
        while bin < source.distinct_values() {
            let count = source.counts.get(bin).as_u64();
            self.correct_inside(source.class_top(bin), count, interval);
            bin = source.next_filled(bin + 1);
        }
    }

    /// Records a value that has a bin, and the samples missing before it.
    fn correct_inside(&mut self, value: u64, count: u64, interval: u64)
        requires { value ≤ reach self.old }
        ensures { self.new ≡ after_records T.greatest self.old
            (each_times count (value ∷ missing value interval)) }
    {
        self.record_inside(value, count);
        if has_missing(value, interval) {
            self.add_missing(value - interval, count, interval, &mut Ticks::new());
        }
    }
}
