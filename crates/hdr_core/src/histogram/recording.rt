//! Recording and clearing.

ghost use Rattle.std.specs.Prelude.{◌≡◌, ℕ, List, ◌+◌, ◌-◌, ◌^◌, ◌<◌, ◌≤◌, ◌++◌, true, OnOk, IfErr, min, length, replicate};
ghost use Rattle.std.specs.Bool.{MatchBool};
ghost use Rattle.hdr_base.specs.Classes.{reach_of};
ghost use Rattle.hdr_model.specs.Plain.{IsPlain, resolution, reach};
ghost use Rattle.hdr_model.specs.Recording.{after_add_to_bin, after_record, clamp_to_bins, after_clear, after_reset, high_with};
ghost use Rattle.hdr_model.specs.Samples.{GainsSamples};
ghost use Rattle.hdr_model.specs.CallErrors.{IsRecordable, IsRecordError};

use super::Histogram;
use crate::marks::Marks;
use hdr_base::{Counter, saturating_from};
use hdr_model::RecordError;

impl<T: Counter> Histogram<T> {
    /// Records `value` once, in the caller's unit. Returns an error if `value` is past the bins and
    /// auto-resize is off, or if the allocation fails; `self` is then unchanged.
    #[inline(always)]
    pub fn record(&mut self, value: u64) -> Result<(), RecordError>
        ensures ok { OnOk result (self.new ≡ after_record T.greatest self.old value 1) }
        ensures samples { OnOk result (GainsSamples T.greatest self.old self.new
            (replicate 1 value)) }
        ensures high { OnOk result (self.new.high ≡ high_with (resolution self.old) self.old.high value
            (reach_of (resolution self.old) value)) }
        ensures accepted { OnOk result (IsRecordable self.old value) }
        ensures err { IfErr result (λ e. IsRecordError self.old value e
            × (self.new ≡ self.old)) }
    {
        self.record_n(value, T::one())
    }

    /// Records `value` `count` times. The counter of its bin and the total grow, each saturating.
    /// The marks are widened by its class, even if `count` is 0. If `value` is past the bins and
    /// auto-resize is on, the bins grow, and the reach of `value` becomes `high`.
    ///
    /// Returns an error if `value` is past the bins, and auto-resize is off or the allocation
    /// fails; `self` is then unchanged.
    #[inline(always)]
    pub fn record_n(&mut self, value: u64, count: T) -> Result<(), RecordError>
        ensures ok { OnOk result (self.new ≡ after_record T.greatest self.old value
            (T.number count)) }
        ensures samples { OnOk result (GainsSamples T.greatest self.old self.new
            (replicate (T.number count) value)) }
        ensures high { OnOk result (self.new.high ≡ high_with (resolution self.old) self.old.high value
            (reach_of (resolution self.old) value)) }
        ensures accepted { OnOk result (IsRecordable self.old value) }
        ensures err { IfErr result (λ e. IsRecordError self.old value e
            × (self.new ≡ self.old)) }
    {
        let bin = self.scale.bin(value);
        if self.try_add_to_bin(bin, count.as_u64()) {
            return Ok(());
        }
        self.record_n_slow(value, count)
    }

    /// Records `value` as `record_n`, where more than a bin and the total may change, or one saturates.
    #[cold]
    #[inline(never)]
    fn record_n_slow(&mut self, value: u64, count: T) -> Result<(), RecordError>
        ensures ok { OnOk result (self.new ≡ after_record T.greatest self.old value
            (T.number count)) }
        ensures samples { OnOk result (GainsSamples T.greatest self.old self.new
            (replicate (T.number count) value)) }
        ensures high { OnOk result (self.new.high ≡ high_with (resolution self.old) self.old.high value
            (reach_of (resolution self.old) value)) }
        ensures accepted { OnOk result (IsRecordable self.old value) }
        ensures err { IfErr result (λ e. IsRecordError self.old value e
            × (self.new ≡ self.old)) }
    {
        match self.bin_of(value) {
            Some(bin) => {
                self.add_to_bin(bin, count.as_u64());
                Ok(())
            }
            None => self.record_past(value, count),
        }
    }

    /// Records `value`, which is past the bins, after making bins for it.
    #[cold]
    #[inline(never)]
    fn record_past(&mut self, value: u64, count: T) -> Result<(), RecordError>
        requires { reach self.old < value }
        ensures ok { OnOk result (self.new ≡ after_record T.greatest self.old value
            (T.number count)) }
        ensures accepted { OnOk result (self.old.auto_resize ≡ true) }
        ensures err { IfErr result (λ e. IsRecordError self.old value e
            × (self.new ≡ self.old)) }
    {
        self.resize_for(value)?;
        self.record_inside(value, count.as_u64());
        Ok(())
    }

    /// Records `value` once, or `high` if `value` is past the bins.
    pub fn saturating_record(&mut self, value: u64)
        ensures state { self.new ≡ after_record T.greatest self.old
            (clamp_to_bins self.old value) 1 }
        ensures samples { GainsSamples T.greatest self.old self.new
            (replicate 1 (clamp_to_bins self.old value)) }
    {
        self.saturating_record_n(value, T::one())
    }

    /// Records `value` `count` times, or `high` if `value` is past the bins. It never grows, never
    /// fails and never allocates.
    pub fn saturating_record_n(&mut self, value: u64, count: T)
        ensures state { self.new ≡ after_record T.greatest self.old (clamp_to_bins self.old value)
            (T.number count) }
        ensures samples { GainsSamples T.greatest self.old self.new
            (replicate (T.number count) (clamp_to_bins self.old value)) }
    {
        self.record_inside(self.clamped(value), count.as_u64());
    }

    /// Returns `value`, or `high` if `value` is past the bins.
    fn clamped(&self, value: u64) -> u64
        ensures value { result ≡ clamp_to_bins self.now value }
        ensures within { result ≤ reach self.now }
        ensures plain { IsPlain T.greatest self.now }
    {
        match self.bin_of(value) {
            Some(_) => value,
            None => self.bounds.high,
        }
    }

    /// Clears the counters and the total, and keeps `max` and `min_nz`, the bins and the bounds.
    /// Returns at once if `len` is 0.
    pub fn clear(&mut self)
        ensures { self.new ≡ after_clear self.old }
    {
        if self.total == 0 {
            return;
        }
        self.counts.clear();
        self.total = 0;
    }

    /// Clears the counters, the total and the marks, and keeps the bins and the bounds.
    pub fn reset(&mut self)
        ensures { self.new ≡ after_reset self.old }
    {
        self.clear();
        self.marks = Marks::none(self.scale);
    }

    /// Adds `number` to a bin and to the total, if neither saturates and the bin widens no mark.
    /// Returns whether it did; `self` is unchanged if not. `bin` may be past the bins: it would then
    /// widen the top mark, which is inside them.
    #[inline(always)]
    fn try_add_to_bin(&mut self, bin: usize, number: u64) -> bool
        requires { bin < 2 ^ 32 }
        ensures { MatchBool result ((bin < length self.old.counts)
            × (self.new ≡ after_add_to_bin T.greatest self.old bin number)) (self.new ≡ self.old) }
    {
        if !self.marks.enclose(bin) {
            return false;
        }
        let Some(total) = self.total.checked_add(number) else {
            return false;
        };
        let Some(()) = self.counts.try_add(bin, number) else {
            return false;
        };
        self.total = total;
        true
    }

    /// Adds `number` to a bin and to the total, each saturating, and widens the marks by the bin.
    #[inline(always)]
    pub(super) fn add_to_bin(&mut self, bin: usize, number: u64)
        requires { bin < length self.old.counts }
        ensures { self.new ≡ after_add_to_bin T.greatest self.old bin number }
    {
        let Some(()) = self.counts.try_add(bin, number) else {
            return self.add_capped(bin, u128::from(number));
        };
        self.total = self.total.saturating_add(number);
        self.marks.widen(bin);
    }

    /// As `add_to_bin`, for a number that may saturate the counter or the total.
    #[cold]
    #[inline(never)]
    pub(super) fn add_capped(&mut self, bin: usize, number: u128)
        requires bin { bin < length self.old.counts }
        requires number { number + 2 ^ 64 < 2 ^ 128 }
        ensures { self.new ≡ after_add_to_bin T.greatest self.old bin number }
    {
        let sum = u128::from(self.counts.get(bin).as_u64()) + number;
        self.counts.set(bin, saturating_from(sum));
        self.total = saturating_from(u128::from(self.total) + number);
        self.marks.widen(bin);
    }
}
