//! Growth of a histogram.

ghost use Rattle.std.specs.Prelude.{◌≡◌, ◌<◌, ◌≤◌, ◌⊎◌, MatchResult, OnOk, IfErr};
ghost use Rattle.hdr_model.specs.Plain.{IsPlain, reach};
ghost use Rattle.hdr_model.specs.Recording.{with_bins_to, with_bins_for};
ghost use Rattle.hdr_model.specs.Merging.{with_room};
ghost use Rattle.hdr_model.specs.CallErrors.{IsRecordable, IsRecordError, IsResizeError};

use super::Histogram;
use hdr_base::Counter;
use hdr_model::{AdditionError, RecordError};
use std::alloc::AllocError;

impl<T: Counter> Histogram<T> {
    /// If `value` has no bin, makes bins up to its reach, and sets `high` to that reach. On error
    /// `self` is unchanged.
    pub(super) fn resize_for(&mut self, value: u64) -> Result<(), RecordError>
        ensures ok { OnOk result (self.new ≡ with_bins_for self.old value) }
        ensures plain { IsPlain T.greatest self.old }
        ensures accepted { OnOk result (IsRecordable self.old value) }
        ensures err { IfErr result (λ e. IsRecordError self.old value e
            × (self.new ≡ self.old)) }
    {
        let high = self.scale.reach(value);
        self.resize_to(value, high)?;
        Ok(())
    }

    /// If `value` has no bin, makes bins up to its reach, and sets `high` to `value`. On error `self`
    /// is unchanged.
    pub(super) fn resize_for_add(&mut self, value: u64) -> Result<(), AdditionError>
        ensures ok { OnOk result (self.new ≡ with_room self.old value) }
        ensures plain { IsPlain T.greatest self.old }
        ensures accepted { OnOk result (IsRecordable self.old value) }
        ensures err { IfErr result (λ e. IsResizeError self.old value e × (self.new ≡ self.old)) }
    {
        match self.resize_to(value, value) {
            Ok(()) => Ok(()),
            Err(RecordError::OutOfMemory) => Err(AdditionError::OutOfMemory),
            Err(_) => Err(AdditionError::OtherAddendValueExceedsRange),
        }
    }

    /// If `value` has no bin, makes bins up to the reach of the argument `high`, and stores that
    /// argument as the bound. On error `self` is unchanged.
    fn resize_to(&mut self, value: u64, high: u64) -> Result<(), RecordError>
        requires { value ≤ high }
        ensures ok { OnOk result (((value ≤ reach self.old) × (self.new ≡ self.old))
            ⊎ ((reach self.old < value) × (self.new ≡ with_bins_to self.old high))) }
        ensures plain { IsPlain T.greatest self.old }
        ensures accepted { OnOk result (IsRecordable self.old value) }
        ensures err { IfErr result (λ e. IsRecordError self.old value e
            × (self.new ≡ self.old)) }
    {
        if value <= self.reach() {
            return Ok(());
        }
        if !self.bounds.auto_resize {
            return Err(RecordError::ValueOutOfRangeResizeDisabled);
        }
        self.grow(high).map_err(|_| RecordError::OutOfMemory)
    }

    /// Makes bins up to the reach of the argument `high`, which has no bin yet, and stores it as
    /// the bound `high`. Returns an error if the allocation fails; `self` is then unchanged.
    fn grow(&mut self, high: u64) -> Result<(), AllocError>
        requires { reach self.old < high }
        ensures { MatchResult result (λ _. self.new ≡ with_bins_to self.old high)
            (λ _. self.new ≡ self.old) }
    {
        self.counts.grow(self.scale.blocks(high))?;
        self.bounds.high = high;
        Ok(())
    }
}
