//! Calls as values, and runs of them.

ghost use Rattle.std.specs.Prelude.{◌≡◌, ◌<◌, OnOk, IfErr, length, take, slice_get, IfSome};
ghost use Rattle.hdr_model.specs.Plain.{resolution};
ghost use Rattle.hdr_model.specs.Samples.{Fits};
ghost use Rattle.hdr_model.specs.Runs.{StandsAt, State};
ghost use Rattle.hdr_core.specs.Calls.{after_call, after_calls, IsAccepted, AreAccepted, IsCallError, CallTo, CallsTo, calls_applied};

use crate::histogram::Histogram;
use hdr_base::Counter;
use hdr_model::{AdditionError, RecordError};
use thiserror::Error;

/// One call of a histogram.
#[derive(Drop)]
pub enum Call<'a, T: Counter> {
    /// `record_n` of a value and a count.
    Record(u64, T),
    /// `saturating_record_n` of a value and a count.
    Clamp(u64, T),
    /// `record_n_correct` of a value, a count and an interval.
    Correct(u64, T, u64),
    /// `clear`.
    Clear,
    /// `reset`.
    Reset,
    /// `add` of another histogram.
    Add(&'a Histogram<T>),
    /// `add_correct` of another histogram, with an interval.
    AddCorrect(&'a Histogram<T>, u64),
}

/// The error of a call.
#[derive(Debug, PartialEq, Eq, Drop, Error)]
pub enum CallError {
    #[error("{0}")]
    Record(RecordError),
    #[error("{0}")]
    Addition(AdditionError),
}

/// The error of a run: the index in the slice, from 0, of the first call that failed, and its
/// error.
#[derive(Debug, PartialEq, Eq, Drop, Error)]
#[error("Call {at} was refused: {cause}")]
pub struct RunError {
    pub at: usize,
    pub cause: CallError,
}

impl<T: Counter> Histogram<T> {
    /// Applies `call`. Returns the error of that call if it fails; `self` is then unchanged.
    #[inline(always)]
    pub fn apply(&mut self, call: &Call<'_, T>) -> Result<(), CallError>
        ensures ok { OnOk result (self.new ≡ after_call T.greatest T.number call.now self.old) }
        ensures same_classes { resolution self.new ≡ resolution self.old }
        ensures samples { OnOk result ((s t : State) → StandsAt self.old s → CallTo T.number
            (resolution self.old) call.now s t
            → Fits T.greatest (resolution self.old) t.samples → StandsAt self.new t) }

        // What is unchanged, and when which error is returned.
        ensures same_bounds { (self.new.low ≡ self.old.low) × (self.new.sigfig ≡ self.old.sigfig)
            × (self.new.auto_resize ≡ self.old.auto_resize) }
        ensures accepted { OnOk result (IsAccepted self.old call.now) }
        ensures err { IfErr result (λ e. IsCallError self.old call.now e
            × (self.new ≡ self.old)) }
    {
        match call {
            Call::Record(value, count) => self.record_n(*value, *count).map_err(CallError::Record),
            Call::Clamp(value, count) => {
                self.saturating_record_n(*value, *count);
                Ok(())
            }
            Call::Correct(value, count, interval) => self
                .record_n_correct(*value, *count, *interval)
                .map_err(CallError::Record),
            Call::Clear => {
                self.clear();
                Ok(())
            }
            Call::Reset => {
                self.reset();
                Ok(())
            }
            Call::Add(source) => self.add(source).map_err(CallError::Addition),
            Call::AddCorrect(source, interval) => self
                .add_correct(source, *interval)
                .map_err(CallError::Record),
        }
    }

    /// Applies `calls` in order, up to the first that fails. Returns its index and its error. That
    /// call changes nothing, and the effects of those before it remain.
    pub fn apply_all(&mut self, calls: &[Call<'_, T>]) -> Result<(), RunError>
        ensures done { self.new ≡ after_calls T.greatest T.number
            (calls_applied result calls.now) self.old }
        ensures samples { (s t : State) → StandsAt self.old s
            → CallsTo T.number (resolution self.old) (Fits T.greatest (resolution self.old))
            (calls_applied result calls.now) s t → StandsAt self.new t }

        // What is unchanged, and when which error is returned.
        ensures same_bounds { (self.new.low ≡ self.old.low) × (self.new.sigfig ≡ self.old.sigfig)
            × (self.new.auto_resize ≡ self.old.auto_resize) }
        ensures accepted { AreAccepted T.greatest T.number
            (calls_applied result calls.now) self.old }
        ensures err { IfErr result (λ e. IfSome (slice_get calls.now e.at)
            (λ call. IsCallError self.new call e.cause)) }
        ensures at { IfErr result (λ e. e.at < length calls.now) }
    {
        for (at, call) in calls.iter().enumerate() {
            if let Err(cause) = self.apply(call) {
                return Err(RunError { at, cause });
            }
        }
        Ok(())
    }
}
