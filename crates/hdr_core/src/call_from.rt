//! Calls as values whose sources may count in another type, and runs of them.

ghost use Rattle.std.specs.Prelude.{◌≡◌, ◌<◌, OnOk, IfErr, length, take, slice_get, IfSome};
ghost use Rattle.hdr_model.specs.Plain.{resolution};
ghost use Rattle.hdr_model.specs.Samples.{Fits};
ghost use Rattle.hdr_model.specs.Runs.{State, StandsAt};
ghost use Rattle.hdr_core.specs.Calls.{calls_applied};
ghost use Rattle.hdr_core.specs.CallsFrom.{after_call_from, after_calls_from, IsAcceptedFrom, AreAcceptedFrom, IsCallFromError, CallFromTo, CallsFromTo};

use crate::call::{Call, CallError, RunError};
use crate::histogram::Histogram;
use hdr_base::Counter;

/// One call of a histogram whose source, if it has one, may count in another type.
#[derive(Drop)]
pub enum CallFrom<'a, T: Counter, F: Counter> {
    /// A call over the histogram's own counter type.
    Own(Call<'a, T>),
    /// `add_from` of another histogram.
    AddFrom(&'a Histogram<F>),
    /// `add_correct_from` of another histogram, with an interval.
    AddCorrectFrom(&'a Histogram<F>, u64),
}

impl<T: Counter> Histogram<T> {
    /// Applies `call`. Returns the error of that call if it fails; `self` is then unchanged.
    fn apply_from<F: Counter>(&mut self, call: &CallFrom<'_, T, F>) -> Result<(), CallError>
        ensures ok { OnOk result (self.new
            ≡ after_call_from T.greatest T.number call.now self.old) }
        ensures same_classes { resolution self.new ≡ resolution self.old }
        ensures samples { OnOk result ((s t : State) → StandsAt self.old s → CallFromTo T.number
            (resolution self.old) call.now s t
            → Fits T.greatest (resolution self.old) t.samples → StandsAt self.new t) }

        // What is unchanged, and when which error is returned.
        ensures same_bounds { (self.new.low ≡ self.old.low) × (self.new.sigfig ≡ self.old.sigfig)
            × (self.new.auto_resize ≡ self.old.auto_resize) }
        ensures accepted { OnOk result (IsAcceptedFrom self.old call.now) }
        ensures err { IfErr result (λ e. IsCallFromError self.old call.now e
            × (self.new ≡ self.old)) }
    {
        match call {
            CallFrom::Own(call) => self.apply(call),
            CallFrom::AddFrom(source) => self.add_from(source).map_err(CallError::Addition),
            CallFrom::AddCorrectFrom(source, interval) => self
                .add_correct_from(source, *interval)
                .map_err(CallError::Record),
        }
    }

    /// As `apply_all`, for calls whose sources may count in another type: applies `calls` in order,
    /// up to the first that fails. Returns its index and its error. That call changes nothing, and
    /// the effects of those before it remain.
    pub fn apply_all_from<F: Counter>(
        &mut self,
        calls: &[CallFrom<'_, T, F>],
    ) -> Result<(), RunError>
        ensures done { self.new ≡ after_calls_from T.greatest T.number
            (calls_applied result calls.now) self.old }
        ensures samples { (s t : State) → StandsAt self.old s
            → CallsFromTo T.number (resolution self.old) (Fits T.greatest (resolution self.old))
            (calls_applied result calls.now) s t → StandsAt self.new t }

        // What is unchanged, and when which error is returned.
        ensures same_bounds { (self.new.low ≡ self.old.low) × (self.new.sigfig ≡ self.old.sigfig)
            × (self.new.auto_resize ≡ self.old.auto_resize) }
        ensures accepted { AreAcceptedFrom T.greatest T.number
            (calls_applied result calls.now) self.old }
        ensures err { IfErr result (λ e. IfSome (slice_get calls.now e.at)
            (λ call. IsCallFromError self.new call e.cause)) }
        ensures at { IfErr result (λ e. e.at < length calls.now) }
    {
        for (at, call) in calls.iter().enumerate() {
            if let Err(cause) = self.apply_from(call) {
                return Err(RunError { at, cause });
            }
        }
        Ok(())
    }
}
