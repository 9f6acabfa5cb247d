//! The headline.

ghost use Rattle.std.specs.Prelude.{◌≡◌, ◌<◌, ◌^◌, All, IfOk, OnOk, IfErr, length};
ghost use Rattle.std.specs.Duration.{as_nanos};
ghost use Rattle.hdr_core.specs.Calls.{after_calls, AreAccepted, CallsTo};
ghost use Rattle.hdr_log.specs.Texts.{IsTimeInRange};
ghost use Rattle.hdr_model.specs.Plain.{resolution};
ghost use Rattle.hdr_model.specs.Quantiles.{ranked_sample, IsTopNear};
ghost use Rattle.hdr_model.specs.Runs.{StandsAt, State};
ghost use Rattle.hdr_model.specs.Samples.{Fits};
ghost use Rattle.hdr_headline.specs.Alike.{BothStandAlike};
ghost use Rattle.hdr_headline.specs.Errors.{IsHeadlineError};

use crate::bytes::through_bytes;
use crate::errors::HeadlineError;
use crate::line::{LineParts, through_line};
use hdrhistogram::serialization::{Deserializer, V2Serializer};
use hdrhistogram::{Call, Counter, Histogram, Quantile};
use std::alloc::Global;

/// The value at a quantile, and what the V2 bytes and the line of the histogram decode to.
#[derive(Drop)]
pub struct Copies<T: Counter> {
    pub value: u64,
    pub from_bytes: Histogram<T>,
    pub from_line: Histogram<T>,
}

/// Applies calls, and returns the value at a quantile, and what the histogram's V2 bytes and the line of an interval decode
/// to, for the same counter type.
///
/// # Errors
/// Returns the error of the first call that fails, with its index; the effects of the calls before it remain. After all calls
/// it returns the errors of `through_line`.
pub fn headline<T: Counter>(
    alloc: Global,
    histogram: &mut Histogram<T>,
    calls: &[Call<'_, T>],
    interval: LineParts<'_>,
    quantile: Quantile,
) -> Result<Copies<T>, HeadlineError>
    requires { 0 < interval.divisor }
    // If the samples fit after each call: the value, and the counts and each quantile of what is decoded.
    ensures ranked { IfOk result (λ copies. (s t : State) → StandsAt histogram.old s
        → CallsTo T.number (resolution histogram.old) (Fits T.greatest (resolution histogram.old))
        calls.now s t → 0 < length t.samples → 0 < quantile.num
        → IsTopNear histogram.new (ranked_sample quantile t.samples) copies.value) }
    ensures alike { IfOk result (λ copies. (s t : State) → StandsAt histogram.old s
        → CallsTo T.number (resolution histogram.old) (Fits T.greatest (resolution histogram.old))
        calls.now s t
        → BothStandAlike histogram.new copies.from_bytes copies.from_line t.samples) }
    // Unless memory runs out, it fails exactly if a call does, a count is above `i64::MAX`, or a time is out of range.
    ensures ok { OnOk result (histogram.new
        ≡ after_calls T.greatest T.number calls.now histogram.old) }
    ensures accepted { OnOk result (AreAccepted T.greatest T.number calls.now histogram.old) }
    ensures small { OnOk result (All (λ n. n < 2 ^ 63) histogram.new.counts) }
    ensures times { OnOk result (IsTimeInRange (as_nanos interval.entry.start)
        × IsTimeInRange (as_nanos interval.entry.duration)) }
    ensures err { IfErr result (IsHeadlineError T.greatest T.number calls.now
        (as_nanos interval.entry.start) (as_nanos interval.entry.duration) histogram.old
        histogram.new) }
{
    match histogram.apply_all(calls) {
        Ok(()) => {}
        Err(error) => return Err(HeadlineError::Call(error)),
    }
    let value = histogram.value_at_quantile(quantile);
    let mut serializer = V2Serializer::new(alloc);
    let mut deserializer = Deserializer::new(alloc);
    let from_bytes = match through_bytes(histogram, &mut serializer, &mut deserializer) {
        Ok(copy) => copy,
        Err(error) => return Err(error),
    };
    let from_line = match through_line(
        alloc,
        histogram,
        interval,
        &mut serializer,
        &mut deserializer,
    ) {
        Ok(copy) => copy,
        Err(error) => return Err(error),
    };
    Ok(Copies {
        value,
        from_bytes,
        from_line,
    })
}
