//! What an error leaves in the arguments of a call whose result borrows them. The clauses of these calls are starred, and those
//! of the functions here are plain.

ghost use Rattle.std.specs.Prelude.{◌≡◌, ◌↔◌, [], false, IsTrue, IsFalse, OnOk, OnErr, IfErr};
ghost use Rattle.hdrhistogram.specs.LogLeaving.{WritesText, is_time_error};
ghost use Rattle.hdrhistogram.specs.LogStarts.{IsStartText, AreTimesInRange};
ghost use Rattle.hdrhistogram.specs.LogWriters.{sink, serializer_of};
ghost use Rattle.hdrhistogram.specs.SerializeErrors.{IsToBytesError};
ghost use Rattle.hdrhistogram.specs.V2.{IsV2};

use hdrhistogram::serialization::interval_log::{
    IntervalLogWriter, IntervalLogWriterBuilder, IntervalLogWriterError,
};
use hdrhistogram::serialization::{Serializer, V2SerializeError, V2Serializer};
use hdrhistogram::{Counter, Histogram};
use std::io::Write;

/// Ends a log.
fn end<W, S>(log: IntervalLogWriter<'_, '_, W, S>)
    ensures writer { log.exit.0.now ≡ (sink log.entry).now }
    ensures serializer { log.exit.1.0.now ≡ (serializer_of log.entry).now }
{
    drop(log);
}

/// Starts a log, and ends it.
///
/// # Errors
/// Those of `begin_log_with`. At most a part of the start is then written.
pub fn start_and_end<W: Write, S: Serializer>(
    builder: &IntervalLogWriterBuilder,
    writer: &mut W,
    serializer: &mut S,
) -> Result<(), IntervalLogWriterError<S::SerializeError>>
    ensures writer { WritesText (IsStartText builder.now) (λ _. ⊥) (W.contents writer.old)
        (W.contents writer.new) result }
    ensures serializer { serializer.new ≡ serializer.old }
    ensures time { (is_time_error result ≡ false) ↔ AreTimesInRange builder.now }
{
    match builder.begin_log_with(writer, serializer) {
        Ok(log) => {
            end(log);
            Ok(())
        }
        Err(e) => Err(e),
    }
}

/// Starts a log, and ends it. If a time of `first` is out of range, the start is that of `second`.
///
/// # Errors
/// Those of `begin_log_with` for the start that is written.
pub fn start_or_else<W: Write, S: Serializer>(
    first: &IntervalLogWriterBuilder,
    second: &IntervalLogWriterBuilder,
    writer: &mut W,
    serializer: &mut S,
) -> Result<(), IntervalLogWriterError<S::SerializeError>>
    ensures first { AreTimesInRange first.now → WritesText (IsStartText first.now) (λ _. ⊥)
        (W.contents writer.old) (W.contents writer.new) result }
    ensures second { (AreTimesInRange first.now → ⊥) → WritesText (IsStartText second.now) (λ _. ⊥)
        (W.contents writer.old) (W.contents writer.new) result }
    ensures first_time { AreTimesInRange first.now → is_time_error result ≡ false }
    ensures second_time { AreTimesInRange second.now → is_time_error result ≡ false }
    ensures serializer { serializer.new ≡ serializer.old }
{
    match start_and_end(first, writer, serializer) {
        Err(IntervalLogWriterError::TimeOutOfRange) => { start_and_end(second, writer, serializer) }
        result => result,
    }
}

/// Encodes a histogram as the bytes that `serializer` then holds.
///
/// # Errors
/// Those of `to_bytes`. The serializer then holds no bytes.
pub fn encode<T: Counter>(
    serializer: &mut V2Serializer,
    histogram: &Histogram<T>,
) -> Result<(), V2SerializeError>
    ensures ok { OnOk result (IsV2 histogram.now serializer.new) }
    ensures err { OnErr result (serializer.new ≡ []) }
    ensures cause { IfErr result (IsToBytesError histogram.now) }
{
    serializer.to_bytes(histogram)?;
    Ok(())
}

/// Encodes a histogram. Returns whether the serializer then holds its bytes; otherwise it holds none.
pub fn encode_or_empty<T: Counter>(serializer: &mut V2Serializer, histogram: &Histogram<T>) -> bool
    ensures encoded { IsTrue result → IsV2 histogram.now serializer.new }
    ensures empty { IsFalse result → serializer.new ≡ [] }
{
    encode(serializer, histogram).is_ok()
}
