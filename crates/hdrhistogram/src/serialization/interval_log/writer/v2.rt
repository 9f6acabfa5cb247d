//! Intervals with V2 bytes, which are not copied before they are written.

ghost use Rattle.std.specs.Prelude.{◌≡◌, ◌↔◌, true, false, Some, IfOk, OnErr, IfErr, vec_items};
ghost use Rattle.std.specs.Duration.{as_nanos};
ghost use Rattle.hdr_log.specs.Texts.{IsTimeInRange};
ghost use Rattle.hdrhistogram.specs.LogLeaving.{WritesText, IsV2LineError, is_time_error};
ghost use Rattle.hdrhistogram.specs.LogWriters.{sink, serializer_of, divisor_of, IsSameLog, IsLineFor};
ghost use Rattle.hdrhistogram.specs.V2.{IsV2, HasTooGreatCount};

use crate::serialization::errors::CountNotSerializable;
use crate::serialization::interval_log::errors::IntervalLogWriterError;
use crate::serialization::interval_log::writer::{IntervalLogWriter, write_text};
use crate::serialization::v2_serializer::{V2SerializeError, V2Serializer};
use hdr_base::Counter;
use hdr_core::Histogram;
use hdr_log::Tag;
use hdr_log::text::{push_interval, scaled, thousandths};
use std::io::Write;
use std::time::Duration;

impl<'a, 'b, W: Write> IntervalLogWriter<'a, 'b, W, V2Serializer> {
    /// As `write_histogram`, but the V2 bytes are not copied before they are written, and its errors
    /// are fewer.
    ///
    /// # Errors
    /// Returns `SerializeError` if a count is above `i64::MAX`. Returns `OutOfMemory` also if the
    /// serializer's buffer can't grow. The others are those of `write_histogram`, and leave what it
    /// leaves.
    pub fn write_v2<T: Counter>(
        &mut self,
        h: &Histogram<T>,
        start_timestamp: Duration,
        duration: Duration,
        tag: Option<Tag<'_>>,
    ) -> Result<(), IntervalLogWriterError<CountNotSerializable>>
        ensures same_log { IsSameLog self.old self.new }
        ensures leaves { WritesText (IsLineFor self.old IsV2 h.now tag.entry start_timestamp duration)
            (λ _. HasTooGreatCount h.now) (W.contents (sink self.old).now)
            (W.contents (sink self.new).now) result }
        ensures early { is_time_error result ≡ true → (serializer_of self.new).now ≡ (serializer_of self.old).now }
        ensures time { (is_time_error result ≡ false)
            ↔ (IsTimeInRange (as_nanos start_timestamp) × IsTimeInRange (as_nanos duration)) }
    {
        let line = self.v2_line(h, start_timestamp, duration, tag)?;
        write_text(self.writer, &line)
    }
}

impl<'a, 'b> IntervalLogWriter<'a, 'b, Vec<u8>, V2Serializer> {
    /// As `write_v2`, for a log in memory.
    ///
    /// # Errors
    /// Those of `write_v2` but `IoError`: if the log can't grow, it is `OutOfMemory`. After each error
    /// the log is unchanged.
    pub fn push_v2<T: Counter>(
        &mut self,
        h: &Histogram<T>,
        start_timestamp: Duration,
        duration: Duration,
        tag: Option<Tag<'_>>,
    ) -> Result<(), IntervalLogWriterError<CountNotSerializable>>
        ensures same_log { IsSameLog self.old self.new }
        ensures leaves { WritesText (IsLineFor self.old IsV2 h.now tag.entry start_timestamp duration)
            (λ _. HasTooGreatCount h.now) (Some (sink self.old).now.items)
            (Some (sink self.new).now.items) result }
        ensures err { IfErr result (IsV2LineError h.now (as_nanos start_timestamp) (as_nanos duration)) }
        ensures unchanged { OnErr result ((sink self.new).now.items ≡ (sink self.old).now.items) }
        ensures time { (is_time_error result ≡ false)
            ↔ (IsTimeInRange (as_nanos start_timestamp) × IsTimeInRange (as_nanos duration)) }
    {
        let line = self.v2_line(h, start_timestamp, duration, tag)?;
        self.writer
            .extend_from_slice(&line)
            .map_err(|_| IntervalLogWriterError::OutOfMemory)
    }
}

impl<'a, 'b, W> IntervalLogWriter<'a, 'b, W, V2Serializer> {
    /// Returns the line of an interval, without writing it.
    fn v2_line<T: Counter>(
        &mut self,
        h: &Histogram<T>,
        start_timestamp: Duration,
        duration: Duration,
        tag: Option<Tag<'_>>,
    ) -> Result<Vec<u8>, IntervalLogWriterError<CountNotSerializable>>
        ensures same_log { IsSameLog self.old self.new }
        ensures unwritten { (sink self.new).now ≡ (sink self.old).now }
        ensures line { IfOk result (λ line. IsLineFor self.old IsV2 h.now tag.entry start_timestamp
            duration (vec_items line)) }
        ensures err { IfErr result (IsV2LineError h.now (as_nanos start_timestamp) (as_nanos duration)) }
        ensures early { is_time_error result ≡ true → (serializer_of self.new).now ≡ (serializer_of self.old).now }
        ensures time { (is_time_error result ≡ false)
            ↔ (IsTimeInRange (as_nanos start_timestamp) × IsTimeInRange (as_nanos duration)) }
    {
        let start = thousandths(start_timestamp).ok_or(IntervalLogWriterError::TimeOutOfRange)?;
        let duration = thousandths(duration).ok_or(IntervalLogWriterError::TimeOutOfRange)?;
        let max = scaled(h.max(), self.max_value_divisor);
        let mut line = Vec::new(self.alloc);
        let bytes = match self.serializer.to_bytes(h) {
            Ok(bytes) => bytes,
            Err(V2SerializeError::CountNotSerializable) => {
                return Err(IntervalLogWriterError::SerializeError(CountNotSerializable));
            }
            Err(V2SerializeError::OutOfMemory) => return Err(IntervalLogWriterError::OutOfMemory),
            Err(V2SerializeError::UsizeTypeTooSmall) => unreachable!(),
            Err(V2SerializeError::IoError(_)) => unreachable!(),
        };
        if push_interval(&mut line, tag, start, duration, max, bytes).is_err() {
            return Err(IntervalLogWriterError::OutOfMemory);
        }
        Ok(line)
    }
}
