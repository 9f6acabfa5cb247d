//! The writer of a log.

mod v2;

ghost use Rattle.std.specs.Prelude.{◌≡◌, ◌<◌, ◌^◌, ◌↔◌, true, false, IfErr};
ghost use Rattle.std.specs.Option.{option_map};
ghost use Rattle.std.specs.Duration.{as_nanos};
ghost use Rattle.hdr_log.specs.Tags.{tag_text};
ghost use Rattle.hdr_log.specs.Texts.{IsTimeInRange};
ghost use Rattle.hdr_log.specs.Pieces.{Comment, piece_text};
ghost use Rattle.hdrhistogram.specs.LogLeaving.{WritesText, IsIoError, is_time_error};

use crate::serialization::interval_log::buffer::serialized;
use crate::serialization::interval_log::errors::IntervalLogWriterError;
use crate::serialization::serializer::Serializer;
use crate::serialization::streams::write_all;
use hdr_base::Counter;
use hdr_core::Histogram;
use hdr_log::Tag;
use hdr_log::text::{push_comment, push_interval, scaled, thousandths};
use std::alloc::Global;
use std::io::Write;
use std::time::Duration;

/// Writes an interval log, which `IntervalLogWriterBuilder` starts. After an error it can be used
/// again.
pub struct IntervalLogWriter<'a, 'b, W, S> {
    writer: &'a mut W,
    serializer: &'b mut S,
    max_value_divisor: u64,
    alloc: Global,
    ghost divides: { 0 < max_value_divisor },
}

/// Writes all of `text`.
pub(crate) fn write_text<W: Write, E>(
    writer: &mut W,
    text: &[u8],
) -> Result<(), IntervalLogWriterError<E>>
    ensures leaves { WritesText (λ t. t ≡ text.now) (λ _. ⊥) (W.contents writer.old)
        (W.contents writer.new) result }
    ensures failed { IfErr result IsIoError }
    ensures time { is_time_error result ≡ false }
{
    write_all(writer, text)?;
    Ok(())
}

impl<'a, 'b, W: Write, S: Serializer> IntervalLogWriter<'a, 'b, W, S> {
    ghost use Rattle.hdrhistogram.specs.LogWriters.{sink, serializer_of, divisor_of, IsSameLog, IsLineFor};

    /// Creates a writer that continues a log. Greatest values are divided by `max_value_divisor`,
    /// which is at least 1. The call writes nothing, not even the divisor's header.
    pub fn new(
        alloc: Global,
        writer: &'a mut W,
        serializer: &'b mut S,
        max_value_divisor: u64,
    ) -> IntervalLogWriter<'a, 'b, W, S>
        requires { 0 < max_value_divisor }
        ensures writer { (sink result).ghost_name ≡ writer.entry.ghost_name }
        ensures serializer { (serializer_of result).ghost_name ≡ serializer.entry.ghost_name }
        ensures holds { (sink result).now ≡ writer.old }
        ensures makes { (serializer_of result).now ≡ serializer.old }
        ensures divisor { divisor_of result ≡ max_value_divisor }
    {
        IntervalLogWriter {
            writer,
            serializer,
            max_value_divisor,
            alloc,
        }
    }

    /// Writes a comment, each part of it between line feeds on a line of its own. A part in the
    /// form of a header is read as that header.
    ///
    /// # Errors
    /// Returns `OutOfMemory` if the lines, which are built before they are written, can't be
    /// allocated; nothing is then written. Returns `IoError` if the writer fails; a proper prefix
    /// of the lines is then written.
    pub fn write_comment(
        &mut self,
        comment: &str,
    ) -> Result<(), IntervalLogWriterError<S::SerializeError>>
        ensures same_log { IsSameLog self.old self.new }
        ensures unchanged { (serializer_of self.new).now ≡ (serializer_of self.old).now }
        ensures leaves { WritesText (λ text. text ≡ piece_text (Comment comment.now)) (λ _. ⊥)
            (W.contents (sink self.old).now) (W.contents (sink self.new).now) result }
        ensures time { is_time_error result ≡ false }
    {
        let mut text = Vec::new(self.alloc);
        push_comment(&mut text, comment).map_err(|_| IntervalLogWriterError::OutOfMemory)?;
        write_text(self.writer, &text)
    }

    /// Writes one interval: its tag, its start, its duration, its greatest value over the divisor,
    /// and its bytes in Base64. The start counts from the log's base time, or from the epoch if
    /// there is none. Times are rounded to milliseconds, and the greatest value to thousandths.
    ///
    /// # Errors
    /// Returns `TimeOutOfRange` if the seconds of a time do not fit a `u64`; the serializer isn't
    /// called then. Returns `SerializeError` with the serializer's own error. Returns `OutOfMemory`
    /// if the bytes or the line, which is built before it is written, can't be allocated. Returns
    /// `IoError` if the writer fails; a proper prefix of the line is then written. After every
    /// other error nothing is written.
    pub fn write_histogram<T: Counter>(
        &mut self,
        h: &Histogram<T>,
        start_timestamp: Duration,
        duration: Duration,
        tag: Option<Tag<'_>>,
    ) -> Result<(), IntervalLogWriterError<S::SerializeError>>
        ensures same_log { IsSameLog self.old self.new }
        ensures leaves { WritesText (IsLineFor self.old S.writes h.now tag.entry start_timestamp
            duration) (S.may_fail_with h.now) (W.contents (sink self.old).now)
            (W.contents (sink self.new).now) result }
        ensures early { is_time_error result ≡ true → (serializer_of self.new).now ≡ (serializer_of self.old).now }
        ensures time { (is_time_error result ≡ false)
            ↔ (IsTimeInRange (as_nanos start_timestamp) × IsTimeInRange (as_nanos duration)) }
    {
        let start = thousandths(start_timestamp).ok_or(IntervalLogWriterError::TimeOutOfRange)?;
        let duration = thousandths(duration).ok_or(IntervalLogWriterError::TimeOutOfRange)?;
        let bytes = match serialized(self.alloc, self.serializer, h) {
            Ok(bytes) => bytes,
            Err(e) => return Err(e),
        };
        let max = scaled(h.max(), self.max_value_divisor);
        let mut text = Vec::new(self.alloc);
        if push_interval(&mut text, tag, start, duration, max, &bytes).is_err() {
            return Err(IntervalLogWriterError::OutOfMemory);
        }
        write_text(self.writer, &text)
    }
}

impl<W, S> Drop for IntervalLogWriter<'_, '_, W, S> {
    ghost use Rattle.hdrhistogram.specs.LogWriters.{sink, serializer_of};

    fn drop(self)
        ensures writer { self.exit.0.now ≡ (sink self.entry).now }
        ensures serializer { self.exit.1.0.now ≡ (serializer_of self.entry).now }
    {
        let IntervalLogWriter {
            writer: _,
            serializer: _,
            max_value_divisor: _,
            alloc: _,
        } = self;
    }
}
