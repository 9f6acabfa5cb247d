//! The start of a log.

ghost use Rattle.std.specs.Prelude.{◌≡◌, ◌≢◌, ◌<◌, ◌++◌, ◌∷◌, [], ◌↔◌, ℕ, List, false, Some, None, Ok, IfOk, OnOk, OnErr, IfErr, MatchOption, map, string_bytes};
ghost use Rattle.std.specs.Borrow.{sem, fsep};
ghost use Rattle.std.specs.List.{flat_map};
ghost use Rattle.std.specs.Option.{option_map};
ghost use Rattle.std.specs.Duration.{as_nanos};
ghost use Rattle.std.specs.Io.KnownBytes.{Appends};
ghost use Rattle.hdr_log.specs.Pieces.{Comment, StartsAt, BasedAt, piece_text, text_of};
ghost use Rattle.hdrhistogram.specs.LogStarts.{new_start, thousandths_set, AreSmall, time_pieces, divisor_pieces, start_pieces, IsStartText, AreTimesInRange};
ghost use Rattle.hdrhistogram.specs.LogLeaving.{WritesText, IsNoSerializeError, is_time_error};
ghost use Rattle.hdrhistogram.specs.LogWriters.{sink, serializer_of, divisor_of};
ghost use Rattle.hdrhistogram.specs.LogLending.{writer_rests, serializer_rests};

use crate::serialization::interval_log::errors::{CommentError, IntervalLogWriterError};
use crate::serialization::interval_log::writer::{IntervalLogWriter, write_text};
use crate::serialization::serializer::Serializer;
use hdr_log::text::{push_base_time, push_comment, push_divisor, push_start_time, thousandths};
use std::alloc::{AllocError, Global};
use std::io::Write;
use std::marker::Model;
use std::time::Duration;

/// Builds the start of a log: comments, and then the headers that are set. To its callers it is
/// these comments and headers.
#[derive(Drop)]
pub struct IntervalLogWriterBuilder {
    alloc: Global,
    comments: Vec<String>,
    start_time: Option<Duration>,
    base_time: Option<Duration>,
    max_value_divisor: u64,
}

impl Model for IntervalLogWriterBuilder {
    ghost use Rattle.std.specs.Prelude.{◌<◌, ◌^◌, map, string_bytes};
    ghost use Rattle.std.specs.Option.{option_map};
    ghost use Rattle.std.specs.Duration.{as_nanos};
    ghost use Rattle.hdrhistogram.specs.LogStarts.{LogStart};

    ghost Value = { LogStart };

    ghost view = { λ b. record {
      comments = map string_bytes b.comments.items;
      start_time = option_map as_nanos b.start_time;
      base_time = option_map as_nanos b.base_time;
      divisor = b.max_value_divisor;
    } };

    ghost invariant = { λ b. (0 < b.max_value_divisor) × (b.max_value_divisor < 2 ^ 64) };
}

impl IntervalLogWriterBuilder {
    /// Creates a builder with no comment and no header. It allocates nothing.
    pub fn new(alloc: Global) -> IntervalLogWriterBuilder
        ensures { result ≡ new_start }
    {
        IntervalLogWriterBuilder {
            alloc,
            comments: Vec::new(alloc),
            start_time: None,
            base_time: None,
            max_value_divisor: 1,
        }
    }

    /// Adds a comment after the earlier ones. Each part of it between line feeds is written on a
    /// line of its own. A part in the form of a header is read as that header.
    ///
    /// # Errors
    /// Returns `OutOfMemory` if the builder could not grow; it is then unchanged.
    pub fn add_comment(&mut self, comment: &str) -> Result<(), CommentError>
        ensures ok { OnOk result (self.new
            ≡ record self.old { comments = self.old.comments ++ comment.now ∷ [] }) }
        ensures err { OnErr result (self.new ≡ self.old) }
    {
        let comment = String::from_str(self.alloc, comment).map_err(|_| CommentError::OutOfMemory)?;
        self.comments
            .push(comment)
            .map_err(|_| CommentError::OutOfMemory)
    }

    /// Sets the start time, since the epoch. The last call counts.
    pub fn with_start_time(&mut self, time: Duration) -> &mut Self
        ensures same_borrow { result.ghost_name ≡ self.entry.ghost_name }
        ensures set { result.now ≡ record self.old { start_time = Some (as_nanos time) } }
    {
        self.start_time = Some(time);
        self
    }

    /// Sets the base time, since the epoch, from which the times of intervals count. The last call counts.
    pub fn with_base_time(&mut self, time: Duration) -> &mut Self
        ensures same_borrow { result.ghost_name ≡ self.entry.ghost_name }
        ensures set { result.now ≡ record self.old { base_time = Some (as_nanos time) } }
    {
        self.base_time = Some(time);
        self
    }

    /// Sets the divisor of the greatest values in the log, which is at least 1. It is 1 if it is
    /// not set. The last call counts.
    pub fn with_max_value_divisor(&mut self, divisor: u64) -> &mut Self
        requires { 0 < divisor }
        ensures same_borrow { result.ghost_name ≡ self.entry.ghost_name }
        ensures set { result.now ≡ record self.old { divisor = divisor } }
    {
        self.max_value_divisor = divisor;
        self
    }

    /// Writes the comments in order, and then the headers that are set: start time, base time, and
    /// a divisor other than 1. If nothing is set, it writes nothing and succeeds.
    ///
    /// # Errors
    /// Returns `TimeOutOfRange` if the seconds of a time do not fit a `u64`, before anything is
    /// allocated. Returns `OutOfMemory` if the output, which is built before it is written, can't
    /// be allocated. Returns `IoError` if the writer fails; a proper prefix of the output is then
    /// written. After the other errors nothing is written.
    pub fn write_headers<W: Write, E>(
        &self,
        writer: &mut W,
    ) -> Result<(), IntervalLogWriterError<E>>
        ensures leaves { WritesText (IsStartText self.now) (λ _. ⊥) (W.contents writer.old)
            (W.contents writer.new) result }
        ensures time { (is_time_error result ≡ false) ↔ AreTimesInRange self.now }
        ensures plain { self.now ≡ new_start → result ≡ Ok tt }
    {
        let Some(start_time) = header_time(self.start_time) else {
            return Err(IntervalLogWriterError::TimeOutOfRange);
        };
        let Some(base_time) = header_time(self.base_time) else {
            return Err(IntervalLogWriterError::TimeOutOfRange);
        };
        let mut text = Vec::new(self.alloc);
        match push_start(
            &mut text,
            &self.comments,
            start_time,
            base_time,
            self.max_value_divisor,
        ) {
            Ok(()) => write_text(writer, &text),
            Err(_) => Err(IntervalLogWriterError::OutOfMemory),
        }
    }

    /// Starts a log: calls `write_headers`, and then `IntervalLogWriter::new`, whose writer borrows
    /// `writer` and `serializer` until it is dropped.
    ///
    /// # Errors
    /// Those of `write_headers`, with the same output. After an error `serializer` is unchanged.
    /// The clause `left` says both. It is starred, so a caller's proof can use it only by hand.
    pub fn begin_log_with<'a, 'b, W: Write, S: Serializer>(
        &self,
        writer: &'a mut W,
        serializer: &'b mut S,
    ) -> Result<IntervalLogWriter<'a, 'b, W, S>, IntervalLogWriterError<S::SerializeError>>
        ensures* left { sem 𝓛 (fsep (writer_rests W.row W.contents self.now writer.entry result)
            (serializer_rests S.row serializer.entry result)) }
        ensures writer { IfOk result (λ log. (sink log).ghost_name ≡ writer.entry.ghost_name) }
        ensures serializer { IfOk result (λ log. (serializer_of log).ghost_name
            ≡ serializer.entry.ghost_name) }
        ensures written { IfOk result (λ log. (text : List ℕ) × IsStartText self.now text
            × Appends (W.contents writer.old) (W.contents (sink log).now) text) }
        ensures lent { IfOk result (λ log. ((serializer_of log).now ≡ serializer.old)
            × (divisor_of log ≡ self.now.divisor)) }
        ensures time { (is_time_error result ≡ false) ↔ AreTimesInRange self.now }
        ensures plain { self.now ≡ new_start → IfErr result (λ _. ⊥) }
        ensures no_serialize_error { IfErr result IsNoSerializeError }
    {
        match self.write_headers(writer) {
            Ok(()) => Ok(self.continue_log(writer, serializer)),
            Err(e) => Err(e),
        }
    }

    /// Creates the writer of a log whose start is written.
    fn continue_log<'a, 'b, W: Write, S: Serializer>(
        &self,
        writer: &'a mut W,
        serializer: &'b mut S,
    ) -> IntervalLogWriter<'a, 'b, W, S>
        ensures writer { (sink result).ghost_name ≡ writer.entry.ghost_name }
        ensures serializer { (serializer_of result).ghost_name ≡ serializer.entry.ghost_name }
        ensures holds { (sink result).now ≡ writer.old }
        ensures lent { ((serializer_of result).now ≡ serializer.old)
            × (divisor_of result ≡ self.now.divisor) }
    {
        let divisor = self.max_value_divisor;
        IntervalLogWriter::new(self.alloc, writer, serializer, divisor)
    }
}

/// Converts the time of a header, if it is set, to thousandths of a second. Returns `None` if its
/// seconds do not fit a `u64`.
fn header_time(time: Option<Duration>) -> Option<Option<u128>>
    ensures value { MatchOption result (AreSmall (thousandths_set (option_map as_nanos time)) → ⊥)
        (λ t. (t ≡ thousandths_set (option_map as_nanos time)) × AreSmall t) }
{
    let Some(time) = time else {
        return Some(None);
    };
    Some(Some(thousandths(time)?))
}

/// Appends comments, in order.
fn push_comments(text: &mut Vec<u8>, comments: &[String]) -> Result<(), AllocError>
    ensures pushed { OnOk result (text.new.items ≡ text.old.items
        ++ flat_map (λ comment. piece_text (Comment (string_bytes comment))) comments.now) }
    ensures memory { OnErr result (comments.now ≢ []) }
{
    for comment in comments {
        push_comment(text, comment.as_str())?;
    }
    Ok(())
}

/// Appends the headers that are set.
fn push_headers(
    text: &mut Vec<u8>,
    start_time: Option<u128>,
    base_time: Option<u128>,
    divisor: u64,
) -> Result<(), AllocError>
    requires start { AreSmall start_time }
    requires base { AreSmall base_time }
    ensures pushed { OnOk result (text.new.items ≡ text.old.items
        ++ (text_of (time_pieces StartsAt start_time) ++ (text_of (time_pieces BasedAt base_time)
        ++ text_of (divisor_pieces divisor)))) }
    ensures memory { (start_time ≡ None) → (base_time ≡ None) → (divisor ≡ 1)
        → result ≡ Ok tt }
{
    if let Some(time) = start_time {
        push_start_time(text, time)?;
    }
    if let Some(time) = base_time {
        push_base_time(text, time)?;
    }
    if divisor != 1 {
        push_divisor(text, divisor)?;
    }
    Ok(())
}

/// Appends comments, in order, and then the headers that are set.
fn push_start(
    text: &mut Vec<u8>,
    comments: &[String],
    start_time: Option<u128>,
    base_time: Option<u128>,
    divisor: u64,
) -> Result<(), AllocError>
    requires start { AreSmall start_time }
    requires base { AreSmall base_time }
    ensures pushed { OnOk result (text.new.items ≡ text.old.items ++ text_of
        (start_pieces (map string_bytes comments.now) start_time base_time divisor)) }
    ensures memory { (comments.now ≡ []) → (start_time ≡ None) → (base_time ≡ None)
        → (divisor ≡ 1) → result ≡ Ok tt }
{
    push_comments(text, comments)?;
    push_headers(text, start_time, base_time, divisor)
}
