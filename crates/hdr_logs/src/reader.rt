//! A log that is read line by line.

ghost use Rattle.std.specs.Prelude.{◌≡◌, ◌+◌, ◌-◌, ◌^◌, ◌++◌, ℕ, min, false, List, [], Ok, IfOk, IfErr, OnOk, OnErr, IfSome, IsSome};
ghost use Rattle.std.specs.Io.KnownBytes.{IsAtEnd};
ghost use Rattle.hdrhistogram.specs.Chosen.{view_of_interval_choice};
ghost use Rattle.hdr_convert.specs.declared.bytes.Form.{Form};
ghost use Rattle.hdr_logs.specs.Conversion.{LogBecomes, UnreadBecomes, ConvertsLine};
ghost use Rattle.hdr_logs.specs.Errors.{IsIntervalError};
ghost use Rattle.hdr_logs.specs.Intervals.{LogInterval, LogHolds};
ghost use Rattle.hdr_logs.specs.Reading.{intervals_of_line, place_of, next_place_of, unread, HasScale, IsEnd, UnreadHold, IsKnown};

use crate::conversion::push_line;
use crate::errors::LogError;
use crate::interval::{Interval, chooses, tag_of};
use crate::lines::read_line;
use crate::note::Note;
use crate::parser::LogParser;
use crate::place::Place;
use crate::plain::plain_field;
use hdr_convert::Form;
use hdr_input::lines::without_mark;
use hdrhistogram::serialization::interval_log::IntervalChoice;
use std::alloc::Global;
use std::io::{BufReader, Read};

/// The memory of a line.
#[derive(Drop)]
pub struct LineBuffer {
    /// The line with its LF.
    line: Vec<u8>,
    /// Its histogram, if it was converted.
    plain: Vec<u8>,
}

impl LineBuffer {
    /// Returns the memory of no line yet.
    pub fn new(alloc: Global) -> LineBuffer {
        LineBuffer {
            line: Vec::new(alloc),
            plain: Vec::new(alloc),
        }
    }
}

/// What the next line of a log is.
#[derive(Drop)]
pub enum LogLine<'a> {
    /// A chosen interval.
    Chosen(Interval<'a>),
    /// An interval that is not chosen, or a line without one.
    Other,
    /// The end of the log.
    End,
}

/// A log that is read line by line.
#[derive(Drop)]
pub struct LogReader<'c, R> {
    reader: BufReader<R>,
    parser: LogParser,
    choice: IntervalChoice<'c>,
}

impl<'c, R: Read + Drop> LogReader<'c, R> {
    /// Returns a reader of the file of this index, of which nothing is read yet.
    ///
    /// # Errors
    /// Returns an error if an allocation fails.
    pub fn new(
        alloc: Global,
        file: usize,
        reader: R,
        choice: IntervalChoice<'c>,
    ) -> Result<LogReader<'c, R>, LogError>
        ensures log { IfOk result (λ log. (all : List LogInterval) → UnreadHold R.remaining log all
            → IfSome (R.remaining reader) (λ text. LogHolds (view_of_interval_choice choice.entry) text all)) }
        ensures conversion { IfOk result (λ log. (form : Form) (text : List ℕ) → UnreadBecomes R.remaining form log text
            → IfSome (R.remaining reader) (λ old. LogBecomes form (view_of_interval_choice choice.entry) old text)) }
        ensures known { IfOk result (λ log. IsSome (R.remaining reader) → IsKnown R.remaining log) }
        ensures file { IfOk result (λ log. (place_of log).file ≡ file) }
    {
        match BufReader::new(alloc, reader) {
            Ok(reader) => Ok(LogReader {
                reader,
                parser: LogParser::new(alloc, file),
                choice,
            }),
            Err(_) => Err(LogError::OutOfMemory),
        }
    }

    /// Reads the next line into `buffer`, and returns its interval if it has one that is chosen.
    ///
    /// # Errors
    /// Returns an error if the line is invalid or too long, if its histogram is chosen and is not
    /// converted, if the reader fails, or if an allocation fails.
    pub fn next_line<'a>(
        &mut self,
        alloc: Global,
        buffer: &'a mut LineBuffer,
    ) -> Result<LogLine<'a>, LogError>
        ensures errors { IfErr result (IsIntervalError (next_place_of self.old)) }
        ensures intervals { IfOk result (λ line. (rest : List LogInterval)
            → UnreadHold R.remaining self.new rest
            → UnreadHold R.remaining self.old (intervals_of_line line ++ rest)) }
        ensures end { IfOk result (λ line. IsEnd line → IsKnown R.remaining self.old
            → UnreadHold R.remaining self.new []) }
        ensures known { OnOk result (IsKnown R.remaining self.old → IsKnown R.remaining self.new) }
        ensures file { (place_of self.new).file ≡ (place_of self.old).file }
        ensures scale { IfOk result (HasScale self.new) }
    {
        let next = self.next_place();
        if !read_line(alloc, &mut self.reader, &mut buffer.line, next)? {
            return Ok(LogLine::End);
        }
        let Some(timed) = self.parser.parse_line(alloc, &buffer.line)? else {
            return Ok(LogLine::Other);
        };
        if !chooses(&self.choice, &timed) {
            return Ok(LogLine::Other);
        }
        let field = timed.interval.encoded_histogram();
        match plain_field(alloc, field, &mut buffer.plain) {
            Ok(field) => Ok(LogLine::Chosen(Interval {
                time: timed.time,
                tag: tag_of(&timed.interval),
                duration: timed.interval.duration(),
                field,
                decimals: self.parser.decimals,
                unit: self.parser.unit,
                place: next,
            })),
            Err(cause) => Err(LogError::of_conversion(next, cause)),
        }
    }

    /// Reads the next line into `buffer`, and appends it to `output`, with its histogram in `form`.
    /// Intervals that are not chosen, and a last line that is not read, are left out. Returns
    /// whether there was a line.
    ///
    /// # Errors
    /// As `next_line`. `output` is then unchanged.
    pub fn convert_line(
        &mut self,
        alloc: Global,
        form: Form,
        buffer: &mut LineBuffer,
        output: &mut Vec<u8>,
    ) -> Result<bool, LogError>
        ensures errors { IfErr result (IsIntervalError (next_place_of self.old)) }
        ensures line { OnOk result (ConvertsLine R.remaining form self.old self.new output.old.items
            output.new.items) }
        ensures end { result ≡ Ok false → IsAtEnd (unread R.remaining self.old)
            × (output.new.items ≡ output.old.items) }
        ensures rest { result ≡ Ok false → IsKnown R.remaining self.old
            → UnreadBecomes R.remaining form self.new [] }
        ensures known { OnOk result (IsKnown R.remaining self.old → IsKnown R.remaining self.new) }
        ensures err { OnErr result (output.new.items ≡ output.old.items) }
    {
        let next = self.next_place();
        if !read_line(alloc, &mut self.reader, &mut buffer.line, next)? {
            return Ok(false);
        }
        let timed = self.parser.parse_line(alloc, &buffer.line)?;
        let line = without_mark(&buffer.line, next.line);
        match push_line(alloc, &self.choice, form, line, timed, output) {
            Ok(()) => Ok(true),
            Err(cause) => Err(LogError::of_conversion(next, cause)),
        }
    }

    /// The number of the next line, and its file.
    fn next_place(&self) -> Place
        ensures line { result.line ≡ min (self.now.parser.place.line + 1) (2 ^ 64 - 1) }
        ensures file { result.file ≡ self.now.parser.place.file }
    {
        Place {
            line: self.parser.place.line.saturating_add(1),
            ..self.parser.place
        }
    }

    /// Whether all that was read from the reader is taken, so that the next line waits for it.
    pub fn is_drained(&self) -> bool {
        self.reader.buffer().is_empty()
    }

    /// The line that was read last.
    pub fn place(&self) -> Place
        ensures { result ≡ place_of self.now }
    {
        self.parser.place
    }

    /// The lines so far that are not read, at most 100 of them.
    pub fn notes(&self) -> &[Note] {
        &self.parser.notes
    }
}
