//! The lines of a log, parsed after those before them.

ghost use Rattle.std.specs.Prelude.{◌≡◌, ◌==◌, ◌+◌, ◌-◌, ◌^◌, None, min, true, false, IfOk, IfErr, Option};
ghost use Rattle.std.specs.Option.{option_map, option_or};
ghost use Rattle.std.specs.List.{list_all};
ghost use Rattle.std.specs.Char.{is_ascii_whitespace};
ghost use Rattle.hdr_log.specs.Grammar.{Entry, Span, entry_of};
ghost use Rattle.hdr_log.specs.Reading.{view_of_entry, view_of_interval, view_of_timed};
ghost use Rattle.hdr_input.specs.Lines.{without_mark};
ghost use Rattle.hdr_logs.specs.Comments.{decimals_in, unit_in};
ghost use Rattle.hdr_logs.specs.Errors.{IsReadError};
ghost use Rattle.hdr_logs.specs.Entries.{IsEntry, IsUnended, HoldsHistogram, IsCompleteV2, is_ended, is_left_out, base_then, interval_then};

use crate::errors::LogError;
use crate::headers::{Header, header_of, invalid_header};
use crate::note::{Note, NoteKind};
use crate::place::Place;
use crate::plain::plain_field;
use hdr_convert::ConvertError;
use hdr_input::Unit;
use hdr_input::errors::excerpt;
use hdr_input::lines::without_mark;
use hdr_log::line::entry;
use hdr_log::{LastBaseTime, TimedInterval};
use hdrhistogram::Histogram;
use hdrhistogram::serialization::interval_log::{
    IntervalLogHistogram, IntervalLogIterator, LogEntry,
};
use hdrhistogram::serialization::{Deserializer, FieldDecodeError};
use std::alloc::{AllocError, Global};

/// The most notes of a log that are kept.
const MOST_NOTES: usize = 100;

/// What the lines of a log so far say of those after them.
#[derive(Drop)]
pub struct LogParser {
    base: LastBaseTime,
    /// The decimals of the last comment so far that has them.
    pub decimals: Option<u32>,
    /// The unit of the last comment so far that has one.
    pub unit: Option<Unit>,
    /// The last line.
    pub place: Place,
    /// The lines so far that are not read, at most `MOST_NOTES` of them.
    pub notes: Vec<Note>,
}

/// Whether a line has only whitespace.
fn is_blank(line: &[u8]) -> bool
    ensures { result ≡ list_all is_ascii_whitespace line.now }
{
    line.iter().all(|byte| byte.is_ascii_whitespace())
}

/// Whether a line ends with an LF.
fn is_ended(line: &[u8]) -> bool
    ensures { result ≡ is_ended line.now }
{
    line.ends_with(b"\n")
}

/// Whether a line without an interval is left out: it has no LF, and is not blank.
pub(crate) fn is_left_out(line: &[u8]) -> bool
    ensures { result ≡ is_left_out line.now }
{
    !is_ended(line) && !is_blank(line)
}

/// Returns why a line without an interval is not read, if it is not. A comment may have what is said
/// of values.
fn note_of(line: &[u8], header: Option<Header>) -> Option<NoteKind> {
    if is_left_out(line) {
        return Some(NoteKind::NoEnd);
    }
    match header {
        Some(_) => None,
        None => invalid_header(line),
    }
}

/// Whether a field holds a complete histogram.
fn is_whole(alloc: Global, field: &str) -> Result<bool, AllocError>
    ensures whole { IfOk result (λ is_whole. is_whole ≡ true → HoldsHistogram field.now) }
    ensures incomplete { IfOk result (λ is_whole. is_whole ≡ false → IsCompleteV2 field.now → ⊥) }
{
    let mut buffer = Vec::new(alloc);
    let plain = match plain_field(alloc, field, &mut buffer) {
        Ok(plain) => plain,
        Err(ConvertError::OutOfMemory) => return Err(AllocError),
        Err(_) => return Ok(false),
    };
    let histogram: Result<Histogram<u64>, FieldDecodeError> = Deserializer::new(alloc).decode_field(
        plain,
    );
    match histogram {
        Ok(_) => Ok(true),
        Err(FieldDecodeError::OutOfMemory) => Err(AllocError),
        Err(_) => Ok(false),
    }
}

/// Returns the interval of a line without an LF, if its histogram is complete.
fn unended_interval(
    alloc: Global,
    line: &[u8],
) -> Result<Option<IntervalLogHistogram<'_>>, AllocError>
    ensures { IfOk result (λ interval. IsUnended line.now
        (option_map (λ i. Span (view_of_interval i)) interval)) }
{
    let Some(LogEntry::Interval(interval)) = entry(line) else {
        return Ok(None);
    };
    if is_whole(alloc, interval.encoded_histogram())? {
        Ok(Some(interval))
    } else {
        Ok(None)
    }
}

/// The bytes that a file compressed by gzip begins with, and no line of a log.
const GZIP: [u8; 2] = [0x1f, 0x8b];

/// Returns the entry of a line without a byte order mark. Comments, other headers and blank lines
/// have none.
#[tactic(auto, unfolding(crate::specs::Entries::entry_of_line))]
fn entry_of(alloc: Global, line: &[u8], place: Place) -> Result<Option<LogEntry<'_>>, LogError>
    ensures entry { IfOk result (λ entry. IsEntry line.now (option_map view_of_entry entry)) }
    ensures errors { IfErr result (IsReadError place) }
{
    if is_blank(line) {
        return Ok(None);
    }
    if line.starts_with(&GZIP) {
        return Err(LogError::Gzip(place));
    }
    if !is_ended(line) {
        if !may_begin_line(line) {
            return Err(not_a_line(alloc, line, place));
        }
        let interval = unended_interval(alloc, line)?;
        return Ok(interval.map(LogEntry::Interval));
    }
    match IntervalLogIterator::new(line).next() {
        None => Ok(None),
        Some(Ok(entry)) => Ok(Some(entry)),
        Some(Err(_)) => Err(not_a_line(alloc, line, place)),
    }
}

/// Whether a line of a log may begin so: with a digit, a tag, a comment or the names of its fields.
fn may_begin_line(line: &[u8]) -> bool {
    matches!(
        line.trim_ascii_start(),
        [b'0'..=b'9' | b'.' | b'T' | b'#' | b'"', ..]
    )
}

/// Returns the error of a line that is not one of a log.
fn not_a_line(alloc: Global, line: &[u8], place: Place) -> LogError
    ensures { IsReadError place result }
{
    match excerpt(alloc, line.trim_ascii()) {
        Ok(text) if place.line == 1 => LogError::NotALog { place, text },
        Ok(text) => LogError::NotALine { place, text },
        Err(_) => LogError::OutOfMemory,
    }
}

impl LogParser {
    /// Returns the state before the first line of the file of this index. Intervals begin at the
    /// epoch until a line has a base time.
    pub fn new(alloc: Global, file: usize) -> LogParser
        ensures base { result.base ≡ None }
        ensures file { result.place.file ≡ file }
        ensures line { result.place.line ≡ 0 }
    {
        LogParser {
            base: LastBaseTime::new(),
            decimals: None,
            unit: None,
            place: Place { file, line: 0 },
            notes: Vec::new(alloc),
        }
    }

    /// Parses the next line, which has its LF unless it is the last one. Returns its interval with
    /// the time at which it begins, if it has one.
    ///
    /// # Errors
    /// Returns an error if the line is neither an interval nor a line that is skipped.
    pub fn parse_line<'a>(
        &mut self,
        alloc: Global,
        line: &'a [u8],
    ) -> Result<Option<TimedInterval<'a>>, LogError>
        ensures file { self.new.place.file ≡ self.old.place.file }
        ensures line { self.new.place.line ≡ min (self.old.place.line + 1) (2 ^ 64 - 1) }
        ensures errors { IfErr result (IsReadError self.new.place) }
        ensures interval { IfOk result (λ timed. (entry : Option Entry)
            × IsEntry (without_mark (self.old.place.line == 0) line.now) entry
            × (self.new.base ≡ base_then self.old.base entry)
            × (option_map view_of_timed timed ≡ interval_then self.old.base entry)) }
    {
        self.place.line = self.place.line.saturating_add(1);
        let line = without_mark(line, self.place.line);
        match entry_of(alloc, line, self.place)? {
            Some(entry) => Ok(self.base.timed(entry)),
            None => {
                let header = header_of(line);
                self.take_header(header);
                if let Some(kind) = note_of(line, header) {
                    self.push_note(kind)?;
                }
                Ok(None)
            }
        }
    }

    /// Takes the decimals or the unit of a comment, if it has them.
    fn take_header(&mut self, header: Option<Header>)
        ensures base { self.new.base ≡ self.old.base }
        ensures place { self.new.place ≡ self.old.place }
        ensures decimals { self.new.decimals ≡ option_or (decimals_in header) self.old.decimals }
        ensures unit { self.new.unit ≡ option_or (unit_in header) self.old.unit }
    {
        match header {
            Some(Header::Decimals(decimals)) => self.decimals = Some(decimals),
            Some(Header::Unit(unit)) => self.unit = Some(unit),
            None => {}
        }
    }

    /// Adds a note on the last line, unless there are `MOST_NOTES`.
    fn push_note(&mut self, kind: NoteKind) -> Result<(), AllocError>
        ensures base { self.new.base ≡ self.old.base }
        ensures place { self.new.place ≡ self.old.place }
    {
        if self.notes.len() >= MOST_NOTES {
            return Ok(());
        }
        let place = self.place;
        self.notes
            .push(Note { place, kind })
            .map_err(|_| AllocError)
    }
}
