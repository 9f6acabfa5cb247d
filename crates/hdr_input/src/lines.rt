//! Lines with a number each.

ghost use Rattle.std.specs.Prelude.{◌≡◌, ◌==◌, ◌<◌, length};
ghost use Rattle.hdr_input.specs.Lines.{without_mark};

use crate::bound_tally::BoundTally;
use crate::cause::Cause;
use crate::errors::{InputError, InputPlace, bad_number};
use crate::number::{plain_line, plain_number};
use crate::pieces::LineSink;
use crate::sink::NumberSink;
use crate::survey::Survey;
use crate::tally::Tally;
use crate::text::duration;
use crate::wide::{Wide, parse_unsigned};
use memchr::memchr;
use std::alloc::Global;

/// Splits a text after its first line. The line is returned without its LF.
pub(crate) fn split_line(text: &[u8]) -> (&[u8], &[u8])
    ensures { 0 < length text.now → length result.1.now < length text.now }
{
    match memchr(b'\n', text) {
        Some(at) => (&text[..at], &text[at + 1..]),
        None => (text, &text[text.len()..]),
    }
}

/// Returns a line without a byte order mark, which only the first line may have.
pub fn without_mark(line: &[u8], number: u64) -> &[u8]
    ensures { result.now ≡ without_mark (number == 1) line.now }
{
    match line {
        [0xef, 0xbb, 0xbf, rest @ ..] if number == 1 => rest,
        _ => line,
    }
}

/// Whether a text has a delimiter of a table's columns.
fn has_delimiter(text: &[u8]) -> bool {
    text.iter().any(|b| matches!(*b, b',' | b'\t' | b';'))
}

/// Parses a number, and passes it to a sink.
fn record_text<S: NumberSink>(sink: &mut S, text: &[u8]) -> Result<(), Cause>
    ensures { S.takes sink.old sink.new }
{
    match plain_number(text) {
        Some(number) => sink.record(number),
        None => record_other(sink, text),
    }
}

/// Parses a number that is not plain or a duration, and passes it to a sink.
#[inline(never)]
fn record_other<S: NumberSink>(sink: &mut S, text: &[u8]) -> Result<(), Cause>
    ensures { S.takes sink.old sink.new }
{
    match duration(text, sink.unit()) {
        Some(number) => sink.record(number?),
        None => sink.record_wide(parse_unsigned(text)?),
    }
}

/// Parses the number of a row, and how often it counts, if not once. Passes both to a sink, unless
/// it counts 0 times. Returns whether it counts.
#[inline(always)]
pub(crate) fn record_field<S: NumberSink>(
    sink: &mut S,
    text: &[u8],
    count: Option<&[u8]>,
) -> Result<bool, Cause>
    ensures { S.takes sink.old sink.new }
{
    match count {
        Some(count) => record_counted(sink, text, count),
        None => {
            record_text(sink, text)?;
            Ok(true)
        }
    }
}

/// Parses a number and how often it counts, as `record_field`.
#[inline(never)]
fn record_counted<S: NumberSink>(sink: &mut S, text: &[u8], count: &[u8]) -> Result<bool, Cause>
    ensures { S.takes sink.old sink.new }
{
    let number = match duration(text, sink.unit()) {
        Some(number) => Wide::of(number?),
        None => parse_unsigned(text)?,
    };
    match parse_count(count)? {
        0 => Ok(false),
        count => {
            sink.record_times(number, count)?;
            Ok(true)
        }
    }
}

/// Parses how often a number counts.
fn parse_count(text: &[u8]) -> Result<u64, Cause> {
    let count = str::from_utf8(text)
        .ok()
        .and_then(|text| text.parse::<u64>().ok());
    count.ok_or(Cause::NotACount)
}

/// Counts a bad line if the sink skips it, and otherwise returns its error.
#[cold]
#[inline(never)]
pub(crate) fn skip_or_err<S: NumberSink>(
    alloc: Global,
    sink: &mut S,
    place: InputPlace,
    text: &[u8],
    cause: Cause,
) -> Result<(), InputError>
    ensures { S.takes sink.old sink.new }
{
    if sink.count_if_skipped(cause) {
        return Ok(());
    }
    Err(bad_number(alloc, place, text, cause))
}

/// Records the number of a line. An empty line and a comment have none.
fn record_line<S: NumberSink>(
    alloc: Global,
    sink: &mut S,
    line: &[u8],
    number: u64,
) -> Result<(), InputError>
    ensures { S.takes sink.old sink.new }
{
    let text = without_mark(line, number).trim_ascii();
    if text.is_empty() || text.starts_with(b"#") {
        return Ok(());
    }
    match record_text(sink, text) {
        Ok(()) => Ok(()),
        Err(Cause::NotANumber | Cause::Blank) if has_delimiter(text) => {
            skip_or_err(alloc, sink, InputPlace::Line(number), text, Cause::Table)
        }
        Err(cause) => skip_or_err(alloc, sink, InputPlace::Line(number), text, cause),
    }
}

/// Records the numbers of lines, and returns the number of the line after them. The first line has
/// the number `first`.
pub fn record_lines<S: NumberSink>(
    alloc: Global,
    sink: &mut S,
    text: &[u8],
    first: u64,
) -> Result<u64, InputError>
    ensures { S.takes sink.old sink.new }
{
    let mut rest = text;
    let mut number = first;
    while !rest.is_empty() {
        match plain_line(rest) {
            Some((value, after)) => {
                if let Err(cause) = sink.record(value) {
                    let (line, _) = split_line(rest);
                    skip_or_err(
                        alloc,
                        sink,
                        InputPlace::Line(number),
                        line.trim_ascii(),
                        cause,
                    )?;
                }
                rest = after;
            }
            None => {
                let (line, after) = split_line(rest);
                record_line(alloc, sink, line, number)?;
                rest = after;
            }
        }
        number = number.saturating_add(1);
    }
    Ok(number)
}

impl LineSink for Tally {
    ghost use Rattle.hdr_input.specs.Recorded.{KeepsUnit, keeps_unit_of_none, keeps_unit_after};

    ghost takes = { λ _ _ _ old new. KeepsUnit old new };

    ghost takes_none = { λ _ sink. keeps_unit_of_none sink };

    ghost takes_more = { λ _ _ _ _ _ a b c _ first more. keeps_unit_after a b c first more };

    fn take_lines(&mut self, alloc: Global, lines: &[u8], first: u64) -> Result<u64, InputError> {
        record_lines(alloc, self, lines, first)
    }
}

impl LineSink for Survey {
    ghost use Rattle.hdr_input.specs.Rounding.{Surveys};
    ghost use Rattle.hdr_input.specs.Surveys.{surveys_nothing, surveys_after};

    ghost takes = { λ _ _ _ old new. Surveys old new };

    ghost takes_none = { λ _ sink. surveys_nothing sink };

    ghost takes_more = { λ _ _ _ _ _ a b c _ first more. surveys_after a b c first more };

    fn take_lines(&mut self, alloc: Global, lines: &[u8], first: u64) -> Result<u64, InputError> {
        record_lines(alloc, self, lines, first)
    }
}

impl LineSink for BoundTally {
    ghost use Rattle.hdr_input.specs.BoundLaws.{CountsSome, counts_nothing, counts_after};

    ghost takes = { λ _ _ _ old new. CountsSome old new };

    ghost takes_none = { λ _ sink. counts_nothing sink };

    ghost takes_more = { λ _ _ _ _ _ a b c _ first more. counts_after a b c first more };

    fn take_lines(&mut self, alloc: Global, lines: &[u8], first: u64) -> Result<u64, InputError> {
        record_lines(alloc, self, lines, first)
    }
}
