//! One line of a log, without its LF.

ghost use Rattle.std.specs.Prelude.{◌≡◌, codes};
ghost use Rattle.std.specs.Option.{option_map, is_some};
ghost use Rattle.std.specs.Duration.{as_nanos};
ghost use Rattle.hdr_log.specs.Grammar.{after_front, time_before, tag_of, is_decimal, without_crs, only_if, interval_of, header_of, entry_of, is_skipped};
ghost use Rattle.hdr_log.specs.Tags.{tag_text};
ghost use Rattle.hdr_log.specs.Reading.{view_of_interval, view_of_entry};
ghost use Rattle.std.specs.Str.{is_utf8};

use crate::entry::{IntervalLogHistogram, LogEntry};
use crate::parts::{has_only_digits, is_digits, split_once, text, time};
use crate::tag::Tag;
use std::time::Duration;

/// Returns `text` without the prefix `front`, or `None` if it does not start with it.
fn strip<'a>(text: &'a [u8], front: &[u8]) -> Option<&'a [u8]>
    ensures { option_map (λ x. x.now) result ≡ after_front front.now text.now }
{
    text.strip_prefix(front)
}

/// Returns a field without the CRs at its end.
#[tactic(auto, using(crate::proofs::PartsFronts::without_crs_more, crate::proofs::PartsFronts::without_crs_none))]
fn trimmed(field: &[u8]) -> &[u8]
    ensures { result.now ≡ without_crs field.now }
{
    let mut field = field;
    while let Some((last, front)) = field.split_last() {
        if *last != b'\r' {
            break;
        }
        field = front;
    }
    field
}

/// Parses the tag of an interval, if it has one, and returns it with the rest of the line.
fn tag(line: &[u8]) -> Option<(Option<Tag<'_>>, &[u8])>
    ensures { option_map (λ p. (option_map tag_text p.0, p.1.now)) result ≡ tag_of
        (after_front (codes "Tag=") line.now) line.now }
{
    let Some(rest) = strip(line, b"Tag=") else {
        return Some((None, line));
    };
    let (tag, rest) = split_once(rest, b',')?;
    let tag = Tag::new(text(tag)?)?;
    Some((Some(tag), rest))
}

/// Parses the time before the first `byte`, and returns it with the rest after that byte.
#[tactic(auto, unfolding(crate::specs::Grammar::time_before))]
fn time_before(text: &[u8], byte: u8) -> Option<(Duration, &[u8])>
    ensures { option_map (λ p. (as_nanos p.0, p.1.now)) result ≡ time_before byte text.now }
{
    let (seconds, rest) = split_once(text, byte)?;
    Some((time(seconds)?, rest))
}

/// Parses a header of this name, and returns its time.
#[tactic(auto, unfolding(crate::specs::Grammar::header_of))]
fn header(line: &[u8], name: &[u8]) -> Option<Duration>
    ensures { option_map as_nanos result ≡ header_of name.now line.now }
{
    let rest = strip(line, name)?;
    Some(time_before(rest, b' ')?.0)
}

/// Whether a text is one digit or more, with at most one point.
fn is_decimal(text: &[u8]) -> bool
    ensures { result ≡ is_decimal text.now }
{
    match split_once(text, b'.') {
        Some((whole, fraction)) => {
            has_only_digits(whole)
                && has_only_digits(fraction)
                && !(whole.is_empty() && fraction.is_empty())
        }
        None => is_digits(text),
    }
}

/// Returns a decimal as a `str`, or `None` if the bytes are not a decimal.
fn decimal(bytes: &[u8]) -> Option<&str>
    ensures { option_map (λ x. x.now) result ≡ only_if (is_decimal bytes.now) bytes.now }
{
    if is_decimal(bytes) { text(bytes) } else { None }
}

/// Parses the line of an interval.
#[tactic(auto, unfolding(crate::specs::Grammar::interval_of))]
fn interval(line: &[u8]) -> Option<IntervalLogHistogram<'_>>
    ensures { option_map view_of_interval result ≡ interval_of line.now }
{
    let (tag, rest) = tag(line)?;
    let (start_timestamp, rest) = time_before(rest, b',')?;
    let (duration, rest) = time_before(rest, b',')?;
    let (max, field) = split_once(rest, b',')?;
    let max = decimal(max)?;
    let encoded_histogram = text(trimmed(field))?;
    Some(IntervalLogHistogram {
        tag,
        start_timestamp,
        duration,
        max,
        encoded_histogram,
    })
}

/// Parses a line with an entry. The line has no LF.
#[tactic(auto, unfolding(crate::specs::Grammar::entry_of))]
pub fn entry(line: &[u8]) -> Option<LogEntry<'_>>
    ensures { option_map view_of_entry result ≡ entry_of line.now }
{
    if let Some(start) = header(line, b"#[StartTime: ") {
        return Some(LogEntry::StartTime(start));
    }
    if let Some(base) = header(line, b"#[BaseTime: ") {
        return Some(LogEntry::BaseTime(base));
    }
    Some(LogEntry::Interval(interval(line)?))
}

/// Whether a line is a comment or another line without an entry, which is skipped.
#[tactic(auto, unfolding(crate::specs::Grammar::is_skipped))]
pub fn is_skipped(line: &[u8]) -> bool
    ensures { result ≡ is_skipped line.now }
{
    strip(line, b"#").is_some() || strip(line, b"\"StartTimestamp\"").is_some()
}
