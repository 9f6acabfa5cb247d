//! Interval logs, as escaped text: `\n` and `\r` stand for a line feed and a carriage return, and `\xHH` for any byte.

use crate::arguments::{TextCall, ok_or_invalid, parse_u64, split_at_space};
use crate::outcome::{LineError, Outcome, Value};
use hdr_base::Counter;
use hdr_core::Histogram;
use hdr_log::field::{FieldError, decoded};
use hdrhistogram::serialization::V2Serializer;
use hdrhistogram::serialization::interval_log::{
    IntervalLogIterator, IntervalLogWriterBuilder, LogEntry, LogIteratorError, Tag,
};
use std::alloc::{AllocError, Global};
use std::str::Chars;
use std::time::Duration;

/// Parses an escape after its backslash.
fn parse_escape(chars: &mut Chars<'_>) -> Option<u8> {
    match chars.next()? {
        'n' => Some(b'\n'),
        'r' => Some(b'\r'),
        'x' => {
            let high = chars.next()?.to_digit(16)?;
            let low = chars.next()?.to_digit(16)?;
            u8::try_from(high.saturating_mul(16).saturating_add(low)).ok()
        }
        _ => None,
    }
}

/// Returns the bytes that escaped text stands for.
pub fn unescape(alloc: Global, text: &str) -> Result<Vec<u8>, LineError> {
    let mut bytes = Vec::new(alloc);
    for (index, part) in text.split('\\').enumerate() {
        let mut chars = part.chars();
        if index > 0 {
            bytes.push(ok_or_invalid(parse_escape(&mut chars))?)?;
        }
        bytes.extend_from_slice(chars.as_str().as_bytes())?;
    }
    Ok(bytes)
}

/// Returns the text that escaped text stands for.
fn unescape_string(alloc: Global, text: &str) -> Result<String, LineError> {
    ok_or_invalid(String::from_utf8(unescape(alloc, text)?).ok())
}

/// Escapes bytes.
fn escape(alloc: Global, bytes: &[u8]) -> Outcome {
    let mut output = String::new(alloc);
    for byte in bytes {
        match byte {
            b'\n' => output.push_str("\\n")?,
            b'\r' => output.push_str("\\r")?,
            b' '..=b'~' => output.push(char::from(*byte))?,
            _ => write!(output, "\\x{byte:02x}")?,
        }
    }
    Ok(Value::Text(output))
}

/// Appends `before`, and a time as its seconds, a point and nine digits.
fn push_time(output: &mut String, before: &str, time: Duration) -> Result<(), AllocError> {
    let (seconds, nanos) = (time.as_secs(), time.subsec_nanos());
    write!(output, "{before}{seconds}.{nanos:09}")
}

/// Appends the parts of an entry, or its error. Those of an interval are its tag, its times, its
/// max and its field.
fn push_entry(
    output: &mut String,
    entry: &Result<LogEntry<'_>, LogIteratorError>,
) -> Result<(), AllocError> {
    match entry {
        Ok(LogEntry::StartTime(time)) => push_time(output, "start ", *time),
        Ok(LogEntry::BaseTime(time)) => push_time(output, "base ", *time),
        Ok(LogEntry::Interval(line)) => {
            output.push_str(line.tag().map_or("-", |tag| tag.as_str()))?;
            push_time(output, " ", line.start_timestamp())?;
            push_time(output, " ", line.duration())?;
            write!(output, " {} {}", line.max(), line.encoded_histogram())
        }
        Err(LogIteratorError::ParseError { offset }) => write!(output, "fault at {offset}"),
    }
}

/// Returns the entries of a log in order, and then `end`.
fn read_entries(alloc: Global, log: &[u8]) -> Outcome {
    let mut output = String::new(alloc);
    for entry in IntervalLogIterator::new(log) {
        push_entry(&mut output, &entry)?;
        output.push(';')?;
    }
    output.push_str("end")?;
    Ok(Value::Text(output))
}

/// Decodes the Base64 field of an interval's line.
fn decode_field(alloc: Global, text: &str) -> Outcome {
    match decoded(alloc, text) {
        Ok(bytes) => Ok(Value::Text(hex::encode(alloc, bytes)?)),
        Err(FieldError::NotBase64) => Ok(Value::None),
        Err(FieldError::OutOfMemory) => Err(LineError::InvalidArgument),
    }
}

/// Parses a time: seconds, a point, and nanoseconds.
pub fn parse_time(text: &str) -> Result<Duration, LineError> {
    let (seconds, nanos) = ok_or_invalid(text.split_once('.'))?;
    match nanos.parse::<u32>() {
        Ok(nanos) if nanos < 1_000_000_000 => Ok(Duration::new(parse_u64(seconds)?, nanos)),
        _ => Err(LineError::InvalidArgument),
    }
}

/// Sets the divisor, which must not be 0.
fn set_divisor(builder: &mut IntervalLogWriterBuilder, text: &str) -> Result<(), LineError> {
    let divisor = parse_u64(text)?;
    if divisor == 0 {
        return Err(LineError::InvalidArgument);
    }
    builder.with_max_value_divisor(divisor);
    Ok(())
}

/// Sets an option of the builder.
fn set_option(
    alloc: Global,
    builder: &mut IntervalLogWriterBuilder,
    text: &str,
) -> Result<(), LineError> {
    match split_at_space(text) {
        ("start", time) => drop(builder.with_start_time(parse_time(time)?)),
        ("base", time) => drop(builder.with_base_time(parse_time(time)?)),
        ("divisor", divisor) => set_divisor(builder, divisor)?,
        ("comment", text) => {
            ok_or_invalid(builder.add_comment(&unescape_string(alloc, text)?).ok())?
        }
        _ => return Err(LineError::UnknownCall),
    }
    Ok(())
}

/// Returns the start of a log, from its options, separated by semicolons, and a comment after ` then `.
fn begin(alloc: Global, text: &str) -> Outcome {
    let (options, comment) = ok_or_invalid(text.split_once(" then "))?;
    let comment = unescape_string(alloc, comment)?;
    let mut builder = IntervalLogWriterBuilder::new(alloc);
    for option in options.split("; ") {
        set_option(alloc, &mut builder, option)?;
    }
    let (mut log, mut serializer) = (Vec::new(alloc), V2Serializer::new(alloc));
    builder
        .begin_log_with(&mut log, &mut serializer)?
        .write_comment(comment.as_str())?;
    escape(alloc, log.as_slice())
}

/// Returns a log of one interval, from its start, its duration, the divisor, and its tag if it has one.
pub fn log_line<T: Counter>(alloc: Global, h: &Histogram<T>, text: &str) -> Outcome {
    let (start, text) = split_at_space(text);
    let (duration, text) = split_at_space(text);
    let (divisor, tag) = match text.split_once(' ') {
        Some((divisor, tag)) => (divisor, Some(ok_or_invalid(Tag::new(tag))?)),
        None => (text, None),
    };
    let mut builder = IntervalLogWriterBuilder::new(alloc);
    set_divisor(&mut builder, divisor)?;
    let (start, duration) = (parse_time(start)?, parse_time(duration)?);
    let (mut log, mut serializer) = (Vec::new(alloc), V2Serializer::new(alloc));
    builder
        .begin_log_with(&mut log, &mut serializer)?
        .write_histogram(h, start, duration, tag)?;
    escape(alloc, log.as_slice())
}

/// Whether the first tag is less than the second.
fn is_less(text: &str) -> Outcome {
    let (one, other) = split_at_space(text);
    Ok(Value::Bool(ok_or_invalid(Tag::new(one))? < ok_or_invalid(Tag::new(other))?))
}

/// Makes a call on a log or on tags.
pub fn call(alloc: Global, call: TextCall<'_>) -> Outcome {
    match call {
        ("read", text) => read_entries(alloc, &unescape(alloc, text)?),
        ("field", text) => decode_field(alloc, text),
        ("tag", text) => Ok(Value::Bool(Tag::new(text).is_some())),
        ("before", text) => is_less(text),
        ("begin", text) => begin(alloc, text),
        _ => Err(LineError::UnknownCall),
    }
}
