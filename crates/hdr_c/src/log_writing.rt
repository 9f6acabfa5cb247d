//! The line of an interval, in the caller's memory.

ghost use Rattle.std.specs.Prelude.{◌≡◌, IfErr, IfOk, MatchResult, vec_items};
ghost use Rattle.std.specs.Option.{option_map};
ghost use Rattle.std.specs.Duration.{as_nanos};
ghost use Rattle.hdr_log.specs.Tags.{tag_text};
ghost use Rattle.hdrhistogram.specs.LogLeaving.{IsIntervalText, IsV2LineError};
ghost use Rattle.hdrhistogram.specs.V2.{IsV2};
ghost use Rattle.hdr_c.specs.Calls.{held};
ghost use Rattle.hdr_c.specs.Bytes.{IsCompressedV2};
ghost use Rattle.hdr_c.specs.Lines.{IsCompressedLineStatus, PutsCompressedLine, PutsLine, tag_at, time_at};

use crate::compressing::compressed_v2;
use crate::handle::Handle;
use crate::status::{CLOSED, INVALID_TAG, OUT_OF_MEMORY, TIME_OUT_OF_RANGE, of_line_error};
use crate::v2_bytes::copy_to;
use hdr_log::parts::text;
use hdr_log::text::{push_interval, scaled, thousandths};
use hdrhistogram::Histogram;
use hdrhistogram::serialization::interval_log::{IntervalLogWriter, IntervalLogWriterError, Tag};
use hdrhistogram::serialization::{CountNotSerializable, V2Serializer};
use std::alloc::Global;
use std::time::Duration;

/// Returns the time, or `None` if the nanoseconds are a second or more.
pub(crate) fn time(seconds: u64, nanos: u32) -> Option<Duration>
    ensures { option_map as_nanos result ≡ time_at seconds nanos }
{
    if nanos >= 1_000_000_000 {
        return None;
    }
    Some(Duration::new(seconds, nanos))
}

/// Returns the tag of these bytes: `Some(None)` of no bytes, and `None` if they are not a tag.
fn tag(bytes: &[u8]) -> Option<Option<Tag<'_>>>
    ensures { option_map (λ tag. option_map tag_text tag) result ≡ tag_at bytes.now }
{
    if bytes.is_empty() {
        return Some(None);
    }
    Some(Some(Tag::new(text(bytes)?)?))
}

/// Returns the line of an interval.
fn line(
    alloc: Global,
    histogram: &Histogram<u64>,
    start: Duration,
    duration: Duration,
    tag: Option<Tag<'_>>,
) -> Result<Vec<u8>, IntervalLogWriterError<CountNotSerializable>>
    ensures line { IfOk result (λ line. IsIntervalText IsV2 histogram.now (option_map tag_text tag.entry)
        (as_nanos start) (as_nanos duration) 1 (vec_items line)) }
    ensures err { IfErr result (IsV2LineError histogram.now (as_nanos start) (as_nanos duration)) }
{
    let mut line = Vec::new(alloc);
    let mut serializer = V2Serializer::new(alloc);
    let mut log = IntervalLogWriter::new(alloc, &mut line, &mut serializer, 1);
    log.push_v2(histogram, start, duration, tag)?;
    drop(log);
    Ok(line)
}

/// Writes the line of an interval to the start of `buf`. `needed` is the number of its bytes, also if
/// `buf` is too short.
#[unsafe(no_mangle)]
pub extern "C" fn dkap_log_line(
    h: &mut Handle,
    alloc: Global,
    start_seconds: u64,
    start_nanos: u32,
    duration_seconds: u64,
    duration_nanos: u32,
    tag_bytes: &[u8],
    buf: &mut [u8],
    needed: &mut usize,
) -> u32
    ensures unchanged { held h.new ≡ held h.old }
    ensures line { PutsLine result (held h.old) (time_at start_seconds start_nanos)
        (time_at duration_seconds duration_nanos) (tag_at tag_bytes.now)
        buf.old buf.new needed.new }
{
    *needed = 0;
    let Some(start) = time(start_seconds, start_nanos) else {
        return TIME_OUT_OF_RANGE;
    };
    let Some(duration) = time(duration_seconds, duration_nanos) else {
        return TIME_OUT_OF_RANGE;
    };
    let Some(tag) = tag(tag_bytes) else {
        return INVALID_TAG;
    };
    if !h.filled {
        return CLOSED;
    }
    let held = h.pointer.as_mut();
    match line(alloc, &held.histogram, start, duration, tag) {
        Ok(line) => copy_to(&line, buf, needed),
        Err(error) => of_line_error(&error),
    }
}

/// Returns the line of an interval with compressed V2 bytes. An error is its status.
fn compressed_line(
    alloc: Global,
    histogram: &Histogram<u64>,
    start: Duration,
    duration: Duration,
    tag: Option<Tag<'_>>,
) -> Result<Vec<u8>, u32>
    ensures { MatchResult result (λ line. IsIntervalText IsCompressedV2 histogram.now
        (option_map tag_text tag.entry) (as_nanos start) (as_nanos duration) 1 (vec_items line))
        (IsCompressedLineStatus histogram.now (as_nanos start) (as_nanos duration)) }
{
    let Some(from) = thousandths(start) else {
        return Err(TIME_OUT_OF_RANGE);
    };
    let Some(length) = thousandths(duration) else {
        return Err(TIME_OUT_OF_RANGE);
    };
    let bytes = compressed_v2(alloc, histogram)?;
    let mut line = Vec::new(alloc);
    match push_interval(
        &mut line,
        tag,
        from,
        length,
        scaled(histogram.max(), 1),
        &bytes,
    ) {
        Ok(()) => Ok(line),
        Err(_) => Err(OUT_OF_MEMORY),
    }
}

/// As `dkap_log_line`, with compressed V2 bytes.
#[unsafe(no_mangle)]
pub extern "C" fn dkap_log_line_compressed(
    h: &mut Handle,
    alloc: Global,
    start_seconds: u64,
    start_nanos: u32,
    duration_seconds: u64,
    duration_nanos: u32,
    tag_bytes: &[u8],
    buf: &mut [u8],
    needed: &mut usize,
) -> u32
    ensures unchanged { held h.new ≡ held h.old }
    ensures line { PutsCompressedLine result (held h.old) (time_at start_seconds start_nanos)
        (time_at duration_seconds duration_nanos) (tag_at tag_bytes.now)
        buf.old buf.new needed.new }
{
    *needed = 0;
    let Some(start) = time(start_seconds, start_nanos) else {
        return TIME_OUT_OF_RANGE;
    };
    let Some(duration) = time(duration_seconds, duration_nanos) else {
        return TIME_OUT_OF_RANGE;
    };
    let Some(tag) = tag(tag_bytes) else {
        return INVALID_TAG;
    };
    if !h.filled {
        return CLOSED;
    }
    let held = h.pointer.as_mut();
    match compressed_line(alloc, &held.histogram, start, duration, tag) {
        Ok(line) => copy_to(&line, buf, needed),
        Err(status) => status,
    }
}
