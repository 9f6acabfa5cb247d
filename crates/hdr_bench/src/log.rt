//! Workloads on a log. The log that is read has 100 intervals of 2,000 filled bins each.

use crate::histograms::{empty, step};
use hdrhistogram::Histogram;
use hdrhistogram::serialization::V2Serializer;
use hdrhistogram::serialization::interval_log::{IntervalLogIterator, IntervalLogWriter, LogEntry};
use memchr::memchr;
use simdutf8::basic::from_utf8;
use std::alloc::Global;
use std::time::Duration;

/// An interval's histogram: 2,000 classes from 1 ms on hold 1 to 1024 each.
fn interval(alloc: Global, seed: u64) -> Option<Histogram<u64>> {
    let mut histogram = empty(alloc)?;
    let mut x = seed;
    let mut value = 1000;
    for _ in 0..2000 {
        x = step(x);
        histogram.record_n(value, (x >> 54).saturating_add(1)).ok()?;
        value = histogram.next_non_equivalent(value);
    }
    Some(histogram)
}

/// Appends the line of an interval to `text`; `start` is in milliseconds after the epoch.
fn push_line(
    alloc: Global,
    text: &mut Vec<u8>,
    serializer: &mut V2Serializer,
    histogram: &Histogram<u64>,
    start: u64,
) -> Option<()> {
    let mut log = IntervalLogWriter::new(alloc, text, serializer, 1);
    let start = Duration::from_millis(start);
    log.write_histogram(histogram, start, Duration::from_millis(1000), None)
        .ok()
}

#[inline(never)]
fn write_histogram(alloc: Global, seed: u64, n: u64) -> Option<u64> {
    let histogram = interval(alloc, seed)?;
    let mut serializer = V2Serializer::new(alloc);
    let mut text: Vec<u8> = Vec::new(alloc);
    let mut sum: u64 = 0;
    for start in 0..n {
        text.clear();
        push_line(alloc, &mut text, &mut serializer, &histogram, start)?;
        sum = sum.wrapping_add(text.len() as u64);
    }
    Some(sum)
}

/// The log that is read. Its lines have one length.
fn create_log(alloc: Global, seed: u64) -> Option<Vec<u8>> {
    let histogram = interval(alloc, seed)?;
    let mut serializer = V2Serializer::new(alloc);
    let mut text: Vec<u8> = Vec::new(alloc);
    for start in 0..100 {
        push_line(alloc, &mut text, &mut serializer, &histogram, start)?;
    }
    Some(text)
}

/// Reads a log, and returns the sum of the lengths of its fields and the milliseconds of its starts.
fn read_entries(log: &[u8]) -> u64 {
    let mut sum: u64 = 0;
    for entry in IntervalLogIterator::new(log) {
        if let Ok(LogEntry::Interval(interval)) = entry {
            let start = interval.start_timestamp().as_millis() % 1000;
            sum = sum.wrapping_add(interval.encoded_histogram().len() as u64);
            sum = sum.wrapping_add(start as u64);
        }
    }
    sum
}

#[inline(never)]
fn log_read(alloc: Global, seed: u64, n: u64) -> Option<u64> {
    let text = create_log(alloc, seed)?;
    let mut sum: u64 = 0;
    for _ in 0..n {
        sum = sum.wrapping_add(read_entries(&text));
    }
    Some(sum)
}

/// Which of the two passes are run on a line.
#[derive(Clone, Copy)]
struct Passes {
    /// The search for the line's end.
    ends: bool,
    /// The test that the field is UTF-8.
    texts: bool,
}

/// Returns the sum of `read_entries` by these passes alone, with the start of the field in a line and the length of a line
/// known.
fn run_passes(log: &[u8], field_start: usize, length: usize, passes: &Passes) -> Option<u64> {
    let mut sum: u64 = 0;
    let mut rest = log;
    for start in 0..100u64 {
        let end = if passes.ends {
            memchr(b'\n', rest)?
        } else {
            length
        };
        let field = rest.get(field_start..end)?;
        let field = if passes.texts {
            from_utf8(field).ok()?.len()
        } else {
            field.len()
        };
        sum = sum.wrapping_add(field as u64).wrapping_add(start);
        rest = rest.get(end.saturating_add(1)..)?;
    }
    Some(sum)
}

/// The passes alone over the log that `log_read` reads.
#[inline(never)]
fn log_passes(alloc: Global, seed: u64, n: u64, passes: &Passes) -> Option<u64> {
    let text = create_log(alloc, seed)?;
    let length = memchr(b'\n', &text)?;
    let mut field_start: usize = 0;
    for _ in 0..3 {
        let comma = memchr(b',', text.get(field_start..)?)?;
        field_start = field_start.saturating_add(comma).saturating_add(1);
    }
    let mut sum: u64 = 0;
    for _ in 0..n {
        sum = sum.wrapping_add(run_passes(&text, field_start, length, passes)?);
    }
    Some(sum)
}

/// `write_histogram` of an interval with 2,000 filled bins: the sum of the lines' lengths.
#[unsafe(no_mangle)]
pub extern "C" fn hdrb_log_line(alloc: Global, seed: u64, n: u64) -> u64 {
    write_histogram(alloc, seed, n).unwrap_or(0)
}

/// Passes over a log of 100 such intervals: the sum of the lengths of their fields and of their starts.
#[unsafe(no_mangle)]
pub extern "C" fn hdrb_log_read(alloc: Global, seed: u64, n: u64) -> u64 {
    log_read(alloc, seed, n).unwrap_or(0)
}

/// The search for the lines' ends alone, over the log of `hdrb_log_read`, with the same sum.
#[unsafe(no_mangle)]
pub extern "C" fn hdrb_log_ends(alloc: Global, seed: u64, n: u64) -> u64 {
    let passes = Passes {
        ends: true,
        texts: false,
    };
    log_passes(alloc, seed, n, &passes).unwrap_or(0)
}

/// The test of the fields alone, over the log of `hdrb_log_read`, with the same sum.
#[unsafe(no_mangle)]
pub extern "C" fn hdrb_log_texts(alloc: Global, seed: u64, n: u64) -> u64 {
    let passes = Passes {
        ends: false,
        texts: true,
    };
    log_passes(alloc, seed, n, &passes).unwrap_or(0)
}

/// Both passes alone, over the log of `hdrb_log_read`, with the same sum: a lower bound for any reader.
#[unsafe(no_mangle)]
pub extern "C" fn hdrb_log_floor(alloc: Global, seed: u64, n: u64) -> u64 {
    let passes = Passes {
        ends: true,
        texts: true,
    };
    log_passes(alloc, seed, n, &passes).unwrap_or(0)
}
