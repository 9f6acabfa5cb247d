//! A row for each interval of a log.

use csv::{Writer, WriterBuilder};
use hdr_figures::figures::Figures;
use hdr_logs::{LogError, LogIntervals, StoredInterval};
use hdr_summary::decimals::decimal;
use hdr_summary::formats::{write_field, write_text};
use hdr_verdict::{Episode, LogVerdict, verdict_of};
use hdr_view::naming::Naming;
use hdrhistogram::serialization::Deserializer;
use std::alloc::{AllocError, Global};

const NAMES: [&str; 10] = [
    "start", "tag", "length", "count", "50%", "90%", "99%", "99.9%", "100%", "incident",
];

/// Returns a row for each interval in order, after a line that names the fields. Times are in
/// seconds, and values in the unit of the log, with its decimals. The last field is the letter of the incident of which it is a part. A tag that a
/// spreadsheet may take for a formula follows an apostrophe.
pub fn rows(alloc: Global, intervals: &LogIntervals) -> Result<String, LogError> {
    let mut table = WriterBuilder::new().from_writer(Vec::new(alloc));
    for name in NAMES {
        write_field(&mut table, name)?;
    }
    end_row(&mut table)?;
    let verdict = verdict_of(alloc, &intervals.list, &[])?;
    let times = lettered_times(alloc, &verdict)?;
    let decimals = intervals.decimals().unwrap_or(0);
    let mut deserializer = Deserializer::new(alloc);
    let mut spare = None;
    for interval in &intervals.list {
        let histogram = interval.histogram(&mut deserializer, spare.take())?;
        write_row(
            alloc,
            &mut table,
            interval,
            &Figures::of(&histogram),
            decimals,
        )?;
        write_field(&mut table, letter_of(&times, interval))?;
        end_row(&mut table)?;
        spare = Some(histogram);
    }
    let bytes = table.into_inner().map_err(|_| AllocError)?;
    String::from_utf8(bytes).map_err(|_| LogError::OutOfMemory)
}

/// Writes a number.
fn write_number(alloc: Global, table: &mut Writer<Vec<u8>>, number: u64) -> Result<(), AllocError> {
    let text = format!(in alloc; "{number}")?;
    write_field(table, text.as_str())
}

/// Writes a value that is in units of the last of some decimals.
fn write_value(
    alloc: Global,
    table: &mut Writer<Vec<u8>>,
    value: u64,
    decimals: u32,
) -> Result<(), AllocError> {
    let text = decimal(alloc, u128::from(value), decimals)?;
    write_field(table, text.as_str())
}

/// Writes milliseconds in seconds.
fn write_time(
    alloc: Global,
    table: &mut Writer<Vec<u8>>,
    milliseconds: u64,
) -> Result<(), AllocError> {
    let whole = milliseconds / 1_000;
    let part = milliseconds % 1_000;
    let text = format!(in alloc; "{whole}.{part:03}")?;
    write_field(table, text.as_str())
}

/// Ends a row.
fn end_row(table: &mut Writer<Vec<u8>>) -> Result<(), AllocError> {
    table.end_record().map_err(|_| AllocError)
}

/// Writes the row of an interval, but its letter. Its second field is empty if it has no tag.
fn write_row(
    alloc: Global,
    table: &mut Writer<Vec<u8>>,
    interval: &StoredInterval,
    figures: &Figures,
    decimals: u32,
) -> Result<(), AllocError> {
    write_time(alloc, table, interval.start)?;
    write_text(alloc, table, interval.name())?;
    write_time(alloc, table, interval.length())?;
    write_number(alloc, table, figures.count)?;
    for value in [
        figures.p50,
        figures.p90,
        figures.p99,
        figures.p999,
        figures.max,
    ] {
        write_value(alloc, table, value, decimals)?;
    }
    Ok(())
}

/// A time of a tag that is a part of an incident with a letter.
#[derive(Clone, Copy)]
struct LetteredTime<'a> {
    tag: &'a str,
    start: u64,
    end: u64,
    letter: &'static str,
}

/// Returns the times of incidents with letters, by their tags and starts.
fn lettered_times<'a>(
    alloc: Global,
    verdict: &LogVerdict<'a>,
) -> Result<Vec<LetteredTime<'a>>, AllocError> {
    let naming = Naming::new(alloc, &verdict.incidents)?;
    let mut times = Vec::new(alloc);
    for (index, incident) in verdict.incidents.iter().enumerate() {
        if let Some(letter) = naming.letter(index) {
            push_time(&mut times, verdict, &incident.heaviest, letter)?;
            for episode in &incident.joined {
                push_time(&mut times, verdict, episode, letter)?;
            }
        }
    }
    times.sort_by_key(|time: &LetteredTime<'_>| (time.tag, time.start))?;
    Ok(times)
}

/// Appends the time of an episode.
fn push_time<'a>(
    times: &mut Vec<LetteredTime<'a>>,
    verdict: &LogVerdict<'a>,
    episode: &Episode,
    letter: &'static str,
) -> Result<(), AllocError> {
    let Some(tag) = verdict.tags.get(episode.tag) else {
        return Ok(());
    };
    let time = LetteredTime {
        tag: tag.tag,
        start: episode.start,
        end: episode.end,
        letter,
    };
    times.push(time).map_err(|_| AllocError)
}

/// Returns the letter of an interval, or no text if it has none.
fn letter_of(times: &[LetteredTime<'_>], interval: &StoredInterval) -> &'static str {
    let first = times.partition_point(|time| time.tag < interval.name());
    for time in times.get(first..).unwrap_or(&[]) {
        if time.tag != interval.name() {
            break;
        }
        if time.start <= interval.start && interval.start < time.end {
            return time.letter;
        }
    }
    ""
}
