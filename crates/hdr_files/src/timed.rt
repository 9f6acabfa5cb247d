//! Numbers as an interval log.

use crate::errors::StatError;
use crate::files::Files;
use crate::numbers::{Form, require_most_lines};
use crate::output::print;
use crate::surveyed::NumberFiles;
use hdr_input::group_texts::tag_text;
use hdr_input::intervals::{Cut, Intervals, TimeSlice};
use hdr_input::rows::{RowSink, RowTexts};
use hdr_input::{Distribution, InputError, Recording, Unit};
use hdr_logs::{decimals_comment, unit_comment};
use hdrhistogram::serialization::interval_log::{IntervalLogWriter, IntervalLogWriterBuilder, Tag};
use hdrhistogram::serialization::{CountNotSerializable, V2Serializer};
use std::alloc::Global;
use std::time::Duration;

/// Returns the numbers of files, cut into intervals. How many lines were skipped and how many numbers
/// were rounded is printed on standard error.
///
/// # Errors
/// Returns `MostlySkipped` if more lines were skipped than numbers read.
pub fn read_intervals_of<'l, 'n>(
    files: Files<'_, '_, '_>,
    recording: Recording,
    form: Form<'_, '_>,
    cut: Cut<'l, 'n>,
) -> Result<Intervals<'l, 'n>, StatError> {
    let mut numbers = NumberFiles::new(files, recording, form)?;
    let mut intervals = Intervals::new(files.alloc(), numbers.recording, cut)?;
    numbers.read_rows_into(&mut intervals)?;
    if numbers.becomes_finer(intervals.tally.rounded)? {
        intervals = Intervals::new(files.alloc(), numbers.recording, cut)?;
        numbers.read_rows_into(&mut intervals)?;
    }
    let (read, tally) = (intervals.numbers(), &intervals.tally);
    numbers.print_notes(read == 0, tally.skipped, tally.rounded)?;
    require_most_lines(read, tally.skipped)?;
    Ok(intervals)
}

/// Returns a log of one interval, of values in a unit.
pub fn log_of_numbers(
    alloc: Global,
    numbers: Distribution,
    unit: Option<Unit>,
    tag: Option<Tag<'_>>,
) -> Result<Vec<u8>, StatError> {
    let mut text = Vec::new(alloc);
    write_headers(alloc, &mut text, numbers.decimals, unit)?;
    let mut serializer = V2Serializer::new(alloc);
    let mut log = IntervalLogWriter::new(alloc, &mut text, &mut serializer, 1);
    log.push_v2(&numbers.histogram, Duration::ZERO, Duration::ZERO, tag)?;
    drop(log);
    Ok(text)
}

/// Returns a log of intervals in order of time, and at one time in the order of their groups. The
/// tag of an interval is the text of its group, or `tag` without groups. The values are in a unit.
pub fn log_of_intervals(
    alloc: Global,
    read: &mut Intervals<'_, '_>,
    cut: Cut<'_, '_>,
    unit: Option<Unit>,
    tag: Option<Tag<'_>>,
) -> Result<Vec<u8>, StatError> {
    let mut text = Vec::new(alloc);
    write_headers(alloc, &mut text, read.tally.decimals, unit)?;
    let slices = read.take_all()?;
    push_slices(alloc, &mut text, &slices, read, cut, tag)?;
    Ok(text)
}

/// Appends intervals to a log.
fn push_slices(
    alloc: Global,
    text: &mut Vec<u8>,
    slices: &[TimeSlice],
    read: &Intervals<'_, '_>,
    cut: Cut<'_, '_>,
    tag: Option<Tag<'_>>,
) -> Result<(), StatError> {
    let tags = tags_of(alloc, read)?;
    let mut serializer = V2Serializer::new(alloc);
    let mut log = IntervalLogWriter::new(alloc, text, &mut serializer, 1);
    let length = cut.length.unwrap_or(0);
    for slice in slices {
        let start = Duration::from_nanos(slice.number.saturating_mul(length));
        let duration = Duration::from_nanos(length);
        match tag_at(&tags, slice.group) {
            Some(group) => log.push_v2(&slice.histogram, start, duration, Some(group))?,
            None => log.push_v2(&slice.histogram, start, duration, tag)?,
        }
    }
    Ok(())
}

/// A log of which intervals are printed once a later one begins.
#[derive(Drop)]
struct StreamedLog<'r, 'l, 'n, 't> {
    rt: &'r HostRuntime,
    read: Intervals<'l, 'n>,
    cut: Cut<'l, 'n>,
    tag: Option<Tag<'t>>,
    /// What is printed next, with the headers at first.
    text: Vec<u8>,
    /// Why the log was not printed.
    error: Option<StatError>,
}

impl StreamedLog<'_, '_, '_, '_> {
    /// Prints intervals.
    fn print(&mut self, alloc: Global, slices: &[TimeSlice]) -> Result<(), StatError> {
        push_slices(
            alloc,
            &mut self.text,
            slices,
            &self.read,
            self.cut,
            self.tag,
        )?;
        print(self.rt, &self.text)?;
        self.text.clear();
        Ok(())
    }

    /// Prints the intervals that are complete.
    fn print_complete(&mut self, alloc: Global) -> Result<(), StatError> {
        let slices = self.read.take_complete()?;
        self.print(alloc, &slices)
    }
}

impl RowSink for StreamedLog<'_, '_, '_, '_> {
    fn take_row(&mut self, alloc: Global, row: RowTexts<'_>) -> Result<(), InputError> {
        self.read.take_row(alloc, row)?;
        if !self.read.has_complete() {
            return Ok(());
        }
        match self.print_complete(alloc) {
            Ok(()) => Ok(()),
            Err(error) => {
                self.error = Some(error);
                Err(InputError::OutOfMemory)
            }
        }
    }

    fn begin_file(&mut self) {
        self.read.begin_file();
    }
}

/// Prints the numbers of an input as a log: an interval once a later one begins, and at the end the
/// others. Numbers of an interval that was printed before are printed as another one, and a line on
/// standard error says how many there are. So are skipped lines and rounded numbers.
///
/// # Errors
/// Returns `MostlySkipped` if more lines were skipped than numbers read.
pub fn print_log_as_read(
    files: Files<'_, '_, '_>,
    recording: Recording,
    form: Form<'_, '_>,
    cut: Cut<'_, '_>,
    unit: Option<Unit>,
    tag: Option<Tag<'_>>,
) -> Result<(), StatError> {
    let alloc = files.alloc();
    let mut numbers = NumberFiles::new(files, recording, form)?;
    let read = Intervals::new(alloc, numbers.recording, cut)?;
    let mut text = Vec::new(alloc);
    write_headers(alloc, &mut text, read.tally.decimals, unit)?;
    let rt = files.rt;
    let mut log = StreamedLog {
        rt,
        read,
        cut,
        tag,
        text,
        error: None,
    };
    let outcome = numbers.read_rows_into(&mut log);
    if let Some(error) = log.error.take() {
        return Err(error);
    }
    outcome?;
    let (read, tally) = (log.read.numbers(), &log.read.tally);
    numbers.print_notes(read == 0, tally.skipped, tally.rounded)?;
    print_late(rt, log.read.late());
    require_most_lines(read, tally.skipped)?;
    let slices = log.read.take_all()?;
    log.print(alloc, &slices)
}

/// Prints on standard error how many numbers came after their intervals had ended.
fn print_late(rt: &HostRuntime, late: u64) {
    let _ = match late {
        0 => return,
        1 => eprintln!(rt;
            "hdrstat: 1 number came after its interval had ended; gather --unsorted puts it in its place"
        ),
        _ => eprintln!(rt;
            "hdrstat: {late} numbers came after their intervals had ended; gather --unsorted puts them in place"
        ),
    };
}

/// Returns the tag at an index, or `None` if it is empty.
fn tag_at(tags: &[String], index: usize) -> Option<Tag<'_>> {
    let text = tags.get(index)?.as_str();
    if text.is_empty() {
        return None;
    }
    Tag::new(text)
}

/// Returns the texts of groups as tags.
fn tags_of(alloc: Global, read: &Intervals<'_, '_>) -> Result<Vec<String>, StatError> {
    let mut tags = Vec::new(alloc);
    for text in read.groups.as_slice() {
        let text = String::from_utf8_lossy(alloc, text)?;
        tags.push(tag_text(alloc, text.as_str())?)?;
    }
    Ok(tags)
}

/// Appends the headers of a log of values with these decimals, in a unit.
fn write_headers(
    alloc: Global,
    text: &mut Vec<u8>,
    decimals: u32,
    unit: Option<Unit>,
) -> Result<(), StatError> {
    let mut builder = IntervalLogWriterBuilder::new(alloc);
    if let Some(unit) = unit {
        builder.add_comment(unit_comment(alloc, unit)?.as_str())?;
    }
    builder.add_comment(decimals_comment(alloc, decimals)?.as_str())?;
    builder.write_headers::<_, CountNotSerializable>(text)?;
    Ok(())
}
