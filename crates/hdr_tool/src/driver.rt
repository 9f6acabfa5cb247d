//! Runs the lines of an input, in order. A report is a log without `end`: one driver runs both.

ghost use Rattle.std.specs.Prelude.{◌≡◌, ◌+◌, ◌-◌, ◌^◌, ◌<◌, ◌∷◌, ◌++◌, length, IfOk, Ok, Err, Some, true};
ghost use Rattle.std.specs.Option.{option_map};
ghost use Rattle.hdr_model.specs.Plain.{IsPlain};
ghost use Rattle.hdr_log.specs.Tags.{tag_text};
ghost use Rattle.hdrhistogram.specs.LogWriters.{sink, divisor_of, IsSameLog};
ghost use Rattle.hdr_tool.specs.Commands.{number_lines};
ghost use Rattle.hdr_tool.specs.Outcomes.{LinesNeed, Needs, IsStep, RunsAll, OnInput, ReadsAll};
ghost use Rattle.hdr_tool.specs.Program.{run_end, lines_run, rest_run, input_run};

use crate::command::{Command, parse, value_line};
use crate::fault::Fault;
use crate::lines::split_at_first;
use crate::parts::{replace, take_lines};
use crate::stream::{PIECE, fault_after_rest, read_piece};
use hdrhistogram::Histogram;
use hdrhistogram::serialization::interval_log::{IntervalLogWriter, IntervalLogWriterError, Tag};
use hdrhistogram::serialization::{V2SerializeError, V2Serializer};
use std::alloc::Global;
use std::io::{Read, Write};
use std::time::Duration;

/// For the prover alone: the histogram is plain (`IsPlain`). It does nothing.
fn show_plain(histogram: &Histogram<u64>)
    ensures { IsPlain (2 ^ 64 - 1) histogram.now }
{
    let _bins = histogram.distinct_values();
}

/// Writes the histogram's interval, and resets the histogram.
fn end<W: Write>(
    histogram: &mut Histogram<u64>,
    line: u64,
    start: u64,
    duration: u64,
    tag: Option<Tag<'_>>,
    log: &mut IntervalLogWriter<'_, '_, W, V2Serializer>,
) -> Result<(), Fault>
    requires { divisor_of log.old ≡ 1 }
    ensures same_log { IsSameLog log.old log.new }
    ensures goes { IsStep (run_end line histogram.old start duration (option_map tag_text tag.entry))
        (λ next. next histogram.new)
        (W.contents (sink log.old).now) (W.contents (sink log.new).now) result }
    ensures grows { histogram.new.auto_resize ≡ histogram.old.auto_resize }
{
    show_plain(histogram);
    let start = Duration::from_millis(start);
    let duration = Duration::from_millis(duration);
    match log.write_v2(histogram, start, duration, tag) {
        Ok(()) => {
            histogram.reset();
            Ok(())
        }
        Err(IntervalLogWriterError::IoError(_)) => Err(Fault::CannotWrite),
        Err(IntervalLogWriterError::SerializeError(_)) => {
            let cause = V2SerializeError::CountNotSerializable;
            Err(Fault::NotWritten(line, IntervalLogWriterError::SerializeError(cause)))
        }
        // The seconds of a `u64` of milliseconds fit a `u64`.
        Err(IntervalLogWriterError::TimeOutOfRange) => unreachable!(),
        Err(IntervalLogWriterError::OutOfMemory) => Err(Fault::NoMemory),
    }
}

/// Runs the command of a line. An empty line has none, and `end` is a command of a log only.
#[inline(always)]
fn run_line<W: Write>(
    is_log: bool,
    histogram: &mut Histogram<u64>,
    number: u64,
    line: &[u8],
    log: &mut IntervalLogWriter<'_, '_, W, V2Serializer>,
) -> Result<(), Fault>
    // The log's divisor of greatest values is 1, and auto-resize is on.
    requires divisor { divisor_of log.old ≡ 1 }
    requires grows { histogram.old.auto_resize ≡ true }
    // What is written, and when memory may run out.
    ensures same_log { IsSameLog log.old log.new }
    ensures goes { IsStep (λ more. lines_run is_log histogram.old ((number, line.now) ∷ more))
        (lines_run is_log histogram.new)
        (W.contents (sink log.old).now) (W.contents (sink log.new).now) result }
    ensures memory { Needs (λ more. LinesNeed is_log histogram.old ((number, line.now) ∷ more))
        (LinesNeed is_log histogram.new) result }
    // The histogram still grows.
    ensures grows { histogram.new.auto_resize ≡ true }
{
    if line.is_empty() {
        return Ok(());
    }
    match parse(line) {
        Some(Command::Apply(call)) => match histogram.apply(&call) {
            Ok(()) => Ok(()),
            Err(_) => Err(Fault::NoMemory),
        },
        Some(Command::End(start, duration, tag)) if is_log => {
            end(histogram, number, start, duration, tag, log)
        }
        _ => Err(Fault::NotACommand(number)),
    }
}

/// Runs the lines of `text`, the first of which has this number, and returns the number of the line
/// after them.
fn run_lines<W: Write>(
    is_log: bool,
    histogram: &mut Histogram<u64>,
    number: u64,
    text: &[u8],
    log: &mut IntervalLogWriter<'_, '_, W, V2Serializer>,
) -> Result<u64, Fault>
    // The log's divisor of greatest values is 1, and auto-resize is on.
    requires divisor { divisor_of log.old ≡ 1 }
    requires grows { histogram.old.auto_resize ≡ true }
    // What is written, and when memory may run out.
    ensures same_log { IsSameLog log.old log.new }
    ensures goes { IsStep (rest_run is_log histogram.old number (Some text.now))
        (lines_run is_log histogram.new)
        (W.contents (sink log.old).now) (W.contents (sink log.new).now) result }
    ensures memory { Needs (λ more. LinesNeed is_log histogram.old
        (number_lines number (Some text.now) ++ more)) (LinesNeed is_log histogram.new) result }
    // Auto-resize stays on, and the numbers of lines go on.
    ensures grows { histogram.new.auto_resize ≡ true }
    ensures next { IfOk result (λ next. next
        ≡ number + length (number_lines number (Some text.now))) }
{
    let mut current = number;
    let mut left = Some(text);
    while let Some(text) = left {
        // No input has 2^64 lines.
        let Some(following) = current.checked_add(1) else {
            return Err(Fault::CannotRead);
        };
        if let Some((call, after)) = value_line(text) {
            let Ok(()) = histogram.apply(&call) else {
                return Err(Fault::NoMemory);
            };
            current = following;
            left = Some(after);
            continue;
        }
        let (line, after) = split_at_first(text, b'\n');
        run_line(is_log, histogram, current, line, log)?;
        current = following;
        left = after;
    }
    Ok(current)
}

/// Runs the lines of all of the input as they are read, up to the first error, and returns the
/// histogram after them.
fn run_input<R: Read, W: Write>(
    alloc: Global,
    is_log: bool,
    mut histogram: Histogram<u64>,
    reader: &mut R,
    piece: &mut [u8],
    log: &mut IntervalLogWriter<'_, '_, W, V2Serializer>,
) -> Result<Histogram<u64>, Fault>
    // The log's divisor of greatest values is 1, auto-resize is on, and `piece` is not empty.
    requires divisor { divisor_of log.old ≡ 1 }
    requires grows { histogram.auto_resize ≡ true }
    requires nonempty { 0 < length piece.old }
    // What is written.
    ensures same_log { IsSameLog log.old log.new }
    ensures runs { OnInput (R.remaining reader.old) (λ input. RunsAll
        (lines_run is_log histogram (number_lines 1 (Some input)))
        (W.contents (sink log.old).now) (W.contents (sink log.new).now) result) }
    // What is read.
    ensures reads { ReadsAll (λ _. Unit {0}) (R.remaining reader.new) result }
{
    let mut carry = Vec::new(alloc);
    let mut number = 1;
    // The loop is bounded as those of `stream.rt`.
    for _ in 0..u64::MAX {
        let count = read_piece(reader, piece)?;
        if count == 0 {
            run_lines(is_log, &mut histogram, number, &carry, log)?;
            return Ok(histogram);
        }
        let Some(tail) = take_lines(&mut carry, &piece[..count])? else {
            continue;
        };
        number = match run_lines(is_log, &mut histogram, number, &carry, log) {
            Ok(next) => next,
            Err(fault) => return Err(fault_after_rest(reader, piece, fault)),
        };
        replace(&mut carry, tail)?;
    }
    Err(Fault::CannotRead)
}

/// Runs the lines of the input on a new histogram, and returns it. The intervals of a log are
/// written as their lines are reached.
pub(crate) fn drive<R: Read, W: Write>(
    alloc: Global,
    is_log: bool,
    sigfig: u8,
    reader: &mut R,
    writer: &mut W,
) -> Result<Histogram<u64>, Fault>
    ensures runs { OnInput (R.remaining reader.old) (λ input. RunsAll (input_run is_log sigfig input)
        (W.contents writer.old) (W.contents writer.new) result) }
    ensures reads { ReadsAll (λ _. Unit {0}) (R.remaining reader.new) result }
{
    // Each `sigfig` from 0 to 5 is valid, so this fails only if memory runs out.
    let Ok(histogram) = Histogram::new(alloc, sigfig) else {
        return Err(Fault::NoMemory);
    };
    let mut piece = vec![in alloc; 0; PIECE]?;
    let mut serializer = V2Serializer::new(alloc);
    let mut log = IntervalLogWriter::new(alloc, writer, &mut serializer, 1);
    run_input(alloc, is_log, histogram, reader, &mut piece, &mut log)
}
