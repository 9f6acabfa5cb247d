//! The program over readers and writers that read or write few bytes a call, and that fail.

use crate::tests::FIRST_LINE;
use crate::tests::failing::{KINDS, Sink, Source};
use hdr_tool::{Fault, RetryWriter, run};
use std::alloc::{AllocError, Global};
use std::io::ErrorKind;
use std::process::Abort;
use std::test::Fail;

/// Splits a line at its spaces into arguments.
fn split_args(alloc: Global, line: &str) -> Result<Vec<String>, AllocError> {
    let mut args = Vec::new(alloc);
    for arg in line.split(' ') {
        args.push(String::from_str(alloc, arg)?)?;
    }
    Ok(args)
}

/// The arguments of a run, its input, and its output.
type Command = (&'static str, &'static str, &'static str);

const REPORTED: &str =
    "len 5\n3/10 2\nv2 1c849313000000030000000000000003000000000000000100000000000000023ff0000000000000000208\n";

const REPORT: Command = ("report 3 3/10", "r 1\nr 2\nr 2\nr 2\nr 2\n", REPORTED);

const LOG: Command = ("log 3", "r 1\nr 2 4\nend 0 1000 a\n", FIRST_LINE);

const MERGE: Command = ("merge 3 3/10", FIRST_LINE, REPORTED);

#[test]
fn a_byte_at_a_time(rt: HostRuntime) -> Result<(), Fail> {
    let args = split_args(rt.alloc(), REPORT.0)?;
    let mut source = Source::new(REPORT.1.as_bytes(), 1, 0, ErrorKind::Other);
    let mut sink = Sink::new(1, 0, None);
    let result = run(rt.alloc(), args.as_slice(), &mut source, &mut sink);
    assert!(rt; result.is_ok());
    assert_eq!(rt; sink.written(), REPORT.2.as_bytes());
    Ok(())
}

/// Runs the program on an input that fails. Returns whether that is the error, and the output was
/// written.
fn fails_to_read(alloc: Global, args: &[String], mut source: Source<'_>, output: &str) -> bool {
    let mut sink = Sink::new(256, 0, None);
    let result = run(alloc, args, &mut source, &mut sink);
    matches!(result, Err(Fault::CannotRead)) && sink.written() == output.as_bytes()
}

/// Lets each of these reads of a byte fail in turn, with each kind of error that ends the run: an
/// interrupted read is retried. The command's output is written before.
fn check_reads(
    rt: &(impl Abort + AllocGlobal),
    command: Command,
    reads: (usize, usize),
) -> Result<(), Fail> {
    let (args, input, output) = command;
    let args = split_args(rt.alloc(), args)?;
    for kind in KINDS.into_iter().flatten() {
        for at in reads.0..=reads.1 {
            let source = Source::new(input.as_bytes(), 1, at, kind);
            let is_expected = kind == ErrorKind::Interrupted
                || fails_to_read(rt.alloc(), args.as_slice(), source, output);
            assert!(rt; is_expected, "{kind:?} at {at}");
        }
    }
    Ok(())
}

/// Nothing is written before a read that fails, up to the one at the end of the input.
#[test]
fn each_read_fails(rt: HostRuntime) -> Result<(), Fail> {
    check_reads(&rt, (REPORT.0, REPORT.1, ""), (1, 21))?;
    check_reads(&rt, (MERGE.0, "#a comment\n", ""), (1, 12))?;
    // A read that fails after a line that is not a command is reported, and not that line.
    check_reads(&rt, (REPORT.0, "x\nr 1\n", ""), (1, 7))?;
    check_reads(&rt, (LOG.0, "x\nr 1\n", ""), (1, 7))
}

/// The input of a log of two intervals, of which the first is that of `LOG`, and its output.
const TWO_INPUT: &str = "r 1\nr 2 4\nend 0 1000 a\nr 1\nend 0 1\n";

const TWO_OUTPUT: &str =
    "Tag=a,0.000,1.000,2.000,HISTEwAAAAMAAAAAAAAAAwAAAAAAAAABAAAAAAAAAAI/8AAAAAAAAAACCA==\n0.000,0.001,1.000,HISTEwAAAAIAAAAAAAAAAwAAAAAAAAABAAAAAAAAAAI/8AAAAAAAAAAC\n";

/// A log has written the intervals before the read that fails.
#[test]
fn each_read_of_a_log_fails(rt: HostRuntime) -> Result<(), Fail> {
    check_reads(&rt, (LOG.0, TWO_INPUT, ""), (1, 23))?;
    check_reads(&rt, (LOG.0, TWO_INPUT, FIRST_LINE), (24, 35))?;
    check_reads(&rt, (LOG.0, TWO_INPUT, TWO_OUTPUT), (36, 36))
}

/// Runs the program on an output that fails. Returns whether that is the error, and exactly the
/// part of the command's output before it was written.
fn fails_to_write(alloc: Global, args: &[String], command: Command, mut sink: Sink) -> bool {
    let mut source = Source::new(command.1.as_bytes(), 20, 0, ErrorKind::Other);
    let result = run(alloc, args, &mut source, &mut sink);
    matches!(result, Err(Fault::CannotWrite)) && sink.holds_prefix(command.2.as_bytes())
}

/// Lets each write of ten bytes of a command fail in turn, by an error of each kind, and by
/// returning 0.
fn check_writes(rt: &(impl Abort + AllocGlobal), command: Command) -> Result<(), Fail> {
    let args = split_args(rt.alloc(), command.0)?;
    let last = command.2.len().div_ceil(10);
    for kind in KINDS {
        for at in 1..=last {
            let sink = Sink::new(10, at, kind);
            let is_expected = fails_to_write(rt.alloc(), args.as_slice(), command, sink);
            assert!(rt; is_expected, "{kind:?} at {at}");
        }
    }
    let after = Sink::new(10, last.saturating_add(1), None);
    assert!(rt; !fails_to_write(rt.alloc(), args.as_slice(), command, after));
    Ok(())
}

#[test]
fn each_write_fails(rt: HostRuntime) -> Result<(), Fail> {
    check_writes(&rt, REPORT)?;
    check_writes(&rt, LOG)?;
    check_writes(&rt, MERGE)
}

/// Runs the program with an interrupted read and an interrupted write, on an output that retries. Returns whether all of the
/// output was written.
fn retries(alloc: Global, command: Command) -> Result<bool, AllocError> {
    let args = split_args(alloc, command.0)?;
    let mut source = Source::new(command.1.as_bytes(), 7, 2, ErrorKind::Interrupted);
    let writer = Sink::new(10, 2, Some(ErrorKind::Interrupted));
    let mut retry = RetryWriter { writer };
    let result = run(alloc, args.as_slice(), &mut source, &mut retry);
    Ok(result.is_ok() && retry.writer.written() == command.2.as_bytes())
}

/// `check_writes` has the outputs that don't retry, which end each command.
#[test]
fn interruptions_are_retried(rt: HostRuntime) -> Result<(), Fail> {
    for command in [REPORT, LOG, MERGE] {
        assert!(rt; retries(rt.alloc(), command)?, "{}", command.0);
    }
    Ok(())
}
