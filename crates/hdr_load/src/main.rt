//! Simulates a load generator with a fixed schedule, and writes what it measures.
//!
//! `hdr_load INTERVAL SIGFIG <services` is for whoever plans a load test, or wants its figures from recorded service times.
//! Each line of standard input is the service time of one request in microseconds. Requests are due at 0, INTERVAL,
//! 2 * INTERVAL, .. microseconds. Each starts when it is due or when the one before it has ended, whichever is later.
//! The time from its actual start to its end is recorded with correction for coordinated omission, with SIGFIG digits.
//!
//! Standard output is an interval log with an interval for each second in which a request ended. Values are in microseconds,
//! and the greatest values of the log's lines in milliseconds.
#![tactic(auto)]

ghost use Rattle.std.specs.Prelude.{◌≡◌, IfOk};
ghost use Rattle.hdrhistogram.specs.LogWriters.{divisor_of, IsSameLog};

mod client;
mod second;

use anyhow::{Context, Result, bail};
use client::Client;
use hdrhistogram::serialization::V2Serializer;
use hdrhistogram::serialization::interval_log::{IntervalLogWriter, IntervalLogWriterBuilder};
use second::{PER_MILLISECOND, Second, record_response, write_second};
use std::alloc::Global;
use std::env;
use std::io::{BufRead, BufReader, ErrorKind, Write};
use std::process::ExitCode;

/// The parsed arguments.
#[derive(Clone, Copy)]
struct Plan {
    /// The time between two requests in microseconds, 1 or more.
    interval: u64,
    /// The significant digits, at most 5.
    sigfig: u8,
}

/// Returns the arguments after the program's name, or `None` if one of them is not UTF-8.
fn arguments(rt: &HostRuntime) -> Result<Option<Vec<String>>> {
    match env::args(rt) {
        Ok(args) => Ok(Some(args.skip(1).collect(rt.alloc())?)),
        Err(e) if e.kind() == ErrorKind::OutOfMemory => Err(e.into()),
        Err(_) => Ok(None),
    }
}

/// Parses decimal digits. Returns `None` without digits, for any other byte, and on overflow.
fn parse_u64(text: &str) -> Option<u64> {
    if text.bytes().all(|b| b.is_ascii_digit()) {
        text.parse().ok()
    } else {
        None
    }
}

/// Parses the arguments `INTERVAL SIGFIG`.
fn parse_plan(args: &[String]) -> Option<Plan> {
    let [interval, sigfig] = args else {
        return None;
    };
    let interval = parse_u64(interval.as_str())?;
    let sigfig = parse_u64(sigfig.as_str())?;
    if interval == 0 || sigfig > 5 {
        return None;
    }
    Some(Plan {
        interval,
        sigfig: sigfig as u8,
    })
}

/// Writes the start of the log: a comment and the divisor of greatest values.
fn begin<'a, 'b, W: Write>(
    alloc: Global,
    output: &'a mut W,
    serializer: &'b mut V2Serializer,
) -> Result<IntervalLogWriter<'a, 'b, W, V2Serializer>>
    ensures { IfOk result (λ log. divisor_of log ≡ 1_000) }
{
    let mut builder = IntervalLogWriterBuilder::new(alloc);
    builder.add_comment("values in microseconds, greatest values in milliseconds")?;
    builder.with_max_value_divisor(PER_MILLISECOND);
    Ok(builder.begin_log_with(output, serializer)?)
}

/// Sends the request whose service time is on `line`, and records it.
fn send_line<W: Write>(
    line: &str,
    client: &mut Client,
    second: &mut Second,
    log: &mut IntervalLogWriter<'_, '_, W, V2Serializer>,
) -> Result<()>
    requires { divisor_of log.old ≡ 1_000 }
    ensures { IsSameLog log.old log.new }
{
    let Some(service) = parse_u64(line) else {
        bail!("not a number");
    };
    let Some(end) = client.send(service) else {
        bail!("the run is longer than 64 bits of microseconds");
    };
    record_response(second, log, end, service, client.interval())
}

/// Sends the requests of standard input, and writes the log.
fn load(rt: &HostRuntime, plan: Plan) -> Result<()> {
    let alloc = rt.alloc();
    let mut output = rt.stdout();
    let mut serializer = V2Serializer::new(alloc);
    let mut log = begin(alloc, &mut output, &mut serializer)?;
    let mut client = Client::new(plan.interval);
    let mut second = Second::new(alloc, plan.sigfig)?;
    let mut number = 0u64;
    for line in BufReader::new(alloc, rt.stdin())?.lines(alloc) {
        let line = line?;
        number = number.saturating_add(1);
        send_line(line.as_str(), &mut client, &mut second, &mut log).context(format_args!(
            "line {number}"
        ))?;
    }
    write_second(&mut second, &mut log)
}

/// Runs the program on its arguments, and returns the exit status.
fn hdr_load(rt: &HostRuntime) -> Result<ExitCode> {
    let args = arguments(rt)?;
    let plan = match &args {
        Some(args) => parse_plan(args),
        None => None,
    };
    let Some(plan) = plan else {
        eprintln!(rt; "hdr_load: usage: hdr_load INTERVAL SIGFIG <services")?;
        return Ok(ExitCode::from(2));
    };
    load(rt, plan)?;
    Ok(ExitCode::SUCCESS)
}

fn main(rt: HostRuntime) -> ExitCode {
    match hdr_load(&rt) {
        Ok(status) => status,
        Err(error) => {
            let _ = eprintln!(rt; "hdr_load: {error:#}");
            ExitCode::FAILURE
        }
    }
}
