//! `hdrstat`: percentiles of numbers and of interval logs, a subcommand for each question.
#![tactic(auto)]

mod compared;
mod page;
mod subcommands;

use clap::error::ErrorKind as UsageErrorKind;
use hdr_files::{StatError, print_error_line};
use std::alloc::AllocError;
use std::env;
use std::io::{self, ErrorKind};
use std::process::ExitCode;

/// The status of a usage error.
const USAGE: u8 = 2;

fn main(rt: HostRuntime) -> ExitCode {
    let arguments: Vec<String> = match env::args(&rt) {
        Ok(arguments) => match arguments.collect(rt.alloc()) {
            Ok(arguments) => arguments,
            Err(_) => return fail(&rt, "", &StatError::OutOfMemory),
        },
        Err(error) => return bad_arguments(&rt, &error),
    };
    let command = match subcommands::command(rt.alloc()) {
        Ok(command) => command,
        Err(error) => return print_of_clap(&rt, &error),
    };
    let matches = match command.try_get_matches_from(arguments.as_slice()) {
        Ok(matches) => matches,
        Err(error) => return print_of_clap(&rt, &error),
    };
    let Some((name, matches)) = matches.subcommand() else {
        return ExitCode::from(USAGE);
    };
    match subcommands::run(&rt, name, matches) {
        Ok(status) => status,
        Err(error) => fail(&rt, name, &error),
    }
}

/// Returns the status if the arguments are not read.
fn bad_arguments(rt: &HostRuntime, error: &io::Error) -> ExitCode {
    if error.kind() == ErrorKind::OutOfMemory {
        return fail(rt, "", &StatError::OutOfMemory);
    }
    let _ = eprintln!(rt; "error: an argument is not valid UTF-8");
    ExitCode::from(USAGE)
}

/// Prints a usage error of clap, or the help or the version, and returns the status.
fn print_of_clap(rt: &HostRuntime, error: &clap::Error) -> ExitCode {
    if error.kind() == UsageErrorKind::OutOfMemory {
        return fail(rt, "", &StatError::OutOfMemory);
    }
    if error.use_stderr() {
        print_lines(rt, format!(in rt.alloc(); "{error}"));
        return ExitCode::from(USAGE);
    }
    match error.print(rt) {
        Ok(()) => ExitCode::SUCCESS,
        Err(error) => fail(rt, "", &StatError::Output(error)),
    }
}

/// Prints an error, and returns the status. A broken pipe is not printed.
fn fail(rt: &HostRuntime, subcommand: &str, error: &StatError) -> ExitCode {
    match error {
        StatError::Usage(text) => {
            print_or_fail(rt, format!(in rt.alloc(); "error: {text}"));
            let _ = eprintln!(rt; "\nFor more information, try 'hdrstat {subcommand} --help'.");
        }
        StatError::Output(cause) if cause.kind() == ErrorKind::BrokenPipe => {}
        error => print_or_fail(rt, format!(in rt.alloc(); "hdrstat: {error}")),
    }
    ExitCode::from(error.status())
}

/// Prints lines on standard error, or an error if their allocation failed.
fn print_lines(rt: &HostRuntime, lines: Result<String, AllocError>) {
    match lines {
        Ok(lines) => {
            for line in lines.lines() {
                print_error_line(rt, line);
            }
        }
        Err(error) => print_or_fail(rt, Err(error)),
    }
}

/// Prints a line on standard error, or an error if its allocation failed.
fn print_or_fail(rt: &HostRuntime, line: Result<String, AllocError>) {
    match line {
        Ok(line) => print_error_line(rt, line.as_str()),
        Err(_) => {
            let _ = eprintln!(rt; "hdrstat: out of memory");
        }
    }
}
