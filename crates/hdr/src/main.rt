//! The program `hdr`: reports quantiles of samples, logs their histograms interval by interval, and merges such logs.
#![tactic(auto)]

ghost use Rattle.std.specs.Prelude.{◌≡◌, OnSome, length, codes};
ghost use Rattle.std.specs.Option.{option_map};

use hdr_tool::{Fault, RetryWriter, run};
use std::env;
use std::io::{ErrorKind, Write};
use std::process::ExitCode;

/// Returns the arguments of the command line, without the program's name.
fn arguments(rt: &HostRuntime) -> Result<Vec<String>, Fault> {
    let mut arguments = match env::args(rt) {
        Ok(arguments) => arguments,
        Err(e) if e.kind() == ErrorKind::OutOfMemory => return Err(Fault::NoMemory),
        Err(_) => return Err(Fault::Usage),
    };
    let _name = arguments.next();
    Ok(arguments.collect(rt.alloc())?)
}

const VERSION: &str = "hdr 3.0.0\n";

const HELP: &str = "\
Exact quantiles of samples, by HDR histograms

Usage:
  hdr report SIGFIG Q..            Report the samples of standard input
  hdr log SIGFIG                   Write them as an interval log
  hdr merge [OPTIONS] SIGFIG Q..   Report the intervals of a log, merged into one
  hdr --help | hdr --version

SIGFIG is the number of significant digits, 0 to 5. Q is a quantile, such as 99/100.

Options of merge:
  --into COUNTER   Counter type of the report: u8, u16, u32 or u64
  --tag T          Only intervals of this tag
  --from MS        Only intervals that begin at this time or later, in milliseconds
  --to MS          Only intervals that begin before this time, in milliseconds

Examples:
  seq 100 | sed 's/^/r /' | hdr report 3 1/2 99/100
  hdr merge 3 99/100 <service.log

Status: 0; 1 if the input is invalid, or input or output fails; 2 for a usage error.
`man hdr` has the lines of the input.
";

/// Returns the text that an argument asks for in place of a command, if it does.
fn text_for(argument: &str) -> Option<&'static str>
    ensures help { argument.now ≡ codes "--help"
        → option_map (λ text. text.now) result ≡ Some HELP.now }
    ensures version { argument.now ≡ codes "--version"
        → option_map (λ text. text.now) result ≡ Some VERSION.now }
{
    match argument {
        "--help" | "-h" => Some(HELP),
        "--version" | "-V" => Some(VERSION),
        _ => None,
    }
}

/// Returns the text that the arguments ask for, if one asks for it and is alone.
fn text_asked_for(arguments: &[String]) -> Option<&'static str>
    ensures { OnSome result (length arguments.now ≡ 1) }
{
    match arguments {
        [argument] => text_for(argument.as_str()),
        _ => None,
    }
}

/// Runs the program on the streams of the process. Nothing of the output is held back: each report and each interval is one
/// write.
fn hdr(rt: &HostRuntime) -> Result<(), Fault> {
    let arguments = arguments(rt)?;
    let mut output = RetryWriter {
        writer: rt.stdout(),
    };
    if let Some(text) = text_asked_for(&arguments) {
        return output
            .write_all(text.as_bytes())
            .map_err(|_| Fault::CannotWrite);
    }
    run(
        rt.alloc(),
        arguments.as_slice(),
        &mut rt.stdin(),
        &mut output,
    )
}

fn main(rt: HostRuntime) -> ExitCode {
    match hdr(&rt) {
        Ok(()) => ExitCode::SUCCESS,
        Err(fault) => {
            let _ = eprintln!(rt; "{fault}");
            ExitCode::from(fault.status())
        }
    }
}
