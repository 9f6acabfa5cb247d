//! Plays files of rows, `hdr_rows FILE..`: text in the language that `hdr_play` describes. It prints each line that fails, with
//! what was wanted and what came, and at the end how many rows passed and failed.
#![tactic(auto)]

#[cfg(test)]
mod tests;

use hdr_play::Report;
use std::process::ExitCode;
use std::{env, fs, io};

/// Plays the rows of a file. Returns whether no allocation failed.
fn play_file(rt: &HostRuntime, report: &mut Report, file: &str) -> io::Result<bool> {
    let text = fs::read_to_string(rt, file)?;
    Ok(report.play(file, text.as_str()).is_ok())
}

/// Plays all files, and prints the report. Returns whether there are rows and all passed.
fn play_files(rt: &HostRuntime) -> io::Result<bool> {
    let mut report = Report::new(rt.alloc());
    for file in env::args(rt)?.skip(1) {
        if !play_file(rt, &mut report, file.as_str())? {
            return Ok(false);
        }
    }
    print!(rt; "{}", report.output.as_str())?;
    println!(rt; "{} passed, {} failed", report.passed, report.failed)?;
    Ok(report.passed > 0 && report.failed == 0)
}

fn main(rt: HostRuntime) -> ExitCode {
    match play_files(&rt) {
        Ok(true) => ExitCode::SUCCESS,
        Ok(false) => ExitCode::FAILURE,
        Err(error) => {
            let _ = eprintln!(rt; "hdr_rows: {error}");
            ExitCode::FAILURE
        }
    }
}
