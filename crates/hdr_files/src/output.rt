//! Standard output, and a file in place of it.

mod replace;

use crate::errors::StatError;
use hdr_input::visible::visible;
pub use replace::{check_output, write_output};
use std::io::{self, Stdout, Write};

/// Standard output, to which writes are complete: one that is interrupted is retried.
#[derive(Drop)]
pub struct Output {
    stdout: Stdout,
}

impl Output {
    /// Returns standard output.
    pub fn new(rt: &HostRuntime) -> Output {
        Output {
            stdout: rt.stdout(),
        }
    }
}

impl Write for Output {
    fn write(&mut self, bytes: &[u8]) -> io::Result<usize> {
        self.stdout.write_all(bytes)?;
        Ok(bytes.len())
    }

    fn flush(&mut self) -> io::Result<()> {
        self.stdout.flush()
    }
}

/// Prints bytes.
pub fn print(rt: &HostRuntime, bytes: &[u8]) -> Result<(), StatError> {
    let mut output = rt.stdout();
    output.write_all(bytes).map_err(StatError::Output)?;
    output.flush().map_err(StatError::Output)
}

/// Prints a line on standard error, with `?` for characters that are invisible on a terminal.
pub fn print_error_line(rt: &HostRuntime, line: &str) {
    let _ = match visible(rt.alloc(), line) {
        Ok(line) => eprintln!(rt; "{line}"),
        Err(_) => eprintln!(rt; "hdrstat: out of memory"),
    };
}
