//! A line on a terminal that shows how much of a file is read.

ghost use Rattle.std.specs.Prelude.{◌≡◌, ◌<◌, ◌≤◌, ◌-◌, ◌*◌, ◌/◌};

use std::io::IsTerminal;
use std::time::Instant;

const MEGABYTE: u64 = 1_000_000;

/// How much of a file is read, which is shown on standard error.
pub struct Progress<'a> {
    rt: &'a HostRuntime,
    start: Instant,
    /// The seconds from the start to when it was shown last, 0 if it never was.
    shown: u64,
    bytes: u64,
    /// The bytes of the file, if it is a regular one.
    length: Option<u64>,
}

impl<'a> Progress<'a> {
    /// Returns the progress of a file of which nothing is read. There is none if standard error is
    /// no terminal, or if `is_quiet`.
    pub(crate) fn new(
        rt: &'a HostRuntime,
        is_quiet: bool,
        length: Option<u64>,
    ) -> Option<Progress<'a>> {
        if is_quiet || !rt.stderr().is_terminal() {
            return None;
        }
        Some(Progress {
            rt,
            start: Instant::now(rt).ok()?,
            shown: 0,
            bytes: 0,
            length,
        })
    }

    /// Adds a number of bytes that were read, and shows the progress once a second.
    pub(crate) fn add(&mut self, count: usize) {
        self.bytes = self.bytes.saturating_add(count as u64);
        let Ok(elapsed) = self.start.elapsed(self.rt) else {
            return;
        };
        let seconds = elapsed.as_secs();
        if seconds > self.shown {
            self.shown = seconds;
            self.show(seconds);
        }
    }

    /// Shows how much was read in this time: of a regular file with the percentage and the time left.
    fn show(&self, seconds: u64) {
        let read = self.bytes / MEGABYTE;
        let _ = match self.length {
            Some(length) if 0 < self.bytes && self.bytes <= length => {
                let all = length / MEGABYTE;
                let percent = percent_of(self.bytes, length);
                let left = seconds_left(self.bytes, length, seconds);
                eprint!(self.rt;
                    "\r\x1b[Khdrstat: {read} of {all} MB read, {percent} %, {left} s left"
                )
            }
            _ => {
                let rate = read.checked_div(seconds).unwrap_or(read);
                eprint!(self.rt; "\r\x1b[Khdrstat: {read} MB read, {rate} MB/s")
            }
        };
    }
}

/// Returns the percentage of a part.
fn percent_of(part: u64, all: u64) -> u128
    requires { 0 < all }
    ensures { result ≡ part * 100 / all }
{
    u128::from(part) * 100 / u128::from(all)
}

/// Returns how many seconds are left, at the rate of those of a part.
fn seconds_left(part: u64, all: u64, seconds: u64) -> u128
    requires some { 0 < part }
    requires within { part ≤ all }
    ensures { result ≡ (all - part) * seconds / part }
{
    u128::from(all - part) * u128::from(seconds) / u128::from(part)
}

impl Drop for Progress<'_> {
    /// Clears the line.
    fn drop(self) {
        if self.shown > 0 {
            let _ = eprint!(self.rt; "\r\x1b[K");
        }
        let Progress {
            rt: _,
            start: _,
            shown: _,
            bytes: _,
            length: _,
        } = self;
    }
}
