//! The start time of a log, and the unit and decimals of its values.

ghost use Rattle.std.specs.Prelude.{◌≡◌};
ghost use Rattle.std.specs.Option.{option_map, option_or};
ghost use Rattle.std.specs.Duration.{as_nanos};
ghost use Rattle.hdr_log.specs.Parts.{parts};
ghost use Rattle.hdr_log.specs.Grammar.{after_front};
ghost use Rattle.hdr_c.specs.Headers.{trimmed, first_in, start_in, unit_in, decimals_in, IsHeader};

use crate::interval::Time;
use hdr_log::LogEntry;
use hdr_log::line::entry;
use hdr_log::parts::{number, split_line, split_once};
use std::time::Duration;

/// At most this many of a value's digits are decimals.
const MOST_DECIMALS: u64 = 18;

/// What the headers and comments of a log have: its first start time, the number of decimals of its values,
/// and the number of nanoseconds of their unit. These are 0 if no comment has them.
#[repr(C)]
#[derive(Drop)]
pub struct LogHeader {
    pub start_time: Time,
    pub has_start_time: bool,
    pub decimals: u8,
    pub unit_nanos: u64,
}

/// The first of each that lines have.
#[derive(Drop)]
struct Found {
    start: Option<Duration>,
    decimals: Option<u8>,
    unit: Option<u64>,
}

/// Stores the first start time of a log, and its first decimals and unit, by its complete lines.
#[unsafe(no_mangle)]
pub extern "C" fn dkap_log_header_of(log: &[u8], header: &mut LogHeader)
    ensures { IsHeader log.now header.new }
{
    let mut found = Found {
        start: None,
        decimals: None,
        unit: None,
    };
    let mut text = log;
    while let Some((line, rest)) = split_line(text) {
        found = found.or(line);
        text = rest;
    }
    *header = LogHeader {
        start_time: Time::new(found.start.unwrap_or(Duration::ZERO)),
        has_start_time: found.start.is_some(),
        decimals: found.decimals.unwrap_or(0),
        unit_nanos: found.unit.unwrap_or(0),
    };
}

impl Found {
    /// Returns what these lines have, and what `line` has of what they do not.
    fn or(self, line: &[u8]) -> Found
        ensures start { option_map as_nanos result.start ≡ option_or (option_map as_nanos self.start) (start_in line.now) }
        ensures decimals { result.decimals ≡ option_or self.decimals (decimals_in line.now) }
        ensures unit { result.unit ≡ option_or self.unit (unit_in line.now) }
    {
        Found {
            start: self.start.or_else(|| start_of(line)),
            decimals: self.decimals.or_else(|| decimals_of(line)),
            unit: self.unit.or_else(|| unit_of(line)),
        }
    }
}

/// Returns the start time of a line, if it is the header of one.
fn start_of(line: &[u8]) -> Option<Duration>
    ensures { option_map as_nanos result ≡ start_in line.now }
{
    match entry(line)? {
        LogEntry::StartTime(time) => Some(time),
        LogEntry::BaseTime(_) | LogEntry::Interval(_) => None,
    }
}

/// Returns the unit of a line, if it is a comment with one, in nanoseconds.
#[tactic(auto, unfolding(crate::specs::Headers::unit_in))]
fn unit_of(line: &[u8]) -> Option<u64>
    ensures { result ≡ unit_in line.now }
{
    let line = trimmed(line);
    if line == b"#[Values are in ns]".as_slice() {
        Some(1)
    } else if line == b"#[Values are in us]".as_slice() {
        Some(1_000)
    } else if line == b"#[Values are in ms]".as_slice() {
        Some(1_000_000)
    } else if line == b"#[Values are in s]".as_slice() {
        Some(1_000_000_000)
    } else {
        None
    }
}

/// Returns the decimals of a line, if it is a comment with at most [`MOST_DECIMALS`] of them.
#[tactic(auto, unfolding(crate::specs::Headers::decimals_in))]
fn decimals_of(line: &[u8]) -> Option<u8>
    ensures { result ≡ decimals_in line.now }
{
    let rest = strip_prefix(trimmed(line), b"#[Values have ")?;
    let (digits, rest) = split_once(rest, b' ')?;
    let decimals = number(digits)?;
    if rest == b"decimals]".as_slice() && decimals <= MOST_DECIMALS {
        Some(decimals as u8)
    } else {
        None
    }
}

/// Returns a line without the ASCII whitespace at its end, such as a CR.
fn trimmed(line: &[u8]) -> &[u8]
    ensures { result.now ≡ trimmed line.now }
{
    line.trim_ascii_end()
}

/// Returns `line` without the prefix, or `None` if it does not start with it.
fn strip_prefix<'a>(line: &'a [u8], prefix: &[u8]) -> Option<&'a [u8]>
    ensures { option_map (λ x. x.now) result ≡ after_front prefix.now line.now }
{
    line.strip_prefix(prefix)
}
