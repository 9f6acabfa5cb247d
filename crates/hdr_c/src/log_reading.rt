//! The intervals of a log in the caller's memory, one after another.

ghost use Rattle.std.specs.Prelude.{◌≡◌, ◌≤◌, ◌<◌, drop, length};
ghost use Rattle.std.specs.Char.{is_ascii_whitespace};
ghost use Rattle.std.specs.List.{list_all};
ghost use Rattle.std.specs.Option.{option_map, option_or};
ghost use Rattle.hdr_log.specs.Parts.{parts};
ghost use Rattle.hdr_c.specs.Calls.{held};
ghost use Rattle.hdr_c.specs.Logs.{first_from, is_passed, view_of_found, AreBaseNanosInRange, ReadsNext};
ghost use Rattle.hdr_c.specs.Times.{as_time, AreNanosInRange};

use crate::decoding::field_histogram;
use crate::handle::Handle;
use crate::interval::{Found, NextInterval, Time};
use crate::status::{INVALID_LINE, LOG_END, OK, OUT_OF_MEMORY};
use hdr_log::LastBaseTime;
use hdr_log::line::{entry, is_skipped};
use hdr_log::parts::split_line;
use std::alloc::Global;

/// Returns the first interval of the lines of `log` from the byte `from` on.
fn first_interval(log: &[u8], from: usize, base: Option<Time>) -> Found<'_>
    requires { from ≤ length log.now }
    ensures found { view_of_found result ≡ first_from from (option_map as_time base)
        (parts 10 (drop from log.now)) }
    ensures base_nanos { AreNanosInRange base → AreBaseNanosInRange result }
{
    let mut at = from;
    let mut last = LastBaseTime::new();
    let mut text = &log[from..];
    while let Some((line, rest)) = split_line(text) {
        let next = at + line.len() + 1;
        if let Some(entry) = entry(line) {
            if let Some(found) = last.timed(entry) {
                return Found::Interval(at, next, last_base(&last, base), found.interval);
            }
        } else if !is_passed(line) {
            return Found::Invalid(at);
        }
        at = next;
        text = rest;
    }
    if text.is_empty() {
        Found::End
    } else {
        Found::Invalid(at)
    }
}

/// Whether a line is skipped, or has only whitespace.
#[tactic(auto, unfolding(crate::specs::Logs::is_passed))]
fn is_passed(line: &[u8]) -> bool
    ensures { result ≡ is_passed line.now }
{
    is_skipped(line) || is_blank(line)
}

/// Whether a line has only whitespace.
fn is_blank(line: &[u8]) -> bool
    ensures { result ≡ list_all is_ascii_whitespace line.now }
{
    line.iter().all(|byte| byte.is_ascii_whitespace())
}

/// Returns the last base time of the lines read, or `base` if they have none.
fn last_base(last: &LastBaseTime, base: Option<Time>) -> Option<Time>
    ensures time { option_map as_time result ≡ option_or last.now (option_map as_time base) }
    ensures nanos { AreNanosInRange base → AreNanosInRange result }
{
    match last.get() {
        Some(time) => Some(Time::new(time)),
        None => base,
    }
}

/// Reads the next interval of a log, and decodes its histogram, in any form and of at most `limit` bins, into the handle.
#[unsafe(no_mangle)]
pub extern "C" fn dkap_log_next(
    h: &mut Handle,
    alloc: Global,
    log: &[u8],
    limit: u64,
    interval: &mut NextInterval,
) -> u32
    ensures read { ReadsNext result log.now limit interval.old interval.new (held h.old) (held h.new) }
    ensures base_nanos { interval.old.base.nanos < 1_000_000_000 → interval.new.base.nanos < 1_000_000_000 }
{
    let from = interval.next.min(log.len());
    let (at, next, base, found) = match first_interval(log, from, interval.base()) {
        Found::End => return LOG_END,
        Found::Invalid(at) => {
            interval.next = at;
            return INVALID_LINE;
        }
        Found::Interval(at, next, base, found) => (at, next, base, found),
    };
    *interval = NextInterval::new(at, next, base, &found);
    let histogram = match field_histogram(alloc, found.encoded_histogram(), limit) {
        Ok(histogram) => histogram,
        Err(status) => return status,
    };
    match h.fill(alloc, histogram) {
        Ok(()) => OK,
        Err(_) => OUT_OF_MEMORY,
    }
}
