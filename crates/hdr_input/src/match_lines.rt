//! Numbers from the matches of a regular expression in lines.

use crate::errors::{InputError, InputPlace};
use crate::lines::{split_line, without_mark};
use crate::pieces::{LineSink, read_lines};
use crate::rows::{RowSink, RowTexts};
use regex::bytes::{CaptureLocations, Matcher, Regex};
use std::alloc::Global;
use std::io::Read;

/// Reads the number of each line that matches, which is the text of the first group. Lines without
/// a match are left out.
pub fn read_matches<R: Read + Drop, S: RowSink>(
    alloc: Global,
    reader: R,
    regex: &Regex,
    sink: &mut S,
) -> Result<(), InputError> {
    let mut lines = MatchLines {
        matcher: regex.matcher(alloc)?,
        locations: regex.capture_locations(alloc)?,
        sink,
    };
    read_lines(alloc, reader, &mut lines)
}

/// Passes the texts of a group to a sink.
#[derive(Drop)]
struct MatchLines<'r, 's, S> {
    matcher: Matcher<'r>,
    locations: CaptureLocations,
    sink: &'s mut S,
}

impl<S: RowSink> LineSink for MatchLines<'_, '_, S> {
    ghost takes = { λ _ _ _ _ _. Unit {0} };

    ghost takes_none = { λ _ _. tt };

    ghost takes_more = { λ _ _ _ _ _ _ _ _ _ _ _. tt };

    fn take_lines(&mut self, alloc: Global, lines: &[u8], first: u64) -> Result<u64, InputError> {
        let mut rest = lines;
        let mut number = first;
        while !rest.is_empty() {
            let (line, after) = split_line(rest);
            self.take_line(alloc, without_cr(without_mark(line, number)), number)?;
            rest = after;
            number = number.saturating_add(1);
        }
        Ok(number)
    }
}

impl<S: RowSink> MatchLines<'_, '_, S> {
    /// Takes a line, if it matches.
    fn take_line(&mut self, alloc: Global, line: &[u8], number: u64) -> Result<(), InputError> {
        if self
            .matcher
            .captures_read(&mut self.locations, line)
            .is_none()
        {
            return Ok(());
        }
        let Some((start, end)) = self.locations.get(1) else {
            return Ok(());
        };
        let Some(text) = line.get(start..end) else {
            return Ok(());
        };
        let row = RowTexts {
            place: InputPlace::Line(number),
            row: line,
            value: Ok(text.trim_ascii()),
            count: None,
            time: None,
            group: None,
        };
        self.sink.take_row(alloc, row)
    }
}

/// Returns a line without the CR of its end.
fn without_cr(line: &[u8]) -> &[u8] {
    match line {
        [line @ .., b'\r'] => line,
        line => line,
    }
}
