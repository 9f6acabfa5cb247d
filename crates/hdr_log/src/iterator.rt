//! The entries of a log, in order.

ghost use Rattle.std.specs.Prelude.{◌≡◌, ◌≤◌, ◌+◌, length, All};
ghost use Rattle.std.specs.Iterator.{YieldsFirstBy, item_count};
ghost use Rattle.hdr_log.specs.Grammar.{reading, LiesIn};
ghost use Rattle.hdr_log.specs.Reading.{view_of_item};

use crate::entry::{LogEntry, LogIteratorError};
use crate::line::{entry, is_skipped};
use crate::parts::split_line;
use std::marker::Model;

/// An iterator over the entries of a log in order. It ends at the end of the log, or after the first invalid line, whose offset
/// is the last item. A last line without a line feed is invalid. The iterator skips comments and other headers, borrows the log,
/// and allocates nothing. Contracts see it as the list of its remaining items.
#[derive(Drop)]
pub struct IntervalLogIterator<'a> {
    input: &'a [u8],
    offset: usize,
}

impl<'a> Model for IntervalLogIterator<'a> {
    ghost use Rattle.std.specs.Prelude.{ℕ, List, Result, ◌+◌, ◌<◌, ◌^◌, length};
    ghost use Rattle.hdr_log.specs.Parts.{parts};
    ghost use Rattle.hdr_log.specs.Grammar.{Entry, readings};

    ghost Value = { List (Result Entry ℕ) };

    ghost view = { λ it. readings it.offset (parts 10 it.input.now) };

    ghost invariant = { λ it. it.offset + length it.input.now < 2 ^ 64 };
}

impl<'a> IntervalLogIterator<'a> {
    /// Returns an iterator over the entries of `input`. The offset of a parse error is an offset into it.
    pub fn new(input: &'a [u8]) -> IntervalLogIterator<'a>
        ensures items { result ≡ reading input.now }
        ensures at_most { length result ≤ length input.now + 1 }
        ensures places { All (LiesIn (length input.now)) result }
    {
        IntervalLogIterator { input, offset: 0 }
    }
}

impl<'a> Iterator for IntervalLogIterator<'a> {
    type Item = Result<LogEntry<'a>, LogIteratorError>;

    ghost next_gives = { YieldsFirstBy view_of_item (λ rest. rest) };

    ghost remaining = { item_count (λ rest. rest) };

    fn next(&mut self) -> Option<Result<LogEntry<'a>, LogIteratorError>> {
        while let Some((line, rest)) = split_line(self.input) {
            let offset = self.offset;
            self.offset = offset + line.len() + 1;
            self.input = rest;
            if let Some(entry) = entry(line) {
                return Some(Ok(entry));
            }
            if !is_skipped(line) {
                self.input = &[];
                return Some(Err(LogIteratorError::ParseError { offset }));
            }
        }
        if self.input.is_empty() {
            return None;
        }
        self.input = &[];
        Some(Err(LogIteratorError::ParseError {
            offset: self.offset,
        }))
    }
}
