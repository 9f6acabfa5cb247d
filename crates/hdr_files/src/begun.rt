//! Inputs of which the first bytes are read before the others.

ghost use Rattle.std.specs.Prelude.{◌≤◌, length};

use crate::files::Input;
use hdr_input::InputError;
use hdr_input::retry::RetryReader;
use std::alloc::Global;
use std::io::{self, Read};

/// How many bytes of an input are surveyed. A line that begins in them is surveyed to its end.
const SURVEYED: usize = 65_536;

/// The most bytes that are read first: no line has as many as a survey.
const MOST_FIRST: usize = 2 * SURVEYED;

/// The bytes that a file compressed by gzip begins with.
const GZIP: [u8; 2] = [0x1f, 0x8b];

/// What is read of an input before its other bytes.
#[derive(Clone, Copy, PartialEq, Eq)]
pub(crate) enum First {
    /// As many bytes as show whether it is compressed.
    Bytes,
    /// The lines that are surveyed.
    Lines,
}

impl First {
    /// Whether the start of an input has all that is read first.
    fn is_read(self, start: &[u8]) -> bool {
        match self {
            First::Bytes => start.len() >= GZIP.len(),
            First::Lines => surveyed_len(start) < start.len() || start.len() >= MOST_FIRST,
        }
    }
}

/// An input whose first bytes were read, and are read again from memory.
#[derive(Drop)]
pub(crate) struct BegunInput<'a> {
    start: Vec<u8>,
    /// How many of these bytes were read again.
    at: usize,
    input: RetryReader<Input<'a>>,
}

impl<'a> BegunInput<'a> {
    /// Reads the first bytes or lines of an input, or all of it if it is short.
    ///
    /// # Errors
    /// Returns an error if reading fails, if memory runs out, or if the input is compressed.
    pub(crate) fn new(
        alloc: Global,
        input: Input<'a>,
        first: First,
    ) -> Result<BegunInput<'a>, InputError> {
        let mut input = RetryReader { reader: input };
        let mut start = Vec::new(alloc);
        let mut buffer = vec![in alloc; 0u8; SURVEYED]?;
        // Each read but the last returns a byte or more.
        for _ in 0..MOST_FIRST {
            let len = input.read(&mut buffer).map_err(InputError::of_reading)?;
            if let Some(bytes) = buffer.get(..len) {
                start.extend_from_slice(bytes)?;
            }
            if len == 0 || first.is_read(&start) {
                break;
            }
        }
        if start.starts_with(&GZIP) {
            return Err(InputError::Gzip);
        }
        Ok(BegunInput {
            start,
            at: 0,
            input,
        })
    }

    /// Returns the lines that begin in the first 64 KiB.
    pub(crate) fn first_lines(&self) -> &[u8] {
        let len = surveyed_len(&self.start);
        &self.start[..len]
    }
}

/// Returns the length of the lines of a text that begin in its first bytes.
fn surveyed_len(start: &[u8]) -> usize
    ensures { result ≤ length start.now }
{
    let Some(rest) = start.get(SURVEYED - 1..) else {
        return start.len();
    };
    match rest.iter().position(|byte| *byte == b'\n') {
        Some(at) => SURVEYED + at,
        None => start.len(),
    }
}

impl Read for BegunInput<'_> {
    fn read(&mut self, buffer: &mut [u8]) -> io::Result<usize> {
        let mut rest = self.start.get(self.at..).unwrap_or(&[]);
        if rest.is_empty() {
            return self.input.read(buffer);
        }
        let len = rest.read(buffer)?;
        self.at += len;
        Ok(len)
    }
}
