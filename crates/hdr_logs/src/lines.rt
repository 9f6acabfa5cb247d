//! The lines of a reader.

ghost use Rattle.std.specs.Prelude.{◌≡◌, ◌≢◌, ◌-◌, ◌<◌, ◌≤◌, true, All, Ok, IfOk, IfErr, OnSome};
ghost use Rattle.std.specs.Prelude.{length, take};
ghost use Rattle.std.specs.Io.{StopsAt, StartsWith, IsEmptyOrEndsWith, appended_bytes};
ghost use Rattle.std.specs.Io.KnownBytes.{Consumes, IsAtEnd};
ghost use Rattle.hdr_logs.specs.Errors.{IsReadError};
ghost use Rattle.hdr_logs.specs.Lines.{ReadsLine};

use crate::errors::LogError;
use crate::place::Place;
use hdr_input::errors::excerpt;
use memchr::memchr;
use std::alloc::Global;
use std::io::{self, BufRead};

/// The longest line of a log that is read, in bytes. A histogram of 5 digits over all of `u64`
/// needs less.
pub(crate) const LONGEST: usize = 268_435_456;

/// Returns the length of a text through its first LF, or all of it.
fn len_through_lf(text: &[u8]) -> usize
    ensures bound { result ≤ length text.now }
    ensures nonempty { 0 < length text.now → 0 < result }
    ensures before { All (λ x. x ≢ 10) (take (result - 1) text.now) }
{
    match memchr(b'\n', text) {
        Some(at) => at + 1,
        None => text.len(),
    }
}

/// Appends what a reader has buffered of a line, through its LF. Returns whether the line is
/// complete, which it also is at the end.
fn push_buffered<R: BufRead>(reader: &mut R, line: &mut Vec<u8>) -> io::Result<bool>
    ensures appends { StartsWith line.new.items line.old.items }
    ensures stops { StopsAt (appended_bytes line.old.items line.new.items) 10 }
    ensures bytes { Consumes (R.remaining reader.old) (R.remaining reader.new)
        (appended_bytes line.old.items line.new.items) }
    ensures end { result ≡ Ok true → length (appended_bytes line.old.items line.new.items) ≡ 0
        → OnSome (R.remaining reader.old) (IsAtEnd (R.remaining reader.new)) }
    ensures partial { result ≢ Ok true
        → All (λ x. x ≢ 10) (appended_bytes line.old.items line.new.items) }
    ensures complete { result ≡ Ok true
        → IsEmptyOrEndsWith (appended_bytes line.old.items line.new.items) 10 }
{
    let available = match reader.fill_buf() {
        Ok(available) => available,
        Err(error) if error.kind() == io::ErrorKind::Interrupted => return Ok(false),
        Err(error) => return Err(error),
    };
    let end = len_through_lf(available);
    line.extend_from_slice(&available[..end])?;
    let is_complete = end == 0 || available[end - 1] == b'\n';
    reader.consume(end);
    Ok(is_complete)
}

/// Reads a line with its LF, if it has one. Returns whether there is a line. `place` is for errors.
///
/// # Errors
/// Returns an error if the line is longer than `LONGEST`, if the reader fails, or if an allocation
/// fails.
pub(crate) fn read_line<R: BufRead>(
    alloc: Global,
    reader: &mut R,
    line: &mut Vec<u8>,
    place: Place,
) -> Result<bool, LogError>
    ensures line { IfOk result (λ is_some. ReadsLine (R.remaining reader.old) (R.remaining reader.new)
        is_some line.new.items) }
    ensures errors { IfErr result (IsReadError place) }
{
    line.clear();
    for _ in 0..u64::MAX {
        let is_complete = push_buffered(reader, line).map_err(|error| LogError::of_reading(
            place, error,
        ))?;
        if line.len() > LONGEST {
            break;
        }
        if is_complete {
            return Ok(!line.is_empty());
        }
    }
    let text = excerpt(alloc, line)?;
    Err(LogError::TooLong { place, text })
}
