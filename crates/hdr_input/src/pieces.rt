//! Lines from a reader, in pieces: of the input no more is held than a piece.

ghost use Rattle.std.specs.Prelude.{◌≡◌, ◌++◌, ◌-◌, ◌<◌, ◌≤◌, ℕ, List, [], false, true, length, take, drop};
ghost use Rattle.std.specs.Prelude.{IfOk, IfSome, OnOk, vec_len};
ghost use Rattle.std.specs.Io.{IsEmptyOrEndsWith};
ghost use Rattle.std.specs.Io.KnownBytes.{Consumes, IsAtEnd};
ghost use Rattle.hdr_input.specs.Lines.{IsComplete};

use crate::cause::Cause;
use crate::errors::{InputError, InputPlace, bad_number};
use crate::retry::RetryReader;
use memchr::memrchr;
use std::alloc::Global;
use std::io::{self, ErrorKind, Read};

/// The size of a piece.
const PIECE: usize = 65_536;

/// What takes the lines of an input.
pub trait LineSink {
    /// What taking lines does: the number of the first, the text of all, the number of the line
    /// after them, and the sink before and after.
    ghost takes: { ℕ → List ℕ → ℕ → Self → Self → Type 0 };

    /// Takes complete lines, of which the first has this number. The last one of an input may lack
    /// a line feed. Returns the number of the line after them.
    fn take_lines(&mut self, alloc: Global, lines: &[u8], first: u64) -> Result<u64, InputError>
        ensures taken { IfOk result (λ next. takes first lines.now next self.old self.new) };

    /// Without a line nothing changes.
    ghost takes_none: { (first : ℕ) (sink : Self) → takes first [] first sink sink };

    /// What follows complete lines is taken after them.
    ghost takes_more: { (first mid next : ℕ) (text more : List ℕ) (a b c : Self)
        → IsComplete text → takes first text mid a b → takes mid more next b c
        → takes first (text ++ more) next a c };
}

/// Reads behind the first `held` bytes of a buffer. Returns the end of what was read.
fn read_behind<R: Read>(
    reader: &mut R,
    buffer: &mut Vec<u8>,
    held: usize,
) -> Result<usize, InputError>
    requires { held ≤ vec_len buffer.old }
    ensures len { vec_len buffer.new ≡ vec_len buffer.old }
    ensures bound { IfOk result (λ end. (held ≤ end) × (end ≤ vec_len buffer.new)) }
    ensures bytes { IfOk result (λ end. (bytes : List ℕ)
        × Consumes (R.remaining reader.old) (R.remaining reader.new) bytes
        × (take end buffer.new.items ≡ take held buffer.old.items ++ bytes)) }
    ensures end { IfOk result (λ end. end ≡ held → held < vec_len buffer.old
        → IsAtEnd (R.remaining reader.new)) }
{
    match reader.read(&mut buffer[held..]) {
        Ok(count) => Ok(held + count),
        Err(error) => Err(InputError::of_reading(error)),
    }
}

/// Returns the length of the complete lines of a piece, whose first `held` bytes end none: all of
/// it, if it is the last piece of the input.
fn complete_len(piece: &[u8], held: usize, is_last: bool) -> usize
    requires { held ≤ length piece.now }
    ensures bound { result ≤ length piece.now }
    ensures last { is_last ≡ true → result ≡ length piece.now }
    ensures complete { is_last ≡ false → IsEmptyOrEndsWith (take result piece.now) 10 }
{
    if is_last {
        return piece.len();
    }
    match memrchr(b'\n', &piece[held..]) {
        Some(at) => held + at + 1,
        None => 0,
    }
}

/// Moves what follows the complete lines of a piece to the start of its buffer.
fn keep_rest(buffer: &mut Vec<u8>, complete: usize, end: usize)
    requires { (complete ≤ end) × (end ≤ vec_len buffer.old) }
    ensures len { vec_len buffer.new ≡ vec_len buffer.old }
    ensures rest { take (end - complete) buffer.new.items
        ≡ take (end - complete) (drop complete buffer.old.items) }
{
    if complete > 0 {
        buffer.copy_within(complete..end, 0);
    }
}

/// Reads all lines of a reader, and retries a read that was interrupted. Without its LF each line has
/// fewer bytes than a piece.
pub fn read_lines<R: Read + Drop, S: LineSink>(
    alloc: Global,
    reader: R,
    sink: &mut S,
) -> Result<(), InputError>
    ensures { OnOk result ((text : List ℕ) × (next : ℕ)
        × IfSome (R.remaining reader) (λ whole. text ≡ whole)
        × S.takes 1 text next sink.old sink.new) }
{
    let mut reader = RetryReader { reader };
    let mut buffer = vec![in alloc; 0u8; PIECE]?;
    let mut held = 0usize;
    let mut line = 1u64;
    for _ in 0..u64::MAX {
        if held >= buffer.len() {
            return Err(too_long(alloc, line, &buffer));
        }
        let end = read_behind(&mut reader, &mut buffer, held)?;
        let complete = complete_len(&buffer[..end], held, end == held);
        line = sink.take_lines(alloc, &buffer[..complete], line)?;
        if end == held {
            return Ok(());
        }
        keep_rest(&mut buffer, complete, end);
        held = end - complete;
    }
    Err(InputError::Io(io::Error::from(ErrorKind::Interrupted)))
}

/// Returns the error of a line that has the bytes of a piece and has not ended.
fn too_long(alloc: Global, line: u64, piece: &[u8]) -> InputError {
    let cause = Cause::TooLong(PIECE);
    bad_number(alloc, InputPlace::Line(line), piece, cause)
}
