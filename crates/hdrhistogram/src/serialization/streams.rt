//! Loops over a writer's `write` and a reader's `read`.

ghost use Rattle.std.specs.Prelude.{◌≡◌, ◌≤◌, ◌<◌, ◌+◌, ◌++◌, ℕ, List, min, max, length, replicate, vec_len, vec_capacity, OnOk, OnErr, IfErr};
ghost use Rattle.std.specs.Io.KnownBytes.{Appends, Consumes};
ghost use Rattle.hdrhistogram.specs.Streams.{AppendsFront, ConsumesFewer, IsStreamError};

use crate::serialization::errors::DeserializeError;
use std::alloc::AllocError;
use std::io::{self, ErrorKind, Read, Write};

/// As `Write::write_all`, but an interrupted write is an error. On error a proper prefix of `text`
/// is written.
pub(crate) fn write_all<W: Write>(writer: &mut W, text: &[u8]) -> io::Result<()>
    ensures ok { OnOk result (Appends (W.contents writer.old) (W.contents writer.new) text.now) }
    ensures err { OnErr result
        (AppendsFront (W.contents writer.old) (W.contents writer.new) text.now) }
{
    let mut done = 0;
    while done < text.len() {
        let taken = writer.write(&text[done..])?;
        if taken == 0 {
            return Err(io::Error::from(ErrorKind::WriteZero));
        }
        done += taken;
    }
    Ok(())
}

/// As `Read::read_exact`, but an interrupted read is an error. On error fewer bytes are consumed
/// than `buffer` has.
pub(crate) fn read_exact<R: Read>(reader: &mut R, buffer: &mut [u8]) -> io::Result<()>
    ensures ok { OnOk result
        (Consumes (R.remaining reader.old) (R.remaining reader.new) buffer.new) }
    ensures err { OnErr result
        (ConsumesFewer (R.remaining reader.old) (R.remaining reader.new) (length buffer.old)) }
{
    let mut done = 0;
    while done < buffer.len() {
        let taken = reader.read(&mut buffer[done..])?;
        if taken == 0 {
            return Err(io::Error::from(ErrorKind::UnexpectedEof));
        }
        done += taken;
    }
    Ok(())
}

/// The maximum number of bytes that are allocated before they are read.
const PIECE: usize = 4096;

/// Reads the next `left` bytes, but at most `PIECE` of them, and appends them to `buffer`. On error
/// `buffer` is at most `PIECE` bytes longer. Its capacity grows to no more than that.
pub(crate) fn read_piece<R: Read>(
    reader: &mut R,
    buffer: &mut Vec<u8>,
    left: usize,
) -> Result<(), DeserializeError>
    requires { 0 < left }
    ensures ok { OnOk result ((bytes : List ℕ) × (length bytes ≡ min left 4096)
        × (buffer.new.items ≡ buffer.old.items ++ bytes)
        × Consumes (R.remaining reader.old) (R.remaining reader.new) bytes) }
    ensures err { IfErr result (λ e. IsStreamError e
        × ConsumesFewer (R.remaining reader.old) (R.remaining reader.new) left) }
    ensures bounded { vec_len buffer.new ≤ vec_len buffer.old + 4096 }
    ensures capacity { vec_capacity buffer.new ≤ max (vec_capacity buffer.old)
        (vec_len buffer.old + 4096) }
{
    let start = buffer.len();
    let piece = left.min(PIECE);
    let Ok(()) = push_zeros(buffer, piece) else {
        return Err(DeserializeError::OutOfMemory);
    };
    read_exact(reader, &mut buffer[start..])?;
    Ok(())
}

/// Appends `count` zeros, and allocates capacity for no more than these. `resize` may double the
/// capacity.
fn push_zeros(buffer: &mut Vec<u8>, count: usize) -> Result<(), AllocError>
    ensures ok { OnOk result (buffer.new.items ≡ buffer.old.items ++ replicate count 0) }
    ensures len { OnOk result (vec_len buffer.new ≡ vec_len buffer.old + count) }
    ensures err { OnErr result (vec_len buffer.new ≡ vec_len buffer.old) }
    ensures capacity { vec_capacity buffer.new ≤ max (vec_capacity buffer.old)
        (vec_len buffer.old + count) }
{
    buffer.reserve_exact(count)?;
    let end = buffer.len() + count;
    while buffer.len() < end {
        buffer.push_reserved(0);
    }
    Ok(())
}
