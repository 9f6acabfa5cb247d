//! Reads inputs and writes outputs. Interrupted reads and writes are retried, whatever the command.
//! Loops that end with the input are bounded by `u64::MAX`, since each loop has to be proved to end;
//! no input reaches that bound.

ghost use Rattle.std.specs.Prelude.{◌≡◌, ◌<◌, ◌≤◌, [], length, take, OnOk, IfOk, IfErr, IfSome, ◌⊎◌};
ghost use Rattle.std.specs.Io.KnownBytes.{Appends, Consumes, IsAtEnd};
ghost use Rattle.hdrhistogram.specs.Streams.{AppendsFront};
ghost use Rattle.hdr_tool.specs.Outcomes.{Resource, Input, cause_of, ReadsTo};

use crate::fault::Fault;
use std::alloc::Global;
use std::io::{self, ErrorKind, Read, Write};

/// Reads all of the input. An interrupted read is retried.
///
/// # Errors
/// Returns `CannotRead` if the reader fails with another error, and `NoMemory` if the input can't
/// be allocated.
pub(crate) fn read_to_end<R: Read>(alloc: Global, reader: &mut R) -> Result<Vec<u8>, Fault>
    ensures ok { IfOk result (λ input. IfSome (R.remaining reader.old)
        (λ bytes. input.items ≡ bytes)) }
    ensures end { OnOk result (IsAtEnd (R.remaining reader.new)) }
    ensures err { IfErr result (λ f. cause_of f ≡ Resource) }
{
    let mut piece = vec![in alloc; 0u8; PIECE]?;
    let mut input = Vec::new(alloc);
    read_pieces(reader, &mut piece, &mut input)?;
    Ok(input)
}

/// Reads all of the input into an empty buffer, piece by piece.
fn read_pieces<R: Read>(reader: &mut R, piece: &mut [u8], input: &mut Vec<u8>) -> Result<(), Fault>
    requires nonempty { 0 < length piece.old }
    requires empty { input.old.items ≡ [] }
    ensures ok { OnOk result
        (Consumes (R.remaining reader.old) (R.remaining reader.new) input.new.items) }
    ensures end { OnOk result (IsAtEnd (R.remaining reader.new)) }
    ensures err { IfErr result (λ f. cause_of f ≡ Resource) }
{
    for _ in 0..u64::MAX {
        let count = read_piece(reader, piece)?;
        if count == 0 {
            return Ok(());
        }
        input.extend_from_slice(&piece[..count])?;
    }
    Err(Fault::CannotRead)
}

/// The number of bytes that are read at a time.
pub(crate) const PIECE: usize = 65_536;

/// Reads the next bytes of the input into `piece`, and returns their number: at most the length of
/// `piece`, and 0 at the end of the input. An interrupted read is retried.
pub(crate) fn read_piece<R: Read>(reader: &mut R, piece: &mut [u8]) -> Result<usize, Fault>
    ensures within { IfOk result (λ count. count ≤ length piece.old) }
    ensures ok { IfOk result (λ count. Consumes (R.remaining reader.old) (R.remaining reader.new)
        (take count piece.new)) }
    ensures end { IfOk result (λ count. count ≡ 0 → 0 < length piece.old → IsAtEnd
        (R.remaining reader.new)) }
    ensures err { IfErr result (λ f. f ≡ Fault.CannotRead) }
{
    for _ in 0..u64::MAX {
        match reader.read(piece) {
            Ok(count) => return Ok(count),
            Err(e) if e.kind() == ErrorKind::Interrupted => {}
            Err(_) => return Err(Fault::CannotRead),
        }
    }
    Err(Fault::CannotRead)
}

/// Reads the rest of the input, drops it, and returns `fault`, the error of a line. If the reader fails
/// meanwhile, that error is returned instead. An error of memory or of a stream is returned at once.
pub(crate) fn fault_after_rest<R: Read>(reader: &mut R, piece: &mut [u8], fault: Fault) -> Fault
    requires { 0 < length piece.old }
    ensures fault { (result ≡ fault) ⊎ ((cause_of fault ≡ Input) × (cause_of result ≡ Resource)) }
    ensures end { ReadsTo (λ _. Unit {0}) (R.remaining reader.new) (cause_of result) }
{
    if matches!(
        fault,
        Fault::NoMemory | Fault::CannotRead | Fault::CannotWrite | Fault::Usage
    ) {
        return fault;
    }
    for _ in 0..u64::MAX {
        match read_piece(reader, piece) {
            Ok(0) => return fault,
            Ok(_) => {}
            Err(failed) => return failed,
        }
    }
    Fault::CannotRead
}

/// A writer that retries interrupted writes. The program's output is one.
#[derive(Drop)]
pub struct RetryWriter<W> {
    /// The underlying writer.
    pub writer: W,
}

impl<W: Write> Write for RetryWriter<W> {
    ghost contents = { λ retry. W.contents retry.writer };

    fn write(&mut self, buf: &[u8]) -> io::Result<usize> {
        for _ in 0..u64::MAX {
            match self.writer.write(buf) {
                Err(e) if e.kind() == ErrorKind::Interrupted => {}
                result => return result,
            }
        }
        Err(io::Error::from(ErrorKind::Interrupted))
    }

    fn flush(&mut self) -> io::Result<()> {
        self.writer.flush()
    }
}

/// Writes all of `text`. On error a proper prefix of it is written.
pub(crate) fn write_all<W: Write>(writer: &mut W, text: &[u8]) -> Result<(), Fault>
    ensures ok { OnOk result (Appends (W.contents writer.old) (W.contents writer.new) text.now) }
    ensures err { IfErr result (λ f. (f ≡ Fault.CannotWrite)
        × AppendsFront (W.contents writer.old) (W.contents writer.new) text.now) }
{
    let mut at = 0;
    while at < text.len() {
        match writer.write(&text[at..]) {
            Ok(0) | Err(_) => return Err(Fault::CannotWrite),
            Ok(count) => at += count,
        }
    }
    Ok(())
}
