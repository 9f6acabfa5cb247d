//! Tables whose columns have runs of blanks between them.

ghost use Rattle.std.specs.Prelude.{◌≡◌, ℕ, List};

mod before;
mod buffer;

use crate::blanks::buffer::BlankBuffer;
use std::io::{self, Read};

/// A reader that makes one space of each run of spaces and tabs, and none at the start and at the
/// end of a line.
#[derive(Drop)]
pub struct BlankReader<R> {
    reader: R,
    buffer: BlankBuffer,
}

impl<R: Read> BlankReader<R> {
    ghost use Rattle.std.specs.Prelude.{[], false, IfOk, IfErr};
    ghost use Rattle.std.specs.Option.{option_map};
    ghost use Rattle.std.specs.Io.KnownBytes.{IsAtEnd, Keeps};
    ghost use Rattle.hdr_input.specs.BlankReaders.{squeezed_bytes};
    ghost use Rattle.hdr_input.specs.Blanks.{squeezed_text, unread};

    /// Returns a reader at the start of a line.
    pub fn new(reader: R) -> BlankReader<R>
        ensures { squeezed_bytes R.remaining result ≡ option_map squeezed_text (R.remaining reader) }
    {
        BlankReader {
            reader,
            buffer: BlankBuffer::new(),
        }
    }

    /// Reads the bytes that follow, if all before them were passed on. Returns whether there are
    /// some.
    #[tactic(auto, using(crate::proofs::Unread::squeeze_none))]
    fn refill(&mut self) -> io::Result<bool>
        ensures ok { unread self.old.buffer ≡ [] → IfOk result (λ _.
            Keeps (squeezed_bytes R.remaining self.old) (squeezed_bytes R.remaining self.new)) }
        ensures end { IfOk result (λ some. some ≡ false
            → IsAtEnd (squeezed_bytes R.remaining self.new)) }
        ensures err { unread self.old.buffer ≡ [] → IfErr result (λ _.
            Keeps (squeezed_bytes R.remaining self.old) (squeezed_bytes R.remaining self.new)) }
    {
        let len = self.buffer.fill(&mut self.reader)?;
        Ok(len > 0)
    }
}

impl<R: Read> Read for BlankReader<R> {
    ghost use Rattle.hdr_input.specs.BlankReaders.{squeezed_bytes};

    ghost remaining = { squeezed_bytes R.remaining };

    fn read(&mut self, buf: &mut [u8]) -> io::Result<usize> {
        for _ in 0..u64::MAX {
            let len = self.buffer.pass_on(buf);
            if len > 0 || buf.is_empty() {
                return Ok(len);
            }
            if !self.refill()? {
                return Ok(0);
            }
        }
        Err(io::Error::from(io::ErrorKind::Interrupted))
    }
}
