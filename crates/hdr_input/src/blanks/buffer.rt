//! Bytes that were read, and of which one space is passed on for each run of blanks.

ghost use Rattle.std.specs.Prelude.{◌≡◌, ℕ, List, ◌++◌, ◌∷◌, ◌≤◌, ◌<◌, length, MatchOption};

use crate::blanks::before::{Before, after, ends_line, is_blank};
use std::io::{self, Read};

/// The number of bytes that are read at once.
const PIECE: usize = 4096;

/// Bytes that were read: those from `next` to before `end` are still to be passed on.
#[derive(Drop)]
pub(crate) struct BlankBuffer {
    bytes: [u8; PIECE],
    next: usize,
    end: usize,
    /// What is before the next byte.
    before: Before,
    ghost order: { next ≤ end },
    ghost within: { end ≤ 4096 },
}

impl BlankBuffer {
    ghost use Rattle.std.specs.Prelude.{[], false, slice_index, take, IfOk, IfErr};
    ghost use Rattle.std.specs.Io.KnownBytes.{Consumes, IsAtEnd, Keeps};
    ghost use Rattle.hdr_input.specs.Blanks.{PassesOn, passed_on, squeezed, unread, is_blank, IsDone};

    /// Returns a buffer without bytes, at the start of a line.
    pub(crate) fn new() -> BlankBuffer
        ensures { (rest : List ℕ) → passed_on result rest ≡ squeezed Before.Start rest }
    {
        BlankBuffer {
            bytes: [0; PIECE],
            next: 0,
            end: 0,
            before: Before::Start,
        }
    }

    /// Reads the bytes that follow. All before them have to be passed on.
    pub(crate) fn fill<R: Read>(&mut self, reader: &mut R) -> io::Result<usize>
        ensures read { IfOk result (λ _. Consumes (R.remaining reader.old) (R.remaining reader.new)
            (unread self.new)) }
        ensures end { IfOk result (λ len. len ≡ 0
            → (unread self.new ≡ []) × IsAtEnd (R.remaining reader.new)) }
        ensures err { IfErr result (λ _. (unread self.new ≡ [])
            × Keeps (R.remaining reader.old) (R.remaining reader.new)) }
        ensures before { self.new.before ≡ self.old.before }
    {
        self.next = 0;
        self.end = 0;
        self.end = reader.read(&mut self.bytes)?;
        Ok(self.end)
    }

    /// Passes on as many bytes as fit in the buffer. Returns how many.
    pub(crate) fn pass_on(&mut self, buf: &mut [u8]) -> usize
        ensures within { result ≤ length buf.new }
        ensures len { length buf.new ≡ length buf.old }
        ensures bytes { (rest : List ℕ) → passed_on self.old rest
            ≡ take result buf.new ++ passed_on self.new rest }
        ensures all { result < length buf.new → unread self.new ≡ [] }
    {
        for at in 0..buf.len() {
            let Some(byte) = self.next_byte() else {
                return at;
            };
            buf[at] = byte;
        }
        buf.len()
    }

    /// Removes the next byte that is passed on, or all bytes if none is.
    #[tactic(auto, using(crate::proofs::Unread::spaces, crate::proofs::Unread::passes_end, crate::proofs::Unread::passes_text, crate::proofs::Unread::passes_start))]
    pub(crate) fn next_byte(&mut self) -> Option<u8>
        ensures { MatchOption result (IsDone self.old self.new) (λ b. PassesOn b self.old self.new) }
    {
        self.skip_blanks();
        if self.next >= self.end {
            return None;
        }
        let byte = self.bytes[self.next];
        if self.before == Before::Blank && !ends_line(byte) {
            self.before = Before::Text;
            return Some(b' ');
        }
        self.next += 1;
        self.before = after(byte);
        Some(byte)
    }

    /// Skips the blanks before the next other byte.
    #[tactic(auto, using(crate::proofs::Unread::skips))]
    fn skip_blanks(&mut self)
        ensures same { (rest : List ℕ) → passed_on self.new rest ≡ passed_on self.old rest }
        ensures other { self.new.next < self.new.end
            → is_blank (slice_index self.new.bytes self.new.next) ≡ false }
    {
        while self.next < self.end && is_blank(self.bytes[self.next]) {
            self.next += 1;
            self.before = self.before.after_blank();
        }
    }
}
