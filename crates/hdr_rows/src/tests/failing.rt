//! Readers and writers that read or write few bytes a call, and fail at one call, with each kind of error. They fail once, so
//! that code that retries succeeds.

use std::io::{self, ErrorKind, Read, Write};

macro_rules! kinds {
    ($($kind:ident)*) => { [None, $(Some(ErrorKind::$kind)),*] };
}

/// Each kind of error, after `None`.
pub const KINDS: [Option<ErrorKind>; 43] = kinds! {
    NotFound PermissionDenied ConnectionRefused ConnectionReset HostUnreachable NetworkUnreachable
    ConnectionAborted NotConnected AddrInUse AddrNotAvailable NetworkDown BrokenPipe AlreadyExists
    WouldBlock NotADirectory IsADirectory DirectoryNotEmpty ReadOnlyFilesystem FilesystemLoop
    StaleNetworkFileHandle InvalidInput InvalidData TimedOut WriteZero StorageFull NotSeekable
    QuotaExceeded FileTooLarge ResourceBusy ExecutableFileBusy Deadlock CrossesDevices TooManyLinks
    InvalidFilename ArgumentListTooLong Interrupted Unsupported UnexpectedEof OutOfMemory
    InProgress Other Uncategorized
};

/// How a call over a stream ended: `Ok`, or the kind of the stream's error, or `None` for any other
/// error.
pub type Ended = Result<(), Option<ErrorKind>>;

/// Returns how a call ended, whose error is an enum with a variant `IoError`.
macro_rules! ended {
    ($result:expr, $error:ident) => {
        match $result {
            Ok(_) => Ok(()),
            Err($error::IoError(cause)) => Err(Some(cause.kind())),
            Err(_) => Err(None),
        }
    };
}

pub(crate) use ended;

/// A reader that returns at most `step` bytes a call, and fails at one call, counted from 1.
#[derive(Drop)]
pub struct Source<'a> {
    rest: &'a [u8],
    step: usize,
    calls: usize,
    fails_at: usize,
    kind: ErrorKind,
}

impl<'a> Source<'a> {
    /// Returns a reader that fails at a call, or at none if that is 0.
    pub fn new(rest: &'a [u8], step: usize, fails_at: usize, kind: ErrorKind) -> Source<'a> {
        Source {
            rest,
            step,
            calls: 0,
            fails_at,
            kind,
        }
    }

    /// Whether all but the last `left` bytes were read.
    pub fn leaves(&self, left: usize) -> bool {
        self.rest.len() == left
    }

    /// Whether a call that reads `needed` bytes of `len`, one at a time, ended as it has to: by
    /// reading them, or by the error of a read, after which nothing is read.
    pub fn ends(&self, ended: Ended, needed: usize, len: usize) -> bool {
        let before = self.fails_at.saturating_sub(1);
        let wanted = (before >= needed).then_some(()).ok_or(Some(self.kind));
        ended == wanted && self.leaves(len.saturating_sub(before.min(needed)))
    }
}

impl<'a> Read for Source<'a> {
    fn read(&mut self, buf: &mut [u8]) -> io::Result<usize> {
        self.calls = self.calls.saturating_add(1);
        if self.calls == self.fails_at {
            return Err(io::Error::from(self.kind));
        }
        let count = buf.len().min(self.rest.len()).min(self.step);
        let (chunk, rest) = self.rest.split_at(count);
        buf[..count].copy_from_slice(chunk);
        self.rest = rest;
        Ok(count)
    }
}

/// A writer of at most 256 bytes, which accepts at most `step` bytes a call, and fails at one call, counted from 1: with an
/// error of `kind`, or by returning 0.
#[derive(Clone, Copy)]
pub struct Sink {
    buf: [u8; 256],
    len: usize,
    step: usize,
    calls: usize,
    fails_at: usize,
    kind: Option<ErrorKind>,
}

impl Sink {
    /// Returns a writer that fails at a call, or at none if that is 0.
    pub fn new(step: usize, fails_at: usize, kind: Option<ErrorKind>) -> Sink {
        Sink {
            buf: [0; 256],
            len: 0,
            step,
            calls: 0,
            fails_at,
            kind,
        }
    }

    /// Returns the bytes written.
    pub fn written(&self) -> &[u8] {
        self.buf.get(..self.len).unwrap_or(&[])
    }

    /// Returns the number of bytes that are written before it fails.
    fn len_before(&self) -> usize {
        self.fails_at.saturating_sub(1).saturating_mul(self.step)
    }

    /// Whether it holds just the part of `output` that was written before it failed.
    pub fn holds_prefix(&self, output: &[u8]) -> bool {
        self.written() == &output[..output.len().min(self.len_before())]
    }

    /// Whether a call that writes `output` ended as it has to: by writing all of it, or by its
    /// error, or `WriteZero`, after the bytes before.
    pub fn ends(&self, ended: Ended, output: &[u8]) -> bool {
        let kind = self.kind.unwrap_or(ErrorKind::WriteZero);
        let is_written = self.len_before() >= output.len();
        let wanted = is_written.then_some(()).ok_or(Some(kind));
        ended == wanted && self.holds_prefix(output)
    }
}

impl Write for Sink {
    fn write(&mut self, buf: &[u8]) -> io::Result<usize> {
        self.calls = self.calls.saturating_add(1);
        if self.calls == self.fails_at {
            return self.kind.map_or(Ok(0), |kind| Err(io::Error::from(kind)));
        }
        let free = self.buf.get_mut(self.len..).unwrap_or(&mut []);
        let count = buf.len().min(free.len()).min(self.step);
        free[..count].copy_from_slice(&buf[..count]);
        self.len = self.len.saturating_add(count);
        Ok(count)
    }

    fn flush(&mut self) -> io::Result<()> {
        Ok(())
    }
}
