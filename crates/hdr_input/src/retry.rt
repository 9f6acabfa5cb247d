//! Reads that are retried.

use std::io::{self, Read};

/// A reader that retries interrupted reads.
#[derive(Drop)]
pub struct RetryReader<R> {
    pub reader: R,
}

impl<R: Read> Read for RetryReader<R> {
    ghost remaining = { λ retry. R.remaining retry.reader };

    fn read(&mut self, buf: &mut [u8]) -> io::Result<usize> {
        for _ in 0..u64::MAX {
            match self.reader.read(buf) {
                Err(e) if e.kind() == io::ErrorKind::Interrupted => {}
                result => return result,
            }
        }
        Err(io::Error::from(io::ErrorKind::Interrupted))
    }
}
