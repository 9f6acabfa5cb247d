//! A serializer of the caller's own, through the writer of logs and back.

use crate::tests::first_run;
use hdr_log::field::decoded;
use hdrhistogram::serialization::Serializer;
use hdrhistogram::serialization::interval_log::{IntervalLogIterator, IntervalLogWriter, LogEntry};
use hdrhistogram::{Counter, Histogram};
use std::io::{self, Write};
use std::process::Abort;
use std::test::Fail;
use std::time::Duration;

/// Writes four bytes, two of which never occur in UTF-8, and the last of which is the number of digits.
#[derive(Drop)]
struct FourBytes;

impl Serializer for FourBytes {
    type SerializeError = io::Error;

    ghost writes = { λ _ _. Unit {0} };

    fn serialize<T: Counter, W: Write>(
        &mut self,
        h: &Histogram<T>,
        writer: &mut W,
    ) -> Result<usize, io::Error> {
        writer.write_all(&[0xfa, 0xff, 0, h.sigfig()])?;
        Ok(4)
    }
}

#[test]
fn own_bytes_are_read_back(rt: HostRuntime) -> Result<(), Fail> {
    let mut log = Vec::new(rt.alloc());
    IntervalLogWriter::new(rt.alloc(), &mut log, &mut FourBytes, 1).write_histogram(
        &first_run(rt.alloc())?,
        Duration::ZERO,
        Duration::ZERO,
        None,
    )?;
    let Some(Ok(LogEntry::Interval(interval))) = IntervalLogIterator::new(&log).next() else {
        return Err(Fail::from("no interval"));
    };
    let bytes = decoded(rt.alloc(), interval.encoded_histogram())?;
    assert_eq!(rt; bytes.as_slice(), [0xfa, 0xff, 0, 3].as_slice());
    Ok(())
}
