//! Zlib streams, and lines that are converted.

use crate::tests::FIRST_RUN;
use crate::tests::compressed::{COMPRESSED, PLAIN};
use crate::tests::failed_allocations::{allocated, report};
use hdr_convert::{ConvertError, Form, convert_interval};
use hdr_zlib::{CompressionLevel, InflateError, deflate, inflate};
use std::process::Abort;
use std::test::Fail;

/// Whether a stream is written and read; otherwise an allocation failed.
fn is_written_and_read(rt: &(impl Abort + AllocGlobal), level: CompressionLevel) -> bool {
    let Ok(stream) = deflate(rt.alloc(), &FIRST_RUN, level) else {
        return false;
    };
    let result = inflate(rt.alloc(), &stream, 43);
    let read = allocated!(rt, result, InflateError::OutOfMemory);
    assert!(rt; !matches!(&read, Some(bytes) if bytes.as_slice() != FIRST_RUN.as_slice()));
    read.is_some()
}

#[test]
fn streams(rt: HostRuntime) -> Result<(), Fail> {
    let stored = is_written_and_read(&rt, CompressionLevel::Stored);
    let coded = is_written_and_read(&rt, CompressionLevel::Huffman);
    report(&rt, stored && coded)
}

/// The line of an interval.
const LINE: &[u8] = b"Tag=a,0.000,1.000,2.000,\n";

/// Whether a line is converted; otherwise an allocation failed.
fn is_converted(rt: &(impl Abort + AllocGlobal), field: &str, form: Form) -> bool {
    let mut output = Vec::new(rt.alloc());
    let converted = convert_interval(rt.alloc(), LINE, field, form, &mut output);
    allocated!(rt, converted, ConvertError::OutOfMemory).is_some()
}

#[test]
fn lines(rt: HostRuntime) -> Result<(), Fail> {
    let plain = is_converted(&rt, COMPRESSED, Form::Plain);
    let packed = is_converted(&rt, PLAIN, Form::Compressed);
    report(&rt, plain && packed)
}
