//! Bytes and logs.

use crate::tests::failed_allocations::{allocated, report};
use crate::tests::{FIRST_RUN, first_run};
use hdrhistogram::Histogram;
use hdrhistogram::serialization::interval_log::{
    IntervalLogWriter, IntervalLogWriterError as LogError,
};
use hdrhistogram::serialization::{
    DeserializeError, Deserializer, Serializer, V2SerializeError, V2Serializer,
};
use std::alloc::Global;
use std::process::Abort;
use std::test::Fail;
use std::time::Duration;

/// Returns the length of the bytes of a histogram, or `None` if an allocation failed.
fn len_of(rt: &impl Abort, serializer: &mut V2Serializer, h: &Histogram<u64>) -> Option<usize> {
    Some(allocated!(rt, serializer.to_bytes(h), V2SerializeError::OutOfMemory)?.len())
}

/// Returns the lengths of the bytes of an empty histogram, and of one with a sample in its top
/// class. An allocation failed for one at most, and `to_bytes` returns the bytes the second time.
fn lens_of_both(rt: &(impl Abort + AllocGlobal)) -> Option<(usize, usize)> {
    let small = Histogram::new(rt.alloc(), 0).ok()?;
    let mut large = Histogram::new_with_max(rt.alloc(), 1000, 2).ok()?;
    large.saturating_record(1000);
    let mut serializer = V2Serializer::new(rt.alloc());
    let first = len_of(rt, &mut serializer, &small);
    let second = len_of(rt, &mut serializer, &large);
    assert!(rt; first.is_some() || second.is_some());
    assert_eq!(rt; len_of(rt, &mut serializer, &small), Some(41));
    assert_eq!(rt; len_of(rt, &mut serializer, &large), Some(43));
    Some((first?, second?))
}

#[test]
fn to_bytes(rt: HostRuntime) -> Result<(), Fail> {
    let lens = lens_of_both(&rt);
    assert!(rt; matches!(lens, None | Some((41, 43))));
    report(&rt, lens.is_some())
}

/// Writes the bytes of the first run, or returns `None` if an allocation failed. Then nothing is
/// written, and after it the serializer makes the right bytes, by `serialize` and by `to_bytes`.
fn write_first_run(rt: &(impl Abort + AllocGlobal)) -> Option<usize> {
    let h = first_run(rt.alloc()).ok()?;
    let mut written = Vec::with_capacity(rt.alloc(), 100).ok()?;
    let mut serializer = V2Serializer::new(rt.alloc());
    let result = serializer.serialize(&h, &mut written);
    let count = allocated!(rt, result, V2SerializeError::OutOfMemory);
    if count.is_none() {
        assert!(rt; written.is_empty());
        assert!(rt; serializer.serialize(&h, &mut written).is_ok());
    }
    assert!(rt; written.as_slice() == FIRST_RUN.as_slice());
    assert!(rt; matches!(serializer.to_bytes(&h), Ok(bytes) if bytes == FIRST_RUN.as_slice()));
    count
}

#[test]
fn serialize(rt: HostRuntime) -> Result<(), Fail> {
    report(&rt, write_first_run(&rt).is_some())
}

/// Decodes a slice, or returns `None` if an allocation failed.
fn decode_first_run(rt: &impl Abort, deserializer: &mut Deserializer) -> Option<(u64, usize)> {
    let result = deserializer.decode_slice::<u64>(&FIRST_RUN);
    let (h, consumed) = allocated!(rt, result, DeserializeError::OutOfMemory)?;
    Some((h.len(), consumed))
}

#[test]
fn decode_slice(rt: HostRuntime) -> Result<(), Fail> {
    let mut deserializer = Deserializer::new(rt.alloc());
    let first = decode_first_run(&rt, &mut deserializer);
    let last = first.or_else(|| decode_first_run(&rt, &mut deserializer));
    assert_eq!(rt; last, Some((5, 43)));
    report(&rt, first.is_some())
}

/// Decodes a reader's bytes up to their end, and returns the number of samples, or `None` if an
/// allocation failed.
fn read_all(rt: &impl Abort, deserializer: &mut Deserializer, bytes: &[u8]) -> Option<u64> {
    let mut reader = bytes;
    let result = deserializer.deserialize::<u64, &[u8]>(&mut reader);
    let h = allocated!(rt, result, DeserializeError::OutOfMemory)?;
    assert!(rt; reader.is_empty());
    Some(h.len())
}

/// Whether bytes of `len` samples are decoded. Otherwise an allocation failed, and the first run is
/// decoded afterwards.
fn decodes(rt: &(impl Abort + AllocGlobal), bytes: &[u8], len: u64) -> bool {
    let mut deserializer = Deserializer::new(rt.alloc());
    let decoded = read_all(rt, &mut deserializer, bytes);
    if decoded.is_none() {
        assert_eq!(rt; read_all(rt, &mut deserializer, &FIRST_RUN), Some(5));
    }
    assert!(rt; decoded.is_none_or(|decoded| decoded == len));
    decoded.is_some()
}

#[test]
fn deserialize(rt: HostRuntime) -> Result<(), Fail> {
    report(&rt, decodes(&rt, &FIRST_RUN, 5))
}

/// The header of bytes with 5,000 numbers, and 0 held once, which is the first of them.
const LONG_HEADER: [u8; 41] = [
    0x1c, 0x84, 0x93, 0x13, 0, 0, 0x13, 0x88, 0, 0, 0, 0, 0, 0, 0, 3, 0, 0, 0, 0, 0, 0, 0, 1, 0, 0,
    0, 0, 0, 0, 0, 2, 0x3f, 0xf0, 0, 0, 0, 0, 0, 0, 2,
];

/// Returns bytes whose payload is read in two chunks, or `None` if an allocation failed.
fn long_bytes(alloc: Global) -> Option<Vec<u8>> {
    let mut bytes = vec![in alloc; 0u8; 5_040].ok()?;
    let start = bytes.as_mut_slice().get_mut(..41)?;
    start.copy_from_slice(&LONG_HEADER);
    Some(bytes)
}

#[test]
fn deserialize_in_chunks(rt: HostRuntime) -> Result<(), Fail> {
    let bytes = long_bytes(rt.alloc());
    report(&rt, bytes.is_some_and(|bytes| decodes(&rt, &bytes, 1)))
}

/// A log of a comment of two lines, which ends at 6, and of three intervals of an empty histogram, of 75 bytes each.
const LOG: &[u8; 231] =
    b"#a\n#b\n0.000,0.000,0.000,HISTEwAAAAEAAAAAAAAAAAAAAAAAAAABAAAAAAAAAAI/8AAAAAAAAAA=\n0.000,0.000,0.000,HISTEwAAAAEAAAAAAAAAAAAAAAAAAAABAAAAAAAAAAI/8AAAAAAAAAA=\n0.000,0.000,0.000,HISTEwAAAAEAAAAAAAAAAAAAAAAAAAABAAAAAAAAAAI/8AAAAAAAAAA=\n";

/// Writes the parts of `LOG` before the first whose allocation fails, which writes nothing. Returns
/// where the log ends then as an error.
fn write_parts(rt: &(impl Abort + AllocGlobal), log: &mut Vec<u8>) -> Result<(), usize> {
    let h = Histogram::<u64>::new(rt.alloc(), 0).ok().ok_or(0usize)?;
    let mut serializer = V2Serializer::new(rt.alloc());
    let mut writer = IntervalLogWriter::new(rt.alloc(), log, &mut serializer, 1);
    let comment = writer.write_comment("a\nb");
    allocated!(rt, comment, LogError::OutOfMemory).ok_or(0usize)?;
    let interval = writer.write_histogram(&h, Duration::ZERO, Duration::ZERO, None);
    allocated!(
        rt,
        interval,
        LogError::OutOfMemory | LogError::SerializeError(V2SerializeError::OutOfMemory)
    )
    .ok_or(6usize)?;
    let v2 = writer.write_v2(&h, Duration::ZERO, Duration::ZERO, None);
    allocated!(rt, v2, LogError::OutOfMemory).ok_or(81usize)?;
    let pushed = writer.push_v2(&h, Duration::ZERO, Duration::ZERO, None);
    allocated!(rt, pushed, LogError::OutOfMemory).ok_or(156usize)
}

/// Writes `LOG`, or returns `None` if an allocation failed. Then the log has the parts before it.
fn write_log(rt: &(impl Abort + AllocGlobal)) -> Option<()> {
    let mut log = Vec::with_capacity(rt.alloc(), 200).ok()?;
    let written = write_parts(rt, &mut log);
    let end = written.err().unwrap_or(231);
    assert!(rt; LOG.get(..end) == Some(log.as_slice()));
    written.ok()
}

/// A part whose allocation fails leaves the parts before it, and nothing of its own.
#[test]
fn log_part_by_part(rt: HostRuntime) -> Result<(), Fail> {
    report(&rt, write_log(&rt).is_some())
}
