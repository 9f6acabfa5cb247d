//! The results of the library if a reader or a writer fails.

use crate::tests::failing::{KINDS, Sink, Source, ended};
use crate::tests::{FIRST_LINE, FIRST_RUN, first_run};
use hdrhistogram::Histogram;
use hdrhistogram::serialization::deserializer::varint_read;
use hdrhistogram::serialization::interval_log::{
    IntervalLogWriter, IntervalLogWriterBuilder, IntervalLogWriterError as LogError, Tag,
};
use hdrhistogram::serialization::{
    DeserializeError, Deserializer, Serializer, V2SerializeError, V2Serializer,
};
use std::alloc::Global;
use std::io::ErrorKind;
use std::process::Abort;
use std::test::Fail;
use std::time::Duration;

/// All bytes are written by seven calls, or the error of one of them is returned after the bytes
/// before it.
#[test]
fn writers_of_bytes(rt: HostRuntime) -> Result<(), Fail> {
    let h = first_run(rt.alloc())?;
    let mut serializer = V2Serializer::new(rt.alloc());
    for kind in KINDS {
        for fails_at in 1..9usize {
            let mut sink = Sink::new(7, fails_at, kind);
            let result = serializer.serialize(&h, &mut sink);
            let is_expected = matches!(result, Ok(43) | Err(_))
                && sink.ends(ended!(result, V2SerializeError), &FIRST_RUN);
            assert!(rt; is_expected, "{kind:?} at {fails_at}");
        }
    }
    Ok(())
}

/// All bytes are read by 43 calls, or the error of one of them is returned.
#[test]
fn readers_of_bytes(rt: HostRuntime) {
    let mut deserializer = Deserializer::new(rt.alloc());
    for kind in KINDS.into_iter().flatten() {
        for fails_at in 1..45usize {
            let mut source = Source::new(&FIRST_RUN, 1, fails_at, kind);
            let result = deserializer.deserialize::<u64, Source>(&mut source);
            let is_expected = !matches!(&result, Ok(h) if h.len() != 5)
                && source.ends(ended!(result, DeserializeError), 43, 43);
            assert!(rt; is_expected, "{kind:?} at {fails_at}");
        }
    }
}

/// Indices of bytes of the first run, the byte that replaces each, and how many bytes are then consumed: those up to and
/// including the invalid field, or all of the payload.
const INVALID: [(usize, u8, usize); 7] = [
    (0, 0, 4),
    (3, 0x14, 4),
    (11, 1, 12),
    (14, 1, 16),
    (15, 6, 40),
    (32, 0, 40),
    (42, 0x80, 43),
];

/// Nothing is consumed after the bytes that determine the error. If that is the stream's, it is the
/// unexpected end.
#[test]
fn invalid_bytes(rt: HostRuntime) {
    let mut deserializer = Deserializer::new(rt.alloc());
    for (index, byte, consumed) in INVALID {
        let mut bytes = FIRST_RUN;
        if let Some(slot) = bytes.get_mut(index) {
            *slot = byte;
        }
        let mut source = Source::new(&bytes, 1, 0, ErrorKind::Other);
        let result = deserializer.deserialize::<u64, Source>(&mut source);
        let ended = ended!(result, DeserializeError);
        let left = FIRST_RUN.len().saturating_sub(consumed);
        assert!(rt;
            matches!(ended, Err(None | Some(ErrorKind::UnexpectedEof))),
            "byte {index}"
        );
        assert!(rt; source.leaves(left), "byte {index}");
    }
}

/// The varint of the greatest number, which has nine bytes, and a trailing byte.
const MAX_VARINT: [u8; 10] = [0xff, 0xff, 0xff, 0xff, 0xff, 0xff, 0xff, 0xff, 0xff, 7];

/// The number is read by nine calls, or the error of one of them is returned.
#[test]
fn readers_of_varints(rt: HostRuntime) {
    for kind in KINDS.into_iter().flatten() {
        for fails_at in 1..11usize {
            let mut source = Source::new(&MAX_VARINT, 1, fails_at, kind);
            let is_expected = match varint_read(&mut source) {
                Ok(n) => n == u64::MAX && source.ends(Ok(()), 9, 10),
                Err(cause) => source.ends(Err(Some(cause.kind())), 9, 10),
            };
            assert!(rt; is_expected, "{kind:?} at {fails_at}");
        }
    }
}

/// A histogram, and what writes it to a log. Each method writes a part to a writer of seven bytes a
/// call. It returns whether all is written, or an error is returned after the bytes before it.
#[derive(Drop)]
struct LogParts {
    alloc: Global,
    h: Histogram<u64>,
    serializer: V2Serializer,
}

impl LogParts {
    fn interval(&mut self, mut sink: Sink) -> bool {
        let mut log = IntervalLogWriter::new(self.alloc, &mut sink, &mut self.serializer, 1);
        let (start, duration) = (Duration::ZERO, Duration::new(1, 0));
        let result = log.write_histogram(&self.h, start, duration, Tag::new("a"));
        drop(log);
        sink.ends(ended!(result, LogError), FIRST_LINE.as_bytes())
    }

    /// An interval whose V2 bytes are not copied.
    fn v2(&mut self, mut sink: Sink) -> bool {
        let mut log = IntervalLogWriter::new(self.alloc, &mut sink, &mut self.serializer, 1);
        let result = log.write_v2(&self.h, Duration::ZERO, Duration::new(1, 0), Tag::new("a"));
        drop(log);
        sink.ends(ended!(result, LogError), FIRST_LINE.as_bytes())
    }

    /// A log's start with a comment.
    fn start(&mut self, builder: &IntervalLogWriterBuilder, mut sink: Sink) -> bool {
        let ended = ended!(
            builder.begin_log_with(&mut sink, &mut self.serializer),
            LogError
        );
        sink.ends(ended, b"#a comment\n")
    }

    /// A comment of two lines.
    fn comment(&mut self, mut sink: Sink) -> bool {
        let mut log = IntervalLogWriter::new(self.alloc, &mut sink, &mut self.serializer, 1);
        let result = log.write_comment("a comment\nof two lines");
        drop(log);
        sink.ends(ended!(result, LogError), b"#a comment\n#of two lines\n")
    }
}

#[test]
fn writers_of_logs(rt: HostRuntime) -> Result<(), Fail> {
    let mut parts = LogParts {
        alloc: rt.alloc(),
        h: first_run(rt.alloc())?,
        serializer: V2Serializer::new(rt.alloc()),
    };
    let mut builder = IntervalLogWriterBuilder::new(rt.alloc());
    builder.add_comment("a comment")?;
    for kind in KINDS {
        for fails_at in 1..15usize {
            let sink = Sink::new(7, fails_at, kind);
            let is_expected = parts.interval(sink)
                && parts.v2(sink)
                && parts.start(&builder, sink)
                && parts.comment(sink);
            assert!(rt; is_expected, "{kind:?} at {fails_at}");
        }
    }
    Ok(())
}
