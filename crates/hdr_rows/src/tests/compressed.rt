//! Zlib streams of zlib 1.2.13, an interval of Java's library, and the messages of errors.

use crate::tests::FIRST_RUN;
use crate::tests::messages::assert_message;
use hdr_convert::{ConvertError, Form, compressed, convert_field, form_of, v2_bytes};
use hdr_zlib::{CompressionLevel, InflateError, adler32, deflate, inflate};
use std::alloc::Global;
use std::process::Abort;
use std::test::Fail;

/// `hello hello hello`, in fixed codes and with a repetition.
const HELLO: [u8; 16] = [
    120, 218, 203, 72, 205, 201, 201, 87, 200, 64, 144, 0, 58, 46, 6, 125,
];

/// The histogram of Java's library with 1 once and 2 four times, by three digits, in Base64.
pub const COMPRESSED: &str = "HISTFAAAABx42pNpmSzMwMDAzAABMJoRSjPZf4CxOABCFwKJ";

/// The same as `hdr log` writes it.
pub const PLAIN: &str = "HISTEwAAAAMAAAAAAAAAAwAAAAAAAAABAAAAAAAAAAI/8AAAAAAAAAACCA==";

#[test]
fn inflates_what_zlib_writes(rt: HostRuntime) -> Result<(), Fail> {
    let bytes = inflate(rt.alloc(), &HELLO, 17)?;
    assert_eq!(rt; bytes.as_slice(), b"hello hello hello".as_slice());
    assert_eq!(rt; adler32(b"hello hello hello"), 0x3a2e_067d);
    assert_eq!(rt; inflate(rt.alloc(), &HELLO, 16), Err(InflateError::Limit));
    Ok(())
}

#[test]
fn each_prefix_of_a_stream_is_incomplete(rt: HostRuntime) -> Result<(), Fail> {
    for end in 0..HELLO.len() {
        let error = inflate(rt.alloc(), &HELLO[..end], 17);
        assert_eq!(rt; error, Err(InflateError::Truncated));
    }
    Ok(())
}

#[test]
fn inflates_what_deflate_writes(rt: HostRuntime) -> Result<(), Fail> {
    for level in [CompressionLevel::Stored, CompressionLevel::Huffman] {
        let stream = deflate(rt.alloc(), &FIRST_RUN, level)?;
        let bytes = inflate(rt.alloc(), &stream, 43)?;
        assert_eq!(rt; bytes.as_slice(), FIRST_RUN.as_slice());
    }
    Ok(())
}

/// Returns the field in another form.
fn converted(alloc: Global, field: &str, form: Form) -> Result<String, Fail> {
    let mut output = Vec::new(alloc);
    convert_field(alloc, field, form, &mut output)?;
    Ok(String::from_utf8(output)?)
}

#[test]
fn converts_a_histogram_of_java(rt: HostRuntime) -> Result<(), Fail> {
    assert_eq!(rt;
        converted(rt.alloc(), COMPRESSED, Form::Plain)?.as_str(),
        PLAIN
    );
    let packed = converted(rt.alloc(), PLAIN, Form::Compressed)?;
    assert_eq!(rt;
        converted(rt.alloc(), packed.as_str(), Form::Plain)?.as_str(),
        PLAIN
    );
    Ok(())
}

#[test]
fn compresses_bytes_and_back(rt: HostRuntime) -> Result<(), Fail> {
    let mut bytes = Vec::new(rt.alloc());
    bytes.extend_from_slice(&FIRST_RUN)?;
    let packed = compressed(rt.alloc(), bytes)?;
    assert_eq!(rt; form_of(&packed), Ok(Form::Compressed));
    let plain = v2_bytes(rt.alloc(), packed)?;
    assert_eq!(rt; plain.as_slice(), FIRST_RUN.as_slice());
    Ok(())
}

#[test]
fn forms_of_other_histograms(rt: HostRuntime) {
    for (cookie, error) in [
        ([0x1c, 0x84, 0x93, 0x41], ConvertError::OldVersion(1)),
        ([0x1c, 0x84, 0x93, 0x88], ConvertError::OldVersion(0)),
        ([0x0c, 0x72, 0x12, 0x4e], ConvertError::DoubleHistogram),
    ] {
        assert_eq!(rt; form_of(&cookie), Err(error));
    }
    assert_eq!(rt;
        form_of(&[0x1c, 0x84, 0x93]),
        Err(ConvertError::NotAHistogram)
    );
}

#[test]
fn conversion_messages(rt: HostRuntime) -> Result<(), Fail> {
    let message = "a histogram of version 1 with counters of an unknown width";
    assert_message(&rt, &ConvertError::OldVersion(1), message)?;
    assert_message(&rt, &ConvertError::DoubleHistogram, "a double histogram")?;
    let error = ConvertError::Inflate(InflateError::Checksum);
    let message = "invalid compressed histogram: the checksum of the data is wrong";
    assert_message(&rt, &error, message)
}
