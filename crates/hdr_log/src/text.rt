//! Formatting the lines of a log. Each call appends to a buffer, so that a line is complete before it is written. On error a
//! part of what was to be appended may remain in the buffer.

ghost use Rattle.std.specs.Prelude.{◌≡◌, ◌+◌, ◌*◌, ◌/◌, ◌<◌, ◌^◌, ◌++◌, ◌∷◌, [], OnOk, IfSome, SomeIff};
ghost use Rattle.std.specs.Fmt.{decimal};
ghost use Rattle.std.specs.Option.{option_map};
ghost use Rattle.std.specs.Duration.{as_nanos};
ghost use Rattle.hdr_log.specs.Tags.{tag_text};
ghost use Rattle.hdr_log.specs.Texts.{AreBytes, thousandths_text, to_thousandths, IsTimeInRange, max_thousandths, with_line_feed, comment_line, tag_front, AreTags, base64_of};
ghost use Rattle.hdr_log.specs.Pieces.{Comment, StartsAt, BasedAt, Divided, Measured, piece_text, IsPiece};

use crate::parts::split_once;
use crate::tag::Tag;
use base64::encoded_len;
use base64::engine::general_purpose::STANDARD;
use std::alloc::AllocError;
use std::io::Write;
use std::time::Duration;

/// Returns the number of thousandths of a second of a time, rounded, or `None` if its seconds do not fit 64 bits.
pub fn thousandths(time: Duration) -> Option<u128>
    ensures value { SomeIff result (IsTimeInRange (as_nanos time))
        (to_thousandths (as_nanos time)) }
    ensures small { IfSome result (λ t. t / 1000 < 2 ^ 64) }
{
    let rounded = (time.as_nanos() + 500_000) / 1_000_000;
    (rounded / 1000 < 1 << 64).then_some(rounded)
}

/// Returns `max / divisor` in thousandths, rounded.
pub fn scaled(max: u64, divisor: u64) -> u128
    requires { 0 < divisor }
    ensures value { result ≡ max_thousandths max divisor }
    ensures small { result / 1000 < 2 ^ 64 }
{
    (2000 * u128::from(max) + u128::from(divisor)) / (2 * u128::from(divisor))
}

fn push_decimal(text: &mut Vec<u8>, number: u64) -> Result<(), AllocError>
    ensures { OnOk result (text.new.items ≡ text.old.items ++ decimal number) }
{
    write!(text, "{number}").map_err(|_| AllocError)
}

/// Appends a number of thousandths.
#[tactic(auto, unfolding(crate::specs::Texts::thousandths_text))]
fn push_thousandths(text: &mut Vec<u8>, number: u128) -> Result<(), AllocError>
    requires { number / 1000 < 2 ^ 64 }
    ensures { OnOk result (text.new.items ≡ text.old.items ++ thousandths_text number) }
{
    push_decimal(text, (number / 1000) as u64)?;
    let rest = (number % 1000) as u16;
    let digits = [
        b'.',
        b'0' + (rest / 100) as u8,
        b'0' + (rest / 10 % 10) as u8,
        b'0' + (rest % 10) as u8,
    ];
    text.extend_from_slice(&digits)
}

fn push_comment_line(text: &mut Vec<u8>, part: &[u8]) -> Result<(), AllocError>
    ensures { OnOk result (text.new.items ≡ text.old.items ++ with_line_feed
        (comment_line part.now)) }
{
    text.push(b'#')?;
    text.extend_from_slice(part)?;
    text.extend_from_slice(b"\n")
}

/// Appends a comment, with each of its lines on a line of its own.
pub fn push_comment(text: &mut Vec<u8>, comment: &str) -> Result<(), AllocError>
    ensures { OnOk result (text.new.items ≡ text.old.items ++ piece_text (Comment comment.now)) }
{
    let mut rest = comment.as_bytes();
    while let Some((part, tail)) = split_once(rest, b'\n') {
        push_comment_line(text, part)?;
        rest = tail;
    }
    push_comment_line(text, rest)
}

/// Appends `front`, a number of thousandths, `end`, and an LF.
fn push_line(text: &mut Vec<u8>, front: &[u8], number: u128, end: &[u8]) -> Result<(), AllocError>
    requires { number / 1000 < 2 ^ 64 }
    ensures { OnOk result (text.new.items ≡ text.old.items ++ with_line_feed
        (front.now ++ (thousandths_text number ++ end.now))) }
{
    text.extend_from_slice(front)?;
    push_thousandths(text, number)?;
    text.extend_from_slice(end)?;
    text.extend_from_slice(b"\n")
}

/// Appends the header of a start time in thousandths of a second.
pub fn push_start_time(text: &mut Vec<u8>, time: u128) -> Result<(), AllocError>
    requires { time / 1000 < 2 ^ 64 }
    ensures { OnOk result (text.new.items ≡ text.old.items ++ piece_text (StartsAt time)) }
{
    push_line(text, b"#[StartTime: ", time, b" (seconds since epoch)]")
}

/// Appends the header of a base time in thousandths of a second.
pub fn push_base_time(text: &mut Vec<u8>, time: u128) -> Result<(), AllocError>
    requires { time / 1000 < 2 ^ 64 }
    ensures { OnOk result (text.new.items ≡ text.old.items ++ piece_text (BasedAt time)) }
{
    push_line(text, b"#[BaseTime: ", time, b" (seconds since epoch)]")
}

/// Appends the header of a divisor of greatest values.
pub fn push_divisor(text: &mut Vec<u8>, divisor: u64) -> Result<(), AllocError>
    ensures { OnOk result (text.new.items ≡ text.old.items ++ piece_text (Divided divisor)) }
{
    push_line(text, b"#[MaxValueDivisor: ", 1000 * divisor as u128, b"]")
}

/// Appends a number of thousandths and a comma.
fn push_number_field(text: &mut Vec<u8>, number: u128) -> Result<(), AllocError>
    requires { number / 1000 < 2 ^ 64 }
    ensures { OnOk result (text.new.items ≡ text.old.items ++ thousandths_text number ++ 44 ∷ []) }
{
    push_thousandths(text, number)?;
    text.extend_from_slice(b",")
}

fn push_tag(text: &mut Vec<u8>, tag: Option<Tag<'_>>) -> Result<(), AllocError>
    ensures text { OnOk result (text.new.items ≡ text.old.items ++ tag_front
        (option_map tag_text tag.entry)) }
    ensures tag { AreTags (option_map tag_text tag.entry) }
{
    if let Some(tag) = tag {
        text.extend_from_slice(b"Tag=")?;
        text.extend_from_slice(tag.as_str().as_bytes())?;
        text.push(b',')?;
    }
    Ok(())
}

/// Appends bytes as Base64.
#[tactic(auto, unfolding(crate::specs::Texts::base64_of))]
fn push_base64(text: &mut Vec<u8>, bytes: &[u8]) -> Result<(), AllocError>
    ensures { OnOk result (text.new.items ≡ text.old.items ++ base64_of bytes.now) }
{
    let from = text.len();
    let room = encoded_len(bytes.len(), true).ok_or(AllocError)?;
    let end = from.checked_add(room).ok_or(AllocError)?;
    text.resize(end, 0)?;
    match STANDARD.encode_slice(bytes, &mut text[from..]) {
        Ok(_) => Ok(()),
        Err(_) => Err(AllocError),
    }
}

/// Appends an interval: its tag, its times and its greatest value in thousandths, and the bytes of its histogram.
pub fn push_interval(
    text: &mut Vec<u8>,
    tag: Option<Tag<'_>>,
    start: u128,
    duration: u128,
    max: u128,
    bytes: &[u8],
) -> Result<(), AllocError>
    requires start { start / 1000 < 2 ^ 64 }
    requires duration { duration / 1000 < 2 ^ 64 }
    requires max { max / 1000 < 2 ^ 64 }
    ensures text { OnOk result (text.new.items ≡ text.old.items
        ++ piece_text (Measured (option_map tag_text tag.entry) start duration max
        (base64_of bytes.now))) }
    ensures piece { IsPiece (Measured (option_map tag_text tag.entry) start duration max
        (base64_of bytes.now)) }
    ensures bytes { AreBytes bytes.now }
{
    push_tag(text, tag)?;
    push_number_field(text, start)?;
    push_number_field(text, duration)?;
    push_number_field(text, max)?;
    push_base64(text, bytes)?;
    text.push(b'\n')?;
    Ok(())
}
