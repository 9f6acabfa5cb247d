//! Splitting bytes, and parsing numbers and times.

ghost use Rattle.std.specs.Prelude.{◌≡◌, ◌==◌, ◌+◌, ◌*◌, ◌^◌, ◌<◌, ◌≤◌, ◌-◌, length, take, IfSome, SomeIff, MatchOption, true};
ghost use Rattle.std.specs.Option.{option_map};
ghost use Rattle.std.specs.List.{list_all, position};
ghost use Rattle.std.specs.Char.{is_ascii_digit, digit_value};
ghost use Rattle.std.specs.Duration.{as_nanos};
ghost use Rattle.hdr_log.specs.Parts.{split_at_byte, is_digits, number_of};
ghost use Rattle.std.specs.Str.{is_utf8};
ghost use Rattle.hdr_log.specs.Grammar.{nanos_of, time_of, only_if};

use memchr::memchr;
use simdutf8::basic::from_utf8;
use std::time::Duration;

/// Returns the bytes as a `str`, if they are UTF-8.
pub fn text(bytes: &[u8]) -> Option<&str>
    ensures { option_map (λ x. x.now) result ≡ only_if (is_utf8 bytes.now) bytes.now }
{
    from_utf8(bytes).ok()
}

/// Returns the index of the first `byte`. The search is byte by byte, since parts are short.
fn position(text: &[u8], byte: u8) -> Option<usize>
    ensures { result ≡ position (λ x. x == byte) text.now }
{
    text.iter().position(|b| *b == byte)
}

/// Returns the index of the first LF. The search is by `memchr`, since lines of a log are long.
fn line_end(text: &[u8]) -> Option<usize>
    ensures { result ≡ position (λ x. x == 10) text.now }
{
    memchr(b'\n', text)
}

/// Returns the first line without its LF, and the rest after it, or `None` if no LF follows.
#[tactic(auto, unfolding(crate::specs::Parts::split_at_byte))]
pub fn split_line(text: &[u8]) -> Option<(&[u8], &[u8])>
    ensures parts { option_map (λ p. (p.0.now, p.1.now)) result ≡ split_at_byte 10 text.now }
    ensures length { IfSome result (λ p. length p.0.now + 1 + length p.1.now ≡ length text.now) }
{
    let at = line_end(text)?;
    Some((&text[..at], &text[at + 1..]))
}

/// Splits at the first `byte`, and returns what comes before it and after it, or `None` if there is none.
#[tactic(auto, unfolding(crate::specs::Parts::split_at_byte))]
pub fn split_once(text: &[u8], byte: u8) -> Option<(&[u8], &[u8])>
    ensures parts { option_map (λ p. (p.0.now, p.1.now)) result ≡ split_at_byte byte text.now }
    ensures length { IfSome result (λ p. length p.0.now + 1 + length p.1.now ≡ length text.now) }
{
    let at = position(text, byte)?;
    Some((&text[..at], &text[at + 1..]))
}

/// Whether each byte is a digit.
pub(crate) fn has_only_digits(text: &[u8]) -> bool
    ensures { result ≡ list_all is_ascii_digit text.now }
{
    text.iter().all(|b| b.is_ascii_digit())
}

/// Whether a text is one digit or more.
pub(crate) fn is_digits(text: &[u8]) -> bool
    ensures { result ≡ is_digits text.now }
{
    !text.is_empty() && has_only_digits(text)
}

/// Returns the value of a decimal digit, or `None` for any other byte.
fn digit(byte: u8) -> Option<u64>
    ensures value { SomeIff result (is_ascii_digit byte ≡ true) (digit_value byte) }
    ensures bound { IfSome result (λ d. d < 10) }
{
    match byte {
        b'0'..=b'9' => Some(u64::from(byte - b'0')),
        _ => None,
    }
}

/// Parses decimal digits. Leading zeros are allowed. Returns `None` for any other byte, for no digits, and on overflow.
#[tactic(auto, unfolding(crate::specs::Parts::number_of))]
pub fn number(text: &[u8]) -> Option<u64>
    ensures { result ≡ number_of text.now }
{
    if text.is_empty() {
        return None;
    }
    let mut value = 0;
    for byte in text {
        let digit = digit(*byte)?;
        value = append_digit(value, digit)?;
    }
    Some(value)
}

/// Returns the number with one more decimal digit at its end, or `None` on overflow.
#[inline]
pub fn append_digit(value: u64, digit: u64) -> Option<u64>
    requires { digit < 10 }
    ensures { MatchOption result (2 ^ 64 ≤ value * 10 + digit) (λ n. n ≡ value * 10 + digit) }
{
    if value < u64::MAX / 10 {
        Some(value * 10 + digit)
    } else {
        value.checked_mul(10)?.checked_add(digit)
    }
}

/// Returns the digits after a point that are read: the first nine.
fn kept(text: &[u8]) -> &[u8]
    ensures { result.now ≡ take 9 text.now }
{
    &text[..text.len().min(9)]
}

/// Parses the digits after a point as nanoseconds.
#[tactic(auto, unfolding(crate::specs::Grammar::nanos_of))]
fn nanos(text: &[u8]) -> Option<u32>
    ensures value { result ≡ nanos_of text.now }
    ensures small { IfSome result (λ n. n < 1_000_000_000) }
{
    if !is_digits(text) {
        return None;
    }
    let kept = kept(text);
    let number = number(kept)?;
    Some((number * nanos_of_unit(kept.len())) as u32)
}

/// Returns the nanoseconds of the last of these digits after a point. Most times have three.
fn nanos_of_unit(digits: usize) -> u64
    requires { digits ≤ 9 }
    ensures { result ≡ 10 ^ (9 - digits) }
{
    match digits {
        3 => 1_000_000,
        _ => 10u64.pow(9 - digits as u32),
    }
}

/// Parses a time in seconds.
#[tactic(auto, unfolding(crate::specs::Grammar::time_of))]
pub(crate) fn time(text: &[u8]) -> Option<Duration>
    ensures { option_map as_nanos result ≡ time_of text.now }
{
    let text = text.strip_prefix(b"+").unwrap_or(text);
    let (whole, fraction) = split_once(text, b'.')?;
    let seconds = number(whole)?;
    let nanos = nanos(fraction)?;
    Some(Duration::new(seconds, nanos))
}
