//! The commands of lines: `r V [N]` records the value V, N times; `s V [N]` records it clamped to the
//! bins; `c V I [N]` records it corrected at the expected interval I; `clear` and `reset` are calls
//! of the histogram; `end START DURATION [TAG]` ends an interval of a log.

ghost use Rattle.std.specs.Prelude.{◌≡◌, IfSome, Some, None};
ghost use Rattle.std.specs.Option.{option_map};
ghost use Rattle.hdr_tool.specs.Commands.{count_of, alone, tag_of_word, end_tag_of, command_of, view_of_command, BeginsWith, AreNumbers, FirstLine, Apply};
ghost use Rattle.hdr_log.specs.Parts.{parts};
ghost use Rattle.hdr_log.specs.Tags.{tag_text};

use crate::lines::Fields;
use hdr_log::parts::text;
use hdrhistogram::Call;
use hdrhistogram::serialization::interval_log::Tag;

/// The command of a line.
#[derive(Drop)]
pub(crate) enum Command<'a> {
    /// A call on the histogram.
    Apply(Call<'static, u64>),
    /// An interval that ends: its start and its duration in milliseconds, and its tag.
    End(u64, u64, Option<Tag<'a>>),
}

/// Returns `value` if no field is left, and `None` otherwise.
#[inline(always)]
fn alone<T: Drop>(value: T, fields: &Fields<'_>) -> Option<T>
    ensures { result ≡ alone value fields.now }
{
    if !fields.is_empty() {
        return None;
    }
    Some(value)
}

/// Parses `[N]`: a count, or 1 if no field is left.
#[inline(always)]
fn count(fields: &mut Fields<'_>) -> Option<u64>
    ensures { result ≡ count_of fields.old }
{
    if fields.is_empty() {
        return Some(1);
    }
    let count = fields.number()?;
    alone(count, fields)
}

/// Parses a tag that is not empty.
fn tag(word: &[u8]) -> Option<Tag<'_>>
    ensures { option_map tag_text result ≡ tag_of_word word.now }
{
    if word.is_empty() {
        return None;
    }
    Tag::new(text(word)?)
}

/// Parses `[TAG]`: a tag, if a field is left.
fn end_tag<'a>(fields: &mut Fields<'a>) -> Option<Option<Tag<'a>>>
    ensures { option_map (λ tag. option_map tag_text tag) result ≡ end_tag_of fields.old }
{
    let Some(word) = fields.next() else {
        return Some(None);
    };
    if !fields.is_empty() {
        return None;
    }
    Some(Some(tag(word)?))
}

/// Parses the command of a line. Returns `None` if the line is not a command.
#[inline(always)]
#[tactic(auto, unfolding(crate::specs::Commands::command_of_name))]
pub(crate) fn parse(line: &[u8]) -> Option<Command<'_>>
    ensures { option_map view_of_command result ≡ command_of line.now }
{
    let mut fields = Fields::new(line);
    let name = fields.next()?;
    if name == b"r".as_slice() {
        let value = fields.number()?;
        let count = count(&mut fields)?;
        Some(Command::Apply(Call::Record(value, count)))
    } else if name == b"s".as_slice() {
        let value = fields.number()?;
        let count = count(&mut fields)?;
        Some(Command::Apply(Call::Clamp(value, count)))
    } else if name == b"c".as_slice() {
        let value = fields.number()?;
        let interval = fields.number()?;
        let count = count(&mut fields)?;
        Some(Command::Apply(Call::Correct(value, count, interval)))
    } else if name == b"clear".as_slice() {
        Some(Command::Apply(alone(Call::Clear, &fields)?))
    } else if name == b"reset".as_slice() {
        Some(Command::Apply(alone(Call::Reset, &fields)?))
    } else if name == b"end".as_slice() {
        let start = fields.number()?;
        let duration = fields.number()?;
        let tag = end_tag(&mut fields)?;
        Some(Command::End(start, duration, tag))
    } else {
        None
    }
}

/// Fast path: parses the number of 18 digits or fewer that `text` starts with, and returns it with
/// the byte after it and the rest.
#[inline(always)]
fn digits(text: &[u8]) -> Option<(u64, u8, &[u8])>
    ensures { IfSome result (λ p. BeginsWith text.now p.0 p.1 p.2.now) }
{
    let mut value = 0;
    for at in 0..text.len().min(19) {
        let byte = text[at];
        if !byte.is_ascii_digit() {
            if at == 0 {
                return None;
            }
            return Some((value, byte, &text[at + 1..]));
        }
        value = value * 10 + u64::from(byte - b'0');
    }
    None
}

/// Fast path: parses `V` or `V W`, which an LF ends, and returns the numbers with the rest.
#[inline(always)]
fn numbers(text: &[u8]) -> Option<(u64, Option<u64>, &[u8])>
    ensures { IfSome result (λ p. FirstLine text.now
        (λ line. AreNumbers (parts 32 line) p.0 p.1) p.2.now) }
{
    let (first, byte, rest) = digits(text)?;
    if byte == b'\n' {
        return Some((first, None, rest));
    }
    if byte != b' ' {
        return None;
    }
    let (second, after) = last_number(rest)?;
    Some((first, Some(second), after))
}

/// Fast path: parses `V`, which an LF ends, and returns the number with the rest.
#[inline(never)]
fn last_number(text: &[u8]) -> Option<(u64, &[u8])>
    ensures { IfSome result (λ p. FirstLine text.now
        (λ line. AreNumbers (parts 32 line) p.0 None) p.1.now) }
{
    let (value, byte, rest) = digits(text)?;
    if byte != b'\n' {
        return None;
    }
    Some((value, rest))
}

/// Fast path: parses a first line `r V [N]`, `s V [N]` or `c V I` that an LF ends, and returns its
/// call with the rest. Numbers have at most 18 digits here.
#[inline(always)]
pub(crate) fn value_line(text: &[u8]) -> Option<(Call<'static, u64>, &[u8])>
    ensures { IfSome result (λ p. FirstLine text.now
        (λ line. command_of line ≡ Some (Apply p.0)) p.1.now) }
{
    let [name @ b'c'..=b's', b' ', fields @ ..] = text else {
        return None;
    };
    let (value, second, after) = numbers(fields)?;
    match *name {
        b'r' => Some((Call::Record(value, second.unwrap_or(1)), after)),
        b's' => Some((Call::Clamp(value, second.unwrap_or(1)), after)),
        b'c' => Some((Call::Correct(value, 1, second?), after)),
        _ => None,
    }
}
