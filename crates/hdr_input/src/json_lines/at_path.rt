//! The text at a path of a line of JSON, found while the line is read.

ghost use Rattle.std.specs.Prelude.{◌<◌, length, OnOk};

use json::{Error, Invalid, MAX_DEPTH, Reader, Scratch, Token};

/// Reads a text of JSON, and returns the text at a path of these names.
#[inline(always)]
pub(super) fn read_text<'a>(
    text: &'a str,
    scratch: &'a mut Scratch,
    names: &[&str],
) -> Result<Option<&'a [u8]>, Error> {
    let mut reader = Reader::new(text, scratch)?;
    let found = read_value(&mut reader, names, MAX_DEPTH)?;
    match reader.next() {
        Some(_) => Err(Error::Invalid),
        None => Ok(found),
    }
}

/// Reads a value, in which arrays and objects may nest `depth` deep, and returns the text at a path.
#[cycle(path)]
#[inline(always)]
fn read_value<'a>(
    reader: &mut Reader<'a>,
    names: &[&str],
    depth: usize,
) -> Result<Option<&'a [u8]>, Invalid>
    ensures shorter { OnOk result (length reader.new < length reader.old) }
{
    let token = reader.next().ok_or(Invalid)?;
    let text = match token {
        Token::BeginObject if depth > 0 => return read_members(reader, names, depth - 1),
        Token::BeginArray if depth > 0 => return read_items(reader, names, depth - 1),
        Token::String(text) | Token::Number(text) => text.as_bytes(),
        Token::Bool(true) => b"true".as_slice(),
        Token::Bool(false) => b"false".as_slice(),
        Token::Null => return Ok(None),
        _ => return Err(Invalid),
    };
    Ok(if names.is_empty() { Some(text) } else { None })
}

/// Reads the members of an object to its end, and returns the text at a path: that in the last member
/// of its first name.
#[cycle(path)]
#[inline(never)]
fn read_members<'a>(
    reader: &mut Reader<'a>,
    names: &[&str],
    depth: usize,
) -> Result<Option<&'a [u8]>, Invalid>
    ensures shorter { OnOk result (length reader.new < length reader.old) }
{
    let mut found = None;
    while let Some(key) = reader.next_key()? {
        match names {
            [name, rest @ ..] if key == *name => found = read_value(reader, rest, depth)?,
            _ => reader.skip_value(depth)?,
        }
    }
    Ok(found)
}

/// Reads the items of an array to its end, and returns the text at a path, whose first name is the
/// index of an item.
#[cycle(path)]
#[inline(never)]
fn read_items<'a>(
    reader: &mut Reader<'a>,
    names: &[&str],
    depth: usize,
) -> Result<Option<&'a [u8]>, Invalid>
    ensures shorter { OnOk result (length reader.new < length reader.old) }
{
    let mut before = names.first().and_then(|name| name.parse::<usize>().ok());
    let mut found = None;
    while !reader.take_end_array() {
        match (before, names) {
            (Some(0), [_, rest @ ..]) => found = read_value(reader, rest, depth)?,
            _ => reader.skip_value(depth)?,
        }
        before = before.and_then(|before| before.checked_sub(1));
    }
    Ok(found)
}
