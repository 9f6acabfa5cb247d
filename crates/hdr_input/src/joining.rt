//! The texts of several columns, joined to one.

ghost use Rattle.std.specs.Prelude.{◌≡◌, ◌++◌, OnOk};
ghost use Rattle.std.specs.List.{list_any};
ghost use Rattle.hdr_input.specs.Joining.{in_quotes, is_space_or_quote, part_of, quoted};

use std::alloc::AllocError;

/// Appends the text of one of several columns. A text with a space or a quotation mark is in
/// quotation marks, so that the spaces between columns are known.
pub(crate) fn push_part(joined: &mut Vec<u8>, text: &[u8]) -> Result<(), AllocError>
    ensures { OnOk result (joined.new.items ≡ joined.old.items ++ part_of text.now) }
{
    if needs_quotes(text) {
        push_quoted(joined, text)
    } else {
        joined.extend_from_slice(text)
    }
}

/// Whether a text has a space or a quotation mark.
fn needs_quotes(text: &[u8]) -> bool
    ensures { result ≡ list_any is_space_or_quote text.now }
{
    text.iter().any(|byte| is_space_or_quote(*byte))
}

/// Whether a byte is a space or a quotation mark.
fn is_space_or_quote(byte: u8) -> bool
    ensures { result ≡ is_space_or_quote byte }
{
    byte == b' ' || byte == b'"'
}

/// Appends a text in quotation marks.
fn push_quoted(joined: &mut Vec<u8>, text: &[u8]) -> Result<(), AllocError>
    ensures { OnOk result (joined.new.items ≡ joined.old.items ++ quoted text.now) }
{
    joined.push(b'"')?;
    for byte in text {
        push_in_quotes(joined, *byte)?;
    }
    joined.push(b'"')?;
    Ok(())
}

/// Appends a byte of a text in quotation marks. A quotation mark is doubled.
fn push_in_quotes(joined: &mut Vec<u8>, byte: u8) -> Result<(), AllocError>
    ensures { OnOk result (joined.new.items ≡ joined.old.items ++ in_quotes byte) }
{
    if byte == b'"' {
        joined.push(b'"')?;
    }
    joined.push(byte)?;
    Ok(())
}
