//! Texts in HTML.

ghost use Rattle.std.specs.Prelude.{◌≡◌, ◌++◌, OnOk, string_bytes};
ghost use Rattle.hdr_draw.specs.Letters.{escaped, escaped_text};

use std::alloc::AllocError;

/// Appends a character as HTML writes it.
#[tactic(auto, unfolding(crate::specs::Letters::escaped))]
fn push_char(text: &mut String, character: char) -> Result<(), AllocError>
    ensures { OnOk result (string_bytes text.new ≡ string_bytes text.old ++ escaped character) }
{
    match character {
        '&' => text.push_str("&amp;"),
        '<' => text.push_str("&lt;"),
        '>' => text.push_str("&gt;"),
        '"' => text.push_str("&quot;"),
        '\'' => text.push_str("&#39;"),
        _ => text.push(character),
    }
}

/// Appends a text as HTML writes it.
pub fn push_escaped(text: &mut String, plain: &str) -> Result<(), AllocError>
    ensures { OnOk result (string_bytes text.new ≡ string_bytes text.old ++ escaped_text plain.now) }
{
    for character in plain.chars() {
        push_char(text, character)?;
    }
    Ok(())
}
