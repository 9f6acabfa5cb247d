//! Names of files in tags.

ghost use Rattle.std.specs.Prelude.{◌≡◌, IfOk};
ghost use Rattle.std.specs.String.{string_bytes};
ghost use Rattle.hdr_logs.specs.FileNames.{char_in_tags, name_in_tags};

use std::alloc::{AllocError, Global};

/// Returns the name of a file as tags have it: `_` stands for each comma, space, CR, LF and `@`.
pub fn name_in_tags(alloc: Global, name: &str) -> Result<String, AllocError>
    ensures { IfOk result (λ text. string_bytes text ≡ name_in_tags name.now) }
{
    let mut text = String::new(alloc);
    for character in name.chars() {
        text.push(char_in_tags(character))?;
    }
    Ok(text)
}

/// Returns a character of a file's name as tags have it.
fn char_in_tags(character: char) -> char
    ensures { result ≡ char_in_tags character }
{
    match character {
        ',' | ' ' | '\r' | '\n' | '@' => '_',
        _ => character,
    }
}
