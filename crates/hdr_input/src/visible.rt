//! Texts as they are shown on a terminal.

ghost use Rattle.std.specs.Prelude.{◌≡◌, ◌++◌, OnOk, IfOk, string_bytes};
ghost use Rattle.hdr_input.specs.Visible.{is_invisible, shown, visible_text};

use std::alloc::{AllocError, Global};

/// Whether a character controls a terminal, has no width, or changes the direction of the text
/// around it.
#[tactic(auto, unfolding(crate::specs::Visible::is_invisible))]
fn is_invisible(character: char) -> bool
    ensures { result ≡ is_invisible character }
{
    matches!(
        character,
        '\0'..='\u{1f}'
            | '\u{7f}'..='\u{9f}'
            | '\u{61c}'
            | '\u{200b}'..='\u{200f}'
            | '\u{2028}'..='\u{202e}'
            | '\u{2060}'..='\u{206f}'
            | '\u{feff}'
    )
}

/// Returns a character, or `?` if it is invisible.
fn shown(character: char) -> char
    ensures { result ≡ shown character }
{
    if is_invisible(character) {
        '?'
    } else {
        character
    }
}

/// Appends a text, with `?` for each character that controls a terminal, has no width, or changes
/// the direction of the text around it.
pub fn push_visible(text: &mut String, plain: &str) -> Result<(), AllocError>
    ensures { OnOk result (string_bytes text.new ≡ string_bytes text.old ++ visible_text plain.now) }
{
    for character in plain.chars() {
        text.push(shown(character))?;
    }
    Ok(())
}

/// Returns a text as `push_visible` appends it.
pub fn visible(alloc: Global, plain: &str) -> Result<String, AllocError>
    ensures { IfOk result (λ text. string_bytes text ≡ visible_text plain.now) }
{
    let mut text = String::new(alloc);
    push_visible(&mut text, plain)?;
    Ok(text)
}
