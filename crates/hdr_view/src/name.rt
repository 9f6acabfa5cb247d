//! Names that come from a log.

ghost use Rattle.std.specs.Prelude.{ℕ, List, ◌≡◌, ◌++◌, OnOk, string_bytes};
ghost use Rattle.hdr_draw.specs.Letters.{escaped_text};

use hdr_draw::escape::push_escaped;
use std::alloc::{AllocError, Global};
use unicode::properties::GeneralCategory;
use unicode_width::UnicodeWidthChar;

/// The most columns of a tag in a table, and in the sentence on all samples.
pub const IN_TABLE: usize = 40;

/// The most columns of a tag in the line of a slow time.
pub(crate) const IN_SLOW_TIME: usize = 24;

/// The most columns of a tag at the end of a curve.
pub const AT_CURVE: usize = 20;

/// The most columns of a title.
pub const IN_TITLE: usize = 200;

/// The most marks that combine with a character: more of them reach the lines above and below.
const MOST_MARKS: usize = 2;

/// Whether a character is visible.
fn is_visible(character: char) -> bool {
    character == ' '
        || !matches!(
            GeneralCategory::for_char(character),
            GeneralCategory::Control
                | GeneralCategory::Format
                | GeneralCategory::Surrogate
                | GeneralCategory::PrivateUse
                | GeneralCategory::Unassigned
                | GeneralCategory::SpaceSeparator
                | GeneralCategory::LineSeparator
                | GeneralCategory::ParagraphSeparator
        )
}

/// Whether a character combines with the one before it.
fn is_mark(character: char) -> bool {
    matches!(
        GeneralCategory::for_char(character),
        GeneralCategory::NonspacingMark
            | GeneralCategory::EnclosingMark
            | GeneralCategory::SpacingMark
    )
}

/// Returns a character, or one that replaces it if it is invisible.
fn visible(character: char) -> char {
    if is_visible(character) {
        character
    } else {
        '\u{fffd}'
    }
}

/// Returns the columns that a character takes: two if it is wide, and none if it combines.
fn columns_of(character: char) -> usize {
    character.width().unwrap_or(1)
}

/// Returns the columns of a name. It stops once they are more than `most`.
pub fn columns(name: &str, most: usize) -> usize {
    let mut columns = 0usize;
    for character in name.chars() {
        columns = columns.saturating_add(columns_of(visible(character)));
        if columns > most {
            break;
        }
    }
    columns
}

/// Returns a text of at most a number of columns. Characters that are invisible are replaced, marks
/// past the second of a character are left out, and an ellipsis ends a text that is longer.
pub(crate) fn shortened(alloc: Global, name: &str, most: usize) -> Result<String, AllocError> {
    let is_long = columns(name, most) > most;
    let limit = most.saturating_sub(if is_long { 1 } else { 0 });
    let mut text = String::new(alloc);
    let mut taken = 0usize;
    let mut marks = 0usize;
    for character in name.chars() {
        marks = if is_mark(character) {
            marks.saturating_add(1)
        } else {
            0
        };
        let character = visible(character);
        taken = taken.saturating_add(columns_of(character));
        if taken > limit {
            break;
        }
        if marks <= MOST_MARKS {
            text.push(character)?;
        }
    }
    if is_long {
        text.push('…')?;
    }
    Ok(text)
}

/// Appends a text of a log as HTML writes it, with at most a number of columns.
pub(crate) fn push_shown(
    alloc: Global,
    text: &mut String,
    name: &str,
    most: usize,
) -> Result<(), AllocError>
    ensures { OnOk result ((shown : List ℕ)
        × (string_bytes text.new ≡ string_bytes text.old ++ escaped_text shown)) }
{
    let shown = shortened(alloc, name, most)?;
    push_escaped(text, shown.as_str())
}
