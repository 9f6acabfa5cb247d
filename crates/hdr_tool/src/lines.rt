//! The lines of an input, and the fields of a line.

ghost use Rattle.std.specs.Prelude.{◌≡◌, ◌==◌, ◌<◌, ◌∷◌, length, [], IfSome, MatchOption};
ghost use Rattle.std.specs.Option.{option_map};
ghost use Rattle.hdr_log.specs.Parts.{parts};
ghost use Rattle.hdr_tool.specs.Commands.{parts_of_rest, first_number};

use hdr_log::parts::number;
use memchr::memchr;
use std::marker::Model;

/// Splits `text` at the first `byte`, and returns the parts before and after it. If it has none,
/// returns all of `text` and `None`.
#[inline(always)]
pub(crate) fn split_at_first(text: &[u8], byte: u8) -> (&[u8], Option<&[u8]>)
    ensures parts { parts byte text.now
        ≡ result.0.now ∷ parts_of_rest byte (option_map (λ t. t.now) result.1) }
    ensures shorter { IfSome result.1 (λ rest. length rest.now < length text.now) }
{
    match memchr(byte, text) {
        Some(at) => (&text[..at], Some(&text[at + 1..])),
        None => (text, None),
    }
}

/// An iterator over the fields of a line, separated by one space each. To its callers it is the
/// list of the fields that are left.
#[derive(Drop)]
pub(crate) struct Fields<'a> {
    left: Option<&'a [u8]>,
}

impl<'a> Model for Fields<'a> {
    ghost use Rattle.std.specs.Prelude.{ℕ, List};
    ghost use Rattle.std.specs.Option.{option_map};
    ghost use Rattle.hdr_tool.specs.Commands.{parts_of_rest};

    ghost Value = { List (List ℕ) };

    ghost view = { λ fields. parts_of_rest 32 (option_map (λ t. t.now) fields.left) };
}

impl<'a> Fields<'a> {
    /// Creates an iterator over the fields of a line.
    #[inline(always)]
    pub fn new(line: &'a [u8]) -> Fields<'a>
        ensures { result ≡ parts 32 line.now }
    {
        Fields { left: Some(line) }
    }

    /// Returns the next field.
    #[inline(always)]
    pub fn next(&mut self) -> Option<&'a [u8]>
        ensures { MatchOption result ((self.old ≡ []) × (self.new ≡ []))
            (λ field. self.old ≡ field.now ∷ self.new) }
    {
        let (field, left) = split_at_first(self.left?, b' ');
        self.left = left;
        Some(field)
    }

    /// Parses the next field as a number.
    #[inline(always)]
    pub fn number(&mut self) -> Option<u64>
        ensures { option_map (λ n. (n, self.new)) result ≡ first_number self.old }
    {
        number(self.next()?)
    }

    /// Whether no field is left.
    #[inline(always)]
    pub fn is_empty(&self) -> bool
        ensures { result ≡ length self.now == 0 }
    {
        self.left.is_none()
    }
}
