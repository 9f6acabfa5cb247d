//! Tags of intervals.

ghost use Rattle.std.specs.Prelude.{◌≡◌, true, IsSome};
ghost use Rattle.std.specs.Option.{option_map};
ghost use Rattle.std.specs.List.{list_all};
ghost use Rattle.hdr_log.specs.Grammar.{is_tag, is_tag_byte, only_if};

/// A tag of an interval: text without comma, CR, LF and space. Tags are ordered by their bytes.
#[derive(Debug, PartialEq, Eq, PartialOrd, Ord, Clone, Copy)]
pub struct Tag<'a> {
    text: &'a str,
    ghost allowed: { is_tag text.now ≡ true },
}

/// Whether the text has only bytes that a tag may have.
fn has_only_tag_bytes(text: &str) -> bool
    ensures { result ≡ list_all is_tag_byte text.now }
{
    text.bytes()
        .all(|b| !matches!(b, b',' | b'\r' | b'\n' | b' '))
}

impl<'a> Tag<'a> {
    ghost use Rattle.hdr_log.specs.Tags.{tag_text};

    /// Returns the tag of a text, or `None` if the text has a comma, a CR, an LF or a space. The empty text is a tag.
    pub fn new(text: &'a str) -> Option<Tag<'a>>
        ensures value { option_map tag_text result ≡ only_if (is_tag text.now) text.now }
        ensures allowed { list_all is_tag_byte text.now ≡ true → IsSome result }
    {
        if has_only_tag_bytes(text) {
            Some(Tag { text })
        } else {
            None
        }
    }

    /// The text of the tag.
    pub fn as_str(&self) -> &'a str
        ensures text { result.now ≡ tag_text self.now }
        ensures tag { is_tag result.now ≡ true }
    {
        self.text
    }
}
