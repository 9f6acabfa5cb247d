//! Blanks of a line, and what is before them.

ghost use Rattle.std.specs.Prelude.{◌≡◌};
ghost use Rattle.hdr_input.specs.Blanks.{after, is_blank, ends_line};

/// What is before a byte on its line.
#[derive(Clone, Copy, PartialEq, Eq)]
pub(crate) enum Before {
    Start,
    Text,
    Blank,
}

/// Whether a byte is a space or a tab.
pub(crate) fn is_blank(byte: u8) -> bool
    ensures { result ≡ is_blank byte }
{
    byte == b' ' || byte == b'\t'
}

/// Whether a byte ends a line.
pub(crate) fn ends_line(byte: u8) -> bool
    ensures { result ≡ ends_line byte }
{
    byte == b'\n' || byte == b'\r'
}

/// Returns what is before the byte that follows `byte`, which isn't a blank.
pub(crate) fn after(byte: u8) -> Before
    ensures { result ≡ after byte }
{
    if ends_line(byte) {
        Before::Start
    } else {
        Before::Text
    }
}

impl Before {
    ghost use Rattle.hdr_input.specs.Blanks.{after_blank};

    /// Returns what is before the byte after a blank.
    pub(crate) fn after_blank(self) -> Before
        ensures { result ≡ after_blank self }
    {
        match self {
            Before::Start => Before::Start,
            _ => Before::Blank,
        }
    }
}
