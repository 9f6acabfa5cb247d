//! The texts of groups.

ghost use Rattle.std.specs.Prelude.{◌≡◌, ◌++◌, [], Some, ◌≤◌, IfOk, IfErr, OnOk, OnErr, length, map, max, position, slice_get, string_bytes};
ghost use Rattle.std.specs.Str.{bytes_eq};
ghost use Rattle.hdr_input.specs.Groups.{with_text, tag_text, in_tag};

use indexmap::IndexSet;
use std::alloc::{AllocError, AllocFailed, Global};

/// The most groups.
pub const MOST_GROUPS: usize = 1_000;

/// Why a group is not added.
#[derive(Debug, Clone, Copy, PartialEq, Eq)]
pub enum GroupError {
    /// There are `MOST_GROUPS`.
    TooMany,
    OutOfMemory,
}

impl From<AllocError> for GroupError {
    ghost use Rattle.std.specs.Prelude.{◌≡◌};
    ghost use Rattle.hdr_input.specs.declared.group_texts.GroupError.TheVariants.{OutOfMemory};

    ghost from_gives = { λ _ error. error ≡ OutOfMemory };

    fn from(_error: AllocError) -> GroupError {
        GroupError::OutOfMemory
    }
}

impl<T: Drop> From<AllocFailed<T>> for GroupError {
    ghost use Rattle.std.specs.Prelude.{◌≡◌};
    ghost use Rattle.hdr_input.specs.declared.group_texts.GroupError.TheVariants.{OutOfMemory};

    ghost from_gives = { λ _ error. error ≡ OutOfMemory };

    fn from(_error: AllocFailed<T>) -> GroupError {
        GroupError::OutOfMemory
    }
}

/// The texts of groups, in the order in which they were first read.
#[derive(Drop)]
pub struct GroupTexts {
    texts: IndexSet<Vec<u8>>,
}

impl GroupTexts {
    /// Returns no texts.
    pub fn new(alloc: Global) -> GroupTexts
        ensures { result.texts.keys ≡ [] }
    {
        GroupTexts {
            texts: IndexSet::new(alloc),
        }
    }

    /// Returns the index of the group of a text, or `None` if there is none yet.
    pub fn index_of(&self, text: &[u8]) -> Option<usize>
        ensures { result ≡ position (λ t. bytes_eq text.now t.items) self.now.texts.keys }
    {
        self.texts.get_index_of(text)
    }

    /// Adds a group at the end, unless there is one of this text. Returns the index of the text.
    ///
    /// # Errors
    /// Returns `TooMany` for a new text if there are `MOST_GROUPS`, or `OutOfMemory`. The groups are
    /// then unchanged.
    pub fn add(&mut self, alloc: Global, text: &[u8]) -> Result<usize, GroupError>
        ensures texts { OnOk result (map (λ t. t.items) self.new.texts.keys
            ≡ with_text text.now (map (λ t. t.items) self.old.texts.keys)) }
        ensures index { IfOk result
            (λ at. slice_get (map (λ t. t.items) self.new.texts.keys) at ≡ Some text.now) }
        ensures same { OnErr result (self.new.texts.keys ≡ self.old.texts.keys) }
        ensures many { IfErr result (λ e. e ≡ GroupError.TooMany → MOST_GROUPS ≤ length self.old.texts.keys) }
        ensures most { OnOk result
            (length self.new.texts.keys ≤ max MOST_GROUPS (length self.old.texts.keys)) }
    {
        if let Some((index, _)) = self.texts.get_full(text) {
            return Ok(index);
        }
        if self.texts.len() >= MOST_GROUPS {
            return Err(GroupError::TooMany);
        }
        let owned = Vec::from_slice(alloc, text)?;
        let (index, _) = self.texts.insert_full(owned)?;
        Ok(index)
    }

    /// Returns the texts in order.
    pub fn as_slice(&self) -> &[Vec<u8>]
        ensures { result.now ≡ self.now.texts.keys }
    {
        self.texts.as_slice()
    }
}

/// Returns the text of a group as a tag of a log: a percent sign, a comma, a space, a CR and an LF
/// are written as `%25`, `%2C`, `%20`, `%0D` and `%0A`.
pub fn tag_text(alloc: Global, text: &str) -> Result<String, AllocError>
    ensures { IfOk result (λ tag. string_bytes tag ≡ tag_text text.now) }
{
    let mut tag = String::new(alloc);
    for character in text.chars() {
        push_in_tag(&mut tag, character)?;
    }
    Ok(tag)
}

/// Appends a character as tags have it.
fn push_in_tag(tag: &mut String, character: char) -> Result<(), AllocError>
    ensures { OnOk result (string_bytes tag.new ≡ string_bytes tag.old ++ in_tag character) }
{
    match character {
        '%' => tag.push_str("%25"),
        ',' => tag.push_str("%2C"),
        ' ' => tag.push_str("%20"),
        '\r' => tag.push_str("%0D"),
        '\n' => tag.push_str("%0A"),
        _ => tag.push(character),
    }
}
