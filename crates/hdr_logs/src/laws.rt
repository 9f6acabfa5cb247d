//! The laws of tags by file and of comments, each the contract of an empty function.

ghost use Rattle.std.specs.Prelude.{ℕ, List, Option, ◌≡◌, ◌++◌, ◌∷◌, [], IsUtf8};
ghost use Rattle.std.specs.Str.{IsTrimAsciiEnd};
ghost use Rattle.hdr_input.specs.declared.unit.Unit.{Unit};
ghost use Rattle.hdr_logs.specs.FileNames.{HasNoAt, name_in_tags, tag_in_file};
ghost use Rattle.hdr_logs.specs.Headers.{unit_comment, unit_line};

/// Names of files in tags have no `@`, and tags by file differ if their files or their tags do.
pub fn tags_by_file_differ()
    ensures names { (name : List ℕ) → HasNoAt (name_in_tags name) }
    ensures tags { (name other : List ℕ) (tag another : Option (List ℕ))
        → HasNoAt name → HasNoAt other
        → tag_in_file name tag ≡ tag_in_file other another → (name ≡ other) × (tag ≡ another) }
{}

/// The comment that has a unit is read back: a log has it behind `#` and before an LF.
pub fn units_read_back()
    ensures { (unit : Unit) → IsTrimAsciiEnd (35 ∷ unit_comment unit ++ 10 ∷ []) (unit_line unit) }
{}
