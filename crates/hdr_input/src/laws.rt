//! The laws of texts on a terminal, each the contract of an empty function.

ghost use Rattle.std.specs.Prelude.{ℕ, List, ◌≡◌, IsUtf8, chars, false};
ghost use Rattle.std.specs.List.{All};
ghost use Rattle.hdr_input.specs.Visible.{is_invisible, shown, visible_text};

/// No character is shown that is invisible, and a text without such characters is shown as it is.
pub fn no_character_is_invisible()
    ensures shown { (character : ℕ) → is_invisible (shown character) ≡ false }
    ensures same { (text : List ℕ) → IsUtf8 text
        → All (λ character. is_invisible character ≡ false) (chars text) → visible_text text ≡ text }
{}
