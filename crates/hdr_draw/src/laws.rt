//! The laws of scales and of escaped texts, each the contract of an empty function.

ghost use Rattle.std.specs.Prelude.{ℕ, List, ◌≡◌, ◌<◌, ◌≤◌, IsUtf8};
ghost use Rattle.hdr_draw.specs.Letters.{escaped_text, unescaped};
ghost use Rattle.hdr_draw.specs.Logarithm.{IsLogarithm};
ghost use Rattle.hdr_draw.specs.Rows.{Ends};
ghost use Rattle.hdr_draw.specs.Scales.{Extent, along, IsColour, IsQuantilePlace, IsValuePlace};

/// Logarithms ascend with their values.
pub fn logarithms_ascend()
    ensures { (a b m n : ℕ) → IsLogarithm a m → IsLogarithm b n → a ≤ b → m ≤ n }
{}

/// A greater number is no less far along a scale, nor is a greater value on a logarithmic scale, or
/// a quantile that fewer samples are above.
pub fn places_ascend()
    ensures numbers { (e : Extent) (length m n : ℕ) → 0 < e.span → m ≤ n
        → along e length m ≤ along e length n }
    ensures values { (e : Ends) (length a b p q : ℕ)
        → IsValuePlace e length a p → IsValuePlace e length b q → a ≤ b → p ≤ q }
    ensures quantiles { (e : Extent) (length n a b p q : ℕ) → 0 < e.span
        → IsQuantilePlace e length n a p → IsQuantilePlace e length n b q → b ≤ a → p ≤ q }
{}

/// A cell of more samples has no colour before that of one of fewer.
pub fn colours_ascend()
    ensures { (greatest a b m n : ℕ) → IsColour a greatest m → IsColour b greatest n → a ≤ b → m ≤ n }
{}

/// A browser, which replaces NUL and CR, reads an escaped text without these as the text itself.
pub fn escaped_texts_read_back()
    ensures { (text : List ℕ) → IsUtf8 text → unescaped (escaped_text text) ≡ text }
{}
