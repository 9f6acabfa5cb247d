//! Coordinates as texts.

ghost use Rattle.std.specs.Prelude.{◌≡◌, ◌++◌, OnOk, string_bytes};
ghost use Rattle.hdr_draw.specs.Paths.{tenths};

use std::alloc::AllocError;

/// Appends a number of tenths as a decimal, without a digit after the point if that is 0.
#[tactic(auto, unfolding(crate::specs::Paths::tenths))]
pub fn push_tenths(text: &mut String, number: u32) -> Result<(), AllocError>
    ensures { OnOk result (string_bytes text.new ≡ string_bytes text.old ++ tenths number) }
{
    let whole = number / 10;
    let part = number % 10;
    if part == 0 {
        write!(text, "{whole}")
    } else {
        write!(text, "{whole}.{part}")
    }
}
