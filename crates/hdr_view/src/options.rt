//! How a page is made.

ghost use Rattle.std.specs.Prelude.{ℕ, List, ◌≡◌, ◌<◌, ◌*◌, ◌++◌, OnOk, codes, string_bytes};
ghost use Rattle.hdr_draw.specs.Numbers.{IsDecimalOf};

use hdr_draw::number::{Decimal, in_parts};
use hdr_figures::level::PageLevel;
use hdr_summary::units::Unit;
use std::alloc::AllocError;

/// How a page is made.
#[derive(Clone, Copy)]
pub struct PageOptions<'a> {
    pub title: &'a str,
    /// The unit of the values of a log that has none itself, if it is known.
    pub unit: Option<Unit>,
    /// The levels that values should not exceed, each once.
    pub levels: &'a [PageLevel],
    /// For each level its amount as it is written, unless that is an integer of the log's values.
    pub amounts: &'a [Option<String>],
}

/// Appends the percentile of a level, such as `p99.9`.
pub fn push_percentile(text: &mut String, level: PageLevel) -> Result<(), AllocError>
    ensures { 0 < level.den → OnOk result ((added : List ℕ)
        × IsDecimalOf (level.num * 100) level.den added
        × (string_bytes text.new ≡ string_bytes text.old ++ (codes "p" ++ added))) }
{
    text.push_str("p")?;
    let percent = u128::from(level.num) * 100;
    let Some(parts) = in_parts(percent, u128::from(level.den), 100_000_000) else {
        return Ok(());
    };
    let decimal = Decimal { parts, decimals: 8 };
    decimal.trimmed().push(text)
}
