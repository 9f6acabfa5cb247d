//! How many samples open a run of cells.

ghost use Rattle.std.specs.Prelude.{◌≡◌, ◌<◌};
ghost use Rattle.hdr_verdict.specs.Bars.{bar_of_cells};

/// The samples that have to be slow, or missing, so that chance alone seldom opens a run, beside
/// half a sample for each doubling of the number of tests.
const LEAST: u64 = 6;

/// The tests of a cell: a tail each.
const TESTS: u128 = 4;

/// Returns the number of samples that open a run, and close it, if the tags have this number of
/// cells together.
#[tactic(auto, unfolding(crate::specs::Bars::bar_of_cells))]
pub fn bar_of_cells(cells: u64) -> u64
    ensures value { result ≡ bar_of_cells cells }
    ensures some { 0 < result }
{
    let tests = TESTS * u128::from(cells);
    LEAST + u64::from(u128::BITS - tests.leading_zeros()) / 2
}
