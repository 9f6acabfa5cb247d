//! The least number of samples of a block, and quartiles.

ghost use Rattle.std.specs.Prelude.{◌≡◌, IfOk};
ghost use Rattle.hdr_verdict.specs.Usual.{least_block, lower_quartile};

use crate::tail::Tail;
use std::alloc::AllocError;

/// Samples of a block that are in the tail: a number of 20 is known to about 22 percent.
const IN_TAIL: u128 = 20;

/// The greatest number of blocks, which keep times of a sixty-fourth of the log apart.
const MOST: u64 = 64;

/// Returns the least number of samples of a block.
pub(crate) fn least_block(tail: Tail, total: u64) -> u128
    ensures { result ≡ least_block tail.num tail.den total }
{
    let in_tail = (IN_TAIL * u128::from(tail.den)).div_ceil(u128::from(tail.num.max(1)));
    in_tail.max(u128::from(total.div_ceil(MOST)))
}

/// Returns the value at a quarter of the length, in ascending order.
pub(crate) fn lower_quartile(mut values: Vec<u64>) -> Result<u64, AllocError>
    ensures { IfOk result (λ value. value ≡ lower_quartile values.items) }
{
    values.sort()?;
    match values.get(values.len() / 4) {
        Some(value) => Ok(*value),
        None => Ok(0),
    }
}
