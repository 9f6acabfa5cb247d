//! The tails that are tested without a level.

ghost use Rattle.hdr_verdict.specs.Tests.{AreUsualTails};

use crate::tail::Tail;

/// How many tails are tested without a level.
const TAILS: usize = 4;

/// Returns the tails of p50, p90, p99 and p99.9.
pub fn all_tails() -> [Tail; TAILS]
    ensures { AreUsualTails result }
{
    [
        Tail { num: 1, den: 2 },
        Tail { num: 1, den: 10 },
        Tail { num: 1, den: 100 },
        Tail { num: 1, den: 1_000 },
    ]
}
