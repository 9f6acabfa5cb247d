//! A counter type of the tests' own.

ghost use Rattle.std.specs.Prelude.{◌≡◌, ℕ, ◌+◌, ◌-◌, ◌^◌, ◌<◌, ◌≤◌, min, MatchOption, nat_eq, refl};
ghost use Rattle.std.specs.Ordering.{nat_cmp};

use hdr_base::Counter;

/// A counter of twelve bits.
#[derive(Clone, Copy, Debug, PartialEq, Eq, PartialOrd, Ord)]
pub struct C12 {
    n: u16,
    ghost small: { n ≤ 4095 },
}

impl Counter for C12 {
    ghost use Rattle.std.proofs.Common.{lit<, lit≤};

    ghost number = { λ c. c.n };

    ghost greatest = { 4095 };

    ghost fits = { lit< tt };

    ghost one_fits = { lit≤ tt };

    ghost ordered = { λ a b. refl };

    ghost compared = { λ a b. refl };

    fn zero() -> C12 {
        C12 { n: 0 }
    }

    fn one() -> C12 {
        C12 { n: 1 }
    }

    fn max_value() -> C12 {
        C12 { n: 4095 }
    }

    fn as_u64(self) -> u64 {
        u64::from(self.n)
    }

    fn from_u64(n: u64) -> Option<C12> {
        if n <= 4095 {
            Some(C12 { n: n as u16 })
        } else {
            None
        }
    }

    fn saturating_add(self, other: C12) -> C12 {
        C12 {
            n: (self.n + other.n).min(4095),
        }
    }

    fn checked_add(self, other: C12) -> Option<C12> {
        let n = self.n + other.n;
        if n <= 4095 { Some(C12 { n }) } else { None }
    }

    fn checked_sub(self, other: C12) -> Option<C12> {
        if other.n <= self.n {
            Some(C12 {
                n: self.n - other.n,
            })
        } else {
            None
        }
    }
}
