//! The counter types of histograms.

ghost use Rattle.std.specs.Prelude.{◌≡◌, ℕ, ◌+◌, ◌-◌, ◌^◌, ◌<◌, ◌≤◌, min, MatchOption, nat_eq, refl};
ghost use Rattle.std.specs.Ordering.{nat_cmp};

/// A counter of samples, which stands for a number. Callers may implement it for types of their own: a histogram uses nothing
/// of a counter but the items here.
pub trait Counter: Copy + Ord {
    /// The number that a counter stands for.
    ghost number: { Self → ℕ };

    /// The greatest number that a counter of this type can stand for.
    ghost greatest: { ℕ };

    /// The counter of 0.
    fn zero() -> Self
        ensures { number result ≡ 0 }
    {
        Self::from_u64(0).unwrap_or(Self::max_value())
    }

    /// The counter of 1.
    fn one() -> Self
        ensures { number result ≡ 1 }
    {
        Self::from_u64(1).unwrap_or(Self::max_value())
    }

    /// The counter of the greatest number.
    fn max_value() -> Self
        ensures { number result ≡ greatest };

    /// The number of a counter.
    fn as_u64(self) -> u64
        ensures value { result ≡ number self }
        ensures bound { number self ≤ greatest };

    /// Returns the counter of a number, or `None` if the number is above the greatest.
    fn from_u64(n: u64) -> Option<Self>
        ensures { MatchOption result (greatest < n) (λ c. (n ≤ greatest) × (number c ≡ n)) };

    /// Returns the counter of the sum, saturating at the greatest number.
    fn saturating_add(self, other: Self) -> Self
        ensures { number result ≡ min (number self + number other) greatest }
    {
        let sum = self.as_u64().saturating_add(other.as_u64());
        Self::from_u64(sum).unwrap_or(Self::max_value())
    }

    /// Returns the counter of the sum, or `None` if the sum is above the greatest number.
    fn checked_add(self, other: Self) -> Option<Self>
        ensures { MatchOption result (greatest < number self + number other)
            (λ c. number c ≡ number self + number other) }
    {
        Self::from_u64(self.as_u64().checked_add(other.as_u64())?)
    }

    /// Returns the counter of the difference, or `None` if `other` is greater.
    fn checked_sub(self, other: Self) -> Option<Self>
        ensures { MatchOption result (number self < number other)
            (λ c. number c + number other ≡ number self) }
    {
        Self::from_u64(self.as_u64().checked_sub(other.as_u64())?)
    }

    /// Every number fits in 64 bits.
    ghost fits: { greatest < 2 ^ 64 };

    /// One is a counter.
    ghost one_fits: { 1 ≤ greatest };

    /// Counters are ordered as their numbers are.
    ghost ordered: { (a b : Self) → Self.cmp a b ≡ nat_cmp (number a) (number b) };

    /// Counters are equal if and only if their numbers are.
    ghost compared: { (a b : Self) → Self.eq a b ≡ nat_eq (number a) (number b) };
}

impl Counter for u8 {
    ghost use Rattle.std.proofs.Common.{lit≤, lit<};

    ghost number = { λ n. n };

    ghost greatest = { 255 };

    ghost fits = { lit< tt };

    ghost one_fits = { lit≤ tt };

    ghost ordered = { λ a b. refl };

    ghost compared = { λ a b. refl };

    fn max_value() -> u8 {
        u8::MAX
    }

    fn as_u64(self) -> u64 {
        u64::from(self)
    }

    fn from_u64(n: u64) -> Option<u8> {
        u8::try_from(n).ok()
    }
}

impl Counter for u16 {
    ghost use Rattle.std.proofs.Common.{lit≤, lit<};

    ghost number = { λ n. n };

    ghost greatest = { 2 ^ 16 - 1 };

    ghost fits = { lit< tt };

    ghost one_fits = { lit≤ tt };

    ghost ordered = { λ a b. refl };

    ghost compared = { λ a b. refl };

    fn max_value() -> u16 {
        u16::MAX
    }

    fn as_u64(self) -> u64 {
        u64::from(self)
    }

    fn from_u64(n: u64) -> Option<u16> {
        u16::try_from(n).ok()
    }
}

impl Counter for u32 {
    ghost use Rattle.std.proofs.Common.{lit≤, lit<};

    ghost number = { λ n. n };

    ghost greatest = { 2 ^ 32 - 1 };

    ghost fits = { lit< tt };

    ghost one_fits = { lit≤ tt };

    ghost ordered = { λ a b. refl };

    ghost compared = { λ a b. refl };

    fn max_value() -> u32 {
        u32::MAX
    }

    fn as_u64(self) -> u64 {
        u64::from(self)
    }

    fn from_u64(n: u64) -> Option<u32> {
        u32::try_from(n).ok()
    }
}

impl Counter for u64 {
    ghost use Rattle.std.proofs.Common.{lit≤, lit<};

    ghost number = { λ n. n };

    ghost greatest = { 2 ^ 64 - 1 };

    ghost fits = { lit< tt };

    ghost one_fits = { lit≤ tt };

    ghost ordered = { λ a b. refl };

    ghost compared = { λ a b. refl };

    fn max_value() -> u64 {
        u64::MAX
    }

    fn as_u64(self) -> u64 {
        self
    }

    fn from_u64(n: u64) -> Option<u64> {
        Some(n)
    }
}

/// Returns the counter of `number`, or `T::max_value()` if `number` is above it.
pub fn saturating_from<T: Counter>(number: u128) -> T
    ensures { T.number result ≡ min number T.greatest }
{
    let number = u64::try_from(number).unwrap_or(u64::MAX);
    T::from_u64(number).unwrap_or(T::max_value())
}
