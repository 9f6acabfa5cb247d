//! Which ranks are as near to a quantile as chance allows.

ghost use Rattle.std.specs.Prelude.{◌≡◌, ◌↔◌, ◌*◌, ◌/◌, ◌^◌, ◌<◌, ◌≤◌, IsTrue};
ghost use Rattle.std.specs.Int.{div_ceil};
ghost use Rattle.hdr_compare.specs.Ranks.{IsFar, IsFarAbove, IsFarBelow};
ghost use Rattle.hdr_compare.specs.Tiers.{normal_of};

use crate::tiers::Tier;
use hdrhistogram::Quantile;

/// Whether `rank` samples of `samples` are far from the number that is expected at a quantile, if the
/// samples count as `independent` ones. `samples` is at most 2^30, `rank` at most `samples`, and the
/// denominator of the quantile at most 1,000,000.
pub fn is_far(samples: u64, independent: u64, quantile: Quantile, rank: u64, tier: Tier) -> bool
    requires samples { samples ≤ 2 ^ 30 }
    requires rank { rank ≤ samples }
    requires den { quantile.den ≤ 1000000 }
    requires proper { quantile.num ≤ quantile.den }
    ensures { IsTrue result ↔ IsFar samples independent quantile rank (normal_of tier) }
{
    let (samples, rank) = (u128::from(samples), u128::from(rank));
    let (num, den) = (u128::from(quantile.num()), u128::from(quantile.den()));
    let normal = u128::from(tier.normal());
    let near = 2 * num * samples + rank * den;
    let most = normal * normal * near * (3 * den * samples - near);
    let off = (rank * den).abs_diff(num * samples);
    is_reached(most, independent, off * off)
}

/// Whether the square of a distance, times the number of samples, reaches a number.
fn is_reached(most: u128, independent: u64, square: u128) -> bool
    ensures { IsTrue result ↔ (most ≤ 9000000 * independent * square) }
{
    match (9_000_000 * u128::from(independent)).checked_mul(square) {
        Some(product) => most <= product,
        None => true,
    }
}

/// As `is_far`, of `2^shift` times fewer samples, with the rank no farther from the quantile than it
/// is.
pub fn is_far_below(
    shift: u32,
    samples: u64,
    independent: u64,
    quantile: Quantile,
    rank: u64,
    tier: Tier,
) -> bool
    requires shift { shift < 64 }
    requires samples { samples / 2 ^ shift ≤ 2 ^ 30 }
    requires rank { div_ceil rank (2 ^ shift) ≤ samples / 2 ^ shift }
    requires den { quantile.den ≤ 1000000 }
    requires proper { quantile.num ≤ quantile.den }
    ensures { IsTrue result ↔ IsFarBelow shift samples independent quantile rank (normal_of tier) }
{
    let unit = 1u64 << shift;
    let few = samples / unit;
    is_far(
        few,
        few.min(independent),
        quantile,
        rank.div_ceil(unit),
        tier,
    )
}

/// As `is_far_below`, for a rank above the quantile.
pub fn is_far_above(
    shift: u32,
    samples: u64,
    independent: u64,
    quantile: Quantile,
    rank: u64,
    tier: Tier,
) -> bool
    requires shift { shift < 64 }
    requires samples { div_ceil samples (2 ^ shift) ≤ 2 ^ 30 }
    requires rank { rank ≤ samples }
    requires den { quantile.den ≤ 1000000 }
    requires proper { quantile.num ≤ quantile.den }
    ensures { IsTrue result ↔ IsFarAbove shift samples independent quantile rank (normal_of tier) }
{
    let unit = 1u64 << shift;
    let few = samples.div_ceil(unit);
    is_far(few, few.min(independent), quantile, rank / unit, tier)
}
