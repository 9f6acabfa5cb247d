//! As how many independent samples the samples of batches count.

ghost use Rattle.std.specs.Prelude.{◌≡◌, ℕ, ◌+◌, ◌-◌, ◌*◌, ◌/◌, ◌^◌, ◌<◌, ◌≤◌, length, min};
ghost use Rattle.std.specs.List.{All, sum_by};
ghost use Rattle.hdr_compare.specs.Effective.{distance, effective_of, effective_size, even_batches, spread, square};

use crate::batch::Batch;
use crate::tiers::Tier;

/// Returns as how many independent samples the samples of batches count: as many times fewer as the
/// counts of batches vary more than those of independent samples. Fewer than four batches say
/// nothing of that.
#[tactic(auto, using(crate::proofs::Batches::counted_within), unfolding(crate::specs::Effective::effective_size))]
pub(crate) fn effective_size(tier: Tier, batches: &[Batch]) -> u64
    requires few { sum_by (λ b. b.size) batches.now < 2 ^ 40 }
    requires batches { length batches.now ≤ 2 ^ 20 }
    ensures { result ≡ effective_size tier batches.now }
{
    let size = size_of(batches);
    if batches.len() < 4 {
        return size;
    }
    let count = count_of(batches);
    let spread = spread(size, count, batches);
    effective_of(tier, size, count, spread, even_batches(size, batches))
}

/// Returns as how many independent samples `size` samples of some batches of one size count, of which
/// `count` meet the condition, with this spread of the counts.
#[tactic(auto, using(crate::proofs::Batches::expected_fits))]
fn effective_of(tier: Tier, size: u64, count: u64, spread: u128, batches: usize) -> u64
    requires few { size < 2 ^ 40 }
    requires batches { batches ≤ 2 ^ 20 }
    ensures { (s : ℕ) → spread ≡ min s (2 ^ 128 - 1) → result ≡ effective_of tier size count s batches }
{
    if count == 0 || count >= size || spread == 0 {
        return size;
    }
    if batches < 4 {
        return 1;
    }
    let expected = 256_000 * u128::from(count) * u128::from(size - count) * (batches as u128 - 1);
    let factor = batches as u128 * u128::from(tier.student(batches));
    let independent = quotient(expected, spread, factor);
    u128::from(size).min(independent.max(1)) as u64
}

/// Returns as how many batches of one size the batches count, rounded up: fewer where some have most
/// of the `size` samples.
#[tactic(auto, using(crate::proofs::Batches::squares_within))]
fn even_batches(size: u64, batches: &[Batch]) -> usize
    requires few { size < 2 ^ 40 }
    requires size { size ≡ sum_by (λ b. b.size) batches.now }
    ensures { result ≡ even_batches size batches.now }
{
    let squares = squares_of(batches);
    if squares == 0 {
        return 0;
    }
    let even = (u128::from(size) * u128::from(size)).div_ceil(squares);
    even.min(batches.len() as u128) as usize
}

/// Returns the sum of the squares of the sizes of batches, or `u128::MAX` if that is less.
fn squares_of(batches: &[Batch]) -> u128
    ensures { result ≡ min (sum_by (λ b. square b.size) batches.now) (2 ^ 128 - 1) }
{
    let mut squares = 0u128;
    for batch in batches {
        squares = squares.saturating_add(u128::from(batch.size) * u128::from(batch.size));
    }
    squares
}

/// Returns a number over a product, rounded down.
fn quotient(number: u128, factor: u128, other: u128) -> u128
    requires { 0 < factor * other }
    ensures { result ≡ number / (factor * other) }
{
    match factor.checked_mul(other) {
        Some(product) => number / product,
        None => 0,
    }
}

/// Returns the number of all samples, or `u64::MAX` if that is less.
fn size_of(batches: &[Batch]) -> u64
    ensures { result ≡ min (sum_by (λ b. b.size) batches.now) (2 ^ 64 - 1) }
{
    let mut size = 0u64;
    for batch in batches {
        size = size.saturating_add(batch.size);
    }
    size
}

/// Returns how many samples meet the condition, or `u64::MAX` if that is less.
pub(crate) fn count_of(batches: &[Batch]) -> u64
    ensures { result ≡ min (sum_by (λ b. b.count) batches.now) (2 ^ 64 - 1) }
{
    let mut count = 0u64;
    for batch in batches {
        count = count.saturating_add(batch.count);
    }
    count
}

/// Returns the sum of the squares of the distances of batches, or `u128::MAX` if that is less.
fn spread(size: u64, count: u64, batches: &[Batch]) -> u128
    requires size { size < 2 ^ 40 }
    requires count { count ≤ size }
    requires batches { All (λ b. b.size ≤ size) batches.now }
    ensures { result ≡ min (spread size count batches.now) (2 ^ 128 - 1) }
{
    let mut spread = 0u128;
    for batch in batches {
        let distance = u128::from(distance(size, count, *batch));
        spread = spread.saturating_add(distance * distance);
    }
    spread
}

/// Returns how far the count of a batch is from its part of the counts of all, in sixteenths of a
/// sample. `count` of `size` samples meet the condition.
#[tactic(auto, using(crate::proofs::Batches::distance_within))]
fn distance(size: u64, count: u64, batch: Batch) -> u64
    requires size { size < 2 ^ 40 }
    requires count { count ≤ size }
    requires batch { batch.size ≤ size }
    ensures { result ≡ distance size count batch }
{
    if size == 0 {
        return 0;
    }
    let own = u128::from(batch.count) * u128::from(size);
    let part = u128::from(batch.size) * u128::from(count);
    (16 * own.abs_diff(part) / u128::from(size)) as u64
}
