//! The order of intervals: by time and tag.

ghost use Rattle.std.specs.Prelude.{◌≡◌, ◌≢◌, ◌≤◌, ◌<◌, OnOk, MatchBool, length, vec_items};
ghost use Rattle.std.specs.List.{AllWithin, HoldsAt};
ghost use Rattle.std.specs.List.Sorted.{IsPermutation};
ghost use Rattle.hdr_logs.specs.Stored.{view_of_stored};
ghost use Rattle.hdr_gather.specs.Keys.{key_of, key_cmp, all_of, AreSorted};

use hdr_logs::StoredInterval;
use std::alloc::AllocError;
use std::cmp::Ordering;

/// Sorts intervals by time, and those of one time by tag.
pub(crate) fn sort(parts: &mut Vec<&StoredInterval>) -> Result<(), AllocError>
    ensures permutation { IsPermutation (all_of (vec_items parts.old)) (all_of (vec_items parts.new)) }
    ensures sorted { OnOk result (AreSorted (all_of (vec_items parts.new))) }
{
    parts.sort_by(|one, other| compare(one, other))?;
    Ok(())
}

/// Returns the number of intervals at the start of `others` that have the key of `first`.
pub(crate) fn same_key(first: &StoredInterval, others: &[&StoredInterval]) -> usize
    ensures bound { result ≤ length others.now }
    ensures same { AllWithin (λ part. key_of (view_of_stored part.now) ≡ key_of (view_of_stored first.now))
        others.now 0 result }
    ensures next { result < length others.now
        → HoldsAt (λ part. key_of (view_of_stored part.now) ≢ key_of (view_of_stored first.now)) others.now result }
{
    others
        .iter()
        .position(|part| !has_key_of(part, first))
        .unwrap_or(others.len())
}

/// Whether an interval begins at the time of `first` and has its tag.
fn has_key_of(part: &StoredInterval, first: &StoredInterval) -> bool
    ensures { MatchBool result (key_of (view_of_stored part.now) ≡ key_of (view_of_stored first.now))
        (key_of (view_of_stored part.now) ≢ key_of (view_of_stored first.now)) }
{
    key(part) == key(first)
}

/// Compares intervals by time, and those of one time by tag.
fn compare(one: &StoredInterval, other: &StoredInterval) -> Ordering
    ensures { result ≡ key_cmp (key_of (view_of_stored one.now)) (key_of (view_of_stored other.now)) }
{
    key(one).cmp(&key(other))
}

/// Returns what intervals have in common that are merged: when they begin, and their tag.
fn key<'a>(part: &'a StoredInterval) -> (u64, &'a str)
    ensures { (result.0, result.1.now) ≡ key_of (view_of_stored part.now) }
{
    (part.start, part.name())
}
