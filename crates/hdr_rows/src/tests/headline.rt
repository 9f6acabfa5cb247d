//! The headline run once, and each error.

ghost use Rattle.std.specs.Prelude.{◌<◌};

use hdr_headline::{HeadlineError, LineParts, headline};
use hdrhistogram::serialization::interval_log::Tag;
use hdrhistogram::{Call, Histogram, Quantile};
use std::test::Fail;
use std::time::Duration;

/// An interval of a second, with a tag.
fn second(start: Duration) -> LineParts<'static>
    ensures { 0 < result.divisor }
{
    LineParts {
        start,
        duration: Duration::from_secs(1),
        tag: Tag::new("a"),
        divisor: 1000,
    }
}

/// Correction adds 9,000, 8,000 .. to 1,000, so the sixth of twelve is 4,000, in a class of two values.
#[test]
fn median_of_corrected(rt: HostRuntime) -> Result<(), Fail> {
    let mut histogram = Histogram::<u64>::new(rt.alloc(), 3)?;
    let calls = [
        Call::Correct(10_000, 1, 1000),
        Call::Record(1, 1),
        Call::Clamp(2, 1),
    ];
    let median = Quantile::new(1, 2).ok_or("no quantile")?;
    let start = second(Duration::ZERO);
    let copies = headline(rt.alloc(), &mut histogram, &calls, start, median)?;
    assert_eq!(rt; copies.value, 4001);
    assert_eq!(rt; copies.from_bytes.value_at_quantile(median), 4001);
    assert_eq!(rt; copies.from_line.value_at_quantile(median), 4001);
    assert_eq!(rt; copies.from_line.len(), 12);
    Ok(())
}

/// The error for these calls and this start.
fn error_of(
    rt: &HostRuntime,
    calls: &[Call<'_, u64>],
    start: Duration,
) -> Result<HeadlineError, Fail> {
    let mut histogram = Histogram::<u64>::new_with_bounds(rt.alloc(), 1, 1000, 1)?;
    let median = Quantile::new(1, 2).ok_or("no quantile")?;
    let result = headline(rt.alloc(), &mut histogram, calls, second(start), median);
    Ok(result.err().ok_or("no error")?)
}

#[test]
fn value_past_the_reach_fails(rt: HostRuntime) -> Result<(), Fail> {
    let calls = [Call::Record(1, 1), Call::Record(5000, 1)];
    let error = error_of(&rt, &calls, Duration::ZERO)?;
    assert!(rt; matches!(error, HeadlineError::Call(error) if error.at == 1));
    Ok(())
}

#[test]
fn great_count_has_no_bytes(rt: HostRuntime) -> Result<(), Fail> {
    let error = error_of(&rt, &[Call::Record(1, 1 << 63)], Duration::ZERO)?;
    assert!(rt; matches!(error, HeadlineError::CountNotSerializable));
    Ok(())
}

#[test]
fn late_start_is_out_of_range(rt: HostRuntime) -> Result<(), Fail> {
    let late = Duration::new(u64::MAX, 999_999_999);
    let error = error_of(&rt, &[Call::Record(1, 1)], late)?;
    assert!(rt; matches!(error, HeadlineError::TimeOutOfRange));
    Ok(())
}
