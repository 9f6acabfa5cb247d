//! The bounds of a histogram.

ghost use Rattle.std.specs.Prelude.{◌≡◌, ◌+◌, ◌-◌, ◌*◌, ◌<◌, ◌≤◌, false, MatchResult, IfErr};
ghost use Rattle.hdr_base.specs.Classes.{resolution_of};
ghost use Rattle.hdr_model.specs.CallErrors.{IsCreationError, IsBounds, IsForGreatLow};

use hdr_base::Scale;
use hdr_model::CreationError;

/// The lowest and the highest value, the significant digits, and whether the bins grow.
#[derive(Debug, Clone, Copy)]
pub(super) struct Bounds {
    pub(super) low: u64,
    pub(super) high: u64,
    pub(super) sigfig: u8,
    pub(super) auto_resize: bool,
}

impl Bounds {
    /// Returns the bounds of bins that do not grow.
    pub(super) fn fixed(low: u64, high: u64, sigfig: u8) -> Bounds
        ensures { result ≡ record { low = low; high = high; sigfig = sigfig; auto_resize = false } }
    {
        Bounds {
            low,
            high,
            sigfig,
            auto_resize: false,
        }
    }
}

/// Returns the scale of a histogram's bounds, or an error for the first bound that does not hold.
pub(super) fn scale_for(low: u64, high: u64, sigfig: u8) -> Result<Scale, CreationError>
    ensures made { MatchResult result (λ s. (s ≡ resolution_of low sigfig) × IsBounds low high sigfig)
        (IsCreationError low high sigfig) }
    ensures beyond { IfErr result (IsForGreatLow low) }
{
    if low < 1 {
        return Err(CreationError::LowIsZero);
    }
    if low > u64::MAX / 2 {
        return Err(CreationError::LowExceedsMax);
    }
    if high < 2 * low {
        return Err(CreationError::HighLessThanTwiceLow);
    }
    if sigfig > 5 {
        return Err(CreationError::SigFigExceedsMax);
    }
    Scale::new(low, sigfig).ok_or(CreationError::CannotRepresentSigFigBeyondLow)
}
