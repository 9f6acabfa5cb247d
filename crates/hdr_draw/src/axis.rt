//! Numbers along a length.

ghost use Rattle.std.specs.Prelude.{◌≡◌, ◌≤◌, ◌<◌, ◌-◌, max};
ghost use Rattle.hdr_draw.specs.Scales.{along};

use std::marker::Model;

/// A linear scale from a number to another.
#[derive(Clone, Copy, Debug)]
pub struct Axis {
    from: u64,
    span: u64,
}

impl Model for Axis {
    ghost use Rattle.std.specs.Prelude.{◌<◌};
    ghost use Rattle.hdr_draw.specs.Scales.{Extent};

    ghost Value = { Extent };

    ghost view = { λ a. record { from = a.from; span = a.span } };

    ghost invariant = { λ a. 0 < a.span };

    ghost inverse = { λ e. record { from = e.from; span = e.span } };
}

impl Axis {
    /// Returns the scale from a number to another, which is 1 long if that is not above the first.
    pub fn new(from: u64, to: u64) -> Axis
        ensures from { result.from ≡ from }
        ensures span { result.span ≡ max 1 (to - from) }
    {
        Axis {
            from,
            span: to.saturating_sub(from).max(1),
        }
    }

    /// Returns how far a number is along a length. A number outside the scale is at its end.
    #[tactic(auto, unfolding(crate::specs::Scales::along))]
    pub fn place(self, number: u64, length: u32) -> u32
        ensures place { result ≡ along self length number }
        ensures within { result ≤ length }
    {
        let above = number.saturating_sub(self.from);
        let place = u128::from(above) * u128::from(length) / u128::from(self.span);
        place.min(u128::from(length)) as u32
    }
}
