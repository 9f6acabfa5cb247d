//! The level of a quantile.

ghost use Rattle.std.specs.Prelude.{◌≡◌, ◌*◌, ◌<◌, ◌↔◌, IsTrue};
ghost use Rattle.hdr_figures.specs.Levels.{IsVerdict};

/// A quantile of the samples of a tag, with the value in the unit of the log that it should not
/// exceed.
#[derive(Clone, Copy)]
pub struct PageLevel {
    pub num: u64,
    pub den: u64,
    pub value: u64,
    ghost some: { 0 < den },
}

/// The value of samples at the quantile of a level, and the lowest and the highest one of its class,
/// which is as wide as that of the coarsest interval. The sample is one of that class.
#[derive(Clone, Copy)]
pub struct LevelValue {
    pub value: u64,
    pub lowest: u64,
    pub highest: u64,
}

/// Whether samples keep a level.
#[derive(Clone, Copy, PartialEq, Eq)]
pub enum Verdict {
    Within,
    /// The class of the sample at the quantile has values on both sides of the level.
    MayBeOver,
    /// All values of that class are above the level.
    Over,
}

impl PageLevel {
    /// Whether another level has the same quantile and value.
    pub fn is(self, other: PageLevel) -> bool
        ensures { IsTrue result
            ↔ (self.num * other.den ≡ other.num * self.den) × (self.value ≡ other.value) }
    {
        let num = u128::from(self.num) * u128::from(other.den);
        let others = u128::from(other.num) * u128::from(self.den);
        num == others && self.value == other.value
    }

    /// Returns whether samples that have this value at its quantile keep the level.
    pub fn verdict(self, at_level: LevelValue) -> Verdict
        ensures { IsVerdict result self.value at_level.lowest at_level.highest }
    {
        if at_level.highest <= self.value {
            Verdict::Within
        } else if at_level.lowest <= self.value {
            Verdict::MayBeOver
        } else {
            Verdict::Over
        }
    }
}
