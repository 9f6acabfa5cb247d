//! Units of time.

ghost use Rattle.std.specs.Prelude.{◌≡◌, ◌≢◌, ◌≤◌, IfNone, IfSome};
ghost use Rattle.hdr_input.specs.Units.{unit_name, exponent};

/// A unit of time.
#[derive(Debug, Clone, Copy, PartialEq, Eq)]
pub enum Unit {
    Nanoseconds,
    Microseconds,
    Milliseconds,
    Seconds,
}

impl Unit {
    /// The names of units.
    pub const NAMES: [&'static str; 4] = ["ns", "us", "ms", "s"];

    /// Returns the unit of this name.
    pub fn from_name(name: &str) -> Option<Unit>
        ensures unit { IfSome result (λ unit. name.now ≡ unit_name unit) }
        ensures none { IfNone result ((unit : Unit) → name.now ≢ unit_name unit) }
    {
        match name {
            "ns" => Some(Unit::Nanoseconds),
            "us" => Some(Unit::Microseconds),
            "ms" => Some(Unit::Milliseconds),
            "s" => Some(Unit::Seconds),
            _ => None,
        }
    }

    /// Returns the name of the unit.
    pub fn name(self) -> &'static str
        ensures { result.now ≡ unit_name self }
    {
        match self {
            Unit::Nanoseconds => "ns",
            Unit::Microseconds => "us",
            Unit::Milliseconds => "ms",
            Unit::Seconds => "s",
        }
    }

    /// Returns the decimals of a second that the unit is one of.
    pub fn decimals(self) -> u32
        ensures value { result ≡ exponent self }
        ensures few { result ≤ 9 }
    {
        match self {
            Unit::Nanoseconds => 9,
            Unit::Microseconds => 6,
            Unit::Milliseconds => 3,
            Unit::Seconds => 0,
        }
    }
}
