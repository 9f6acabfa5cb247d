//! Counting the steps that a call takes.

ghost use Rattle.std.specs.Prelude.{◌≡◌, ◌+◌, ◌-◌, ◌<◌, ◌^◌};

use std::marker::Model;

/// A number of steps: of counters updated, or of the definition of a search, where a step is not always one read of memory.
#[derive(Drop)]
pub struct Ticks {
    count: u64,
}

impl Model for Ticks {
    ghost use Rattle.std.specs.Prelude.{ℕ};

    ghost Value = { ℕ };

    ghost view = { λ t. t.count };
}

impl Ticks {
    /// Returns a count of 0.
    pub fn new() -> Ticks
        ensures { result ≡ 0 }
    {
        Ticks { count: 0 }
    }

    /// The number of steps so far.
    pub fn count(&self) -> u64
        ensures { result ≡ self.now }
    {
        self.count
    }

    /// Adds one step. The count must be below `u64::MAX`.
    pub fn tick(&mut self)
        requires { self.old < 2 ^ 64 - 1 }
        ensures { self.new ≡ self.old + 1 }
    {
        self.count += 1;
    }
}
