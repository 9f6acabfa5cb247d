//! Whether numbers are sorted.

ghost use Rattle.std.specs.Prelude.{◌≡◌, ◌↔◌, IsTrue};
ghost use Rattle.hdr_runs.specs.Sorted.{after_number, without_last};

/// Whether numbers that follow one another ascend, and whether they descend.
#[derive(Clone, Copy)]
pub(crate) struct Steps {
    last: Option<u64>,
    ascends: bool,
    descends: bool,
}

impl Steps {
    /// No numbers.
    pub(crate) const NONE: Steps = Steps {
        last: None,
        ascends: false,
        descends: false,
    };

    /// Adds a number after the last one.
    pub(crate) fn add(&mut self, number: u64)
        ensures { self.new ≡ after_number self.old number }
    {
        if let Some(last) = self.last {
            if last < number {
                self.ascends = true;
            }
            if number < last {
                self.descends = true;
            }
        }
        self.last = Some(number);
    }

    /// Begins a file, whose first number does not follow another.
    pub(crate) fn begin_file(&mut self)
        ensures { self.new ≡ without_last self.old }
    {
        self.last = None;
    }

    /// Whether the numbers of files only ascend, or only descend.
    pub(crate) fn is_sorted(&self) -> bool
        ensures { IsTrue result ↔ (self.now.ascends ≡ self.now.descends → ⊥) }
    {
        self.ascends != self.descends
    }
}
