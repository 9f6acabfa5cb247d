//! How many samples of cells are above values.

ghost use Rattle.hdr_base.specs.Classes.{HasScale};

use crate::width::Width;
use hdr_logs::LogError;
use hdrhistogram::serialization::RecordedClass;

/// How many samples of each cell are above a value.
#[derive(Drop)]
pub(crate) struct CountsAbove {
    pub(crate) value: u64,
    pub(crate) counts: Vec<u64>,
}

impl CountsAbove {
    ghost use Rattle.std.specs.Prelude.{OnOk};
    ghost use Rattle.hdr_verdict.specs.CountsAboveFor.{PushesCell};

    /// Adds a cell.
    pub(crate) fn push(&mut self, width: Width, cell: &[RecordedClass]) -> Result<(), LogError>
        requires { HasScale width.low width.sigfig }
        ensures { OnOk result (PushesCell width cell.now self.old self.new) }
    {
        self.counts.push(width.count_above(cell, self.value))?;
        Ok(())
    }
}
