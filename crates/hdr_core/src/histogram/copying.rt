//! Histograms made from others.

ghost use Rattle.std.specs.Prelude.{◌≡◌, ℕ, List, ◌++◌, ◌≤◌, MatchResult, slice_index, length};
ghost use Rattle.hdr_model.specs.Plain.{IsPlain, empty_plain};
ghost use Rattle.hdr_model.specs.Merging.{after_add_correct};
ghost use Rattle.hdr_model.specs.declared.errors.CreationError.TheVariants.{OutOfMemory};

use super::Histogram;
use hdr_base::Counter;
use hdr_model::CreationError;
use std::alloc::Global;

impl<T: Counter> Histogram<T> {
    /// Returns an empty histogram with the bounds and the auto-resize setting of `source`. Returns
    /// an error only if an allocation fails.
    pub fn new_from<F: Counter>(
        alloc: Global,
        source: &Histogram<F>,
    ) -> Result<Histogram<T>, CreationError>
        ensures made { MatchResult result (λ h. h
            ≡ empty_plain source.now.low source.now.high source.now.sigfig source.now.auto_resize)
            (λ e. e ≡ OutOfMemory) }
        ensures source { IsPlain F.greatest source.now }
    {
        Histogram::empty(alloc, source.scale, source.bounds)
    }

    /// Returns a copy of the histogram. Returns an error only if an allocation fails.
    pub fn clone(&self) -> Result<Histogram<T>, CreationError>
        ensures { MatchResult result (λ h. h ≡ self.now) (λ e. e ≡ OutOfMemory) }
    {
        let Ok(counts) = self.counts.copied(self.used_bins()) else {
            return Err(CreationError::OutOfMemory);
        };
        Ok(Histogram {
            scale: self.scale,
            bounds: self.bounds,
            counts,
            total: self.total,
            marks: self.marks.same(),
        })
    }

    /// Returns the number of bins up to the top mark's; the bins after them are empty.
    pub(super) fn used_bins(&self) -> usize
        ensures within { result ≤ length self.now.counts }
        ensures rest { (i : ℕ) → result ≤ i → slice_index self.now.counts i ≡ 0 }
    {
        match self.marks.top() {
            Some(bin) => self.counts.len().min(bin + 1),
            None => 0,
        }
    }

    /// Returns a histogram with the same bounds and auto-resize setting, to which `self` was added
    /// as by `add_correct`. Returns an error only if an allocation fails.
    pub fn clone_correct(&self, interval: u64) -> Result<Histogram<T>, CreationError>
        ensures { MatchResult result (λ h. h ≡ after_add_correct T.greatest
            (empty_plain self.now.low self.now.high self.now.sigfig self.now.auto_resize) self.now interval)
            (λ e. e ≡ OutOfMemory) }
    {
        let mut copy = Histogram::new_from(self.counts.allocator(), self)?;
        copy.correct_classes(self, interval);
        Ok(copy)
    }
}
