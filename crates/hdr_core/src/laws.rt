//! Laws over the definitions, each the contract of a function with nothing to do. Those that speak
//! of no call are in `hdr_model`.

ghost use Rattle.std.specs.Prelude.{◌≡◌, ℕ};
ghost use Rattle.hdr_model.specs.Plain.{Plain, IsPlain, resolution};
ghost use Rattle.hdr_model.specs.Samples.{Fits};
ghost use Rattle.hdr_model.specs.Runs.{StandsAt, StandsWhereFits, State};
ghost use Rattle.hdr_core.specs.Calls.{after_call, CallTo, IsCallOf, OfEachCall};
ghost use Rattle.hdr_core.specs.declared.call.Call.{Call};

use hdr_base::Counter;
pub use hdr_model::laws::{
    adding_associates, adding_commutes, adding_keeps, adding_stands, ascending_quantiles,
    bins_and_max_are_bounded, clearing_stands, equality, first_class, joined_stands,
    missing_values, new_is_plain, quantile_and_share, quantile_is_ranked, recording_stands,
    samples_are_counted, subtracting_undoes_adding,
};

/// What a call makes of a histogram is a histogram with the same classes, `low`, `sigfig` and
/// auto-resize, and stands for what the call makes of the samples. Nothing is ensured while samples
/// don't fit; the same holds again once they fit, as after a `clear`.
pub fn calls_stand<T: Counter>()
    ensures plain { (most : ℕ) (h : Plain) (call : Call T) → IsCallOf most call
        → IsPlain T.greatest h → IsPlain T.greatest (after_call T.greatest T.number call h) }
    ensures classes { (most : ℕ) (h : Plain) (call : Call T) → IsCallOf most call
        → resolution (after_call T.greatest T.number call h) ≡ resolution h }
    ensures same_bounds { (h : Plain) (call : Call T)
        → let after = after_call T.greatest T.number call h in
        (after.low ≡ h.low) × (after.sigfig ≡ h.sigfig) × (after.auto_resize ≡ h.auto_resize) }
    ensures samples { OfEachCall T.greatest (λ h c s t. StandsAt h s
        → CallTo T.number (resolution h) c s t → Fits T.greatest (resolution h) t.samples
        → StandsAt (after_call T.greatest T.number c h) t) }
    ensures wherever { OfEachCall T.greatest (λ h c s t. StandsWhereFits T.greatest h s
        → CallTo T.number (resolution h) c s t
        → StandsWhereFits T.greatest (after_call T.greatest T.number c h) t) }
{}
