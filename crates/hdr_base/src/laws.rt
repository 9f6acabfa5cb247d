//! The laws of classes, each the contract of an empty function.

ghost use Rattle.std.specs.Prelude.{◌≡◌, ◌↔◌, ℕ, ◌+◌, ◌-◌, ◌*◌, ◌^◌, ◌<◌, ◌≤◌};
ghost use Rattle.hdr_base.specs.Classes.{Resolution, resolution_of, width_of, lowest_of, top_of, bin_of, value_of, AreEquivalent, HasScale, OfEachScale, IsFiner};

/// Having the same class is an equivalence relation, and values have the same class if and only if their bins are the same.
pub fn equivalence()
    ensures reflexive { (g : Resolution) (a : ℕ) → AreEquivalent g a a }
    ensures symmetric { (g : Resolution) (a b : ℕ) → AreEquivalent g a b → AreEquivalent g b a }
    ensures transitive { (g : Resolution) (a b c : ℕ) → AreEquivalent g a b → AreEquivalent g b c
        → AreEquivalent g a c }
    ensures numbers { OfEachScale (λ g. (a b : ℕ) → AreEquivalent g a b ↔ (bin_of g a ≡ bin_of g b)) }
{}

/// Classes are intervals that cover 0 to `u64::MAX`, in the order of their bins: the first starts at 0, each other starts
/// after the end of the one before, and none overlaps another.
pub fn intervals()
    // Each value lies in its class, and the next class begins after the last value of one.
    ensures first { (g : Resolution) → (lowest_of g 0 ≡ 0) × (bin_of g 0 ≡ 0) }
    ensures member { (g : Resolution) (v : ℕ) → (lowest_of g v ≤ v) × (v ≤ top_of g v) }
    ensures whole { OfEachScale (λ g. (v x : ℕ) → lowest_of g v ≤ x → x ≤ top_of g v
        → AreEquivalent g x v) }
    ensures next { OfEachScale (λ g. (v : ℕ) → (lowest_of g (top_of g v + 1) ≡ top_of g v + 1)
        × (bin_of g (top_of g v + 1) ≡ bin_of g v + 1)) }

    // No class ends past `u64::MAX`, bins ascend with values, and each bin has a class.
    ensures ends { OfEachScale (λ g. (v : ℕ) → v < 2 ^ 64 → top_of g v < 2 ^ 64) }
    ensures order { OfEachScale (λ g. (a b : ℕ) → a ≤ b → bin_of g a ≤ bin_of g b) }
    ensures numbers { OfEachScale (λ g. (i : ℕ) → (bin_of g (value_of g i) ≡ i)
        × (lowest_of g (value_of g i) ≡ value_of g i)) }
{}

/// A class is one unit wide below `2 ^ (unit + digits)`, and above it narrow enough to keep `sigfig` significant digits.
pub fn widths()
    ensures unit { (g : Resolution) (v : ℕ) → v < 2 ^ (g.unit + g.digits) → width_of g v ≡ 2 ^ g.unit }
    ensures digits { (low sigfig : ℕ) → HasScale low sigfig → (v : ℕ)
        → let g = resolution_of low sigfig in
        2 ^ (g.unit + g.digits) ≤ v → width_of g v * 10 ^ sigfig ≤ lowest_of g v }
{}

/// If the unit of one scale is at most that of another, and its digits are at least those of the other, then each of its
/// classes lies in a class of the other. A greater `sigfig` never has fewer digits.
pub fn finer_classes()
    ensures finer { (low sigfig base kept : ℕ)
        → (resolution_of low sigfig).unit ≤ (resolution_of base kept).unit → kept ≤ sigfig
        → IsFiner (resolution_of low sigfig) (resolution_of base kept) }
    ensures classes { OfEachScale (λ g. OfEachScale (λ other. IsFiner g other → (a b : ℕ)
        → AreEquivalent g a b → AreEquivalent other a b)) }
{}
