//! Laws of the definitions, each the contract of a function with nothing to do.

pub mod incidents;

ghost use Rattle.std.specs.Prelude.{ℕ, ◌*◌, ◌<◌, ◌≤◌, ◌↔◌, Bool, List, length};
ghost use Rattle.std.specs.List.{AllByRecursion};
ghost use Rattle.hdr_verdict.specs.Runs.{runs_of, AreInOrder, ReachesBar};
ghost use Rattle.hdr_base.specs.Classes.{IsLeast};
ghost use Rattle.hdr_verdict.specs.Slow.{bar_of, scores_of, value_in};
ghost use Rattle.hdr_verdict.specs.Tails.{tail_value, count_above, LeavesTail};
ghost use Rattle.hdr_verdict.specs.declared.slow.Test.{Test};
ghost use Rattle.hdr_verdict.specs.declared.score.Score.{Score};

/// The runs of cells come one after the other, and the scores of each sum to the bar or more.
pub fn runs_reach_the_bar()
    ensures in_order { (bar : ℕ) (scores : List Score) → AreInOrder 0 (length scores) (runs_of bar scores) }
    ensures sums { (bar : ℕ) (scores : List Score) → 0 < bar → AllByRecursion (ReachesBar bar scores) (runs_of bar scores) }
{}

/// The value of a tail is the least that leaves at most the tail above it: more than the tail is
/// above a value if and only if the value of the tail is.
pub fn values_of_tails()
    ensures above { (num den v : ℕ) (S : List ℕ) → num < den
        → (num * length S < den * count_above v S) ↔ (v < tail_value num den S) }
    ensures least { (num den : ℕ) (S : List ℕ) → num < den
        → IsLeast (LeavesTail num den S) (tail_value num den S) }
{}

/// The value of a tail in the samples of a run is above the threshold that the cells are scored by.
pub fn runs_are_above_thresholds()
    ensures { (bar : ℕ) (test : Test) (explained : List Bool) (cells : List (List ℕ)) → 0 < bar
        → AllByRecursion (λ run. test.threshold < value_in test cells explained run)
        (runs_of (bar_of bar test.tail) (scores_of test explained cells)) }
{}
