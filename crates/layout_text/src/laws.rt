//! What holds of runs whatever the code does.
ghost use Rattle.std.specs.Prelude.{ℕ, List, ◌≡◌, nat_eq};
ghost use Rattle.std.specs.Cmp.Lexicographic.{pointwise};
ghost use Rattle.layout_roles.specs.Runs.{runs, written_out, AreApart};

/// The runs of a list are its longest: one after the other they are the list, none is empty, and none could
/// take in the next.
pub fn longest_runs()
    ensures whole { (values : List (List ℕ)) →
        written_out (runs (pointwise nat_eq) values) ≡ values }
    ensures apart { (values : List (List ℕ)) →
        AreApart (pointwise nat_eq) (runs (pointwise nat_eq) values) }
{}
