//! Gets in the middle of which serving is given up.
ghost use Rattle.std.specs.Prelude.{ℕ, List};
ghost use Rattle.std.specs.List.{AllByRecursion};
ghost use Rattle.serve_model.specs.declared.buckets.Buckets.{Buckets};
ghost use Rattle.serve_model.specs.Talk.{Grammar, Serving};
ghost use Rattle.serve_model.specs.Connections.{GetLiesWithin, stated};
ghost use Rattle.serve_model.specs.Plain.{Plain, plain};

/// What may be written of a get when serving over the map is given up in the middle of it is a first part of the
/// connection's whole text, and the jobs before it are the first of those that it asks.
pub fn gets_lie_within_their_connection()
    ensures { (buckets : Buckets) (g : Grammar) (p : Serving Plain) (bytes : List ℕ) →
        AllByRecursion (GetLiesWithin plain (stated plain buckets g p bytes))
        (stated plain buckets g p bytes).halts }
{}
