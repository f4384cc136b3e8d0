//! What the text of the answers rests on is there, and is one.
ghost use Rattle.std.specs.Prelude.{◌≡◌, ℕ, List};
ghost use Rattle.serve_model.specs.Talk.{Grammar};

/// There is a reader of heads.
pub fn grammar_is_there()
    ensures { Grammar }
{}

/// There is one reader of heads.
pub fn grammar_is_one()
    ensures { (g h : Grammar) (front : List ℕ) → g.head_of front ≡ h.head_of front }
{}
