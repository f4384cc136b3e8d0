//! What follows from the definitions. No body does anything: each is called for its contract.
ghost use Rattle.std.specs.Prelude.{◌≡◌, ℕ, Some, None, false, if◌then◌else◌, List, [], ◌∷◌, ◌++◌, All, IsTrue};
ghost use Rattle.crdt_core.specs.Order.{option_join};
ghost use Rattle.quorum_model.specs.Quorum.{is_among, reached};
ghost use Rattle.quorum_model.specs.Answers.{first_two};
ghost use Rattle.quorum_model.specs.Window.{AreObjects, IsAscending, row_under, is_within, end_of, window};
ghost use Rattle.quorum_model.specs.declared.range.RangeAnswer.{RangeAnswer};

use table_schema::Schema;

/// What a set's nodes have confirmed they have confirmed for good, a node that confirms again counts once, and a
/// node of no set counts nothing.
pub fn confirmations_count_once()
    ensures kept { (first from : ℕ) (sets : List (List ℕ)) (nodes later : List ℕ) →
        IsTrue (reached first sets nodes from) → IsTrue (reached first sets (nodes ++ later) from) }
    ensures again { (first from node : ℕ) (sets : List (List ℕ)) (nodes : List ℕ) →
        IsTrue (is_among node nodes) →
        reached first sets (nodes ++ node ∷ []) from ≡ reached first sets nodes from }
    ensures stranger { (first from node : ℕ) (sets : List (List ℕ)) (nodes : List ℕ) →
        All (λ set. is_among node set ≡ false) sets →
        reached first sets (nodes ++ node ∷ []) from ≡ reached first sets nodes from }
{}

/// The first two different nodes' answers stay what they are whatever comes later, and of a node that answers again
/// the first answer counts.
pub fn answers_settle<A>()
    ensures later { (answers more : List (ℕ × A)) (two : A × A) → first_two answers ≡ Some two →
        first_two (answers ++ more) ≡ Some two }
    ensures again { (node : ℕ) (a b : A) (answers : List (ℕ × A)) →
        first_two ((node, a) ∷ (node, b) ∷ answers) ≡ first_two ((node, a) ∷ answers) }
{}

/// The window of two answers whose object rows ascend ascends too. Under each key up to its end it has the merge of
/// what the answers have there, and past its end nothing.
pub fn windows_merge<S: Schema>()
    ensures ascends { (two : RangeAnswer S.Row × RangeAnswer S.Row) →
        AreObjects S.words two.0.rows → AreObjects S.words two.1.rows →
        IsAscending S.words (window S.Row.join S.words two).rows }
    ensures rows { (two : RangeAnswer S.Row × RangeAnswer S.Row) → AreObjects S.words two.0.rows →
        AreObjects S.words two.1.rows → (key : List ℕ) →
        row_under S.words (window S.Row.join S.words two).rows key ≡ (if is_within (end_of S.words two) key then option_join S.Row.join (row_under S.words two.0.rows key) (row_under S.words two.1.rows key) else None) }
{}
