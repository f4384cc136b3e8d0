//! The order of the states of a version.
ghost use Rattle.std.specs.Prelude.{◌≡◌, IsTrue};
ghost use Rattle.std.specs.Cmp.Lexicographic.{slice_cmp};
ghost use Rattle.std.specs.Ordering.{nat_cmp};
ghost use Rattle.crdt_rows.specs.declared.state.State.{State};
ghost use Rattle.crdt_rows.specs.State.{state_cmp};
ghost use Rattle.row_codec.specs.Range.{state_in_range, is_short_state};
ghost use Rattle.row_codec.specs.Spelling.{state};

/// Of two states of a version, which have bytes, the greater is the one with the greater bytes.
pub fn states_are_ordered_as_bytes()
    ensures { (a b : State) → IsTrue (state_in_range a) → IsTrue (is_short_state a) →
        IsTrue (state_in_range b) → IsTrue (is_short_state b) →
        state_cmp a b ≡ slice_cmp nat_cmp (state a) (state b) }
{}
