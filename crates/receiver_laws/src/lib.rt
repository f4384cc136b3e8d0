//! Whom the machine's messages come from and go to: nodes that steps and layouts name. No body does anything: each is
//! called for its contract.
//!
//! `R` is what a row is, `L` what a layout is, `A` what is printed of one, `C` what shows that there is none.
#![tactic(auto)]

ghost use Rattle.std.specs.Prelude.{ℕ, Bool, IsTrue, List};
ghost use Rattle.std.specs.List.{AllByRecursion};
ghost use Rattle.layout_roles.specs.declared.role.Role.{Role};
ghost use Rattle.table_schema.specs.Words.{Words};
ghost use Rattle.cluster_machine.specs.Layouts.{Layouts};
ghost use Rattle.cluster_machine.specs.Collects.{all_nodes};
ghost use Rattle.cluster_machine.specs.World.{World, empty};
ghost use Rattle.cluster_machine.specs.Run.{Move, next};
ghost use Rattle.receiver_laws.specs.Places.{StepNames, RolesName, LayoutNames, ChoiceNames, WorldNames};

/// The empty world names places alone, and so does each world after a step that does, where an apply is given a layout of
/// places: whatever places are, if nodes 1 to 16, which collections ask, and the nodes of `trio` are among them.
pub fn worlds_name_places<R, L, A, C>()
    ensures empty { (is_place : ℕ → Bool) (k : Layouts L) →
        WorldNames (λ n. IsTrue (is_place n)) k (empty {R = R}) }
    ensures stepped { (is_place : ℕ → Bool) (join : R → R → R) (s : Words R) (k : Layouts L) →
        (trio : L) (trio_roles : List Role → List Role) (w : World R L) (m : Move R L A C) →
        (let IsPlace : ℕ → Type 0 = λ n. IsTrue (is_place n) in
        AllByRecursion IsPlace all_nodes → LayoutNames IsPlace k trio →
        ((roles : List Role) → RolesName IsPlace roles → RolesName IsPlace (trio_roles roles)) →
        StepNames IsPlace m.step → ChoiceNames IsPlace k m.choice → WorldNames IsPlace k w →
        WorldNames IsPlace k (next join s k trio trio_roles w m)) }
{}
