//! A run of the machine that collects a delete marker, worked out by hand from its rules. No body does anything: each is
//! called for its contract.
ghost use Rattle.std.specs.Prelude.{◌≡◌, ◌++◌, ◌∷◌, [], Some, length};
ghost use Rattle.cluster_machine.specs.declared.step.Step.TheVariants.{Collect};
ghost use Rattle.cluster_machine.specs.declared.step.Words.TheVariants.{Two};
ghost use Rattle.table_model.specs.Rows.{row_at};
ghost use Rattle.cluster_machine.specs.World.{empty};
ghost use Rattle.machine_laws.specs.Toy.{greater, home, plain};
ghost use Rattle.machine_collects.specs.Marked.{markers, done_by, world_after, first_round, confirmed, second_round, last_answer};

/// A marker that is a day old is collected by two rounds, three hours apart: one collection begins (`begins`), waits for three
/// hours after all have confirmed (`waits`), goes on then (`goes_on`), and with the last answer of the second round node 1
/// drops the row, which is collected (`collects`), and no collection is open any more (`ends`).
pub fn a_run_collects()
    ensures begins { (let w = world_after empty first_round in (length w.messages ≡ 21) ×
        (length (w.nodes 1).gc.collections ≡ 1)) }
    ensures waits { (let w = world_after empty (first_round ++ confirmed) in
        ((done_by w (plain (Collect 1))).words ≡ Two 0 1) × ((done_by w (plain (Collect 1))).sends ≡ [])) }
    ensures goes_on { (let w = world_after empty (first_round ++ confirmed ++ second_round) in
        (w.collected ≡ []) × ((w.nodes 1).accepted ≡ record { key = 97; value = 1 } ∷ [])) }
    ensures collects { (let w = world_after empty (first_round ++ confirmed ++ second_round ++
        last_answer) in
        (w.collected ≡ record { key = 97; value = 1 } ∷ []) × ((w.nodes 1).accepted ≡ [])) }
    ensures ends { (let w = world_after empty (first_round ++ confirmed ++ second_round ++
        last_answer) in
        (length (w.nodes 1).gc.collections ≡ 0) × (row_at greater markers (w.nodes 2).accepted 1 (home ++ 97 ∷ []) ≡ Some (record { key = 97; value = 1 }))) }
{}
