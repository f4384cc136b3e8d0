//! How many phases a request begins at most. No body does anything: each is called for its contract.
#![tactic(auto)]

ghost use Rattle.std.specs.Prelude.{◌≡◌, ◌≤◌, ◌+◌, ◌++◌, ℕ, List, length, Some};
ghost use Rattle.crdt_rows.specs.declared.any_row.AnyRow.{AnyRow};
ghost use Rattle.table_schema.specs.Words.{Words};
ghost use Rattle.table_schema.specs.Laws.{Laws};
ghost use Rattle.table_model.specs.Rows.{AllProper, rows};
ghost use Rattle.wire_messages.specs.declared.phase.PhaseEnd.{PhaseEnd};
ghost use Rattle.flow_model.specs.declared.flow.Stage.{Stage};
ghost use Rattle.flow_model.specs.Next.{goes_on};
ghost use Rattle.quorum_model.specs.Window.{end_key};
ghost use Rattle.range_laws.specs.Scans.{window_between};
ghost use Rattle.phase_limits.specs.Keys.{past, HasKeys};
ghost use Rattle.phase_limits.specs.Phases.{Held, IsWithin, GivesFew, left, LeavesFewer};

/// Once a phase of a request has ended, what it begins leaves fewer phases to begin than there were; so there are no more than
/// were left at first, for each request but a list, whatever phases give within what rows and nodes hold.
pub fn each_phase_leaves_fewer()
    ensures { (h : Held) (id block : ℕ) (stage : Stage) (end : PhaseEnd AnyRow) (now : ℕ) →
        1 ≤ block → IsWithin h stage → GivesFew h end → LeavesFewer h (left h stage) (goes_on id block stage end now) }
{}

/// A window that isn't the last passes as many keys as an answer has rows: where all rows of both nodes have keys among these,
/// at least so many fewer of them are past its end than past where it began. So a list has few windows.
pub fn windows_pass_many_keys<R>()
    ensures { (join : R → R → R) (s : Words R) → Laws join s →
        (keys : List (List ℕ)) (position prefix after : List ℕ) (limit : ℕ) (a b : List R)
        (end : List ℕ) →
        length position ≡ 32 → AllProper s a → AllProper s b → HasKeys s keys (rows join s a) → HasKeys s keys (rows join s b) →
        end_key position (window_between join s position prefix after limit a b).end ≡ Some end → past end keys + limit ≤ past (position ++ after) keys }
{}
