//! What the lines of a layout say, whatever prints them and whatever reads them. No body does more than name laws: each is
//! called for its contract.
#![tactic(auto)]

ghost use Rattle.std.specs.Prelude.{◌≡◌, ℕ, List, ◌++◌, Some};
ghost use Rattle.std.specs.List.{AllByRecursion};
ghost use Rattle.layout_roles.specs.declared.layout.Layout.{Layout};
ghost use Rattle.layout_roles.specs.declared.redundancy.Redundancy.{Redundancy};
ghost use Rattle.layout_roles.specs.declared.role.Role.{Role};
ghost use Rattle.layout_roles.specs.Text.{layout_text};
ghost use Rattle.layout_roles.specs.Certificates.{IsRedundancy};
ghost use Rattle.cluster_machine.specs.declared.applied.Applied.{Applied};
ghost use Rattle.cluster_machine.specs.Choices.{IsBest};
ghost use Rattle.store_model.specs.declared.event.Event.{Event};
ghost use Rattle.store_model.specs.declared.event.Numbered.{Numbered};
ghost use Rattle.text_model.specs.Grammar.{IsAllowed};
ghost use Rattle.audit_model.specs.declared.said.Said.{Said};
ghost use Rattle.audit_model.specs.Lines.{IsInRange};
ghost use Rattle.audit_model.specs.Heard.{Heard, heard};
ghost use Rattle.audit_model.specs.Printed.{Staged, nothing_staged, stages, printed};
ghost use Rattle.audit_laws.specs.Told.{saids_text};
ghost use Rattle.audit_sheets.specs.Sheets.{more_said, sheet_said, IsOrderly, IsRanked, AreInRange, IsStagedInRange};

use audit_laws::lines_say_one_thing;

/// The text of a layout is the words of what its lines say, where its numbers are in their ranges and the vertices of its cut
/// are in order, partition by partition; and no line of a layout adds to what was heard.
pub fn sheets_spell_what_is_said()
    ensures text { (shown : Applied) → IsOrderly shown →
        layout_text shown.roles.list shown.certified ≡ saids_text (sheet_said shown) }
    ensures range { (shown : Applied) → IsOrderly shown →
        AllByRecursion IsInRange (sheet_said shown) }
    ensures heard { (events : List Numbered) (h : Heard) (shown : Applied) →
        AllByRecursion (λ s. heard events h s ≡ Some h) (sheet_said shown) }
{}

/// What these lines print is the layout, whatever follows them: its size, its sets, and the whole side of its cut, where that
/// is in order.
pub fn sheets_print_their_layout()
    ensures { (shown : Applied) (rest : List Said) → IsOrderly shown →
        IsRanked shown.certified.cut.side →
        (let c = shown.certified in
        printed shown.roles.list c.size (more_said shown ++ rest) ≡ record { size = c.size; sets = c.sets.sets; side = c.cut.side }) }
{
    lines_say_one_thing();
}

/// A layout that is computed from roles that a schedule may give is in order so.
pub fn computed_sheets_are_orderly()
    ensures { (roles : List Role) (wanted : Redundancy) (version : ℕ) (l : Layout)
        (shown : Applied) → IsRedundancy wanted →
        IsBest roles wanted version l shown → AreInRange shown.roles.list → IsOrderly shown × IsRanked shown.certified.cut.side }
{}

/// What the events of a schedule stage are roles that a schedule may give, and a redundancy that there is.
pub fn schedules_stage_in_range()
    ensures first { IsStagedInRange nothing_staged }
    ensures next { (s : Staged) (e : Event) → IsAllowed e → IsStagedInRange s →
        IsStagedInRange (stages s e) }
{}
