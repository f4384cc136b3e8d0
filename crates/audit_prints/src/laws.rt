//! What holds of sheets whatever the code does.
ghost use Rattle.std.specs.Prelude.{ℕ};
ghost use Rattle.cluster_machine.specs.declared.applied.Applied.{Applied};
ghost use Rattle.audit_model.specs.Printed.{Print, IsOfPrint};
ghost use Rattle.audit_prints.specs.Sheets.{IsShownOf, layout_of};

/// What is shown of a printed layout is so with the layout of any version that has its sets: they are as they were printed.
pub fn sheets_are_of_prints()
    ensures { (p : Print) (shown : Applied) → IsShownOf p shown → (version : ℕ) →
        IsOfPrint p.staged.roles p.staged.wanted version p.printed (layout_of version shown) shown }
{}
