//! What holds of the network whatever the code does.
ghost use Rattle.std.specs.Prelude.{ℕ, List, ◌≡◌, ◌<◌, ◌≤◌, ◌↔◌, IsTrue};
ghost use Rattle.layout_roles.specs.declared.role.Role.{Role};
ghost use Rattle.layout_roles.specs.Zones.{nodes_ascend};
ghost use Rattle.layout_roles.specs.Fits.{SomeFits, NoneFits};
ghost use Rattle.layout_roles.specs.Network.{network};
ghost use Rattle.layout_flow.specs.Flows.{Flow, IsFlow, IsGreatestFlow, value};
ghost use Rattle.layout_roles.specs.Cuts.{Side, IsCut, IsPrinted, weight};

/// A cut that weighs less than three copies of each partition shows that no assignment fits.
pub fn light_cuts()
    ensures { (roles : List Role) (r size : ℕ) (side : Side) → IsTrue (nodes_ascend roles) → 1 ≤ r →
        r ≤ 3 → IsCut side → weight (network roles r size) side < 768 → NoneFits roles r size }
{}

/// What flows there are: none is greater than a cut, one of three copies of each partition is there exactly
/// where an assignment fits, and the printed cut weighs what a greatest one carries.
pub fn flows()
    ensures below { (roles : List Role) (r size : ℕ) (flow : Flow) (side : Side) →
        IsTrue (nodes_ascend roles) → IsFlow (network roles r size) flow → IsCut side →
        value (network roles r size) flow ≤ weight (network roles r size) side }
    ensures fits { (roles : List Role) (r size : ℕ) → IsTrue (nodes_ascend roles) → 1 ≤ r → r ≤ 3 →
        ((flow : Flow) × IsFlow (network roles r size) flow ×
        (value (network roles r size) flow ≡ 768)) ↔ SomeFits roles r size }
    ensures printed { (roles : List Role) (r size : ℕ) (set : Side) → IsTrue (nodes_ascend roles) →
        1 ≤ r → r ≤ 3 → IsPrinted (network roles r size) set → (flow : Flow) ×
        IsGreatestFlow (network roles r size) flow ×
        (value (network roles r size) flow ≡ weight (network roles r size) set) }
{}
