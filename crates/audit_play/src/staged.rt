//! Whether a printed layout is of the roles and the redundancy that are staged.
ghost use Rattle.std.specs.Prelude.{◌≡◌, bytes_eq};
ghost use Rattle.std.specs.Cmp.Lexicographic.{pointwise};
ghost use Rattle.store_model.specs.Run.{State};
ghost use Rattle.audit_model.specs.Audit.{staged_in};
ghost use Rattle.s3_world.specs.Stands.{IsStore};
ghost use Rattle.audit_play.specs.Staged.{same_kind, same_role, same_wanted, is_of};

use audit_prints::Sheet;
use layout_roles::{Kind, Redundancy, Role};
use s3_world::S3World;

/// Whether both are gateways, or have one capacity.
fn is_same_kind(a: Kind, b: Kind) -> bool
    ensures { result ≡ same_kind a b }
{
    match (a, b) {
        (Kind::Storage(first), Kind::Storage(second)) => first == second,
        (Kind::Gateway, Kind::Gateway) => true,
        _ => false,
    }
}

/// Whether two nodes' roles are one role of one node.
fn is_same_role(a: &Role, b: &Role) -> bool
    ensures { result ≡ same_role a.now b.now }
{
    a.node == b.node && a.zone.0.as_slice() == b.zone.0.as_slice() && is_same_kind(a.kind, b.kind)
}

/// Whether roles are the same, one by one.
fn are_same_roles(a: &[Role], b: &[Role]) -> bool
    ensures { result ≡ pointwise same_role a.now b.now }
{
    let mut i = 0;
    while i < a.len() && i < b.len() {
        if !is_same_role(&a[i], &b[i]) {
            return false;
        }
        i += 1;
    }
    a.len() == b.len()
}

/// Whether as many zones are asked for.
fn is_same_wanted(a: Redundancy, b: Redundancy) -> bool
    ensures { result ≡ same_wanted a b }
{
    match (a, b) {
        (Redundancy::AtLeast(first), Redundancy::AtLeast(second)) => first == second,
        (Redundancy::Maximum, Redundancy::Maximum) => true,
        _ => false,
    }
}

/// Whether a printed layout is of what is staged.
pub(crate) fn is_of(store: &S3World, sheet: &Sheet) -> bool
    ensures { (s : State) → IsStore store.now s → result ≡ is_of (staged_in s) sheet.now }
{
    let (roles, wanted) = store.staged();
    is_same_wanted(sheet.wanted, wanted)
        && are_same_roles(sheet.shown.roles.list.as_slice(), roles.list.as_slice())
}
