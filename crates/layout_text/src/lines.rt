//! The text of a layout.
ghost use Rattle.std.specs.Prelude.{◌≡◌, ◌++◌, IfOk, OnOk};
ghost use Rattle.crdt_core.specs.Outcomes.{OnlyWant};
ghost use Rattle.layout_roles.specs.Text.{size_line, redundancy_line, layout_text};

use crate::cut::append_cut;
use crate::sets::append_sets;
use crate::words::append_number;
use crdt_core::{Bytes, Memory};
use layout_roles::{Certified, Roles, zone_names};
use std::alloc::Global;

#[tactic(auto, unfolding(layout_roles::specs::Text::size_line))]
fn append_size(out: &mut Bytes, size: u64) -> Result<(), Memory>
    ensures ok { OnOk result (out.new ≡ out.old ++ size_line size) }
    ensures want { OnlyWant result }
{
    out.extend_from_slice(b"size")?;
    append_number(out, size)?;
    out.push(b'\n')
}

#[tactic(auto, unfolding(layout_roles::specs::Text::redundancy_line))]
fn append_redundancy(out: &mut Bytes, r: u8) -> Result<(), Memory>
    ensures ok { OnOk result (out.new ≡ out.old ++ redundancy_line r) }
    ensures want { OnlyWant result }
{
    out.extend_from_slice(b"redundancy")?;
    append_number(out, u64::from(r))?;
    out.push(b'\n')
}

/// `size S`, `redundancy R`, the sets of the partitions (`set_lines`), and the cut for the next size
/// (`cut_lines`), which shows that no greater partition size is possible.
pub fn layout_lines(alloc: Global, certified: &Certified, roles: &Roles) -> Result<Bytes, Memory>
    ensures text { IfOk result (λ text. text ≡ layout_text roles.now.list certified.now) }
    ensures want { OnlyWant result }
{
    let names = zone_names(alloc, roles.list.as_slice())?;
    let mut out = Bytes::new(alloc);
    append_size(&mut out, certified.size)?;
    append_redundancy(&mut out, certified.r)?;
    append_sets(&mut out, certified.sets.sets.as_slice())?;
    append_cut(&mut out, names.as_slice(), &certified.cut)?;
    Ok(out)
}
