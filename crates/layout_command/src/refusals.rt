//! The lines that say why there is no layout.
ghost use Rattle.std.specs.Prelude.{◌≡◌, ◌++◌, IfOk};
ghost use Rattle.crdt_core.specs.Outcomes.{OnlyWant};
ghost use Rattle.layout_roles.specs.Text.{cut_lines};
ghost use Rattle.layout_command.specs.Answer.{field_word, toml_line, field_line, nodes_line, zones_line, none_line};
ghost use Rattle.layout_command.specs.Reasons.{reason_text, IsTold};

use crdt_core::{Bytes, Memory};
use itoa::Buffer;
use layout_roles::{Cut, Roles};
use layout_size::LayoutFault;
use layout_text::{FieldName, cut_lines};
use std::alloc::Global;

/// The text is no TOML document.
#[tactic(auto, unfolding(crate::specs::Answer::toml_line))]
pub fn bad_toml(alloc: Global) -> Result<Bytes, Memory>
    ensures text { IfOk result (λ text. text ≡ toml_line) }
    ensures want { OnlyWant result }
{
    Bytes::from_slice(alloc, b"bad toml\n")
}

fn field_word(name: FieldName) -> &'static [u8]
    ensures { result.now ≡ field_word name }
{
    match name {
        FieldName::Redundancy => b"redundancy",
        FieldName::Buckets => b"buckets",
        FieldName::BlockSize => b"block_size",
        FieldName::Node => b"node",
        FieldName::Id => b"id",
        FieldName::Zone => b"zone",
        FieldName::Capacity => b"capacity",
        FieldName::Change => b"change",
        FieldName::After => b"after",
        FieldName::Region => b"region",
        FieldName::Key => b"key",
        FieldName::Old => b"old",
    }
}

/// The first bad field.
#[tactic(auto, unfolding(crate::specs::Answer::field_line))]
pub fn bad_field(alloc: Global, name: FieldName) -> Result<Bytes, Memory>
    ensures text { IfOk result (λ text. text ≡ field_line name) }
    ensures want { OnlyWant result }
{
    let mut text = Bytes::from_slice(alloc, b"bad field ")?;
    text.extend_from_slice(field_word(name))?;
    text.push(b'\n')?;
    Ok(text)
}

// So many storage nodes are fewer than three.
#[tactic(auto, unfolding(crate::specs::Answer::nodes_line))]
fn too_few_nodes(alloc: Global, nodes: u8) -> Result<Bytes, Memory>
    ensures text { IfOk result (λ text. text ≡ nodes_line nodes) }
    ensures want { OnlyWant result }
{
    let mut text = Bytes::from_slice(alloc, b"too few nodes ")?;
    text.extend_from_slice(Buffer::new().format(nodes).as_bytes())?;
    text.push(b'\n')?;
    Ok(text)
}

// So many zones with storage nodes are fewer than r.
#[tactic(auto, unfolding(crate::specs::Answer::zones_line))]
fn too_few_zones(alloc: Global, zones: u8, r: u8) -> Result<Bytes, Memory>
    ensures text { IfOk result (λ text. text ≡ zones_line zones r) }
    ensures want { OnlyWant result }
{
    let mut text = Bytes::from_slice(alloc, b"too few zones ")?;
    text.extend_from_slice(Buffer::new().format(zones).as_bytes())?;
    text.push(b' ')?;
    text.extend_from_slice(Buffer::new().format(r).as_bytes())?;
    text.push(b'\n')?;
    Ok(text)
}

// No assignment fits partitions of one byte, as the cut shows.
#[tactic(auto, unfolding(crate::specs::Answer::none_line))]
fn no_assignment(alloc: Global, cut: &Cut, roles: &Roles) -> Result<Bytes, Memory>
    ensures text { IfOk result (λ text. text ≡ none_line ++ cut_lines roles.now.list cut.now) }
    ensures want { OnlyWant result }
{
    let mut text = Bytes::from_slice(alloc, b"no assignment\n")?;
    let lines = cut_lines(alloc, cut, roles)?;
    text.extend_from_slice(lines.as_slice())?;
    Ok(text)
}

/// Why nothing is laid out.
pub fn reason(alloc: Global, roles: &Roles, fault: &LayoutFault) -> Result<Bytes, Memory>
    ensures text { IfOk result (λ text. text ≡ reason_text roles.now.list fault.now) }
    ensures told { IfOk result (λ _. IsTold fault.now) }
    ensures want { OnlyWant result }
{
    match fault {
        LayoutFault::TooFewNodes(nodes) => too_few_nodes(alloc, *nodes),
        LayoutFault::TooFewZones(zones, r) => too_few_zones(alloc, *zones, *r),
        LayoutFault::NoAssignment(cut) => no_assignment(alloc, cut, roles),
        LayoutFault::Memory => Err(Memory::Want),
    }
}
