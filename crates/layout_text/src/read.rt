//! A configuration in TOML.
ghost use Rattle.std.specs.Prelude.{◌≡◌, ◌≤◌, List, [], Some, Ok, IsTrue, IfOk, IfErr, OnOk, IfSome, length, is_some};
ghost use Rattle.std.specs.List.{insert, list_all};
ghost use Rattle.crdt_core.specs.Outcomes.{OnlyWant};
ghost use Rattle.toml.specs.Data.{Members, as_table};
ghost use Rattle.toml.specs.View.{view, table_view, array_view, items_view};
ghost use Rattle.layout_roles.specs.Certificates.{IsRedundancy};
ghost use Rattle.layout_text.specs.declared.config.FieldName.TheVariants as field;
ghost use Rattle.layout_text.specs.Values.{buckets_of, buckets_in, tables_of, nodes_in};
ghost use Rattle.layout_text.specs.Settings.{needed, put_role, role_in, roles_in, roles_for, buckets_for, block_size_for, settings_in, said, settings_of, faulted, IsFaultOf, Reads};

use crate::config::{Config, ConfigFault, FieldName};
use crate::values;
use crdt_core::{Bytes, List, Memory};
use layout_roles::{Role, Roles, Zone};
use name_set::Names;
use std::alloc::Global;
use toml::value::Array;
use toml::{Table, Value};

// The greatest node of `serve`, which has buckets and a block size.
const SERVE: u8 = 16;

// The names of buckets, each once.
fn names_of(alloc: Global, values: &[Value]) -> Result<Option<Names>, Memory>
    ensures names { IfOk result (λ names. names ≡ buckets_of [] (items_view values.now)) }
    ensures want { OnlyWant result }
{
    let mut names = Names::new(alloc);
    for value in values {
        match values::bucket_of(&names, value) {
            Some(name) => names.push(name.as_bytes())?,
            None => return Ok(None),
        }
    }
    Ok(Some(names))
}

fn named_buckets(alloc: Global, root: &Table) -> Result<Option<Names>, Memory>
    ensures names { IfOk result (λ names. names ≡ buckets_in (table_view root.now)) }
    ensures want { OnlyWant result }
{
    match values::array_at(root, "buckets") {
        Some(values) => names_of(alloc, values.as_slice()),
        None => Ok(None),
    }
}

// The names of the buckets for `serve`, and none for `layout`.
fn buckets(alloc: Global, greatest: u8, root: &Table) -> Result<Names, ConfigFault>
    ensures { Reads (faulted (needed field.Buckets
        (buckets_for greatest (table_view root.now)))) result }
{
    if greatest != SERVE {
        return Ok(Names::new(alloc));
    }
    match named_buckets(alloc, root)? {
        Some(names) => Ok(names),
        None => Err(ConfigFault::Field(FieldName::Buckets)),
    }
}

// The block size in bytes for `serve`, and the default for `layout`.
fn block_size(greatest: u8, root: &Table) -> Option<u32>
    ensures { result ≡ block_size_for greatest (table_view root.now) }
{
    if greatest == SERVE {
        values::block_size(root)
    } else {
        Some(values::BLOCK_SIZE)
    }
}

#[tactic(auto, unfolding(crate::specs::Settings::role_in))]
// The role of a node, after the roles of the nodes before it.
fn role(alloc: Global, greatest: u8, before: &[Role], node: &Table) -> Result<Role, ConfigFault>
    ensures { Reads (faulted (role_in greatest before.now (table_view node.now))) result }
{
    let id = values::id(greatest, before, node).ok_or(FieldName::Id)?;
    let zone = values::zone(node).ok_or(FieldName::Zone)?;
    let kind = values::kind(node).ok_or(FieldName::Capacity)?;
    Ok(Role {
        node: id,
        zone: Zone(Bytes::from_slice(alloc, zone.as_bytes())?),
        kind,
    })
}

// Where a role comes among roles in order of nodes.
fn place_of(roles: &[Role], role: &Role) -> usize
    ensures within { result ≤ length roles.now }
    ensures put { insert roles.now result role.now ≡ put_role roles.now role.now }
{
    for (i, other) in roles.iter().enumerate() {
        if role.node < other.node {
            return i;
        }
    }
    roles.len()
}

fn put(roles: &mut List<Role>, role: Role) -> Result<(), Memory>
    ensures ok { OnOk result (roles.new ≡ put_role roles.old role) }
    ensures want { OnlyWant result }
{
    let place = place_of(roles.as_slice(), &role);
    roles.insert(place, role)
}

#[tactic(auto, using(crate::proofs::Tables::tables_some))]
// The values of the nodes, where each is a table.
fn node_values(root: &Table) -> Option<&Array>
    ensures some { is_some result ≡ is_some (nodes_in (table_view root.now)) }
    ensures same { IfSome result
        (λ values. nodes_in (table_view root.now) ≡ tables_of (array_view values.now)) }
{
    let values = values::array_at(root, "node")?;
    if are_tables(values.as_slice()) {
        Some(values)
    } else {
        None
    }
}

pub(crate) fn are_tables(values: &[Value]) -> bool
    ensures { result ≡ list_all (λ value. is_some (as_table (view value))) values.now }
{
    values.iter().all(|value| value.is_table())
}

// The roles of nodes whose values are tables, in order of nodes.
fn roles_of(alloc: Global, greatest: u8, nodes: &[Value]) -> Result<Roles, ConfigFault>
    ensures roles { IfOk result (λ roles. (tables : List Members) →
        tables_of (items_view nodes.now) ≡ Some tables →
        faulted (roles_in greatest [] tables) ≡ Ok roles.list) }
    ensures fault { IfErr result (λ fault. (tables : List Members) →
        tables_of (items_view nodes.now) ≡ Some tables →
        IsFaultOf (faulted (roles_in greatest [] tables)) fault) }
{
    let mut list: List<Role> = List::new(alloc);
    for value in nodes {
        let node = value.as_table().ok_or(FieldName::Node)?;
        let role = role(alloc, greatest, list.as_slice(), node)?;
        put(&mut list, role)?;
    }
    Ok(Roles { list })
}

#[tactic(auto, unfolding(crate::specs::Settings::roles_for))]
// The roles of the nodes, in order of nodes.
pub(crate) fn roles(alloc: Global, greatest: u8, root: &Table) -> Result<Roles, ConfigFault>
    ensures roles { IfOk result
        (λ roles. faulted (roles_for greatest (table_view root.now)) ≡ Ok roles.list) }
    ensures fault { IfErr result (IsFaultOf (faulted (roles_for greatest (table_view root.now)))) }
{
    let nodes = node_values(root).ok_or(FieldName::Node)?;
    roles_of(alloc, greatest, nodes.as_slice())
}

#[tactic(auto, unfolding(crate::specs::Settings::settings_in))]
// The settings that a document's table says.
fn config(alloc: Global, greatest: u8, root: &Table) -> Result<Config, ConfigFault>
    ensures config { IfOk result
        (λ config. settings_in greatest (table_view root.now) ≡ Ok (settings_of config)) }
    ensures redundancy { IfOk result (λ config. IsRedundancy config.redundancy) }
    ensures fault { IfErr result
        (IsFaultOf (faulted (settings_in greatest (table_view root.now)))) }
{
    let redundancy = values::redundancy(root).ok_or(FieldName::Redundancy)?;
    let buckets = buckets(alloc, greatest, root)?;
    let block_size = block_size(greatest, root).ok_or(FieldName::BlockSize)?;
    let roles = roles(alloc, greatest, root)?;
    Ok(Config {
        redundancy,
        roles,
        buckets,
        block_size,
    })
}

#[tactic(auto, unfolding(crate::specs::Settings::said))]
/// The configuration that a text says in TOML, or its first bad field: redundancy, buckets, block size and
/// nodes are looked at in this order, and then the number, the zone and the capacity of each node.
///
/// With a greatest node of 16 it is that of `serve`; with another, as 64 for `layout`, buckets and block size
/// aren't looked at.
pub fn read_config(alloc: Global, text: &str, greatest_node: u8) -> Result<Config, ConfigFault>
    ensures config { IfOk result (λ config. said greatest_node text.now ≡ Ok (settings_of config)) }
    ensures redundancy { IfOk result (λ config. IsRedundancy config.redundancy) }
    ensures fault { IfErr result (IsFaultOf (said greatest_node text.now)) }
{
    match toml::table_from_str(alloc, text) {
        Ok(root) => config(alloc, greatest_node, &root),
        Err(error) => {
            if error.is_memory() {
                Err(ConfigFault::Memory)
            } else {
                Err(ConfigFault::NotToml)
            }
        }
    }
}
