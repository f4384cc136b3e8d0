//! The values of a configuration's keys.
ghost use Rattle.std.specs.Prelude.{◌≡◌, ◌≤◌, IfSome, option_map, option_copied, option_and_then};
ghost use Rattle.toml.specs.Data.{get_member, as_array};
ghost use Rattle.toml.specs.View.{view, array_view, table_view};
ghost use Rattle.layout_text.specs.Values.{between, number_in, redundancy_of, redundancy_in, bucket_of, block_size_in, is_taken, id_in, zone_of, zone_in, is_set, kind_in};

use layout_roles::{Kind, Redundancy, Role, is_bucket_name, is_zone_name};
use name_set::Names;
use toml::value::Array;
use toml::{Table, Value};

/// The block size in bytes where a configuration has none.
pub(crate) const BLOCK_SIZE: u32 = 1_048_576;

// The greatest capacity in bytes.
const CAPACITY: u64 = 1 << 50;

/// The value at a key.
pub(crate) fn value_at<'a>(table: &'a Table, key: &str) -> Option<&'a Value>
    ensures { option_map (λ value. view value.now) result ≡ get_member key.now
        (table_view table.now) }
{
    table.get(key)
}

/// The array at a key.
pub(crate) fn array_at<'a>(table: &'a Table, key: &str) -> Option<&'a Array>
    ensures { option_map (λ array. array_view array.now) result ≡ option_and_then as_array
        (get_member key.now (table_view table.now)) }
{
    match value_at(table, key) {
        Some(value) => value.as_array(),
        None => None,
    }
}

fn between(low: u64, high: u64, n: i64) -> Option<u64>
    ensures number { result ≡ between low high n }
    ensures range { IfSome result (λ n. (low ≤ n) × (n ≤ high)) }
{
    let n = u64::try_from(n).ok()?;
    if low <= n && n <= high { Some(n) } else { None }
}

/// A whole number from `low` to `high`.
pub(crate) fn number_in(value: &Value, low: u64, high: u64) -> Option<u64>
    ensures number { result ≡ number_in low high (view value.now) }
    ensures range { IfSome result (λ n. (low ≤ n) × (n ≤ high)) }
{
    match value.as_integer() {
        Some(n) => between(low, high, n),
        None => None,
    }
}

fn redundancy_of(value: &Value) -> Option<Redundancy>
    ensures { result ≡ redundancy_of (view value.now) }
{
    match value.as_str() {
        Some("maximum") => Some(Redundancy::Maximum),
        Some(_) => None,
        None => match number_in(value, 1, 3) {
            Some(zones) => Some(Redundancy::AtLeast(zones as u8)),
            None => None,
        },
    }
}

/// In how many zones the nodes of a partition have to be: 1, 2, 3 or `maximum`, which is the default.
pub(crate) fn redundancy(root: &Table) -> Option<Redundancy>
    ensures { result ≡ redundancy_in (table_view root.now) }
{
    match value_at(root, "redundancy") {
        Some(value) => redundancy_of(value),
        None => Some(Redundancy::Maximum),
    }
}

/// A bucket's name that none of these before it is: 3 to 63 lower-case letters, digits, `-` and `.`, the
/// first and the last a letter or digit.
pub(crate) fn bucket_of<'a>(before: &Names, value: &'a Value) -> Option<&'a str>
    ensures { option_copied result ≡ bucket_of before.now (view value.now) }
{
    match value.as_str() {
        Some(name) if is_bucket_name(name.as_bytes()) && !before.has(name.as_bytes()) => Some(name),
        _ => None,
    }
}

/// The block size in bytes, 1,048,576 where there is none.
pub(crate) fn block_size(root: &Table) -> Option<u32>
    ensures { result ≡ block_size_in (table_view root.now) }
{
    match value_at(root, "block_size") {
        Some(value) => match number_in(value, 16, 1_048_576) {
            Some(size) => Some(size as u32),
            None => None,
        },
        None => Some(BLOCK_SIZE),
    }
}

fn is_taken(before: &[Role], id: u8) -> bool
    ensures { result ≡ is_taken before.now id }
{
    before.iter().any(|role| role.node == id)
}

/// A node's number, from 1 up to the greatest, and 64 at most, that no node before it has.
pub(crate) fn id(greatest: u8, before: &[Role], node: &Table) -> Option<u8>
    ensures { result ≡ id_in greatest before.now (table_view node.now) }
{
    let value = value_at(node, "id")?;
    let id = number_in(value, 1, u64::from(greatest.min(64)))? as u8;
    if is_taken(before, id) { None } else { Some(id) }
}

fn zone_of(value: &Value) -> Option<&str>
    ensures { option_copied result ≡ zone_of (view value.now) }
{
    match value.as_str() {
        Some(name) if is_zone_name(name.as_bytes()) => Some(name),
        _ => None,
    }
}

/// The name of a node's zone: 1 to 16 lower-case letters and digits.
pub(crate) fn zone(node: &Table) -> Option<&str>
    ensures { option_copied result ≡ zone_in (table_view node.now) }
{
    match value_at(node, "zone") {
        Some(value) => zone_of(value),
        None => None,
    }
}

// Whether the value at the key is `true`.
fn is_set(table: &Table, key: &str) -> bool
    ensures { result ≡ is_set (get_member key.now (table_view table.now)) }
{
    match value_at(table, key) {
        Some(value) => value.as_bool() == Some(true),
        None => false,
    }
}

/// Whether a node is a gateway, or keeps copies: it has `gateway = true` or a capacity, and not both. A
/// capacity is 1 byte to 2^50.
pub(crate) fn kind(node: &Table) -> Option<Kind>
    ensures { result ≡ kind_in (table_view node.now) }
{
    let capacity = value_at(node, "capacity");
    if is_set(node, "gateway") {
        match capacity {
            Some(_) => None,
            None => Some(Kind::Gateway),
        }
    } else {
        match number_in(capacity?, 1, CAPACITY) {
            Some(bytes) => Some(Kind::Storage(bytes)),
            None => None,
        }
    }
}
