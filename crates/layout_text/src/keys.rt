//! Which keys may sign requests, and for which region.
ghost use Rattle.std.specs.Prelude.{◌≡◌, [], IfOk, codes, option_copied};
ghost use Rattle.std.specs.List.{list_all, list_any};
ghost use Rattle.crdt_core.specs.Outcomes.{OnlyWant};
ghost use Rattle.toml.specs.Data.{get_member};
ghost use Rattle.toml.specs.View.{view, table_view, items_view};
ghost use Rattle.layout_roles.specs.Zones.{same_name};
ghost use Rattle.layout_text.specs.declared.config.FieldName.TheVariants as field;
ghost use Rattle.layout_text.specs.Settings.{needed, faulted, Reads};
ghost use Rattle.layout_text.specs.Keys.{is_region_byte, is_region, is_id_byte, is_key_id, is_secret_byte, is_secret, region_in, has_id, key_id_in, secret_in, configured, listed_of, listed_in, key_in, keys_of, keys_at, access_in, access_said};

use crate::config::{ConfigFault, FieldName};
use crate::values;
use crdt_core::{Bytes, List, Memory};
use layout_roles::is_name_byte;
use name_set::Names;
use std::alloc::Global;
use toml::{Table, Value};

/// Who may sign requests. It has no text of its own, so that none shows the secret.
#[derive(Drop)]
pub struct Key {
    /// 1 to 64 letters and digits.
    pub id: Bytes,
    /// 1 to 128 letters, digits, `/` and `+`.
    pub secret: Bytes,
    /// The buckets from which the key may read.
    pub read: List<Bytes>,
    /// The buckets in which the key may write.
    pub write: List<Bytes>,
}

/// The keys of a server; without a key every request is answered unsigned.
#[derive(Drop)]
pub struct Access {
    /// The region for which requests are signed.
    pub region: Bytes,
    /// Each id once.
    pub keys: List<Key>,
}

fn is_region_byte(byte: u8) -> bool
    ensures { result ≡ is_region_byte byte }
{
    is_name_byte(byte) || byte == b'-'
}

fn are_region_bytes(bytes: &[u8]) -> bool
    ensures { result ≡ list_all is_region_byte bytes.now }
{
    bytes.iter().all(|byte| is_region_byte(*byte))
}

fn is_region(text: &[u8]) -> bool
    ensures { result ≡ is_region text.now }
{
    1 <= text.len() && text.len() <= 32 && are_region_bytes(text)
}

fn is_id_byte(byte: u8) -> bool
    ensures { result ≡ is_id_byte byte }
{
    is_name_byte(byte) || matches!(byte, b'A'..=b'Z')
}

fn are_id_bytes(bytes: &[u8]) -> bool
    ensures { result ≡ list_all is_id_byte bytes.now }
{
    bytes.iter().all(|byte| is_id_byte(*byte))
}

fn is_key_id(text: &[u8]) -> bool
    ensures { result ≡ is_key_id text.now }
{
    1 <= text.len() && text.len() <= 64 && are_id_bytes(text)
}

fn is_secret_byte(byte: u8) -> bool
    ensures { result ≡ is_secret_byte byte }
{
    is_id_byte(byte) || byte == b'/' || byte == b'+'
}

fn are_secret_bytes(bytes: &[u8]) -> bool
    ensures { result ≡ list_all is_secret_byte bytes.now }
{
    bytes.iter().all(|byte| is_secret_byte(*byte))
}

fn is_secret(text: &[u8]) -> bool
    ensures { result ≡ is_secret text.now }
{
    1 <= text.len() && text.len() <= 128 && are_secret_bytes(text)
}

// The region: 1 to 32 lower-case letters, digits and `-`, or the default.
fn region(root: &Table) -> Option<&str>
    ensures { option_copied result ≡ region_in (table_view root.now) }
{
    match values::value_at(root, "region") {
        Some(value) => match value.as_str() {
            Some(text) if is_region(text.as_bytes()) => Some(text),
            _ => None,
        },
        None => Some("garage"),
    }
}

fn has_id(before: &[Key], id: &[u8]) -> bool
    ensures { result ≡ has_id before.now id.now }
{
    before.iter().any(|key| key.id.as_slice() == id)
}

// The id of a key, which no key before it has.
fn key_id<'a>(before: &[Key], table: &'a Table) -> Option<&'a str>
    ensures { option_copied result ≡ key_id_in before.now (table_view table.now) }
{
    match values::value_at(table, "id")?.as_str() {
        Some(id) if is_key_id(id.as_bytes()) && !has_id(before, id.as_bytes()) => Some(id),
        _ => None,
    }
}

fn secret(table: &Table) -> Option<&str>
    ensures { option_copied result ≡ secret_in (table_view table.now) }
{
    match values::value_at(table, "secret")?.as_str() {
        Some(secret) if is_secret(secret.as_bytes()) => Some(secret),
        _ => None,
    }
}

// The name of a bucket that is configured.
fn configured<'a>(buckets: &Names, value: &'a Value) -> Option<&'a str>
    ensures { option_copied result ≡ configured buckets.now (view value.now) }
{
    match value.as_str() {
        Some(name) if buckets.has(name.as_bytes()) => Some(name),
        _ => None,
    }
}

fn names_of(alloc: Global, buckets: &Names, values: &[Value]) -> Result<Option<List<Bytes>>, Memory>
    ensures names { IfOk result
        (λ names. names ≡ listed_of buckets.now [] (items_view values.now)) }
    ensures want { OnlyWant result }
{
    let mut names: List<Bytes> = List::new(alloc);
    for value in values {
        match configured(buckets, value) {
            Some(name) => names.push(Bytes::from_slice(alloc, name.as_bytes())?)?,
            None => return Ok(None),
        }
    }
    Ok(Some(names))
}

fn names_at(
    alloc: Global,
    buckets: &Names,
    table: &Table,
    key: &str,
) -> Result<Option<List<Bytes>>, Memory>
    ensures names { IfOk result
        (λ names. names ≡ listed_in buckets.now key.now (table_view table.now)) }
    ensures want { OnlyWant result }
{
    match values::array_at(table, key) {
        Some(values) => names_of(alloc, buckets, values.as_slice()),
        None => Ok(None),
    }
}

// The buckets that a key has in a list, which it must have.
fn listed(
    alloc: Global,
    buckets: &Names,
    table: &Table,
    key: &str,
) -> Result<List<Bytes>, ConfigFault>
    ensures { Reads (faulted (needed field.Key
        (listed_in buckets.now key.now (table_view table.now)))) result }
{
    match names_at(alloc, buckets, table, key)? {
        Some(names) => Ok(names),
        None => Err(ConfigFault::Field(FieldName::Key)),
    }
}

#[tactic(auto, unfolding(crate::specs::Keys::key_in))]
// The key of a table, after the keys before it.
fn one_key(
    alloc: Global,
    buckets: &Names,
    before: &[Key],
    table: &Table,
) -> Result<Key, ConfigFault>
    ensures { Reads (faulted (key_in buckets.now before.now (table_view table.now))) result }
{
    let id = key_id(before, table).ok_or(FieldName::Key)?;
    let secret = secret(table).ok_or(FieldName::Key)?;
    let read = listed(alloc, buckets, table, "read")?;
    let write = listed(alloc, buckets, table, "write")?;
    Ok(Key {
        id: Bytes::from_slice(alloc, id.as_bytes())?,
        secret: Bytes::from_slice(alloc, secret.as_bytes())?,
        read,
        write,
    })
}

fn keys_of(alloc: Global, buckets: &Names, values: &[Value]) -> Result<List<Key>, ConfigFault>
    ensures { Reads (faulted (keys_of buckets.now [] (items_view values.now))) result }
{
    let mut keys: List<Key> = List::new(alloc);
    for value in values {
        let table = value.as_table().ok_or(FieldName::Key)?;
        let key = one_key(alloc, buckets, keys.as_slice(), table)?;
        keys.push(key)?;
    }
    Ok(keys)
}

fn keys_at(alloc: Global, buckets: &Names, root: &Table) -> Result<List<Key>, ConfigFault>
    ensures { Reads (faulted (keys_at buckets.now
        (get_member (codes "key") (table_view root.now)))) result }
{
    match values::value_at(root, "key") {
        Some(value) => {
            let tables = value.as_array().ok_or(FieldName::Key)?;
            keys_of(alloc, buckets, tables.as_slice())
        }
        None => Ok(List::new(alloc)),
    }
}

#[tactic(auto, unfolding(crate::specs::Keys::access_in))]
fn access_of(alloc: Global, buckets: &Names, root: &Table) -> Result<Access, ConfigFault>
    ensures { Reads (faulted (access_in buckets.now (table_view root.now))) result }
{
    let region = region(root).ok_or(FieldName::Region)?;
    let keys = keys_at(alloc, buckets, root)?;
    Ok(Access {
        region: Bytes::from_slice(alloc, region.as_bytes())?,
        keys,
    })
}

#[tactic(auto, unfolding(crate::specs::Keys::access_said))]
/// The region and the keys of a configuration in TOML with these buckets: `region` at the top, `garage` where
/// there is none, and the tables `[[key]]` with `id`, `secret` and the lists `read` and `write` of buckets.
/// Else its first bad field, the region before the keys.
pub fn read_access(alloc: Global, text: &str, buckets: &Names) -> Result<Access, ConfigFault>
    ensures { Reads (access_said buckets.now text.now) result }
{
    match toml::table_from_str(alloc, text) {
        Ok(root) => access_of(alloc, buckets, &root),
        Err(error) => {
            if error.is_memory() {
                Err(ConfigFault::Memory)
            } else {
                Err(ConfigFault::NotToml)
            }
        }
    }
}
