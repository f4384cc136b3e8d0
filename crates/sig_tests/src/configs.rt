//! Keys and regions of configurations.
use crdt_core::{Bytes, Memory};
use layout_text::{Access, ConfigFault, FieldName, read_access};
use name_set::Names;
use std::alloc::Global;
use std::test::Fail;

fn access(alloc: Global, text: &str) -> Result<Access, ConfigFault> {
    let mut buckets = Names::new(alloc);
    buckets.push(b"pics")?;
    buckets.push(b"logs")?;
    read_access(alloc, text, &buckets)
}

fn appended(out: &mut Bytes, names: &[Bytes]) -> Result<(), Memory> {
    for name in names {
        out.push(b' ')?;
        out.extend_from_slice(name.as_slice())?;
    }
    out.push(b';')
}

// The region, and each key's parts.
fn text(alloc: Global, access: &Access) -> Result<Bytes, Memory> {
    let mut text = Bytes::from_slice(alloc, access.region.as_slice())?;
    for key in access.keys.as_slice() {
        text.push(b'\n')?;
        text.extend_from_slice(key.id.as_slice())?;
        text.push(b' ')?;
        text.extend_from_slice(key.secret.as_slice())?;
        text.extend_from_slice(b" reads")?;
        appended(&mut text, key.read.as_slice())?;
        text.extend_from_slice(b" writes")?;
        appended(&mut text, key.write.as_slice())?;
    }
    Ok(text)
}

const READ: [(&str, &[u8]); 3] = [
    ("", b"garage"),
    ("region = 'eu-west-3'\nkey = []", b"eu-west-3"),
    (
        "\
            [[key]]\n\
            id = 'GK1'\n\
            secret = 'a/B+9'\n\
            read = ['pics', 'logs', 'pics']\n\
            write = []\n\
            [[key]]\n\
            id = 'gk1'\n\
            secret = 's'\n\
            read = []\n\
            write = ['logs']\n",
        b"garage\nGK1 a/B+9 reads pics logs pics; writes;\ngk1 s reads; writes logs;",
    ),
];

#[test]
fn keys_and_regions(rt: HostRuntime) -> Result<(), Fail> {
    for (config, expected) in READ {
        match access(rt.alloc(), config) {
            Ok(access) => assert_eq!(rt; text(rt.alloc(), &access)?.as_slice(), expected),
            Err(_) => assert!(rt; false),
        }
    }
    Ok(())
}

const REFUSED: [(&str, FieldName); 9] = [
    ("region = ''", FieldName::Region),
    ("region = 'Paris'\nkey = 1", FieldName::Region),
    (
        "region = 'abcdefghijklmnopqrstuvwxyz-123456'",
        FieldName::Region,
    ),
    ("key = 1", FieldName::Key),
    (
        "[[key]]\nid = 'a b'\nsecret = 's'\nread = []\nwrite = []",
        FieldName::Key,
    ),
    (
        "[[key]]\nid = 'a'\nsecret = ''\nread = []\nwrite = []",
        FieldName::Key,
    ),
    (
        "[[key]]\nid = 'a'\nsecret = 's'\nread = ['books']\nwrite = []",
        FieldName::Key,
    ),
    ("[[key]]\nid = 'a'\nsecret = 's'\nread = []", FieldName::Key),
    (
        "\
            [[key]]\n\
            id = 'a'\n\
            secret = 's'\n\
            read = []\n\
            write = []\n\
            [[key]]\n\
            id = 'a'\n\
            secret = 't'\n\
            read = []\n\
            write = []",
        FieldName::Key,
    ),
];

#[test]
fn bad_keys_and_regions(rt: HostRuntime) -> Result<(), Fail> {
    for (config, field) in REFUSED {
        match access(rt.alloc(), config) {
            Ok(_) => assert!(rt; false),
            Err(fault) => assert_eq!(rt; fault, ConfigFault::Field(field)),
        }
    }
    Ok(())
}
