//! Changes of the layout in configurations written by hand.
use crdt_core::{Bytes, List, Memory};
use layout_roles::{Kind, Redundancy};
use layout_text::{Change, ConfigFault, FieldName, append_number, append_word, read_changes};
use std::alloc::Global;
use std::test::Fail;

const SERVE: u8 = 16;

// The numbers of a change: after how many requests it comes, in how many zones (0 for as many as there are), and each
// node with its capacity (0 for a gateway).
fn append_change(text: &mut Bytes, change: &Change) -> Result<(), Memory> {
    append_number(text, u64::from(change.after))?;
    match change.redundancy {
        Redundancy::AtLeast(zones) => append_number(text, u64::from(zones))?,
        Redundancy::Maximum => append_number(text, 0)?,
    }
    for role in change.roles.list.as_slice() {
        append_number(text, u64::from(role.node))?;
        append_word(text, role.zone.0.as_slice())?;
        match role.kind {
            Kind::Storage(capacity) => append_number(text, capacity)?,
            Kind::Gateway => append_number(text, 0)?,
        }
    }
    text.push(b'\n')
}

fn line_each(alloc: Global, changes: &List<Change>) -> Result<Bytes, Memory> {
    let mut text = Bytes::from_slice(alloc, b"")?;
    for change in changes.as_slice() {
        append_change(&mut text, change)?;
    }
    Ok(text)
}

const READ: [(&str, &[u8]); 3] = [
    ("", b""),
    ("change = []", b""),
    (
        "\
            [[change]]\n\
            after = 1\n\
            [[change.node]]\n\
            id = 6\n\
            zone = 'c'\n\
            capacity = 1000\n\
            [[change.node]]\n\
            id = 4\n\
            zone = 'a'\n\
            gateway = true\n\
            [[change]]\n\
            after = 1000000\n\
            redundancy = 2\n\
            node = []\n",
        b" 1 0 4 a 0 6 c 1000\n 1000000 2\n",
    ),
];

#[test]
fn changes_in_order(rt: HostRuntime) -> Result<(), Fail> {
    for (config, expected) in READ {
        match read_changes(rt.alloc(), config, SERVE) {
            Ok(changes) => { assert_eq!(rt; line_each(rt.alloc(), &changes)?.as_slice(), expected) }
            Err(_) => assert!(rt; false),
        }
    }
    Ok(())
}

const REFUSED: [(&str, FieldName); 13] = [
    ("change = 3", FieldName::Change),
    ("change = [{ after = 0 }, 3]", FieldName::Change),
    ("change = [{ node = [] }]", FieldName::After),
    ("change = [{ after = 0 }]", FieldName::After),
    ("change = [{ after = 1000001 }]", FieldName::After),
    ("change = [{ after = '1' }]", FieldName::After),
    (
        "change = [{ after = 2, node = [] }, { after = 2 }]",
        FieldName::After,
    ),
    (
        "change = [{ after = 1, redundancy = 4 }]",
        FieldName::Redundancy,
    ),
    ("change = [{ after = 1 }]", FieldName::Node),
    (
        "change = [{ after = 1, node = [{ id = 17 }] }]",
        FieldName::Id,
    ),
    (
        "change = [{ after = 1, node = [{ id = 1, zone = 'A' }] }]",
        FieldName::Zone,
    ),
    (
        "change = [{ after = 1, node = [{ id = 1, zone = 'a' }] }, { after = 1 }]",
        FieldName::Capacity,
    ),
    (
        "change = [{ after = 1, node = [] }, { after = 3, redundancy = 0 }]",
        FieldName::Redundancy,
    ),
];

#[test]
fn first_bad_fields_of_changes(rt: HostRuntime) {
    for (text, field) in REFUSED {
        let found = read_changes(rt.alloc(), text, SERVE).err();
        assert_eq!(rt; found, Some(ConfigFault::Field(field)), "{text}");
    }
}

// A configuration with so many changes.
fn many(alloc: Global, count: u32) -> Result<String, Memory> {
    let mut text = String::new(alloc);
    for after in 1..=count {
        write!(text, "[[change]]\nafter = {after}\nnode = []\n")?;
    }
    Ok(text)
}

#[test]
fn a_hundred_changes_are_too_many(rt: HostRuntime) -> Result<(), Fail> {
    let text = many(rt.alloc(), 99)?;
    match read_changes(rt.alloc(), text.as_str(), SERVE) {
        Ok(changes) => assert_eq!(rt; changes.len(), 99),
        Err(_) => assert!(rt; false),
    }
    let text = many(rt.alloc(), 100)?;
    let found = read_changes(rt.alloc(), text.as_str(), SERVE).err();
    assert_eq!(rt; found, Some(ConfigFault::Field(FieldName::Change)));
    Ok(())
}
