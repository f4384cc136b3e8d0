//! Configurations written by hand, and the text of a small layout.
ghost use Rattle.std.specs.Prelude.{IfOk};
ghost use Rattle.layout_roles.specs.Certificates.{IsRedundancy};

use crdt_core::{Bytes, Memory};
use layout_roles::{Kind, Redundancy};
use layout_size::{Certified, compute};
use layout_text::{
    Config, ConfigFault, FieldName, cut_lines, layout_lines, longest_runs, read_config, set_lines,
};
use std::alloc::Global;
use std::test::Fail;

const LAYOUT: u8 = 64;

const SERVE: u8 = 16;

const THREE: &str = "\
    redundancy = 2\n\
    block_size = 7\n\
    [[node]]\n\
    id = 9\n\
    zone = 'c'\n\
    capacity = 1000\n\
    [[node]]\n\
    id = 1\n\
    zone = 'a'\n\
    capacity = 1000\n\
    gateway = false\n\
    [[node]]\n\
    id = 2\n\
    zone = 'b'\n\
    capacity = 1000\n\
    label = 'ignored'\n";

fn config(alloc: Global, text: &str, greatest: u8) -> Result<Config, Memory>
    ensures { IfOk result (λ config. IsRedundancy config.redundancy) }
{
    match read_config(alloc, text, greatest) {
        Ok(config) => Ok(config),
        Err(_) => Err(Memory::Full),
    }
}

fn computed(alloc: Global, config: &Config) -> Result<Certified, Memory>
    requires { IsRedundancy config.now.redundancy }
{
    match compute(alloc, &config.roles, config.redundancy) {
        Ok(certified) => Ok(certified),
        Err(_) => Err(Memory::Full),
    }
}

#[derive(Clone, Copy)]
enum Part {
    Sets,
    Cut,
    Whole,
}

// A part of the layout of the three nodes.
fn lines(alloc: Global, part: Part) -> Result<Bytes, Memory> {
    let config = config(alloc, THREE, LAYOUT)?;
    let certified = computed(alloc, &config)?;
    match part {
        Part::Sets => set_lines(alloc, &certified.sets),
        Part::Cut => cut_lines(alloc, &certified.cut, &config.roles),
        Part::Whole => layout_lines(alloc, &certified, &config.roles),
    }
}

#[test]
fn three_nodes_in_order(rt: HostRuntime) -> Result<(), Fail> {
    let rows: [(Part, &[u8]); 3] = [
        (Part::Sets, b"p 0 255 1 2 9\n"),
        (
            Part::Cut,
            b"cut 4 750\nc 0 255 up down z:a z:b z:c\ncn 1 2 9\n",
        ),
        (
            Part::Whole,
            b"size 3\nredundancy 2\np 0 255 1 2 9\ncut 4 750\nc 0 255 up down z:a z:b z:c\ncn 1 2 9\n",
        ),
    ];
    for (part, text) in rows {
        assert_eq!(rt; lines(rt.alloc(), part)?.as_slice(), text);
    }
    longest_runs();
    Ok(())
}

const SERVED: &str =
    "buckets = ['pics', 'a.b-9']\nblock_size = 16\n[[node]]\nid = 16\nzone = 'z9'\ngateway = true\n";

// Whether a configuration has the buckets `pics` and `a.b-9`, and one node in the zone `z9`.
fn has_names(config: &Config) -> bool {
    match (
        config.buckets.list().as_slice(),
        config.roles.list.as_slice(),
    ) {
        ([pics, dotted], [role]) => {
            pics.as_slice() == b"pics".as_slice()
                && dotted.as_slice() == b"a.b-9".as_slice()
                && role.zone.0.as_slice() == b"z9".as_slice()
        }
        _ => false,
    }
}

#[test]
fn configuration_of_serve(rt: HostRuntime) -> Result<(), Fail> {
    let config = config(rt.alloc(), SERVED, SERVE)?;
    assert_eq!(rt;
        (config.redundancy, config.block_size),
        (Redundancy::Maximum, 16)
    );
    let roles = config.roles.list.as_slice();
    let node = roles.first().map(|role| (role.node, role.kind));
    assert_eq!(rt; node, Some((16, Kind::Gateway)));
    assert!(rt; has_names(&config));
    Ok(())
}

#[test]
fn first_bad_fields_of_serve(rt: HostRuntime) {
    for (text, fault) in [
        ("redundancy = 4", ConfigFault::Field(FieldName::Redundancy)),
        ("block_size = 1", ConfigFault::Field(FieldName::Buckets)),
        (
            "buckets = ['pics', 'pics']",
            ConfigFault::Field(FieldName::Buckets),
        ),
        (
            "buckets = ['-pics']",
            ConfigFault::Field(FieldName::Buckets),
        ),
        (
            "buckets = []\nblock_size = 15",
            ConfigFault::Field(FieldName::BlockSize),
        ),
        ("buckets = []", ConfigFault::Field(FieldName::Node)),
        (
            "buckets = []\nnode = [{ id = 17 }]",
            ConfigFault::Field(FieldName::Id),
        ),
        ("id = [", ConfigFault::NotToml),
    ] {
        let found = read_config(rt.alloc(), text, SERVE).err();
        assert_eq!(rt; found, Some(fault), "{text}");
    }
}
