//! The cluster that the input says, with its layout.
ghost use Rattle.std.specs.Prelude.{List as Sequence, IsPermutation, IsSorted, ◌≡◌, ◌≤◌, ◌⊎◌, ◌+◌, drop, length, map, Some, Ok, Err, IfOk, OnOk, IfErr, IfSome};
ghost use Rattle.std.specs.List.{AllByRecursion};
ghost use Rattle.std.specs.Io.KnownBytes.{IsAtEnd};
ghost use Rattle.crdt_core.specs.Outcomes.{OnlyWant};
ghost use Rattle.lab_outside.specs.Rose.{Rose};
ghost use Rattle.layout_roles.specs.Certificates.{IsRedundancy, AreEnough, IsCertified};
ghost use Rattle.layout_roles.specs.Fits.{IsGreatest};
ghost use Rattle.layout_text.specs.Settings.{settings_of, said};
ghost use Rattle.layout_text.specs.Keys.{access_said};
ghost use Rattle.layout_text.specs.Changes.{Coming as Said, changes_said, coming_of, comings_of};
ghost use Rattle.serve_cluster.specs.Changes.{AreWithin, IsComputed};
ghost use Rattle.serve_run.specs.Stop.{IsOfText, IsOfRoles, IsOfComings, IsOfInput, IsTold};
ghost use Rattle.lab_main.specs.Limits.{input_limit};
ghost use Rattle.serve_run.specs.Plan.{greatest_node, coming_in, AreInOrder, IsOfServer, IsPlan, IsSaid, WasRead};

use crate::stop::Stop;
use cluster_machine::applied::Applied;
use crdt_core::{Bytes, List, Memory, Value};
use lab_outside::{Source, read_up_to};
use layout_command::{bad_field, bad_toml, reason};
use layout_roles::{Certified, Redundancy, Roles};
use layout_size::compute;
use layout_text::{
    Access, Change as Coming, Config, ConfigFault, read_access, read_changes, read_config,
};
use serve_cluster::Change;
use serve_model::Buckets;
use std::alloc::Global;
use std::str::from_utf8;

/// How many bytes the input may have.
const INPUT_LIMIT: usize = 8_388_608;

/// The greatest node of a server.
const GREATEST_NODE: u8 = 16;

/// A configuration, the layout of the greatest partition size for its roles, its buckets in order of their names with those
/// who may use them, and the changes of the layout, in order, each with the layout that was computed for it.
#[derive(Drop)]
pub struct Plan {
    pub config: Config,
    pub certified: Certified,
    pub buckets: Buckets,
    pub changes: List<Change>,
}

/// The configuration that a text says.
fn configured(alloc: Global, text: &str) -> Result<Config, Stop>
    ensures says { IfOk result (λ config. said greatest_node text.now ≡ Ok (settings_of config)) }
    ensures redundancy { IfOk result (λ config. IsRedundancy config.redundancy) }
    ensures sized { IfOk result (λ config. 1 ≤ config.block_size) }
    ensures causes { IfErr result (IsOfText text.now) }
{
    match read_config(alloc, text, GREATEST_NODE) {
        Ok(config) => Ok(config),
        Err(ConfigFault::NotToml) => Err(Stop::Refused(bad_toml(alloc)?)),
        Err(ConfigFault::Field(name)) => Err(Stop::Refused(bad_field(alloc, name)?)),
        Err(ConfigFault::Memory) => Err(Stop::Memory),
    }
}

/// The changes of the layout that a text says.
fn changes_of(alloc: Global, text: &str, config: &Config) -> Result<List<Coming>, Stop>
    requires says { said greatest_node text.now ≡ Ok (settings_of config.now) }
    ensures says { IfOk result (λ changes. changes_said greatest_node text.now ≡ Ok (comings_of changes)) }
    ensures of_server { IfOk result (λ changes. IsOfServer (comings_of changes)) }
    ensures causes { IfErr result (IsOfText text.now) }
{
    match read_changes(alloc, text, GREATEST_NODE) {
        Ok(changes) => Ok(changes),
        Err(ConfigFault::NotToml) => Err(Stop::Refused(bad_toml(alloc)?)),
        Err(ConfigFault::Field(name)) => Err(Stop::Refused(bad_field(alloc, name)?)),
        Err(ConfigFault::Memory) => Err(Stop::Memory),
    }
}

/// The region and the keys that a text says for the buckets of its configuration.
fn access_of(alloc: Global, text: &str, config: &Config) -> Result<Access, Stop>
    requires says { said greatest_node text.now ≡ Ok (settings_of config.now) }
    ensures allows { IfOk result (λ access. access_said config.now.buckets text.now ≡ Ok access) }
    ensures causes { (comings : Sequence Said) → changes_said greatest_node text.now ≡ Ok comings → IfErr result (IsOfText text.now) }
{
    match read_access(alloc, text, &config.buckets) {
        Ok(access) => Ok(access),
        Err(ConfigFault::NotToml) => Err(Stop::Refused(bad_toml(alloc)?)),
        Err(ConfigFault::Field(name)) => Err(Stop::Refused(bad_field(alloc, name)?)),
        Err(ConfigFault::Memory) => Err(Stop::Memory),
    }
}

/// Names in order of their bytes.
fn in_order(names: &List<Bytes>) -> Result<List<Bytes>, Memory>
    ensures in_order { IfOk result (AreInOrder names.now) }
    ensures want { OnlyWant result }
{
    let mut names = names.copy()?.into_vec();
    names.as_mut_slice().sort_unstable();
    Ok(List::from_vec(names))
}

/// The layout of roles.
fn laid_out(alloc: Global, roles: &Roles, wanted: Redundancy) -> Result<Certified, Stop>
    requires redundancy { IsRedundancy wanted }
    ensures greatest { IfOk result (λ certified. IsGreatest roles.now.list certified.r certified.size certified.sets.sets) }
    ensures computed { IfOk result (λ certified. AreEnough roles.now.list wanted × IsCertified roles.now.list wanted certified) }
    ensures causes { IfErr result (IsOfRoles roles.now.list wanted) }
{
    match compute(alloc, roles, wanted) {
        Ok(certified) => Ok(certified),
        Err(fault) => Err(Stop::Refused(reason(alloc, roles, &fault)?)),
    }
}

/// A change with its layout.
fn planned_one(alloc: Global, coming: Coming) -> Result<Change, Stop>
    requires within { AreWithin coming.roles.list }
    ensures computed { IfOk result IsComputed }
    ensures same { IfOk result (λ change. coming_in change ≡ coming_of coming) }
    ensures causes { IfErr result (IsOfRoles coming.roles.list coming.redundancy) }
{
    let certified = laid_out(alloc, &coming.roles, coming.redundancy)?;
    Ok(Change {
        after: coming.after,
        redundancy: coming.redundancy,
        shown: Applied {
            certified,
            roles: coming.roles,
        },
    })
}

/// Changes with their layouts, in order.
fn planned(alloc: Global, mut comings: List<Coming>) -> Result<List<Change>, Stop>
    requires of_server { IsOfServer (comings_of comings) }
    ensures computed { IfOk result (AllByRecursion IsComputed) }
    ensures same { IfOk result (λ changes. map coming_in changes ≡ comings_of comings) }
    ensures causes { IfErr result (IsOfComings (comings_of comings)) }
{
    let mut changes = List::new(alloc);
    'comings: while !comings.is_empty() {
        let change = planned_one(alloc, comings.remove(0))?;
        changes.push(change)?;
    }
    Ok(changes)
}

/// The cluster that a text says.
fn plan_of_text(alloc: Global, text: &str) -> Result<Plan, Stop>
    ensures plan { IfOk result IsPlan }
    ensures said { IfOk result (IsSaid text.now) }
    ensures causes { IfErr result (IsOfText text.now) }
{
    let config = configured(alloc, text)?;
    let comings = changes_of(alloc, text, &config)?;
    let access = access_of(alloc, text, &config)?;
    let certified = laid_out(alloc, &config.roles, config.redundancy)?;
    let changes = planned(alloc, comings)?;
    let names = in_order(config.buckets.list())?;
    Ok(Plan {
        config,
        certified,
        buckets: Buckets { names, access },
        changes,
    })
}

/// The cluster that bytes say.
fn plan_of(alloc: Global, bytes: &[u8]) -> Result<Plan, Stop>
    ensures plan { IfOk result IsPlan }
    ensures said { IfOk result (IsSaid bytes.now) }
    ensures causes { IfErr result (IsOfText bytes.now) }
{
    match from_utf8(bytes) {
        Ok(text) => plan_of_text(alloc, text),
        Err(_) => Err(Stop::Refused(bad_toml(alloc)?)),
    }
}

/// Reads the input to its end, or to the first byte past the limit, and then the cluster that it says.
pub fn read_plan<I: Source>(alloc: Global, input: &mut I) -> Result<Plan, Stop>
    // Where the source tells its bytes: the plan is the one that they say, a long input is longer than the limit, and the
    // line of a refusal is the first one that they deserve.
    ensures read { IfOk result (WasRead (I.left input.old)) }
    ensures end { OnOk result (IsAtEnd (I.left input.new)) }
    ensures whole { IfErr result IsTold → IfSome (I.left input.old) (λ bytes. I.left input.new ≡ Some (drop (input_limit + 1) bytes)) }
    ensures causes { IfErr result (IsOfInput (I.left input.old)) }
    ensures fault { result ≡ Err Stop.Read → Rose (I.faults input.old) (I.faults input.new) }
    ensures told { (result ≡ Err Stop.Read) ⊎ (I.faults input.new ≡ I.faults input.old) }
{
    let bytes = read_up_to(alloc, input, INPUT_LIMIT)?;
    if bytes.len() > INPUT_LIMIT {
        return Err(Stop::LongInput);
    }
    let plan = plan_of(alloc, &bytes)?;
    Ok(plan)
}
