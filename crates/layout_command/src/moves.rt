//! The command with `--moves` as one call.
ghost use Rattle.std.specs.Prelude.{ℕ, ◌≡◌, ◌++◌, ◌<◌, ◌≤◌, List, pos, map, ◌∷◌, IsUtf8, IfOk, Ok, OnOk, IsErr};
ghost use Rattle.crdt_core.specs.Outcomes.{OnlyWant};
ghost use Rattle.layout_roles.specs.Certificates.{IsRedundancy, IsCertified};
ghost use Rattle.layout_roles.specs.Fits.{NodeSet, Fits};
ghost use Rattle.layout_roles.specs.Network.{vertices};
ghost use Rattle.layout_roles.specs.declared.vertex.Vertex.TheVariants.{Source};
ghost use Rattle.layout_text.specs.Settings.{Settings, settings_of, said};
ghost use Rattle.layout_command.specs.Answer.{greatest_node, AreEnough, IsLayout};
ghost use Rattle.layout_command.specs.Moves.{moves_line, moves_text, AreFewest, IsMoved, IsMovesAnswer};

use crate::potentials::append_potentials;
use crate::refusals::{bad_field, bad_toml, reason};
use crate::reply::{GREATEST_NODE, Reply, refused};
use crdt_core::{Bytes, Memory};
use lab_outside::Status;
use layout_moves::{MoveFault, Moved, fewest};
use layout_roles::{Assignment, Certified, Roles, Vertex};
use layout_size::compute;
use layout_text::{Config, ConfigFault, append_number, layout_lines, read_config, read_old};
use std::alloc::Global;
use std::str::from_utf8;

#[tactic(auto, unfolding(crate::specs::Moves::moves_line))]
fn append_moves(out: &mut Bytes, moves: u32) -> Result<(), Memory>
    ensures ok { OnOk result (out.new ≡ out.old ++ moves_line moves) }
    ensures want { OnlyWant result }
{
    out.extend_from_slice(b"moves")?;
    append_number(out, u64::from(moves))?;
    out.push(b'\n')
}

// The sets that move the fewest copies, where some fit the size.
fn fewest_sets(roles: &Roles, certified: &Certified, old: &Assignment) -> Result<Moved, Memory>
    requires low { 1 ≤ certified.now.r }
    requires high { certified.now.r ≤ 3 }
    requires some { 0 < certified.now.size }
    requires fits { Fits roles.now.list certified.now.r certified.now.size certified.now.sets.sets }
    ensures fits { IfOk result
        (λ moved. Fits roles.now.list certified.now.r certified.now.size moved.sets.sets) }
    ensures fewest { IfOk result
        (λ moved. AreFewest roles.now.list certified.now.r certified.now.size old.now.sets moved.sets.sets moved.moves moved.potentials) }
    ensures want { OnlyWant result }
{
    match fewest(roles, certified.r, certified.size, old) {
        Ok(moved) => Ok(moved),
        Err(MoveFault::NoAssignment(_)) => unreachable!(),
        Err(MoveFault::Memory) => Err(Memory::Want),
    }
}

// The text of a layout, of how many copies it moves, and of the potentials that show it.
fn moves_lines(
    alloc: Global,
    certified: &Certified,
    roles: &Roles,
    moves: u32,
    potentials: &[(Vertex, i64)],
) -> Result<Bytes, Memory>
    ensures text { IfOk result
        (λ text. text ≡ moves_text roles.now.list certified.now moves potentials.now) }
    ensures want { OnlyWant result }
{
    let mut text = layout_lines(alloc, certified, roles)?;
    append_moves(&mut text, moves)?;
    append_potentials(&mut text, potentials)?;
    Ok(text)
}

// The layout with the sets that move the fewest copies in place of its own.
fn with_fewest(
    alloc: Global,
    config: &Config,
    certified: Certified,
    old: &Assignment,
) -> Result<Reply, Memory>
    requires redundancy { IsRedundancy config.now.redundancy }
    requires enough { AreEnough (settings_of config.now) }
    requires layout { IsLayout (settings_of config.now) certified }
    ensures stated { IfOk result
        (λ reply. IsMoved (settings_of config.now) old.now.sets reply.status reply.text) }
    ensures want { OnlyWant result }
{
    let moved = fewest_sets(&config.roles, &certified, old)?;
    let certified = Certified {
        r: certified.r,
        size: certified.size,
        sets: moved.sets,
        cut: certified.cut,
    };
    let potentials = moved.potentials.as_slice();
    let text = moves_lines(alloc, &certified, &config.roles, moved.moves, potentials)?;
    Ok(Reply {
        status: Status::Done,
        text,
    })
}

// Lays out the roles of a configuration with the fewest moves.
fn move_copies(alloc: Global, config: &Config, old: &Assignment) -> Result<Reply, Memory>
    requires { IsRedundancy config.now.redundancy }
    ensures stated { IfOk result
        (λ reply. IsMoved (settings_of config.now) old.now.sets reply.status reply.text) }
    ensures want { OnlyWant result }
{
    match compute(alloc, &config.roles, config.redundancy) {
        Ok(certified) => with_fewest(alloc, config, certified, old),
        Err(fault) => Ok(refused(reason(alloc, &config.roles, &fault)?)),
    }
}

// What the command answers to a text that says settings.
fn with_old(alloc: Global, config: &Config, text: &str) -> Result<Reply, Memory>
    requires redundancy { IsRedundancy config.now.redundancy }
    requires said { said greatest_node text.now ≡ Ok (settings_of config.now) }
    ensures stated { IfOk result (λ reply. IsUtf8 text.now →
        IsMovesAnswer text.now reply.status reply.text) }
    ensures want { OnlyWant result }
{
    match read_old(alloc, text) {
        Ok(old) => move_copies(alloc, config, &old),
        Err(ConfigFault::NotToml) => unreachable!(),
        Err(ConfigFault::Field(name)) => Ok(refused(bad_field(alloc, name)?)),
        Err(ConfigFault::Memory) => Err(Memory::Want),
    }
}

// What the command answers to a text.
fn moves_answer_text(alloc: Global, text: &str) -> Result<Reply, Memory>
    ensures stated { IfOk result (λ reply. IsUtf8 text.now →
        IsMovesAnswer text.now reply.status reply.text) }
    ensures want { OnlyWant result }
{
    match read_config(alloc, text, GREATEST_NODE) {
        Ok(config) => with_old(alloc, &config, text),
        Err(ConfigFault::NotToml) => Ok(refused(bad_toml(alloc)?)),
        Err(ConfigFault::Field(name)) => Ok(refused(bad_field(alloc, name)?)),
        Err(ConfigFault::Memory) => Err(Memory::Want),
    }
}

/// What the command answers to an input with `--moves`: of the layouts of the greatest partition size one that moves
/// the fewest copies from the old sets, with how many it moves and the potentials that show it, or why there is none.
pub fn moves_answer(alloc: Global, input: &[u8]) -> Result<Reply, Memory>
    ensures stated { IfOk result (λ reply. IsMovesAnswer input.now reply.status reply.text) }
    ensures want { OnlyWant result }
{
    match from_utf8(input) {
        Ok(text) => moves_answer_text(alloc, text),
        Err(_) => Ok(refused(bad_toml(alloc)?)),
    }
}
