//! The command as one call.
ghost use Rattle.std.specs.Prelude.{◌≡◌, IsUtf8, IfOk};
ghost use Rattle.crdt_core.specs.Outcomes.{OnlyWant};
ghost use Rattle.layout_roles.specs.Certificates.{IsRedundancy};
ghost use Rattle.layout_text.specs.Settings.{settings_of};
ghost use Rattle.layout_command.specs.Answer.{IsLaidOut, IsAnswer};

use crate::refusals::{bad_field, bad_toml, reason};
use crdt_core::{Bytes, Memory};
use lab_outside::Status;
use layout_size::compute;
use layout_text::{Config, ConfigFault, layout_lines, read_config};
use std::alloc::Global;
use std::str::from_utf8;

// The greatest node of a layout.
pub(crate) const GREATEST_NODE: u8 = 64;

/// What the command answers.
#[derive(Debug, Drop)]
pub struct Reply {
    /// `Done` with a layout, `Refused` with the reason why there is none.
    pub status: Status,
    pub text: Bytes,
}

/// The answer where there is no layout, with the reason.
pub(crate) fn refused(text: Bytes) -> Reply
    ensures status { result.status ≡ Status.Refused }
    ensures text { result.text ≡ text }
{
    Reply {
        status: Status::Refused,
        text,
    }
}

// Lays out the roles of a configuration.
fn lay_out(alloc: Global, config: &Config) -> Result<Reply, Memory>
    requires { IsRedundancy config.now.redundancy }
    ensures stated { IfOk result
        (λ reply. IsLaidOut (settings_of config.now) reply.status reply.text) }
    ensures want { OnlyWant result }
{
    match compute(alloc, &config.roles, config.redundancy) {
        Ok(certified) => {
            let text = layout_lines(alloc, &certified, &config.roles)?;
            Ok(Reply {
                status: Status::Done,
                text,
            })
        }
        Err(fault) => Ok(refused(reason(alloc, &config.roles, &fault)?)),
    }
}

// What the command answers to a text.
fn answer_text(alloc: Global, text: &str) -> Result<Reply, Memory>
    ensures stated { IfOk result (λ reply. IsUtf8 text.now →
        IsAnswer text.now reply.status reply.text) }
    ensures want { OnlyWant result }
{
    match read_config(alloc, text, GREATEST_NODE) {
        Ok(config) => lay_out(alloc, &config),
        Err(ConfigFault::NotToml) => Ok(refused(bad_toml(alloc)?)),
        Err(ConfigFault::Field(name)) => Ok(refused(bad_field(alloc, name)?)),
        Err(ConfigFault::Memory) => Err(Memory::Want),
    }
}

/// What the command answers to an input: the layout of the nodes that it says, or why there is none.
pub fn answer(alloc: Global, input: &[u8]) -> Result<Reply, Memory>
    ensures stated { IfOk result (λ reply. IsAnswer input.now reply.status reply.text) }
    ensures want { OnlyWant result }
{
    match from_utf8(input) {
        Ok(text) => answer_text(alloc, text),
        Err(_) => Ok(refused(bad_toml(alloc)?)),
    }
}
