//! What a request begins with.
ghost use Rattle.std.specs.Prelude.{◌≡◌, IfOk};
ghost use Rattle.crdt_core.specs.Outcomes.{OnlyWant};
ghost use Rattle.flow_model.specs.Flow.{draws, looks};

use crate::phases::asks_for;
use crate::request::Request;
use crdt_core::Memory;
use crdt_rows::AnyRow;
use flow_model::{Aim, Flow, Name, Stage, Wish};
use std::alloc::Global;
use wire_messages::Phase;

/// A write asks for the row of the object that it writes.
pub fn draws(
    alloc: Global,
    request: Request,
    name: Name,
    wish: Wish,
) -> Result<(Flow, Phase<AnyRow>), Memory>
    ensures is { IfOk result (λ begun. begun ≡ draws request.id request.block name wish) }
    ensures want { OnlyWant result }
{
    let phase = asks_for(alloc, &name)?;
    Ok((request.at(Stage::Drawing { name, wish }), phase))
}

/// A read asks for the object's row.
pub fn looks(
    alloc: Global,
    request: Request,
    name: Name,
    aim: Aim,
) -> Result<(Flow, Phase<AnyRow>), Memory>
    ensures is { IfOk result (λ begun. begun ≡ looks request.id request.block name aim) }
    ensures want { OnlyWant result }
{
    let phase = asks_for(alloc, &name)?;
    Ok((request.at(Stage::Looking { name, aim }), phase))
}
