//! What a driver of requests calls.
ghost use Rattle.std.specs.Prelude.{◌≡◌, ◌<◌, Some, IsSome, length, IfOk};
ghost use Rattle.crdt_core.specs.Outcomes.{OnlyWant, WantOr};
ghost use Rattle.flow_model.specs.Flow.{started};
ghost use Rattle.flow_model.specs.Next.{next};
ghost use Rattle.flow_model.specs.Overdrawn.{IsOverdrawn};
ghost use Rattle.flow_model.specs.Streams.{need_of, fed, finished, given_up};

use crate::flow::{Flow, FlowStep};
use crate::order::Order;
use block_bytes::Block;
use crdt_core::Memory;
use crdt_rows::AnyRow;
use std::alloc::Global;
use wire_messages::{Phase, PhaseEnd};

/// Requests, phase by phase, by the functions of specs/: all that a driver of requests knows of how they go on.
pub trait Flows: Drop {
    /// Begins the request with this number, at a time when blocks have this size in bytes, which isn't 0: what it waits
    /// for, and the phase whose end it waits for.
    fn start(
        &self,
        alloc: Global,
        order: Order,
        id: u64,
        block: u32,
    ) -> Result<(Flow, Phase<AnyRow>), Memory>
        requires { 0 < block }
        ensures is { IfOk result (λ begun. begun ≡ started order id block) }
        ensures want { OnlyWant result };

    /// What a request does when its phase has ended, at this time of its coordinator's clock in milliseconds. With an
    /// end of another kind than it waits for it waits on. `Full` is answered exactly where a write would draw a
    /// timestamp of 2^64.
    fn next(
        &self,
        alloc: Global,
        flow: Flow,
        end: PhaseEnd<AnyRow>,
        now: u64,
    ) -> Result<FlowStep, Memory>
        requires { 0 < flow.block }
        ensures is { IfOk result (λ step. step ≡ next flow end now) }
        ensures causes { WantOr result (IsOverdrawn flow.id flow.stage end now) }
        ensures never_past { IfOk result (λ step. IsOverdrawn flow.id flow.stage end now → ⊥) };

    /// What a streamed upload does with a block that has come, of as many bytes as it needs.
    fn block(
        &self,
        alloc: Global,
        flow: Flow,
        bytes: Block,
    ) -> Result<(Flow, Phase<AnyRow>), Memory>
        requires { need_of flow ≡ Some (length bytes) }
        ensures is { IfOk result (λ next. fed flow bytes ≡ Some next) }
        ensures want { OnlyWant result };

    /// What it does where all its bytes have come and are to be kept.
    fn finish(&self, alloc: Global, flow: Flow) -> Result<(Flow, Phase<AnyRow>), Memory>
        requires { need_of flow ≡ Some 0 }
        ensures is { IfOk result (λ next. finished flow ≡ Some next) }
        ensures want { OnlyWant result };

    /// What it does where it is given up.
    fn abort(&self, alloc: Global, flow: Flow) -> Result<(Flow, Phase<AnyRow>), Memory>
        requires { IsSome (need_of flow) }
        ensures is { IfOk result (λ next. given_up flow ≡ Some next) }
        ensures want { OnlyWant result };
}
