//! A request's number and the size of its blocks.
ghost use Rattle.std.specs.Prelude.{◌≡◌};
ghost use Rattle.flow_model.specs.Next.{more};
ghost use Rattle.flow_model.specs.declared.flow.FlowStep.TheVariants as step;

use crdt_rows::AnyRow;
use flow_model::{Flow, FlowStep, Stage};
use wire_messages::Phase;

/// What stays of a request from phase to phase: its number, and the size of blocks in bytes.
#[derive(Clone, Copy)]
pub struct Request {
    pub id: u64,
    pub block: u32,
}

impl Request {
    /// The request at this stage.
    pub fn at(self, stage: Stage) -> Flow
        ensures { result ≡ record { id = self.id; block = self.block; stage = stage } }
    {
        Flow {
            id: self.id,
            block: self.block,
            stage,
        }
    }

    /// The request goes on so.
    pub fn more(self, stage: Stage, phase: Phase<AnyRow>) -> FlowStep
        ensures { result ≡ more self.id self.block stage phase }
    {
        FlowStep::More(self.at(stage), phase)
    }

    /// The request waits on.
    pub fn waits(self, stage: Stage) -> FlowStep
        ensures { result ≡ step.Wait (record { id = self.id; block = self.block; stage = stage }) }
    {
        FlowStep::Wait(self.at(stage))
    }
}
