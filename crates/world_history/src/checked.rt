//! Whether the reads of a history are fresh and how much there was to check, told from one table of its writes.
ghost use Rattle.std.specs.Prelude.{◌≡◌, ◌-◌, ◌^◌, ◌↔◌, min, IsTrue, IfOk};
ghost use Rattle.crdt_core.specs.Outcomes.{OnlyWant};
ghost use Rattle.history_model.specs.Fresh.{Fresh};
ghost use Rattle.history_model.specs.Pairs.{pair_count};

use crate::freshness::first_of;
use crate::pair_count::pairs_of;
use crate::past::Past;
use crdt_core::Memory;
use history_model::History;
use std::alloc::Global;

/// What `fresh` and `pairs` say of a history.
#[derive(Clone, Copy)]
pub struct Checked {
    /// Whether each finished read shows what it owes.
    pub is_fresh: bool,
    /// How many pairs there are of a finished read and a write that it owes something: 2^64 - 1 where there are more.
    pub pairs: u64,
}

/// What `fresh` and `pairs` say, for the memory of `fresh` and with each record sorted once.
pub fn check(alloc: Global, h: &History) -> Result<Checked, Memory>
    ensures fresh { IfOk result (λ checked. IsTrue checked.is_fresh ↔ Fresh h.now.0) }
    ensures counted { IfOk result (λ checked. checked.pairs ≡ min (pair_count h.now.0) (2 ^ 64 - 1)) }
    ensures want { OnlyWant result }
{
    let past = Past::new(alloc, h.0.as_slice())?;
    Ok(Checked {
        is_fresh: first_of(&past).is_none(),
        pairs: pairs_of(&past.table),
    })
}
