//! A range phase.
ghost use Rattle.std.specs.Prelude.{◌≡◌, ℕ, Option, Some, None, List, [], ◌∷◌, ◌++◌, option_map, IfOk, OnOk, OnErr};
ghost use Rattle.crdt_core.specs.Outcomes.{OnlyWant};
ghost use Rattle.quorum_model.specs.Answers.{first_two_at};
ghost use Rattle.quorum_model.specs.Window.{window};
ghost use Rattle.quorum_model.specs.declared.range.RangeAnswer.{RangeAnswer};
ghost use Rattle.read_call.specs.Stands.{RangeStands, shown};

use crate::progress::{Progress, is_asked};
use crate::window::window;
use crdt_core::{Bytes, List, Memory};
use quorum_model::RangeAnswer;
use std::alloc::Global;
use std::mem;
use table_schema::Schema;

/// A range phase as it waits for two of three nodes' rows.
#[derive(Drop)]
pub struct RangeCall<S: Schema> {
    nodes: [u8; 3],
    progress: Progress<RangeAnswer<S::Row>>,
}

impl<S: Schema> RangeCall<S> {
    /// Takes no memory.
    pub fn new(nodes: [u8; 3]) -> RangeCall<S>
        ensures { RangeStands result nodes [] }
    {
        RangeCall {
            nodes,
            progress: Progress::Asked,
        }
    }

    /// A node answers with its first rows of the range, in ascending order of keys, and says whether it has more: the
    /// window of the two answers, exactly where the node is the second one of those asked. Its end is a row key
    /// without the 32 bytes of the position. A call that wanted memory is as it was.
    pub fn answer(
        &mut self,
        alloc: Global,
        node: u8,
        rows: Vec<S::Row>,
        more: bool,
    ) -> Result<Option<(Vec<S::Row>, Option<Bytes>)>, Memory>
        ensures window { (nodes : List ℕ) (answers : List (ℕ × RangeAnswer S.Row)) →
            RangeStands self.old nodes answers →
            IfOk result (λ given. option_map shown given ≡ option_map (window S.Row.join S.words) (first_two_at nodes answers (node, record { rows = rows.items; more = more }))) }
        ensures stands { (nodes : List ℕ) (answers : List (ℕ × RangeAnswer S.Row)) →
            RangeStands self.old nodes answers →
            OnOk result (RangeStands self.new nodes (answers ++ (node, record { rows = rows.items; more = more }) ∷ [])) }
        ensures unchanged { OnErr result (self.new ≡ self.old) }
        ensures want { OnlyWant result }
    {
        if !is_asked(&self.nodes, node) {
            return Ok(None);
        }
        let answer = RangeAnswer {
            rows: List::from_vec(rows),
            more,
        };
        match mem::replace(&mut self.progress, Progress::Over) {
            Progress::Over => Ok(None),
            Progress::Asked => {
                self.progress = Progress::Answered(node, answer);
                Ok(None)
            }
            Progress::Answered(first, have) => {
                if first == node {
                    self.progress = Progress::Answered(first, have);
                    return Ok(None);
                }
                match window::<S>(alloc, &have, answer) {
                    Ok(given) => Ok(Some(given)),
                    Err(e) => {
                        self.progress = Progress::Answered(first, have);
                        Err(e)
                    }
                }
            }
        }
    }
}
