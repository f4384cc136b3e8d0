//! A read phase.
ghost use Rattle.std.specs.Prelude.{◌≡◌, ℕ, Option, List, [], ◌∷◌, ◌++◌, option_map, IfOk, OnOk, OnErr};
ghost use Rattle.crdt_core.specs.Outcomes.{OnlyWant};
ghost use Rattle.crdt_core.specs.Order.{option_join};
ghost use Rattle.quorum_model.specs.Answers.{merged, first_two_at};
ghost use Rattle.read_call.specs.Stands.{ReadStands};

use crate::progress::{Progress, is_asked};
use crdt_core::{Crdt, Memory};
use std::mem;

/// A read phase as it waits for two of three nodes' rows.
#[derive(Drop)]
pub struct ReadCall<R: Crdt> {
    nodes: [u8; 3],
    progress: Progress<Option<R>>,
}

impl<R: Crdt> ReadCall<R> {
    /// Takes no memory.
    pub fn new(nodes: [u8; 3]) -> ReadCall<R>
        ensures { ReadStands result nodes [] }
    {
        ReadCall {
            nodes,
            progress: Progress::Asked,
        }
    }

    /// A node answers with the row that it has, if any: the two answers merged, exactly where the node is the second
    /// one of those asked. A call that wanted memory is as it was.
    pub fn answer(&mut self, node: u8, row: Option<R>) -> Result<Option<Option<R>>, Memory>
        ensures value { (nodes : List ℕ) (answers : List (ℕ × Option R)) →
            ReadStands self.old nodes answers →
            IfOk result (λ value. value ≡ option_map (merged R.join) (first_two_at nodes answers (node, row))) }
        ensures stands { (nodes : List ℕ) (answers : List (ℕ × Option R)) →
            ReadStands self.old nodes answers →
            OnOk result (ReadStands self.new nodes (answers ++ (node, row) ∷ [])) }
        ensures unchanged { OnErr result (self.new ≡ self.old) }
        ensures want { OnlyWant result }
    {
        if !is_asked(&self.nodes, node) {
            return Ok(None);
        }
        match mem::replace(&mut self.progress, Progress::Over) {
            Progress::Over => Ok(None),
            Progress::Asked => {
                self.progress = Progress::Answered(node, row);
                Ok(None)
            }
            Progress::Answered(first, mut have) => {
                if first == node {
                    self.progress = Progress::Answered(first, have);
                    return Ok(None);
                }
                match take_in(&mut have, row) {
                    Ok(()) => Ok(Some(have)),
                    Err(e) => {
                        self.progress = Progress::Answered(first, have);
                        Err(e)
                    }
                }
            }
        }
    }
}

fn take_in<R: Crdt>(have: &mut Option<R>, row: Option<R>) -> Result<(), Memory>
    ensures joined { OnOk result (have.new ≡ option_join R.join have.old row) }
    ensures unchanged { OnErr result (have.new ≡ have.old) }
    ensures want { OnlyWant result }
{
    let Some(row) = row else {
        return Ok(());
    };
    match have {
        Some(have) => have.merge(&row),
        None => {
            *have = Some(row);
            Ok(())
        }
    }
}
