//! Answers of events.
ghost use Rattle.std.specs.Prelude.{◌≡◌, option_map, Some, None, [], IfOk};
ghost use Rattle.crdt_core.specs.Outcomes.{OnlyWant};
ghost use Rattle.cluster_machine.specs.declared.step.Words.TheVariants.{Empty};
ghost use Rattle.k2v_model.specs.declared.line.ItemRefusal.TheVariants.{Cluster as OfCluster};
ghost use Rattle.k2v_model.specs.Run.{cluster_lines};

use cluster_machine::Words;
use cluster_machine::applied::{Line, Refusal};
use crdt_core::{List, Memory};
use k2v_model::{ItemLine, ItemRefusal};
use k2v_text::ItemTold;
use std::alloc::Global;

/// An event that was accepted, and has no words.
pub fn accepted(lines: List<ItemLine>) -> ItemTold
    ensures { result ≡ record { refused = None; words = Empty; lines = lines } }
{
    ItemTold {
        refused: None,
        words: Words::Empty,
        lines,
    }
}

/// Nothing happened, for this reason.
pub fn refusal(alloc: Global, reason: ItemRefusal) -> ItemTold
    ensures { result ≡ record { refused = Some reason; words = Empty; lines = [] } }
{
    ItemTold {
        refused: Some(reason),
        words: Words::Empty,
        lines: List::new(alloc),
    }
}

/// Why a step of the cluster was refused, as a refusal of a run over items.
pub fn of_cluster(refused: Option<Refusal>) -> Option<ItemRefusal>
    ensures { result ≡ option_map OfCluster refused }
{
    match refused {
        Some(reason) => Some(ItemRefusal::Cluster(reason)),
        None => None,
    }
}

/// Lines of the cluster, as lines of a run over items.
pub fn cluster_lines(alloc: Global, lines: List<Line>) -> Result<List<ItemLine>, Memory>
    ensures lines { IfOk result (λ all. all ≡ cluster_lines lines) }
    ensures want { OnlyWant result }
{
    let mut all = List::new(alloc);
    for line in lines.into_vec() {
        all.push(ItemLine::Cluster(line))?;
    }
    Ok(all)
}
