//! What a step answers.
use cluster_machine::Words;
use cluster_machine::applied::{Line, Refusal};
use crdt_core::List;
use wire_messages::PhaseEnd;

/// What a step answers: why it was refused, or its words, what happened, the phases that ended with their requests, in
/// order, and the requests that a restart lost, ascending.
#[derive(Drop)]
pub struct Report<R> {
    pub refused: Option<Refusal>,
    pub words: Words,
    pub lines: List<Line>,
    pub ends: List<(u64, PhaseEnd<R>)>,
    pub lost: List<u64>,
}
