//! What is found of the layouts that a transcript prints.
use cluster_machine::applied::Applied;
use crdt_core::List;
use layout_roles::Redundancy;

/// A layout that a transcript prints, for the apply in this line of the schedule.
#[derive(Drop)]
pub struct Sheet {
    pub line: u64,
    /// The redundancy that was staged.
    pub wanted: Redundancy,
    pub shown: Applied,
}

/// How the layouts of a transcript are judged.
#[derive(Drop)]
pub enum Judged {
    /// Each is lawful for what was staged.
    Lawful(List<Sheet>),
    /// The first that isn't begins in this line of the transcript.
    Unlawful(u64),
}
