//! What is written of a replay.

/// What is written of a replay.
#[derive(Clone, Copy, Debug, PartialEq, Eq)]
pub enum Account {
    /// What each event tells, the lines of the nodes, and the last line.
    Transcript,
    /// The same, with the line of a check of all answered reads before the last line.
    Checked,
    /// Of a workload of so many events from a seed: how its requests ended, how many layout versions were applied, the
    /// lines of the nodes, the line of a check, and the last line.
    Summary { count: u32, seed: u64 },
}
