//! Tests of what a node keeps while it waits, and of what was told: messages, phases, rounds, outbox, blocks, the
//! history of requests, and the events of a workload. It has no code of its own.
#![tactic(auto)]

#[cfg(test)]
mod blocks;
#[cfg(test)]
mod histories;
#[cfg(test)]
mod messages;
#[cfg(test)]
mod outbox;
#[cfg(test)]
mod phases;
#[cfg(test)]
mod rounds;
#[cfg(test)]
mod workloads;
