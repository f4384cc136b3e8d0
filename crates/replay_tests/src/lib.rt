//! Tests of replays, over the calls of replay_command and of the crates that read and write its lines. It has no code of its
//! own.
#![tactic(auto)]

#[cfg(test)]
mod collections;
#[cfg(test)]
mod grammar;
#[cfg(test)]
mod layout_changes;
#[cfg(test)]
mod limits;
#[cfg(test)]
mod line_texts;
#[cfg(test)]
mod messages;
#[cfg(test)]
mod request_texts;
#[cfg(test)]
mod restarts;
#[cfg(test)]
mod said_lines;
#[cfg(test)]
mod transcripts;
