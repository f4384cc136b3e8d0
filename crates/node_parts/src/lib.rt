//! The parts of a node: its rows, outbox and blocks, its open requests, its rounds, and what it sends. `node_core`
//! puts them together.
//!
//! Each part stands for its part of a node of the machine (`cluster_machine`), by a relation of specs/: `Contents` for
//! the accepted rows, the items that wait and the blocks (`IsContents`), `Calls` for the open requests, the newest
//! first (`AreCalls`), and `Rounds` for the open round, the count of rounds, the last repair and the last round with
//! their walks (`AreRounds`). Their calls are the
//! machine's functions of the same part. What is sent goes to the end of a list of envelopes (`Posts`).
//!
//! A block is kept beside the rows that need it: each row is accepted with the block that came with it, and a reference
//! begins and ends as the row that stands at its place needs a block. Those that none needs for long enough are deleted
//! by `delete_due`.
//!
//! `Beginning` begins a phase of a request: it sends the first messages and gives the phase. `Sender` walks down the
//! node's rows with other nodes in a round or a repair: it asks for values at prefixes of key hashes, and pushes the rows
//! that differ, with their blocks. `Walks` are the open walks, by partition and node; a round and a repair have theirs,
//! and a round that is complete keeps them. `Collector` goes on with a node's collections of delete markers (table_gc),
//! and `Contents` merges tombstones and drops rows that were collected (src/tombs.rt). The rest reads a view: the sets
//! of a partition in the stored versions, and who is a member or keeps copies.
#![tactic(auto)]

mod begin;
mod call;
mod calls;
mod collector;
mod contents;
mod packet;
mod posts;
mod references;
mod rounds;
mod sender;
mod sets;
mod storage;
mod tombs;
mod tries;
mod walks;

pub use begin::Beginning;
pub use call::{Call, Present};
pub use calls::Calls;
pub use collector::Collector;
pub use contents::Contents;
pub use packet::{Envelope, Packet};
pub use posts::send;
pub use rounds::{Mending, Moving, Rounds};
pub use sender::Sender;
pub use sets::{is_given, is_member, is_stored};
pub use storage::keeps_copies;
pub use walks::{Answer, NodeWalk, Walks};
