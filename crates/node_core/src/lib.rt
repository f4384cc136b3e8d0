//! One node of the cluster: what it knows of the layout versions, its rows and their blocks, its open requests, its
//! round, and the rows that wait to be stored at other nodes.
//!
//! A `Node` stands for a node of the machine (`cluster_machine`), by `StandsFor` of specs/Stands.antt, and each call
//! is that node's part of a step: `open`, `phase` and `close` for requests, `on_packet` for what comes from another
//! node, `local` for what a node does by itself, `append` and `restart`. Whatever node of the model it stood for
//! before, it stands for the one that the model's function gives, and has put the model's messages at the end of `out`.
//! Rows are known by their schema alone.
//!
//! Inside are the parts of `node_parts`: rows, blocks and outbox, open requests, rounds. A message costs the logarithm
//! of the rows, of the blocks and of the requests; where the oldest version rises, and where a round or a repair
//! begins, all partitions are visited once; `Action::Work` visits the outbox and the blocks once. A round and a repair
//! walk down the tries of the rows with other nodes (src/walking.rt), and push what differs.
//!
//! A row that needs a block comes with it (`PacketCarriesBlocks`), and goes with it to other nodes. The node keeps the
//! block as long as a row needs it; `Action::Work` deletes blocks that none has needed for ten minutes.
//!
//! A node collects delete markers with all others (src/collecting.rt): `Action::Collect` begins collections and goes on
//! with them, and where a packet made it drop a row, `dropped` hands out that row's marker.
//!
//! After `Memory` in `phase`, `on_packet` or `local` the node is given up. `Full` comes only where a number or a row
//! would not fit (`Fits`).
#![tactic(auto)]

mod collecting;
mod node;
mod walking;

pub use node::{BeginFault, Node};
pub use node_parts::{Envelope, Packet};
