//! The rows of the store's three tables, and how two of them merge.
//!
//! - An `ObjectRow` has the versions of one object, each with its `State`: Uploading, Aborted, or Complete with
//!   the `Body` that it holds. It has none that is older than its newest complete one, which is the object.
//! - A `VersionRow` has the blocks of one version by their places, or says that the version is deleted.
//! - A `RefRow` says that one version uses one block, or no longer does.
//!
//! An `AnyRow` is one of the three. Each is a `Crdt`: two rows with one row key merge to what both say, and of
//! two with different row keys the one with the greater key stays. Of two states of one version, and of two
//! blocks at one place, the greater stays. Two bodies are ordered as their row bytes are.
//!
//! Seen as facts, an object row is a set of versions with their states. Merging unites two sets, keeps the
//! greatest state of each version, and drops the versions that are older than a complete one, so that the newest
//! complete version is the newer of theirs. `object_rows_join_as_facts` says this, and its like say what merging
//! does to the other rows. Want of memory is the one thing that can stop a copy or a merge; the row is then as it
//! was.
#![tactic(auto)]

mod any_row;
mod body;
mod laws;
mod object_row;
mod ref_row;
mod state;
mod version;
mod version_row;

pub use any_row::AnyRow;
pub use body::{Body, Meta};
pub use laws::{
    object_rows_join_as_facts, reference_rows_join_as_facts, version_rows_join_as_facts,
};
pub use object_row::ObjectRow;
pub use ref_row::RefRow;
pub use state::State;
pub use version::Version;
pub use version_row::{BlockRef, Part, VersionRow};
