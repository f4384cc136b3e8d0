//! Tests of rows and of the tables that keep them: digests, merges, row bytes, rows as the cluster sees them. It has
//! no code of its own.
#![tactic(auto)]

#[cfg(test)]
mod digests;
#[cfg(test)]
mod made;
#[cfg(test)]
mod merges;
#[cfg(test)]
mod placed;
#[cfg(test)]
mod row_bytes;
#[cfg(test)]
mod rows;
#[cfg(test)]
mod tables;
#[cfg(test)]
mod tries;
