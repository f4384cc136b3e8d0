//! Tests of the command `k2v`, over its one call. It has no code of its own.
#![tactic(auto)]

#[cfg(test)]
mod changes;
#[cfg(test)]
mod faults;
#[cfg(test)]
mod limits;
#[cfg(test)]
mod requests;
#[cfg(test)]
mod rows;
#[cfg(test)]
mod runs;
