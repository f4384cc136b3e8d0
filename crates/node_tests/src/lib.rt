//! Tests of nodes and of the world, over the rows of the object store. It has no code of its own.
#![tactic(auto)]

#[cfg(test)]
mod tests;
#[cfg(test)]
mod times;
