//! Tests of collections of delete markers, of rows of items, and of lines that are read alone. It has no code of its own.
#![tactic(auto)]

#[cfg(test)]
mod collections;
#[cfg(test)]
mod items;
#[cfg(test)]
mod lines;
