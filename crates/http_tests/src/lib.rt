//! Tests of what the program is connected to, and of HTTP over it. It has no code of its own.
#![tactic(auto)]

#[cfg(test)]
mod bodies;
#[cfg(test)]
mod edge;
#[cfg(test)]
mod fixtures;
#[cfg(test)]
mod heads;
#[cfg(test)]
mod outside;
