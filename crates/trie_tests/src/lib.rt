//! Tests of tries, against values from outside, and of walks. It has no code of its own.
#![tactic(auto)]

#[cfg(test)]
mod tries;
#[cfg(test)]
mod walks;
