//! Tests of `serve`, over its call: objects whose bytes come and go block by block. It has no code of its own.
#![tactic(auto)]

#[cfg(test)]
mod blocks;
#[cfg(test)]
mod uploads;
