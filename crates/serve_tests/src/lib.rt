//! Tests of `serve`, over its call: servers with keys, or with layout changes to come, and the order of refusals. It has no code of
//! its own.
#![tactic(auto)]

#[cfg(test)]
mod changes;
#[cfg(test)]
mod conversations;
#[cfg(test)]
mod refusals;
#[cfg(test)]
mod signed;
#[cfg(test)]
mod signed_copies;
#[cfg(test)]
mod signed_gets;
#[cfg(test)]
mod signed_more_pairs;
#[cfg(test)]
mod signed_pairs;
#[cfg(test)]
mod signed_refusals;
