//! Tests of signatures: keyed digests, signatures of texts, checked requests, dates of requests, and keys of configurations. It has no
//! code of its own.
#![tactic(auto)]

#[cfg(test)]
mod checks;
#[cfg(test)]
mod configs;
#[cfg(test)]
mod dates;
#[cfg(test)]
mod fixtures;
#[cfg(test)]
mod requests;
#[cfg(test)]
mod signatures;
