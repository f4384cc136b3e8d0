//! A cluster that serves through layout changes, as a store: definitions in specs/. `Acts` has the acts of a change,
//! `Changing` the store that carries out a job and then the change that waited for it.
#![tactic(auto)]
