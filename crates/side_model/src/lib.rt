//! The set of vertices that a list names, as a definition: a cut's side as it is printed.
#![tactic(auto)]
