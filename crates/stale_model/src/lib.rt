//! Finished reads of a history that aren't fresh, and the one of them that finished first, as definitions.
#![tactic(auto)]
