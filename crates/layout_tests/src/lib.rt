//! Tests of layouts: what is computed for roles and its text, the command `layout`, and what a node knows of layout
//! versions. It has no code of its own.
#![tactic(auto)]

#[cfg(test)]
mod changes;
#[cfg(test)]
mod commands;
#[cfg(test)]
mod configs;
#[cfg(test)]
mod faults;
#[cfg(test)]
mod judged;
#[cfg(test)]
mod made;
#[cfg(test)]
mod moves;
#[cfg(test)]
mod moves_commands;
#[cfg(test)]
mod networks;
#[cfg(test)]
mod printing;
#[cfg(test)]
mod sizes;
#[cfg(test)]
mod versions;
#[cfg(test)]
mod views;
