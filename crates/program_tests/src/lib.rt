//! Tests of `serve` and `workload`, over their calls: a server of S3 over a cluster, and workloads. It has no code of its own.
#![tactic(auto)]

#[cfg(test)]
mod lent;
#[cfg(test)]
mod limits;
#[cfg(test)]
mod links;
#[cfg(test)]
mod served;
#[cfg(test)]
mod workloads;
