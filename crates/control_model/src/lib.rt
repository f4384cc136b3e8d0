//! The control plane of a cluster, as a model: what each node knows of the layout versions, which requests are
//! in flight since which version, which rounds began and completed, and the steps that change this. It knows
//! no rows.
//!
//! In specs/: `World` is what is, `Steps` what may happen, and `Facts` has the words in which `version_laws`
//! says what always holds. A view is one of `view_model`, over any type of layouts that says its version, its
//! members and its sets, and each step does to it what `view_model`'s sentence of that name says. The count of
//! partitions is a parameter.
#![tactic(auto)]
