//! A request as it is signed by AWS Signature Version 4: its canonical form.
//!
//! `canonical_request` puts the method, the path, the parameters, the signed headers and what is said of the body
//! under one another: names and values are decoded and encoded anew, parameters come in order, spaces in headers
//! are one. `fields_of` gives the headers with their names in lower case, `values_of` the values of one name, and
//! `may_be_signed` says which lists of names a signature may cover. `parts`, `behind`, `unspaced` and `is_digest`
//! read the texts of headers. Each call is its definition, and gives up for want of memory alone.
#![tactic(auto)]

mod canonical;
mod fields;
mod query;
mod texts;

pub use crate::canonical::canonical_request;
pub use crate::fields::{fields_of, may_be_signed, values_of};
pub use crate::query::Parameter;
pub use crate::texts::{behind, is_digest, parts, unspaced};
