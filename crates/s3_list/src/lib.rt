//! ListObjectsV2 (Amazon S3 API reference) without its texts: which entries a page shows.
//!
//! `page` takes the rows of a bucket in the order of their keys, and what is asked. It gives exactly the page of
//! s3_model's `page_of`: the objects whose keys have the prefix and are past the start, those with the delimiter
//! past the prefix under one common prefix each, and of all these as many as are asked. It looks at each row once,
//! and at none past the first entry that isn't shown. It fails only for want of memory.
#![tactic(auto)]

mod entry;
mod key;
mod pages;

pub use crate::pages::page;
