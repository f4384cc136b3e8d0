//! The steps of a layout change, as definitions in specs/: which nodes show their views to which, which do one thing one
//! after the other, and which take part. For any rows and any layouts.
#![tactic(auto)]
