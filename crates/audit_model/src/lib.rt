//! What a transcript says, line by line, and how it is judged against a schedule, as definitions.
//!
//! `Said` is what one line says. In specs/: the words of each line and what they may be, so which line says what
//! (`Lines`), and the same as a function (`Reading`); what an account of requests the lines of a transcript give, and
//! which is the first line that can't be read (`Heard`); what is staged when a layout is printed, and which layout the
//! lines print (`Printed`); and what an audit finds (`Audit`).
#![tactic(auto)]

mod said;

pub use said::{Answered, Said, Told};
