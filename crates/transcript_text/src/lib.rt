//! Reads the lines of a transcript: what each of them says.
//!
//! `said` reads one line. It is cut at its spaces; its first word says what it tells of (`line_kind`), or is the number of an
//! event's line (`event`). Words are numbers and digests (`numbers`), versions and answers (`answers`), and vertices of a cut
//! (`vertices`), each spelled in one way and in its range; `parts` are the words of lines behind their first one. What is read is exactly what the line says, as audit_model has it.
#![tactic(auto)]

mod answers;
mod event;
mod line;
mod line_kind;
mod numbers;
mod parts;
mod vertices;

pub use audit_model::{Answered, Said, Told};
pub use line::said;
