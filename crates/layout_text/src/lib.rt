//! A cluster's configuration in TOML, and the text of the layout that is computed for it.
//!
//! `read_config` reads which nodes there are: the settings that a text says, or why it says none, which is the
//! first bad field in the order in which they are looked at. `read_old` reads the sets of an older layout from the
//! tables `old` of the same text. `layout_lines` writes a computed layout as an
//! operator reads it: the partition size, the redundancy, the sets of the partitions (`set_lines`), and a cut
//! of the flow network for the next size (`cut_lines`), which shows that no greater size is possible. Equal
//! neighbours share a line: `longest_runs` says that no line could be longer.
//!
//! `read_changes` reads which other roles the cluster gets while it is served, and after how many requests.
//! `read_access` reads which keys may sign requests, and for which region.
//!
//! `append_word` and `append_number` write a word or a number after one space, and `run_length` finds the runs of
//! other lines.
//!
//! Each call gives exactly what the definition of its contract says, and fails else only for want of memory.
#![tactic(auto)]

mod change;
mod changes;
mod config;
mod cut;
mod keys;
mod laws;
mod lines;
mod old;
mod read;
mod runs;
mod sets;
mod values;
mod words;

pub use change::Change;
pub use changes::read_changes;
pub use config::{Config, ConfigFault, FieldName};
pub use cut::{cut_lines, is_in_partition};
pub use keys::{Access, Key, read_access};
pub use laws::longest_runs;
pub use lines::layout_lines;
pub use old::read_old;
pub use read::read_config;
pub use runs::run_length;
pub use sets::set_lines;
pub use words::{append_number, append_word};
