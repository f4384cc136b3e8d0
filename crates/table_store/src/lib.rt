//! One node's rows: of each table number and key the merge of all rows that the node accepted there.
//!
//! To contracts a `Table` is the list of its rows, in order of table, then of key. `take_in` merges one row into that
//! list, and `merge_in` a copy of one; `get`, `range` and `rows_of` read it, `drop_partition` takes a partition's rows
//! out of it, `len` counts them, and `top` is the hash over the roots of all partitions. What these words mean stands
//! in table_model's specs/, for any rows that have a schema. There it is also proved that the list after any merges and
//! drops holds at each place the join of the rows accepted there, and depends on the set of the rows accepted alone.
//!
//! Inside, each of the three tables is an ordered map by row key, so that a look-up is logarithmic and a range
//! proportional to what it gives. Beside it stands an index (src/index.rt): of each partition the keys of its rows in
//! order, and their trie. So `rows_of` and `drop_partition` take a look-up for each row that they give or drop, and
//! next to nothing where a partition has none. `take_in` takes one look-up where a row is there, whose partition it
//! keeps, and notes in the index that the row changed.
//!
//! Of table 1 there is a second index (src/markers.rt): the keys of the rows that have nothing but a delete marker, by
//! the markers' timestamps. So `add_marked` looks at no other rows.
//!
//! The tries are brought up to the rows when they are asked (src/settling.rt): by `settle`, and of one partition by
//! `value`, `children` and `answer`. A row that changes many times between two such calls is hashed once.
#![tactic(auto)]

mod index;
mod markers;
mod noted;
mod root;
mod roots;
mod settling;
mod shelf;
mod table;
mod window;

pub use shelf::Taken;
pub use table::Table;
pub use table_model::Change;
