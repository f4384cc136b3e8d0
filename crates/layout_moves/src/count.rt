//! How many copies an assignment moves.
ghost use Rattle.std.specs.Prelude.{◌≡◌, ℕ, ◌≤◌, length};
ghost use Rattle.layout_moves.specs.Moves.{new_nodes, moves};

use crate::sets::has;

// How many nodes of a set the old one hasn't.
fn new_in(old: &[u8; 3], set: &[u8; 3]) -> u32
    ensures news { result ≡ new_nodes old.now set.now }
    ensures few { result ≤ 3 }
{
    let mut count = 0;
    for node in set {
        if !has(old, *node) {
            count += 1;
        }
    }
    count
}

/// How many pairs of partition and node the old sets haven't.
pub fn count_moves(old: &[[u8; 3]], sets: &[[u8; 3]]) -> u32
    requires old { length old.now ≡ 256 }
    requires sets { length sets.now ≡ 256 }
    ensures { result ≡ moves old.now sets.now }
{
    let mut count = 0;
    for p in 0..256 {
        count += new_in(&old[p], &sets[p]);
    }
    count
}
