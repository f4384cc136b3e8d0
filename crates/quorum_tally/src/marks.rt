//! The three nodes of a set, and which of them have confirmed.
ghost use Rattle.std.specs.Prelude.{◌≡◌, ◌||◌, ◌==◌, false};
ghost use Rattle.quorum_tally.specs.Marks.{unmarked, mark_after, marks_after, nodes_of, has_two};

/// A node of a set, and whether it has confirmed.
#[derive(Clone, Copy)]
pub struct Mark {
    pub node: u8,
    pub is_confirmed: bool,
}

/// The nodes of a set, each with its mark.
#[derive(Clone, Copy)]
pub struct Marks {
    pub first: Mark,
    pub second: Mark,
    pub third: Mark,
}

impl Mark {
    fn new(node: u8) -> Mark
        ensures { result ≡ unmarked node }
    {
        Mark {
            node,
            is_confirmed: false,
        }
    }

    fn after(self, node: u8) -> Mark
        ensures { result ≡ mark_after node self }
    {
        Mark {
            node: self.node,
            is_confirmed: self.is_confirmed || node == self.node,
        }
    }
}

impl Marks {
    pub fn new(set: &[u8; 3]) -> Marks
        ensures nodes { nodes_of result ≡ set.now }
        ensures first { result.first ≡ unmarked result.first.node }
        ensures second { result.second ≡ unmarked result.second.node }
        ensures third { result.third ≡ unmarked result.third.node }
    {
        Marks {
            first: Mark::new(set[0]),
            second: Mark::new(set[1]),
            third: Mark::new(set[2]),
        }
    }

    /// The marks after a node confirmed. A node outside the set changes nothing.
    pub fn after(self, node: u8) -> Marks
        ensures { result ≡ marks_after node self }
    {
        Marks {
            first: self.first.after(node),
            second: self.second.after(node),
            third: self.third.after(node),
        }
    }

    /// Two of the three have confirmed.
    pub fn has_two(self) -> bool
        ensures { result ≡ has_two self }
    {
        let (a, b, c) = (
            self.first.is_confirmed,
            self.second.is_confirmed,
            self.third.is_confirmed,
        );
        (a && b) || (a && c) || (b && c)
    }
}
