//! Which nodes have confirmed.
ghost use Rattle.std.specs.Prelude.{◌≡◌};
ghost use Rattle.quorum_model.specs.Quorum.{is_among, two_of};

/// The node is one of these.
pub fn is_among(node: u8, nodes: &[u8]) -> bool
    ensures { result ≡ is_among node nodes.now }
{
    nodes.iter().any(|other| *other == node)
}

/// Two nodes of the set are among these.
pub fn has_two(set: &[u8; 3], nodes: &[u8]) -> bool
    ensures { result ≡ two_of set.now nodes.now }
{
    set.iter().filter(|node| is_among(**node, nodes)).count() >= 2
}
