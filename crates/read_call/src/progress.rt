//! How far the answers have brought a call.
ghost use Rattle.std.specs.Prelude.{◌≡◌};
ghost use Rattle.quorum_model.specs.Quorum.{is_among};

/// Whether two different nodes have answered, and the first answer until then.
#[derive(Drop)]
pub enum Progress<A> {
    /// No node has answered.
    Asked,
    /// This node has, once or more often, first with this.
    Answered(u8, A),
    /// Two different nodes have.
    Over,
}

pub fn is_asked(nodes: &[u8; 3], node: u8) -> bool
    ensures { result ≡ is_among node nodes.now }
{
    nodes.contains(&node)
}
