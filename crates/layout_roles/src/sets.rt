//! Sets of three nodes in order of numbers.
ghost use Rattle.std.specs.Prelude.{◌≡◌, ◌≢◌, IsTrue};
ghost use Rattle.layout_roles.specs.Zones.{set_ascends};
ghost use Rattle.layout_roles.specs.Sets.{in_order};

/// Three nodes in order of numbers.
pub fn in_order(first: u8, second: u8, third: u8) -> [u8; 3]
    ensures nodes { result ≡ in_order first second third }
    ensures ascends { first ≢ second → first ≢ third → second ≢ third →
        IsTrue (set_ascends result) }
{
    let (low, high) = if second < first {
        (second, first)
    } else {
        (first, second)
    };
    if third < low {
        [third, low, high]
    } else if third < high {
        [low, third, high]
    } else {
        [low, high, third]
    }
}
