// Whole pieces of what a connection is sent.
ghost use Rattle.std.specs.Prelude.{◌≡◌, ◌≤◌, IsSome};
ghost use Rattle.lab_outside.specs.Connection.{OnPresent, WritesWhole};
ghost use Rattle.lab_outside.specs.Links.{Stays};

use crate::ports::{Failed, Link};

/// Writes all the bytes to the connection that is present.
pub fn send_whole<L: Link>(link: &mut L, bytes: &[u8]) -> Result<(), Failed>
    requires { IsSome (L.present link.old) }
    ensures present { IsSome (L.present link.new) }
    ensures writes { OnPresent (WritesWhole result bytes.now) (L.present link.old)
        (L.present link.new) }
    ensures stays { Stays L.Link link.old link.new }
{
    let mut rest = bytes;
    'writes: while !rest.is_empty() {
        match link.write(rest) {
            Ok(count) => rest = &rest[count..],
            Err(failed) => return Err(failed),
        }
    }
    Ok(())
}
