//! The pieces in which a connection's bytes come.
ghost use Rattle.std.specs.Prelude.{◌≡◌, ◌<◌, ◌≤◌, ◌++◌, [], length, take, drop, IsSome, IfOk};
ghost use Rattle.lab_outside.specs.Connection.{OnPresent};
ghost use Rattle.lab_outside.specs.Links.{Stays};
ghost use Rattle.http_wire.specs.Pieces.{ReadsPiece};

use crate::head::HeadEnd;
use lab_outside::Link;
use std::alloc::Global;

/// How many bytes are read at once.
pub const PIECE_SIZE: usize = 4096;

/// The bytes of a connection that were read too far.
#[derive(Debug, Drop)]
pub struct Kept {
    pub bytes: Vec<u8>,
}

impl Kept {
    /// Nothing, as at the beginning of a connection.
    pub fn new(alloc: Global) -> Kept
        ensures { result.bytes.items ≡ [] }
    {
        Kept {
            bytes: Vec::new(alloc),
        }
    }

    /// Forgets the first `count` bytes. Takes no memory.
    pub(crate) fn remove_front(&mut self, count: usize)
        requires { count ≤ length self.old.bytes.items }
        ensures { self.new.bytes.items ≡ drop count self.old.bytes.items }
    {
        let len = self.bytes.len();
        self.bytes.as_mut_slice().copy_within(count..len, 0);
        self.bytes.truncate(len - count);
    }
}

/// Reads a piece, keeps it behind what is kept, and says how many bytes it has. `piece` is room to read into.
/// Memory is asked for before anything is read, so nothing that was read is lost.
pub fn read_piece<L: Link>(
    link: &mut L,
    kept: &mut Kept,
    piece: &mut [u8],
) -> Result<usize, HeadEnd>
    requires present { IsSome (L.present link.old) }
    requires room { 0 < length piece.old }
    ensures present { IsSome (L.present link.new) }
    ensures grows { IfOk result
        (λ n. kept.new.bytes.items ≡ kept.old.bytes.items ++ take n piece.new) }
    ensures piece { length piece.new ≡ length piece.old }
    ensures reads { OnPresent (ReadsPiece kept.old.bytes.items result kept.new.bytes.items)
        (L.present link.old) (L.present link.new) }
    ensures stays { Stays L.Link link.old link.new }
{
    kept.bytes.reserve(piece.len())?;
    let count = link.read(piece)?;
    kept.bytes.extend_from_slice(&piece[..count]).unwrap();
    Ok(count)
}
