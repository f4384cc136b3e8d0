//! A head, read from a connection.
ghost use Rattle.std.specs.Prelude.{◌≡◌, ◌≤◌, ◌⊎◌, length, take, drop, Err, IsSome, IfOk, IfErr};
ghost use Rattle.lab_outside.specs.Connection.{OnPresent};
ghost use Rattle.lab_outside.specs.Links.{Stays};
ghost use Rattle.http_model.specs.Heads.{IsHead, IsNoHead};
ghost use Rattle.http_wire.specs.Reading.{ReadsHead, IsHeadOf, OnAll};
ghost use Rattle.http_wire.specs.Pieces.{SeesEnd};

use crate::end::{HEAD_LIMIT, Search};
use crate::head::HeadEnd;
use crate::parse::parse;
use crate::pieces::{Kept, PIECE_SIZE, read_piece};
use http_model::Head;
use lab_outside::Link;
use std::alloc::Global;

/// Reads until the head ends in what is kept, and says where.
fn read_to_end<L: Link>(link: &mut L, kept: &mut Kept) -> Result<usize, HeadEnd>
    requires { IsSome (L.present link.old) }
    ensures present { IsSome (L.present link.new) }
    ensures within { IfOk result (λ end. end ≤ length kept.new.bytes.items) }
    ensures reads { OnPresent (SeesEnd kept.old.bytes.items result kept.new.bytes.items)
        (L.present link.old) (L.present link.new) }
    ensures stays { Stays L.Link link.old link.new }
{
    let mut piece = [0; PIECE_SIZE];
    let mut search = Search::new();
    'pieces: loop {
        match search.head_end(&kept.bytes) {
            Some(end) => return Ok(end),
            None => {}
        }
        if kept.bytes.len() >= HEAD_LIMIT {
            return Err(HeadEnd::TooLong);
        }
        if read_piece(link, kept, &mut piece)? == 0 {
            return Err(HeadEnd::Closed);
        }
    }
}

/// Takes the head's bytes off the front of what is kept, and reads them. Where memory is refused, they are kept.
fn take_head(alloc: Global, kept: &mut Kept, end: usize) -> Result<Head, HeadEnd>
    requires { end ≤ length kept.old.bytes.items }
    ensures head { IfOk result (IsHead (take end kept.old.bytes.items)) }
    ensures bad { result ≡ Err HeadEnd.Bad → IsNoHead (take end kept.old.bytes.items) }
    ensures rest { (result ≡ Err HeadEnd.Memory → ⊥) →
        kept.new.bytes.items ≡ drop end kept.old.bytes.items }
    ensures kept { result ≡ Err HeadEnd.Memory → kept.new.bytes.items ≡ kept.old.bytes.items }
    ensures causes { IfErr result (λ e. (e ≡ HeadEnd.Bad) ⊎ (e ≡ HeadEnd.Memory)) }
{
    match parse(alloc, &kept.bytes[..end]) {
        Err(_) => Err(HeadEnd::Memory),
        Ok(Some(head)) => {
            kept.remove_front(end);
            Ok(head)
        }
        Ok(None) => {
            kept.remove_front(end);
            Err(HeadEnd::Bad)
        }
    }
}

/// Reads a head, whether or not the connection tells its bytes.
fn find_head<L: Link>(alloc: Global, link: &mut L, kept: &mut Kept) -> Result<Head, HeadEnd>
    requires { IsSome (L.present link.old) }
    ensures present { IsSome (L.present link.new) }
    ensures reads { OnPresent (ReadsHead kept.old.bytes.items result kept.new.bytes.items)
        (L.present link.old) (L.present link.new) }
    ensures stays { Stays L.Link link.old link.new }
{
    let end = read_to_end(link, kept)?;
    take_head(alloc, kept, end)
}

/// Reads the head of the next request.
///
/// What is kept comes before what the connection gives. After an answer that isn't `Ok` or `Bad` all bytes that
/// were read are kept, and after those two all that follow the head.
pub fn read_head<L: Link>(alloc: Global, link: &mut L, kept: &mut Kept) -> Result<Head, HeadEnd>
    requires { IsSome (L.present link.old) }
    ensures present { IsSome (L.present link.new) }

    // What was read of the connection, and what is kept, for each answer.
    ensures reads { OnPresent (ReadsHead kept.old.bytes.items result kept.new.bytes.items)
        (L.present link.old) (L.present link.new) }

    // Where the connection tells its bytes: what all of them begin with.
    ensures told { OnPresent (OnAll
        (λ all rest. IsHeadOf all result rest) kept.old.bytes.items kept.new.bytes.items)
        (L.present link.old) (L.present link.new) }
    ensures stays { Stays L.Link link.old link.new }
{
    find_head(alloc, link, kept)
}
