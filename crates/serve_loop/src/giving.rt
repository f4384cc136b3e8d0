//! Gets, whose answers are written as their bytes come.
ghost use Rattle.std.specs.Prelude.{◌≡◌, ◌≤◌, ℕ, List, ◌++◌, Option, Some, IsSome, IfOk, IfErr, OnErr};
ghost use Rattle.lab_outside.specs.Connection.{Connection, OnPresent};
ghost use Rattle.lab_outside.specs.Links.{Stays};
ghost use Rattle.flow_model.specs.declared.order.Order.TheVariants.{Get};
ghost use Rattle.s3_model.specs.declared.ask.Range.{Range as AskedRange};
ghost use Rattle.serve_model.specs.declared.request.Request.{Request as Asked};
ghost use Rattle.serve_model.specs.declared.served.Served.{Served};
ghost use Rattle.serve_model.specs.declared.served.ServeFault.TheVariants.{Memory as Wanting};
ghost use Rattle.serve_model.specs.Stores.{Given, known_from};
ghost use Rattle.serve_model.specs.Talk.{Serving, kept_limit, text_of, given_text, closes_of, order_turn};
ghost use Rattle.serve_model.specs.Serving.{HasState, Reached, Goes, Stands, SaysOn, ServesOn};
ghost use Rattle.serve_loop.specs.Gets.{found_now, with_piece, with_given};
ghost use Rattle.serve_loop.specs.Giving.{IsGetOf, Sends, HasWritten, IsAt, ToldAll, EndsWith, text_with, answer_at};

use crate::saying::answer_end;
use crate::storage::{Got, Storage};
use crdt_core::Bytes;
use crdt_rows::{Meta, Version};
use flow_model::FlowEnd;
use lab_outside::{Link, send_whole};
use object_bytes::Pieces;
use s3_answer::{Portion, object_head};
use s3_model::Range;
use serve_model::{Request, ServeFault};
use std::alloc::Global;

/// How far the answer to a get on its way is written.
#[derive(Clone, Copy)]
pub(crate) enum Progress {
    /// Not at all: no object was found yet.
    Waiting,
    /// Not at all: the range isn't one of the object, which is answered at the end.
    Refused,
    /// All that is known of it. This portion of the bytes to come follows.
    Writing(Portion),
    /// Not to its end: the link failed.
    Failed,
}

// Writes bytes, behind which an answer goes on with a portion of those to come.
fn send<L: Link>(link: &mut L, portion: Portion, bytes: &[u8]) -> Progress
    requires { IsSome (L.present link.old) }
    ensures present { IsSome (L.present link.new) }
    ensures sends { OnPresent (Sends portion bytes.now result) (L.present link.old)
        (L.present link.new) }
    ensures stays { Stays L.Link link.old link.new }
{
    match send_whole(link, bytes) {
        Ok(()) => Progress::Writing(portion),
        Err(_) => Progress::Failed,
    }
}

// Begins the answer with an object that was found, unless its range isn't one of it.
fn begin_answer<L: Link>(
    alloc: Global,
    link: &mut L,
    request: &Request,
    range: Option<Range>,
    version: Version,
    meta: &Meta,
) -> Result<Progress, ServeFault>
    requires { IsSome (L.present link.old) }
    ensures present { IsSome (L.present link.new) }
    ensures written { IfOk result
        (λ progress. OnPresent (IsAt request.now range progress (Some (found_now version meta.now)))
        (L.present link.old) (L.present link.new)) }
    ensures unwritten { OnErr result (L.present link.new ≡ L.present link.old) }
    ensures cause { IfErr result (λ e. e ≡ Wanting) }
    ensures stays { Stays L.Link link.old link.new }
{
    let Some(portion) = Portion::of(range, meta.size) else {
        return Ok(Progress::Refused);
    };
    match object_head(alloc, range, version, meta, request.time, request.closes) {
        Ok(head) => Ok(send(link, portion, head.as_slice())),
        Err(_) => Err(ServeFault::Memory),
    }
}

// Writes those of the next bytes of an object that are answered.
fn write_piece<L: Link>(link: &mut L, progress: Progress, piece: &[u8]) -> Progress
    requires { IsSome (L.present link.old) }
    ensures present { IsSome (L.present link.new) }
    ensures written { (r : Asked) (range : Option AskedRange) (g : Given)
        (start : Option Connection) →
        OnPresent (IsAt r range progress (Some g)) start (L.present link.old) →
        OnPresent (IsAt r range result (Some (with_piece g piece.now))) start (L.present link.new) }
    ensures stays { Stays L.Link link.old link.new }
{
    match progress {
        Progress::Writing(portion) => {
            let (bytes, later) = portion.take(piece);
            send(link, later, bytes)
        }
        _ => progress,
    }
}

// Writes the rest of an object, and says whether the connection goes on.
fn end_object<L: Link>(
    link: &mut L,
    request: &Request,
    portion: Portion,
    rest: Pieces,
) -> Result<bool, ServeFault>
    requires { IsSome (L.present link.old) }
    ensures present { IsSome (L.present link.new) }
    ensures ends { (range : Option AskedRange) (g : Given) (start : Option Connection) →
        OnPresent (HasWritten request.now range g portion) start (L.present link.old) →
        OnPresent (EndsWith (text_with request.now range (with_piece g rest)) request.now.closes result) start (L.present link.new) }
    ensures cause { IfErr result (λ e. e ≡ Wanting) }
    ensures stays { Stays L.Link link.old link.new }
{
    let rest = match rest.into_bytes() {
        Ok(rest) => rest,
        Err(_) => return Err(ServeFault::Memory),
    };
    match write_piece(link, Progress::Writing(portion), rest.as_slice()) {
        Progress::Writing(_) => Ok(!request.closes),
        _ => Ok(false),
    }
}

// Writes what is left of an answer that was begun, and says whether the connection goes on.
fn end_begun<L: Link>(
    link: &mut L,
    request: &Request,
    portion: Portion,
    end: Option<FlowEnd>,
) -> Result<bool, ServeFault>
    requires { IsSome (L.present link.old) }
    ensures present { IsSome (L.present link.new) }
    ensures ends { (range : Option AskedRange) (so_far begun : Option Given)
        (start : Option Connection) → IsGetOf range request.now.ask → ToldAll so_far begun end →
        OnPresent (IsAt request.now range (Progress.Writing portion) so_far) start
        (L.present link.old) →
        (let a = answer_at request.now (with_given so_far end) in OnPresent (EndsWith (given_text request.now a begun) (closes_of request.now a) result) start (L.present link.new)) }
    ensures cause { IfErr result (λ e. e ≡ Wanting) }
    ensures stays { Stays L.Link link.old link.new }
{
    match end {
        Some(FlowEnd::Found { body, .. }) => end_object(link, request, portion, body),
        _ => Ok(false),
    }
}

// Answers where nothing was written before the end, and says whether the connection goes on.
fn answer_at_end<L: Link>(
    alloc: Global,
    link: &mut L,
    request: &Request,
    end: Option<FlowEnd>,
) -> Result<bool, ServeFault>
    requires { IsSome (L.present link.old) }
    ensures present { IsSome (L.present link.new) }
    ensures says { SaysOn (text_of request.now (answer_at request.now end))
        (closes_of request.now (answer_at request.now end)) result (L.present link.old)
        (L.present link.new) }
    ensures cause { IfErr result (λ e. e ≡ Wanting) }
    ensures stays { Stays L.Link link.old link.new }
{
    match end {
        Some(end) => answer_end(alloc, link, request, end),
        None => Ok(false),
    }
}

// Writes what is left of an answer whose get ended so, and says whether the connection goes on.
fn end_answer<L: Link>(
    alloc: Global,
    link: &mut L,
    request: &Request,
    progress: Progress,
    end: Option<FlowEnd>,
) -> Result<bool, ServeFault>
    requires { IsSome (L.present link.old) }
    ensures present { IsSome (L.present link.new) }
    ensures ends { (range : Option AskedRange) (so_far begun : Option Given)
        (start : Option Connection) → IsGetOf range request.now.ask → ToldAll so_far begun end →
        OnPresent (IsAt request.now range progress so_far) start (L.present link.old) →
        (let a = answer_at request.now (with_given so_far end) in OnPresent (EndsWith (given_text request.now a begun) (closes_of request.now a) result) start (L.present link.new)) }
    ensures cause { IfErr result (λ e. e ≡ Wanting) }
    ensures stays { Stays L.Link link.old link.new }
{
    match progress {
        Progress::Waiting | Progress::Refused => answer_at_end(alloc, link, request, end),
        Progress::Writing(portion) => end_begun(link, request, portion, end),
        Progress::Failed => Ok(false),
    }
}

/// Has the store begin a get, writes what it gives as it comes, and says whether the connection goes on. Where the link
/// fails it's asked on, so that what the store does doesn't depend on the link.
pub(crate) fn get<S: Storage, L: Link>(
    alloc: Global,
    store: &mut S,
    link: &mut L,
    request: &Request,
    range: Option<Range>,
    bucket: Bytes,
    key: Bytes,
) -> Result<bool, ServeFault>
    requires state { HasState (S.stands store.old) }
    requires asked { IsGetOf range request.now.ask }
    requires present { IsSome (L.present link.old) }
    ensures present { IsSome (L.present link.new) }
    ensures serves { (p : Serving S.State) (times : Option (List ℕ)) (served : Served)
        (kept : List ℕ) → Stands (S.stands store.old) times served p → served.kept ≤ kept_limit →
        ServesOn (λ left. order_turn S.model request.now (Get bucket key) p (kept ++ left)) (Reached S.model S.fits S.lacks (S.stands store.new) p.store) (known_from S.model S.fits S.lacks p.store) times served result kept (L.present link.old) (L.present link.new) }
    ensures goes { Goes S.model S.fits S.lacks (S.stands store.old) (S.stands store.new) result }
    ensures stays { Stays L.Link link.old link.new }
{
    match store.begin(request.time, bucket, key) {
        Ok(()) => {}
        Err(memory) => return Err(ServeFault::from(memory)),
    }
    let mut progress = Progress::Waiting;
    'pieces: loop {
        let got = match store.next() {
            Ok(got) => got,
            Err(memory) => return Err(ServeFault::from(memory)),
        };
        progress = match got {
            Got::Found(version, meta) => {
                match begin_answer(alloc, link, request, range, version, &meta) {
                    Ok(progress) => progress,
                    Err(fault) => return Err(fault),
                }
            }
            Got::Piece(piece) => write_piece(link, progress, piece.as_slice()),
            Got::End(end) => return end_answer(alloc, link, request, progress, end),
        };
    }
}
