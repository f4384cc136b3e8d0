//! Uploads, whose bytes are taken block by block as they come.
ghost use Rattle.std.specs.Prelude.{◌≡◌, ◌≤◌, ℕ, false, List, [], ◌++◌, Option, Some, None, IsSome, IfOk, IfErr, OnOk};
ghost use Rattle.lab_outside.specs.Connection.{Connection, OnPresent};
ghost use Rattle.lab_outside.specs.Links.{Stays};
ghost use Rattle.flow_model.specs.declared.flow.FlowEnd.{FlowEnd};
ghost use Rattle.store_model.specs.Acts.{HasKey};
ghost use Rattle.serve_model.specs.declared.buckets.Buckets.{Buckets as Named};
ghost use Rattle.serve_model.specs.declared.served.Served.{Served};
ghost use Rattle.serve_model.specs.declared.upload.Upload.{Upload as Announced};
ghost use Rattle.serve_model.specs.Stores.{leave as leaves, stream_of, known_from};
ghost use Rattle.serve_model.specs.Talk.{Serving, kept_limit, passing, keeping_turn, leaving_turn, came_turn, stream_turn};
ghost use Rattle.serve_model.specs.Serving.{HasState, CarriedOut, Reached, Goes, Stands, ServesOn};
ghost use Rattle.serve_loop.specs.Sums.{AreSums, refusal_of_sums};
ghost use Rattle.serve_model.specs.Uploads.{IsLeft};
ghost use Rattle.serve_loop.specs.Uploads.{IsNeedOf, IsTaken, EachTaken, EachLeft, IsOnItsWay as IsComing};
ghost use Rattle.serve_loop.specs.Taking.{IsPut, IsStreamed, IsCause, CameSo, NeedsSo, IsTakenSo, IsBegun, HasTaken, GaveUp};

use crate::saying::{answer_end, answer_request};
use crate::storage::Storage;
use crate::sums::Sums;
use http_wire::{HeadEnd, Kept, read_body};
use lab_outside::Link;
use s3_model::Code;
use serve_model::{Answer, Request, ServeFault, Upload};
use std::alloc::Global;

/// How far the bytes of an upload came.
#[derive(Clone, Copy)]
pub(crate) enum Came {
    /// All of them were taken.
    Whole,
    /// Not all: the input ended.
    Short,
    /// Not all: the link failed.
    Cut,
    /// As many as the store waits for.
    Unneeded,
}

// Takes the bytes of an upload that was begun, part by part, as far as they come. It needs `first` of them first, and has
// `length` in all.
fn take_parts<S: Storage, L: Link>(
    alloc: Global,
    store: &mut S,
    link: &mut L,
    kept: &mut Kept,
    sums: &mut Sums,
    first: Option<u64>,
    length: u64,
) -> Result<Came, ServeFault>
    requires begun { IsBegun (S.takes store.old) length first }
    requires present { IsSome (L.present link.old) }
    ensures present { IsSome (L.present link.new) }
    ensures taken { IfOk result
        (HasTaken (S.takes store.old)
        (S.takes store.new) length first sums.old sums.new kept.old.bytes.items kept.new.bytes.items
        (L.present link.old) (L.present link.new)) }
    ensures causes { IfErr result
        (GaveUp (S.takes store.old) S.lacks length first kept.old.bytes.items kept.new.bytes.items
        (L.present link.old) (L.present link.new)) }
    ensures stays { Stays L.Link link.old link.new }
{
    let mut need = first;
    let mut left = length;
    'parts: while left > 0 {
        let Some(size) = need else {
            return Ok(Came::Unneeded);
        };
        let part = match read_body(alloc, link, kept, size) {
            Ok(part) => part,
            Err(HeadEnd::Closed) => return Ok(Came::Short),
            Err(HeadEnd::Memory) => return Err(ServeFault::Memory),
            Err(HeadEnd::Failed) => return Ok(Came::Cut),
            Err(HeadEnd::TooLong) => return Ok(Came::Cut),
            Err(HeadEnd::Bad) => return Ok(Came::Cut),
        };
        sums.add(part.as_slice());
        left -= size;
        need = match store.feed(part) {
            Ok(need) => need,
            Err(memory) => return Err(ServeFault::from(memory)),
        };
    }
    match need {
        Some(_) => Ok(Came::Whole),
        None => Ok(Came::Unneeded),
    }
}

// Gives an upload up, and refuses it so.
fn refuse_upload<S: Storage, L: Link>(
    alloc: Global,
    store: &mut S,
    link: &mut L,
    request: &Request,
    code: Code,
) -> Result<bool, ServeFault>
    requires on_its_way { IsComing (S.takes store.old) }
    requires present { IsSome (L.present link.old) }
    ensures present { IsSome (L.present link.new) }
    ensures serves { (u : Announced) (came : List ℕ) (need : Option ℕ) (all : List ℕ →
        List ℕ) (p : Serving S.State) (times : Option (List ℕ)) (served : Served) (kept : List ℕ) →
        ((left : List ℕ) → IsLeft u came need (leaves u (all left))) → Stands (λ s. S.takes store.old s request.now.time u came need) times served p →
        ServesOn (λ left. passing p (leaving_turn S.model request.now u code (all left) p (kept ++ left))) (Reached S.model S.fits S.lacks (S.stands store.new) p.store) (known_from S.model S.fits S.lacks p.store) times served result kept (L.present link.old) (L.present link.new) }
    ensures goes { (u : Announced) (came : List ℕ) (need : Option ℕ) →
        Goes S.model S.fits S.lacks (λ s. S.takes store.old s request.now.time u came need)
        (S.stands store.new) result }
    ensures stays { Stays L.Link link.old link.new }
{
    match store.leave() {
        Ok(Some(_)) => answer_request(alloc, link, request, Answer::Refusal(code)),
        Ok(None) => Ok(false),
        Err(memory) => Err(ServeFault::from(memory)),
    }
}

// Keeps an upload, all of whose bytes were taken, and answers with its end.
fn keep_upload<S: Storage, L: Link>(
    alloc: Global,
    store: &mut S,
    link: &mut L,
    request: &Request,
) -> Result<bool, ServeFault>
    requires whole { IsTaken (S.takes store.old) (Some 0) }
    requires put { IsPut request.now.ask }
    requires present { IsSome (L.present link.old) }
    ensures present { IsSome (L.present link.new) }
    ensures serves { (u : Announced) (came : List ℕ) (p : Serving S.State) (times : Option (List ℕ))
        (served : Served) (kept : List ℕ) →
        Stands (λ s. S.takes store.old s request.now.time u came (Some 0)) times served p → served.kept ≤ kept_limit →
        ServesOn (λ left. passing p (keeping_turn S.model request.now u came p (kept ++ left))) (Reached S.model S.fits S.lacks (S.stands store.new) p.store) (known_from S.model S.fits S.lacks p.store) times served result kept (L.present link.old) (L.present link.new) }
    ensures goes { (u : Announced) (came : List ℕ) →
        Goes S.model S.fits S.lacks (λ s. S.takes store.old s request.now.time u came (Some 0))
        (S.stands store.new) result }
    ensures stays { Stays L.Link link.old link.new }
{
    match store.keep() {
        Ok(Some(end)) => answer_end(alloc, link, request, end),
        Ok(None) => Ok(false),
        Err(memory) => Err(ServeFault::from(memory)),
    }
}

// Keeps an upload, all of whose bytes were taken, unless they have another digest than was said.
fn end_whole<S: Storage, L: Link>(
    alloc: Global,
    store: &mut S,
    link: &mut L,
    request: &Request,
    sums: Sums,
) -> Result<bool, ServeFault>
    requires whole { IsTaken (S.takes store.old) (Some 0) }
    requires put { IsPut request.now.ask }
    requires present { IsSome (L.present link.old) }
    ensures present { IsSome (L.present link.new) }
    ensures serves { (u : Announced) (came : List ℕ) (p : Serving S.State) (times : Option (List ℕ))
        (served : Served) (kept : List ℕ) →
        AreSums request.now sums came → Stands (λ s. S.takes store.old s request.now.time u came (Some 0)) times served p → served.kept ≤ kept_limit →
        ServesOn (λ left. passing p (came_turn S.model request.now u (refusal_of_sums request.now came) came p (kept ++ left))) (Reached S.model S.fits S.lacks (S.stands store.new) p.store) (known_from S.model S.fits S.lacks p.store) times served result kept (L.present link.old) (L.present link.new) }
    ensures goes { (u : Announced) (came : List ℕ) →
        Goes S.model S.fits S.lacks (λ s. S.takes store.old s request.now.time u came (Some 0))
        (S.stands store.new) result }
    ensures stays { Stays L.Link link.old link.new }
{
    match sums.refusal(alloc, request) {
        Ok(Some(code)) => refuse_upload(alloc, store, link, request, code),
        Ok(None) => keep_upload(alloc, store, link, request),
        Err(_) => Err(ServeFault::Memory),
    }
}

// Gives an upload up, without an answer.
fn leave_upload<S: Storage>(store: &mut S) -> Result<bool, ServeFault>
    requires on_its_way { IsComing (S.takes store.old) }
    ensures closes { IfOk result (λ on. on ≡ false) }
    ensures given_up { OnOk result ((end : Option FlowEnd) ×
        EachLeft (S.takes store.old) (λ s time job. CarriedOut S.model S.fits S.lacks
        (S.stands store.new) s time job end) ×
        EachTaken (S.takes store.old) None (λ s time u came. end ≡ None)) }
    ensures causes { IfErr result (IsCause ((need : Option ℕ) →
        EachTaken (S.takes store.old) need (λ s time u came. S.lacks s time (leaves u came)))) }
{
    match store.leave() {
        Ok(_) => Ok(false),
        Err(memory) => Err(ServeFault::from(memory)),
    }
}

// Keeps an upload or gives it up, as far as its bytes came.
fn end_upload<S: Storage, L: Link>(
    alloc: Global,
    store: &mut S,
    link: &mut L,
    request: &Request,
    sums: Sums,
    came: Came,
) -> Result<bool, ServeFault>
    requires on_its_way { IsTakenSo (S.takes store.old) came }
    requires put { IsPut request.now.ask }
    requires present { IsSome (L.present link.old) }
    ensures present { IsSome (L.present link.new) }
    ensures serves { (buckets : Named) (u : Announced) (bytes : List ℕ) (need : Option ℕ)
        (p : Serving S.State) (times : Option (List ℕ)) (served : Served) (before kept : List ℕ)
        (start : Option Connection) →
        IsStreamed buckets request.now u → NeedsSo came need → IsNeedOf u bytes need → AreSums request.now sums bytes → OnPresent (CameSo came bytes need before kept) start (L.present link.old) →
        Stands (λ s. S.takes store.old s request.now.time u bytes need) times served p → served.kept ≤ kept_limit →
        ServesOn (λ left. stream_turn S.model buckets request.now u p (before ++ left)) (Reached S.model S.fits S.lacks (S.stands store.new) p.store) (known_from S.model S.fits S.lacks p.store) times served result kept start (L.present link.new) }
    ensures goes { (u : Announced) (bytes : List ℕ) (need : Option ℕ) → NeedsSo came need →
        Goes S.model S.fits S.lacks (λ s. S.takes store.old s request.now.time u bytes need)
        (S.stands store.new) result }
    ensures stays { Stays L.Link link.old link.new }
{
    match came {
        Came::Whole => end_whole(alloc, store, link, request, sums),
        Came::Short => refuse_upload(alloc, store, link, request, Code::IncompleteBody),
        Came::Cut => leave_upload(store),
        Came::Unneeded => leave_upload(store),
    }
}

/// Has the store begin an upload, gives it the bytes as they come, and answers with its end. Where they don't all come it's
/// given up.
pub(crate) fn receive<S: Storage, L: Link>(
    alloc: Global,
    store: &mut S,
    link: &mut L,
    kept: &mut Kept,
    request: &Request,
    upload: Upload,
) -> Result<bool, ServeFault>
    requires state { HasState (S.stands store.old) }
    requires keyed { HasKey (stream_of upload) }
    requires put { IsPut request.now.ask }
    requires present { IsSome (L.present link.old) }
    ensures present { IsSome (L.present link.new) }
    ensures serves { (buckets : Named) (p : Serving S.State) (times : Option (List ℕ))
        (served : Served) → IsStreamed buckets request.now upload →
        Stands (S.stands store.old) times served p → served.kept ≤ kept_limit →
        ServesOn (λ left. stream_turn S.model buckets request.now upload p (kept.old.bytes.items ++ left)) (Reached S.model S.fits S.lacks (S.stands store.new) p.store) (known_from S.model S.fits S.lacks p.store) times served result kept.new.bytes.items (L.present link.old) (L.present link.new) }
    ensures goes { Goes S.model S.fits S.lacks (S.stands store.old) (S.stands store.new) result }
    ensures stays { Stays L.Link link.old link.new }
{
    let length = upload.length;
    let first = match store.receive(request.time, upload) {
        Ok(first) => first,
        Err(memory) => return Err(ServeFault::from(memory)),
    };
    let mut sums = Sums::new(request);
    match take_parts(alloc, store, link, kept, &mut sums, first, length) {
        Ok(came) => end_upload(alloc, store, link, request, sums, came),
        Err(fault) => Err(fault),
    }
}
