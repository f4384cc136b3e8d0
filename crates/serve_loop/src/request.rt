//! One request, served.
ghost use Rattle.std.specs.Prelude.{◌≡◌, ◌≤◌, ℕ, List, ◌++◌, ◌||◌, max, min, true, codes, Option, Some, Ok, IsSome, IfOk, IfErr};
ghost use Rattle.crdt_core.specs.Outcomes.{OnlyWant};
ghost use Rattle.lab_outside.specs.Connection.{OnPresent};
ghost use Rattle.lab_outside.specs.Links.{Stays};
ghost use Rattle.store_model.specs.Acts.{HasKey};
ghost use Rattle.s3_model.specs.Asks.{is_method};
ghost use Rattle.serve_model.specs.declared.served.ServeFault.TheVariants.{Memory as Wanting};
ghost use Rattle.serve_model.specs.Clusters.{IsWhole};
ghost use Rattle.serve_model.specs.Judging.{IsKeyed, upload_of, order_of, reply_without};
ghost use Rattle.serve_model.specs.Stores.{known_from};
ghost use Rattle.serve_model.specs.Talk.{Grammar, Serving, kept_limit, first_of, later_of, time_from, request_of, path_shown as path_of_refusal, interim as interim_of, bad_head, head_refusal, text_of, closes_of, clocked, order_turn, plan_turn, whole_turn, body_turn, coming_turn, waiting_turn, request_turn, head_turn, turn};
ghost use Rattle.serve_model.specs.Serving.{HasState, Reached, Goes, Stands, SaysOn, ServesOn};
ghost use Rattle.serve_loop.specs.Giving.{IsNoGet};

use crate::admitting::admit;
use crate::counting::{count, counts_after, counts_before};
use crate::giving::get;
use crate::judging::{range, refusal};
use crate::orders::{order, reply, upload};
use crate::saying::{answer_end, answer_request, refuse_head};
use crate::storage::Storage;
use crate::taking::receive;
use crdt_core::{Bytes, Memory, Value};
use flow_model::Order;
use http_wire::{Head, HeadEnd, Kept, read_body, read_head};
use lab_outside::{Clock, Link, send_whole};
use s3_model::{AskFault, Code, S3Fault};
use s3_request::{announced, closes, expects, fault, has_path, path};
use serve_model::{Admitted, Answer, Buckets, Request, ServeFault, Served};
use std::alloc::Global;

/// The greatest time of a request, in milliseconds since 1970.
const TIME_LIMIT: u64 = 253_402_000_000_000;

// Has the store carry out an order that is no get, and answers with its end.
fn carry<S: Storage, L: Link>(
    alloc: Global,
    store: &mut S,
    link: &mut L,
    served: &mut Served,
    request: &Request,
    order: Order,
) -> Result<bool, ServeFault>
    requires state { HasState (S.stands store.old) }
    requires keyed { HasKey order }
    requires whole { IsWhole order }
    requires no_get { IsNoGet request.now.ask }
    requires present { IsSome (L.present link.old) }
    ensures present { IsSome (L.present link.new) }
    ensures serves { (p : Serving S.State) (times : Option (List ℕ)) (kept : List ℕ) →
        Stands (S.stands store.old) times served.old p →
        ServesOn (λ left. order_turn S.model request.now order p (kept ++ left)) (Reached S.model S.fits S.lacks (S.stands store.new) p.store) (known_from S.model S.fits S.lacks p.store) times served.new result kept (L.present link.old) (L.present link.new) }
    ensures goes { Goes S.model S.fits S.lacks (S.stands store.old) (S.stands store.new) result }
    ensures stays { Stays L.Link link.old link.new }
{
    let end = match store.carry(request.time, order) {
        Ok(Some(end)) => end,
        Ok(None) => return Ok(false),
        Err(memory) => return Err(ServeFault::from(memory)),
    };
    let size = counts_after(&request.ask, &end);
    match count(served, size) {
        Ok(()) => answer_end(alloc, link, request, end),
        Err(_) => Err(ServeFault::Kept),
    }
}

// Serves a request whose body was read.
fn serve_whole<S: Storage, L: Link>(
    alloc: Global,
    store: &mut S,
    link: &mut L,
    served: &mut Served,
    buckets: &Buckets,
    request: &Request,
    body: Bytes,
) -> Result<bool, ServeFault>
    requires state { HasState (S.stands store.old) }
    requires keyed { IsKeyed request.now.ask }
    requires within { served.old.kept ≤ kept_limit }
    requires present { IsSome (L.present link.old) }
    ensures present { IsSome (L.present link.new) }
    ensures serves { (p : Serving S.State) (times : Option (List ℕ)) (kept : List ℕ) →
        Stands (S.stands store.old) times served.old p →
        ServesOn (λ left. whole_turn S.model buckets.now request.now body p (kept ++ left)) (Reached S.model S.fits S.lacks (S.stands store.new) p.store) (known_from S.model S.fits S.lacks p.store) times served.new result kept (L.present link.old) (L.present link.new) }
    ensures goes { Goes S.model S.fits S.lacks (S.stands store.old) (S.stands store.new) result }
    ensures stays { Stays L.Link link.old link.new }
{
    match refusal(alloc, buckets, request, body.as_slice()) {
        Ok(Some(code)) => answer_request(alloc, link, request, Answer::Refusal(code)),
        Ok(None) => serve_judged(alloc, store, link, served, buckets, request, body),
        Err(_) => Err(ServeFault::Memory),
    }
}

// Serves a request that nothing refused before the store is asked.
fn serve_judged<S: Storage, L: Link>(
    alloc: Global,
    store: &mut S,
    link: &mut L,
    served: &mut Served,
    buckets: &Buckets,
    request: &Request,
    body: Bytes,
) -> Result<bool, ServeFault>
    requires state { HasState (S.stands store.old) }
    requires keyed { IsKeyed request.now.ask }
    requires within { served.old.kept ≤ kept_limit }
    requires present { IsSome (L.present link.old) }
    ensures present { IsSome (L.present link.new) }
    ensures serves { (p : Serving S.State) (times : Option (List ℕ)) (kept : List ℕ) →
        Stands (S.stands store.old) times served.old p →
        ServesOn (λ left. plan_turn S.model buckets.now request.now (order_of request.now.ask body) p (kept ++ left)) (Reached S.model S.fits S.lacks (S.stands store.new) p.store) (known_from S.model S.fits S.lacks p.store) times served.new result kept (L.present link.old) (L.present link.new) }
    ensures goes { Goes S.model S.fits S.lacks (S.stands store.old) (S.stands store.new) result }
    ensures stays { Stays L.Link link.old link.new }
{
    match order(&request.ask, body) {
        Ok(Some(order)) => match order {
            Order::Get { bucket, key } => {
                let range = range(&request.ask);
                get(alloc, store, link, request, range, bucket, key)
            }
            other => carry(alloc, store, link, served, request, other),
        },
        Ok(None) => answer_without(alloc, link, buckets, request),
        Err(_) => Err(ServeFault::Memory),
    }
}

// Answers a request for which the store isn't asked.
fn answer_without<L: Link>(
    alloc: Global,
    link: &mut L,
    buckets: &Buckets,
    request: &Request,
) -> Result<bool, ServeFault>
    requires { IsSome (L.present link.old) }
    ensures present { IsSome (L.present link.new) }
    ensures says { SaysOn (text_of request.now
        (Answer.Reply (reply_without buckets.now request.now.who request.now.ask)))
        (closes_of request.now (Answer.Reply
        (reply_without buckets.now request.now.who request.now.ask))) result (L.present link.old)
        (L.present link.new) }
    ensures cause { IfErr result (λ e. e ≡ Wanting) }
    ensures stays { Stays L.Link link.old link.new }
{
    match reply(alloc, buckets, request.who, &request.ask) {
        Ok(reply) => answer_request(alloc, link, request, Answer::Reply(reply)),
        Err(_) => Err(ServeFault::Memory),
    }
}

// Reads a request's body, and serves it.
fn serve_body<S: Storage, L: Link>(
    alloc: Global,
    store: &mut S,
    link: &mut L,
    kept: &mut Kept,
    served: &mut Served,
    buckets: &Buckets,
    request: &Request,
) -> Result<bool, ServeFault>
    requires state { HasState (S.stands store.old) }
    requires keyed { IsKeyed request.now.ask }
    requires within { served.old.kept ≤ kept_limit }
    requires present { IsSome (L.present link.old) }
    ensures present { IsSome (L.present link.new) }
    ensures serves { (p : Serving S.State) (times : Option (List ℕ)) →
        Stands (S.stands store.old) times served.old p →
        ServesOn (λ left. body_turn S.model buckets.now request.now p (kept.old.bytes.items ++ left)) (Reached S.model S.fits S.lacks (S.stands store.new) p.store) (known_from S.model S.fits S.lacks p.store) times served.new result kept.new.bytes.items (L.present link.old) (L.present link.new) }
    ensures goes { Goes S.model S.fits S.lacks (S.stands store.old) (S.stands store.new) result }
    ensures stays { Stays L.Link link.old link.new }
{
    match read_body(alloc, link, kept, request.length) {
        Ok(body) => serve_whole(alloc, store, link, served, buckets, request, body),
        Err(HeadEnd::Closed) => {
            answer_request(alloc, link, request, Answer::Refusal(Code::IncompleteBody))
        }
        Err(HeadEnd::Memory) => Err(ServeFault::Memory),
        Err(HeadEnd::Failed) => Ok(false),
        Err(HeadEnd::TooLong) => Ok(false),
        Err(HeadEnd::Bad) => Ok(false),
    }
}

// Reads a request's body at once or block by block, and serves it.
fn serve_coming<S: Storage, L: Link>(
    alloc: Global,
    store: &mut S,
    link: &mut L,
    kept: &mut Kept,
    served: &mut Served,
    buckets: &Buckets,
    request: &Request,
) -> Result<bool, ServeFault>
    requires state { HasState (S.stands store.old) }
    requires keyed { IsKeyed request.now.ask }
    requires within { served.old.kept ≤ kept_limit }
    requires present { IsSome (L.present link.old) }
    ensures present { IsSome (L.present link.new) }
    ensures serves { (p : Serving S.State) (times : Option (List ℕ)) →
        Stands (S.stands store.old) times served.old p →
        ServesOn (λ left. coming_turn S.model buckets.now request.now (upload_of buckets.now request.now) p (kept.old.bytes.items ++ left)) (Reached S.model S.fits S.lacks (S.stands store.new) p.store) (known_from S.model S.fits S.lacks p.store) times served.new result kept.new.bytes.items (L.present link.old) (L.present link.new) }
    ensures goes { Goes S.model S.fits S.lacks (S.stands store.old) (S.stands store.new) result }
    ensures stays { Stays L.Link link.old link.new }
{
    match upload(buckets, request) {
        Ok(Some(upload)) => receive(alloc, store, link, kept, request, upload),
        Ok(None) => serve_body(alloc, store, link, kept, served, buckets, request),
        Err(_) => Err(ServeFault::Memory),
    }
}

// The interim line, where it is waited for and a body of a byte at least was announced.
fn interim(request: &Request) -> &'static [u8]
    ensures { result.now ≡ interim_of request.now }
{
    if request.waits && request.length > 0 {
        b"HTTP/1.1 100 Continue\r\n\r\n"
    } else {
        b""
    }
}

// Writes the interim line where it is to be, and serves the request.
fn serve_waiting<S: Storage, L: Link>(
    alloc: Global,
    store: &mut S,
    link: &mut L,
    kept: &mut Kept,
    served: &mut Served,
    buckets: &Buckets,
    request: &Request,
) -> Result<bool, ServeFault>
    requires state { HasState (S.stands store.old) }
    requires keyed { IsKeyed request.now.ask }
    requires within { served.old.kept ≤ kept_limit }
    requires present { IsSome (L.present link.old) }
    ensures present { IsSome (L.present link.new) }
    ensures serves { (p : Serving S.State) (times : Option (List ℕ)) →
        Stands (S.stands store.old) times served.old p →
        ServesOn (λ left. waiting_turn S.model buckets.now request.now p (kept.old.bytes.items ++ left)) (Reached S.model S.fits S.lacks (S.stands store.new) p.store) (known_from S.model S.fits S.lacks p.store) times served.new result kept.new.bytes.items (L.present link.old) (L.present link.new) }
    ensures goes { Goes S.model S.fits S.lacks (S.stands store.old) (S.stands store.new) result }
    ensures stays { Stays L.Link link.old link.new }
{
    match send_whole(link, interim(request)) {
        Ok(()) => serve_coming(alloc, store, link, kept, served, buckets, request),
        Err(_) => Ok(false),
    }
}

// Counts what an upload announces, and serves the request.
fn serve_understood<S: Storage, L: Link>(
    alloc: Global,
    store: &mut S,
    link: &mut L,
    kept: &mut Kept,
    served: &mut Served,
    buckets: &Buckets,
    request: &Request,
) -> Result<bool, ServeFault>
    requires state { HasState (S.stands store.old) }
    requires keyed { IsKeyed request.now.ask }
    requires present { IsSome (L.present link.old) }
    ensures present { IsSome (L.present link.new) }
    ensures serves { (p : Serving S.State) (times : Option (List ℕ)) →
        Stands (S.stands store.old) times served.old p →
        ServesOn (λ left. request_turn S.model buckets.now request.now p (kept.old.bytes.items ++ left)) (Reached S.model S.fits S.lacks (S.stands store.new) p.store) (known_from S.model S.fits S.lacks p.store) times served.new result kept.new.bytes.items (L.present link.old) (L.present link.new) }
    ensures goes { Goes S.model S.fits S.lacks (S.stands store.old) (S.stands store.new) result }
    ensures stays { Stays L.Link link.old link.new }
{
    let size = counts_before(&buckets.names, &request.ask, request.length);
    match count(served, size) {
        Ok(()) => serve_waiting(alloc, store, link, kept, served, buckets, request),
        Err(_) => Err(ServeFault::Kept),
    }
}

// The path that a refusal of a head shows.
fn path_shown(alloc: Global, head: &Head) -> Result<Bytes, Memory>
    ensures same { IfOk result (λ path. path ≡ path_of_refusal head.now) }
    ensures want { OnlyWant result }
{
    let target = head.target.as_slice();
    if !has_path(alloc, target)? {
        return Ok(Bytes::new(alloc));
    }
    Bytes::from_slice(alloc, path(target))
}

fn is_head(head: &Head) -> bool
    ensures { result ≡ is_method head.now (codes "HEAD") }
{
    head.method.as_slice() == b"HEAD".as_slice()
}

// What is known of a request whose head was admitted.
fn request_for(
    alloc: Global,
    head: &Head,
    asked: Admitted,
    last: bool,
    now: u64,
) -> Result<Request, Memory>
    ensures same { IfOk result (λ request. request ≡ request_of last now head.now asked) }
    ensures want { OnlyWant result }
{
    let path = Bytes::from_slice(alloc, path(head.target.as_slice()))?;
    Ok(Request {
        ask: asked.ask,
        who: asked.who,
        digest: asked.digest,
        path,
        is_head: is_head(head),
        length: announced(head),
        waits: expects(head),
        closes: last || closes(head),
        time: now,
    })
}

// Refuses a head that was read.
fn refuse_read<L: Link>(
    alloc: Global,
    link: &mut L,
    head: &Head,
    fault: S3Fault,
    now: u64,
) -> Result<bool, ServeFault>
    requires { IsSome (L.present link.old) }
    ensures present { IsSome (L.present link.new) }
    ensures says { SaysOn (head_refusal fault (path_of_refusal head.now)
        (is_method head.now (codes "HEAD")) now) true result (L.present link.old)
        (L.present link.new) }
    ensures cause { IfErr result (λ e. e ≡ Wanting) }
    ensures stays { Stays L.Link link.old link.new }
{
    match path_shown(alloc, head) {
        Ok(path) => { refuse_head(alloc, link, fault, path, is_head(head), now) }
        Err(_) => Err(ServeFault::Memory),
    }
}

// Serves a request that was admitted.
fn serve_ask<S: Storage, L: Link>(
    alloc: Global,
    store: &mut S,
    last: bool,
    link: &mut L,
    kept: &mut Kept,
    served: &mut Served,
    buckets: &Buckets,
    head: &Head,
    asked: Admitted,
    now: u64,
) -> Result<bool, ServeFault>
    requires state { HasState (S.stands store.old) }
    requires keyed { IsKeyed asked.ask }
    requires present { IsSome (L.present link.old) }
    ensures present { IsSome (L.present link.new) }
    ensures serves { (p : Serving S.State) (times : Option (List ℕ)) →
        Stands (S.stands store.old) times served.old p →
        ServesOn (λ left. request_turn S.model buckets.now (request_of last now head.now asked) p (kept.old.bytes.items ++ left)) (Reached S.model S.fits S.lacks (S.stands store.new) p.store) (known_from S.model S.fits S.lacks p.store) times served.new result kept.new.bytes.items (L.present link.old) (L.present link.new) }
    ensures goes { Goes S.model S.fits S.lacks (S.stands store.old) (S.stands store.new) result }
    ensures stays { Stays L.Link link.old link.new }
{
    match request_for(alloc, head, asked, last, now) {
        Ok(request) => serve_understood(alloc, store, link, kept, served, buckets, &request),
        Err(_) => Err(ServeFault::Memory),
    }
}

// Serves a request whose head was read at a time in milliseconds.
fn serve_head<S: Storage, L: Link>(
    alloc: Global,
    store: &mut S,
    last: bool,
    link: &mut L,
    kept: &mut Kept,
    served: &mut Served,
    buckets: &Buckets,
    head: &Head,
    now: u64,
) -> Result<bool, ServeFault>
    requires state { HasState (S.stands store.old) }
    requires present { IsSome (L.present link.old) }
    ensures present { IsSome (L.present link.new) }
    ensures serves { (p : Serving S.State) (times : Option (List ℕ)) →
        Stands (S.stands store.old) times served.old p →
        ServesOn (λ left. head_turn S.model buckets.now last now (Some head.now) p (kept.old.bytes.items ++ left)) (Reached S.model S.fits S.lacks (S.stands store.new) p.store) (known_from S.model S.fits S.lacks p.store) times served.new result kept.new.bytes.items (L.present link.old) (L.present link.new) }
    ensures goes { Goes S.model S.fits S.lacks (S.stands store.old) (S.stands store.new) result }
    ensures stays { Stays L.Link link.old link.new }
{
    match admit(alloc, &buckets.access, head, now) {
        Ok(asked) => serve_ask(
            alloc, store, last, link, kept, served, buckets, head, asked, now,
        ),
        Err(AskFault::Refused(fault)) => refuse_read(alloc, link, head, fault, now),
        Err(AskFault::Memory) => Err(ServeFault::Memory),
    }
}

// Asks the clock for the time of a request.
fn ask_time<C: Clock>(clock: &mut C, served: &mut Served) -> u64
    ensures time { result ≡ served.new.time }
    ensures kept { served.new.kept ≡ served.old.kept }
    ensures asked { (times : List ℕ) → C.times clock.old ≡ Some times →
        (served.new.time ≡ time_from served.old.time (first_of times)) ×
        (C.times clock.new ≡ Some (later_of times)) }
{
    let given = clock.now().min(TIME_LIMIT);
    served.time = served.time.max(given);
    served.time
}

// Asks for the time, and serves a request whose head was read.
fn serve_found<S: Storage, L: Link, C: Clock>(
    alloc: Global,
    store: &mut S,
    last: bool,
    link: &mut L,
    kept: &mut Kept,
    clock: &mut C,
    served: &mut Served,
    buckets: &Buckets,
    head: &Head,
) -> Result<bool, ServeFault>
    requires state { HasState (S.stands store.old) }
    requires present { IsSome (L.present link.old) }
    ensures present { IsSome (L.present link.new) }
    ensures serves { (p : Serving S.State) →
        Stands (S.stands store.old) (C.times clock.old) served.old p →
        ServesOn (λ left. head_turn S.model buckets.now last (clocked p).time (Some head.now) (clocked p) (kept.old.bytes.items ++ left)) (Reached S.model S.fits S.lacks (S.stands store.new) p.store) (known_from S.model S.fits S.lacks p.store) (C.times clock.new) served.new result kept.new.bytes.items (L.present link.old) (L.present link.new) }
    ensures goes { Goes S.model S.fits S.lacks (S.stands store.old) (S.stands store.new) result }
    ensures stays { Stays L.Link link.old link.new }
{
    let now = ask_time(clock, served);
    serve_head(alloc, store, last, link, kept, served, buckets, head, now)
}

// Asks for the time, and refuses a head that couldn't be read.
fn refuse_bad<L: Link, C: Clock>(
    alloc: Global,
    link: &mut L,
    clock: &mut C,
    served: &mut Served,
) -> Result<bool, ServeFault>
    requires { IsSome (L.present link.old) }
    ensures present { IsSome (L.present link.new) }
    ensures says { SaysOn (bad_head served.new.time) true result (L.present link.old)
        (L.present link.new) }
    ensures kept { served.new.kept ≡ served.old.kept }
    ensures asked { (times : List ℕ) → C.times clock.old ≡ Some times →
        (served.new.time ≡ time_from served.old.time (first_of times)) ×
        (C.times clock.new ≡ Some (later_of times)) }
    ensures cause { IfErr result (λ e. e ≡ Wanting) }
    ensures stays { Stays L.Link link.old link.new }
{
    let now = ask_time(clock, served);
    refuse_head(
        alloc,
        link,
        fault(Code::InvalidRequest),
        Bytes::new(alloc),
        false,
        now,
    )
}

/// Serves the next request of the connection that is present, and says whether the connection goes on.
///
/// `last` says that it closes after this request. What is kept of its bytes comes before those that are left. After an
/// error the store is to be given up.
pub fn serve_request<S: Storage, L: Link, C: Clock>(
    alloc: Global,
    store: &mut S,
    last: bool,
    link: &mut L,
    kept: &mut Kept,
    clock: &mut C,
    served: &mut Served,
    buckets: &Buckets,
) -> Result<bool, ServeFault>
    requires state { HasState (S.stands store.old) }
    requires present { IsSome (L.present link.old) }
    ensures present { IsSome (L.present link.new) }

    // What is written is what is stated of the first request in the bytes that are kept and left, from each state that
    // store, clock and counts stand for, and they stand for what is stated then, to which lawful orders lead. Where the
    // connection's count of faults rose it was cut off at one of the stops that are stated, for which they stand, and where
    // memory was wanting it came to one, or into the middle of its get: what is written is a first part of the text up to
    // there, or of what the get may give until then, and each order before it fits.
    ensures serves { (g : Grammar) (p : Serving S.State) →
        Stands (S.stands store.old) (C.times clock.old) served.old p →
        ServesOn (λ left. turn S.model buckets.now g last p (kept.old.bytes.items ++ left)) (Reached S.model S.fits S.lacks (S.stands store.new) p.store) (known_from S.model S.fits S.lacks p.store) (C.times clock.new) served.new result kept.new.bytes.items (L.present link.old) (L.present link.new) }

    // Whatever link and clock tell: lawful orders lead to a state that the store stands for, and `Number` comes only
    // where they lead to an order without room.
    ensures goes { Goes S.model S.fits S.lacks (S.stands store.old) (S.stands store.new) result }
    ensures stays { Stays L.Link link.old link.new }
{
    match read_head(alloc, link, kept) {
        Ok(head) => serve_found(
            alloc, store, last, link, kept, clock, served, buckets, &head,
        ),
        Err(HeadEnd::TooLong) => refuse_bad(alloc, link, clock, served),
        Err(HeadEnd::Bad) => refuse_bad(alloc, link, clock, served),
        Err(HeadEnd::Closed) => Ok(false),
        Err(HeadEnd::Failed) => Ok(false),
        Err(HeadEnd::Memory) => Err(ServeFault::Memory),
    }
}
