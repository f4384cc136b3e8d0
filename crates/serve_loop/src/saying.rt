//! Answers, written to the connection of a link.
ghost use Rattle.std.specs.Prelude.{◌≡◌, ◌≤◌, Ok, None, IsSome, IfErr, true, option_copied};
ghost use Rattle.lab_outside.specs.Connection.{OnPresent};
ghost use Rattle.lab_outside.specs.Links.{Stays};
ghost use Rattle.s3_model.specs.Answer.{answer_text};
ghost use Rattle.serve_model.specs.declared.served.ServeFault.TheVariants.{Memory as Wanting};
ghost use Rattle.serve_model.specs.Judging.{answer_to};
ghost use Rattle.serve_model.specs.Talk.{text_of, closes_of, head_refusal};
ghost use Rattle.serve_model.specs.Serving.{SaysOn};

use crate::answers::answer_for;
use crdt_core::{Bytes, Value};
use flow_model::FlowEnd;
use lab_outside::{Link, send_whole};
use s3_answer::answer;
use s3_model::{Ask, Code, Reply, S3Fault};
use s3_request::fault;
use serve_model::{Answer, Request, ServeFault};
use std::alloc::Global;

// Writes the bytes of an answer, and says whether the connection goes on.
fn say<L: Link>(link: &mut L, text: &[u8], close: bool) -> bool
    requires { IsSome (L.present link.old) }
    ensures present { IsSome (L.present link.new) }
    ensures says { SaysOn text.now close (Ok result) (L.present link.old) (L.present link.new) }
    ensures stays { Stays L.Link link.old link.new }
{
    match send_whole(link, text) {
        Ok(()) => !close,
        Err(_) => false,
    }
}

// Writes a reply at a time in milliseconds.
fn reply<L: Link>(
    alloc: Global,
    link: &mut L,
    ask: Option<&Ask>,
    reply: &Reply,
    now: u64,
    close: bool,
) -> Result<bool, ServeFault>
    requires { IsSome (L.present link.old) }
    ensures present { IsSome (L.present link.new) }
    ensures cause { IfErr result (λ e. e ≡ Wanting) }
    ensures says { SaysOn (answer_text (option_copied ask.entry) reply.now now close) close result
        (L.present link.old) (L.present link.new) }
    ensures stays { Stays L.Link link.old link.new }
{
    match answer(alloc, ask, reply, now, close) {
        Ok(text) => Ok(say(link, text.as_slice(), close)),
        Err(_) => Err(ServeFault::Memory),
    }
}

// Writes a refusal of a request.
fn refuse<L: Link>(
    alloc: Global,
    link: &mut L,
    request: &Request,
    code: Code,
) -> Result<bool, ServeFault>
    requires { IsSome (L.present link.old) }
    ensures present { IsSome (L.present link.new) }
    ensures cause { IfErr result (λ e. e ≡ Wanting) }
    ensures says { SaysOn (text_of request.now (Answer.Refusal code))
        (closes_of request.now (Answer.Refusal code)) result (L.present link.old)
        (L.present link.new) }
    ensures stays { Stays L.Link link.old link.new }
{
    let fault = fault(code);
    let path = match request.path.copy() {
        Ok(path) => path,
        Err(_) => return Err(ServeFault::Memory),
    };
    let head = request.is_head;
    let refused = Reply::Refused { fault, path, head };
    reply(
        alloc,
        link,
        Some(&request.ask),
        &refused,
        request.time,
        request.closes || fault.close,
    )
}

/// Answers a request, and says whether the connection goes on.
pub(crate) fn answer_request<L: Link>(
    alloc: Global,
    link: &mut L,
    request: &Request,
    answer: Answer,
) -> Result<bool, ServeFault>
    requires { IsSome (L.present link.old) }
    ensures present { IsSome (L.present link.new) }
    ensures cause { IfErr result (λ e. e ≡ Wanting) }
    ensures says { SaysOn (text_of request.now answer) (closes_of request.now answer) result
        (L.present link.old) (L.present link.new) }
    ensures stays { Stays L.Link link.old link.new }
{
    match answer {
        Answer::Reply(said) => reply(
            alloc,
            link,
            Some(&request.ask),
            &said,
            request.time,
            request.closes,
        ),
        Answer::Refusal(code) => refuse(alloc, link, request, code),
        Answer::Nothing => Ok(false),
    }
}

/// Answers with the end of a request.
pub(crate) fn answer_end<L: Link>(
    alloc: Global,
    link: &mut L,
    request: &Request,
    end: FlowEnd,
) -> Result<bool, ServeFault>
    requires { IsSome (L.present link.old) }
    ensures present { IsSome (L.present link.new) }
    ensures says { SaysOn (text_of request.now (answer_to request.now.ask end))
        (closes_of request.now (answer_to request.now.ask end)) result (L.present link.old)
        (L.present link.new) }
    ensures cause { IfErr result (λ e. e ≡ Wanting) }
    ensures stays { Stays L.Link link.old link.new }
{
    match answer_for(alloc, &request.ask, end) {
        Ok(answer) => answer_request(alloc, link, request, answer),
        Err(_) => Err(ServeFault::Memory),
    }
}

/// Refuses a head at a time in milliseconds; the connection closes.
pub(crate) fn refuse_head<L: Link>(
    alloc: Global,
    link: &mut L,
    fault: S3Fault,
    path: Bytes,
    head: bool,
    now: u64,
) -> Result<bool, ServeFault>
    requires { IsSome (L.present link.old) }
    ensures present { IsSome (L.present link.new) }
    ensures cause { IfErr result (λ e. e ≡ Wanting) }
    ensures says { SaysOn (head_refusal fault path head now) true result (L.present link.old)
        (L.present link.new) }
    ensures stays { Stays L.Link link.old link.new }
{
    let refused = Reply::Refused { fault, path, head };
    reply(alloc, link, None, &refused, now, true)
}
