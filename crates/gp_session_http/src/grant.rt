//! What an origin's answer asks to hold, and how the client's stream begins.
ghost use Rattle.std.specs.Prelude.{◌≡◌, IfOk, IfSome};
ghost use Rattle.gp_again.specs.Links.{HasTarget};
ghost use Rattle.gp_instruct.specs.Targets.{IsTarget};
ghost use Rattle.gp_session_http.specs.Asking.{IsAskable};
ghost use Rattle.gp_session_http.specs.Grants.{IsAttachingOf, IsGrantOf, IsWanted, IsHoldOf, IsPrepared, stream_head_by};
ghost use Rattle.gp_session_http.specs.Wishes.{IsWish, most_gathered, status_of};
ghost use Rattle.gp_session_http.specs.declared.grant.Wish.TheVariants as wish;

use crate::asked::Asked;
use crate::attaching::Attaching;
use crate::passed::{code_by, in_chunks, reason_by};
use crate::source::{again_of, link_of};
use gp_answer::{answer_head, streamed};
use gp_exchange::Exchange;
use gp_instruct::{Instruct, Mode};
use gp_instruct_json::{Answer, is_instruct};
use gp_plain::{Body, HoldSpec, Response};
use std::alloc::{AllocError, Global};
use std::snapshot::Snapshot;

/// The most bytes of an opening, and of the response that a long poll has of its own.
const MOST_OPENING: usize = 262_144;

/// The most bytes of a body that is an instruction.
const MOST_INSTRUCTION: usize = 524_288;

/// An answer that asks for a stream. What was asked, the talk and the answer are remembered by contracts alone.
#[derive(Drop)]
pub(crate) struct Grant {
    pub(crate) asked: Snapshot<Asked>,
    pub(crate) exchange: Snapshot<Exchange>,
    pub(crate) answer: Snapshot<Answer>,
    /// The status that is sent.
    pub(crate) code: u16,
    /// Whether what the hold gives goes in chunks.
    pub(crate) chunked: bool,
}

/// What a whole answer asks for.
#[derive(Clone, Copy, Drop)]
pub(crate) enum Wish {
    /// A stream, with an opening that isn't too long.
    Stream,
    /// A stream, with too long an opening.
    LongStream,
    /// A long poll, whose own response isn't too long.
    Poll,
    /// A long poll, with too long a response of its own.
    LongPoll,
    /// No hold: the client gets the response as it is.
    Whole,
}

/// How many bytes of a body are gathered at the most.
pub(crate) fn most_gathered(head: &Response) -> usize
    ensures { result ≡ most_gathered head.now }
{
    if is_instruct(head) {
        MOST_INSTRUCTION
    } else {
        MOST_OPENING
    }
}

/// What an answer asks for.
pub(crate) fn wish_of(answer: &Answer) -> Wish
    ensures { IsWish answer.now result }
{
    match &answer.instruct {
        None => Wish::Whole,
        Some(instruct) => match instruct.mode {
            Some(Mode::Stream) => {
                if answer.body.len() <= MOST_OPENING {
                    Wish::Stream
                } else {
                    Wish::LongStream
                }
            }
            Some(Mode::Response) => {
                if answer.body.len() <= MOST_OPENING {
                    Wish::Poll
                } else {
                    Wish::LongPoll
                }
            }
            None => Wish::Whole,
        },
    }
}

/// The status that an instruction asks for in place of the response's own.
pub(crate) fn status_of(instruct: &Option<Instruct>) -> Option<u16>
    ensures { result ≡ status_of instruct.now }
{
    match instruct {
        None => None,
        Some(instruct) => instruct.status,
    }
}

/// The head with which a stream begins, for a client of this version.
fn stream_head(alloc: Global, answer: &Answer, version: u8) -> Result<Body, AllocError>
    ensures { IfOk result (λ text. text ≡ stream_head_by answer.now version) }
{
    let status = status_of(&answer.instruct);
    let head = &answer.head;
    answer_head(
        alloc,
        code_by(head, status),
        reason_by(head, status),
        head.fields.as_slice(),
        streamed(version),
    )
}

/// What an answer asks for: the head with which the stream begins, the hold, and the link by which missing items are asked for.
#[derive(Drop)]
struct Wanted {
    head: Body,
    spec: HoldSpec,
    link: Option<Body>,
}

/// The hold that an answer asks for.
fn hold_of(alloc: Global, answer: Answer, now: u64) -> Result<HoldSpec, AllocError>
    requires { IsWish answer wish.Stream }
    ensures { IfOk result (IsHoldOf answer now) }
{
    let Answer { instruct, body, .. } = answer;
    match instruct {
        None => unreachable!(),
        Some(instruct) => match instruct.into_spec(alloc, body, now, false)? {
            None => unreachable!(),
            Some(spec) => Ok(spec),
        },
    }
}

/// What is remembered of an answer that asks for a stream.
fn grant_of(asked: &Asked, exchange: &Exchange, answer: &Answer) -> Grant
    ensures { IsGrantOf asked.now exchange.now answer.now result }
{
    Grant {
        asked: Snapshot::of(asked),
        exchange: Snapshot::of(exchange),
        answer: Snapshot::of(answer),
        code: code_by(&answer.head, status_of(&answer.instruct)),
        chunked: in_chunks(streamed(asked.request.head.version)),
    }
}

/// What an answer asks for at a moment, of a client of this version.
fn wanted_of(alloc: Global, version: u8, now: u64, answer: Answer) -> Result<Wanted, AllocError>
    requires { IsWish answer wish.Stream }
    ensures { IfOk result (IsWanted answer version now) }
{
    let head = stream_head(alloc, &answer, version)?;
    let link = link_of(alloc, &answer.instruct)?;
    let spec = hold_of(alloc, answer, now)?;
    Ok(Wanted { head, spec, link })
}

/// What is attached, where an answer asks for this.
fn attaching(
    alloc: Global,
    grant: Grant,
    asked: Asked,
    wanted: Wanted,
) -> Result<Attaching, AllocError>
    requires askable { IsAskable asked }
    requires target { IfSome wanted.link IsTarget }
    ensures { IfOk result (IsAttachingOf grant asked wanted) }
{
    let Wanted { head, spec, link } = wanted;
    match again_of(alloc, asked, &spec, link) {
        Ok(again) => Ok(Attaching {
            grant,
            head,
            spec,
            again,
        }),
        Err(wanting) => {
            drop(grant);
            drop(head);
            drop(spec);
            Err(wanting)
        }
    }
}

/// What is attached for an answer that asks for a stream, the head with which the stream begins, and how it asks for what it missed.
pub(crate) fn prepare(
    alloc: Global,
    asked: Asked,
    exchange: &Exchange,
    answer: Answer,
) -> Result<Attaching, AllocError>
    requires wish { IsWish answer wish.Stream }
    requires askable { IsAskable asked }
    requires target { IfSome answer.instruct HasTarget }
    ensures { IfOk result (IsPrepared asked exchange.now answer) }
{
    let grant = grant_of(&asked, exchange, &answer);
    match wanted_of(alloc, asked.request.head.version, asked.moment, answer) {
        Ok(wanted) => attaching(alloc, grant, asked, wanted),
        Err(wanting) => {
            drop(grant);
            drop(asked);
            Err(wanting)
        }
    }
}
