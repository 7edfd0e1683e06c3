//! A session that gives its client the response that an instruction carries.
ghost use Rattle.std.specs.Prelude.{◌≡◌, IfOk};
ghost use Rattle.gp_session_http.specs.Givings.{body_given, code_given, head_given};
ghost use Rattle.gp_session_http.specs.Trace.{Told};
ghost use Rattle.gp_session_http.specs.Moves.{IsAnsweredWith, Leads};
ghost use Rattle.gp_session_http.specs.Wishes.{IsWish};
ghost use Rattle.gp_session_http.specs.declared.grant.Wish.TheVariants as wish;
ghost use Rattle.gp_session_http.specs.declared.stage.Stage.TheVariants as stage;

use crate::asked::Asked;
use crate::asking::Asking;
use crate::grant::status_of;
use crate::live::Live;
use crate::passed::{code_by, reason_by};
use crate::stage::{Next, Stage, end_with};
use gp_answer::{answer_head, is_bare, whole};
use gp_exchange::Exchange;
use gp_hub::SessionEnd;
use gp_instruct_json::Answer;
use gp_outbox::Flushed;
use gp_outside::{Clock, Dial, Link};
use gp_plain::Body;
use std::alloc::{AllocError, Global};
use std::snapshot::Snapshot;

/// Expects the response to go out. What was asked, the talk and the answer are remembered by contracts alone.
#[derive(Drop)]
pub(crate) struct Giving {
    pub(crate) asked: Snapshot<Asked>,
    pub(crate) exchange: Snapshot<Exchange>,
    pub(crate) answer: Snapshot<Answer>,
    /// The status that is sent.
    pub(crate) code: u16,
}

/// The status that is sent.
fn code_given(answer: &Answer) -> u16
    ensures { result ≡ code_given answer.now }
{
    code_by(&answer.head, status_of(&answer.instruct))
}

/// The head that the client gets: the length of the body is known.
fn head_given(alloc: Global, answer: &Answer) -> Result<Body, AllocError>
    ensures { IfOk result (λ text. text ≡ head_given answer.now) }
{
    let head = &answer.head;
    let code = code_given(answer);
    answer_head(
        alloc,
        code,
        reason_by(head, status_of(&answer.instruct)),
        head.fields.as_slice(),
        whole(code, answer.body.len() as u64),
    )
}

/// The body that it gets.
fn body_given(alloc: Global, answer: Answer) -> Body
    ensures { result ≡ body_given answer }
{
    if is_bare(b"", code_given(&answer)) {
        Body::empty(alloc)
    } else {
        answer.body
    }
}

impl Asking {
    /// Gives the client the response that an answer carries.
    pub(crate) fn give<'h, L: Link, D: Dial, C: Clock>(
        self,
        live: &mut Live<'h, L, D, C>,
        answer: Answer,
    ) -> Next
        requires told { IsAnsweredWith live.old self answer }
        requires wish { IsWish answer wish.Whole }
        ensures leads { Leads live.old live.new 2 result }
    {
        match head_given(live.alloc, &answer) {
            Ok(head) => self.put_given(live, head, answer),
            Err(_) => {
                drop(answer);
                drop(self);
                Next::End(end_with(SessionEnd::NoMemory))
            }
        }
    }

    /// Puts the response that an answer carries, with this head.
    fn put_given<'h, L: Link, D: Dial, C: Clock>(
        self,
        live: &mut Live<'h, L, D, C>,
        head: Body,
        answer: Answer,
    ) -> Next
        requires told { IsAnsweredWith live.old self answer }
        requires wish { IsWish answer wish.Whole }
        requires head { head ≡ head_given answer }
        ensures leads { Leads live.old live.new 2 result }
    {
        let asked = Snapshot::of(&self.asked);
        let exchange = Snapshot::of(&self.exchange);
        let said = Snapshot::of(&answer);
        let code = code_given(&answer);
        drop(self);
        let body = body_given(live.alloc, answer);
        match live.wire.put(head.bytes(), body, b"") {
            Ok(()) => Next::Go(Stage::Giving(Giving {
                asked,
                exchange,
                answer: said,
                code,
            })),
            Err(_) => Next::End(end_with(SessionEnd::NoMemory)),
        }
    }
}

impl Giving {
    /// Sends what waits.
    pub(crate) fn advance<'h, L: Link, D: Dial, C: Clock>(
        self,
        live: &mut Live<'h, L, D, C>,
    ) -> Next
        requires told { Told live.old (stage.Giving self) }
        ensures leads { Leads live.old live.new 1 result }
    {
        match live.wire.flush() {
            Flushed::Empty => Next::End(end_with(SessionEnd::Sent(self.code))),
            Flushed::NotReady => Next::Wait(Stage::Giving(self)),
            Flushed::Failed => Next::End(end_with(SessionEnd::ClientGone)),
        }
    }
}
