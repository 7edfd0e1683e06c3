//! A session that expects the head of the origin's response.
ghost use Rattle.std.specs.Prelude.{◌≡◌, IfOk};
ghost use Rattle.gp_session_http.specs.Trace.{Told};
ghost use Rattle.gp_session_http.specs.Moves.{IsAnsweredAt, IsBegunAt, IsBegunWith, IsFailedAt, IsSpeakingAt, Leads};
ghost use Rattle.gp_session_http.specs.Asking.{IsAskable, IsGathered, IsPassed, why_failed};
ghost use Rattle.gp_session_http.specs.declared.stage.Stage.TheVariants as stage;

use crate::asked::Asked;
use crate::failing::Failing;
use crate::finishing::Finishing;
use crate::gathering::Gathering;
use crate::live::Live;
use crate::passing::Passing;
use crate::stage::{Ended, Next, Stage, end_with};
use crate::verdict::{Verdict, verdict_of};
use gp_answer::Refusal;
use gp_exchange::{Exchange, ExchangeFault, Progress};
use gp_hub::{SessionEnd, Why};
use gp_outside::{Clock, Dial, Link};
use gp_plain::{Body, EndCause, Response, Signer};
use std::alloc::{AllocError, Global};
use std::snapshot::Snapshot;

/// Expects the head of the response to what was asked.
#[derive(Drop)]
pub(crate) struct Asking {
    pub(crate) asked: Asked,
    pub(crate) exchange: Exchange,
}

/// Why there is no response.
pub(crate) fn why_failed(fault: ExchangeFault) -> Why
    ensures { result ≡ why_failed fault }
{
    match fault {
        ExchangeFault::Dial => Why::Dial,
        ExchangeFault::Head
        | ExchangeFault::Interim
        | ExchangeFault::Plan(_)
        | ExchangeFault::Body(_) => Why::Origin,
    }
}

impl Asking {
    /// Begins to ask.
    pub(crate) fn new(alloc: Global, signer: &Signer, asked: Asked) -> Result<Asking, AllocError>
        requires { IsAskable asked }
        ensures { IfOk result (IsBegunWith signer.now asked) }
    {
        let exchange = asked.begin(alloc, signer)?;
        Ok(Asking { asked, exchange })
    }

    /// Goes on with the talk, up to the head of the response.
    pub(crate) fn advance<'h, L: Link, D: Dial, C: Clock>(
        mut self,
        live: &mut Live<'h, L, D, C>,
    ) -> Next
        requires told { Told live.old (stage.Asking self) }
        ensures leads { Leads live.old live.new 3 result }
    {
        match live.line.poll(&mut self.exchange) {
            Progress::Head(head) => self.answered(live, head),
            Progress::Fault(fault) => self.fail(live, why_failed(fault)),
            Progress::NotReady => Next::Wait(Stage::Asking(self)),
            Progress::NoMemory => {
                drop(self);
                Next::End(end_with(SessionEnd::NoMemory))
            }
            Progress::Part(_) | Progress::End => unreachable!(),
        }
    }

    /// Goes on behind the head of the response.
    fn answered<'h, L: Link, D: Dial, C: Clock>(
        self,
        live: &mut Live<'h, L, D, C>,
        head: Response,
    ) -> Next
        requires told { IsAnsweredAt live.old self head }
        ensures leads { Leads live.old live.new 3 result }
    {
        match verdict_of(live.alloc, &head, self.asked.request.head.method.bytes()) {
            Verdict::Pass(status) => self.pass(live, head, status),
            Verdict::Gather => self.gather(live, head),
            Verdict::Refuse => {
                live.line.hang_up(&self.exchange);
                self.fail(live, Why::Instruct)
            }
            Verdict::NoMemory => self.give_up(live),
        }
    }

    /// Begins to gather the body of the answer.
    fn gather<'h, L: Link, D: Dial, C: Clock>(
        self,
        live: &mut Live<'h, L, D, C>,
        head: Response,
    ) -> Next
        requires told { IsAnsweredAt live.old self head }
        requires gathered { IsGathered self.asked.request.head.method head }
        ensures leads { Leads live.old live.new 3 result }
    {
        Next::Go(Stage::Gathering(Gathering {
            asked: self.asked,
            exchange: self.exchange,
            head,
            content: Body::empty(live.alloc),
        }))
    }

    /// Begins to pass the response on.
    fn pass<'h, L: Link, D: Dial, C: Clock>(
        self,
        live: &mut Live<'h, L, D, C>,
        head: Response,
        status: Option<u16>,
    ) -> Next
        requires told { IsAnsweredAt live.old self head }
        requires passed { IsPassed self.asked.request.head.method head status }
        ensures leads { Leads live.old live.new 3 result }
    {
        let Ok(text) = self.asked.head_by(live.alloc, &head, status) else {
            return self.give_up(live);
        };
        match live.wire.put(text.bytes(), Body::empty(live.alloc), b"") {
            Err(_) => self.give_up(live),
            Ok(()) => self.begin(live, &head, status),
        }
    }

    /// Goes on to the body, where the client gets one. Else the talk is hung up.
    fn begin<'h, L: Link, D: Dial, C: Clock>(
        self,
        live: &mut Live<'h, L, D, C>,
        head: &Response,
        status: Option<u16>,
    ) -> Next
        requires told { IsBegunAt live.old self head.now status }
        requires passed { IsPassed self.asked.request.head.method head.now status }
        ensures leads { Leads live.old live.new 3 result }
    {
        let passed = self.asked.passed(head, status);
        if self.asked.is_bare_by(head, status) {
            live.line.hang_up(&self.exchange);
            let exchange = Snapshot::of(&self.exchange);
            drop(self);
            Next::Go(Stage::Finishing(Finishing {
                passed,
                exchange,
                cause: EndCause::Closed,
            }))
        } else {
            drop(self.asked);
            Next::Go(Stage::Passing(Passing {
                passed,
                exchange: self.exchange,
            }))
        }
    }

    /// Refuses the response, whose talk is over.
    pub(crate) fn fail<'h, L: Link, D: Dial, C: Clock>(
        self,
        live: &mut Live<'h, L, D, C>,
        why: Why,
    ) -> Next
        requires told { IsFailedAt live.old self why }
        ensures leads { Leads live.old live.new 2 result }
    {
        let asked = Snapshot::of(&self.asked);
        let exchange = Snapshot::of(&self.exchange);
        let refusal = Refusal::BadGateway;
        let body = refusal.body(self.asked.request.head.method.bytes());
        drop(self);
        match live.wire.put(refusal.head(), Body::empty(live.alloc), body) {
            Ok(()) => Next::Go(Stage::Failing(Failing {
                asked,
                exchange,
                why,
            })),
            Err(_) => Next::End(Ended {
                end: SessionEnd::NoMemory,
                why,
            }),
        }
    }

    /// Ends for want of memory, and hangs up.
    fn give_up<'h, L: Link, D: Dial, C: Clock>(self, live: &mut Live<'h, L, D, C>) -> Next
        requires told { IsSpeakingAt live.old self }
        ensures leads { Leads live.old live.new 3 result }
    {
        live.line.hang_up(&self.exchange);
        drop(self);
        Next::End(end_with(SessionEnd::NoMemory))
    }
}
