//! A session that gathers the body of an answer, which asks for a hold, or is an instruction itself.
ghost use Rattle.std.specs.Prelude.{◌≡◌, ◌++◌, ◌≤◌, ◌+◌, ◌-◌, IfOk, length, nat_lt};
ghost use Rattle.gp_session_http.specs.Trace.{Told};
ghost use Rattle.gp_session_http.specs.Moves.{GathersTo, HasCome, HasComeAll, HasFailedAt, IsAnsweredWith, Leads};
ghost use Rattle.gp_session_http.specs.Wishes.{IsWish, most_gathered};
ghost use Rattle.gp_session_http.specs.declared.grant.Wish.TheVariants as wish;
ghost use Rattle.gp_session_http.specs.declared.stage.Stage.TheVariants as stage;

use crate::asked::Asked;
use crate::asking::{Asking, why_failed};
use crate::grant::{Wish, most_gathered, prepare, wish_of};
use crate::held::Held;
use crate::live::Live;
use crate::poll::pose;
use crate::stage::{Next, Stage, end_with};
use gp_again::link_law;
use gp_exchange::{Exchange, Progress, forward_law};
use gp_hub::{SessionEnd, Why};
use gp_instruct_json::{Answer, AnswerFault, read_answer};
use gp_outside::{Clock, Dial, Link};
use gp_plain::{Body, Response};
use std::alloc::{AllocError, Global};

/// Expects the rest of the body of an answer with this head, of which this has come.
#[derive(Drop)]
pub(crate) struct Gathering {
    pub(crate) asked: Asked,
    pub(crate) exchange: Exchange,
    pub(crate) head: Response,
    pub(crate) content: Body,
}

/// What a part of a body, or what came in its place, leads to.
#[derive(Drop)]
pub(crate) enum Gathered {
    /// A part has come.
    More(Gathering),
    /// No part is waited for any more in this poll.
    Next(Next),
}

/// Whether content of an answer with this head is too long with one more part.
fn is_too_long(head: &Response, content: &Body, part: &Body) -> bool
    requires { length content.now ≤ most_gathered head.now }
    ensures { result ≡ nat_lt (most_gathered head.now - length content.now) (length part.now) }
{
    most_gathered(head) - content.len() < part.len()
}

/// Bytes, with more behind them.
fn joined(content: Body, part: &Body) -> Result<Body, AllocError>
    ensures { IfOk result (λ all. all ≡ content ++ part.now) }
{
    let mut bytes = content.into_vec();
    bytes.extend_from_slice(part.bytes())?;
    Ok(Body::from_vec(bytes))
}

impl Gathering {
    /// Gathers parts, until one has to be waited for or the body has ended.
    pub(crate) fn advance<'h, L: Link, D: Dial, C: Clock>(
        self,
        live: &mut Live<'h, L, D, C>,
    ) -> Next
        requires told { Told live.old (stage.Gathering self) }
        ensures leads { Leads live.old live.new 2 result }
    {
        let mut stage = self;
        loop {
            match stage.gather(live) {
                Gathered::More(next) => stage = next,
                Gathered::Next(next) => return next,
            }
        }
    }

    /// Receives one part.
    fn gather<'h, L: Link, D: Dial, C: Clock>(mut self, live: &mut Live<'h, L, D, C>) -> Gathered
        requires told { Told live.old (stage.Gathering self) }
        ensures gathers { GathersTo live.old live.new (length self.content) result }
    {
        match live.line.poll(&mut self.exchange) {
            Progress::Part(part) => self.add(live, part),
            Progress::End => Gathered::Next(self.read(live)),
            Progress::Fault(fault) => Gathered::Next(self.fail(live, why_failed(fault))),
            Progress::NotReady => Gathered::Next(Next::Wait(Stage::Gathering(self))),
            Progress::NoMemory => {
                drop(self);
                Gathered::Next(Next::End(end_with(SessionEnd::NoMemory)))
            }
            Progress::Head(_) => unreachable!(),
        }
    }

    /// Adds a part that has come, where there isn't too much.
    fn add<'h, L: Link, D: Dial, C: Clock>(
        self,
        live: &mut Live<'h, L, D, C>,
        part: Body,
    ) -> Gathered
        requires told { HasCome live.old self part }
        ensures gathers { GathersTo live.old live.new (length self.content) result }
    {
        if is_too_long(&self.head, &self.content, &part) {
            live.line.hang_up(&self.exchange);
            Gathered::Next(self.fail(live, Why::Origin))
        } else {
            self.keep(live, part)
        }
    }

    /// Adds a part.
    fn keep<'h, L: Link, D: Dial, C: Clock>(
        self,
        live: &mut Live<'h, L, D, C>,
        part: Body,
    ) -> Gathered
        requires told { HasCome live.old self part }
        requires short { length self.content + length part ≤ most_gathered self.head }
        ensures gathers { GathersTo live.old live.new (length self.content) result }
    {
        let Gathering {
            asked,
            exchange,
            head,
            content,
        } = self;
        match joined(content, &part) {
            Ok(content) => Gathered::More(Gathering {
                asked,
                exchange,
                head,
                content,
            }),
            Err(_) => {
                live.line.hang_up(&exchange);
                drop(asked);
                drop(exchange);
                drop(head);
                Gathered::Next(Next::End(end_with(SessionEnd::NoMemory)))
            }
        }
    }

    /// Reads what a whole answer asks for.
    fn read<'h, L: Link, D: Dial, C: Clock>(self, live: &mut Live<'h, L, D, C>) -> Next
        requires told { HasComeAll live.old self }
        ensures leads { Leads live.old live.new 2 result }
    {
        let Gathering {
            asked,
            exchange,
            head,
            content,
        } = self;
        let asking = Asking { asked, exchange };
        match read_answer(live.alloc, head, content) {
            Ok(answer) => asking.grant(live, answer),
            Err(AnswerFault::Refused) => asking.fail(live, Why::Instruct),
            Err(AnswerFault::NoMemory) => {
                drop(asking);
                Next::End(end_with(SessionEnd::NoMemory))
            }
        }
    }

    /// Refuses the response, whose talk is over.
    fn fail<'h, L: Link, D: Dial, C: Clock>(self, live: &mut Live<'h, L, D, C>, why: Why) -> Next
        requires told { HasFailedAt live.old self why }
        ensures leads { Leads live.old live.new 2 result }
    {
        let Gathering {
            asked,
            exchange,
            ..
        } = self;
        Asking { asked, exchange }.fail(live, why)
    }
}

impl Asking {
    /// Goes on behind a whole answer.
    fn grant<'h, L: Link, D: Dial, C: Clock>(
        self,
        live: &mut Live<'h, L, D, C>,
        answer: Answer,
    ) -> Next
        requires told { IsAnsweredWith live.old self answer }
        ensures leads { Leads live.old live.new 2 result }
    {
        match wish_of(&answer) {
            Wish::Stream => self.hold(live, answer),
            Wish::Poll => self.wait(live, answer),
            Wish::LongStream | Wish::LongPoll => self.fail(live, Why::Origin),
            Wish::Whole => self.give(live, answer),
        }
    }

    /// Goes on to attach the stream that an answer asks for.
    fn hold<'h, L: Link, D: Dial, C: Clock>(
        self,
        live: &mut Live<'h, L, D, C>,
        answer: Answer,
    ) -> Next
        requires told { IsAnsweredWith live.old self answer }
        requires wish { IsWish answer wish.Stream }
        ensures leads { Leads live.old live.new 2 result }
    {
        forward_law();
        link_law();
        let Asking { asked, exchange } = self;
        let prepared = prepare(live.alloc, asked, &exchange, answer);
        drop(exchange);
        match prepared {
            Ok(attaching) => Next::Hold(Held::Attaching(attaching)),
            Err(_) => Next::End(end_with(SessionEnd::NoMemory)),
        }
    }

    /// Goes on to attach the long poll that an answer asks for.
    fn wait<'h, L: Link, D: Dial, C: Clock>(
        self,
        live: &mut Live<'h, L, D, C>,
        answer: Answer,
    ) -> Next
        requires told { IsAnsweredWith live.old self answer }
        requires wish { IsWish answer wish.Poll }
        ensures leads { Leads live.old live.new 2 result }
    {
        let Asking { asked, exchange } = self;
        let posed = pose(live.alloc, asked, &exchange, answer);
        drop(exchange);
        match posed {
            Ok(beginning) => Next::Hold(Held::Beginning(beginning)),
            Err(_) => Next::End(end_with(SessionEnd::NoMemory)),
        }
    }
}
