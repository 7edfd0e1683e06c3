//! A session that passes the body of a response on.
ghost use Rattle.std.specs.Prelude.{◌≡◌, ◌<◌, [], length};
ghost use Rattle.gp_session_http.specs.Trace.{Told};
ghost use Rattle.gp_session_http.specs.Moves.{HasGiven, HasGivenAll, Leads, PutsPart, StepsTo};
ghost use Rattle.gp_session_http.specs.declared.stage.Stage.TheVariants as stage;

use crate::finishing::Finishing;
use crate::live::Live;
use crate::passed::Passed;
use crate::stage::{Next, Stage, end_with};
use gp_answer::last_chunk;
use gp_body::chunk_head;
use gp_exchange::{Exchange, Progress};
use gp_hub::SessionEnd;
use gp_outbox::Flushed;
use gp_outside::{Clock, Dial, Link};
use gp_plain::{Body, EndCause};
use gp_session::Wire;
use std::alloc::AllocError;
use std::snapshot::Snapshot;

/// The most parts that are passed on in one poll.
const PARTS: u64 = 16;

/// Expects the rest of the response's body.
#[derive(Drop)]
pub(crate) struct Passing {
    pub(crate) passed: Passed,
    pub(crate) exchange: Exchange,
}

/// What a part of a body, or what came in its place, leads to.
#[derive(Drop)]
pub(crate) enum Step {
    /// A part was passed on.
    Part(Passing),
    /// No part is passed on any more in this poll.
    Next(Next),
}

/// Puts a part behind the bytes that wait, as one chunk where the body goes in chunks. Where memory is wanting it is handed back.
fn put_part<L: Link>(
    wire: &mut Wire<L>,
    chunked: bool,
    part: Body,
) -> Result<(), (Body, AllocError)>
    requires some { 0 < length part }
    ensures { PutsPart wire.old wire.new chunked part result }
{
    if chunked {
        let mut line = [0; 18];
        let count = chunk_head(part.len() as u64, &mut line);
        wire.put(&line[..count], part, b"\r\n")
    } else {
        wire.put(b"", part, b"")
    }
}

impl Passing {
    /// Passes parts on, until one has to wait or the response has ended.
    pub(crate) fn advance<'h, L: Link, D: Dial, C: Clock>(
        self,
        live: &mut Live<'h, L, D, C>,
    ) -> Next
        requires told { Told live.old (stage.Passing self) }
        ensures leads { Leads live.old live.new 2 result }
    {
        let mut stage = self;
        for _part in 0..PARTS {
            match stage.pass(live) {
                Step::Part(next) => stage = next,
                Step::Next(next) => return next,
            }
        }
        Next::Wait(Stage::Passing(stage))
    }

    /// Passes one part on, once all that was said has gone out.
    fn pass<'h, L: Link, D: Dial, C: Clock>(self, live: &mut Live<'h, L, D, C>) -> Step
        requires told { Told live.old (stage.Passing self) }
        ensures steps { StepsTo live.old live.new self.passed.chunked result }
    {
        match live.wire.flush() {
            Flushed::Empty => self.receive(live),
            Flushed::NotReady => Step::Next(Next::Wait(Stage::Passing(self))),
            Flushed::Failed => {
                live.line.hang_up(&self.exchange);
                drop(self);
                Step::Next(Next::End(end_with(SessionEnd::ClientGone)))
            }
        }
    }

    /// Receives a part, where no byte waits for the client.
    fn receive<'h, L: Link, D: Dial, C: Clock>(mut self, live: &mut Live<'h, L, D, C>) -> Step
        requires told { Told live.old (stage.Passing self) }
        requires empty { live.old.wire.rest ≡ [] }
        ensures steps { StepsTo live.old live.new self.passed.chunked result }
    {
        match live.line.poll(&mut self.exchange) {
            Progress::Part(part) => self.put(live, part),
            Progress::End => Step::Next(self.finish(live)),
            Progress::Fault(_) => {
                let finishing = self.over(EndCause::Unrecovered);
                Step::Next(Next::Go(Stage::Finishing(finishing)))
            }
            Progress::NotReady => Step::Next(Next::Wait(Stage::Passing(self))),
            Progress::NoMemory => {
                drop(self);
                Step::Next(Next::End(end_with(SessionEnd::NoMemory)))
            }
            Progress::Head(_) => unreachable!(),
        }
    }

    /// Puts a part that the talk gave.
    fn put<'h, L: Link, D: Dial, C: Clock>(self, live: &mut Live<'h, L, D, C>, part: Body) -> Step
        requires told { HasGiven live.old self part }
        ensures steps { StepsTo live.old live.new self.passed.chunked result }
    {
        match put_part(&mut live.wire, self.passed.chunked, part) {
            Ok(()) => Step::Part(self),
            Err(_) => {
                live.line.hang_up(&self.exchange);
                drop(self);
                Step::Next(Next::End(end_with(SessionEnd::NoMemory)))
            }
        }
    }

    /// Puts the last chunk of a whole response, where it goes in chunks.
    fn finish<'h, L: Link, D: Dial, C: Clock>(self, live: &mut Live<'h, L, D, C>) -> Next
        requires told { HasGivenAll live.old self }
        ensures leads { Leads live.old live.new 2 result }
    {
        let last = last_chunk(self.passed.chunked, Some(EndCause::Closed));
        match live.wire.put(b"", Body::empty(live.alloc), last) {
            Ok(()) => Next::Go(Stage::Finishing(self.over(EndCause::Closed))),
            Err(_) => {
                drop(self);
                Next::End(end_with(SessionEnd::NoMemory))
            }
        }
    }

    /// On to the end of the response.
    fn over(self, cause: EndCause) -> Finishing
        ensures passed { result.passed ≡ self.passed }
        ensures exchange { result.exchange.value ≡ self.exchange }
        ensures cause { result.cause ≡ cause }
    {
        let exchange = Snapshot::of(&self.exchange);
        drop(self.exchange);
        Finishing {
            passed: self.passed,
            exchange,
            cause,
        }
    }
}
