//! The session.
ghost use Rattle.std.specs.Prelude.{◌≡◌, MatchResult, option_map};
ghost use Rattle.gp_hub.specs.Sessions.{HasPolled};
ghost use Rattle.gp_session.specs.Seats.{IsFresh};
ghost use Rattle.gp_session_publish.specs.Moves.{Finishes};
ghost use Rattle.gp_session_publish.specs.Polls.{Ends, HasEnded, Leaves, MayGive, PollsTo, Waits, new_open, new_session};

use crate::live::Live;
use crate::reading_head::ReadingHead;
use crate::stage::{Ended, Next, Stage};
use gp_hub::{Hub, HubPass, Outcome, Polled, Session};
use gp_intake::HeadIntake;
use gp_one_request::request_law;
use gp_outside::Link;
use gp_plain::HoldReports;
use std::alloc::Global;
use std::marker::Model;

/// A session that goes on: its ends, and what it expects. Its rows hold.
#[derive(Drop)]
pub(crate) struct Open<'h, L: Link> {
    live: Live<'h, L>,
    stage: Stage,
}

impl<'h, L: Link> Model for Open<'h, L> {
    ghost use Rattle.gp_session_publish.specs.Polls.{OpenView};
    ghost use Rattle.gp_session_publish.specs.Trace.{Told};

    ghost Value = { OpenView };

    ghost view = { λ o. record { live = o.live; stage = o.stage } };

    ghost invariant = { λ o. Told o.live o.stage };
}

/// A session with a publisher. It reads one request, `POST /publish` or `POST /publish/`, publishes the items of its body in
/// order, each by one call of the hub, and answers 200 once all stand. Else it answers a refusal, and publishes nothing. It ends
/// no other way unless its input ends too early, its link fails, the hub serves no more or memory is wanting.
#[derive(Drop)]
pub struct PublishSession<'h, L: Link> {
    open: Option<Open<'h, L>>,
    left: Option<L>,
}

impl<'h, L: Link> Model for PublishSession<'h, L> {
    ghost use Rattle.std.specs.Prelude.{◌≡◌, ◌⊎◌, None, option_map};
    ghost use Rattle.gp_session_publish.specs.Polls.{SessionView};

    ghost Value = { SessionView };

    ghost view = { λ s. record { open_is = s.open; left = option_map L.tells s.left } };

    ghost invariant = { λ s. (s.open ≡ None) ⊎ (s.left ≡ None) };
}

/// What a session leaves: its outcome, and its link.
type Left<L> = (Outcome, L);

/// What the ends of a session leave. It attached no hold.
fn left<'h, L: Link>(live: Live<'h, L>, ended: Ended) -> Left<L>
    requires { Finishes live ended }
    ensures { Leaves live.entry result.0 (L.tells result.1) }
{
    request_law();
    let Live { alloc, wire, seat } = live;
    let outcome = Outcome {
        end: ended.end,
        why: ended.why,
        published: ended.published,
        holds: HoldReports::new(alloc),
        pass: seat.into_pass(),
    };
    (outcome, wire.into_link())
}

impl<'h, L: Link> Open<'h, L> {
    /// A session that begins.
    fn new(alloc: Global, hub: &'h Hub, pass: HubPass, link: L) -> Open<'h, L>
        requires turn { pass.turn ≡ hub.now }
        requires fresh { IsFresh pass }
        ensures { result ≡ new_open (L.tells link) pass }
    {
        // A range has at least one number, its pass's own.
        let _some = pass.spare();
        Open {
            live: Live::new(alloc, hub, pass, link),
            stage: Stage::ReadingHead(ReadingHead {
                intake: HeadIntake::new(alloc),
            }),
        }
    }

    /// Makes moves until one waits, or ends the session.
    fn advance(self) -> Result<Open<'h, L>, Left<L>>
        ensures { MatchResult result (Waits self.entry.live) (λ left. Ends self.entry.live left.0 (L.tells left.1)) }
    {
        let Open {
            mut live,
            mut stage,
        } = self;
        loop {
            match stage.advance(&mut live) {
                Next::Go(next) => stage = next,
                Next::Wait(next) => return Ok(Open { live, stage: next }),
                Next::End(ended) => return Err(left(live, ended)),
            }
        }
    }
}

impl<'h, L: Link> PublishSession<'h, L> {
    /// A session of a publisher's link. No entry of what the pass has seen is of a number of its range. It takes no memory.
    pub fn new(alloc: Global, hub: &'h Hub, pass: HubPass, link: L) -> PublishSession<'h, L>
        requires turn { pass.turn ≡ hub.now }
        requires fresh { IsFresh pass }
        ensures { result ≡ new_session (L.tells link) pass }
    {
        PublishSession {
            open: Some(Open::new(alloc, hub, pass, link)),
            left: None,
        }
    }

    /// The link as it stands, once a poll gave an outcome, and None before. It takes no memory.
    pub fn parts(self) -> Option<L>
        ensures { option_map L.tells result ≡ self.entry.left }
    {
        self.left
    }
}

impl<'h, L: Link> Session for PublishSession<'h, L> {
    type Output = Outcome;

    ghost ended = { HasEnded };

    ghost may_give = { MayGive };

    fn poll(&mut self) -> Polled<Outcome>
        requires open { HasEnded self.old → ⊥ }
        ensures polled { HasPolled HasEnded MayGive self.old self.new result }
        ensures turned { PollsTo self.old self.new result }
    {
        match self.open.take() {
            Some(open) => match open.advance() {
                Ok(open) => {
                    self.open = Some(open);
                    Polled::Pending
                }
                Err((outcome, link)) => {
                    self.left = Some(link);
                    Polled::Ready(outcome)
                }
            },
            None => unreachable!(),
        }
    }
}
