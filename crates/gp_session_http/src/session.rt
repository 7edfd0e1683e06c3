//! The session.
ghost use Rattle.std.specs.Prelude.{◌≡◌, MatchResult, option_map};
ghost use Rattle.gp_hub.specs.Sessions.{HasPolled};
ghost use Rattle.gp_session.specs.Seats.{IsFresh};
ghost use Rattle.gp_session_http.specs.Completeness.{Completes};
ghost use Rattle.gp_session_http.specs.Polls.{Ends, HasEnded, IsNew, Leaves, MayGive, PhaseFinishes, PhaseTold, PollsTo, Waits, at_poll, begun, polled, new_session};

use crate::finish::Finish;
use crate::held::{Held, HeldNext};
use crate::live::Live;
use crate::reading_head::ReadingHead;
use crate::stage::{Ended, Next, Stage};
use gp_asking::failing_law;
use gp_hub::{Hub, HubPass, Outcome, Polled, Session};
use gp_intake::HeadIntake;
use gp_one_answer::{answer_law, page_law};
use gp_one_request::request_law;
use gp_outside::{Clock, Dial, Link};
use gp_plain::{Body, HoldReports, Signer};
use gp_routes::Routes;
use gp_session::{Line, Seat, Watch, Wire};
use std::alloc::Global;
use std::marker::Model;
use std::mem;

/// What a session expects: where it keeps no hold, or since its origin's answer asked for one.
#[derive(Drop)]
pub(crate) enum Phase {
    /// No answer has asked for a hold, or none since the last long poll.
    Free(Stage),
    /// An answer asked for a hold.
    Held(Held),
}

/// A session that goes on: its ends, and what it expects. Its rows hold.
#[derive(Drop)]
pub(crate) struct Open<'h, L: Link, D: Dial, C: Clock> {
    live: Live<'h, L, D, C>,
    phase: Phase,
}

impl<'h, L: Link, D: Dial, C: Clock> Model for Open<'h, L, D, C> {
    ghost use Rattle.gp_session_http.specs.Completeness.{Completes};
    ghost use Rattle.gp_session_http.specs.Polls.{OpenView, PhaseTold};

    ghost Value = { OpenView };

    ghost view = { λ o. record { live = o.live; phase = o.phase } };

    ghost invariant = { λ o. PhaseTold o.live o.phase };
}

/// The devices of a session.
#[derive(Drop)]
pub(crate) struct Devices<L: Link, D: Dial, C: Clock> {
    link: L,
    dial: D,
    clock: C,
}

impl<L: Link, D: Dial, C: Clock> Model for Devices<L, D, C> {
    ghost use Rattle.gp_session_http.specs.Completeness.{Completes};
    ghost use Rattle.gp_session_http.specs.Polls.{DevicesView};

    ghost Value = { DevicesView };

    ghost view = { λ d. record { link = L.tells d.link; dial = D.tells d.dial; clock = C.tells d.clock } };
}

impl<L: Link, D: Dial, C: Clock> Devices<L, D, C> {
    fn parts(self) -> (L, D, C)
        ensures { record { link = L.tells result.0; dial = D.tells result.1; clock = C.tells result.2 } ≡ self }
    {
        (self.link, self.dial, self.clock)
    }
}

/// A session with a client of HTTP. It reads one request, asks the origin of the first route that it meets, and passes the
/// response on, part by part; or, where the response asks for a hold, attaches it. A stream is sent what its hold gives. A long poll
/// is sent one answer: that of the item that comes, or the origin's own at the deadline. Where items were missed the origin is asked
/// again, at most 8 times. A request that no route meets is answered 404, one for a WebSocket 501, one whose origin gives no response
/// that can be passed on 502, and one whose hold can't be made 503.
#[derive(Drop)]
pub struct HttpSession<'h, L: Link, D: Dial, C: Clock> {
    open: Option<Open<'h, L, D, C>>,
    left: Option<Devices<L, D, C>>,
}

impl<'h, L: Link, D: Dial, C: Clock> Model for HttpSession<'h, L, D, C> {
    ghost use Rattle.std.specs.Prelude.{◌≡◌, ◌⊎◌, None};
    ghost use Rattle.gp_session_http.specs.Completeness.{Completes};
    ghost use Rattle.gp_session_http.specs.Polls.{SessionView};

    ghost Value = { SessionView };

    ghost view = { λ s. record { open_is = s.open; left = s.left } };

    ghost invariant = { λ s. (s.open ≡ None) ⊎ (s.left ≡ None) };
}

/// What a session leaves: its outcome, and its devices.
type Left<L, D, C> = (Outcome, Devices<L, D, C>);

/// A session that ends so ends well, or something kept it from that.
fn completes<'h, L: Link, D: Dial, C: Clock>(live: &Live<'h, L, D, C>, ended: &Ended)
    requires ends { PhaseFinishes live.now ended.now }
    ensures completes { Completes live.now ended.now }
{
    let _live = live;
    let _ended = ended;
    request_law();
    answer_law();
    page_law();
    failing_law();
}

/// What the ends of a session leave. It published nothing.
fn left<'h, L: Link, D: Dial, C: Clock>(live: Live<'h, L, D, C>, ended: Ended) -> Left<L, D, C>
    requires { PhaseFinishes live ended }
    ensures { Leaves live.entry result.0 result.1 }
{
    completes(&live, &ended);
    let outcome = Outcome {
        end: ended.end,
        why: ended.why,
        published: 0,
        holds: live.reports,
        pass: live.seat.into_pass(),
    };
    let devices = Devices {
        link: live.wire.into_link(),
        dial: live.line.into_dial(),
        clock: live.watch.into_clock(),
    };
    (outcome, devices)
}

/// Makes moves, until one waits, or ends the session.
fn advance<'h, L: Link, D: Dial, C: Clock>(
    live: Live<'h, L, D, C>,
    phase: Phase,
) -> Result<Open<'h, L, D, C>, Left<L, D, C>>
    requires told { PhaseTold live phase }
    ensures { MatchResult result (Waits (record { live = live.entry; phase = phase })) (λ left. Ends live.entry left.0 left.1) }
{
    let mut live = live;
    let mut phase = phase;
    loop {
        match phase {
            Phase::Free(stage) => match stage.advance(&mut live) {
                Next::Go(next) => phase = Phase::Free(next),
                Next::Hold(next) => phase = Phase::Held(next),
                Next::Wait(next) => {
                    return Ok(Open {
                        live,
                        phase: Phase::Free(next),
                    });
                }
                Next::End(ended) => return Err(left(live, ended)),
            },
            Phase::Held(stage) => match stage.advance(&mut live) {
                HeldNext::Go(next) => phase = Phase::Held(next),
                HeldNext::Again(next) => phase = Phase::Free(Stage::Asking(next)),
                HeldNext::Wait(next) => {
                    return Ok(Open {
                        live,
                        phase: Phase::Held(next),
                    });
                }
                HeldNext::End(ended) => return Err(left(live, ended)),
            },
        }
    }
}

impl<'h, L: Link, D: Dial, C: Clock> Open<'h, L, D, C> {
    /// A session that begins.
    fn new(live: Live<'h, L, D, C>) -> Open<'h, L, D, C>
        requires new { IsNew live }
        ensures { result ≡ begun live.entry }
    {
        let alloc = live.alloc;
        Open {
            live,
            phase: Phase::Free(Stage::ReadingHead(ReadingHead {
                intake: HeadIntake::new(alloc),
            })),
        }
    }

    /// Makes the moves of one poll.
    fn advance(self) -> Result<Open<'h, L, D, C>, Left<L, D, C>>
        ensures { MatchResult result (Waits (polled self.entry)) (λ left. Ends (at_poll self.entry.live) left.0 left.1) }
    {
        let Open { mut live, phase } = self;
        live.watch.begin();
        advance(live, phase)
    }
}

impl<'h, L: Link, D: Dial, C: Clock> HttpSession<'h, L, D, C> {
    /// A session of a client's link, over a dialer of origins and a clock. No entry of what the pass has seen is of a number of its
    /// range. Tokens are signed by the signer's key, where it has one. It takes no memory.
    pub fn new(
        alloc: Global,
        hub: &'h Hub,
        pass: HubPass,
        routes: &'h Routes,
        signer: &'h Signer,
        tag: Body,
        link: L,
        dial: D,
        clock: C,
    ) -> HttpSession<'h, L, D, C>
        requires turn { pass.turn ≡ hub.now }
        requires fresh { IsFresh pass }
        ensures { result ≡ new_session (record { link = L.tells link; dial = D.tells dial; clock = C.tells clock }) pass (record { rules = routes.now; signer = signer.now; tag = tag }) }
    {
        // A range has at least one number, its pass's own.
        let _some = pass.spare();
        let live = Live {
            alloc,
            wire: Wire::new(alloc, link),
            line: Line::new(dial),
            watch: Watch::new(clock),
            seat: Seat::new(hub, pass),
            routes,
            signer,
            tag,
            reports: HoldReports::new(alloc),
        };
        HttpSession {
            open: Some(Open::new(live)),
            left: None,
        }
    }

    /// The devices as they stand, once a poll gave an outcome, and None before. It takes no memory.
    pub fn parts(self) -> Option<(L, D, C)>
        ensures { option_map (λ d. record { link = L.tells d.0; dial = D.tells d.1; clock = C.tells d.2 }) result ≡ self.entry.left }
    {
        let HttpSession { open, left } = self;
        drop(open);
        left.map(Devices::parts)
    }
}

impl<'h, L: Link, D: Dial, C: Clock> Session for HttpSession<'h, L, D, C> {
    type Output = Finish<L, D, C>;

    ghost ended = { HasEnded };

    ghost may_give = { MayGive };

    fn poll(&mut self) -> Polled<Finish<L, D, C>>
        requires open { HasEnded self.old → ⊥ }
        ensures polled { HasPolled HasEnded MayGive self.old self.new result }
        ensures turned { PollsTo self.old self.new result }
    {
        match self.open.take() {
            Some(open) => match open.advance() {
                Ok(open) => {
                    drop(mem::replace(&mut self.open, Some(open)));
                    Polled::Pending
                }
                Err((outcome, devices)) => {
                    drop(mem::replace(&mut self.left, Some(devices)));
                    Polled::Ready(Finish::Done(outcome))
                }
            },
            None => unreachable!(),
        }
    }
}
