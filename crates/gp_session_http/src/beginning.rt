//! A session that attaches the hold of a long poll.
ghost use Rattle.gp_session_http.specs.Holding.{HeldLeads, HeldTold};
ghost use Rattle.gp_session_http.specs.LongPolls.{IsDeniedAt};
ghost use Rattle.gp_session_http.specs.declared.held.Held.TheVariants as held;

use crate::asked::Asked;
use crate::denying::Denying;
use crate::held::{Held, HeldNext};
use crate::live::Live;
use crate::poll::Poll;
use crate::stage::{Ended, end_with};
use crate::waiting::Waiting;
use gp_answer::Refusal;
use gp_hub::{SessionEnd, Why};
use gp_outside::{Clock, Dial, Link};
use gp_plain::Body;
use gp_session_wait::{Began, Opening};
use std::snapshot::Snapshot;

/// Expects the hub's turn, to attach this hold. The request is kept where it may be repeated.
#[derive(Drop)]
pub(crate) struct Beginning {
    pub(crate) poll: Poll,
    pub(crate) opening: Opening,
    pub(crate) again: Option<Asked>,
}

impl Beginning {
    /// Attaches the hold, whose deadline is by the moment of this poll.
    pub(crate) fn advance<'h, L: Link, D: Dial, C: Clock>(
        self,
        live: &mut Live<'h, L, D, C>,
    ) -> HeldNext
        requires told { HeldTold live.old (held.Beginning self) }
        ensures leads { HeldLeads live.old live.new 5 result }
    {
        let now = live.watch.moment();
        let Beginning {
            poll,
            opening,
            again,
        } = self;
        match opening.attach(&mut live.seat, &mut live.reports, now) {
            Began::Waits(wait) => {
                let since = Snapshot::of(&now);
                HeldNext::Go(Held::Waiting(Waiting {
                    poll,
                    wait,
                    again,
                    since,
                }))
            }
            Began::Full => {
                drop(again);
                deny(live, poll)
            }
            Began::Busy(opening) => HeldNext::Wait(Held::Beginning(Beginning {
                poll,
                opening,
                again,
            })),
            Began::Worn => HeldNext::End(end_with(SessionEnd::Worn)),
            Began::NoMemory => HeldNext::End(end_with(SessionEnd::NoMemory)),
        }
    }
}

/// Refuses the request, since no hold was made.
fn deny<'h, L: Link, D: Dial, C: Clock>(live: &mut Live<'h, L, D, C>, poll: Poll) -> HeldNext
    requires told { IsDeniedAt live.old poll }
    ensures leads { HeldLeads live.old live.new 5 result }
{
    let refusal = Refusal::Unavailable;
    match live
        .wire
        .put(refusal.head(), Body::empty(live.alloc), refusal.body(b""))
    {
        Ok(()) => HeldNext::Go(Held::Denying(Denying { poll })),
        Err(_) => HeldNext::End(Ended {
            end: SessionEnd::NoMemory,
            why: Why::Full,
        }),
    }
}
