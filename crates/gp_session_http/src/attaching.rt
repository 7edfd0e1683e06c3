//! A session that attaches a hold.
ghost use Rattle.gp_session_http.specs.Holding.{HeldLeads, HeldTold, IsAttachedAt, IsDeclinedAt};
ghost use Rattle.gp_session_http.specs.declared.held.Held.TheVariants as held;

use crate::declining::Declining;
use crate::grant::Grant;
use crate::held::{Held, HeldNext};
use crate::leaving::{Leaving, Parting};
use crate::live::Live;
use crate::stage::{Ended, end_with};
use crate::streaming::Streaming;
use gp_again::Again;
use gp_answer::Refusal;
use gp_hub::{SessionEnd, Why};
use gp_outside::{Clock, Dial, Link};
use gp_plain::{Body, HoldSpec};
use gp_session_hold::{KeptHold, Opened, Stream, attach};
use gp_session_recover::Recovering;

/// Expects the hub's turn, to attach this hold. The stream begins with this head, and asks so for what it missed.
#[derive(Drop)]
pub(crate) struct Attaching {
    pub(crate) grant: Grant,
    pub(crate) head: Body,
    pub(crate) spec: HoldSpec,
    pub(crate) again: Option<Again>,
}

impl Attaching {
    /// Attaches the hold.
    pub(crate) fn advance<'h, L: Link, D: Dial, C: Clock>(
        self,
        live: &mut Live<'h, L, D, C>,
    ) -> HeldNext
        requires told { HeldTold live.old (held.Attaching self) }
        ensures leads { HeldLeads live.old live.new 3 result }
    {
        let Attaching {
            grant,
            head,
            spec,
            again,
        } = self;
        match attach(live.alloc, &mut live.seat, &mut live.reports, spec) {
            Opened::Kept(hold) => begin(live, grant, head, again, hold),
            Opened::Full => {
                drop(head);
                drop(again);
                decline(live, grant)
            }
            Opened::Busy(spec) => HeldNext::Wait(Held::Attaching(Attaching {
                grant,
                head,
                spec,
                again,
            })),
            Opened::Worn => {
                drop(again);
                HeldNext::End(end_with(SessionEnd::Worn))
            }
            Opened::NoMemory => {
                drop(again);
                HeldNext::End(end_with(SessionEnd::NoMemory))
            }
        }
    }
}

/// Begins the stream of a hold that was attached.
fn begin<'h, L: Link, D: Dial, C: Clock>(
    live: &mut Live<'h, L, D, C>,
    grant: Grant,
    head: Body,
    again: Option<Again>,
    hold: KeptHold,
) -> HeldNext
    requires told { IsAttachedAt live.old grant head again hold }
    ensures leads { HeldLeads live.old live.new 3 result }
{
    match Stream::new(live.alloc, &mut live.wire, hold, grant.chunked, head) {
        Ok(stream) => HeldNext::Go(Held::Streaming(Streaming {
            grant,
            recovering: Recovering::new(live.alloc, stream, again),
        })),
        Err(hold) => {
            drop(again);
            HeldNext::Go(Held::Leaving(Leaving {
                grant,
                hold,
                parting: Parting::Wanting,
            }))
        }
    }
}

/// Refuses the request, since no hold was made.
fn decline<'h, L: Link, D: Dial, C: Clock>(live: &mut Live<'h, L, D, C>, grant: Grant) -> HeldNext
    requires told { IsDeclinedAt live.old grant }
    ensures leads { HeldLeads live.old live.new 3 result }
{
    let refusal = Refusal::Unavailable;
    match live
        .wire
        .put(refusal.head(), Body::empty(live.alloc), refusal.body(b""))
    {
        Ok(()) => HeldNext::Go(Held::Declining(Declining { grant })),
        Err(_) => HeldNext::End(Ended {
            end: SessionEnd::NoMemory,
            why: Why::Full,
        }),
    }
}
