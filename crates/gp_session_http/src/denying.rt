//! A session the hold of whose long poll wasn't made, since as many are kept as may be.
ghost use Rattle.gp_session_http.specs.Holding.{HeldLeads, HeldTold};
ghost use Rattle.gp_session_http.specs.declared.held.Held.TheVariants as held;

use crate::held::{Held, HeldNext};
use crate::live::Live;
use crate::poll::Poll;
use crate::stage::Ended;
use gp_hub::{SessionEnd, Why};
use gp_outbox::Flushed;
use gp_outside::{Clock, Dial, Link};

/// Expects the refusal to go out.
#[derive(Drop)]
pub(crate) struct Denying {
    pub(crate) poll: Poll,
}

impl Denying {
    /// Sends what waits.
    pub(crate) fn advance<'h, L: Link, D: Dial, C: Clock>(
        self,
        live: &mut Live<'h, L, D, C>,
    ) -> HeldNext
        requires told { HeldTold live.old (held.Denying self) }
        ensures leads { HeldLeads live.old live.new 1 result }
    {
        match live.wire.flush() {
            Flushed::Empty => HeldNext::End(Ended {
                end: SessionEnd::Sent(503),
                why: Why::Full,
            }),
            Flushed::NotReady => HeldNext::Wait(Held::Denying(self)),
            Flushed::Failed => HeldNext::End(Ended {
                end: SessionEnd::ClientGone,
                why: Why::Full,
            }),
        }
    }
}
