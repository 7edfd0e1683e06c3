//! A session whose long poll has its answer.
ghost use Rattle.gp_session_http.specs.Holding.{HeldLeads, HeldTold};
ghost use Rattle.gp_session_http.specs.declared.held.Held.TheVariants as held;

use crate::held::{Held, HeldNext};
use crate::live::Live;
use crate::poll::Poll;
use crate::stage::end_with;
use gp_hub::SessionEnd;
use gp_outbox::Flushed;
use gp_outside::{Clock, Dial, Link};
use gp_plain::EndCause;
use gp_session_hold::KeptHold;
use std::snapshot::Snapshot;

/// Expects the answer to go out, which has this code. Its hold is remembered by contracts alone.
#[derive(Drop)]
pub(crate) struct Answering {
    pub(crate) poll: Poll,
    pub(crate) hold: Snapshot<KeptHold>,
    pub(crate) cause: EndCause,
    pub(crate) code: u16,
}

impl Answering {
    /// Sends what waits.
    pub(crate) fn advance<'h, L: Link, D: Dial, C: Clock>(
        self,
        live: &mut Live<'h, L, D, C>,
    ) -> HeldNext
        requires told { HeldTold live.old (held.Answering self) }
        ensures leads { HeldLeads live.old live.new 1 result }
    {
        match live.wire.flush() {
            Flushed::Empty => HeldNext::End(end_with(SessionEnd::Sent(self.code))),
            Flushed::NotReady => HeldNext::Wait(Held::Answering(self)),
            Flushed::Failed => HeldNext::End(end_with(SessionEnd::ClientGone)),
        }
    }
}
