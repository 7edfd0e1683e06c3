//! A session whose stream has ended.
ghost use Rattle.gp_session_http.specs.Holding.{HeldLeads, HeldTold};
ghost use Rattle.gp_session_http.specs.declared.held.Held.TheVariants as held;

use crate::grant::Grant;
use crate::held::{Held, HeldNext};
use crate::live::Live;
use crate::stage::end_with;
use gp_hub::SessionEnd;
use gp_outbox::Flushed;
use gp_outside::{Clock, Dial, Link};
use gp_plain::EndCause;
use gp_session_hold::{KeptHold, stream_end};
use std::snapshot::Snapshot;

/// Expects the last bytes of the stream to go out. Its hold is remembered by contracts alone.
#[derive(Drop)]
pub(crate) struct Closing {
    pub(crate) grant: Grant,
    pub(crate) hold: Snapshot<KeptHold>,
    pub(crate) cause: EndCause,
}

impl Closing {
    /// Sends what waits.
    pub(crate) fn advance<'h, L: Link, D: Dial, C: Clock>(
        self,
        live: &mut Live<'h, L, D, C>,
    ) -> HeldNext
        requires told { HeldTold live.old (held.Closing self) }
        ensures leads { HeldLeads live.old live.new 1 result }
    {
        match live.wire.flush() {
            Flushed::Empty => HeldNext::End(end_with(stream_end(self.grant.code, self.cause))),
            Flushed::NotReady => HeldNext::Wait(Held::Closing(self)),
            Flushed::Failed => HeldNext::End(end_with(SessionEnd::ClientGone)),
        }
    }
}
