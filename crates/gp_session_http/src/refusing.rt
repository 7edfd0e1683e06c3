//! A session that refuses its request.
ghost use Rattle.std.specs.Prelude.{◌≡◌};
ghost use Rattle.gp_session_http.specs.Routing.{why_of};
ghost use Rattle.gp_session_http.specs.Trace.{Told};
ghost use Rattle.gp_session_http.specs.Moves.{Leads};
ghost use Rattle.gp_session_http.specs.declared.stage.Stage.TheVariants as stage;

use crate::cause::Cause;
use crate::live::Live;
use crate::stage::{Ended, Next, Stage};
use gp_hub::SessionEnd;
use gp_outbox::Flushed;
use gp_outside::{Clock, Dial, Link};
use gp_plain::Body;
use std::snapshot::Snapshot;

/// Expects the refusal to go out. The method is remembered by contracts alone.
#[derive(Drop)]
pub(crate) struct Refusing {
    pub(crate) cause: Cause,
    pub(crate) method: Snapshot<Body>,
}

impl Refusing {
    /// Sends what waits.
    pub(crate) fn advance<'h, L: Link, D: Dial, C: Clock>(
        self,
        live: &mut Live<'h, L, D, C>,
    ) -> Next
        requires told { Told live.old (stage.Refusing self) }
        ensures leads { Leads live.old live.new 1 result }
    {
        match live.wire.flush() {
            Flushed::Empty => Next::End(self.ended(SessionEnd::Sent(self.cause.refusal().code()))),
            Flushed::NotReady => Next::Wait(Stage::Refusing(self)),
            Flushed::Failed => Next::End(self.ended(SessionEnd::ClientGone)),
        }
    }

    /// An end that tells the cause.
    fn ended(&self, end: SessionEnd) -> Ended
        ensures { result ≡ record { end = end; why = why_of self.now.cause } }
    {
        Ended {
            end,
            why: self.cause.why(),
        }
    }
}
