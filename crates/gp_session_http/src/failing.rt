//! A session whose origin gave no response that is passed on.
ghost use Rattle.std.specs.Prelude.{◌≡◌};
ghost use Rattle.gp_session_http.specs.Trace.{Told};
ghost use Rattle.gp_session_http.specs.Moves.{Leads};
ghost use Rattle.gp_session_http.specs.declared.stage.Stage.TheVariants as stage;

use crate::asked::Asked;
use crate::live::Live;
use crate::stage::{Ended, Next, Stage};
use gp_exchange::Exchange;
use gp_hub::{SessionEnd, Why};
use gp_outbox::Flushed;
use gp_outside::{Clock, Dial, Link};
use std::snapshot::Snapshot;

/// Expects the refusal of the origin's response to go out. What was asked, and the talk, are remembered by contracts alone.
#[derive(Drop)]
pub(crate) struct Failing {
    pub(crate) asked: Snapshot<Asked>,
    pub(crate) exchange: Snapshot<Exchange>,
    pub(crate) why: Why,
}

impl Failing {
    /// Sends what waits.
    pub(crate) fn advance<'h, L: Link, D: Dial, C: Clock>(
        self,
        live: &mut Live<'h, L, D, C>,
    ) -> Next
        requires told { Told live.old (stage.Failing self) }
        ensures leads { Leads live.old live.new 1 result }
    {
        match live.wire.flush() {
            Flushed::Empty => Next::End(self.ended(SessionEnd::Sent(502))),
            Flushed::NotReady => Next::Wait(Stage::Failing(self)),
            Flushed::Failed => Next::End(self.ended(SessionEnd::ClientGone)),
        }
    }

    /// An end that tells the cause.
    fn ended(&self, end: SessionEnd) -> Ended
        ensures { result ≡ record { end = end; why = self.now.why } }
    {
        Ended { end, why: self.why }
    }
}
