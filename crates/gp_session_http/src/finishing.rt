//! A session whose response has ended.
ghost use Rattle.std.specs.Prelude.{◌≡◌};
ghost use Rattle.gp_session_http.specs.Trace.{Told};
ghost use Rattle.gp_session_http.specs.Moves.{Leads, end_by};
ghost use Rattle.gp_session_http.specs.declared.stage.Stage.TheVariants as stage;

use crate::live::Live;
use crate::passed::Passed;
use crate::stage::{Next, Stage, end_with};
use gp_exchange::Exchange;
use gp_hub::SessionEnd;
use gp_outbox::Flushed;
use gp_outside::{Clock, Dial, Link};
use gp_plain::EndCause;
use std::snapshot::Snapshot;

/// Expects the last bytes of the response to go out. The talk is remembered by contracts alone.
#[derive(Drop)]
pub(crate) struct Finishing {
    pub(crate) passed: Passed,
    pub(crate) exchange: Snapshot<Exchange>,
    /// `Closed` for a whole response, and `Unrecovered` for one that was cut.
    pub(crate) cause: EndCause,
}

impl Finishing {
    /// Sends what waits.
    pub(crate) fn advance<'h, L: Link, D: Dial, C: Clock>(
        self,
        live: &mut Live<'h, L, D, C>,
    ) -> Next
        requires told { Told live.old (stage.Finishing self) }
        ensures leads { Leads live.old live.new 1 result }
    {
        match live.wire.flush() {
            Flushed::Empty => Next::End(end_with(end_by(self.passed.code, self.cause))),
            Flushed::NotReady => Next::Wait(Stage::Finishing(self)),
            Flushed::Failed => Next::End(end_with(SessionEnd::ClientGone)),
        }
    }
}

/// How a session ends whose response ended so.
fn end_by(code: u16, cause: EndCause) -> SessionEnd
    ensures { result ≡ end_by code cause }
{
    match cause {
        EndCause::Closed => SessionEnd::Sent(code),
        cut => SessionEnd::Cut(cut),
    }
}
