//! A session that answers that all items stand.
ghost use Rattle.std.specs.Prelude.{◌≡◌};
ghost use Rattle.gp_session_publish.specs.Trace.{Told};
ghost use Rattle.gp_session_publish.specs.Moves.{Leads};
ghost use Rattle.gp_session_publish.specs.declared.stage.Stage.TheVariants as stage;

use crate::live::Live;
use crate::stage::{Ended, Next, Stage};
use gp_hub::{SessionEnd, Why};
use gp_intake::Whole;
use gp_outbox::Flushed;
use gp_outside::Link;
use std::snapshot::Snapshot;

/// Expects the answer to go out. The request is remembered by contracts alone.
#[derive(Drop)]
pub(crate) struct Answering {
    pub(crate) published: u32,
    pub(crate) request: Snapshot<Whole>,
}

impl Answering {
    /// Sends what waits.
    pub(crate) fn advance<'h, L: Link>(self, live: &mut Live<'h, L>) -> Next
        requires told { Told live.old (stage.Answering self) }
        ensures leads { Leads live.old live.new 1 result }
    {
        match live.wire.flush() {
            Flushed::Empty => Next::End(self.ended(SessionEnd::Sent(200))),
            Flushed::NotReady => Next::Wait(Stage::Answering(self)),
            Flushed::Failed => Next::End(self.ended(SessionEnd::ClientGone)),
        }
    }

    /// An end with the items that stand.
    fn ended(&self, end: SessionEnd) -> Ended
        ensures { result ≡ record { end = end; why = Why.Nothing; published = self.now.published } }
    {
        Ended {
            end,
            why: Why::Nothing,
            published: self.published,
        }
    }
}
