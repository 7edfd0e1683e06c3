//! A session that expects the head of its request.
ghost use Rattle.std.specs.Prelude.{◌≡◌};
ghost use Rattle.gp_session_publish.specs.Trace.{Told};
ghost use Rattle.gp_session_publish.specs.Moves.{IsHeadedAt, Leads};
ghost use Rattle.gp_session_publish.specs.declared.stage.Stage.TheVariants as stage;

use crate::cause::{Cause, cause_of};
use crate::live::Live;
use crate::reading_body::ReadingBody;
use crate::stage::{Ended, Next, Stage};
use gp_hub::{SessionEnd, Why};
use gp_intake::{BodyIntake, HeadIntake, HeadPolled};
use gp_outside::Link;

/// Expects the rest of the request's head.
#[derive(Drop)]
pub(crate) struct ReadingHead {
    pub(crate) intake: HeadIntake,
}

impl ReadingHead {
    /// Reads, and refuses a request that isn't to a publisher once its head is there.
    pub(crate) fn advance<'h, L: Link>(self, live: &mut Live<'h, L>) -> Next
        requires told { Told live.old (stage.ReadingHead self) }
        ensures leads { Leads live.old live.new 4 result }
    {
        match live.wire.read_head(self.intake) {
            HeadPolled::Head(intake) => routed(live, intake),
            HeadPolled::Refused(refused) => {
                live.refuse(Cause::Request(refused.fault), &refused.method)
            }
            HeadPolled::NotReady(intake) => Next::Wait(Stage::ReadingHead(ReadingHead { intake })),
            HeadPolled::ClientGone => Next::End(unpublished(SessionEnd::ClientGone)),
            HeadPolled::NoMemory => Next::End(unpublished(SessionEnd::NoMemory)),
        }
    }
}

/// Goes on behind a head.
fn routed<'h, L: Link>(live: &mut Live<'h, L>, intake: BodyIntake) -> Next
    requires told { IsHeadedAt live.old intake }
    ensures leads { Leads live.old live.new 4 result }
{
    match cause_of(&intake) {
        Some(cause) => live.refuse(cause, &intake.head().method),
        None => Next::Go(Stage::ReadingBody(ReadingBody { intake })),
    }
}

/// An end before anything was published.
pub(crate) fn unpublished(end: SessionEnd) -> Ended
    ensures { result ≡ record { end = end; why = Why.Nothing; published = 0 } }
{
    Ended {
        end,
        why: Why::Nothing,
        published: 0,
    }
}
