//! A session that expects the head of its request.
ghost use Rattle.gp_session_http.specs.Trace.{Told};
ghost use Rattle.gp_session_http.specs.Moves.{IsHeadedAt, Leads};
ghost use Rattle.gp_session_http.specs.declared.stage.Stage.TheVariants as stage;

use crate::cause::{Cause, Destination, find_origin};
use crate::live::Live;
use crate::reading_body::ReadingBody;
use crate::stage::{Next, Stage, end_with};
use gp_hub::SessionEnd;
use gp_intake::{BodyIntake, HeadIntake, HeadPolled};
use gp_outside::{Clock, Dial, Link};

/// Expects the rest of the request's head.
#[derive(Drop)]
pub(crate) struct ReadingHead {
    pub(crate) intake: HeadIntake,
}

impl ReadingHead {
    /// Reads, and picks a route once the head is there.
    pub(crate) fn advance<'h, L: Link, D: Dial, C: Clock>(
        self,
        live: &mut Live<'h, L, D, C>,
    ) -> Next
        requires told { Told live.old (stage.ReadingHead self) }
        ensures leads { Leads live.old live.new 5 result }
    {
        match live.wire.read_head(self.intake) {
            HeadPolled::Head(intake) => routed(live, intake),
            HeadPolled::Refused(refused) => {
                live.refuse(Cause::Request(refused.fault), &refused.method)
            }
            HeadPolled::NotReady(intake) => Next::Wait(Stage::ReadingHead(ReadingHead { intake })),
            HeadPolled::ClientGone => Next::End(end_with(SessionEnd::ClientGone)),
            HeadPolled::NoMemory => Next::End(end_with(SessionEnd::NoMemory)),
        }
    }
}

/// Goes on behind a head.
fn routed<'h, L: Link, D: Dial, C: Clock>(live: &mut Live<'h, L, D, C>, intake: BodyIntake) -> Next
    requires told { IsHeadedAt live.old intake }
    ensures leads { Leads live.old live.new 5 result }
{
    match find_origin(live.alloc, live.routes, &intake) {
        Destination::Origin(address) => {
            Next::Go(Stage::ReadingBody(ReadingBody { intake, address }))
        }
        Destination::Refused(cause) => live.refuse(cause, &intake.head().method),
        Destination::NoMemory => Next::End(end_with(SessionEnd::NoMemory)),
    }
}
