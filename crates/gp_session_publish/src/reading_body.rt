//! A session that expects the body of its request.
ghost use Rattle.gp_session_publish.specs.Trace.{Told};
ghost use Rattle.gp_session_publish.specs.Moves.{IsWholeAt, Leads};
ghost use Rattle.gp_session_publish.specs.declared.stage.Stage.TheVariants as stage;

use crate::cause::{Cause, place_of};
use crate::live::Live;
use crate::publishing::{ItemsLeft, Publishing};
use crate::reading_head::unpublished;
use crate::stage::{Next, Stage};
use gp_hub::SessionEnd;
use gp_intake::{BodyIntake, BodyPolled, Whole};
use gp_items::read_items;
use gp_outside::Link;
use std::snapshot::Snapshot;

/// Expects the rest of the request's body. The request is one to a publisher.
#[derive(Drop)]
pub(crate) struct ReadingBody {
    pub(crate) intake: BodyIntake,
}

impl ReadingBody {
    /// Reads, and reads the items once the request is whole.
    pub(crate) fn advance<'h, L: Link>(self, live: &mut Live<'h, L>) -> Next
        requires told { Told live.old (stage.ReadingBody self) }
        ensures leads { Leads live.old live.new 3 result }
    {
        match live.wire.read_body(self.intake) {
            BodyPolled::Whole(whole) => read(live, whole),
            BodyPolled::Refused(refused) => {
                live.refuse(Cause::Request(refused.fault), &refused.method)
            }
            BodyPolled::NotReady(intake) => Next::Wait(Stage::ReadingBody(ReadingBody { intake })),
            BodyPolled::ClientGone => Next::End(unpublished(SessionEnd::ClientGone)),
            BodyPolled::NoMemory => Next::End(unpublished(SessionEnd::NoMemory)),
        }
    }
}

/// Reads the items of a whole request.
fn read<'h, L: Link>(live: &mut Live<'h, L>, request: Whole) -> Next
    requires told { IsWholeAt live.old request }
    ensures leads { Leads live.old live.new 3 result }
{
    match read_items(live.alloc, request.body.bytes()) {
        Ok(items) => Next::Go(Stage::Publishing(Publishing {
            left: ItemsLeft::new(items),
            published: 0,
            request: Snapshot::of(&request),
        })),
        Err(fault) => match place_of(&fault) {
            Some(place) => live.refuse(Cause::Items(place), &request.head.method),
            None => Next::End(unpublished(SessionEnd::NoMemory)),
        },
    }
}
