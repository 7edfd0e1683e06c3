ghost use Rattle.std.specs.Prelude.{◌≡◌, true, IfSome};
ghost use Rattle.gp_plain.specs.Fit.{fits};
ghost use Rattle.gp_session.specs.Seats.{IsFresh};

use crate::shown::show_visit;
use gp_hub::{Hub, HubFault, HubPass, Outcome, Polled, Session};
use gp_outside::{MemLink, Turns};
use gp_plain::{Body, Event, HoldSpec, ItemId, Name, Reply, Taken};
use gp_session_publish::PublishSession;
use std::alloc::{AllocError, Global};

/// A session is polled at most so often.
const POLLS: usize = 100_000;

/// A visit that ended: its outcome, and its link.
#[derive(Drop)]
pub struct Visit {
    pub outcome: Outcome,
    pub link: MemLink,
}

/// How many holds a hub may have.
const HOLDS: usize = 4_096;

/// The room of each link, in bytes.
pub const ROOM: usize = 10_000;

/// Polls a session to its end.
fn stay(alloc: Global, hub: &Hub, pass: HubPass, link: MemLink) -> Option<Visit>
    requires turn { pass.turn ≡ hub.now }
    requires fresh { IsFresh pass }
{
    let mut session = PublishSession::new(alloc, hub, pass, link);
    for _poll in 0..POLLS {
        match session.poll() {
            Polled::Ready(outcome) => {
                let link = session.parts()?;
                return Some(Visit { outcome, link });
            }
            Polled::Pending => {}
        }
    }
    None
}

/// A visit with a pass of its own.
fn enter(
    alloc: Global,
    hub: &Hub,
    first: &mut HubPass,
    link: MemLink,
) -> Result<Option<Visit>, AllocError>
    requires { first.old.turn ≡ hub.now }
    ensures { first.new.turn ≡ first.old.turn }
{
    if first.spare() <= 1 {
        return Ok(None);
    }
    let pass = hub.split(first, 1)?;
    Ok(stay(alloc, hub, pass, link))
}

/// A visit of a publisher that sends so much over a link that is always ready, and what it gives.
pub fn publish(
    alloc: Global,
    hub: &Hub,
    first: &mut HubPass,
    input: Body,
    text: &mut String,
) -> Result<(), AllocError>
    requires { first.old.turn ≡ hub.now }
    ensures { first.new.turn ≡ first.old.turn }
{
    let (reads, writes) = (Turns::new(alloc), Turns::new(alloc));
    let link = MemLink::new(alloc, input, ROOM, reads, writes)?;
    publish_over(alloc, hub, first, link, text)
}

/// A visit of a publisher over a link, and what it gives.
pub fn publish_over(
    alloc: Global,
    hub: &Hub,
    first: &mut HubPass,
    link: MemLink,
    text: &mut String,
) -> Result<(), AllocError>
    requires { first.old.turn ≡ hub.now }
    ensures { first.new.turn ≡ first.old.turn }
{
    let visit = enter(alloc, hub, first, link)?;
    let shown = show_visit(alloc, text, visit.as_ref());
    drop(visit);
    shown
}

/// A reliable hold on `news` at `a`, without an opening and without a link.
fn news(alloc: Global) -> Option<Event>
    ensures { IfSome result (λ event. fits event ≡ true) }
{
    Some(Event::Attach {
        spec: HoldSpec::Stream {
            opening: Body::empty(alloc),
            channel: Name::new(alloc, b"news").ok()?,
            prev: ItemId::new(alloc, b"a").ok()?,
            link: false,
        },
    })
}

/// The number of a hold that was attached.
fn number_of(got: &Result<Reply, HubFault>) -> Option<u64> {
    match got {
        Ok(Reply::Attached(number)) => Some(*number),
        _ => None,
    }
}

/// Attaches that hold, and answers its number.
pub fn attach_news(alloc: Global, hub: &Hub, first: &mut HubPass) -> Result<Option<u64>, AllocError>
    requires { first.old.turn ≡ hub.now }
    ensures { first.new.turn ≡ first.old.turn }
{
    let Some(event) = news(alloc) else {
        return Err(AllocError);
    };
    let got = hub.call(first, event);
    let number = number_of(&got);
    drop(got);
    Ok(number)
}

/// Attaches such holds until no more may be.
pub fn fill(alloc: Global, hub: &Hub, first: &mut HubPass) -> Result<(), AllocError>
    requires { first.old.turn ≡ hub.now }
    ensures { first.new.turn ≡ first.old.turn }
{
    for _hold in 0..HOLDS {
        attach_news(alloc, hub, first)?;
    }
    Ok(())
}

/// What a Take of a hold gives.
pub fn take(hub: &Hub, first: &mut HubPass, hold: u64) -> Option<Taken>
    requires { first.old.turn ≡ hub.now }
    ensures { first.new.turn ≡ first.old.turn }
{
    match hub.call(first, Event::Take { hold, now: 0 }) {
        Ok(Reply::Taken(taken)) => Some(taken),
        other => {
            drop(other);
            None
        }
    }
}
