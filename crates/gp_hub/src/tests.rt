ghost use Rattle.std.specs.Prelude.{◌≡◌, ◌<◌};

use crate::{Hub, HubFault, HubPass};
use gp_plain::{Body, Event, HoldSpec, Item, List, Name, Reply, StreamPart};
use gp_registry::Registry;
use std::alloc::{AllocError, Global};
use std::test::*;
use std::thread;
use std::thread::Threads;

/// How often a call that finds the turn taken is made again.
const TRIES: u64 = 10_000_000;

/// How many items each thread publishes.
const ITEMS: u64 = 20;

/// What the calls of one thread were answered: how many holds it made, how many pieces its items brought all holds, and
/// how many it took.
#[derive(Drop)]
struct Counts {
    holds: u64,
    brought: u64,
    took: u64,
}

/// The event of a call that found the turn taken.
fn handed_back(fault: HubFault) -> Option<Event> {
    match fault {
        HubFault::Busy(event, _) => Some(event),
        other => {
            drop(other);
            None
        }
    }
}

/// The reply to an event, or None where the turn was never free.
fn call_in_time(hub: &Hub, pass: &mut HubPass, event: Event) -> Option<Reply>
    requires { pass.old.turn ≡ hub.now }
    ensures { (pass.new.turn ≡ pass.old.turn) × (pass.new.parts ≡ pass.old.parts) }
{
    let mut next = event;
    for _ in 0..TRIES {
        if !next.fits() {
            break;
        }
        match hub.call(pass, next) {
            Ok(reply) => return Some(reply),
            Err(fault) => next = handed_back(fault)?,
        }
    }
    drop(next);
    None
}

/// The number of a hold that was attached.
fn attached(reply: Reply) -> Option<u64> {
    let hold = match &reply {
        Reply::Attached(hold) => Some(*hold),
        _ => None,
    };
    drop(reply);
    hold
}

/// How many pieces an item brought that was published.
fn published(reply: Reply) -> Option<u64> {
    let count = match &reply {
        Reply::Published(count) => Some(u64::from(*count)),
        _ => None,
    };
    drop(reply);
    count
}

/// How many pieces were taken.
fn taken(reply: Reply) -> Option<u64> {
    let count = match &reply {
        Reply::Taken(taken) => Some(taken.pieces.len() as u64),
        _ => None,
    };
    drop(reply);
    count
}

fn plain(alloc: Global) -> Option<HoldSpec> {
    let mut channels = List::new(alloc);
    channels.push(Name::new(alloc, b"news").ok()?).ok()?;
    Some(HoldSpec::Plain {
        opening: Body::new(alloc, b"hi").ok()?,
        channels,
    })
}

fn news(alloc: Global) -> Option<Item> {
    Some(Item {
        channel: Name::new(alloc, b"news").ok()?,
        id: None,
        prev: None,
        response: None,
        stream: Some(StreamPart::Content(Body::new(alloc, b"x").ok()?)),
        message: None,
    })
}

/// Publishes the items of a thread, and answers how many pieces they brought.
fn publish_all(alloc: Global, hub: &Hub, pass: &mut HubPass) -> Option<u64>
    requires { pass.old.turn ≡ hub.now }
    ensures { (pass.new.turn ≡ pass.old.turn) × (pass.new.parts ≡ pass.old.parts) }
{
    let mut brought = 0u64;
    for _ in 0..ITEMS {
        let item = news(alloc)?;
        let reply = call_in_time(hub, pass, Event::Publish { item })?;
        brought = brought.saturating_add(published(reply)?);
    }
    Some(brought)
}

/// Attaches a hold, publishes, and takes of the hold.
fn calls(alloc: Global, hub: &Hub, pass: &mut HubPass) -> Option<Counts>
    requires { pass.old.turn ≡ hub.now }
    ensures { (pass.new.turn ≡ pass.old.turn) × (pass.new.parts ≡ pass.old.parts) }
{
    let spec = plain(alloc)?;
    let hold = attached(call_in_time(hub, pass, Event::Attach { spec })?)?;
    let brought = publish_all(alloc, hub, pass)?;
    let took = taken(call_in_time(hub, pass, Event::Take { hold, now: 0 })?)?;
    Some(Counts {
        holds: 1,
        brought,
        took,
    })
}

/// A pass after its thread's calls, and what they were answered.
type Worked = (HubPass, Option<Counts>);

fn work(alloc: Global, hub: &Hub, mut pass: HubPass) -> Worked
    requires { pass.turn ≡ hub.now }
    ensures { (result.0.turn ≡ pass.turn) × (result.0.parts ≡ pass.parts) }
{
    let counts = calls(alloc, hub, &mut pass);
    (pass, counts)
}

/// Two threads work at once, one of them by a pass that is split off and joined again. There are no counts where memory
/// is wanting.
fn work_in_two<R: Threads + Sync>(rt: &R, alloc: Global, hub: &Hub, mut one: HubPass) -> Worked
    requires turn { one.turn ≡ hub.now }
    requires spare { (1 < one.spare) × (1 < one.parts) }
    ensures { (result.0.turn ≡ one.turn) × (result.0.parts ≡ one.parts) }
{
    let Ok(other) = hub.split(&mut one, 1) else {
        return (one, None);
    };
    let ((mut one, first), (other, second)) = thread::join(
        rt,
        || work(alloc, hub, one),
        || work(alloc, hub, other),
    );
    hub.join(other, &mut one);
    (one, plus(first, second))
}

/// Four threads work at once, in the same way.
fn work_in_four<R: Threads + Sync>(rt: &R, alloc: Global, hub: &Hub, mut one: HubPass) -> Worked
    requires turn { one.turn ≡ hub.now }
    requires spare { (4 < one.spare) × (4 < one.parts) }
    ensures { (result.0.turn ≡ one.turn) × (result.0.parts ≡ one.parts) }
{
    let Ok(other) = hub.split(&mut one, 2) else {
        return (one, None);
    };
    let ((mut one, first), (other, second)) = thread::join(
        rt,
        ||
            requires { (one.turn ≡ hub.now) × (1 < one.spare) × (1 < one.parts) }
        { work_in_two(rt, alloc, hub, one) },
        ||
            requires { (other.turn ≡ hub.now) × (1 < other.spare) × (1 < other.parts) }
        { work_in_two(rt, alloc, hub, other) },
    );
    hub.join(other, &mut one);
    (one, plus(first, second))
}

/// The counts of two threads together.
fn plus(one: Option<Counts>, other: Option<Counts>) -> Option<Counts> {
    let one = one?;
    let other = other?;
    Some(Counts {
        holds: one.holds.saturating_add(other.holds),
        brought: one.brought.saturating_add(other.brought),
        took: one.took.saturating_add(other.took),
    })
}

/// How many pieces wait for the four holds.
fn waiting(registry: &Registry) -> Result<u64, AllocError> {
    let mut waiting = 0u64;
    for hold in 0..4u64 {
        waiting = waiting.saturating_add(registry.pending(hold)?.len() as u64);
    }
    Ok(waiting)
}

/// How many holds a registry keeps, and how many pieces wait for them. The registry is dropped.
fn left(registry: Registry) -> (u64, Result<u64, AllocError>) {
    let left = (u64::from(registry.kept()), waiting(&registry));
    drop(registry);
    left
}

#[test]
fn four_threads_make_one_history(rt: HostRuntime) -> Result<(), Fail> {
    let alloc = rt.alloc();
    let (hub, pass) = Hub::new(alloc)?;
    let (pass, sum) = work_in_four(&rt, alloc, &hub, pass);
    let (kept, waiting) = left(hub.close(pass));
    let Some(sum) = sum else {
        panic!(rt; "each call is served in time");
    };
    assert_eq!(rt; (sum.holds, kept), (4, 4));
    assert_eq!(rt;
        sum.took.saturating_add(waiting?),
        sum.brought.saturating_add(sum.holds)
    );
    Ok(())
}
