//! One session as a future.
ghost use Rattle.std.specs.Prelude.{◌≡◌, None};
ghost use Rattle.gp_workers.specs.Makers.{IsUnused};

use crate::brief::{Brief, Quick};
use crate::run::{Run, kit, link};
use futures::executor::block_on;
use gp_hub::{Hub, HubPass, SessionEnd};
use gp_outside::{MemKit, PairGate};
use gp_workers::{Driven, Maker};
use std::alloc::{AllocError, AllocGlobal, Global};
use std::io;
use std::random::RandomSource;
use std::sync::Wait;

/// How many numbers the pass of a session has.
const NUMBERS: u64 = 1024;

/// A kit without clients and publishers.
fn lone_kit(alloc: Global, waits: u64) -> Result<MemKit, AllocError> {
    let run = Run {
        workers: 1,
        clients: 0,
        publishers: 0,
        limit: 0,
        idle: 0,
        turns: 0,
        waits,
    };
    kit(alloc, &run, PairGate::new(alloc, 0)?)
}

/// How a session ends, driven as a future.
fn driven<R: Wait + RandomSource + AllocGlobal>(rt: &R, session: Brief) -> io::Result<SessionEnd>
    requires { session.rest ≡ None → ⊥ }
{
    let over = block_on(rt, Driven::new(session))?;
    Ok(over.outcome.end)
}

/// How the session of a pass ends.
fn served<R: Wait + RandomSource + AllocGlobal>(
    rt: &R,
    kit: &mut MemKit,
    maker: &Quick<'_>,
    pass: HubPass,
) -> io::Result<SessionEnd>
    requires { IsUnused maker.now.hub.now pass }
{
    match maker.client(kit, pass, 0, link(maker.alloc)?) {
        Ok(session) => driven(rt, session),
        Err((_, refused)) => Err(refused.into()),
    }
}

/// How a session ended that waited for so many polls, driven as a future.
pub fn alone<R: Wait + RandomSource + AllocGlobal>(
    rt: &R,
    alloc: Global,
    waits: u64,
) -> io::Result<SessionEnd> {
    let mut kit = lone_kit(alloc, waits)?;
    let (hub, mut pass) = Hub::new(alloc)?;
    let own = hub.split(&mut pass, NUMBERS)?;
    let maker = Quick {
        alloc,
        hub: &hub,
        waits,
    };
    served(rt, &mut kit, &maker, own)
}
