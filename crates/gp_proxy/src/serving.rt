//! The server.
ghost use Rattle.std.specs.Prelude.{◌≡◌, ◌≤◌, IfOk};
ghost use Rattle.gp_proxy.specs.Servings.{Serving};

use gp_hub::Hub;
use gp_maker::Server;
use gp_outside::{Clock, World};
use gp_plain::Signer;
use gp_replay::Status;
use gp_serve::{Options, routes_at, run_workers};
use std::alloc::{AllocError, Global};
use std::sync::Wait;
use std::thread::Threads;

/// What signs the requests to origins: the key of the options, where there is one.
fn signer_of(alloc: Global, options: &Options) -> Result<Signer, AllocError>
    ensures { IfOk result (λ signer. signer.key ≡ options.now.key) }
{
    let key = match &options.key {
        Some(key) => Some(key.copy(alloc)?),
        None => None,
    };
    Ok(Signer { key })
}

/// Serves clients and publishers over the routes of a file, until so many connections were taken and each of their
/// sessions has ended; then hands its kits back to the world, in order, and writes a line for each session, and one for each
/// hold that a session had.
///
/// The file is read whole before a port is opened. Of several faults `SinkFault` comes before `NoMemory`, and that before
/// `ListenFault`. It may wait, and needn't return.
pub fn serve<R: Threads + Wait + Sync, W: World>(
    rt: &R,
    alloc: Global,
    routes: &str,
    options: &Options,
    world: &mut W,
) -> Status
    requires { options.now.workers ≤ 16 }
    ensures { Serving (record { content = W.Files.content; faults = W.Files.faults; out = W.Out.tells; clock = W.Clock.tells; parts = W.Kit.parts; listens = W.Kit.Listen.tells; links = W.Kit.Listen.Link.tells; dials = W.Kit.Dial.tells; clocks = W.Kit.Clock.tells }) routes.now options.now (W.parts world.old) (W.parts world.new) result }
{
    let routes = match routes_at(alloc, routes, world.files()) {
        Ok(routes) => routes,
        Err(status) => return status,
    };
    let started = world.clock().now();
    let Ok(signer) = signer_of(alloc, options) else {
        return Status::NoMemory;
    };
    let Ok((hub, pass)) = Hub::new(alloc) else {
        return Status::NoMemory;
    };
    let maker = Server::<W::Kit>::new(alloc, &hub, &routes, &signer, started);
    run_workers::<R, W, Server<'_, W::Kit>>(rt, alloc, world, options, &hub, pass, &maker)
}
