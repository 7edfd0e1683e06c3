//! Workers over the kits of a world, and their report.
ghost use Rattle.std.specs.Prelude.{ℕ, ◌≡◌, ◌<◌, ◌≤◌, ◌*◌, ◌^◌, All, IfErr, IfOk, OnErr, OnOk, length};
ghost use mathlib.Core.List.{IsPrefix};
ghost use Rattle.gp_outside.specs.Worlds.{IsUnusedKit};
ghost use Rattle.gp_serve.specs.Serves.{CantMake, IsLeftOff, Leaves, Serves, any_failed, any_wanting, with_kits};

use crate::options::Options;
use crate::report::report_of;
use gp_hub::{Hub, HubPass};
use gp_outside::{KitMade, World, write_all};
use gp_plain::Queue;
use gp_replay::Status;
use gp_workers::{Maker, WorkerReport, work};
use std::alloc::{AllocError, Global};
use std::sync::Wait;
use std::thread::Threads;

/// Makes a kit for each of so many workers, in order.
fn kits_for<W: World>(
    alloc: Global,
    world: &mut W,
    options: &Options,
) -> Result<Vec<W::Kit>, Status>
    ensures count { IfOk result (λ kits. length kits.items ≡ options.now.workers) }
    ensures unused { IfOk result (λ kits. All (λ kit. IsUnusedKit W.Kit.Listen.tells (W.Kit.parts kit)) kits.items) }
    ensures same { OnOk result (W.parts world.new ≡ W.parts world.old) }
    ensures err { IfErr result (λ status. CantMake status (W.parts world.old) (W.parts world.new)) }
{
    let mut kits = Vec::new(alloc);
    for number in 0..options.workers {
        match world.kit(number, options.client, options.publish) {
            KitMade::Made(kit) => {
                if kits.push(kit).is_err() {
                    return Err(Status::NoMemory);
                }
            }
            KitMade::Failed => return Err(Status::ListenFault),
            KitMade::NoMemory => return Err(Status::NoMemory),
        }
    }
    Ok(kits)
}

/// Hands kits back to the world, in order.
fn hand_over<W: World>(world: &mut W, kits: Vec<W::Kit>) -> Result<(), AllocError>
    ensures ok { OnOk result (W.parts world.new ≡ with_kits (W.parts world.old) kits.items) }
    ensures err { OnErr result (IsLeftOff kits.items (W.parts world.old) (W.parts world.new)) }
{
    let mut kits = Queue::from_vec(kits);
    while let Some(kit) = kits.take_first() {
        match world.over(kit) {
            Ok(()) => {}
            Err(refused) => return Err(refused),
        }
    }
    Ok(())
}

/// Whether memory was wanting for a worker.
fn any_wanting(reports: &[WorkerReport]) -> bool
    ensures { result ≡ any_wanting reports.now }
{
    reports.iter().any(|report| report.no_memory)
}

/// Whether a listener of a worker failed.
fn any_failed(reports: &[WorkerReport]) -> bool
    ensures { result ≡ any_failed reports.now }
{
    reports.iter().any(|report| report.listen_failed)
}

/// Hands the kits back, and writes the report.
fn leave<W: World>(
    alloc: Global,
    world: &mut W,
    kits: Vec<W::Kit>,
    reports: &[WorkerReport],
) -> Status
    ensures { Leaves W.Out.tells kits.items reports.now (W.parts world.old) (W.parts world.new) result }
{
    if hand_over(world, kits).is_err() {
        return Status::NoMemory;
    }
    let Ok(text) = report_of(alloc, reports) else {
        return Status::NoMemory;
    };
    if !write_all(world.out(), text.as_bytes()) {
        return Status::SinkFault;
    }
    if any_wanting(reports) {
        Status::NoMemory
    } else if any_failed(reports) {
        Status::ListenFault
    } else {
        Status::Done
    }
}

/// Makes the kits of the workers, runs these until the sessions are used up, hands the kits back, and writes the report.
pub fn run_workers<R: Threads + Wait + Sync, W: World, M: Maker<Kit = W::Kit> + Sync>(
    rt: &R,
    alloc: Global,
    world: &mut W,
    options: &Options,
    hub: &Hub,
    mut pass: HubPass,
    maker: &M,
) -> Status
    requires turn { (pass.turn ≡ hub.now) × (M.turn maker.now ≡ hub.now) }
    requires workers { (options.now.workers ≤ 16) × (16 * 2 ^ 44 < pass.spare) }
    ensures { Serves W.Out.tells W.Kit.parts W.Kit.Listen.tells (M.means maker.now) options.now.workers options.now.sessions pass (W.parts world.old) (W.parts world.new) result }
{
    let mut kits = match kits_for(alloc, world, options) {
        Ok(kits) => kits,
        Err(status) => return status,
    };
    match work::<R, W::Kit, M>(
        rt,
        alloc,
        &mut kits,
        hub,
        &mut pass,
        maker,
        options.sessions,
    ) {
        Ok(reports) => leave(alloc, world, kits, reports.as_slice()),
        Err(_) => Status::NoMemory,
    }
}
