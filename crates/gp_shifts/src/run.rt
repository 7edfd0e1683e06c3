//! One run of workers.
ghost use Rattle.std.specs.Prelude.{◌<◌, All, IfOk, length};
ghost use Rattle.gp_outside.specs.MemLinks.{LinkState, told_link};
ghost use Rattle.gp_outside.specs.Unused.{IsUnusedLink};

use crate::brief::Quick;
use gp_hub::Hub;
use gp_outside::{Clocks, Dials, Links, MemKit, MemLink, MemListen, PairGate, Turns};
use gp_plain::Body;
use gp_workers::{WorkerReport, work};
use std::alloc::{AllocError, Global};
use std::sync::Wait;
use std::thread::Threads;

/// How many workers run, and what each finds at its doors.
#[derive(Clone, Copy, Drop)]
pub struct Run {
    pub workers: u8,
    /// How many clients come to each worker.
    pub clients: u8,
    /// How many publishers come to each worker.
    pub publishers: u8,
    pub limit: u32,
    /// How often each listener isn't ready before it fails.
    pub idle: u64,
    /// How often the gate looks.
    pub turns: u64,
    /// How many polls each session waits for.
    pub waits: u64,
}

/// A link without input.
pub fn link(alloc: Global) -> Result<MemLink, AllocError>
    ensures { IfOk result (λ link. IsUnusedLink (told_link link)) }
{
    let none = Turns::new(alloc);
    MemLink::new(alloc, Body::empty(alloc), 0, none, Turns::new(alloc))
}

fn links(alloc: Global, count: u8) -> Result<Links, AllocError>
    ensures { IfOk result (All (λ (link : LinkState). IsUnusedLink (told_link link))) }
{
    let mut links = Vec::new(alloc);
    for _ in 0..count {
        links.push(link(alloc)?)?;
    }
    Ok(Links::from_vec(links))
}

/// A kit of a run.
pub fn kit(alloc: Global, run: &Run, gate: PairGate) -> Result<MemKit, AllocError> {
    let clients = MemListen::new(links(alloc, run.clients)?, run.idle);
    let publishers = MemListen::new(links(alloc, run.publishers)?, run.idle);
    let dials = Dials::new(alloc);
    let clocks = Clocks::new(alloc);
    Ok(MemKit::new(alloc, clients, publishers, dials, clocks, gate))
}

fn kits(alloc: Global, run: &Run, gate: &PairGate) -> Result<Vec<MemKit>, AllocError>
    ensures { IfOk result (λ kits. length kits.items < 256) }
{
    let mut kits = Vec::new(alloc);
    for _ in 0..run.workers {
        kits.push(kit(alloc, run, gate.copy()?)?)?;
    }
    Ok(kits)
}

/// How many sessions were reported with a claim.
fn with_claim(reports: &[WorkerReport], claim: u32) -> u64 {
    let mut count = 0u64;
    for report in reports {
        for place in 0..report.sessions.len() {
            if let Some(session) = report.sessions.at(place) {
                if session.claim == claim {
                    count = count.saturating_add(1);
                }
            }
        }
    }
    count
}

/// Whether a kit was handed back the devices of as many sessions as its worker reports.
fn agrees(kit: &MemKit, report: &WorkerReport) -> bool {
    let count = report.sessions.len();
    kit.ended(count).is_none() && (count == 0 || kit.ended(count - 1).is_some())
}

/// Adds how many sessions were reported with each claim.
fn push_claims(text: &mut String, limit: u32, reports: &[WorkerReport]) -> Result<(), AllocError> {
    for claim in 0..limit {
        write!(text, "claim {claim}: {}, ", with_claim(reports, claim))?;
    }
    Ok(())
}

/// Adds how many workers agree with their kits, and what went wrong.
fn push_workers(
    text: &mut String,
    kits: &[MemKit],
    reports: &[WorkerReport],
) -> Result<(), AllocError> {
    let mut failed = 0u64;
    let mut wanting = 0u64;
    let mut agreeing = 0u64;
    for (kit, report) in kits.iter().zip(reports) {
        if report.listen_failed {
            failed = failed.saturating_add(1);
        }
        if report.no_memory {
            wanting = wanting.saturating_add(1);
        }
        if agrees(kit, report) {
            agreeing = agreeing.saturating_add(1);
        }
    }
    write!(
        text,
        "{agreeing} agree, {failed} failed, {wanting} without memory"
    )
}

/// What workers told, in words.
fn told(
    alloc: Global,
    run: &Run,
    gate: &PairGate,
    kits: &[MemKit],
    reports: &[WorkerReport],
) -> Result<String, AllocError> {
    let mut text = String::new(alloc);
    push_claims(&mut text, run.limit, reports)?;
    push_workers(&mut text, kits, reports)?;
    if run.turns > 0 {
        write!(text, ", late {}", gate.late())?;
    }
    Ok(text)
}

/// Runs the workers, closes the hub, and tells what they told.
pub fn play<R: Threads + Wait + Sync>(
    rt: &R,
    alloc: Global,
    run: &Run,
) -> Result<String, AllocError> {
    let gate = PairGate::new(alloc, run.turns)?;
    let mut kits = kits(alloc, run, &gate)?;
    let (hub, mut pass) = Hub::new(alloc)?;
    let maker = Quick {
        alloc,
        hub: &hub,
        waits: run.waits,
    };
    let reports = work::<R, MemKit, Quick>(
        rt, alloc, &mut kits, &hub, &mut pass, &maker, run.limit,
    )?;
    let text = told(alloc, run, &gate, kits.as_slice(), reports.as_slice())?;
    drop(hub.close(pass));
    Ok(text)
}
