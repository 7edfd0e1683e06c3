//! All workers, each in a thread of its own.
ghost use Rattle.std.specs.Prelude.{ℕ, ◌≡◌, ◌*◌, ◌<◌, ◌≤◌, ◌^◌, [], All, IfOk, OnErr, length, slice_index_or};
ghost use Rattle.std.specs.Vec.{vec_capacity, vec_len};
ghost use Rattle.gp_hub.specs.Passes.{HubView};
ghost use Rattle.gp_workers.specs.Books.{books};
ghost use Rattle.gp_workers.specs.Claims.{all_parts};
ghost use Rattle.gp_workers.specs.Desks.{IsDesk, IsShared};
ghost use Rattle.gp_workers.specs.Hires.{HasServed, IsNew};
ghost use Rattle.gp_workers.specs.Shifts.{HaveWorked};

use crate::claims::{Claimer, Claims};
use crate::crew::Crew;
use crate::desk::{Desk, furnish};
use crate::hire::{clear, dismiss, hire, serve_new};
use crate::maker::Maker;
use crate::report::WorkerReport;
use crate::worker::Worker;
use gp_hub::{Hub, HubPass};
use gp_outside::Kit;
use gp_plain::Queue;
use std::alloc::{AllocError, Global};
use std::sync::Wait;
use std::thread::Threads;
use std::{mem, thread};

/// Each worker serves in a thread of its own. It returns once all have done their work.
fn serve_all<R: Threads + Wait + Sync, K: Kit + Send, M: Maker<Kit = K> + Sync>(
    rt: &R,
    alloc: Global,
    crew: &Crew<'_, M>,
    workers: &mut [Worker<K>],
)
where
    K::Idle: Send,
    K::Gate: Send,
    requires turn { M.turn crew.now.maker.now ≡ crew.now.hub.now }
    requires limit { crew.now.limit < 2 ^ 32 }
    requires new { All (λ w. IsNew crew.now.hub.now crew.now.claims.now (books K.parts K.Listen.tells w)) workers.old }
    ensures count { length workers.new ≡ length workers.old }
    ensures served { (i : ℕ) (d : _) → i < length workers.old → HasServed (M.means crew.now.maker.now) crew.now.hub.now crew.now.claims.now crew.now.limit (books K.parts K.Listen.tells (slice_index_or workers.old i d)) (books K.parts K.Listen.tells (slice_index_or workers.new i d)) }
{
    let count = workers.len();
    if count > 0 {
        thread::for_each_mut(
            rt,
            workers,
            count,
            &|_, worker: &mut Worker<K>|
                requires { (M.turn crew.now.maker.now ≡ crew.now.hub.now) × (crew.now.limit < 2 ^ 32) × IsNew crew.now.hub.now crew.now.claims.now (books K.parts K.Listen.tells worker.now) }
                ensures { HasServed (M.means crew.entry.now.maker.now) crew.entry.now.hub.now crew.entry.now.claims.now crew.entry.now.limit (books K.parts K.Listen.tells worker.entry.now) (books K.parts K.Listen.tells worker.exit.now) }
            { serve_new::<R, M>(rt, alloc, crew, worker) },
        );
    }
}

/// A desk for each of so many workers. Where memory is wanting the pass has its parts again.
fn desks_for(
    alloc: Global,
    hub: &Hub,
    claims: &Claims,
    pass: &mut HubPass,
    claimer: &mut Claimer,
    count: usize,
) -> Result<Vec<Desk>, AllocError>
    requires turn { pass.old.turn ≡ hub.now }
    requires numbers { count * 2 ^ 44 < pass.old.spare }
    requires claims { (claimer.old.table ≡ claims.now) × (claimer.old.taken ≡ []) × (claimer.old.parts ≡ all_parts) }
    ensures desks { IfOk result (λ desks. All (IsDesk hub.now claims.now pass.old.seen) desks.items) }
    ensures count { IfOk result (λ desks. length desks.items ≡ count) }
    ensures shared { IfOk result (λ desks. IsShared claims.now desks.items pass.old pass.new claimer.new) }
    ensures err { OnErr result ((pass.new.seen ≡ pass.old.seen) × (pass.new.number ≡ pass.old.number) × (pass.new.turn ≡ pass.old.turn) × (pass.new.parts ≡ pass.old.parts)) }
{
    let Ok(mut desks) = Vec::with_capacity(alloc, count) else {
        return Err(AllocError);
    };
    match furnish(hub, claims, pass, claimer, &mut desks, count) {
        Ok(()) => Ok(desks),
        Err(refused) => {
            clear(hub, claims, desks, pass);
            Err(refused)
        }
    }
}

/// Room for workers, and for what they leave.
#[derive(Drop)]
struct Room<K> {
    workers: Vec<Worker<K>>,
    kits: Vec<K>,
    reports: Vec<WorkerReport>,
}

/// Room for so many workers.
fn room_for<K: Drop>(alloc: Global, count: usize) -> Result<Room<K>, AllocError>
    ensures workers { IfOk result (λ room. (room.workers.items ≡ []) × (vec_len room.workers ≡ 0) × (count ≤ vec_capacity room.workers)) }
    ensures kits { IfOk result (λ room. (room.kits.items ≡ []) × (vec_len room.kits ≡ 0) × (count ≤ vec_capacity room.kits)) }
    ensures reports { IfOk result (λ room. (room.reports.items ≡ []) × (vec_len room.reports ≡ 0) × (count ≤ vec_capacity room.reports)) }
{
    Ok(Room {
        workers: Vec::with_capacity(alloc, count)?,
        kits: Vec::with_capacity(alloc, count)?,
        reports: Vec::with_capacity(alloc, count)?,
    })
}

/// Hires a worker for each kit, lets them serve, and dismisses them. It takes no memory before the threads begin.
fn employ<R: Threads + Wait + Sync, K: Kit + Send, M: Maker<Kit = K> + Sync>(
    rt: &R,
    alloc: Global,
    crew: &Crew<'_, M>,
    room: Room<K>,
    desks: Vec<Desk>,
    pass: &mut HubPass,
    claimer: &mut Claimer,
    kits: &mut Vec<K>,
) -> Vec<WorkerReport>
where
    K::Idle: Send,
    K::Gate: Send,
    requires turn { (pass.old.turn ≡ crew.now.hub.now) × (M.turn crew.now.maker.now ≡ crew.now.hub.now) }
    requires limit { crew.now.limit < 2 ^ 32 }
    requires desks { All (IsDesk crew.now.hub.now crew.now.claims.now pass.old.seen) desks.items }
    requires count { length desks.items ≡ length kits.old.items }
    requires claimer { claimer.old.table ≡ crew.now.claims.now }
    requires workers { (room.workers.items ≡ []) × (vec_len room.workers ≡ 0) × (length kits.old.items ≤ vec_capacity room.workers) }
    requires kits { (room.kits.items ≡ []) × (vec_len room.kits ≡ 0) × (length kits.old.items ≤ vec_capacity room.kits) }
    requires reports { (room.reports.items ≡ []) × (vec_len room.reports ≡ 0) × (length kits.old.items ≤ vec_capacity room.reports) }
    ensures { (before : HubView) → before.turn ≡ crew.now.hub.now → IsShared crew.now.claims.now desks.items before pass.old claimer.old → HaveWorked K.parts K.Listen.tells (M.means crew.now.maker.now) crew.now.limit before pass.new kits.old.items kits.new.items result.items }
{
    let Room {
        mut workers,
        kits: back,
        mut reports,
    } = room;
    let given = Queue::from_vec(mem::replace(kits, back));
    hire(
        alloc,
        given,
        desks,
        &mut workers,
        crew.hub,
        crew.claims,
        pass,
    );
    serve_all::<R, K, M>(rt, alloc, crew, workers.as_mut_slice());
    let served = Queue::from_vec(workers);
    dismiss(
        crew.hub,
        crew.claims,
        served,
        pass,
        claimer,
        kits,
        &mut reports,
    );
    let _ = crew.claims.next(claimer);
    reports
}

/// How many sessions all workers have at once, at most.
const MOST: usize = 4096;

/// Runs one worker for each kit, each in a thread of its own, and returns once all have ended. A worker has at most
/// 4,096 sessions at once, divided by the number of kits.
///
/// Each connection takes a claim, from 0 on. Claims below the limit are served, and a connection past it is dropped
/// unanswered. A worker stops to accept where the claims are used up, a listener of its kit failed, or memory for a
/// report, a session or its devices was refused, and ends once its sessions ended. The reports stand in the order of the
/// kits. What this call itself allocates is taken before the threads begin: on `Err` no connection was accepted, and the
/// kits and the pass's parts are as they were.
pub fn work<R: Threads + Wait + Sync, K: Kit + Send, M: Maker<Kit = K> + Sync>(
    rt: &R,
    alloc: Global,
    kits: &mut Vec<K>,
    hub: &Hub,
    pass: &mut HubPass,
    maker: &M,
    limit: u32,
) -> Result<Vec<WorkerReport>, AllocError>
where
    K::Idle: Send,
    K::Gate: Send,
    requires turn { (pass.old.turn ≡ hub.now) × (M.turn maker.now ≡ hub.now) }
    requires numbers { length kits.old.items * 2 ^ 44 < pass.old.spare }
    ensures ok { IfOk result (λ reports. HaveWorked K.parts K.Listen.tells (M.means maker.now) limit pass.old pass.new kits.old.items kits.new.items reports.items) }
    ensures err { OnErr result ((kits.new.items ≡ kits.old.items) × (pass.new.seen ≡ pass.old.seen) × (pass.new.number ≡ pass.old.number) × (pass.new.turn ≡ pass.old.turn) × (pass.new.parts ≡ pass.old.parts)) }
{
    let count = kits.len();
    let room = room_for::<K>(alloc, count)?;
    let (claims, mut claimer) = Claims::new(alloc)?;
    let desks = desks_for(alloc, hub, &claims, pass, &mut claimer, count)?;
    let crew = Crew {
        hub,
        claims: &claims,
        maker,
        limit: limit as u64,
        most: MOST / count.max(1),
    };
    Ok(employ::<R, K, M>(rt, alloc, &crew, room, desks, pass, &mut claimer, kits))
}
