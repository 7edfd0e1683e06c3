//! Workers are hired, serve, and are dismissed.
ghost use Rattle.std.specs.Prelude.{ℕ, ◌≡◌, ◌+◌, ◌*◌, ◌<◌, ◌≤◌, ◌^◌, [], All, length, map};
ghost use Rattle.std.specs.Vec.{vec_capacity, vec_len};
ghost use Rattle.gp_workers.specs.Claims.{one_share};
ghost use Rattle.gp_workers.specs.Desks.{IsDesk, desks_in};
ghost use Rattle.gp_workers.specs.Served.{HasGathered, HasGrown, worker_report, workers_in};
ghost use Rattle.gp_workers.specs.Works.{IsJoined};
ghost use Rattle.gp_workers.specs.Books.{books};
ghost use Rattle.gp_workers.specs.Hires.{HasServed, IsNew};

use crate::claims::{Claimer, Claims};
use crate::crew::Crew;
use crate::desk::Desk;
use crate::maker::Maker;
use crate::report::{SessionReports, WorkerReport};
use crate::serve::serve;
use crate::worker::Worker;
use gp_hub::{Hub, HubPass};
use gp_outside::Kit;
use gp_plain::Queue;
use std::alloc::Global;
use std::sync::Wait;

/// Serves from the first connection on. Its sessions begin and end here.
pub fn serve_new<R: Wait, M: Maker>(
    rt: &R,
    alloc: Global,
    crew: &Crew<'_, M>,
    worker: &mut Worker<M::Kit>,
)
    requires turn { M.turn crew.now.maker.now ≡ crew.now.hub.now }
    requires limit { crew.now.limit < 2 ^ 32 }
    requires new { IsNew crew.now.hub.now crew.now.claims.now (books M.Kit.parts M.Kit.Listen.tells worker.old) }
    ensures { HasServed (M.means crew.now.maker.now) crew.now.hub.now crew.now.claims.now crew.now.limit (books M.Kit.parts M.Kit.Listen.tells worker.old) (books M.Kit.parts M.Kit.Listen.tells worker.new) }
{
    let mut running = Vec::new(alloc);
    serve::<R, M>(rt, crew, worker, &mut running);
}

/// Hires a worker for each kit, which takes a desk.
pub fn hire<K: Kit>(
    alloc: Global,
    mut kits: Queue<K>,
    mut desks: Vec<Desk>,
    workers: &mut Vec<Worker<K>>,
    _hub: &Hub,
    _claims: &Claims,
    _pass: &HubPass,
)
    requires desks { All (IsDesk _hub.now _claims.now _pass.now.seen) desks.items }
    requires count { length desks.items ≡ length kits }
    requires room { (workers.old.items ≡ []) × (vec_len workers.old ≡ 0) × (length kits ≤ vec_capacity workers.old) }
    ensures kits { map (λ w. w.kit) workers.new.items ≡ kits }
    ensures new { All (λ w. (w.pass.seen ≡ _pass.now.seen) × IsNew _hub.now _claims.now (books K.parts K.Listen.tells w)) workers.new.items }
    ensures numbers { (n : ℕ) → workers_in n workers.new.items ≡ desks_in n desks.items }
{
    while let Some(kit) = kits.take_first() {
        let Some(desk) = desks.pop() else {
            unreachable!()
        };
        let Desk { pass, claimer } = desk;
        workers.push_reserved(Worker {
            kit,
            pass,
            claimer,
            reports: SessionReports::new(alloc),
            listen_failed: false,
            no_memory: false,
            is_full: false,
        });
    }
}

/// Gives desks back.
pub fn clear(hub: &Hub, _claims: &Claims, mut desks: Vec<Desk>, pass: &mut HubPass)
    requires turn { pass.old.turn ≡ hub.now }
    requires desks { All (IsDesk hub.now _claims.now pass.old.seen) desks.items }
    ensures { (pass.new.seen ≡ pass.old.seen) × (pass.new.number ≡ pass.old.number) × (pass.new.turn ≡ pass.old.turn) × (pass.new.parts ≡ pass.old.parts + 2 ^ 44 * length desks.items) }
{
    while let Some(desk) = desks.pop() {
        let Desk { pass: gone, .. } = desk;
        hub.join(gone, pass);
    }
}

/// Dismisses the workers: joins their passes and claimers, and hands out their kits and reports.
pub fn dismiss<K: Kit>(
    hub: &Hub,
    claims: &Claims,
    mut workers: Queue<Worker<K>>,
    pass: &mut HubPass,
    claimer: &mut Claimer,
    kits: &mut Vec<K>,
    reports: &mut Vec<WorkerReport>,
)
    requires turn { pass.old.turn ≡ hub.now }
    requires claimer { claimer.old.table ≡ claims.now }
    requires workers { All (λ w. (w.pass.turn ≡ hub.now) × (w.pass.parts ≡ 2 ^ 44) × (w.claimer.table ≡ claims.now) × (w.claimer.parts ≡ one_share)) workers }
    requires room { (kits.old.items ≡ []) × (vec_len kits.old ≡ 0) × (length workers ≤ vec_capacity kits.old) × (reports.old.items ≡ []) × (vec_len reports.old ≡ 0) × (length workers ≤ vec_capacity reports.old) }
    ensures kits { kits.new.items ≡ map (λ w. w.kit) workers }
    ensures reports { reports.new.items ≡ map worker_report workers }
    ensures pass { (pass.new.number ≡ pass.old.number) × (pass.new.turn ≡ pass.old.turn) × (pass.new.parts ≡ pass.old.parts + 2 ^ 44 * length workers) × (pass.new.spare ≡ pass.old.spare) }
    ensures grown { HasGrown pass.old pass.new }
    ensures joined { All (λ w. IsJoined w.pass pass.new) workers }
    ensures claimer { HasGathered claimer.old claimer.new workers }
{
    while let Some(worker) = workers.take_first() {
        let Worker {
            kit,
            pass: gone,
            claimer: given_up,
            reports: sessions,
            listen_failed,
            no_memory,
            ..
        } = worker;
        hub.join(gone, pass);
        claims.join(given_up, claimer);
        kits.push_reserved(kit);
        reports.push_reserved(WorkerReport {
            sessions,
            listen_failed,
            no_memory,
        });
    }
}
