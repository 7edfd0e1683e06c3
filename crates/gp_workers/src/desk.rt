//! What each worker gets before the threads begin.
ghost use Rattle.std.specs.Prelude.{ℕ, ◌≡◌, ◌+◌, ◌-◌, ◌*◌, ◌<◌, ◌≤◌, ◌^◌, [], All, IfOk, OnErr, OnOk, length};
ghost use Rattle.std.specs.Vec.{vec_capacity, vec_len};
ghost use Rattle.gp_workers.specs.Claims.{all_parts, one_share};
ghost use Rattle.gp_workers.specs.Desks.{IsDesk, IsShared};

use crate::claims::{Claimer, Claims};
use gp_hub::{Hub, HubPass};
use std::alloc::AllocError;

/// How many numbers the pass of a worker has.
const NUMBERS: u64 = 1 << 44;

/// A pass and a claimer for one worker.
#[derive(Drop)]
pub struct Desk {
    pub pass: HubPass,
    pub claimer: Claimer,
}

/// A desk for one worker, or none where memory is wanting.
fn place(
    hub: &Hub,
    claims: &Claims,
    pass: &mut HubPass,
    claimer: &mut Claimer,
) -> Result<Desk, AllocError>
    requires turn { pass.old.turn ≡ hub.now }
    requires numbers { (2 ^ 44 < pass.old.spare) × (pass.old.spare ≤ pass.old.parts) }
    requires claims { (claimer.old.table ≡ claims.now) × (length claimer.old.taken + one_share ≤ claimer.old.parts) }
    ensures ok { IfOk result (IsDesk hub.now claims.now pass.old.seen) }
    ensures number { IfOk result (λ desk. desk.pass.number ≡ pass.old.number + (pass.old.spare - 2 ^ 44)) }
    ensures pass { OnOk result ((pass.new.seen ≡ pass.old.seen) × (pass.new.number ≡ pass.old.number) × (pass.new.turn ≡ pass.old.turn) × (pass.new.spare + 2 ^ 44 ≡ pass.old.spare) × (pass.new.parts + 2 ^ 44 ≡ pass.old.parts)) }
    ensures claimer { OnOk result ((claimer.new.table ≡ claimer.old.table) × (claimer.new.taken ≡ claimer.old.taken) × (claimer.new.parts + one_share ≡ claimer.old.parts)) }
    ensures err { OnErr result ((pass.new ≡ pass.old) × (claimer.new ≡ claimer.old)) }
{
    Ok(Desk {
        pass: hub.split(pass, NUMBERS)?,
        claimer: claims.split(claimer),
    })
}

/// What is said of the first pass and claimer while some desks are made.
fn bounds(pass: &HubPass)
    ensures { (pass.now.spare ≤ pass.now.parts) × (pass.now.parts ≤ 2 ^ 63) }
{
    let _ = pass.spare();
    let _ = pass.parts();
}

/// A desk for each of so many workers. Where memory is wanting, those that were made are there still.
pub fn furnish(
    hub: &Hub,
    claims: &Claims,
    pass: &mut HubPass,
    claimer: &mut Claimer,
    desks: &mut Vec<Desk>,
    count: usize,
) -> Result<(), AllocError>
    requires turn { pass.old.turn ≡ hub.now }
    requires numbers { count * 2 ^ 44 < pass.old.spare }
    requires claims { (claimer.old.table ≡ claims.now) × (claimer.old.taken ≡ []) × (claimer.old.parts ≡ all_parts) }
    requires none { (desks.old.items ≡ []) × (vec_len desks.old ≡ 0) × (count ≤ vec_capacity desks.old) }
    ensures desks { All (IsDesk hub.now claims.now pass.old.seen) desks.new.items }
    ensures count { OnOk result (length desks.new.items ≡ count) }
    ensures shared { IsShared claims.now desks.new.items pass.old pass.new claimer.new }
{
    bounds(pass);
    for _ in 0..count {
        let made = place(hub, claims, pass, claimer)?;
        desks.push_reserved(made);
    }
    Ok(())
}
