//! A connection comes in, and its session begins.
ghost use Rattle.std.specs.Prelude.{ℕ, ◌≡◌, ◌+◌, ◌*◌, ◌<◌, ◌≤◌, ◌^◌, ◌⊎◌, MatchBool, false, length, true};
ghost use Rattle.std.specs.Vec.{vec_capacity, vec_len};
ghost use Rattle.gp_outside.specs.Unused.{IsUnusedLink};
ghost use Rattle.gp_workers.specs.Books.{Books, books};
ghost use Rattle.gp_workers.specs.Doors.{HasBegun, HasMoved, IsTaken};
ghost use Rattle.gp_workers.specs.Makers.{numbers};
ghost use Rattle.gp_workers.specs.Visits.{ended_by, gives_by};
ghost use Rattle.gp_workers.specs.Works.{Stands, Works};

use crate::crew::Crew;
use crate::door::{Door, accept, made};
use crate::maker::Maker;
use crate::visit::Visiting;
use crate::worker::{Running, Worker};
use gp_outside::{Accepted, Kit, Listen};

/// How many numbers the pass of a session has.
const NUMBERS: u64 = 1024;

/// Begins the session of a connection that has a claim, where memory isn't wanting.
fn begin<M: Maker>(
    crew: &Crew<'_, M>,
    worker: &mut Worker<M::Kit>,
    running: &mut Vec<Running<Visiting<M>>>,
    door: Door,
    claim: u32,
    link: <<M::Kit as Kit>::Listen as Listen>::Link,
)
    requires turn { (worker.old.pass.turn ≡ crew.now.hub.now) × (M.turn crew.now.maker.now ≡ crew.now.hub.now) }
    requires numbers { (numbers < worker.old.pass.spare) × (worker.old.pass.spare ≤ worker.old.pass.parts) }
    requires room { vec_len running.old < vec_capacity running.old }
    requires link { IsUnusedLink (M.Kit.Listen.Link.tells link) }
    ensures { HasBegun (λ v. ended_by M.Client.ended M.Publisher.ended v.visit) (λ v. gives_by M.Client.may_give M.Publisher.may_give v.visit) (M.means crew.now.maker.now) crew.now.hub.now claim (books M.Kit.parts M.Kit.Listen.tells worker.old) (books M.Kit.parts M.Kit.Listen.tells worker.new) running.old.items running.new.items }
{
    let Ok(pass) = crew.hub.split(&mut worker.pass, NUMBERS) else {
        worker.no_memory = true;
        return;
    };
    let number = pass.number();
    match made::<M>(crew.maker, &mut worker.kit, door, pass, claim, link) {
        Ok(session) => running.push_reserved(Running {
            claim,
            number,
            session,
        }),
        Err(pass) => {
            crew.hub.join(pass, &mut worker.pass);
            worker.no_memory = true;
        }
    }
}

/// A connection takes its claim, and is served where that is below the limit.
fn enter<M: Maker>(
    crew: &Crew<'_, M>,
    worker: &mut Worker<M::Kit>,
    running: &mut Vec<Running<Visiting<M>>>,
    door: Door,
    link: <<M::Kit as Kit>::Listen as Listen>::Link,
)
    requires turn { M.turn crew.now.maker.now ≡ crew.now.hub.now }
    requires stands { Stands (λ v. ended_by M.Client.ended M.Publisher.ended v.visit) (λ v. gives_by M.Client.may_give M.Publisher.may_give v.visit) (M.means crew.now.maker.now) crew.now.hub.now crew.now.claims.now (books M.Kit.parts M.Kit.Listen.tells worker.old) running.old.items }
    requires room { (vec_len running.old + 1 ≤ worker.old.reports.spare) × (vec_len running.old < vec_capacity running.old) }
    requires limit { crew.now.limit < 2 ^ 32 }
    requires next { worker.old.claimer.note < 2 ^ 32 }
    requires memory { worker.old.no_memory ≡ false }
    requires link { IsUnusedLink (M.Kit.Listen.Link.tells link) }
    ensures stands { Stands (λ v. ended_by M.Client.ended M.Publisher.ended v.visit) (λ v. gives_by M.Client.may_give M.Publisher.may_give v.visit) (M.means crew.now.maker.now) crew.now.hub.now crew.now.claims.now (books M.Kit.parts M.Kit.Listen.tells worker.new) running.new.items }
    ensures works { (start : Books _ _ _) → Works (M.means crew.now.maker.now) crew.now.hub.now crew.now.limit start (books M.Kit.parts M.Kit.Listen.tells worker.old) running.old.items → Works (M.means crew.now.maker.now) crew.now.hub.now crew.now.limit start (books M.Kit.parts M.Kit.Listen.tells worker.new) running.new.items }
{
    let claim = crew.claims.take(&mut worker.claimer);
    if claim < crew.limit {
        begin::<M>(crew, worker, running, door, claim as u32, link);
    }
}

/// Makes room for one more session and its report.
fn make_room<K, S>(worker: &mut Worker<K>, running: &mut Vec<Running<S>>) -> bool
    ensures room { result ≡ true → (vec_len running.new + 1 ≤ worker.new.reports.spare) × (vec_len running.new < vec_capacity running.new) }
    ensures running { running.new.items ≡ running.old.items }
    ensures reports { worker.new.reports.items ≡ worker.old.reports.items }
    ensures kept { vec_len running.old ≤ worker.old.reports.spare → vec_len running.new ≤ worker.new.reports.spare }
    ensures memory { MatchBool result (worker.new.no_memory ≡ worker.old.no_memory) (worker.new.no_memory ≡ true) }
    ensures same { (worker.new.kit ≡ worker.old.kit) × (worker.new.pass ≡ worker.old.pass) × (worker.new.claimer ≡ worker.old.claimer) × (worker.new.listen_failed ≡ worker.old.listen_failed) × (worker.new.is_full ≡ worker.old.is_full) }
{
    let wanted = running.len() + 1;
    if worker.reports.reserve(wanted).is_err() || running.reserve(1).is_err() {
        worker.no_memory = true;
        return false;
    }
    true
}

/// Whether the worker takes connections still: nothing failed, and there are claims left.
pub fn takes_more<M, K>(crew: &Crew<'_, M>, worker: &mut Worker<K>) -> bool
    requires claims { worker.old.claimer.table ≡ crew.now.claims.now }
    ensures more { result ≡ true → (worker.new.claimer.note < crew.now.limit) × (worker.new.no_memory ≡ false) × (worker.new.listen_failed ≡ false) }
    ensures none { result ≡ false → (crew.now.limit ≤ worker.new.claimer.note) ⊎ (worker.new.no_memory ≡ true) ⊎ (worker.new.listen_failed ≡ true) }
    ensures claimer { (worker.new.claimer ≡ record worker.old.claimer { note = worker.new.claimer.note }) × (worker.old.claimer.note ≤ worker.new.claimer.note) }
    ensures same { worker.new ≡ record worker.old { claimer = worker.new.claimer } }
{
    if worker.no_memory || worker.listen_failed {
        return false;
    }
    crew.claims.next(&mut worker.claimer) < crew.limit
}

/// Whether one more session can begin, for which it makes room.
fn prepares<M, K: Kit, S>(
    crew: &Crew<'_, M>,
    worker: &mut Worker<K>,
    running: &mut Vec<Running<S>>,
) -> bool
    requires claims { worker.old.claimer.table ≡ crew.now.claims.now }
    ensures moved { HasMoved (books K.parts K.Listen.tells worker.old) (books K.parts K.Listen.tells worker.new) }
    ensures running { running.new.items ≡ running.old.items }
    ensures kept { vec_len running.old ≤ worker.old.reports.spare → vec_len running.new ≤ worker.new.reports.spare }
    ensures room { result ≡ true → (vec_len running.new + 1 ≤ worker.new.reports.spare) × (vec_len running.new < vec_capacity running.new) }
    ensures next { result ≡ true → (worker.new.claimer.note < crew.now.limit) × (worker.new.no_memory ≡ false) }
{
    if running.len() >= crew.most || !takes_more(crew, worker) {
        return false;
    }
    make_room(worker, running)
}

/// Looks for a connection at a door.
fn look<K: Kit>(worker: &mut Worker<K>, door: Door) -> Accepted<<K::Listen as Listen>::Link>
    ensures moved { HasMoved (books K.parts K.Listen.tells worker.old) (books K.parts K.Listen.tells worker.new) }
    ensures link { IsTaken K.Listen.Link.tells result }
    ensures same { (worker.new.reports ≡ worker.old.reports) × (worker.new.claimer ≡ worker.old.claimer) × (worker.new.no_memory ≡ worker.old.no_memory) }
{
    let accepted = accept(&mut worker.kit, door);
    if let Accepted::Failed = &accepted {
        worker.listen_failed = true;
    }
    accepted
}

/// Accepts once at a door, and says whether a connection came.
pub fn admit<M: Maker>(
    crew: &Crew<'_, M>,
    worker: &mut Worker<M::Kit>,
    running: &mut Vec<Running<Visiting<M>>>,
    door: Door,
) -> bool
    requires turn { M.turn crew.now.maker.now ≡ crew.now.hub.now }
    requires limit { crew.now.limit < 2 ^ 32 }
    requires stands { Stands (λ v. ended_by M.Client.ended M.Publisher.ended v.visit) (λ v. gives_by M.Client.may_give M.Publisher.may_give v.visit) (M.means crew.now.maker.now) crew.now.hub.now crew.now.claims.now (books M.Kit.parts M.Kit.Listen.tells worker.old) running.old.items }
    ensures stands { Stands (λ v. ended_by M.Client.ended M.Publisher.ended v.visit) (λ v. gives_by M.Client.may_give M.Publisher.may_give v.visit) (M.means crew.now.maker.now) crew.now.hub.now crew.now.claims.now (books M.Kit.parts M.Kit.Listen.tells worker.new) running.new.items }
    ensures works { (start : Books _ _ _) → Works (M.means crew.now.maker.now) crew.now.hub.now crew.now.limit start (books M.Kit.parts M.Kit.Listen.tells worker.old) running.old.items → Works (M.means crew.now.maker.now) crew.now.hub.now crew.now.limit start (books M.Kit.parts M.Kit.Listen.tells worker.new) running.new.items }
{
    if !prepares::<M, M::Kit, Visiting<M>>(crew, worker, running) {
        return false;
    }
    match look::<M::Kit>(worker, door) {
        Accepted::Took(link) => {
            enter::<M>(crew, worker, running, door, link);
            true
        }
        Accepted::NotReady => false,
        Accepted::Failed => false,
    }
}
