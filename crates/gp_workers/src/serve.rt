//! A worker at its work.
ghost use Rattle.std.specs.Prelude.{ℕ, ◌≡◌, ◌<◌, ◌≤◌, ◌^◌, ◌⊎◌, [], true, length};
ghost use Rattle.gp_workers.specs.Books.{Books, books};
ghost use Rattle.gp_workers.specs.Doors.{HasMoved};
ghost use Rattle.gp_workers.specs.Visits.{ended_by, gives_by};
ghost use Rattle.gp_workers.specs.Works.{HasStopped, Stands, Works};

use crate::admit::{admit, takes_more};
use crate::crew::Crew;
use crate::door::Door;
use crate::maker::Maker;
use crate::poll::poll_all;
use crate::visit::Visiting;
use crate::worker::{Running, Worker};
use gp_outside::{Idle, Kit};
use std::sync::Wait;

/// Whether the worker has nothing to do any more: no session runs, and it takes no connection.
fn is_done<M, K: Kit, S>(crew: &Crew<'_, M>, worker: &mut Worker<K>, running: &[Running<S>]) -> bool
    requires claims { worker.old.claimer.table ≡ crew.now.claims.now }
    ensures moved { HasMoved (books K.parts K.Listen.tells worker.old) (books K.parts K.Listen.tells worker.new) }
    ensures same { worker.new.reports ≡ worker.old.reports }
    ensures done { result ≡ true → (running.now ≡ []) × HasStopped crew.now.limit (books K.parts K.Listen.tells worker.new) }
{
    running.is_empty() && !takes_more(crew, worker)
}

/// Rests.
fn rest<K: Kit>(worker: &mut Worker<K>)
    ensures moved { HasMoved (books K.parts K.Listen.tells worker.old) (books K.parts K.Listen.tells worker.new) }
    ensures same { worker.new.reports ≡ worker.old.reports }
{
    worker.kit.idle().rest();
}

/// One round: accepts once at each door, then polls each session once. It says whether nothing came and nothing ended.
fn round<M: Maker>(
    crew: &Crew<'_, M>,
    worker: &mut Worker<M::Kit>,
    running: &mut Vec<Running<Visiting<M>>>,
) -> bool
    requires turn { M.turn crew.now.maker.now ≡ crew.now.hub.now }
    requires limit { crew.now.limit < 2 ^ 32 }
    requires stands { Stands (λ v. ended_by M.Client.ended M.Publisher.ended v.visit) (λ v. gives_by M.Client.may_give M.Publisher.may_give v.visit) (M.means crew.now.maker.now) crew.now.hub.now crew.now.claims.now (books M.Kit.parts M.Kit.Listen.tells worker.old) running.old.items }
    ensures stands { Stands (λ v. ended_by M.Client.ended M.Publisher.ended v.visit) (λ v. gives_by M.Client.may_give M.Publisher.may_give v.visit) (M.means crew.now.maker.now) crew.now.hub.now crew.now.claims.now (books M.Kit.parts M.Kit.Listen.tells worker.new) running.new.items }
    ensures works { (start : Books _ _ _) → Works (M.means crew.now.maker.now) crew.now.hub.now crew.now.limit start (books M.Kit.parts M.Kit.Listen.tells worker.old) running.old.items → Works (M.means crew.now.maker.now) crew.now.hub.now crew.now.limit start (books M.Kit.parts M.Kit.Listen.tells worker.new) running.new.items }
{
    let has_client = admit::<M>(crew, worker, running, Door::Clients);
    let has_publisher = admit::<M>(crew, worker, running, Door::Publishers);
    let has_ended = poll_all::<M, Visiting<M>>(crew, worker, running);
    !(has_client || has_publisher || has_ended)
}

/// Works until no session runs and no connection is taken any more.
pub fn serve<R: Wait, M: Maker>(
    rt: &R,
    crew: &Crew<'_, M>,
    worker: &mut Worker<M::Kit>,
    running: &mut Vec<Running<Visiting<M>>>,
)
    requires turn { M.turn crew.now.maker.now ≡ crew.now.hub.now }
    requires limit { crew.now.limit < 2 ^ 32 }
    requires stands { Stands (λ v. ended_by M.Client.ended M.Publisher.ended v.visit) (λ v. gives_by M.Client.may_give M.Publisher.may_give v.visit) (M.means crew.now.maker.now) crew.now.hub.now crew.now.claims.now (books M.Kit.parts M.Kit.Listen.tells worker.old) running.old.items }
    ensures stands { Stands (λ v. ended_by M.Client.ended M.Publisher.ended v.visit) (λ v. gives_by M.Client.may_give M.Publisher.may_give v.visit) (M.means crew.now.maker.now) crew.now.hub.now crew.now.claims.now (books M.Kit.parts M.Kit.Listen.tells worker.new) running.new.items }
    ensures works { (start : Books _ _ _) → Works (M.means crew.now.maker.now) crew.now.hub.now crew.now.limit start (books M.Kit.parts M.Kit.Listen.tells worker.old) running.old.items → Works (M.means crew.now.maker.now) crew.now.hub.now crew.now.limit start (books M.Kit.parts M.Kit.Listen.tells worker.new) running.new.items }
    ensures done { (running.new.items ≡ []) × HasStopped crew.now.limit (books M.Kit.parts M.Kit.Listen.tells worker.new) }
{
    for _ in rt.forever() {
        let is_idle = round::<M>(crew, worker, running);
        if is_done::<M, M::Kit, Visiting<M>>(crew, worker, running.as_slice()) {
            return;
        }
        if is_idle {
            rest::<M::Kit>(worker);
        }
    }
    unreachable!()
}
