//! What one worker has, and the end of one of its sessions.
ghost use Rattle.std.specs.Prelude.{ℕ, ◌≡◌, ◌<◌, ◌-◌};
ghost use Rattle.gp_workers.specs.Books.{HasFinished, books};

use crate::claims::{Claimer, Claims};
use crate::maker::{Finished, Maker, Over};
use crate::report::{SessionReport, SessionReports};
use gp_hub::{Hub, HubPass, Outcome};
use gp_outside::Kit;

/// A session that runs, with the claim of its connection and the number of its pass.
#[derive(Drop)]
pub struct Running<S> {
    pub claim: u32,
    pub number: u64,
    pub session: S,
}

/// What one worker has, but for its sessions, which begin and end in its thread.
#[derive(Drop)]
pub struct Worker<K> {
    pub kit: K,
    pub pass: HubPass,
    pub claimer: Claimer,
    pub reports: SessionReports,
    pub listen_failed: bool,
    pub no_memory: bool,
    /// Whether the kit refused devices.
    pub is_full: bool,
}

/// Ends a session: joins its pass, reports it, and hands its devices back.
pub fn finish<K: Kit>(worker: &mut Worker<K>, hub: &Hub, claim: u32, over: Over<K>)
    requires turn { (worker.old.pass.turn ≡ hub.now) × (over.outcome.pass.turn ≡ hub.now) }
    requires room { 0 < worker.old.reports.spare }
    ensures { HasFinished (record { claim = claim; over = over }) (books K.parts K.Listen.tells worker.old) (books K.parts K.Listen.tells worker.new) }
{
    let Finished {
        outcome,
        link,
        others,
    } = over;
    let Outcome {
        end,
        holds,
        pass,
        ..
    } = outcome;
    let number = pass.number();
    hub.join(pass, &mut worker.pass);
    let _ = worker.reports.push(SessionReport {
        claim,
        number,
        end,
        holds,
    });
    if !worker.is_full && worker.kit.over(link, others).is_err() {
        worker.is_full = true;
        worker.no_memory = true;
    }
}
