ghost use Rattle.std.specs.Prelude.{◌≡◌, ◌++◌, ◌∷◌, [], ℕ, List, Some, None, IfOk, OnOk, map, option_map};
ghost use Rattle.gp_plain.specs.Holds.{Held};
ghost use Rattle.gp_plain.specs.History.{held};
ghost use Rattle.gp_plain.specs.Standing.{StandsFor};
ghost use Rattle.gp_plain.specs.declared.event.Entry.{Entry};
ghost use Rattle.gp_plain.specs.Holds.{start_of};
ghost use Rattle.gp_replay.specs.Logs.{after_note, longer, noted_of};
ghost use Rattle.gp_plain.specs.Holds.{terms_of};

use crate::log::{Log, Noted};
use gp_plain::{EndCause, Event, HoldKind, HoldSpec, ItemId, Pieces, Reply, copy_id};
use gp_registry::Registry;
use std::alloc::{AllocError, Global};

fn kind_of(spec: &HoldSpec) -> HoldKind
    ensures { result ≡ (terms_of spec.now).kind }
{
    match spec {
        HoldSpec::Stream { .. } => HoldKind::Stream,
        HoldSpec::Plain { .. } => HoldKind::Plain,
        HoldSpec::Response { .. } => HoldKind::Response,
        HoldSpec::Socket => HoldKind::Socket,
    }
}

fn start_of(alloc: Global, spec: &HoldSpec) -> Result<Option<ItemId>, AllocError>
    ensures { IfOk result (λ start. start ≡ start_of spec.now) }
{
    match spec {
        HoldSpec::Stream { prev, .. } => Ok(Some(prev.copy(alloc)?)),
        HoldSpec::Plain { .. } => Ok(None),
        HoldSpec::Response { prev, .. } => copy_id(alloc, prev),
        HoldSpec::Socket => Ok(None),
    }
}

/// What an event lets go: the pieces that wait for the hold, and its end.
fn let_go(registry: &Registry, hold: u64) -> Result<Noted, AllocError>
    ensures { (past : List Entry) → StandsFor registry.now past → IfOk result (λ noted. noted ≡ noted_of (held past) (Event.Detach hold)) }
{
    let pending = registry.pending(hold)?;
    let cause = match registry.cause(hold) {
        Some(cause) => cause,
        None => EndCause::Detached,
    };
    Ok(Noted::LetsGo(hold, pending, cause))
}

/// What an event may change of the logs, before it is stepped.
pub fn noted(alloc: Global, registry: &Registry, event: &Event) -> Result<Noted, AllocError>
    ensures { (past : List Entry) → StandsFor registry.now past → IfOk result (λ noted. noted ≡ noted_of (held past) event.now) }
{
    match event {
        Event::Attach { spec } => Ok(Noted::Begins(kind_of(spec), start_of(alloc, spec)?)),
        Event::Take { hold, .. } => Ok(Noted::Takes(*hold)),
        Event::Detach { hold } => let_go(registry, *hold),
        _ => Ok(Noted::Nothing),
    }
}

/// Moves more pieces to the end.
fn append(to: &mut Pieces, more: Pieces) -> Result<(), AllocError>
    ensures { OnOk result (to.new ≡ to.old ++ more) }
{
    if to.is_empty() {
        *to = more;
        return Ok(());
    }
    let mut more = more;
    while let Some(piece) = more.take_first() {
        match to.push(piece) {
            Ok(()) => {}
            Err((_, refused)) => return Err(refused),
        }
    }
    Ok(())
}

fn lengthen(
    logs: &mut Vec<Log>,
    hold: u64,
    more: Pieces,
    ended: Option<EndCause>,
) -> Result<(), AllocError>
    ensures { OnOk result (logs.new.items ≡ longer hold more ended logs.old.items) }
{
    let place = hold as usize;
    if place < logs.len() {
        let log = &mut logs[place];
        append(&mut log.pieces, more)?;
        log.ended = ended;
    }
    Ok(())
}

/// Keeps what the answer to a noted event says.
pub fn note(
    alloc: Global,
    logs: &mut Vec<Log>,
    noted: Noted,
    reply: Reply,
) -> Result<(), AllocError>
    ensures { OnOk result (logs.new.items ≡ after_note logs.old.items noted reply) }
{
    match (noted, reply) {
        (Noted::Begins(kind, start), Reply::Attached(_)) => {
            let pieces = Pieces::new(alloc);
            match logs.push(Log {
                kind,
                start,
                pieces,
                ended: None,
            }) {
                Ok(()) => Ok(()),
                Err(_) => Err(AllocError),
            }
        }
        (Noted::Takes(hold), Reply::Taken(taken)) => {
            lengthen(logs, hold, taken.pieces, taken.ended)
        }
        (Noted::LetsGo(hold, pending, cause), Reply::Done) => {
            lengthen(logs, hold, pending, Some(cause))
        }
        _ => Ok(()),
    }
}
