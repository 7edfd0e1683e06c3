ghost use Rattle.std.specs.Prelude.{◌≡◌, ◌+◌, ◌^◌, ◌<◌, ◌≤◌, ◌++◌, ◌∷◌, [], ◌⊎◌, true, ℕ, List, All, OnOk, IfOk, length, map, take, option_map, slice_get, string_bytes, Some};
ghost use Rattle.std.specs.List.{flat_map};
ghost use Rattle.gp_plain.specs.Fit.{fits};
ghost use Rattle.gp_plain.specs.Pieces.{moved, position_after, text};
ghost use Rattle.gp_plain.specs.Holds.{Held};
ghost use Rattle.gp_plain.specs.History.{cause_at, held, reply};
ghost use Rattle.gp_plain.specs.Standing.{StandsFor};
ghost use Rattle.gp_plain.specs.declared.event.Entry.{Entry};
ghost use Rattle.gp_script.specs.Texts.{reply_text, piece_text};
ghost use Rattle.gp_replay.specs.Logs.{log_of, log_position, or_end, whole_text};
ghost use Rattle.gp_replay.specs.Outputs.{log_text, logs_text, output, replies_text};
ghost use Rattle.gp_replay.specs.Scripts.{entries_of, entry_of};

use crate::log::Log;
use crate::logs::{note, noted};
use gp_plain::{Body, EndCause, Event, ItemId, Piece, Pieces, position_law, told_law};
use gp_registry::Registry;
use gp_script::{add_end, add_hold, add_piece, add_reply};
use std::alloc::{AllocError, Global};

/// Steps one event, adds the line of its reply, and keeps what that says of the logs.
fn play_one(
    alloc: Global,
    registry: &mut Registry,
    logs: &mut Vec<Log>,
    event: Event,
    out: &mut String,
) -> Result<(), AllocError>
    requires fits { fits event ≡ true }
    requires room { registry.old.next < 2 ^ 62 }
    ensures number { registry.new.next ≤ registry.old.next + 1 }
    ensures stands { (past : List Entry) → StandsFor registry.old past → OnOk result (StandsFor registry.new (past ++ entry_of event ∷ [])) }
    ensures text { (past : List Entry) → StandsFor registry.old past → OnOk result (string_bytes out.new ≡ string_bytes out.old ++ reply_text (reply past 0 event)) }
    ensures logs { (past : List Entry) → StandsFor registry.old past → logs.old.items ≡ map log_of (held past) → OnOk result (logs.new.items ≡ map log_of (held (past ++ entry_of event ∷ []))) }
    ensures part { (past : List Entry) → StandsFor registry.old past → StandsFor registry.new past ⊎ StandsFor registry.new (past ++ entry_of event ∷ []) }
{
    told_law();
    let noted = noted(alloc, registry, &event)?;
    let reply = match registry.step(0, event) {
        Ok(reply) => reply,
        Err((_, refused)) => return Err(refused),
    };
    add_reply(alloc, out, &reply)?;
    note(alloc, logs, noted, reply)
}

/// Steps the events in order, adds the line of each reply, and keeps the logs.
fn play_events(
    alloc: Global,
    registry: &mut Registry,
    logs: &mut Vec<Log>,
    events: Vec<Event>,
    out: &mut String,
) -> Result<(), AllocError>
    requires fit { All (λ event. fits event ≡ true) events.items }
    requires room { registry.old.next + length events.items < 2 ^ 62 }
    ensures stands { (past : List Entry) → StandsFor registry.old past → OnOk result (StandsFor registry.new (past ++ entries_of events.items)) }
    ensures text { (past : List Entry) → StandsFor registry.old past → OnOk result (string_bytes out.new ≡ string_bytes out.old ++ replies_text past events.items) }
    ensures logs { (past : List Entry) → StandsFor registry.old past → logs.old.items ≡ map log_of (held past) → OnOk result (logs.new.items ≡ map log_of (held (past ++ entries_of events.items))) }
    ensures part { (past : List Entry) → StandsFor registry.old past → (count : ℕ) × StandsFor registry.new (past ++ entries_of (take count events.items)) }
{
    for event in events {
        play_one(alloc, registry, logs, event, out)?;
    }
    Ok(())
}

/// The piece at a place.
fn piece_at(pieces: &Pieces, place: usize) -> &Piece
    requires { place < length pieces.now }
    ensures { slice_get pieces.now place ≡ Some result.now }
{
    match pieces.at(place) {
        Some(piece) => piece,
        None => unreachable!(),
    }
}

/// Adds the lines of pieces.
fn push_pieces(alloc: Global, pieces: &Pieces, out: &mut String) -> Result<(), AllocError>
    ensures { OnOk result (string_bytes out.new ≡ string_bytes out.old ++ flat_map piece_text pieces.now) }
{
    for place in 0..pieces.len() {
        add_piece(alloc, out, piece_at(pieces, place))?;
    }
    Ok(())
}

/// Adds the bytes of pieces.
fn push_bytes(pieces: &Pieces, bytes: &mut Vec<u8>) -> Result<(), AllocError>
    ensures { OnOk result (bytes.new.items ≡ bytes.old.items ++ text pieces.now) }
{
    for place in 0..pieces.len() {
        bytes.extend_from_slice(piece_at(pieces, place).bytes())?;
    }
    Ok(())
}

/// The bytes of pieces and of those after them, joined.
fn joined(alloc: Global, pieces: &Pieces, more: &Pieces) -> Result<Body, AllocError>
    ensures { IfOk result (λ bytes. bytes ≡ text pieces.now ++ text more.now) }
{
    let mut bytes = Vec::new(alloc);
    push_bytes(pieces, &mut bytes)?;
    push_bytes(more, &mut bytes)?;
    Ok(Body::from_vec(bytes))
}

/// Where a piece moves the position.
fn moved_by<'a>(position: &'a ItemId, piece: &'a Piece) -> &'a ItemId
    ensures { result.now ≡ moved position.now piece.now }
{
    match piece.moves_to() {
        Some(id) => id,
        None => position,
    }
}

/// The position after pieces.
fn position_after<'a>(start: &'a ItemId, pieces: &'a Pieces) -> &'a ItemId
    ensures { result.now ≡ position_after start.now pieces.now }
{
    let mut position = start;
    for place in 0..pieces.len() {
        position = moved_by(position, piece_at(pieces, place));
    }
    position
}

/// The position after a log's pieces and those after them.
fn position_of<'a>(log: &'a Log, more: &'a Pieces) -> Option<&'a ItemId>
    ensures { option_map (λ id. id.now) result ≡ log_position log.now more.now }
{
    match &log.start {
        Some(start) => Some(position_after(position_after(start, &log.pieces), more)),
        None => None,
    }
}

/// Adds the lines of a log and of what still waits, and where the hold stands.
fn push_whole(
    alloc: Global,
    number: u64,
    log: &Log,
    more: &Pieces,
    ended: Option<EndCause>,
    out: &mut String,
) -> Result<(), AllocError>
    ensures { OnOk result (string_bytes out.new ≡ string_bytes out.old ++ whole_text number log.now more.now ended) }
{
    add_hold(alloc, out, number, log.kind)?;
    push_pieces(alloc, &log.pieces, out)?;
    push_pieces(alloc, more, out)?;
    let bytes = joined(alloc, &log.pieces, more)?;
    add_end(alloc, out, &bytes, position_of(log, more), ended)
}

/// The end of a hold: that of its release, or that which the registry knows.
fn end_of(registry: &Registry, number: u64, log: &Log) -> Option<EndCause>
    ensures { (past : List Entry) → StandsFor registry.now past → result ≡ or_end log.now.ended (cause_at (held past) number) }
{
    match log.ended {
        Some(cause) => Some(cause),
        None => registry.cause(number),
    }
}

/// Adds the log of a hold, with what still waits for it in the registry.
fn push_log(
    alloc: Global,
    registry: &Registry,
    number: u64,
    log: &Log,
    out: &mut String,
) -> Result<(), AllocError>
    ensures { (past : List Entry) (h : Held) → StandsFor registry.now past → slice_get (held past) number ≡ Some h → log.now ≡ log_of h → OnOk result (string_bytes out.new ≡ string_bytes out.old ++ log_text number h) }
{
    position_law();
    let more = registry.pending(number)?;
    let ended = end_of(registry, number, log);
    push_whole(alloc, number, log, &more, ended, out)
}

/// Adds the log of each hold, in order of numbers.
fn push_logs(
    alloc: Global,
    registry: &Registry,
    logs: &[Log],
    out: &mut String,
) -> Result<(), AllocError>
    ensures { (past : List Entry) → StandsFor registry.now past → logs.now ≡ map log_of (held past) → OnOk result (string_bytes out.new ≡ string_bytes out.old ++ logs_text 0 (held past)) }
{
    for (place, log) in logs.iter().enumerate() {
        push_log(alloc, registry, place as u64, log, out)?;
    }
    Ok(())
}

/// What a script's events write, on a registry that stands for the empty history.
pub fn play(
    alloc: Global,
    registry: &mut Registry,
    events: Vec<Event>,
    out: &mut String,
) -> Result<(), AllocError>
    requires fit { All (λ event. fits event ≡ true) events.items }
    requires few { length events.items < 2 ^ 61 }
    requires empty { StandsFor registry.old [] }
    ensures stands { OnOk result (StandsFor registry.new (entries_of events.items)) }
    ensures text { OnOk result (string_bytes out.new ≡ string_bytes out.old ++ output events.items) }
    ensures part { (count : ℕ) × StandsFor registry.new (entries_of (take count events.items)) }
{
    let mut logs = Vec::new(alloc);
    play_events(alloc, registry, &mut logs, events, out)?;
    push_logs(alloc, registry, logs.as_slice(), out)
}
