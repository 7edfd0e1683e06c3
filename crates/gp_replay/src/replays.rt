ghost use Rattle.std.specs.Prelude.{◌≡◌, ◌<◌, ◌≤◌, ◌^◌, [], ℕ, List, Some, true, All, MatchResult, IfOk, IfErr, OnOk, length, take};
ghost use Rattle.gp_plain.specs.Fit.{fits};
ghost use Rattle.gp_plain.specs.Standing.{StandsFor};
ghost use Rattle.gp_outside.specs.Counts.{grown};
ghost use Rattle.gp_replay.specs.Loads.{IsLoaded, IsNotLoaded};
ghost use Rattle.gp_replay.specs.Outputs.{output};
ghost use Rattle.gp_replay.specs.Scripts.{entries_of};
ghost use Rattle.gp_replay.specs.Replays.{Says};

use crate::play::play;
use crate::script::{ScriptFault, read_script};
use crate::status::Status;
use gp_outside::{FileRead, Files, Out, write_all};
use gp_plain::{Event, chain_law};
use gp_registry::Registry;
use std::alloc::Global;

/// The bytes of a file, at most.
const FILE: usize = 16777216;

/// The events of the script at a path, or the status that a replay ends with.
pub fn load<F: Files>(alloc: Global, path: &str, files: &mut F) -> Result<Vec<Event>, Status>
    ensures loaded { MatchResult result (λ events. IsLoaded (record { content = F.content files.old path.now; faults = F.faults files.old; faults_after = F.faults files.new }) events.items) (IsNotLoaded (record { content = F.content files.old path.now; faults = F.faults files.old; faults_after = F.faults files.new })) }
    ensures fit { IfOk result (λ events. All (λ event. fits event ≡ true) events.items) }
    ensures few { IfOk result (λ events. length events.items < 2 ^ 61) }
{
    let content = match files.read(path) {
        FileRead::Took(content) => content,
        FileRead::TooLong => return Err(Status::TooLong),
        FileRead::Failed => return Err(Status::FileFault),
        FileRead::NoMemory => return Err(Status::NoMemory),
    };
    if content.len() > FILE {
        return Err(Status::TooLong);
    }
    match read_script(alloc, content.bytes()) {
        Ok(events) => Ok(events),
        Err(ScriptFault::Bad(line)) => Err(Status::BadLine(line)),
        Err(ScriptFault::NoMemory) => Err(Status::NoMemory),
    }
}

/// The text that the events write on an empty registry, or the status of want of memory.
pub fn played(alloc: Global, registry: &mut Registry, events: Vec<Event>) -> Result<Vec<u8>, Status>
    requires fit { All (λ event. fits event ≡ true) events.items }
    requires few { length events.items < 2 ^ 61 }
    requires empty { StandsFor registry.old [] }
    ensures stands { OnOk result (StandsFor registry.new (entries_of events.items)) }
    ensures text { IfOk result (λ text. text.items ≡ output events.items) }
    ensures part { (count : ℕ) × StandsFor registry.new (entries_of (take count events.items)) }
    ensures err { IfErr result (λ status. status ≡ Status.NoMemory) }
{
    let mut text = String::new(alloc);
    match play(alloc, registry, events, &mut text) {
        Ok(()) => Ok(text.into_bytes()),
        Err(_) => Err(Status::NoMemory),
    }
}

/// Steps the events of a script in order on an empty registry, all by 0, and writes the reply to each and then each
/// hold's log. The whole file is read and checked before anything is written.
pub fn replay<F: Files, O: Out>(
    alloc: Global,
    path: &str,
    registry: &mut Registry,
    files: &mut F,
    out: &mut O,
) -> Status
    requires { StandsFor registry.old [] }
    ensures { Says result (record { content = F.content files.old path.now; file_faults = F.faults files.old; file_faults_after = F.faults files.new; sink = O.tells out.old; sink_after = O.tells out.new; stands = registry.new }) }
{
    let events = match load(alloc, path, files) {
        Ok(events) => events,
        Err(status) => return status,
    };
    let text = match played(alloc, registry, events) {
        Ok(text) => text,
        Err(status) => return status,
    };
    chain_law();
    if write_all(out, text.as_slice()) {
        Status::Done
    } else {
        Status::SinkFault
    }
}
