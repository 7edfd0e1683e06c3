//! A replay over what a world lends.
ghost use Rattle.std.specs.Prelude.{◌≡◌, []};
ghost use Rattle.gp_plain.specs.Standing.{StandsFor};
ghost use Rattle.gp_replay.specs.Replays.{Says};

use crate::replays::{load, played};
use crate::status::Status;
use gp_outside::{World, write_all};
use gp_plain::chain_law;
use gp_registry::Registry;
use std::alloc::Global;

/// Replays the script at a path on an empty registry, with the files and the sink of a world.
pub fn replay_on<W: World>(
    alloc: Global,
    path: &str,
    registry: &mut Registry,
    world: &mut W,
) -> Status
    requires { StandsFor registry.old [] }
    ensures says { Says result (record { content = W.Files.content (W.parts world.old).files path.now; file_faults = W.Files.faults (W.parts world.old).files; file_faults_after = W.Files.faults (W.parts world.new).files; sink = W.Out.tells (W.parts world.old).out; sink_after = W.Out.tells (W.parts world.new).out; stands = registry.new }) }
    ensures same { W.parts world.new ≡ record (W.parts world.old) { files = (W.parts world.new).files; out = (W.parts world.new).out } }
{
    let events = match load(alloc, path, world.files()) {
        Ok(events) => events,
        Err(status) => return status,
    };
    let text = match played(alloc, registry, events) {
        Ok(text) => text,
        Err(status) => return status,
    };
    chain_law();
    if write_all(world.out(), text.as_slice()) {
        Status::Done
    } else {
        Status::SinkFault
    }
}
