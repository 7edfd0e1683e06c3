//! What a command line asks for.
ghost use Rattle.std.specs.Prelude.{◌≡◌, [], map, string_bytes};
ghost use Rattle.gp_plain.specs.Standing.{StandsFor};
ghost use Rattle.gp_proxy.specs.Runs.{RunSays};
ghost use Rattle.gp_serve.specs.Words.{command_of};

use crate::serving::serve;
use gp_outside::World;
use gp_replay::{Registry, Status, replay_on};
use gp_serve::{Command, command_in};
use std::alloc::Global;
use std::sync::Wait;
use std::thread::Threads;

/// Does what the words of a command line ask: `replay FILE` on an empty registry, or `serve ROUTES` with options.
///
/// `Usage` comes exactly where the words aren't in this grammar, and nothing is then read, served or written. A server leaves
/// the registry as it was.
pub fn run<R: Threads + Wait + Sync, W: World>(
    rt: &R,
    alloc: Global,
    words: &[String],
    registry: &mut Registry,
    world: &mut W,
) -> Status
    requires { StandsFor registry.old [] }
    ensures { RunSays (record { content = W.Files.content; faults = W.Files.faults; out = W.Out.tells; clock = W.Clock.tells; parts = W.Kit.parts; listens = W.Kit.Listen.tells; links = W.Kit.Listen.Link.tells; dials = W.Kit.Dial.tells; clocks = W.Kit.Clock.tells }) (command_of (map string_bytes words.now)) (W.parts world.old) (W.parts world.new) registry.old registry.new result }
{
    let (routes, asked) = match command_in(words) {
        Ok(Command::Replay(path)) => return replay_on(alloc, path, registry, world),
        Ok(Command::Serve(routes, asked)) => (routes, asked),
        Err(place) => return Status::Usage(place),
    };
    match asked.options(alloc) {
        Ok(options) => serve::<R, W>(rt, alloc, routes, &options, world),
        Err(_) => Status::NoMemory,
    }
}
