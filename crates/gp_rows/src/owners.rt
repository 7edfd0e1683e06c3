ghost use Rattle.std.specs.Prelude.{◌+◌, ◌<◌, ◌≤◌};

use crate::lines::event;
use crate::shown::add_reply;
use gp_plain::Event;
use gp_replay::Registry;
use std::alloc::{AllocError, Global};

/// The want of memory, without the event that is handed back.
fn want((event, refused): (Event, AllocError)) -> AllocError {
    drop(event);
    refused
}

/// Steps the event of a line, and adds the reply.
fn step(
    alloc: Global,
    text: &mut String,
    registry: &mut Registry,
    who: u64,
    line: &str,
) -> Result<(), AllocError>
    requires { registry.old.next < 1000 }
    ensures { registry.new.next ≤ registry.old.next + 1 }
{
    match registry.step(who, event(alloc, line)?) {
        Ok(reply) => add_reply(alloc, text, reply),
        Err(refused) => Err(want(refused)),
    }
}

/// What 0 and 1 are answered of a hold of 0.
fn steps(alloc: Global, text: &mut String, registry: &mut Registry) -> Result<(), AllocError>
    requires { registry.old.next < 900 }
{
    step(alloc, text, registry, 0, "attach stream news a link hi")?;
    step(alloc, text, registry, 1, "take 0 0")?;
    step(alloc, text, registry, 0, "detach 0")?;
    step(alloc, text, registry, 0, "take 0 0")
}

/// What 0 and 1 are answered of a hold of 0, from an empty registry.
pub fn owners(alloc: Global, text: &mut String) -> Result<(), AllocError> {
    let mut registry = Registry::new(alloc);
    let stepped = steps(alloc, text, &mut registry);
    drop(registry);
    stepped
}
