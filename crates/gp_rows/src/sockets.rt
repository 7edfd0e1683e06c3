//! Calls of a pass for a socket of its own.
ghost use Rattle.std.specs.Prelude.{◌≡◌};
ghost use Rattle.gp_hub.specs.Own.{Keeps};

use crate::lines::{channel, message, spec};
use crate::passes::{add_fault, detach};
use gp_hub::{ChangeReply, Hub, HubPass};
use std::alloc::{AllocError, Global};

/// Adds a line for what a change was answered: this one where it was carried out.
fn add_change(text: &mut String, done: &str, answer: ChangeReply) -> Result<(), AllocError> {
    text.push_str(match answer {
        ChangeReply::Done => done,
        ChangeReply::Full => "full\n",
        ChangeReply::Gone(_) => "gone\n",
        ChangeReply::OtherKind(_) => "other\n",
    })
}

/// Leaves the channel of a line for a socket of the pass, and lets it go.
fn leave_and_detach(
    alloc: Global,
    text: &mut String,
    hub: &Hub,
    pass: &mut HubPass,
    hold: u64,
) -> Result<(), AllocError>
    requires turn { pass.old.turn ≡ hub.now }
    requires keeps { Keeps pass.old hold }
    ensures { (pass.new.turn ≡ pass.old.turn) × (pass.new.parts ≡ pass.old.parts) }
{
    match hub.leave_channel(pass, hold, channel(alloc, "join 0 chat")?) {
        Ok(answer) => {
            add_change(text, "left\n", answer)?;
            detach(text, hub, pass, hold)
        }
        Err(fault) => add_fault(text, fault),
    }
}

/// Sends a socket of the pass a message, and then leaves and lets it go.
fn push_and_leave(
    alloc: Global,
    text: &mut String,
    hub: &Hub,
    pass: &mut HubPass,
    hold: u64,
) -> Result<(), AllocError>
    requires turn { pass.old.turn ≡ hub.now }
    requires keeps { Keeps pass.old hold }
    ensures { (pass.new.turn ≡ pass.old.turn) × (pass.new.parts ≡ pass.old.parts) }
{
    match hub.push(pass, hold, message(alloc, "push 0 text hey")?) {
        Ok(answer) => {
            add_change(text, "pushed\n", answer)?;
            leave_and_detach(alloc, text, hub, pass, hold)
        }
        Err(fault) => add_fault(text, fault),
    }
}

/// Joins a channel for a socket of the pass, and then sends it a message.
fn join_and_push(
    alloc: Global,
    text: &mut String,
    hub: &Hub,
    pass: &mut HubPass,
    hold: u64,
) -> Result<(), AllocError>
    requires turn { pass.old.turn ≡ hub.now }
    requires keeps { Keeps pass.old hold }
    ensures { (pass.new.turn ≡ pass.old.turn) × (pass.new.parts ≡ pass.old.parts) }
{
    match hub.join_channel(pass, hold, channel(alloc, "join 0 chat")?) {
        Ok(answer) => {
            add_change(text, "joined\n", answer)?;
            push_and_leave(alloc, text, hub, pass, hold)
        }
        Err(fault) => add_fault(text, fault),
    }
}

/// Attaches a socket, which joins a channel, gets a message, leaves the channel and is let go.
pub fn socket(
    alloc: Global,
    text: &mut String,
    hub: &Hub,
    pass: &mut HubPass,
) -> Result<(), AllocError>
    requires { pass.old.turn ≡ hub.now }
    ensures { (pass.new.turn ≡ pass.old.turn) × (pass.new.parts ≡ pass.old.parts) }
{
    match hub.attach(pass, spec(alloc, "attach socket")?) {
        Ok(Some(hold)) => {
            writeln!(text, "has {hold}")?;
            join_and_push(alloc, text, hub, pass, hold)
        }
        Ok(None) => text.push_str("full\n"),
        Err(fault) => add_fault(text, fault),
    }
}
