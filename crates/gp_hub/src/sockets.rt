//! Calls for a socket of one's own, which are never answered Foreign or Unknown.
ghost use Rattle.std.specs.Prelude.{◌≡◌, ◌+◌, true, IfOk, IfErr, OnErr};
ghost use Rattle.gp_plain.specs.Fit.{fits};
ghost use Rattle.gp_plain.specs.Holds.{push, join, leave};
ghost use Rattle.gp_hub.specs.Passes.{IsSame};
ghost use Rattle.gp_hub.specs.Calls.{HasCause};
ghost use Rattle.gp_hub.specs.Own.{Keeps};
ghost use Rattle.gp_hub.specs.Changes.{HasChanged, reply_of};
ghost use Rattle.gp_hub.specs.declared.sockets.ChangeReply.{ChangeReply as ChangeAnswer};

use crate::fault::HubFault;
use crate::hub::Hub;
use crate::pass::HubPass;
use gp_plain::{EndCause, Event, HoldKind, Message, Name, Reply};

/// What a push, a join and a leave of a hold of one's own are answered.
#[derive(Clone, Copy, Drop, Debug, PartialEq)]
pub enum ChangeReply {
    /// It was carried out. A message for which there was no room has ended the socket `Overflow`.
    Done,
    /// The channel wasn't joined, since 8 others are. No other call is answered so.
    Full,
    /// The hold had ended for this cause.
    Gone(EndCause),
    /// The hold is of this kind, and not a socket.
    OtherKind(HoldKind),
}

/// What a change was answered.
fn changed(reply: Reply) -> ChangeReply
    requires { (answer : ChangeAnswer) × (reply ≡ reply_of answer) }
    ensures { reply ≡ reply_of result }
{
    match reply {
        Reply::Done => ChangeReply::Done,
        Reply::Full(_) => ChangeReply::Full,
        Reply::Gone(cause) => ChangeReply::Gone(cause),
        Reply::OtherKind(kind) => ChangeReply::OtherKind(kind),
        _ => unreachable!(),
    }
}

impl Hub {
    /// Sends a message to a socket of the pass. The message is within the limits.
    pub fn push(
        &self,
        pass: &mut HubPass,
        hold: u64,
        message: Message,
    ) -> Result<ChangeReply, HubFault>
        requires turn { pass.old.turn ≡ self.now }
        requires keeps { Keeps pass.old hold }
        requires fits { fits (Event.Push hold message) ≡ true }
        ensures same { IsSame pass.old pass.new }
        ensures looks { pass.new.looks ≡ pass.old.looks + 1 }
        ensures ok { IfOk result (λ answer. HasChanged pass.old pass.new hold (push message) answer) }
        ensures err { OnErr result (pass.new.seen ≡ pass.old.seen) }
        ensures cause { IfErr result (HasCause (Event.Push hold message) pass.new.found) }
    {
        match self.call(pass, Event::Push { hold, message }) {
            Ok(reply) => Ok(changed(reply)),
            Err(fault) => Err(fault),
        }
    }

    /// Joins a channel for a socket of the pass. It is answered `Full` where 8 others are joined.
    pub fn join_channel(
        &self,
        pass: &mut HubPass,
        hold: u64,
        channel: Name,
    ) -> Result<ChangeReply, HubFault>
        requires turn { pass.old.turn ≡ self.now }
        requires keeps { Keeps pass.old hold }
        ensures same { IsSame pass.old pass.new }
        ensures looks { pass.new.looks ≡ pass.old.looks + 1 }
        ensures ok { IfOk result (λ answer. HasChanged pass.old pass.new hold (join channel) answer) }
        ensures err { OnErr result (pass.new.seen ≡ pass.old.seen) }
        ensures cause { IfErr result (HasCause (Event.Join hold channel) pass.new.found) }
    {
        match self.call(pass, Event::Join { hold, channel }) {
            Ok(reply) => Ok(changed(reply)),
            Err(fault) => Err(fault),
        }
    }

    /// Leaves a channel for a socket of the pass. It takes no memory.
    pub fn leave_channel(
        &self,
        pass: &mut HubPass,
        hold: u64,
        channel: Name,
    ) -> Result<ChangeReply, HubFault>
        requires turn { pass.old.turn ≡ self.now }
        requires keeps { Keeps pass.old hold }
        ensures same { IsSame pass.old pass.new }
        ensures looks { pass.new.looks ≡ pass.old.looks + 1 }
        ensures ok { IfOk result (λ answer. HasChanged pass.old pass.new hold (leave channel) answer) }
        ensures err { OnErr result (pass.new.seen ≡ pass.old.seen) }
        ensures cause { IfErr result (HasCause (Event.Leave hold channel) pass.new.found) }
    {
        match self.call(pass, Event::Leave { hold, channel }) {
            Ok(reply) => Ok(changed(reply)),
            Err(fault) => Err(fault),
        }
    }
}
