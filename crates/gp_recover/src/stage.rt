//! What a recovery waits for.
ghost use Rattle.std.specs.Prelude.{◌≡◌};
ghost use Rattle.gp_recover.specs.Views.{told};
ghost use Rattle.gp_recover.specs.Moves.{IsEnd, IsRefusal, Polls};
ghost use Rattle.gp_outside.specs.Dials.{after_hang_up};
ghost use Rattle.gp_recover.specs.declared.recovered.Last.TheVariants as last;

use crate::heading::Heading;
use crate::page::PageFault;
use crate::reader::Unread;
use crate::reading::Reading;
use crate::recovered::{Last, Recovered};
use crate::unbegun::Unbegun;
use gp_exchange::{Exchange, Progress};
use gp_outside::Dial;
use gp_plain::{Address, Body, ItemId, Name};
use std::marker::Model;
use std::snapshot::Snapshot;

/// What a recovery asks for, and of whom, for contracts alone.
#[derive(Drop)]
pub(crate) struct Sought {
    pub(crate) to: Snapshot<Address>,
    pub(crate) request: Snapshot<Body>,
    pub(crate) channel: Snapshot<Name>,
    pub(crate) from: Snapshot<ItemId>,
}

impl Model for Sought {
    ghost use Rattle.gp_recover.specs.Views.{SoughtView};

    ghost Value = { SoughtView };

    ghost view = { λ s. record { to = s.to.value; request = s.request.value; channel = s.channel.value; from = s.from.value } };
}

/// What a recovery waits for.
///
/// ```text
/// Unbegun -> Heading -> Reading
///    |  \_______\__________\___> Over
///    \_________________________> Lost
/// ```
#[derive(Drop)]
pub(crate) enum Stage {
    /// The first poll.
    Unbegun(Unbegun),
    /// The head of the answer.
    Heading(Heading),
    /// The rest of its content.
    Reading(Reading),
    /// Nothing: the talk is over.
    Over(Over),
    /// Nothing: memory was wanting before the talk began.
    Lost,
}

/// How the talk of a recovery ended.
#[derive(Drop)]
pub(crate) struct Over {
    pub(crate) last: Last,
    /// The exchange as it was then, for contracts alone.
    pub(crate) exchange: Snapshot<Exchange>,
}

/// Where a move leads, and what is answered there.
#[derive(Drop)]
pub(crate) struct Next {
    pub(crate) stage: Stage,
    pub(crate) recovered: Recovered,
}

/// Goes on with an exchange.
pub(crate) fn poll<D: Dial>(exchange: &mut Exchange, dial: &mut D) -> Progress
    ensures { Polls exchange.old exchange.new (D.tells dial.old) (D.tells dial.new) result }
{
    exchange.poll(dial)
}

/// The end of a recovery, whose talk is hung up.
pub(crate) fn end(exchange: &Exchange, last: Last, recovered: Recovered) -> Next
    requires { recovered ≡ told last }
    ensures { IsEnd exchange.now last result }
{
    let over = Over {
        last,
        exchange: Snapshot::of(exchange),
    };
    Next {
        stage: Stage::Over(over),
        recovered,
    }
}

/// The end by a fault.
pub(crate) fn fail(exchange: &Exchange, fault: PageFault) -> Next
    ensures { IsEnd exchange.now (last.Failed fault) result }
{
    end(exchange, Last::Failed(fault), Recovered::Failed(fault))
}

/// The end for want of memory.
pub(crate) fn lose(exchange: &Exchange) -> Next
    ensures { IsEnd exchange.now last.NoMemory result }
{
    end(exchange, Last::NoMemory, Recovered::NoMemory)
}

/// Hangs up, since nothing more of the answer is read.
pub(crate) fn refuse<D: Dial>(exchange: &Exchange, unread: Unread, dial: &mut D) -> Next
    ensures refusal { IsRefusal exchange.now unread result }
    ensures dial { D.tells dial.new ≡ after_hang_up (D.tells dial.old) }
{
    dial.hang_up();
    match unread {
        Unread::Refused(fault) => fail(exchange, fault),
        Unread::NoMemory => lose(exchange),
    }
}
