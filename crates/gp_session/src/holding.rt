//! The holds of a session, by its end of the hub. Each call makes one attempt to take the turn.
ghost use Rattle.std.specs.Prelude.{◌≡◌, true, IfErr};
ghost use Rattle.gp_plain.specs.Fit.{fits};
ghost use Rattle.gp_plain.specs.declared.event.Event.TheVariants.{Attach};
ghost use Rattle.gp_plain.specs.declared.event.HoldSpec.{HoldSpec as Spec};
ghost use Rattle.gp_hub.specs.Own.{Keeps};
ghost use Rattle.gp_session.specs.Seats.{MovedSeat, SeatRow};
ghost use Rattle.gp_session.specs.Holding.{AttachedTo, HandsBackEvent, LetsGo, SaysGone, SaysKept, TookFrom, WantsNone, attached_by, took_by, unattached_by, untaken_by};

use crate::seat::Seat;
use gp_hub::HubFault;
use gp_plain::{Event, HoldSpec, Taken};

/// What an Attach came to.
#[derive(Drop)]
pub enum Attached {
    /// A hold of this number was made.
    Hold(u64),
    /// No hold was made, since 4,096 are kept.
    Full,
    /// Another call holds the turn, and the specification is handed back.
    Busy(HoldSpec),
    /// The hub has served as many events as it can.
    Worn,
    /// Memory is wanting.
    NoMemory,
}

/// What a Take came to.
#[derive(Drop)]
pub enum Took {
    /// It gave this.
    Gave(Taken),
    /// Another call holds the turn.
    Busy,
    /// The hub has served as many events as it can.
    Worn,
    /// Memory is wanting.
    NoMemory,
}

/// What a Detach came to. It takes no memory.
#[derive(Clone, Copy, Drop, Debug, PartialEq)]
pub enum LetGo {
    /// The hold was let go.
    Gone,
    /// Another call holds the turn.
    Busy,
    /// The hub has served as many events as it can.
    Worn,
}

/// The specification of an Attach.
fn spec_of(event: Event) -> HoldSpec
    requires { (spec : Spec) × (event ≡ Attach spec) }
    ensures { event ≡ Attach result }
{
    match event {
        Event::Attach { spec } => spec,
        _ => unreachable!(),
    }
}

/// What a fault says of an Attach.
fn attach_fault(fault: HubFault) -> Attached
    requires { (spec : Spec) × HandsBackEvent (Attach spec) fault }
    ensures { (spec : Spec) → HandsBackEvent (Attach spec) fault → result ≡ unattached_by spec fault }
{
    match fault {
        HubFault::Busy(event, _) => Attached::Busy(spec_of(event)),
        HubFault::Worn(_) => Attached::Worn,
        HubFault::NoMemory(_) => Attached::NoMemory,
    }
}

/// What the hub's answer to an Attach says.
fn attach_answer(answer: Result<Option<u64>, HubFault>) -> Attached
    requires { (spec : Spec) × IfErr answer (HandsBackEvent (Attach spec)) }
    ensures { (spec : Spec) → IfErr answer (HandsBackEvent (Attach spec)) → result ≡ attached_by spec answer }
{
    match answer {
        Ok(Some(number)) => Attached::Hold(number),
        Ok(None) => Attached::Full,
        Err(fault) => attach_fault(fault),
    }
}

/// What a fault says of a Take.
fn take_fault(fault: HubFault) -> Took
    ensures { result ≡ untaken_by fault }
{
    match fault {
        HubFault::Busy(_, _) => Took::Busy,
        HubFault::Worn(_) => Took::Worn,
        HubFault::NoMemory(_) => Took::NoMemory,
    }
}

/// What the hub's answer to a Take says.
fn take_answer(answer: Result<Taken, HubFault>) -> Took
    ensures { result ≡ took_by answer }
{
    match answer {
        Ok(taken) => Took::Gave(taken),
        Err(fault) => take_fault(fault),
    }
}

/// What a fault says of a Detach.
fn detach_fault(fault: HubFault) -> LetGo
    requires { WantsNone fault }
    ensures { SaysKept fault result }
{
    match fault {
        HubFault::Busy(_, _) => LetGo::Busy,
        HubFault::Worn(_) => LetGo::Worn,
        HubFault::NoMemory(_) => unreachable!(),
    }
}

/// What the hub's answer to a Detach says.
fn detach_answer(answer: Result<(), HubFault>) -> LetGo
    requires { IfErr answer WantsNone }
    ensures { SaysGone answer result }
{
    match answer {
        Ok(()) => LetGo::Gone,
        Err(fault) => detach_fault(fault),
    }
}

impl<'h> Seat<'h> {
    /// Makes a hold of the session's. The specification is within the limits of the hub.
    pub fn attach(&mut self, spec: HoldSpec) -> Attached
        requires { fits (Attach spec) ≡ true }
        ensures moved { MovedSeat self.old self.new }
        ensures row { SeatRow self.old → SeatRow self.new }
        ensures attached { AttachedTo self.old self.new spec result }
    {
        attach_answer(self.hub.attach(&mut self.pass, spec))
    }

    /// Takes what waits for a hold of the session's, which it keeps. `now` is a moment in seconds.
    pub fn take(&mut self, hold: u64, now: u64) -> Took
        requires { Keeps self.old.pass hold }
        ensures moved { MovedSeat self.old self.new }
        ensures row { SeatRow self.old → SeatRow self.new }
        ensures took { TookFrom self.old self.new hold now result }
    {
        take_answer(self.hub.take(&mut self.pass, hold, now))
    }

    /// Lets a hold of the session's go, which it keeps. It takes no memory.
    pub fn detach(&mut self, hold: u64) -> LetGo
        requires { Keeps self.old.pass hold }
        ensures moved { MovedSeat self.old self.new }
        ensures row { SeatRow self.old → SeatRow self.new }
        ensures gone { LetsGo self.old self.new hold result }
    {
        detach_answer(self.hub.detach(&mut self.pass, hold))
    }
}
