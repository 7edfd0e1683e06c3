ghost use Rattle.std.specs.Prelude.{◌≡◌, OnOk, OnErr};
ghost use Rattle.std.specs.Borrow.{Lends, sem};
ghost use Rattle.gp_outside.specs.Kits.{TakesBack, TellsTheSame};
ghost use Rattle.gp_outside.specs.Unused.{IsUnusedDial};

use crate::clock::Clock;
use crate::dial::Dial;
use crate::listen::Listen;
use std::alloc::AllocError;

/// Where a worker rests when nothing is to be done. It may wait, and promises nothing.
pub trait Idle {
    /// Waits until something may be to be done.
    fn rest(&mut self);
}

/// What a worker passes before and after each poll of a session. It may wait, and promises nothing.
pub trait Gate {
    /// Comes before each poll of the session that has this claim.
    fn before(&self, claim: u32);

    /// Comes after the poll that ended that session.
    fn after(&self, claim: u32);
}

/// The devices of a session that ended: its link, and a dialer and a clock where it had them.
#[derive(Drop)]
pub struct Handed<L, D, C> {
    /// The connection of its client.
    pub link: L,
    /// What it called origins with, and its clock.
    pub others: Option<(D, C)>,
}

/// The devices of one worker. It lends its listeners, its idle and its gate, one at a time; what was lent is
/// afterwards as its borrower left it. It gives a dialer and a clock to each session that asks, and takes the devices
/// of ended sessions back.
pub trait Kit: Drop {
    type Listen: Listen + Send;

    type Dial: Dial + Send;

    type Clock: Clock + Send;

    type Idle: Idle + Send;

    type Gate: Gate + Send;

    ghost use Rattle.gp_outside.specs.Kits.{KitParts};

    ghost parts: { Self → KitParts Self.Listen Self.Idle Self.Gate Self.Listen.Link Self.Dial Self.Clock };

    ghost with_clients: { Self → Self.Listen → Self };

    ghost with_publishers: { Self → Self.Listen → Self };

    ghost with_idle: { Self → Self.Idle → Self };

    /// Lends the listener of clients.
    fn clients(&mut self) -> &mut Self::Listen
        ensures* lent { sem 𝓛 (Lends Self.row Self.Listen.row self.entry result (with_clients self.old)) }
        ensures value { result.now ≡ (parts self.old).clients };

    /// Lends the listener of publishers.
    fn publishers(&mut self) -> &mut Self::Listen
        ensures* lent { sem 𝓛 (Lends Self.row Self.Listen.row self.entry result (with_publishers self.old)) }
        ensures value { result.now ≡ (parts self.old).publishers };

    /// Lends the idle.
    fn idle(&mut self) -> &mut Self::Idle
        ensures* lent { sem 𝓛 (Lends Self.row Self.Idle.row self.entry result (with_idle self.old)) }
        ensures value { result.now ≡ (parts self.old).idle };

    /// Lends the gate.
    fn gate(&self) -> &Self::Gate
        ensures { result.now ≡ (parts self.now).gate };

    /// Gives a dialer that had no talk yet.
    fn dial(&mut self) -> Self::Dial
        ensures unused { IsUnusedDial (Self.Dial.tells result) }
        ensures same { TellsTheSame (parts self.old) (parts self.new) };

    /// Gives a clock.
    fn clock(&mut self) -> Self::Clock
        ensures { TellsTheSame (parts self.old) (parts self.new) };

    /// Takes the devices of an ended session back. Where memory is wanting it takes nothing up.
    fn over(
        &mut self,
        link: <Self::Listen as Listen>::Link,
        others: Option<(Self::Dial, Self::Clock)>,
    ) -> Result<(), AllocError>
        ensures ok { OnOk result (TakesBack (parts self.old) (parts self.new) link others) }
        ensures err { OnErr result (TellsTheSame (parts self.old) (parts self.new)) };

    ghost clients_back: { (kit : Self) (listen : Self.Listen) → parts (with_clients kit listen) ≡ record (parts kit) { clients = listen } };

    ghost publishers_back: { (kit : Self) (listen : Self.Listen) → parts (with_publishers kit listen) ≡ record (parts kit) { publishers = listen } };

    ghost idle_back: { (kit : Self) (idle : Self.Idle) → parts (with_idle kit idle) ≡ record (parts kit) { idle = idle } };
}
