ghost use Rattle.std.specs.Prelude.{◌≡◌, [], ◌∷◌, ◌++◌, All, OnErr, OnOk, drop, option_map, refl, slice_get};
ghost use Rattle.gp_outside.specs.Kits.{TakesBack, TellsTheSame};
ghost use Rattle.gp_outside.specs.Listens.{IsUnusedListen};
ghost use Rattle.gp_outside.specs.MemDials.{DialState, told_dial};
ghost use Rattle.gp_outside.specs.MemListens.{told_listen};
ghost use Rattle.gp_outside.specs.MemKits.{first_clock, first_dial, parts_of};
ghost use Rattle.gp_outside.specs.Unused.{IsUnusedDial};

use crate::gate::{FreeIdle, PairGate};
use crate::kit::{Handed, Kit};
use crate::mem_clock::{MemClock, Times};
use crate::mem_dial::MemDial;
use crate::mem_link::MemLink;
use crate::mem_listen::MemListen;
use gp_plain::{List, Queue};
use std::alloc::{AllocError, Global};
use std::marker::Model;

/// Dialers in memory, in the order in which a kit gives them.
pub type Dials = Queue<MemDial>;

/// Clocks in memory, in the order in which a kit gives them.
pub type Clocks = Queue<MemClock>;

/// The devices in memory of a session that ended.
pub type Ended = Handed<MemLink, MemDial, MemClock>;

/// A kit in memory. It gives its dialers and clocks in turn, and then ones of empty lists with no room, and keeps what
/// is handed back to it.
#[derive(Drop)]
pub struct MemKit {
    alloc: Global,
    clients: MemListen,
    publishers: MemListen,
    idle: FreeIdle,
    gate: PairGate,
    dials: Dials,
    clocks: Clocks,
    handed: List<Ended>,
}

impl Model for MemKit {
    ghost use Rattle.std.specs.Prelude.{All};
    ghost use Rattle.gp_outside.specs.MemDials.{DialState, told_dial};
    ghost use Rattle.gp_outside.specs.MemKits.{KitState};
    ghost use Rattle.gp_outside.specs.Unused.{IsUnusedDial};

    ghost Value = { KitState };

    ghost view = { λ k. record { clients = k.clients; publishers = k.publishers; idle = k.idle; gate = k.gate; dials = k.dials; clocks = k.clocks; handed = k.handed } };

    ghost invariant = { λ k. All (λ (dial : DialState). IsUnusedDial (told_dial dial)) k.dials };
}

impl MemKit {
    /// A kit of these devices, which are unused. It takes no memory.
    pub fn new(
        alloc: Global,
        clients: MemListen,
        publishers: MemListen,
        dials: Dials,
        clocks: Clocks,
        gate: PairGate,
    ) -> MemKit
        requires clients { IsUnusedListen (told_listen clients) }
        requires publishers { IsUnusedListen (told_listen publishers) }
        requires dials { All (λ (dial : DialState). IsUnusedDial (told_dial dial)) dials }
        ensures { result ≡ record { clients = clients; publishers = publishers; idle = record {}; gate = gate; dials = dials; clocks = clocks; handed = [] } }
    {
        MemKit {
            alloc,
            clients,
            publishers,
            idle: FreeIdle,
            gate,
            dials,
            clocks,
            handed: List::new(alloc),
        }
    }

    /// The devices that were handed back at a place, counted from 0.
    pub fn ended(&self, place: usize) -> Option<&Ended>
        ensures { option_map (λ x. x.now) result ≡ slice_get self.now.handed place }
    {
        self.handed.at(place)
    }
}

impl Kit for MemKit {
    type Listen = MemListen;

    type Dial = MemDial;

    type Clock = MemClock;

    type Idle = FreeIdle;

    type Gate = PairGate;

    ghost parts = { parts_of };

    ghost with_clients = { λ k l. record k { clients = l } };

    ghost with_publishers = { λ k l. record k { publishers = l } };

    ghost with_idle = { λ k i. record k { idle = i } };

    fn clients(&mut self) -> &mut MemListen {
        &mut self.clients
    }

    fn publishers(&mut self) -> &mut MemListen {
        &mut self.publishers
    }

    fn idle(&mut self) -> &mut FreeIdle {
        &mut self.idle
    }

    fn gate(&self) -> &PairGate {
        &self.gate
    }

    fn dial(&mut self) -> MemDial
        ensures unused { IsUnusedDial (told_dial result) }
        ensures same { TellsTheSame (parts_of self.old) (parts_of self.new) }
        ensures next { result ≡ first_dial self.old.dials }
        ensures after { self.new ≡ record self.old { dials = drop 1 self.old.dials } }
    {
        let Some(dial) = self.dials.take_first() else {
            return MemDial::without_answers(self.alloc);
        };
        dial
    }

    fn clock(&mut self) -> MemClock
        ensures same { TellsTheSame (parts_of self.old) (parts_of self.new) }
        ensures next { result ≡ first_clock self.old.clocks }
        ensures after { self.new ≡ record self.old { clocks = drop 1 self.old.clocks } }
    {
        match self.clocks.take_first() {
            Some(clock) => clock,
            None => MemClock::new(Times::new(self.alloc)),
        }
    }

    fn over(&mut self, link: MemLink, others: Option<(MemDial, MemClock)>) -> Result<(), AllocError>
        ensures ok { OnOk result (TakesBack (parts_of self.old) (parts_of self.new) link others) }
        ensures err { OnErr result (TellsTheSame (parts_of self.old) (parts_of self.new)) }
        ensures taken { OnOk result (self.new ≡ record self.old { handed = self.old.handed ++ record { link = link; others = others } ∷ [] }) }
        ensures left { OnErr result (self.new ≡ self.old) }
    {
        match self.handed.push(Handed { link, others }) {
            Ok(()) => Ok(()),
            Err((_, refused)) => Err(refused),
        }
    }

    ghost clients_back = { λ k l. refl };

    ghost publishers_back = { λ k l. refl };

    ghost idle_back = { λ k i. refl };
}
