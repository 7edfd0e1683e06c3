//! The devices of one worker.
ghost use Rattle.std.specs.Prelude.{◌≡◌, None, OnErr, OnOk, refl};
ghost use Rattle.gp_outside.specs.Kits.{TakesBack, TellsTheSame};

use crate::bells::Bells;
use crate::clock::NetClock;
use crate::dial::NetDial;
use crate::idle::NetIdle;
use crate::link::NetLink;
use crate::listen::NetListen;
use crate::names::Names;
use gp_outside::{FreeGate, Kit};
use std::alloc::{AllocError, Global};
use std::marker::Model;
use std::net::Net;
use std::time;

/// The devices of one worker over sockets. It doesn't tell what was handed back to it: it lets that go. The end of a
/// session without a dialer, which is a publisher's, ends the rest of every worker.
#[derive(Drop)]
pub struct NetKit<R: Net + time::Clock + Copy + Drop> {
    alloc: Global,
    system: R,
    clients: NetListen,
    publishers: NetListen,
    idle: NetIdle,
    gate: FreeGate,
    bells: Bells,
    names: Names,
}

impl<R: Net + time::Clock + Copy + Drop> Model for NetKit<R> {
    ghost use Rattle.std.specs.Prelude.{None};
    ghost use Rattle.gp_outside.specs.Clocks.{ClockTells};
    ghost use Rattle.gp_outside.specs.Dials.{DialTells};
    ghost use Rattle.gp_outside.specs.Kits.{KitParts};
    ghost use Rattle.gp_outside.specs.Links.{LinkTells};
    ghost use Rattle.gp_outside.specs.Listens.{ListenTells};
    ghost use Rattle.gp_outside.specs.declared.gate.FreeGate.{FreeGate};
    ghost use Rattle.gp_net.specs.declared.idle.NetIdle.{NetIdle};

    ghost Value = { KitParts ListenTells NetIdle FreeGate LinkTells DialTells ClockTells };

    ghost view = { λ k. record { clients = k.clients; publishers = k.publishers; idle = k.idle; gate = k.gate; handed = None } };
}

impl<R: Net + time::Clock + Copy + Drop> NetKit<R> {
    /// A kit of these devices.
    pub(crate) fn new(
        alloc: Global,
        system: R,
        clients: NetListen,
        publishers: NetListen,
        idle: NetIdle,
        bells: Bells,
        names: Names,
    ) -> NetKit<R>
        ensures { result ≡ record { clients = clients; publishers = publishers; idle = idle; gate = record {}; handed = None } }
    {
        NetKit {
            alloc,
            system,
            clients,
            publishers,
            idle,
            gate: FreeGate,
            bells,
            names,
        }
    }
}

impl<R: Net + time::Clock + Copy + Drop + Send> Kit for NetKit<R> {
    type Listen = NetListen;

    type Dial = NetDial<R>;

    type Clock = NetClock<R>;

    type Idle = NetIdle;

    type Gate = FreeGate;

    ghost parts = { λ k. k };

    ghost with_clients = { λ k l. record k { clients = l } };

    ghost with_publishers = { λ k l. record k { publishers = l } };

    ghost with_idle = { λ k i. record k { idle = i } };

    fn clients(&mut self) -> &mut NetListen {
        &mut self.clients
    }

    fn publishers(&mut self) -> &mut NetListen {
        &mut self.publishers
    }

    fn idle(&mut self) -> &mut NetIdle {
        &mut self.idle
    }

    fn gate(&self) -> &FreeGate {
        &self.gate
    }

    fn dial(&mut self) -> NetDial<R> {
        let (names, sockets) = (self.names.copy().ok(), self.idle.sockets().ok());
        NetDial::new(self.alloc, self.system, names, sockets)
    }

    fn clock(&mut self) -> NetClock<R> {
        NetClock::new(self.system)
    }

    fn over(
        &mut self,
        link: NetLink,
        others: Option<(NetDial<R>, NetClock<R>)>,
    ) -> Result<(), AllocError>
        ensures ok { OnOk result (TakesBack self.old self.new link others) }
        ensures err { OnErr result (TellsTheSame self.old self.new) }
    {
        drop(link);
        if others.is_none() {
            self.bells.ring();
        }
        Ok(())
    }

    ghost clients_back = { λ k l. refl };

    ghost publishers_back = { λ k l. refl };

    ghost idle_back = { λ k i. refl };
}
