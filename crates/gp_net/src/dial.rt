//! What calls origins.
ghost use Rattle.std.specs.Prelude.{◌≡◌};
ghost use Rattle.gp_outside.specs.Unused.{IsUnusedDial};

use crate::line::Line;
use crate::names::Names;
use crate::ready::Sockets;
use gp_outside::{Connected, Dial, Got, Put};
use gp_plain::Address;
use std::alloc::Global;
use std::marker::Model;
use std::net::Net;
use std::time;

/// A dialer over sockets. It tells no talks.
///
/// The first `connect` of a talk asks the system for the addresses of the host, unless they were told in the last minute. It waits where
/// the host is a name that the system has to ask others for. Nothing else waits. The addresses are tried in turn.
#[derive(Drop)]
pub struct NetDial<R: Net + time::Clock + Drop> {
    line: Line<R>,
    faults: u64,
    connect_waits: u64,
    read_waits: u64,
    write_waits: u64,
    ends: u64,
}

impl<R: Net + time::Clock + Drop> Model for NetDial<R> {
    ghost use Rattle.std.specs.Prelude.{None};
    ghost use Rattle.gp_outside.specs.Dials.{DialTells};

    ghost Value = { DialTells };

    ghost view = { λ d. record { talks = None; faults = d.faults; connect_waits = d.connect_waits; read_waits = d.read_waits; write_waits = d.write_waits; ends = d.ends } };
}

impl<R: Net + time::Clock + Drop> NetDial<R> {
    /// A dialer in no talk. Without sockets each connect fails, and without names each host is looked up anew.
    pub(crate) fn new(
        alloc: Global,
        system: R,
        names: Option<Names>,
        sockets: Option<Sockets>,
    ) -> NetDial<R>
        ensures { IsUnusedDial result }
    {
        NetDial {
            line: Line::new(alloc, system, names, sockets),
            faults: 0,
            connect_waits: 0,
            read_waits: 0,
            write_waits: 0,
            ends: 0,
        }
    }
}

impl<R: Net + time::Clock + Drop> Dial for NetDial<R> {
    ghost tells = { λ d. d };

    fn connect(&mut self, to: &Address) -> Connected {
        let connected = self.line.connect(to);
        match connected {
            Connected::Done => {}
            Connected::NotReady => self.connect_waits = self.connect_waits.saturating_add(1),
            Connected::Failed => self.faults = self.faults.saturating_add(1),
        }
        connected
    }

    fn read(&mut self, into: &mut [u8]) -> Got {
        let got = self.line.read(into);
        match got {
            Got::Took(_) => {}
            Got::End => self.ends = self.ends.saturating_add(1),
            Got::NotReady => self.read_waits = self.read_waits.saturating_add(1),
            Got::Failed => self.faults = self.faults.saturating_add(1),
        }
        got
    }

    fn write(&mut self, from: &[u8]) -> Put {
        let put = self.line.write(from);
        match put {
            Put::Took(_) => {}
            Put::NotReady => self.write_waits = self.write_waits.saturating_add(1),
            Put::Failed => self.faults = self.faults.saturating_add(1),
        }
        put
    }

    fn hang_up(&mut self) {
        self.line.hang_up();
    }
}
