//! A client's connection.
ghost use Rattle.std.specs.Prelude.{◌≡◌, None};
ghost use Rattle.gp_outside.specs.Unused.{IsUnusedLink};

use crate::socket::Socket;
use gp_outside::{Got, Link, Put};
use std::marker::Model;

/// A client's connection over a socket. It tells no bytes.
#[derive(Drop)]
pub struct NetLink {
    socket: Socket,
    faults: u64,
    read_waits: u64,
    write_waits: u64,
    ends: u64,
}

impl Model for NetLink {
    ghost use Rattle.std.specs.Prelude.{None};
    ghost use Rattle.gp_outside.specs.Links.{LinkTells};

    ghost Value = { LinkTells };

    ghost view = { λ l. record { received = None; sent = None; faults = l.faults; read_waits = l.read_waits; write_waits = l.write_waits; ends = l.ends } };
}

impl NetLink {
    /// A link over a socket.
    pub(crate) fn new(socket: Socket) -> NetLink
        ensures { IsUnusedLink result }
    {
        NetLink {
            socket,
            faults: 0,
            read_waits: 0,
            write_waits: 0,
            ends: 0,
        }
    }
}

impl Link for NetLink {
    ghost tells = { λ l. l };

    fn read(&mut self, into: &mut [u8]) -> Got {
        let got = self.socket.read(into);
        match got {
            Got::Took(_) => {}
            Got::End => self.ends = self.ends.saturating_add(1),
            Got::NotReady => self.read_waits = self.read_waits.saturating_add(1),
            Got::Failed => self.faults = self.faults.saturating_add(1),
        }
        got
    }

    fn write(&mut self, from: &[u8]) -> Put {
        let put = self.socket.write(from);
        match put {
            Put::Took(_) => {}
            Put::NotReady => self.write_waits = self.write_waits.saturating_add(1),
            Put::Failed => self.faults = self.faults.saturating_add(1),
        }
        put
    }
}
