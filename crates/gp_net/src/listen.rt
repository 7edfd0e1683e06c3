//! What clients connect to.
ghost use Rattle.std.specs.Prelude.{◌≡◌, IfOk};
ghost use Rattle.gp_outside.specs.Unused.{IsUnusedLink};
ghost use Rattle.gp_outside.specs.Listens.{IsUnusedListen};

use crate::link::NetLink;
use crate::ready::{Seat, Sockets};
use crate::socket::Socket;
use gp_outside::{Accepted, Listen};
use mio::Interest;
use mio::net::TcpListener;
use std::io;
use std::marker::Model;

/// How many connections are taken in a row, at most, before the sockets are looked at again.
const ROW: u32 = 16;

/// A listening socket.
#[derive(Drop)]
struct Door {
    listener: TcpListener,
    seat: Seat,
    sockets: Sockets,
    in_a_row: u32,
}

/// A listener over a socket. It has no place for a connection where all places of its sockets are taken; it then
/// answers that nobody is there, and the connection waits in the system.
#[derive(Drop)]
pub struct NetListen {
    door: Door,
    faults: u64,
    waits: u64,
}

impl Model for NetListen {
    ghost use Rattle.gp_outside.specs.Listens.{ListenTells};

    ghost Value = { ListenTells };

    ghost view = { λ l. record { faults = l.faults; waits = l.waits } };
}

/// Whether no later accept can go well, as the socket doesn't listen any more. Every other error is that of one
/// connection, or passes: as where the process has no descriptor left.
fn is_over(error: &io::Error) -> bool {
    error.kind() == io::ErrorKind::InvalidInput
}

impl Door {
    /// Takes one connection, if one is there.
    fn take(&mut self) -> Accepted<Socket> {
        if self.in_a_row >= ROW {
            self.in_a_row = 0;
            self.sockets.press();
            return Accepted::NotReady;
        }
        if !self.seat.take_read() {
            self.in_a_row = 0;
            return Accepted::NotReady;
        }
        let Some(seat) = self.sockets.seat() else {
            self.seat.may_read();
            return Accepted::NotReady;
        };
        let stream = match self.listener.accept() {
            Ok((stream, _)) => stream,
            Err(error) => return self.refused(&error),
        };
        self.seat.may_read();
        match Socket::of_client(stream, seat) {
            Ok(socket) => {
                self.in_a_row += 1;
                Accepted::Took(socket)
            }
            Err(_) => Accepted::NotReady,
        }
    }

    /// What an accept that gave an error answers.
    fn refused(&mut self, error: &io::Error) -> Accepted<Socket> {
        self.in_a_row = 0;
        if error.kind() == io::ErrorKind::WouldBlock {
            return Accepted::NotReady;
        }
        self.seat.may_read();
        if is_over(error) {
            Accepted::Failed
        } else {
            Accepted::NotReady
        }
    }
}

impl NetListen {
    /// A listener over a socket that doesn't block.
    pub fn new(mut listener: TcpListener, sockets: Sockets) -> io::Result<NetListen>
        ensures { IfOk result (λ l. IsUnusedListen l) }
    {
        let seat = match sockets.seat() {
            Some(seat) => seat,
            None => return Err(io::Error::from(io::ErrorKind::OutOfMemory)),
        };
        seat.watch(&mut listener, Interest::READABLE, true, false)?;
        let door = Door {
            listener,
            seat,
            sockets,
            in_a_row: 0,
        };
        Ok(NetListen {
            door,
            faults: 0,
            waits: 0,
        })
    }
}

impl Listen for NetListen {
    type Link = NetLink;

    ghost tells = { λ l. l };

    fn accept(&mut self) -> Accepted<NetLink> {
        match self.door.take() {
            Accepted::Took(socket) => Accepted::Took(NetLink::new(socket)),
            Accepted::NotReady => {
                self.waits = self.waits.saturating_add(1);
                Accepted::NotReady
            }
            Accepted::Failed => {
                self.faults = self.faults.saturating_add(1);
                Accepted::Failed
            }
        }
    }
}
