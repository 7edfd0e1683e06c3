//! A connection that is read and written only while it is known to be ready.
ghost use Rattle.std.specs.Prelude.{◌<◌, length};
ghost use Rattle.gp_net.specs.Moved.{IsGotOf, IsPutOf};

use crate::ready::{Seat, Sockets};
use gp_outside::{Connected, Got, Put};
use mio::Interest;
use mio::net::TcpStream;
use std::io::{self, ErrorKind, Read, Write};
use std::net::{Net, SocketAddr};

/// A connection with its place. The descriptor is closed before the place is free again.
#[derive(Drop)]
pub(crate) struct Socket {
    stream: TcpStream,
    seat: Seat,
}

/// Whether a call that gave this error is to be tried again later.
fn is_not_ready(error: &io::Error) -> bool {
    error.kind() == ErrorKind::WouldBlock || error.kind() == ErrorKind::Interrupted
}

impl Socket {
    /// A connection of a client, which may have sent something already.
    pub(crate) fn of_client(stream: TcpStream, seat: Seat) -> io::Result<Socket> {
        Socket::watched(stream, seat, true)
    }

    /// Begins to connect, and doesn't wait.
    pub(crate) fn to_origin<R: Net>(net: &R, to: SocketAddr, sockets: &Sockets) -> Option<Socket> {
        let seat = sockets.seat()?;
        let stream = TcpStream::connect(net, to).ok()?;
        Socket::watched(stream, seat, false).ok()
    }

    fn watched(mut stream: TcpStream, seat: Seat, can_read: bool) -> io::Result<Socket> {
        seat.watch(
            &mut stream,
            Interest::READABLE | Interest::WRITABLE,
            can_read,
            true,
        )?;
        let _ = stream.set_nodelay(true);
        Ok(Socket { stream, seat })
    }

    /// Whether a connection that was begun stands.
    pub(crate) fn connected(&self) -> Connected {
        if !self.seat.take_write() {
            return Connected::NotReady;
        }
        match self.stream.take_error() {
            Ok(None) => {}
            Ok(Some(_)) | Err(_) => return Connected::Failed,
        }
        match self.stream.peer_addr() {
            Ok(_) => {
                self.seat.may_write();
                Connected::Done
            }
            Err(_) => Connected::NotReady,
        }
    }

    /// Reads into the front of a slice.
    pub(crate) fn read(&mut self, into: &mut [u8]) -> Got
        requires { 0 < length into.old }
        ensures { IsGotOf into.new result }
    {
        if !self.seat.take_read() {
            return Got::NotReady;
        }
        match self.stream.read(into) {
            Ok(count) if count > 0 => {
                self.seat.may_read();
                Got::Took(count)
            }
            Ok(_) => {
                self.seat.may_read();
                Got::End
            }
            Err(error) if is_not_ready(&error) => Got::NotReady,
            Err(_) => {
                self.seat.may_read();
                Got::Failed
            }
        }
    }

    /// Writes the first of some bytes.
    pub(crate) fn write(&mut self, from: &[u8]) -> Put
        requires { 0 < length from.now }
        ensures { IsPutOf from.now result }
    {
        if !self.seat.take_write() {
            return Put::NotReady;
        }
        match self.stream.write(from) {
            Ok(count) if count > 0 => {
                self.seat.may_write();
                Put::Took(count)
            }
            Err(error) if is_not_ready(&error) => Put::NotReady,
            Ok(_) | Err(_) => {
                self.seat.may_write();
                Put::Failed
            }
        }
    }
}
