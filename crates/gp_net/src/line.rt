//! One talk after another with origins.
ghost use Rattle.std.specs.Prelude.{◌<◌, length};
ghost use Rattle.gp_net.specs.Moved.{IsGotOf, IsPutOf};

use crate::names::Names;
use crate::ready::Sockets;
use crate::socket::Socket;
use gp_outside::{Connected, Got, Put};
use gp_plain::Address;
use std::alloc::Global;
use std::mem;
use std::net::{IpAddr, Ipv4Addr, Net, SocketAddr};
use std::time::{self, Instant};

/// The addresses of one host that are tried, at most.
const ADDRESSES: usize = 8;

/// Where a talk is.
#[derive(Drop)]
enum Talk {
    /// There is none.
    Over,
    /// It is connecting. The other addresses of the host are left, the next one last.
    Dialing(Socket, Vec<SocketAddr>),
    /// It stands.
    Open(Socket),
}

/// A line to origins.
#[derive(Drop)]
pub(crate) struct Line<R: Net + time::Clock + Drop> {
    alloc: Global,
    system: R,
    names: Option<Names>,
    sockets: Option<Sockets>,
    talk: Talk,
}

impl<R: Net + time::Clock + Drop> Line<R> {
    /// A line in no talk. Without names each host is looked up anew.
    pub(crate) fn new(
        alloc: Global,
        system: R,
        names: Option<Names>,
        sockets: Option<Sockets>,
    ) -> Line<R> {
        Line {
            alloc,
            system,
            names,
            sockets,
            talk: Talk::Over,
        }
    }

    /// The addresses of a host by the system's resolver, which may wait where the host is a name.
    fn look_up(&self, host: &str) -> Option<Vec<IpAddr>> {
        let mut found = [SocketAddr::from((Ipv4Addr::LOCALHOST, 0)); ADDRESSES];
        let count = self.system.lookup_host(host, 0, &mut found).ok()?;
        let mut addresses = Vec::new(self.alloc);
        for address in found[..count].iter() {
            addresses.push(address.ip()).ok()?;
        }
        Some(addresses)
    }

    /// The addresses of a host: those that are known of it, or those that the resolver tells.
    fn hosts(&self, host: &str) -> Option<Vec<IpAddr>> {
        let (Some(names), Ok(now)) = (&self.names, Instant::now(&self.system)) else {
            return self.look_up(host);
        };
        if let Some(addresses) = names.find(self.alloc, host.as_bytes(), now) {
            return Some(addresses);
        }
        let addresses = self.look_up(host)?;
        names.keep(self.alloc, host.as_bytes(), addresses.as_slice(), now);
        Some(addresses)
    }

    /// The sockets' addresses of an origin, the first one last.
    fn addresses(&self, to: &Address) -> Option<Vec<SocketAddr>> {
        let hosts = self.hosts(str::from_utf8(to.host.bytes()).ok()?)?;
        let mut addresses = Vec::new(self.alloc);
        for host in hosts.iter().rev() {
            addresses.push(SocketAddr::from((*host, to.port))).ok()?;
        }
        Some(addresses)
    }

    /// Begins to connect to an address.
    fn socket_to(&self, address: SocketAddr) -> Option<Socket> {
        Socket::to_origin(&self.system, address, self.sockets.as_ref()?)
    }

    /// Waits for a socket, or goes on with the next address that can be tried.
    fn reach(&mut self, first: Option<Socket>, mut addresses: Vec<SocketAddr>) -> Connected {
        let mut tried = first;
        for _ in 0..=ADDRESSES {
            if let Some(socket) = tried {
                match socket.connected() {
                    Connected::Done => {
                        self.talk = Talk::Open(socket);
                        return Connected::Done;
                    }
                    Connected::NotReady => {
                        self.talk = Talk::Dialing(socket, addresses);
                        return Connected::NotReady;
                    }
                    Connected::Failed => {}
                }
            }
            let Some(address) = addresses.pop() else {
                return Connected::Failed;
            };
            tried = self.socket_to(address);
        }
        Connected::Failed
    }

    /// Begins the next talk, or goes on with the present one. A failed connect ends it.
    pub(crate) fn connect(&mut self, to: &Address) -> Connected {
        match mem::replace(&mut self.talk, Talk::Over) {
            Talk::Over => match self.addresses(to) {
                Some(addresses) => self.reach(None, addresses),
                None => Connected::Failed,
            },
            Talk::Dialing(socket, addresses) => self.reach(Some(socket), addresses),
            Talk::Open(socket) => {
                self.talk = Talk::Open(socket);
                Connected::Done
            }
        }
    }

    /// Reads into the front of a slice. Outside of a talk it is a fault.
    pub(crate) fn read(&mut self, into: &mut [u8]) -> Got
        requires { 0 < length into.old }
        ensures { IsGotOf into.new result }
    {
        match &mut self.talk {
            Talk::Open(socket) => socket.read(into),
            Talk::Dialing(_, _) => Got::NotReady,
            Talk::Over => Got::Failed,
        }
    }

    /// Writes the first of some bytes. Outside of a talk it is a fault.
    pub(crate) fn write(&mut self, from: &[u8]) -> Put
        requires { 0 < length from.now }
        ensures { IsPutOf from.now result }
    {
        match &mut self.talk {
            Talk::Open(socket) => socket.write(from),
            Talk::Dialing(_, _) => Put::NotReady,
            Talk::Over => Put::Failed,
        }
    }

    /// Ends the present talk, and closes its socket.
    pub(crate) fn hang_up(&mut self) {
        self.talk = Talk::Over;
    }
}
