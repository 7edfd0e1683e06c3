//! What all workers share: the listening sockets of the two ports, what wakes the workers, and the names of origins.
ghost use Rattle.std.specs.Prelude.{IfOk};
ghost use Rattle.gp_outside.specs.Worlds.{IsUnusedKit};

use crate::bells::Bells;
use crate::idle::NetIdle;
use crate::kit::NetKit;
use crate::listen::NetListen;
use crate::names::Names;
use mio::net::TcpListener;
use std::alloc::Global;
use std::net::{Ipv4Addr, Ipv6Addr, Net, SocketAddr};
use std::{io, net, time};

/// The sockets that one worker watches, at most: two for each of 4,096 sessions, and its two listeners.
const SOCKETS: usize = 8194;

/// The workers, at most.
const WORKERS: usize = 16;

/// The listening sockets of clients and publishers, the wakers of the workers, and the names of origins that were looked up.
#[derive(Drop)]
pub struct Ports {
    clients: net::TcpListener,
    publishers: net::TcpListener,
    bells: Bells,
    names: Names,
}

/// A listening socket for clients, on all addresses of the machine.
fn on_all<R: Net>(net: &R, port: u16) -> io::Result<TcpListener> {
    match TcpListener::bind(net, SocketAddr::from((Ipv6Addr::UNSPECIFIED, port))) {
        Ok(listener) => Ok(listener),
        Err(_) => TcpListener::bind(net, SocketAddr::from((Ipv4Addr::UNSPECIFIED, port))),
    }
}

/// Another descriptor of a listening socket.
fn copy_of(listener: &net::TcpListener) -> io::Result<TcpListener> {
    Ok(TcpListener::from_std(listener.try_clone()?))
}

impl Ports {
    /// Listens for clients on all addresses of the machine, and for publishers on its loopback address alone. Port 0
    /// takes any port that is free.
    pub fn open<R: Net>(alloc: Global, net: &R, client: u16, publish: u16) -> io::Result<Ports> {
        let clients = on_all(net, client)?;
        let publishers = TcpListener::bind(net, SocketAddr::from((Ipv4Addr::LOCALHOST, publish)))?;
        Ok(Ports {
            clients: net::TcpListener::from(clients),
            publishers: net::TcpListener::from(publishers),
            bells: Bells::new(alloc, WORKERS)?,
            names: Names::new(alloc)?,
        })
    }

    /// The port on which clients are listened for.
    pub fn client_port(&self) -> io::Result<u16> {
        Ok(self.clients.local_addr()?.port())
    }

    /// The port on which publishers are listened for.
    pub fn publish_port(&self) -> io::Result<u16> {
        Ok(self.publishers.local_addr()?.port())
    }

    /// The devices of the worker with this number, counted from 0. One with a number of 16 or more isn't woken by the
    /// others.
    pub fn kit<R: Net + time::Clock + Copy + Drop>(
        &self,
        alloc: Global,
        system: R,
        number: u32,
    ) -> io::Result<NetKit<R>>
        ensures { IfOk result (λ kit. IsUnusedKit (λ l. l) kit) }
    {
        let idle = NetIdle::new(alloc, &system, SOCKETS)?;
        self.bells.hang(number as usize, idle.waker()?);
        let clients = NetListen::new(copy_of(&self.clients)?, idle.sockets()?)?;
        let publishers = NetListen::new(copy_of(&self.publishers)?, idle.sockets()?)?;
        let (bells, names) = (self.bells.copy()?, self.names.copy()?);
        Ok(NetKit::new(alloc, system, clients, publishers, idle, bells, names))
    }
}
