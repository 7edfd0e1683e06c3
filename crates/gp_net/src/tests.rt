//! A dialer calls a listener over loopback.
use crate::names::Names;
use crate::{NetClock, NetDial, NetIdle, NetKit, NetLink, NetListen, Ports};
use gp_outside::{Accepted, Clock, Connected, Dial, Got, Idle, Kit, Link, Listen, Put};
use gp_plain::{Address, Body};
use mio::net::TcpListener;
use std::alloc::{AllocError, Global};
use std::net::{Ipv4Addr, Net, SocketAddr};
use std::test::Fail;
use std::{io, time};

/// The rests that are waited for one answer, at most.
const RESTS: u32 = 100;

fn connect<R: Net + time::Clock + Drop>(
    dial: &mut NetDial<R>,
    to: &Address,
    idle: &mut NetIdle,
) -> Connected {
    for _ in 0..RESTS {
        match dial.connect(to) {
            Connected::NotReady => idle.rest(),
            Connected::Done => return Connected::Done,
            Connected::Failed => return Connected::Failed,
        }
    }
    Connected::NotReady
}

fn accept(listen: &mut NetListen, idle: &mut NetIdle) -> Option<NetLink> {
    for _ in 0..RESTS {
        match listen.accept() {
            Accepted::Took(link) => return Some(link),
            Accepted::NotReady => idle.rest(),
            Accepted::Failed => return None,
        }
    }
    None
}

fn read(link: &mut NetLink, idle: &mut NetIdle, into: &mut [u8; 16]) -> Got {
    for _ in 0..RESTS {
        match link.read(into) {
            Got::NotReady => idle.rest(),
            got => return got,
        }
    }
    Got::NotReady
}

fn hear<R: Net + time::Clock + Drop>(
    dial: &mut NetDial<R>,
    idle: &mut NetIdle,
    into: &mut [u8; 16],
) -> Got {
    for _ in 0..RESTS {
        match dial.read(into) {
            Got::NotReady => idle.rest(),
            got => return got,
        }
    }
    Got::NotReady
}

/// Writes until the other side's end is noticed.
fn write_on(link: &mut NetLink, idle: &mut NetIdle) -> Put {
    for _ in 0..RESTS {
        match link.write(b"more") {
            Put::Failed => return Put::Failed,
            Put::Took(_) | Put::NotReady => idle.rest(),
        }
    }
    Put::NotReady
}

/// Whether a link that was sent nothing isn't ready, and hears a word, and its answer comes back.
fn speaks<R: Net + time::Clock + Drop>(
    dial: &mut NetDial<R>,
    link: &mut NetLink,
    idle: &mut NetIdle,
) -> bool {
    let mut bytes = [0u8; 16];
    link.read(&mut bytes) == Got::NotReady
        && link.read(&mut bytes) == Got::NotReady
        && dial.write(b"ping") == Put::Took(4)
        && read(link, idle, &mut bytes) == Got::Took(4)
        && bytes.starts_with(b"ping")
        && link.write(b"answer") == Put::Took(6)
        && hear(dial, idle, &mut bytes) == Got::Took(6)
        && bytes.starts_with(b"answer")
}

/// Whether a link notices that the other side hung up, and the dialer is in no talk then.
fn ends<R: Net + time::Clock + Drop>(
    dial: &mut NetDial<R>,
    link: &mut NetLink,
    idle: &mut NetIdle,
) -> bool {
    let mut bytes = [0u8; 16];
    dial.hang_up();
    read(link, idle, &mut bytes) == Got::End
        && write_on(link, idle) == Put::Failed
        && dial.read(&mut bytes) == Got::Failed
        && dial.write(b"late") == Put::Failed
}

fn address(alloc: Global, host: &[u8], port: u16) -> Result<Address, AllocError> {
    Ok(Address {
        host: Body::new(alloc, host)?,
        port,
    })
}

/// Whether a whole talk goes well.
fn talks<R: Net + time::Clock + Drop>(
    dial: &mut NetDial<R>,
    listen: &mut NetListen,
    idle: &mut NetIdle,
    to: &Address,
) -> bool {
    if connect(dial, to, idle) != Connected::Done {
        return false;
    }
    match accept(listen, idle) {
        Some(mut link) => speaks(dial, &mut link, idle) && ends(dial, &mut link, idle),
        None => false,
    }
}

/// Whether nobody is there at first, and then a talk with each address goes well.
fn calls<R: Net + time::Clock + Drop>(
    dial: &mut NetDial<R>,
    listen: &mut NetListen,
    idle: &mut NetIdle,
    by_number: &Address,
    by_name: &Address,
) -> bool {
    matches!(listen.accept(), Accepted::NotReady)
        && talks(dial, listen, idle, by_number)
        && talks(dial, listen, idle, by_name)
}

/// A listener on loopback, and its port.
fn listener<R: Net>(rt: &R, idle: &mut NetIdle) -> io::Result<(NetListen, u16)> {
    let socket = TcpListener::bind(rt, SocketAddr::from((Ipv4Addr::LOCALHOST, 0)))?;
    let port = socket.local_addr()?.port();
    Ok((NetListen::new(socket, idle.sockets()?)?, port))
}

/// Whether a dialer calls a listener until that is gone.
fn is_called<R: Net + time::Clock + Drop>(
    alloc: Global,
    dial: &mut NetDial<R>,
    mut listen: NetListen,
    port: u16,
    idle: &mut NetIdle,
) -> Result<bool, AllocError> {
    let by_number = address(alloc, b"127.0.0.1", port)?;
    let by_name = address(alloc, b"localhost", port)?;
    let is_heard = calls(dial, &mut listen, idle, &by_number, &by_name);
    drop(listen);
    Ok(is_heard && connect(dial, &by_number, idle) == Connected::Failed)
}

#[test]
fn calls_over_loopback(rt: HostRuntime) -> Result<(), Fail> {
    // The listener, the dialer and a link have just room.
    let mut idle = NetIdle::new(rt.alloc(), &rt, 3)?;
    let (listen, port) = listener(&rt, &mut idle)?;
    let names = Names::new(rt.alloc())?;
    let mut dial = NetDial::new(rt.alloc(), rt, Some(names), Some(idle.sockets()?));
    assert!(rt; is_called(rt.alloc(), &mut dial, listen, port, &mut idle)?);
    assert!(rt; NetClock::new(rt).now() > 0);
    Ok(())
}

/// Whether the rests of a worker grow, and the end of a publisher's session of another worker ends that.
fn wakes<R: Net + time::Clock + Copy + Drop + Send>(
    resting: &mut NetKit<R>,
    other: &mut NetKit<R>,
    link: NetLink,
) -> bool {
    for _ in 0..4 {
        resting.idle().rest();
    }
    let grew = resting.idle().wait > 2;
    let is_over = other.over(link, None).is_ok();
    resting.idle().rest();
    grew && is_over && resting.idle().wait == 1
}

/// Whether a client of one worker's ports comes to the other, and its end wakes that.
fn shares<R: Net + time::Clock + Copy + Drop + Send>(
    first: &mut NetKit<R>,
    second: &mut NetKit<R>,
    to: &Address,
) -> bool {
    let mut dial = first.dial();
    if connect(&mut dial, to, first.idle()) != Connected::Done {
        return false;
    }
    second.idle().rest();
    match second.clients().accept() {
        Accepted::Took(link) => wakes(second, first, link),
        Accepted::NotReady | Accepted::Failed => false,
    }
}

/// Whether two workers share the ports, and wake one another.
fn wake_one_another<R: Net + time::Clock + Copy + Drop + Send>(
    rt: R,
    alloc: Global,
    ports: &Ports,
    first: &mut NetKit<R>,
) -> io::Result<bool> {
    let to = address(alloc, b"127.0.0.1", ports.client_port()?)?;
    let mut second = ports.kit(alloc, rt, 1)?;
    Ok(shares(first, &mut second, &to))
}

#[test]
fn shares_ports_and_wakes(rt: HostRuntime) -> Result<(), Fail> {
    let ports = Ports::open(rt.alloc(), &rt, 0, 0)?;
    let mut first = ports.kit(rt.alloc(), rt, 0)?;
    assert!(rt; wake_one_another(rt, rt.alloc(), &ports, &mut first)?);
    Ok(())
}
