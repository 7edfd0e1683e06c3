//! Where a worker rests.
use crate::ready::Sockets;
use gp_outside::Idle;
use mio::event::Event;
use mio::{Events, Poll, Token, Waker};
use std::alloc::{AllocError, Global};
use std::io;
use std::net::Net;
use std::time::Duration;

/// The events that one rest takes up, at most.
const EVENTS: usize = 1024;

/// The longest rest, in milliseconds.
const LONGEST: u64 = 100;

/// An idle that waits until a socket is ready, or until some time is over: 1 millisecond after something was ready, and
/// then twice as long each time, up to 100.
#[derive(Drop)]
pub struct NetIdle {
    poll: Poll,
    events: Events,
    sockets: Sockets,
    /// How long the next rest is, at most, in milliseconds.
    pub(crate) wait: u64,
}

impl NetIdle {
    /// An idle for so many sockets.
    pub fn new<R: Net>(alloc: Global, net: &R, count: usize) -> io::Result<NetIdle> {
        let poll = Poll::new(net)?;
        let registry = poll.registry().try_clone()?;
        Ok(NetIdle {
            poll,
            events: Events::with_capacity(alloc, EVENTS)?,
            sockets: Sockets::new(alloc, registry, count)?,
            wait: 1,
        })
    }

    /// A handle to its sockets, for listeners and dialers.
    pub fn sockets(&self) -> Result<Sockets, AllocError> {
        self.sockets.copy()
    }

    /// What ends its rest, or its next one, from another thread. It has no place among the sockets.
    pub(crate) fn waker(&self) -> io::Result<Waker> {
        Waker::new(self.poll.registry(), Token(usize::MAX))
    }
}

/// Notes what an event says. A socket that failed or was closed can be tried: the call then tells it.
fn note(sockets: &Sockets, event: &Event) {
    let is_over = event.is_error();
    sockets.note(
        event.token().0,
        is_over || event.is_readable() || event.is_read_closed(),
        is_over || event.is_writable() || event.is_write_closed(),
    );
}

impl Idle for NetIdle {
    fn rest(&mut self) {
        let wait = if self.sockets.take_press() {
            0
        } else {
            self.wait
        };
        let _ = self
            .poll
            .poll(&mut self.events, Some(Duration::from_millis(wait)));
        for event in &self.events {
            note(&self.sockets, event);
        }
        self.wait = if self.events.is_empty() {
            self.wait.saturating_mul(2).min(LONGEST)
        } else {
            1
        };
    }
}
