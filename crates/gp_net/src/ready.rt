//! Which sockets are ready, as far as is known.
ghost use Rattle.std.specs.Prelude.{◌≡◌};

use mio::event::Source;
use mio::{Interest, Registry, Token};
use std::alloc::{AllocError, Global};
use std::io;
use std::sync::Arc;
use std::sync::atomic::{AtomicBool, AtomicUsize, Ordering};

/// Whether one socket may be read and written without waiting.
#[derive(Drop)]
struct Place {
    is_taken: AtomicBool,
    can_read: AtomicBool,
    can_write: AtomicBool,
}

/// What the devices of one worker share: where sockets are registered, and a place for each of them.
#[derive(Drop)]
struct Watch {
    registry: Registry,
    places: Vec<Place>,
    /// Where a free place is looked for first.
    next: AtomicUsize,
    /// Whether a device that answered "not ready" can go on at once.
    is_pressed: AtomicBool,
}

/// The sockets of one worker. It is a handle that its listeners, links and dialers share with its idle.
#[derive(Drop)]
pub struct Sockets {
    watch: Arc<Watch, Global>,
}

/// The place of one socket. It is free again once this is dropped.
pub(crate) struct Seat {
    sockets: Sockets,
    at: usize,
}

impl Sockets {
    /// Places for so many sockets that are registered there.
    pub(crate) fn new(
        alloc: Global,
        registry: Registry,
        count: usize,
    ) -> Result<Sockets, AllocError> {
        let mut places = Vec::with_capacity(alloc, count)?;
        for _ in 0..count {
            places.push(Place {
                is_taken: AtomicBool::new(false),
                can_read: AtomicBool::new(false),
                can_write: AtomicBool::new(false),
            })?;
        }
        let watch = Watch {
            registry,
            places,
            next: AtomicUsize::new(0),
            is_pressed: AtomicBool::new(false),
        };
        Ok(Sockets {
            watch: Arc::new(alloc, watch)?,
        })
    }

    /// Another handle to the same sockets.
    pub fn copy(&self) -> Result<Sockets, AllocError> {
        Ok(Sockets {
            watch: Arc::try_clone(&self.watch)?,
        })
    }

    /// Takes a free place, unless all are taken or memory is wanting.
    pub(crate) fn seat(&self) -> Option<Seat> {
        let count = self.watch.places.len();
        if count == 0 {
            return None;
        }
        let sockets = self.copy().ok()?;
        let first = self.watch.next.load(Ordering::SeqCst);
        for step in 0..count {
            let at = first.wrapping_add(step) % count;
            if let Some(place) = self.watch.places.get(at) {
                if !place.is_taken.swap(true, Ordering::SeqCst) {
                    self.watch.next.store(at.wrapping_add(1), Ordering::SeqCst);
                    return Some(Seat { sockets, at });
                }
            }
        }
        None
    }

    /// Notes what became ready at a place.
    pub(crate) fn note(&self, at: usize, can_read: bool, can_write: bool) {
        if let Some(place) = self.watch.places.get(at) {
            if can_read {
                place.can_read.store(true, Ordering::SeqCst);
            }
            if can_write {
                place.can_write.store(true, Ordering::SeqCst);
            }
        }
    }

    /// Asks that the next rest doesn't wait.
    pub(crate) fn press(&self) {
        self.watch.is_pressed.store(true, Ordering::SeqCst);
    }

    /// Whether that was asked since the last such question.
    pub(crate) fn take_press(&self) -> bool {
        self.watch.is_pressed.swap(false, Ordering::SeqCst)
    }

    /// Frees a place.
    fn free(&self, at: usize) {
        if let Some(place) = self.watch.places.get(at) {
            place.is_taken.store(false, Ordering::SeqCst);
        }
    }
}

impl Seat {
    /// Has a socket watched at this place, and notes what may be tried at once.
    pub(crate) fn watch<S: Source>(
        &self,
        socket: &mut S,
        interest: Interest,
        can_read: bool,
        can_write: bool,
    ) -> io::Result<()>
        ensures { S.keeps socket.old socket.new }
    {
        if let Some(place) = self.sockets.watch.places.get(self.at) {
            place.can_read.store(can_read, Ordering::SeqCst);
            place.can_write.store(can_write, Ordering::SeqCst);
        }
        self.sockets
            .watch
            .registry
            .register(socket, Token(self.at), interest)
    }

    /// Whether the socket may be read. From then on it counts as not ready, until `may_read` or an event.
    pub(crate) fn take_read(&self) -> bool {
        match self.sockets.watch.places.get(self.at) {
            Some(place) => {
                place.can_read.load(Ordering::SeqCst)
                    && place.can_read.swap(false, Ordering::SeqCst)
            }
            None => false,
        }
    }

    /// Whether the socket may be written. From then on it counts as not ready, until `may_write` or an event.
    pub(crate) fn take_write(&self) -> bool {
        match self.sockets.watch.places.get(self.at) {
            Some(place) => {
                place.can_write.load(Ordering::SeqCst)
                    && place.can_write.swap(false, Ordering::SeqCst)
            }
            None => false,
        }
    }

    /// Notes that the socket may be read.
    pub(crate) fn may_read(&self) {
        self.sockets.note(self.at, true, false);
    }

    /// Notes that the socket may be written.
    pub(crate) fn may_write(&self) {
        self.sockets.note(self.at, false, true);
    }
}

impl Drop for Seat {
    fn drop(self) {
        let Self { sockets, at } = self;
        sockets.free(at);
    }
}
