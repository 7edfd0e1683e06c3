//! The devices move to the thread of their worker.
use crate::kit::NetKit;
use std::net::Net;
use std::time;

fn moves<T: Send>(value: T) -> T {
    value
}

/// A kit may be moved.
pub(crate) fn crosses<R: Net + time::Clock + Copy + Drop + Send>(kit: NetKit<R>) -> NetKit<R> {
    moves(kit)
}
