//! Sessions over the devices of a kit that may be sent move from one thread to another.
use crate::client::Serving;
use crate::publisher::Publishing;
use gp_outside::Kit;

fn moves<T: Send>(value: T) -> T {
    value
}

/// The session of a client may be moved.
pub(crate) fn client_crosses<'h, K: Kit + Send>(session: Serving<'h, K>) -> Serving<'h, K> {
    moves(session)
}

/// The session of a publisher may be moved.
pub(crate) fn publisher_crosses<'h, K: Kit + Send>(
    session: Publishing<'h, K>,
) -> Publishing<'h, K> {
    moves(session)
}
