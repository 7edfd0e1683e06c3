//! Threads share a turn by reference, and a pass moves from one to another.
use crate::kept::Kept;
use crate::pass::Pass;
use crate::turn::Turn;

fn shares<T: Sync>(_: &T) {}

fn moves<T: Send>(value: T) -> T {
    value
}

/// A turn may be moved and shared, and a pass moved, wherever the value may be moved.
pub(crate) fn crosses<V: Kept + Send>(turn: Turn<V>, pass: Pass<V>) -> (Turn<V>, Pass<V>) {
    shares(&turn);
    (moves(turn), moves(pass))
}
