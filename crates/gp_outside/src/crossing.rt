//! A kit moves to the thread of its worker, and back.
use crate::gate::PairGate;
use crate::mem_kit::MemKit;

fn moves<T: Send>(value: T) -> T {
    value
}

/// A kit and a handle to a gate may be moved.
pub(crate) fn crosses(kit: MemKit, gate: PairGate) -> (MemKit, PairGate) {
    (moves(kit), moves(gate))
}
