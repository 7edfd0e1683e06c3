//! Threads share a hub by reference, and passes, registries and what sessions leave move from one to another.
use crate::hub::Hub;
use crate::outcome::Outcome;
use crate::pass::HubPass;
use gp_registry::Registry;

fn shares<T: Sync>(_: &T) {}

fn moves<T: Send>(value: T) -> T {
    value
}

/// A hub may be moved and shared, and a pass moved.
pub(crate) fn crosses(hub: Hub, pass: HubPass) -> (Hub, HubPass) {
    shares(&hub);
    (moves(hub), moves(pass))
}

/// A registry and an outcome may be moved.
pub(crate) fn leaves(registry: Registry, outcome: Outcome) -> (Registry, Outcome) {
    (moves(registry), moves(outcome))
}
