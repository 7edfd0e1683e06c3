//! What a session gives.

use gp_hub::{HubPass, Outcome};
use gp_plain::{Address, Body, HoldReports, Request};

/// A request for a WebSocket, with all that its session goes on with.
#[derive(Drop)]
pub struct Handover<L, D, C> {
    /// The pass of the hub.
    pub pass: HubPass,
    /// What the session is known by to origins.
    pub tag: Body,
    /// The client's connection.
    pub link: L,
    /// What dials origins.
    pub dial: D,
    /// The clock.
    pub clock: C,
    /// The head of the request.
    pub request: Request,
    /// The origin's address, by the route of the request.
    pub address: Address,
    /// The bytes that came behind the request.
    pub rest: Body,
    /// What became of each hold that was attached before, in order.
    pub holds: HoldReports,
}

/// What a session gives at its end.
#[derive(Drop)]
pub enum Finish<L, D, C> {
    /// The session has ended.
    Done(Outcome),
    /// The client asks for a WebSocket. It isn't given until WebSockets are served.
    Upgrade(Handover<L, D, C>),
}
