//! Where a request goes, and why it is refused.
ghost use Rattle.std.specs.Prelude.{◌≡◌, MatchResult};
ghost use Rattle.gp_session_http.specs.Routing.{IsDestination, IsRoutedTo, IsUnrouted, host_of, refusal_of, request_refusal, request_why, why_of};

use gp_answer::Refusal;
use gp_hub::Why;
use gp_intake::{BodyIntake, RequestFault};
use gp_plain::{Address, Request};
use gp_routes::{Route, Routes};
use gp_text::first_value;
use gp_ws::is_upgrade;
use std::alloc::Global;

/// Why a request is refused.
#[derive(Clone, Copy, Drop)]
pub(crate) enum Cause {
    /// It is no request that is served.
    Request(RequestFault),
    /// No route matches it: 404.
    Route,
    /// It asks for a WebSocket: 501.
    Upgrade,
}

/// Where a request goes.
#[derive(Drop)]
pub(crate) enum Destination {
    /// To the origin at this address.
    Origin(Address),
    /// Nowhere: it is refused.
    Refused(Cause),
    /// Memory is wanting.
    NoMemory,
}

/// What a request that isn't served is answered.
fn request_refusal(fault: RequestFault) -> Refusal
    ensures { result ≡ request_refusal fault }
{
    match fault {
        RequestFault::HeadTooLarge => Refusal::HeadTooLarge,
        RequestFault::Head
        | RequestFault::Target
        | RequestFault::Host
        | RequestFault::Plan(_)
        | RequestFault::Chunk(_) => Refusal::BadRequest,
        RequestFault::TooLong => Refusal::ContentTooLarge,
    }
}

/// Whether its head or its body refuses it.
fn request_why(fault: RequestFault) -> Why
    ensures { result ≡ request_why fault }
{
    match fault {
        RequestFault::HeadTooLarge
        | RequestFault::Head
        | RequestFault::Target
        | RequestFault::Host => Why::Head,
        RequestFault::Plan(_) | RequestFault::Chunk(_) | RequestFault::TooLong => Why::Body,
    }
}

impl Cause {
    /// What is answered.
    pub(crate) fn refusal(self) -> Refusal
        ensures { result ≡ refusal_of self }
    {
        match self {
            Cause::Request(fault) => request_refusal(fault),
            Cause::Route => Refusal::NotFound,
            Cause::Upgrade => Refusal::NotImplemented,
        }
    }

    /// What the outcome tells.
    pub(crate) fn why(self) -> Why
        ensures { result ≡ why_of self }
    {
        match self {
            Cause::Request(fault) => request_why(fault),
            Cause::Route | Cause::Upgrade => Why::Route,
        }
    }
}

/// The value of the first `host` field, or no byte where there is none.
fn host_of(head: &Request) -> &[u8]
    ensures { result.now ≡ host_of head.now }
{
    match first_value(head.fields.as_slice(), b"host") {
        Some(host) => host,
        None => b"",
    }
}

/// The route of a request with this head, or why it isn't forwarded.
fn route_of<'r>(routes: &'r Routes, intake: &BodyIntake) -> Result<&'r Route, Cause>
    ensures { MatchResult result (λ route. IsRoutedTo routes.now intake.now.head intake.now.path route.now) (IsUnrouted routes.now intake.now.head intake.now.path) }
{
    match routes.pick(host_of(intake.head()), intake.path()) {
        None => Err(Cause::Route),
        Some(route) => {
            if is_upgrade(intake.head()) {
                Err(Cause::Upgrade)
            } else {
                Ok(route)
            }
        }
    }
}

/// Where a request with this head goes.
pub(crate) fn find_origin(alloc: Global, routes: &Routes, intake: &BodyIntake) -> Destination
    ensures { IsDestination routes.now intake.now.head intake.now.path result }
{
    match route_of(routes, intake) {
        Err(cause) => Destination::Refused(cause),
        Ok(route) => match route.address.copy(alloc) {
            Ok(address) => Destination::Origin(address),
            Err(_) => Destination::NoMemory,
        },
    }
}
