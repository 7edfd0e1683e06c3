//! Why a publish request is refused.
ghost use Rattle.std.specs.Prelude.{◌≡◌};
ghost use Rattle.gp_session_publish.specs.Routing.{cause_of, place_of, refusal_of, request_refusal, request_why, why_of};

use gp_answer::Refusal;
use gp_hub::Why;
use gp_intake::{BodyIntake, RequestFault};
use gp_items::ItemsFault;

/// Why a publish request is refused.
#[derive(Clone, Copy, Drop)]
pub(crate) enum Cause {
    /// It is no request that is served.
    Request(RequestFault),
    /// Its path is another than `/publish` and `/publish/`: 404.
    Path,
    /// Its method is another than POST: 405.
    Method,
    /// Its items are refused, the first fault being at this place: 400.
    Items(u32),
}

/// What a request that isn't served is answered.
fn request_refusal(fault: RequestFault) -> Refusal
    ensures { result ≡ request_refusal fault }
{
    match fault {
        RequestFault::HeadTooLarge => Refusal::HeadTooLarge,
        RequestFault::Head
        | RequestFault::Target
        | RequestFault::Host
        | RequestFault::Plan(_)
        | RequestFault::Chunk(_) => Refusal::BadRequest,
        RequestFault::TooLong => Refusal::ContentTooLarge,
    }
}

/// Whether its head or its body refuses it.
fn request_why(fault: RequestFault) -> Why
    ensures { result ≡ request_why fault }
{
    match fault {
        RequestFault::HeadTooLarge
        | RequestFault::Head
        | RequestFault::Target
        | RequestFault::Host => Why::Head,
        RequestFault::Plan(_) | RequestFault::Chunk(_) | RequestFault::TooLong => Why::Body,
    }
}

impl Cause {
    /// What is answered.
    pub(crate) fn refusal(self) -> Refusal
        ensures { result ≡ refusal_of self }
    {
        match self {
            Cause::Request(fault) => request_refusal(fault),
            Cause::Path => Refusal::NotFound,
            Cause::Method => Refusal::MethodNotAllowed,
            Cause::Items(_) => Refusal::BadRequest,
        }
    }

    /// What the outcome tells.
    pub(crate) fn why(self) -> Why
        ensures { result ≡ why_of self }
    {
        match self {
            Cause::Request(fault) => request_why(fault),
            Cause::Path | Cause::Method => Why::Route,
            Cause::Items(place) => Why::Items(place),
        }
    }
}

/// Why a request with this head isn't one to a publisher, if it isn't.
pub(crate) fn cause_of(intake: &BodyIntake) -> Option<Cause>
    ensures { result ≡ cause_of intake.now }
{
    let path = intake.path();
    if path != b"/publish".as_slice() && path != b"/publish/".as_slice() {
        Some(Cause::Path)
    } else if intake.head().method.bytes() != b"POST".as_slice() {
        Some(Cause::Method)
    } else {
        None
    }
}

/// The place that a fault of items names, or 0 where it names none. It is None where memory is wanting.
pub(crate) fn place_of(fault: &ItemsFault) -> Option<u32>
    ensures { result ≡ place_of fault.now }
{
    match fault {
        ItemsFault::NotJson | ItemsFault::NoItems | ItemsFault::TooMany(_) => Some(0),
        ItemsFault::Member(place, _)
        | ItemsFault::Base64(place, _)
        | ItemsFault::Long(place, _)
        | ItemsFault::Name(place, _) => Some(*place),
        ItemsFault::NoMemory => None,
    }
}
