use gp_body::BodyFault;
use gp_plain::Body;
use std::alloc::AllocError;

/// Why a request isn't served. The faults are tried in this order (RFC 9110, section 15.5).
#[derive(Clone, Copy, Drop, Debug, PartialEq)]
pub enum RequestFault {
    /// The head has too many fields or is too long: 431.
    HeadTooLarge,
    /// The head is none of the grammar: 400.
    Head,
    /// The method is CONNECT, or the target is neither a path nor an absolute URI: 400.
    Target,
    /// A request of HTTP/1.1 hasn't exactly one `host` field: 400.
    Host,
    /// No plan can be made of the body: 400.
    Plan(BodyFault),
    /// The grammar of chunks can't go on at this place, counted from the body's first byte: 400.
    Chunk(u64),
    /// The body is too long: 413.
    TooLong,
}

/// A request that is refused.
#[derive(Drop)]
pub struct Refused {
    /// Why.
    pub fault: RequestFault,
    /// Its method, and no byte where no head was read.
    pub method: Body,
}

/// Why a head isn't gone on with.
#[derive(Clone, Copy, Drop)]
pub(crate) enum Unserved {
    /// It is refused.
    Fault(RequestFault),
    /// Memory is wanting.
    NoMemory,
}

impl From<AllocError> for Unserved {
    ghost use Rattle.std.specs.Prelude.{◌≡◌};
    ghost use Rattle.gp_intake.specs.declared.fault.Unserved.TheVariants.{NoMemory};

    ghost from_gives = { λ _ unserved. unserved ≡ NoMemory };

    fn from(_: AllocError) -> Unserved {
        Unserved::NoMemory
    }
}
