ghost use Rattle.std.specs.Prelude.{◌≡◌};
ghost use Rattle.gp_exchange.specs.Answers.{told};

use gp_body::{BodyFault, FedFault};
use gp_plain::{Body, Response};

/// Why an exchange failed.
#[derive(Clone, Copy, Drop, Debug, PartialEq)]
pub enum ExchangeFault {
    /// A call of the dialer failed.
    Dial,
    /// The head of the response can't be read, or the input ended before it was whole.
    Head,
    /// A ninth interim response came, or one with the code 101 (RFC 9110, section 15.2).
    Interim,
    /// The body of the response has no plan.
    Plan(BodyFault),
    /// The body is refused, or the input ended before it was whole.
    Body(FedFault),
}

/// What a poll of an exchange gives.
#[derive(Drop)]
pub enum Progress {
    /// The head of the response, which comes once.
    Head(Response),
    /// The next part of the body's content, of at least one byte.
    Part(Body),
    /// The response has ended.
    End,
    /// The dialer isn't ready.
    NotReady,
    /// The exchange failed.
    Fault(ExchangeFault),
    /// Memory is wanting.
    NoMemory,
}

/// What is answered again once an exchange is over.
#[derive(Clone, Copy, Drop)]
pub(crate) enum Last {
    /// The response has ended.
    End,
    /// The exchange failed.
    Fault(ExchangeFault),
    /// Memory was wanting.
    NoMemory,
}

impl Last {
    pub(crate) fn told(self) -> Progress
        ensures { result ≡ told self }
    {
        match self {
            Last::End => Progress::End,
            Last::Fault(fault) => Progress::Fault(fault),
            Last::NoMemory => Progress::NoMemory,
        }
    }
}
