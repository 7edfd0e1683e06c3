use gp_plain::NameFault;
use std::alloc::AllocError;

/// Why an instruction is refused. The refusals are tried in this order.
#[derive(Clone, Copy, Drop, Debug, PartialEq)]
pub enum InstructFault {
    /// The hold is neither `response` nor `stream`, or there is more than one.
    Mode,
    /// The first name of a channel, or previous id, that is refused.
    Channel(NameFault),
    /// There is a hold, and no channel.
    NoChannel,
    /// There are so many channels, more than 8, with a hold or without one.
    TooMany(u32),
    /// There is a hold with so many channels, more than one, and one of them has a previous id.
    Reliable(u32),
    /// The timeout isn't a number of 1 to 9 digits.
    Timeout,
    /// The status isn't 200 to 599 in three digits.
    Status,
    /// The place in the value of the link at which its form can't go on, or where the URI that is taken begins.
    Link(u32),
    /// Memory is wanting.
    NoMemory,
}

impl From<AllocError> for InstructFault {
    ghost use Rattle.std.specs.Prelude.{◌≡◌};
    ghost use Rattle.gp_instruct.specs.declared.fault.InstructFault.TheVariants.{NoMemory};

    ghost from_gives = { λ _ fault. fault ≡ NoMemory };

    fn from(_: AllocError) -> InstructFault {
        InstructFault::NoMemory
    }
}
