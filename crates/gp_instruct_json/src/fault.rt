use gp_instruct::InstructFault;
use gp_json::{MemberFault, TextFault};
use gp_plain::Body;

/// Why a body is refused. The refusals are tried in this order.
#[derive(Drop)]
pub enum JsonFault {
    /// It isn't UTF-8, or no JSON, or no object.
    NotJson,
    /// The first member of wrong form, by its name.
    Member(Body),
    /// The member of this name is no base64 (RFC 4648, section 4, with padding).
    Base64(Body),
    /// What the members, or the links of the head, ask for is refused.
    Instruct(InstructFault),
    /// Memory is wanting.
    NoMemory,
}

impl From<TextFault> for JsonFault {
    ghost use Rattle.std.specs.Prelude.{◌≡◌};
    ghost use Rattle.gp_instruct_json.specs.Faults.{text_fault};

    ghost from_gives = { λ found fault. fault ≡ text_fault found };

    fn from(fault: TextFault) -> JsonFault {
        match fault {
            TextFault::NotJson => JsonFault::NotJson,
            TextFault::NoMemory => JsonFault::NoMemory,
        }
    }
}

impl From<MemberFault> for JsonFault {
    ghost use Rattle.std.specs.Prelude.{◌≡◌};
    ghost use Rattle.gp_instruct_json.specs.Faults.{member_fault};

    ghost from_gives = { λ found fault. fault ≡ member_fault found };

    fn from(fault: MemberFault) -> JsonFault {
        match fault {
            MemberFault::Member(name) => JsonFault::Member(name),
            MemberFault::Base64(name) => JsonFault::Base64(name),
            MemberFault::NoMemory => JsonFault::NoMemory,
        }
    }
}

impl From<InstructFault> for JsonFault {
    ghost use Rattle.std.specs.Prelude.{◌≡◌};
    ghost use Rattle.gp_instruct_json.specs.Faults.{instruct_fault};

    ghost from_gives = { λ found fault. fault ≡ instruct_fault found };

    fn from(fault: InstructFault) -> JsonFault {
        match fault {
            InstructFault::NoMemory => JsonFault::NoMemory,
            _ => JsonFault::Instruct(fault),
        }
    }
}
