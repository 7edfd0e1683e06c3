ghost use Rattle.std.specs.Prelude.{◌≡◌, ◌⊎◌};

use gp_plain::Body;
use std::alloc::{AllocError, AllocFailed, Global};

/// Why bytes are no JSON object.
#[derive(Clone, Copy, Drop, Debug, PartialEq)]
pub enum TextFault {
    /// They aren't UTF-8, or no JSON, or their value is no object.
    NotJson,
    /// Memory is wanting.
    NoMemory,
}

impl From<AllocError> for TextFault {
    ghost use Rattle.std.specs.Prelude.{◌≡◌};
    ghost use Rattle.gp_json.specs.declared.fault.TextFault.TheVariants.{NoMemory};

    ghost from_gives = { λ _ fault. fault ≡ NoMemory };

    fn from(_: AllocError) -> TextFault {
        TextFault::NoMemory
    }
}

/// Why the members of an object are refused.
#[derive(Drop)]
pub enum MemberFault {
    /// The member of this name has the wrong form, or is wanting.
    Member(Body),
    /// The member of this name is no base64 (RFC 4648, section 4).
    Base64(Body),
    /// Memory is wanting.
    NoMemory,
}

impl From<AllocError> for MemberFault {
    ghost use Rattle.std.specs.Prelude.{◌≡◌};
    ghost use Rattle.gp_json.specs.declared.fault.MemberFault.TheVariants.{NoMemory};

    ghost from_gives = { λ _ fault. fault ≡ NoMemory };

    fn from(_: AllocError) -> MemberFault {
        MemberFault::NoMemory
    }
}

impl<T: Drop> From<AllocFailed<T>> for MemberFault {
    ghost use Rattle.std.specs.Prelude.{◌≡◌};
    ghost use Rattle.gp_json.specs.declared.fault.MemberFault.TheVariants.{NoMemory};

    ghost from_gives = { λ _ fault. fault ≡ NoMemory };

    fn from(_: AllocFailed<T>) -> MemberFault {
        MemberFault::NoMemory
    }
}

/// The fault that the member of a name has the wrong form.
pub fn wrong_form(alloc: Global, name: &str) -> MemberFault
    ensures { (result ≡ MemberFault.Member name.now) ⊎ (result ≡ MemberFault.NoMemory) }
{
    match Body::new(alloc, name.as_bytes()) {
        Ok(name) => MemberFault::Member(name),
        Err(_) => MemberFault::NoMemory,
    }
}

/// The fault that the member of a name is no base64.
pub(crate) fn no_base64(alloc: Global, name: &str) -> MemberFault
    ensures { (result ≡ MemberFault.Base64 name.now) ⊎ (result ≡ MemberFault.NoMemory) }
{
    match Body::new(alloc, name.as_bytes()) {
        Ok(name) => MemberFault::Base64(name),
        Err(_) => MemberFault::NoMemory,
    }
}
