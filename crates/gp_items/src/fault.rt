ghost use Rattle.std.specs.Prelude.{◌≡◌};
ghost use Rattle.gp_items.specs.Faults.{fault_at, of_member, of_name};

use gp_json::MemberFault;
use gp_plain::{Body, NameFault};
use std::alloc::{AllocError, AllocFailed};

/// Why a publish body is refused. The first number of a fault of an item is the item's place, counted from 0.
#[derive(Drop)]
pub enum ItemsFault {
    /// The bytes are no text of a JSON object.
    NotJson,
    /// `items` is absent, is no array or has no element.
    NoItems,
    /// So many items, more than 1,000. It is told as `u32::MAX` where it is more.
    TooMany(u32),
    /// The member of this name has the wrong form, or is wanting.
    Member(u32, Body),
    /// The member of this name is no base64 (RFC 4648, section 4).
    Base64(u32, Body),
    /// A content has so many bytes, more than 65,536.
    Long(u32, u64),
    /// The channel, the id or the previous id is no name.
    Name(u32, NameFault),
    /// Memory is wanting.
    NoMemory,
}

impl From<AllocError> for ItemsFault {
    ghost use Rattle.std.specs.Prelude.{◌≡◌};
    ghost use Rattle.gp_items.specs.declared.fault.ItemsFault.TheVariants.{NoMemory};

    ghost from_gives = { λ _ fault. fault ≡ NoMemory };

    fn from(_: AllocError) -> ItemsFault {
        ItemsFault::NoMemory
    }
}

impl<T: Drop> From<AllocFailed<T>> for ItemsFault {
    ghost use Rattle.std.specs.Prelude.{◌≡◌};
    ghost use Rattle.gp_items.specs.declared.fault.ItemsFault.TheVariants.{NoMemory};

    ghost from_gives = { λ _ fault. fault ≡ NoMemory };

    fn from(_: AllocFailed<T>) -> ItemsFault {
        ItemsFault::NoMemory
    }
}

/// Why one item is refused.
#[derive(Drop)]
pub(crate) enum ItemFault {
    Member(Body),
    Base64(Body),
    Long(u64),
    Name(NameFault),
    NoMemory,
}

impl From<MemberFault> for ItemFault {
    ghost use Rattle.std.specs.Prelude.{◌≡◌};
    ghost use Rattle.gp_items.specs.Faults.{of_member};

    ghost from_gives = { λ member fault. fault ≡ of_member member };

    fn from(fault: MemberFault) -> ItemFault {
        match fault {
            MemberFault::Member(name) => ItemFault::Member(name),
            MemberFault::Base64(name) => ItemFault::Base64(name),
            MemberFault::NoMemory => ItemFault::NoMemory,
        }
    }
}

impl From<NameFault> for ItemFault {
    ghost use Rattle.std.specs.Prelude.{◌≡◌};
    ghost use Rattle.gp_items.specs.Faults.{of_name};

    ghost from_gives = { λ name fault. fault ≡ of_name name };

    fn from(fault: NameFault) -> ItemFault {
        match fault {
            NameFault::NoMemory => ItemFault::NoMemory,
            fault => ItemFault::Name(fault),
        }
    }
}

impl ItemFault {
    /// The fault of the whole body, whose item stands at the place.
    pub(crate) fn at(self, place: u32) -> ItemsFault
        ensures { result ≡ fault_at place self }
    {
        match self {
            ItemFault::Member(name) => ItemsFault::Member(place, name),
            ItemFault::Base64(name) => ItemsFault::Base64(place, name),
            ItemFault::Long(length) => ItemsFault::Long(place, length),
            ItemFault::Name(fault) => ItemsFault::Name(place, fault),
            ItemFault::NoMemory => ItemsFault::NoMemory,
        }
    }
}
