use std::alloc::AllocError;

/// Why a line isn't read.
#[derive(Clone, Copy, Drop, Debug, PartialEq)]
pub enum LineFault {
    /// It isn't the line of an event that fits.
    Bad,
    /// Memory is wanting.
    NoMemory,
}

impl From<AllocError> for LineFault {
    ghost use Rattle.gp_script.specs.declared.fault.LineFault.TheVariants.{NoMemory};
    ghost use Rattle.std.specs.Prelude.{◌≡◌};

    ghost from_gives = { λ _ fault. fault ≡ NoMemory };

    fn from(_refused: AllocError) -> LineFault {
        LineFault::NoMemory
    }
}
