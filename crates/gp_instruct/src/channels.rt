ghost use Rattle.std.specs.Prelude.{◌≡◌, ◌++◌, ◌∷◌, [], IfOk, MatchResult, if◌then◌else◌, not};
ghost use Rattle.gp_instruct.specs.Channels.{AreWith, HasKeys, IsSub, IsSubFault, has_key, named};

use crate::fault::InstructFault;
use crate::instruct::{Sub, Subs};
use gp_plain::{ItemId, List, Name, NameFault};
use std::alloc::{AllocError, Global};
use std::collections::BTreeSet;
use std::marker::Model;

/// Channels as they come. A name that comes again is dropped, with its previous id. Contracts see the list of them.
///
/// A name costs time by the logarithm of how many there are.
#[derive(Drop)]
pub struct Channels<'a> {
    subs: Subs,
    /// The names of `subs`.
    seen: BTreeSet<&'a [u8]>,
}

impl<'a> Model for Channels<'a> {
    ghost use Rattle.std.specs.Prelude.{List};
    ghost use Rattle.gp_instruct.specs.declared.instruct.Sub.{Sub};

    ghost Value = { List Sub };

    ghost use Rattle.gp_instruct.specs.Channels.{AreNamesOf};

    ghost view = { λ channels. channels.subs };

    ghost invariant = { λ channels. AreNamesOf channels.subs channels.seen.keys };
}

impl From<NameFault> for InstructFault {
    ghost use Rattle.std.specs.Prelude.{◌≡◌};
    ghost use Rattle.gp_instruct.specs.Channels.{refusal};

    ghost from_gives = { λ name fault. fault ≡ refusal name };

    fn from(fault: NameFault) -> InstructFault {
        match fault {
            NameFault::NoMemory => InstructFault::NoMemory,
            _ => InstructFault::Channel(fault),
        }
    }
}

/// A channel of this name, with this previous id where there is one.
fn make_sub(alloc: Global, name: &[u8], prev: Option<&[u8]>) -> Result<Sub, InstructFault>
    ensures { MatchResult result (IsSub (named name.now prev.entry)) (IsSubFault (named name.now prev.entry)) }
{
    let name = Name::new(alloc, name)?;
    let prev = match prev {
        Some(prev) => Some(ItemId::new(alloc, prev)?),
        None => None,
    };
    Ok(Sub { name, prev })
}

/// Adds a name, and says whether it is new.
fn add_name<'a>(seen: &mut BTreeSet<&'a [u8]>, name: &'a [u8]) -> Result<bool, AllocError>
    ensures new { IfOk result (λ is_new. is_new ≡ not (has_key name.now seen.old.keys)) }
    ensures keys { IfOk result (λ _. HasKeys seen.old.keys name.now seen.new.keys) }
{
    match seen.insert(name) {
        Ok(is_new) => Ok(is_new),
        Err(_) => Err(AllocError),
    }
}

/// Adds a channel at the end where it is new, and drops it where it isn't.
fn add_sub(subs: &mut Subs, sub: Sub, is_new: bool) -> Result<(), AllocError>
    ensures { IfOk result (λ _. subs.new ≡ (if is_new then subs.old ++ sub ∷ [] else subs.old)) }
{
    if !is_new {
        return Ok(());
    }
    match subs.push(sub) {
        Ok(()) => Ok(()),
        Err(_) => Err(AllocError),
    }
}

impl<'a> Channels<'a> {
    /// No channel. It takes no memory.
    pub fn new(alloc: Global) -> Channels<'a>
        ensures { result ≡ [] }
    {
        Channels {
            subs: List::new(alloc),
            seen: BTreeSet::new(alloc),
        }
    }

    /// The channels with one more behind them, unless its name came before. A name or a previous id that is refused is
    /// refused here too.
    pub fn with(
        self,
        alloc: Global,
        name: &'a [u8],
        prev: Option<&[u8]>,
    ) -> Result<Channels<'a>, InstructFault>
        ensures { MatchResult result (AreWith self.entry (named name.now prev.entry)) (IsSubFault (named name.now prev.entry)) }
    {
        let sub = make_sub(alloc, name, prev)?;
        let Channels { mut subs, mut seen } = self;
        let is_new = add_name(&mut seen, name)?;
        add_sub(&mut subs, sub, is_new)?;
        Ok(Channels { subs, seen })
    }

    /// The channels, in order.
    pub fn into_subs(self) -> Subs
        ensures { result ≡ self.entry }
    {
        self.subs
    }
}
