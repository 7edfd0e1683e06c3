//! The items of a window that follow an id, as pieces.
ghost use Rattle.std.specs.Prelude.{◌≡◌, OnOk};
ghost use Rattle.gp_plain.specs.Growth.{IsWithin, with_pieces};
ghost use Rattle.gp_plain.specs.Holds.{followers};

use crate::event::HoldKind;
use crate::name::{ItemId, Name};
use crate::pending::Pending;
use crate::run::Run;
use crate::tail::{Places, Tail};
use std::alloc::{AllocError, Global};

impl Run {
    /// Adds the pieces of the items of the window that follow an id on the channel, by the kind of the hold: each is
    /// taken once. It looks through the window once for each.
    pub fn follow<I: Tail>(
        &mut self,
        alloc: Global,
        to: &Pending,
        kind: HoldKind,
        channel: &Name,
        from: &ItemId,
        window: &I,
    ) -> Result<(), AllocError>
        requires { IsWithin to.now.items self.old.pieces }
        ensures { OnOk result ((self.new ≡ with_pieces to.now.items self.old (followers kind channel.now from.now (I.items window.now))) × IsWithin to.now.items self.new.pieces) }
    {
        let mut used = Places::new(alloc);
        let mut at = from;
        while self.ended().is_none() {
            let Some(place) = window.next_after(channel, at, &used) else {
                break;
            };
            let Some(item) = window.item(place) else {
                unreachable!()
            };
            self.add(to, item.piece_for(alloc, kind)?)?;
            used.add(place)?;
            let Some(id) = &item.id else { unreachable!() };
            at = id;
        }
        Ok(())
    }
}
