ghost use Rattle.std.specs.Prelude.{◌≡◌, ◌∷◌, [], cond, IfOk};
ghost use Rattle.std.specs.Option.{option_map_or};
ghost use Rattle.gp_plain.specs.Growth.{IsWithin, no_growth, with_pieces};
ghost use Rattle.gp_plain.specs.Holds.{ends_by, followers, piece_by};
ghost use Rattle.gp_plain.specs.Plans.{IsMadeOf};

use crate::event::HoldKind;
use crate::item::Item;
use crate::name::{ItemId, Name};
use crate::pending::Pending;
use crate::run::Run;
use crate::tail::Tail;
use std::alloc::{AllocError, Global};

/// What an item is to do to a hold, made with all memory before the hold is changed.
#[derive(Drop)]
pub enum Plan {
    /// The hold stays as it is.
    Nothing,
    /// The item shows that others were missed.
    Gap,
    /// The pieces are added, and the position moves to the last id that they have.
    Grow { run: Run, position: Option<ItemId> },
}

impl Run {
    /// The plan to add these pieces behind what waits.
    pub fn into_plan(mut self, to: &Pending) -> Result<Plan, AllocError>
        requires { IsWithin to.now.items self.pieces }
        ensures { IfOk result (IsMadeOf to.now self) }
    {
        self.reserve(to)?;
        let position = self.position()?;
        Ok(Plan::Grow {
            run: self,
            position,
        })
    }

    /// An item that comes next, and those of the window that follow it.
    pub fn of_item<I: Tail>(
        alloc: Global,
        to: &Pending,
        kind: HoldKind,
        channel: &Name,
        item: &Item,
        window: &I,
    ) -> Result<Run, AllocError>
        ensures { IfOk result (λ run. (run ≡ with_pieces to.now.items no_growth (piece_by kind item.now ∷ cond (ends_by kind item.now) [] (option_map_or (λ id. followers kind channel.now id (I.items window.now)) item.now.id []))) × IsWithin to.now.items run.pieces) }
    {
        let mut run = Run::behind(to);
        run.add(to, item.piece_for(alloc, kind)?)?;
        if item.ends(kind) {
            return Ok(run);
        }
        if let Some(id) = &item.id {
            run.follow(alloc, to, kind, channel, id, window)?;
        }
        Ok(run)
    }
}
