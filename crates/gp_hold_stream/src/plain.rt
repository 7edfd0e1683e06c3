ghost use Rattle.std.specs.Prelude.{◌≡◌, ◌==◌, ◌&&◌, ℕ, List, Bool, None, is_none, length, not, option_map, IfOk, OnOk, OnErr, true};
ghost use Rattle.gp_plain.specs.Fit.{is_short_page};
ghost use Rattle.gp_plain.specs.Follow.{is_heard};
ghost use Rattle.gp_plain.specs.Holds.{after_take, begun_state, offered, settled_if, taken_of};
ghost use Rattle.gp_plain.specs.Growth.{grown};
ghost use Rattle.gp_plain.specs.declared.item.Item.{Item};
ghost use Rattle.gp_plain.specs.declared.event.HoldKind.TheVariants.{Plain as PlainKind};
ghost use Rattle.gp_hold_stream.specs.States.{plain_spec};
ghost use Rattle.gp_plain.specs.Plans.{IsRunPlanned, IsRunReady};

use gp_plain::{
    Body, EndCause, HoldKind, Item, ItemId, Names, Pending, Piece, Pieces, Run, Taken, copy_names,
};
use std::alloc::{AllocError, Global};
use std::marker::Model;

/// What an item is to do to a plain hold: a run of one piece, or of none.
pub type PlainPlan = Run;

/// A stream hold on channels, without a position.
#[derive(Drop)]
pub struct PlainHold {
    alloc: Global,
    channels: Names,
    pending: Pending,
    ended: Option<EndCause>,
}

impl Model for PlainHold {
    ghost use Rattle.gp_plain.specs.Plans.{Machine, machine};
    ghost use Rattle.gp_hold_stream.specs.States.{plain_state};

    ghost Value = { Machine };

    ghost view = { λ h. machine (plain_state h.channels h.pending.items h.ended) h.pending.spare };
}

impl PlainHold {
    /// A hold with its opening.
    pub fn begin(alloc: Global, channels: &Names, opening: &Body) -> Result<PlainHold, AllocError>
        requires { is_short_page opening.now ≡ true }
        ensures { (window : List Item) → IfOk result (λ hold. hold.state ≡ begun_state (plain_spec opening.now channels.now) window) }
    {
        let mut pending = Pending::new(alloc);
        let mut run = Run::behind(&pending);
        run.add(&pending, Piece::Opening(opening.copy(alloc)?))?;
        run.reserve(&pending)?;
        let ended = run.ended();
        pending.append(run);
        Ok(PlainHold {
            alloc,
            channels: copy_names(alloc, channels)?,
            pending,
            ended,
        })
    }

    /// Whether it is live and listens to the channel of the item; no other item changes it.
    pub fn hears(&self, item: &Item) -> bool
        ensures { result ≡ (is_none self.now.state.ended && is_heard self.now.state.terms.channels item.now) }
    {
        self.ended.is_none() && item.is_heard(&self.channels)
    }

    /// What an item does. The hold stays as it is.
    pub fn plan(&self, item: &Item) -> Result<PlainPlan, AllocError>
        requires { self.now.state.ended ≡ None }
        ensures { (window : List Item) → IfOk result (IsRunPlanned self.now (offered item.now window self.now.state)) }
    {
        let mut run = Run::behind(&self.pending);
        if item.stream.is_some() && item.is_heard(&self.channels) {
            run.add(&self.pending, item.stream_piece(self.alloc)?)?;
        }
        run.reserve(&self.pending)?;
        Ok(run)
    }

    /// Carries out a plan that was made of this hold in its present state, and says whether the log grew. It takes no
    /// memory. A plain hold has no mark to settle.
    pub fn commit(&mut self, plan: PlainPlan) -> bool
        requires { IsRunReady self.old plan }
        ensures state { self.new.state ≡ grown self.old.state plan }
        ensures settled { (went_on : Bool) (window : List Item) → settled_if went_on window self.new.state ≡ self.new.state }
        ensures grew { result ≡ not (length plan.pieces == 0) }
    {
        let grows = !plan.is_empty();
        self.ended = plan.ended();
        self.pending.append(plan);
        grows
    }

    /// Gives the next batch, and the end where nothing is left. An error changes nothing.
    pub fn take(&mut self) -> Result<Taken, AllocError>
        ensures gives { (now : ℕ) → IfOk result (λ taken. taken ≡ taken_of now self.old.state) }
        ensures leaves { (now : ℕ) → OnOk result (self.new.state ≡ after_take now self.old.state) }
        ensures err { OnErr result (self.new ≡ self.old) }
    {
        let pieces = self.pending.take()?;
        let ended = if self.pending.is_empty() {
            self.ended
        } else {
            None
        };
        Ok(Taken {
            pieces,
            recover: None,
            ended,
        })
    }

    /// Its kind: a stream without a position.
    pub fn kind(&self) -> HoldKind
        ensures of { result ≡ self.now.state.terms.kind }
        ensures is { result ≡ PlainKind }
    {
        let _ = &self.ended;
        HoldKind::Plain
    }

    /// Why it ended, and none while it is live.
    pub fn cause(&self) -> Option<EndCause>
        ensures { result ≡ self.now.state.ended }
    {
        self.ended
    }

    /// A copy of the pieces that wait.
    pub fn pending(&self) -> Result<Pieces, AllocError>
        ensures { IfOk result (λ pieces. pieces ≡ self.now.state.pending) }
    {
        self.pending.copy()
    }

    /// No position.
    pub fn position(&self) -> Option<&ItemId>
        ensures { option_map (λ id. id.now) result ≡ self.now.state.position }
    {
        let _ = &self.ended;
        None
    }
}
