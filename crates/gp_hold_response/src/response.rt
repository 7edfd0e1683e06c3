ghost use Rattle.std.specs.Prelude.{◌≡◌, ◌&&◌, ◌∷◌, [], ℕ, List, Bool, None, Some, IfOk, OnOk, OnErr, is_none, not, option_map, true};
ghost use Rattle.gp_plain.specs.Fit.{fits_spec};
ghost use Rattle.gp_plain.specs.Follow.{is_heard};
ghost use Rattle.gp_plain.specs.Growth.{grown};
ghost use Rattle.gp_plain.specs.Holds.{after_take, begun_state, offered, settled, taken_of, timed, is_retry, recover_from};
ghost use Rattle.gp_plain.specs.Plans.{IsPlanned, IsPlanReady, grows, with_plan};
ghost use Rattle.gp_plain.specs.Tails.{ahead};
ghost use Rattle.gp_plain.specs.declared.event.HoldKind.TheVariants.{Response};
ghost use Rattle.gp_plain.specs.declared.item.Item.{Item};
ghost use Rattle.gp_plain.specs.declared.plan.Plan.TheVariants.{Grow};
ghost use Rattle.gp_hold_response.specs.States.{channels_of, moved_to, position_in, response_spec};

use gp_plain::{
    EndCause, HoldKind, Item, ItemId, Name, Names, Pending, Pieces, Plan, Run, Tail, Taken,
    copy_names,
};
use std::alloc::{AllocError, Global};
use std::marker::Model;

/// What an item is to do to a response hold.
pub type ResponsePlan = Plan;

/// What it listens to: the next item of several channels, or the one that goes on from a position on one.
#[derive(Drop)]
enum Heard {
    Any(Names),
    From { channel: Name, position: ItemId },
}

/// A response hold.
#[derive(Drop)]
pub struct ResponseHold {
    alloc: Global,
    heard: Heard,
    deadline: u64,
    pending: Pending,
    ended: Option<EndCause>,
    want: bool,
}

impl Model for ResponseHold {
    ghost use Rattle.gp_plain.specs.Plans.{Machine, machine};
    ghost use Rattle.gp_hold_response.specs.States.{response_state};

    ghost Value = { Machine };

    ghost view = { λ h. machine (response_state h.heard h.deadline h.pending.items h.ended h.want) h.pending.spare };
}

impl Heard {
    /// The position, where it has one.
    fn position(&self) -> Option<&ItemId>
        ensures { option_map (λ id. id.now) result ≡ position_in self.now }
    {
        match self {
            Heard::Any(_) => None,
            Heard::From { position, .. } => Some(position),
        }
    }

    /// Whether the item is on a channel of it.
    fn has_channel_of(&self, item: &Item) -> bool
        ensures { result ≡ is_heard (channels_of self.now) item.now }
    {
        match self {
            Heard::Any(channels) => item.is_heard(channels),
            Heard::From { channel, .. } => item.is_on(channel),
        }
    }

    /// Moves the position, where it has one, to an id, where there is one.
    fn move_to(&mut self, id: Option<ItemId>)
        ensures { self.new ≡ moved_to id self.old }
    {
        if let (Heard::From { position, .. }, Some(id)) = (self, id) {
            *position = id;
        }
    }
}

/// Whether a hold whose request isn't a repeated one wants to repeat it: it is live, and the window shows that there is
/// more.
fn wants<I: Tail>(
    again: bool,
    ended: Option<EndCause>,
    channel: &Name,
    position: &ItemId,
    window: &I,
) -> bool
    ensures { result ≡ (is_none ended && not again && ahead channel.now position.now (I.items window.now)) }
{
    ended.is_none() && !again && window.ahead(channel, position)
}

impl ResponseHold {
    /// A hold that answers with the next item of any of its channels.
    fn begin_any(alloc: Global, channels: &Names, deadline: u64) -> Result<ResponseHold, AllocError>
        ensures { (again : Bool) (window : List Item) → IfOk result (λ hold. hold.state ≡ begun_state (response_spec channels.now None deadline again) window) }
    {
        Ok(ResponseHold {
            alloc,
            heard: Heard::Any(copy_names(alloc, channels)?),
            deadline,
            pending: Pending::new(alloc),
            ended: None,
            want: false,
        })
    }

    /// A hold with a position on its channel, and with what follows it in the window.
    fn begin_from<I: Tail>(
        alloc: Global,
        channel: &Name,
        prev: &ItemId,
        deadline: u64,
        again: bool,
        window: &I,
    ) -> Result<ResponseHold, AllocError>
        ensures { IfOk result (λ hold. hold.state ≡ begun_state (response_spec (channel.now ∷ []) (Some prev.now) deadline again) (I.items window.now)) }
    {
        let mut pending = Pending::new(alloc);
        let mut run = Run::behind(&pending);
        run.follow(alloc, &pending, HoldKind::Response, channel, prev, window)?;
        run.reserve(&pending)?;
        let ended = run.ended();
        let position = run.position_from(prev)?;
        pending.append(run);
        let want = wants(again, ended, channel, &position, window);
        Ok(ResponseHold {
            alloc,
            heard: Heard::From {
                channel: channel.copy(alloc)?,
                position,
            },
            deadline,
            pending,
            ended,
            want,
        })
    }

    /// A hold on its channels. With a previous id it has one channel, and begins with what follows the id in the window.
    pub fn begin<I: Tail>(
        alloc: Global,
        channels: &Names,
        prev: Option<&ItemId>,
        deadline: u64,
        again: bool,
        window: &I,
    ) -> Result<ResponseHold, AllocError>
        requires { fits_spec (response_spec channels.now (option_map (λ id. id.now) prev) deadline again) ≡ true }
        ensures { IfOk result (λ hold. hold.state ≡ begun_state (response_spec channels.now (option_map (λ id. id.now) prev.entry) deadline again) (I.items window.now)) }
    {
        let Some(prev) = prev else {
            return ResponseHold::begin_any(alloc, channels, deadline);
        };
        let Some(channel) = channels.at(0) else {
            unreachable!()
        };
        ResponseHold::begin_from(alloc, channel, prev, deadline, again, window)
    }

    /// Whether it is live and listens to the channel of the item; no other item changes it.
    pub fn hears(&self, item: &Item) -> bool
        ensures { result ≡ (is_none self.now.state.ended && is_heard self.now.state.terms.channels item.now) }
    {
        self.ended.is_none() && self.heard.has_channel_of(item)
    }

    /// What an item of any of its channels does: one with a response part answers.
    fn offer_any(&self, channels: &Names, item: &Item) -> Result<ResponsePlan, AllocError>
        requires live { self.now.state.ended ≡ None }
        requires any { (self.now.state.terms.kind ≡ Response) × (self.now.state.terms.channels ≡ channels.now) × (self.now.state.position ≡ None) }
        ensures { (window : List Item) → IfOk result (IsPlanned self.now (offered item.now window self.now.state)) }
    {
        if item.response.is_none() || !item.is_heard(channels) {
            return Ok(Plan::Nothing);
        }
        let mut run = Run::behind(&self.pending);
        run.add(&self.pending, item.answer_piece(self.alloc)?)?;
        run.into_plan(&self.pending)
    }

    /// What an item does to a hold at a position of its channel.
    fn offer_from<I: Tail>(
        &self,
        channel: &Name,
        position: &ItemId,
        item: &Item,
        window: &I,
    ) -> Result<ResponsePlan, AllocError>
        requires live { self.now.state.ended ≡ None }
        requires from { (self.now.state.terms.kind ≡ Response) × (self.now.state.terms.channels ≡ channel.now ∷ []) × (self.now.state.position ≡ Some position.now) }
        ensures { IfOk result (IsPlanned self.now (offered item.now (I.items window.now) self.now.state)) }
    {
        if !item.is_on(channel) {
            return Ok(Plan::Nothing);
        }
        if item.leaves_gap(position) {
            return Ok(Plan::Gap);
        }
        if !item.comes_next(position) {
            return Ok(Plan::Nothing);
        }
        let kind = HoldKind::Response;
        let run = Run::of_item(self.alloc, &self.pending, kind, channel, item, window)?;
        run.into_plan(&self.pending)
    }

    /// What an item does: the window is that before the item. The hold stays as it is.
    pub fn offer<I: Tail>(&self, item: &Item, window: &I) -> Result<ResponsePlan, AllocError>
        requires { self.now.state.ended ≡ None }
        ensures { IfOk result (IsPlanned self.now (offered item.now (I.items window.now) self.now.state)) }
    {
        match &self.heard {
            Heard::Any(channels) => self.offer_any(channels, item),
            Heard::From { channel, position } => self.offer_from(channel, position, item, window),
        }
    }

    /// Adds a run of pieces.
    fn grow(&mut self, run: Run, position: Option<ItemId>)
        requires { IsPlanReady self.old (Grow run position) }
        ensures { self.new.state ≡ grown self.old.state run }
    {
        self.ended = run.ended();
        self.pending.append(run);
        self.heard.move_to(position);
    }

    /// Carries out a plan that was made of this hold in its present state, and says whether the log grew. It takes no
    /// memory.
    pub fn commit(&mut self, plan: ResponsePlan) -> bool
        requires { IsPlanReady self.old plan }
        ensures state { self.new.state ≡ with_plan self.old.state plan }
        ensures grew { result ≡ grows plan }
    {
        match plan {
            Plan::Nothing => false,
            Plan::Gap => {
                self.want = true;
                false
            }
            Plan::Grow { run, position } => {
                let grows = !run.is_empty();
                self.grow(run, position);
                grows
            }
        }
    }

    /// Clears the mark of a gap where the window behind the item shows nothing ahead. It takes no memory, and looks at
    /// the window only where there is a mark.
    pub fn settle<I: Tail>(&mut self, window: &I)
        ensures { self.new.state ≡ settled (I.items window.now) self.old.state }
    {
        self.want = match &self.heard {
            Heard::Any(_) => false,
            Heard::From { channel, position } => self.want && window.ahead(channel, position),
        };
    }

    /// Its end at a moment: a live hold has timed out at its deadline, and is to be repeated where it missed items.
    fn end_at(&self, now: u64) -> Option<EndCause>
        ensures { result ≡ (timed now self.now.state.terms.deadline self.now.state).ended }
    {
        if self.ended.is_some() {
            self.ended
        } else if self.deadline <= now {
            Some(EndCause::TimedOut)
        } else if self.want {
            Some(EndCause::Retry)
        } else {
            None
        }
    }

    /// The position from which its request is to be repeated, where it ends so.
    fn repeat_from(&self, ended: Option<EndCause>) -> Result<Option<ItemId>, AllocError>
        ensures { IfOk result (λ at. at ≡ recover_from (is_retry ended) self.now.state.position) }
    {
        match (ended, self.heard.position()) {
            (Some(EndCause::Retry), Some(position)) => Ok(Some(position.copy(self.alloc)?)),
            _ => Ok(None),
        }
    }

    /// Gives the next batch, and the end where nothing is left: where the deadline came without an answer the hold has
    /// timed out, and where it missed items its request is to be repeated from its position. An error changes nothing.
    pub fn take(&mut self, now: u64) -> Result<Taken, AllocError>
        ensures gives { IfOk result (λ taken. taken ≡ taken_of now self.old.state) }
        ensures leaves { OnOk result (self.new.state ≡ after_take now self.old.state) }
        ensures err { OnErr result (self.new ≡ self.old) }
    {
        let ended = self.end_at(now);
        let at = self.repeat_from(ended)?;
        let pieces = self.pending.take()?;
        self.ended = ended;
        if self.pending.is_empty() {
            Ok(Taken {
                pieces,
                recover: at,
                ended,
            })
        } else {
            Ok(Taken {
                pieces,
                recover: None,
                ended: None,
            })
        }
    }

    /// Its kind: a long poll.
    pub fn kind(&self) -> HoldKind
        ensures of { result ≡ self.now.state.terms.kind }
        ensures is { result ≡ Response }
    {
        let _ = &self.ended;
        HoldKind::Response
    }

    /// Why it ended, and none while it is live.
    pub fn cause(&self) -> Option<EndCause>
        ensures { result ≡ self.now.state.ended }
    {
        self.ended
    }

    /// A copy of the pieces that wait.
    pub fn pending(&self) -> Result<Pieces, AllocError>
        ensures { IfOk result (λ pieces. pieces ≡ self.now.state.pending) }
    {
        self.pending.copy()
    }

    /// The position, where it has one.
    pub fn position(&self) -> Option<&ItemId>
        ensures { option_map (λ id. id.now) result ≡ self.now.state.position }
    {
        self.heard.position()
    }
}
