ghost use Rattle.std.specs.Prelude.{◌≡◌, ◌==◌, ◌&&◌, ℕ, None, IfOk, OnOk, OnErr, cond, is_none, length, option_map, true};
ghost use Rattle.gp_plain.specs.Fit.{is_short_page};
ghost use Rattle.gp_plain.specs.Follow.{is_heard};
ghost use Rattle.gp_plain.specs.Growth.{IsWithin, grown, no_growth, with_pieces};
ghost use Rattle.gp_plain.specs.History.{page_of};
ghost use Rattle.gp_plain.specs.Holds.{after_failure, after_take, begins_at, begun_state, closed_behind, gapped, offered, page_run, settled, taken_of};
ghost use Rattle.gp_plain.specs.Tails.{ahead};
ghost use Rattle.gp_plain.specs.Plans.{IsPlanned, IsPlanReady, grows, with_plan};
ghost use Rattle.gp_plain.specs.declared.plan.Plan.TheVariants.{Grow};
ghost use Rattle.gp_plain.specs.declared.event.HoldKind.TheVariants.{Stream};
ghost use Rattle.gp_hold_stream.specs.Pages.{IsPagePlanned, IsPageReady, page_answer, with_marks, with_page_plan};
ghost use Rattle.gp_hold_stream.specs.States.{stream_spec};

use crate::page::{PagePlan, has_next, is_last, moved_from, page_piece, wants_behind};
use gp_plain::{
    Body, EndCause, HoldKind, Item, ItemId, Name, Pending, Piece, Pieces, Plan, Reply, Run, Tail,
    Taken, Then,
};
use std::alloc::{AllocError, Global};
use std::marker::Model;

/// The missed items in a row that end a hold without a link.
const MISSES: u32 = 64;

/// What an item is to do to a stream hold.
pub type StreamPlan = Plan;

/// A stream hold with a position on its channel.
#[derive(Drop)]
pub struct StreamHold {
    alloc: Global,
    channel: Name,
    link: bool,
    pending: Pending,
    position: ItemId,
    ended: Option<EndCause>,
    want: bool,
    asked: bool,
    late: bool,
    misses: u32,
}

impl Model for StreamHold {
    ghost use Rattle.std.specs.Prelude.{◌<◌, ◌≡◌, None};
    ghost use Rattle.gp_plain.specs.Plans.{Machine, machine};
    ghost use Rattle.gp_hold_stream.specs.States.{stream_state};

    ghost Value = { Machine };

    ghost view = { λ h. machine (stream_state h.channel h.link h.pending.items h.position h.ended h.want h.asked h.late h.misses) h.pending.spare };

    ghost invariant = { λ h. h.ended ≡ None → h.misses < 64 };
}

/// Whether a hold with a link wants to recover at once: it is live, and the window shows that there is more.
fn wants<I: Tail>(
    link: bool,
    ended: Option<EndCause>,
    channel: &Name,
    position: &ItemId,
    window: &I,
) -> bool
    ensures { result ≡ (is_none ended && link && ahead channel.now position.now (I.items window.now)) }
{
    ended.is_none() && link && window.ahead(channel, position)
}

/// The items in a row that were missed, once a run is added.
fn misses_after(misses: u32, run: &Run) -> u32
    ensures { result ≡ cond (length run.now.pieces == 0) misses 0 }
{
    if run.is_empty() { misses } else { 0 }
}

impl StreamHold {
    /// A hold with its opening, and with what follows its first position in the window.
    pub fn begin<I: Tail>(
        alloc: Global,
        channel: &Name,
        prev: &ItemId,
        link: bool,
        opening: &Body,
        window: &I,
    ) -> Result<StreamHold, AllocError>
        requires { is_short_page opening.now ≡ true }
        ensures { IfOk result (λ hold. hold.state ≡ begun_state (stream_spec opening.now channel.now prev.now link) (I.items window.now)) }
    {
        let mut pending = Pending::new(alloc);
        let mut run = Run::behind(&pending);
        run.add(&pending, Piece::Opening(opening.copy(alloc)?))?;
        run.follow(alloc, &pending, HoldKind::Stream, channel, prev, window)?;
        run.reserve(&pending)?;
        let ended = run.ended();
        let position = run.position_from(prev)?;
        pending.append(run);
        let want = wants(link, ended, channel, &position, window);
        Ok(StreamHold {
            alloc,
            channel: channel.copy(alloc)?,
            link,
            pending,
            position,
            ended,
            want,
            asked: false,
            late: false,
            misses: 0,
        })
    }

    /// Whether it is live and listens to the channel of the item; no other item changes it.
    pub fn hears(&self, item: &Item) -> bool
        ensures { result ≡ (is_none self.now.state.ended && is_heard self.now.state.terms.channels item.now) }
    {
        self.ended.is_none() && item.is_on(&self.channel)
    }

    /// What an item does: the window is that before the item. The hold stays as it is.
    pub fn plan<I: Tail>(&self, item: &Item, window: &I) -> Result<StreamPlan, AllocError>
        requires { self.now.state.ended ≡ None }
        ensures { IfOk result (IsPlanned self.now (offered item.now (I.items window.now) self.now.state)) }
    {
        if !item.is_on(&self.channel) {
            return Ok(Plan::Nothing);
        }
        if item.leaves_gap(&self.position) {
            return Ok(Plan::Gap);
        }
        if !item.comes_next(&self.position) {
            return Ok(Plan::Nothing);
        }
        let run = Run::of_item(
            self.alloc,
            &self.pending,
            HoldKind::Stream,
            &self.channel,
            item,
            window,
        )?;
        run.into_plan(&self.pending)
    }

    /// Notes that items were missed: with a link the hold wants to recover, and without one 64 in a row end it.
    fn miss(&mut self)
        requires { self.old.state.ended ≡ None }
        ensures { self.new.state ≡ gapped self.old.state }
    {
        if !self.link {
            self.misses += 1;
            if self.misses >= MISSES {
                self.ended = Some(EndCause::Gap);
            }
        } else if self.asked {
            self.late = true;
        } else {
            self.want = true;
        }
    }

    /// Adds a run of pieces.
    fn grow(&mut self, run: Run, position: Option<ItemId>)
        requires { IsPlanReady self.old (Grow run position) }
        ensures { self.new.state ≡ grown self.old.state run }
    {
        self.misses = misses_after(self.misses, &run);
        self.ended = run.ended();
        self.pending.append(run);
        if let Some(position) = position {
            self.position = position;
        }
    }

    /// Carries out a plan that was made of this hold in its present state, and says whether the log grew. It takes no
    /// memory.
    pub fn commit(&mut self, plan: StreamPlan) -> bool
        requires { IsPlanReady self.old plan }
        ensures state { self.new.state ≡ with_plan self.old.state plan }
        ensures grew { result ≡ grows plan }
    {
        match plan {
            Plan::Nothing => false,
            Plan::Gap => {
                self.miss();
                false
            }
            Plan::Grow { run, position } => {
                let grows = !run.is_empty();
                self.grow(run, position);
                grows
            }
        }
    }

    /// The pieces of a page that begins at the position: itself, and then, unless the stream ends with it, those of the
    /// window that follow it.
    fn page_run<I: Tail>(
        &self,
        from: &ItemId,
        to: &ItemId,
        bytes: &Body,
        then: Then,
        window: &I,
    ) -> Result<Run, AllocError>
        ensures { IfOk result (λ run. (run ≡ with_pieces self.now.state.pending no_growth (page_run self.now.state.terms (page_of from.now to.now bytes.now then) (I.items window.now))) × IsWithin self.now.state.pending run.pieces) }
    {
        let mut run = Run::behind(&self.pending);
        run.add(&self.pending, page_piece(self.alloc, from, to, bytes)?)?;
        if is_last(then) {
            return Ok(run);
        }
        let kind = HoldKind::Stream;
        run.follow(self.alloc, &self.pending, kind, &self.channel, to, window)?;
        Ok(run)
    }

    /// Whether a page begins at the position.
    fn begins(&self, from: &ItemId) -> bool
        ensures { result ≡ begins_at self.now.state.position from.now }
    {
        from.is(&self.position)
    }

    /// What a page does, by the window. The hold stays as it is.
    ///
    /// A page that begins at the position is added, with the items that follow it, and a page that begins elsewhere is
    /// stale. Behind either the hold asks for nothing any more, and wants to ask where there is a next page, or where the
    /// window shows that it missed more. The bytes are copied once.
    pub fn page_plan<I: Tail>(
        &self,
        from: &ItemId,
        to: &ItemId,
        bytes: &Body,
        then: Then,
        window: &I,
    ) -> Result<PagePlan, AllocError>
        requires { self.now.state.ended ≡ None }
        ensures { IfOk result (IsPagePlanned self.now (I.items window.now) (page_of from.now to.now bytes.now then)) }
    {
        let (link, channel, at) = (self.link, &self.channel, &self.position);
        if !self.begins(from) {
            return Ok(PagePlan::Stale {
                from: from.copy(self.alloc)?,
                position: at.copy(self.alloc)?,
                want: wants_behind(link, false, true, channel, at, window),
            });
        }
        let mut run = self.page_run(from, to, bytes, then, window)?;
        run.reserve(&self.pending)?;
        let position = run.position()?;
        let behind = moved_from(&position, at);
        let want = wants_behind(link, has_next(then), self.late, channel, behind, window);
        let last = is_last(then);
        Ok(PagePlan::Page {
            run,
            position,
            last,
            want,
        })
    }

    /// Closes a hold that lives behind the last page.
    fn close_behind(&mut self, last: bool)
        ensures { self.new.state ≡ closed_behind last self.old.state }
    {
        if last && self.ended.is_none() {
            self.ended = Some(EndCause::Closed);
        }
    }

    /// Sets the marks anew: it asks for nothing any more, and nothing came late.
    fn mark(&mut self, want: bool)
        ensures { self.new.state ≡ with_marks want self.old.state }
    {
        self.want = want;
        self.asked = false;
        self.late = false;
    }

    /// Carries out a plan for a page that was made of this hold in its present state, and answers the page. It takes no
    /// memory.
    pub fn commit_page(&mut self, plan: PagePlan) -> Reply
        requires { IsPageReady self.old plan }
        ensures state { self.new.state ≡ with_page_plan self.old.state plan }
        ensures reply { result ≡ page_answer plan }
    {
        match plan {
            PagePlan::Page {
                run,
                position,
                last,
                want,
            } => {
                self.grow(run, position);
                self.close_behind(last);
                self.mark(want);
                Reply::Paged
            }
            PagePlan::Stale {
                from,
                position,
                want,
            } => {
                self.mark(want);
                Reply::Stale { from, position }
            }
        }
    }

    /// Ends it `Unrecovered`: a page that it asked for can't be had. It takes no memory.
    pub fn fail(&mut self)
        requires { self.old.state.ended ≡ None }
        ensures { self.new.state ≡ after_failure self.old.state }
    {
        self.ended = Some(EndCause::Unrecovered);
    }

    /// Clears the marks of a gap where the window behind the item shows nothing ahead. It takes no memory, and looks at
    /// the window only where there is a mark.
    pub fn settle<I: Tail>(&mut self, window: &I)
        ensures { self.new.state ≡ settled (I.items window.now) self.old.state }
    {
        if (self.want || self.late) && !window.ahead(&self.channel, &self.position) {
            self.want = false;
            self.late = false;
        }
    }

    /// Gives the next batch, the position where missing items are to be recovered, and the end where nothing is left.
    /// An error changes nothing.
    pub fn take(&mut self) -> Result<Taken, AllocError>
        ensures gives { (now : ℕ) → IfOk result (λ taken. taken ≡ taken_of now self.old.state) }
        ensures leaves { (now : ℕ) → OnOk result (self.new.state ≡ after_take now self.old.state) }
        ensures err { OnErr result (self.new ≡ self.old) }
    {
        let asks = self.ended.is_none() && self.link && self.want && !self.asked;
        let recover = if asks {
            Some(self.position.copy(self.alloc)?)
        } else {
            None
        };
        let pieces = self.pending.take()?;
        if asks {
            self.want = false;
            self.asked = true;
            self.late = false;
        }
        let ended = if self.pending.is_empty() {
            self.ended
        } else {
            None
        };
        Ok(Taken {
            pieces,
            recover,
            ended,
        })
    }

    /// Its kind: a reliable stream.
    pub fn kind(&self) -> HoldKind
        ensures of { result ≡ self.now.state.terms.kind }
        ensures is { result ≡ Stream }
    {
        let _ = &self.ended;
        HoldKind::Stream
    }

    /// Why it ended, and none while it is live.
    pub fn cause(&self) -> Option<EndCause>
        ensures { result ≡ self.now.state.ended }
    {
        self.ended
    }

    /// A copy of the pieces that wait.
    pub fn pending(&self) -> Result<Pieces, AllocError>
        ensures { IfOk result (λ pieces. pieces ≡ self.now.state.pending) }
    {
        self.pending.copy()
    }

    /// The position.
    pub fn position(&self) -> Option<&ItemId>
        ensures { option_map (λ id. id.now) result ≡ self.now.state.position }
    {
        Some(&self.position)
    }
}
