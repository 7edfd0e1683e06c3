//! How a stream tells the hub what has come of the talk in which it asked for a page.
ghost use Rattle.std.specs.Prelude.{◌≡◌, true};
ghost use Rattle.gp_hub.specs.Own.{HasFailed, HasPaged, Keeps};
ghost use Rattle.gp_hub.specs.declared.own.FailedReply.{FailedReply};
ghost use Rattle.gp_hub.specs.declared.own.PageReply.{PageReply};
ghost use Rattle.gp_plain.specs.Fit.{is_short_page};
ghost use Rattle.gp_session.specs.Paging.{recovery_page};
ghost use Rattle.gp_session_recover.specs.Polls.{Brings, BringsOne};
ghost use Rattle.gp_session_recover.specs.declared.talk.Talk.TheVariants as talk;
ghost use Rattle.gp_session_recover.specs.Rows.{IsShortTalk};

use crate::recovering::Recovering;
use crate::talk::Talk;
use gp_session::{PageFailed, Paged, Seat, StreamPage};

/// What telling the hub came to.
#[derive(Clone, Copy, Drop)]
pub(crate) enum Brought {
    /// It answered, or nothing was to be told.
    Goes,
    /// Another call holds its turn.
    Busy,
    /// It has served as many events as it can.
    Worn,
    /// Memory is wanting.
    NoMemory,
}

impl Recovering {
    /// Tells the hub a page that was got, or that one can't be had.
    pub(crate) fn bring(&mut self, seat: &mut Seat<'_>) -> Brought
        requires keeps { Keeps seat.old.pass self.old.stream.hold.number }
        requires short { IsShortTalk self.old.talk }
        ensures { Brings self.old self.new seat.old seat.new result }
    {
        match self.take_talk() {
            Talk::Page(page) => self.bring_page(seat, page),
            Talk::Failed => self.bring_failure(seat),
            talk => {
                self.set_talk(talk);
                Brought::Goes
            }
        }
    }

    /// Tells it a page.
    fn bring_page(&mut self, seat: &mut Seat<'_>, page: StreamPage) -> Brought
        requires keeps { Keeps seat.old.pass self.old.stream.hold.number }
        requires short { is_short_page page.bytes ≡ true }
        requires none { self.old.talk ≡ talk.None }
        ensures { BringsOne self.old self.new seat.old seat.new (talk.Page page) result ((reply : PageReply) × HasPaged seat.old.pass seat.new.pass self.old.stream.hold.number (recovery_page page) reply) }
    {
        match seat.page(self.stream.number(), page) {
            Paged::Answered(_) => Brought::Goes,
            Paged::Busy(page) => {
                self.set_talk(Talk::Page(page));
                Brought::Busy
            }
            Paged::Worn => Brought::Worn,
            Paged::NoMemory => Brought::NoMemory,
        }
    }

    /// Tells it that the page can't be had.
    fn bring_failure(&mut self, seat: &mut Seat<'_>) -> Brought
        requires keeps { Keeps seat.old.pass self.old.stream.hold.number }
        requires none { self.old.talk ≡ talk.None }
        ensures { BringsOne self.old self.new seat.old seat.new talk.Failed result ((reply : FailedReply) × HasFailed seat.old.pass seat.new.pass self.old.stream.hold.number reply) }
    {
        match seat.page_failed(self.stream.number()) {
            PageFailed::Answered(_) => Brought::Goes,
            PageFailed::Busy => {
                self.set_talk(Talk::Failed);
                Brought::Busy
            }
            PageFailed::Worn => Brought::Worn,
        }
    }
}
