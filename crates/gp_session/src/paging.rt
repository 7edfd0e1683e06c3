//! The pages of a recovery, for a stream of a session's own. Each call makes one attempt to take the turn.
ghost use Rattle.std.specs.Prelude.{◌≡◌, ℕ, true, IfErr};
ghost use Rattle.gp_plain.specs.Fit.{is_short_page};
ghost use Rattle.gp_hub.specs.Own.{Keeps};
ghost use Rattle.gp_session.specs.Seats.{MovedSeat, SeatRow};
ghost use Rattle.gp_session.specs.Holding.{WantsNone};
ghost use Rattle.gp_session.specs.Paging.{FailsTo, HandsBackPage, PagesTo, SaysFailed, SaysUnfailed, page_event, paged_by, unpaged_by};
ghost use Rattle.gp_session.specs.declared.paging.StreamPage.{StreamPage as APage};

use crate::seat::Seat;
use gp_hub::{FailedReply, HubFault, PageReply};
use gp_plain::{Body, Event, ItemId, Then};

/// A page of a recovery: the contents from one id to another, and what follows them.
#[derive(Drop)]
pub struct StreamPage {
    /// The id behind which it begins.
    pub from: ItemId,
    /// The id of its last item.
    pub to: ItemId,
    /// Its content, at most 262,144 bytes.
    pub bytes: Body,
    /// What follows it.
    pub then: Then,
}

/// What a page came to.
#[derive(Drop)]
pub enum Paged {
    /// The hub answered this.
    Answered(PageReply),
    /// Another call holds the turn, and the page is handed back.
    Busy(StreamPage),
    /// The hub has served as many events as it can.
    Worn,
    /// Memory is wanting.
    NoMemory,
}

/// What the news that a page can't be had came to. It takes no memory.
#[derive(Clone, Copy, Drop, Debug, PartialEq)]
pub enum PageFailed {
    /// The hub answered this.
    Answered(FailedReply),
    /// Another call holds the turn.
    Busy,
    /// The hub has served as many events as it can.
    Worn,
}

/// The page of an event.
fn page_of(event: Event) -> StreamPage
    requires { (hold : ℕ) × (page : APage) × (event ≡ page_event hold page) }
    ensures { (hold : ℕ) (page : APage) → event ≡ page_event hold page → result ≡ page }
{
    match event {
        Event::Page {
            from,
            to,
            bytes,
            then,
            ..
        } => StreamPage {
            from,
            to,
            bytes,
            then,
        },
        _ => unreachable!(),
    }
}

/// What a fault says of a page.
fn page_fault(fault: HubFault) -> Paged
    requires { (hold : ℕ) × (page : APage) × HandsBackPage hold page fault }
    ensures { (hold : ℕ) (page : APage) → HandsBackPage hold page fault → result ≡ unpaged_by page fault }
{
    match fault {
        HubFault::Busy(event, _) => Paged::Busy(page_of(event)),
        HubFault::Worn(_) => Paged::Worn,
        HubFault::NoMemory(_) => Paged::NoMemory,
    }
}

/// What the hub's answer to a page says.
fn page_answer(answer: Result<PageReply, HubFault>) -> Paged
    requires { (hold : ℕ) × (page : APage) × IfErr answer (HandsBackPage hold page) }
    ensures { (hold : ℕ) (page : APage) → IfErr answer (HandsBackPage hold page) → result ≡ paged_by page answer }
{
    match answer {
        Ok(reply) => Paged::Answered(reply),
        Err(fault) => page_fault(fault),
    }
}

/// What a fault says of the news that a page can't be had.
fn failed_fault(fault: HubFault) -> PageFailed
    requires { WantsNone fault }
    ensures { SaysUnfailed fault result }
{
    match fault {
        HubFault::Busy(_, _) => PageFailed::Busy,
        HubFault::Worn(_) => PageFailed::Worn,
        HubFault::NoMemory(_) => unreachable!(),
    }
}

/// What the hub's answer to it says.
fn failed_answer(answer: Result<FailedReply, HubFault>) -> PageFailed
    requires { IfErr answer WantsNone }
    ensures { SaysFailed answer result }
{
    match answer {
        Ok(reply) => PageFailed::Answered(reply),
        Err(fault) => failed_fault(fault),
    }
}

impl<'h> Seat<'h> {
    /// Brings a hold of the session's, which it keeps, a page of its recovery.
    pub fn page(&mut self, hold: u64, page: StreamPage) -> Paged
        requires keeps { Keeps self.old.pass hold }
        requires short { is_short_page page.bytes ≡ true }
        ensures moved { MovedSeat self.old self.new }
        ensures row { SeatRow self.old → SeatRow self.new }
        ensures paged { PagesTo self.old self.new hold page result }
    {
        let StreamPage {
            from,
            to,
            bytes,
            then,
        } = page;
        page_answer(self.hub.page(&mut self.pass, hold, from, to, bytes, then))
    }

    /// Tells a hold of the session's, which it keeps, that a page of its recovery can't be had. It takes no memory.
    pub fn page_failed(&mut self, hold: u64) -> PageFailed
        requires { Keeps self.old.pass hold }
        ensures moved { MovedSeat self.old self.new }
        ensures row { SeatRow self.old → SeatRow self.new }
        ensures failed { FailsTo self.old self.new hold result }
    {
        failed_answer(self.hub.page_failed(&mut self.pass, hold))
    }
}
