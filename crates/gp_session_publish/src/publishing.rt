//! A session that publishes the items of its request.
ghost use Rattle.std.specs.Prelude.{None, [], ◌≡◌, ◌+◌, ◌<◌, ◌^◌, ◌++◌, All, length, option_to_list};
ghost use Rattle.gp_session_publish.specs.Trace.{Fits, Told};
ghost use Rattle.gp_session_publish.specs.Moves.{Leads, PublishesAll, PublishesLeft};
ghost use Rattle.gp_session_publish.specs.declared.stage.Stage.TheVariants as stage;

use crate::answering::Answering;
use crate::live::Live;
use crate::stage::{Ended, Next, Stage};
use gp_answer::published_head;
use gp_hub::{SessionEnd, Why};
use gp_intake::Whole;
use gp_outside::Link;
use gp_plain::{Body, Item, Items};
use gp_session::{Published, Seat};
use std::marker::Model;
use std::snapshot::Snapshot;

/// The items that are left: the one that was handed back, where there is one, and those behind it.
#[derive(Drop)]
pub(crate) struct ItemsLeft {
    next: Option<Item>,
    items: Items,
}

impl Model for ItemsLeft {
    ghost use Rattle.std.specs.Prelude.{List, ◌++◌, option_to_list};
    ghost use Rattle.gp_plain.specs.declared.item.Item.{Item};

    ghost Value = { List Item };

    ghost view = { λ l. option_to_list l.next ++ l.items };
}

/// Expects the turn, to publish the items that are left. The request is remembered by contracts alone.
#[derive(Drop)]
pub(crate) struct Publishing {
    pub(crate) left: ItemsLeft,
    pub(crate) published: u32,
    pub(crate) request: Snapshot<Whole>,
}

/// How far publishing came.
#[derive(Clone, Copy, Drop)]
pub(crate) enum Reached {
    /// All items stand.
    All,
    /// Another call holds the turn.
    Busy,
    /// The hub has served as many events as it can.
    Worn,
    /// Memory is wanting.
    NoMemory,
}

/// What publishing came to.
#[derive(Drop)]
pub(crate) enum AllPublished {
    /// All items stand.
    Done,
    /// Another call holds the turn, and this item is the next.
    Busy(Item),
    /// The hub has served as many events as it can.
    Worn,
    /// Memory is wanting.
    NoMemory,
}

/// The next item: the first one, where there is one, or the one that stands first.
fn take_next(first: Option<Item>, items: &mut Items) -> Option<Item>
    ensures left { option_to_list result ++ items.new ≡ option_to_list first ++ items.old }
    ensures none { result ≡ None → items.new ≡ [] }
{
    match first {
        Some(item) => Some(item),
        None => items.take_first(),
    }
}

/// Publishes items one after another, and counts those that stand.
fn publish_all(
    seat: &mut Seat<'_>,
    first: Option<Item>,
    items: &mut Items,
    published: &mut u32,
) -> AllPublished
    requires fit { All Fits (option_to_list first ++ items.old) }
    requires few { published.old + length (option_to_list first ++ items.old) < 2 ^ 32 }
    ensures { PublishesAll seat.old seat.new (option_to_list first ++ items.old) items.new published.old published.new result }
{
    let mut next = take_next(first, items);
    while let Some(item) = next {
        match seat.publish(item) {
            Published::Stands => {
                *published += 1;
                next = take_next(None, items);
            }
            Published::Busy(item) => return AllPublished::Busy(item),
            Published::Worn => return AllPublished::Worn,
            Published::NoMemory => return AllPublished::NoMemory,
        }
    }
    AllPublished::Done
}

impl ItemsLeft {
    /// All items of a request.
    pub(crate) fn new(items: Items) -> ItemsLeft
        ensures { result ≡ items }
    {
        ItemsLeft { next: None, items }
    }

    /// Publishes those that are left.
    fn publish(&mut self, seat: &mut Seat<'_>, published: &mut u32) -> Reached
        requires fit { All Fits self.old }
        requires few { published.old + length self.old < 2 ^ 32 }
        ensures { PublishesLeft seat.old seat.new self.old self.new published.old published.new result }
    {
        match publish_all(seat, self.next.take(), &mut self.items, published) {
            AllPublished::Done => Reached::All,
            AllPublished::Busy(item) => {
                self.next = Some(item);
                Reached::Busy
            }
            AllPublished::Worn => Reached::Worn,
            AllPublished::NoMemory => Reached::NoMemory,
        }
    }
}

impl Publishing {
    /// Publishes the items that are left, and answers once all stand.
    pub(crate) fn advance<'h, L: Link>(mut self, live: &mut Live<'h, L>) -> Next
        requires told { Told live.old (stage.Publishing self) }
        ensures leads { Leads live.old live.new 2 result }
    {
        match self.left.publish(&mut live.seat, &mut self.published) {
            Reached::All => self.answer(live),
            Reached::Busy => Next::Wait(Stage::Publishing(self)),
            Reached::Worn => Next::End(self.ended(SessionEnd::Worn)),
            Reached::NoMemory => Next::End(self.ended(SessionEnd::NoMemory)),
        }
    }

    /// Answers, where no item is left.
    fn answer<'h, L: Link>(self, live: &mut Live<'h, L>) -> Next
        requires told { Told live.old (stage.Publishing self) }
        requires none { self.left ≡ [] }
        ensures leads { Leads live.old live.new 2 result }
    {
        let body = Body::empty(live.alloc);
        match live.wire.put(published_head(), body, b"Published\n") {
            Ok(()) => Next::Go(Stage::Answering(Answering {
                published: self.published,
                request: self.request,
            })),
            Err(_) => Next::End(self.ended(SessionEnd::NoMemory)),
        }
    }

    /// An end with the items that stand.
    fn ended(&self, end: SessionEnd) -> Ended
        ensures { result ≡ record { end = end; why = Why.Nothing; published = self.now.published } }
    {
        Ended {
            end,
            why: Why::Nothing,
            published: self.published,
        }
    }
}
