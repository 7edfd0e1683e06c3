//! The hub's end of a session.
ghost use Rattle.std.specs.Prelude.{◌≡◌, ◌+◌, true};
ghost use Rattle.gp_plain.specs.Fit.{fits};
ghost use Rattle.gp_plain.specs.declared.event.Event.TheVariants.{Publish};
ghost use Rattle.gp_plain.specs.declared.item.Item.{Item};
ghost use Rattle.gp_session.specs.Seats.{Finds, HandsBack, MovedSeat, PublishedTo, SaysPublished, SeatRow, new_seat};

use gp_hub::{Hub, HubFault, HubPass};
use gp_plain::{Event, Item, Reply};
use std::marker::Model;
use std::snapshot::Snapshot;

/// What a publication came to.
#[derive(Drop)]
pub enum Published {
    /// The item stands in the history.
    Stands,
    /// Another call holds the turn, and the item is handed back.
    Busy(Item),
    /// The hub has served as many events as it can.
    Worn,
    /// Memory is wanting.
    NoMemory,
}

/// A hub, and the session's pass of it.
#[derive(Drop)]
pub struct Seat<'h> {
    pub(crate) hub: &'h Hub,
    pub(crate) pass: HubPass,
    /// The pass as the session began with it, which contracts alone remember.
    start: Snapshot<HubPass>,
}

impl<'h> Model for Seat<'h> {
    ghost use Rattle.std.specs.Prelude.{◌≡◌};
    ghost use Rattle.gp_session.specs.Seats.{SeatView};

    ghost Value = { SeatView };

    ghost view = { λ s. record { start = s.start.value; pass = s.pass } };

    ghost invariant = { λ s. s.pass.turn ≡ s.hub.now };
}

/// The item of a publication.
fn item_of(event: Event) -> Item
    requires { (item : Item) × (event ≡ Publish item) }
    ensures { event ≡ Publish result }
{
    match event {
        Event::Publish { item } => item,
        _ => unreachable!(),
    }
}

/// What the answer to a publication says.
fn answered(answer: Result<Reply, HubFault>) -> Published
    requires { HandsBack answer }
    ensures { SaysPublished answer result }
{
    match answer {
        Ok(_) => Published::Stands,
        Err(HubFault::Busy(event, _)) => Published::Busy(item_of(event)),
        Err(HubFault::Worn(_)) => Published::Worn,
        Err(HubFault::NoMemory(_)) => Published::NoMemory,
    }
}

impl<'h> Seat<'h> {
    /// The end of a session that begins with this pass.
    pub fn new(hub: &'h Hub, pass: HubPass) -> Seat<'h>
        requires { pass.turn ≡ hub.now }
        ensures { result ≡ new_seat pass }
    {
        Seat {
            hub,
            start: Snapshot::of(&pass),
            pass,
        }
    }

    /// Publishes an item.
    pub fn publish(&mut self, item: Item) -> Published
        requires { fits (Publish item) ≡ true }
        ensures moved { MovedSeat self.old self.new }
        ensures row { SeatRow self.old → SeatRow self.new }
        ensures published { PublishedTo self.old self.new item result }
        ensures finds { Finds self.new result }
    {
        answered(self.hub.call(&mut self.pass, Event::Publish { item }))
    }

    /// The pass as it stands.
    pub fn into_pass(self) -> HubPass
        ensures { result ≡ self.entry.pass }
    {
        self.pass
    }
}
