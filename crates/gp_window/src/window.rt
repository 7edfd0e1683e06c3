ghost use Rattle.std.specs.Prelude.{◌≡◌, [], length, true, false, IfOk, IfErr, IsOk, OnOk, OnErr, option_map, slice_get};
ghost use Rattle.std.specs.List.{list_any};
ghost use Rattle.gp_plain.specs.Follow.{is_repeat};
ghost use Rattle.gp_window.specs.Items.{IsPushed, last};
ghost use Rattle.gp_window.specs.Searches.{has_id};

use crate::ring::Ring;
use gp_plain::{Item, ItemId, Name, Places, Tail};
use std::alloc::{AllocError, Global};
use std::marker::Model;

/// What a push did.
#[derive(Clone, Copy, Drop, Debug, PartialEq)]
pub enum Pushed {
    /// The item is the newest one.
    Kept,
    /// An item of its channel has its id already, so nothing changed.
    Repeat,
}

/// The last items, at most 4,096.
#[derive(Drop)]
pub struct Window {
    alloc: Global,
    items: Option<Ring>,
}

impl Model for Window {
    ghost use Rattle.gp_window.specs.Items.{Last, last_of};

    ghost Value = { Last };

    ghost view = { λ w. last_of w.items };
}

impl Window {
    /// No item. It takes no memory.
    pub fn new(alloc: Global) -> Window
        ensures { result ≡ last [] false }
    {
        Window { alloc, items: None }
    }

    /// Takes the memory for all items, unless it was taken. The items stay as they are.
    pub fn reserve(&mut self) -> Result<(), AllocError>
        ensures items { self.new.items ≡ self.old.items }
        ensures ok { OnOk result (self.new.reserved ≡ true) }
        ensures err { OnErr result (self.new ≡ self.old) }
    {
        if self.items.is_none() {
            self.items = Some(Ring::new(self.alloc)?);
        }
        Ok(())
    }

    /// How many items it has.
    pub fn len(&self) -> usize
        ensures { result ≡ length self.now.items }
    {
        match &self.items {
            Some(items) => items.len(),
            None => 0,
        }
    }

    /// The item at a place, counted from 0.
    pub fn get(&self, place: usize) -> Option<&Item>
        ensures { option_map (λ x. x.now) result ≡ slice_get self.now.items place }
    {
        match &self.items {
            Some(items) => items.get(place),
            None => None,
        }
    }

    /// Whether an item of the channel has the id.
    fn has(&self, channel: &Name, id: &ItemId) -> bool
        ensures { result ≡ list_any (has_id channel.now id.now) self.now.items }
    {
        match &self.items {
            Some(items) => items.has(channel, id),
            None => false,
        }
    }

    /// Whether the item has an id that an item of its channel in the window has. It takes no memory.
    pub fn repeats(&self, item: &Item) -> bool
        ensures { result ≡ is_repeat self.now.items item.now }
    {
        match &item.id {
            Some(id) => self.has(&item.channel, id),
            None => false,
        }
    }

    /// Puts an item last, and lets the first go where there are 4,096; a repeat changes nothing. It takes memory only
    /// where `reserve` never did. An error hands the item back and changes nothing.
    pub fn push(&mut self, item: Item) -> Result<Pushed, (Item, AllocError)>
        ensures ok { IfOk result (λ pushed. IsPushed self.old item pushed self.new) }
        ensures err { IfErr result (λ e. (e.0 ≡ item) × (self.new ≡ self.old)) }
        ensures reserved { self.old.reserved ≡ true → IsOk result }
    {
        if self.repeats(&item) {
            return Ok(Pushed::Repeat);
        }
        match &mut self.items {
            Some(items) => {
                items.push(item);
                Ok(Pushed::Kept)
            }
            None => match Ring::new(self.alloc) {
                Ok(mut items) => {
                    items.push(item);
                    self.items = Some(items);
                    Ok(Pushed::Kept)
                }
                Err(refused) => Err((item, refused)),
            },
        }
    }
}

impl Tail for Window {
    ghost items = { λ w. w.items };

    fn next_after(&self, channel: &Name, id: &ItemId, used: &Places) -> Option<usize> {
        match &self.items {
            Some(items) => items.next_after(channel, id, used),
            None => None,
        }
    }

    fn item(&self, place: usize) -> Option<&Item> {
        self.get(place)
    }

    fn ahead(&self, channel: &Name, id: &ItemId) -> bool {
        match &self.items {
            Some(items) => items.ahead(channel, id),
            None => false,
        }
    }
}
