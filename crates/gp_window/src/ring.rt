//! The items of a window, with marks that tell soon whether something is ahead of an id.
ghost use Rattle.std.specs.Prelude.{◌≡◌, ◌<◌, ◌++◌, ◌∷◌, ℕ, [], IfOk, MatchOption, drop, length, option_map, slice_get, true};
ghost use Rattle.std.specs.List.{list_any};
ghost use Rattle.gp_plain.specs.Follow.{last_items};
ghost use Rattle.gp_plain.specs.Tails.{IsNextAfter, IsNoNextAfter, ahead, is_tip_of};
ghost use Rattle.gp_window.specs.Buckets.{channel_bucket};
ghost use Rattle.gp_window.specs.Searches.{has_id, is_at};
ghost use Rattle.gp_window.specs.Tips.{IsMarked, IsMarkedOf, goes_from, is_open};

use crate::bucket::{NO_BUCKET, channel_bucket};
use crate::indexed::Indexed;
use crate::marks::Marks;
use crate::sizes::ITEMS;
use gp_plain::{Item, ItemId, Name, Places};
use std::alloc::{AllocError, Global};
use std::marker::Model;

/// The last items, at most 4,096. A chained item from which nothing goes on is marked by the bucket of its channel; what is
/// ahead of an id on a channel is a marked item.
#[derive(Drop)]
pub struct Ring {
    items: Indexed,
    tips: Marks,
}

impl Model for Ring {
    ghost use Rattle.std.specs.Prelude.{List};
    ghost use Rattle.gp_plain.specs.declared.item.Item.{Item};
    ghost use Rattle.gp_window.specs.Tips.{IsMarked};

    ghost Value = { List Item };

    ghost view = { λ r. r.items };

    ghost invariant = { λ r. IsMarked r.items r.items r.tips };
}

/// Whether the item has both ids, and nothing goes on from its id.
fn is_open(items: &Indexed, item: &Item) -> bool
    ensures { result ≡ is_open items.now item.now }
{
    match &item.id {
        Some(id) => item.prev.is_some() && !items.goes_on(&item.channel, id),
        None => false,
    }
}

/// The id that a chained item goes on from.
fn goes_from(item: &Item) -> Option<&ItemId>
    ensures { option_map (λ id. id.now) result ≡ goes_from item.now }
{
    if item.id.is_some() {
        item.prev.as_ref()
    } else {
        None
    }
}

/// The mark of an item that comes behind these.
fn mark_of(items: &Indexed, item: &Item) -> usize
    ensures few { result < 16385 }
    ensures open { is_open (items.now ++ item.now ∷ []) item.now ≡ true → result ≡ channel_bucket item.now.channel }
{
    if is_open(items, item) {
        channel_bucket(&item.channel)
    } else {
        NO_BUCKET
    }
}

/// Clears the mark of the item that one which comes goes on from.
fn close(items: &Indexed, tips: &mut Marks, item: &Item)
    requires { IsMarked items.now items.now tips.old }
    ensures { IsMarked (items.now ++ item.now ∷ []) items.now tips.new }
{
    if let Some(prev) = goes_from(item) {
        if let Some(place) = items.find(&item.channel, prev) {
            tips.set(place, NO_BUCKET);
        }
    }
}

/// Marks the items that one which went had gone on from, where no other goes on from them.
fn reopen(items: &Indexed, tips: &mut Marks, gone: &Item)
    requires { IsMarked (gone.now ∷ items.now) items.now tips.old }
    ensures { IsMarked items.now items.now tips.new }
{
    if let Some(prev) = goes_from(gone) {
        if !items.goes_on(&gone.channel, prev) {
            items.mark(tips, &gone.channel, prev);
        }
    }
}

/// Whether the newest item of the channel that has the id has the mark.
fn is_marked(items: &Indexed, tips: &Marks, channel: &Name, id: &ItemId, bucket: usize) -> bool
    ensures { result ≡ true → (place : ℕ) × IsMarkedOf items.now tips.now channel.now id.now bucket place }
{
    match items.find(channel, id) {
        Some(place) => tips.is(place, bucket),
        None => false,
    }
}

/// Whether the item shows that there is more than an id.
fn is_tip_of(items: &Indexed, channel: &Name, id: &ItemId, item: &Item) -> bool
    ensures { result ≡ is_tip_of items.now channel.now id.now item.now }
{
    if !item.is_on(channel) {
        return false;
    }
    if item.has_id(id) {
        return false;
    }
    is_open(items, item)
}

/// Whether the item at a place shows that there is more than an id: it is looked at only where it has the mark of the channel.
fn is_tip(
    items: &Indexed,
    tips: &Marks,
    channel: &Name,
    id: &ItemId,
    bucket: usize,
    place: usize,
) -> bool
    requires marked { IsMarked items.now items.now tips.now }
    requires bucket { bucket ≡ channel_bucket channel.now }
    ensures { result ≡ is_at (is_tip_of items.now channel.now id.now) items.now place }
{
    match items.get(place) {
        Some(item) => {
            if tips.is(place, bucket) {
                is_tip_of(items, channel, id, item)
            } else {
                false
            }
        }
        None => false,
    }
}

/// Whether an item shows that there is more than an id, the newest first.
fn has_tip(items: &Indexed, tips: &Marks, channel: &Name, id: &ItemId, bucket: usize) -> bool
    requires marked { IsMarked items.now items.now tips.now }
    requires bucket { bucket ≡ channel_bucket channel.now }
    ensures { result ≡ list_any (is_tip_of items.now channel.now id.now) items.now }
{
    for behind in 0..items.len() {
        if is_tip(items, tips, channel, id, bucket, items.len() - 1 - behind) {
            return true;
        }
    }
    false
}

impl Ring {
    /// No item, with the memory for all.
    pub fn new(alloc: Global) -> Result<Ring, AllocError>
        ensures { IfOk result (λ ring. ring ≡ []) }
    {
        Ok(Ring {
            items: Indexed::new(alloc)?,
            tips: Marks::new(alloc)?,
        })
    }

    /// How many items it has.
    pub fn len(&self) -> usize
        ensures { result ≡ length self.now }
    {
        self.items.len()
    }

    /// The item at a place, counted from 0.
    pub fn get(&self, place: usize) -> Option<&Item>
        ensures { option_map (λ x. x.now) result ≡ slice_get self.now place }
    {
        self.items.get(place)
    }

    /// Whether an item of the channel has the id.
    pub fn has(&self, channel: &Name, id: &ItemId) -> bool
        ensures { result ≡ list_any (has_id channel.now id.now) self.now }
    {
        match self.items.find(channel, id) {
            Some(_) => true,
            None => false,
        }
    }

    /// The least place outside the used ones of an item that has an id and goes on from this one.
    pub fn next_after(&self, channel: &Name, id: &ItemId, used: &Places) -> Option<usize>
        ensures { MatchOption result (IsNoNextAfter self.now channel.now id.now used.now) (IsNextAfter self.now channel.now id.now used.now) }
    {
        self.items.next_after(channel, id, used)
    }

    /// Whether an item of the channel shows that there is more than an id. The items are looked through only where the marks
    /// don't tell.
    pub fn ahead(&self, channel: &Name, id: &ItemId) -> bool
        ensures { result ≡ ahead channel.now id.now self.now }
    {
        let bucket = channel_bucket(channel);
        let marked = self.tips.count(bucket);
        if marked == 0 {
            return false;
        }
        if marked == 1 && is_marked(&self.items, &self.tips, channel, id, bucket) {
            return false;
        }
        has_tip(&self.items, &self.tips, channel, id, bucket)
    }

    /// The first item goes.
    fn pop(&mut self)
        ensures { self.new ≡ drop 1 self.old }
    {
        self.tips.pop();
        if let Some(gone) = self.items.pop() {
            reopen(&self.items, &mut self.tips, &gone);
        }
    }

    /// Puts an item last. It takes no memory.
    fn add(&mut self, item: Item)
        requires { length self.old < 4096 }
        ensures { self.new ≡ self.old ++ item ∷ [] }
    {
        close(&self.items, &mut self.tips, &item);
        self.tips.push(mark_of(&self.items, &item));
        self.items.push(item);
    }

    /// Puts an item last, and lets the first go where there are 4,096. It takes no memory.
    pub fn push(&mut self, item: Item)
        ensures { self.new ≡ last_items (self.old ++ item ∷ []) }
    {
        if self.items.len() == ITEMS {
            self.pop();
        }
        self.add(item);
    }
}
