//! Items that are found by their channel and their id, or their previous id.
ghost use Rattle.std.specs.Prelude.{◌≡◌, ◌<◌, ◌≤◌, ◌++◌, ◌∷◌, ℕ, [], IfOk, MatchOption, Some, cond, drop, false, get_or, length, option_map, set, slice_get, true};
ghost use Rattle.std.specs.List.{list_any};
ghost use Rattle.gp_plain.specs.Tails.{IsNextAfter, IsNoNextAfter};
ghost use Rattle.gp_window.specs.Buckets.{channel_bucket};
ghost use Rattle.gp_plain.specs.Items.{goes_on_from};
ghost use Rattle.gp_window.specs.Searches.{IsFound, has_id, is_at, is_next_of};

use crate::bucket::{bucket, bucket_or, channel_bucket};
use crate::chains::Chains;
use crate::marks::Marks;
use crate::sizes::ITEMS;
use circular_buffer::HeapCircularBuffer;
use gp_plain::{Item, ItemId, Name, Places};
use std::alloc::{AllocError, Global};
use std::marker::Model;

/// The last items, at most 4,096, oldest first, with the chains of those that share a bucket of their id, or of their previous id.
#[derive(Drop)]
pub struct Indexed {
    items: HeapCircularBuffer<Item>,
    ids: Chains,
    prevs: Chains,
}

impl Model for Indexed {
    ghost use Rattle.std.specs.Prelude.{◌≡◌, ◌≤◌, List, length, map};
    ghost use Rattle.gp_plain.specs.declared.item.Item.{Item};
    ghost use Rattle.gp_window.specs.Buckets.{id_bucket, prev_bucket};

    ghost Value = { List Item };

    ghost view = { λ i. i.items.items };

    ghost invariant = { λ i. (i.items.capacity ≡ 4096) × (length i.items.items ≤ 4096) × (i.ids ≡ map id_bucket i.items.items) × (i.prevs ≡ map prev_bucket i.items.items) };
}

/// Whether the item is on the channel and has the id.
fn has_id(item: &Item, channel: &Name, id: &ItemId) -> bool
    ensures { result ≡ has_id channel.now id.now item.now }
{
    item.is_on(channel) && item.has_id(id)
}

/// Whether the item has both ids, is on the channel, and goes on from the id.
fn goes_on_from(item: &Item, channel: &Name, id: &ItemId) -> bool
    ensures { result ≡ goes_on_from channel.now id.now item.now }
{
    item.comes_next(id) && item.is_on(channel)
}

/// Whether the item at a place comes next, and the place isn't used.
fn is_next(item: &Item, channel: &Name, id: &ItemId, used: &Places, place: usize) -> bool
    ensures { result ≡ is_next_of channel.now id.now used.now place item.now }
{
    goes_on_from(item, channel, id) && !used.has(place)
}

/// The place where it is one that is looked for, and else that which was found before.
fn place_or(is: bool, place: usize, found: Option<usize>) -> Option<usize>
    ensures { result ≡ cond is (Some place) found }
{
    if is { Some(place) } else { found }
}

/// The mark at a place becomes another, where that is asked.
fn mark_if(asked: bool, marks: &mut Marks, place: usize, bucket: usize)
    requires place { place < length marks.old }
    requires bucket { bucket < 16385 }
    ensures { marks.new ≡ cond asked (set marks.old place bucket) marks.old }
{
    if asked {
        marks.set(place, bucket);
    }
}

impl Indexed {
    /// No item, with the memory for all.
    pub fn new(alloc: Global) -> Result<Indexed, AllocError>
        ensures { IfOk result (λ items. items ≡ []) }
    {
        Ok(Indexed {
            items: HeapCircularBuffer::with_capacity(alloc, ITEMS)?,
            ids: Chains::new(alloc)?,
            prevs: Chains::new(alloc)?,
        })
    }

    /// How many items it has.
    pub fn len(&self) -> usize
        ensures len { result ≡ length self.now }
        ensures few { result ≤ 4096 }
    {
        self.items.len()
    }

    /// The item at a place, counted from 0.
    pub fn get(&self, place: usize) -> Option<&Item>
        ensures { option_map (λ x. x.now) result ≡ slice_get self.now place }
    {
        self.items.get(place)
    }

    /// Puts an item last. It takes no memory.
    pub fn push(&mut self, item: Item)
        requires { length self.old < 4096 }
        ensures { self.new ≡ self.old ++ item ∷ [] }
    {
        self.ids.push(bucket_or(&item.channel, &item.id));
        self.prevs.push(bucket_or(&item.channel, &item.prev));
        let _ = self.items.push_back(item);
    }

    /// Takes the first item out.
    pub fn pop(&mut self) -> Option<Item>
        ensures first { result ≡ slice_get self.old 0 }
        ensures left { self.new ≡ drop 1 self.old }
    {
        self.ids.pop();
        self.prevs.pop();
        self.items.pop_front()
    }

    /// The place of the newest item of the channel that has the id.
    pub fn find(&self, channel: &Name, id: &ItemId) -> Option<usize>
        ensures { IsFound (has_id channel.now id.now) self.now result }
    {
        let mut at = self.ids.newest(bucket(channel, id));
        while let Some(place) = at {
            let Some(item) = self.items.get(place) else {
                unreachable!()
            };
            if has_id(item, channel, id) {
                return Some(place);
            }
            at = self.ids.older(place);
        }
        None
    }

    /// Whether an item of the channel has both ids and goes on from the id.
    pub fn goes_on(&self, channel: &Name, id: &ItemId) -> bool
        ensures { result ≡ list_any (goes_on_from channel.now id.now) self.now }
    {
        let mut at = self.prevs.newest(bucket(channel, id));
        while let Some(place) = at {
            let Some(item) = self.items.get(place) else {
                unreachable!()
            };
            if goes_on_from(item, channel, id) {
                return true;
            }
            at = self.prevs.older(place);
        }
        false
    }

    /// The least place outside the used ones of an item that has an id and goes on from this one.
    pub fn next_after(&self, channel: &Name, id: &ItemId, used: &Places) -> Option<usize>
        ensures { MatchOption result (IsNoNextAfter self.now channel.now id.now used.now) (IsNextAfter self.now channel.now id.now used.now) }
    {
        let mut least = None;
        let mut at = self.prevs.newest(bucket(channel, id));
        while let Some(place) = at {
            let Some(item) = self.items.get(place) else {
                unreachable!()
            };
            let is = is_next(item, channel, id, used, place);
            least = place_or(is, place, least);
            at = self.prevs.older(place);
        }
        least
    }

    /// Marks each item of the channel that has the id by the bucket of the channel. Other marks stay.
    pub fn mark(&self, marks: &mut Marks, channel: &Name, id: &ItemId)
        requires { length marks.old ≡ length self.now }
        ensures same { length marks.new ≡ length self.now }
        ensures marked { (place : ℕ) → is_at (has_id channel.now id.now) self.now place ≡ true → get_or marks.new place 0 ≡ channel_bucket channel.now }
        ensures others { (place : ℕ) → is_at (has_id channel.now id.now) self.now place ≡ false → get_or marks.new place 0 ≡ get_or marks.old place 0 }
    {
        let mark = channel_bucket(channel);
        let mut at = self.ids.newest(bucket(channel, id));
        while let Some(place) = at {
            let Some(item) = self.items.get(place) else {
                unreachable!()
            };
            mark_if(has_id(item, channel, id), marks, place, mark);
            at = self.ids.older(place);
        }
    }
}
