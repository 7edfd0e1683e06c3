//! Where the last buckets stand that were pushed.
ghost use Rattle.std.specs.Prelude.{◌≡◌, ◌+◌, ◌-◌, ◌%◌, ◌<◌, ◌≤◌, ◌++◌, ◌∷◌, [], IfOk, MatchOption, drop, get_or, length};
ghost use Rattle.gp_window.specs.Chains.{HasNone, IsNewest, place_of};

use crate::bucket::zeros;
use crate::sizes::ITEMS;
use circular_buffer::HeapCircularBuffer;
use std::alloc::{AllocError, Global};
use std::marker::Model;

/// What is further back than any place.
const NOWHERE: u16 = 4097;

/// The buckets of the last places, at most 4,096, oldest first, each with the way to the next older place of its bucket.
///
/// Places are numbered as they come, modulo 65,536, so that a number stays while older places go. For each bucket stands the
/// number of its newest place; it says nothing where no place has the bucket, which the place that it leads to shows.
#[derive(Drop)]
pub struct Chains {
    /// By bucket, the number of the newest place that has it.
    heads: Vec<u16>,
    buckets: HeapCircularBuffer<u16>,
    /// By place, how far back the next older place of its bucket is. A way that goes beyond the first place leads nowhere.
    backs: HeapCircularBuffer<u16>,
    /// The number of the first place.
    first: u16,
}

impl Model for Chains {
    ghost use Rattle.std.specs.Prelude.{◌≡◌, List, ℕ};
    ghost use Rattle.gp_window.specs.Chains.{IsChained};

    ghost Value = { List ℕ };

    ghost view = { λ c. c.buckets.items };

    ghost invariant = { λ c. (c.buckets.capacity ≡ 4096) × (c.backs.capacity ≡ 4096) × IsChained c.heads.items c.buckets.items c.backs.items c.first };
}

/// The place of a number, where the first place has another one.
fn place_of(first: u16, number: u16) -> usize
    ensures { result ≡ place_of first number }
{
    (number as usize + (65536 - first as usize)) % 65536
}

/// The number of a place, where the first place has another one.
fn number_of(first: u16, place: usize) -> u16
    requires { place < 65536 }
    ensures { result ≡ (first + place) % 65536 }
{
    ((first as usize + place) % 65536) as u16
}

impl Chains {
    /// No place, with the memory for all.
    pub fn new(alloc: Global) -> Result<Chains, AllocError>
        ensures { IfOk result (λ chains. chains ≡ []) }
    {
        Ok(Chains {
            heads: zeros(alloc)?,
            buckets: HeapCircularBuffer::with_capacity(alloc, ITEMS)?,
            backs: HeapCircularBuffer::with_capacity(alloc, ITEMS)?,
            first: 0,
        })
    }

    /// The newest place of a bucket.
    pub fn newest(&self, bucket: usize) -> Option<usize>
        requires { bucket < 16385 }
        ensures { MatchOption result (HasNone self.now bucket (length self.now)) (IsNewest self.now bucket (length self.now)) }
    {
        let place = place_of(self.first, self.heads[bucket]);
        match self.buckets.get(place) {
            Some(own) => {
                if *own as usize == bucket {
                    Some(place)
                } else {
                    None
                }
            }
            None => None,
        }
    }

    /// The next older place of the bucket of a place.
    pub fn older(&self, place: usize) -> Option<usize>
        requires { place < length self.now }
        ensures { MatchOption result (HasNone self.now (get_or self.now place 0) place) (IsNewest self.now (get_or self.now place 0) place) }
    {
        let Some(back) = self.backs.get(place) else {
            unreachable!()
        };
        let back = *back as usize;
        if back <= place {
            Some(place - back)
        } else {
            None
        }
    }

    /// How far back the newest place of a bucket is from the next place.
    fn back_to(&self, bucket: usize) -> u16
        requires { bucket < 16385 }
        ensures some { 0 < result }
        ensures there { result ≤ length self.now → IsNewest self.now bucket (length self.now) (length self.now - result) }
        ensures none { length self.now < result → HasNone self.now bucket (length self.now) }
    {
        match self.newest(bucket) {
            Some(place) => (self.buckets.len() - place) as u16,
            None => NOWHERE,
        }
    }

    /// One more place. It takes no memory.
    pub fn push(&mut self, bucket: usize)
        requires room { length self.old < 4096 }
        requires bucket { bucket < 16385 }
        ensures { self.new ≡ self.old ++ bucket ∷ [] }
    {
        let back = self.back_to(bucket);
        self.heads[bucket] = number_of(self.first, self.buckets.len());
        let _ = self.buckets.push_back(bucket as u16);
        let _ = self.backs.push_back(back);
    }

    /// The first place goes.
    pub fn pop(&mut self)
        ensures { self.new ≡ drop 1 self.old }
    {
        let _ = self.buckets.pop_front();
        let _ = self.backs.pop_front();
        self.first = number_of(self.first, 1);
    }
}
