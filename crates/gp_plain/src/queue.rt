ghost use Rattle.std.specs.Prelude.{◌≡◌, ◌==◌, ◌++◌, ◌∷◌, [], length, drop, MatchResult, slice_get, option_map};

use std::alloc::{AllocError, Global};
use std::collections::VecDeque;
use std::marker::Model;

/// A list that keeps its allocator, and that is filled at its end and emptied from its front, each in
/// constant time.
///
/// Contracts see the list of its items, and say nothing of its room.
#[derive(Drop)]
pub struct Queue<T> {
    items: VecDeque<T>,
}

impl<T> Model for Queue<T> {
    ghost use Rattle.std.specs.Prelude.{List};

    ghost Value = { List T };

    ghost view = { λ q. q.items.items };
}

impl<T> Queue<T> {
    /// The empty list. It takes no memory.
    pub fn new(alloc: Global) -> Queue<T>
        ensures { result ≡ [] }
    {
        Queue {
            items: VecDeque::new(alloc),
        }
    }

    /// Adds an item at the end, or hands it back where memory is wanting.
    pub fn push(&mut self, item: T) -> Result<(), (T, AllocError)>
        ensures { MatchResult result (λ _. self.new ≡ self.old ++ item ∷ []) (λ e. (e.0 ≡ item) × (self.new ≡ self.old)) }
    {
        match self.items.push_back(item) {
            Ok(()) => Ok(()),
            Err(refused) => Err((refused.value, AllocError)),
        }
    }

    /// How many items it has.
    pub fn len(&self) -> usize
        ensures { result ≡ length self.now }
    {
        self.items.len()
    }

    /// Whether it has none.
    pub fn is_empty(&self) -> bool
        ensures { result ≡ (length self.now == 0) }
    {
        self.items.is_empty()
    }

    /// The item at a place, counted from 0.
    pub fn at(&self, place: usize) -> Option<&T>
        ensures { option_map (λ x. x.now) result ≡ slice_get self.now place }
    {
        self.items.get(place)
    }

    /// Takes the first item out.
    pub fn take_first(&mut self) -> Option<T>
        ensures first { result ≡ slice_get self.old 0 }
        ensures left { self.new ≡ drop 1 self.old }
    {
        self.items.pop_front()
    }

    /// The list of a `Vec`'s items. It takes no memory.
    pub fn from_vec(items: Vec<T>) -> Queue<T>
        ensures { result ≡ items.items }
    {
        Queue {
            items: VecDeque::from_vec(items),
        }
    }

    /// The items in a `Vec`. It takes no memory.
    pub fn into_vec(self) -> Vec<T>
        ensures { result.items ≡ self }
    {
        self.items.into_vec()
    }
}
