ghost use Rattle.std.specs.Prelude.{ℕ, ◌≡◌, ◌++◌, ◌∷◌, [], MatchOption, eqb, OnOk, OnErr, option_map, slice_get};
ghost use Rattle.std.specs.List.{list_any};
ghost use Rattle.gp_plain.specs.Tails.{IsNextAfter, IsNoNextAfter, ahead};

use crate::item::Item;
use crate::name::{ItemId, Name};
use std::alloc::{AllocError, Global};
use std::marker::Model;

/// A list of places, in the order in which they were added.
#[derive(Drop)]
pub struct Places {
    places: Vec<usize>,
}

impl Model for Places {
    ghost use Rattle.std.specs.Prelude.{List, ℕ};

    ghost Value = { List ℕ };

    ghost view = { λ p. p.places.items };
}

impl Places {
    /// No place. It takes no memory.
    pub fn new(alloc: Global) -> Places
        ensures { result ≡ [] }
    {
        Places {
            places: Vec::new(alloc),
        }
    }

    /// Adds one place at the end.
    pub fn add(&mut self, place: usize) -> Result<(), AllocError>
        ensures ok { OnOk result (self.new ≡ self.old ++ place ∷ []) }
        ensures err { OnErr result (self.new ≡ self.old) }
    {
        match self.places.push(place) {
            Ok(()) => Ok(()),
            Err(_) => Err(AllocError),
        }
    }

    /// Whether the place was added.
    pub fn has(&self, place: usize) -> bool
        ensures { result ≡ list_any (λ other. eqb other place) self.now }
    {
        self.places.iter().any(|other| *other == place)
    }

    /// The places, in order.
    pub fn as_slice(&self) -> &[usize]
        ensures { result.now ≡ self.now }
    {
        self.places.as_slice()
    }
}

/// The last items that were published, oldest first. No call takes memory.
pub trait Tail {
    ghost use Rattle.std.specs.Prelude.{List};
    ghost use Rattle.gp_plain.specs.declared.item.Item.{Item};

    ghost items: { Self → List Item };

    /// The least place outside `used` of an item on the channel that has an id, and whose previous id is `id`.
    fn next_after(&self, channel: &Name, id: &ItemId, used: &Places) -> Option<usize>
        ensures { MatchOption result (IsNoNextAfter (items self.now) channel.now id.now used.now) (IsNextAfter (items self.now) channel.now id.now used.now) };

    /// The item at a place, counted from 0.
    fn item(&self, place: usize) -> Option<&Item>
        ensures { option_map (λ x. x.now) result ≡ slice_get (items self.now) place };

    /// Whether some item of the channel shows that there is more than `id`: it has an id and a previous id,
    /// its id isn't `id`, and no such item of the channel has it as previous id.
    fn ahead(&self, channel: &Name, id: &ItemId) -> bool
        ensures { result ≡ ahead channel.now id.now (items self.now) };
}
