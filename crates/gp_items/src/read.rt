ghost use Rattle.std.specs.Prelude.{◌≡◌, ◌≤◌, All, IfOk, MatchResult, Ok, true, map, length, codes, option_map, option_and_then};
ghost use Rattle.serde_json.specs.View.{view};
ghost use Rattle.gp_plain.specs.declared.event.Event.TheVariants.{Publish};
ghost use Rattle.gp_plain.specs.Fit.{fits};
ghost use Rattle.gp_json.specs.Members.{as_elements, member_of};
ghost use Rattle.gp_items.specs.Faults.{IsItemsFaultOf};
ghost use Rattle.gp_items.specs.Items.{AreItemsOf, IsItemsFault, items_in as the_items_in, items_from};

use crate::fault::ItemsFault;
use crate::item::read_item;
use gp_json::{TextFault, member, read_object};
use gp_plain::{Items, Queue};
use serde_json::Value;
use std::alloc::Global;

/// A body has at most so many items.
const MAX_ITEMS: usize = 1_000;

/// Reads a publish body: a JSON object whose member `items` is an array of 1 to 1,000 items. An item has `channel`,
/// optional `id` and `prev-id`, and optional `formats`, an object in which `http-response`, `http-stream` and
/// `ws-message` may stand. A member that is null counts as absent, and members of other names are ignored. The first
/// item with a fault is refused by its first: its members are tried in the order above, and within a format the forms
/// of its members, then base64, then the length of its content. Each item that is read fits.
pub fn read_items(alloc: Global, bytes: &[u8]) -> Result<Items, ItemsFault>
    ensures read { MatchResult result (AreItemsOf bytes.now) (IsItemsFault bytes.now) }
    ensures fit { IfOk result (All (λ item. fits (Publish item) ≡ true)) }
{
    match read_object(alloc, bytes) {
        Ok(value) => items_in(alloc, &value),
        Err(TextFault::NotJson) => Err(ItemsFault::NotJson),
        Err(TextFault::NoMemory) => Err(ItemsFault::NoMemory),
    }
}

/// The elements of the member `items`, where it is an array.
fn listed(value: &Value) -> Option<&[Value]>
    ensures { option_map (λ values. map view values.now) result
        ≡ option_and_then as_elements (member_of (codes "items") (view value.now)) }
{
    Some(member(value, "items")?.as_array()?.as_slice())
}

/// The items of an object.
#[tactic(auto, using(crate::proofs::ItemLemmas::no_items, crate::proofs::ItemLemmas::too_many, crate::proofs::ItemLemmas::few_items), unfolding(crate::specs::Items::items_in))]
fn items_in(alloc: Global, value: &Value) -> Result<Items, ItemsFault>
    ensures { MatchResult result
        (λ items. the_items_in (view value.now) ≡ Ok items)
        (IsItemsFaultOf (the_items_in (view value.now))) }
{
    let Some(values) = listed(value) else {
        return Err(ItemsFault::NoItems);
    };
    if values.is_empty() {
        return Err(ItemsFault::NoItems);
    }
    if values.len() > MAX_ITEMS {
        let count = values.len().min(u32::MAX as usize);
        return Err(ItemsFault::TooMany(count as u32));
    }
    items_of(alloc, values)
}

/// The items that the values are.
fn items_of(alloc: Global, values: &[Value]) -> Result<Items, ItemsFault>
    requires { length values.now ≤ MAX_ITEMS }
    ensures { MatchResult result
        (λ items. items_from 0 (map view values.now) ≡ Ok items)
        (IsItemsFaultOf (items_from 0 (map view values.now))) }
{
    let mut items = Vec::with_capacity(alloc, values.len())?;
    for (place, value) in values.iter().enumerate() {
        match read_item(alloc, value) {
            Ok(item) => items.push(item)?,
            Err(fault) => return Err(fault.at(place as u32)),
        }
    }
    Ok(Queue::from_vec(items))
}
