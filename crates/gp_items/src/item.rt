ghost use Rattle.std.specs.Prelude.{◌≡◌, MatchResult, Ok};
ghost use Rattle.serde_json.specs.View.{view};
ghost use Rattle.gp_items.specs.Faults.{IsItemFaultOf};
ghost use Rattle.gp_items.specs.Items.{item_of};

use crate::fault::ItemFault;
use crate::format::{read_formats, read_message_part, read_response_part, read_stream_part};
use crate::names::{read_channel, read_id};
use gp_plain::Item;
use serde_json::Value;
use std::alloc::Global;

/// One item, or its first fault in the order of its members.
#[tactic(auto, unfolding(crate::specs::Items::item_of))]
pub(crate) fn read_item(alloc: Global, value: &Value) -> Result<Item, ItemFault>
    ensures { MatchResult result
        (λ item. item_of (view value.now) ≡ Ok item)
        (IsItemFaultOf (item_of (view value.now))) }
{
    let channel = read_channel(alloc, value)?;
    let id = read_id(alloc, value, "id")?;
    let prev = read_id(alloc, value, "prev-id")?;
    let formats = read_formats(alloc, value)?;
    let response = read_response_part(alloc, formats)?;
    let stream = read_stream_part(alloc, formats)?;
    let message = read_message_part(alloc, formats)?;
    Ok(Item {
        channel,
        id,
        prev,
        response,
        stream,
        message,
    })
}
