ghost use Rattle.std.specs.Prelude.{◌≡◌, MatchResult, Ok};
ghost use Rattle.serde_json.specs.View.{view};
ghost use Rattle.gp_items.specs.Faults.{IsItemFaultOf};
ghost use Rattle.gp_items.specs.Names.{channel_of, id_of};

use crate::fault::ItemFault;
use gp_json::{needed_text, text_member};
use gp_plain::{ItemId, Name};
use serde_json::Value;
use std::alloc::Global;

/// The channel of an item.
#[tactic(auto, using(crate::proofs::NameLemmas::good_name, crate::proofs::NameLemmas::name_fault), unfolding(crate::specs::Names::channel_of))]
pub(crate) fn read_channel(alloc: Global, item: &Value) -> Result<Name, ItemFault>
    ensures { MatchResult result
        (λ channel. channel_of (view item.now) ≡ Ok channel)
        (IsItemFaultOf (channel_of (view item.now))) }
{
    let text = needed_text(alloc, item, "channel")?;
    Ok(Name::new(alloc, text.as_bytes())?)
}

/// The id that a member is, where it is there.
#[tactic(auto, using(crate::proofs::NameLemmas::good_name, crate::proofs::NameLemmas::name_fault), unfolding(crate::specs::Names::id_of))]
pub(crate) fn read_id(
    alloc: Global,
    item: &Value,
    member: &str,
) -> Result<Option<ItemId>, ItemFault>
    ensures { MatchResult result
        (λ id. id_of member.now (view item.now) ≡ Ok id)
        (IsItemFaultOf (id_of member.now (view item.now))) }
{
    match text_member(alloc, item, member)? {
        Some(text) => Ok(Some(ItemId::new(alloc, text.as_bytes())?)),
        None => Ok(None),
    }
}
