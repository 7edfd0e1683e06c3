ghost use Rattle.std.specs.Prelude.{◌≡◌, List, ℕ, IfOk, MatchOption, option_map};
ghost use Rattle.serde_json.specs.View.{view};
ghost use Rattle.gp_events.specs.Controls.{HasChannel, IsControl, IsControlOf, kind_of as the_kind_of, kind_by as the_kind_by, text_of as the_text_of};

use gp_json::{TextFault, member, read_object};
use gp_plain::{Name, NameFault};
use serde_json::Value;
use std::alloc::{AllocError, Global};

/// What a control text of an origin asks for.
#[derive(Drop)]
pub enum Control {
    /// To join this channel.
    Subscribe(Name),
    /// To leave this channel.
    Unsubscribe(Name),
    /// To post nothing more of the connection.
    Detach,
    /// Nothing that is known.
    Unknown,
}

/// What the `type` of a control text says.
#[derive(Clone, Copy, Drop)]
pub(crate) enum ControlKind {
    Subscribe,
    Unsubscribe,
    Detach,
    Other,
}

/// What a control text asks for. It is a JSON object: `type` is `subscribe` or `unsubscribe`, and `channel` a name, or `type` is
/// `detach`. A member that is null counts as absent, and members of other names are ignored.
pub fn read_control(alloc: Global, bytes: &[u8]) -> Result<Control, AllocError>
    ensures { IfOk result (IsControl bytes.now) }
{
    match read_object(alloc, bytes) {
        Ok(object) => control_of(alloc, &object),
        Err(TextFault::NotJson) => Ok(Control::Unknown),
        Err(TextFault::NoMemory) => Err(AllocError),
    }
}

fn control_of(alloc: Global, object: &Value) -> Result<Control, AllocError>
    ensures { IfOk result (IsControlOf (view object.now)) }
{
    match kind_of(object) {
        ControlKind::Subscribe => {
            let channel = channel_of(alloc, object)?;
            Ok(channel.map_or(Control::Unknown, Control::Subscribe))
        }
        ControlKind::Unsubscribe => {
            let channel = channel_of(alloc, object)?;
            Ok(channel.map_or(Control::Unknown, Control::Unsubscribe))
        }
        ControlKind::Detach => Ok(Control::Detach),
        ControlKind::Other => Ok(Control::Unknown),
    }
}

fn kind_of(object: &Value) -> ControlKind
    ensures { result ≡ the_kind_of (view object.now) }
{
    kind_by(text_of(object, "type"))
}

fn kind_by(text: Option<&str>) -> ControlKind
    ensures { result ≡ the_kind_by (option_map (λ text. text.now) text.entry) }
{
    match text {
        Some("subscribe") => ControlKind::Subscribe,
        Some("unsubscribe") => ControlKind::Unsubscribe,
        Some("detach") => ControlKind::Detach,
        _ => ControlKind::Other,
    }
}

/// The channel, where it is a name.
fn channel_of(alloc: Global, object: &Value) -> Result<Option<Name>, AllocError>
    ensures { IfOk result (λ channel. MatchOption channel
        ((name : List ℕ) → HasChannel (view object.now) name → ⊥)
        (HasChannel (view object.now))) }
{
    let Some(text) = text_of(object, "channel") else {
        return Ok(None);
    };
    match Name::new(alloc, text.as_bytes()) {
        Ok(name) => Ok(Some(name)),
        Err(NameFault::NoMemory) => Err(AllocError),
        Err(_) => Ok(None),
    }
}

/// The member of a name, where it is a string.
fn text_of<'v>(object: &'v Value, name: &str) -> Option<&'v str>
    ensures { option_map (λ text. text.now) result ≡ the_text_of name.now (view object.now) }
{
    member(object, name)?.as_str()
}
