//! How the stream that an answer asks for asks its origin for what it missed.
ghost use Rattle.std.specs.Prelude.{◌≡◌, IfOk, IfSome, option_map};
ghost use Rattle.gp_instruct.specs.Targets.{IsTarget};
ghost use Rattle.gp_session_http.specs.Asking.{IsAskable};
ghost use Rattle.gp_session_http.specs.Grants.{asking_by, channel_of, link_of, source_at};

use crate::asked::Asked;
use gp_again::Again;
use gp_instruct::Instruct;
use gp_intake::Whole;
use gp_plain::{Body, HoldSpec, Name};
use std::alloc::{AllocError, Global};

/// The link of an instruction, where it has one.
pub(crate) fn link_of(
    alloc: Global,
    instruct: &Option<Instruct>,
) -> Result<Option<Body>, AllocError>
    ensures { IfOk result (λ link. link ≡ link_of instruct.now) }
{
    match instruct {
        None => Ok(None),
        Some(instruct) => match &instruct.link {
            None => Ok(None),
            Some(link) => Ok(Some(link.copy(alloc)?)),
        },
    }
}

/// The channel of a hold that has a position on it.
fn channel_of(spec: &HoldSpec) -> Option<&Name>
    ensures { option_map (λ channel. channel.now) result ≡ channel_of spec.now }
{
    match spec {
        HoldSpec::Stream { channel, .. } => Some(channel),
        HoldSpec::Plain { .. } | HoldSpec::Response { .. } | HoldSpec::Socket => None,
    }
}

impl Asked {
    /// Asks for what was missed on this channel by this link, with the fields of the request. Its content is let go.
    fn into_again(self, channel: Name, link: Body) -> Again
        requires askable { IsAskable self }
        requires target { IsTarget link }
        ensures { result ≡ asking_by self channel link }
    {
        let Asked {
            request,
            address,
            ..
        } = self;
        let Whole { head, .. } = request;
        Again::new(head, address, channel, link)
    }
}

/// How the stream of a hold asks for what it missed, where the hold has a position and the instruction a link.
pub(crate) fn again_of(
    alloc: Global,
    asked: Asked,
    spec: &HoldSpec,
    link: Option<Body>,
) -> Result<Option<Again>, AllocError>
    requires askable { IsAskable asked }
    requires target { IfSome link IsTarget }
    ensures { IfOk result (λ again. again ≡ source_at asked link spec.now) }
{
    match (channel_of(spec), link) {
        (Some(channel), Some(link)) => match channel.copy(alloc) {
            Ok(channel) => Ok(Some(asked.into_again(channel, link))),
            Err(wanting) => {
                drop(asked);
                drop(link);
                Err(wanting)
            }
        },
        (_, link) => {
            drop(asked);
            drop(link);
            Ok(None)
        }
    }
}
