//! How a stream asks its origin for what it missed.
ghost use Rattle.std.specs.Prelude.{◌≡◌, ◌∷◌, [], All, IfOk, IfSome, option_map, unwrap_or};
ghost use Rattle.gp_head.specs.Writable.{IsFieldValue};
ghost use Rattle.gp_instruct.specs.Targets.{IsTarget};
ghost use Rattle.gp_forward.specs.Conditions.{CanAsk};
ghost use Rattle.gp_again.specs.Texts.{last_text};
ghost use Rattle.gp_again.specs.Quests.{Asks, IsQuest};

use crate::last::last_text;
use crate::target::aim;
use crate::token::sig_at;
use gp_exchange::forward;
use gp_plain::{Address, Body, ItemId, Name, Request, Signer};
use gp_recover::Recovery;
use std::alloc::{AllocError, Global};
use std::marker::Model;

/// Of whom, and how, a stream asks what it missed. Contracts see the client's version and fields, the address, the channel and the link.
#[derive(Drop)]
pub struct Again {
    /// The client's head. Its method and target are those of the request that was asked last.
    head: Request,
    /// Where the origin listens.
    address: Address,
    /// The channel.
    channel: Name,
    /// The link last seen.
    link: Body,
}

impl Model for Again {
    ghost use Rattle.gp_again.specs.Views.{AgainView, CanAskAgain};

    ghost Value = { AgainView };

    ghost view = { λ a. record { version = a.head.version; fields = a.head.fields; address = a.address; channel = a.channel; link = a.link } };

    ghost invariant = { λ a. CanAskAgain a.head a.address a.link };
}

/// The bytes of a body that may be there.
fn bytes_of(body: &Option<Body>) -> Option<&[u8]>
    ensures { option_map (λ b. b.now) result ≡ body.now }
{
    match body {
        None => None,
        Some(body) => Some(body.bytes()),
    }
}

/// The one text of the last item of a channel.
fn lasts_of(alloc: Global, channel: &Name, from: &ItemId) -> Result<Vec<Body>, AllocError>
    ensures are { IfOk result (λ lasts. lasts.items ≡ last_text channel.now from.now ∷ []) }
    ensures values { IfOk result (λ lasts. All IsFieldValue lasts.items) }
{
    Ok(vec![in alloc; last_text(alloc, channel, from)?]?)
}

impl Again {
    /// Asks of this address, on this channel, by this link, with the fields of this head. The condition on a link is met by those that an origin
    /// gives (`link_law`). It takes no memory.
    pub fn new(head: Request, address: Address, channel: Name, link: Body) -> Again
        requires head { CanAsk head }
        requires host { IsFieldValue address.host }
        requires link { IsTarget link }
        ensures { result ≡ record { version = head.version; fields = head.fields; address = address; channel = channel; link = link } }
    {
        Again {
            head,
            address,
            channel,
            link,
        }
    }

    /// Where a page has a link, it is asked by from then on. It takes no memory.
    pub fn follow(&mut self, link: Option<Body>)
        requires { IfSome link IsTarget }
        ensures { self.new ≡ record self.old { link = unwrap_or link self.old.link } }
    {
        if let Some(link) = link {
            self.link = link;
        }
    }

    /// The recovery that asks for the page of the channel behind an id, at a moment in seconds. It sends, to the address, a GET of the link's path
    /// and query, with `/` where the path is empty (RFC 9112, section 3.2.1), whatever the link's scheme and authority; the fields of the client
    /// that go on; `grip-sig` with the token of the moment, where there is a key; one `grip-last` with the channel and the id (GRIP); and no
    /// body. The only error is want of memory, which changes nothing.
    pub fn recovery(
        &mut self,
        alloc: Global,
        signer: &Signer,
        now: u64,
        from: ItemId,
    ) -> Result<Recovery, AllocError>
        ensures same { self.new ≡ self.old }
        ensures ok { IfOk result (IsQuest self.old signer.now now from) }
    {
        let request = self.request(alloc, signer, now, &from)?;
        let to = self.address.copy(alloc)?;
        let channel = self.channel.copy(alloc)?;
        Ok(Recovery::new(alloc, to, request, channel, from))
    }

    /// The bytes of the request that asks behind an id, at a moment.
    fn request(
        &mut self,
        alloc: Global,
        signer: &Signer,
        now: u64,
        from: &ItemId,
    ) -> Result<Body, AllocError>
        ensures same { self.new ≡ self.old }
        ensures asks { IfOk result (Asks self.old signer.now now from.now) }
    {
        let sig = sig_at(alloc, signer, now)?;
        let lasts = lasts_of(alloc, &self.channel, from)?;
        aim(alloc, &mut self.head, &self.link)?;
        let (head, address) = (&self.head, &self.address);
        forward(alloc, head, None, address, bytes_of(&sig), lasts.as_slice())
    }
}
