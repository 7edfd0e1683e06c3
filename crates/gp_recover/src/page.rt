//! What an answer is as a page.
ghost use Rattle.std.specs.Prelude.{◌≡◌, ℕ, List, [], bytes_eq, is_some, option_map, OnOk, IfErr, IsOk};
ghost use Rattle.gp_instruct.specs.Page.{page, page_up_to, prev_on};
ghost use Rattle.gp_recover.specs.Pages.{IsGivenFault, PagesBy};

use gp_exchange::ExchangeFault;
use gp_instruct::{Instruct, Mode, Sub, Subs};
use gp_plain::{Body, ItemId, Name, Then};

/// The greatest content of a page, in bytes.
pub(crate) const MOST_CONTENT: usize = 262_144;

/// A page: what follows the id that was asked, up to another id.
#[derive(Drop)]
pub struct Page {
    /// The id of its last item.
    pub to: ItemId,
    /// Its content, at most 262,144 bytes.
    pub bytes: Body,
    /// What follows it.
    pub then: Then,
    /// The link to the next page, or to ask by from then on.
    pub link: Option<Body>,
}

/// Why an answer is no page.
#[derive(Clone, Copy, Drop, Debug, PartialEq)]
pub enum PageFault {
    /// The talk with the origin failed.
    Exchange(ExchangeFault),
    /// The answer has this code, which isn't 200.
    Code(u16),
    /// Its instruction is refused, or asks for a long poll.
    Instruct,
    /// The stream goes on behind it, and it tells no id of the channel.
    Channel,
    /// Its content has more than 262,144 bytes, or its body of instructions more than 524,288.
    TooLong,
}

/// Whether a channel is the one with this name.
fn is_on(sub: &Sub, channel: &Name) -> bool
    ensures { result ≡ bytes_eq sub.now.name channel.now }
{
    sub.name.bytes() == channel.bytes()
}

/// Whether channels tell a previous id of the one with this name.
fn has_prev(subs: &[Sub], channel: &Name) -> bool
    ensures { result ≡ is_some (prev_on channel.now subs.now) }
{
    for sub in subs {
        if is_on(sub, channel) {
            return sub.prev.is_some();
        }
    }
    false
}

/// The previous id that channels tell of the one with this name.
fn take_prev(subs: Subs, channel: &Name) -> Option<ItemId>
    ensures { result ≡ prev_on channel.now subs }
{
    for sub in subs.into_vec() {
        if is_on(&sub, channel) {
            return sub.prev;
        }
    }
    None
}

/// What the instruction of an answer refuses, whatever its content is.
pub(crate) fn check_given(instruct: Option<&Instruct>, channel: &Name) -> Result<(), PageFault>
    ensures ok { OnOk result ((from : List ℕ) → IsOk (page (option_map (λ given. given.now) instruct.entry) [] channel.now from)) }
    ensures err { IfErr result (λ fault. (bytes from : List ℕ) → IsGivenFault (page (option_map (λ given. given.now) instruct.entry) bytes channel.now from) fault) }
{
    let Some(instruct) = instruct else {
        return Ok(());
    };
    match instruct.mode {
        Some(Mode::Response) => return Err(PageFault::Instruct),
        None if instruct.link.is_none() => return Ok(()),
        Some(Mode::Stream) | None => {}
    }
    if has_prev(instruct.subs.as_slice(), channel) {
        Ok(())
    } else {
        Err(PageFault::Channel)
    }
}

/// A page up to an id, unless its content is too long.
fn page_up_to(
    then: Then,
    to: Option<ItemId>,
    bytes: Body,
    link: Option<Body>,
) -> Result<Page, PageFault>
    ensures { PagesBy result (page_up_to then to bytes link) }
{
    match to {
        None => Err(PageFault::Channel),
        Some(_) if bytes.len() > MOST_CONTENT => Err(PageFault::TooLong),
        Some(to) => Ok(Page {
            to,
            bytes,
            then,
            link,
        }),
    }
}

/// The page that an instruction with its content is, to a request on a channel behind an id.
pub(crate) fn page_of(
    instruct: Option<Instruct>,
    bytes: Body,
    channel: &Name,
    from: ItemId,
) -> Result<Page, PageFault>
    ensures { PagesBy result (page instruct bytes channel.now from) }
{
    let Some(instruct) = instruct else {
        return page_up_to(Then::End, Some(from), bytes, None);
    };
    let (mode, link) = (instruct.mode, instruct.link);
    let prev = take_prev(instruct.subs, channel);
    match (mode, link) {
        (Some(Mode::Response), _) => Err(PageFault::Instruct),
        (Some(Mode::Stream), link) => page_up_to(Then::Hold, prev, bytes, link),
        (None, Some(link)) => page_up_to(Then::Next, prev, bytes, Some(link)),
        (None, None) => page_up_to(Then::End, Some(prev.unwrap_or(from)), bytes, None),
    }
}
