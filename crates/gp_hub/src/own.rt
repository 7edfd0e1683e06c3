//! Calls of one's own: publications, and those for a hold that nobody else can have moved, which are never answered Foreign or
//! Unknown.
ghost use Rattle.std.specs.Prelude.{◌≡◌, ◌+◌, ℕ, true, List, Option, IfOk, IfErr, OnErr};
ghost use Rattle.gp_plain.specs.Fit.{fits};
ghost use Rattle.gp_plain.specs.History.{page_of};
ghost use Rattle.gp_plain.specs.declared.reply.Taken.{Taken as Gave};
ghost use Rattle.gp_hub.specs.Passes.{IsSame};
ghost use Rattle.gp_hub.specs.Calls.{HasCause};
ghost use Rattle.gp_hub.specs.declared.own.PageReply.{PageReply as PageAnswer};
ghost use Rattle.gp_hub.specs.declared.own.FailedReply.{FailedReply as FailedAnswer};
ghost use Rattle.gp_hub.specs.Own.{FreshLaw, Keeps, HasAttached, HasPublished, HasTaken, HasPaged, HasFailed, HasDetached, attach_reply, publish_reply, page_reply, failed_reply};

use crate::fault::HubFault;
use crate::hub::Hub;
use crate::pass::HubPass;
use gp_plain::{Body, EndCause, Event, HoldKind, HoldSpec, Item, ItemId, Reply, Taken, Then};

/// What a page for a hold of one's own is answered.
#[derive(Drop)]
pub enum PageReply {
    /// The page begins at the hold's position, and was appended.
    Paged,
    /// It begins elsewhere than at this position of the hold, and nothing was appended.
    Stale(ItemId),
    /// The hold had ended for this cause.
    Gone(EndCause),
    /// The hold is of this kind, and not a reliable stream.
    OtherKind(HoldKind),
}

/// What is answered where a page for a hold of one's own can't be had.
#[derive(Clone, Copy, Drop, Debug, PartialEq)]
pub enum FailedReply {
    /// The hold has ended as unrecovered.
    Done,
    /// The hold had ended before, for this cause.
    Gone(EndCause),
    /// The hold is of this kind, and not a reliable stream.
    OtherKind(HoldKind),
}

/// The hold that an Attach was answered with.
fn attached(reply: Reply) -> Option<u64>
    requires { (hold : Option ℕ) × (reply ≡ attach_reply hold) }
    ensures { reply ≡ attach_reply result }
{
    match reply {
        Reply::Attached(hold) => Some(hold),
        Reply::Full(_) => None,
        _ => unreachable!(),
    }
}

/// What a Take was answered with.
fn taken(reply: Reply) -> Taken
    requires { (gave : Gave) × (reply ≡ Reply.Taken gave) }
    ensures { reply ≡ Reply.Taken result }
{
    match reply {
        Reply::Taken(taken) => taken,
        _ => unreachable!(),
    }
}

/// How many logs an item made grow, or None for a repeat.
fn published(reply: Reply) -> Option<u32>
    requires { (id : List ℕ) × (count : Option ℕ) × (reply ≡ publish_reply id count) }
    ensures { (id : List ℕ) (count : Option ℕ) → reply ≡ publish_reply id count → result ≡ count }
{
    match reply {
        Reply::Published(count) => Some(count),
        Reply::Repeat(_) => None,
        _ => unreachable!(),
    }
}

/// What a page was answered.
fn paged(reply: Reply) -> PageReply
    requires { (from : List ℕ) × (answer : PageAnswer) × (reply ≡ page_reply from answer) }
    ensures { (from : List ℕ) (answer : PageAnswer) → reply ≡ page_reply from answer → result ≡ answer }
{
    match reply {
        Reply::Paged => PageReply::Paged,
        Reply::Stale { position, .. } => PageReply::Stale(position),
        Reply::Gone(cause) => PageReply::Gone(cause),
        Reply::OtherKind(kind) => PageReply::OtherKind(kind),
        _ => unreachable!(),
    }
}

/// What was answered to the news that a page can't be had.
fn failed(reply: Reply) -> FailedReply
    requires { (answer : FailedAnswer) × (reply ≡ failed_reply answer) }
    ensures { reply ≡ failed_reply result }
{
    match reply {
        Reply::Done => FailedReply::Done,
        Reply::Gone(cause) => FailedReply::Gone(cause),
        Reply::OtherKind(kind) => FailedReply::OtherKind(kind),
        _ => unreachable!(),
    }
}

/// The law of fresh passes. A pass that was split off has neither entries nor holds of its own, until it calls.
pub fn fresh_law()
    ensures { FreshLaw }
{}

impl Hub {
    /// Publishes an item, and answers how many logs it made grow, or None where it is a repeat.
    pub fn publish(&self, pass: &mut HubPass, item: Item) -> Result<Option<u32>, HubFault>
        requires turn { pass.old.turn ≡ self.now }
        requires fits { fits (Event.Publish item) ≡ true }
        ensures same { IsSame pass.old pass.new }
        ensures looks { pass.new.looks ≡ pass.old.looks + 1 }
        ensures ok { IfOk result (λ count. HasPublished pass.old pass.new item count) }
        ensures err { OnErr result (pass.new.seen ≡ pass.old.seen) }
        ensures cause { IfErr result (HasCause (Event.Publish item) pass.new.found) }
    {
        match self.call(pass, Event::Publish { item }) {
            Ok(reply) => Ok(published(reply)),
            Err(fault) => Err(fault),
        }
    }

    /// Makes a hold of the pass, or answers None where 4,096 are kept.
    pub fn attach(&self, pass: &mut HubPass, spec: HoldSpec) -> Result<Option<u64>, HubFault>
        requires turn { pass.old.turn ≡ self.now }
        requires fits { fits (Event.Attach spec) ≡ true }
        ensures same { IsSame pass.old pass.new }
        ensures looks { pass.new.looks ≡ pass.old.looks + 1 }
        ensures ok { IfOk result (λ hold. HasAttached pass.old pass.new spec hold) }
        ensures err { OnErr result (pass.new.seen ≡ pass.old.seen) }
        ensures cause { IfErr result (HasCause (Event.Attach spec) pass.new.found) }
    {
        match self.call(pass, Event::Attach { spec }) {
            Ok(reply) => Ok(attached(reply)),
            Err(fault) => Err(fault),
        }
    }

    /// Takes what waits for a hold of the pass. `now` is a moment in seconds.
    pub fn take(&self, pass: &mut HubPass, hold: u64, now: u64) -> Result<Taken, HubFault>
        requires turn { pass.old.turn ≡ self.now }
        requires keeps { Keeps pass.old hold }
        ensures same { IsSame pass.old pass.new }
        ensures looks { pass.new.looks ≡ pass.old.looks + 1 }
        ensures ok { IfOk result (λ taken. HasTaken pass.old pass.new hold now taken) }
        ensures err { OnErr result (pass.new.seen ≡ pass.old.seen) }
        ensures cause { IfErr result (HasCause (Event.Take hold now) pass.new.found) }
    {
        match self.call(pass, Event::Take { hold, now }) {
            Ok(reply) => Ok(taken(reply)),
            Err(fault) => Err(fault),
        }
    }

    /// Appends a page of a recovery to a hold of the pass: the bytes between two items, and what follows them. They are at
    /// most 262,144 bytes. A page that begins elsewhere than at the position is stale, and appends nothing.
    pub fn page(
        &self,
        pass: &mut HubPass,
        hold: u64,
        from: ItemId,
        to: ItemId,
        bytes: Body,
        then: Then,
    ) -> Result<PageReply, HubFault>
        requires turn { pass.old.turn ≡ self.now }
        requires keeps { Keeps pass.old hold }
        requires fits { fits (Event.Page hold from to bytes then) ≡ true }
        ensures same { IsSame pass.old pass.new }
        ensures looks { pass.new.looks ≡ pass.old.looks + 1 }
        ensures ok { IfOk result (λ answer. HasPaged pass.old pass.new hold (page_of from to bytes then) answer) }
        ensures err { OnErr result (pass.new.seen ≡ pass.old.seen) }
        ensures cause { IfErr result (HasCause (Event.Page hold from to bytes then) pass.new.found) }
    {
        let event = Event::Page {
            hold,
            from,
            to,
            bytes,
            then,
        };
        match self.call(pass, event) {
            Ok(reply) => Ok(paged(reply)),
            Err(fault) => Err(fault),
        }
    }

    /// Ends a hold of the pass as unrecovered, since a page can't be had. It takes no memory.
    pub fn page_failed(&self, pass: &mut HubPass, hold: u64) -> Result<FailedReply, HubFault>
        requires turn { pass.old.turn ≡ self.now }
        requires keeps { Keeps pass.old hold }
        ensures same { IsSame pass.old pass.new }
        ensures looks { pass.new.looks ≡ pass.old.looks + 1 }
        ensures ok { IfOk result (λ answer. HasFailed pass.old pass.new hold answer) }
        ensures err { OnErr result (pass.new.seen ≡ pass.old.seen) }
        ensures cause { IfErr result (HasCause (Event.PageFailed hold) pass.new.found) }
    {
        match self.call(pass, Event::PageFailed { hold }) {
            Ok(reply) => Ok(failed(reply)),
            Err(fault) => Err(fault),
        }
    }

    /// Lets a hold of the pass go. It takes no memory.
    pub fn detach(&self, pass: &mut HubPass, hold: u64) -> Result<(), HubFault>
        requires turn { pass.old.turn ≡ self.now }
        requires keeps { Keeps pass.old hold }
        ensures same { IsSame pass.old pass.new }
        ensures looks { pass.new.looks ≡ pass.old.looks + 1 }
        ensures ok { IfOk result (λ _. HasDetached pass.old pass.new hold) }
        ensures err { OnErr result (pass.new.seen ≡ pass.old.seen) }
        ensures cause { IfErr result (HasCause (Event.Detach hold) pass.new.found) }
    {
        match self.call(pass, Event::Detach { hold }) {
            Ok(_) => Ok(()),
            Err(fault) => Err(fault),
        }
    }
}
