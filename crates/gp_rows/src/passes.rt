//! What two passes of one hub are answered.
ghost use Rattle.std.specs.Prelude.{◌≡◌, ◌+◌, ◌<◌, OnOk};
ghost use Rattle.gp_hub.specs.Own.{Keeps};

use crate::lines::{RecoveryPage, event, item, page, spec};
use crate::shown::add_reply;
use crate::sockets::socket;
use gp_hub::{FailedReply, Hub, HubFault, HubPass, PageReply};
use gp_plain::Taken;
use gp_replay::Registry;
use std::alloc::{AllocError, Global};

/// Adds the numbers of a pass.
fn add_pass(text: &mut String, pass: &HubPass) -> Result<(), AllocError> {
    let number = pass.number();
    let spare = pass.spare();
    let parts = pass.parts();
    writeln!(text, "pass {number} {spare} {parts}")
}

/// The word for why the hub served no event, or none where memory is wanting.
fn word_of(fault: &HubFault) -> Option<&'static str> {
    match fault {
        HubFault::Busy(_, _) => Some("busy\n"),
        HubFault::Worn(_) => Some("worn\n"),
        HubFault::NoMemory(_) => None,
    }
}

/// The same, and the fault is dropped.
fn word(fault: HubFault) -> Option<&'static str> {
    let word = word_of(&fault);
    drop(fault);
    word
}

/// Adds why the hub served no event.
pub fn add_fault(text: &mut String, fault: HubFault) -> Result<(), AllocError> {
    match word(fault) {
        Some(word) => text.push_str(word),
        None => Err(AllocError),
    }
}

/// How many holds a registry keeps, which is dropped.
fn kept(registry: Registry) -> u32 {
    let kept = registry.kept();
    drop(registry);
    kept
}

/// Adds how many holds the registry of a closed hub keeps.
fn add_kept(text: &mut String, registry: Registry) -> Result<(), AllocError> {
    writeln!(text, "kept {}", kept(registry))
}

/// Drops a hub and its pass where memory was wanting.
fn let_go(hub: Hub, pass: HubPass, refused: AllocError) -> Result<(), AllocError> {
    drop(hub);
    drop(pass);
    Err(refused)
}

/// Calls the hub with the event of a line, and adds the reply.
fn call(
    alloc: Global,
    text: &mut String,
    hub: &Hub,
    pass: &mut HubPass,
    line: &str,
) -> Result<(), AllocError>
    requires { pass.old.turn ≡ hub.now }
    ensures { (pass.new.turn ≡ pass.old.turn) × (pass.new.parts ≡ pass.old.parts) }
{
    match hub.call(pass, event(alloc, line)?) {
        Ok(reply) => add_reply(alloc, text, reply),
        Err(fault) => add_fault(text, fault),
    }
}

/// Takes of a hold that is not one's own, of one that is, and lets it go.
fn calls(
    alloc: Global,
    text: &mut String,
    hub: &Hub,
    first: &mut HubPass,
    second: &mut HubPass,
) -> Result<(), AllocError>
    requires { (first.old.turn ≡ hub.now) × (second.old.turn ≡ hub.now) }
    ensures first { (first.new.turn ≡ first.old.turn) × (first.new.parts ≡ first.old.parts) }
    ensures second { (second.new.turn ≡ second.old.turn) × (second.new.parts ≡ second.old.parts) }
{
    call(alloc, text, hub, first, "attach stream news a link hi")?;
    call(alloc, text, hub, second, "take 0 0")?;
    call(alloc, text, hub, second, "publish news b a X")?;
    call(alloc, text, hub, second, "publish news b a X")?;
    call(alloc, text, hub, first, "take 0 0")?;
    call(alloc, text, hub, first, "detach 0")
}

/// Publishes the item of a line, by the call of a pass's own.
fn publish(
    alloc: Global,
    text: &mut String,
    hub: &Hub,
    pass: &mut HubPass,
    line: &str,
) -> Result<(), AllocError>
    requires { pass.old.turn ≡ hub.now }
    ensures { (pass.new.turn ≡ pass.old.turn) × (pass.new.parts ≡ pass.old.parts) }
{
    match hub.publish(pass, item(alloc, line)?) {
        Ok(Some(count)) => writeln!(text, "published {count}"),
        Ok(None) => text.push_str("repeat\n"),
        Err(fault) => add_fault(text, fault),
    }
}

/// How many pieces were taken, and whether the hold has ended.
fn sums(taken: Taken) -> (usize, bool) {
    let sums = (taken.pieces.len(), taken.ended.is_some());
    drop(taken);
    sums
}

/// Adds what was taken.
fn add_taken(text: &mut String, taken: Taken) -> Result<(), AllocError> {
    let (count, has_ended) = sums(taken);
    writeln!(text, "took {count}")?;
    text.push_str(if has_ended { "ended\n" } else { "" })
}

/// Lets a hold of the pass go.
pub fn detach(text: &mut String, hub: &Hub, pass: &mut HubPass, hold: u64) -> Result<(), AllocError>
    requires turn { pass.old.turn ≡ hub.now }
    requires keeps { Keeps pass.old hold }
    ensures { (pass.new.turn ≡ pass.old.turn) × (pass.new.parts ≡ pass.old.parts) }
{
    match hub.detach(pass, hold) {
        Ok(()) => text.push_str("let go\n"),
        Err(fault) => add_fault(text, fault),
    }
}

/// Takes of a hold of the pass, and lets it go where it hasn't ended.
fn take_and_detach(
    text: &mut String,
    hub: &Hub,
    pass: &mut HubPass,
    hold: u64,
) -> Result<(), AllocError>
    requires turn { pass.old.turn ≡ hub.now }
    requires keeps { Keeps pass.old hold }
    ensures { (pass.new.turn ≡ pass.old.turn) × (pass.new.parts ≡ pass.old.parts) }
{
    match hub.take(pass, hold, 0) {
        Ok(taken) => {
            let has_ended = taken.ended.is_some();
            add_taken(text, taken)?;
            if has_ended {
                return Ok(());
            }
            detach(text, hub, pass, hold)
        }
        Err(fault) => add_fault(text, fault),
    }
}

/// Attaches the hold of a line, takes of it, and lets it go where it hasn't ended.
fn hold(
    alloc: Global,
    text: &mut String,
    hub: &Hub,
    pass: &mut HubPass,
    line: &str,
) -> Result<(), AllocError>
    requires { pass.old.turn ≡ hub.now }
    ensures { (pass.new.turn ≡ pass.old.turn) × (pass.new.parts ≡ pass.old.parts) }
{
    match hub.attach(pass, spec(alloc, line)?) {
        Ok(Some(hold)) => {
            writeln!(text, "has {hold}")?;
            take_and_detach(text, hub, pass, hold)
        }
        Ok(None) => text.push_str("full\n"),
        Err(fault) => add_fault(text, fault),
    }
}

/// The line for what a page was answered.
fn page_word(answer: &PageReply) -> &'static str {
    match answer {
        PageReply::Paged => "paged\n",
        PageReply::Stale(_) => "stale\n",
        PageReply::Gone(_) => "gone\n",
        PageReply::OtherKind(_) => "other\n",
    }
}

/// Adds what a page was answered.
fn add_page(text: &mut String, answer: PageReply) -> Result<(), AllocError> {
    let word = page_word(&answer);
    drop(answer);
    text.push_str(word)
}

/// The line for what was answered where a page can't be had.
fn failed_word(answer: FailedReply) -> &'static str {
    match answer {
        FailedReply::Done => "failed\n",
        FailedReply::Gone(_) => "gone\n",
        FailedReply::OtherKind(_) => "other\n",
    }
}

/// Ends a hold of the pass for want of a page, and lets it go.
fn fail_and_detach(
    text: &mut String,
    hub: &Hub,
    pass: &mut HubPass,
    hold: u64,
) -> Result<(), AllocError>
    requires turn { pass.old.turn ≡ hub.now }
    requires keeps { Keeps pass.old hold }
    ensures { (pass.new.turn ≡ pass.old.turn) × (pass.new.parts ≡ pass.old.parts) }
{
    match hub.page_failed(pass, hold) {
        Ok(answer) => {
            text.push_str(failed_word(answer))?;
            detach(text, hub, pass, hold)
        }
        Err(fault) => add_fault(text, fault),
    }
}

/// Brings a page to a hold of the pass, and ends the hold for want of the next.
fn page_and_fail(
    alloc: Global,
    text: &mut String,
    hub: &Hub,
    pass: &mut HubPass,
    hold: u64,
) -> Result<(), AllocError>
    requires turn { pass.old.turn ≡ hub.now }
    requires keeps { Keeps pass.old hold }
    ensures { (pass.new.turn ≡ pass.old.turn) × (pass.new.parts ≡ pass.old.parts) }
{
    let RecoveryPage {
        from,
        to,
        bytes,
        then,
    } = page(alloc, "page 0 a b next X")?;
    match hub.page(pass, hold, from, to, bytes, then) {
        Ok(answer) => {
            add_page(text, answer)?;
            fail_and_detach(text, hub, pass, hold)
        }
        Err(fault) => add_fault(text, fault),
    }
}

/// Attaches the hold of a line, which gets a page and ends for want of the next.
fn paged_hold(
    alloc: Global,
    text: &mut String,
    hub: &Hub,
    pass: &mut HubPass,
    line: &str,
) -> Result<(), AllocError>
    requires { pass.old.turn ≡ hub.now }
    ensures { (pass.new.turn ≡ pass.old.turn) × (pass.new.parts ≡ pass.old.parts) }
{
    match hub.attach(pass, spec(alloc, line)?) {
        Ok(Some(hold)) => {
            writeln!(text, "has {hold}")?;
            page_and_fail(alloc, text, hub, pass, hold)
        }
        Ok(None) => text.push_str("full\n"),
        Err(fault) => add_fault(text, fault),
    }
}

/// Publishes, attaches holds, brings one of them a page, and another messages.
fn own(alloc: Global, text: &mut String, hub: &Hub, pass: &mut HubPass) -> Result<(), AllocError>
    requires { pass.old.turn ≡ hub.now }
    ensures { (pass.new.turn ≡ pass.old.turn) × (pass.new.parts ≡ pass.old.parts) }
{
    publish(alloc, text, hub, pass, "publish news b a X")?;
    publish(alloc, text, hub, pass, "publish news b a X")?;
    hold(alloc, text, hub, pass, "attach stream news a link hi")?;
    publish(alloc, text, hub, pass, "close news c b")?;
    hold(alloc, text, hub, pass, "attach stream news a link hi")?;
    paged_hold(alloc, text, hub, pass, "attach stream sport a link hi")?;
    socket(alloc, text, hub, pass)
}

/// What a pass is answered by the calls of its own.
pub fn own_calls(alloc: Global, text: &mut String) -> Result<(), AllocError> {
    let (hub, mut pass) = Hub::new(alloc)?;
    match own(alloc, text, &hub, &mut pass) {
        Ok(()) => add_kept(text, hub.close(pass)),
        Err(refused) => let_go(hub, pass, refused),
    }
}

/// Adds the numbers of a pass and of one that was split off, and calls by both.
fn call_both(
    alloc: Global,
    text: &mut String,
    hub: &Hub,
    first: &mut HubPass,
    second: &mut HubPass,
) -> Result<(), AllocError>
    requires { (first.old.turn ≡ hub.now) × (second.old.turn ≡ hub.now) }
    ensures first { (first.new.turn ≡ first.old.turn) × (first.new.parts ≡ first.old.parts) }
    ensures second { (second.new.turn ≡ second.old.turn) × (second.new.parts ≡ second.old.parts) }
{
    add_pass(text, first)?;
    add_pass(text, second)?;
    calls(alloc, text, hub, first, second)
}

/// A pass is split off, called by, and joined again.
fn split(alloc: Global, text: &mut String, hub: &Hub, first: &mut HubPass) -> Result<(), AllocError>
    requires turn { first.old.turn ≡ hub.now }
    requires spare { (10 < first.old.spare) × (10 < first.old.parts) }
    ensures turn { first.new.turn ≡ first.old.turn }
    ensures parts { OnOk result (first.new.parts ≡ first.old.parts) }
{
    let mut second = hub.split(first, 10)?;
    let called = call_both(alloc, text, hub, first, &mut second);
    hub.join(second, first);
    called
}

/// Splits a pass, and adds its numbers before and after.
fn split_all(
    alloc: Global,
    text: &mut String,
    hub: &Hub,
    first: &mut HubPass,
) -> Result<(), AllocError>
    requires turn { first.old.turn ≡ hub.now }
    requires spare { (10 < first.old.spare) × (10 < first.old.parts) }
    ensures turn { first.new.turn ≡ first.old.turn }
    ensures parts { OnOk result (first.new.parts ≡ first.old.parts) }
{
    add_pass(text, first)?;
    split(alloc, text, hub, first)?;
    add_pass(text, first)
}

/// A hold is foreign to another pass; the passes are joined, and the registry is left.
pub fn passes(alloc: Global, text: &mut String) -> Result<(), AllocError> {
    let (hub, mut first) = Hub::new(alloc)?;
    match split_all(alloc, text, &hub, &mut first) {
        Ok(()) => add_kept(text, hub.close(first)),
        Err(refused) => let_go(hub, first, refused),
    }
}
