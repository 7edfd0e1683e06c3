//! The calls on plain values that no script makes: names that are refused, copies, lists, and the count of what was taken.
use crate::lines::{item, spec};
use crate::shown::{add_event, add_piece, push_bytes};
use gp_plain::{
    Address, Body, EndCause, Event, HoldReport, HoldSpec, Item, ItemId, List, Message, Name, Piece,
    Queue, Roomed, Tally, copy_names,
};
use gp_script::write_report;
use std::alloc::{AllocError, Global};

/// Adds what a name of these bytes is, or why there is none.
fn add_name(alloc: Global, text: &mut String, bytes: &[u8]) -> Result<(), AllocError> {
    match Name::new(alloc, bytes) {
        Ok(name) => add_copied_name(alloc, text, name),
        Err(fault) => writeln!(text, "{fault:?}"),
    }
}

fn add_copied_name(alloc: Global, text: &mut String, name: Name) -> Result<(), AllocError> {
    let copy = name.copy(alloc);
    drop(name);
    push_bytes(text, copy?.bytes())?;
    text.push('\n')
}

/// Adds what an id of these bytes is, or why there is none.
fn add_id(alloc: Global, text: &mut String, bytes: &[u8]) -> Result<(), AllocError> {
    match ItemId::from_vec(Vec::from_slice(alloc, bytes)?) {
        Ok(id) => add_copied_id(alloc, text, id),
        Err(fault) => writeln!(text, "{fault:?}"),
    }
}

fn add_copied_id(alloc: Global, text: &mut String, id: ItemId) -> Result<(), AllocError> {
    let copy = id.copy(alloc);
    drop(id);
    push_bytes(text, copy?.bytes())?;
    text.push('\n')
}

/// Names and ids, and those that are refused, each by its first fault.
pub fn names(alloc: Global, text: &mut String) -> Result<(), AllocError> {
    for name in [b"".as_slice(), &[b','; 256], b"a,\x1f", b"a ", b"a b"] {
        add_name(alloc, text, name)?;
    }
    add_id(alloc, text, b"7;")?;
    add_id(alloc, text, b"a b~")
}

/// A copy of the item that a line publishes.
fn copied(alloc: Global, line: &str) -> Result<Item, AllocError> {
    let item = item(alloc, line)?;
    let copy = item.copy(alloc);
    drop(item);
    copy
}

/// Adds the line of a copy of the item that a line publishes.
fn add_copy(alloc: Global, text: &mut String, line: &str) -> Result<(), AllocError> {
    let item = copied(alloc, line)?;
    add_event(alloc, text, Event::Publish { item })
}

/// Adds the line of a copy of a message.
fn add_message(alloc: Global, text: &mut String, message: Message) -> Result<(), AllocError> {
    let copy = message.copy(alloc);
    drop(message);
    add_piece(alloc, text, Piece::Message(copy?))
}

fn add_messages(alloc: Global, text: &mut String) -> Result<(), AllocError> {
    add_message(alloc, text, Message::Text(Body::new(alloc, b"a")?))?;
    add_message(alloc, text, Message::Binary(Body::new(alloc, b"b")?))?;
    add_message(alloc, text, Message::Ping(Body::new(alloc, b"c")?))?;
    add_message(alloc, text, Message::Pong(Body::new(alloc, b"d")?))?;
    let close = Message::Close {
        code: Some(1001),
        reason: Body::new(alloc, b"away")?,
    };
    add_message(alloc, text, close)
}

fn address(alloc: Global) -> Result<Address, AllocError> {
    Ok(Address {
        host: Body::new(alloc, b"a.example")?,
        port: 80,
    })
}

/// Adds a copy of an address.
fn add_address(alloc: Global, text: &mut String) -> Result<(), AllocError> {
    let copy = address(alloc)?.copy(alloc)?;
    push_bytes(text, copy.host.bytes())?;
    writeln!(text, ":{}", copy.port)
}

/// Copies of items with a part each, of messages, and of an address.
pub fn copies(alloc: Global, text: &mut String) -> Result<(), AllocError> {
    for line in [
        "publish news 2 1 part",
        "close news 2 !",
        "answer news ! 1 201 made",
        "message news 2 1 binary frame",
    ] {
        add_copy(alloc, text, line)?;
    }
    add_messages(alloc, text)?;
    add_address(alloc, text)
}

/// Gives a list, a queue and a list with room 5 and 6.
fn fill(list: &mut List<u8>, queue: &mut Queue<u8>, roomed: &mut Roomed<u8>) {
    for number in [5u8, 6u8] {
        let _ = list.push(number);
        let _ = queue.push(number);
        let _ = roomed.push(number);
    }
}

/// What a list, a queue and a list with room give back of 5 and 6.
pub fn lists(alloc: Global, text: &mut String) -> Result<(), AllocError> {
    let mut list = List::new(alloc);
    let mut queue = Queue::new(alloc);
    let mut roomed = Roomed::new(alloc);
    roomed.reserve(2)?;
    fill(&mut list, &mut queue, &mut roomed);
    for _time in 0..3u8 {
        let taken = (list.take_first(), queue.take_first(), roomed.take_first());
        writeln!(text, "{taken:?}")?;
    }
    Ok(())
}

/// Adds the channels of a plain hold, copied.
fn add_channels(alloc: Global, text: &mut String, spec: &HoldSpec) -> Result<(), AllocError> {
    if let HoldSpec::Plain { channels, .. } = spec {
        for name in copy_names(alloc, channels)?.as_slice() {
            push_bytes(text, name.bytes())?;
            text.push('\n')?;
        }
    }
    Ok(())
}

/// The count of a hold of which nothing was taken. It adds the hold's channels where it is a plain one.
fn tally_of(alloc: Global, text: &mut String, spec: &HoldSpec) -> Result<Tally, AllocError> {
    add_channels(alloc, text, spec)?;
    Tally::new(alloc, spec)
}

/// The count of the hold that a line attaches, in the same way.
fn tally(alloc: Global, text: &mut String, line: &str) -> Result<Tally, AllocError> {
    let spec = spec(alloc, line)?;
    let tally = tally_of(alloc, text, &spec);
    drop(spec);
    tally
}

fn count_opening(alloc: Global, tally: &mut Tally) -> Result<(), AllocError> {
    tally.add(Piece::Opening(Body::new(alloc, b"hi")?));
    Ok(())
}

fn count_item(
    alloc: Global,
    tally: &mut Tally,
    to: Option<ItemId>,
    bytes: &[u8],
) -> Result<(), AllocError> {
    let bytes = Body::new(alloc, bytes)?;
    tally.add(Piece::Item {
        to,
        bytes,
        close: false,
    });
    Ok(())
}

/// What is told of a hold of which an opening, an item and an item without an id were taken.
fn report(
    alloc: Global,
    mut tally: Tally,
    told: Option<EndCause>,
) -> Result<HoldReport, AllocError> {
    count_opening(alloc, &mut tally)?;
    count_item(alloc, &mut tally, ItemId::new(alloc, b"b").ok(), b"item")?;
    count_item(alloc, &mut tally, None, b"more")?;
    Ok(tally.report(3, told))
}

fn add_report(alloc: Global, text: &mut String, report: &HoldReport) -> Result<(), AllocError> {
    push_bytes(text, write_report(alloc, report)?.bytes())
}

/// Adds what is told of a hold by a running count.
fn add_tally(
    alloc: Global,
    text: &mut String,
    line: &str,
    told: Option<EndCause>,
) -> Result<(), AllocError> {
    let tally = tally(alloc, text, line)?;
    add_report(alloc, text, &report(alloc, tally, told)?)
}

/// What is told of a reliable hold that overflowed, and of a plain one that was let go.
pub fn tallies(alloc: Global, text: &mut String) -> Result<(), AllocError> {
    let overflow = Some(EndCause::Overflow);
    add_tally(alloc, text, "attach stream news a link hi", overflow)?;
    add_tally(alloc, text, "attach plain news,sport hi", None)
}
