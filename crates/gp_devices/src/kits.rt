ghost use Rattle.std.specs.Prelude.{All, IfOk, ◌≡◌};
ghost use Rattle.gp_outside.specs.Listens.{IsUnusedListen};
ghost use Rattle.gp_outside.specs.MemDials.{DialState, told_dial};
ghost use Rattle.gp_outside.specs.MemLinks.{LinkState, told_link};
ghost use Rattle.gp_outside.specs.MemListens.{told_listen};
ghost use Rattle.gp_outside.specs.Unused.{IsUnusedDial, IsUnusedLink};

use crate::words::{number, push_bytes, turn, turns};
use gp_outside::{
    Accepted, Answers, Clock, Clocks, Dial, Dials, Ended, FreeGate, Gate, Idle, Kit, Link, Links,
    Listen, MemClock, MemDial, MemKit, MemLink, MemListen, PairGate, Times, Turns,
};
use gp_plain::{Address, Body};
use std::alloc::{AllocError, Global};

/// The numbers between commas, or none for `-`.
fn times(alloc: Global, word: &str) -> Result<Times, AllocError> {
    let mut times = Vec::new(alloc);
    for part in word.split(',') {
        if part != "-" {
            times.push(part.parse::<u64>().unwrap_or(0))?;
        }
    }
    Ok(Times::from_vec(times))
}

/// `clock TIMES COUNT`: what so many calls give.
pub fn clock(alloc: Global, text: &mut String, words: &[&str]) -> Result<(), AllocError> {
    let [word, count] = words else {
        return Ok(());
    };
    let mut clock = MemClock::new(times(alloc, word)?);
    for _call in 0..number(count) {
        write!(text, "{} ", clock.now())?;
    }
    Ok(())
}

/// `then COUNT TURN TAKES`: so many turns of the list, one after another.
pub fn then(alloc: Global, text: &mut String, words: &[&str]) -> Result<(), AllocError> {
    let [count, last, takes] = words else {
        return Ok(());
    };
    let mut turns = Turns::then(alloc, number(count), turn(last))?;
    for _take in 0..number(takes) {
        write!(text, "{:?} ", turns.take_first())?;
    }
    Ok(())
}

/// A link without input.
fn link(alloc: Global) -> Result<MemLink, AllocError>
    ensures { IfOk result (λ link. IsUnusedLink (told_link link)) }
{
    let none = Turns::new(alloc);
    MemLink::new(alloc, Body::empty(alloc), 8, none, Turns::new(alloc))
}

/// Two links.
fn links(alloc: Global) -> Result<Links, AllocError>
    ensures { IfOk result (All (λ (link : LinkState). IsUnusedLink (told_link link))) }
{
    let links = vec![in alloc; link(alloc)?, link(alloc)?]?;
    Ok(Links::from_vec(links))
}

/// One dialer with one answer.
fn dials(alloc: Global) -> Result<Dials, AllocError>
    ensures { IfOk result (All (λ (dial : DialState). IsUnusedDial (told_dial dial))) }
{
    let answers = Answers::from_vec(vec![in alloc; Body::empty(alloc)]?);
    let none = Turns::new(alloc);
    let reads = Turns::new(alloc);
    let dial = MemDial::new(alloc, answers, 8, none, reads, Turns::new(alloc))?;
    Ok(Dials::from_vec(vec![in alloc; dial]?))
}

/// A listener of two clients, and one of no publisher.
fn listeners(alloc: Global, idle: u64) -> Result<(MemListen, MemListen), AllocError>
    ensures { IfOk result (λ made. IsUnusedListen (told_listen made.0) × IsUnusedListen (told_listen made.1)) }
{
    let clients = MemListen::new(links(alloc)?, idle);
    Ok((clients, MemListen::new(Links::new(alloc), idle)))
}

/// One clock.
fn clocks(alloc: Global) -> Result<Clocks, AllocError> {
    let clock = MemClock::new(times(alloc, "5,6")?);
    Ok(Clocks::from_vec(vec![in alloc; clock]?))
}

fn kit(alloc: Global, idle: u64) -> Result<MemKit, AllocError> {
    let gate = PairGate::new(alloc, 0)?;
    let clocks = clocks(alloc)?;
    let dials = dials(alloc)?;
    let (clients, publishers) = listeners(alloc, idle)?;
    Ok(MemKit::new(alloc, clients, publishers, dials, clocks, gate))
}

/// Calls an origin.
fn push_connect<D: Dial>(alloc: Global, text: &mut String, dial: &mut D) -> Result<(), AllocError> {
    let host = Body::new(alloc, b"a")?;
    write!(text, "{:?} ", dial.connect(&Address { host, port: 80 }))
}

/// Calls an origin, and sends a letter to a client.
fn push_service<L: Link, D: Dial, C: Clock>(
    alloc: Global,
    text: &mut String,
    link: &mut L,
    dial: &mut D,
    clock: &mut C,
) -> Result<(), AllocError> {
    push_connect(alloc, text, dial)?;
    write!(text, "{:?} {} ", link.write(b"x"), clock.now())
}

/// Serves one client: it calls an origin, and is sent a letter.
fn serve<K: Kit>(
    alloc: Global,
    text: &mut String,
    kit: &mut K,
    mut link: <K::Listen as Listen>::Link,
) -> Result<(), AllocError> {
    let mut dial = kit.dial();
    let mut clock = kit.clock();
    push_service(alloc, text, &mut link, &mut dial, &mut clock)?;
    kit.over(link, Some((dial, clock)))
}

/// Takes a publisher, and hands it back at once.
fn take_publisher<K: Kit>(text: &mut String, kit: &mut K) -> Result<(), AllocError> {
    match kit.publishers().accept() {
        Accepted::Took(link) => kit.over(link, None),
        Accepted::NotReady => text.push_str("NotReady "),
        Accepted::Failed => text.push_str("Failed "),
    }
}

/// Takes a client, and serves it at once.
fn take_client<K: Kit>(alloc: Global, text: &mut String, kit: &mut K) -> Result<(), AllocError> {
    match kit.clients().accept() {
        Accepted::Took(link) => serve(alloc, text, kit, link),
        Accepted::NotReady => text.push_str("NotReady "),
        Accepted::Failed => text.push_str("Failed "),
    }
}

/// One round of a worker that serves each client at once.
fn round<K: Kit>(alloc: Global, text: &mut String, kit: &mut K) -> Result<(), AllocError> {
    take_publisher(text, kit)?;
    take_client(alloc, text, kit)?;
    kit.gate().before(1);
    kit.gate().after(1);
    kit.idle().rest();
    Ok(())
}

/// Adds what was sent to a client that was handed back, and whether its dialer had a talk.
fn push_ended(text: &mut String, ended: &Ended) -> Result<(), AllocError> {
    push_bytes(text, ended.link.sent())?;
    match &ended.others {
        Some((dial, _)) => write!(text, " talk {} ", dial.sent(0).is_some()),
        None => text.push_str(" none "),
    }
}

fn push_rounds(
    alloc: Global,
    text: &mut String,
    kit: &mut MemKit,
    count: usize,
) -> Result<(), AllocError> {
    for _round in 0..count {
        round(alloc, text, kit)?;
    }
    for place in 0..3usize {
        match kit.ended(place) {
            Some(ended) => push_ended(text, ended)?,
            None => text.push_str("none ")?,
        }
    }
    Ok(())
}

/// `kit IDLE ROUNDS`: what so many rounds do with a kit of two clients, one dialer and one clock, and what the first
/// three sessions handed back: what was sent to the client, and whether there was a talk.
pub fn rounds(alloc: Global, text: &mut String, words: &[&str]) -> Result<(), AllocError> {
    let [idle, count] = words else {
        return Ok(());
    };
    let mut kit = kit(alloc, idle.parse::<u64>().unwrap_or(0))?;
    push_rounds(alloc, text, &mut kit, number(count))
}

fn pass<G: Gate>(gate: &G, call: &str) {
    match call {
        "before0" => gate.before(0),
        "before1" => gate.before(1),
        "after0" => gate.after(0),
        "after1" => gate.after(1),
        _ => {}
    }
}

fn push_calls(text: &mut String, gates: [&PairGate; 2], calls: &[&str]) -> Result<(), AllocError> {
    for (place, call) in calls.iter().enumerate() {
        pass(&FreeGate, call);
        pass(gates[place % 2], call);
        write!(text, "{} {} ", gates[0].late(), gates[1].late())?;
    }
    Ok(())
}

/// `gate TURNS CALL..`: whether a gate was late after each call. The calls alternate between two handles.
pub fn gate(alloc: Global, text: &mut String, words: &[&str]) -> Result<(), AllocError> {
    let [count, calls @ ..] = words else {
        return Ok(());
    };
    let gate = PairGate::new(alloc, count.parse::<u64>().unwrap_or(0))?;
    let other = gate.copy()?;
    push_calls(text, [&gate, &other], calls)
}
