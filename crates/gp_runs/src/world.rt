//! A world in memory, and who comes to its doors.
ghost use Rattle.std.specs.Prelude.{All, IfOk};
ghost use Rattle.gp_outside.specs.MemDials.{DialState, told_dial};
ghost use Rattle.gp_outside.specs.MemLinks.{LinkState, told_link};
ghost use Rattle.gp_outside.specs.MemWorlds.{IsUnusedMemKit};
ghost use Rattle.gp_outside.specs.Unused.{IsUnusedDial, IsUnusedLink};

use gp_outside::{
    Answers, Clocks, Dials, Kits, Links, MemClock, MemDial, MemFiles, MemKit, MemLink, MemListen,
    MemOut, MemWorld, PairGate, Times, Turn, Turns,
};
use gp_plain::Body;
use std::alloc::{AllocError, Global};

/// The room of each link, dialer and sink, in bytes.
const ROOM: usize = 10_000;

/// Who comes to the doors of a worker, and what the origins of each client answer.
#[derive(Drop)]
pub struct Doors {
    clients: Vec<Vec<u8>>,
    publishers: Vec<Vec<u8>>,
    answers: Vec<Vec<u8>>,
    /// How often a client's link isn't ready to be read behind its input, before that ends.
    stays: usize,
    /// How often each listener isn't ready behind its links, before it fails.
    idle: u64,
}

impl Doors {
    /// Nobody comes.
    pub fn new(alloc: Global) -> Doors {
        Doors {
            clients: Vec::new(alloc),
            publishers: Vec::new(alloc),
            answers: Vec::new(alloc),
            stays: 0,
            idle: 1_000_000_000_000,
        }
    }

    /// The listeners fail as soon as nobody comes anymore.
    pub fn fail(&mut self) {
        self.idle = 0;
    }

    /// Each client stays for so many reads.
    pub fn stay(&mut self, reads: usize) {
        self.stays = reads;
    }

    /// Takes what a line says. It says whether it is one.
    pub fn add(&mut self, kind: &str, text: Vec<u8>) -> Result<bool, AllocError> {
        match kind {
            "client" => self.clients.push(text)?,
            "publisher" => self.publishers.push(text)?,
            "answer" => self.answers.push(text)?,
            _ => return Ok(false),
        }
        Ok(true)
    }
}

/// The turns of a link whose whole input is read at once, and which then isn't ready so often.
fn reads(alloc: Global, stays: usize) -> Result<Turns, AllocError> {
    let mut turns = Vec::new(alloc);
    if 0 < stays {
        turns.push(Turn::Bytes(1_000))?;
    }
    for _read in 0..stays {
        turns.push(Turn::Wait)?;
    }
    Ok(Turns::from_vec(turns))
}

/// A link with this input, which isn't ready so often before it ends.
fn link(alloc: Global, input: &[u8], stays: usize) -> Result<MemLink, AllocError>
    ensures { IfOk result (λ link. IsUnusedLink (told_link link)) }
{
    let turns = reads(alloc, stays)?;
    MemLink::new(
        alloc,
        Body::new(alloc, input)?,
        ROOM,
        turns,
        Turns::new(alloc),
    )
}

fn links(alloc: Global, inputs: &[Vec<u8>], stays: usize) -> Result<Links, AllocError>
    ensures { IfOk result (All (λ (link : LinkState). IsUnusedLink (told_link link))) }
{
    let mut links = Vec::new(alloc);
    for input in inputs {
        links.push(link(alloc, input.as_slice(), stays)?)?;
    }
    Ok(Links::from_vec(links))
}

/// A dialer whose first talk is answered this.
fn dial(alloc: Global, answer: &[u8]) -> Result<MemDial, AllocError>
    ensures { IfOk result (λ dial. IsUnusedDial (told_dial dial)) }
{
    let mut answers = Vec::new(alloc);
    answers.push(Body::new(alloc, answer)?)?;
    let none = Turns::new(alloc);
    MemDial::new(
        alloc,
        Answers::from_vec(answers),
        ROOM,
        none,
        Turns::new(alloc),
        Turns::new(alloc),
    )
}

fn dials(alloc: Global, answers: &[Vec<u8>]) -> Result<Dials, AllocError>
    ensures { IfOk result (All (λ (dial : DialState). IsUnusedDial (told_dial dial))) }
{
    let mut dials = Vec::new(alloc);
    for answer in answers {
        dials.push(dial(alloc, answer.as_slice())?)?;
    }
    Ok(Dials::from_vec(dials))
}

fn kit(alloc: Global, doors: &Doors) -> Result<MemKit, AllocError>
    ensures { IfOk result IsUnusedMemKit }
{
    let clients = links(alloc, doors.clients.as_slice(), doors.stays)?;
    let publishers = links(alloc, doors.publishers.as_slice(), 0)?;
    let clients = MemListen::new(clients, doors.idle);
    let publishers = MemListen::new(publishers, doors.idle);
    let dials = dials(alloc, doors.answers.as_slice())?;
    let gate = PairGate::new(alloc, 0)?;
    Ok(MemKit::new(alloc, clients, publishers, dials, Clocks::new(alloc), gate))
}

fn kits(alloc: Global, doors: &[Doors]) -> Result<Kits, AllocError>
    ensures { IfOk result (All IsUnusedMemKit) }
{
    let mut kits = Vec::new(alloc);
    for one in doors {
        kits.push(kit(alloc, one)?)?;
    }
    Ok(Kits::from_vec(kits))
}

/// A world with a file, a sink, a clock that stands, and a kit for each worker.
pub fn world(
    alloc: Global,
    file: Vec<u8>,
    writes: Vec<Turn>,
    doors: &[Doors],
) -> Result<MemWorld, AllocError> {
    let path = Body::new(alloc, b"file")?;
    let reads = Turns::new(alloc);
    let files = MemFiles::new(alloc, path, Body::from_vec(file), reads);
    let out = MemOut::new(alloc, ROOM, Turns::from_vec(writes))?;
    let clock = MemClock::new(Times::new(alloc));
    Ok(MemWorld::new(alloc, files, out, clock, kits(alloc, doors)?))
}
