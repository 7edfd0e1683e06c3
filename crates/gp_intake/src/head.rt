//! The head of a request.
ghost use Rattle.std.specs.Prelude.{◌≡◌, []};
ghost use Rattle.gp_head.specs.Heads.{IsRead, IsRequestText};
ghost use Rattle.gp_head.specs.declared.read.HeadRead.TheVariants.{Whole};
ghost use Rattle.gp_intake.specs.Heads.{IsBegun};
ghost use Rattle.gp_intake.specs.Polls.{BeginsBody, BeginsReading, PollsHead, RefusesHead};

use crate::body::BodyIntake;
use crate::came::{Came, read_more};
use crate::fault::{Refused, RequestFault, Unserved};
use crate::reading::BodyReading;
use crate::served::served;
use gp_body::BodyPlan;
use gp_head::{HeadRead, HeadScan};
use gp_outside::Link;
use gp_plain::{Body, Request};
use std::alloc::Global;
use std::marker::Model;

/// What a poll of a head gives.
#[derive(Drop)]
pub enum HeadPolled {
    /// The head is whole and served.
    Head(BodyIntake),
    /// The request is refused.
    Refused(Refused),
    /// The rest of the head hasn't come.
    NotReady(HeadIntake),
    /// The client sends no more, or can't be read.
    ClientGone,
    /// Memory is wanting.
    NoMemory,
}

/// A request of which the head is read. Contracts see the bytes that came.
#[derive(Drop)]
pub struct HeadIntake {
    alloc: Global,
    scan: HeadScan,
    bytes: Vec<u8>,
}

impl Model for HeadIntake {
    ghost use Rattle.std.specs.Prelude.{◌≡◌, List, ℕ};

    ghost Value = { List ℕ };

    ghost use Rattle.gp_intake.specs.Heads.{IsScanned};

    ghost view = { λ i. i.bytes.items };

    ghost invariant = { λ i. IsScanned i.scan i.bytes.items };
}

impl HeadIntake {
    /// A request of which nothing has come. It takes no memory.
    pub fn new(alloc: Global) -> HeadIntake
        ensures none { result ≡ [] }
        ensures begun { IsBegun result }
    {
        HeadIntake {
            alloc,
            scan: HeadScan::new(),
            bytes: Vec::new(alloc),
        }
    }

    /// Reads until the head is whole or refused, or the link waits. Each byte is looked at once, and the bytes are let go with
    /// the head.
    pub fn poll<L: Link>(mut self, link: &mut L) -> HeadPolled
        ensures { PollsHead self (L.tells link.old) (L.tells link.new) result }
    {
        loop {
            match read_more(&mut self.bytes, link) {
                Came::Bytes => {}
                Came::NotReady => return HeadPolled::NotReady(self),
                Came::Gone => return HeadPolled::ClientGone,
                Came::NoMemory => return HeadPolled::NoMemory,
            }
            match self.scan.read_request(self.alloc, &self.bytes) {
                HeadRead::More => {}
                HeadRead::Whole(head, length) => {
                    return headed(self.alloc, head, &self.bytes, length);
                }
                HeadRead::Bad => return refuse(self.alloc, RequestFault::Head),
                HeadRead::TooMany => return refuse(self.alloc, RequestFault::HeadTooLarge),
                HeadRead::TooLong => return refuse(self.alloc, RequestFault::HeadTooLarge),
                HeadRead::NoMemory => return HeadPolled::NoMemory,
            }
        }
    }
}

/// Goes on behind a head, which stands first in the bytes and has this length.
fn headed(alloc: Global, head: Request, bytes: &[u8], length: usize) -> HeadPolled
    requires { IsRead IsRequestText bytes.now (Whole head length) }
    ensures { BeginsBody bytes.now result }
{
    match served(alloc, &head) {
        Ok((path, plan)) => begin(alloc, head, path, plan, &bytes[length..]),
        Err(Unserved::Fault(fault)) => HeadPolled::Refused(Refused {
            fault,
            method: head.method,
        }),
        Err(Unserved::NoMemory) => HeadPolled::NoMemory,
    }
}

/// Begins a body, of which these bytes have come.
fn begin(alloc: Global, head: Request, path: Body, plan: BodyPlan, bytes: &[u8]) -> HeadPolled
    ensures { BeginsReading head path plan bytes.now result }
{
    let mut body = BodyReading::new(alloc, plan);
    match body.take(bytes) {
        Ok(()) => HeadPolled::Head(BodyIntake::new(head, path, body)),
        Err(_) => HeadPolled::NoMemory,
    }
}

/// The refusal of a request whose head wasn't read.
fn refuse(alloc: Global, fault: RequestFault) -> HeadPolled
    ensures { RefusesHead fault result }
{
    HeadPolled::Refused(Refused {
        fault,
        method: Body::empty(alloc),
    })
}
