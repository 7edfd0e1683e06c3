//! The rest of a request, behind its head.
ghost use Rattle.std.specs.Prelude.{◌≡◌, Some, true, None};
ghost use Rattle.gp_body.specs.Steps.{is_end};
ghost use Rattle.gp_intake.specs.Bodies.{IsCause};
ghost use Rattle.gp_intake.specs.Requests.{request_fault};
ghost use Rattle.gp_intake.specs.Polls.{AnswersRefused, AnswersWhole, PollsBody};

use crate::came::Came;
use crate::fault::{Refused, RequestFault};
use crate::reading::{BodyReading, MAX_BODY};
use gp_body::FedFault;
use gp_outside::Link;
use gp_plain::{Body, Request};
use std::marker::Model;

/// A whole request.
#[derive(Drop)]
pub struct Whole {
    /// Its head.
    pub head: Request,
    /// The path and query of its target.
    pub path: Body,
    /// The content of its body.
    pub body: Body,
    /// The bytes that came behind it.
    pub unused: Body,
}

/// What a poll behind the head gives.
#[derive(Drop)]
pub enum BodyPolled {
    /// The request is whole.
    Whole(Whole),
    /// The request is refused.
    Refused(Refused),
    /// The rest hasn't come.
    NotReady(BodyIntake),
    /// The client sends no more, or can't be read.
    ClientGone,
    /// Memory is wanting.
    NoMemory,
}

/// A request whose head is served, and of which the body is read.
#[derive(Drop)]
pub struct BodyIntake {
    head: Request,
    path: Body,
    body: BodyReading,
}

impl Model for BodyIntake {
    ghost use Rattle.gp_intake.specs.Requests.{HeadedView};

    ghost Value = { HeadedView };

    ghost view = { λ b. record { head = b.head; path = b.path; body = b.body } };
}

/// Which fault of a request that of its body is.
fn request_fault(fault: FedFault) -> RequestFault
    ensures { result ≡ request_fault fault }
{
    match fault {
        FedFault::Chunk(place) => RequestFault::Chunk(place),
        FedFault::TooLong(_) => RequestFault::TooLong,
        FedFault::Cut(_) => RequestFault::TooLong,
    }
}

impl BodyIntake {
    /// A request with a head that is served, the path and query of its target, and what has come of its body.
    pub(crate) fn new(head: Request, path: Body, body: BodyReading) -> BodyIntake
        ensures { result ≡ record { head = head; path = path; body = body } }
    {
        BodyIntake { head, path, body }
    }

    /// The head.
    pub fn head(&self) -> &Request
        ensures { result.now ≡ self.now.head }
    {
        &self.head
    }

    /// The path and query of the target.
    pub fn path(&self) -> &[u8]
        ensures { result.now ≡ self.now.path }
    {
        self.path.bytes()
    }

    /// Reads until the request is whole or refused, or the link waits. It copies each byte of content once.
    pub fn poll<L: Link>(mut self, link: &mut L) -> BodyPolled
        ensures { PollsBody self (L.tells link.old) (L.tells link.new) result }
    {
        loop {
            match self.body.refusal() {
                Some(fault) => return self.refuse(fault),
                None => {}
            }
            if self.body.is_end() {
                return self.whole();
            }
            match self.body.read(link) {
                Came::Bytes => {}
                Came::NotReady => return BodyPolled::NotReady(self),
                Came::Gone => return BodyPolled::ClientGone,
                Came::NoMemory => return BodyPolled::NoMemory,
            }
        }
    }

    /// The refusal of a body with this fault.
    fn refuse(self, fault: FedFault) -> BodyPolled
        requires refused { self.body.reading.refused ≡ Some fault }
        requires cause { IsCause MAX_BODY (Some fault) }
        ensures { AnswersRefused self result }
    {
        BodyPolled::Refused(Refused {
            fault: request_fault(fault),
            method: self.head.method,
        })
    }

    /// The request, whose body has ended.
    fn whole(self) -> BodyPolled
        requires open { self.body.reading.refused ≡ None }
        requires end { is_end self.body.reading.state ≡ true }
        ensures { AnswersWhole self result }
    {
        let BodyIntake { head, path, body } = self;
        let (body, unused) = body.into_parts();
        BodyPolled::Whole(Whole {
            head,
            path,
            body,
            unused,
        })
    }
}
