//! A body that is read off a link.
ghost use Rattle.std.specs.Prelude.{◌≡◌, ◌++◌, [], false, IfOk, MatchResult};
ghost use Rattle.gp_body.specs.declared.plan.BodyPlan.{BodyPlan};
ghost use Rattle.gp_body.specs.Steps.{is_end};
ghost use Rattle.gp_intake.specs.Bodies.{IsCause, ComesOn, HasCome, IsOpen, Nearer};
ghost use Rattle.gp_intake.specs.Polls.{ReadsBody};

use crate::came::{Came, READ};
use gp_body::{BodyPlan, BodyReader, FedAllFault, FedFault};
use gp_outside::{Got, Link};
use gp_plain::Body;
use std::alloc::{AllocError, Global};
use std::marker::Model;

/// The most bytes of content that a request's body may have.
pub const MAX_BODY: u64 = 1_048_576;

/// A body that is read, its content so far, and the bytes that came behind its end.
#[derive(Drop)]
pub(crate) struct BodyReading {
    reader: BodyReader,
    content: Vec<u8>,
    unused: Vec<u8>,
}

impl Model for BodyReading {
    ghost use Rattle.gp_intake.specs.Bodies.{ReadingView, IsOfBody};

    ghost Value = { ReadingView };

    ghost view = { λ b. record { reading = b.reader; content = b.content.items; unused = b.unused.items } };

    ghost invariant = { λ b. IsOfBody (record { reading = b.reader; content = b.content.items; unused = b.unused.items }) };
}

/// Adds bytes, or none of them.
fn add(into: &mut Vec<u8>, bytes: &[u8]) -> Result<(), AllocError>
    ensures { MatchResult result (λ _. into.new.items ≡ into.old.items ++ bytes.now) (λ _. into.new.items ≡ into.old.items) }
{
    into.extend_from_slice(bytes)
}

impl BodyReading {
    /// A body of this plan, of which nothing has come. It takes no memory.
    pub(crate) fn new(alloc: Global, plan: BodyPlan) -> BodyReading
        ensures come { HasCome plan [] result }
        ensures unused { result.unused ≡ [] }
    {
        BodyReading {
            reader: BodyReader::new(plan, MAX_BODY),
            content: Vec::new(alloc),
            unused: Vec::new(alloc),
        }
    }

    /// Takes bytes that came.
    pub(crate) fn take(&mut self, bytes: &[u8]) -> Result<(), AllocError>
        requires { self.old.unused ≡ [] }
        ensures comes { IfOk result (λ _. ComesOn bytes.now self.old self.new) }
        ensures nearer { IfOk result (λ _. Nearer bytes.now self.old.reading self.new.reading) }
    {
        match self.reader.feed_all(bytes, &mut self.content) {
            Ok(fed) => add(&mut self.unused, &bytes[fed.taken..]),
            Err(FedAllFault::Body(_)) => Ok(()),
            Err(FedAllFault::NoMemory) => Err(AllocError),
        }
    }

    /// Reads once, and takes what came.
    pub(crate) fn read<L: Link>(&mut self, link: &mut L) -> Came
        requires more { IsOpen self.old.reading }
        requires unused { self.old.unused ≡ [] }
        ensures { ReadsBody (L.tells link.old) (L.tells link.new) self.old self.new result }
    {
        let mut buffer = [0; READ];
        match link.read(&mut buffer) {
            Got::Took(count) => match self.take(&buffer[..count]) {
                Ok(()) => Came::Bytes,
                Err(_) => Came::NoMemory,
            },
            Got::NotReady => Came::NotReady,
            Got::End => Came::Gone,
            Got::Failed => Came::Gone,
        }
    }

    /// Why the body is refused, if it is.
    pub(crate) fn refusal(&self) -> Option<FedFault>
        ensures told { result ≡ self.now.reading.refused }
        ensures cause { IsCause MAX_BODY result }
    {
        self.reader.refusal()
    }

    /// Whether the body has ended.
    pub(crate) fn is_end(&self) -> bool
        ensures end { result ≡ is_end self.now.reading.state }
        ensures nothing { result ≡ false → self.now.unused ≡ [] }
    {
        self.reader.is_end()
    }

    /// The content, and the bytes behind the body's end. It takes no memory.
    pub(crate) fn into_parts(self) -> (Body, Body)
        ensures { (result.0 ≡ self.content) × (result.1 ≡ self.unused) }
    {
        (Body::from_vec(self.content), Body::from_vec(self.unused))
    }
}
