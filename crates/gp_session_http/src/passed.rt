//! How a response is passed on.
ghost use Rattle.std.specs.Prelude.{◌≡◌, IfOk};
ghost use Rattle.gp_session_http.specs.Passing.{code_by, framing_by, head_by, in_chunks, is_bare_by, reason_by};

use crate::asked::Asked;
use gp_answer::{Framing, answer_head, is_bare, passed_framing};
use gp_plain::{Body, Response};
use std::alloc::{AllocError, Global};
use std::snapshot::Snapshot;

/// How a response is passed on. What was asked, and the head of the response, are remembered by contracts alone.
#[derive(Drop)]
pub(crate) struct Passed {
    pub(crate) asked: Snapshot<Asked>,
    pub(crate) head: Snapshot<Response>,
    /// The status that the origin asks for in place of its own.
    pub(crate) status: Option<u16>,
    /// The status that is sent.
    pub(crate) code: u16,
    /// Whether the body goes in chunks.
    pub(crate) chunked: bool,
}

/// The status that is sent.
pub(crate) fn code_by(head: &Response, status: Option<u16>) -> u16
    ensures { result ≡ code_by head.now status }
{
    match status {
        None => head.code,
        Some(status) => status,
    }
}

/// Its reason.
pub(crate) fn reason_by(head: &Response, status: Option<u16>) -> &[u8]
    ensures { result.now ≡ reason_by head.now status }
{
    match status {
        None => head.reason.bytes(),
        Some(_) => b"",
    }
}

/// Whether a body is framed in chunks.
pub(crate) fn in_chunks(framing: Framing) -> bool
    ensures { result ≡ in_chunks framing }
{
    match framing {
        Framing::Chunked => true,
        Framing::Length(_) | Framing::Close => false,
    }
}

impl Asked {
    /// How the body of a response is framed that is passed on with this status.
    fn framing_by(&self, head: &Response, status: Option<u16>) -> Framing
        ensures { result ≡ framing_by self.now head.now status }
    {
        let request = &self.request.head;
        let code = code_by(head, status);
        passed_framing(head, request.method.bytes(), code, request.version)
    }

    /// The head that the client gets.
    pub(crate) fn head_by(
        &self,
        alloc: Global,
        head: &Response,
        status: Option<u16>,
    ) -> Result<Body, AllocError>
        ensures { IfOk result (λ text. text ≡ head_by self.now head.now status) }
    {
        let framing = self.framing_by(head, status);
        let fields = head.fields.as_slice();
        answer_head(
            alloc,
            code_by(head, status),
            reason_by(head, status),
            fields,
            framing,
        )
    }

    /// Whether the client gets no body.
    pub(crate) fn is_bare_by(&self, head: &Response, status: Option<u16>) -> bool
        ensures { result ≡ is_bare_by self.now head.now status }
    {
        is_bare(self.request.head.method.bytes(), code_by(head, status))
    }

    /// How this response is passed on.
    pub(crate) fn passed(&self, head: &Response, status: Option<u16>) -> Passed
        ensures asked { result.asked.value ≡ self.now }
        ensures head { result.head.value ≡ head.now }
        ensures status { result.status ≡ status }
        ensures code { result.code ≡ code_by head.now status }
        ensures chunked { result.chunked ≡ in_chunks (framing_by self.now head.now status) }
    {
        Passed {
            asked: Snapshot::of(self),
            head: Snapshot::of(head),
            status,
            code: code_by(head, status),
            chunked: in_chunks(self.framing_by(head, status)),
        }
    }
}
