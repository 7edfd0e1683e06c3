//! The answer that ends a long poll.
ghost use Rattle.std.specs.Prelude.{◌≡◌, IfOk};
ghost use Rattle.gp_answer.specs.Framings.{is_bodiless};
ghost use Rattle.gp_session_hold.specs.Puts.{PutsOnce};
ghost use Rattle.gp_session_wait.specs.Answers.{answer_of, answer_text, body_sent, head_sent, own_answer};

use gp_answer::{answer_head, whole};
use gp_outside::Link;
use gp_plain::{Body, Fields, Response, ResponsePart};
use gp_session::Wire;
use std::alloc::{AllocError, Global};

/// An answer to a client that is sent whole: that of an item, or the origin's own.
///
/// Of its fields those of one connection alone, those that `connection` lists, `content-length`, and those for the proxy, whose names begin
/// with `grip-`, aren't sent. With the codes 204 and 304 no body is sent.
#[derive(Drop)]
pub struct Answer {
    /// The status code.
    pub code: u16,
    /// The reason phrase; it may be empty.
    pub reason: Body,
    /// The fields, in order.
    pub fields: Fields,
    /// The body.
    pub body: Body,
}

/// Whether no answer with this code has a body (RFC 9110, sections 15.3.5 and 15.4.5).
fn is_bodiless(code: u16) -> bool
    ensures { result ≡ is_bodiless code }
{
    code == 204 || code == 304
}

impl Answer {
    /// That of an item. It is moved.
    pub fn of_part(part: ResponsePart) -> Answer
        ensures { result ≡ answer_of part }
    {
        Answer {
            code: part.code,
            reason: part.reason,
            fields: part.fields,
            body: part.body,
        }
    }

    /// The origin's own, which is moved. A status that the origin asks for stands in place of its code and its reason.
    pub fn of_response(alloc: Global, head: Response, body: Body, status: Option<u16>) -> Answer
        ensures { result ≡ own_answer head body status }
    {
        let Response {
            code,
            reason,
            fields,
            ..
        } = head;
        match status {
            None => Answer {
                code,
                reason,
                fields,
                body,
            },
            Some(code) => Answer {
                code,
                reason: Body::empty(alloc),
                fields,
                body,
            },
        }
    }

    /// The head that is sent.
    fn head(&self, alloc: Global) -> Result<Body, AllocError>
        ensures { IfOk result (λ text. text ≡ head_sent self.now) }
    {
        let framing = whole(self.code, self.body.len() as u64);
        let fields = self.fields.as_slice();
        answer_head(alloc, self.code, self.reason.bytes(), fields, framing)
    }

    /// The body that is sent.
    fn into_body(self, alloc: Global) -> Body
        ensures { result ≡ body_sent self }
    {
        if is_bodiless(self.code) {
            Body::empty(alloc)
        } else {
            self.body
        }
    }

    /// Puts the whole answer behind the bytes that wait, or nothing where memory is wanting. It answers whether there was enough.
    pub(crate) fn put<L: Link>(self, alloc: Global, wire: &mut Wire<L>) -> bool
        ensures { PutsOnce wire.old wire.new (answer_text self) result }
    {
        let Ok(head) = self.head(alloc) else {
            return false;
        };
        let body = self.into_body(alloc);
        match wire.put(head.bytes(), body, b"") {
            Ok(()) => true,
            Err(_) => false,
        }
    }
}
