//! What is asked of an origin.
ghost use Rattle.std.specs.Prelude.{◌≡◌, IfOk, option_map};
ghost use Rattle.gp_body.specs.Plans.{plan_of_request};
ghost use Rattle.gp_forward.specs.Alone.{IsForwarded};
ghost use Rattle.gp_again.specs.Texts.{sig_at};
ghost use Rattle.gp_session_http.specs.Asking.{AreValues, BeginsFor, IsAskable, asked_after, body_sent, lasts_of};

use gp_again::{last_text, sig_at};
use gp_body::BodyPlan;
use gp_exchange::{Exchange, forward};
use gp_intake::Whole;
use gp_plain::{Address, Body, Request, Signer};
use gp_session_wait::Last;
use std::alloc::{AllocError, Global};

/// What is asked of an origin for a client: the request, where it goes, and the moment of its token, in seconds.
#[derive(Drop)]
pub(crate) struct Asked {
    pub(crate) request: Whole,
    pub(crate) address: Address,
    pub(crate) moment: u64,
    /// How often the request was asked before, at most 8 times.
    pub(crate) repeats: u8,
    /// The last item that the client has, where the request is repeated.
    pub(crate) last: Option<Last>,
}

/// The body that is forwarded, where the request was planned to have one.
fn body_sent<'b>(head: &Request, body: &'b Body) -> Option<&'b [u8]>
    ensures { option_map (λ b. b.now) result ≡ body_sent (plan_of_request head.now) body.now }
{
    match BodyPlan::of_request(head) {
        Ok(BodyPlan::None) => None,
        Ok(BodyPlan::Length(_)) => Some(body.bytes()),
        Ok(BodyPlan::Chunked) => Some(body.bytes()),
        Ok(BodyPlan::ToClose) => Some(body.bytes()),
        Err(_) => None,
    }
}

/// The bytes of a body that may be there.
fn bytes_of(body: &Option<Body>) -> Option<&[u8]>
    ensures { option_map (λ b. b.now) result ≡ body.now }
{
    match body {
        None => None,
        Some(body) => Some(body.bytes()),
    }
}

/// How the origin is told of the last item that the client has, where it is told of one.
fn lasts_of(alloc: Global, last: &Option<Last>) -> Result<Vec<Body>, AllocError>
    ensures is { IfOk result (λ lasts. lasts.items ≡ lasts_of last.now) }
    ensures values { IfOk result (λ lasts. AreValues lasts.items) }
{
    match last {
        None => Ok(Vec::new(alloc)),
        Some(last) => Ok(vec![in alloc; last_text(alloc, &last.channel, &last.id)?]?),
    }
}

impl Asked {
    /// The bytes of the request that goes to the origin.
    fn request_text(&self, alloc: Global, signer: &Signer) -> Result<Body, AllocError>
        requires { IsAskable self.now }
        ensures { IfOk result (IsForwarded self.now.request.head (body_sent (plan_of_request self.now.request.head) self.now.request.body) self.now.address (sig_at signer.now self.now.moment) (lasts_of self.now.last)) }
    {
        let sig = sig_at(alloc, signer, self.moment)?;
        let lasts = lasts_of(alloc, &self.last)?;
        let head = &self.request.head;
        let body = body_sent(head, &self.request.body);
        forward(
            alloc,
            head,
            body,
            &self.address,
            bytes_of(&sig),
            lasts.as_slice(),
        )
    }

    /// The exchange in which it is asked.
    pub(crate) fn begin(&self, alloc: Global, signer: &Signer) -> Result<Exchange, AllocError>
        requires { IsAskable self.now }
        ensures { IfOk result (BeginsFor signer.now self.now) }
    {
        let text = self.request_text(alloc, signer)?;
        let to = self.address.copy(alloc)?;
        let method = self.request.head.method.copy(alloc)?;
        Ok(Exchange::new(alloc, to, text, method, u64::MAX))
    }
}

/// The request again, at this moment, for a client that has this item last.
pub(crate) fn asked_again(
    again: Option<Asked>,
    last: Last,
    repeats: u8,
    moment: u64,
) -> Option<Asked>
    ensures { result ≡ option_map (asked_after last repeats moment) again }
{
    match again {
        None => None,
        Some(asked) => {
            let Asked {
                request,
                address,
                ..
            } = asked;
            Some(Asked {
                request,
                address,
                moment,
                repeats,
                last: Some(last),
            })
        }
    }
}
