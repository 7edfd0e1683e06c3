//! Which heads are served.
ghost use Rattle.std.specs.Prelude.{◌≡◌, ◌==◌, ◌||◌, not, false, MatchResult, codes};
ghost use Rattle.gp_intake.specs.Served.{HasTarget, IsServed, IsTargetUnserved, IsUnserved, has_one_host};

use crate::fault::{RequestFault, Unserved};
use gp_body::BodyPlan;
use gp_head::{TargetFault, split_target};
use gp_plain::{Body, Request};
use gp_text::is_named;
use std::alloc::Global;

/// The path and query of the target.
fn target_of(alloc: Global, head: &Request) -> Result<Body, Unserved>
    ensures { MatchResult result (HasTarget head.now) (IsTargetUnserved head.now) }
{
    if head.method.bytes() == b"CONNECT".as_slice() {
        return Err(Unserved::Fault(RequestFault::Target));
    }
    match split_target(alloc, head.target.bytes()) {
        Ok((path, _)) => Ok(path),
        Err(TargetFault::Form) => Err(Unserved::Fault(RequestFault::Target)),
        Err(TargetFault::NoMemory) => Err(Unserved::NoMemory),
    }
}

/// Whether there is exactly one `host` field, as HTTP/1.1 asks (RFC 9112, section 3.2).
fn has_one_host(head: &Request) -> bool
    ensures { result ≡ has_one_host head.now }
{
    let fields = head.fields.as_slice();
    head.version != 1
        || fields
            .iter()
            .filter(|field| is_named(field, b"host"))
            .count()
            == 1
}

/// The path and query of the target and the plan of the body, where the head is served.
pub(crate) fn served(alloc: Global, head: &Request) -> Result<(Body, BodyPlan), Unserved>
    ensures { MatchResult result (λ found. IsServed head.now found.0 found.1) (IsUnserved head.now) }
{
    let path = match target_of(alloc, head) {
        Ok(path) => path,
        Err(unserved) => return Err(unserved),
    };
    if !has_one_host(head) {
        return Err(Unserved::Fault(RequestFault::Host));
    }
    match BodyPlan::of_request(head) {
        Ok(plan) => Ok((path, plan)),
        Err(fault) => Err(Unserved::Fault(RequestFault::Plan(fault))),
    }
}
