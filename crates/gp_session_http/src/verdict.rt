//! What the head of a response leads to.
ghost use Rattle.std.specs.Prelude.{◌≡◌};
ghost use Rattle.gp_session_http.specs.Asking.{IsReadVerdict, IsVerdict, is_head};

use gp_instruct::{InstructFault, read_headers};
use gp_instruct_json::is_instruct;
use gp_plain::Response;
use std::alloc::Global;

/// What the head of a response leads to.
#[derive(Clone, Copy, Drop)]
pub(crate) enum Verdict {
    /// It is passed on, with this code in place of its own, where there is one.
    Pass(Option<u16>),
    /// Its body is gathered: it asks for a hold, or is an instruction itself.
    Gather,
    /// Its instruction is refused: 502.
    Refuse,
    /// Memory is wanting.
    NoMemory,
}

fn is_head(method: &[u8]) -> bool
    ensures { result ≡ is_head method.now }
{
    method == b"HEAD".as_slice()
}

/// By the instruction of a response, which isn't to HEAD.
fn read_verdict(alloc: Global, head: &Response) -> Verdict
    ensures { IsReadVerdict head.now result }
{
    if is_instruct(head) {
        return Verdict::Gather;
    }
    match read_headers(alloc, head) {
        Ok(None) => Verdict::Pass(None),
        Ok(Some(instruct)) => match instruct.mode {
            None => Verdict::Pass(instruct.status),
            Some(_) => Verdict::Gather,
        },
        Err(InstructFault::NoMemory) => Verdict::NoMemory,
        Err(_) => Verdict::Refuse,
    }
}

/// Of the response to a request with this method. Nothing is read of the instruction of a response to HEAD.
pub(crate) fn verdict_of(alloc: Global, head: &Response, method: &[u8]) -> Verdict
    ensures { IsVerdict method.now head.now result }
{
    if is_head(method) {
        Verdict::Pass(None)
    } else {
        read_verdict(alloc, head)
    }
}
