//! What an origin's answer asks for, in either form.
ghost use Rattle.std.specs.Prelude.{◌≡◌, false, true, IfErr, IfOk};
ghost use Rattle.gp_instruct_json.specs.Answers.{IsAnswer, IsAnswerBy, IsAnswerFault, IsFaultBy};

use crate::body::read_body;
use crate::fault::JsonFault;
use crate::kind::is_instruct;
use gp_instruct::{Instruct, InstructFault, read_headers};
use gp_plain::{Body, Response};
use std::alloc::Global;

/// An instruction or none, and the response with its body that the client gets.
#[derive(Drop)]
pub struct Answer {
    /// What is asked for, where anything is.
    pub instruct: Option<Instruct>,
    /// The head of the response.
    pub head: Response,
    /// Its body.
    pub body: Body,
}

/// Why an answer isn't read.
#[derive(Clone, Copy, Drop, Debug, PartialEq)]
pub enum AnswerFault {
    /// What it asks for is refused.
    Refused,
    /// Memory is wanting.
    NoMemory,
}

/// What a body of the type of instructions asks for.
fn read_form(alloc: Global, head: Response, body: Body) -> Result<Answer, AnswerFault>
    ensures ok { IfOk result (λ answer. IsAnswerBy true head body answer) }
    ensures err { IfErr result (λ fault. IsFaultBy true head body fault) }
{
    match read_body(alloc, &head, body.bytes()) {
        Ok((instruct, head, body)) => Ok(Answer {
            instruct: Some(instruct),
            head,
            body,
        }),
        Err(JsonFault::NoMemory) => Err(AnswerFault::NoMemory),
        Err(JsonFault::Instruct(InstructFault::NoMemory)) => Err(AnswerFault::NoMemory),
        Err(_) => Err(AnswerFault::Refused),
    }
}

/// What the fields ask for; the response is the origin's own.
fn read_fields(alloc: Global, head: Response, body: Body) -> Result<Answer, AnswerFault>
    ensures ok { IfOk result (λ answer. IsAnswerBy false head body answer) }
    ensures err { IfErr result (λ fault. IsFaultBy false head body fault) }
{
    match read_headers(alloc, &head) {
        Ok(instruct) => Ok(Answer {
            instruct,
            head,
            body,
        }),
        Err(InstructFault::NoMemory) => Err(AnswerFault::NoMemory),
        Err(_) => Err(AnswerFault::Refused),
    }
}

/// What an origin's answer asks for: by its body, where that is of the type of instructions, and else by its fields. The head and the body are
/// moved into the answer where they go to the client as they are.
pub fn read_answer(alloc: Global, head: Response, body: Body) -> Result<Answer, AnswerFault>
    ensures ok { IfOk result (λ answer. IsAnswer head body answer) }
    ensures err { IfErr result (λ fault. IsAnswerFault head body fault) }
{
    if is_instruct(&head) {
        read_form(alloc, head, body)
    } else {
        read_fields(alloc, head, body)
    }
}
