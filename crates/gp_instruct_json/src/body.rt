ghost use Rattle.std.specs.Prelude.{MatchResult};
ghost use Rattle.gp_instruct_json.specs.Bodies.{IsBody, IsJsonFault};

use crate::fault::JsonFault;
use crate::hold::read_instruct;
use crate::members::read_members;
use gp_instruct::Instruct;
use gp_json::read_object;
use gp_plain::{Body, Response};
use std::alloc::Global;

/// What the JSON body of a response asks for, the head that the client gets, and the body that it gets.
///
/// The body is an object with `hold` and `response`, each of which may be absent. `hold` has `mode`, `response` or
/// `stream`; `channels`, an array of objects with a `name` and maybe a `prev-id`, where a name that comes again is
/// dropped; and `timeout`, 0 to 999,999,999 seconds, 55 where it is absent. `response` has `code`, 200 to 599,
/// `reason`, `headers`, and `body` or its twin of base64, `body-bin`. A member that is null counts as absent, and
/// others are ignored. Of the head itself only the `grip-link` fields count; the version is the head's.
/// The faults are tried in the order of `JsonFault`: first those of all members, then what they ask for.
pub fn read_body(
    alloc: Global,
    head: &Response,
    body: &[u8],
) -> Result<(Instruct, Response, Body), JsonFault>
    ensures { MatchResult result
        (λ found. IsBody head.now body.now found.0 found.1 found.2)
        (IsJsonFault head.now body.now) }
{
    let object = read_object(alloc, body)?;
    let (held, part) = read_members(alloc, &object)?;
    let instruct = read_instruct(alloc, head, &held)?;
    let answer = Response {
        version: head.version,
        code: part.code,
        reason: part.reason,
        fields: part.fields,
    };
    Ok((instruct, answer, part.body))
}
