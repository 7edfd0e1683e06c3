ghost use Rattle.std.specs.Prelude.{◌≡◌};
ghost use Rattle.gp_body.specs.Plans.{coding_plan, is_bare, length_plan, plan_of_request, plan_of_response};

use crate::field::{all_say, are_chunked, count_fields, count_of, first_part, has_field, is_count};
use gp_plain::{Field, Request, Response};

/// How a body is framed (RFC 9112, section 6.3).
#[derive(Clone, Copy, Drop, Debug, PartialEq)]
pub enum BodyPlan {
    /// There is no body.
    None,
    /// It has so many bytes.
    Length(u64),
    /// It is in chunks.
    Chunked,
    /// It goes on to the close of the connection.
    ToClose,
}

/// Why no plan can be made. The faults are tried in the order `Both`, `Coding`, `Length`.
#[derive(Clone, Copy, Drop, Debug, PartialEq)]
pub enum BodyFault {
    /// A request has both `transfer-encoding` and `content-length`.
    Both,
    /// The values of `content-length` aren't the same 1 to 18 digits.
    Length,
    /// `transfer-encoding` isn't one field `chunked` in a message of HTTP/1.1.
    Coding,
    /// Memory is wanting. No plan takes memory, so it never comes.
    NoMemory,
}

impl BodyPlan {
    /// How the body of a request is framed. With neither `transfer-encoding` nor `content-length` there is none, and
    /// a request with both is refused. Names of fields are in lower case. It takes no memory.
    #[tactic(auto, unfolding(crate::specs::Plans::plan_of_request))]
    pub fn of_request(head: &Request) -> Result<BodyPlan, BodyFault>
        ensures { result ≡ plan_of_request head.now }
    {
        let fields = head.fields.as_slice();
        let coded = has_field(fields, b"transfer-encoding");
        let sized = has_field(fields, b"content-length");
        match (coded, sized) {
            (true, true) => Err(BodyFault::Both),
            (true, false) => coding_plan(fields, head.version),
            (false, true) => length_plan(fields),
            (false, false) => Ok(BodyPlan::None),
        }
    }

    /// How the body of the response to a request with this method is framed. A response to HEAD has none, nor has one
    /// with the code 100 to 199, 204 or 304. Else `transfer-encoding` wins over `content-length`, and with neither
    /// the body goes on to the close. Names of fields are in lower case. It takes no memory.
    #[tactic(auto, unfolding(crate::specs::Plans::plan_of_response))]
    pub fn of_response(head: &Response, method: &[u8]) -> Result<BodyPlan, BodyFault>
        ensures { result ≡ plan_of_response head.now method.now }
    {
        if is_bare(method, head.code) {
            return Ok(BodyPlan::None);
        }
        let fields = head.fields.as_slice();
        if has_field(fields, b"transfer-encoding") {
            coding_plan(fields, head.version)
        } else if has_field(fields, b"content-length") {
            length_plan(fields)
        } else {
            Ok(BodyPlan::ToClose)
        }
    }
}

/// Whether a response has no body whatever its fields say.
fn is_bare(method: &[u8], code: u16) -> bool
    ensures { result ≡ is_bare method.now code }
{
    method == b"HEAD".as_slice() || (100..=199).contains(&code) || code == 204 || code == 304
}

fn coding_plan(fields: &[Field], version: u8) -> Result<BodyPlan, BodyFault>
    ensures { result ≡ coding_plan fields.now version }
{
    let name = b"transfer-encoding";
    if count_fields(fields, name) == 1 && are_chunked(fields, name) && version == 1 {
        Ok(BodyPlan::Chunked)
    } else {
        Err(BodyFault::Coding)
    }
}

/// The length that the fields named `content-length` give, where all their values between commas are the same 1 to 18 digits. It takes no memory.
pub fn length_plan(fields: &[Field]) -> Result<BodyPlan, BodyFault>
    ensures { result ≡ length_plan fields.now }
{
    let name = b"content-length";
    let digits = first_part(fields, name);
    if is_count(digits) && all_say(fields, name, digits) {
        Ok(BodyPlan::Length(count_of(digits)))
    } else {
        Err(BodyFault::Length)
    }
}
