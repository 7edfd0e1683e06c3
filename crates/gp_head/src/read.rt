ghost use Rattle.std.specs.Prelude.{◌≡◌, []};
ghost use Rattle.gp_head.specs.Lines.{extent_of};
ghost use Rattle.gp_head.specs.Scans.{scan_of, HasSeen};
ghost use Rattle.gp_head.specs.Heads.{IsRead, IsRequestText, IsResponseText, IsSettled};

use crate::parse::{Refusal, request_of, response_of};
use crate::scan::{Extent, Scan};
use gp_plain::{Request, Response};
use std::alloc::Global;
use std::marker::Model;

/// What stands at the front of the bytes that have come. The cases are tried in the order `TooMany`, `TooLong`,
/// `More`, `Bad`, `Whole`.
#[derive(Drop)]
pub enum HeadRead<T> {
    /// A head, and how many bytes it has with the empty lines before it.
    Whole(T, usize),
    /// The end of the head isn't in the bytes.
    More,
    /// The text up to its end is no head of the grammar.
    Bad,
    /// A 65th field line has begun within the first 16,384 bytes and before the end.
    TooMany,
    /// The end isn't within the first 16,384 bytes.
    TooLong,
    /// Memory is wanting.
    NoMemory,
}

/// Reads the head of a request (RFC 9112, section 3). Names of fields are in lower case, and values have no spaces
/// or tabs at their ends.
pub fn read_request(alloc: Global, bytes: &[u8]) -> HeadRead<Request>
    ensures read { IsRead IsRequestText bytes.now result }
    ensures settled { IsSettled IsRequestText bytes.now result }
{
    HeadScan::new().read_request(alloc, bytes)
}

/// Reads the head of a response (RFC 9112, section 4), as `read_request` does. The reason may be empty.
pub fn read_response(alloc: Global, bytes: &[u8]) -> HeadRead<Response>
    ensures read { IsRead IsResponseText bytes.now result }
    ensures settled { IsSettled IsResponseText bytes.now result }
{
    HeadScan::new().read_response(alloc, bytes)
}

/// Reads a head whose bytes come in pieces, and looks at each byte once.
///
/// Contracts see how far it was scanned: a scan that has seen a text is `scan_of` of it.
#[derive(Drop)]
pub struct HeadScan {
    scan: Scan,
}

impl Model for HeadScan {
    ghost use Rattle.gp_head.specs.declared.scan.Scan.{Scan};

    ghost Value = { Scan };

    ghost use Rattle.gp_head.specs.Scans.{IsSound};

    ghost view = { λ s. s.scan };

    ghost invariant = { λ s. IsSound s.scan };
}

impl HeadScan {
    /// A scan that has seen nothing. It takes no memory.
    pub fn new() -> HeadScan
        ensures { result ≡ scan_of [] }
    {
        HeadScan {
            scan: Scan::opening(),
        }
    }

    /// What `read_request` answers for all bytes that have come, of which this scan has seen the first. It looks at
    /// those alone that it hasn't seen, and parses the head once its end is there.
    pub fn read_request(&mut self, alloc: Global, bytes: &[u8]) -> HeadRead<Request>
        requires { HasSeen self.old bytes.now }
        ensures read { IsRead IsRequestText bytes.now result }
        ensures settled { IsSettled IsRequestText bytes.now result }
        ensures scan { self.new ≡ scan_of bytes.now }
    {
        let extent = self.scan.extent_of(bytes);
        request_within(alloc, bytes, extent)
    }

    /// What `read_response` answers for all bytes that have come, as `read_request` has it.
    pub fn read_response(&mut self, alloc: Global, bytes: &[u8]) -> HeadRead<Response>
        requires { HasSeen self.old bytes.now }
        ensures read { IsRead IsResponseText bytes.now result }
        ensures settled { IsSettled IsResponseText bytes.now result }
        ensures scan { self.new ≡ scan_of bytes.now }
    {
        let extent = self.scan.extent_of(bytes);
        response_within(alloc, bytes, extent)
    }
}

/// The request of a head that reaches so far.
fn request_within(alloc: Global, bytes: &[u8], extent: Extent) -> HeadRead<Request>
    requires { extent ≡ extent_of bytes.now }
    ensures read { IsRead IsRequestText bytes.now result }
    ensures settled { IsSettled IsRequestText bytes.now result }
{
    match extent {
        Extent::TooMany => HeadRead::TooMany,
        Extent::TooLong => HeadRead::TooLong,
        Extent::More => HeadRead::More,
        Extent::Ends(end) => match request_of(alloc, &bytes[..end]) {
            Ok(request) => HeadRead::Whole(request, end),
            Err(Refusal::Bad) => HeadRead::Bad,
            Err(Refusal::NoMemory) => HeadRead::NoMemory,
        },
    }
}

/// The response of a head that reaches so far.
fn response_within(alloc: Global, bytes: &[u8], extent: Extent) -> HeadRead<Response>
    requires { extent ≡ extent_of bytes.now }
    ensures read { IsRead IsResponseText bytes.now result }
    ensures settled { IsSettled IsResponseText bytes.now result }
{
    match extent {
        Extent::TooMany => HeadRead::TooMany,
        Extent::TooLong => HeadRead::TooLong,
        Extent::More => HeadRead::More,
        Extent::Ends(end) => match response_of(alloc, &bytes[..end]) {
            Ok(response) => HeadRead::Whole(response, end),
            Err(Refusal::Bad) => HeadRead::Bad,
            Err(Refusal::NoMemory) => HeadRead::NoMemory,
        },
    }
}
