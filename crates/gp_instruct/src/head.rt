ghost use Rattle.std.specs.Prelude.{MatchResult};
ghost use Rattle.gp_instruct.specs.Heads.{AreLinksRead, AreParts, IsFirstFault, IsInstruct, IsInstructFault, IsLinksFault};

use crate::fault::InstructFault;
use crate::field::{is_given, next_value};
use crate::hold::{check_channels, read_channels, read_mode, read_status, read_timeout};
use crate::instruct::Instruct;
use crate::link::read_link;
use gp_plain::{Body, Field, Response};
use std::alloc::Global;

/// The next link of a response. Its `grip-link` fields are read in order, each by itself, up to the first that has a
/// link or a fault.
pub fn read_next(alloc: Global, head: &Response) -> Result<Option<Body>, InstructFault>
    ensures { MatchResult result (AreLinksRead head.now.fields) (IsLinksFault head.now.fields) }
{
    next_link(alloc, head.fields.as_slice())
}

fn next_link(alloc: Global, fields: &[Field]) -> Result<Option<Body>, InstructFault>
    ensures { MatchResult result (AreLinksRead fields.now) (IsLinksFault fields.now) }
{
    let mut rest = fields;
    while let Some((value, more)) = next_value(rest, b"grip-link") {
        let link = read_link(alloc, value)?;
        if link.is_some() {
            return Ok(link);
        }
        rest = more;
    }
    Ok(None)
}

/// What the fields of a response ask for, or nothing exactly where none of them is `grip-hold`, `grip-channel`,
/// `grip-link` or `grip-status`. The names of fields are in lower case, and their values are trimmed.
///
/// `grip-hold` is `response` or `stream`. The `grip-channel` fields are lists of channels, parted by commas: a name,
/// then parameters behind semicolons, of which the first `prev-id=ID` counts; a name that comes again is dropped.
/// `grip-timeout` is 0 to 999,999,999 in 1 to 9 digits, at first 55; `grip-status` is 200 to 599 in three digits,
/// and what follows behind a space is ignored; of several the first counts. `grip-link` is read by `read_link`.
/// The faults are tried in the order of `InstructFault`.
pub fn read_headers(alloc: Global, head: &Response) -> Result<Option<Instruct>, InstructFault>
    ensures { MatchResult result (IsInstruct head.now.fields) (IsInstructFault head.now.fields) }
{
    let fields = head.fields.as_slice();
    if !is_given(fields) {
        return Ok(None);
    }
    Ok(Some(read_parts(alloc, fields)?))
}

/// The parts of an instruction, one after another.
fn read_parts(alloc: Global, fields: &[Field]) -> Result<Instruct, InstructFault>
    ensures { MatchResult result (AreParts fields.now) (IsFirstFault fields.now) }
{
    let mode = read_mode(fields)?;
    let subs = read_channels(alloc, fields)?;
    check_channels(mode, &subs)?;
    let timeout = read_timeout(fields)?;
    let status = read_status(fields)?;
    let link = next_link(alloc, fields)?;
    Ok(Instruct {
        mode,
        subs,
        timeout,
        status,
        link,
    })
}
