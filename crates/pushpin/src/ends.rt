ghost use Rattle.std.specs.Prelude.{◌≡◌, ◌⊎◌, IfOk, string_bytes};
ghost use Rattle.pushpin.specs.Ends.{IsEnd, said_of};
ghost use Rattle.gp_replay.specs.declared.status.Status.TheVariants.{NoMemory as WantOfMemory};

use gp_outside::{Out, write_all};
use gp_replay::Status;
use std::alloc::{AllocError, Global};

/// What standard error is told of a status.
fn said(alloc: Global, status: Status) -> Result<String, AllocError>
    ensures { IfOk result (λ text. string_bytes text ≡ said_of status) }
{
    match status {
        Status::Done => Ok(String::new(alloc)),
        Status::Usage(number) => format!(in alloc; "usage: word {number}\n"),
        Status::BadLine(number) => format!(in alloc; "bad line {number}\n"),
        Status::FileFault => String::from_str(alloc, "cannot read file\n"),
        Status::TooLong => String::from_str(alloc, "file too long\n"),
        Status::SinkFault => String::from_str(alloc, "cannot write\n"),
        Status::ListenFault => String::from_str(alloc, "cannot listen\n"),
        Status::NoMemory => String::from_str(alloc, "out of memory\n"),
    }
}

/// Tells how a run ended, and gives the exit number. Where memory is wanting for the text, that is how it ended.
pub fn end<E: Out>(alloc: Global, status: Status, errors: &mut E) -> u8
    ensures { IsEnd status result (E.tells errors.old) (E.tells errors.new) ⊎ IsEnd WantOfMemory result (E.tells errors.old) (E.tells errors.new) }
{
    match said(alloc, status) {
        Ok(text) => {
            write_all(errors, text.as_bytes());
            status.exit()
        }
        Err(_) => {
            write_all(errors, b"out of memory\n");
            Status::NoMemory.exit()
        }
    }
}
