ghost use Rattle.std.specs.Prelude.{MatchBool};
ghost use Rattle.gp_outside.specs.Devices.{WroteAll, WrotePart};

use crate::device::{Out, Written};

/// Writes all the bytes, or those before the first fault. It says whether all were written.
pub fn write_all<O: Out>(out: &mut O, bytes: &[u8]) -> bool
    ensures { MatchBool result (WroteAll (O.tells out.old) (O.tells out.new) bytes.now) (WrotePart (O.tells out.old) (O.tells out.new) bytes.now) }
{
    let mut done = 0;
    while done < bytes.len() {
        match out.write(&bytes[done..]) {
            Written::Took(count) => done += count,
            Written::Failed => return false,
        }
    }
    true
}
