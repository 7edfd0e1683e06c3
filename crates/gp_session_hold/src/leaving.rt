//! How a session lets a hold go, and how it ends with its stream.
ghost use Rattle.std.specs.Prelude.{◌≡◌, Bool, List, Option};
ghost use Rattle.gp_plain.specs.Others.{Share};
ghost use Rattle.gp_plain.specs.declared.event.HoldSpec.{HoldSpec};
ghost use Rattle.gp_plain.specs.declared.reply.HoldReport.{HoldReport as AReport};
ghost use Rattle.gp_session.specs.Holding.{LetsGo};
ghost use Rattle.gp_session.specs.Seats.{MovedSeat, SeatRow};
ghost use Rattle.gp_session_hold.specs.Leaves.{LeavesEntries, LeavesHold, last_let_go, stream_end};
ghost use Rattle.gp_session_hold.specs.Rows.{AttachRow, HoldsRow, IsKept, OwnRow, kept};

use crate::hold::KeptHold;
use gp_hub::SessionEnd;
use gp_plain::EndCause;
use gp_session::{LetGo, Seat};

impl KeptHold {
    /// Lets the hold go, which the session keeps. It takes no memory.
    pub fn let_go(&self, seat: &mut Seat<'_>) -> LetGo
        requires { (share : Share) × IsKept seat.old self.now share }
        ensures moved { MovedSeat seat.old seat.new }
        ensures row { SeatRow seat.old → SeatRow seat.new }
        ensures gone { LetsGo seat.old seat.new self.now.number result }
        ensures leaves { (share : Share) → IsKept seat.old self.now share → LeavesHold seat.new self.now share result }
        ensures holds { (reports : List AReport) → HoldsRow seat.old reports (kept self.now) → HoldsRow seat.new reports (last_let_go self.now result) }
        ensures entries { (paged : Bool) → OwnRow paged seat.old → LeavesEntries paged seat.new self.now.number result }
        ensures attaches { (specs : List HoldSpec) (refused : Option HoldSpec) → AttachRow seat.old specs refused → AttachRow seat.new specs refused }
    {
        seat.detach(self.number())
    }
}

/// How a session ends whose stream has ended by this cause, where all was sent with a head of this code: the answer was sent whole
/// where that is a close, and else cut.
pub fn stream_end(code: u16, cause: EndCause) -> SessionEnd
    ensures { result ≡ stream_end code cause }
{
    match cause {
        EndCause::Closed => SessionEnd::Sent(code),
        other => SessionEnd::Cut(other),
    }
}
