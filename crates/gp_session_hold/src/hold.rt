//! A hold that a session keeps.
ghost use Rattle.std.specs.Prelude.{◌≡◌, ◌<◌, ◌++◌, ◌∷◌, []};
ghost use Rattle.gp_plain.specs.Others.{Share};
ghost use Rattle.gp_plain.specs.Reports.{payload_of, report, tally_of};
ghost use Rattle.gp_session.specs.Seats.{SeatView};
ghost use Rattle.gp_session_hold.specs.Rows.{HoldsRow, IsCounted, none, over};
ghost use Rattle.gp_session_hold.specs.Puts.{Counts};

use gp_plain::{EndCause, HoldReports, Payload, Piece, Tally};
use std::marker::Model;

/// A hold of a session's, and what was counted of it.
///
/// Room for its report is made before it is attached, so that the report takes no memory.
#[derive(Drop)]
pub struct KeptHold {
    number: u64,
    tally: Tally,
}

impl Model for KeptHold {
    ghost use Rattle.gp_session_hold.specs.Rows.{KeptView};

    ghost Value = { KeptView };

    ghost view = { λ h. record { number = h.number; tally = h.tally } };
}

impl KeptHold {
    /// A hold of this number, and what was counted of it.
    pub(crate) fn new(number: u64, tally: Tally) -> KeptHold
        ensures { result ≡ record { number = number; tally = tally } }
    {
        KeptHold { number, tally }
    }

    /// Its number.
    pub fn number(&self) -> u64
        ensures { result ≡ self.now.number }
    {
        self.number
    }

    /// Counts one more piece, and gives what it has to send. It takes no memory and copies nothing.
    pub fn add(&mut self, piece: Piece) -> Payload
        ensures counts { Counts self.old self.new (piece ∷ []) }
        ensures gives { result ≡ payload_of piece }
    {
        self.tally.add(piece)
    }

    /// Adds the report of the hold, of which Takes told this end, or none. It takes no memory.
    pub fn report(self, told: Option<EndCause>, reports: &mut HoldReports)
        requires { 0 < reports.old.spare }
        ensures reported { (share : Share) → IsCounted self share → told ≡ share.told → reports.new.items ≡ reports.old.items ++ report self.number share ∷ [] }
        ensures row { (s : SeatView) → HoldsRow s reports.old.items (over self told) → HoldsRow s reports.new.items none }
    {
        let KeptHold { number, tally } = self;
        let _ = reports.push(tally.report(number, told));
    }
}
