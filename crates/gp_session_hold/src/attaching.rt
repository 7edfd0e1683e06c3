//! How a session attaches a hold.
ghost use Rattle.std.specs.Prelude.{◌≡◌, ◌<◌, [], true, Bool, IfOk, List, None};
ghost use Rattle.gp_plain.specs.Fit.{fits};
ghost use Rattle.gp_plain.specs.declared.event.Event.TheVariants.{Attach};
ghost use Rattle.gp_plain.specs.declared.event.HoldSpec.{HoldSpec as Spec};
ghost use Rattle.gp_plain.specs.Reports.{tally_of};
ghost use Rattle.gp_session.specs.Seats.{MovedSeat, SeatRow};
ghost use Rattle.gp_session_hold.specs.Rows.{AttachRow, HoldsRow, OwnRow, none};
ghost use Rattle.gp_session_hold.specs.Opens.{AttachesTo, OpensTo, last_opened, opened_by};

use crate::hold::KeptHold;
use gp_plain::{HoldReports, HoldSpec, Tally};
use gp_session::{Attached, Seat};
use std::alloc::{AllocError, Global};

/// What attaching a hold came to.
#[derive(Drop)]
pub enum Opened {
    /// The session keeps this hold.
    Kept(KeptHold),
    /// No hold was made, since 4,096 are kept.
    Full,
    /// Another call holds the turn, and the specification is handed back.
    Busy(HoldSpec),
    /// The hub has served as many events as it can.
    Worn,
    /// Memory is wanting.
    NoMemory,
}

/// What is counted of the hold, and room for its report.
fn prepared(alloc: Global, reports: &mut HoldReports, spec: &HoldSpec) -> Result<Tally, AllocError>
    ensures items { reports.new.items ≡ reports.old.items }
    ensures ready { IfOk result (λ tally. (tally ≡ tally_of spec.now []) × (0 < reports.new.spare)) }
{
    reports.reserve(1)?;
    Tally::new(alloc, spec)
}

/// What the hub's answer to an Attach says of a hold of which this was counted.
fn opened_of(attached: Attached, tally: Tally) -> Opened
    ensures { result ≡ opened_by tally attached }
{
    match attached {
        Attached::Hold(number) => Opened::Kept(KeptHold::new(number, tally)),
        Attached::Full => Opened::Full,
        Attached::Busy(spec) => Opened::Busy(spec),
        Attached::Worn => Opened::Worn,
        Attached::NoMemory => Opened::NoMemory,
    }
}

/// Attaches a hold for a session, with room for its report.
pub fn attach(
    alloc: Global,
    seat: &mut Seat<'_>,
    reports: &mut HoldReports,
    spec: HoldSpec,
) -> Opened
    requires { fits (Attach spec) ≡ true }
    ensures moved { MovedSeat seat.old seat.new }
    ensures row { SeatRow seat.old → SeatRow seat.new }
    ensures items { reports.new.items ≡ reports.old.items }
    ensures opens { OpensTo seat.old seat.new spec reports.new.spare result }
    ensures holds { HoldsRow seat.old reports.old.items none → HoldsRow seat.new reports.new.items (last_opened result) }
    ensures entries { (paged : Bool) → OwnRow paged seat.old → OwnRow paged seat.new }
    ensures attaches { (specs : List Spec) → AttachRow seat.old specs None → AttachesTo seat.new specs spec result }
{
    let tally = match prepared(alloc, reports, &spec) {
        Ok(tally) => tally,
        Err(_) => return Opened::NoMemory,
    };
    opened_of(seat.attach(spec), tally)
}
