//! One event of the hub's history.
ghost use Rattle.std.specs.Prelude.{◌≡◌, ◌+◌, ◌≤◌, true, IfOk, IfErr, OnErr};
ghost use Rattle.gp_plain.specs.Fit.{fits};
ghost use Rattle.gp_hub.specs.Passes.{IsSame};
ghost use Rattle.gp_hub.specs.Calls.{HasCause, HasCalled, cause_of};

use crate::fault::HubFault;
use crate::hub::Hub;
use crate::pass::HubPass;
use gp_plain::{Event, Reply};
use gp_turn::TurnFault;

fn fault_of(fault: TurnFault<Event>) -> HubFault
    ensures { result ≡ cause_of fault }
{
    match fault {
        TurnFault::Busy(event, word) => HubFault::Busy(event, word),
        TurnFault::Worn(event) => HubFault::Worn(event),
        TurnFault::NoMemory(event) => HubFault::NoMemory(event),
    }
}

impl Hub {
    /// Serves an event as the pass's number. It waits for nobody, makes one attempt to take the turn, and holds it no
    /// more when it returns.
    ///
    /// A reply is that of the registry after all that the pass had seen, and what others added to it since. A fault
    /// adds nothing to the history.
    pub fn call(&self, pass: &mut HubPass, event: Event) -> Result<Reply, HubFault>
        requires turn { pass.old.turn ≡ self.now }
        requires fits { fits event ≡ true }
        ensures same { IsSame pass.old pass.new }
        ensures looks { pass.new.looks ≡ pass.old.looks + 1 }
        ensures ok { IfOk result (λ reply. HasCalled pass.old pass.new event reply) }
        ensures err { OnErr result (pass.new.seen ≡ pass.old.seen) }
        ensures cause { IfErr result (HasCause event pass.new.found) }
    {
        match self.turn.call(&mut pass.pass, event) {
            Ok(reply) => Ok(reply),
            Err(fault) => Err(fault_of(fault)),
        }
    }
}
