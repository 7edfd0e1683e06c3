//! The two doors of a kit: where clients come, and where publishers come.
ghost use Rattle.std.specs.Prelude.{ℕ, ◌≡◌, IfOk, IfErr};
ghost use Rattle.gp_outside.specs.Kits.{TellsTheSame};
ghost use Rattle.gp_outside.specs.Unused.{IsUnusedLink};
ghost use Rattle.gp_workers.specs.Doors.{HasAccepted};
ghost use Rattle.gp_workers.specs.Makers.{IsGiven, IsUnused};
ghost use Rattle.gp_workers.specs.Visits.{ended_by, gives_by};

use crate::maker::Maker;
use crate::visit::{Visit, Visiting};
use gp_hub::HubPass;
use gp_outside::{Accepted, Kit, Listen};

/// One of the doors.
#[derive(Clone, Copy, Drop)]
pub enum Door {
    Clients,
    Publishers,
}

/// Takes the next connection at a door.
pub fn accept<K: Kit>(kit: &mut K, door: Door) -> Accepted<<K::Listen as Listen>::Link>
    ensures { HasAccepted K.Listen.Link.tells K.Listen.tells (K.parts kit.old) (K.parts kit.new) result }
{
    match door {
        Door::Clients => kit.clients().accept(),
        Door::Publishers => kit.publishers().accept(),
    }
}

/// Makes the session of a connection, or hands its pass back where memory is wanting.
pub fn made<M: Maker>(
    maker: &M,
    kit: &mut M::Kit,
    door: Door,
    pass: HubPass,
    claim: u32,
    link: <<M::Kit as Kit>::Listen as Listen>::Link,
) -> Result<Visiting<M>, HubPass>
    requires pass { IsUnused (M.turn maker.now) pass }
    requires link { IsUnusedLink (M.Kit.Listen.Link.tells link) }
    ensures same { TellsTheSame (M.Kit.parts kit.old) (M.Kit.parts kit.new) }
    ensures runs { IfOk result (λ made. ended_by M.Client.ended M.Publisher.ended made.visit → ⊥) }
    ensures gives { IfOk result (λ made. (over : _) → gives_by M.Client.may_give M.Publisher.may_give made.visit over → IsGiven (M.means maker.now) (M.turn maker.now) claim pass.number over) }
    ensures err { IfErr result (λ back. back ≡ pass) }
{
    match door {
        Door::Clients => match maker.client(kit, pass, claim, link) {
            Ok(session) => Ok(Visiting {
                visit: Visit::Client(session),
            }),
            Err((pass, _)) => Err(pass),
        },
        Door::Publishers => match maker.publisher(kit, pass, link) {
            Ok(session) => Ok(Visiting {
                visit: Visit::Publisher(session),
            }),
            Err((pass, _)) => Err(pass),
        },
    }
}
